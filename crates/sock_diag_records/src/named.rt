//! The macro that lists the flags of a type.

/// Expands to a list of the given constants of a type, each with its name as text.
macro_rules! named_flags {
    ($flags:ident: $($name:ident),*) => {
        &[$(bitflags::Flag { name: stringify!($name), value: $flags::$name }),*]
    };
}

pub(crate) use named_flags;
