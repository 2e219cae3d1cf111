//! Serializing and parsing a value of any type, with `netlink_core`.

ghost use Rattle.std.specs.Prelude.{◌≡◌, IfOk, IfErr};
ghost use Rattle.netlink_core.specs.declared.error.DecodeError.TheVariants.{Memory};

use netlink_core::{DecodeError, Wire};
use std::alloc::Global;

/// Copies a value by serializing and parsing it, and returns the equal copy. The value must be
/// writable, and in normal form for the parser's parameter `param`. Fails only with `Memory`, if an
/// allocation fails.
pub fn copy_by_bytes<T: Wire + Drop>(
    alloc: Global,
    value: &T,
    param: T::Param,
) -> Result<T, DecodeError>
    // `T.codec.is_normal param`: the value is in normal form, one that the parser returns.
    // `T.model`: the model of a value, to which the codec refers. `T.writable`: its lengths fit
    // their length fields.
    requires normal { T.codec.is_normal param (T.model value.now) }
    requires writable { T.writable value.now }
    ensures equal { IfOk result (λ copy. T.model copy ≡ T.model value.now) }
    ensures error { IfErr result (λ e. e ≡ Memory) }
{
    let mut bytes = vec![in alloc; 0; value.buffer_len()]?;
    value.emit(&mut bytes);
    T::read(alloc, &bytes, param)
}
