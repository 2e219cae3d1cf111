//! Types whose `==` and `clone` use every field.
#![tactic(auto)]

ghost use Rattle.std.specs.Prelude.{◌≡◌, ◌↔◌, IsTrue};

/// A type whose `==` returns whether two values are the same, and whose `clone` returns the same
/// value and cannot fail.
pub trait Exact: PartialEq + Clone {
    // In this order: `==` is true if and only if the values are the same. A clone of `v`
    // (`is_clone v w`) is `v`. Cloning cannot fail (`is_infallible`).
    ghost exact: { ((v w : Self) → IsTrue (Self.eq v w) ↔ (v ≡ w))
        × ((v w : Self) → Self.is_clone v w → w ≡ v)
        × ((v : Self) → Self.is_infallible v) };
}
