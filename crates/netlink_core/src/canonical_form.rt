//! The canonical form of bytes: all inputs that differ only in ignored bits have the same one.

ghost use Rattle.std.specs.Prelude.{◌≡◌, ◌≢◌, ◌↔◌, ℕ, List, IfOk, IfErr};
ghost use Rattle.netlink_core.specs.Bytes.{IsBytes};
ghost use Rattle.netlink_core.specs.Canonical.{HasCanonicalForm, CanonicalFormFails};
ghost use Rattle.netlink_core.specs.declared.canonical_form.CanonError.TheVariants as canon_errors;
ghost use Rattle.netlink_core.specs.declared.error.DecodeError.TheVariants as errors;

use crate::{DecodeError, Wire};
use std::alloc::{AllocError, Global};

/// Why no canonical form is returned.
#[derive(Clone, Copy, Debug, PartialEq, Eq)]
pub enum CanonError {
    /// The bytes are rejected, with this error.
    Refused(DecodeError),
    /// The value of the bytes is not writable.
    Unwritable,
    /// An allocation failed.
    Memory,
}

impl From<DecodeError> for CanonError {
    ghost from_gives = { λ error converted.
        (error ≡ errors.Memory → converted ≡ canon_errors.Memory)
        × (error ≢ errors.Memory → converted ≡ canon_errors.Refused error) };

    fn from(error: DecodeError) -> CanonError {
        match error {
            DecodeError::Memory => CanonError::Memory,
            rejection => CanonError::Refused(rejection),
        }
    }
}

impl From<AllocError> for CanonError {
    ghost from_gives = { λ _ e. e ≡ canon_errors.Memory };

    fn from(_e: AllocError) -> CanonError {
        CanonError::Memory
    }
}

/// Returns the canonical form of the bytes: the bytes that their value serializes to. `param` is
/// the parameter of the codec. All inputs that differ only in ignored bits have the same canonical
/// form.
///
/// Fails with `Refused` and the parser's first error, with `Unwritable` if a length of the value
/// does not fit its field, and with `Memory` only if the value is writable.
pub fn canonical<T: Wire + Drop>(
    alloc: Global,
    bytes: &[u8],
    param: T::Param,
) -> Result<Vec<u8>, CanonError>
    ensures written { IfOk result (λ form. HasCanonicalForm T.codec param bytes.now form.items) }
    // Other bytes with a canonical form have the same one if and only if they are equivalent to
    // these bytes.
    ensures same { IfOk result (λ form. (others other_form : List ℕ) → IsBytes others
        → HasCanonicalForm T.codec param others other_form
        → ((other_form ≡ form.items) ↔ T.codec.equivalent param bytes.now others)) }
    // The canonical form is its own canonical form.
    ensures again { IfOk result (λ form.
        IsBytes form.items × HasCanonicalForm T.codec param form.items form.items) }
    ensures err { IfErr result (CanonicalFormFails T.codec param bytes.now) }
{
    T::rewrite(alloc, bytes, param)
}
