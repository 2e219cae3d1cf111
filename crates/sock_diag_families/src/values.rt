//! A check of the length of an attribute's value. A newer kernel may append fields to the value.

ghost use Rattle.std.specs.Prelude.{◌≡◌};
ghost use Rattle.netlink_core.specs.Errors.{map_ok};
ghost use Rattle.netlink_core.specs.declared.error.RecordName.TheVariants.{FamilyAttribute};
ghost use Rattle.sock_diag_families.specs.AttributeGetters.{with_length_at_least};

use netlink_core::{DecodeError, RecordName};

// Returns the value if it has at least `need` bytes, else the error [`DecodeError::BufferTooSmall`]
// with the family and the kind of the attribute, the length of the value, and `need`.
pub(crate) fn enough_in(
    value: &[u8],
    family: u8,
    kind: u16,
    need: usize,
) -> Result<&[u8], DecodeError>
    ensures { map_ok (λ value. value.now) result
        ≡ with_length_at_least (FamilyAttribute family kind) need value.entry.now }
{
    if value.len() < need {
        return Err(DecodeError::BufferTooSmall {
            which: RecordName::FamilyAttribute { family, kind },
            got: value.len(),
            need,
        });
    }
    Ok(value)
}
