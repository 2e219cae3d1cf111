//! Raw attributes.

ghost use Rattle.std.specs.Prelude.{[], refl};
ghost use Rattle.netlink_core.specs.Walk.{buffered_attribute};

use netlink_core::{DecodeError, FamilyView, Nla, NlaBuffer};

/// A raw, borrowed attribute: its type field, and the bytes of its value.
#[derive(Clone, Copy, Debug, PartialEq, Eq)]
pub struct RawNla<'a>(pub NlaBuffer<'a>);

impl Nla for RawNla<'_> {
    ghost attribute = { λ nla. buffered_attribute nla.0 };

    fn value_len(&self) -> usize {
        self.0.value().len()
    }

    fn kind(&self) -> u16 {
        self.0.type_word()
    }

    fn emit_value(&self, buffer: &mut [u8]) {
        let value = self.0.value();
        buffer[..value.len()].copy_from_slice(value);
    }
}

impl<'a> FamilyView<'a> for RawNla<'a> {
    // The set of attribute types is empty, so that each attribute is raw.
    ghost attribute_set = { [] };

    ghost model = { λ nla. buffered_attribute nla.0 };

    ghost attribute_by_model = { λ _. refl };

    fn read_view(nla: &NlaBuffer<'a>) -> Result<Self, DecodeError> {
        Ok(RawNla(*nla))
    }

    fn read_accepted(nla: &NlaBuffer<'a>) -> Self {
        RawNla(*nla)
    }
}
