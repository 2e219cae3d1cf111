//! The instructions of the filter of a packet socket: PACKET_DIAG_FILTER.

ghost use Rattle.std.specs.Prelude.{refl};
ghost use Rattle.netlink_core.proofs.LayoutLaws.{plain_sound, record_laws};
ghost use Rattle.sock_diag_extras.specs.FilterInstruction.{filter_instruction};
ghost use Rattle.sock_diag_extras.specs.RecordTable.{layout_with_name};

use crate::record::AttributeRecord;
use byteorder::{ByteOrder, LittleEndian};

/// An instruction of a socket filter: one of the records in the value of `PACKET_DIAG_FILTER`,
/// `struct sock_filter` of `linux/filter.h`, 8 bytes. The numbers are little-endian.
#[repr(C)]
#[derive(Clone, Copy, Debug, PartialEq, Eq)]
pub struct FilterInstruction {
    /// What the instruction does, `code`, at offset 0.
    pub code: u16,
    /// Number of instructions to skip if its condition is met, `jt`, at offset 2.
    pub jump_if_met: u8,
    /// Number of instructions to skip if its condition is not met, `jf`, at offset 3.
    pub jump_if_not_met: u8,
    /// Operand, `k`, at offset 4.
    pub operand: u32,
}

impl AttributeRecord for FilterInstruction {
    ghost layout = { filter_instruction };

    fn size() -> usize {
        8
    }

    fn from_fields(bytes: &[u8]) -> Self {
        FilterInstruction {
            code: LittleEndian::read_u16(bytes),
            jump_if_met: bytes[2],
            jump_if_not_met: bytes[3],
            operand: LittleEndian::read_u32(&bytes[4..]),
        }
    }

    fn write_fields(&self, buffer: &mut [u8]) {
        let (code, after_code) = buffer.split_at_mut(2);
        let (jumps, operand) = after_code.split_at_mut(2);
        LittleEndian::write_u16_into(&[self.code], code);
        jumps.copy_from_slice(&[self.jump_if_met, self.jump_if_not_met]);
        LittleEndian::write_u32_into(&[self.operand], operand);
    }

    ghost laws = { λ name. record_laws (layout_with_name filter_instruction name) (plain_sound refl
        (λ _. refl) (λ _. refl) (λ _. tt) (λ _ _. refl)) };
}
