//! The memberships of a packet socket: PACKET_DIAG_MCLIST.

ghost use Rattle.std.specs.Prelude.{◌≡◌, refl};
ghost use Rattle.netlink_core.proofs.FieldReads.{first_numbers_are_all};
ghost use Rattle.netlink_core.proofs.LayoutLaws.{plain_sound, record_laws};
ghost use Rattle.sock_diag_extras.specs.PacketMembership.{packet_membership};
ghost use Rattle.sock_diag_extras.specs.RecordTable.{layout_with_name};

use crate::record::AttributeRecord;
use byteorder::{ByteOrder, LittleEndian};
use netlink_core::fields::array_at;

/// A membership of a packet socket: an address that it also receives, or all packets, or all
/// multicast packets. It is one of the records in the value of `PACKET_DIAG_MCLIST`, `struct
/// packet_diag_mclist` of `linux/packet_diag.h`, 44 bytes. The numbers are little-endian.
#[repr(C)]
#[derive(Clone, Copy, Debug, PartialEq, Eq)]
pub struct PacketMembership {
    /// Index of the interface, `pdmc_index`, at offset 0.
    pub interface: u32,
    /// Number of times that the membership was added, `pdmc_count`, at offset 4.
    pub count: u32,
    /// Type of the membership, `pdmc_type`, at offset 8: one of `PACKET_MR_..` of
    /// `linux/if_packet.h`.
    pub kind: u16,
    /// Length of the address, `pdmc_alen`, at offset 10, in bytes.
    pub address_length: u16,
    /// Address, `pdmc_addr`, at offset 12. Only the first `address_length` bytes are used.
    pub address: [u8; 32],
}

impl AttributeRecord for PacketMembership {
    ghost layout = { packet_membership };

    fn size() -> usize {
        44
    }

    fn from_fields(bytes: &[u8]) -> Self {
        PacketMembership {
            interface: LittleEndian::read_u32(bytes),
            count: LittleEndian::read_u32(&bytes[4..]),
            kind: LittleEndian::read_u16(&bytes[8..]),
            address_length: LittleEndian::read_u16(&bytes[10..]),
            address: array_at(bytes, 12),
        }
    }

    fn write_fields(&self, buffer: &mut [u8]) {
        let (words, after_words) = buffer.split_at_mut(8);
        let (halves, address) = after_words.split_at_mut(4);
        LittleEndian::write_u32_into(&[self.interface, self.count], words);
        LittleEndian::write_u16_into(&[self.kind, self.address_length], halves);
        address.copy_from_slice(&self.address);
    }

    // Proof only: the first 32 numbers of the array are all of its elements.
    ghost laws = { λ name. record_laws (layout_with_name packet_membership name) (plain_sound refl
        (λ _. refl) (λ _. refl) (λ _. refl) (λ v shaped.
        let address = first_numbers_are_all 32 v.address shaped in
        λ i. record v { address = address i })) };
}

impl PacketMembership {
    ghost use Rattle.sock_diag_extras.specs.PacketMembership.{used_address};

    /// Returns the bytes of the address that are used: the first `address_length` bytes of
    /// `address`, or all 32 if it is greater.
    pub fn used_address(&self) -> &[u8]
        ensures { result.now ≡ used_address self.now }
    {
        let length = self.address_length as usize;
        if length < 32 {
            &self.address[..length]
        } else {
            &self.address
        }
    }
}
