//! The header of a reply about a packet socket.

ghost use Rattle.std.proofs.Common.{rules};
ghost use Rattle.netlink_core.proofs.LayoutLaws.{record_laws};
ghost use Rattle.sock_diag_families.specs.PacketResponseHeader.{packet_header};
ghost use Rattle.sock_diag_families.specs.laws.Record.{packet_header_sound};

use byteorder::{ByteOrder, LittleEndian};
use netlink_core::fields::{u32s_at, u64s_at, write_bytes, write_u16s, write_u32s, write_u64s};
use netlink_core::{DecodeError, Exact, Record, RecordName};
use sock_diag_records::constants::AF_PACKET;

/// Size of `struct packet_diag_msg` in bytes.
pub const PACKET_RESPONSE_HEADER_LEN: usize = 16;

/// The header of a reply about a packet socket: `struct packet_diag_msg` of `linux/packet_diag.h`.
///
/// It has 16 bytes, little-endian. The byte at offset 0 (`pdiag_family`) is ignored, and serialized
/// as AF_PACKET (17).
#[repr(C)]
#[derive(Clone, Copy, Debug, Default, PartialEq, Eq)]
pub struct PacketResponseHeader {
    /// Socket type (`pdiag_type`), `SOCK_*`, at offset 1.
    pub kind: u8,
    /// Protocol (`pdiag_num`), `ETH_P_*` of `linux/if_ether.h`, at offset 2. It is not in network
    /// byte order.
    pub protocol: u16,
    /// Inode number of the socket (`pdiag_ino`), at offset 4.
    pub inode: u32,
    /// Cookie that distinguishes sockets with the same inode number (`pdiag_cookie`), at offset 8.
    pub cookie: u64,
}

impl Exact for PacketResponseHeader {
    ghost exact = { Prim.search rules };
}

impl Record for PacketResponseHeader {
    type Param = ();

    ghost layout = { packet_header };

    fn name_and_least() -> (RecordName, usize) {
        (
            RecordName::FamilyResponseHeader { family: AF_PACKET },
            PACKET_RESPONSE_HEADER_LEN,
        )
    }

    fn size(&self) -> usize {
        PACKET_RESPONSE_HEADER_LEN
    }

    /// Parses the first 16 bytes, and ignores the bytes after them. There have to be 16 bytes: the
    /// caller checks this first, and reports [`DecodeError::BufferTooSmall`].
    fn from_fields(payload: &[u8], _param: ()) -> Result<Self, DecodeError> {
        let [inode] = u32s_at::<1>(payload, 4);
        let [cookie] = u64s_at::<1>(payload, 8);
        Ok(PacketResponseHeader {
            kind: payload[1],
            protocol: LittleEndian::read_u16(&payload[2..]),
            inode,
            cookie,
        })
    }

    fn write_fields(&self, buffer: &mut [u8]) {
        let (start, rest) = buffer.split_at_mut(2);
        let (protocol, rest) = rest.split_at_mut(2);
        let (inode, cookie) = rest.split_at_mut(4);
        write_bytes(&[AF_PACKET, self.kind], start);
        write_u16s(&[self.protocol], protocol);
        write_u32s(&[self.inode], inode);
        write_u64s(&[self.cookie], cookie);
    }

    ghost laws = { record_laws packet_header packet_header_sound };
}
