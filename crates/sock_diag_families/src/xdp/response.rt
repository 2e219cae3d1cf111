//! The header of a reply about an XDP socket.

ghost use Rattle.std.proofs.Common.{rules};
ghost use Rattle.netlink_core.proofs.LayoutLaws.{record_laws};
ghost use Rattle.sock_diag_families.specs.XdpResponseHeader.{xdp_header};
ghost use Rattle.sock_diag_families.specs.laws.Record.{xdp_header_sound};

use super::AF_XDP;
use netlink_core::fields::{u32s_at, u64s_at, write_bytes, write_u32s, write_u64s};
use netlink_core::{DecodeError, Exact, Record, RecordName};

/// Size of `struct xdp_diag_msg` in bytes.
pub const XDP_RESPONSE_HEADER_LEN: usize = 16;

/// The header of a reply about an XDP socket: `struct xdp_diag_msg` of `linux/xdp_diag.h`.
///
/// It has 16 bytes, little-endian. The bytes at offsets 0 (`xdiag_family`), 2 and 3 (`pad`) are
/// ignored, and serialized as AF_XDP (44) and 0.
#[repr(C)]
#[derive(Clone, Copy, Debug, Default, PartialEq, Eq)]
pub struct XdpResponseHeader {
    /// Socket type (`xdiag_type`), SOCK_RAW (3), at offset 1.
    pub kind: u8,
    /// Inode number of the socket (`xdiag_ino`), at offset 4.
    pub inode: u32,
    /// Cookie that distinguishes sockets with the same inode number (`xdiag_cookie`), at offset 8.
    pub cookie: u64,
}

impl Exact for XdpResponseHeader {
    ghost exact = { Prim.search rules };
}

impl Record for XdpResponseHeader {
    type Param = ();

    ghost layout = { xdp_header };

    fn name_and_least() -> (RecordName, usize) {
        (
            RecordName::FamilyResponseHeader { family: AF_XDP },
            XDP_RESPONSE_HEADER_LEN,
        )
    }

    fn size(&self) -> usize {
        XDP_RESPONSE_HEADER_LEN
    }

    /// Parses the first 16 bytes, and ignores the bytes after them. There have to be 16 bytes: the
    /// caller checks this first, and reports [`DecodeError::BufferTooSmall`].
    fn from_fields(payload: &[u8], _param: ()) -> Result<Self, DecodeError> {
        let [inode] = u32s_at::<1>(payload, 4);
        let [cookie] = u64s_at::<1>(payload, 8);
        Ok(XdpResponseHeader {
            kind: payload[1],
            inode,
            cookie,
        })
    }

    fn write_fields(&self, buffer: &mut [u8]) {
        let (start, rest) = buffer.split_at_mut(4);
        let (inode, cookie) = rest.split_at_mut(4);
        write_bytes(&[AF_XDP, self.kind, 0, 0], start);
        write_u32s(&[self.inode], inode);
        write_u64s(&[self.cookie], cookie);
    }

    ghost laws = { record_laws xdp_header xdp_header_sound };
}
