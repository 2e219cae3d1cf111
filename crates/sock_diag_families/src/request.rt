//! The request for netlink, packet and XDP sockets.

ghost use Rattle.std.proofs.Common.{rules};
ghost use Rattle.netlink_core.proofs.LayoutLaws.{record_laws};
ghost use Rattle.sock_diag_families.specs.laws.Record.{show_request_sound};
ghost use Rattle.sock_diag_families.specs.ShowRequest.{show_request};

use netlink_core::fields::{u32s_at, u64s_at, write_bytes, write_u32s, write_u64s};
use netlink_core::{DecodeError, Exact, Record, RecordName};

/// Size of `struct netlink_diag_req`, `packet_diag_req` and `xdp_diag_req` in bytes.
pub const SHOW_REQUEST_LEN: usize = 20;

/// A request for the sockets of `FAMILY`: `struct netlink_diag_req`, `packet_diag_req` or
/// `xdp_diag_req`, 20 bytes, little-endian. The bytes at offsets 0 (`sdiag_family`), 2 and 3
/// (`pad`) are ignored, and serialized as the family and 0.
#[derive(Clone, Copy, Debug, PartialEq, Eq)]
pub struct ShowRequest<const FAMILY: u8> {
    /// Protocol of the requested sockets (`sdiag_protocol`), at offset 1.
    pub protocol: u8,
    /// Inode number of a single socket (`ndiag_ino`, `pdiag_ino`, `xdiag_ino`), at offset 4. Linux
    /// only lists all sockets, and ignores it.
    pub inode: u32,
    /// Requested attributes (`ndiag_show`, `pdiag_show`, `xdiag_show`), at offset 8.
    pub show: u32,
    /// Cookie of a single socket (`ndiag_cookie`, `pdiag_cookie`, `xdiag_cookie`), at offset 12.
    /// Linux ignores it.
    pub cookie: u64,
}

impl<const FAMILY: u8> Exact for ShowRequest<FAMILY> {
    ghost exact = { Prim.search rules };
}

impl<const FAMILY: u8> Record for ShowRequest<FAMILY> {
    type Param = ();

    ghost layout = { show_request FAMILY };

    fn name_and_least() -> (RecordName, usize) {
        (
            RecordName::FamilyRequest { family: FAMILY },
            SHOW_REQUEST_LEN,
        )
    }

    fn size(&self) -> usize {
        SHOW_REQUEST_LEN
    }

    /// Parses the first 20 bytes, and ignores the bytes after them. There have to be 20 bytes: the
    /// caller checks this first, and reports [`DecodeError::BufferTooSmall`].
    fn from_fields(payload: &[u8], _param: ()) -> Result<Self, DecodeError> {
        let [inode, show] = u32s_at::<2>(payload, 4);
        let [cookie] = u64s_at::<1>(payload, 12);
        Ok(ShowRequest {
            protocol: payload[1],
            inode,
            show,
            cookie,
        })
    }

    fn write_fields(&self, buffer: &mut [u8]) {
        let (start, rest) = buffer.split_at_mut(4);
        let (u32s, cookie) = rest.split_at_mut(8);
        write_bytes(&[FAMILY, self.protocol, 0, 0], start);
        write_u32s(&[self.inode, self.show], u32s);
        write_u64s(&[self.cookie], cookie);
    }

    ghost laws = { record_laws (show_request FAMILY) (show_request_sound FAMILY) };
}
