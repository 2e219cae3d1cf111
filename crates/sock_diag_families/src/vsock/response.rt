//! The header of a reply about a vsock socket.

ghost use Rattle.std.proofs.Common.{rules};
ghost use Rattle.netlink_core.proofs.LayoutLaws.{record_laws};
ghost use Rattle.sock_diag_families.specs.VsockResponseHeader.{vsock_header};
ghost use Rattle.sock_diag_families.specs.laws.Record.{vsock_header_sound};

use super::AF_VSOCK;
use netlink_core::fields::{u32s_at, u64s_at, write_bytes, write_u32s, write_u64s};
use netlink_core::{DecodeError, Exact, Record, RecordName};

/// Size of `struct vsock_diag_msg` in bytes.
pub const VSOCK_RESPONSE_HEADER_LEN: usize = 32;

/// The header of a reply about a vsock socket: `struct vsock_diag_msg` of
/// `linux/vm_sockets_diag.h`. Linux sends no attributes after it.
///
/// It has 32 bytes, little-endian. The byte at offset 0 (`vdiag_family`) is ignored, and serialized
/// as AF_VSOCK (40).
#[repr(C)]
#[derive(Clone, Copy, Debug, Default, PartialEq, Eq)]
pub struct VsockResponseHeader {
    /// Socket type (`vdiag_type`), `SOCK_*`, at offset 1.
    pub kind: u8,
    /// State (`vdiag_state`), `TCP_*`, at offset 2.
    pub state: u8,
    /// Directions that the socket has shut down (`vdiag_shutdown`), at offset 3: 1 (`RCV_SHUTDOWN`)
    /// for receiving, 2 (`SEND_SHUTDOWN`) for sending, 3 for both.
    pub shutdown: u8,
    /// Context id of the socket (`vdiag_src_cid`), at offset 4. The host has context id 2.
    pub source_context: u32,
    /// Port of the socket (`vdiag_src_port`), at offset 8.
    pub source_port: u32,
    /// Context id of the peer (`vdiag_dst_cid`), at offset 12.
    pub destination_context: u32,
    /// Port of the peer (`vdiag_dst_port`), at offset 16.
    pub destination_port: u32,
    /// Inode number of the socket (`vdiag_ino`), at offset 20.
    pub inode: u32,
    /// Cookie that distinguishes sockets with the same inode number (`vdiag_cookie`), at offset 24.
    pub cookie: u64,
}

impl Exact for VsockResponseHeader {
    ghost exact = { Prim.search rules };
}

impl Record for VsockResponseHeader {
    type Param = ();

    ghost layout = { vsock_header };

    fn name_and_least() -> (RecordName, usize) {
        (
            RecordName::FamilyResponseHeader { family: AF_VSOCK },
            VSOCK_RESPONSE_HEADER_LEN,
        )
    }

    fn size(&self) -> usize {
        VSOCK_RESPONSE_HEADER_LEN
    }

    /// Parses the first 32 bytes, and ignores the bytes after them. There have to be 32 bytes: the
    /// caller checks this first, and reports [`DecodeError::BufferTooSmall`].
    fn from_fields(payload: &[u8], _param: ()) -> Result<Self, DecodeError> {
        let [
            source_context,
            source_port,
            destination_context,
            destination_port,
            inode,
        ] = u32s_at::<5>(payload, 4);
        let [cookie] = u64s_at::<1>(payload, 24);
        Ok(VsockResponseHeader {
            kind: payload[1],
            state: payload[2],
            shutdown: payload[3],
            source_context,
            source_port,
            destination_context,
            destination_port,
            inode,
            cookie,
        })
    }

    fn write_fields(&self, buffer: &mut [u8]) {
        let (start, rest) = buffer.split_at_mut(4);
        let (u32s, cookie) = rest.split_at_mut(20);
        write_bytes(&[AF_VSOCK, self.kind, self.state, self.shutdown], start);
        let numbers = [
            self.source_context,
            self.source_port,
            self.destination_context,
            self.destination_port,
            self.inode,
        ];
        write_u32s(&numbers, u32s);
        write_u64s(&[self.cookie], cookie);
    }

    ghost laws = { record_laws vsock_header vsock_header_sound };
}
