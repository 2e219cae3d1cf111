//! The request for vsock sockets.

ghost use Rattle.std.proofs.Common.{rules};
ghost use Rattle.netlink_core.proofs.LayoutLaws.{record_laws};
ghost use Rattle.sock_diag_families.specs.laws.Record.{vsock_request_sound};
ghost use Rattle.sock_diag_families.specs.VsockRequest.{vsock_request};

use super::AF_VSOCK;
use netlink_core::fields::{u32s_at, u64s_at, write_u32s, write_u64s};
use netlink_core::{DecodeError, Exact, Record, RecordName};

/// Size of `struct vsock_diag_req` in bytes.
pub const VSOCK_REQUEST_LEN: usize = 24;

/// A request for vsock sockets: `struct vsock_diag_req`, 24 bytes, little-endian. The bytes at
/// offsets 0 to 3 (`sdiag_family`, `sdiag_protocol`, `pad`) and 8 to 15 (`vdiag_ino`, `vdiag_show`)
/// are ignored. They are serialized as AF_VSOCK (40) and zeros, as `linux/vm_sockets_diag.h`
/// requires. Linux only lists all sockets: a single socket cannot be requested.
#[derive(Clone, Copy, Debug, PartialEq, Eq)]
pub struct VsockRequest {
    /// Requested states (`vdiag_states`), at offset 4. The bit of a state is `1 << state`, such as
    /// `1 << TCP_LISTEN`.
    pub states: u32,
    /// Cookie of a single socket (`vdiag_cookie`), at offset 16. Linux ignores it.
    pub cookie: u64,
}

impl Exact for VsockRequest {
    ghost exact = { Prim.search rules };
}

impl Record for VsockRequest {
    type Param = ();

    ghost layout = { vsock_request };

    fn name_and_least() -> (RecordName, usize) {
        (
            RecordName::FamilyRequest { family: AF_VSOCK },
            VSOCK_REQUEST_LEN,
        )
    }

    fn size(&self) -> usize {
        VSOCK_REQUEST_LEN
    }

    /// Parses the first 24 bytes, and ignores the bytes after them. There have to be 24 bytes: the
    /// caller checks this first, and reports [`DecodeError::BufferTooSmall`].
    fn from_fields(payload: &[u8], _param: ()) -> Result<Self, DecodeError> {
        let [states] = u32s_at::<1>(payload, 4);
        let [cookie] = u64s_at::<1>(payload, 16);
        Ok(VsockRequest { states, cookie })
    }

    fn write_fields(&self, buffer: &mut [u8]) {
        let (u32s, cookie) = buffer.split_at_mut(16);
        // Little-endian: the byte at offset 0 is the family, and those at 1 to 3 are 0. The last
        // two zeros are `vdiag_ino` and `vdiag_show`.
        write_u32s(&[AF_VSOCK as u32, self.states, 0, 0], u32s);
        write_u64s(&[self.cookie], cookie);
    }

    ghost laws = { record_laws vsock_request vsock_request_sound };
}
