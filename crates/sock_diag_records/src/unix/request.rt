//! The request for UNIX sockets.

ghost use Rattle.std.proofs.Common.{rules};
ghost use Rattle.std.specs.Prelude.{refl};
ghost use Rattle.netlink_core.proofs.LayoutLaws.{record_laws};
ghost use Rattle.sock_diag_records.specs.UnixRequest.{unix_request};
ghost use Rattle.sock_diag_records.specs.laws.UnixRequest.{unix_request_sound};

use super::{ShowFlags, StateFlags};
use crate::constants::AF_UNIX;
use bitflags::Flags;
use netlink_core::fields::{array_at, u32s_at, write_bytes, write_u32s};
use netlink_core::{DecodeError, Exact, Fills, Record, RecordBuffer, RecordName};

/// Size of `struct unix_diag_req` in bytes.
pub const UNIX_REQUEST_LEN: usize = 24;

/// A request for UNIX sockets: `struct unix_diag_req` (sock_diag(7)), 24 bytes, little-endian. The
/// bytes at offsets 0 to 3 (`sdiag_family`, `sdiag_protocol`, `pad`) are ignored, and serialized as
/// AF_UNIX (1), 0, 0, 0.
#[derive(Clone, Debug, Drop, PartialEq, Eq)]
pub struct UnixRequest {
    /// Requested states (`udiag_states`), at offset 4. The parser masks off undefined bits. The
    /// kernel ignores it in a request for a single socket.
    pub state_flags: StateFlags,
    /// Inode number of the requested socket (`udiag_ino`), at offset 8. The kernel ignores it in a
    /// request for all sockets.
    pub inode: u32,
    /// Requested attributes (`udiag_show`), at offset 12. The parser masks off undefined bits.
    pub show_flags: ShowFlags,
    /// Cookie that distinguishes sockets with the same inode number (`udiag_cookie`), at offset 16.
    /// The kernel ignores it in a request for all sockets. Eight bytes 0xff select any cookie.
    pub cookie: [u8; 8],
}

/// The 24 bytes of a [`UnixRequest`], including the ignored ones.
pub type UnixRequestBuffer = RecordBuffer<UnixRequest, UNIX_REQUEST_LEN>;

impl Exact for UnixRequest {
    ghost exact = { Prim.search rules };
}

impl Record for UnixRequest {
    type Param = ();

    ghost layout = { unix_request };

    fn name_and_least() -> (RecordName, usize) {
        (RecordName::UnixRequest, UNIX_REQUEST_LEN)
    }

    fn size(&self) -> usize {
        UNIX_REQUEST_LEN
    }

    /// Parses the first 24 bytes, and ignores the bytes after them. There have to be 24 bytes: the
    /// caller checks this first, and reports [`DecodeError::BufferTooSmall`].
    fn from_fields(payload: &[u8], _param: ()) -> Result<Self, DecodeError> {
        let [state_flags, inode, show_flags] = u32s_at::<3>(payload, 4);
        Ok(UnixRequest {
            state_flags: StateFlags::from_bits_truncate(state_flags),
            inode,
            show_flags: ShowFlags::from_bits_truncate(show_flags),
            cookie: array_at(payload, 16),
        })
    }

    fn write_fields(&self, buffer: &mut [u8]) {
        let (start, rest) = buffer.split_at_mut(4);
        let (u32s, cookie) = rest.split_at_mut(12);
        write_bytes(&[AF_UNIX, 0, 0, 0], start);
        write_u32s(
            &[self.state_flags.bits(), self.inode, self.show_flags.bits()],
            u32s,
        );
        write_bytes(&self.cookie, cookie);
    }

    ghost laws = { record_laws unix_request unix_request_sound };
}

impl Fills<UNIX_REQUEST_LEN> for UnixRequest {
    ghost fills = { (refl, λ _. refl) };
}
