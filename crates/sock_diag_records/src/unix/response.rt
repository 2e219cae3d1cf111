//! The header of a reply about a UNIX socket.

ghost use Rattle.std.proofs.Common.{rules};
ghost use Rattle.std.specs.Prelude.{◌≡◌, refl};
ghost use Rattle.netlink_core.specs.Layout.{parse_record};
ghost use Rattle.netlink_core.proofs.LayoutLaws.{record_laws};
ghost use Rattle.sock_diag_records.specs.UnixResponseHeader.{unix_response_header};
ghost use Rattle.sock_diag_records.specs.laws.UnixResponseHeader.{unix_response_header_sound};

use crate::constants::AF_UNIX;
use netlink_core::fields::{array_at, u32s_at, write_bytes, write_u32s};
use netlink_core::{DecodeError, Exact, Fills, Record, RecordBuffer, RecordName, read_record};

/// Size of `struct unix_diag_msg` in bytes.
pub const UNIX_RESPONSE_HEADER_LEN: usize = 16;

/// The header of a reply about a UNIX socket: `struct unix_diag_msg` (sock_diag(7)), 16 bytes. The
/// bytes at offsets 0 (`udiag_family`) and 3 (`pad`) are ignored, and serialized as AF_UNIX (1) and
/// 0.
#[derive(Clone, Debug, Drop, PartialEq, Eq)]
pub struct UnixResponseHeader {
    /// Socket type (`udiag_type`), `SOCK_*`, at offset 1.
    pub kind: u8,
    /// State (`udiag_state`), at offset 2: `TCP_ESTABLISHED` (1), `TCP_LISTEN` (10), or `TCP_CLOSE`
    /// (7), as of a socket that neither listens nor was ever connected.
    pub state: u8,
    /// Inode number of the socket (`udiag_ino`), little-endian, at offset 4.
    pub inode: u32,
    /// Cookie that distinguishes sockets with the same inode number (`udiag_cookie`), at offset 8.
    pub cookie: [u8; 8],
}

/// The 16 bytes of a [`UnixResponseHeader`], including the ignored ones.
pub type UnixResponseBuffer = RecordBuffer<UnixResponseHeader, UNIX_RESPONSE_HEADER_LEN>;

impl Exact for UnixResponseHeader {
    ghost exact = { Prim.search rules };
}

impl Record for UnixResponseHeader {
    type Param = ();

    ghost layout = { unix_response_header };

    fn name_and_least() -> (RecordName, usize) {
        (RecordName::UnixResponseHeader, UNIX_RESPONSE_HEADER_LEN)
    }

    fn size(&self) -> usize {
        UNIX_RESPONSE_HEADER_LEN
    }

    /// Parses the first 16 bytes, and ignores the bytes after them. There have to be 16 bytes: the
    /// caller checks this first, and reports [`DecodeError::BufferTooSmall`].
    fn from_fields(payload: &[u8], _param: ()) -> Result<Self, DecodeError> {
        let [inode] = u32s_at::<1>(payload, 4);
        Ok(UnixResponseHeader {
            kind: payload[1],
            state: payload[2],
            inode,
            cookie: array_at(payload, 8),
        })
    }

    fn write_fields(&self, buffer: &mut [u8]) {
        let (start, rest) = buffer.split_at_mut(4);
        let (inode, cookie) = rest.split_at_mut(4);
        write_bytes(&[AF_UNIX, self.kind, self.state, 0], start);
        write_u32s(&[self.inode], inode);
        write_bytes(&self.cookie, cookie);
    }

    ghost laws = { record_laws unix_response_header unix_response_header_sound };
}

impl UnixResponseHeader {
    /// Parses the first 16 bytes, and ignores the bytes after them. The first byte, the family, is
    /// not checked. It does not allocate. Fewer bytes are [`DecodeError::BufferTooSmall`], the only
    /// error.
    pub fn from_prefix(payload: &[u8]) -> Result<Self, DecodeError>
        ensures { result ≡ parse_record unix_response_header tt payload.now }
    {
        read_record(payload, ())
    }
}

impl Fills<UNIX_RESPONSE_HEADER_LEN> for UnixResponseHeader {
    ghost fills = { (refl, λ _. refl) };
}
