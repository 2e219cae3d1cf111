//! A request, with `sock_diag_records`.

ghost use Rattle.std.specs.Prelude.{◌≡◌, ◌∷◌, ◌++◌, [], replicate};

use sock_diag_records::unix::{
    ShowFlags, StateFlags, UNIX_REQUEST_LEN, UnixRequest, UnixRequestBuffer,
};

/// Returns the request for the names of all listening UNIX sockets: the 24 bytes of a
/// `struct unix_diag_req`, without a netlink header. Family 1 (`AF_UNIX`), protocol 0, padding;
/// states 0x400 (bit 10, `TCP_LISTEN`); inode 0; show 1 (`UDIAG_SHOW_NAME`); cookie all ones. The
/// numbers of 32 bits are little-endian.
pub fn listening_sockets() -> [u8; UNIX_REQUEST_LEN]
    ensures { result ≡ (1 ∷ 0 ∷ 0 ∷ 0 ∷ []) ++ (0 ∷ 4 ∷ 0 ∷ 0 ∷ []) ++ (0 ∷ 0 ∷ 0 ∷ 0 ∷ [])
        ++ (1 ∷ 0 ∷ 0 ∷ 0 ∷ []) ++ replicate 8 255 }
{
    let request = UnixRequest {
        state_flags: StateFlags::LISTEN,
        inode: 0,
        show_flags: ShowFlags::NAME,
        cookie: [0xff; 8],
    };
    UnixRequestBuffer::from(&request).to_bytes()
}
