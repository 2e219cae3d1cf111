//! Building a request.

ghost use Rattle.std.specs.Prelude.{◌≡◌, [], ◌∷◌, ◌++◌, replicate};

use netlink_core::{NLM_F_DUMP, NLM_F_REQUEST, NetlinkHeader, NetlinkMessage};
use netlink_packet_sock_diag::SockDiagMessage;
use netlink_packet_sock_diag::unix::{ShowFlags, StateFlags, UnixRequest};

/// Returns the request for the names of all listening UNIX sockets: a netlink message of 40 bytes,
/// whose numbers are little-endian. The netlink header: length 40, type 20 (`SOCK_DIAG_BY_FAMILY`),
/// flags 0x301 (`NLM_F_REQUEST` and `NLM_F_DUMP`), sequence number and port id 0. Then `struct
/// unix_diag_req`: family 1 (`AF_UNIX`), protocol 0, padding, states 0x400 (bit 10, `TCP_LISTEN`),
/// inode 0, show 1 (`UDIAG_SHOW_NAME`), and a cookie of all ones.
pub fn request() -> [u8; 40]
    ensures { result ≡ (40 ∷ 0 ∷ 0 ∷ 0 ∷ 20 ∷ 0 ∷ 1 ∷ 3 ∷ replicate 8 0)
        ++ ((1 ∷ 0 ∷ 0 ∷ 0 ∷ 0 ∷ 4 ∷ 0 ∷ 0 ∷ 0 ∷ 0 ∷ 0 ∷ 0 ∷ 1 ∷ 0 ∷ 0 ∷ 0 ∷ [])
        ++ replicate 8 255) }
{
    let request = UnixRequest {
        state_flags: StateFlags::LISTEN,
        inode: 0,
        show_flags: ShowFlags::NAME,
        cookie: [0xff; 8],
    };
    let header = NetlinkHeader {
        flags: NLM_F_REQUEST | NLM_F_DUMP,
        ..NetlinkHeader::default()
    };
    let mut message = NetlinkMessage::new(header, SockDiagMessage::UnixRequest(request).into());
    message.finalize();
    let mut bytes = [0; 40];
    message.serialize(&mut bytes);
    bytes
}
