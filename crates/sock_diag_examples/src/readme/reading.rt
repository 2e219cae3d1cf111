//! Parsing a borrowed reply.

ghost use Rattle.std.specs.Prelude.{◌≡◌, IfOk, IfErr};
ghost use Rattle.netlink_packet_sock_diag.specs.Message.{Message, message_codec};
ghost use Rattle.sock_diag_examples.specs.Readme.{path_of, path_bytes};

use netlink_core::DecodeError;
use netlink_packet_sock_diag::SockDiagView;
use netlink_packet_sock_diag::unix::nlas::NameView;

/// Returns the path in the first `UNIX_DIAG_NAME` of a reply about a UNIX socket, which is the
/// payload of a message of this type. Returns `None` if the reply has no such attribute, if the
/// name is abstract, or for a reply about an IPv4 or IPv6 socket. Returns the first decode error if
/// the payload is rejected. In the contract `path_bytes path` are the bytes of the returned path,
/// if there is one, and `path_of m` are those of this path in the message `m` that the payload
/// parses as.
pub fn path<'a>(payload: &'a [u8], message_type: u16) -> Result<Option<&'a [u8]>, DecodeError>
    ensures value { IfOk result (λ path. (m : Message)
        × message_codec.parses payload.entry.now message_type m
        × (path_bytes path ≡ path_of m)) }
    ensures error { IfErr result (message_codec.rejects payload.entry.now message_type) }
{
    match SockDiagView::parse(payload, message_type)? {
        SockDiagView::UnixResponse(reply) => match reply.name() {
            Some(NameView::Pathname(path)) => Ok(Some(path)),
            _ => Ok(None),
        },
        SockDiagView::InetResponse(_) => Ok(None),
    }
}
