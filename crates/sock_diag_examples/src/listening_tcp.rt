//! The request for all listening TCP sockets.

ghost use Rattle.std.proofs.Common.{rules};
ghost use Rattle.std.specs.Prelude.{◌≡◌, [], ◌∷◌, ◌++◌, replicate};
ghost use Rattle.byteorder.specs.Endian.{little_bytes};
ghost use Rattle.netlink_core.specs.NetlinkMessageModel.{netlink_message_model};
ghost use Rattle.netlink_packet_sock_diag.specs.Message.{netlink_message_codec};
ghost use Rattle.netlink_packet_sock_diag.specs.MessageModel.{message_model};
ghost use Rattle.sock_diag_examples.specs.ListeningTcp.{family_number, listening_request};

use bitflags::Flags;
use netlink_core::{
    Exact, NETLINK_HEADER_LEN, NLM_F_DUMP, NLM_F_REQUEST, NetlinkHeader, NetlinkMessage,
    NetlinkPayload,
};
use netlink_packet_sock_diag::SockDiagMessage;
use netlink_packet_sock_diag::constants::{AF_INET, AF_INET6, IPPROTO_TCP};
use netlink_packet_sock_diag::inet::{
    ExtensionFlags, INET_REQUEST_LEN, InetRequest, SocketId, StateFlags,
};

/// Length of the request in bytes: 16 of the netlink header and 56 of `struct inet_diag_req_v2`.
pub const REQUEST_LENGTH: usize = NETLINK_HEADER_LEN + INET_REQUEST_LEN;

/// Address family of the sockets that are requested.
#[derive(Clone, Copy, Debug, PartialEq, Eq)]
pub enum Family {
    /// IPv4, `AF_INET`.
    Inet,
    /// IPv6, `AF_INET6`.
    Inet6,
}

impl Exact for Family {
    ghost exact = { Prim.search rules };
}

/// Returns the request for all listening TCP sockets of a family, and for none of their attributes.
/// Its header is finalized, and has the flags `NLM_F_REQUEST` and `NLM_F_DUMP`. The kernel's
/// replies repeat the sequence number.
#[tactic(auto, unfolding(sock_diag_records::specs::InetRequest::inet_request))]
pub fn listening_tcp(family: Family, sequence_number: u32) -> NetlinkMessage<SockDiagMessage>
    ensures { netlink_message_model message_model result
        ≡ listening_request family sequence_number }
{
    let (family, socket_id) = match family {
        Family::Inet => (AF_INET, SocketId::new_v4()),
        Family::Inet6 => (AF_INET6, SocketId::new_v6()),
    };
    let request = InetRequest {
        family,
        protocol: IPPROTO_TCP,
        extensions: ExtensionFlags::empty(),
        states: StateFlags::LISTEN,
        socket_id,
    };
    let header = NetlinkHeader {
        flags: NLM_F_REQUEST | NLM_F_DUMP,
        sequence_number,
        ..NetlinkHeader::default()
    };
    let mut message = NetlinkMessage::new(header, SockDiagMessage::InetRequest(request).into());
    message.finalize();
    message
}

/// Returns the bytes of [`listening_tcp`] as they are sent.
#[tactic(auto, unfolding(sock_diag_records::specs::InetRequest::inet_request))]
pub fn listening_tcp_bytes(family: Family, sequence_number: u32) -> [u8; REQUEST_LENGTH]
    ensures written { result ≡ netlink_message_codec.serialized
        (listening_request family sequence_number) }
    // Length 72, type 20, flags 0x301, the sequence number, port id 0; the family (`family_number`,
    // 2 or 10), protocol 6, no extensions, a pad byte, the state LISTEN (bit 10); a socket id of 48
    // zeros.
    ensures bytes { result ≡ (72 ∷ 0 ∷ 0 ∷ 0 ∷ 20 ∷ 0 ∷ 1 ∷ 3 ∷ [])
        ++ (little_bytes 4 sequence_number ++ (0 ∷ 0 ∷ 0 ∷ 0 ∷ family_number family ∷ 6 ∷ 0 ∷ 0 ∷ 0
        ∷ 4 ∷ 0 ∷ 0 ∷ replicate 48 0)) }
{
    let mut bytes = [0; REQUEST_LENGTH];
    listening_tcp(family, sequence_number).serialize(&mut bytes);
    bytes
}
