//! The header of a reply about a socket of any family.

ghost use Rattle.std.specs.Prelude.{◌≡◌, ◌≤◌, IfOk, length};
ghost use Rattle.netlink_core.specs.Layout.{parse_record};
ghost use Rattle.sock_diag_records.specs.InetResponse.{inet_response_header};
ghost use Rattle.sock_diag_any.specs.AnyHeader.{any_header, header_of_family, header_of_type};
ghost use Rattle.sock_diag_any.specs.AnyHeader.{header_size, sockets_of, timer_at};

use crate::nla::{InfoFormat, Sockets};
use byteorder::{ByteOrder, LittleEndian};
use netlink_core::{DecodeError, Record, read_record};
use sock_diag_extras::constants::{DCCPDIAG_GETSOCK, TCPDIAG_GETSOCK};
use sock_diag_families::netlink::{NETLINK_RESPONSE_HEADER_LEN, NetlinkResponseHeader};
use sock_diag_families::packet::{PACKET_RESPONSE_HEADER_LEN, PacketResponseHeader};
use sock_diag_families::vsock::{AF_VSOCK, VSOCK_RESPONSE_HEADER_LEN, VsockResponseHeader};
use sock_diag_families::xdp::{AF_XDP, XDP_RESPONSE_HEADER_LEN, XdpResponseHeader};
use sock_diag_records::constants::{
    AF_INET, AF_INET6, AF_NETLINK, AF_PACKET, AF_UNIX, SOCK_DIAG_BY_FAMILY,
};
use sock_diag_records::inet::{INET_RESPONSE_HEADER_LEN, InetResponseHeader};
use sock_diag_records::unix::{UNIX_RESPONSE_HEADER_LEN, UnixResponseHeader};

/// The header of a reply about a socket of any family.
#[derive(Clone, Debug, Drop)]
pub enum AnyHeader {
    /// Of a reply about a UNIX socket: `struct unix_diag_msg`.
    Unix(UnixResponseHeader),
    /// Of a reply about an IPv4 or IPv6 socket: `struct inet_diag_msg`.
    Inet(InetResponseHeader),
    /// Of a reply about a netlink socket: `struct netlink_diag_msg`.
    Netlink(NetlinkResponseHeader),
    /// Of a reply about a packet socket: `struct packet_diag_msg`.
    Packet(PacketResponseHeader),
    /// Of a reply about a vsock socket: `struct vsock_diag_msg`.
    Vsock(VsockResponseHeader),
    /// Of a reply about an XDP socket: `struct xdp_diag_msg`.
    Xdp(XdpResponseHeader),
}

/// The timer of an IPv4 or IPv6 socket, as the kernel sends it. The port's `Timer` has less.
#[derive(Clone, Copy, Debug, PartialEq, Eq)]
pub struct RawTimer {
    /// What the timer is for (`idiag_timer`). Of a TCP socket: 0 none, 1 retransmission, 2
    /// keepalive, 3 TIME_WAIT, 4 zero window probe, 5 delayed acknowledgement (since Linux 7.2). Of
    /// an SCTP association: 0 none, or else its retransmission timer.
    pub kind: u8,
    /// Number of retransmissions, or of probes for keepalive and zero window probes
    /// (`idiag_retrans`).
    pub retransmits: u8,
    /// Time until the timer expires, in milliseconds (`idiag_expires`).
    pub expires: u32,
}

impl RawTimer {
    /// Parses the timer in the header of a reply about an IPv4 or IPv6 socket. The payload must
    /// have at least the bytes of this header.
    pub fn parse(payload: &[u8]) -> RawTimer
        requires { INET_RESPONSE_HEADER_LEN ≤ length payload.now }
        ensures { result ≡ timer_at payload.now }
    {
        // The offsets of `idiag_timer`, `idiag_retrans` and `idiag_expires`.
        RawTimer {
            kind: payload[2],
            retransmits: payload[3],
            expires: LittleEndian::read_u32(&payload[52..]),
        }
    }
}

impl AnyHeader {
    /// Parses the header of the reply in the payload of a netlink message of this type. Returns
    /// `MessageTooShort` for fewer than 2 bytes; else `UnknownMessageType` for a type other than
    /// `SOCK_DIAG_BY_FAMILY`, `TCPDIAG_GETSOCK` and `DCCPDIAG_GETSOCK`; else `UnknownFamily` for a
    /// `SOCK_DIAG_BY_FAMILY` whose first byte is none of `AF_INET`, `AF_INET6`, `AF_UNIX`,
    /// `AF_NETLINK`, `AF_PACKET`, `AF_VSOCK` and `AF_XDP`; else the error of the header.
    pub fn parse(payload: &[u8], message_type: u16) -> Result<AnyHeader, DecodeError>
        ensures header { result ≡ any_header payload.now message_type }
        ensures long { IfOk result (λ header. header_size header ≤ length payload.now) }
    {
        if payload.len() < 2 {
            return Err(DecodeError::MessageTooShort { got: payload.len() });
        }
        AnyHeader::of_type(message_type, payload)
    }

    // Parses the header at the start of the payload of a `SOCK_DIAG_BY_FAMILY` of this family.
    #[tactic(auto, unfolding(crate::specs::AnyHeader::header_of_family))]
    fn of_family(family: u8, payload: &[u8]) -> Result<AnyHeader, DecodeError>
        ensures header { result ≡ header_of_family family payload.now }
        ensures long { IfOk result (λ header. header_size header ≤ length payload.now) }
    {
        match family {
            AF_UNIX => Ok(AnyHeader::Unix(parse(payload)?)),
            AF_INET | AF_INET6 => Ok(AnyHeader::Inet(parse_inet(payload)?)),
            AF_NETLINK => Ok(AnyHeader::Netlink(parse(payload)?)),
            AF_PACKET => Ok(AnyHeader::Packet(parse(payload)?)),
            AF_VSOCK => Ok(AnyHeader::Vsock(parse(payload)?)),
            AF_XDP => Ok(AnyHeader::Xdp(parse(payload)?)),
            family => Err(DecodeError::UnknownFamily { family }),
        }
    }

    // Parses the header at the start of the payload of a message of this type. The payload must not
    // be empty.
    #[tactic(auto, unfolding(crate::specs::AnyHeader::header_of_type))]
    fn of_type(message_type: u16, payload: &[u8]) -> Result<AnyHeader, DecodeError>
        requires { 1 ≤ length payload.now }
        ensures header { result ≡ header_of_type message_type payload.now }
        ensures long { IfOk result (λ header. header_size header ≤ length payload.now) }
    {
        match message_type {
            SOCK_DIAG_BY_FAMILY => AnyHeader::of_family(payload[0], payload),
            TCPDIAG_GETSOCK | DCCPDIAG_GETSOCK => Ok(AnyHeader::Inet(parse_inet(payload)?)),
            message_type => Err(DecodeError::UnknownMessageType { message_type }),
        }
    }

    /// Returns the size of the header in bytes.
    pub fn size(&self) -> usize
        ensures { result ≡ header_size self.now }
    {
        match self {
            AnyHeader::Unix(_) => UNIX_RESPONSE_HEADER_LEN,
            AnyHeader::Inet(_) => INET_RESPONSE_HEADER_LEN,
            AnyHeader::Netlink(_) => NETLINK_RESPONSE_HEADER_LEN,
            AnyHeader::Packet(_) => PACKET_RESPONSE_HEADER_LEN,
            AnyHeader::Vsock(_) => VSOCK_RESPONSE_HEADER_LEN,
            AnyHeader::Xdp(_) => XDP_RESPONSE_HEADER_LEN,
        }
    }

    /// Returns the sockets that a reply with this header is about. `format` is that of
    /// `INET_DIAG_INFO`.
    pub fn sockets(&self, format: InfoFormat) -> Sockets
        ensures { result ≡ sockets_of self.now format }
    {
        match self {
            AnyHeader::Unix(_) => Sockets::Unix,
            AnyHeader::Inet(_) => Sockets::Inet(format),
            AnyHeader::Netlink(_) => Sockets::Netlink,
            AnyHeader::Packet(_) => Sockets::Packet,
            AnyHeader::Vsock(_) => Sockets::Vsock,
            AnyHeader::Xdp(_) => Sockets::Xdp,
        }
    }
}

// Parses the record at the start of the payload.
#[tactic(auto, using(netlink_core::proofs::LayoutLaws::parsed_by_fields))]
fn parse<T: Record<Param = ()>>(payload: &[u8]) -> Result<T, DecodeError>
    ensures value { result ≡ parse_record T.layout tt payload.now }
    ensures long { IfOk result (λ header. T.layout.least ≤ length payload.now) }
{
    read_record(payload, ())
}

// Parses the header of a reply about an IPv4 or IPv6 socket.
#[tactic(auto, unfolding(sock_diag_records::specs::InetResponse::inet_response_header))]
fn parse_inet(payload: &[u8]) -> Result<InetResponseHeader, DecodeError>
    ensures value { result ≡ parse_record inet_response_header tt payload.now }
    ensures long { IfOk result (λ header. INET_RESPONSE_HEADER_LEN ≤ length payload.now) }
{
    parse(payload)
}
