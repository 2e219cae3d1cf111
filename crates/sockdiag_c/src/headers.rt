//! The headers of replies, as C structs.

ghost use Rattle.std.specs.Prelude.{◌≡◌, ◌+◌, ◌≤◌, Ok, length};
ghost use Rattle.netlink_core.specs.Layout.{parse_record};
ghost use Rattle.sock_diag_records.specs.InetResponse.{inet_response_header};
ghost use Rattle.sock_diag_any.specs.AnyHeader.{timer_at};
ghost use Rattle.sockdiag_c.specs.Headers.{address_octets_of, inet_header_of, unix_header_of};
ghost use Rattle.sockdiag_c.specs.private.Headers.{HasAddressAt};

use netlink_packet_sock_diag::inet::InetResponseHeader;
use netlink_packet_sock_diag::unix::UnixResponseHeader;
use sock_diag_any::RawTimer;
use std::net::IpAddr;

/// Header of a reply about a UNIX socket: `struct unix_diag_msg` of sock_diag(7).
#[repr(C)]
#[derive(Clone, Copy, Default)]
pub struct UnixHeader {
    /// Type of the socket, one of `SOCK_..` (`udiag_type`, at 1).
    pub kind: u8,
    /// State (`udiag_state`, at 2): `TCP_LISTEN` (10) if the socket listens, `TCP_ESTABLISHED` (1)
    /// if it was connected, also if the peer has closed since, or if it is a datagram socket to
    /// which another one connected, else `TCP_CLOSE` (7), as of most datagram sockets. A datagram
    /// socket is in state 7 again after a connect(2) to `AF_UNSPEC`. On Linux 5.10 every datagram
    /// socket is in state 7, also one with a peer.
    pub state: u8,
    /// Inode of the socket (`udiag_ino`, at 4).
    pub inode: u32,
    /// Cookie that distinguishes sockets with the same inode (`udiag_cookie`, at 8).
    pub cookie: [u8; 8],
}

const _: () = prove!(std::mem::size_of::<UnixHeader>() == 16);

/// Header of a reply about an IPv4 or IPv6 socket: `struct inet_diag_msg` of sock_diag(7).
#[repr(C)]
#[derive(Clone, Copy, Default)]
pub struct InetHeader {
    /// `AF_INET` or `AF_INET6` (`idiag_family`, at 0).
    pub family: u8,
    /// State, one of `TCP_ESTABLISHED` to `TCP_CLOSING` (`idiag_state`, at 1), but of an SCTP
    /// association a number of SCTP, such as 3 for established. The protocol is that of the
    /// request. The reply of an event has it in `INET_DIAG_PROTOCOL`.
    pub state: u8,
    /// Timer (`idiag_timer`, at 2). Of a TCP socket: 0 none, 1 retransmission, 2 keepalive, 3
    /// TIME_WAIT, 4 zero-window probe; 5 delayed acknowledgement, since Linux 7.2. Of an SCTP
    /// association: 0 none, or else its retransmission timer.
    pub timer: u8,
    /// Number of retransmissions if the timer is 1, of probes if it is 2 or 4 (`idiag_retrans`, at
    /// 3).
    pub retransmits: u8,
    /// Milliseconds until the timer expires (`idiag_expires`, at 52).
    pub expires: u32,
    /// Local port (`idiag_sport`, at 4).
    pub source_port: u16,
    /// Remote port (`idiag_dport`, at 6).
    pub destination_port: u16,
    /// Local address in network byte order (`idiag_src`, at 8). For `AF_INET`, four bytes followed
    /// by twelve zeros.
    pub source_address: [u8; 16],
    /// Remote address, in the same format (`idiag_dst`, at 24).
    pub destination_address: [u8; 16],
    /// Index of the interface that the socket is bound to, or 0 (`idiag_if`, at 40).
    pub interface_id: u32,
    /// Cookie that distinguishes sockets with the same addresses and ports (`idiag_cookie`, at 44).
    pub cookie: [u8; 8],
    /// Number of pending connections of a listening TCP or MPTCP socket, and of an SCTP socket that
    /// is no association (`idiag_rqueue`, at 56). For other TCP sockets, number of bytes that have
    /// not been read; a FIN counts as one. For UDP and raw sockets, other MPTCP sockets and SCTP
    /// associations, memory in use by the receive queue in bytes, which exceeds the data.
    pub recv_queue: u32,
    /// Limit of pending connections (backlog) of a listening TCP or MPTCP socket, and of an SCTP
    /// socket that is no association (`idiag_wqueue`, at 60). For other TCP sockets, number of
    /// bytes that are not yet acknowledged; a SYN and a FIN count as one each. For UDP and raw
    /// sockets, other MPTCP sockets and SCTP associations, memory in use by packets that are being
    /// sent, in bytes.
    pub send_queue: u32,
    /// User id of the owner (`idiag_uid`, at 64).
    pub uid: u32,
    /// Inode of the socket (`idiag_inode`, at 68).
    pub inode: u32,
}

const _: () = prove!(std::mem::size_of::<InetHeader>() == 72);

/// A reply about a UNIX, IPv4 or IPv6 socket.
#[repr(C)]
#[derive(Clone, Copy)]
pub struct Reply {
    /// `SOCKDIAG_UNIX` or `SOCKDIAG_INET`: which of the two headers is set.
    pub kind: u32,
    /// Header of a reply about a UNIX socket.
    pub unix_header: UnixHeader,
    /// Header of a reply about an IPv4 or IPv6 socket.
    pub inet_header: InetHeader,
}

const _: () = prove!(std::mem::size_of::<Reply>() == 92);

/// Kind of a reply about a UNIX socket.
pub(crate) const UNIX: u32 = 1;

/// Kind of a reply about an IPv4 or IPv6 socket.
pub(crate) const INET: u32 = 2;

// Offset of the local address in the header of a reply (`idiag_src`).
const SOURCE_ADDRESS: usize = 8;

// Offset of the remote address in the header of a reply (`idiag_dst`).
const DESTINATION_ADDRESS: usize = 24;

impl From<UnixResponseHeader> for UnixHeader {
    ghost from_gives = { λ header found. found ≡ unix_header_of header };

    fn from(header: UnixResponseHeader) -> UnixHeader {
        let cookie = header.cookie;
        UnixHeader {
            kind: header.kind,
            state: header.state,
            inode: header.inode,
            cookie,
        }
    }
}

/// Returns the struct of the header that the payload begins with, with its timer as the kernel
/// sends it.
pub(crate) fn inet_header(payload: &[u8], header: InetResponseHeader) -> InetHeader
    requires { parse_record inet_response_header tt payload.now ≡ Ok header }
    ensures { result ≡ inet_header_of (timer_at payload.now) header }
{
    let id = header.socket_id;
    let cookie = id.cookie;
    let timer = RawTimer::parse(payload);
    InetHeader {
        family: header.family,
        state: header.state,
        timer: timer.kind,
        retransmits: timer.retransmits,
        expires: timer.expires,
        source_port: id.source_port,
        destination_port: id.destination_port,
        source_address: address_octets(payload, SOURCE_ADDRESS, id.source_address),
        destination_address: address_octets(payload, DESTINATION_ADDRESS, id.destination_address),
        interface_id: id.interface_id,
        cookie,
        recv_queue: header.recv_queue,
        send_queue: header.send_queue,
        uid: header.uid,
        inode: header.inode,
    }
}

// Returns the 16 bytes of an address field, in network byte order: those of the payload at this
// offset. An IPv4 address is followed by twelve zeros, whatever the payload has there.
fn address_octets(payload: &[u8], offset: usize, address: IpAddr) -> [u8; 16]
    requires within { offset + 16 ≤ length payload.now }
    requires address { HasAddressAt offset payload.now address }
    ensures { result ≡ address_octets_of address }
{
    let field = &payload[offset..offset + 16];
    let mut octets = [0; 16];
    match address {
        IpAddr::V4(_) => octets[..4].copy_from_slice(&field[..4]),
        IpAddr::V6(_) => octets.copy_from_slice(field),
    }
    octets
}
