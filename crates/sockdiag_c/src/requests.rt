//! Requests, serialized as whole netlink messages.

ghost use Rattle.std.specs.Prelude.{◌≡◌, ◌+◌, ◌≤◌, ◌++◌, length};
ghost use Rattle.netlink_core.specs.Header.{header_bytes};
ghost use Rattle.sockdiag_c.specs.Requests.{WritesInetMessage, WritesMessage, address_of_family};
ghost use Rattle.sockdiag_c.specs.Requests.{inet_request_from_c, protocol_byte, request_header_of};
ghost use Rattle.sockdiag_c.specs.Requests.{unix_message};

use crate::results::{NO_SPACE, OK};
use crate::rewriting::reject;
use bitflags::Flags;
use byteorder::{ByteOrder, LittleEndian};
use netlink_core::{DecodeError, Emitable, NETLINK_HEADER_LEN};
use netlink_packet_sock_diag::constants::{AF_INET, AF_INET6, SOCK_DESTROY, SOCK_DIAG_BY_FAMILY};
use netlink_packet_sock_diag::inet::{self, ExtensionFlags, SocketId};
use netlink_packet_sock_diag::unix::{self, ShowFlags};
use sock_diag_records::inet::INET_DIAG_REQ_PROTOCOL;
use std::net::{IpAddr, Ipv4Addr, Ipv6Addr};

/// Fields of the netlink header of a request. The call that writes the request sets the length and
/// the type.
#[repr(C)]
#[derive(Clone, Copy)]
pub struct RequestHeader {
    /// `NLM_F_REQUEST`, and `NLM_F_DUMP` to request all sockets (`nlmsg_flags`). Without
    /// `NLM_F_DUMP` the answer is one message, and an `NLMSG_ERROR` with the number 0 follows it
    /// only with `NLM_F_ACK`; inode or addresses, ports and cookie select the socket, and states do
    /// not. Without `NLM_F_REQUEST` the kernel does not answer, except that it acknowledges the
    /// message with `NLM_F_ACK`.
    pub flags: u16,
    /// Sequence number, which the answer repeats (`nlmsg_seq`). If each request has another one,
    /// `sockdiag_is_answer` recognizes its answer.
    pub sequence_number: u32,
    /// Port id of the socket that sends the request, or 0 (`nlmsg_pid`). The kernel does not use
    /// it, and answers with the socket's port id.
    pub port_number: u32,
}

const _: () = prove!(std::mem::size_of::<RequestHeader>() == 12);

/// A request for UNIX sockets: `struct unix_diag_req` of sock_diag(7).
#[repr(C)]
#[derive(Clone, Copy)]
pub struct UnixRequest {
    /// Fields of the netlink header.
    pub header: RequestHeader,
    /// States to include, with the bit `1 << TCP_LISTEN` for `TCP_LISTEN` (`udiag_states`).
    /// `UINT32_MAX` includes all. A UNIX socket is in state 1, 7 or 10: without the bit `1 <<
    /// TCP_CLOSE`, sockets that neither listen nor were connected are missing, as most datagram
    /// sockets are. Only a request with `NLM_F_DUMP` selects by states.
    pub states: u32,
    /// Inode, to request a single socket (`udiag_ino`). With `NLM_F_DUMP` the kernel ignores it.
    pub inode: u32,
    /// Attributes that the replies shall have, a set of `UDIAG_SHOW_..` (`udiag_show`).
    pub show: u32,
    /// Cookie that distinguishes sockets with the same inode, to request a single socket
    /// (`udiag_cookie`). The kernel compares it, also if it is zeros. Eight bytes 0xff match any
    /// socket.
    pub cookie: [u8; 8],
}

const _: () = prove!(std::mem::size_of::<UnixRequest>() == 32);

/// A request for IPv4 or IPv6 sockets: `struct inet_diag_req_v2` of sock_diag(7). With
/// `NLM_F_DUMP` the kernel selects sockets by family, protocol, states and ports, and a port 0
/// means all ports; it ignores addresses, interface and cookie. Without `NLM_F_DUMP` it selects one
/// socket by family, protocol, addresses, ports, interface and cookie, and ignores states.
#[repr(C)]
#[derive(Clone, Copy)]
pub struct InetRequest {
    /// Fields of the netlink header.
    pub header: RequestHeader,
    /// `AF_INET` or `AF_INET6` (`sdiag_family`).
    pub family: u8,
    /// Attributes that the replies shall have, with the bit `1 << (kind - 1)` for each kind up to
    /// 8 (`idiag_ext`). Kinds above 8 have no bit. That of `INET_DIAG_VEGASINFO` requests what the
    /// socket's algorithm has, also `INET_DIAG_DCTCPINFO` or `INET_DIAG_BBRINFO`, and that of
    /// `INET_DIAG_TCLASS` also `INET_DIAG_CLASS_ID`. For MPTCP, and for kernels without
    /// `tcpi_snd_wnd`, leave out `INET_DIAG_INFO`, or use a lenient call:
    /// `sockdiag_inet_get_details` rejects their replies.
    pub extensions: u8,
    /// Protocol, one of `IPPROTO_..` (`sdiag_protocol`). Request one protocol at a time: of the
    /// replies to a request only those about raw sockets contain it. A protocol above 255, such as
    /// `IPPROTO_MPTCP`, is written as an attribute `INET_DIAG_REQ_PROTOCOL`, and `sdiag_protocol`
    /// is 0. A kernel that does not know the attribute answers with an error.
    pub protocol: u32,
    /// States to include, with the bit `1 << TCP_LISTEN` for `TCP_LISTEN` (`idiag_states`).
    /// `UINT32_MAX` includes all. The bit `1 << TCP_BOUND_INACTIVE` includes TCP sockets that are
    /// only bound; replies about them have the state `TCP_CLOSE`. Linux 5.10 and 6.1 do not list
    /// them.
    pub states: u32,
    /// Local port (`idiag_sport`).
    pub source_port: u16,
    /// Remote port (`idiag_dport`).
    pub destination_port: u16,
    /// Local address in network byte order (`idiag_src`). For `AF_INET`, the first four bytes.
    pub source_address: [u8; 16],
    /// Remote address, in the same format (`idiag_dst`).
    pub destination_address: [u8; 16],
    /// Index of the interface that the socket is bound to, or 0 (`idiag_if`).
    pub interface_id: u32,
    /// Cookie that distinguishes sockets with the same addresses and ports (`idiag_cookie`), to
    /// request a single socket. The kernel compares it, also if it is zeros. Eight bytes 0xff
    /// (`INET_DIAG_NOCOOKIE`) match any socket.
    pub cookie: [u8; 8],
}

const _: () = prove!(std::mem::size_of::<InetRequest>() == 72);

/// Writes a request for UNIX sockets: 40 bytes.
#[unsafe(no_mangle)]
pub extern "C" fn sockdiag_write_unix_request(
    request: &UnixRequest,
    buffer: &mut [u8],
    written: &mut usize,
) -> u32
    ensures { WritesMessage 40 (unix_message request.now) record {
      old = buffer.old;
      new = buffer.new;
      written = written.new;
      returned = result;
    } }
{
    let record = unix::UnixRequest {
        state_flags: unix::StateFlags::from_bits_retain(request.states),
        inode: request.inode,
        show_flags: ShowFlags::from_bits_retain(request.show),
        cookie: request.cookie,
    };
    write_message(
        SOCK_DIAG_BY_FAMILY,
        &request.header,
        &record,
        &[],
        buffer,
        written,
    )
}

/// Writes a request for IPv4 or IPv6 sockets: 72 bytes, or 80 if the protocol is above 255. A
/// family other than `AF_INET` and `AF_INET6` is `SOCKDIAG_UNSUPPORTED_FAMILY`.
#[unsafe(no_mangle)]
pub extern "C" fn sockdiag_write_inet_request(
    request: &InetRequest,
    buffer: &mut [u8],
    written: &mut usize,
) -> u32
    ensures { WritesInetMessage SOCK_DIAG_BY_FAMILY request.now record {
      old = buffer.old;
      new = buffer.new;
      written = written.new;
      returned = result;
    } }
{
    write_inet(SOCK_DIAG_BY_FAMILY, request, buffer, written)
}

/// Writes a request for the kernel to close one IPv4 or IPv6 socket, of type `SOCK_DESTROY`, and
/// else as `sockdiag_write_inet_request`. The flags are `NLM_F_REQUEST`, and `NLM_F_ACK` to have
/// success acknowledged. Addresses, ports, interface and cookie select the socket, and states do
/// not. If no TCP connection has these addresses and ports, Linux takes the socket that listens on
/// the local port: pass the cookie of the reply, so that it closes no other socket. Linux closes
/// TCP, UDP and raw sockets if the caller has `CAP_NET_ADMIN`: without it the answer is EPERM, and
/// EOPNOTSUPP from a kernel without `CONFIG_INET_DIAG_DESTROY`.
#[unsafe(no_mangle)]
pub extern "C" fn sockdiag_write_inet_destroy(
    request: &InetRequest,
    buffer: &mut [u8],
    written: &mut usize,
) -> u32
    ensures { WritesInetMessage SOCK_DESTROY request.now record {
      old = buffer.old;
      new = buffer.new;
      written = written.new;
      returned = result;
    } }
{
    write_inet(SOCK_DESTROY, request, buffer, written)
}

// Writes a request for IPv4 or IPv6 sockets with this message type, and stores its length. Returns
// 0, or the code of the error.
pub(crate) fn write_inet(
    message_type: u16,
    request: &InetRequest,
    buffer: &mut [u8],
    written: &mut usize,
) -> u32
    ensures { WritesInetMessage message_type request.now record {
      old = buffer.old;
      new = buffer.new;
      written = written.new;
      returned = result;
    } }
{
    let family = request.family;
    if family != AF_INET && family != AF_INET6 {
        return reject(&DecodeError::UnsupportedFamily { family }, written);
    }
    let record = inet_record(request);
    if request.protocol < 256 {
        return write_message(message_type, &request.header, &record, &[], buffer, written);
    }
    // The attribute has 8 bytes: its length, its type and, in the last four, the protocol.
    let mut attribute = [8, 0, INET_DIAG_REQ_PROTOCOL as u8, 0, 0, 0, 0, 0];
    LittleEndian::write_u32(&mut attribute[4..], request.protocol);
    write_message(
        message_type,
        &request.header,
        &record,
        &attribute,
        buffer,
        written,
    )
}

// Returns the record of a request for IPv4 or IPv6 sockets, `struct inet_diag_req_v2`.
fn inet_record(request: &InetRequest) -> inet::InetRequest
    ensures { result ≡ inet_request_from_c request.now }
{
    inet::InetRequest {
        family: request.family,
        protocol: protocol_byte(request.protocol),
        extensions: ExtensionFlags::from_bits_retain(request.extensions),
        states: inet::StateFlags::from_bits_retain(request.states),
        socket_id: SocketId {
            source_port: request.source_port,
            destination_port: request.destination_port,
            source_address: address_in(request.family, &request.source_address),
            destination_address: address_in(request.family, &request.destination_address),
            interface_id: request.interface_id,
            cookie: request.cookie,
        },
    }
}

// Returns `sdiag_protocol` of a request: the protocol, or 0 if it needs an attribute.
fn protocol_byte(protocol: u32) -> u8
    ensures { result ≡ protocol_byte protocol }
{
    if protocol < 256 { protocol as u8 } else { 0 }
}

// Returns the address in the bytes, of the IP version of the family: IPv4 for `AF_INET`, else IPv6.
fn address_in(family: u8, octets: &[u8; 16]) -> IpAddr
    ensures { result ≡ address_of_family family octets.now }
{
    if family == AF_INET {
        return IpAddr::V4(Ipv4Addr::new(octets[0], octets[1], octets[2], octets[3]));
    }
    IpAddr::V6(Ipv6Addr::from_octets(*octets))
}

// Writes a netlink header with this message type and the fields of `header`, the record `value` and
// the bytes of the attributes, if the buffer is long enough. Stores the length of the message.
pub(crate) fn write_message<R: Emitable>(
    message_type: u16,
    header: &RequestHeader,
    value: &R,
    attributes: &[u8],
    buffer: &mut [u8],
    written: &mut usize,
) -> u32
    requires writable { R.writable value.now }
    // The length of the message fits `nlmsg_len`, a `__u32`.
    requires small { 16 + length (R.bytes value.now) + length attributes.now ≤ 4294967295 }
    ensures { let len = 16 + length (R.bytes value.now) + length attributes.now in
        WritesMessage len (header_bytes (request_header_of len message_type header.now)
        ++ R.bytes value.now ++ attributes.now) record {
          old = buffer.old;
          new = buffer.new;
          written = written.new;
          returned = result;
        } }
{
    let end = NETLINK_HEADER_LEN + value.buffer_len();
    let len = end + attributes.len();
    *written = len;
    if buffer.len() < len {
        return NO_SPACE;
    }
    let (header_and_record, after_record) = buffer.split_at_mut(end);
    let (header_part, record_part) = header_and_record.split_at_mut(NETLINK_HEADER_LEN);
    let (attributes_part, _) = after_record.split_at_mut(attributes.len());
    write_header(len as u32, message_type, header, header_part);
    value.emit(record_part);
    attributes_part.copy_from_slice(attributes);
    OK
}

// Writes a netlink header to the sixteen bytes of a buffer: of a message of `len` bytes and this
// type, with the fields of `header`.
fn write_header(len: u32, message_type: u16, header: &RequestHeader, buffer: &mut [u8])
    requires { length buffer.old ≡ 16 }
    ensures { buffer.new ≡ header_bytes (request_header_of len message_type header.now) }
{
    let (len_part, after_len) = buffer.split_at_mut(4);
    let (type_and_flags, ids) = after_len.split_at_mut(4);
    LittleEndian::write_u32_into(&[len], len_part);
    LittleEndian::write_u16_into(&[message_type, header.flags], type_and_flags);
    LittleEndian::write_u32_into(&[header.sequence_number, header.port_number], ids);
}
