//! Requests for IPv4 and IPv6 sockets with attributes, serialized as complete netlink messages.
//! Clauses `in_range` and `header_in_range` state that each number fits its field. This is so for
//! all Rust values; they are stated since `emit` promises it.

ghost use Rattle.std.specs.Prelude.{◌≡◌, ◌+◌, ◌++◌, length, map};
ghost use Rattle.netlink_core.specs.Attribute.{AreWritableWithin};
ghost use Rattle.netlink_core.specs.Header.{header_bytes, header_fields, header_values};
ghost use Rattle.netlink_core.specs.Table.{FitFields};
ghost use Rattle.sock_diag_filters.specs.Requests.{request_attribute, header_with_length};
ghost use Rattle.sock_diag_filters.specs.Requests.{request_message};

use byteorder::{ByteOrder, LittleEndian};
use netlink_core::fields::{write_u16s, write_u32s};
use netlink_core::{
    Emitable, NETLINK_HEADER_LEN, NetlinkHeader, Nla, emit_nlas, nlas_len, nlas_len_within,
};
use sock_diag_records::inet::{INET_REQUEST_LEN, InetRequest};
pub use sock_diag_records::inet::{INET_DIAG_REQ_BYTECODE, INET_DIAG_REQ_PROTOCOL};

/// The number of bytes before the attributes, 72: 16 of the netlink header and 56 of
/// `struct inet_diag_req_v2`.
pub const REQUEST_FRONT: usize = NETLINK_HEADER_LEN + INET_REQUEST_LEN;

// The maximum number of bytes of the attributes, so that the length of the message fits the length
// field of its header: 2^32 - 1, less the 72 bytes before the attributes.
const MAX_ATTRIBUTES_LEN: usize = 4294967223;

/// An attribute of a request for IPv4 or IPv6 sockets. If there are several of one kind, the kernel
/// uses the last.
#[derive(Clone, Copy, Debug, PartialEq, Eq)]
pub enum RequestAttribute<'a> {
    /// A filter's program, which `assemble` returns.
    Program(&'a [u8]),
    /// The protocol, which the kernel uses instead of `sdiag_protocol` of the request. It may be
    /// above 255, such as `IPPROTO_MPTCP` (262).
    Protocol(u32),
}

impl Nla for RequestAttribute<'_> {
    ghost use Rattle.sock_diag_filters.specs.ReadBack.{IsRequestAttributeInRange};

    ghost attribute = { request_attribute };

    // Stated since `laws::request_round_trips` assumes it.
    ghost in_range = { IsRequestAttributeInRange };

    fn value_len(&self) -> usize {
        match self {
            RequestAttribute::Program(program) => program.len(),
            RequestAttribute::Protocol(_) => 4,
        }
    }

    fn kind(&self) -> u16 {
        match self {
            RequestAttribute::Program(_) => INET_DIAG_REQ_BYTECODE,
            RequestAttribute::Protocol(_) => INET_DIAG_REQ_PROTOCOL,
        }
    }

    fn emit_value(&self, buffer: &mut [u8]) {
        match self {
            RequestAttribute::Program(program) => {
                let (front, _) = buffer.split_at_mut(program.len());
                front.copy_from_slice(program);
            }
            RequestAttribute::Protocol(protocol) => LittleEndian::write_u32(buffer, *protocol),
        }
    }
}

/// A request for IPv4 or IPv6 sockets and its attributes: a complete netlink message.
#[derive(Drop)]
pub struct RequestWithAttributes<'a> {
    /// The netlink header. It is serialized unchanged, except that its length is the length of the
    /// message. The kernel expects the type `SOCK_DIAG_BY_FAMILY` or `SOCK_DESTROY`.
    pub header: NetlinkHeader,
    /// The request, `struct inet_diag_req_v2`.
    pub request: InetRequest,
    /// The attributes after the request.
    pub attributes: &'a [RequestAttribute<'a>],
}

impl Emitable for RequestWithAttributes<'_> {
    ghost use Rattle.sock_diag_filters.specs.ReadBack.{IsRequestInRange};

    ghost bytes = { request_message };

    // 4,294,967,223 is 2^32 - 1 - 72: the largest length of a message, less the bytes before its
    // attributes. The header and the request are always writable.
    ghost writable = { λ r. AreWritableWithin (map request_attribute r.attributes.now) 4294967223 };

    ghost in_range = { IsRequestInRange };

    /// Returns whether each program has at most 65,531 bytes, and the length of the message fits
    /// the length field of its header.
    fn is_writable(&self) -> bool {
        nlas_len_within(self.attributes, MAX_ATTRIBUTES_LEN).is_some()
    }

    fn buffer_len(&self) -> usize {
        REQUEST_FRONT + nlas_len(self.attributes)
    }

    fn emit(&self, buffer: &mut [u8]) {
        let len = self.buffer_len();
        let (front, behind) = buffer.split_at_mut(REQUEST_FRONT);
        write_front(&self.header, len as u32, &self.request, front);
        emit_nlas(self.attributes, behind);
    }
}

// Writes the header, with the length `len`, and then the value to `front`, which has the length of
// both.
fn write_front<R: Emitable>(header: &NetlinkHeader, len: u32, value: &R, front: &mut [u8])
    requires writable { R.writable value.now }
    requires whole { length front.old ≡ NETLINK_HEADER_LEN + length (R.bytes value.now) }
    ensures written { front.new
        ≡ header_bytes (header_with_length header.now len) ++ R.bytes value.now }
    ensures header_in_range { FitFields header_fields
        (header_values (header_with_length header.now len)) }
    ensures in_range { R.in_range value.now }
{
    let (first, behind) = front.split_at_mut(NETLINK_HEADER_LEN);
    write_header(header, len, first);
    write_all(value, behind);
}

// Serializes the value to a buffer of the same length.
fn write_all<R: Emitable>(value: &R, buffer: &mut [u8])
    requires writable { R.writable value.now }
    requires whole { length buffer.old ≡ length (R.bytes value.now) }
    ensures written { buffer.new ≡ R.bytes value.now }
    ensures in_range { R.in_range value.now }
{
    value.emit(buffer);
}

// Serializes the header, with the length `len`, to a buffer of 16 bytes.
fn write_header(header: &NetlinkHeader, len: u32, buffer: &mut [u8])
    requires { length buffer.old ≡ NETLINK_HEADER_LEN }
    ensures written { buffer.new ≡ header_bytes (header_with_length header.now len) }
    ensures in_range { FitFields header_fields (header_values (header_with_length header.now len)) }
{
    let (first, rest) = buffer.split_at_mut(4);
    let (kind, numbers) = rest.split_at_mut(4);
    write_u32s(&[len], first);
    write_u16s(&[header.message_type, header.flags], kind);
    write_u32s(&[header.sequence_number, header.port_number], numbers);
}
