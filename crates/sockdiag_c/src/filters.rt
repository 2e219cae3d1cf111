//! Requests followed by attributes of the caller, such as the bytecode of a filter.

ghost use Rattle.std.specs.Prelude.{◌≡◌, ◌+◌, ◌≤◌, ◌++◌, length};
ghost use Rattle.netlink_core.specs.Bytes.{HoldsAtStart};
ghost use Rattle.netlink_core.specs.Attribute.{padding_length};
ghost use Rattle.netlink_core.specs.Layout.{record_bytes};
ghost use Rattle.netlink_core.specs.Header.{header_bytes};
ghost use Rattle.sock_diag_records.specs.InetRequest.{inet_request};
ghost use Rattle.sock_diag_records.specs.SignificantBits.{IsInetFamily};
ghost use Rattle.sockdiag_c.specs.Requests.{IsWritableInetRequest, filtered_request};
ghost use Rattle.sockdiag_c.specs.Requests.{inet_message_length, inet_request_from_c};
ghost use Rattle.sockdiag_c.specs.Requests.{protocol_attribute, request_header_of};
ghost use Rattle.sockdiag_c.specs.Requests.{request_with_attributes, with_padding};
ghost use Rattle.sockdiag_c.specs.Rewriting.{ParsesAndWrites};

use crate::requests::{InetRequest, write_inet};
use crate::rewriting::{reject, write_value};
use attribute_lists::check_nlas;
use byteorder::{ByteOrder, LittleEndian};
use netlink_core::{DecodeError, Emitable, NETLINK_HEADER_LEN, padded};
use netlink_packet_sock_diag::constants::{AF_INET, AF_INET6, SOCK_DIAG_BY_FAMILY};
use netlink_packet_sock_diag::inet::INET_REQUEST_LEN;
use sock_diag_families::RawNla;

/// Writes a request as `sockdiag_write_inet_request` does, followed by the attributes and by zeros
/// up to a multiple of 4. The bytes have to be a sequence of complete attributes, whose values are
/// not checked: else the error is that of their framing. `SOCKDIAG_TOO_LONG` is returned for
/// attributes of 4 GiB.
///
/// One such attribute is the bytecode of a filter, `INET_DIAG_REQ_BYTECODE`, which the kernel runs
/// on each socket. It answers with `-EINVAL` if `no` of an operation leads into the middle of
/// another or more than 4 bytes past the end, or `yes` past the end; and with `-EPERM` if the
/// filter has an `INET_DIAG_BC_MARK_COND` and the caller lacks `CAP_NET_ADMIN`.
#[unsafe(no_mangle)]
pub extern "C" fn sockdiag_write_inet_request_with_attributes(
    request: &InetRequest,
    attributes: &[u8],
    buffer: &mut [u8],
    written: &mut usize,
) -> u32
    ensures { ParsesAndWrites (filtered_request request.now attributes.now) record {
      old = buffer.old;
      new = buffer.new;
      written = written.new;
      returned = result;
    } }
{
    let family = request.family;
    if family != AF_INET && family != AF_INET6 {
        return reject(&DecodeError::UnsupportedFamily { family }, written);
    }
    let filtered = FilteredRequest {
        request,
        attributes,
    };
    match check_nlas::<RawNla<'_>>(attributes) {
        Ok(_) => write_value(&filtered, buffer, written),
        Err(error) => reject(&error, written),
    }
}

// A request, followed by attributes.
#[derive(Drop)]
struct FilteredRequest<'a> {
    request: &'a InetRequest,
    attributes: &'a [u8],
}

impl Emitable for FilteredRequest<'_> {
    ghost bytes = { λ r. request_with_attributes r.request.now r.attributes.now };

    ghost writable = { λ r. IsWritableInetRequest r.request.now r.attributes.now };

    fn is_writable(&self) -> bool {
        let len = self.attributes.len();
        let limit = u32::MAX as usize - request_len(self.request.protocol);
        // `padded` is called only if it cannot overflow.
        matches!(self.request.family, AF_INET | AF_INET6) && len <= limit && padded(len) <= limit
    }

    fn buffer_len(&self) -> usize {
        request_len(self.request.protocol) + padded(self.attributes.len())
    }

    fn emit(&self, buffer: &mut [u8]) {
        let len = self.buffer_len();
        let (request_part, attributes_part) = buffer.split_at_mut(request_len(
            self.request.protocol,
        ));
        write_request(len as u32, self.request, request_part);
        write_padded(self.attributes, attributes_part);
    }
}

// Returns the length of a request for IPv4 or IPv6 sockets of this protocol in bytes, without the
// caller's attributes.
fn request_len(protocol: u32) -> usize
    // `limit` is a consequence of `all`, for callers that add to the length.
    ensures all { result ≡ inet_message_length protocol }
    ensures limit { result ≤ 80 }
{
    // The attribute of the protocol has 8 bytes.
    NETLINK_HEADER_LEN + INET_REQUEST_LEN + if protocol < 256 { 0 } else { 8 }
}

// Writes the request to the buffer, as the start of a message of `len` bytes: its header has this
// length.
fn write_request(len: u32, request: &InetRequest, buffer: &mut [u8])
    // For any other family `write_inet` writes nothing.
    requires family { IsInetFamily request.now.family }
    requires whole { length buffer.old ≡ inet_message_length request.now.protocol }
    ensures { buffer.new
        ≡ header_bytes (request_header_of len SOCK_DIAG_BY_FAMILY request.now.header)
        ++ record_bytes inet_request (inet_request_from_c request.now)
        ++ protocol_attribute request.now.protocol }
{
    let mut written = 0;
    write_inet(SOCK_DIAG_BY_FAMILY, request, buffer, &mut written);
    // `write_inet` has written the length of the request alone.
    LittleEndian::write_u32(buffer, len);
}

// Writes the attributes at the start of the buffer, followed by zeros up to a multiple of 4.
fn write_padded(attributes: &[u8], buffer: &mut [u8])
    // So the sum with the padding does not overflow.
    requires small { length attributes.now ≤ 4294967295 }
    requires room { length attributes.now + padding_length (length attributes.now)
        ≤ length buffer.old }
    ensures { HoldsAtStart (with_padding attributes.now) buffer.old buffer.new }
{
    let len = attributes.len();
    let (attributes_part, after_attributes) = buffer.split_at_mut(len);
    let (padding, _) = after_attributes.split_at_mut(padded(len) - len);
    attributes_part.copy_from_slice(attributes);
    padding.fill(0);
}
