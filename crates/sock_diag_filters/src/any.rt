//! Borrowed requests for sockets of any family, as a test kernel parses them.

ghost use Rattle.std.specs.Prelude.{◌≡◌, IfOk, IfErr, drop};
ghost use Rattle.netlink_core.specs.Header.{HasHeader};
ghost use Rattle.netlink_core.specs.Layout.{parse_record};
ghost use Rattle.sock_diag_filters.specs.AnyRequest.{ParsesAsAnyRequest, IsRejectedAnyRequest};
ghost use Rattle.sock_diag_filters.specs.AnyRequest.{any_request_content, IsRejectedByFamily};
ghost use Rattle.sock_diag_filters.specs.AnyRequest.{family_by_byte, family_of_request_payload};

use crate::view::{RequestView, is_request};
use netlink_core::{DecodeError, NETLINK_HEADER_LEN, NetlinkHeader, Record, read_record};
use sock_diag_families::netlink::NetlinkRequest;
use sock_diag_families::packet::PacketRequest;
use sock_diag_families::vsock::{AF_VSOCK, VsockRequest};
use sock_diag_families::xdp::{AF_XDP, XdpRequest};
use sock_diag_records::constants::{AF_INET, AF_INET6, AF_NETLINK, AF_PACKET, AF_UNIX};
use sock_diag_records::unix::UnixRequest;

/// A borrowed request that consists of one record, and bytes of attributes.
#[derive(Debug, Drop, PartialEq, Eq)]
pub struct RecordRequestView<'a, R> {
    /// The netlink header.
    pub header: NetlinkHeader,
    /// The record of the request.
    pub request: R,
    /// The bytes after the record, where attributes may be. Linux ignores them, and they are not
    /// checked here. `NlasIterator::new` iterates over attributes.
    pub attributes: &'a [u8],
}

impl<'a, R: Record<Param = ()>> RecordRequestView<'a, R> {
    // Parses the record at the start of the payload, and returns it with the header, which precedes
    // the payload, and the bytes after the record. Fails with the first error of the record.
    fn read(header: NetlinkHeader, payload: &'a [u8]) -> Result<Self, DecodeError>
        ensures header { IfOk result (λ view. view.header ≡ header) }
        ensures request { IfOk result (λ view.
            parse_record R.layout tt payload.entry.now ≡ Ok view.request) }
        ensures attributes { IfOk result (λ view.
            view.attributes.now ≡ drop R.layout.least payload.entry.now) }
        ensures error { IfErr result (λ e. parse_record R.layout tt payload.entry.now ≡ Err e) }
    {
        let (_, least) = R::name_and_least();
        let request = read_record::<R>(payload, ())?;
        let (_, attributes) = payload.split_at(least);
        Ok(RecordRequestView {
            header,
            request,
            attributes,
        })
    }
}

/// A borrowed request for sockets of any family that this crate parses.
#[derive(Debug, Drop, PartialEq, Eq)]
pub enum AnyRequestView<'a> {
    /// A request for IPv4 or IPv6 sockets.
    Inet(RequestView<'a>),
    /// A request for UNIX sockets.
    Unix(RecordRequestView<'a, UnixRequest>),
    /// A request for netlink sockets.
    Netlink(RecordRequestView<'a, NetlinkRequest>),
    /// A request for packet sockets.
    Packet(RecordRequestView<'a, PacketRequest>),
    /// A request for vsock sockets.
    Vsock(RecordRequestView<'a, VsockRequest>),
    /// A request for XDP sockets.
    Xdp(RecordRequestView<'a, XdpRequest>),
}

impl<'a> AnyRequestView<'a> {
    /// Parses the netlink message at the start of the bytes. It does not allocate. Bytes after the
    /// message are ignored.
    ///
    /// Returns the first of these errors:
    ///
    /// 1. an error of the netlink header, as of [`NetlinkHeader::from_prefix`];
    /// 2. `MessageTooShort` if fewer than 2 bytes follow the header;
    /// 3. `UnknownMessageType` for a type other than `SOCK_DIAG_BY_FAMILY` and `SOCK_DESTROY`;
    /// 4. `UnknownFamily` if the first byte after the header is none of `AF_INET`, `AF_INET6`,
    ///    `AF_UNIX`, `AF_NETLINK`, `AF_PACKET`, `AF_VSOCK` and `AF_XDP`;
    /// 5. an error of the parser of that family's request: of [`RequestView::parse`], or of the
    ///    record.
    pub fn parse(message: &'a [u8]) -> Result<AnyRequestView<'a>, DecodeError>
        ensures value { IfOk result (λ view. ParsesAsAnyRequest message.entry.now
            (any_request_content view)) }
        ensures error { IfErr result (IsRejectedAnyRequest message.entry.now) }
    {
        match NetlinkHeader::from_prefix(message) {
            Ok(header) => read_under(header, message),
            Err(error) => Err(error),
        }
    }
}

// Parses the request in a message that starts with this header, by its family. Fails with the first
// error of the message.
fn read_under<'a>(
    header: NetlinkHeader,
    message: &'a [u8],
) -> Result<AnyRequestView<'a>, DecodeError>
    requires { HasHeader message.now header }
    ensures value { IfOk result (λ view. ParsesAsAnyRequest message.entry.now
        (any_request_content view)) }
    ensures error { IfErr result (IsRejectedByFamily message.entry.now header) }
{
    let payload = &message[NETLINK_HEADER_LEN..header.length as usize];
    match first_byte(header.message_type, payload)? {
        AF_INET | AF_INET6 => RequestView::parse(message).map(AnyRequestView::Inet),
        AF_UNIX => RecordRequestView::read(header, payload).map(AnyRequestView::Unix),
        AF_NETLINK => RecordRequestView::read(header, payload).map(AnyRequestView::Netlink),
        AF_PACKET => RecordRequestView::read(header, payload).map(AnyRequestView::Packet),
        AF_VSOCK => RecordRequestView::read(header, payload).map(AnyRequestView::Vsock),
        AF_XDP => RecordRequestView::read(header, payload).map(AnyRequestView::Xdp),
        family => Err(DecodeError::UnknownFamily { family }),
    }
}

// Returns the first byte of the payload of a request, which determines the family. Fails with
// `MessageTooShort` if the payload has fewer than 2 bytes, or else with `UnknownMessageType` if
// messages of this type are not requests.
fn first_byte(message_type: u16, payload: &[u8]) -> Result<u8, DecodeError>
    ensures family { IfOk result (λ first. family_of_request_payload payload.now message_type
        ≡ family_by_byte first) }
    ensures error { IfErr result (λ e. family_of_request_payload payload.now message_type ≡ Err e) }
{
    if payload.len() < 2 {
        return Err(DecodeError::MessageTooShort { got: payload.len() });
    }
    if !is_request(message_type) {
        return Err(DecodeError::UnknownMessageType { message_type });
    }
    Ok(payload[0])
}
