//! Borrowed requests for IPv4 and IPv6 sockets, as a test kernel parses them.

ghost use Rattle.std.specs.Prelude.{◌≡◌, ◌↔◌, List, IsTrue, IfOk, IfErr};
ghost use Rattle.netlink_core.specs.Attribute.{HasAttributeError, DecodeTo};
ghost use Rattle.netlink_core.specs.Walk.{buffered_attribute};
ghost use Rattle.netlink_core.specs.Errors.{map_ok};
ghost use Rattle.sock_diag_filters.specs.InetRequests.{
  ParsesAsRequest,
  IsRequestType,
  HasLastContents,
  RequestContent,
  decode_request_attribute,
};
ghost use Rattle.sock_diag_filters.specs.InetRequests.{IsRejectedRequest};
ghost use Rattle.sock_diag_filters.specs.private.AttributeSearch.{found_attributes_after};
ghost use Rattle.sock_diag_filters.specs.private.AttributeSearch.{optional_request_content};

use crate::request::{INET_DIAG_REQ_BYTECODE, INET_DIAG_REQ_PROTOCOL, RequestAttribute};
use netlink_core::{
    DecodeError, NETLINK_HEADER_LEN, NetlinkHeader, NlaBuffer, NlasIterator, parse_u32, read_record,
};
use sock_diag_records::constants::{SOCK_DESTROY, SOCK_DIAG_BY_FAMILY};
use sock_diag_records::inet::{INET_REQUEST_LEN, InetRequest};

/// A borrowed request for IPv4 or IPv6 sockets.
#[derive(Debug, Drop, PartialEq, Eq)]
pub struct RequestView<'a> {
    /// The netlink header.
    pub header: NetlinkHeader,
    /// The request, `struct inet_diag_req_v2`.
    pub request: InetRequest,
    /// The protocol in the last attribute `INET_DIAG_REQ_PROTOCOL`, or the protocol of the request
    /// if there is none.
    pub protocol: u32,
    /// The filter's program, the value of the last attribute `INET_DIAG_REQ_BYTECODE`. It is not
    /// checked.
    pub program: Option<&'a [u8]>,
}

impl<'a> RequestView<'a> {
    /// Parses the netlink message at the start of the bytes. It does not allocate. Bytes after the
    /// message are ignored. Of the attributes, the last program and the last protocol count, and
    /// attributes of other types are ignored.
    ///
    /// Returns the first of these errors:
    ///
    /// 1. an error of the netlink header, as of [`NetlinkHeader::from_prefix`];
    /// 2. `UnknownMessageType` for a type other than `SOCK_DIAG_BY_FAMILY` and `SOCK_DESTROY`;
    /// 3. an error of the parser of `InetRequest`;
    /// 4. the error of the first invalid attribute: a framing error, or `WrongLength` for an
    ///    `INET_DIAG_REQ_PROTOCOL` with a length other than 4.
    pub fn parse(message: &'a [u8]) -> Result<RequestView<'a>, DecodeError>
        ensures value { IfOk result (ParsesAsRequest message.entry.now) }
        ensures error { IfErr result (IsRejectedRequest message.entry.now) }
    {
        let header = NetlinkHeader::from_prefix(message)?;
        let message_type = header.message_type;
        if !is_request(message_type) {
            return Err(DecodeError::UnknownMessageType { message_type });
        }
        let payload = &message[NETLINK_HEADER_LEN..header.length as usize];
        let request = read_record::<InetRequest>(payload, ())?;
        let (_, behind) = payload.split_at(INET_REQUEST_LEN);
        let found = find_attributes(behind)?;
        Ok(RequestView {
            header,
            protocol: found.protocol.unwrap_or(u32::from(request.protocol)),
            request,
            program: found.program,
        })
    }
}

// Returns whether messages of the type are requests for sockets, or requests to close a socket
// (`IsRequestType`).
pub(crate) fn is_request(message_type: u16) -> bool
    ensures { IsTrue result ↔ IsRequestType message_type }
{
    message_type == SOCK_DIAG_BY_FAMILY || message_type == SOCK_DESTROY
}

// The last program and the last protocol in the attributes so far.
#[derive(Clone, Copy)]
struct Found<'a> {
    program: Option<&'a [u8]>,
    protocol: Option<u32>,
}

impl<'a> Found<'a> {
    // Returns what is found after one more attribute: its program or protocol replaces the one so
    // far. `None` is an attribute of another type, which changes nothing.
    fn with(self, decoded: Option<RequestAttribute<'a>>) -> Found<'a>
        ensures { result ≡ found_attributes_after self.entry decoded.entry }
    {
        match decoded {
            None => self,
            Some(RequestAttribute::Program(program)) => Found {
                program: Some(program),
                ..self
            },
            Some(RequestAttribute::Protocol(protocol)) => Found {
                protocol: Some(protocol),
                ..self
            },
        }
    }
}

// Returns the last program and the last protocol in the attributes, or the first error.
fn find_attributes<'a>(bytes: &'a [u8]) -> Result<Found<'a>, DecodeError>
    ensures value { IfOk result (λ found. (decoded : List RequestContent)
        × DecodeTo decode_request_attribute bytes.entry.now decoded
        × HasLastContents found decoded) }
    ensures error { IfErr result (HasAttributeError decode_request_attribute bytes.entry.now) }
{
    let mut found = Found {
        program: None,
        protocol: None,
    };
    for item in NlasIterator::new(bytes) {
        let attribute = item?;
        let decoded = decode(&attribute)?;
        found = found.with(decoded);
    }
    Ok(found)
}

// Parses an attribute. Returns `None` for an attribute that is neither a program nor a protocol.
// Fails with `WrongLength` if a protocol has a length other than 4.
fn decode<'a>(attribute: &NlaBuffer<'a>) -> Result<Option<RequestAttribute<'a>>, DecodeError>
    ensures { decode_request_attribute (buffered_attribute attribute.entry.now)
        ≡ map_ok optional_request_content result }
{
    match attribute.kind() {
        INET_DIAG_REQ_BYTECODE => Ok(Some(RequestAttribute::Program(attribute.value()))),
        INET_DIAG_REQ_PROTOCOL => Ok(Some(RequestAttribute::Protocol(parse_u32(
            attribute.value(),
        )?))),
        _ => Ok(None),
    }
}
