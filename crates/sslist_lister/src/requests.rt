//! Captured requests. They contain the protocols of the sockets in the replies, and separate lists
//! of sockets. In the contracts, `message_parts request.now` is the header and the payload of a
//! request, and `past_requests` is what a [`Requests`] has.

ghost use Rattle.std.specs.Prelude.{◌≡◌, ◌≤◌, length, OnOk, option_map};
ghost use Rattle.std.proofs.Common.{rules};
ghost use Rattle.netlink_core.specs.Walk.{buffered_attribute};
ghost use Rattle.sslist_lister.specs.Messages.{message_parts};
ghost use Rattle.sslist_lister.specs.Requests.{family_numbered, is_about_sockets};
ghost use Rattle.sslist_lister.specs.Requests.{protocol_by, protocol_of};
ghost use Rattle.sslist_lister.specs.Requests.{list_with, no_requests, past_requests};
ghost use Rattle.sslist_lister.specs.Requests.{query_of};
ghost use Rattle.sslist_lister.specs.Requests.{requested, with_query};
ghost use Rattle.sslist_lister.specs.Requests.{with_request};

use crate::lists::FirstRequest;
use crate::messages::Message;
use crate::pieces::find_last_of_kind;
use byteorder::{ByteOrder, LittleEndian};
use netlink_core::{Exact, NlaBuffer};
use sock_diag_families::vsock::AF_VSOCK;
use sock_diag_families::xdp::AF_XDP;
use sock_diag_records::constants::{
    AF_INET, AF_INET6, AF_NETLINK, AF_PACKET, AF_UNIX, SOCK_DESTROY, SOCK_DIAG_BY_FAMILY,
};
use sock_diag_records::inet::{INET_DIAG_REQ_PROTOCOL, INET_REQUEST_LEN};
use sock_diag_records::unix::UNIX_REQUEST_LEN;
use sslist_command_line::Family;
use std::alloc::{AllocError, Global};

/// Number of older requests that remain when a new one is added: with it there are at most 16.
pub(crate) const MAX_OLDER_REQUESTS: usize = 15;

/// A request for IPv4 or IPv6 sockets.
#[derive(Clone, Copy, Debug, PartialEq, Eq)]
pub struct Query {
    /// Sequence number (`nlmsg_seq`), which a reply repeats.
    sequence_number: u32,
    /// Port number of the sender (`nlmsg_pid`). Most programs leave it 0.
    port_number: u32,
    /// Protocol, one of `IPPROTO_..`.
    pub(crate) protocol: u32,
    /// Address family, `AF_INET` or `AF_INET6`.
    pub(crate) family: u8,
    /// Requested states, a bit for each (`idiag_states`).
    pub(crate) states: u32,
}

impl Exact for Query {
    ghost exact = { Prim.search rules };
}

/// The requests of a capture that are remembered.
#[derive(Drop)]
pub struct Requests {
    /// The newest requests for IPv4 and IPv6 sockets, at most 16, the newest first.
    pub queries: Vec<Query>,
    /// The first request of any kind.
    pub(crate) first: FirstRequest,
    /// Number of the list of sockets. The first is 1, and each repetition of the first request
    /// begins the next one.
    pub(crate) list: u64,
}

impl Requests {
    /// Returns the state before the first packet: no requests.
    pub fn new(alloc: Global) -> Requests
        ensures { past_requests result ≡ no_requests }
    {
        Requests {
            queries: Vec::new(alloc),
            first: FirstRequest::new(alloc),
            list: 1,
        }
    }

    /// Adds a request. If it fails, an allocation failed, and the requests are not specified.
    pub(crate) fn add(&mut self, request: &Message<'_>) -> Result<(), AllocError>
        ensures { OnOk result (past_requests self.new
            ≡ with_request (message_parts request.now) (past_requests self.old)) }
    {
        self.list = self.list_with(request);
        self.first.add(request)?;
        self.add_query(request)
    }

    /// Returns the number of the list of sockets after one more request: the next number if the
    /// request repeats the first one, or else the same number.
    fn list_with(&self, request: &Message<'_>) -> u64
        ensures { result ≡ list_with (message_parts request.now) (past_requests self.now) }
    {
        if self.first.is_repeated_by(request) {
            self.list.saturating_add(1)
        } else {
            self.list
        }
    }

    /// Adds a request to `queries` if it is to list IPv4 or IPv6 sockets. Then at most
    /// [`MAX_OLDER_REQUESTS`] older ones remain. If it fails, an allocation failed, and `queries`
    /// is not specified.
    fn add_query(&mut self, request: &Message<'_>) -> Result<(), AllocError>
        ensures queries { OnOk result (self.new.queries.items
            ≡ with_query (message_parts request.now) self.old.queries.items) }
        ensures first { self.new.first ≡ self.old.first }
        ensures list { self.new.list ≡ self.old.list }
    {
        if request.header.message_type != SOCK_DIAG_BY_FAMILY {
            return Ok(());
        }
        let Requested::Inet(newest) = requested_by(request) else {
            return Ok(());
        };
        self.queries.truncate(MAX_OLDER_REQUESTS);
        Ok(self.queries.insert(0, newest)?)
    }

    /// Returns the protocol of the newest request that a reply with these numbers may answer: its
    /// sequence number is equal, and its port number is equal or 0. Returns `None` if there is
    /// none.
    pub(crate) fn find_protocol(&self, sequence_number: u32, port_number: u32) -> Option<u32>
        ensures { result ≡ protocol_of self.now.queries.items sequence_number port_number }
    {
        find_in(self.queries.as_slice(), sequence_number, port_number)
    }
}

/// Returns the protocol of the first of the requests `queries` that a reply with these numbers may
/// answer (see [`Requests::find_protocol`]). Returns `None` if there is none.
fn find_in(queries: &[Query], sequence_number: u32, port_number: u32) -> Option<u32>
    ensures { result ≡ protocol_of queries.now sequence_number port_number }
{
    for request in queries {
        if request.sequence_number == sequence_number
            && (request.port_number == port_number || request.port_number == 0)
        {
            return Some(request.protocol);
        }
    }
    None
}

/// What is requested.
#[derive(Clone, Copy)]
pub(crate) enum Requested {
    /// IPv4 or IPv6 sockets.
    Inet(Query),
    /// UNIX sockets in these states, of which each has a bit.
    Unix(u32),
    /// Netlink, packet, vsock or XDP sockets.
    Other(Family),
    /// Something else.
    Unknown,
}

/// Returns what is requested. Returns `Unknown` for another type of request, an empty
/// payload, a payload that is too short for a request for IPv4, IPv6 or UNIX sockets, or another
/// family. The length of requests of the other families is not checked.
pub(crate) fn requested_by(request: &Message<'_>) -> Requested
    ensures { result ≡ requested (message_parts request.now) }
{
    let payload = request.payload;
    if !is_about_sockets(request.header.message_type) || payload.is_empty() {
        return Requested::Unknown;
    }
    match payload[0] {
        AF_INET | AF_INET6 if payload.len() >= INET_REQUEST_LEN => {
            Requested::Inet(query_of(request))
        }
        AF_UNIX if payload.len() >= UNIX_REQUEST_LEN => {
            // `udiag_states` is at 4.
            Requested::Unix(LittleEndian::read_u32(&payload[4..]))
        }
        // Also UNIX, IPv4 and IPv6, if the payload is too short: then the result is `Unknown`.
        family => match family_numbered(family) {
            Some(family) => Requested::Other(family),
            None => Requested::Unknown,
        },
    }
}

/// Returns the netlink, packet, vsock or XDP family of this number. Returns `None` for any other
/// number.
fn family_numbered(number: u8) -> Option<Family>
    ensures { result ≡ family_numbered number }
{
    match number {
        AF_NETLINK => Some(Family::Netlink),
        AF_PACKET => Some(Family::Packet),
        AF_VSOCK => Some(Family::Vsock),
        AF_XDP => Some(Family::Xdp),
        _ => None,
    }
}

/// Returns whether a request of this type lists or closes the sockets of a family. Returns false
/// for the older types `TCPDIAG_GETSOCK` and `DCCPDIAG_GETSOCK`, whose struct is not decoded.
fn is_about_sockets(message_type: u16) -> bool
    ensures { result ≡ is_about_sockets message_type }
{
    matches!(message_type, SOCK_DIAG_BY_FAMILY | SOCK_DESTROY)
}

/// Returns the query in a request for IPv4 or IPv6 sockets. Its payload must have at least a
/// `struct inet_diag_req_v2`, and attributes may follow.
fn query_of(request: &Message<'_>) -> Query
    requires { INET_REQUEST_LEN ≤ length request.now.payload.now }
    ensures { result ≡ query_of (message_parts request.now) }
{
    let Message { header, payload } = request;
    let attribute = find_last_of_kind(&payload[INET_REQUEST_LEN..], INET_DIAG_REQ_PROTOCOL);
    // `sdiag_family` is at 0, `sdiag_protocol` at 1, and `idiag_states` at 4.
    Query {
        sequence_number: header.sequence_number,
        port_number: header.port_number,
        protocol: choose_protocol(payload[1], attribute),
        family: payload[0],
        states: LittleEndian::read_u32(&payload[4..]),
    }
}

/// Returns the protocol of a request: the value of `attribute`, the last `INET_DIAG_REQ_PROTOCOL`,
/// if it has four bytes. Otherwise, or if there is no such attribute, returns `byte`, the protocol
/// in the header.
fn choose_protocol(byte: u8, attribute: Option<NlaBuffer<'_>>) -> u32
    ensures { result ≡ protocol_by byte (option_map buffered_attribute attribute.entry) }
{
    match attribute {
        Some(nla) if nla.value().len() == 4 => LittleEndian::read_u32(nla.value()),
        _ => byte.into(),
    }
}
