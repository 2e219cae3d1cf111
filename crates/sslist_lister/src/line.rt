//! Lines of the replies about UNIX, IPv4 and IPv6 sockets. If a function of this module fails, an
//! allocation failed, and the content of the text is not specified. `list` is the number of the
//! list of sockets that a reply belongs to, since a repeated request begins another list; only JSON
//! has it. `protocol` is that of the socket, if it is known.
//!
//! In the contracts, `pieces_in bytes` is each attribute in the bytes, and then the framing error,
//! if there is one. `collected found.now` is what the attributes in `found` say.

ghost use Rattle.std.specs.Prelude.{◌≡◌, ◌≤◌, ◌++◌, IfOk, OnOk, if◌then◌else◌, length};
ghost use Rattle.std.specs.Prelude.{◌↔◌, IsTrue, option_and_then, option_map};
ghost use Rattle.sock_diag_attributes.specs.NameModel.{name_view_model};
ghost use Rattle.sock_diag_any.specs.AnyHeader.{any_header, header_size};
ghost use Rattle.sock_diag_any.specs.AnyParts.{owner_of, peer_of, queue_lengths_of};
ghost use Rattle.sock_diag_any.specs.AnyParts.{socket_name_of};
ghost use Rattle.sock_diag_any.specs.Pieces.{framing_error_of, pieces_in};
ghost use Rattle.sock_diag_any.specs.declared.nla.Sockets.TheVariants.{Unix};
ghost use Rattle.sslist_lister.specs.Collected.{collected, summary_of, value_in};
ghost use Rattle.sslist_lister.specs.JsonAttributes.{socket_json};
ghost use Rattle.sslist_lister.specs.JsonListing.{inet_output, unix_output};
ghost use Rattle.sslist_lister.specs.JsonSockets.{inet_header_members, unix_header_members};
ghost use Rattle.sslist_lister.specs.Listing.{after_header, header_lines, inet_reply_lines};
ghost use Rattle.sslist_lister.specs.Listing.{reply_error, reply_lines};
ghost use Rattle.sslist_lister.specs.Table.{inet_columns, inet_first_columns, inet_lines};
ghost use Rattle.sslist_lister.specs.Table.{inet_sockets, is_v6_only};
ghost use Rattle.sslist_lister.specs.Table.{unix_columns, unix_first_columns};
ghost use Rattle.sslist_lister.specs.Table.{unix_lines};
ghost use Rattle.sslist_texts.specs.CellsModel.{cells_model};

use crate::collected::Attributes;
use crate::details::push_details;
use crate::json_attributes::push_json;
use crate::kinds::{name_of_inet_kind, name_of_unix_kind};
use crate::name_cells::push_name_column;
use crate::others::push_other;
use crate::parts::NO_TIMER;
use crate::protocol::protocol_in;
use crate::sctp::{is_association, name_of_inet_state};
use crate::selection::lists_inet;
use netlink_core::DecodeError;
use sock_diag_any::{AnyHeader, AnyNla, InfoFormat, RawTimer, Sockets};
use sock_diag_attributes::unix::nlas::NameView;
use sock_diag_extras::constants::UNIX_DIAG_UID;
use sock_diag_records::constants::{
    INET_DIAG_SKV6ONLY, IPPROTO_SCTP, UNIX_DIAG_NAME, UNIX_DIAG_PEER, UNIX_DIAG_RQLEN,
};
use sock_diag_records::inet::InetResponseHeader;
use sock_diag_records::unix::UnixResponseHeader;
use sslist_command_line::{IPPROTO_MPTCP, IPPROTO_TCP, Options};
use sslist_texts::cells::{
    Cells, name_of_state, push_endpoint, push_endpoint_column, push_first_columns,
    push_number_or_star,
};
use std::alloc::AllocError;

/// Heading of the table.
pub const HEADING: &[u8] =
    b"Netid State      Recv-Q Send-Q Inode      Uid   Local                          Peer\n";

/// Width of the column of the local address, in bytes; of a name with `--utf8`, in columns of a
/// terminal.
pub(crate) const LOCAL_WIDTH: usize = 30;

/// No interface, for the peer: the interface is shown after the local address only.
const NO_INTERFACE: u32 = 0;

/// Appends the lines of a message of this type with this payload. `requested` is the protocol of
/// the request that the message answers, if it is known.
///
/// Returns the decode error of the message, if it has one: it is not a reply, its header is
/// invalid, or bytes after the header are not an attribute. An attribute with an invalid value is
/// not such an error. A reply about a socket of an unknown family has no lines and no error.
pub(crate) fn push_reply(
    text: &mut Vec<u8>,
    options: Options<'_>,
    list: u64,
    requested: Option<u32>,
    message_type: u16,
    payload: &[u8],
) -> Result<Option<DecodeError>, AllocError>
    ensures lines { OnOk result (text.new.items ≡ text.old.items ++ reply_lines options.entry list
        requested payload.now (any_header payload.now message_type)) }
    ensures error { IfOk result (λ error.
        error ≡ reply_error payload.now (any_header payload.now message_type)) }
{
    match AnyHeader::parse(payload, message_type) {
        Ok(header) => push_socket(text, options, list, requested, header, payload),
        Err(DecodeError::UnknownFamily { .. }) => Ok(None),
        Err(error) => Ok(Some(error)),
    }
}

/// Appends what is written for the reply with this payload, which begins with this header, if the
/// options select its socket. Returns the error of the bytes after the last attribute, if there are
/// any.
fn push_socket(
    text: &mut Vec<u8>,
    options: Options<'_>,
    list: u64,
    requested: Option<u32>,
    header: AnyHeader,
    payload: &[u8],
) -> Result<Option<DecodeError>, AllocError>
    requires { header_size header ≤ length payload.now }
    ensures lines { OnOk result (text.new.items ≡ text.old.items
        ++ header_lines options.entry list requested payload.now header) }
    ensures error { IfOk result
        (λ error. error ≡ framing_error_of (pieces_in (after_header payload.now header))) }
{
    let bytes = after_header(payload, &header);
    match header {
        AnyHeader::Unix(header) => push_unix(text, options, list, &header, bytes),
        AnyHeader::Inet(header) => {
            let timer = RawTimer::parse(payload);
            push_inet(text, options, list, requested, header, timer, bytes)
        }
        AnyHeader::Netlink(header) => push_other(text, options, list, &header, bytes),
        AnyHeader::Packet(header) => push_other(text, options, list, &header, bytes),
        AnyHeader::Vsock(header) => push_other(text, options, list, &header, bytes),
        AnyHeader::Xdp(header) => push_other(text, options, list, &header, bytes),
    }
}

/// Returns the bytes of a payload after the header that it begins with.
fn after_header<'a>(payload: &'a [u8], header: &AnyHeader) -> &'a [u8]
    requires { header_size header.now ≤ length payload.now }
    ensures { result.now ≡ after_header payload.entry.now header.now }
{
    &payload[header.size()..]
}

/// Appends what is written for a UNIX socket with this header, if the options select it. `bytes`
/// are its attributes. Returns the error of the bytes after the last attribute, if there are any.
fn push_unix(
    text: &mut Vec<u8>,
    options: Options<'_>,
    list: u64,
    header: &UnixResponseHeader,
    bytes: &[u8],
) -> Result<Option<DecodeError>, AllocError>
    ensures lines { OnOk result (text.new.items ≡ text.old.items ++ unix_output options.entry list
        header.now (summary_of Unix bytes.now)) }
    ensures error { IfOk result
        (λ error. error ≡ framing_error_of (pieces_in bytes.now)) }
{
    let mut found = Attributes::new(*text.allocator(), Sockets::Unix);
    found.collect(bytes)?;
    if options.lists_unix(header.state) {
        push_unix_lines(text, options, list, header, &found)?;
    }
    Ok(found.end)
}

/// Appends the lines of the table for a UNIX socket with this header and the attributes `found`, or
/// its line of JSON.
fn push_unix_lines(
    text: &mut Vec<u8>,
    options: Options<'_>,
    list: u64,
    header: &UnixResponseHeader,
    found: &Attributes<'_>,
) -> Result<(), AllocError>
    ensures { OnOk result (text.new.items ≡ text.old.items
        ++ (if options.entry.json
        then socket_json list (unix_header_members header.now) (collected found.now)
        else unix_lines options.entry header.now (collected found.now))) }
{
    if options.json {
        return push_json(text, list, header, found);
    }
    push_unix_columns(text, options, header, found)?;
    push_details(text, options, &NO_TIMER, &header.cookie, found)?;
    Ok(text.push(b'\n')?)
}

/// Appends the columns of a UNIX socket.
fn push_unix_columns(
    text: &mut Vec<u8>,
    options: Options<'_>,
    header: &UnixResponseHeader,
    found: &Attributes<'_>,
) -> Result<(), AllocError>
    ensures { OnOk result (text.new.items ≡ text.old.items
        ++ unix_columns options.entry header.now (collected found.now)) }
{
    let cells = unix_cells(header, queues_in(found), user_in(found));
    push_first_columns(text, &cells)?;
    push_name_column(text, LOCAL_WIDTH, options.utf8, name_in(found))?;
    push_number_or_star(text, peer_in(found))
}

/// Returns the first columns of a UNIX socket. `queues` are the lengths of its receive queue and
/// its send queue; for a listening socket these are numbers of connections. `uid` is the user id of
/// its owner. Each is `None` if the reply does not have it.
fn unix_cells(header: &UnixResponseHeader, queues: Option<(u32, u32)>, uid: Option<u32>) -> Cells
    ensures { cells_model result ≡ unix_first_columns header.now queues uid }
{
    let (receive_queue, send_queue) = match queues {
        Some((receive, send)) => (Some(receive), Some(send)),
        None => (None, None),
    };
    Cells {
        kind: name_of_unix_kind(header.kind).as_bytes(),
        state: name_of_state(header.state).as_bytes(),
        receive_queue,
        send_queue,
        inode: header.inode,
        uid,
    }
}

/// Returns the name of a UNIX socket, if the reply has it.
fn name_in<'a>(found: &Attributes<'a>) -> Option<NameView<'a>>
    ensures { option_map name_view_model result
        ≡ option_and_then socket_name_of (value_in UNIX_DIAG_NAME (collected found.now)) }
{
    match found.value_of_kind(UNIX_DIAG_NAME)? {
        AnyNla::Name(name) => Some(*name),
        _ => None,
    }
}

/// Returns the inode of the peer of a UNIX socket, if the reply has it.
fn peer_in(found: &Attributes<'_>) -> Option<u32>
    ensures { result ≡ option_and_then peer_of (value_in UNIX_DIAG_PEER (collected found.now)) }
{
    match found.value_of_kind(UNIX_DIAG_PEER)? {
        AnyNla::Peer(inode) => Some(*inode),
        _ => None,
    }
}

/// Returns the lengths of the receive queue and the send queue of a UNIX socket, if the reply has
/// them.
fn queues_in(found: &Attributes<'_>) -> Option<(u32, u32)>
    ensures { result
        ≡ option_and_then queue_lengths_of (value_in UNIX_DIAG_RQLEN (collected found.now)) }
{
    match found.value_of_kind(UNIX_DIAG_RQLEN)? {
        AnyNla::QueueLengths(receive, send) => Some((*receive, *send)),
        _ => None,
    }
}

/// Returns the user id of the owner of a UNIX socket, if the reply has it.
fn user_in(found: &Attributes<'_>) -> Option<u32>
    ensures { result ≡ option_and_then owner_of (value_in UNIX_DIAG_UID (collected found.now)) }
{
    match found.value_of_kind(UNIX_DIAG_UID)? {
        AnyNla::Owner(user) => Some(*user),
        _ => None,
    }
}

/// An IPv4 or IPv6 socket.
#[derive(Drop)]
pub(crate) struct InetSocket {
    /// The protocol of the socket, if it is known.
    pub(crate) protocol: Option<u32>,
    /// Whether the reply is about an SCTP association instead of a socket.
    pub(crate) is_association: bool,
    /// The timer.
    pub(crate) timer: RawTimer,
    /// The header of the reply.
    pub(crate) header: InetResponseHeader,
}

/// Appends what is written for the reply about an IPv4 or IPv6 socket with this header and this
/// timer, if the options select it. `bytes` are its attributes, and `requested` is the protocol of
/// the request that the reply answers, if it is known. Returns the error of the bytes after the
/// last attribute, if there are any.
fn push_inet(
    text: &mut Vec<u8>,
    options: Options<'_>,
    list: u64,
    requested: Option<u32>,
    header: InetResponseHeader,
    timer: RawTimer,
    bytes: &[u8],
) -> Result<Option<DecodeError>, AllocError>
    ensures lines { OnOk result (text.new.items ≡ text.old.items
        ++ inet_reply_lines options.entry list requested header timer bytes.now) }
    ensures error { IfOk result
        (λ error. error ≡ framing_error_of (pieces_in bytes.now)) }
{
    let expected = inet_sockets(requested, false);
    let mut found = Attributes::new(*text.allocator(), expected);
    found.collect(bytes)?;
    let protocol = protocol_in(requested, &found);
    let is_association = is_association(protocol, &found);
    let socket = InetSocket {
        protocol,
        is_association,
        timer,
        header,
    };
    push_inet_socket(text, options, list, &socket, &found, expected, bytes)?;
    Ok(found.end)
}

/// Appends what is written for an IPv4 or IPv6 socket, if the options select it. `found` are its
/// attributes in `bytes`, read as those of a reply about the sockets `expected`. They are read
/// again if it is about other sockets, by the protocol of the socket.
fn push_inet_socket(
    text: &mut Vec<u8>,
    options: Options<'_>,
    list: u64,
    socket: &InetSocket,
    found: &Attributes<'_>,
    expected: Sockets,
    bytes: &[u8],
) -> Result<(), AllocError>
    requires { collected found.now ≡ summary_of expected bytes.now }
    ensures { OnOk result (text.new.items ≡ text.old.items
        ++ inet_output options.entry list socket.now (summary_of
        (inet_sockets socket.now.protocol socket.now.is_association) bytes.now)) }
{
    let sockets = inet_sockets(socket.protocol, socket.is_association);
    if are_same(sockets, expected) {
        return push_inet_output(text, options, list, socket, found);
    }
    push_inet_again(text, options, list, socket, sockets, bytes)
}

/// Returns whether two replies are about the same sockets.
fn are_same(sockets: Sockets, others: Sockets) -> bool
    ensures { IsTrue result ↔ (sockets ≡ others) }
{
    sockets == others
}

/// Appends what is written for an IPv4 or IPv6 socket, if the options select it. `bytes` are its
/// attributes, which are read as those of a reply about these sockets.
fn push_inet_again(
    text: &mut Vec<u8>,
    options: Options<'_>,
    list: u64,
    socket: &InetSocket,
    sockets: Sockets,
    bytes: &[u8],
) -> Result<(), AllocError>
    ensures { OnOk result (text.new.items ≡ text.old.items
        ++ inet_output options.entry list socket.now (summary_of sockets bytes.now)) }
{
    let mut found = Attributes::new(*text.allocator(), sockets);
    found.collect(bytes)?;
    push_inet_output(text, options, list, socket, &found)
}

/// Appends what is written for an IPv4 or IPv6 socket with the attributes `found`, if the options
/// select it.
fn push_inet_output(
    text: &mut Vec<u8>,
    options: Options<'_>,
    list: u64,
    socket: &InetSocket,
    found: &Attributes<'_>,
) -> Result<(), AllocError>
    ensures { OnOk result (text.new.items ≡ text.old.items
        ++ inet_output options.entry list socket.now (collected found.now)) }
{
    if lists_inet(options, socket, found) {
        push_inet_lines(text, options, list, socket, found)
    } else {
        Ok(())
    }
}

/// Appends the lines of the table for an IPv4 or IPv6 socket with the attributes `found`, or its
/// line of JSON.
fn push_inet_lines(
    text: &mut Vec<u8>,
    options: Options<'_>,
    list: u64,
    socket: &InetSocket,
    found: &Attributes<'_>,
) -> Result<(), AllocError>
    ensures { OnOk result (text.new.items ≡ text.old.items ++ (if options.entry.json
        then socket_json list (inet_header_members socket.now) (collected found.now)
        else inet_lines options.entry socket.now (collected found.now))) }
{
    if options.json {
        return push_json(text, list, socket, found);
    }
    push_inet_columns(text, socket, found)?;
    let cookie = &socket.header.socket_id.cookie;
    push_details(text, options, &socket.timer, cookie, found)?;
    Ok(text.push(b'\n')?)
}

/// Returns the sockets that a reply about an IPv4 or IPv6 socket of this protocol is about. The
/// format of `INET_DIAG_INFO` is that of an SCTP association, or else that of the protocol:
/// `Unknown` for any other than TCP, MPTCP and SCTP, and for `None`.
fn inet_sockets(protocol: Option<u32>, is_association: bool) -> Sockets
    ensures { result ≡ inet_sockets protocol is_association }
{
    Sockets::Inet(match protocol {
        _ if is_association => InfoFormat::Sctp,
        Some(IPPROTO_TCP) => InfoFormat::Tcp,
        Some(IPPROTO_MPTCP) => InfoFormat::Mptcp,
        Some(number) if number == IPPROTO_SCTP as u32 => InfoFormat::Sctp,
        _ => InfoFormat::Unknown,
    })
}

/// Appends the columns of an IPv4 or IPv6 socket with the attributes `found`.
fn push_inet_columns(
    text: &mut Vec<u8>,
    socket: &InetSocket,
    found: &Attributes<'_>,
) -> Result<(), AllocError>
    ensures { OnOk result (text.new.items ≡ text.old.items
        ++ inet_columns socket.now (collected found.now)) }
{
    push_first_columns(text, &inet_cells(socket))?;
    let id = &socket.header.socket_id;
    let is_v6_only = is_v6_only(found);
    push_endpoint_column(
        text,
        LOCAL_WIDTH,
        is_v6_only,
        id.source_address,
        id.interface_id,
        id.source_port,
    )?;
    push_endpoint(
        text,
        is_v6_only,
        id.destination_address,
        NO_INTERFACE,
        id.destination_port,
    )
}

/// Returns whether a reply says that its socket is for IPv6 only: its first valid
/// `INET_DIAG_SKV6ONLY` is not 0. Returns false if it has none, as if it were 0.
fn is_v6_only(found: &Attributes<'_>) -> bool
    ensures { result ≡ is_v6_only (collected found.now) }
{
    match found.value_of_kind(INET_DIAG_SKV6ONLY) {
        Some(AnyNla::V6Only(only)) => *only,
        _ => false,
    }
}

/// Returns the first columns of an IPv4 or IPv6 socket.
fn inet_cells(socket: &InetSocket) -> Cells
    ensures { cells_model result ≡ inet_first_columns socket.now }
{
    let header = &socket.header;
    Cells {
        kind: name_of_inet_kind(socket.protocol, header.family).as_bytes(),
        state: name_of_inet_state(socket.is_association, header.state).as_bytes(),
        receive_queue: Some(header.recv_queue),
        send_queue: Some(header.send_queue),
        inode: header.inode,
        uid: Some(header.uid),
    }
}
