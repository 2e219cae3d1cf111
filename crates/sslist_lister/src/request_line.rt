//! Lines of requests. They separate the dumps of a capture. If a function of this module fails, an
//! allocation failed, and the content of the text is not specified. In the contracts,
//! `message_parts request.now` is the header and the payload of a request.

ghost use Rattle.std.specs.Prelude.{◌≡◌, ◌++◌, OnOk, Some};
ghost use Rattle.sslist_lister.specs.Messages.{message_parts, request_in};
ghost use Rattle.sslist_lister.specs.RequestLine.{inet_request_text, is_known_request};
ghost use Rattle.sslist_lister.specs.RequestLine.{known_request_note};
ghost use Rattle.sslist_lister.specs.RequestLine.{request_line, request_line_if_selected};
ghost use Rattle.sslist_lister.specs.RequestLine.{request_note, request_text};
ghost use Rattle.sslist_lister.specs.RequestLine.{requested_family_text, requested_text};
ghost use Rattle.sslist_lister.specs.RequestLine.{request_verb};
ghost use Rattle.sslist_lister.specs.Requests.{requested};

use crate::kinds::{name_of_inet_family, name_of_inet_kind};
use crate::messages::Message;
use crate::parts::push_hex_detail;
use crate::requests::{Query, Requested, requested_by};
use netlink_captures::PacketHeader;
use sock_diag_records::constants::SOCK_DESTROY;
use sslist_command_line::{Family, Options};
use sslist_texts::times::push_time;
use std::alloc::AllocError;

/// Appends the line of a request, if `--requests` is set and `--json` is not. `header` has the time
/// of its capture.
pub(crate) fn push_shown_request(
    text: &mut Vec<u8>,
    options: Options<'_>,
    header: &PacketHeader,
    request: &Message<'_>,
) -> Result<(), AllocError>
    ensures { OnOk result (text.new.items ≡ text.old.items
        ++ request_line_if_selected options.entry header.now (message_parts request.now)) }
{
    if !options.requests || options.json {
        return Ok(());
    }
    push_request_line(text, header, request)
}

/// Appends the line of a request: the time of its capture, which is in the packet header, and what
/// it requests. Example: `-- 2026-11-27T05:13:59.123456000Z unix states:0x400`.
fn push_request_line(
    text: &mut Vec<u8>,
    header: &PacketHeader,
    request: &Message<'_>,
) -> Result<(), AllocError>
    ensures { OnOk result (text.new.items ≡ text.old.items
        ++ request_line header.now (message_parts request.now)) }
{
    text.extend_from_slice(b"-- ")?;
    push_time(text, header)?;
    text.push(b' ')?;
    push_request(text, request)?;
    Ok(text.push(b'\n')?)
}

/// Appends, in parentheses, what the request at the start of `bytes` requests. Appends `unknown` if
/// they do not begin with a request, or if it is not known what it requests.
pub(crate) fn push_request_note(
    text: &mut Vec<u8>,
    unknown: &[u8],
    bytes: &[u8],
) -> Result<(), AllocError>
    ensures { OnOk result (text.new.items ≡ text.old.items ++ request_note unknown.now
        (request_in bytes.now)) }
{
    match Message::request_in(bytes) {
        Some(request) => push_note_if_known(text, unknown, &request),
        None => text.extend_from_slice(unknown),
    }
}

/// Appends, in parentheses, what a request requests, or `unknown` if that is not known.
fn push_note_if_known(
    text: &mut Vec<u8>,
    unknown: &[u8],
    request: &Message<'_>,
) -> Result<(), AllocError>
    ensures { OnOk result (text.new.items ≡ text.old.items ++ request_note unknown.now
        (Some (message_parts request.now))) }
{
    if is_known_request(&requested_by(request)) {
        push_note(text, request)
    } else {
        text.extend_from_slice(unknown)
    }
}

/// Appends, in parentheses, what a request requests.
fn push_note(text: &mut Vec<u8>, request: &Message<'_>) -> Result<(), AllocError>
    ensures { OnOk result (text.new.items ≡ text.old.items
        ++ known_request_note (message_parts request.now)) }
{
    text.extend_from_slice(b" (request: ")?;
    push_request(text, request)?;
    text.extend_from_slice(b")")
}

/// Returns whether it is known what a request requests.
fn is_known_request(requested: &Requested) -> bool
    ensures { result ≡ is_known_request requested.now }
{
    !matches!(requested, Requested::Unknown)
}

/// Appends what a request requests, after `destroy` if it closes these sockets.
#[tactic(auto, unfolding(crate::specs::RequestLine::request_text))]
fn push_request(text: &mut Vec<u8>, request: &Message<'_>) -> Result<(), AllocError>
    ensures { OnOk result (text.new.items ≡ text.old.items
        ++ request_text (message_parts request.now)) }
{
    text.extend_from_slice(request_verb(request.header.message_type))?;
    push_requested(text, requested_by(request))
}

/// Returns the text before the sockets of a request of this type: `destroy ` if it closes them, or
/// else nothing.
fn request_verb(message_type: u16) -> &'static [u8]
    ensures { result.now ≡ request_verb message_type }
{
    if message_type == SOCK_DESTROY {
        b"destroy "
    } else {
        b""
    }
}

/// Appends the text about requested sockets: for IPv4 and IPv6 sockets the protocol, the family and
/// a bit for each state; for UNIX sockets `unix` and these bits; for other families the name; and
/// `other` for `Unknown`.
fn push_requested(text: &mut Vec<u8>, requested: Requested) -> Result<(), AllocError>
    ensures { OnOk result (text.new.items ≡ text.old.items ++ requested_text requested) }
{
    match requested {
        Requested::Inet(query) => push_inet_request(text, query),
        Requested::Unix(states) => {
            text.extend_from_slice(b"unix")?;
            push_hex_detail(text, b"states", states.into())
        }
        Requested::Other(family) => text.extend_from_slice(name_of_family(family)),
        Requested::Unknown => text.extend_from_slice(b"other"),
    }
}

/// Appends the text about requested IPv4 or IPv6 sockets. Example: `tcp family:inet states:0xfff`.
fn push_inet_request(text: &mut Vec<u8>, query: Query) -> Result<(), AllocError>
    ensures { OnOk result (text.new.items ≡ text.old.items ++ inet_request_text query) }
{
    let kind = name_of_inet_kind(Some(query.protocol), query.family);
    text.extend_from_slice(kind.as_bytes())?;
    text.extend_from_slice(b" family:")?;
    text.extend_from_slice(name_of_inet_family(query.family).as_bytes())?;
    push_hex_detail(text, b"states", query.states.into())
}

/// Returns the name of a family of requested sockets.
fn name_of_family(family: Family) -> &'static [u8]
    ensures { result.now ≡ requested_family_text family }
{
    match family {
        Family::Netlink => b"netlink",
        Family::Packet => b"packet",
        Family::Vsock => b"vsock",
        Family::Xdp => b"xdp",
    }
}
