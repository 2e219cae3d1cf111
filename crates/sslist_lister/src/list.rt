//! Lines and diagnostics of the packets of a capture. If a function of this module fails, an
//! allocation failed, and the lines, diagnostics and requests are not specified. Only the prefix of
//! the diagnostics is still unchanged, as the clauses `front` state.
//!
//! In the contracts, `past_requests` is what a [`Requests`] has, `message_parts` is the header and
//! the payload of a message, and `line_start ..` is the start of a line about a message: `front`
//! and the numbers of the packet and the message.

ghost use Rattle.std.specs.Prelude.{◌≡◌, ◌<◌, ◌+◌, ◌++◌, IfOk, OnOk, option_map, Some};
ghost use Rattle.netlink_captures.specs.Capture.{captured_packet};
ghost use Rattle.sslist_lister.specs.Diagnostics.{DiagnosesContent, DiagnosesDatagram};
ghost use Rattle.sslist_lister.specs.Diagnostics.{DiagnosesMessages, DiagnosesPacket};
ghost use Rattle.sslist_lister.specs.Diagnostics.{interrupted_diagnostic, diagnostic_line};
ghost use Rattle.sslist_lister.specs.Diagnostics.{diagnostic_text, explained_line};
ghost use Rattle.sslist_lister.specs.Diagnostics.{framing_error_line};
ghost use Rattle.sslist_lister.specs.Diagnostics.{is_cut, lines_about_message};
ghost use Rattle.sslist_lister.specs.Diagnostics.{line_start, short_line_if_whole};
ghost use Rattle.sslist_lister.specs.Explanation.{explanation};
ghost use Rattle.sslist_lister.specs.Listing.{ListsMessages, ListsDatagram, ListsPacket};
ghost use Rattle.sslist_lister.specs.Listing.{ListsCapturedPacket, requests_after_packet};
ghost use Rattle.sslist_lister.specs.Listing.{answer_diagnostic, control_diagnostic};
ghost use Rattle.sslist_lister.specs.Listing.{errno_diagnostic, is_clean_message};
ghost use Rattle.sslist_lister.specs.Listing.{is_informational_or_none};
ghost use Rattle.sslist_lister.specs.Listing.{message_diagnostic, message_lines};
ghost use Rattle.sslist_lister.specs.Listing.{requested_protocol, requests_after_datagram};
ghost use Rattle.sslist_lister.specs.Messages.{message_parts};
ghost use Rattle.sslist_lister.specs.Requests.{past_requests};
ghost use Rattle.sslist_lister.specs.declared.list.Diagnostic.TheVariants.{Refused};

use crate::error_text::push_reason;
use crate::explanation::push_explanation;
use crate::headings::push_list_heading;
use crate::line::push_reply;
use crate::messages::Message;
use crate::request_line::push_shown_request;
use crate::requests::Requests;
use netlink_captures::{Packet, PacketHeader};
use netlink_core::{
    DecodeError, FramedMessages, NLM_F_DUMP_INTR, NLMSG_NOOP, NLMSG_OVERRUN, NetlinkHeader,
    error_number,
};
use sock_diag_extras::constants::{DCCPDIAG_GETSOCK, TCPDIAG_GETSOCK};
use sock_diag_records::constants::IPPROTO_DCCP;
use sslist_command_line::{IPPROTO_TCP, Options};
use sslist_texts::output::{PacketOutput, push_short, push_truncation};
use std::alloc::AllocError;
use std::io::Write;

/// `ENOENT` of errno(3).
const ENOENT: u32 = 2;

/// `EINVAL` of errno(3).
const EINVAL: u32 = 22;

/// A diagnostic of a message.
#[derive(Drop)]
pub(crate) enum Diagnostic {
    /// The message is invalid, with this decode error.
    Refused(DecodeError),
    /// The kernel answered with an error or ended a dump with one. This is its number in errno(3).
    Answered(u32),
    /// The kernel answered `ENOENT`: it has no socket of the requested kind, or its sock_diag(7)
    /// cannot list such sockets. In the second case they may be missing from the table.
    NoEntry,
    /// The kernel answered `EINVAL`: it does not support the request. Sockets that only such a
    /// request lists are missing from the table.
    Invalid,
    /// The message has the flag `NLM_F_DUMP_INTR`. The sockets changed during the dump, so some may
    /// be missing or listed twice.
    Interrupted,
    /// The kernel lost data (`NLMSG_OVERRUN`).
    Lost,
    /// An `NLMSG_ERROR` or `NLMSG_DONE` is too short for an error number.
    NoNumber,
}

/// Position of a diagnostic: the number of the packet in the capture, and of the message in the
/// packet. Both start at 1.
#[derive(Clone, Copy)]
struct Position {
    packet: u64,
    message: u64,
}

/// Appends the lines of a packet to `written.lines`, and its diagnostics to `written.diagnostics`.
/// `number` is the number of the packet in the capture. If it fails, an allocation failed, and the
/// lines, diagnostics and requests are not specified.
///
/// Returns whether the packet was listed completely. It was not in these cases:
///
/// - The packet was truncated: it has fewer bytes than `header.whole_length`.
/// - It has fewer than the 16 bytes of the cooked header.
/// - One of its messages is invalid, has an error of the kernel other than `ENOENT` and `EINVAL`,
///   is too short for the number of an error, reports lost data, or has the flag `NLM_F_DUMP_INTR`.
/// - Bytes after the last message are not a message.
///
/// The last two are about datagrams of sock_diag(7) that do not begin with a request. An invalid
/// value of an attribute, and a reply about a socket of an unknown family, are not errors. Packets
/// of other protocols and the content of requests are not checked.
///
/// Of the requests with which a datagram begins, stores in `requests` the first one, and the newest
/// 16 for IPv4 or IPv6 sockets, so that the protocol of their replies is known. A request that
/// repeats the first one begins another list of sockets: appends an empty line, a line with its
/// time, and the heading, unless `-H` or `--json` is set. Appends a line for a request if
/// `--requests` is set and `--json` is not.
pub fn list_packet(
    written: &mut PacketOutput<'_>,
    requests: &mut Requests,
    options: Options<'_>,
    number: u64,
    packet: &[u8],
    header: &PacketHeader,
) -> Result<bool, AllocError>
    ensures lists { IfOk result (ListsCapturedPacket options.entry (past_requests requests.old)
        (captured_packet packet.now header.now) written.old.lines.items written.new.lines.items) }
    ensures requested { OnOk result (past_requests requests.new
        ≡ requests_after_packet (past_requests requests.old) packet.now) }
    ensures diagnosed { OnOk result (DiagnosesPacket written.old.front.now number
        (captured_packet packet.now header.now) written.old.diagnostics.items
        written.new.diagnostics.items) }
    ensures front { written.new.front ≡ written.old.front }
{
    let is_whole = push_truncation(written, number, packet, header.whole_length)?;
    let is_listed = list_content(written, requests, options, number, is_whole, packet, header)?;
    Ok(is_listed & is_whole)
}

/// Appends the lines and the diagnostics of the captured bytes of the packet with this number and
/// this header, and stores its request, if there is one. Returns whether they are clean: a packet
/// of another protocol, or a clean datagram ([`list_sock_diag`]). `is_whole` is false if the packet
/// was truncated, which is reported already.
#[tactic(auto, using(crate::proofs::RequestsAfterPacket::requests_rules))]
fn list_content(
    written: &mut PacketOutput<'_>,
    requests: &mut Requests,
    options: Options<'_>,
    number: u64,
    is_whole: bool,
    packet: &[u8],
    header: &PacketHeader,
) -> Result<bool, AllocError>
    ensures lists { IfOk result (ListsPacket options.entry (past_requests requests.old)
        (captured_packet packet.now header.now) written.old.lines.items written.new.lines.items) }
    ensures requested { OnOk result (past_requests requests.new
        ≡ requests_after_packet (past_requests requests.old) packet.now) }
    ensures diagnosed { OnOk result (DiagnosesContent written.old.front.now number is_whole
        packet.now written.old.diagnostics.items written.new.diagnostics.items) }
    ensures front { written.new.front ≡ written.old.front }
{
    match Packet::parse(packet) {
        Packet::SockDiag(datagram) => list_sock_diag(
            written, requests, options, number, is_whole, datagram, header,
        ),
        Packet::Other => Ok(true),
        Packet::Short => {
            push_short_if_whole(written, number, is_whole)?;
            Ok(false)
        }
    }
}

/// Appends the diagnostic of the packet of this number, which is shorter than the cooked header.
/// Appends nothing if the packet was truncated (`is_whole` is false).
fn push_short_if_whole(
    written: &mut PacketOutput<'_>,
    number: u64,
    is_whole: bool,
) -> Result<(), AllocError>
    ensures lines { OnOk result (written.new.lines.items ≡ written.old.lines.items) }
    ensures diagnostics { OnOk result (written.new.diagnostics.items ≡ written.old.diagnostics.items
        ++ short_line_if_whole written.old.front.now number is_whole) }
    ensures front { written.new.front ≡ written.old.front }
{
    if is_whole {
        push_short(written, number)
    } else {
        Ok(())
    }
}

/// Appends the lines and the diagnostics of a datagram of sock_diag(7), and stores the request that
/// it begins with, if there is one. Returns whether the datagram is clean: it begins with a
/// request, or is as [`list_datagram`] says. `number` and `header` are those of its packet.
/// `is_whole` is false if the packet was truncated.
fn list_sock_diag(
    written: &mut PacketOutput<'_>,
    requests: &mut Requests,
    options: Options<'_>,
    number: u64,
    is_whole: bool,
    datagram: &[u8],
    header: &PacketHeader,
) -> Result<bool, AllocError>
    ensures lists { IfOk result (ListsDatagram options.entry (past_requests requests.old) header.now
        datagram.now written.old.lines.items written.new.lines.items) }
    ensures requested { OnOk result (past_requests requests.new
        ≡ requests_after_datagram (past_requests requests.old) datagram.now) }
    ensures diagnosed { OnOk result (DiagnosesDatagram written.old.front.now number is_whole
        datagram.now written.old.diagnostics.items written.new.diagnostics.items) }
    ensures front { written.new.front ≡ written.old.front }
{
    match Message::request_in(datagram) {
        Some(request) => {
            let is_repetition = requests.first.is_repeated_by(&request);
            requests.add(&request)?;
            push_list_heading(&mut written.lines, options, header, is_repetition)?;
            push_shown_request(&mut written.lines, options, header, &request)?;
            Ok(true)
        }
        None => list_datagram(written, requests, options, number, is_whole, datagram),
    }
}

/// Appends the lines and the diagnostics of the messages of a datagram, which may answer one of
/// `requests`. Stops at bytes that are not a message. Returns whether the datagram is clean: each
/// message is ([`list_message`]), and nothing follows the last one. `number` is the number of its
/// packet. `is_whole` is false if the packet was truncated.
fn list_datagram(
    written: &mut PacketOutput<'_>,
    requests: &Requests,
    options: Options<'_>,
    number: u64,
    is_whole: bool,
    datagram: &[u8],
) -> Result<bool, AllocError>
    ensures lists { IfOk result (ListsMessages options.entry (past_requests requests.now)
        datagram.now written.old.lines.items written.new.lines.items) }
    ensures diagnosed { OnOk result (DiagnosesMessages written.old.front.now number is_whole
        datagram.now written.old.diagnostics.items written.new.diagnostics.items) }
    ensures front { written.new.front ≡ written.old.front }
{
    let mut is_clean = true;
    let mut count = 0u64;
    for item in FramedMessages::new(datagram) {
        count = next_number(count, datagram.len());
        let position = Position {
            packet: number,
            message: count,
        };
        match item {
            Ok((header, bytes)) => {
                let message = Message::new(header, bytes);
                is_clean &= list_message(written, requests, options, position, &message)?;
            }
            Err(error) => {
                push_framing_error(written, position, is_whole, error)?;
                return Ok(false);
            }
        }
    }
    Ok(is_clean)
}

/// Appends the diagnostic of the bytes after the last message of a datagram, which have this decode
/// error. Appends nothing for a message whose last bytes are missing in a truncated packet
/// (`is_whole` is false).
fn push_framing_error(
    written: &mut PacketOutput<'_>,
    position: Position,
    is_whole: bool,
    error: DecodeError,
) -> Result<(), AllocError>
    ensures lines { OnOk result (written.new.lines.items ≡ written.old.lines.items) }
    ensures diagnostics { OnOk result (written.new.diagnostics.items ≡ written.old.diagnostics.items
        ++ framing_error_line
        (line_start written.old.front.now position.packet position.message) is_whole
        (Some error)) }
    ensures front { written.new.front ≡ written.old.front }
{
    if is_whole || !is_cut(&error) {
        push_diagnostic(written, position, &Diagnostic::Refused(error))
    } else {
        Ok(())
    }
}

/// Returns whether an error is that of a message whose last bytes are missing.
fn is_cut(error: &DecodeError) -> bool
    ensures { result ≡ is_cut error.now }
{
    matches!(
        error,
        DecodeError::EnvelopeCut { .. } | DecodeError::EnvelopeLengthPast { .. }
    )
}

/// Returns the number of the next message of a datagram, after `count` messages. It is at most
/// `limit`, the length of the datagram, so that it cannot overflow.
fn next_number(count: u64, limit: usize) -> u64
    // The premise holds in each call, since each message has more than one byte.
    ensures { count < limit → result ≡ count + 1 }
{
    let limit = limit as u64;
    if count < limit { count + 1 } else { limit }
}

/// Appends the lines and the diagnostics of the message at this position, which may answer one of
/// `requests`. Returns whether the message is clean: it has no diagnostic, or only a note.
fn list_message(
    written: &mut PacketOutput<'_>,
    requests: &Requests,
    options: Options<'_>,
    position: Position,
    message: &Message<'_>,
) -> Result<bool, AllocError>
    ensures lines { OnOk result (written.new.lines.items ≡ written.old.lines.items
        ++ message_lines options.entry (past_requests requests.now) (message_parts message.now)) }
    ensures clean { IfOk result (λ is_clean. is_clean
        ≡ is_clean_message (message_parts message.now)) }
    ensures diagnosed { OnOk result (written.new.diagnostics.items ≡ written.old.diagnostics.items
        ++ lines_about_message (line_start written.old.front.now position.packet position.message)
        (message_parts message.now)) }
    ensures front { written.new.front ≡ written.old.front }
{
    let interrupted = interrupted_diagnostic(message.header.flags);
    push_optional_diagnostic(written, position, &interrupted)?;
    let diagnostic = push_message(&mut written.lines, requests, options, message)?;
    push_explained_diagnostic(written, position, &diagnostic, message)?;
    Ok(interrupted.is_none() & is_none_or_informational(&diagnostic))
}

/// Returns `Interrupted` if the flags of a message have `NLM_F_DUMP_INTR`, or else `None`.
fn interrupted_diagnostic(flags: u16) -> Option<Diagnostic>
    ensures { result ≡ interrupted_diagnostic flags }
{
    if flags & NLM_F_DUMP_INTR == 0 {
        None
    } else {
        Some(Diagnostic::Interrupted)
    }
}

/// Returns whether there is no diagnostic, or only a note: the kernel listed what it can list.
fn is_none_or_informational(diagnostic: &Option<Diagnostic>) -> bool
    ensures { result ≡ is_informational_or_none diagnostic.now }
{
    matches!(
        diagnostic,
        None | Some(Diagnostic::NoEntry | Diagnostic::Invalid)
    )
}

/// Appends the lines of a message if it is a reply, which may answer one of `requests`. Returns the
/// diagnostic of the message, or `None` if it has none. The diagnostic `Interrupted` is not
/// considered.
fn push_message(
    lines: &mut Vec<u8>,
    requests: &Requests,
    options: Options<'_>,
    message: &Message<'_>,
) -> Result<Option<Diagnostic>, AllocError>
    ensures lines { OnOk result (lines.new.items ≡ lines.old.items
        ++ message_lines options.entry (past_requests requests.now) (message_parts message.now)) }
    ensures diagnostic { IfOk result (λ diagnostic. diagnostic
        ≡ message_diagnostic message.now.header.message_type message.now.payload.now) }
{
    let Message { header, payload } = message;
    let message_type = header.message_type;
    // A control message, of one of the types 1 to 4, has no lines.
    if (NLMSG_NOOP..=NLMSG_OVERRUN).contains(&message_type) {
        return Ok(diagnostic_of_control(message_type, payload));
    }
    let protocol = requested_protocol(requests, header);
    let error = push_reply(
        lines,
        options,
        requests.list,
        protocol,
        message_type,
        payload,
    )?;
    Ok(diagnostic_of_rejection(error))
}

/// Returns the protocol that the request of a reply with this header is for: by the type of the
/// reply, or else by one of `requests`. Returns `None` if the protocol is not known.
fn requested_protocol(requests: &Requests, header: &NetlinkHeader) -> Option<u32>
    ensures { result ≡ requested_protocol (past_requests requests.now) header.now }
{
    match header.message_type {
        TCPDIAG_GETSOCK => Some(IPPROTO_TCP),
        DCCPDIAG_GETSOCK => Some(IPPROTO_DCCP.into()),
        _ => requests.find_protocol(header.sequence_number, header.port_number),
    }
}

/// Returns the diagnostic of a control message: `None` for `NLMSG_NOOP`, `Lost` for
/// `NLMSG_OVERRUN`, and for `NLMSG_ERROR` and `NLMSG_DONE` that of the error number in the payload.
fn diagnostic_of_control(message_type: u16, payload: &[u8]) -> Option<Diagnostic>
    ensures { result ≡ control_diagnostic message_type payload.now }
{
    match message_type {
        NLMSG_NOOP => None,
        NLMSG_OVERRUN => Some(Diagnostic::Lost),
        _ => diagnostic_of_answer(error_number(payload)),
    }
}

/// Returns the diagnostic `Refused` of a decode error. Returns `None` if there is no error.
fn diagnostic_of_rejection(error: Option<DecodeError>) -> Option<Diagnostic>
    ensures { result ≡ option_map Refused error }
{
    match error {
        Some(error) => Some(Diagnostic::Refused(error)),
        None => None,
    }
}

/// Returns the diagnostic of an `NLMSG_ERROR` or `NLMSG_DONE` with this number. A negative one is a
/// negated number of errno(3). Any other is no error: then there is no diagnostic. Returns
/// `NoNumber` if the message is too short for a number (`None`).
fn diagnostic_of_answer(number: Option<i32>) -> Option<Diagnostic>
    ensures { result ≡ answer_diagnostic number }
{
    match number {
        None => Some(Diagnostic::NoNumber),
        Some(number) if number < 0 => Some(diagnostic_of_errno(number.unsigned_abs())),
        Some(_) => None,
    }
}

/// Returns the diagnostic of an error number of errno(3): a note for `ENOENT` and `EINVAL`, or else
/// `Answered`.
fn diagnostic_of_errno(errno: u32) -> Diagnostic
    ensures { result ≡ errno_diagnostic errno }
{
    match errno {
        ENOENT => Diagnostic::NoEntry,
        EINVAL => Diagnostic::Invalid,
        _ => Diagnostic::Answered(errno),
    }
}

/// Appends a diagnostic. Appends nothing if there is none (`None`).
fn push_optional_diagnostic(
    written: &mut PacketOutput<'_>,
    position: Position,
    diagnostic: &Option<Diagnostic>,
) -> Result<(), AllocError>
    ensures lines { OnOk result (written.new.lines.items ≡ written.old.lines.items) }
    ensures diagnostics { OnOk result (written.new.diagnostics.items ≡ written.old.diagnostics.items
        ++ diagnostic_line (line_start written.old.front.now position.packet position.message)
        diagnostic.now) }
    ensures front { written.new.front ≡ written.old.front }
{
    match diagnostic {
        None => Ok(()),
        Some(diagnostic) => push_diagnostic(written, position, diagnostic),
    }
}

/// Appends the diagnostic of a message, with a note of the request that the message answers, and
/// with the kernel's text and offset (`push_explanation`). Appends nothing if there is no
/// diagnostic (`None`).
fn push_explained_diagnostic(
    written: &mut PacketOutput<'_>,
    position: Position,
    diagnostic: &Option<Diagnostic>,
    message: &Message<'_>,
) -> Result<(), AllocError>
    ensures lines { OnOk result (written.new.lines.items ≡ written.old.lines.items) }
    ensures diagnostics { OnOk result (written.new.diagnostics.items ≡ written.old.diagnostics.items
        ++ explained_line (line_start written.old.front.now position.packet position.message)
        diagnostic.now (explanation (message_parts message.now))) }
    ensures front { written.new.front ≡ written.old.front }
{
    match diagnostic {
        None => Ok(()),
        Some(diagnostic) => push_explained_line(written, position, diagnostic, message),
    }
}

/// Appends the line of a diagnostic, which ends with the explanation in the message `explained`.
#[tactic(auto, using(sslist_texts::proofs::Adding::three_texts_concatenate))]
fn push_explained_line(
    written: &mut PacketOutput<'_>,
    position: Position,
    diagnostic: &Diagnostic,
    explained: &Message<'_>,
) -> Result<(), AllocError>
    ensures lines { OnOk result (written.new.lines.items ≡ written.old.lines.items) }
    ensures diagnostics { OnOk result (written.new.diagnostics.items ≡ written.old.diagnostics.items
        ++ explained_line (line_start written.old.front.now position.packet position.message)
        (Some diagnostic.now) (explanation (message_parts explained.now))) }
    ensures front { written.new.front ≡ written.old.front }
{
    push_line_start(written, position)?;
    push_explained_text(&mut written.diagnostics, diagnostic, explained)?;
    Ok(written.diagnostics.push(b'\n')?)
}

/// Appends the text of a diagnostic, and after it the explanation in the message `explained`.
fn push_explained_text(
    text: &mut Vec<u8>,
    diagnostic: &Diagnostic,
    explained: &Message<'_>,
) -> Result<(), AllocError>
    ensures { OnOk result (text.new.items ≡ text.old.items
        ++ (diagnostic_text diagnostic.now ++ explanation (message_parts explained.now))) }
{
    push_reason(text, diagnostic)?;
    push_explanation(text, explained)
}

/// Appends the line of a diagnostic.
#[tactic(auto, using(sslist_texts::proofs::Adding::three_texts_concatenate))]
fn push_diagnostic(
    written: &mut PacketOutput<'_>,
    position: Position,
    diagnostic: &Diagnostic,
) -> Result<(), AllocError>
    ensures lines { OnOk result (written.new.lines.items ≡ written.old.lines.items) }
    ensures diagnostics { OnOk result (written.new.diagnostics.items ≡ written.old.diagnostics.items
        ++ diagnostic_line (line_start written.old.front.now position.packet position.message)
        (Some diagnostic.now)) }
    ensures front { written.new.front ≡ written.old.front }
{
    push_line_start(written, position)?;
    push_reason(&mut written.diagnostics, diagnostic)?;
    Ok(written.diagnostics.push(b'\n')?)
}

/// Appends the start of a line about a message: the prefix `front`, and `packet 2, message 1: `.
fn push_line_start(written: &mut PacketOutput<'_>, position: Position) -> Result<(), AllocError>
    ensures lines { OnOk result (written.new.lines.items ≡ written.old.lines.items) }
    ensures diagnostics { OnOk result (written.new.diagnostics.items ≡ written.old.diagnostics.items
        ++ line_start written.old.front.now position.packet position.message) }
    ensures front { written.new.front ≡ written.old.front }
{
    let front = written.front;
    let Position { packet, message } = position;
    match write!(
        written.diagnostics,
        "{front}packet {packet}, message {message}: "
    ) {
        Ok(()) => Ok(()),
        // A write to a `Vec` fails only if an allocation failed.
        Err(_) => Err(AllocError),
    }
}
