//! The answer to one line. A function that returns a `Result` fails only if an allocation fails. A
//! part of what it appends to a text may then have been appended.
//!
//! In the contracts `AppendsSome old new Holds` states that bytes were appended to a text, and that
//! they have the property `Holds`. `codec_of_name name` is how the bytes after a name are parsed
//! and shown. `IsAnswerUnder answers bytes text` states that the text answers the bytes, as these
//! are parsed and shown.

ghost use Rattle.sock_diag_lines.specs.declared.answers.Name.{Name};
ghost use Rattle.sock_diag_lines.specs.declared.answers.Name.TheVariants.{NetlinkMessage, UnixView};
ghost use Rattle.std.specs.Prelude.{◌≡◌, ◌≢◌, ◌↔◌, ◌++◌, ◌∷◌, [], ℕ, List, codes, decimal, Result};
ghost use Rattle.std.specs.Prelude.{IfOk, OnOk, MatchOption};
ghost use Rattle.std.specs.List.{concat};
ghost use Rattle.netlink_core.specs.Items.{IsItemOf};
ghost use Rattle.netlink_core.specs.declared.message.NetlinkPayload.TheVariants.{InnerMessage};
ghost use Rattle.netlink_packet_sock_diag.specs.Dump.{AreCompleteExceptLast, HaveSameItems};
ghost use Rattle.netlink_packet_sock_diag.specs.Message.{Message, message_codec};
ghost use Rattle.netlink_packet_sock_diag.specs.Message.{netlink_message_codec};
ghost use Rattle.netlink_packet_sock_diag.specs.MessageViewModel.{message_view_model};
ghost use Rattle.netlink_packet_sock_diag.specs.PayloadViewModel.{netlink_message_view_model};
ghost use Rattle.sock_diag_lines.specs.Answer.{IsAnswerOf, IsWritableRequest, codec_of_name};
ghost use Rattle.sock_diag_lines.specs.Answer.{IsRequest, spelling_of};
ghost use Rattle.program_streams.specs.LineRun.{AnswersEachLine};
ghost use Rattle.sock_diag_lines.specs.private.LineRequest.{IsAnswerTo, IsParsedAs};
ghost use Rattle.sock_diag_lines.specs.DumpLine.{IsDumpRequest};
ghost use Rattle.sock_diag_lines.specs.MessageLine.{netlink_message_text};
ghost use Rattle.sock_diag_lines.specs.HexField.{hex_field_of, space};
ghost use Rattle.sock_diag_lines.specs.AnswerText.{AreEquivalentUnder, IsAnswerToValue};
ghost use Rattle.sock_diag_lines.specs.AnswerText.{IsAnswerUnder, answer_codec, ok_text};
ghost use Rattle.sock_diag_lines.specs.private.Text.{AppendsSome, number_then_text};

use crate::answer_parts::{OK, UNWRITABLE, push_accepted, push_field, push_number, push_refused};
use crate::dump_line::{ReadDump, push_dump, read_dump};
use crate::fields::{find_space, read_field};
use crate::view_line::push_view;
use netlink_core::{CanonError, Emitable, NetlinkHeader, Wire, canonical};
use netlink_packet_sock_diag::constants::{AF_INET, AF_INET6, SOCK_DIAG_BY_FAMILY};
use netlink_packet_sock_diag::inet::{InetRequest, InetResponse, SocketId};
use netlink_packet_sock_diag::unix::{UnixRequest, UnixResponse};
use netlink_packet_sock_diag::{MessageView, PayloadView, SockDiagMessage, SockDiagView};
use std::alloc::{AllocError, Global};

/// The name at the start of a line, which selects the codec of the bytes.
#[derive(Clone, Copy, Debug, PartialEq, Eq)]
pub(crate) enum Name {
    UnixRequest,
    UnixResponse,
    InetRequest,
    InetResponse,
    /// A socket id with IPv4 addresses.
    SocketId4,
    /// A socket id with IPv6 addresses.
    SocketId6,
    /// A message of sock_diag(7) without its netlink header.
    Message,
    /// A whole netlink message.
    NetlinkMessage,
    /// A reply about a UNIX socket, of which the values are shown.
    UnixView,
}

/// The request in a line.
#[derive(Drop)]
pub(crate) enum LineRequest {
    /// The bytes of the line's field, under its name.
    Field(Name),
    /// A dump over the line's datagrams.
    Dump(ReadDump),
    /// The line has another form.
    Nothing,
}

/// Name of a line that contains the datagrams of a dump.
const DUMP: &[u8] = b"dump";

/// The answer to a line of another form.
const BAD_LINE: &[u8] = b"bad line";

/// Returns the answer to a line, without a line feed. Fails only if an allocation fails.
/// docs/LINES.md lists the names, the form of a hex field, the values and states in the answers,
/// and the codes.
///
/// If the line is a name, one space and a hex field, the answer is `ok` and the text of the value
/// that the bytes of the field have; or `unwritable` if this value is not writable; or `refused`
/// and the code of the first decode error. The text is the canonical form in hex. For `netlink` it
/// is the five fields of the header and the serialized payload. For `unixview` it is thirteen
/// values of the reply, and the answer is never `unwritable`.
///
/// If the line is `dump` and one or more hex fields, the answer is `ok`, the state of the dump, the
/// number of its messages and each serialized message; or `unwritable` if one of them is not
/// writable. It is `bad line` for any other line.
pub fn answer(alloc: Global, line: &[u8]) -> Result<Vec<u8>, AllocError>
    ensures answers { IfOk result (λ text. IsAnswerOf line.now text.items) }

    // Two inputs of one name other than `unixview`, both with writable values, have the same answer
    // if and only if they are equivalent by the codec of this name (`AreEquivalentUnder`).
    // `unixview` does not show the whole value. In this clause and the next ones `other` is any
    // other line, `bytes'` or `datagrams'` are what it contains, and `text'` is its answer.
    ensures same { IfOk result (λ text. (name : Name) → name ≢ UnixView
        → (other bytes bytes' text' : List ℕ)
        → IsWritableRequest line.now name bytes → IsWritableRequest other name bytes'
        → IsAnswerOf other text'
        → ((text.items ≡ text') ↔ AreEquivalentUnder (codec_of_name name) bytes bytes')) }
    // Also for `unixview`: two equivalent inputs of one name, both with writable values, have the
    // same answer.
    ensures equal_bytes { IfOk result (λ text. (name : Name)
        (other bytes bytes' text' : List ℕ)
        → IsWritableRequest line.now name bytes → IsWritableRequest other name bytes'
        → IsAnswerOf other text'
        → AreEquivalentUnder (codec_of_name name) bytes bytes' → text.items ≡ text') }
    // Two dumps have the same answer if their datagrams have the same items (`HaveSameItems`): the
    // payload or the error of each message, of all datagrams in order.
    ensures dumps { IfOk result
        (λ text. (other text' : List ℕ) (datagrams datagrams' : List (List ℕ))
        → IsDumpRequest line.now datagrams → IsDumpRequest other datagrams'
        → HaveSameItems (IsItemOf message_codec) datagrams datagrams'
        → IsAnswerOf other text' → text.items ≡ text') }
    // Two dumps of the same concatenated bytes have the same answer, if each of their datagrams
    // except the last consists of complete messages with all their padding
    // (`AreCompleteExceptLast`).
    ensures split { IfOk result
        (λ text. (other text' : List ℕ) (datagrams datagrams' : List (List ℕ))
        → IsDumpRequest line.now datagrams → IsDumpRequest other datagrams'
        → AreCompleteExceptLast datagrams → AreCompleteExceptLast datagrams'
        → concat datagrams ≡ concat datagrams'
        → IsAnswerOf other text' → text.items ≡ text') }
{
    let mut text = Vec::new(alloc);
    push_answer(alloc, &mut Vec::new(alloc), &mut text, line)?;
    Ok(text)
}

/// Each line has exactly one answer. Proof only: the contract states the property.
pub fn each_line_has_one_answer()
    // There is a function that has the answer to each line (`AnswersEachLine`).
    ensures some { (answer : List ℕ → List ℕ) × AnswersEachLine IsAnswerOf answer }
    // Two texts that answer one line (`IsAnswerOf line text`) are equal.
    ensures one { (line text other : List ℕ) → IsAnswerOf line text → IsAnswerOf line other
        → text ≡ other }
{}

/// A request, a line of a name and a hex field, that is answered by `ok` has a writable value.
/// Proof only: the contract states the property.
pub fn ok_is_for_writable_values()
    // `IsRequest line name bytes`: the line is this name and a hex field of these bytes.
    // `ok_text value_text`: `ok ` and this text. `IsWritableRequest line name bytes`: it is such a
    // line, and the bytes parse as a writable value.
    ensures { (line : List ℕ) (name : Name) (bytes value_text : List ℕ)
        → IsRequest line name bytes → IsAnswerOf line (ok_text value_text)
        → IsWritableRequest line name bytes }
{}

/// Appends the answer to a line to the text. `bytes` is a buffer for the bytes of the field.
pub(crate) fn push_answer(
    alloc: Global,
    bytes: &mut Vec<u8>,
    text: &mut Vec<u8>,
    line: &[u8],
) -> Result<(), AllocError>
    ensures { OnOk result (AppendsSome text.old.items text.new.items (IsAnswerOf line.now)) }
{
    let request = read_request(alloc, bytes, line)?;
    push_answer_text(alloc, text, request, bytes.as_slice())
}

/// Returns the request in a line, or `Nothing` if the line has another form. `bytes` is a buffer:
/// if the line is a name and a hex field, it then has the bytes of the field.
pub(crate) fn read_request(
    alloc: Global,
    bytes: &mut Vec<u8>,
    line: &[u8],
) -> Result<LineRequest, AllocError>
    ensures { IfOk result (λ request. IsParsedAs line.now request bytes.new.items) }
{
    let Some(space) = find_space(line) else {
        return Ok(LineRequest::Nothing);
    };
    if &line[..space] == DUMP {
        return read_dump_request(alloc, bytes, &line[space + 1..]);
    }
    let Some(name) = find_name(&line[..space]) else {
        return Ok(LineRequest::Nothing);
    };
    if read_field(bytes, &line[space + 1..])? {
        Ok(LineRequest::Field(name))
    } else {
        Ok(LineRequest::Nothing)
    }
}

/// Returns the request in a line whose name is `dump`, or `Nothing` if what follows are not hex
/// fields. `fields` is the text after the space. `bytes` is a buffer.
fn read_dump_request(
    alloc: Global,
    bytes: &mut Vec<u8>,
    fields: &[u8],
) -> Result<LineRequest, AllocError>
    ensures { IfOk result (λ request.
        IsParsedAs (codes "dump" ++ space ∷ fields.now) request bytes.new.items) }
{
    match read_dump(alloc, bytes, fields)? {
        Some(dump) => Ok(LineRequest::Dump(dump)),
        None => Ok(LineRequest::Nothing),
    }
}

/// Appends the answer to the request. `bytes` are the bytes of its field, if it is a name and a hex
/// field.
pub(crate) fn push_answer_text(
    alloc: Global,
    text: &mut Vec<u8>,
    request: LineRequest,
    bytes: &[u8],
) -> Result<(), AllocError>
    ensures { OnOk result
        (AppendsSome text.old.items text.new.items (IsAnswerTo request bytes.now)) }
{
    match request {
        LineRequest::Field(name) => push_named(alloc, text, name, bytes),
        LineRequest::Dump(dump) => push_dump(text, &dump),
        LineRequest::Nothing => text.extend_from_slice(BAD_LINE),
    }
}

/// Appends the answer to a name and the bytes of its field.
fn push_named(alloc: Global, text: &mut Vec<u8>, name: Name, bytes: &[u8]) -> Result<(), AllocError>
    ensures { OnOk result (AppendsSome text.old.items text.new.items
        (IsAnswerUnder (codec_of_name name) bytes.now)) }
{
    match name {
        Name::UnixRequest => push_canonical::<UnixRequest>(alloc, text, bytes, ()),
        Name::UnixResponse => push_canonical::<UnixResponse>(alloc, text, bytes, ()),
        Name::InetRequest => push_canonical::<InetRequest>(alloc, text, bytes, ()),
        Name::InetResponse => push_canonical::<InetResponse>(alloc, text, bytes, ()),
        Name::SocketId4 => push_canonical::<SocketId>(alloc, text, bytes, AF_INET),
        Name::SocketId6 => push_canonical::<SocketId>(alloc, text, bytes, AF_INET6),
        Name::Message => {
            push_canonical::<SockDiagMessage>(alloc, text, bytes, SOCK_DIAG_BY_FAMILY)
        }
        Name::NetlinkMessage => push_netlink_message(alloc, text, bytes),
        Name::UnixView => push_view(text, bytes),
    }
}

/// Appends `ok` and the canonical form of the bytes, `unwritable`, or `refused` and the code of the
/// error. `param` is the parameter of the codec of `T`.
fn push_canonical<T: Wire + Drop>(
    alloc: Global,
    text: &mut Vec<u8>,
    bytes: &[u8],
    param: T::Param,
) -> Result<(), AllocError>
    ensures { OnOk result (AppendsSome text.old.items text.new.items
        (IsAnswerUnder (answer_codec T.codec param) bytes.now)) }
{
    match canonical::<T>(alloc, bytes, param) {
        Ok(written) => push_accepted(text, written.as_slice()),
        Err(CanonError::Refused(error)) => push_refused(text, &error),
        Err(CanonError::Unwritable) => text.extend_from_slice(UNWRITABLE),
        Err(CanonError::Memory) => Err(AllocError),
    }
}

/// Appends `ok` and the text of a netlink message, `unwritable`, or `refused` and the code of the
/// error.
fn push_netlink_message(alloc: Global, text: &mut Vec<u8>, bytes: &[u8]) -> Result<(), AllocError>
    ensures { OnOk result (AppendsSome text.old.items text.new.items
        (IsAnswerUnder (codec_of_name NetlinkMessage) bytes.now)) }
{
    match MessageView::parse(bytes) {
        Ok(message) => push_message_text(alloc, text, &message),
        Err(error) => push_refused(text, &error),
    }
}

/// Appends `ok`, the five fields of the header and the serialized payload, or `unwritable`.
fn push_message_text(
    alloc: Global,
    text: &mut Vec<u8>,
    message: &MessageView<'_>,
) -> Result<(), AllocError>
    ensures { OnOk result (AppendsSome text.old.items text.new.items (IsAnswerToValue
        (netlink_message_codec.is_writable (netlink_message_view_model message.now))
        (netlink_message_text (netlink_message_view_model message.now)))) }
{
    if !message.is_writable() {
        return text.extend_from_slice(UNWRITABLE);
    }
    match &message.payload {
        PayloadView::Noop => push_message_fields(text, &message.header, &[]),
        PayloadView::Error(bytes) => push_message_fields(text, &message.header, bytes),
        PayloadView::Done(bytes) => push_message_fields(text, &message.header, bytes),
        PayloadView::Overrun(bytes) => push_message_fields(text, &message.header, bytes),
        PayloadView::InnerMessage(inner) => push_inner(alloc, text, &message.header, inner),
    }
}

/// Appends `ok`, the five fields of a header and a serialized inner message, which must be
/// writable.
fn push_inner(
    alloc: Global,
    text: &mut Vec<u8>,
    header: &NetlinkHeader,
    inner: &SockDiagView<'_>,
) -> Result<(), AllocError>
    requires { message_codec.is_writable (message_view_model inner.now) }
    ensures { OnOk result (text.new.items ≡ text.old.items ++ ok_text
        (netlink_message_text (record {
          header = header.now;
          payload = InnerMessage (message_view_model inner.now);
        }))) }
{
    let mut bytes = vec![in alloc; 0; inner.buffer_len()]?;
    inner.emit(&mut bytes);
    push_message_fields(text, header, &bytes)
}

/// Appends `ok`, the five fields of a header and a payload as a hex field.
fn push_message_fields(
    text: &mut Vec<u8>,
    header: &NetlinkHeader,
    payload: &[u8],
) -> Result<(), AllocError>
    ensures { OnOk result (text.new.items ≡ text.old.items ++ ok_text
        (number_then_text header.now.length
        (number_then_text header.now.message_type (number_then_text header.now.flags
        (number_then_text header.now.sequence_number
        (number_then_text header.now.port_number (hex_field_of payload.now))))))) }
{
    text.extend_from_slice(OK)?;
    push_number_and_space(text, header.length)?;
    push_number_and_space(text, header.message_type.into())?;
    push_number_and_space(text, header.flags.into())?;
    push_number_and_space(text, header.sequence_number)?;
    push_number_and_space(text, header.port_number)?;
    push_field(text, payload)
}

/// Appends a number in decimal and a space.
fn push_number_and_space(text: &mut Vec<u8>, number: u32) -> Result<(), AllocError>
    ensures { OnOk result (text.new.items ≡ text.old.items ++ (decimal number ++ space ∷ [])) }
{
    push_number(text, number.into())?;
    Ok(text.push(b' ')?)
}

/// Returns the name that is spelled in this way, or `None` if there is none.
fn find_name(spelling: &[u8]) -> Option<Name>
    ensures { MatchOption result ((name : Name) → spelling.now ≢ spelling_of name)
        (λ name. spelling.now ≡ spelling_of name) }
{
    if spelling == b"unixreq".as_slice() {
        Some(Name::UnixRequest)
    } else if spelling == b"unix".as_slice() {
        Some(Name::UnixResponse)
    } else if spelling == b"inet".as_slice() {
        Some(Name::InetResponse)
    } else if spelling == b"inetreq".as_slice() {
        Some(Name::InetRequest)
    } else if spelling == b"sockid4".as_slice() {
        Some(Name::SocketId4)
    } else if spelling == b"sockid6".as_slice() {
        Some(Name::SocketId6)
    } else if spelling == b"message".as_slice() {
        Some(Name::Message)
    } else if spelling == b"netlink".as_slice() {
        Some(Name::NetlinkMessage)
    } else if spelling == b"unixview".as_slice() {
        Some(Name::UnixView)
    } else {
        None
    }
}
