//! The answer to a line that contains the datagrams of a dump. A function that returns a `Result`
//! fails only if an allocation fails.

ghost use Rattle.std.specs.Prelude.{◌≡◌, ◌↔◌, ◌++◌, ℕ, ℤ, List, Option, IsTrue, IfOk, OnOk};
ghost use Rattle.std.specs.Prelude.{MatchBool, MatchOption, Ok, length};
ghost use Rattle.netlink_packet_sock_diag.specs.Message.{message_codec};
ghost use Rattle.netlink_packet_sock_diag.specs.MessageViewModel.{message_view_model};
ghost use Rattle.netlink_packet_sock_diag.specs.declared.dump.DumpState.TheVariants.{Reading};
ghost use Rattle.sock_diag_lines.specs.DumpLine.{dump_state_text};
ghost use Rattle.sock_diag_lines.specs.HexField.{AreHexFields, IsHexField, IsNoHexField};
ghost use Rattle.sock_diag_lines.specs.private.ReadDump.{AnswersDump, AppendsMessage};
ghost use Rattle.sock_diag_lines.specs.private.ReadDump.{FeedsOneDatagram, IsReadDump};
ghost use Rattle.sock_diag_lines.specs.private.ReadDump.{shown_end, texts_in};
ghost use Rattle.sock_diag_lines.specs.private.Text.{AppendsSome};

use crate::answer_parts::{OK, UNWRITABLE, push_field, push_number};
use crate::fields::{find_space, read_field};
use netlink_core::{DecodeError, Emitable};
use netlink_packet_sock_diag::{DumpState, DumpViews, PayloadView, SockDiagView};
use std::alloc::{AllocError, Global};

/// A dump after its datagrams were read. Its messages are retained as they are serialized.
#[derive(Drop)]
pub(crate) struct ReadDump {
    /// The state, or the decode error that ended the dump.
    end: Result<DumpState, DecodeError>,
    /// Whether each message is writable. If not, the next two fields are not complete.
    is_writable: bool,
    /// The length of each serialized message.
    lengths: Vec<usize>,
    /// The serialized messages, concatenated.
    bytes: Vec<u8>,
    /// A buffer for a serialized message.
    buffer: Vec<u8>,
}

/// Reads the dump over the datagrams in hex fields that are separated by one space. Returns `None`
/// if one of them is not a hex field. `bytes` is a buffer for the bytes of a field.
pub(crate) fn read_dump(
    alloc: Global,
    bytes: &mut Vec<u8>,
    fields: &[u8],
) -> Result<Option<ReadDump>, AllocError>
    ensures { IfOk result (λ read. MatchOption read ((datagrams : List (List ℕ))
        → ¬ AreHexFields fields.now datagrams)
        (λ dump. (datagrams : List (List ℕ)) × AreHexFields fields.now datagrams
        × IsReadDump datagrams dump)) }
{
    // Two hex digits are a byte, and serialized messages are seldom longer than their datagrams.
    let serialized = Vec::with_capacity(alloc, fields.len() / 2)?;
    let mut dump = ReadDump {
        end: Ok(DumpState::Reading),
        is_writable: true,
        lengths: Vec::new(alloc),
        bytes: serialized,
        buffer: Vec::new(alloc),
    };
    let mut rest = fields;
    'fields: while let Some(space) = find_space(rest) {
        if !feed_field(&mut dump, bytes, &rest[..space])? {
            return Ok(None);
        }
        rest = &rest[space + 1..];
    }
    if feed_field(&mut dump, bytes, rest)? {
        Ok(Some(dump))
    } else {
        Ok(None)
    }
}

/// Feeds the datagram in a hex field to the dump. Returns whether the field is a hex field. `bytes`
/// is a buffer for the datagram.
fn feed_field(dump: &mut ReadDump, bytes: &mut Vec<u8>, field: &[u8]) -> Result<bool, AllocError>
    ensures { IfOk result (λ is_field. MatchBool is_field
        ((datagram : List ℕ) × IsHexField field.now datagram
        × FeedsOneDatagram dump.old datagram dump.new)
        (IsNoHexField field.now)) }
{
    if !read_field(bytes, field)? {
        return Ok(false);
    }
    feed_datagram(dump, bytes.as_slice())?;
    Ok(true)
}

/// Feeds a datagram to the dump. A dump that has ended is unchanged.
fn feed_datagram(dump: &mut ReadDump, datagram: &[u8]) -> Result<(), AllocError>
    ensures { OnOk result (FeedsOneDatagram dump.old datagram.now dump.new) }
{
    if is_reading(dump) {
        feed_messages(dump, datagram)
    } else {
        Ok(())
    }
}

/// Returns whether the dump has not ended.
fn is_reading(dump: &ReadDump) -> bool
    ensures { IsTrue result ↔ (dump.now.end ≡ Ok Reading) }
{
    matches!(dump.end, Ok(DumpState::Reading))
}

/// Feeds the messages of a datagram up to the end of the dump, and serializes them. The dump must
/// not have ended.
fn feed_messages(dump: &mut ReadDump, datagram: &[u8]) -> Result<(), AllocError>
    requires { dump.old.end ≡ Ok Reading }
    ensures { OnOk result (FeedsOneDatagram dump.old datagram.now dump.new) }
{
    for item in DumpViews::new(datagram) {
        let payload = match item {
            Ok(payload) => payload,
            Err(error) => {
                dump.end = Err(error);
                return Ok(());
            }
        };
        match payload {
            PayloadView::InnerMessage(message) => push_message(dump, &message)?,
            PayloadView::Noop => {}
            PayloadView::Done(_) => {
                dump.end = Ok(DumpState::Done);
                return Ok(());
            }
            PayloadView::Error(_) => {
                dump.end = Ok(DumpState::Error);
                return Ok(());
            }
            PayloadView::Overrun(_) => {
                dump.end = Ok(DumpState::Overrun);
                return Ok(());
            }
        }
    }
    Ok(())
}

/// Serializes a message and adds it to the dump. If this message or an earlier one is not writable,
/// it is not serialized, and `is_writable` is false then.
fn push_message(dump: &mut ReadDump, message: &SockDiagView<'_>) -> Result<(), AllocError>
    ensures { OnOk result (AppendsMessage dump.old (message_view_model message.now) dump.new) }
{
    if !dump.is_writable {
        return Ok(());
    }
    let Some(len) = message.writable_len() else {
        dump.is_writable = false;
        return Ok(());
    };
    dump.lengths.push(len)?;
    push_bytes(&mut dump.bytes, &mut dump.buffer, message, len)
}

/// Appends the bytes of a writable message. `len` is their number, and `buffer` is a buffer for
/// them.
fn push_bytes(
    bytes: &mut Vec<u8>,
    buffer: &mut Vec<u8>,
    message: &SockDiagView<'_>,
    len: usize,
) -> Result<(), AllocError>
    requires writable { message_codec.is_writable (message_view_model message.now) }
    requires len { len ≡ length (message_codec.serialized (message_view_model message.now)) }
    ensures { OnOk result (bytes.new.items ≡ bytes.old.items
        ++ message_codec.serialized (message_view_model message.now)) }
{
    buffer.resize(len, 0)?;
    message.emit(buffer.as_mut_slice());
    bytes.extend_from_slice(buffer.as_slice())
}

/// Appends `ok`, the state of the dump, the number of its messages and the bytes of each, or
/// `unwritable`.
pub(crate) fn push_dump(text: &mut Vec<u8>, dump: &ReadDump) -> Result<(), AllocError>
    ensures { OnOk result (AppendsSome text.old.items text.new.items (AnswersDump dump.now)) }
{
    if !dump.is_writable {
        return text.extend_from_slice(UNWRITABLE);
    }
    text.extend_from_slice(OK)?;
    push_end(text, dump)?;
    text.push(b' ')?;
    push_number(text, dump.lengths.len() as u64)?;
    push_messages(text, dump.lengths.as_slice(), dump.bytes.as_slice())
}

/// Appends a space and the bytes as a hex field, for each message. `bytes` are the bytes of all
/// messages, which have these lengths.
fn push_messages(text: &mut Vec<u8>, lengths: &[usize], bytes: &[u8]) -> Result<(), AllocError>
    ensures { OnOk result (text.new.items ≡ text.old.items ++ texts_in lengths.now bytes.now) }
{
    // A space for each message, two digits for each byte, and the line feed after the answer. If
    // the sum does not fit, it is the greatest `usize`, which cannot be reserved.
    let digits = bytes.len().saturating_mul(2);
    text.reserve(digits.saturating_add(lengths.len()).saturating_add(1))?;
    let mut rest = bytes;
    for len in lengths {
        // The lengths add up to the number of bytes. So `min` changes nothing; it spares a
        // precondition.
        let (message, later) = rest.split_at((*len).min(rest.len()));
        text.push(b' ')?;
        push_field(text, message)?;
        rest = later;
    }
    Ok(())
}

/// Appends the name of the state, or `failed:` and the code of the error.
fn push_end(text: &mut Vec<u8>, dump: &ReadDump) -> Result<(), AllocError>
    ensures { OnOk result (text.new.items
        ≡ text.old.items ++ dump_state_text (shown_end dump.now)) }
{
    match &dump.end {
        Ok(state) => text.extend_from_slice(name_of_dump_state(*state)),
        Err(error) => {
            text.extend_from_slice(b"failed:")?;
            push_number(text, error.number().into())
        }
    }
}

/// Returns the name of a state.
fn name_of_dump_state(state: DumpState) -> &'static [u8]
    // The text does not show the error number, so that this holds for any.
    ensures { (number : Option ℤ) → result.now ≡ dump_state_text (Ok (state, number)) }
{
    match state {
        DumpState::Reading => b"reading",
        DumpState::Done => b"done",
        DumpState::Error => b"error",
        DumpState::Overrun => b"overrun",
        // Does not occur here: a dump that a decode error ended is an `Err` in `push_end`.
        DumpState::Failed => b"failed",
    }
}
