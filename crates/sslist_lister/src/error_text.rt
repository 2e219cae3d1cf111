//! Texts of diagnostics and of decode errors. A function of this module allocates only to grow the
//! text. If it fails, an allocation failed, and the content of the text is not specified.

ghost use Rattle.std.specs.Prelude.{◌≡◌, ◌++◌, OnOk, decimal};
ghost use Rattle.sslist_lister.specs.Diagnostics.{decode_error_text, diagnostic_text};
ghost use Rattle.sslist_lister.specs.Diagnostics.{record_text};
ghost use Rattle.sslist_lister.specs.private.Sentence.{sentence_text, subject_text};

use crate::list::Diagnostic;
use netlink_core::{DecodeError, RecordName};
use sslist_texts::cells::push_after;
use std::alloc::AllocError;

/// A text with up to two numbers.
#[derive(Clone, Copy)]
enum Sentence {
    /// A text.
    Plain(&'static [u8]),
    /// A number between two texts.
    One(&'static [u8], u64, &'static [u8]),
    /// Two numbers, with a text before, between and after them.
    Two(&'static [u8], u64, &'static [u8], u64, &'static [u8]),
}

/// A number between two texts.
macro_rules! one {
    ($before:literal, $number:expr, $after:literal) => {
        Sentence::One($before, $number as u64, $after)
    };
}

/// Two numbers, with a text before, between and after them.
macro_rules! two {
    ($before:literal, $first:expr, $between:literal, $second:expr, $after:literal) => {
        Sentence::Two($before, $first as u64, $between, $second as u64, $after)
    };
}

/// Appends the text of a diagnostic: of a rejected message that of its decode error.
pub(crate) fn push_reason(text: &mut Vec<u8>, diagnostic: &Diagnostic) -> Result<(), AllocError>
    ensures { OnOk result (text.new.items ≡ text.old.items ++ diagnostic_text diagnostic.now) }
{
    match diagnostic {
        Diagnostic::Refused(error) => push_decode_error(text, error),
        Diagnostic::Answered(errno) => {
            push_sentence(text, one!(b"the kernel returned error ", *errno, b""))
        }
        Diagnostic::NoEntry => text.extend_from_slice(b"note: the kernel returned ENOENT"),
        Diagnostic::Invalid => text.extend_from_slice(b"note: the kernel returned EINVAL"),
        Diagnostic::Interrupted => text.extend_from_slice(b"dump interrupted (NLM_F_DUMP_INTR)"),
        Diagnostic::Lost => text.extend_from_slice(b"the kernel lost data"),
        Diagnostic::NoNumber => {
            text.extend_from_slice(b"the kernel's answer has no error number")
        }
    }
}

/// Appends the text of a decode error, which is that of its `Display`.
pub fn push_decode_error(text: &mut Vec<u8>, error: &DecodeError) -> Result<(), AllocError>
    ensures { OnOk result (text.new.items ≡ text.old.items ++ decode_error_text error.now) }
{
    push_subject(text, error)?;
    push_sentence(text, sentence_of(error))
}

/// Appends the name of the record that an error is about. Appends nothing if it names none.
fn push_subject(text: &mut Vec<u8>, error: &DecodeError) -> Result<(), AllocError>
    ensures { OnOk result (text.new.items ≡ text.old.items ++ subject_text error.now) }
{
    match error {
        DecodeError::BufferTooSmall { which, .. } => push_sentence(text, name_of_record(which)),
        _ => Ok(()),
    }
}

/// Appends a sentence: its texts, and its numbers in decimal.
#[tactic(auto, using(sslist_texts::proofs::Adding::sentence_continues))]
fn push_sentence(text: &mut Vec<u8>, sentence: Sentence) -> Result<(), AllocError>
    ensures { OnOk result (text.new.items ≡ text.old.items ++ sentence_text sentence) }
{
    match sentence {
        Sentence::Plain(plain) => text.extend_from_slice(plain),
        Sentence::One(before, number, after) => push_one(text, before, number, after),
        Sentence::Two(before, first, between, second, after) => {
            push_one(text, before, first, between)?;
            push_one(text, b"", second, after)
        }
    }
}

/// Appends a number between two texts.
#[tactic(auto, using(sslist_texts::proofs::Adding::three_texts_concatenate))]
fn push_one(text: &mut Vec<u8>, before: &[u8], number: u64, after: &[u8]) -> Result<(), AllocError>
    ensures { OnOk result (text.new.items
        ≡ text.old.items ++ (before.now ++ (decimal number ++ after.now))) }
{
    push_after(text, before, number)?;
    text.extend_from_slice(after)
}

/// Returns the text of a decode error, without the name of the record that it is about, which
/// precedes this text.
fn sentence_of(error: &DecodeError) -> Sentence
    ensures { subject_text error.now ++ sentence_text result ≡ decode_error_text error.now }
{
    match *error {
        DecodeError::Memory => Sentence::Plain(b"out of memory"),
        DecodeError::BufferTooSmall { got, need, .. } => {
            two!(b": buffer of ", got, b" bytes, at least ", need, b" needed")
        }
        DecodeError::UnsupportedFamily { family } => {
            one!(
                b"unsupported address family ",
                family,
                b": expected AF_INET (2) or AF_INET6 (10)"
            )
        }
        DecodeError::MessageTooShort { got } => {
            one!(
                b"invalid buffer: length is ",
                got,
                b" but packets are at least 2 bytes"
            )
        }
        DecodeError::UnknownFamily { family } => one!(b"unknown address family ", family, b""),
        DecodeError::UnknownMessageType { message_type } => {
            one!(b"unknown message type ", message_type, b"")
        }
        DecodeError::AttributeHeaderCut { left } => {
            one!(b"attribute header cut: ", left, b" bytes left")
        }
        DecodeError::AttributeLengthUnder4 { length } => {
            one!(b"attribute length ", length, b" is under 4")
        }
        DecodeError::AttributeLengthPast { length, left } => {
            two!(
                b"attribute length ",
                length,
                b" is past the ",
                left,
                b" bytes left"
            )
        }
        DecodeError::WrongLength { got, need, .. } => {
            two!(b"value of ", got, b" bytes, ", need, b" needed")
        }
        DecodeError::NotMultipleOfFour { got } => {
            one!(b"value of ", got, b" bytes is no multiple of 4")
        }
        DecodeError::NotUtf8 => Sentence::Plain(b"text is not UTF-8"),
        DecodeError::NameEmpty => Sentence::Plain(b"name is empty"),
        DecodeError::NameInnerZero { index } => one!(b"pathname holds a zero at ", index, b""),
        DecodeError::NameWithoutEnd => Sentence::Plain(b"pathname is not null-terminated"),
        DecodeError::EnvelopeCut { got } => one!(b"message header cut: ", got, b" bytes"),
        DecodeError::EnvelopeLengthUnder16 { length } => {
            one!(b"message length ", length, b" is under 16")
        }
        DecodeError::EnvelopeLengthPast { length, got } => {
            two!(
                b"message length ",
                length,
                b" is past the ",
                got,
                b" bytes given"
            )
        }
    }
}

/// Returns the name of a record, as texts of errors have it.
fn name_of_record(name: &RecordName) -> Sentence
    ensures { sentence_text result ≡ record_text name.now }
{
    match *name {
        RecordName::SocketId => Sentence::Plain(b"SocketId"),
        RecordName::InetRequest => Sentence::Plain(b"InetRequest"),
        RecordName::InetResponseHeader => Sentence::Plain(b"InetResponseHeader"),
        RecordName::UnixRequest => Sentence::Plain(b"UnixRequest"),
        RecordName::UnixResponseHeader => Sentence::Plain(b"UnixResponseHeader"),
        RecordName::LegacyMemInfo => Sentence::Plain(b"LegacyMemInfo"),
        RecordName::MemInfo => Sentence::Plain(b"MemInfo"),
        RecordName::TcpInfo => Sentence::Plain(b"TcpInfo"),
        RecordName::Vfs => Sentence::Plain(b"Vfs"),
        RecordName::UnixMemInfo => Sentence::Plain(b"UnixMemInfo"),
        RecordName::FamilyRequest { family } => one!(b"FamilyRequest { family: ", family, b" }"),
        RecordName::FamilyResponseHeader { family } => {
            one!(b"FamilyResponseHeader { family: ", family, b" }")
        }
        RecordName::FamilyAttribute { family, kind } => {
            two!(
                b"FamilyAttribute { family: ",
                family,
                b", kind: ",
                kind,
                b" }"
            )
        }
    }
}
