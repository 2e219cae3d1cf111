//! Facts, and the two sinks that show them: the text of the table, and a line of JSON. Some facts
//! are only in one of them. A function of this module appends to a sink. If it fails, an allocation
//! failed, and the content of the sink is not specified.
//!
//! In the contracts, `AddsFacts old new facts` states that the sink shows these facts after what it
//! showed before, and `AddsItems` states it of items. `S.content sink.old` and `S.content sink.new`
//! are what the sink shows before and after the call.

ghost use Rattle.std.specs.Prelude.{◌≡◌, ◌++◌, ◌∷◌, [], ℕ, List, OnOk, decimal, flat_map, map};
ghost use Rattle.std.specs.Prelude.{option_map, refl, unwrap_or};
ghost use Rattle.json.specs.Token.{Token, begin_object, end_object, key};
ghost use Rattle.sslist_facts.specs.Facts.{AddsFacts, AddsItems, Facts, SinkContent, both};
ghost use Rattle.sslist_facts.specs.Facts.{bytes_facts, flag_facts, group, json_group, list_facts};
ghost use Rattle.sslist_facts.specs.Facts.{named_member, no_facts, number_facts, number_row_facts};
ghost use Rattle.sslist_facts.specs.Facts.{number_row_of, number_text, numbers};
ghost use Rattle.sslist_facts.specs.Facts.{separated_records};
ghost use Rattle.sslist_facts.specs.Facts.{text_facts};
ghost use Rattle.sslist_facts.specs.declared.facts.Shown.TheVariants.{FanoutMode};
ghost use Rattle.sslist_facts.specs.laws.FactTokens.{group_tokens, no_tokens};
ghost use Rattle.sslist_facts.specs.RecordFacts.{records_facts, records_in};
ghost use Rattle.sslist_texts.specs.laws.MemberTokens.{tokens_append};
ghost use Rattle.sslist_texts.specs.JsonWriting.{KeepsPrefix, members_tokens};

use crate::number_names::{
    name_of_cipher, name_of_fanout_mode, name_of_mode, name_of_version, push_directions,
    push_flag_letters,
};
use crate::records::{ShownRecord, push_records, write_records};
use json::Writer;
use sslist_texts::cells::{push_after, push_hex};
use sslist_texts::json_writing::{
    begin_member, write_bytes, write_flag, write_list, write_optional, write_text,
};
use sslist_texts::names::push_shown;
use std::alloc::{AllocError, Global};

/// How the table shows a number.
#[derive(Clone, Copy)]
pub enum Shown {
    /// Not at all.
    Never,
    /// A text, and the number in decimal.
    Always,
    /// As `Always`, and a closing parenthesis.
    Closed,
    /// As `Always`, but nothing if the number is 0, or `u64::MAX`, which is no limit.
    Nonzero,
    /// As `Always`, but nothing if the number is 0 or this one, which means that it is not known.
    NonzeroExcept(u64),
    /// A text, and the number in hexadecimal digits.
    Hex,
    /// As `Hex`, but nothing if the number is 0.
    NonzeroHex,
    /// A text, if the number has at least one of these bits.
    Bits(u64),
    /// A text, bits 0 to 3 in decimal, a comma, the bits above, and a closing parenthesis.
    Halves,
    /// A text, a space, and `<->` with `-` for each direction that is shut down, as ss(8) has it.
    Directions,
    /// A text, and a version of TLS.
    Version,
    /// A text, and a cipher of TLS.
    Cipher,
    /// A text, and how TLS encrypts or decrypts.
    Mode,
    /// A text, and a letter for each flag of a subflow that is set, but nothing for 0.
    Letters,
    /// A text, and the mode of a fanout group, or the number in hexadecimal digits after `0x`.
    FanoutMode,
}

/// What facts are shown in: the text of the table, or a line of JSON.
pub trait FactSink {
    // The type of the items that the sink shows: bytes in the table, tokens in JSON.
    ghost Item: { Type 0 };

    // The items by which the sink shows facts.
    ghost items: { Facts → List Item };

    // The items that the sink shows so far, and the text in it before them.
    ghost content: { Self → SinkContent items };

    // The items at the beginning of a group, by the text `opening` and the name `member` in JSON.
    ghost beginning: { List ℕ → List ℕ → List Item };

    // The items at the end of a group, by the text `closing`.
    ghost ending: { List ℕ → List Item };

    /// Shows a number. The table shows it by `format`, after `text`. JSON has it under `member`, or
    /// not at all for `None`.
    fn number(
        &mut self,
        format: Shown,
        text: &[u8],
        member: Option<&str>,
        number: u64,
    ) -> Result<(), AllocError>
        ensures { OnOk result (AddsFacts (content self.old) (content self.new)
            (number_facts format text.now (option_map (λ m. m.now) member.entry) number)) };

    /// Shows a flag. The table shows it as the number 0 or 1, by `format`, after `text`. JSON has
    /// it under `member`, as `true` or `false`.
    fn flag(
        &mut self,
        format: Shown,
        text: &[u8],
        member: &str,
        flag: bool,
    ) -> Result<(), AllocError>
        ensures { OnOk result (AddsFacts (content self.old) (content self.new)
            (flag_facts format text.now member.now flag)) };

    /// Shows a name. The table shows it after `text`, escaped as names of sockets are; `utf8` is
    /// the option `--utf8`. JSON has it under `member`.
    fn name(&mut self, utf8: bool, text: &[u8], member: &str, name: &str) -> Result<(), AllocError>
        ensures { OnOk result (AddsFacts (content self.old) (content self.new)
            (text_facts utf8 text.now member.now name.now)) };

    /// Shows numbers. The table shows the first one after `before`, and each later one after
    /// `later`. JSON has the array `member`.
    fn list(
        &mut self,
        before: &[u8],
        later: &[u8],
        member: &str,
        numbers: &[u64],
    ) -> Result<(), AllocError>
        ensures { OnOk result (AddsFacts (content self.old) (content self.new)
            (list_facts before.now later.now member.now numbers.now)) };

    /// Shows bytes that the owner of a socket chose. Only JSON has them: under `member` if they are
    /// valid UTF-8, or else their hexadecimal digits under `hex_member`. Temporary strings are
    /// allocated by `alloc`.
    fn bytes(
        &mut self,
        alloc: Global,
        member: &str,
        hex_member: &str,
        bytes: &[u8],
    ) -> Result<(), AllocError>
        ensures { OnOk result (AddsFacts (content self.old) (content self.new)
            (bytes_facts member.now hex_member.now bytes.now)) };

    /// Shows the records in the value of an attribute. The table shows the first one after
    /// `before`, and each later one after `later`. JSON has the array `member`, and allocates
    /// temporary strings by `alloc`.
    fn records<T: ShownRecord>(
        &mut self,
        alloc: Global,
        before: &[u8],
        later: &[u8],
        member: &str,
        value: &[u8],
    ) -> Result<(), AllocError>
        ensures { OnOk result (AddsFacts (content self.old) (content self.new)
            (records_facts T.record_text T.record_members before.now later.now member.now
            (records_in T.layout value.now))) };

    /// Begins a group: the text `opening` in the table, and the object `member` in JSON.
    fn begin(&mut self, opening: &[u8], member: &str) -> Result<(), AllocError>
        ensures { OnOk result (AddsItems (content self.old) (content self.new)
            (beginning opening.now member.now)) };

    /// Ends a group: the text `closing` in the table, and the end of the object in JSON.
    fn end(&mut self, closing: &[u8]) -> Result<(), AllocError>
        ensures { OnOk result (AddsItems (content self.old) (content self.new)
            (ending closing.now)) };

    // Each impl proves these three: the items of facts are those of their parts, in order.
    ghost items_of_none: { items no_facts ≡ [] };

    ghost items_of_both: { (a b : Facts) → items (both a b) ≡ items a ++ items b };

    ghost items_of_group: { (opening closing member : List ℕ) (facts : Facts)
        → items (group opening closing member facts)
        ≡ beginning opening member ++ (items facts ++ ending closing) };
}

/// The text of the table.
impl FactSink for Vec<u8> {
    ghost Item = { ℕ };

    ghost items = { λ facts. facts.text };

    // All of the text counts as shown, so no text is before it.
    ghost content = { λ text. record { shown = text.items; text_before = [] } };

    ghost beginning = { λ opening member. opening };

    ghost ending = { λ closing. closing };

    #[tactic(auto, unfolding(crate::specs::Facts::number_facts))]
    #[inline(always)]
    fn number(
        &mut self,
        format: Shown,
        text: &[u8],
        _member: Option<&str>,
        number: u64,
    ) -> Result<(), AllocError> {
        // The most frequent formats come first, which is faster than the match of all formats. A
        // `Nonzero` number that is `u64::MAX` is not shown, by the last arm.
        match format {
            Shown::Never => Ok(()),
            Shown::Nonzero if number == 0 => Ok(()),
            Shown::Nonzero if number < u64::MAX => push_after(self, text, number),
            Shown::Always => push_after(self, text, number),
            _ => push_number_as(self, format, text, number),
        }
    }

    #[tactic(auto, unfolding(crate::specs::Facts::flag_facts))]
    fn flag(
        &mut self,
        format: Shown,
        text: &[u8],
        _member: &str,
        flag: bool,
    ) -> Result<(), AllocError> {
        push_number_as(self, format, text, u64::from(flag))
    }

    #[tactic(auto, unfolding(crate::specs::Facts::text_facts))]
    fn name(
        &mut self,
        utf8: bool,
        text: &[u8],
        _member: &str,
        name: &str,
    ) -> Result<(), AllocError> {
        self.extend_from_slice(text)?;
        push_shown(self, utf8, name.as_bytes())
    }

    #[tactic(auto, unfolding(crate::specs::Facts::list_facts))]
    fn list(
        &mut self,
        before: &[u8],
        later: &[u8],
        _member: &str,
        numbers: &[u64],
    ) -> Result<(), AllocError> {
        push_separated(self, before, later, numbers)
    }

    #[tactic(auto, unfolding(crate::specs::Facts::bytes_facts))]
    fn bytes(
        &mut self,
        _alloc: Global,
        _member: &str,
        _hex_member: &str,
        _bytes: &[u8],
    ) -> Result<(), AllocError> {
        Ok(())
    }

    #[tactic(auto, unfolding(crate::specs::RecordFacts::records_facts))]
    fn records<T: ShownRecord>(
        &mut self,
        _alloc: Global,
        before: &[u8],
        later: &[u8],
        _member: &str,
        value: &[u8],
    ) -> Result<(), AllocError> {
        push_records::<T>(self, before, later, value)
    }

    fn begin(&mut self, opening: &[u8], _member: &str) -> Result<(), AllocError> {
        self.extend_from_slice(opening)
    }

    fn end(&mut self, closing: &[u8]) -> Result<(), AllocError> {
        self.extend_from_slice(closing)
    }

    ghost items_of_none = { refl };

    ghost items_of_both = { λ a b. refl };

    ghost items_of_group = { λ opening closing member facts. refl };
}

/// A line of JSON.
impl FactSink for Writer {
    ghost Item = { Token };

    ghost items = { λ facts. members_tokens facts.members };

    ghost content = { λ writer. record { shown = writer.tokens; text_before = writer.before } };

    ghost beginning = { λ opening member. key member ∷ begin_object ∷ [] };

    ghost ending = { λ closing. end_object ∷ [] };

    #[tactic(auto, unfolding(crate::specs::Facts::number_facts))]
    #[inline(always)]
    fn number(
        &mut self,
        _format: Shown,
        _text: &[u8],
        member: Option<&str>,
        number: u64,
    ) -> Result<(), AllocError> {
        write_named(self, member, number)
    }

    #[tactic(auto, unfolding(crate::specs::Facts::flag_facts))]
    fn flag(
        &mut self,
        _format: Shown,
        _text: &[u8],
        member: &str,
        flag: bool,
    ) -> Result<(), AllocError> {
        write_flag(self, member, flag)
    }

    #[tactic(auto, unfolding(crate::specs::Facts::text_facts))]
    fn name(
        &mut self,
        _utf8: bool,
        _text: &[u8],
        member: &str,
        name: &str,
    ) -> Result<(), AllocError> {
        write_text(self, member, name)
    }

    #[tactic(auto, unfolding(crate::specs::Facts::list_facts))]
    fn list(
        &mut self,
        _before: &[u8],
        _later: &[u8],
        member: &str,
        numbers: &[u64],
    ) -> Result<(), AllocError> {
        write_list(self, member, numbers)
    }

    #[tactic(auto, unfolding(crate::specs::Facts::bytes_facts))]
    fn bytes(
        &mut self,
        alloc: Global,
        member: &str,
        hex_member: &str,
        bytes: &[u8],
    ) -> Result<(), AllocError> {
        write_bytes(alloc, self, member, hex_member, bytes)
    }

    #[tactic(auto, unfolding(crate::specs::RecordFacts::records_facts))]
    fn records<T: ShownRecord>(
        &mut self,
        alloc: Global,
        _before: &[u8],
        _later: &[u8],
        member: &str,
        value: &[u8],
    ) -> Result<(), AllocError> {
        write_records::<T>(alloc, self, member, value)
    }

    fn begin(&mut self, _opening: &[u8], member: &str) -> Result<(), AllocError> {
        begin_member(self, member)
    }

    fn end(&mut self, _closing: &[u8]) -> Result<(), AllocError> {
        self.end_object()
    }

    ghost items_of_none = { no_tokens };

    ghost items_of_both = { λ a b. tokens_append a.members b.members };

    ghost items_of_group = { λ opening closing member facts. group_tokens member facts.members };
}

/// A number of a record: how the table shows it, its text there, its name in JSON, and the number,
/// or `None` if it is absent.
pub(crate) type NumberRow<'a> = (Shown, &'a [u8], Option<&'a str>, Option<u64>);

/// A row of a number that the table shows after this text, and JSON has.
macro_rules! shown {
    ($text:literal, $member:literal, $number:expr) => {
        (
            Shown::Always,
            $text,
            Some($member),
            Some($number as u64),
        )
    };
}

/// A row of a number that only JSON has.
macro_rules! hidden {
    ($member:literal, $number:expr) => {
        (Shown::Never, b"", Some($member), Some($number as u64))
    };
}

/// A row of bits that only the table shows, by a text, if the number has one of them.
macro_rules! flag {
    ($bits:literal, $text:literal, $number:expr) => {
        (Shown::Bits($bits), $text, None, Some($number as u64))
    };
}

pub(crate) use flag;
pub(crate) use hidden;
pub(crate) use shown;

/// Shows the numbers of these rows as a group: between `opening` and `closing` in the table, and as
/// the object `member` in JSON.
#[inline(always)]
pub(crate) fn show_group<S: FactSink>(
    sink: &mut S,
    opening: &[u8],
    closing: &[u8],
    member: &str,
    rows: &[NumberRow<'_>],
) -> Result<(), AllocError>
    ensures { OnOk result (AddsFacts (S.content sink.old) (S.content sink.new)
        (group opening.now closing.now member.now (numbers (map number_row_of rows.now)))) }
{
    sink.begin(opening, member)?;
    show_numbers(sink, rows)?;
    sink.end(closing)
}

/// Shows the numbers of these rows as a group, which is the object `member` in JSON, and has no
/// text around it in the table.
#[inline(always)]
pub(crate) fn show_json_group<S: FactSink>(
    sink: &mut S,
    member: &str,
    rows: &[NumberRow<'_>],
) -> Result<(), AllocError>
    ensures { OnOk result (AddsFacts (S.content sink.old) (S.content sink.new)
        (json_group member.now (numbers (map number_row_of rows.now)))) }
{
    show_group(sink, b"", b"", member, rows)
}

/// Shows the number of each row that has one.
#[inline(always)]
pub(crate) fn show_numbers<S: FactSink>(
    sink: &mut S,
    rows: &[NumberRow<'_>],
) -> Result<(), AllocError>
    ensures { OnOk result (AddsFacts (S.content sink.old) (S.content sink.new)
        (numbers (map number_row_of rows.now))) }
{
    show_each(sink, rows)
}

/// Shows the number of each row that has one. The contract states this of items, as the loop
/// appends them.
#[inline(always)]
fn show_each<S: FactSink>(sink: &mut S, rows: &[NumberRow<'_>]) -> Result<(), AllocError>
    ensures { OnOk result (AddsItems (S.content sink.old) (S.content sink.new)
        (flat_map (λ row. S.items (number_row_facts (number_row_of row))) rows.now)) }
{
    for &(format, text, member, number) in rows {
        if let Some(number) = number {
            sink.number(format, text, member, number)?;
        }
    }
    Ok(())
}

/// Appends a number by this format, after the text `before`. Some formats append nothing for some
/// numbers ([`Shown`]).
fn push_number_as(
    text: &mut Vec<u8>,
    format: Shown,
    before: &[u8],
    number: u64,
) -> Result<(), AllocError>
    ensures { OnOk result (text.new.items
        ≡ text.old.items ++ number_text format before.now number) }
{
    match format {
        // First the numbers that are not shown.
        Shown::Nonzero if number == 0 || number == u64::MAX => Ok(()),
        Shown::NonzeroExcept(unknown) if number == 0 || number == unknown => Ok(()),
        Shown::Bits(bits) if number & bits == 0 => Ok(()),
        Shown::NonzeroHex | Shown::Letters if number == 0 => Ok(()),
        Shown::Never => Ok(()),
        Shown::Always | Shown::Nonzero | Shown::NonzeroExcept(_) => {
            push_after(text, before, number)
        }
        // The number has one of the bits, by the test above.
        Shown::Bits(_) => text.extend_from_slice(before),
        Shown::Closed => {
            push_after(text, before, number)?;
            Ok(text.push(b')')?)
        }
        Shown::Hex | Shown::NonzeroHex => {
            text.extend_from_slice(before)?;
            push_hex(text, number)
        }
        Shown::Halves => {
            push_after(text, before, number % 16)?;
            push_after(text, b",", number / 16)?;
            Ok(text.push(b')')?)
        }
        Shown::Directions => {
            text.extend_from_slice(before)?;
            push_directions(text, number)
        }
        Shown::Version => push_named(text, before, name_of_version(number), number),
        Shown::Cipher => push_named(text, before, name_of_cipher(number), number),
        Shown::Mode => push_named(text, before, name_of_mode(number), number),
        Shown::Letters => {
            text.extend_from_slice(before)?;
            push_flag_letters(text, number)
        }
        Shown::FanoutMode => push_fanout_mode(text, before, number),
    }
}

/// Appends the text `before`, and the name of the mode of a fanout group, or `0x` and the number in
/// hexadecimal digits if it has no name.
fn push_fanout_mode(text: &mut Vec<u8>, before: &[u8], number: u64) -> Result<(), AllocError>
    ensures { OnOk result (text.new.items
        ≡ text.old.items ++ number_text FanoutMode before.now number) }
{
    text.extend_from_slice(before)?;
    match name_of_fanout_mode(number) {
        Some(name) => text.extend_from_slice(name),
        None => {
            text.extend_from_slice(b"0x")?;
            push_hex(text, number)
        }
    }
}

/// Appends the text `before`, and the name of a number, or the number in decimal if it has no name
/// (`None`).
fn push_named(
    text: &mut Vec<u8>,
    before: &[u8],
    name: Option<&[u8]>,
    number: u64,
) -> Result<(), AllocError>
    ensures { OnOk result (text.new.items ≡ text.old.items
        ++ before.now ++ unwrap_or (option_map (λ n. n.now) name.entry) (decimal number)) }
{
    match name {
        Some(name) => {
            text.extend_from_slice(before)?;
            text.extend_from_slice(name)
        }
        None => push_after(text, before, number),
    }
}

/// Appends each number in decimal: the first one after the text `before`, and each later one after
/// the text `later`.
fn push_separated(
    text: &mut Vec<u8>,
    before: &[u8],
    later: &[u8],
    numbers: &[u64],
) -> Result<(), AllocError>
    ensures { OnOk result (text.new.items
        ≡ text.old.items ++ separated_records decimal before.now later.now numbers.now) }
{
    let mut separator = before;
    for number in numbers {
        push_after(text, separator, *number)?;
        separator = later;
    }
    Ok(())
}

/// Writes a member whose value is a number. Writes nothing if it has no name (`None`).
#[inline(always)]
#[tactic(auto, unfolding(sslist_texts::specs::JsonWriting::members_tokens))]
fn write_named(writer: &mut Writer, member: Option<&str>, number: u64) -> Result<(), AllocError>
    ensures prefix { KeepsPrefix result writer.old writer.new }
    ensures members { OnOk result (writer.new.tokens ≡ writer.old.tokens
        ++ members_tokens (named_member (option_map (λ m. m.now) member.entry) number)) }
{
    match member {
        Some(name) => write_optional(writer, name, Some(number)),
        None => Ok(()),
    }
}
