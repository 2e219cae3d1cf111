//! Filters that were parsed from a text.

ghost use Rattle.std.specs.Prelude.{◌≡◌, ◌≤◌, IfErr, IfNone, IfOk, IfSome, SomeIff, length};
ghost use Rattle.std.specs.Prelude.{option_map, sum_by, take};
ghost use Rattle.sock_diag_filters.specs.Parsed.{IsFilterTextError, IsParsed};
ghost use Rattle.sock_diag_filters.specs.Postfix.{are_met, part_size, postfix};
ghost use Rattle.sock_diag_filters.specs.Programs.{IsProgram};
ghost use Rattle.sock_diag_filters.specs.SocketFacts.{facts_meet};
ghost use Rattle.sock_diag_filters.specs.States.{has_state};
ghost use Rattle.sock_diag_filters.specs.Words.{words_of};
ghost use Rattle.sock_diag_filters.specs.declared.filter.Filter.{Filter};
ghost use Rattle.sock_diag_filters.specs.declared.text.parsed.Part.TheVariants.{And};

use crate::codes::OPERATION_HEADER_LEN;
use crate::condition::Condition;
use crate::text::facts::SocketFacts;
use crate::text::postfix::{are_met, program_len, write_last};
use crate::text::reader::Reader;
use crate::text::states::state_bit;
use arrayvec::ArrayVec;
use std::fmt::{self, Debug, Formatter};
use thiserror::Error;

/// The greatest number of conditions, operators and open groups of a filter that is parsed from a
/// text.
pub const MAX_PARTS: usize = 256;

/// The maximum length in bytes of the program of a filter that is parsed from a text.
pub const MAX_PARSED_PROGRAM: usize = MAX_PARTS * 28;

/// A part of a filter in postfix order, in which an operator follows its operands.
#[derive(Clone, Copy, Debug, PartialEq, Eq)]
pub enum Part {
    /// A condition.
    Condition(Condition),
    /// Both operands are met.
    And,
    /// At least one of the operands is met.
    Or,
    /// The operand is not met.
    Not,
}

// What fills the unused slots of a list of parts.
impl Default for Part {
    ghost is_default = { λ part. part ≡ And };

    fn default() -> Part {
        Part::And
    }
}

/// The reason why a text is not a filter.
#[derive(Clone, Copy, Debug, PartialEq, Eq, Error)]
pub enum FilterTextError {
    /// No filter begins with the text up to and including this word. One begins with the words
    /// before it.
    #[error("unexpected word at byte {offset}")]
    Unexpected {
        /// The offset of the word in bytes.
        offset: usize,
    },
    /// The text ends before the end of the filter.
    #[error("the filter is not complete")]
    Incomplete,
    /// With this word the filter has more than [`MAX_PARTS`] conditions, operators and open groups.
    #[error("more than {MAX_PARTS} conditions, operators and groups at byte {offset}")]
    TooLong {
        /// The offset of the word in bytes.
        offset: usize,
    },
}

/// A filter that was parsed from a text, in the words of ss(8).
#[derive(Drop)]
pub struct ParsedFilter {
    /// The states of the sockets, a bit for each as in `idiag_states` of a request, or `None` if
    /// the text names no state.
    pub states: Option<u32>,
    /// The filter in postfix order. Empty if the text has no conditions: then each socket is
    /// selected.
    pub parts: ArrayVec<Part, MAX_PARTS>,
}

impl ParsedFilter {
    /// Parses a filter in the words of ss(8), which ASCII white space separates:
    ///
    /// - `state STATE` and `exclude STATE`, any number of them, with the names that ss(8) has for
    ///   states and groups of them, as `established` or `connected`, and then an expression or
    ///   nothing;
    /// - conditions: `sport` and `dport` with a port, as `:443` or `443`; `src` and `dst` with an
    ///   address, which a slash and a number of bits, and a colon and a port may follow, as
    ///   `10.0.0.0/8:53`, `[::1]:53` or `*:53`; `dev` with the index of an interface; `fwmark` with
    ///   a mark, as `1` or `0x1/0x3`; `cgroup` with an id; and `autobound`;
    /// - the operators of ports `=`, `!=`, `<`, `>`, `<=` and `>=`, also as words such as `eq` or
    ///   `geq`; of `dev`, `fwmark` and `cgroup` only `=` and `!=`, of addresses only `=`. Without
    ///   an operator `=` is meant;
    /// - `not` and `!`, `and`, `&` and `&&`, `or`, `|` and `||`, and parentheses. `not` applies to
    ///   the operand that follows it. `and` and `or` group from the left with the same precedence,
    ///   as ss(8) parses them, though its manual page says otherwise. Two operands without an
    ///   operator are combined by `and`.
    ///
    /// An IPv6 address is in brackets, with its number of bits if it has one: `[fe80::/10]:53`.
    /// With a number of bits the brackets may be left out. Numbers are in decimal, or in
    /// hexadecimal after `0x`. Names of hosts, services, interfaces and control groups are not
    /// known.
    ///
    /// Fails with the first error, see [`FilterTextError`].
    pub fn parse(text: &[u8]) -> Result<ParsedFilter, FilterTextError>
        // `words_of text`: the words of the text. `IsParsed words states parts`: the words are a
        // text of these states and of the filter whose parts in postfix order are these.
        ensures parsed { IfOk result (λ parsed. IsParsed (words_of text.now) parsed.states
            parsed.parts.items) }
        ensures rejected { IfErr result (λ e. IsFilterTextError text.now e) }
    {
        let mut reader = Reader::new();
        let mut start = 0;
        for (index, byte) in text.iter().enumerate() {
            if byte.is_ascii_whitespace() {
                reader.read_at(start, &text[start..index])?;
                start = index + 1;
            }
        }
        reader.read_at(start, &text[start..])?;
        reader.finish()
    }

    /// Returns whether the filter selects a socket with these facts. A filter without conditions
    /// selects each. The states are not considered.
    pub fn selects(&self, facts: &SocketFacts) -> bool
        ensures { result ≡ are_met (facts_meet facts.now) self.now.parts.items }
    {
        are_met(&self.parts, facts)
    }

    /// Returns whether the filter selects sockets in a state, or `None` if its text names no state.
    pub fn selects_state(&self, state: u8) -> Option<bool>
        ensures { result ≡ option_map (λ states. has_state states state) self.now.states }
    {
        let states = self.states?;
        Some(states & state_bit(state) != 0)
    }

    /// Returns the length of the filter's program in bytes, which is 0 if there are no conditions.
    /// It is at most [`MAX_PARSED_PROGRAM`].
    pub fn program_len(&self) -> usize
        ensures value { result ≡ sum_by part_size self.now.parts.items }
        ensures bound { result ≤ MAX_PARSED_PROGRAM }
    {
        program_len(&self.parts)
    }

    /// Writes the program of the filter, the value of an attribute `INET_DIAG_REQ_BYTECODE`, to the
    /// start of a buffer, and returns its length. Returns `None` if the buffer is shorter than
    /// [`program_len`](Self::program_len), and then writes nothing. Without conditions the program
    /// is empty, and a request has no such attribute.
    ///
    /// If [`parts`](Self::parts) are a filter, as after [`parse`](Self::parse), the program has the
    /// properties of `assemble`'s: it passes the kernel's audit, and selects the sockets that meet
    /// the filter.
    pub fn write_program(&self, buffer: &mut [u8]) -> Option<usize>
        ensures len { SomeIff result
            (sum_by part_size self.now.parts.items ≤ length buffer.old)
            (sum_by part_size self.now.parts.items) }
        ensures unchanged { IfNone result (buffer.new ≡ buffer.old) }
        ensures program { (filter : Filter) → self.now.parts.items ≡ postfix filter
            → IfSome result (λ len. IsProgram filter (take len buffer.new)) }
    {
        let len = self.program_len();
        if buffer.len() < len {
            return None;
        }
        let (_, _) = write_last(&self.parts, OPERATION_HEADER_LEN, &mut buffer[..len]);
        Some(len)
    }
}

impl Debug for ParsedFilter {
    fn fmt<W: fmt::Write>(&self, f: &mut Formatter<W>) -> fmt::Result {
        let parts: &[Part] = &self.parts;
        f.debug_struct("ParsedFilter")
            .field("states", &self.states)
            .field("parts", &parts)
            .finish()
    }
}
