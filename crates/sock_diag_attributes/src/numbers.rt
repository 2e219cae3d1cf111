//! Little-endian numbers that make up the complete value of an attribute. In the contracts
//! `numbers_view_model view` are the numbers of a [`NumbersView`], as a list.

ghost use Rattle.std.specs.List.{AllByRecursion};
ghost use Rattle.std.specs.Prelude.{◌≡◌, ◌<◌, ◌^◌, ◌≤◌, ◌↔◌, ◌++◌, ◌%◌, [], length, drop};
ghost use Rattle.std.specs.Prelude.{slice_get, IsTrue, IsOk, IfOk, IfSome, MatchResult, Ok, Err};
ghost use Rattle.std.specs.Prelude.{Some, flat_map};
ghost use Rattle.std.specs.Iterator.{UpTo, YieldsFirst, item_count};
ghost use Rattle.std.specs.Iterator.SizeHint.{IsWithinCount};
ghost use Rattle.byteorder.specs.Endian.{little_bytes};
ghost use Rattle.netlink_core.specs.Bytes.{HoldsAtStart, IsBytes};
ghost use Rattle.netlink_core.specs.Parse.{number_of_width};
ghost use Rattle.sock_diag_attributes.specs.Flag.{parse_flag};
ghost use Rattle.sock_diag_attributes.specs.Numbers.{parse_number_pair, parse_numbers};

use byteorder::{ByteOrder, LittleEndian};
use netlink_core::DecodeError;
use std::alloc::{AllocError, Global};

/// Parses the number in exactly one byte, the value of an attribute of this kind. Returns
/// `WrongLength` with the kind for any other length.
pub(crate) fn exact_u8(kind: u16, value: &[u8]) -> Result<u8, DecodeError>
    ensures { result ≡ number_of_width (Some kind) 1 value.now }
{
    match value {
        [byte] => Ok(*byte),
        _ => Err(wrong_length(kind, value, 1)),
    }
}

/// Parses the little-endian number in exactly four bytes, the value of an attribute of this kind.
/// Returns `WrongLength` with the kind for any other length.
pub(crate) fn exact_u32(kind: u16, value: &[u8]) -> Result<u32, DecodeError>
    ensures { result ≡ number_of_width (Some kind) 4 value.now }
{
    if value.len() != 4 {
        return Err(wrong_length(kind, value, 4));
    }
    Ok(LittleEndian::read_u32(value))
}

/// Parses the flag in exactly one byte, the value of an attribute of this kind. The flag is true if
/// the byte is not zero. Returns `WrongLength` with the kind for any other length.
pub(crate) fn exact_flag(kind: u16, value: &[u8]) -> Result<bool, DecodeError>
    ensures { result ≡ parse_flag kind value.now }
{
    Ok(exact_u8(kind, value)? != 0)
}

/// Parses the two little-endian numbers in exactly eight bytes, the value of an attribute of this
/// kind. Returns `WrongLength` with the kind for any other length.
pub(crate) fn exact_u32_pair(kind: u16, value: &[u8]) -> Result<(u32, u32), DecodeError>
    ensures { result ≡ parse_number_pair kind value.now }
{
    if value.len() != 8 {
        return Err(wrong_length(kind, value, 8));
    }
    let (first, second) = value.split_at(4);
    Ok((
        LittleEndian::read_u32(first),
        LittleEndian::read_u32(second),
    ))
}

// Returns the error `WrongLength` for the value of an attribute of this kind, which should have
// `need` bytes. It also contains the length of the value.
fn wrong_length(kind: u16, value: &[u8], need: usize) -> DecodeError
    ensures { result ≡ DecodeError.WrongLength (Some kind) (length value.now) need }
{
    DecodeError::WrongLength {
        kind: Some(kind),
        got: value.len(),
        need,
    }
}

/// Consecutive little-endian numbers of four bytes each, borrowed.
#[derive(Clone, Copy, Debug, PartialEq, Eq)]
pub struct NumbersView<'a> {
    bytes: &'a [u8],
    // The numbers are complete.
    ghost whole: { length bytes.now % 4 ≡ 0 },
    // Each byte is below 256, as each `u8` is; this is stated for the codec laws.
    ghost in_range: { IsBytes bytes.now },
}

impl<'a> NumbersView<'a> {
    ghost use Rattle.sock_diag_attributes.specs.NumbersModel.{numbers_left, numbers_view_model};

    /// Checks the length of the bytes, and returns a view of the numbers in them. Returns
    /// `NotMultipleOfFour` if the length is not a multiple of four.
    pub(crate) fn parse(bytes: &'a [u8]) -> Result<NumbersView<'a>, DecodeError>
        ensures { MatchResult result
            (λ numbers. parse_numbers bytes.entry.now ≡ Ok (numbers_view_model numbers))
            (λ e. parse_numbers bytes.entry.now ≡ Err e) }
    {
        if bytes.len() % 4 != 0 {
            return Err(DecodeError::NotMultipleOfFour { got: bytes.len() });
        }
        Ok(NumbersView { bytes })
    }

    // Returns the view that `parse` returns. Requires that `parse` accepts the bytes: that their
    // length is a multiple of four. The length is not tested again.
    #[inline(always)]
    pub(crate) fn new(bytes: &'a [u8]) -> NumbersView<'a>
        requires { IsOk (parse_numbers bytes.now) }
        ensures { parse_numbers bytes.entry.now ≡ Ok (numbers_view_model result) }
    {
        NumbersView { bytes }
    }

    /// Returns the count of numbers.
    #[tactic(auto, using(crate::specs::laws::Number::count_of_numbers_in))]
    pub fn len(&self) -> usize
        ensures { result ≡ length (numbers_view_model self.now) }
    {
        self.bytes.len() / 4
    }

    /// Returns the number at `index`, or `None` if the index is out of bounds.
    #[tactic(auto, using(crate::specs::laws::Number::number_at_index_rules))]
    pub fn get(&self, index: usize) -> Option<u32>
        ensures { result ≡ slice_get (numbers_view_model self.now) index }
    {
        if index >= self.bytes.len() / 4 {
            return None;
        }
        Some(LittleEndian::read_u32(&self.bytes[4 * index..]))
    }

    /// Returns `true` if and only if there are no numbers.
    #[tactic(auto, using(crate::specs::laws::Number::count_of_numbers_in))]
    pub fn is_empty(&self) -> bool
        ensures { IsTrue result ↔ (numbers_view_model self.now ≡ []) }
    {
        self.bytes.is_empty()
    }

    /// Returns an iterator that yields all of the numbers, in order.
    pub fn iter(&self) -> NumbersIterator<'a>
        ensures { numbers_left result ≡ numbers_view_model self.now }
    {
        NumbersIterator { remaining: *self }
    }

    // Returns the bytes of the numbers, which are also the bytes that they serialize to.
    #[tactic(auto, using(crate::specs::laws::Number::bytes_of_whole_numbers))]
    pub(crate) fn bytes(&self) -> &'a [u8]
        ensures { result.now ≡ flat_map (little_bytes 4) (numbers_view_model self.now) }
    {
        self.bytes
    }

    /// Returns the numbers in an owned list, in order. Fails only if an allocation fails. An empty
    /// list needs no allocation.
    pub fn to_owned(&self, alloc: Global) -> Result<Vec<u32>, AllocError>
        ensures equal { IfOk result (λ numbers. numbers.items ≡ numbers_view_model self.now) }
        ensures needs_no_memory { numbers_view_model self.now ≡ [] → IsOk result }
    {
        if self.is_empty() {
            return Ok(Vec::new(alloc));
        }
        let mut numbers = vec![in alloc; 0; self.bytes.len() / 4]?;
        LittleEndian::read_u32_into(self.bytes, &mut numbers);
        Ok(numbers)
    }
}

/// An iterator over the numbers of a [`NumbersView`].
#[derive(Clone, Debug, Drop)]
pub struct NumbersIterator<'a> {
    remaining: NumbersView<'a>,
}

impl<'a> Iterator for NumbersIterator<'a> {
    ghost use Rattle.sock_diag_attributes.specs.NumbersModel.{numbers_left};

    type Item = u32;

    // `next` yields the first of the numbers left (`numbers_left`), after which only the others are
    // left, or `None` if there is none.
    ghost next_gives = { YieldsFirst numbers_left };

    ghost remaining = { item_count numbers_left };

    #[tactic(auto, using(crate::specs::laws::Number::next_number_rules))]
    fn next(&mut self) -> Option<u32> {
        let bytes = self.remaining.bytes;
        if bytes.len() < 4 {
            return None;
        }
        self.remaining = NumbersView { bytes: &bytes[4..] };
        Some(LittleEndian::read_u32(bytes))
    }

    /// Returns the exact count of the numbers that were not yielded yet, as the lower bound and as
    /// the upper bound.
    #[tactic(auto, using(crate::specs::laws::Number::count_of_numbers_in))]
    fn size_hint(&self) -> (usize, Option<usize>)
        // The clauses of the trait, which follow from `exact`. `item_count numbers_left it`: the
        // count of the numbers that were not yielded yet.
        ensures lower { IsWithinCount result.0 (item_count numbers_left self.now) }
        ensures upper { IfSome result.1 (UpTo (item_count numbers_left self.now)) }
        ensures exact { result ≡ (
          length (numbers_left self.now),
          Some (length (numbers_left self.now)),
        ) }
    {
        (self.remaining.len(), Some(self.remaining.len()))
    }
}

/// Writes the two numbers, four bytes each, little-endian, at the start of `buffer`, which has to
/// have at least 8 bytes. The bytes after these 8 are unchanged.
pub(crate) fn emit_u32_pair(first: u32, second: u32, buffer: &mut [u8])
    requires { 8 ≤ length buffer.old }
    ensures { buffer.new ≡ little_bytes 4 first ++ little_bytes 4 second
        ++ drop 8 buffer.old }
{
    LittleEndian::write_u32_into(&[first, second], &mut buffer[..8]);
}

/// Writes the numbers, four bytes each, little-endian, at the start of `buffer`, which has to be
/// long enough. The bytes after them are unchanged.
#[tactic(auto, using(crate::specs::laws::Number::emit_numbers_rules))]
pub(crate) fn emit_numbers(numbers: &[u32], buffer: &mut [u8])
    requires { length (flat_map (little_bytes 4) numbers.now) ≤ length buffer.old }
    ensures written { HoldsAtStart (flat_map (little_bytes 4) numbers.now) buffer.old buffer.new }
    // Each number is below 2^32. So it is for each `u32`; this is stated for the codec laws.
    ensures in_range { AllByRecursion (λ n. n < 2 ^ 32) numbers.now }
{
    LittleEndian::write_u32_into(numbers, &mut buffer[..4 * numbers.len()]);
}
