//! Attributes in bytes, borrowed.
//!
//! An attribute is a length field (`nla_len`: 4 and the number of the value's bytes), a type field
//! (`nla_type`), the value, and padding to a multiple of 4. Both fields have 16 bits and are
//! little-endian.
//!
//! In the contracts `little_number 2 bytes` is the length field of an attribute at the start of the
//! bytes. `buffered_attribute buffer` is the type field and the value of an [`NlaBuffer`].

ghost use Rattle.std.specs.Prelude.{◌≡◌, ◌+◌, ◌/◌, ◌≤◌, ◌<◌, ◌^◌, ◌↔◌, length, IsTrue, IsBitSet};
ghost use Rattle.std.specs.Prelude.{◌%◌, ⊤, MatchOption, MatchResult, IfSome, None, []};
ghost use Rattle.byteorder.specs.Endian.{little_number};
ghost use Rattle.netlink_core.specs.Attribute.{HasAttributePrefix, IsFramingError, padding_length};
ghost use Rattle.netlink_core.specs.Attribute.{attribute_kind, attribute_bytes};

use crate::codec::Input;
use crate::error::DecodeError;
use byteorder::{ByteOrder, LittleEndian};
use std::alloc::AllocError;

/// The size of an attribute's header, its length field and its type field, in bytes.
pub const NLA_HEADER_SIZE: usize = 4;

/// The maximal length of a value in bytes, as the 16-bit length field includes the header.
pub(crate) const MAX_VALUE_LEN: usize = 65531;

/// The bit of the type field for a value with nested attributes.
const NLA_F_NESTED: u16 = 0x8000;

/// The bit of the type field for a value in network byte order.
const NLA_F_NET_BYTEORDER: u16 = 0x4000;

/// The bits of the type field that are the attribute's kind.
const NLA_TYPE_MASK: u16 = 0x3fff;

/// One attribute, borrowed.
#[derive(Clone, Copy, Debug, PartialEq, Eq)]
pub struct NlaBuffer<'a> {
    type_word: u16,
    value: &'a [u8],
    // The type field has 16 bits, and the value at most 65,531 bytes, so that its length fits the
    // length field.
    ghost word_fits: { type_word < 2 ^ 16 },
    ghost value_fits: { length value.now ≤ 65531 },
}

impl<'a> NlaBuffer<'a> {
    ghost use Rattle.netlink_core.specs.Walk.{buffered_attribute};

    /// Parses the attribute at the start of the bytes. Its padding and the bytes after it are
    /// ignored.
    ///
    /// Fails with `AttributeHeaderCut` if there are fewer than 4 bytes, then with
    /// `AttributeLengthUnder4` if the length field is below 4, then with `AttributeLengthPast` if
    /// it is above the number of bytes.
    pub fn new_checked(bytes: &'a [u8]) -> Result<NlaBuffer<'a>, DecodeError>
        ensures { MatchResult result
            (λ buffer. HasAttributePrefix bytes.entry.now (buffered_attribute buffer))
            (IsFramingError bytes.entry.now) }
    {
        let left = bytes.len();
        if left < NLA_HEADER_SIZE {
            return Err(DecodeError::AttributeHeaderCut { left });
        }
        NlaBuffer::after_header(bytes)
    }

    // Parses the attribute at the start of the bytes, which have a whole header. Both fields of the
    // header are one load, and both bounds of the length one test.
    #[inline(always)]
    fn after_header(bytes: &'a [u8]) -> Result<NlaBuffer<'a>, DecodeError>
        requires { 4 ≤ length bytes.now }
        ensures { MatchResult result
            (λ buffer. HasAttributePrefix bytes.entry.now (buffered_attribute buffer))
            (IsFramingError bytes.entry.now) }
    {
        let header = LittleEndian::read_u32(bytes);
        let length = (header & 0xffff) as usize;
        let value_len = length.wrapping_sub(NLA_HEADER_SIZE);
        let after = &bytes[NLA_HEADER_SIZE..];
        if value_len > after.len() {
            return Err(length_error(bytes));
        }
        Ok(NlaBuffer {
            type_word: (header >> 16) as u16,
            value: &after[..value_len],
        })
    }

    /// Returns the attribute at the start of the bytes, as [`NlaBuffer::new_checked`] does, without
    /// a test of the length field. This field must be at least 4 and at most the number of bytes.
    #[inline(always)]
    pub fn new(bytes: &'a [u8]) -> NlaBuffer<'a>
        requires at_least { 4 ≤ little_number 2 bytes.now }
        requires at_most { little_number 2 bytes.now ≤ length bytes.now }
        ensures { HasAttributePrefix bytes.entry.now (buffered_attribute result) }
    {
        // Without proofs this order needs one test for the header, and one for both bounds.
        let after = &bytes[NLA_HEADER_SIZE..];
        let length = LittleEndian::read_u16(bytes) as usize;
        NlaBuffer {
            type_word: LittleEndian::read_u16(&bytes[2..]),
            value: &after[..length.wrapping_sub(NLA_HEADER_SIZE)],
        }
    }

    /// Returns the length field (`nla_len`): 4 plus the number of the value's bytes, without the
    /// padding.
    pub fn length(&self) -> u16
        ensures { result ≡ 4 + length (buffered_attribute self.now).value }
    {
        (NLA_HEADER_SIZE + self.value.len()) as u16
    }

    /// Returns the type field, with its two flag bits.
    pub fn type_word(&self) -> u16
        ensures { result ≡ (buffered_attribute self.now).type_word }
    {
        self.type_word
    }

    /// Returns the kind: the lower 14 bits of the type field, without its two flag bits.
    pub fn kind(&self) -> u16
        ensures { result ≡ attribute_kind (buffered_attribute self.now) }
    {
        self.type_word & NLA_TYPE_MASK
    }

    /// Returns whether the type field has the flag for nested attributes (`NLA_F_NESTED`, bit 15).
    pub fn nested_flag(&self) -> bool
        ensures { IsTrue result ↔ IsBitSet (buffered_attribute self.now).type_word 15 }
    {
        self.type_word & NLA_F_NESTED != 0
    }

    /// Returns whether the type field has the flag for network byte order (`NLA_F_NET_BYTEORDER`,
    /// bit 14).
    pub fn network_byte_order_flag(&self) -> bool
        ensures { IsTrue result ↔ IsBitSet (buffered_attribute self.now).type_word 14 }
    {
        self.type_word & NLA_F_NET_BYTEORDER != 0
    }

    /// Returns the bytes between the header and the padding.
    pub fn value(&self) -> &'a [u8]
        ensures { result.now ≡ (buffered_attribute self.now).value }
    {
        self.value
    }
}

// As the input of a parser, an attribute is its bytes including the padding, which is zeros.
impl Input for NlaBuffer<'_> {
    ghost use Rattle.netlink_core.specs.Walk.{buffered_attribute};

    ghost input = { λ nla. attribute_bytes (buffered_attribute nla) };
}

/// An iterator over consecutive attributes, each of which starts at a multiple of 4.
///
/// The iterator ends when no bytes are left. The padding after the last attribute may be missing,
/// wholly or in part. An error is the last item.
#[derive(Drop)]
pub struct NlasIterator<'a> {
    bytes: &'a [u8],
    // The offset of the next attribute. If it is not below the number of bytes, no attribute is
    // left.
    at: usize,
    // The offset of the last byte of its header.
    header_last: usize,
    ghost aligned: { at % 4 ≡ 0 },
    ghost header: { header_last ≡ at + 3 },
}

impl Clone for NlasIterator<'_> {
    ghost use Rattle.netlink_core.specs.Walk.{unread_bytes};

    // A clone has the same bytes left.
    ghost is_clone = { λ walk copy. unread_bytes copy ≡ unread_bytes walk };

    ghost is_infallible = { λ _. ⊤ };

    fn clone(&self) -> Result<Self, AllocError> {
        Ok(NlasIterator {
            bytes: self.bytes,
            at: self.at,
            header_last: self.header_last,
        })
    }
}

impl<'a> NlasIterator<'a> {
    ghost use Rattle.netlink_core.specs.Attribute.{StartsWithAttribute};
    ghost use Rattle.netlink_core.specs.Walk.{buffered_attribute, unread_bytes};

    /// Returns an iterator over the attributes in the bytes.
    pub fn new(bytes: &'a [u8]) -> NlasIterator<'a>
        ensures { unread_bytes result ≡ bytes.entry.now }
    {
        NlasIterator {
            bytes,
            at: 0,
            header_last: NLA_HEADER_SIZE - 1,
        }
    }

    // Continues after the next attribute, whose length field is `nla_len`, and after its padding.
    // A walk over small attributes takes as long as the chain from one offset to the next. By the
    // offset of the last byte of the header, two operations follow the load of the length, and not
    // three.
    #[inline(always)]
    fn skip(&mut self, nla_len: u16)
        requires { self.old.at < length self.old.bytes.now }
        ensures bytes { self.new.bytes ≡ self.old.bytes }
        ensures at { self.new.at ≡ self.old.at + nla_len + padding_length nla_len }
    {
        // The sum does not wrap: the offset is at most `isize::MAX`, as that of each slice.
        let end = self.header_last.wrapping_add(usize::from(nla_len));
        let at = end / 4 * 4;
        *self = NlasIterator {
            bytes: self.bytes,
            at,
            header_last: at + 3,
        };
    }

    /// Returns the attribute at the start of the bytes that are left, and continues after its
    /// padding. Returns `None` if and only if no bytes were left. If bytes are left,
    /// [`NlaBuffer::new_checked`] must accept them: their length field is not tested again.
    #[inline(always)]
    #[tactic(auto, using(crate::proofs::Walking::length_field_at))]
    pub fn next_accepted(&mut self) -> Option<NlaBuffer<'a>>
        requires at_least { 0 < length (unread_bytes self.old)
            → 4 ≤ little_number 2 (unread_bytes self.old) }
        requires at_most { 0 < length (unread_bytes self.old)
            → little_number 2 (unread_bytes self.old) ≤ length (unread_bytes self.old) }
        ensures { MatchOption result ((unread_bytes self.old ≡ []) × (unread_bytes self.new ≡ []))
            (λ nla. StartsWithAttribute (unread_bytes self.old) (buffered_attribute nla)
            (unread_bytes self.new)) }
    {
        if self.bytes.len() <= self.at {
            return None;
        }
        let nla = NlaBuffer::new(&self.bytes[self.at..]);
        self.skip(nla.length());
        Some(nla)
    }
}

impl<'a> Iterator for NlasIterator<'a> {
    ghost use Rattle.std.specs.Iterator.{at_most, UpTo};
    ghost use Rattle.std.specs.Iterator.SizeHint.{IsWithinCount};
    ghost use Rattle.netlink_core.specs.Walk.{YieldsAttribute, unread_bytes};

    type Item = Result<NlaBuffer<'a>, DecodeError>;

    ghost next_gives = { YieldsAttribute };

    // At most one item for each four bytes that are left, rounded up, since an attribute has at
    // least 4 bytes and an error is the last item.
    ghost remaining = { λ walk. at_most ((length (unread_bytes walk) + 3) / 4) };

    /// Returns the attribute at the start of the bytes that are left, and continues after its
    /// padding. Returns the error of [`NlaBuffer::new_checked`] if these bytes do not start with an
    /// attribute; then no bytes are left. Returns `None` if and only if no bytes were left.
    fn next(&mut self) -> Option<Result<NlaBuffer<'a>, DecodeError>> {
        // One test for the end and for a truncated header.
        let len = self.bytes.len();
        if len < NLA_HEADER_SIZE || len - NLA_HEADER_SIZE < self.at {
            if len <= self.at {
                return None;
            }
            let left = len - self.at;
            *self = NlasIterator::new(&[]);
            return Some(Err(DecodeError::AttributeHeaderCut { left }));
        }
        match NlaBuffer::after_header(&self.bytes[self.at..]) {
            Ok(nla) => {
                self.skip(nla.length());
                Some(Ok(nla))
            }
            Err(error) => {
                *self = NlasIterator::new(&[]);
                Some(Err(error))
            }
        }
    }

    /// Returns `(0, None)`: the number of items is known only after iterating.
    fn size_hint(&self) -> (usize, Option<usize>)
        ensures unknown { result ≡ (0, None) }
        // The clauses of the trait, which follow from `unknown`.
        ensures lower { IsWithinCount result.0
            (at_most ((length (unread_bytes self.now) + 3) / 4)) }
        ensures upper { IfSome result.1
            (UpTo (at_most ((length (unread_bytes self.now) + 3) / 4))) }
    {
        (0, None)
    }
}

// Returns the error of bytes that have a whole header, and a length field that is below 4 or above
// their number.
fn length_error(bytes: &[u8]) -> DecodeError
    requires header { 4 ≤ length bytes.now }
    requires wrong { 4 ≤ little_number 2 bytes.now → length bytes.now < little_number 2 bytes.now }
    ensures { IsFramingError bytes.now result }
{
    let length = LittleEndian::read_u16(bytes);
    if (length as usize) < NLA_HEADER_SIZE {
        DecodeError::AttributeLengthUnder4 { length }
    } else {
        let left = bytes.len();
        DecodeError::AttributeLengthPast { length, left }
    }
}

/// Returns the length rounded up to a multiple of 4 (`NLA_ALIGN`). The length must be below 2^32,
/// so that the sum does not overflow.
pub fn padded(length: usize) -> usize
    requires { length < 2 ^ 32 }
    ensures { result ≡ length + padding_length length }
{
    (length + 3) / 4 * 4
}
