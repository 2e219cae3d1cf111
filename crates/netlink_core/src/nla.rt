//! Serializing attributes, and the attribute of any kind. `T.attribute` is the attribute that a
//! value of the type `T` serializes as.
//!
//! In the contracts `attribute_bytes` are the bytes of an attribute, with its header and its
//! padding, and `flat_map attribute_bytes` those of a list of attributes. `FitsLengthField` states
//! that a value has at most 65,531 bytes. `AreWritable` states this of each attribute of a list,
//! and that all attributes have at most 4,294,967,295 bytes.

ghost use Rattle.std.specs.Prelude.{◌≡◌, ◌≤◌, ◌<◌, ◌↔◌, replicate, length, [], map, true, refl};
ghost use Rattle.std.specs.Prelude.{IsTrue, IsOk, IfOk, SomeIff, ⊤, ◌^◌};
ghost use Rattle.std.specs.List.{AllByRecursion, flat_map};
ghost use Rattle.std.proofs.Common.{rules};
ghost use Rattle.netlink_core.specs.Bytes.{HoldsAtStart, IsBytes};
ghost use Rattle.netlink_core.specs.Attribute.{Attribute, FitsLengthField, AreWritable};
ghost use Rattle.netlink_core.specs.Attribute.{AreWritableWithin};
ghost use Rattle.netlink_core.specs.Attribute.{attribute_bytes};
ghost use Rattle.netlink_core.specs.AttributeSet.{IsInRangeIn};
ghost use Rattle.netlink_core.specs.FirstAttribute.{first_attribute_codec};
ghost use Rattle.netlink_core.specs.laws.FirstAttribute.{first_attribute_codec_laws};

use crate::attribute::{MAX_VALUE_LEN, NLA_HEADER_SIZE, NlaBuffer, padded};
use crate::canonical_form::CanonError;
use crate::codec::{Emitable, Parseable, Readable};
use crate::error::DecodeError;
use crate::fields::write_bytes;
use crate::wire::{HasCodec, Wire, write_new};
use byteorder::{ByteOrder, LittleEndian};
use std::alloc::{AllocError, Global};

/// A value that is serialized as an attribute.
pub trait Nla {
    // The attribute that the value serializes as.
    ghost attribute: { Self → Attribute };

    // Each number of the value fits its field, like `in_range` of `Emitable`. By default it holds
    // of every value.
    ghost in_range: { Self → Type 0 } = { λ _. ⊤ };

    /// Returns the number of the value's bytes, without header and padding.
    fn value_len(&self) -> usize
        ensures { result ≡ length (attribute self.now).value };

    /// Returns the type field (`nla_type`) that is serialized, with its two flag bits, unlike
    /// [`NlaBuffer::kind`].
    fn kind(&self) -> u16
        ensures { result ≡ (attribute self.now).type_word };

    /// Serializes the value, without header and padding, to the start of the buffer. The bytes
    /// after it are unchanged. The value must have at most 65,531 bytes, and the buffer at least as
    /// many as the value.
    fn emit_value(&self, buffer: &mut [u8])
        requires fits { FitsLengthField (attribute self.now) }
        requires room { length (attribute self.now).value ≤ length buffer.old }
        ensures written { HoldsAtStart (attribute self.now).value buffer.old buffer.new }
        ensures in_range { in_range self.now };

    /// Returns whether the value has at most 65,531 bytes, so that its length fits the length
    /// field.
    fn value_fits(&self) -> bool
        ensures { IsTrue result ↔ FitsLengthField (attribute self.now) }
    {
        self.value_len() <= MAX_VALUE_LEN
    }
}

/// A value that is parsed and serialized as one attribute. It is writable if and only if the length
/// of its value fits the length field.
pub trait WireNla: Nla + Wire {
    // The value serializes to its attribute: header, value and padding of zeros.
    ghost bytes_by_attribute: { (v : Self) → Self.bytes v ≡ attribute_bytes (Self.attribute v) };

    ghost writable_by_attribute: { (v : Self) → (Self.writable v
        ↔ FitsLengthField (Self.attribute v)) };
}

/// Returns the number of the attribute's bytes, with header and padding. Its value must fit its
/// length field: it has at most 65,531 bytes.
pub fn nla_len<T: Nla>(nla: &T) -> usize
    requires { FitsLengthField (T.attribute nla.now) }
    ensures { result ≡ length (attribute_bytes (T.attribute nla.now)) }
{
    padded(NLA_HEADER_SIZE + nla.value_len())
}

/// Serializes the attribute to the start of the buffer, with zeros as its padding. The bytes after
/// it are unchanged. Its value must have at most 65,531 bytes, and the buffer at least as many as
/// the attribute with its padding.
pub fn emit_nla<T: Nla>(nla: &T, buffer: &mut [u8])
    requires fits { FitsLengthField (T.attribute nla.now) }
    requires room { length (attribute_bytes (T.attribute nla.now)) ≤ length buffer.old }
    ensures written { HoldsAtStart (attribute_bytes (T.attribute nla.now)) buffer.old buffer.new }
    ensures kind { (T.attribute nla.now).type_word < 2 ^ 16 }
    ensures in_range { T.in_range nla.now }
{
    // Both calls branch on the kind. They come before the first write, so that the compiler can
    // merge the branches.
    let len = nla.value_len();
    let kind = nla.kind();
    let end = NLA_HEADER_SIZE + len;
    let (header, after_header) = buffer.split_at_mut(NLA_HEADER_SIZE);
    let (value, after_value) = after_header.split_at_mut(len);
    let (padding, _) = after_value.split_at_mut(padded(end) - end);
    nla.emit_value(value);
    LittleEndian::write_u16(header, end as u16);
    LittleEndian::write_u16(&mut header[2..], kind);
    zero_padding(padding);
}

// Sets the padding, at most 3 bytes, to zeros, byte by byte: a call would take longer.
#[inline(always)]
fn zero_padding(padding: &mut [u8])
    requires { length padding.old < 4 }
    ensures { padding.new ≡ replicate (length padding.old) 0 }
{
    let len = padding.len();
    if len > 0 {
        padding[0] = 0;
    }
    if len > 1 {
        padding[1] = 0;
    }
    if len > 2 {
        padding[2] = 0;
    }
}

/// Returns the number of the attributes' bytes, with headers and paddings, or `None` if a value
/// does not fit its length field or the attributes have more than `limit` bytes.
pub fn nlas_len_within<T: Nla>(nlas: &[T], limit: usize) -> Option<usize>
    ensures { SomeIff result (AreWritableWithin (map T.attribute nlas.now) limit)
        (length (flat_map attribute_bytes (map T.attribute nlas.now))) }
{
    // What is left of the limit.
    let mut room = limit;
    for nla in nlas {
        if !nla.value_fits() {
            return None;
        }
        let len = nla_len(nla);
        if len > room {
            return None;
        }
        room -= len;
    }
    Some(limit - room)
}

/// Returns whether each value fits its length field (at most 65,531 bytes), and all attributes,
/// with headers and paddings, have at most 4,294,967,295 bytes.
pub fn nlas_writable<T: Nla>(nlas: &[T]) -> bool
    ensures { IsTrue result ↔ AreWritable (map T.attribute nlas.now) }
{
    nlas_len_within(nlas, u32::MAX as usize).is_some()
}

/// Returns the number of the attributes' bytes, with headers and paddings. The attributes must be
/// writable: [`nlas_writable`] returns `true`.
pub fn nlas_len<T: Nla>(nlas: &[T]) -> usize
    requires { AreWritable (map T.attribute nlas.now) }
    ensures { result ≡ length (flat_map attribute_bytes (map T.attribute nlas.now)) }
{
    let mut len = 0;
    for nla in nlas {
        len += nla_len(nla);
    }
    len
}

/// Serializes the attributes, in order and each with zeros as its padding, to the start of the
/// buffer. The bytes after them are unchanged. They must be writable ([`nlas_writable`] returns
/// `true`), and the buffer must be at least as long as their bytes.
pub fn emit_nlas<T: Nla>(nlas: &[T], buffer: &mut [u8])
    requires fits { AreWritable (map T.attribute nlas.now) }
    requires room { length (flat_map attribute_bytes (map T.attribute nlas.now))
        ≤ length buffer.old }
    ensures written { HoldsAtStart (flat_map attribute_bytes (map T.attribute nlas.now)) buffer.old
        buffer.new }
    ensures in_range { AllByRecursion T.in_range nlas.now }
{
    let mut at = 0;
    for nla in nlas {
        // With its padding.
        let end = at + nla_len(nla);
        emit_nla(nla, &mut buffer[at..end]);
        at = end;
    }
}

/// A raw attribute of any kind: its type field, with the two flag bits, and the bytes of its value.
#[derive(Debug, Drop, PartialEq, Eq)]
pub struct DefaultNla {
    kind: u16,
    value: Vec<u8>,
}

impl DefaultNla {
    ghost use Rattle.netlink_core.specs.DefaultNla.{raw_attribute};
    ghost use Rattle.netlink_core.specs.Walk.{buffered_attribute};

    /// Returns the attribute with this type field and this value.
    pub fn new(kind: u16, value: Vec<u8>) -> DefaultNla
        ensures { raw_attribute result ≡ record { type_word = kind; value = value.items } }
    {
        DefaultNla { kind, value }
    }

    // Copies the attribute. Fails only if an allocation fails, and never if the value is empty.
    fn from_buffer(alloc: Global, nla: &NlaBuffer<'_>) -> Result<DefaultNla, AllocError>
        ensures equal { IfOk result (λ copy. raw_attribute copy ≡ buffered_attribute nla.now) }
        ensures needs_no_memory { (buffered_attribute nla.now).value ≡ [] → IsOk result }
    {
        Ok(DefaultNla {
            kind: nla.type_word(),
            value: copy_list(alloc, nla.value())?,
        })
    }

    /// Returns the type field, with its two flag bits, unlike [`NlaBuffer::kind`].
    pub fn kind(&self) -> u16
        ensures { result ≡ (raw_attribute self.now).type_word }
    {
        self.kind
    }

    /// Returns the bytes of the value.
    pub fn value(&self) -> &[u8]
        ensures { result.now ≡ (raw_attribute self.now).value }
    {
        self.value.as_slice()
    }

    /// Returns an equal attribute. Fails only if an allocation fails, and never if the value is
    /// empty, since then nothing is allocated.
    pub fn clone(&self, alloc: Global) -> Result<Self, AllocError>
        ensures equal { IfOk result (λ copy. raw_attribute copy ≡ raw_attribute self.now) }
        ensures needs_no_memory { (raw_attribute self.now).value ≡ [] → IsOk result }
    {
        Ok(DefaultNla {
            kind: self.kind,
            value: copy_list(alloc, &self.value)?,
        })
    }
}

/// Copies the items to a new vector.
///
/// Fails only if an allocation fails, and never if there are no items, since then nothing is
/// allocated.
pub fn copy_list<T: Copy>(alloc: Global, items: &[T]) -> Result<Vec<T>, AllocError>
    ensures equal { IfOk result (λ copy. copy.items ≡ items.now) }
    ensures needs_no_memory { items.now ≡ [] → IsOk result }
{
    if items.is_empty() {
        return Ok(Vec::new(alloc));
    }
    Vec::from_slice(alloc, items)
}

impl Readable for DefaultNla {
    const TAKES_MEMORY: bool = true;

    ghost TAKES_MEMORY = { true };
}

impl<'a> Parseable<NlaBuffer<'a>> for DefaultNla {
    #[tactic(auto, using(crate::specs::laws::FirstAttribute::raw_copy_is_parsed))]
    fn parse(alloc: Global, buf: NlaBuffer<'a>) -> Result<Self, DecodeError> {
        Ok(DefaultNla::from_buffer(alloc, &buf)?)
    }
}

impl Nla for DefaultNla {
    ghost use Rattle.netlink_core.specs.DefaultNla.{raw_attribute};

    ghost attribute = { raw_attribute };

    ghost in_range = { λ v. IsBytes (raw_attribute v).value };

    fn value_len(&self) -> usize {
        self.value.len()
    }

    fn kind(&self) -> u16 {
        self.kind
    }

    fn emit_value(&self, buffer: &mut [u8]) {
        write_bytes(&self.value, &mut buffer[..self.value.len()]);
    }
}

impl Emitable for DefaultNla {
    ghost use Rattle.netlink_core.specs.DefaultNla.{raw_attribute};

    ghost bytes = { λ v. attribute_bytes (raw_attribute v) };

    ghost writable = { λ v. FitsLengthField (raw_attribute v) };

    ghost in_range = { λ v. IsInRangeIn [] (raw_attribute v) };

    fn is_writable(&self) -> bool {
        self.value_fits()
    }

    fn buffer_len(&self) -> usize {
        nla_len(self)
    }

    fn emit(&self, buffer: &mut [u8]) {
        emit_nla(self, buffer);
    }
}

impl HasCodec for DefaultNla {
    ghost use Rattle.netlink_core.specs.DefaultNla.{raw_attribute};

    type Param = ();

    // The codec for a set without any types, in which each attribute decodes to itself.
    ghost codec = { first_attribute_codec [] };

    ghost model = { raw_attribute };

    // An attribute is not a message.
    ghost serialized_type = { λ _. 0 };

    ghost eq_is_model = { Prim.search rules };

    // The codec laws hold for each set; `[]` requires no proof about its types (`tt`).
    ghost laws = { first_attribute_codec_laws [] tt };
}

impl Wire for DefaultNla {
    fn read(alloc: Global, bytes: &[u8], _param: ()) -> Result<Self, DecodeError> {
        Ok(DefaultNla::from_buffer(alloc, &NlaBuffer::new_checked(bytes)?)?)
    }

    // The value of a parsed attribute is always writable. So `Memory` may be returned if the copy
    // cannot be allocated, before the length of the value is checked.
    fn rewrite(alloc: Global, bytes: &[u8], _param: ()) -> Result<Vec<u8>, CanonError> {
        write_new(
            alloc,
            &DefaultNla::from_buffer(alloc, &NlaBuffer::new_checked(bytes)?)?,
        )
    }

    // In these three, both sides are the same by definition.
    ghost bytes_by_codec = { λ v. refl };

    ghost writable_by_codec = { λ v. (λ h. h, λ h. h) };

    ghost in_range_by_codec = { λ _ h. h };
}

impl WireNla for DefaultNla {
    // In both, the two sides are the same by definition.
    ghost bytes_by_attribute = { λ _. refl };

    ghost writable_by_attribute = { λ _. (λ h. h, λ h. h) };
}
