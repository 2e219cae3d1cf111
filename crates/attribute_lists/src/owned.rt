//! The owned attributes of a reply. A list of up to eight attributes needs no allocation by itself.
//! `T` is the type of such an attribute in the replies of one family, `T.attribute_set` is the
//! family's set of attribute types, and `T.model` is what an attribute decodes to by this set.
#![tactic(auto, using(crate::proofs::EncodedAttributes::encoded_attributes_of_views))]

ghost use Rattle.std.specs.Prelude.{◌≡◌, ◌≤◌, ◌++◌, ◌∷◌, [], length, map, Ok, IfOk, IsOk, OnOk};
ghost use Rattle.std.specs.Prelude.{OnErr, SomeIff};
ghost use Rattle.std.specs.List.{AllByRecursion, flat_map};
ghost use Rattle.netlink_core.specs.Bytes.{HoldsAtStart};
ghost use Rattle.netlink_core.specs.Attribute.{AreWritable, AreWritableWithin, attribute_bytes};
ghost use Rattle.netlink_core.specs.AttributeSet.{AttributeValue, decode_attribute};
ghost use Rattle.netlink_core.specs.AttributeSet.{encode_attribute, NeedsNoMemoryIn, IsInRangeIn};
ghost use Rattle.netlink_core.specs.Walk.{buffered_attribute};
ghost use Rattle.attribute_lists.specs.AttributesIn.{HasNoAttributeError, decoded_in};
ghost use Rattle.smallvec.specs.SmallVec.{HasRoomFor};

use netlink_core::{FamilyNla, NlaBuffer, NlasIterator, emit_nlas, nlas_len, nlas_len_within};
use smallvec::SmallVec;
use std::alloc::{AllocError, Global};
use std::default::MadeWith;

/// Returns an owned copy of the list, whose attributes decode to the same values, in the same
/// order. Fails only if an allocation fails, and never for up to eight attributes that need no
/// memory.
#[tactic(auto, using(std::proofs::lemmas::List::map_push))]
pub fn copy_nlas<T: FamilyNla>(alloc: Global, nlas: &[T]) -> Result<SmallVec<T, 8>, AllocError>
    ensures equal { IfOk result (λ copy. map T.model copy.items ≡ map T.model nlas.now) }
    ensures needs_no_memory { length nlas.now ≤ 8
        → AllByRecursion (NeedsNoMemoryIn T.attribute_set) (map T.model nlas.now)
        → IsOk result }
{
    let mut copy = SmallVec::with_capacity(alloc, nlas.len())?;
    for nla in nlas {
        copy.push_reserved(nla.copy_nla(alloc)?);
    }
    Ok(copy)
}

/// Appends the attributes in the bytes to the empty list, in order and owned. The bytes must have
/// no error, neither in the framing nor in a value, and `count` must be the number of their
/// attributes. Fails only if an allocation fails, and never if the list has capacity for `count`
/// attributes and none of them needs memory. The content of the list after a failure is not
/// specified.
// Never inlined: for the caller, a list that is passed by reference costs less than a list that is
// filled inline.
#[tactic(auto, using(crate::proofs::Finding::attributes_without_error_rules))]
#[inline(never)]
pub fn own_nlas<T: FamilyNla>(
    alloc: Global,
    bytes: &[u8],
    count: usize,
    nlas: &mut SmallVec<T, 8>,
) -> Result<(), AllocError>
    requires clean { HasNoAttributeError (decode_attribute T.attribute_set) bytes.now }
    requires count { count ≡ length (decoded_in (decode_attribute T.attribute_set) bytes.now) }
    requires empty { nlas.old.items ≡ [] }
    ensures equal { OnOk result (map T.model nlas.new.items
        ≡ decoded_in (decode_attribute T.attribute_set) bytes.now) }
    ensures needs_no_memory { count ≤ nlas.old.capacity
        → AllByRecursion (NeedsNoMemoryIn T.attribute_set)
        (decoded_in (decode_attribute T.attribute_set) bytes.now)
        → IsOk result }
{
    if count > nlas.capacity() {
        make_room(nlas, count)?;
    }
    let mut walk = NlasIterator::new(bytes);
    while let Some(nla) = walk.next_accepted() {
        push_accepted(alloc, &nla, nlas)?;
    }
    Ok(())
}

// Appends an attribute to a list. The set of the family must accept the attribute, and the list
// must have capacity for one more. Fails only if an allocation fails, and never for a value that
// needs no memory. If the call fails, the list is unchanged. The large kind (`LARGE_KIND`) has its
// own branch, so that the other kinds reserve no stack for its value.
#[inline(always)]
fn push_accepted<T: FamilyNla>(
    alloc: Global,
    nla: &NlaBuffer<'_>,
    nlas: &mut SmallVec<T, 8>,
) -> Result<(), AllocError>
    requires accepted { IsOk (decode_attribute T.attribute_set (buffered_attribute nla.now)) }
    requires room { HasRoomFor nlas.old 1 }
    // One element was appended (`own`), and it is what the attribute decodes to.
    ensures pushed { OnOk result ((own : T) × (nlas.new.items ≡ nlas.old.items ++ own ∷ [])
        × (decode_attribute T.attribute_set (buffered_attribute nla.now) ≡ Ok (T.model own))) }
    ensures capacity { nlas.new.capacity ≡ nlas.old.capacity }
    ensures kept { OnErr result (nlas.new ≡ nlas.old) }
    ensures needs_no_memory { (value : AttributeValue T.attribute_set)
        → decode_attribute T.attribute_set (buffered_attribute nla.now) ≡ Ok value
        → NeedsNoMemoryIn T.attribute_set value → IsOk result }
{
    match T::LARGE_KIND {
        Some(kind) if kind == nla.kind() => nlas.push_reserved(T::own_accepted(alloc, nla)?),
        _ => nlas.push_reserved(T::own_accepted(alloc, nla)?),
    }
    Ok(())
}

// Reserves capacity for `count` elements in an empty list, which stays empty. Fails only if an
// allocation fails. Out of line, to keep moving the list off the hot path.
#[cold]
#[inline(never)]
fn make_room<T: MadeWith<Global> + Drop>(
    nlas: &mut SmallVec<T, 8>,
    count: usize,
) -> Result<(), AllocError>
    requires { nlas.old.items ≡ [] }
    ensures empty { nlas.new.items ≡ [] }
    ensures room { OnOk result (count ≤ nlas.new.capacity) }
{
    nlas.reserve_exact(count)
}

/// Returns the number of bytes that the attributes serialize to, with headers and paddings. Returns
/// `None` if a value does not fit its length field, that is, has more than 65,531 bytes, or if the
/// attributes have more than `limit` bytes.
pub fn values_len_within<T: FamilyNla>(nlas: &[T], limit: usize) -> Option<usize>
    ensures { let attributes = map (encode_attribute T.attribute_set) (map T.model nlas.now) in
        SomeIff result (AreWritableWithin attributes limit)
        (length (flat_map attribute_bytes attributes)) }
{
    nlas_len_within(nlas, limit)
}

/// Returns the number of bytes that the attributes serialize to, with headers and paddings. Each
/// value must fit its length field, and all attributes must have at most 4,294,967,295 bytes
/// (`AreWritable`).
pub fn values_len<T: FamilyNla>(nlas: &[T]) -> usize
    requires { AreWritable (map (encode_attribute T.attribute_set) (map T.model nlas.now)) }
    ensures { result ≡ length
        (flat_map attribute_bytes (map (encode_attribute T.attribute_set) (map T.model nlas.now))) }
{
    nlas_len(nlas)
}

/// Serializes the attributes, in order and each with zeros as its padding, to the start of the
/// buffer. The bytes after them are unchanged. Each value must fit its length field, all attributes
/// must have at most 4,294,967,295 bytes (`AreWritable`), and the buffer must be at least as
/// long as they are.
pub fn emit_values<T: FamilyNla>(nlas: &[T], buffer: &mut [u8])
    requires fits { AreWritable (map (encode_attribute T.attribute_set) (map T.model nlas.now)) }
    requires room { length (flat_map attribute_bytes
        (map (encode_attribute T.attribute_set) (map T.model nlas.now)))
        ≤ length buffer.old }
    ensures written { HoldsAtStart (flat_map attribute_bytes (map (encode_attribute T.attribute_set)
        (map T.model nlas.now))) buffer.old buffer.new }
    ensures in_range { AllByRecursion (IsInRangeIn T.attribute_set) (map T.model nlas.now) }
{
    emit_nlas(nlas, buffer);
}
