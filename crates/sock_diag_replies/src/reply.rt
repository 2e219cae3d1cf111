//! Comparing, measuring and serializing replies of every family: a header followed by attributes.
//!
//! In the contracts `serialized_attributes set values` are the attributes that owned values
//! serialize as, and `encoded_attributes_in set bytes` those that the attributes in bytes serialize
//! as. `header_and_attributes header attributes` are the bytes of a header and of such attributes.
//! `HasWritableLengths header attributes` states that their lengths are writable: each value has at
//! most 65,531 bytes, and the whole has at most 4,294,967,295.

ghost use Rattle.std.specs.Prelude.{◌≡◌, ◌≤◌, ◌↔◌, length, map, Bool, IsSome, IfSome, IfErr, IfOk};
ghost use Rattle.std.specs.Prelude.{OnOk, SomeIff};
ghost use Rattle.std.specs.List.{AllByRecursion};
ghost use lib.Pointwise.{pointwise};
ghost use Rattle.attribute_lists.specs.AttributesIn.{HasNoAttributeError, decoded_in};
ghost use Rattle.netlink_core.specs.Attribute.{HasAttributeError};
ghost use Rattle.netlink_core.specs.Bytes.{HoldsAtStart};
ghost use Rattle.netlink_core.specs.declared.error.DecodeError.TheVariants.{Memory};
ghost use Rattle.netlink_core.specs.AttributeSet.{AttributeValue, decode_attribute};
ghost use Rattle.netlink_core.specs.AttributeSet.{IsInRangeIn};
ghost use Rattle.netlink_core.specs.private.Response.{header_and_attributes, HasWritableLengths};
ghost use Rattle.attribute_lists.specs.AttributesIn.{encoded_attributes_in};
ghost use Rattle.sock_diag_replies.specs.private.SerializedAttributes.{serialized_attributes};

use attribute_lists::{
    check_nlas_len, emit_values, emit_views, next_view, values_len, values_len_within, views_len,
};
use netlink_core::{DecodeError, Emitable, FamilyNla, FamilyView, NlasIterator};

/// Returns `Memory` after dropping the partial list. Out of line, to keep the drop off the hot
/// path.
#[cold]
#[inline(never)]
pub(crate) fn memory_error_after_dropping<T: Drop>(_partial_list: T) -> DecodeError
    ensures { result ≡ Memory }
{
    DecodeError::Memory
}

/// Returns whether `left` and `right`, the bytes of two lists of attributes, contain equal
/// attributes in the same order. Two attributes are compared by `==` of their views. Neither may
/// contain a decode error.
pub fn same_views<'a, V: FamilyView<'a> + Drop>(left: &'a [u8], right: &'a [u8]) -> bool
    requires left { HasNoAttributeError (decode_attribute V.attribute_set) left.now }
    requires right { HasNoAttributeError (decode_attribute V.attribute_set) right.now }
    // `test` is any function that computes `==` of two views from their models. `pointwise test xs
    // ys`: the lists have the same length, and `test` is true of the elements at each index.
    ensures { (test : AttributeValue V.attribute_set → AttributeValue V.attribute_set → Bool)
        → ((v w : V) → V.PartialEq.eq v w ≡ test (V.model v) (V.model w))
        → result ≡ pointwise test (decoded_in (decode_attribute V.attribute_set) left.entry.now)
        (decoded_in (decode_attribute V.attribute_set) right.entry.now) }
{
    let mut left_nlas = NlasIterator::new(left);
    let mut right_nlas = NlasIterator::new(right);
    while let Some(view) = next_view::<V>(&mut left_nlas) {
        match next_view::<V>(&mut right_nlas) {
            Some(other) if view == other => {}
            // Two attributes differ, or `right` has fewer.
            _ => return false,
        }
    }
    // All attributes of `left` were compared. `right` must not have more.
    next_view::<V>(&mut right_nlas).is_none()
}

/// Returns the length of the serialized header and attributes. Returns `None` if the value of an
/// attribute has more than 65,531 bytes, or if the whole has more than 4,294,967,295 bytes. The
/// header must be writable.
pub(crate) fn reply_len<H: Emitable, T: FamilyNla>(header: &H, nlas: &[T]) -> Option<usize>
    requires { H.writable header.now }
    ensures { let attributes = serialized_attributes T.attribute_set (map T.model nlas.now) in
        SomeIff result (HasWritableLengths (H.bytes header.now) attributes)
        (length (header_and_attributes (H.bytes header.now) attributes)) }
{
    let header_len = header.buffer_len();
    // What the header leaves of 4,294,967,295 bytes.
    let room = (u32::MAX as usize).checked_sub(header_len)?;
    Some(header_len + values_len_within(nlas, room)?)
}

/// Returns the length of the serialized header and attributes, which must be writable.
pub(crate) fn fitting_reply_len<H: Emitable, T: FamilyNla>(header: &H, nlas: &[T]) -> usize
    requires header { H.writable header.now }
    requires fits { HasWritableLengths (H.bytes header.now)
        (serialized_attributes T.attribute_set (map T.model nlas.now)) }
    ensures { result ≡ length (header_and_attributes (H.bytes header.now)
        (serialized_attributes T.attribute_set (map T.model nlas.now))) }
{
    header.buffer_len() + values_len(nlas)
}

/// Writes the header and the attributes at the start of `buffer`. The bytes after them are
/// unchanged. Both must be writable, and the buffer must have at least their length.
pub(crate) fn emit_reply<H: Emitable, T: FamilyNla>(header: &H, nlas: &[T], buffer: &mut [u8])
    requires header { H.writable header.now }
    requires fits { HasWritableLengths (H.bytes header.now)
        (serialized_attributes T.attribute_set (map T.model nlas.now)) }
    requires room { length (header_and_attributes (H.bytes header.now)
        (serialized_attributes T.attribute_set (map T.model nlas.now))) ≤ length buffer.old }
    ensures written { HoldsAtStart (header_and_attributes (H.bytes header.now)
        (serialized_attributes T.attribute_set (map T.model nlas.now))) buffer.old buffer.new }
    // Each number of the header and of the attributes fits its field, which follows from their Rust
    // types. This is stated because `Emitable::emit` states it of a reply.
    ensures header_in_range { H.in_range header.now }
    ensures attributes_in_range { AllByRecursion (IsInRangeIn T.attribute_set)
        (map T.model nlas.now) }
{
    let (header_buffer, attribute_buffer) = buffer.split_at_mut(header.buffer_len());
    header.emit(header_buffer);
    emit_values(nlas, attribute_buffer);
}

/// Checks each attribute in `bytes`, the bytes after the header, and returns the first error, if
/// there is one. Otherwise returns the length that the header and the attributes have in canonical
/// form, or `None` if the value of an attribute then has more than 65,531 bytes, or if the whole
/// has more than 4,294,967,295 bytes. The header must be writable.
#[inline(always)]
pub(crate) fn check_reply_len<'a, H: Emitable, V: FamilyView<'a> + Drop>(
    header: &H,
    bytes: &'a [u8],
) -> Result<Option<usize>, DecodeError>
    requires { H.writable header.now }
    ensures clean { OnOk result (HasNoAttributeError
        (decode_attribute V.attribute_set) bytes.entry.now) }
    ensures len { let attributes = encoded_attributes_in V.attribute_set bytes.entry.now in
        IfOk result (λ len. SomeIff len (HasWritableLengths (H.bytes header.now) attributes)
        (length (header_and_attributes (H.bytes header.now) attributes))) }
    ensures error { IfErr result (HasAttributeError
        (decode_attribute V.attribute_set) bytes.entry.now) }
{
    let header_len = header.buffer_len();
    // The limit is what the header leaves of 4,294,967,295 bytes for the attributes. The first part
    // of the pair, the number of attributes, is not needed.
    match check_nlas_len::<V>(bytes, (u32::MAX as usize).checked_sub(header_len)) {
        Ok((_, Some(attribute_len))) => Ok(Some(header_len + attribute_len)),
        Ok((_, None)) => Ok(None),
        Err(error) => Err(error),
    }
}

/// Returns the length that the header and the attributes in `bytes` have in canonical form. Returns
/// `None` if the value of an attribute then has more than 65,531 bytes, or if the whole has more
/// than 4,294,967,295 bytes. The header must be writable, and `bytes` must have no error.
pub(crate) fn reply_view_len<'a, H: Emitable, V: FamilyView<'a> + Drop>(
    header: &H,
    bytes: &'a [u8],
) -> Option<usize>
    requires header { H.writable header.now }
    requires clean { HasNoAttributeError (decode_attribute V.attribute_set) bytes.now }
    ensures fits { IsSome result ↔ HasWritableLengths (H.bytes header.now)
        (encoded_attributes_in V.attribute_set bytes.entry.now) }
    ensures len { IfSome result (λ len. len ≡ length (header_and_attributes (H.bytes header.now)
        (encoded_attributes_in V.attribute_set bytes.entry.now))) }
{
    let header_len = header.buffer_len();
    // `views_len` requires that the header by itself is not too long.
    if header_len > u32::MAX as usize {
        return None;
    }
    views_len::<V>(header_len, bytes)
}

/// Writes the header and the attributes in `bytes`, in canonical form, at the start of `buffer`.
/// The bytes after them are unchanged. `bytes` must have no error, both must be writable, and the
/// buffer must have at least their length.
pub(crate) fn emit_reply_view<'a, H: Emitable, V: FamilyView<'a> + Drop>(
    header: &H,
    bytes: &'a [u8],
    buffer: &mut [u8],
)
    requires header { H.writable header.now }
    requires clean { HasNoAttributeError (decode_attribute V.attribute_set) bytes.now }
    requires fits { HasWritableLengths (H.bytes header.now)
        (encoded_attributes_in V.attribute_set bytes.now) }
    requires room { length (header_and_attributes (H.bytes header.now)
        (encoded_attributes_in V.attribute_set bytes.now)) ≤ length buffer.old }
    ensures { HoldsAtStart (header_and_attributes (H.bytes header.now)
        (encoded_attributes_in V.attribute_set bytes.entry.now)) buffer.old buffer.new }
{
    let (header_buffer, attribute_buffer) = buffer.split_at_mut(header.buffer_len());
    header.emit(header_buffer);
    emit_views::<V>(bytes, attribute_buffer);
}
