//! The borrowed attributes of a reply. `V` is the type of such an attribute in the replies of one
//! family, `V.attribute_set` is the family's set of attribute types, and `V.model` is what an
//! attribute decodes to by this set.

ghost use Rattle.std.specs.Prelude.{◌≡◌, ◌≤◌, ◌↔◌, ◌+◌, ◌-◌, length, Err, OnOk, IfOk, IfErr};
ghost use Rattle.std.specs.Prelude.{IsSome, IfSome, None, Some, SomeIff, MatchOption};
ghost use Rattle.std.specs.List.{AllByRecursion, flat_map};
ghost use Rattle.std.specs.Iterator.{YieldsFirstBy};
ghost use Rattle.netlink_core.specs.Bytes.{HoldsAtStart};
ghost use Rattle.netlink_core.specs.Attribute.{AreWritable, HasAttributeError};
ghost use Rattle.netlink_core.specs.Attribute.{FitsLengthField, attribute_bytes};
ghost use Rattle.netlink_core.specs.AttributeSet.{decode_attribute};
ghost use Rattle.netlink_core.specs.Walk.{unread_bytes};
ghost use Rattle.attribute_lists.specs.AttributesIn.{HasNoAttributeError, decoded_in};
ghost use Rattle.attribute_lists.specs.AttributesIn.{IsLengthWithin, encoded_attributes_in};
ghost use Rattle.attribute_lists.specs.AttributesIn.{unread_values};

use netlink_core::{DecodeError, FamilyView, Nla, NlasIterator, emit_nla, nla_len};

/// Checks the framing and the value of each attribute. Returns how many attributes there are, or
/// the first error. Does not allocate.
#[inline(always)]
pub fn check_nlas<'a, V: FamilyView<'a> + Drop>(bytes: &'a [u8]) -> Result<usize, DecodeError>
    ensures clean { OnOk result (HasNoAttributeError
        (decode_attribute V.attribute_set) bytes.entry.now) }
    ensures count { IfOk result
        (λ count. count ≡ length (decoded_in (decode_attribute V.attribute_set) bytes.entry.now)) }
    ensures error { IfErr result (HasAttributeError
        (decode_attribute V.attribute_set) bytes.entry.now) }
{
    match check_nlas_len::<V>(bytes, None) {
        Ok((count, _)) => Ok(count),
        Err(error) => Err(error),
    }
}

/// Checks the framing and the value of each attribute. Returns the first error, or a pair. Its
/// first part is the number of attributes. Its second part is the number of bytes that the
/// attributes serialize to, with headers and paddings. The second part is `None` if a value
/// serializes to more than 65,531 bytes and so does not fit its length field, if the number is
/// above the limit, or if no limit is given. Does not allocate.
// A caller passes a constant `None` to count only: inlined, it then measures nothing.
#[tactic(auto, using(crate::proofs::Finding::attributes_without_error_rules))]
#[inline(always)]
pub fn check_nlas_len<'a, V: FamilyView<'a> + Drop>(
    bytes: &'a [u8],
    limit: Option<usize>,
) -> Result<(usize, Option<usize>), DecodeError>
    ensures clean { OnOk result (HasNoAttributeError
        (decode_attribute V.attribute_set) bytes.entry.now) }
    // `found` is the returned pair: the number of attributes, and the number of bytes.
    ensures count { IfOk result
        (λ found. found.0
        ≡ length (decoded_in (decode_attribute V.attribute_set) bytes.entry.now)) }
    ensures len { let attributes = encoded_attributes_in V.attribute_set bytes.entry.now in
        IfOk result (λ found. IsLengthWithin limit attributes found.1) }
    ensures error { IfErr result (HasAttributeError
        (decode_attribute V.attribute_set) bytes.entry.now) }
{
    let mut count = 0;
    // What is left of the limit: `None` if there is no limit, or once an attribute does not fit.
    let mut room = limit;
    for item in NlasIterator::new(bytes) {
        let view = V::read_view(&item?)?;
        room = room_after(&view, room);
        count += 1;
    }
    Ok((count, used(limit, room)))
}

// Returns the number of bytes that are left of `room` after one more attribute. Returns `None` if
// the attribute has more bytes than that, if its value does not fit its length field, or if `room`
// is already `None`.
#[inline(always)]
fn room_after<V: Nla>(view: &V, room: Option<usize>) -> Option<usize>
    ensures { MatchOption room (result ≡ None) (λ room.
        SomeIff result (FitsLengthField (V.attribute view.now)
        × (length (attribute_bytes (V.attribute view.now)) ≤ room))
        (room - length (attribute_bytes (V.attribute view.now)))) }
{
    match room {
        Some(room) if view.value_fits() => room.checked_sub(nla_len(view)),
        _ => None,
    }
}

// Returns how many bytes of the limit are used if `room` is left of it, or `None` if either is
// `None`. The room must not be above the limit.
#[inline(always)]
fn used(limit: Option<usize>, room: Option<usize>) -> Option<usize>
    requires { IfSome limit (λ limit. IfSome room (λ room. room ≤ limit)) }
    ensures { MatchOption limit (result ≡ None) (λ limit.
        MatchOption room (result ≡ None) (λ room. result ≡ Some (limit - room))) }
{
    match (limit, room) {
        (Some(limit), Some(room)) => Some(limit - room),
        _ => None,
    }
}

/// Returns the attribute at the start of the bytes that are left, and continues after its padding.
/// Returns `None` if and only if no bytes were left. The bytes must have no error, neither in the
/// framing nor in a value; then those that are left have none either.
#[tactic(auto, using(crate::proofs::Finding::attributes_without_error_rules))]
#[inline(always)]
pub fn next_view<'a, V: FamilyView<'a>>(walk: &mut NlasIterator<'a>) -> Option<V>
    requires { HasNoAttributeError (decode_attribute V.attribute_set) (unread_bytes walk.old) }
    ensures next { YieldsFirstBy V.model (unread_values V.attribute_set) walk.old result walk.new }
    ensures rest { HasNoAttributeError (decode_attribute V.attribute_set) (unread_bytes walk.new) }
{
    match walk.next_accepted() {
        None => None,
        Some(nla) => Some(V::read_accepted(&nla)),
    }
}

/// Returns the number of bytes that a header of `header_len` bytes and the attributes in the bytes
/// serialize to. Returns `None` if a value does not fit its length field or the whole has more than
/// 4,294,967,295 bytes. The bytes must have no error, neither in the framing nor in a value, and
/// the header by itself at most 4,294,967,295 bytes.
pub fn views_len<'a, V: FamilyView<'a> + Drop>(header_len: usize, bytes: &'a [u8]) -> Option<usize>
    requires clean { HasNoAttributeError (decode_attribute V.attribute_set) bytes.now }
    requires small { header_len ≤ 4294967295 }
    ensures fits { let attributes = encoded_attributes_in V.attribute_set bytes.entry.now in
        IsSome result ↔ (AllByRecursion FitsLengthField attributes
        × (header_len + length (flat_map attribute_bytes attributes) ≤ 4294967295)) }
    ensures len { let attributes = encoded_attributes_in V.attribute_set bytes.entry.now in
        IfSome result (λ len. len ≡ header_len + length (flat_map attribute_bytes attributes)) }
{
    let mut len = header_len;
    let mut walk = NlasIterator::new(bytes);
    while let Some(view) = next_view::<V>(&mut walk) {
        if !view.value_fits() {
            return None;
        }
        len += nla_len(&view);
        if len > u32::MAX as usize {
            return None;
        }
    }
    Some(len)
}

/// Serializes the attributes in the bytes, in order and each with zeros as its padding, to the
/// start of the buffer. The bytes after them are unchanged. The bytes must have no error, neither
/// in the framing nor in a value. Each value must fit its length field, all attributes must have at
/// most 4,294,967,295 bytes (`AreWritable`), and the buffer must be at least as long as they are.
pub fn emit_views<'a, V: FamilyView<'a> + Drop>(bytes: &'a [u8], buffer: &mut [u8])
    requires clean { HasNoAttributeError (decode_attribute V.attribute_set) bytes.now }
    requires fits { AreWritable (encoded_attributes_in V.attribute_set bytes.now) }
    requires room { length
        (flat_map attribute_bytes (encoded_attributes_in V.attribute_set bytes.now))
        ≤ length buffer.old }
    ensures { HoldsAtStart
        (flat_map attribute_bytes (encoded_attributes_in V.attribute_set bytes.entry.now))
        buffer.old buffer.new }
{
    let mut at = 0;
    let mut walk = NlasIterator::new(bytes);
    while let Some(view) = next_view::<V>(&mut walk) {
        // With its padding.
        let end = at + nla_len(&view);
        emit_nla(&view, &mut buffer[at..end]);
        at = end;
    }
}
