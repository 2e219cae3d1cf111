//! Properties of attributes, records and messages. Proof only: the contracts state the properties.
//!
//! In the contracts `SplitsIntoAttributes bytes attributes rest` states that the bytes are these
//! attributes, each with its padding, and then `rest`. `SplitsIntoMessages bytes messages end`
//! states that the bytes are these messages, each with its padding; `end` is `None` if no bytes
//! follow, else the error of the bytes that follow. `AreItemsOf (IsItemOf I.codec) bytes items`
//! states that the items of the datagram are the payload or the error of each of its messages, and
//! then the error of the bytes that follow, if any. `netlink_codec I.codec` is the codec of netlink
//! messages with inner messages of the type `I`. It has no parameter (`tt`).

ghost use Rattle.std.specs.Prelude.{◌≡◌, ◌≢◌, ◌↔◌, ◌⊎◌, ◌%◌, ◌<◌, ◌++◌, Contains, ℕ, List, []};
ghost use Rattle.std.specs.Prelude.{◌∷◌, length, map, Option, Some, None, Result, Ok, Err, IsTrue};
ghost use Rattle.std.specs.Prelude.{IfOk, IsOk, true, false};
ghost use Rattle.std.specs.Borrow.{Bor};
ghost use Rattle.std.specs.Iterator.{Drains, YieldsThen};
ghost use Rattle.std.specs.List.{AllByRecursion, flat_map};
ghost use Rattle.netlink_core.specs.Attribute.{Attribute, FitsHeaderFields, SplitsIntoAttributes};
ghost use Rattle.netlink_core.specs.Attribute.{SplitsUntilError, IsFramingError, padding_length};
ghost use Rattle.netlink_core.specs.Attribute.{header_and_value, attribute_bytes};
ghost use Rattle.netlink_core.specs.AttributeSet.{AttributeValue, ValueOfKind, value_of_kind};
ghost use Rattle.netlink_core.specs.AttributeSet.{kind_numbers, value_as_decoded};
ghost use Rattle.netlink_core.specs.Layout.{parse_record, IsContainedIn};
ghost use Rattle.netlink_core.specs.Bytes.{IsBytes};
ghost use Rattle.netlink_core.specs.IteratorStep.{items_without_errors};
ghost use Rattle.netlink_core.specs.Walk.{buffered_attribute, unread_bytes, YieldsAttribute};
ghost use Rattle.netlink_core.specs.Datagram.{SplitsIntoMessages};
ghost use Rattle.netlink_core.specs.DatagramWalk.{unread_messages, unread_datagram, YieldsMessage};
ghost use Rattle.netlink_core.specs.DatagramWalk.{borrowed_messages};
ghost use Rattle.netlink_core.specs.Items.{Item, IsItemOf, AreItemsOf};
ghost use Rattle.netlink_core.specs.NetlinkMessageModel.{netlink_message_model};
ghost use Rattle.netlink_core.specs.NetlinkMessageModel.{owned_payload_model};
ghost use Rattle.netlink_core.specs.declared.attribute.NlaBuffer.{NlaBuffer};
ghost use Rattle.netlink_core.specs.declared.attribute.NlasIterator.{NlasIterator};
ghost use Rattle.netlink_core.specs.declared.datagram.FramedMessages.{FramedMessages};
ghost use Rattle.netlink_core.specs.declared.datagram.MessageStrings.{MessageStrings};
ghost use Rattle.netlink_core.specs.declared.error.DecodeError.{DecodeError};
ghost use Rattle.netlink_core.specs.Canonical.{HasCanonicalForm};
ghost use Rattle.netlink_core.specs.Codec.{HasOneResult};
ghost use Rattle.netlink_core.specs.NetlinkMessage.{NetlinkMessageModel, finalized_header};
ghost use Rattle.netlink_core.specs.NetlinkMessage.{netlink_codec};

use crate::attribute::{NlaBuffer, NlasIterator};
use crate::codec::Readable;
use crate::datagram::{FramedMessages, MessageStrings};
use crate::family::FamilyNla;
use crate::header::NetlinkHeader;
use crate::message::{NetlinkMessage, NetlinkPayload};
use crate::nla::DefaultNla;
use crate::record::Record;
use crate::wire::HasCodec;
use crate::{
    NETLINK_HEADER_LEN, NLA_HEADER_SIZE, NLM_F_ACK, NLM_F_ACK_TLVS, NLM_F_ATOMIC, NLM_F_CAPPED,
    NLM_F_DUMP, NLM_F_DUMP_FILTERED, NLM_F_DUMP_INTR, NLM_F_ECHO, NLM_F_MATCH, NLM_F_MULTI,
    NLM_F_REQUEST, NLM_F_ROOT, NLMSG_DONE, NLMSG_ERROR, NLMSG_NOOP, NLMSG_OVERRUN,
};
use exact_values::Exact;
use std::alloc::AllocError;

/// The main theorem: how each codec relates bytes and values. What the parser, the serializer and
/// [`canonical`](crate::canonical) of a type return is stated by their contracts, which name the
/// same codec.
pub fn main_theorem<T: HasCodec>()
    // Bytes have exactly one value, or exactly one error.
    ensures one_result { (b : List ℕ) (p : T.Param) → IsBytes b → HasOneResult T.codec b p }
    // Two accepted byte strings have equal values if and only if they are equivalent: if they
    // differ only in ignored bits.
    ensures equal_iff_equivalent { (b c : List ℕ) (p : T.Param) (v w : T.codec.Value) → IsBytes b
        → IsBytes c → T.codec.parses b p v → T.codec.parses c p w
        → ((v ≡ w) ↔ T.codec.equivalent p b c) }
    // Each parsed value is in range and in normal form.
    ensures parsed_is_normal { (b : List ℕ) (p : T.Param) (v : T.codec.Value) → IsBytes b
        → T.codec.parses b p v → T.codec.is_in_range v × T.codec.is_normal p v }
    // Two writable values, in range and in normal form, are equal if and only if they serialize to
    // equal bytes.
    ensures equal_iff_equal_bytes { (p : T.Param) (v w : T.codec.Value)
        → T.codec.is_in_range v → T.codec.is_normal p v → T.codec.is_writable v
        → T.codec.is_in_range w → T.codec.is_normal p w → T.codec.is_writable w
        → ((v ≡ w) ↔ (T.codec.serialized v ≡ T.codec.serialized w)) }
    // A value in range serializes to bytes.
    ensures serialized_is_bytes { (v : T.codec.Value) → T.codec.is_in_range v
        → IsBytes (T.codec.serialized v) }
    // A writable value in range round-trips if and only if it is in normal form.
    ensures round_trips_iff_normal { (p : T.Param) (v : T.codec.Value) → T.codec.is_in_range v
        → T.codec.is_writable v
        → (T.codec.parses (T.codec.serialized v) p v ↔ T.codec.is_normal p v) }
    // Two byte strings that have canonical forms have the same one if and only if they are
    // equivalent.
    ensures same_form_iff_equivalent { (b c b_form c_form : List ℕ) (p : T.Param) → IsBytes b
        → IsBytes c → HasCanonicalForm T.codec p b b_form → HasCanonicalForm T.codec p c c_form
        → ((b_form ≡ c_form) ↔ T.codec.equivalent p b c) }
    // The canonical form of bytes, if they have one, is equivalent to them, and is its own
    // canonical form.
    ensures canonical_form { (b form : List ℕ) (p : T.Param) → IsBytes b
        → HasCanonicalForm T.codec p b form → IsBytes form × T.codec.equivalent p b form
        × HasCanonicalForm T.codec p form form }
{}

/// On accepted bytes, the equivalence of each codec is reflexive, symmetric and transitive. It is
/// equality of values, by [`main_theorem`].
pub fn equivalence_is_an_equivalence_relation<T: HasCodec>()
    ensures reflexive { (b : List ℕ) (p : T.Param) (v : T.codec.Value) → IsBytes b
        → T.codec.parses b p v → T.codec.equivalent p b b }
    ensures symmetric { (b c : List ℕ) (p : T.Param) (v w : T.codec.Value) → IsBytes b → IsBytes c
        → T.codec.parses b p v → T.codec.parses c p w
        → T.codec.equivalent p b c → T.codec.equivalent p c b }
    ensures transitive { (b c d : List ℕ) (p : T.Param) (v w x : T.codec.Value)
        → IsBytes b → IsBytes c → IsBytes d
        → T.codec.parses b p v → T.codec.parses c p w → T.codec.parses d p x
        → T.codec.equivalent p b c → T.codec.equivalent p c d → T.codec.equivalent p b d }
{}

/// Bytes are split into attributes (`SplitsIntoAttributes`) exactly as follows. Empty bytes have no
/// attributes. Other bytes begin with the first attribute, whose type field has 16 bits and whose
/// value fits its length field. Either its padding is complete, and the remaining bytes are split
/// into the later attributes; or its padding is short, nothing follows, and it is the last one.
pub fn split_is_as_stated()
    ensures none { (bytes : List ℕ) → SplitsIntoAttributes bytes [] [] ↔ (bytes ≡ []) }
    // The first attribute is `a`; `padding` and `rest` follow it.
    ensures some { (bytes : List ℕ) (a : Attribute) (later : List Attribute)
        → SplitsIntoAttributes bytes (a ∷ later) [] ↔ ((padding rest : List ℕ)
        × (bytes ≡ header_and_value a ++ (padding ++ rest))
        × FitsHeaderFields a
        × (((length padding ≡ padding_length (length a.value)) × SplitsIntoAttributes rest later [])
        ⊎ ((length padding < padding_length (length a.value)) × (rest ≡ []) × (later ≡ [])))) }
{}

/// Bytes are split into at most one list of attributes.
pub fn one_list_of_attributes()
    ensures { (bytes : List ℕ) (attributes others : List Attribute)
        → SplitsIntoAttributes bytes attributes [] → SplitsIntoAttributes bytes others []
        → attributes ≡ others }
{}

/// The bytes that attributes serialize to are split into these attributes, whatever bytes follow.
/// This requires that each type field has 16 bits, and that each value fits its length field
/// (`FitsHeaderFields`).
pub fn serialized_attributes_are_split()
    ensures { (attributes : List Attribute) → AllByRecursion FitsHeaderFields attributes
        → (rest : List ℕ)
        → SplitsIntoAttributes (flat_map attribute_bytes attributes ++ rest) attributes rest }
{}

/// Bytes parse as a value of a record type if and only if they contain it (`IsContainedIn`): they
/// are long enough, they have the tag of the value, which selects the rows of its layout, and its
/// numbers in the fields that are not ignored, and the value is in range and in normal form.
pub fn parsed_iff_contained<T: Record>()
    ensures { (bytes : List ℕ) (param : T.Param) (value : T) → IsBytes bytes
        → (parse_record T.layout param bytes ≡ Ok value)
        ↔ IsContainedIn T.layout bytes param value }
{}

/// Returns `TAKES_MEMORY` of a record type: whether parsing can fail with `Memory`. It is `false`.
pub fn records_take_no_memory<T: Record>() -> bool
    ensures { result ≡ false }
{
    T::TAKES_MEMORY
}

/// Returns `TAKES_MEMORY` of a raw attribute ([`DefaultNla`]): whether parsing can fail with
/// `Memory`. It is `true`, since the value is copied.
pub fn attributes_take_memory() -> bool
    ensures { result ≡ true }
{
    DefaultNla::TAKES_MEMORY
}

/// `value_of_kind`, which returns the value of a decoded attribute if it has a given kind, finds a
/// value under its own kind, if this is in the set of attribute types (`own`), and under no other
/// kind (`other`). Under a kind that is not in the set it finds nothing (`none`). So it finds a raw
/// attribute under no kind.
pub fn value_is_found_under_its_kind<T: FamilyNla>()
    ensures own { (k : ℕ) (x : ValueOfKind T.attribute_set k)
        → Contains (kind_numbers T.attribute_set) k
        → value_of_kind T.attribute_set k (value_as_decoded T.attribute_set k x) ≡ Some x }
    ensures other { (k j : ℕ) (x : ValueOfKind T.attribute_set k) → j ≢ k
        → value_of_kind T.attribute_set j (value_as_decoded T.attribute_set k x) ≡ None }
    ensures none { (k : ℕ) (v : AttributeValue T.attribute_set)
        → ¬ Contains (kind_numbers T.attribute_set) k → value_of_kind T.attribute_set k v ≡ None }
{}

/// If a [`NlasIterator`](crate::NlasIterator) ends without an error, it has yielded the attributes
/// that its bytes are split into. If it yields an error, it has yielded the attributes before this
/// error, and no bytes are left.
pub fn complete_iteration_is_the_split()
    ensures ended { (walk : NlasIterator) (yielded : List NlaBuffer)
        → Drains YieldsAttribute walk (items_without_errors yielded)
        → SplitsIntoAttributes (unread_bytes walk) (map buffered_attribute yielded) [] }
    ensures error { (walk last : NlasIterator) (yielded : List NlaBuffer) (e : DecodeError)
        → YieldsThen YieldsAttribute walk (items_without_errors yielded) (Some (Err e)) last
        → SplitsUntilError IsFramingError (unread_bytes walk) (map buffered_attribute yielded) e
        × (unread_bytes last ≡ []) }
{}

/// Returns `v == w`, which is true if and only if the two values are the same: a type is `Exact` if
/// its `==` compares the whole value.
pub fn equal_iff_same<T: Exact>(v: &T, w: &T) -> bool
    ensures { IsTrue result ↔ (v.now ≡ w.now) }
{
    v == w
}

/// Returns a clone. Cloning succeeds, and the clone is the same value: a type is `Exact` if its
/// `clone` copies the whole value and never fails.
pub fn copies_are_the_same<T: Exact>(v: &T) -> Result<T, AllocError>
    ensures ok { IsOk result }
    ensures same { IfOk result (λ copy. copy ≡ v.now) }
{
    v.clone()
}

/// Returns `v == w`, which is true if and only if the headers and the models of the payloads are
/// equal.
pub fn equal_messages<I: HasCodec>(v: &NetlinkMessage<I>, w: &NetlinkMessage<I>) -> bool
    ensures { IsTrue result ↔ (netlink_message_model I.model v.now
        ≡ netlink_message_model I.model w.now) }
{
    v == w
}

/// Returns `v == w`, which is true if and only if the models of the payloads are equal.
pub fn equal_payloads<I: HasCodec>(v: &NetlinkPayload<I>, w: &NetlinkPayload<I>) -> bool
    ensures { IsTrue result
        ↔ (owned_payload_model I.model v.now ≡ owned_payload_model I.model w.now) }
{
    v == w
}

/// Returns `v == w`, which is true if and only if the type fields and the values are equal.
#[tactic(auto, using(crate::proofs::ValueTests::attribute_test_decides))]
pub fn equal_buffers(v: &NlaBuffer<'_>, w: &NlaBuffer<'_>) -> bool
    ensures { IsTrue result ↔ (buffered_attribute v.now ≡ buffered_attribute w.now) }
{
    v == w
}

/// Returns a clone. Cloning a borrowed attribute succeeds, and the clone has the same type field
/// and the same value (`buffered_attribute`).
pub fn copied_buffer<'a>(buffer: &NlaBuffer<'a>) -> Result<NlaBuffer<'a>, AllocError>
    ensures ok { IsOk result }
    ensures same { IfOk result (λ copy. buffered_attribute copy ≡ buffered_attribute buffer.now) }
{
    buffer.clone()
}

/// Returns a clone. Cloning an iterator over attributes succeeds, and the clone has the same bytes
/// left to read (`unread_bytes`).
pub fn copied_walk<'a>(walk: &NlasIterator<'a>) -> Result<NlasIterator<'a>, AllocError>
    ensures ok { IsOk result }
    ensures same { IfOk result (λ copy. unread_bytes copy ≡ unread_bytes walk.now) }
{
    walk.clone()
}

/// Returns a clone. Cloning an iterator over messages and their headers succeeds, and the clone has
/// the same bytes left to read (`unread_messages`).
pub fn copied_framed_messages<'a>(
    messages: &FramedMessages<'a>,
) -> Result<FramedMessages<'a>, AllocError>
    ensures ok { IsOk result }
    ensures same { IfOk result (λ copy. unread_messages copy ≡ unread_messages messages.now) }
{
    messages.clone()
}

/// Returns a clone. Cloning an iterator over messages succeeds, and the clone has the same bytes
/// left to read (`unread_datagram`).
pub fn copied_messages<'a>(messages: &MessageStrings<'a>) -> Result<MessageStrings<'a>, AllocError>
    ensures ok { IsOk result }
    ensures same { IfOk result (λ copy. unread_datagram copy ≡ unread_datagram messages.now) }
{
    messages.clone()
}

/// Returns the default header, whose fields are all 0.
pub fn default_header() -> NetlinkHeader
    ensures { result ≡ record {
      length = 0;
      message_type = 0;
      flags = 0;
      sequence_number = 0;
      port_number = 0;
    } }
{
    NetlinkHeader::default()
}

/// Bytes start with exactly one message, or are rejected with exactly one error.
pub fn one_message_or_error<I: HasCodec<Param = u16>>()
    ensures { (b : List ℕ) → IsBytes b → HasOneResult (netlink_codec I.codec) b tt }
{}

/// Two accepted byte strings have equal messages if and only if they are equivalent. They are
/// equivalent if their netlink headers are equal, and their payloads are equivalent under the
/// message type. A payload ends at the length in the header; what follows is ignored.
pub fn equal_messages_iff_equivalent<I: HasCodec<Param = u16>>()
    ensures { (b c : List ℕ) (v w : NetlinkMessageModel I.codec.Value) → IsBytes b → IsBytes c
        → (netlink_codec I.codec).parses b tt v → (netlink_codec I.codec).parses c tt w
        → ((v ≡ w) ↔ (netlink_codec I.codec).equivalent tt b c) }
{}

/// Two byte strings that have canonical forms have the same one if and only if they are equivalent
/// (member `equivalent` of `netlink_codec`, the codec of netlink messages).
pub fn same_message_bytes_iff_equivalent<I: HasCodec<Param = u16>>()
    ensures { (b c form other_form : List ℕ) → IsBytes b → IsBytes c
        → HasCanonicalForm (netlink_codec I.codec) tt b form
        → HasCanonicalForm (netlink_codec I.codec) tt c other_form
        → ((form ≡ other_form) ↔ (netlink_codec I.codec).equivalent tt b c) }
{}

/// A message whose header has the length and the type that `finalize` sets round-trips if and only
/// if it is in normal form. This requires that the message is writable and in range. It holds for
/// any function `type_of` that maps inner messages to types.
pub fn finalized_message_round_trips<I: HasCodec<Param = u16>>()
    ensures { (type_of : I.codec.Value → ℕ) (m : NetlinkMessageModel I.codec.Value)
        → (netlink_codec I.codec).is_in_range m → (netlink_codec I.codec).is_writable m
        → (m.header ≡ finalized_header I.codec.serialized type_of m)
        → ((netlink_codec I.codec).parses ((netlink_codec I.codec).serialized m) tt m
        ↔ (netlink_codec I.codec).is_normal tt m) }
{}

/// If a [`MessageStrings`](crate::MessageStrings) ends without an error, it has yielded the
/// messages that its bytes are split into. If it yields an error, it has yielded the messages
/// before this error, and no bytes are left.
pub fn complete_iteration_is_the_datagram()
    ensures ended { (walk : MessageStrings) (yielded : List (Bor (List ℕ)))
        → Drains YieldsMessage walk (items_without_errors yielded)
        → SplitsIntoMessages (unread_datagram walk) (borrowed_messages yielded) None }
    ensures error { (walk last : MessageStrings) (yielded : List (Bor (List ℕ))) (e : DecodeError)
        → YieldsThen YieldsMessage walk (items_without_errors yielded) (Some (Err e)) last
        → SplitsIntoMessages (unread_datagram walk) (borrowed_messages yielded) (Some e)
        × (unread_datagram last ≡ []) }
{}

/// A datagram is split into at most one list of messages. The error at its end, or that there is
/// none, is unique too.
pub fn one_list_of_messages()
    ensures { (bytes : List ℕ) (messages others : List (List ℕ))
        (end other_end : Option DecodeError)
        → SplitsIntoMessages bytes messages end → SplitsIntoMessages bytes others other_end
        → (messages ≡ others) × (end ≡ other_end) }
{}

/// Each datagram has a list of items: the payload or the error of each of its messages.
pub fn datagram_has_items<I: HasCodec<Param = u16>>()
    ensures { (bytes : List ℕ) → IsBytes bytes → (items : List (Item I.codec.Value))
        × AreItemsOf (IsItemOf I.codec) bytes items }
{}

/// Each datagram has at most one list of items.
pub fn one_list_of_items<I: HasCodec<Param = u16>>()
    ensures { (bytes : List ℕ) → IsBytes bytes
        → (items others : List (Item I.codec.Value))
        → AreItemsOf (IsItemOf I.codec) bytes items → AreItemsOf (IsItemOf I.codec) bytes others
        → items ≡ others }
{
    // The proof uses the contract of the function that is called here.
    one_message_or_error::<I>();
}

/// If a datagram consists of complete messages with all their padding (`front`) and of other bytes
/// (`back`), its items are those of these messages and then those of the other bytes.
pub fn items_of_concatenation<I: HasCodec<Param = u16>>()
    // The length of `front` is a multiple of 4, so that its last message has all its padding too.
    ensures { (front back : List ℕ) (messages : List (List ℕ))
        (front_items back_items : List (Item I.codec.Value))
        → SplitsIntoMessages front messages None × (length front % 4 ≡ 0)
        → AreItemsOf (IsItemOf I.codec) front front_items
        → AreItemsOf (IsItemOf I.codec) back back_items
        → AreItemsOf (IsItemOf I.codec) (front ++ back) (front_items ++ back_items) }
{}

/// The constants have the numbers of linux/netlink.h.
pub fn message_constants_have_their_values()
    ensures noop { NLMSG_NOOP ≡ 1 }
    ensures error { NLMSG_ERROR ≡ 2 }
    ensures done { NLMSG_DONE ≡ 3 }
    ensures overrun { NLMSG_OVERRUN ≡ 4 }
    ensures request { NLM_F_REQUEST ≡ 1 }
    ensures dump { NLM_F_DUMP ≡ 0x300 }
    ensures multi { NLM_F_MULTI ≡ 2 }
    ensures acknowledge { NLM_F_ACK ≡ 4 }
    ensures echo { NLM_F_ECHO ≡ 8 }
    ensures interrupted { NLM_F_DUMP_INTR ≡ 0x10 }
    ensures filtered { NLM_F_DUMP_FILTERED ≡ 0x20 }
    ensures root { NLM_F_ROOT ≡ 0x100 }
    ensures matching { NLM_F_MATCH ≡ 0x200 }
    ensures atomic { NLM_F_ATOMIC ≡ 0x400 }
    ensures capped { NLM_F_CAPPED ≡ 0x100 }
    ensures attributes { NLM_F_ACK_TLVS ≡ 0x200 }
    ensures header { NETLINK_HEADER_LEN ≡ 16 }
    ensures attribute { NLA_HEADER_SIZE ≡ 4 }
{}
