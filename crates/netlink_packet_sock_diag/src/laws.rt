//! Properties of replies, messages and dumps. Proof only: the contracts state the properties.
//!
//! In the contracts `message_codec` is the codec of messages without a netlink header, and
//! `netlink_message_codec` that of netlink messages, whose parameter is `tt`. `messages` and
//! `destroys` are the ghost members of messages and of requests to close sockets: the former are
//! serialized under the type `SOCK_DIAG_BY_FAMILY`, the latter under `SOCK_DESTROY`. `netlink_core`
//! states some of these properties for the messages of any protocol: there the body calls its law.
//!
//! The item of a message is its payload or its decode error, by `IsItemOf message_codec`. In a
//! `LossyDump` it is by `HasLossyEntry message_codec`: an inner message is its value or its decode
//! error. `DumpOfItems (before, items) (after, end)`: a dump with the messages `before` that reads
//! these items has then the messages `after` and the end `end`. `DumpOfDatagrams` states this of
//! the items of datagrams. `NewReaderReaches item_is datagrams progress`: feeding these datagrams
//! in order to a new reader leads to this progress, and no allocation fails.

ghost use Rattle.std.specs.Prelude.{Bool, true, ◌≡◌, ◌≢◌, ◌%◌, ◌↔◌, ◌⊎◌, ◌++◌, ℕ, List, [], ◌∷◌};
ghost use Rattle.std.specs.Prelude.{length, count_by, IsTrue, Result, IfOk, IsOk, map, None};
ghost use Rattle.std.specs.Prelude.{◌≤◌, replicate};
ghost use Rattle.std.specs.Iterator.{Drains};
ghost use Rattle.std.specs.List.{AllByRecursion, concat};
ghost use Rattle.netlink_core.specs.Bytes.{IsBytes};
ghost use Rattle.netlink_core.specs.declared.error.DecodeError.{DecodeError};
ghost use Rattle.netlink_core.specs.declared.error.DecodeError.TheVariants as errors;
ghost use Rattle.netlink_core.specs.declared.header.NetlinkHeader.{NetlinkHeader};
ghost use Rattle.netlink_core.specs.Attribute.{padding_length};
ghost use Rattle.netlink_core.specs.Header.{IsMessageError, header_fields, header_values};
ghost use Rattle.netlink_core.specs.Header.{message_length_in};
ghost use Rattle.netlink_core.specs.Table.{FitFields};
ghost use Rattle.netlink_core.specs.Canonical.{HasCanonicalForm};
ghost use Rattle.netlink_core.specs.Codec.{HasOneResult};
ghost use Rattle.netlink_core.specs.NetlinkMessage.{NetlinkMessageModel};
ghost use Rattle.netlink_core.specs.NetlinkMessage.{HoldsOfInnerMessage};
ghost use Rattle.netlink_core.specs.NetlinkMessage.{finalized_header};
ghost use Rattle.netlink_core.specs.declared.message.NetlinkMessage.{NetlinkMessage};
ghost use Rattle.netlink_core.specs.declared.message.NetlinkPayload.TheVariants.{InnerMessage};
ghost use Rattle.netlink_core.specs.Errors.{map_ok};
ghost use Rattle.netlink_core.specs.Items.{Item, IsItemOf, AreItemsOf};
ghost use Rattle.netlink_core.specs.NetlinkMessageModel.{netlink_message_model};
ghost use Rattle.netlink_core.specs.Response.{ReplyValue, response_bytes, response_codec};
ghost use Rattle.netlink_packet_sock_diag.specs.contracts.codec.SockDiagMessageEmitable.TheImpl.{
  ghosts as owned_messages,
};
ghost use Rattle.netlink_packet_sock_diag.specs.contracts.codec.SockDiagViewEmitable.TheImpl.{
  ghosts as message_views,
};
ghost use Rattle.netlink_packet_sock_diag.specs.contracts.codec.SockDiagDestroyHasCodec.TheImpl.{
  ghosts as destroys,
};
ghost use Rattle.netlink_packet_sock_diag.specs.contracts.codec.SockDiagMessageHasCodec.TheImpl.{
  ghosts as messages,
};
ghost use Rattle.netlink_packet_sock_diag.specs.declared.message.SockDiagDestroy.{SockDiagDestroy};
ghost use Rattle.netlink_packet_sock_diag.specs.Dump.{AreSplitsOfSameBytes, DumpOfDatagrams};
ghost use Rattle.netlink_packet_sock_diag.specs.Dump.{DumpOfItems, DumpStatus, HaveSameItems};
ghost use Rattle.netlink_packet_sock_diag.specs.Dump.{IsCompleteSplit};
ghost use Rattle.netlink_packet_sock_diag.specs.Feed.{DumpProgress, NewReaderReaches};
ghost use Rattle.netlink_packet_sock_diag.specs.declared.dump.DumpState.TheVariants.{Reading};
ghost use Rattle.netlink_packet_sock_diag.specs.declared.dump.views.DumpViews.{DumpViews};
ghost use Rattle.netlink_packet_sock_diag.specs.PayloadViewModel.{PayloadView, payload_view_model};
ghost use Rattle.netlink_packet_sock_diag.specs.DumpWalk.{YieldsPayloadView, unread_views};
ghost use Rattle.sock_diag_replies.specs.UnixResponseSpec.{unix_response_spec};
ghost use Rattle.sock_diag_replies.specs.InetResponseSpec.{inet_response_spec};
ghost use Rattle.sock_diag_replies.specs.ViewModel.{view_model};
ghost use Rattle.netlink_packet_sock_diag.specs.MessageViewModel.{message_view_model};
ghost use Rattle.netlink_packet_sock_diag.specs.Lossy.{HasLossyEntry, as_lossy_entries};
ghost use Rattle.netlink_packet_sock_diag.specs.Message.{Message, kind_of, message_codec};
ghost use Rattle.netlink_packet_sock_diag.specs.Message.{netlink_message_codec};
ghost use Rattle.sock_diag_records.specs.ResponseKind.{MessageKind, inet_request, inet_response};
ghost use Rattle.sock_diag_records.specs.ResponseKind.{unix_request, unix_response};

use crate::constants::{SOCK_DESTROY, SOCK_DIAG_BY_FAMILY};
use crate::dump::{DumpViews as BorrowedPayloads, PayloadView as BorrowedPayload};
use crate::inet::{InetResponse, InetResponseView};
use crate::message::{SockDiagDestroy as DestroyRequest, SockDiagMessage, SockDiagView};
use crate::unix::{UnixResponse, UnixResponseView};
use netlink_core::{Emitable, NetlinkSerializable, Readable, laws};
use std::alloc::{AllocError, Global};

/// The length of a serialized reply, `buffer_len`, is a multiple of 4, for replies about UNIX
/// sockets and about IPv4 or IPv6 sockets, if each number of the reply fits its field.
pub fn reply_lengths_are_multiples_of_four()
    ensures unix { (v : ReplyValue unix_response_spec)
        → (response_codec unix_response_spec).is_in_range v
        → length (response_bytes unix_response_spec v) % 4 ≡ 0 }
    ensures inet { (v : ReplyValue inet_response_spec)
        → (response_codec inet_response_spec).is_in_range v
        → length (response_bytes inet_response_spec v) % 4 ≡ 0 }
{}

/// Of the four methods `is_inet_request`, `is_inet_response`, `is_unix_request` and
/// `is_unix_response`, exactly one returns `true` for a message. The contract states this of any
/// four tests, one for each kind, of which each is true if and only if the message has its kind.
pub fn one_kind()
    // `count_by tests kinds`: the number of kinds in the list whose test is true.
    ensures { (m : Message) (tests : MessageKind → Bool)
        → ((kind : MessageKind) → IsTrue (tests kind) ↔ (kind_of m ≡ kind))
        → count_by tests (inet_request ∷ inet_response ∷ unix_request ∷ unix_response ∷ []) ≡ 1 }
{}

/// Every parsed message is a reply.
pub fn parsed_messages_are_replies()
    ensures { (b : List ℕ) (t : ℕ) (m : Message) → message_codec.parses b t m
        → (kind_of m ≡ inet_response)
        ⊎ (kind_of m ≡ unix_response) }
{}

/// Returns the message types of a request to close sockets and of a message: 21 (`SOCK_DESTROY`)
/// and 20 (`SOCK_DIAG_BY_FAMILY`), whatever they contain.
pub fn serialized_message_types(destroy: &DestroyRequest, message: &SockDiagMessage) -> (u16, u16)
    ensures { result ≡ (SOCK_DESTROY, SOCK_DIAG_BY_FAMILY) }
{
    (
        NetlinkSerializable::message_type(destroy),
        NetlinkSerializable::message_type(message),
    )
}

/// Returns the constant `TAKES_MEMORY` of owned replies about UNIX sockets, of owned replies about
/// IPv4 and IPv6 sockets, and of messages. It is true for all three: their parsers may need to
/// allocate.
pub fn parsers_take_memory() -> (bool, bool, bool)
    ensures { result ≡ (true, true, true) }
{
    (
        UnixResponse::TAKES_MEMORY,
        InetResponse::TAKES_MEMORY,
        SockDiagMessage::TAKES_MEMORY,
    )
}

/// The parser of requests to close sockets rejects each writable request that was finalized, with
/// `UnknownMessageType(21)`: the request is serialized under the type 21, and messages are parsed
/// only under the type 20.
pub fn finalized_destroy_is_rejected()
    ensures { (header : NetlinkHeader) (inner : Message)
        → FitFields header_fields (header_values header)
        → netlink_message_codec.is_writable
        (record { header = header; payload = InnerMessage inner })
        → netlink_message_codec.rejects
        (netlink_message_codec.serialized (record {
          header = finalized_header message_codec.serialized destroys.serialized_type
              (record { header = header; payload = InnerMessage inner });
          payload = InnerMessage inner;
        })) tt
        (errors.UnknownMessageType SOCK_DESTROY) }
{}

/// The parser of requests to close sockets rejects what `serialize` writes for a
/// `NetlinkMessage<SockDiagDestroy>` after `finalize`, with any bytes after it. The error is
/// `UnknownMessageType(21)`. The message has an inner message and is writable, and each number of
/// its header fits its field. This is about a Rust value, `message`;
/// [`finalized_destroy_is_rejected`] is about models.
pub fn finalized_destroy_value_is_rejected()
    // `destroys.model destroy`: the message that a request contains.
    ensures { (message : NetlinkMessage SockDiagDestroy) (destroy : SockDiagDestroy) (rest : List ℕ)
        → message.payload ≡ InnerMessage destroy
        → FitFields header_fields (header_values message.header)
        → netlink_message_codec.is_writable (netlink_message_model destroys.model message)
        → netlink_message_codec.rejects
        (netlink_message_codec.serialized (netlink_message_model destroys.model (record message {
          header = finalized_header message_codec.serialized destroys.serialized_type
              (netlink_message_model destroys.model message);
        })) ++ rest) tt
        (errors.UnknownMessageType SOCK_DESTROY) }
{}

/// Each input starts with exactly one netlink message of sock_diag(7), or is rejected with exactly
/// one error.
pub fn one_message_or_error()
    ensures { (b : List ℕ) → IsBytes b → HasOneResult netlink_message_codec b tt }
{
    laws::one_message_or_error::<SockDiagMessage>();
}

/// Two accepted inputs have equal netlink messages if and only if they are equivalent.
pub fn equal_messages_iff_equivalent()
    ensures { (b c : List ℕ) (v w : NetlinkMessageModel Message) → IsBytes b → IsBytes c
        → netlink_message_codec.parses b tt v → netlink_message_codec.parses c tt w
        → ((v ≡ w) ↔ netlink_message_codec.equivalent tt b c) }
{
    laws::equal_messages_iff_equivalent::<SockDiagMessage>();
}

/// Two inputs with canonical forms have the same one if and only if they are equivalent.
/// An input has a canonical form if it is accepted and its value is writable. The canonical form of
/// a netlink message has its header unchanged.
pub fn same_message_bytes_iff_equivalent()
    ensures { (bytes others form other_form : List ℕ) → IsBytes bytes → IsBytes others
        → HasCanonicalForm netlink_message_codec tt bytes form
        → HasCanonicalForm netlink_message_codec tt others other_form
        → ((form ≡ other_form) ↔ netlink_message_codec.equivalent tt bytes others) }
{
    laws::same_message_bytes_iff_equivalent::<SockDiagMessage>();
}

/// A writable netlink message, each number of which fits its field, and whose header has the length
/// and type that `finalize` sets, round-trips if and only if it has no inner message, or an inner
/// message in normal form under the type 20.
pub fn finalized_message_round_trips()
    ensures { (v : NetlinkMessageModel Message) → netlink_message_codec.is_in_range v
        → netlink_message_codec.is_writable v
        → (v.header ≡ finalized_header message_codec.serialized messages.serialized_type v)
        → (netlink_message_codec.parses (netlink_message_codec.serialized v) tt v
        ↔ HoldsOfInnerMessage (message_codec.is_normal SOCK_DIAG_BY_FAMILY) v.payload) }
{
    laws::finalized_message_round_trips::<SockDiagMessage>();
}

/// Each list of items has exactly one dump, given the messages before: the messages after it and
/// its end.
pub fn items_have_one_dump()
    ensures some { (before : List Message) (items : List (Item Message))
        → (after : List Message) × (end : Result DumpStatus DecodeError)
        × DumpOfItems (before, items) (after, end) }
    ensures one { (before after other_after : List Message) (items : List (Item Message))
        (end other_end : Result DumpStatus DecodeError)
        → DumpOfItems (before, items) (after, end)
        → DumpOfItems (before, items) (other_after, other_end)
        → (after ≡ other_after) × (end ≡ other_end) }
{}

/// The dump over two concatenated lists of items is the dump over the first list if that list ends
/// the dump. Otherwise it is continued over the second list.
pub fn dump_over_concatenation()
    // Over `first` the dump has the messages `middle` and the end `middle_end`. `Ok (Reading,
    // None)`: no item of `first` ends the dump. Then `second` continues it from the messages
    // `middle`. Otherwise `second` changes nothing.
    ensures { (before after : List Message) (end : Result DumpStatus DecodeError)
        (first second : List (Item Message))
        → (DumpOfItems (before, first ++ second) (after, end)
        ↔ ((middle : List Message) × (middle_end : Result DumpStatus DecodeError)
        × DumpOfItems (before, first) (middle, middle_end)
        × (((middle_end ≡ Ok (Reading, None)) × DumpOfItems (middle, second) (after, end))
        ⊎ ((middle_end ≢ Ok (Reading, None)) × (after ≡ middle) × (end ≡ middle_end))))) }
{}

/// Two lists of datagrams with the same items have the same dump, from any messages before.
pub fn same_items_have_one_dump()
    ensures { (datagrams others : List (List ℕ)) → AllByRecursion IsBytes datagrams
        → HaveSameItems (IsItemOf message_codec) datagrams others
        → (before after : List Message) (end : Result DumpStatus DecodeError)
        → DumpOfDatagrams (IsItemOf message_codec) (before, datagrams) (after, end)
        → DumpOfDatagrams (IsItemOf message_codec) (before, others) (after, end) }
{
    // Proof only: a datagram has at most one list of items.
    laws::one_list_of_items::<SockDiagMessage>();
}

/// The dump does not depend on the split into datagrams. `datagrams` and `others` are two ways to
/// split the same bytes into datagrams, in each of which every datagram except the last consists of
/// complete messages with all their padding. From any messages before, if the one has a dump with
/// the messages `after` and the end `end`, the other has it too.
pub fn split_changes_no_dump()
    ensures { (datagrams others : List (List ℕ)) → AreSplitsOfSameBytes datagrams others
        → (before after : List Message) (end : Result DumpStatus DecodeError)
        → DumpOfDatagrams (IsItemOf message_codec) (before, datagrams) (after, end)
        → DumpOfDatagrams (IsItemOf message_codec) (before, others) (after, end) }
{
    // Proof only: each datagram has a list of items, and only one.
    laws::datagram_has_items::<SockDiagMessage>();
    laws::one_list_of_items::<SockDiagMessage>();
}

/// What the laws about splits assume, `IsCompleteSplit`, holds of messages with their padding, and
/// it holds of all bytes of such a split as one datagram.
///
/// - `first`: a message with its padding, of zeros, before datagrams of which this holds;
/// - `whole`: the split of all bytes of such datagrams into one datagram;
/// - `example`: two datagrams with one `NLMSG_DONE` of 17 bytes each, the first one with its three
///   bytes of padding, are such a split, and so is the one datagram with both messages.
pub fn padded_messages_are_complete()
    // `message_length_in message`: the length in its header. `padding_length n`: the number of
    // bytes of padding after `n` bytes. `IsCompleteSplit datagrams`: each datagram except the last
    // consists of complete messages with all their padding.
    ensures first { (message : List ℕ) (later : List (List ℕ)) → IsBytes message
        → 16 ≤ length message → message_length_in message ≡ length message → IsCompleteSplit later
        → IsCompleteSplit
        ((message ++ replicate (padding_length (length message)) 0) ∷ later) }
    ensures whole { (datagrams : List (List ℕ)) → IsCompleteSplit datagrams
        → AreSplitsOfSameBytes datagrams (concat datagrams ∷ []) }
    ensures example { (message : List ℕ)
        → message ≡ 17 ∷ 0 ∷ 0 ∷ 0 ∷ 3 ∷ replicate 12 0
        → AreSplitsOfSameBytes ((message ++ replicate 3 0) ∷ message ∷ [])
        (((message ++ replicate 3 0) ++ message) ∷ []) }
{}

/// Two ways to split the same bytes into datagrams, in each of which every datagram except the last
/// consists of complete messages with all their padding, have the same items, for a `DumpReader`
/// (`reader`) and for a `LossyDump` (`lossy`). So the laws about lists with the same items are
/// about different splits, too.
pub fn splits_have_same_items()
    // `HaveSameItems item_is datagrams others`: the items of all datagrams of a list, concatenated
    // in order, are the same for both lists.
    ensures reader { (datagrams others : List (List ℕ)) → AreSplitsOfSameBytes datagrams others
        → HaveSameItems (IsItemOf message_codec) datagrams others }
    // `HasLossyEntry message_codec`: the item of a message in a `LossyDump`.
    ensures lossy { (datagrams others : List (List ℕ)) → AreSplitsOfSameBytes datagrams others
        → HaveSameItems (HasLossyEntry message_codec) datagrams others }
{}

/// What the laws about feeding assume, `NewReaderReaches`, is met by any datagrams of bytes:
/// feeding them to a new reader leads to a progress, if no allocation fails.
///
/// - `reader`: of a `DumpReader`, which keeps messages;
/// - `lossy`: of a `LossyDump`, which keeps entries, each a message or a decode error.
pub fn datagrams_lead_to_a_progress()
    ensures reader { (datagrams : List (List ℕ)) → AllByRecursion IsBytes datagrams
        → (progress : DumpProgress Message)
        × NewReaderReaches (IsItemOf message_codec) datagrams progress }
    ensures lossy { (datagrams : List (List ℕ)) → AllByRecursion IsBytes datagrams
        → (progress : DumpProgress (Result Message DecodeError))
        × NewReaderReaches (HasLossyEntry message_codec) datagrams progress }
{}

/// The result of feeding a `DumpReader` does not depend on the split into datagrams. `datagrams`
/// and `others` are two ways to split the same bytes into datagrams, in each of which every
/// datagram except the last consists of complete messages with all their padding. Each is fed to a
/// new reader, and no allocation fails.
///
/// - `same`: both readers have the same progress: messages, state, error number, interruption.
/// - `whole`: feeding all bytes as one datagram leads to this progress, too.
pub fn split_changes_no_feed()
    ensures same { (datagrams others : List (List ℕ)) → AreSplitsOfSameBytes datagrams others
        → (progress other : DumpProgress Message)
        → NewReaderReaches (IsItemOf message_codec) datagrams progress
        → NewReaderReaches (IsItemOf message_codec) others other → progress ≡ other }
    ensures whole { (datagrams : List (List ℕ)) → IsCompleteSplit datagrams
        → (progress : DumpProgress Message)
        → NewReaderReaches (IsItemOf message_codec) datagrams progress
        → NewReaderReaches (IsItemOf message_codec) (concat datagrams ∷ []) progress }
{}

/// A new `DumpReader` has the same messages, state and error number after two lists of datagrams
/// with the same items, if no allocation fails. Whether the dump is interrupted may differ, because
/// an item does not contain the flags of its message.
pub fn same_items_change_no_feed()
    ensures { (datagrams others : List (List ℕ)) → AllByRecursion IsBytes datagrams
        → AllByRecursion IsBytes others
        → HaveSameItems (IsItemOf message_codec) datagrams others
        → (progress other : DumpProgress Message)
        → NewReaderReaches (IsItemOf message_codec) datagrams progress
        → NewReaderReaches (IsItemOf message_codec) others other
        → (progress.messages ≡ other.messages) × (progress.state ≡ other.state)
        × (progress.error_number ≡ other.error_number) }
{}

/// The result of feeding a `LossyDump` does not depend on the split into datagrams. `datagrams` and
/// `others` are two ways to split the same bytes into datagrams, in each of which every datagram
/// except the last consists of complete messages with all their padding. Each is fed to a new
/// reader, and no allocation fails.
///
/// - `same`: both readers have the same progress: entries, state, error number, interruption.
/// - `whole`: feeding all bytes as one datagram leads to this progress, too.
pub fn split_changes_no_lossy_feed()
    ensures same { (datagrams others : List (List ℕ)) → AreSplitsOfSameBytes datagrams others
        → (progress other : DumpProgress (Result Message DecodeError))
        → NewReaderReaches (HasLossyEntry message_codec) datagrams progress
        → NewReaderReaches (HasLossyEntry message_codec) others other
        → progress ≡ other }
    ensures whole { (datagrams : List (List ℕ)) → IsCompleteSplit datagrams
        → (progress : DumpProgress (Result Message DecodeError))
        → NewReaderReaches (HasLossyEntry message_codec) datagrams progress
        → NewReaderReaches (HasLossyEntry message_codec) (concat datagrams ∷ [])
        progress }
{}

/// A new `LossyDump` has the same entries, state and error number after two lists of datagrams with
/// the same items, if no allocation fails. Whether the dump is interrupted may differ, because an
/// item does not contain the flags of its message.
pub fn same_items_change_no_lossy_feed()
    ensures { (datagrams others : List (List ℕ)) → AllByRecursion IsBytes datagrams
        → AllByRecursion IsBytes others
        → HaveSameItems (HasLossyEntry message_codec) datagrams others
        → (progress other : DumpProgress (Result Message DecodeError))
        → NewReaderReaches (HasLossyEntry message_codec) datagrams progress
        → NewReaderReaches (HasLossyEntry message_codec) others other
        → (progress.messages ≡ other.messages) × (progress.state ≡ other.state)
        × (progress.error_number ≡ other.error_number) }
{}

/// If the dump over a datagram ends without an error, a `LossyDump` keeps the same messages as a
/// [`DumpReader`](crate::DumpReader) and ends in the same way. If a `LossyDump` ends with an error,
/// it is the error of bytes that are not a message.
pub fn lossy_dump_keeps_messages()
    // With `IsItemOf message_codec` it is the dump of a `DumpReader`, and with `HasLossyEntry
    // message_codec` that of a `LossyDump`. `Ok end`: no decode error ends it.
    ensures kept { (datagram : List ℕ) (before after : List Message) (end : DumpStatus)
        → DumpOfDatagrams (IsItemOf message_codec) (before, datagram ∷ []) (after, Ok end)
        → DumpOfDatagrams (HasLossyEntry message_codec)
        (as_lossy_entries before, datagram ∷ []) (as_lossy_entries after, Ok end) }
    ensures error { (datagram : List ℕ) (before after : List (Result Message DecodeError))
        (error : DecodeError)
        → DumpOfDatagrams (HasLossyEntry message_codec) (before, datagram ∷ []) (after, Err error)
        → (rest : List ℕ) × IsMessageError rest error }
{}

/// If the iterator `walk`, a `DumpViews`, yields exactly `given` until its end, these are the items
/// of the bytes that were left to it, in order: the payload or the error of each message, and last
/// the error of bytes that are not a message, if there are such bytes.
pub fn complete_views_are_the_datagram()
    ensures { (walk : DumpViews) (given : List (Result PayloadView DecodeError))
        → Drains YieldsPayloadView walk given
        → AreItemsOf (IsItemOf message_codec) (unread_views walk)
        (map (map_ok payload_view_model) given) }
{}

/// Returns the clone of a `DumpViews`, which has the same bytes left. Cloning does not fail.
pub fn copied_views<'a>(walk: &BorrowedPayloads<'a>) -> Result<BorrowedPayloads<'a>, AllocError>
    ensures ok { IsOk result }
    ensures same { IfOk result
        (λ copy. unread_views copy ≡ unread_views walk.now) }
{
    walk.clone()
}

/// Returns `left == right`: whether the models of two borrowed replies about UNIX sockets are
/// equal.
pub fn equal_unix_views(left: &UnixResponseView<'_>, right: &UnixResponseView<'_>) -> bool
    ensures { IsTrue result ↔ (view_model left.now ≡ view_model right.now) }
{
    left == right
}

/// Returns `left == right`: whether the models of two borrowed replies about IPv4 or IPv6 sockets
/// are equal.
pub fn equal_inet_views(left: &InetResponseView<'_>, right: &InetResponseView<'_>) -> bool
    ensures { IsTrue result ↔ (view_model left.now ≡ view_model right.now) }
{
    left == right
}

/// Returns `left == right`: whether the models of two borrowed payloads are equal.
#[tactic(auto, using(crate::specs::laws::EqualMessage::view_equal))]
pub fn equal_payload_views(left: &BorrowedPayload<'_>, right: &BorrowedPayload<'_>) -> bool
    ensures { IsTrue result ↔ (payload_view_model left.now ≡ payload_view_model right.now) }
{
    left == right
}

/// Returns `left == right`: whether the models of two borrowed messages are equal.
#[tactic(auto, using(crate::specs::laws::EqualMessage::view_equal))]
pub fn equal_message_views(left: &SockDiagView<'_>, right: &SockDiagView<'_>) -> bool
    ensures { IsTrue result ↔ (message_view_model left.now ≡ message_view_model right.now) }
{
    left == right
}

/// Returns the clone of a borrowed reply about a UNIX socket. It has the same model, and cloning
/// does not fail.
pub fn copied_unix_view<'a>(view: &UnixResponseView<'a>) -> Result<UnixResponseView<'a>, AllocError>
    ensures ok { IsOk result }
    ensures same { IfOk result (λ copy. view_model copy ≡ view_model view.now) }
{
    view.clone()
}

/// Returns the clone of a borrowed reply about an IPv4 or IPv6 socket. It has the same model, and
/// cloning does not fail.
pub fn copied_inet_view<'a>(view: &InetResponseView<'a>) -> Result<InetResponseView<'a>, AllocError>
    ensures ok { IsOk result }
    ensures same { IfOk result (λ copy. view_model copy ≡ view_model view.now) }
{
    view.clone()
}

/// Returns the clone of a borrowed message. It has the same model, and cloning does not fail.
pub fn copied_message_view<'a>(view: &SockDiagView<'a>) -> Result<SockDiagView<'a>, AllocError>
    ensures ok { IsOk result }
    ensures same { IfOk result (λ copy. message_view_model copy ≡ message_view_model view.now) }
{
    view.clone()
}

/// Returns the clone of a borrowed payload. It has the same model, and cloning does not fail.
pub fn copied_payload_view<'a>(
    view: &BorrowedPayload<'a>,
) -> Result<BorrowedPayload<'a>, AllocError>
    ensures ok { IsOk result }
    ensures same { IfOk result (λ copy. payload_view_model copy ≡ payload_view_model view.now) }
{
    view.clone()
}

/// Returns the owned reply about a UNIX socket. It serializes to the same bytes as the borrowed
/// reply, and both or neither are writable. Fails only if an allocation fails.
pub fn owned_unix_view(
    alloc: Global,
    view: &UnixResponseView<'_>,
) -> Result<UnixResponse, AllocError>
    ensures bytes { IfOk result (λ reply.
        ⟦<UnixResponse as Emitable>⟧.bytes reply
        ≡ response_bytes unix_response_spec (view_model view.now)) }
    ensures writable { IfOk result (λ reply.
        ⟦<UnixResponse as Emitable>⟧.writable reply
        ↔ (response_codec unix_response_spec).is_writable (view_model view.now)) }
{
    view.to_owned(alloc)
}

/// Returns the owned reply about an IPv4 or IPv6 socket. It serializes to the same bytes as the
/// borrowed reply, and both or neither are writable. Fails only if an allocation fails.
pub fn owned_inet_view(
    alloc: Global,
    view: &InetResponseView<'_>,
) -> Result<InetResponse, AllocError>
    ensures bytes { IfOk result (λ reply.
        ⟦<InetResponse as Emitable>⟧.bytes reply
        ≡ response_bytes inet_response_spec (view_model view.now)) }
    ensures writable { IfOk result (λ reply.
        ⟦<InetResponse as Emitable>⟧.writable reply
        ↔ (response_codec inet_response_spec).is_writable (view_model view.now)) }
{
    view.to_owned(alloc)
}

/// Returns the owned message. It serializes to the same bytes as the borrowed message, and both or
/// neither are writable. Fails only if an allocation fails.
pub fn owned_message_view(
    alloc: Global,
    view: &SockDiagView<'_>,
) -> Result<SockDiagMessage, AllocError>
    // `owned_messages` and `message_views`: the members of `Emitable` for the owned and for the
    // borrowed message.
    ensures bytes { IfOk result (λ message.
        owned_messages.bytes message ≡ message_views.bytes view.now) }
    ensures writable { IfOk result (λ message.
        owned_messages.writable message ↔ message_views.writable view.now) }
{
    view.to_owned(alloc)
}
