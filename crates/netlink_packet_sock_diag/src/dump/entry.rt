//! What the reader of a dump keeps of an inner message.

ghost use Rattle.std.specs.Prelude.{◌≡◌, ◌≢◌, ℕ, List, Result, MatchResult, IfOk, IfErr};
ghost use Rattle.std.specs.Prelude.{IsOk, ⊤};
ghost use Rattle.netlink_core.specs.Errors.{map_ok};
ghost use Rattle.netlink_core.specs.Items.{Item, IsItemOf};
ghost use Rattle.netlink_core.specs.declared.error.DecodeError.{DecodeError};
ghost use Rattle.netlink_core.specs.declared.error.DecodeError.TheVariants.{Memory};
ghost use Rattle.netlink_packet_sock_diag.specs.private.DumpEntry.{DeterminesItems};
ghost use Rattle.netlink_packet_sock_diag.specs.laws.DumpEntry.{entries_determine_items};
ghost use Rattle.netlink_packet_sock_diag.specs.laws.DumpEntry.{messages_determine_items};
ghost use Rattle.netlink_packet_sock_diag.specs.Lossy.{HasLossyEntry};
ghost use Rattle.netlink_packet_sock_diag.specs.Message.{Message, message_codec};
ghost use Rattle.netlink_packet_sock_diag.specs.laws.Message.{message_laws};
ghost use Rattle.netlink_packet_sock_diag.specs.MessageModel.{message_model};

use crate::message::SockDiagMessage;
use netlink_core::{DecodeError, NetlinkDeserializable, NetlinkHeader};
use smallvec::SmallVec;
use std::alloc::Global;
use std::default::MadeWith;
use std::mem::forget;

/// What the reader of a dump keeps of an inner message.
pub(crate) trait DumpEntry: Drop + Sized {
    // `Entry` is the model of what is kept. `parses payload t entry`: the payload under the message
    // type `t` is kept as `entry`. `rejects payload t e`: the payload ends the dump with the error
    // `e`. `item_is message item`: the item of the datagram that a message is.
    // `needs_memory entry`: keeping the entry may need memory. `model`: the entry that a Rust value
    // represents.
    ghost Entry: { Type 0 };

    ghost parses: { List ℕ → ℕ → Entry → Type 0 };

    ghost rejects: { List ℕ → ℕ → DecodeError → Type 0 };

    ghost item_is: { List ℕ → Item Entry → Type 0 };

    ghost needs_memory: { Entry → Type 0 };

    ghost model: { Self → Entry };

    /// Parses the payload under the header's message type. Returns what is kept of it, or the error
    /// that ends the dump.
    fn take(alloc: Global, header: &NetlinkHeader, payload: &[u8]) -> Result<Self, DecodeError>
        ensures value { IfOk result (λ kept.
            Self.parses payload.now header.now.message_type (Self.model kept)) }
        ensures error { IfErr result (λ error. error ≢ Memory
            → Self.rejects payload.now header.now.message_type error) }
        // `Memory` is returned only for a payload whose entry may need memory.
        ensures memory_needed { IfErr result (λ error. error ≡ Memory → (entry : Self.Entry)
            × Self.parses payload.now header.now.message_type entry × Self.needs_memory entry) };

    /// Drops what was kept of a message.
    fn free(self);

    // The item of a message follows from what its payload is kept as, or from the error of the
    // payload.
    ghost laws: { DeterminesItems parses rejects item_is };
}

// Drops a message. A reply has 300 to 2,000 bytes of slots for attributes. They were written when
// the message was read, and in a long dump they have left the processor's cache since. So slots
// that hold no attribute are not read again: they own no memory.
fn free_message(message: SockDiagMessage) {
    // If the attributes are stored inline, `drop_inline` has dropped them. The rest of the reply
    // owns no memory, so only its box is freed. Otherwise the whole reply is dropped. A request
    // owns no memory.
    match message {
        SockDiagMessage::InetResponse(mut reply) => {
            if drop_inline(&mut reply.nlas) {
                forget(Box::into_inner(reply));
            } else {
                drop(reply);
            }
        }
        SockDiagMessage::UnixResponse(mut reply) => {
            if drop_inline(&mut reply.nlas) {
                forget(Box::into_inner(reply));
            } else {
                drop(reply);
            }
        }
        SockDiagMessage::InetRequest(_) | SockDiagMessage::UnixRequest(_) => {}
    }
}

// Drops the attributes of a list if they are stored inline, and returns whether they are.
fn drop_inline<T: MadeWith<Global> + Drop>(nlas: &mut SmallVec<T, 8>) -> bool {
    let is_inline = !nlas.spilled();
    if is_inline {
        nlas.clear();
    }
    is_inline
}

/// Keeps the message. An invalid message ends the dump.
impl DumpEntry for SockDiagMessage {
    ghost Entry = { Message };

    ghost parses = { message_codec.parses };

    ghost rejects = { message_codec.rejects };

    ghost item_is = { IsItemOf message_codec };

    ghost needs_memory = { λ _. ⊤ };

    ghost model = { message_model };

    fn take(alloc: Global, header: &NetlinkHeader, payload: &[u8]) -> Result<Self, DecodeError> {
        SockDiagMessage::deserialize(alloc, header, payload)
    }

    fn free(self) {
        free_message(self);
    }

    ghost laws = { messages_determine_items message_codec message_laws };
}

/// Keeps the message, or its decode error. `take` fails only if an allocation for a valid message
/// fails.
impl DumpEntry for Result<SockDiagMessage, DecodeError> {
    ghost Entry = { Result Message DecodeError };

    ghost parses = { λ payload t entry. MatchResult entry (message_codec.parses payload t)
        (message_codec.rejects payload t) };

    // No payload ends the dump: an invalid one is kept as its error.
    ghost rejects = { λ _ _ _. ⊥ };

    ghost item_is = { HasLossyEntry message_codec };

    ghost needs_memory = { λ entry. IsOk entry };

    ghost model = { map_ok message_model };

    fn take(alloc: Global, header: &NetlinkHeader, payload: &[u8]) -> Result<Self, DecodeError> {
        match SockDiagMessage::deserialize(alloc, header, payload) {
            // Any other error is kept as the entry.
            Err(DecodeError::Memory) => Err(DecodeError::Memory),
            answer => Ok(answer),
        }
    }

    fn free(self) {
        if let Ok(message) = self {
            free_message(message);
        }
    }

    ghost laws = { entries_determine_items message_codec message_laws };
}
