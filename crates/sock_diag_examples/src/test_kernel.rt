//! A kernel for tests: it answers a request for UNIX sockets with the caller's replies, as one
//! datagram.

ghost use Rattle.std.specs.Prelude.{◌≡◌, ◌↔◌, ◌++◌, ℕ, List, map, IsTrue, OnOk, IfOk, IfErr};
ghost use Rattle.std.specs.List.{AllByRecursion, flat_map};
ghost use Rattle.netlink_core.specs.NetlinkMessageModel.{owned_payload_model};
ghost use Rattle.netlink_packet_sock_diag.specs.MessageModel.{message_model};
ghost use Rattle.sock_diag_examples.specs.UnixResponseModel.{unix_response_model};
ghost use Rattle.netlink_core.specs.Response.{ReplyValue};
ghost use Rattle.sock_diag_replies.specs.UnixResponseSpec.{unix_response_spec};
ghost use Rattle.sock_diag_examples.specs.TestKernel.{IsWritableReply, AnswerFails};
ghost use Rattle.sock_diag_examples.specs.TestKernel.{IsWritableMessage, IsAnswer, IsCompleteDump};
ghost use Rattle.sock_diag_examples.specs.TestKernel.{IsWritableReplyMessage};
ghost use Rattle.sock_diag_examples.specs.TestKernel.{numbered_message_bytes, reply_message_bytes};
ghost use Rattle.sock_diag_examples.specs.private.TestKernel.{FailsUnless};
ghost use Rattle.sock_diag_examples.specs.declared.test_kernel.AnswerError.TheVariants as errors;

use netlink_core::{
    DecodeError, NETLINK_HEADER_LEN, NLM_F_MULTI, NetlinkHeader, NetlinkMessage, NetlinkPayload,
    Parseable,
};
use netlink_packet_sock_diag::constants::SOCK_DIAG_BY_FAMILY;
use netlink_packet_sock_diag::unix::{UnixRequest, UnixResponse};
use netlink_packet_sock_diag::{SockDiagMessage, laws};
use std::alloc::{AllocError, AllocFailed, Global};

/// Error of [`answer`].
#[derive(Debug, Drop, PartialEq, Eq)]
pub enum AnswerError {
    /// The request is invalid.
    Request(DecodeError),
    /// A reply is too long to be serialized.
    Unwritable,
    /// Memory ran out.
    Memory,
}

impl From<DecodeError> for AnswerError {
    ghost from_gives = { λ error e. e ≡ errors.Request error };

    fn from(error: DecodeError) -> AnswerError {
        AnswerError::Request(error)
    }
}

impl From<AllocError> for AnswerError {
    ghost from_gives = { λ _ e. e ≡ errors.Memory };

    fn from(_e: AllocError) -> AnswerError {
        AnswerError::Memory
    }
}

impl<T: Drop> From<AllocFailed<T>> for AnswerError {
    ghost from_gives = { λ _ e. e ≡ errors.Memory };

    fn from(_e: AllocFailed<T>) -> AnswerError {
        AnswerError::Memory
    }
}

/// Returns `v == w`, which is true if and only if both errors are equal.
pub fn equal_answer_errors(v: &AnswerError, w: &AnswerError) -> bool
    ensures { IsTrue result ↔ (v.now ≡ w.now) }
{
    v == w
}

/// Returns the answer to a request for UNIX sockets: each reply in its own message, and the message
/// that ends a dump, all with the request's sequence number. The request is parsed, but does not
/// select among the replies. Bytes after it are ignored.
///
/// - `Request(e)`: the request does not start with a netlink message, its type is not
///   `SOCK_DIAG_BY_FAMILY` (`UnknownMessageType`), or its payload has fewer than 24 bytes
///   (`BufferTooSmall`). The address family in the payload is not checked, so a request for other
///   sockets is answered too.
/// - `Unwritable`: the request is valid, and the message of a reply is not writable.
/// - `Memory`: the request is valid, and an allocation failed.
pub fn answer(
    alloc: Global,
    request: &[u8],
    replies: &[UnixResponse],
) -> Result<Vec<u8>, AnswerError>
    ensures answer { IfOk result (λ datagram.
        IsAnswer request.now (map unix_response_model replies.now)
        datagram.items) }
    ensures refused { IfErr result (AnswerFails request.now
        (map unix_response_model replies.now)) }
{
    let header = NetlinkHeader::from_prefix(request)?;
    if header.message_type != SOCK_DIAG_BY_FAMILY {
        return Err(AnswerError::Request(DecodeError::UnknownMessageType {
            message_type: header.message_type,
        }));
    }
    let payload = &request[NETLINK_HEADER_LEN..header.length as usize];
    // The request is only checked.
    let _asked = UnixRequest::parse(alloc, payload)?;
    let mut datagram = Vec::new(alloc);
    push_replies(alloc, &mut datagram, header.sequence_number, replies)?;
    // Four zero bytes are the error number 0: the dump is complete.
    let end = NetlinkPayload::Done(vec![in alloc; 0; 4]?);
    push_message(alloc, &mut datagram, header.sequence_number, end)?;
    Ok(datagram)
}

/// The dump over an answer is complete and has exactly the caller's replies, if each is in range
/// and in normal form, and its message is writable. Proof only: the contract states the property.
pub fn answer_is_a_complete_dump()
    ensures { (request : List ℕ) (replies : List (ReplyValue unix_response_spec))
        (datagram : List ℕ)
        → IsAnswer request replies datagram
        → AllByRecursion IsWritableReply replies → IsCompleteDump datagram replies }
{
    // Proof only: the properties from which this one follows.
    netlink_core::laws::items_of_concatenation::<SockDiagMessage>();
    laws::finalized_message_round_trips();
    laws::reply_lengths_are_multiples_of_four();
}

// Appends a message with this sequence number to `datagram` for each reply. Fails if one of these
// messages is not writable, or an allocation fails.
fn push_replies(
    alloc: Global,
    datagram: &mut Vec<u8>,
    sequence_number: u32,
    replies: &[UnixResponse],
) -> Result<(), AnswerError>
    ensures added { OnOk result (datagram.new.items ≡ datagram.old.items
        ++ flat_map (reply_message_bytes sequence_number) (map unix_response_model replies.now)) }
    ensures err { IfErr result
        (FailsUnless (AllByRecursion IsWritableReplyMessage
        (map unix_response_model replies.now))) }
{
    for reply in replies {
        push_reply(alloc, datagram, sequence_number, reply)?;
    }
    Ok(())
}

// Appends the message of a reply, with this sequence number, to `datagram`. Fails if this message
// is not writable, or an allocation fails.
fn push_reply(
    alloc: Global,
    datagram: &mut Vec<u8>,
    sequence_number: u32,
    reply: &UnixResponse,
) -> Result<(), AnswerError>
    ensures added { OnOk result (datagram.new.items ≡ datagram.old.items
        ++ reply_message_bytes sequence_number (unix_response_model reply.now)) }
    ensures err { IfErr result (FailsUnless
        (IsWritableReplyMessage (unix_response_model reply.now))) }
{
    let message = SockDiagMessage::UnixResponse(Box::new(
        alloc,
        UnixResponse::clone(reply, alloc)?,
    )?);
    push_message(
        alloc,
        datagram,
        sequence_number,
        NetlinkPayload::InnerMessage(message),
    )
}

// Appends a message with this payload and this sequence number to `datagram`. Its header has its
// length and its type. Fails if the message is not writable, or an allocation fails.
#[tactic(auto, unfolding(crate::specs::TestKernel::numbered_message_bytes))]
fn push_message(
    alloc: Global,
    datagram: &mut Vec<u8>,
    sequence_number: u32,
    payload: NetlinkPayload<SockDiagMessage>,
) -> Result<(), AnswerError>
    ensures added { OnOk result (datagram.new.items ≡ datagram.old.items
        ++ numbered_message_bytes sequence_number (owned_payload_model message_model payload)) }
    ensures err { IfErr result (FailsUnless
        (IsWritableMessage (owned_payload_model message_model payload))) }
{
    let header = NetlinkHeader {
        flags: NLM_F_MULTI,
        sequence_number,
        ..NetlinkHeader::default()
    };
    let mut message = NetlinkMessage::new(header, payload);
    if !message.is_writable() {
        return Err(AnswerError::Unwritable);
    }
    message.finalize();
    let mut bytes = vec![in alloc; 0; message.buffer_len()]?;
    message.serialize(&mut bytes);
    Ok(datagram.extend_from_slice(&bytes)?)
}
