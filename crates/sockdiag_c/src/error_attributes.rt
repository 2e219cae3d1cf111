//! The attributes of an extended acknowledgement.

ghost use Rattle.std.specs.Prelude.{◌≡◌, ◌≢◌, ◌-◌, IsSome, MatchOption, length};
ghost use Rattle.netlink_core.specs.NetlinkMessage.{leading_error_number};
ghost use Rattle.sock_diag_extras.specs.Acknowledgement.{HasCompleteRequest};
ghost use Rattle.sock_diag_extras.specs.Acknowledgement.{ack_attribute_bytes_from};
ghost use Rattle.sock_diag_extras.specs.Acknowledgement.{error_attribute_bytes};
ghost use Rattle.sock_diag_extras.specs.Models.{ack_attributes};
ghost use Rattle.netlink_core.specs.Errors.{error_code};
ghost use Rattle.sockdiag_c.specs.Answers.{SetsTargetIf, wrong_length};
ghost use Rattle.sockdiag_c.specs.Walks.{bytes_after_cursor};

use crate::results::{OK, wrong_length};
use crate::walks::{Cursor, ERROR_NUMBER_LEN};
use netlink_core::{DecodeError, NLMSG_DONE, NLMSG_ERROR};
use sock_diag_extras::AckView;

/// Sets the cursor to the attributes `NLMSGERR_ATTR_..` of an extended acknowledgement, which say
/// more about an error (netlink(7)). The bytes are the payload of an `NLMSG_ERROR` or `NLMSG_DONE`,
/// with the message type and the flags of its header. Iterate over the attributes by
/// `sockdiag_next_attribute`, with the same bytes and this cursor. The kernel sends them to a
/// socket with the option `NETLINK_EXT_ACK`.
///
/// If the flags lack `NLM_F_ACK_TLVS`, there are no attributes, and no bytes are left after the
/// cursor. The errors, after which the cursor is unchanged, are:
/// - `SOCKDIAG_UNKNOWN_MESSAGE_TYPE`: the message has another type;
/// - `SOCKDIAG_WRONG_LENGTH`: an `NLMSG_DONE` has fewer than 4 bytes; or an `NLMSG_ERROR` has fewer
///   than 20 bytes, or does not contain the whole request although it should, or the length field
///   of this request is below 16.
#[unsafe(no_mangle)]
pub extern "C" fn sockdiag_find_error_attributes(
    payload: &[u8],
    message_type: u16,
    flags: u16,
    cursor: &mut Cursor,
) -> u32
    ensures error { message_type ≡ NLMSG_ERROR → SetsTargetIf (HasCompleteRequest flags payload.now)
        (λ target. bytes_after_cursor payload.now target ≡ error_attribute_bytes flags payload.now)
        record { old = cursor.old; new = cursor.new; returned = result } }
    ensures done { message_type ≡ NLMSG_DONE
        → SetsTargetIf (IsSome (leading_error_number payload.now))
        (λ target. bytes_after_cursor payload.now target
        ≡ ack_attribute_bytes_from flags 4 payload.now)
        record { old = cursor.old; new = cursor.new; returned = result } }
    ensures other { message_type ≢ NLMSG_ERROR → message_type ≢ NLMSG_DONE
        → (result ≡ error_code (DecodeError.UnknownMessageType message_type))
        × (cursor.new ≡ cursor.old) }
{
    match message_type {
        NLMSG_ERROR => point_at(AckView::of_error(flags, payload), payload, cursor),
        NLMSG_DONE => point_at(AckView::of_done(flags, payload), payload, cursor),
        message_type => u32::from(DecodeError::UnknownMessageType { message_type }.number()),
    }
}

// Sets the cursor to the attributes, which end the payload of an acknowledgement. Returns 0; or the
// code of `WrongLength` if there is no acknowledgement, and then the cursor is unchanged.
fn point_at(found: Option<AckView<'_>>, payload: &[u8], cursor: &mut Cursor) -> u32
    ensures { MatchOption found.entry ((result ≡ wrong_length) × (cursor.new ≡ cursor.old))
        (λ ack. (result ≡ 0)
        × (cursor.new.offset ≡ length payload.now - length (ack_attributes ack))) }
{
    match found {
        Some(ack) => {
            cursor.offset = payload.len().saturating_sub(ack.attribute_bytes().len());
            OK
        }
        None => u32::from(wrong_length(payload.len(), ERROR_NUMBER_LEN).number()),
    }
}
