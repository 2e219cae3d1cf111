//! Tests of the header of a message: whether the message answers a request, ends the answer, or
//! reports that the dump was interrupted.

ghost use Rattle.std.specs.Prelude.{◌≡◌, ◌≢◌, ◌⊎◌, bit_and};
ghost use Rattle.sockdiag_c.specs.Answers.{IsOneIf};

use crate::walks::MessageRange;
use netlink_core::{NLM_F_DUMP_INTR, NLMSG_DONE, NLMSG_ERROR};

/// Returns 1 if the message has this sequence number and this port id, else 0. Pass the sequence
/// number of a request, and the port id of the socket that sent it, which getsockname(2) returns in
/// `nl_pid`: the result is 1 if the message answers the request. Skip any other message. It may be
/// a late answer to an earlier request. The message does not show who sent it: connect the socket
/// to port id 0 by connect(2), and only the kernel can send to it.
#[unsafe(no_mangle)]
pub extern "C" fn sockdiag_is_answer(
    message: &MessageRange,
    sequence_number: u32,
    port_number: u32,
) -> u32
    ensures { IsOneIf ((message.now.sequence_number ≡ sequence_number)
        × (message.now.port_number ≡ port_number)) result }
{
    u32::from(message.sequence_number == sequence_number && message.port_number == port_number)
}

/// Returns 1 if the message reports that the dump is inconsistent (`NLM_F_DUMP_INTR`), else 0. Test
/// each message of a dump, also its end. If one has the flag, read up to the end, and send the
/// request again. 0 does not mean that the list is complete: Linux 6.18 did not set the flag in any
/// message of dumps during which sockets opened and closed, and sockets were missing or listed
/// twice. To miss fewer sockets, request several dumps, and collect the sockets by their cookies.
/// No number of dumps gives a complete list for certain.
#[unsafe(no_mangle)]
pub extern "C" fn sockdiag_is_interrupted(message: &MessageRange) -> u32
    ensures { IsOneIf (bit_and message.now.flags NLM_F_DUMP_INTR ≢ 0) result }
{
    u32::from(message.flags & NLM_F_DUMP_INTR != 0)
}

/// Returns 1 if the message is an `NLMSG_DONE` or an `NLMSG_ERROR`, else 0. After such a message no
/// more messages of the answer follow. The number that `sockdiag_get_error_number` stores is 0 if
/// it reports success. An `NLMSG_OVERRUN` does not end the answer, but data was lost.
#[unsafe(no_mangle)]
pub extern "C" fn sockdiag_ends_answer(message: &MessageRange) -> u32
    ensures { IsOneIf ((message.now.message_type ≡ NLMSG_DONE)
        ⊎ (message.now.message_type ≡ NLMSG_ERROR)) result }
{
    u32::from(matches!(message.message_type, NLMSG_DONE | NLMSG_ERROR))
}
