//! Where the first error of a reply is.

ghost use Rattle.std.specs.Prelude.{◌≤◌, length};
ghost use Rattle.sockdiag_c.specs.ErrorOffsets.{IsCheckedOffset, IsErrorOffset};
ghost use Rattle.sockdiag_c.specs.ErrorOffsets.{IsFirstErrorBefore};
ghost use Rattle.sockdiag_c.specs.ErrorOffsets.{IsMessageOffset, IsOffsetIn, IsReplyOffset};

use crate::details::ReplyDetails;
use crate::error_details::EXPLAIN_MESSAGE;
use crate::inet_details::InetDetails;
use crate::netlink_details::NetlinkDetails;
use crate::packet_details::PacketDetails;
use crate::unix_details::UnixDetails;
use crate::xdp_details::XdpDetails;
use netlink_core::{NlasIterator, padded};
use netlink_packet_sock_diag::constants::{AF_INET, AF_INET6, AF_UNIX};
use netlink_packet_sock_diag::{AF_NETLINK, AF_PACKET};
use sock_diag_families::vsock::{AF_VSOCK, VsockResponseHeader};
use sock_diag_families::xdp::AF_XDP;

/// Returns the offset of the first error of bytes that have one. `what` says what they are.
pub(crate) fn error_offset(what: u32, bytes: &[u8]) -> usize
    ensures { IsErrorOffset what bytes.now result }
{
    match what {
        EXPLAIN_MESSAGE => message_offset(bytes),
        _ if what < EXPLAIN_MESSAGE => reply_offset(what as u8, bytes),
        _ => 0,
    }
}

// Returns the offset of the first error of the payload of a message.
fn message_offset(payload: &[u8]) -> usize
    ensures { IsMessageOffset payload.now result }
{
    match payload.first() {
        Some(family) => message_offset_of(*family, payload),
        None => 0,
    }
}

// Returns the offset of the first error of the payload of a message about a socket of this family.
fn message_offset_of(family: u8, payload: &[u8]) -> usize
    ensures { IsCheckedOffset family payload.now result }
{
    match family {
        AF_UNIX => offset_in::<UnixDetails<'_>>(payload),
        AF_INET | AF_INET6 => offset_in::<InetDetails<'_>>(payload),
        _ => 0,
    }
}

// Returns the offset of the first error of a reply about a socket of this family.
fn reply_offset(family: u8, payload: &[u8]) -> usize
    ensures { IsReplyOffset family payload.now result }
{
    match family {
        AF_NETLINK => offset_in::<NetlinkDetails<'_>>(payload),
        AF_PACKET => offset_in::<PacketDetails<'_>>(payload),
        AF_VSOCK => offset_in::<VsockResponseHeader>(payload),
        AF_XDP => offset_in::<XdpDetails>(payload),
        _ => message_offset_of(family, payload),
    }
}

// Returns the offset of the first error of a reply that is read into the details `T`.
fn offset_in<'a, T: ReplyDetails<'a>>(payload: &'a [u8]) -> usize
    ensures { IsOffsetIn T.family payload.entry.now result }
{
    match T::parse_header(payload) {
        Ok((_, attributes)) => payload.len() - left_at_error::<T>(attributes),
        Err(_) => 0,
    }
}

// Returns how many bytes are left at the first item with an error: an attribute that is rejected,
// or bytes that are no attribute. Returns 0 if there is none.
fn left_at_error<'a, T: ReplyDetails<'a>>(bytes: &'a [u8]) -> usize
    ensures within { result ≤ length bytes.entry.now }
    ensures first { IsFirstErrorBefore T.family bytes.entry.now result }
{
    let mut left = bytes.len();
    for item in NlasIterator::new(bytes) {
        match item {
            Ok(nla) => match T::read(&nla) {
                Ok(_) => left = left.saturating_sub(padded(usize::from(nla.length()))),
                Err(_) => return left,
            },
            Err(_) => return left,
        }
    }
    left
}
