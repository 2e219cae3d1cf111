//! Checks of borrowed replies.

ghost use Rattle.sockdiag_c.specs.Answers.{IsCheckResult};
ghost use Rattle.sockdiag_c.specs.Headers.{inet_check, message_check, unix_check};

use crate::headers::{INET, InetHeader, Reply, UNIX, UnixHeader, inet_header};
use crate::results::{OK, store_parsed};
use netlink_packet_sock_diag::SockDiagView;
use netlink_packet_sock_diag::inet::InetResponseView;
use netlink_packet_sock_diag::unix::UnixResponseView;

/// Checks a reply about a UNIX socket, as `sockdiag_unix_get_details` does, and stores its header
/// only.
#[unsafe(no_mangle)]
pub extern "C" fn sockdiag_check_unix_reply(payload: &[u8], header: &mut UnixHeader) -> u32
    ensures { IsCheckResult (unix_check payload.now)
        record { old = header.old; new = header.new; returned = result } }
{
    let parsed = UnixResponseView::parse(payload);
    store_parsed(parsed.map(|view| UnixHeader::from(view.header())), header)
}

/// Checks a reply about an IPv4 or IPv6 socket, as `sockdiag_inet_get_details` does, and stores its
/// header only.
#[unsafe(no_mangle)]
pub extern "C" fn sockdiag_check_inet_reply(payload: &[u8], header: &mut InetHeader) -> u32
    ensures { IsCheckResult (inet_check payload.now)
        record { old = header.old; new = header.new; returned = result } }
{
    match InetResponseView::parse(payload) {
        Ok(view) => {
            *header = inet_header(payload, view.header());
            OK
        }
        Err(error) => u32::from(error.number()),
    }
}

/// Checks the payload of a message of this type, and stores the kind and the header of the reply.
/// The header of the other kind is unchanged. A family other than `AF_UNIX`, `AF_INET` and
/// `AF_INET6` is `SOCKDIAG_UNKNOWN_FAMILY`.
#[unsafe(no_mangle)]
pub extern "C" fn sockdiag_check_message(
    payload: &[u8],
    message_type: u16,
    reply: &mut Reply,
) -> u32
    ensures { IsCheckResult (message_check payload.now message_type reply.old)
        record { old = reply.old; new = reply.new; returned = result } }
{
    match SockDiagView::parse(payload, message_type) {
        Ok(SockDiagView::UnixResponse(view)) => {
            reply.kind = UNIX;
            reply.unix_header = UnixHeader::from(view.header());
            OK
        }
        Ok(SockDiagView::InetResponse(view)) => {
            reply.kind = INET;
            reply.inet_header = inet_header(payload, view.header());
            OK
        }
        Err(error) => u32::from(error.number()),
    }
}
