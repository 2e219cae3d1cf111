//! Iterating over the messages in a datagram of a dump. The messages are borrowed.

ghost use Rattle.sock_diag_examples.specs.Readme.{IsCounted};

use netlink_core::DecodeError;
use netlink_packet_sock_diag::constants::TCP_LISTEN;
use netlink_packet_sock_diag::{DumpViews, PayloadView, SockDiagView};

/// Returns the number of replies about listening UNIX sockets in a datagram, up to the message that
/// ends the dump, if there is one. Returns `None` if the kernel reports that its dump failed or
/// that data was lost: that message is `NLMSG_ERROR`, `NLMSG_OVERRUN`, or `NLMSG_DONE` without an
/// error number 0. Returns the first decode error before that message.
pub fn listening(datagram: &[u8]) -> Result<Option<usize>, DecodeError>
    ensures { IsCounted datagram.now result }
{
    let mut count = 0usize;
    for item in DumpViews::new(datagram) {
        match item? {
            PayloadView::InnerMessage(SockDiagView::UnixResponse(reply)) => {
                if reply.header().state == TCP_LISTEN {
                    count += 1;
                }
            }
            PayloadView::InnerMessage(SockDiagView::InetResponse(_)) => {}
            PayloadView::Noop => {}
            // `NLMSG_DONE` starts with an error number: 0 for success, else `-errno`.
            PayloadView::Done(status) => return Ok(status.starts_with(&[0; 4]).then_some(count)),
            PayloadView::Error(_) => return Ok(None),
            PayloadView::Overrun(_) => return Ok(None),
        }
    }
    Ok(Some(count))
}
