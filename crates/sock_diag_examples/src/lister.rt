//! A listing of the messages in a datagram of a dump.

ghost use Rattle.std.specs.Prelude.{◌≡◌, ◌↔◌, List, Result, Some, IfOk, IsTrue, map};
ghost use Rattle.std.specs.Iterator.{Drains};
ghost use Rattle.std.specs.List.{filter_map};
ghost use Rattle.netlink_core.specs.declared.error.DecodeError.{DecodeError as DecodeErrorModel};
ghost use Rattle.netlink_packet_sock_diag.specs.DumpWalk.{YieldsPayloadView};
ghost use Rattle.netlink_packet_sock_diag.specs.PayloadViewModel.{PayloadView, payload_view_model};
ghost use Rattle.netlink_packet_sock_diag.specs.MessageViewModel.{message_view_model};
ghost use Rattle.netlink_core.specs.Errors.{map_ok};
ghost use Rattle.sock_diag_examples.specs.Lister.{AreLinesOf, line_of, socket_of};

use netlink_core::DecodeError;
use netlink_packet_sock_diag::{DumpViews, PayloadView, SockDiagView, laws};
use std::alloc::{AllocError, Global};

/// One line of a listing.
#[derive(Debug, Drop, PartialEq, Eq)]
pub enum Line {
    /// A socket.
    Socket {
        /// Its state, one of `TCP_..`.
        state: u8,
        /// Its inode.
        inode: u32,
    },
    /// The dump ends.
    End,
    /// The kernel reports an error, or that data was lost.
    Failure,
    /// A message is invalid, or the remaining bytes are not a message.
    Refused(DecodeError),
}

/// Returns the lines of a datagram, in order: one for each message except `NLMSG_NOOP`, and one for
/// remaining bytes that are not a message. Fails only if an allocation fails.
pub fn list(alloc: Global, datagram: &[u8]) -> Result<Vec<Line>, AllocError>
    ensures { IfOk result (λ lines. AreLinesOf datagram.now lines.items) }
{
    // Proof only: what the iterator yields are the items of the datagram.
    laws::complete_views_are_the_datagram();
    lines_of(alloc, DumpViews::new(datagram))
}

/// Returns `v == w`, which is true if and only if both lines are equal.
pub fn equal_lines(v: &Line, w: &Line) -> bool
    ensures { IsTrue result ↔ (v.now ≡ w.now) }
{
    v == w
}

// Returns the lines of the items that the iterator `views` yields, in order. Fails only if an
// allocation fails.
fn lines_of(alloc: Global, views: DumpViews<'_>) -> Result<Vec<Line>, AllocError>
    // `items` is what the iterator yields.
    ensures { IfOk result (λ lines. (items : List (Result PayloadView DecodeErrorModel))
        × Drains YieldsPayloadView views.entry items
        × (lines.items ≡ filter_map line_of (map (map_ok payload_view_model) items))) }
{
    let mut lines = Vec::new(alloc);
    for item in views {
        if let Some(line) = line_for(item) {
            lines.push(line)?;
        }
    }
    Ok(lines)
}

// Returns the line of an item, or `None` for `NLMSG_NOOP`.
fn line_for(item: Result<PayloadView<'_>, DecodeError>) -> Option<Line>
    ensures { result ≡ line_of (map_ok payload_view_model item.entry) }
{
    match item {
        Ok(PayloadView::InnerMessage(message)) => Some(socket_line(&message)),
        Ok(PayloadView::Done(_)) => Some(Line::End),
        Ok(PayloadView::Error(_) | PayloadView::Overrun(_)) => Some(Line::Failure),
        Ok(PayloadView::Noop) => None,
        Err(error) => Some(Line::Refused(error)),
    }
}

// Returns the line of a socket.
fn socket_line(message: &SockDiagView<'_>) -> Line
    // A borrowed message is always a reply, so it has a line (`Some`).
    ensures { Some result ≡ socket_of (message_view_model message.now) }
{
    match message {
        SockDiagView::InetResponse(reply) => {
            let header = reply.header();
            Line::Socket {
                state: header.state,
                inode: header.inode,
            }
        }
        SockDiagView::UnixResponse(reply) => {
            let header = reply.header();
            Line::Socket {
                state: header.state,
                inode: header.inode,
            }
        }
    }
}
