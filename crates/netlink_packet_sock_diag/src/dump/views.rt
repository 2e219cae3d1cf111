//! Borrowed messages of a datagram, with their payloads. In the contracts `payload_view_model` is
//! the model of a borrowed payload: the payload, with the model of its inner message or with its
//! bytes.

ghost use Rattle.std.specs.Prelude.{◌≡◌, ◌↔◌, length, IfOk, IfErr, IsTrue, SomeIff};
ghost use Rattle.netlink_core.specs.NetlinkMessage.{IsInnerMessageType, HoldsOfInnerMessage};
ghost use Rattle.netlink_core.specs.NetlinkMessage.{ParsesAsPayload, payload_bytes};
ghost use Rattle.netlink_core.specs.Errors.{map_ok};
ghost use Rattle.netlink_core.specs.Header.{HasHeader};
ghost use Rattle.netlink_core.specs.Items.{IsItemOf};
ghost use Rattle.netlink_packet_sock_diag.specs.Message.{message_codec, netlink_message_codec};
ghost use Rattle.netlink_packet_sock_diag.specs.PayloadViewModel.{payload_view_model};

use crate::message::SockDiagView;
use netlink_core::{
    DecodeError, Emitable, FramedMessages, NETLINK_HEADER_LEN, NLMSG_DONE, NLMSG_ERROR, NLMSG_NOOP,
    NLMSG_OVERRUN, NetlinkHeader, NetlinkPayload,
};

/// The borrowed payload of a message.
pub type PayloadView<'a> = NetlinkPayload<SockDiagView<'a>, &'a [u8]>;

// Parses the payload by the message type of the header. Returns the error of an invalid inner
// message.
#[inline(always)]
fn read_payload<'a>(
    header: &NetlinkHeader,
    payload: &'a [u8],
) -> Result<PayloadView<'a>, DecodeError>
    ensures value { IfOk result (λ view. ParsesAsPayload message_codec.parses payload.entry.now
        header.now.message_type (payload_view_model view)) }
    // Only the payload of an inner message can be invalid.
    ensures error { IfErr result (λ e. IsInnerMessageType header.now.message_type
        × message_codec.rejects payload.entry.now header.now.message_type e) }
{
    Ok(match header.message_type {
        NLMSG_NOOP => PayloadView::Noop,
        NLMSG_ERROR => PayloadView::Error(payload),
        NLMSG_DONE => PayloadView::Done(payload),
        NLMSG_OVERRUN => PayloadView::Overrun(payload),
        message_type => PayloadView::InnerMessage(SockDiagView::parse(payload, message_type)?),
    })
}

// Returns the length of the serialized payload. Returns `None` if the inner message is not
// writable.
fn payload_writable_len(payload: &PayloadView<'_>) -> Option<usize>
    ensures { SomeIff result (HoldsOfInnerMessage message_codec.is_writable
        (payload_view_model payload.now))
        (length (payload_bytes message_codec.serialized (payload_view_model payload.now))) }
{
    match payload {
        PayloadView::Noop => Some(0),
        PayloadView::Done(bytes) | PayloadView::Error(bytes) | PayloadView::Overrun(bytes) => {
            Some(bytes.len())
        }
        PayloadView::InnerMessage(message) => message.writable_len(),
    }
}

/// A borrowed message with its header: the bytes of a [`netlink_core::NetlinkMessage`], checked.
#[derive(Debug, Drop)]
pub struct MessageView<'a> {
    /// The header. In an answer, its sequence number is the one of the request.
    pub header: NetlinkHeader,
    /// The payload.
    pub payload: PayloadView<'a>,
}

impl<'a> MessageView<'a> {
    ghost use Rattle.netlink_packet_sock_diag.specs.PayloadViewModel.{netlink_message_view_model};

    /// Parses the message at the start of the bytes. Does not allocate. Bytes after the length of
    /// the message are ignored.
    ///
    /// Returns the first of these errors that applies:
    ///
    /// - `EnvelopeCut`, if there are fewer than 16 bytes;
    /// - `EnvelopeLengthUnder16`, if the length in the header is below 16;
    /// - `EnvelopeLengthPast`, if that length is above the number of bytes;
    /// - the error of [`SockDiagView::parse`] for the payload, unless the type is the one of a
    ///   control message: `NLMSG_NOOP`, `NLMSG_ERROR`, `NLMSG_DONE` or `NLMSG_OVERRUN`.
    #[inline(always)]
    pub fn parse(bytes: &'a [u8]) -> Result<MessageView<'a>, DecodeError>
        ensures value { IfOk result (λ view.
            netlink_message_codec.parses bytes.entry.now tt (netlink_message_view_model view)) }
        ensures error { IfErr result (netlink_message_codec.rejects bytes.entry.now tt) }
    {
        let header = NetlinkHeader::from_prefix(bytes)?;
        let payload = &bytes[NETLINK_HEADER_LEN..header.length as usize];
        let payload = read_payload(&header, payload)?;
        Ok(MessageView { header, payload })
    }

    /// Returns whether the message is writable: its inner message is writable, and the message has
    /// at most 4,294,967,295 bytes, including the 16 bytes of its header.
    pub fn is_writable(&self) -> bool
        ensures { IsTrue result
            ↔ netlink_message_codec.is_writable (netlink_message_view_model self.now) }
    {
        match payload_writable_len(&self.payload) {
            Some(len) => len <= u32::MAX as usize - NETLINK_HEADER_LEN,
            None => false,
        }
    }
}

// Returns the payload of the message with this header, or its first error. The message has exactly
// the length in its header.
#[inline(always)]
fn payload_of<'a>(header: &NetlinkHeader, message: &'a [u8]) -> Result<PayloadView<'a>, DecodeError>
    requires header { HasHeader message.now header.now }
    requires whole { header.now.length ≡ length message.now }
    ensures { IsItemOf message_codec message.entry.now (map_ok payload_view_model result) }
{
    read_payload(header, &message[NETLINK_HEADER_LEN..])
}

/// An iterator over the payloads of the messages of a datagram. If the payload of a message is
/// invalid, its error is yielded, and the next message follows. The iterator also continues after a
/// message that ends a dump.
///
/// It ends when no bytes are left, or after the error of bytes that are not a message. Nothing is
/// allocated.
#[derive(Clone, Drop)]
pub struct DumpViews<'a> {
    messages: FramedMessages<'a>,
}

impl<'a> DumpViews<'a> {
    ghost use Rattle.netlink_packet_sock_diag.specs.DumpWalk.{unread_views};

    /// Returns the iterator over the messages of this datagram.
    pub fn new(datagram: &'a [u8]) -> DumpViews<'a>
        ensures { unread_views result ≡ datagram.entry.now }
    {
        DumpViews {
            messages: FramedMessages::new(datagram),
        }
    }
}

impl<'a> Iterator for DumpViews<'a> {
    ghost use Rattle.std.specs.Prelude.{IfSome, None};
    ghost use Rattle.std.specs.Iterator.{at_most, UpTo};
    ghost use Rattle.std.specs.Iterator.SizeHint.{IsWithinCount};
    ghost use Rattle.netlink_packet_sock_diag.specs.DumpWalk.{YieldsPayloadView, max_views_left};

    type Item = Result<PayloadView<'a>, DecodeError>;

    ghost next_gives = { YieldsPayloadView };

    ghost remaining = { λ views. at_most (max_views_left views) };

    /// Returns the payload of the next message, or its error. If the remaining bytes are not a
    /// message, the error is the one that [`NetlinkHeader::from_prefix`] returns for them, and no
    /// bytes are left. Returns `None` if no bytes are left.
    #[inline(always)]
    fn next(&mut self) -> Option<Result<PayloadView<'a>, DecodeError>> {
        match self.messages.next()? {
            Ok((header, message)) => Some(payload_of(&header, message)),
            Err(error) => Some(Err(error)),
        }
    }

    /// Returns `(0, None)`: only iterating shows how many messages are left.
    fn size_hint(&self) -> (usize, Option<usize>)
        ensures unknown { result ≡ (0, None) }
        // The clauses of the trait, which follow from `unknown`.
        ensures lower { IsWithinCount result.0 (at_most (max_views_left self.now)) }
        ensures upper { IfSome result.1 (UpTo (at_most (max_views_left self.now))) }
    {
        (0, None)
    }
}
