//! Iterators over the messages of a datagram.

ghost use Rattle.std.specs.Prelude.{◌≡◌};

use crate::attribute::padded;
use crate::error::DecodeError;
use crate::header::NetlinkHeader;

/// An iterator over consecutive netlink messages, each at a multiple of 4 bytes. An item is the
/// header of a message, and the bytes of the message: as many as its length field (`nlmsg_len`)
/// counts, header included.
///
/// It ends when no bytes are left. The padding of the last message may be missing or truncated.
/// After an error it yields nothing more. It does not allocate.
#[derive(Clone, Drop)]
pub struct FramedMessages<'a> {
    bytes: &'a [u8],
    // Offset of the next message. At or past the end of the bytes, no message is left.
    at: usize,
}

impl<'a> FramedMessages<'a> {
    ghost use Rattle.netlink_core.specs.DatagramWalk.{unread_messages};

    /// Returns an iterator over the messages of this datagram.
    pub fn new(datagram: &'a [u8]) -> FramedMessages<'a>
        ensures { unread_messages result ≡ datagram.entry.now }
    {
        FramedMessages {
            bytes: datagram,
            at: 0,
        }
    }
}

impl<'a> Iterator for FramedMessages<'a> {
    ghost use Rattle.std.specs.Prelude.{◌+◌, ◌/◌, length, IfSome, None};
    ghost use Rattle.std.specs.Iterator.{at_most, UpTo};
    ghost use Rattle.std.specs.Iterator.SizeHint.{IsWithinCount};
    ghost use Rattle.netlink_core.specs.DatagramWalk.{YieldsFramedMessage, unread_messages};

    type Item = Result<(NetlinkHeader, &'a [u8]), DecodeError>;

    ghost next_gives = { YieldsFramedMessage };

    // At most one item for each sixteen bytes that are left, rounded up, since a message has at
    // least 16 bytes and an error is the last item.
    ghost remaining = { λ messages. at_most ((length (unread_messages messages) + 15) / 16) };

    /// Returns the header and the bytes of the message at the start of the bytes that are left, and
    /// continues after its padding. Returns the error of [`NetlinkHeader::from_prefix`] if these
    /// bytes do not start with a message; then no bytes are left. Returns `None` if and only if no
    /// bytes were left.
    #[inline(always)]
    fn next(&mut self) -> Option<Result<(NetlinkHeader, &'a [u8]), DecodeError>> {
        if self.at >= self.bytes.len() {
            return None;
        }
        let left = &self.bytes[self.at..];
        match NetlinkHeader::from_prefix(left) {
            Ok(header) => {
                let end = header.length as usize;
                self.at += padded(end);
                Some(Ok((header, &left[..end])))
            }
            Err(error) => {
                self.at = self.bytes.len();
                Some(Err(error))
            }
        }
    }

    /// Returns `(0, None)`: the number of items is known only after iterating.
    fn size_hint(&self) -> (usize, Option<usize>)
        ensures unknown { result ≡ (0, None) }
        // The clauses of the trait, which follow from `unknown`.
        ensures lower { IsWithinCount result.0
            (at_most ((length (unread_messages self.now) + 15) / 16)) }
        ensures upper { IfSome result.1
            (UpTo (at_most ((length (unread_messages self.now) + 15) / 16))) }
    {
        (0, None)
    }
}

/// An iterator over consecutive netlink messages, each at a multiple of 4 bytes. An item is the
/// bytes of one message: as many as its length field (`nlmsg_len`) counts, header included.
///
/// It ends when no bytes are left. The padding of the last message may be missing or truncated.
/// After an error it yields nothing more. It does not allocate.
#[derive(Clone, Drop)]
pub struct MessageStrings<'a> {
    messages: FramedMessages<'a>,
}

impl<'a> MessageStrings<'a> {
    ghost use Rattle.netlink_core.specs.DatagramWalk.{unread_datagram};

    /// Returns an iterator over the messages of this datagram.
    pub fn new(datagram: &'a [u8]) -> MessageStrings<'a>
        ensures { unread_datagram result ≡ datagram.entry.now }
    {
        MessageStrings {
            messages: FramedMessages::new(datagram),
        }
    }
}

impl<'a> Iterator for MessageStrings<'a> {
    ghost use Rattle.std.specs.Prelude.{◌+◌, ◌/◌, length, IfSome, None};
    ghost use Rattle.std.specs.Iterator.{at_most, UpTo};
    ghost use Rattle.std.specs.Iterator.SizeHint.{IsWithinCount};
    ghost use Rattle.netlink_core.specs.DatagramWalk.{YieldsMessage, unread_datagram};

    type Item = Result<&'a [u8], DecodeError>;

    ghost next_gives = { YieldsMessage };

    // At most one item for each sixteen bytes that are left, rounded up, since a message has at
    // least 16 bytes and an error is the last item.
    ghost remaining = { λ messages. at_most ((length (unread_datagram messages) + 15) / 16) };

    /// Returns the bytes of the message at the start of the bytes that are left, and continues
    /// after its padding. Returns the error of [`NetlinkHeader::from_prefix`] if these bytes do not
    /// start with a message; then no bytes are left. Returns `None` if and only if no bytes were
    /// left.
    #[inline(always)]
    fn next(&mut self) -> Option<Result<&'a [u8], DecodeError>> {
        match self.messages.next()? {
            Ok((_header, message)) => Some(Ok(message)),
            Err(error) => Some(Err(error)),
        }
    }

    /// Returns `(0, None)`: the number of items is known only after iterating.
    fn size_hint(&self) -> (usize, Option<usize>)
        ensures unknown { result ≡ (0, None) }
        // The clauses of the trait, which follow from `unknown`.
        ensures lower { IsWithinCount result.0
            (at_most ((length (unread_datagram self.now) + 15) / 16)) }
        ensures upper { IfSome result.1
            (UpTo (at_most ((length (unread_datagram self.now) + 15) / 16))) }
    {
        (0, None)
    }
}
