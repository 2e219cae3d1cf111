//! A reply about a socket of any family: its header, and its attributes.

ghost use Rattle.std.specs.Prelude.{◌≡◌, ◌≤◌, drop, IfOk, length};
ghost use Rattle.netlink_core.specs.Errors.{map_ok};
ghost use Rattle.sock_diag_any.specs.AnyHeader.{any_header, header_size, sockets_of, timer_of};
ghost use Rattle.sock_diag_any.specs.AnyItems.{items_in, items_left};

use crate::header::{AnyHeader, RawTimer};
use crate::nla::InfoFormat;
use crate::nlas::AnyNlas;
use netlink_core::DecodeError;

/// A borrowed reply about a socket of any family. Its attributes are not checked until they are
/// iterated over.
#[derive(Debug, Drop)]
pub struct AnyReply<'a> {
    header: AnyHeader,
    payload: &'a [u8],
    ghost has_header: { header_size header ≤ length payload.now },
}

impl<'a> AnyReply<'a> {
    ghost use Rattle.sock_diag_any.specs.AnyReply.{reply_bytes, reply_header};

    /// Parses the reply in the payload of a netlink message of this type. Returns the error of its
    /// header, by [`AnyHeader::parse`]. The attributes are not parsed.
    pub fn parse(payload: &'a [u8], message_type: u16) -> Result<AnyReply<'a>, DecodeError>
        ensures header { map_ok reply_header result ≡ any_header payload.entry.now message_type }
        ensures bytes { IfOk result (λ reply. reply_bytes reply ≡ payload.entry.now) }
    {
        let header = AnyHeader::parse(payload, message_type)?;
        Ok(AnyReply { header, payload })
    }

    /// Returns the header, which describes the socket.
    pub fn header(&self) -> &AnyHeader
        ensures { result.now ≡ reply_header self.now }
    {
        &self.header
    }

    /// Returns the timer of an IPv4 or IPv6 socket, as the kernel sends it, or `None` for another
    /// family.
    pub fn timer(&self) -> Option<RawTimer>
        ensures { result ≡ timer_of (reply_header self.now) (reply_bytes self.now) }
    {
        match self.header {
            AnyHeader::Inet(_) => Some(RawTimer::parse(self.payload)),
            _ => None,
        }
    }

    /// Returns an iterator over the attributes. `format` is that of `INET_DIAG_INFO`.
    pub fn attributes(&self, format: InfoFormat) -> AnyNlas<'a>
        ensures { items_left result ≡ items_in (sockets_of (reply_header self.now) format)
            (drop (header_size (reply_header self.now)) (reply_bytes self.now)) }
    {
        AnyNlas::new(
            self.header.sockets(format),
            &self.payload[self.header.size()..],
        )
    }
}
