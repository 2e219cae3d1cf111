//! Netlink messages, by their header and their payload. In the contracts, `message_parts` has both
//! of a [`Message`].

ghost use Rattle.std.specs.Prelude.{◌≡◌, option_map};
ghost use Rattle.netlink_core.specs.Header.{HasHeader};
ghost use Rattle.sslist_lister.specs.Messages.{message_in, message_parts, request_in};

use netlink_core::{NETLINK_HEADER_LEN, NLM_F_REQUEST, NetlinkHeader};

/// A netlink message.
#[derive(Drop)]
pub(crate) struct Message<'a> {
    /// Its header.
    pub(crate) header: NetlinkHeader,
    /// The bytes after the header.
    pub(crate) payload: &'a [u8],
}

impl<'a> Message<'a> {
    /// Returns the message that the bytes begin with. `header` must be its header.
    #[tactic(auto, using(crate::proofs::MessageWalk::header_found))]
    pub(crate) fn new(header: NetlinkHeader, bytes: &'a [u8]) -> Message<'a>
        requires { HasHeader bytes.now header }
        ensures { message_parts result ≡ message_in bytes.entry.now }
    {
        let payload = &bytes[NETLINK_HEADER_LEN..header.length as usize];
        Message { header, payload }
    }

    /// Returns the request that the bytes begin with. Returns `None` if they do not begin with a
    /// message, or if its flags do not have `NLM_F_REQUEST`.
    #[tactic(auto, using(crate::proofs::MessageWalk::no_request_found))]
    pub(crate) fn request_in(bytes: &'a [u8]) -> Option<Message<'a>>
        ensures { option_map message_parts result ≡ request_in bytes.entry.now }
    {
        let Ok(header) = NetlinkHeader::from_prefix(bytes) else {
            return None;
        };
        if header.flags & NLM_F_REQUEST == 0 {
            return None;
        }
        Some(Message::new(header, bytes))
    }
}
