//! The messages of sock_diag(7): requests, replies, and the request to close sockets.
//!
//! In the contracts `message_model` and `message_view_model` are the model of an owned and of a
//! borrowed message: its kind and the model of its content. `kind_of` is this kind, one of
//! `inet_request`, `inet_response`, `unix_request` and `unix_response`. `message_codec` is the
//! codec of messages, whose parameter is the message type.

ghost use Rattle.std.specs.Prelude.{◌≡◌, ◌≢◌, ◌<◌, ◌↔◌, ◌⊎◌, true, refl, IsTrue, IfOk, IfErr, IsOk};
ghost use Rattle.std.specs.Prelude.{Ok, Err, if◌then◌else◌};
ghost use Rattle.netlink_core.specs.Bytes.{IsBytes};
ghost use Rattle.netlink_core.specs.declared.error.DecodeError.TheVariants.{Memory};
ghost use Rattle.netlink_core.specs.declared.message.NetlinkPayload.TheVariants.{InnerMessage};
ghost use Rattle.netlink_packet_sock_diag.specs.Message.{Message, kind_of, message_codec};
ghost use Rattle.sock_diag_records.specs.ResponseKind.{inet_request, inet_response, unix_request};
ghost use Rattle.sock_diag_records.specs.ResponseKind.{unix_response, response_kind};

use crate::constants::{AF_INET, AF_INET6, AF_UNIX, SOCK_DESTROY, SOCK_DIAG_BY_FAMILY};
use crate::inet::{InetRequest, InetResponse, InetResponseView};
use crate::unix::{UnixRequest, UnixResponse, UnixResponseView};
use netlink_core::{
    CanonError, DecodeError, Emitable, NetlinkDeserializable, NetlinkHeader, NetlinkPayload,
    NetlinkSerializable, ParseableParametrized, Readable, Wire, canonical,
};
use std::alloc::{AllocError, Global};

/// A message of sock_diag(7). Only replies can be parsed. Requests can only be serialized.
#[derive(Debug, Drop, PartialEq, Eq)]
pub enum SockDiagMessage {
    /// A request for IPv4 or IPv6 sockets (`inet_diag_req_v2`).
    InetRequest(InetRequest),
    /// A reply describing one IPv4 or IPv6 socket (`inet_diag_msg`).
    InetResponse(Box<InetResponse>),
    /// A request for UNIX sockets (`unix_diag_req`).
    UnixRequest(UnixRequest),
    /// A reply describing one UNIX socket (`unix_diag_msg`).
    UnixResponse(Box<UnixResponse>),
}

impl SockDiagMessage {
    ghost use Rattle.netlink_packet_sock_diag.specs.MessageModel.{message_model};

    /// Returns whether the message is a request for IPv4 or IPv6 sockets.
    pub fn is_inet_request(&self) -> bool
        ensures { IsTrue result ↔ (kind_of (message_model self.now) ≡ inet_request) }
    {
        matches!(self, SockDiagMessage::InetRequest(_))
    }

    /// Returns whether the message is a reply describing an IPv4 or IPv6 socket.
    pub fn is_inet_response(&self) -> bool
        ensures { IsTrue result ↔ (kind_of (message_model self.now) ≡ inet_response) }
    {
        matches!(self, SockDiagMessage::InetResponse(_))
    }

    /// Returns whether the message is a request for UNIX sockets.
    pub fn is_unix_request(&self) -> bool
        ensures { IsTrue result ↔ (kind_of (message_model self.now) ≡ unix_request) }
    {
        matches!(self, SockDiagMessage::UnixRequest(_))
    }

    /// Returns whether the message is a reply describing a UNIX socket.
    pub fn is_unix_response(&self) -> bool
        ensures { IsTrue result ↔ (kind_of (message_model self.now) ≡ unix_response) }
    {
        matches!(self, SockDiagMessage::UnixResponse(_))
    }

    /// Returns the message type under which the message is serialized and parsed:
    /// `SOCK_DIAG_BY_FAMILY`, 20.
    pub fn message_type(&self) -> u16
        ensures { result ≡ SOCK_DIAG_BY_FAMILY }
    {
        SOCK_DIAG_BY_FAMILY
    }

    /// Returns an equal message. Fails only if an allocation fails. Cloning a request never fails.
    pub fn clone(&self, alloc: Global) -> Result<Self, AllocError>
        ensures equal { IfOk result (λ copy. message_model copy ≡ message_model self.now) }
        ensures of_request { (kind_of (message_model self.now) ≡ inet_request)
            ⊎ (kind_of (message_model self.now) ≡ unix_request) → IsOk result }
    {
        // `clone` returns a `Result` for every type. For a request it is always `Ok`.
        Ok(match self {
            SockDiagMessage::InetRequest(request) => {
                SockDiagMessage::InetRequest(request.clone()?)
            }
            SockDiagMessage::InetResponse(reply) => {
                SockDiagMessage::InetResponse(Box::new(alloc, InetResponse::clone(reply, alloc)?)?)
            }
            SockDiagMessage::UnixRequest(request) => {
                SockDiagMessage::UnixRequest(request.clone()?)
            }
            SockDiagMessage::UnixResponse(reply) => {
                SockDiagMessage::UnixResponse(Box::new(alloc, UnixResponse::clone(reply, alloc)?)?)
            }
        })
    }

    // Parses the payload under the message type, or returns its first error. Returns `Memory` if an
    // allocation fails.
    fn read_under(
        alloc: Global,
        payload: &[u8],
        message_type: u16,
    ) -> Result<SockDiagMessage, DecodeError>
        ensures value { IfOk result
            (λ message. message_codec.parses payload.now message_type (message_model message)) }
        ensures error { IfErr result (λ error. error ≢ Memory
            → message_codec.rejects payload.now message_type error) }
        // `Memory` is returned only for bytes that have a message. No message counts as one that
        // needs no memory, so the last condition always holds.
        ensures memory_needed { IfErr result (λ error. error ≡ Memory
            → (message : Message) × message_codec.parses payload.now message_type message
            × ¬ message_codec.needs_no_memory message) }
    {
        Ok(SockDiagView::parse(payload, message_type)?.to_owned(alloc)?)
    }

    // Returns `true` if the bytes under the message type are a reply about a UNIX socket, `false`
    // if they are one about an IPv4 or IPv6 socket, and the error if they are neither. It checks
    // only that there are two bytes, the message type, and the first byte, which is the family.
    #[inline(always)]
    fn holds_unix_reply(payload: &[u8], message_type: u16) -> Result<bool, DecodeError>
        ensures kind { IfOk result (λ is_unix. response_kind payload.now message_type
            ≡ Ok (if is_unix then unix_response else inet_response)) }
        ensures error { IfErr result (λ error. response_kind payload.now message_type ≡ Err error) }
    {
        if payload.len() < 2 {
            return Err(DecodeError::MessageTooShort { got: payload.len() });
        }
        if message_type != SOCK_DIAG_BY_FAMILY {
            return Err(DecodeError::UnknownMessageType { message_type });
        }
        match payload[0] {
            AF_UNIX => Ok(true),
            AF_INET | AF_INET6 => Ok(false),
            family => Err(DecodeError::UnknownFamily { family }),
        }
    }
}

/// A borrowed message of sock_diag(7): the bytes of a [`SockDiagMessage`], checked. Only replies
/// can be parsed.
#[derive(Clone, Copy, Debug, PartialEq, Eq)]
pub enum SockDiagView<'a> {
    /// A reply describing one IPv4 or IPv6 socket.
    InetResponse(InetResponseView<'a>),
    /// A reply describing one UNIX socket.
    UnixResponse(UnixResponseView<'a>),
}

impl<'a> SockDiagView<'a> {
    ghost use Rattle.netlink_packet_sock_diag.specs.MessageModel.{message_model};
    ghost use Rattle.netlink_packet_sock_diag.specs.MessageViewModel.{message_view_model};

    /// Checks all bytes of a payload, the bytes after a netlink header, under the message type of
    /// that header. Returns a view of them. Does not allocate.
    ///
    /// Returns the first of these errors that applies:
    ///
    /// - `MessageTooShort`, if there are fewer than 2 bytes;
    /// - `UnknownMessageType`, if the type is not `SOCK_DIAG_BY_FAMILY`;
    /// - `UnknownFamily`, if the first byte is not `AF_UNIX`, `AF_INET` or `AF_INET6`;
    /// - the error that the view of the family's replies returns.
    #[inline(always)]
    pub fn parse(payload: &'a [u8], message_type: u16) -> Result<SockDiagView<'a>, DecodeError>
        ensures in_range { IsBytes payload.entry.now }
        ensures value { IfOk result
            (λ view. message_codec.parses payload.entry.now message_type
            (message_view_model view)) }
        ensures error { IfErr result (message_codec.rejects payload.entry.now message_type) }
    {
        match SockDiagMessage::holds_unix_reply(payload, message_type) {
            Ok(true) => Ok(SockDiagView::UnixResponse(UnixResponseView::parse(payload)?)),
            Ok(false) => Ok(SockDiagView::InetResponse(InetResponseView::parse(payload)?)),
            Err(error) => Err(error),
        }
    }

    /// Returns the owned message that the bytes parse as. Fails only if an allocation fails.
    pub fn to_owned(&self, alloc: Global) -> Result<SockDiagMessage, AllocError>
        ensures { IfOk result (λ message. message_model message ≡ message_view_model self.now) }
    {
        Ok(match self {
            SockDiagView::InetResponse(reply) => {
                SockDiagMessage::InetResponse(reply.to_boxed(alloc)?)
            }
            SockDiagView::UnixResponse(reply) => {
                SockDiagMessage::UnixResponse(reply.to_boxed(alloc)?)
            }
        })
    }
}

impl Readable for SockDiagMessage {
    const TAKES_MEMORY: bool = true;

    ghost TAKES_MEMORY = { true };
}

impl<'a> ParseableParametrized<&'a [u8], u16> for SockDiagMessage {
    /// Parses a reply under a message type.
    ///
    /// Returns the first of these errors that applies:
    ///
    /// - `MessageTooShort`, if there are fewer than 2 bytes;
    /// - `UnknownMessageType`, if the type is not `SOCK_DIAG_BY_FAMILY`;
    /// - `UnknownFamily`, if the first byte is not `AF_UNIX`, `AF_INET` or `AF_INET6`;
    /// - the error that the parser of the family's replies returns;
    /// - `Memory`, if an allocation fails.
    fn parse_with_param(
        alloc: Global,
        payload: &'a [u8],
        message_type: u16,
    ) -> Result<Self, DecodeError> {
        SockDiagMessage::read_under(alloc, payload, message_type)
    }
}

impl Wire for SockDiagMessage {
    fn read(alloc: Global, bytes: &[u8], param: u16) -> Result<Self, DecodeError> {
        SockDiagMessage::read_under(alloc, bytes, param)
    }

    // Rewrites the bytes as a reply of their family. Building an owned message first could fail
    // with `Memory` for a message that is not writable.
    fn rewrite(alloc: Global, bytes: &[u8], param: u16) -> Result<Vec<u8>, CanonError> {
        match SockDiagMessage::holds_unix_reply(bytes, param) {
            Ok(true) => canonical::<UnixResponse>(alloc, bytes, ()),
            Ok(false) => canonical::<InetResponse>(alloc, bytes, ()),
            Err(error) => Err(CanonError::Refused(error)),
        }
    }

    ghost bytes_by_codec = { λ v. refl };

    ghost writable_by_codec = { λ v. (λ h. h, λ h. h) };

    ghost in_range_by_codec = { λ _ h. h };
}

impl NetlinkSerializable for SockDiagMessage {
    fn is_writable(&self) -> bool {
        Emitable::is_writable(self)
    }

    fn message_type(&self) -> u16 {
        SOCK_DIAG_BY_FAMILY
    }

    fn buffer_len(&self) -> usize {
        Emitable::buffer_len(self)
    }

    fn serialize(&self, buffer: &mut [u8]) {
        self.emit(buffer);
    }
}

impl NetlinkDeserializable for SockDiagMessage {
    fn deserialize(
        alloc: Global,
        header: &NetlinkHeader,
        payload: &[u8],
    ) -> Result<Self, DecodeError> {
        SockDiagMessage::read_under(alloc, payload, header.message_type)
    }
}

impl From<SockDiagMessage> for NetlinkPayload<SockDiagMessage> {
    ghost from_gives = { λ message payload. payload ≡ InnerMessage message };

    fn from(message: SockDiagMessage) -> Self {
        NetlinkPayload::InnerMessage(message)
    }
}

/// The request to close the socket that a request selects: the bytes of the request under the type
/// `SOCK_DESTROY`, 21. Linux closes at most one TCP, UDP or raw socket, and no UNIX socket. A reply
/// does not select a socket: the kernel takes its bytes as those of a request.
///
/// It is parsed as a message is, and so only under the type `SOCK_DIAG_BY_FAMILY`. A serialized
/// request has the type 21, and is rejected.
#[derive(Debug, Drop, PartialEq, Eq)]
pub struct SockDiagDestroy(pub(crate) SockDiagMessage);

impl SockDiagDestroy {
    ghost use Rattle.netlink_packet_sock_diag.specs.MessageModel.{message_model};

    /// Returns the request to close the socket that `message`, a request, selects. It contains
    /// `message` unchanged.
    pub fn new(message: SockDiagMessage) -> Self
        ensures { message_model result.0 ≡ message_model message }
    {
        SockDiagDestroy(message)
    }

    /// Returns an equal request. Fails only if an allocation fails. Never fails if it contains an
    /// `InetRequest` or a `UnixRequest`.
    pub fn clone(&self, alloc: Global) -> Result<Self, AllocError>
        ensures equal { IfOk result (λ copy. message_model copy.0 ≡ message_model self.now.0) }
        ensures of_request { (kind_of (message_model self.now.0) ≡ inet_request)
            ⊎ (kind_of (message_model self.now.0) ≡ unix_request) → IsOk result }
    {
        Ok(SockDiagDestroy(self.0.clone(alloc)?))
    }
}

impl NetlinkSerializable for SockDiagDestroy {
    fn is_writable(&self) -> bool {
        Emitable::is_writable(&self.0)
    }

    fn message_type(&self) -> u16 {
        SOCK_DESTROY
    }

    fn buffer_len(&self) -> usize {
        Emitable::buffer_len(&self.0)
    }

    fn serialize(&self, buffer: &mut [u8]) {
        self.0.emit(buffer);
    }
}

impl NetlinkDeserializable for SockDiagDestroy {
    fn deserialize(
        alloc: Global,
        header: &NetlinkHeader,
        payload: &[u8],
    ) -> Result<Self, DecodeError> {
        let message = SockDiagMessage::read_under(alloc, payload, header.message_type)?;
        Ok(SockDiagDestroy(message))
    }
}

impl From<SockDiagDestroy> for NetlinkPayload<SockDiagDestroy> {
    ghost from_gives = { λ destroy payload. payload ≡ InnerMessage destroy };

    fn from(destroy: SockDiagDestroy) -> Self {
        NetlinkPayload::InnerMessage(destroy)
    }
}
