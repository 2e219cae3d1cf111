//! Netlink messages: a header and a payload. `I` is the type of the inner messages, those of a
//! protocol. `I.codec` is their codec, and `I.model` returns the model of one.
//!
//! In the contracts `netlink_codec I.codec` is the codec of netlink messages, which has no
//! parameter (`tt`). `netlink_message_model I.model` and `owned_payload_model I.model` return the
//! models of a message and of a payload, with raw bytes as a list and an inner message as its
//! model. `HoldsOfInnerMessage predicate payload` states that the predicate holds of the inner
//! message, if there is one.

ghost use Rattle.std.specs.Prelude.{◌≡◌, ◌≢◌, ◌≤◌, ◌<◌, ◌↔◌, length, IfOk, IfErr, IsTrue, ⊤};
ghost use Rattle.netlink_core.specs.Bytes.{HoldsAtStart};
ghost use Rattle.netlink_core.specs.declared.error.DecodeError.TheVariants.{Memory};
ghost use Rattle.netlink_core.specs.Header.{HasHeader, message_payload};
ghost use Rattle.netlink_core.specs.declared.message.NetlinkPayload.TheVariants.{Noop};
ghost use Rattle.netlink_core.specs.NetlinkMessage.{Payload, NetlinkMessageModel};
ghost use Rattle.netlink_core.specs.NetlinkMessage.{leading_error_number};
ghost use Rattle.netlink_core.specs.NetlinkMessage.{error_number_of, ParsesAsPayload};
ghost use Rattle.netlink_core.specs.NetlinkMessage.{IsInnerMessageType};
ghost use Rattle.netlink_core.specs.NetlinkMessage.{payload_bytes, payload_type};
ghost use Rattle.netlink_core.specs.NetlinkMessage.{HoldsOfInnerMessage};
ghost use Rattle.netlink_core.specs.NetlinkMessage.{finalized_header, netlink_codec};
ghost use Rattle.netlink_core.specs.NetlinkMessageModel.{owned_payload_model};
ghost use Rattle.netlink_core.specs.NetlinkMessageModel.{borrowed_payload_model};
ghost use Rattle.netlink_core.specs.NetlinkMessageModel.{netlink_message_model};

use crate::error::DecodeError;
use crate::header::{NETLINK_HEADER_LEN, NetlinkHeader};
use crate::wire::HasCodec;
use byteorder::{ByteOrder, LittleEndian};
use std::alloc::{AllocError, Global};

/// Message type without any content, see netlink(7).
pub const NLMSG_NOOP: u16 = 1;

/// Message type of an error, or of the acknowledgement of a request.
pub const NLMSG_ERROR: u16 = 2;

/// Message type that ends a dump.
pub const NLMSG_DONE: u16 = 3;

/// Message type that reports that data was lost.
pub const NLMSG_OVERRUN: u16 = 4;

/// Header flag of every request.
pub const NLM_F_REQUEST: u16 = 1;

/// Header flags that request all entries of a table: `NLM_F_ROOT | NLM_F_MATCH`.
pub const NLM_F_DUMP: u16 = 0x300;

/// Part of a multipart message, which `NLMSG_DONE` terminates.
pub const NLM_F_MULTI: u16 = 2;

/// In a request: requests an acknowledgement.
pub const NLM_F_ACK: u16 = 4;

/// In a request: requests the notifications that it causes.
pub const NLM_F_ECHO: u16 = 8;

/// In a reply: the dump is inconsistent, since the sockets changed during the dump.
pub const NLM_F_DUMP_INTR: u16 = 0x10;

/// In a reply: the dump was filtered as requested.
pub const NLM_F_DUMP_FILTERED: u16 = 0x20;

/// In a request: requests the complete table.
pub const NLM_F_ROOT: u16 = 0x100;

/// In a request: requests all entries that match.
pub const NLM_F_MATCH: u16 = 0x200;

/// In a request: requests an atomic snapshot.
pub const NLM_F_ATOMIC: u16 = 0x400;

/// In an `NLMSG_ERROR`: it contains only the header of the request.
pub const NLM_F_CAPPED: u16 = 0x100;

/// In an `NLMSG_ERROR` or `NLMSG_DONE`: attributes `NLMSGERR_ATTR_..` follow.
pub const NLM_F_ACK_TLVS: u16 = 0x200;

/// The maximal length of a message in bytes, as its length field (`nlmsg_len`) has 32 bits.
const MAX_MESSAGE_LEN: usize = 4_294_967_295;

/// A message of a protocol that is serialized after a netlink header.
pub trait NetlinkSerializable: HasCodec<Param = u16> {
    /// Returns whether the message is writable: whether its lengths fit their length fields.
    fn is_writable(&self) -> bool
        ensures { IsTrue result ↔ Self.codec.is_writable (Self.model self.now) };

    /// Returns the type of the message, for the type field of the header (`nlmsg_type`).
    fn message_type(&self) -> u16
        ensures { result ≡ Self.serialized_type (Self.model self.now) };

    /// Returns the number of bytes that `serialize` writes. The message must be writable.
    fn buffer_len(&self) -> usize
        requires { Self.codec.is_writable (Self.model self.now) }
        ensures { result ≡ length (Self.codec.serialized (Self.model self.now)) };

    /// Serializes the message to the start of the buffer. The bytes after it are unchanged. The
    /// message must be writable, and the buffer at least as long as its bytes.
    fn serialize(&self, buffer: &mut [u8])
        requires writable { Self.codec.is_writable (Self.model self.now) }
        requires room { length (Self.codec.serialized (Self.model self.now)) ≤ length buffer.old }
        ensures written { HoldsAtStart
            (Self.codec.serialized (Self.model self.now)) buffer.old buffer.new }
        ensures in_range { Self.codec.is_in_range (Self.model self.now) };
}

/// A message of a protocol that is parsed from the payload of a netlink message, under the type in
/// the netlink header.
pub trait NetlinkDeserializable: HasCodec<Param = u16> {
    /// Parses a message under the header's type (`nlmsg_type`), or returns the first decode error.
    /// No other field of the header matters. Fails with `Memory` only if the payload has a message
    /// that needs to allocate.
    fn deserialize(
        alloc: Global,
        header: &NetlinkHeader,
        payload: &[u8],
    ) -> Result<Self, DecodeError>
        ensures value { IfOk result
            (λ m. Self.codec.parses payload.now header.now.message_type (Self.model m)) }
        ensures error { IfErr result (λ e. e ≢ Memory
            → Self.codec.rejects payload.now header.now.message_type e) }
        ensures memory_needed { IfErr result (λ e. e ≡ Memory → (m : Self.codec.Value)
            × Self.codec.parses payload.now header.now.message_type m
            × ¬ Self.codec.needs_no_memory m) };
}

/// The payload of a netlink message, by the message type. `B` holds the bytes of a payload that is
/// not decoded: `Vec<u8>`, or `&[u8]` in a borrowed payload. Only a borrowed payload is `Copy`,
/// and in Rattle only it is `Clone`.
#[derive(Copy, Debug, Drop, PartialEq, Eq)]
pub enum NetlinkPayload<I, B = Vec<u8>> {
    /// `NLMSG_DONE`: the end of a dump. The bytes are raw.
    Done(B),
    /// `NLMSG_ERROR`: a request failed, or is acknowledged. The bytes are raw.
    Error(B),
    /// `NLMSG_NOOP`: no content.
    Noop,
    /// `NLMSG_OVERRUN`: data was lost. The bytes are raw.
    Overrun(B),
    /// A message of the protocol.
    InnerMessage(I),
}

// By hand: a derived impl would give an owned payload a `clone` without an allocator.
impl<I: Copy, B: Copy> Clone for NetlinkPayload<I, B> {
    ghost is_clone = { λ payload copy. copy ≡ payload };

    ghost is_infallible = { λ _. ⊤ };

    fn clone(&self) -> Result<Self, AllocError> {
        Ok(*self)
    }
}

/// Returns the error number at the start of the payload of an `NLMSG_ERROR` or `NLMSG_DONE`: 4
/// bytes, little-endian, signed. It is 0 for an acknowledgement, or for a dump of which the kernel
/// reports no error, else `-errno` (errno(3)). Returns `None` if the payload has fewer than 4
/// bytes. The bytes after these are ignored.
pub fn error_number(payload: &[u8]) -> Option<i32>
    ensures { result ≡ leading_error_number payload.now }
{
    if payload.len() < 4 {
        return None;
    }
    Some(LittleEndian::read_i32(payload))
}

impl<I: HasCodec> NetlinkPayload<I> {
    /// Returns the error number at the start of an `NLMSG_ERROR` or `NLMSG_DONE`: 4 bytes,
    /// little-endian, 0 or `-errno` (errno(3)). Returns `None` if this payload has fewer than 4
    /// bytes, and for any other payload.
    pub fn error_number(&self) -> Option<i32>
        ensures { result ≡ error_number_of (owned_payload_model I.model self.now) }
    {
        match self {
            NetlinkPayload::Done(bytes) | NetlinkPayload::Error(bytes) => error_number(bytes),
            _ => None,
        }
    }
}

impl<I> NetlinkPayload<I, &[u8]> {
    /// Returns the error number at the start of an `NLMSG_ERROR` or `NLMSG_DONE`: 4 bytes,
    /// little-endian, 0 or `-errno` (errno(3)). Returns `None` if this payload has fewer than 4
    /// bytes, and for any other payload.
    pub fn error_number(&self) -> Option<i32>
        ensures { result ≡ error_number_of (borrowed_payload_model self.now) }
    {
        match self {
            NetlinkPayload::Done(bytes) | NetlinkPayload::Error(bytes) => error_number(bytes),
            _ => None,
        }
    }
}

impl<I: NetlinkSerializable> NetlinkPayload<I> {
    /// Returns the message type for the header: `NLMSG_DONE`, `NLMSG_ERROR`, `NLMSG_NOOP`,
    /// `NLMSG_OVERRUN`, or the type of the inner message.
    pub fn message_type(&self) -> u16
        ensures { result ≡ payload_type I.serialized_type
            (owned_payload_model I.model self.now) }
    {
        match self {
            NetlinkPayload::Done(_) => NLMSG_DONE,
            NetlinkPayload::Error(_) => NLMSG_ERROR,
            NetlinkPayload::Noop => NLMSG_NOOP,
            NetlinkPayload::Overrun(_) => NLMSG_OVERRUN,
            NetlinkPayload::InnerMessage(message) => message.message_type(),
        }
    }

    // Returns whether the inner message is writable, or `true` if there is none.
    fn is_writable(&self) -> bool
        ensures { IsTrue result ↔ HoldsOfInnerMessage I.codec.is_writable
            (owned_payload_model I.model self.now) }
    {
        match self {
            NetlinkPayload::InnerMessage(message) => message.is_writable(),
            _ => true,
        }
    }

    // Returns the number of bytes that `serialize` writes. The inner message, if there is one, must
    // be writable.
    fn buffer_len(&self) -> usize
        requires { HoldsOfInnerMessage I.codec.is_writable
            (owned_payload_model I.model self.now) }
        ensures { result
            ≡ length (payload_bytes I.codec.serialized (owned_payload_model I.model self.now)) }
    {
        match self {
            NetlinkPayload::Done(bytes)
            | NetlinkPayload::Error(bytes)
            | NetlinkPayload::Overrun(bytes) => bytes.len(),
            NetlinkPayload::Noop => 0,
            NetlinkPayload::InnerMessage(message) => message.buffer_len(),
        }
    }

    // Serializes the payload to the start of the buffer. The bytes after it are unchanged. The
    // inner message, if there is one, must be writable, and the buffer at least as long as the
    // payload's bytes.
    fn serialize(&self, buffer: &mut [u8])
        requires writable { HoldsOfInnerMessage I.codec.is_writable
            (owned_payload_model I.model self.now) }
        requires room { length
            (payload_bytes I.codec.serialized (owned_payload_model I.model self.now))
            ≤ length buffer.old }
        ensures written { HoldsAtStart (payload_bytes I.codec.serialized
            (owned_payload_model I.model self.now)) buffer.old buffer.new }
        ensures in_range { HoldsOfInnerMessage I.codec.is_in_range
            (owned_payload_model I.model self.now) }
    {
        match self {
            NetlinkPayload::Done(bytes)
            | NetlinkPayload::Error(bytes)
            | NetlinkPayload::Overrun(bytes) => buffer[..bytes.len()].copy_from_slice(bytes),
            NetlinkPayload::Noop => {}
            NetlinkPayload::InnerMessage(message) => message.serialize(buffer),
        }
    }
}

impl<I: NetlinkDeserializable> NetlinkPayload<I> {
    // Parses the payload, which has these bytes, under the header's type. Fails with the error of
    // the inner message, or with `Memory` if an allocation fails. An `NLMSG_NOOP` never fails.
    fn read(alloc: Global, header: &NetlinkHeader, bytes: &[u8]) -> Result<Self, DecodeError>
        ensures value { IfOk result (λ payload. ParsesAsPayload I.codec.parses bytes.now
            header.now.message_type (owned_payload_model I.model payload)) }
        // Only an inner message is rejected.
        ensures error { IfErr result (λ e. e ≢ Memory
            → IsInnerMessageType header.now.message_type
            × I.codec.rejects bytes.now header.now.message_type e) }
        // `Memory` only if the bytes have a payload, and this is not the one of an `NLMSG_NOOP`.
        ensures memory_needed { IfErr result (λ e. e ≡ Memory → (payload : Payload I.codec.Value)
            × ParsesAsPayload I.codec.parses bytes.now header.now.message_type payload
            × (payload ≢ Noop)) }
    {
        Ok(match header.message_type {
            NLMSG_NOOP => NetlinkPayload::Noop,
            NLMSG_ERROR => NetlinkPayload::Error(Vec::from_slice(alloc, bytes)?),
            NLMSG_DONE => NetlinkPayload::Done(Vec::from_slice(alloc, bytes)?),
            NLMSG_OVERRUN => NetlinkPayload::Overrun(Vec::from_slice(alloc, bytes)?),
            _ => NetlinkPayload::InnerMessage(I::deserialize(alloc, header, bytes)?),
        })
    }
}

/// A netlink message: a header and a payload.
#[derive(Debug, Drop, PartialEq, Eq)]
pub struct NetlinkMessage<I> {
    /// The header. Its length and its type are as parsed or as passed to `new`, until `finalize`
    /// sets them.
    pub header: NetlinkHeader,
    /// The payload.
    pub payload: NetlinkPayload<I>,
}

impl<I> NetlinkMessage<I> {
    /// Returns the message with this header, unchanged, and this payload.
    pub fn new(header: NetlinkHeader, payload: NetlinkPayload<I>) -> Self
        ensures header { result.header ≡ header }
        ensures payload { result.payload ≡ payload }
    {
        NetlinkMessage { header, payload }
    }

    /// Returns the header and the payload.
    pub fn into_parts(self) -> (NetlinkHeader, NetlinkPayload<I>)
        ensures header { result.0 ≡ self.header }
        ensures payload { result.1 ≡ self.payload }
    {
        let NetlinkMessage { header, payload } = self;
        (header, payload)
    }
}

impl<I: NetlinkDeserializable> NetlinkMessage<I> {
    /// Parses the message at the start of the bytes. Bytes after the message's length are ignored.
    ///
    /// Fails with `EnvelopeCut` if there are fewer than 16 bytes, then with `EnvelopeLengthUnder16`
    /// if the length field is below 16, then with `EnvelopeLengthPast` if it is above the number of
    /// bytes, then with the error of the inner message. The types 1 to 4 (`NLMSG_NOOP` to
    /// `NLMSG_OVERRUN`) have no inner message. Fails with `Memory` only if the bytes have a
    /// message, and its type is not `NLMSG_NOOP`, whose payload is dropped.
    pub fn deserialize(alloc: Global, bytes: &[u8]) -> Result<Self, DecodeError>
        ensures value { IfOk result
            (λ m. (netlink_codec I.codec).parses bytes.now tt (netlink_message_model I.model m)) }
        ensures error { IfErr result (λ e. e ≢ Memory
            → (netlink_codec I.codec).rejects bytes.now tt e) }
        ensures memory_needed { IfErr result (λ e. e ≡ Memory
            → (m : NetlinkMessageModel I.codec.Value)
            × (netlink_codec I.codec).parses bytes.now tt m
            × ¬ (netlink_codec I.codec).needs_no_memory m) }
    {
        let header = NetlinkHeader::from_prefix(bytes)?;
        let payload = NetlinkPayload::read(alloc, &header, payload_of(&header, bytes))?;
        Ok(NetlinkMessage { header, payload })
    }
}

// Returns the payload of the message at the start of the bytes, which has this header: the bytes
// after the header, up to the header's length.
#[inline(always)]
fn payload_of<'a>(header: &NetlinkHeader, bytes: &'a [u8]) -> &'a [u8]
    requires { HasHeader bytes.now header.now }
    ensures { result.now ≡ message_payload bytes.entry.now header.now }
{
    &bytes[NETLINK_HEADER_LEN..header.length as usize]
}

impl<I: NetlinkSerializable> NetlinkMessage<I> {
    /// Sets the header's length to the length of the message in bytes, including the 16 of the
    /// header, and its type to the payload's type. The other fields of the header and the payload
    /// are unchanged. The message must be writable.
    pub fn finalize(&mut self)
        requires { (netlink_codec I.codec).is_writable (netlink_message_model I.model self.old) }
        ensures header { self.new.header ≡ finalized_header I.codec.serialized I.serialized_type
            (netlink_message_model I.model self.old) }
        ensures payload { self.new.payload ≡ self.old.payload }
    {
        // A writable message is shorter than 2^32 bytes.
        self.header.length = self.buffer_len() as u32;
        self.header.message_type = self.payload.message_type();
    }

    /// Returns whether the message is writable: its inner message is, and the whole has at most
    /// 4,294,967,295 bytes, including the 16 bytes of the header.
    pub fn is_writable(&self) -> bool
        ensures { IsTrue result ↔ (netlink_codec I.codec).is_writable
            (netlink_message_model I.model self.now) }
    {
        self.payload.is_writable()
            && self.payload.buffer_len() <= MAX_MESSAGE_LEN - NETLINK_HEADER_LEN
    }

    /// Returns the number of bytes that `serialize` writes, including the 16 of the header. The
    /// message must be writable.
    pub fn buffer_len(&self) -> usize
        requires { (netlink_codec I.codec).is_writable (netlink_message_model I.model self.now) }
        ensures { result ≡ length ((netlink_codec I.codec).serialized
            (netlink_message_model I.model self.now)) }
    {
        NETLINK_HEADER_LEN + self.payload.buffer_len()
    }

    /// Serializes the header, unchanged, and the payload to the start of the buffer. The bytes
    /// after them are unchanged. The message must be writable, and the buffer at least as long as
    /// its bytes.
    pub fn serialize(&self, buffer: &mut [u8])
        requires writable { (netlink_codec I.codec).is_writable
            (netlink_message_model I.model self.now) }
        requires room { length ((netlink_codec I.codec).serialized
            (netlink_message_model I.model self.now))
            ≤ length buffer.old }
        ensures written { HoldsAtStart ((netlink_codec I.codec).serialized
            (netlink_message_model I.model self.now)) buffer.old buffer.new }
        ensures in_range { (netlink_codec I.codec).is_in_range
            (netlink_message_model I.model self.now) }
    {
        let (header, payload) = buffer.split_at_mut(NETLINK_HEADER_LEN);
        self.header.write_fields(header);
        self.payload.serialize(payload);
    }
}
