//! The payload of an error, of an acknowledgement or of the end of a dump: the error number, the
//! request that it answers, and the attributes of an extended acknowledgement. In the contracts
//! `ack_number`, `ack_request` and `ack_attributes` are these three parts, the last two as bytes,
//! and `nested_bytes self.now.0` are the bytes of the attributes.

ghost use Rattle.std.specs.Prelude.{◌≡◌, ◌≤◌, ◌<◌, ◌+◌, ◌^◌, ◌↔◌, [], length, IfErr, IfOk};
ghost use Rattle.std.specs.Prelude.{IfSome, IsSome, Some, SomeIff, option_copied, option_map};
ghost use Rattle.netlink_core.specs.Attribute.{HasAttributeError};
ghost use Rattle.netlink_core.specs.AttributeSet.{decode_attribute};
ghost use Rattle.netlink_core.specs.NetlinkMessage.{leading_error_number};
ghost use Rattle.netlink_core.specs.Errors.{map_ok};
ghost use Rattle.netlink_core.specs.Header.{header_fields, header_values};
ghost use Rattle.netlink_core.specs.Table.{values_of};
ghost use Rattle.sock_diag_extras.specs.Acknowledgement.{HasCompleteRequest};
ghost use Rattle.sock_diag_extras.specs.Acknowledgement.{ack_attribute_bytes_from};
ghost use Rattle.sock_diag_extras.specs.Acknowledgement.{error_attribute_bytes};
ghost use Rattle.sock_diag_extras.specs.Acknowledgement.{acked_request_bytes, acked_request_length};
ghost use Rattle.sock_diag_extras.specs.Models.{ack_attributes, ack_number, ack_request};
ghost use Rattle.sock_diag_extras.specs.Models.{nested_bytes};
ghost use Rattle.sock_diag_extras.specs.Nested.{first_value_in, nested_text_in, nested_u32_in};

use crate::bytes::suffix_from;
use crate::constants::{
    NLM_F_ACK_TLVS, NLM_F_CAPPED, NLMSGERR_ATTR_COOKIE, NLMSGERR_ATTR_MISS_NEST,
    NLMSGERR_ATTR_MISS_TYPE, NLMSGERR_ATTR_MSG, NLMSGERR_ATTR_OFFS, NLMSGERR_ATTR_POLICY,
};
use crate::nested::NestedNlas;
use byteorder::{ByteOrder, LittleEndian};
use netlink_core::{DecodeError, NETLINK_HEADER_LEN, NetlinkHeader, error_number, padded};

/// The borrowed payload of an `NLMSG_ERROR` or `NLMSG_DONE`. The flags of the message's header
/// determine its format. It does not allocate.
#[derive(Clone, Copy, Debug, PartialEq, Eq)]
pub struct AckView<'a> {
    number: i32,
    // The header of the request and what was sent of its payload. Empty for an `NLMSG_DONE`.
    request: &'a [u8],
    // The bytes of the attributes; their framing is not checked.
    attributes: &'a [u8],
}

impl<'a> AckView<'a> {
    /// Returns the fields of an `NLMSG_ERROR` payload (netlink(7)): four bytes of the error number;
    /// the request, of which only the 16 bytes of the header are sent if the number is 0 or the
    /// flags have `NLM_F_CAPPED`; its padding to a multiple of 4; and attributes, if the flags have
    /// `NLM_F_ACK_TLVS`.
    ///
    /// Returns `None` if there are fewer than 20 bytes, or if the whole request is sent and its
    /// length field is below 16 or past the end of the bytes.
    pub fn of_error(flags: u16, payload: &'a [u8]) -> Option<AckView<'a>>
        ensures contained { IsSome result ↔ HasCompleteRequest flags payload.entry.now }
        ensures number { IfSome result (λ ack.
            leading_error_number payload.entry.now ≡ Some (ack_number ack)) }
        ensures request { IfSome result (λ ack.
            ack_request ack ≡ acked_request_bytes flags payload.entry.now) }
        ensures attributes { IfSome result (λ ack.
            ack_attributes ack ≡ error_attribute_bytes flags payload.entry.now) }
    {
        if payload.len() < 4 + NETLINK_HEADER_LEN {
            return None;
        }
        let number = error_number(payload)?;
        let length = request_length(flags, payload);
        // The request starts after the four bytes of the error number.
        if length < NETLINK_HEADER_LEN || length > payload.len() - 4 {
            return None;
        }
        Some(AckView {
            number,
            request: &payload[4..4 + length],
            attributes: attribute_bytes_from(flags, 4 + padded(length), payload),
        })
    }

    /// Returns the fields of an `NLMSG_DONE` payload: four bytes of the error number, and
    /// attributes, if the flags have `NLM_F_ACK_TLVS`. Returns `None` if there are fewer than four
    /// bytes.
    pub fn of_done(flags: u16, payload: &'a [u8]) -> Option<AckView<'a>>
        // `leading_error_number` is `None` if and only if there are fewer than four bytes, and so
        // is the result.
        ensures number { option_map ack_number result ≡ leading_error_number payload.entry.now }
        ensures request { IfSome result (λ ack. ack_request ack ≡ []) }
        ensures attributes { IfSome result (λ ack.
            ack_attributes ack ≡ ack_attribute_bytes_from flags 4 payload.entry.now) }
    {
        Some(AckView {
            number: error_number(payload)?,
            request: &[],
            attributes: attribute_bytes_from(flags, 4, payload),
        })
    }

    /// Returns the error number: 0 for success, else `-errno` (errno(3)).
    pub fn number(&self) -> i32
        ensures { result ≡ ack_number self.now }
    {
        self.number
    }

    /// Returns the bytes of the request that the message contains, starting with its header. There
    /// are none for the end of a dump. Offsets in the attributes count from the first of these
    /// bytes.
    pub fn request(&self) -> &'a [u8]
        ensures { result.now ≡ ack_request self.now }
    {
        self.request
    }

    /// Returns the header of the request. Returns `None` if the message contains fewer than the 16
    /// bytes of a header, as for the end of a dump.
    pub fn request_header(&self) -> Option<NetlinkHeader>
        ensures { SomeIff (option_map header_values result)
            (NETLINK_HEADER_LEN ≤ length (ack_request self.now))
            (values_of header_fields (ack_request self.now)) }
    {
        if self.request.len() < NETLINK_HEADER_LEN {
            return None;
        }
        Some(NetlinkHeader {
            length: LittleEndian::read_u32(self.request),
            message_type: LittleEndian::read_u16(&self.request[4..]),
            flags: LittleEndian::read_u16(&self.request[6..]),
            sequence_number: LittleEndian::read_u32(&self.request[8..]),
            port_number: LittleEndian::read_u32(&self.request[12..]),
        })
    }

    /// Returns the bytes of the attributes `NLMSGERR_ATTR_..`. Their framing is not checked.
    pub fn attribute_bytes(&self) -> &'a [u8]
        ensures { result.now ≡ ack_attributes self.now }
    {
        self.attributes
    }

    /// Returns the attributes `NLMSGERR_ATTR_..`, or their first framing error.
    pub fn attributes(&self) -> Result<AckAttributes<'a>, DecodeError>
        ensures kept { IfOk result (λ parsed. nested_bytes parsed.0 ≡ ack_attributes self.now) }
        ensures error { IfErr result (HasAttributeError (decode_attribute [])
            (ack_attributes self.now)) }
    {
        Ok(AckAttributes(NestedNlas::parse(self.attributes)?))
    }
}

/// The attributes of an extended acknowledgement, `NLMSGERR_ATTR_..` of `linux/netlink.h`,
/// borrowed. Each getter uses the first attribute of its kind, and returns `None` if there is none.
#[derive(Clone, Copy, Debug, PartialEq, Eq)]
pub struct AckAttributes<'a>(pub NestedNlas<'a>);

impl<'a> AckAttributes<'a> {
    /// Returns the error message or warning, `NLMSGERR_ATTR_MSG`, without one terminating NUL if it
    /// has one, or `Ok(None)` if there is none. Text that is not valid UTF-8 is `NotUtf8`.
    pub fn message(&self) -> Result<Option<&'a str>, DecodeError>
        ensures { map_ok option_copied result
            ≡ nested_text_in NLMSGERR_ATTR_MSG (nested_bytes self.now.0) }
    {
        self.0.text_of(NLMSGERR_ATTR_MSG)
    }

    /// Returns the offset of the invalid attribute in bytes, from the first byte of the request's
    /// header: the little-endian `u32` in `NLMSGERR_ATTR_OFFS`, or `Ok(None)` if there is none. A
    /// length other than 4 is `WrongLength`, without the kind.
    pub fn offset(&self) -> Result<Option<u32>, DecodeError>
        ensures { result ≡ nested_u32_in NLMSGERR_ATTR_OFFS (nested_bytes self.now.0) }
    {
        self.0.word_of(NLMSGERR_ATTR_OFFS)
    }

    /// Returns the cookie: the bytes of `NLMSGERR_ATTR_COOKIE`, or `None` if there is none. Their
    /// format depends on the kernel's subsystem.
    pub fn cookie(&self) -> Option<&'a [u8]>
        ensures { option_copied result
            ≡ first_value_in NLMSGERR_ATTR_COOKIE (nested_bytes self.now.0) }
    {
        self.0.value_of(NLMSGERR_ATTR_COOKIE)
    }

    /// Returns the policy of the rejected attribute: the value of `NLMSGERR_ATTR_POLICY`, which is
    /// the bytes of nested attributes, or `None` if there is none.
    pub fn policy(&self) -> Option<&'a [u8]>
        ensures { option_copied result
            ≡ first_value_in NLMSGERR_ATTR_POLICY (nested_bytes self.now.0) }
    {
        self.0.value_of(NLMSGERR_ATTR_POLICY)
    }

    /// Returns the kind of a required attribute that is missing: the little-endian `u32` in
    /// `NLMSGERR_ATTR_MISS_TYPE`, or `Ok(None)` if there is none. A length other than 4 is
    /// `WrongLength`, without the kind.
    pub fn missing_kind(&self) -> Result<Option<u32>, DecodeError>
        ensures { result ≡ nested_u32_in NLMSGERR_ATTR_MISS_TYPE (nested_bytes self.now.0) }
    {
        self.0.word_of(NLMSGERR_ATTR_MISS_TYPE)
    }

    /// Returns the offset of the nest in which the attribute is missing, in bytes from the first
    /// byte of the request's header: the little-endian `u32` in `NLMSGERR_ATTR_MISS_NEST`, or
    /// `Ok(None)` if there is none. The kernel does not send it if the attribute is missing in the
    /// message itself. A length other than 4 is `WrongLength`, without the kind.
    pub fn missing_nest(&self) -> Result<Option<u32>, DecodeError>
        ensures { result ≡ nested_u32_in NLMSGERR_ATTR_MISS_NEST (nested_bytes self.now.0) }
    {
        self.0.word_of(NLMSGERR_ATTR_MISS_NEST)
    }
}

// Returns the length of the request in an `NLMSG_ERROR` payload, in bytes: 16 if only its header is
// sent, else its length field. The payload must have at least 20 bytes: those of the error number
// and of a header.
fn request_length(flags: u16, payload: &[u8]) -> usize
    requires { 4 + NETLINK_HEADER_LEN ≤ length payload.now }
    ensures length { result ≡ acked_request_length flags payload.now }
    // Stated so that the sum of this length, its padding and 4 does not overflow.
    ensures small { result < 2 ^ 32 }
{
    // With an error number other than 0, and without the flag, the whole request is sent. Its
    // length field, at offset 4, is the first field of its header.
    if flags & NLM_F_CAPPED == 0 && LittleEndian::read_u32(payload) != 0 {
        LittleEndian::read_u32(&payload[4..]) as usize
    } else {
        NETLINK_HEADER_LEN
    }
}

// Returns the bytes of the attributes, which start at the offset `offset` of the payload, or none
// if the flags lack `NLM_F_ACK_TLVS`.
fn attribute_bytes_from(flags: u16, offset: usize, payload: &[u8]) -> &[u8]
    ensures { result.now ≡ ack_attribute_bytes_from flags offset payload.entry.now }
{
    if flags & NLM_F_ACK_TLVS == 0 {
        return &[];
    }
    suffix_from(payload, offset)
}
