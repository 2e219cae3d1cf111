//! Decode errors with their fields, as a C struct. The other calls return the code only.

ghost use Rattle.std.specs.Prelude.{◌≡◌, ◌≢◌, ◌⊎◌, [], MatchResult, length};
ghost use Rattle.netlink_core.specs.Errors.{error_code};
ghost use Rattle.netlink_core.specs.Header.{HasHeader, IsMessageError};
ghost use Rattle.netlink_core.specs.Response.{response_codec};
ghost use Rattle.netlink_packet_sock_diag.specs.Message.{message_codec};
ghost use Rattle.sock_diag_replies.specs.InetResponseSpec.{inet_response_spec};
ghost use Rattle.sock_diag_replies.specs.UnixResponseSpec.{unix_response_spec};
ghost use Rattle.sockdiag_c.specs.Answers.{padded_or_truncated};
ghost use Rattle.sockdiag_c.specs.ErrorDetails.{IsExplained, IsItemExplained, error_details_of};
ghost use Rattle.sockdiag_c.specs.ErrorOffsets.{HasOffset};
ghost use Rattle.sockdiag_c.specs.declared.error_details.ErrorDetails.{ErrorDetails};
ghost use Rattle.sockdiag_c.specs.ExplainedReplies.{IsErrorExplained, IsReplyExplained};
ghost use Rattle.sockdiag_c.specs.ErrorDetails.{record_code, record_family, record_kind};
ghost use Rattle.sockdiag_c.specs.Family.{AreDetailsOf, IsFirstError};

use crate::details::{Number, ReplyDetails, fill_details};
use crate::error_offsets::error_offset;
use crate::netlink_details::NetlinkDetails;
use crate::packet_details::PacketDetails;
use crate::results::{INVALID_ARGUMENT, OK, copy_padded};
use crate::xdp_details::XdpDetails;
use netlink_core::{DecodeError, FamilyView, NetlinkHeader, NlasIterator, RecordName};
use netlink_packet_sock_diag::constants::{AF_INET, AF_INET6, AF_UNIX, SOCK_DIAG_BY_FAMILY};
use netlink_packet_sock_diag::inet::InetResponseView;
use netlink_packet_sock_diag::unix::UnixResponseView;
use netlink_packet_sock_diag::{AF_NETLINK, AF_PACKET, SockDiagView};
use sock_diag_attributes::inet::nlas::NlaView as InetNlaView;
use sock_diag_attributes::unix::nlas::NlaView as UnixNlaView;
use sock_diag_families::vsock::{AF_VSOCK, VsockResponseHeader};
use sock_diag_families::xdp::AF_XDP;

/// `what` of `sockdiag_explain`: the payload of a message.
pub(crate) const EXPLAIN_MESSAGE: u32 = 256;

/// `what` of `sockdiag_explain`: a datagram from the cursor on.
pub(crate) const EXPLAIN_DATAGRAM: u32 = 257;

/// `what` of `sockdiag_explain`: an attribute of a UNIX socket.
pub(crate) const EXPLAIN_UNIX_ATTRIBUTE: u32 = 258;

/// `what` of `sockdiag_explain`: an attribute of an IPv4 or IPv6 socket.
pub(crate) const EXPLAIN_INET_ATTRIBUTE: u32 = 259;

/// A decode error with its fields. A field that the error does not have is 0.
#[repr(C)]
#[derive(Clone, Copy, Default)]
pub struct ErrorDetails {
    /// Code of the error, one of `enum sockdiag_code`.
    pub code: u32,
    /// Record that has too few bytes, one of `SOCKDIAG_RECORD_..`
    /// (`SOCKDIAG_BUFFER_TOO_SMALL`). `SOCKDIAG_RECORD_MEM_INFO` is also the memory of a netlink,
    /// packet or XDP socket.
    pub record_name: u32,
    /// Address family that is not supported (`SOCKDIAG_UNSUPPORTED_FAMILY`) or not known
    /// (`SOCKDIAG_UNKNOWN_FAMILY`). If `record_name` is one of `SOCKDIAG_RECORD_FAMILY_..`, the
    /// family of the record.
    pub family: u32,
    /// Kind of the attribute whose value has a wrong length (`SOCKDIAG_WRONG_LENGTH`), or too few
    /// bytes for its record (`SOCKDIAG_RECORD_FAMILY_ATTRIBUTE`). Not set for other records, such
    /// as memory counters.
    pub kind: Number,
    /// Number of bytes that were found: of the record, value or message; or, for an attribute whose
    /// header is cut or whose length field is too large, up to the end.
    pub got: usize,
    /// Number of bytes that are needed.
    pub need: usize,
    /// Length field of the attribute or of the message.
    pub length: usize,
    /// Index of the first NUL in a pathname (`SOCKDIAG_NAME_INNER_ZERO`).
    pub index: usize,
    /// Offset of the error in the bytes: that of the attribute whose framing or value is wrong. 0
    /// if the header is wrong, and for a datagram or a single attribute.
    pub offset: usize,
}

const _: () = prove!(std::mem::size_of::<ErrorDetails>() == 64);

// Returns the number `SOCKDIAG_RECORD_..` of the record with this name, the family that the name
// has, or 0, and the kind of attribute that it has, or `None`. `tools/bindings` writes the numbers
// into the header.
fn record_fields(which: RecordName) -> (u32, u8, Option<u16>)
    ensures { result ≡ (record_code which, record_family which, record_kind which) }
{
    match which {
        RecordName::SocketId => (1, 0, None),
        RecordName::InetRequest => (2, 0, None),
        RecordName::InetResponseHeader => (3, 0, None),
        RecordName::UnixRequest => (4, 0, None),
        RecordName::UnixResponseHeader => (5, 0, None),
        RecordName::LegacyMemInfo => (6, 0, None),
        RecordName::MemInfo => (7, 0, None),
        RecordName::TcpInfo => (8, 0, None),
        RecordName::Vfs => (9, 0, None),
        RecordName::UnixMemInfo => (10, 0, None),
        RecordName::FamilyRequest { family } => (11, family, None),
        RecordName::FamilyResponseHeader { family } => (12, family, None),
        RecordName::FamilyAttribute { family, kind } => (13, family, Some(kind)),
    }
}

// Returns the struct with the code and the fields of the error. Fields that it does not have are 0.
fn details_of(error: DecodeError) -> ErrorDetails
    ensures { result ≡ error_details_of error }
{
    let mut details = ErrorDetails::default();
    details.code = u32::from(error.number());
    match error {
        DecodeError::BufferTooSmall { which, got, need } => {
            let (record_name, family, kind) = record_fields(which);
            details.record_name = record_name;
            details.family = u32::from(family);
            details.kind = Number::from(kind.map(u32::from));
            details.got = got;
            details.need = need;
        }
        DecodeError::UnsupportedFamily { family } => details.family = u32::from(family),
        DecodeError::UnknownFamily { family } => details.family = u32::from(family),
        DecodeError::MessageTooShort { got }
        | DecodeError::AttributeHeaderCut { left: got }
        | DecodeError::NotMultipleOfFour { got }
        | DecodeError::EnvelopeCut { got } => details.got = got,
        DecodeError::AttributeLengthUnder4 { length } => details.length = usize::from(length),
        DecodeError::AttributeLengthPast { length, left } => {
            details.length = usize::from(length);
            details.got = left;
        }
        DecodeError::WrongLength { kind, got, need } => {
            details.kind = Number::from(kind.map(u32::from));
            details.got = got;
            details.need = need;
        }
        DecodeError::NameInnerZero { index } => details.index = index,
        DecodeError::EnvelopeLengthUnder16 { length } => details.length = length as usize,
        DecodeError::EnvelopeLengthPast { length, got } => {
            details.length = length as usize;
            details.got = got;
        }
        // The other errors have no field, or one of the header of the message.
        _ => {}
    }
    details
}

// Stores the code and the fields of the error of `parsed`, and returns its code. Returns 0 if
// `parsed` is `Ok`; then nothing is stored.
#[inline(always)]
fn explain<T: Drop>(parsed: Result<T, DecodeError>, error: &mut ErrorDetails) -> u32
    ensures { MatchResult parsed (λ _. (result ≡ 0) × (error.new ≡ error.old))
        (λ e. (result ≡ error_code e) × (error.new ≡ error_details_of e)) }
{
    match parsed {
        Ok(_) => OK,
        Err(found) => {
            *error = details_of(found);
            error.code
        }
    }
}

/// Stores the error of bytes that another call rejected, with its fields, and returns its code.
/// Returns 0 if the bytes are accepted; then the error is unchanged. `what` says what the bytes
/// are:
/// - a family, such as `AF_INET`: a whole reply about a socket of this family, which is its first
///   byte, and which `sockdiag_.._get_details` rejects. Another family is
///   `SOCKDIAG_UNKNOWN_FAMILY`;
/// - `SOCKDIAG_EXPLAIN_MESSAGE`: the payload of a message of type `SOCK_DIAG_BY_FAMILY`, which
///   `sockdiag_next_message` rejects;
/// - `SOCKDIAG_EXPLAIN_DATAGRAM`: the rest of a datagram, from the offset that the cursor had
///   before `sockdiag_next_any_message` rejected it;
/// - `SOCKDIAG_EXPLAIN_UNIX_ATTRIBUTE` or `SOCKDIAG_EXPLAIN_INET_ATTRIBUTE`: a part of a reply that
///   begins with an attribute, which a lenient call rejects. Only this attribute is checked.
///
/// Any other number is `SOCKDIAG_INVALID_ARGUMENT`.
#[unsafe(no_mangle)]
pub extern "C" fn sockdiag_fill_explain(
    what: u32,
    bytes: &[u8],
    error: &mut ErrorDetails,
    later: &mut [u8],
) -> u32
    // `details`: the struct without the offset.
    ensures error { (details : ErrorDetails) × IsErrorExplained what bytes.now
        record { old = error.old; new = details; returned = result }
        × HasOffset what bytes.now
        record { old = details; new = error.new; returned = result } }
    ensures later { result ≢ 0 → result ≢ INVALID_ARGUMENT
        → later.new ≡ padded_or_truncated (length later.old) [] }
    ensures unchanged { (result ≡ 0) ⊎ (result ≡ INVALID_ARGUMENT) → later.new ≡ later.old }
{
    let code = explain_bytes(what, bytes, error);
    if code != OK && code != INVALID_ARGUMENT {
        error.offset = error_offset(what, bytes);
        copy_padded(&[], later);
    }
    code
}

// Explains the first error of the bytes, which are what `what` says.
fn explain_bytes(what: u32, bytes: &[u8], error: &mut ErrorDetails) -> u32
    ensures { IsErrorExplained what bytes.now
        record { old = error.old; new = error.new; returned = result } }
{
    match what {
        EXPLAIN_MESSAGE => explain_message(bytes, error),
        EXPLAIN_DATAGRAM => explain_datagram(bytes, error),
        EXPLAIN_UNIX_ATTRIBUTE => explain_item::<UnixNlaView<'_>>(bytes, error),
        EXPLAIN_INET_ATTRIBUTE => explain_item::<InetNlaView<'_>>(bytes, error),
        _ if what < EXPLAIN_MESSAGE => explain_reply(what as u8, bytes, error),
        _ => INVALID_ARGUMENT,
    }
}

// Explains the first error of a reply about a socket of this family.
fn explain_reply(family: u8, payload: &[u8], error: &mut ErrorDetails) -> u32
    ensures { IsReplyExplained family payload.now
        record { old = error.old; new = error.new; returned = result } }
{
    match family {
        AF_UNIX => explain_unix(payload, error),
        AF_INET | AF_INET6 => explain_inet(payload, error),
        AF_NETLINK => explain_details::<NetlinkDetails<'_>>(payload, error),
        AF_PACKET => explain_details::<PacketDetails<'_>>(payload, error),
        AF_VSOCK => explain_details::<VsockResponseHeader>(payload, error),
        AF_XDP => explain_details::<XdpDetails>(payload, error),
        family => explain::<()>(Err(DecodeError::UnknownFamily { family }), error),
    }
}

// Explains the first error of a reply about a UNIX socket.
fn explain_unix(payload: &[u8], error: &mut ErrorDetails) -> u32
    ensures { IsExplained ((response_codec unix_response_spec).parses payload.now tt)
        ((response_codec unix_response_spec).rejects payload.now tt)
        record { old = error.old; new = error.new; returned = result } }
{
    explain(UnixResponseView::parse(payload), error)
}

// Explains the first error of a reply about an IPv4 or IPv6 socket.
fn explain_inet(payload: &[u8], error: &mut ErrorDetails) -> u32
    ensures { IsExplained ((response_codec inet_response_spec).parses payload.now tt)
        ((response_codec inet_response_spec).rejects payload.now tt)
        record { old = error.old; new = error.new; returned = result } }
{
    explain(InetResponseView::parse(payload), error)
}

// Explains the first error of a reply that is read into the details `T`.
fn explain_details<'a, T: ReplyDetails<'a>>(payload: &'a [u8], error: &mut ErrorDetails) -> u32
    ensures { IsExplained (AreDetailsOf T.family payload.entry.now)
        (IsFirstError T.family payload.entry.now)
        record { old = error.old; new = error.new; returned = result } }
{
    explain(fill_details(payload, &mut T::default()), error)
}

// Explains the first error of the payload of a message.
fn explain_message(payload: &[u8], error: &mut ErrorDetails) -> u32
    ensures { IsExplained (message_codec.parses payload.now SOCK_DIAG_BY_FAMILY)
        (message_codec.rejects payload.now SOCK_DIAG_BY_FAMILY)
        record { old = error.old; new = error.new; returned = result } }
{
    explain(SockDiagView::parse(payload, SOCK_DIAG_BY_FAMILY), error)
}

// Explains the framing error at the start of the bytes of a datagram.
fn explain_datagram(bytes: &[u8], error: &mut ErrorDetails) -> u32
    ensures { IsExplained (HasHeader bytes.now) (IsMessageError bytes.now)
        record { old = error.old; new = error.new; returned = result } }
{
    explain(NetlinkHeader::from_prefix(bytes), error)
}

// Stores the code and the fields of the error of the first attribute, and returns its code. Returns
// 0 if the attribute is valid or there are no bytes. `V`: the view of the attributes of a family.
fn explain_item<'a, V: FamilyView<'a> + Drop>(bytes: &'a [u8], error: &mut ErrorDetails) -> u32
    ensures { IsItemExplained V.attribute_set bytes.entry.now
        record { old = error.old; new = error.new; returned = result } }
{
    match NlasIterator::new(bytes).next() {
        Some(Ok(nla)) => explain(V::read_view(&nla), error),
        Some(Err(framing_error)) => explain::<()>(Err(framing_error), error),
        None => OK,
    }
}
