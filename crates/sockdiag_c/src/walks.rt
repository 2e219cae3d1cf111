//! Iteration over the attributes of a reply and the messages of a datagram, without copying.

ghost use Rattle.std.specs.Prelude.{◌≡◌, drop};
ghost use Rattle.netlink_core.specs.NetlinkMessage.{leading_error_number};
ghost use Rattle.sockdiag_c.specs.Answers.{IsGetterResult};
ghost use Rattle.sockdiag_c.specs.Walks.{StepsOverAttribute, StepsOverMessage};
ghost use Rattle.sockdiag_c.specs.Walks.{StepsOverUncheckedMessage};

use crate::results::{END, ITEM, store};
use netlink_core::{
    NETLINK_HEADER_LEN, NLA_HEADER_SIZE, NLMSG_DONE, NLMSG_ERROR, NLMSG_NOOP, NLMSG_OVERRUN,
    NetlinkHeader, NlasIterator, error_number, padded,
};
use netlink_packet_sock_diag::SockDiagView;

/// Length of the error number of an `NLMSG_ERROR` or `NLMSG_DONE`, in bytes.
pub(crate) const ERROR_NUMBER_LEN: usize = 4;

/// State of an iteration. An iteration over all of the bytes starts with `offset` 0.
#[repr(C)]
#[derive(Clone, Copy)]
pub struct Cursor {
    /// Offset of the next item. No items are left if it is at or after the end of the bytes.
    pub offset: usize,
}

const _: () = prove!(std::mem::size_of::<Cursor>() == 8);

/// An attribute, `struct nlattr`, with the offset of its value in the bytes of the iteration.
#[repr(C)]
#[derive(Clone, Copy)]
pub struct AttributeRange {
    /// Offset of the value.
    pub offset: usize,
    /// Length of the value in bytes, without padding.
    pub length: usize,
    /// Type field (`nla_type`): the kind, such as `UNIX_DIAG_NAME`. The two upper bits are the
    /// flags `NLA_F_NESTED` and `NLA_F_NET_BYTEORDER`.
    pub type_word: u16,
}

const _: () = prove!(std::mem::size_of::<AttributeRange>() == 24);

/// A message of a datagram, with the offset of its payload in the datagram, and the fields of its
/// header.
#[repr(C)]
#[derive(Clone, Copy)]
pub struct MessageRange {
    /// Offset of the payload.
    pub offset: usize,
    /// Length of the payload in bytes, without padding: the length field (`nlmsg_len`) minus the 16
    /// bytes of the header.
    pub length: usize,
    /// Message type (`nlmsg_type`): `NLMSG_NOOP`, `NLMSG_ERROR`, `NLMSG_DONE` or `NLMSG_OVERRUN` of
    /// netlink(7), or `SOCK_DIAG_BY_FAMILY` for a reply. `sockdiag_next_message` rejects the
    /// payload of any other type.
    pub message_type: u16,
    /// The flags `NLM_F_..` (`nlmsg_flags`). `sockdiag_is_interrupted` tests `NLM_F_DUMP_INTR`.
    pub flags: u16,
    /// Sequence number (`nlmsg_seq`); an answer repeats the number of its request. Only
    /// `sockdiag_is_answer` compares it.
    pub sequence_number: u32,
    /// Port id (`nlmsg_pid`); an answer of the kernel has the port id of the socket that sent the
    /// request.
    pub port_number: u32,
}

const _: () = prove!(std::mem::size_of::<MessageRange>() == 32);

/// Stores the attribute at the cursor, and advances the cursor past it and its padding. The value
/// of the attribute is not checked. Returns one of:
/// - `SOCKDIAG_ITEM` if an attribute was stored;
/// - `SOCKDIAG_END` if no bytes are left, and then nothing is written;
/// - the code of the framing error at the cursor, 7 to 9; then the attribute is unchanged, and no
///   bytes are left.
///
/// In a checked reply, starting at the end of its header, the calls return each attribute, in
/// order, and then `SOCKDIAG_END`.
#[unsafe(no_mangle)]
pub extern "C" fn sockdiag_next_attribute(
    bytes: &[u8],
    cursor: &mut Cursor,
    attribute: &mut AttributeRange,
) -> u32
    ensures { StepsOverAttribute record {
      bytes = bytes.now;
      old_cursor = cursor.old;
      new_cursor = cursor.new;
      old_item = attribute.old;
      new_item = attribute.new;
      returned = result;
    } }
{
    let offset = cursor.offset;
    if offset >= bytes.len() {
        return END;
    }
    match NlasIterator::new(&bytes[offset..]).next() {
        // This does not occur, since bytes are left.
        None => END,
        Some(Ok(nla)) => {
            attribute.offset = offset + NLA_HEADER_SIZE;
            attribute.length = nla.value().len();
            attribute.type_word = nla.type_word();
            cursor.offset = offset + padded(NLA_HEADER_SIZE + attribute.length);
            ITEM
        }
        Some(Err(error)) => {
            cursor.offset = bytes.len();
            u32::from(error.number())
        }
    }
}

/// Stores the message at the cursor, and advances the cursor past it and its padding. Returns one
/// of:
/// - `SOCKDIAG_ITEM` if the message has one of the four `NLMSG_..` types, or is a reply that
///   `sockdiag_check_message` accepts;
/// - `SOCKDIAG_END` if no bytes are left, and then nothing is written;
/// - the code of the first error of the payload of a message of any other type; the message is set,
///   and the iteration may continue;
/// - the code of the framing error at the cursor, 16 to 18; then the message is unchanged, and no
///   bytes are left.
///
/// The end of a dump, `NLMSG_DONE`, does not end the iteration. The answer to a request without
/// `NLM_F_DUMP` is one message, and has no such end. Kernels put whole messages into a datagram: a
/// message that is split between two datagrams has a framing error in the first.
#[unsafe(no_mangle)]
pub extern "C" fn sockdiag_next_message(
    datagram: &[u8],
    cursor: &mut Cursor,
    message: &mut MessageRange,
) -> u32
    ensures { StepsOverMessage record {
      bytes = datagram.now;
      old_cursor = cursor.old;
      new_cursor = cursor.new;
      old_item = message.old;
      new_item = message.new;
      returned = result;
    } }
{
    let answer = sockdiag_next_any_message(datagram, cursor, message);
    // No message was stored.
    if answer != ITEM {
        return answer;
    }
    let payload = &datagram[message.offset..message.offset + message.length];
    match message.message_type {
        NLMSG_NOOP | NLMSG_ERROR | NLMSG_DONE | NLMSG_OVERRUN => ITEM,
        message_type => match SockDiagView::parse(payload, message_type) {
            Ok(_) => ITEM,
            Err(error) => u32::from(error.number()),
        },
    }
}

/// Stores the message at the cursor, and advances the cursor past it and its padding. Returns one
/// of:
/// - `SOCKDIAG_ITEM` if a message was stored, whatever its type and its payload;
/// - `SOCKDIAG_END` if no bytes are left, and then nothing is written;
/// - the code of the framing error at the cursor, 16 to 18; then the message is unchanged, and no
///   bytes are left. The rest of the datagram is lost, and with it possibly the end of the dump:
///   request the dump again, on another socket, instead of waiting for its end.
///
/// The payload is not checked. So a reply that is passed to `sockdiag_unix_get_details` or a
/// similar call is checked only once. A reply that such a call rejects does not end a dump:
/// continue with the next message.
#[unsafe(no_mangle)]
pub extern "C" fn sockdiag_next_any_message(
    datagram: &[u8],
    cursor: &mut Cursor,
    message: &mut MessageRange,
) -> u32
    ensures { StepsOverUncheckedMessage record {
      bytes = datagram.now;
      old_cursor = cursor.old;
      new_cursor = cursor.new;
      old_item = message.old;
      new_item = message.new;
      returned = result;
    } }
{
    let offset = cursor.offset;
    if offset >= datagram.len() {
        return END;
    }
    match NetlinkHeader::from_prefix(&datagram[offset..]) {
        Ok(header) => {
            // The length field counts the header: it is 16 or more, and within the datagram.
            let end = header.length as usize;
            *message = MessageRange {
                offset: offset + NETLINK_HEADER_LEN,
                length: end - NETLINK_HEADER_LEN,
                message_type: header.message_type,
                flags: header.flags,
                sequence_number: header.sequence_number,
                port_number: header.port_number,
            };
            cursor.offset = offset + padded(end);
            ITEM
        }
        Err(error) => {
            cursor.offset = datagram.len();
            u32::from(error.number())
        }
    }
}

/// Stores the error number at the start of the payload of an `NLMSG_ERROR` or `NLMSG_DONE`: 0 for
/// success, else `-errno`. If the payload has fewer than four bytes, the error is
/// `SOCKDIAG_WRONG_LENGTH`.
///
/// An `NLMSG_ERROR` with 0 is an acknowledgement. A dump that failed also ends with `NLMSG_DONE`,
/// so look at the number there too. A kernel that lacks the protocol answers a request for it with
/// `-ENOENT` or `-EINVAL`. What follows the number is not returned: the request, and for a socket
/// with `NETLINK_EXT_ACK` more about the error, which `sockdiag_find_error_attributes` finds.
#[unsafe(no_mangle)]
pub extern "C" fn sockdiag_get_error_number(payload: &[u8], number: &mut i32) -> u32
    ensures { IsGetterResult (leading_error_number payload.now)
        record { old = number.old; new = number.new; returned = result } }
{
    store(
        error_number(payload),
        payload.len(),
        ERROR_NUMBER_LEN,
        number,
    )
}

/// Returns the bytes from this offset on, or no bytes if the offset is past the end.
pub(crate) fn bytes_from(bytes: &[u8], offset: usize) -> &[u8]
    ensures { result.now ≡ drop offset bytes.entry.now }
{
    bytes.get(offset..).unwrap_or(&[])
}
