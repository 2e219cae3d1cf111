//! The tests of the port: of `netlink_packet_sock_diag` and the crates that it uses.
//!
//! Test data and helpers. The bytes were worked out by hand from the layouts in sock_diag(7) and
//! netlink(7).

ghost use Rattle.std.specs.Iterator.{IsFinite};

use netlink_core::{CanonError, DecodeError, Emitable, NetlinkDeserializable, NetlinkMessage};
use std::alloc::Global;
use std::fmt::Debug;
use std::process::Abort;

mod attribute_sizes;
mod attributes;
mod hostile;
mod netlink;
mod out_of_memory;
mod parsers;
mod records;
mod replies;
mod requests;
mod sizes;
mod views;

/// The header of a reply about a listening UNIX socket.
const LISTENING: &str = "01010a000e4f0000a002000000000000";

/// The header of a reply about a connected UNIX socket.
const CONNECTED: &str = "01010100b77c00002200000000000000";

/// The header of a reply about an IPv4 connection with a keepalive timer: 0x6080 milliseconds,
/// which is 24.704 seconds.
const INET: &str = "02010200eb1401bbc0a8b23c000000000000000000000000acd917830000000000000000000000\
00000000005203000000000000806000000000000000000000e8030000a8da2900";

/// A reply about a listening socket at /tmp/.ICE-unix/1151, with a limit of 128 pending
/// connections.
const PATH: &str = "01010a000e4f0000a002000000000000180000002f746d702f2e4943452d756e69782f31313531\
000c00040000000000800000000500060000000000";

/// A reply about a listening socket with an abstract name, and the same limit.
const ABSTRACT: &str = "01010a000e4f0000a002000000000000300000000031633134343063356635653261353265\
2f6275732f73797374656d642f002f6275732d6170692d757365720c00040000000000800000000500060000000000";

/// A reply about a connected socket at /run/user/1000/bus, with its peer, the queue lengths 0 and
/// 0, and no direction shut down.
const PEER: &str = "01010100b77c00002200000000000000170000002f72756e2f757365722f313030302f62757300\
0008000200567900000c00040000000000000000000500060000000000";

/// An attribute `INET_DIAG_SHUTDOWN` with the value 0: no direction is shut down.
const SHUTDOWN: &str = "0500080000000000";

/// A request for UNIX sockets.
const UNIX_REQUEST: &str = "01000000020400003412000004000000ffffffffffffffff";

/// The digits of sixteen zero bytes.
const ZEROS: &str = "00000000000000000000000000000000";

/// Returns the bytes of the hexadecimal digits in all of the parts, concatenated.
fn bytes(rt: &impl Abort, alloc: Global, parts: &[&str]) -> Vec<u8> {
    let digits = parts.concat(alloc).expect(rt, "memory");
    hex::decode(alloc, digits.as_str()).expect(rt, "digits")
}

/// Splits a row at its first space. Returns the bytes of the digits in `front` and in the row
/// before the space, and the text after the space.
fn cells<'a>(rt: &impl Abort, alloc: Global, front: &str, row: &'a str) -> (Vec<u8>, &'a str) {
    let (digits, text) = row.split_once(' ').expect(rt, "no text");
    (bytes(rt, alloc, &[front, digits]), text)
}

/// Asserts that two texts are equal.
fn assert_text(rt: &impl Abort, shown: &str, text: &str) {
    assert!(rt; shown == text, "{shown}");
}

/// Asserts that the bytes are equal.
fn assert_bytes(rt: &impl Abort, bytes: &[u8], expected: &[u8]) {
    assert!(rt; bytes == expected, "{bytes:?}");
}

/// Asserts that `part` occurs in the text.
fn assert_contains(rt: &impl Abort, text: &str, part: &str) {
    assert!(rt; text.contains(part), "{text}");
}

/// Serializes the value to the start of a buffer of two more bytes. Returns the bytes of the value,
/// or the whole buffer if one of the two bytes has changed.
fn emitted<T: Emitable>(alloc: Global, value: &T) -> Result<Vec<u8>, CanonError> {
    let Some(len) = value.writable_len() else {
        return Err(CanonError::Unwritable);
    };
    let mut buffer = vec![in alloc; 0xff; len]?;
    buffer.extend_from_slice(&[0xff, 0xff])?;
    value.emit(&mut buffer);
    if buffer.ends_with(&[0xff, 0xff]) {
        buffer.truncate(len);
    }
    Ok(buffer)
}

/// Asserts that the value serializes to these bytes.
fn assert_emits<T: Emitable>(rt: &impl Abort, alloc: Global, value: &T, bytes: &[u8]) {
    assert_bytes(rt, &emitted(alloc, value).expect(rt, "unwritable"), bytes);
}

/// Returns what `Debug` prints for the value.
fn debug_text<T: Debug>(rt: &impl Abort, alloc: Global, value: &T) -> String {
    format!(in alloc; "{value:?}").expect(rt, "memory")
}

/// Asserts that `Debug` prints the value as this text.
fn assert_debug<T: Debug>(rt: &impl Abort, alloc: Global, value: &T, text: &str) {
    assert_text(rt, debug_text(rt, alloc, value).as_str(), text);
}

/// Asserts that `part` occurs in what `Debug` prints for the value.
fn assert_debug_contains<T: Debug>(rt: &impl Abort, alloc: Global, value: &T, part: &str) {
    assert_contains(rt, debug_text(rt, alloc, value).as_str(), part);
}

/// Asserts that `{:#?}` prints the value as these lines.
fn assert_debug_lines<T: Debug>(rt: &impl Abort, alloc: Global, value: &T, lines: &str) {
    let shown = format!(in alloc; "{value:#?}").expect(rt, "memory");
    assert_text(rt, shown.as_str(), lines);
}

/// Asserts that `Debug` prints the list of all items of the iterator as this text.
fn assert_items<I: Iterator + Drop>(rt: &impl Abort, alloc: Global, walk: I, text: &str)
where
    I::Item: Debug + Drop,
    // The loop may call `next`, and the number of items left is finite, so that it ends.
    requires { I.can_next walk × IsFinite (I.remaining walk) }
{
    let mut items = Vec::new(alloc);
    for item in walk {
        items.push(item).expect(rt, "memory");
    }
    assert_debug(rt, alloc, &items, text);
}

/// Returns the code of the error, or 0 for a value.
fn code<T: Drop>(read: &Result<T, DecodeError>) -> u8 {
    match read {
        Ok(_) => 0,
        Err(error) => error.number(),
    }
}

/// Parses a netlink message. Returns the code of the error, or 0 for a message.
fn message_code<I: NetlinkDeserializable + Drop>(alloc: Global, bytes: &[u8]) -> u8 {
    code(&NetlinkMessage::<I>::deserialize(alloc, bytes))
}
