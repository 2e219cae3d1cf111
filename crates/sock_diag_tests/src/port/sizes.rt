//! Lists, payloads and dumps of each size: no allocation fails if there is memory. Long attributes.

use super::attribute_sizes::SIZES;
use super::parsers::{Subject, parse_all};
use super::{CONNECTED, INET, LISTENING, assert_debug, bytes, message_code};
use netlink_core::{
    CanonError, NLMSG_DONE, NLMSG_ERROR, NLMSG_OVERRUN, NetlinkMessage, NetlinkPayload,
};
use netlink_packet_sock_diag::{
    DumpReader, DumpState, LossyDump, SOCK_DIAG_BY_FAMILY, SockDiagDestroy, SockDiagMessage,
};
use std::alloc::Global;
use std::process::Abort;

/// Numbers of attributes and of messages above 300. Tests also use each number up to 300.
const COUNTS: [usize; 7] = [512, 1_000, 1_024, 2_048, 4_096, 8_192, 10_000];

/// Asserts that all parsers accept the bytes, and that the bytes have a canonical form.
fn assert_accepted(rt: &impl Abort, alloc: Global, subject: Subject, bytes: &[u8]) {
    let report = parse_all(rt, alloc, subject, bytes);
    assert!(rt; report.error.is_none() && report.form.is_ok());
}

/// Returns a netlink message with this type and this payload. Its other header fields are 0.
fn netlink_message(rt: &impl Abort, alloc: Global, message_type: u16, payload: &[u8]) -> Vec<u8> {
    let length = u32::try_from(payload.len().saturating_add(16)).unwrap_or(0);
    let [a, b, c, d] = length.to_le_bytes();
    let [low, high] = message_type.to_le_bytes();
    let header = [a, b, c, d, low, high, 0, 0, 0, 0, 0, 0, 0, 0, 0, 0];
    let mut message = Vec::from_slice(alloc, &header).expect(rt, "memory");
    message.extend_from_slice(payload).expect(rt, "memory");
    message
}

/// Asserts that the netlink message is parsed, with each of the two types of inner messages.
fn assert_message_parses(rt: &impl Abort, alloc: Global, message: &[u8]) {
    assert!(rt; message_code::<SockDiagMessage>(alloc, message) == 0);
    assert!(rt; message_code::<SockDiagDestroy>(alloc, message) == 0);
}

/// Returns the bytes of a header and of a number of equal attributes.
fn repeated(
    rt: &impl Abort,
    alloc: Global,
    header: &str,
    attribute: &str,
    count: usize,
) -> Vec<u8> {
    let attributes = attribute.repeat(alloc, count).expect(rt, "memory");
    bytes(rt, alloc, &[header, &attributes])
}

/// Asserts that a reply with this number of equal attributes is parsed: by itself, as a message,
/// and in a netlink message.
fn assert_reply_parses(
    rt: &impl Abort,
    alloc: Global,
    subject: Subject,
    header: &str,
    attribute: &str,
    count: usize,
) {
    let reply = repeated(rt, alloc, header, attribute, count);
    assert_accepted(rt, alloc, subject, &reply);
    assert_accepted(rt, alloc, Subject::Message, &reply);
    assert_message_parses(
        rt,
        alloc,
        &netlink_message(rt, alloc, SOCK_DIAG_BY_FAMILY, &reply),
    );
}

/// Asserts that a reply of this header and of equal attributes is parsed, for each number of
/// attributes up to 300 and in [`COUNTS`].
fn assert_replies_parse(
    rt: &impl Abort,
    alloc: Global,
    subject: Subject,
    header: &str,
    attribute: &str,
) {
    for count in 0..301 {
        assert_reply_parses(rt, alloc, subject, header, attribute, count);
    }
    for &count in &COUNTS {
        assert_reply_parses(rt, alloc, subject, header, attribute, count);
    }
}

/// Numbers of attributes above those in [`COUNTS`].
const LARGE: [usize; 5] = [16_384, 32_768, 65_536, 100_000, 131_072];

/// Checks lists of up to 131,072 attributes.
#[test]
fn long_lists(rt: HostRuntime) {
    // `UNIX_DIAG_SHUTDOWN` (6) and `INET_DIAG_SHUTDOWN` (8) with the value 2.
    let (unix, inet) = ("0500060002000000", "0500080002000000");
    for &count in &LARGE {
        assert_reply_parses(&rt, rt.alloc(), Subject::UnixReply, CONNECTED, unix, count);
        assert_reply_parses(&rt, rt.alloc(), Subject::InetReply, INET, inet, count);
    }
}

/// Checks attributes whose values need no allocation (`.._DIAG_SHUTDOWN`), and others that do:
/// names of one letter.
#[test]
fn lists_of_attributes(rt: HostRuntime) {
    let alloc = rt.alloc();
    assert_replies_parse(
        &rt,
        alloc,
        Subject::UnixReply,
        CONNECTED,
        "0500060002000000",
    );
    assert_replies_parse(
        &rt,
        alloc,
        Subject::UnixReply,
        CONNECTED,
        "0600000061000000",
    );
    assert_replies_parse(&rt, alloc, Subject::InetReply, INET, "0500080002000000");
    assert_replies_parse(&rt, alloc, Subject::InetReply, INET, "0600040061000000");
}

/// Asserts that a payload of this size is parsed, under each type of netlink(7) whose payload is
/// kept as bytes.
fn assert_payload_parses(rt: &impl Abort, alloc: Global, size: usize) {
    let payload = vec![in alloc; 7; size].expect(rt, "memory");
    assert_message_parses(
        rt,
        alloc,
        &netlink_message(rt, alloc, NLMSG_ERROR, &payload),
    );
    assert_message_parses(rt, alloc, &netlink_message(rt, alloc, NLMSG_DONE, &payload));
    assert_message_parses(
        rt,
        alloc,
        &netlink_message(rt, alloc, NLMSG_OVERRUN, &payload),
    );
}

#[test]
fn payloads(rt: HostRuntime) {
    for size in 0..301 {
        assert_payload_parses(&rt, rt.alloc(), size);
    }
    for &size in &SIZES {
        assert_payload_parses(&rt, rt.alloc(), size);
    }
}

/// Feeds the datagram, which does not end a dump, `times` times to both readers of dumps. Asserts
/// that each of them keeps `count` messages.
pub(super) fn assert_dump_keeps(
    rt: &impl Abort,
    alloc: Global,
    datagram: &[u8],
    times: usize,
    count: usize,
) {
    let mut reader = DumpReader::new(alloc);
    let mut lossy = LossyDump::new(alloc);
    for _ in 0..times {
        assert!(rt; reader.feed(datagram).is_ok() && lossy.feed(datagram).is_ok());
    }
    assert!(rt; reader.messages().len() == count && lossy.entries().len() == count);
    assert!(rt; reader.state() == DumpState::Reading);
}

/// Checks a dump of one datagram with this number of messages.
fn assert_datagram_kept(rt: &impl Abort, alloc: Global, message: &[u8], count: usize) {
    let datagram = message.repeat(alloc, count).expect(rt, "memory");
    assert_dump_keeps(rt, alloc, &datagram, 1, count);
}

/// Returns a message with a reply that has no attributes.
fn short_message(rt: &impl Abort, alloc: Global) -> Vec<u8> {
    netlink_message(
        rt,
        alloc,
        SOCK_DIAG_BY_FAMILY,
        &bytes(rt, alloc, &[LISTENING]),
    )
}

/// Checks a dump of one datagram with each number of messages.
#[test]
fn dumps_of_one_datagram(rt: HostRuntime) {
    let message = short_message(&rt, rt.alloc());
    for count in 0..301 {
        assert_datagram_kept(&rt, rt.alloc(), &message, count);
    }
    for &count in &COUNTS {
        assert_datagram_kept(&rt, rt.alloc(), &message, count);
    }
}

/// Asserts that the reply in the message, parsed as a `SockDiagDestroy`, has an equal clone.
fn assert_clone_is_equal(rt: &impl Abort, alloc: Global, message: &[u8]) {
    let closing = NetlinkMessage::<SockDiagDestroy>::deserialize(alloc, message);
    match &closing.expect(rt, "refused").payload {
        NetlinkPayload::InnerMessage(destroy) => {
            let copy = destroy.clone(alloc).expect(rt, "memory");
            assert!(rt; copy == *destroy);
        }
        _ => panic!(rt; "no inner message"),
    }
}

/// Checks a dump of one reply with this number of attributes, and a clone of the reply as a
/// `SockDiagDestroy`.
fn assert_reply_kept(rt: &impl Abort, alloc: Global, header: &str, attribute: &str, count: usize) {
    let reply = repeated(rt, alloc, header, attribute, count);
    let message = netlink_message(rt, alloc, SOCK_DIAG_BY_FAMILY, &reply);
    assert_dump_keeps(rt, alloc, &message, 1, 1);
    assert_clone_is_equal(rt, alloc, &message);
}

/// Checks a dump of one reply of each family with this number of attributes.
fn assert_replies_kept(rt: &impl Abort, alloc: Global, count: usize) {
    assert_reply_kept(rt, alloc, CONNECTED, "0500060002000000", count);
    assert_reply_kept(rt, alloc, INET, "0500080002000000", count);
}

/// Checks a dump of one reply with each number of attributes.
#[test]
fn dumps_of_one_message(rt: HostRuntime) {
    for count in 0..301 {
        assert_replies_kept(&rt, rt.alloc(), count);
    }
    for &count in &COUNTS {
        assert_replies_kept(&rt, rt.alloc(), count);
    }
}

/// Checks a dump whose datagrams have one message each, so that each datagram adds one message.
#[test]
fn dumps_of_many_datagrams(rt: HostRuntime) {
    let message = short_message(&rt, rt.alloc());
    assert_dump_keeps(&rt, rt.alloc(), &message, 100_000, 100_000);
}

/// A row has a header, the first four bytes of an attribute, a byte, how often this byte is
/// repeated, and the digits that follow. Last is the length of the canonical form, or why there is
/// none, as `Debug` prints it. Headers and attributes are in hexadecimal.
type Long = (
    &'static str,
    &'static str,
    u8,
    usize,
    &'static str,
    &'static str,
);

/// Replies with one long attribute.
const LONG: [Long; 8] = [
    // An unknown type.
    (LISTENING, "ffff0700", 1, 65_531, "", "Ok(65552)"),
    // Texts (`INET_DIAG_CONG`): too long for a NUL; with a NUL; with a NUL, padding and an
    // attribute; and without a NUL, which the serializer appends.
    (INET, "ffff0400", 97, 65_531, "", "Err(Unwritable)"),
    (INET, "ffff0400", 97, 65_530, "00", "Ok(65608)"),
    (INET, "ffff0400", 97, 65_530, "00000500080000", "Ok(65616)"),
    (INET, "feff0400", 97, 65_530, "", "Ok(65608)"),
    // `INET_DIAG_INFO` with a byte after its record of 232 bytes, before padding and an attribute,
    // and at the end; and with a record that is too short.
    (INET, "ed000200", 0, 233, "aaaaaa0500084002", "Ok(316)"),
    (INET, "ed000200", 0, 233, "", "Ok(308)"),
    (
        INET,
        "eb000200",
        0,
        231,
        "",
        "Err(Refused(BufferTooSmall { which: TcpInfo, got: 231, need: 232 }))",
    ),
];

/// Returns the length of the canonical form of the bytes as a message, or why there is none.
fn written_len(rt: &impl Abort, alloc: Global, bytes: &[u8]) -> Result<usize, CanonError> {
    match &parse_all(rt, alloc, Subject::Message, bytes).form {
        Ok(form) => Ok(form.len()),
        Err(error) => Err(*error),
    }
}

/// Returns the bytes of these digits, followed by `count` equal bytes.
fn followed_by(rt: &impl Abort, alloc: Global, digits: &[&str], byte: u8, count: usize) -> Vec<u8> {
    let mut padded = bytes(rt, alloc, digits);
    let len = padded.len().saturating_add(count);
    padded.resize(len, byte).expect(rt, "memory");
    padded
}

/// Returns the bytes of the reply in a row.
fn long_reply(rt: &impl Abort, alloc: Global, row: &Long) -> Vec<u8> {
    let (header, head, byte, count, back, _) = *row;
    let mut reply = followed_by(rt, alloc, &[header, head], byte, count);
    let back = bytes(rt, alloc, &[back]);
    reply.extend_from_slice(&back).expect(rt, "memory");
    reply
}

#[test]
fn long_attributes(rt: HostRuntime) {
    for row in &LONG {
        let reply = long_reply(&rt, rt.alloc(), row);
        let len = written_len(&rt, rt.alloc(), &reply);
        assert_debug(&rt, rt.alloc(), &len, row.5);
    }
}
