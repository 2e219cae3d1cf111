//! Answers to long lines, to lines whose values are not writable, and to lines that are not text.

use super::{LARGE, repeated};
use sock_diag_lines::answer;
use std::alloc::Global;
use std::process::Abort;

/// Asserts that the line has this answer.
fn assert_answer(rt: &impl Abort, alloc: Global, line: &[u8], expected: &[u8]) {
    assert!(rt; answer(alloc, line).expect(rt, "memory").as_slice() == expected);
}

/// The header of a reply about a TCP connection.
const INET_HEADER: &str = "02010200eb1401bbc0a8b23c000000000000000000000000acd917830000000000000000\
00000000000000005203000000000000806000000000000000000000e8030000a8da2900";

/// The header of a reply about a UNIX socket.
const UNIX_HEADER: &str = "01010100b77c00002200000000000000";

/// A line with a reply that has one long attribute, and its answer. The line consists of `front`,
/// `header`, `attribute`, the value (`count` times `byte`) and `back`.
#[derive(Clone, Copy)]
struct LongLine {
    /// Name of the line, and the bytes before the reply.
    front: &'static str,
    /// Header of the reply.
    header: &'static str,
    /// Header of the attribute.
    attribute: &'static str,
    /// Digits of the byte that is repeated in the value.
    byte: &'static str,
    /// How often the byte is repeated.
    count: usize,
    /// Digits after the value: the end of the value, its padding, or what follows the reply.
    back: &'static str,
    /// Rest of the answer, after `ok`, the reply and the value; `None` if the answer is
    /// `unwritable`.
    answer_back: Option<&'static str>,
}

/// A line with a reply about a TCP connection, whose congestion control algorithm has 65,531
/// letters.
const CONGESTION: LongLine = LongLine {
    front: "inet ",
    header: INET_HEADER,
    // Length 65,535, type 4 (`INET_DIAG_CONG`).
    attribute: "ffff0400",
    byte: "61",
    count: 65_531,
    back: "",
    answer_back: None,
};

/// The start of a line with a netlink message of 65,623 bytes, up to its reply. The message has a
/// header of 16 bytes, a reply header of 72 and an attribute of 65,535 bytes.
const NETLINK: &str = "netlink 57000100140000000000000000000000";

/// The start of a line with a dump: a message with a reply about a listening UNIX socket, and in
/// the next datagram a message like [`NETLINK`], up to its reply.
const DUMP: &str = "dump 2000000014000200070000000000000001010a000e4f0000a002000000000000 \
57000100140002000700000000000000";

/// The end of a dump, in another datagram.
const END: &str = " 1400000003000200070000000000000000000000";

/// Lines with long attributes. The name of a congestion control algorithm of 65,531 letters is
/// accepted, but its attribute has no space for the terminating NUL, so it is not writable. With
/// one letter less it is serialized with its NUL and its padding, alone and before another
/// attribute. A message or a dump with a reply that is not writable is not writable either. The
/// longest attribute of an unknown type is serialized with its padding.
const LONG_LINES: [LongLine; 7] = [
    CONGESTION,
    // The name ends with its NUL. The answer has a byte of padding after it.
    LongLine {
        count: 65_530,
        back: "00",
        answer_back: Some("0000"),
        ..CONGESTION
    },
    // The NUL, the padding, and an attribute of type 8 (`INET_DIAG_SHUTDOWN`).
    LongLine {
        count: 65_530,
        back: "00000500080000000000",
        answer_back: Some("00000500080000000000"),
        ..CONGESTION
    },
    // The first line's reply in a message, and in dumps with and without padding after the message.
    LongLine {
        front: NETLINK,
        ..CONGESTION
    },
    LongLine {
        front: DUMP,
        back: "00",
        ..CONGESTION
    },
    LongLine {
        front: DUMP,
        back: END,
        ..CONGESTION
    },
    LongLine {
        front: "unix ",
        header: UNIX_HEADER,
        // Length 65,535, type 7 (`UNIX_DIAG_UID`), which the port leaves raw.
        attribute: "ffff0700",
        byte: "ee",
        count: 65_531,
        back: "",
        answer_back: Some("00"),
    },
];

/// Asserts that the line is answered with `ok`, the reply and `answer_back`, or with `unwritable`.
fn assert_long_answer(rt: &impl Abort, alloc: Global, long: &LongLine) {
    let value = long.byte.repeat(alloc, long.count).expect(rt, "memory");
    let reply = [long.header, long.attribute, value.as_str()].concat(alloc);
    let reply = reply.expect(rt, "memory");
    let line = [long.front, reply.as_str(), long.back].concat(alloc);
    let answer = match long.answer_back {
        Some(back) => ["ok ", reply.as_str(), back].concat(alloc),
        None => String::from_str(alloc, "unwritable"),
    };
    let (line, answer) = (line.expect(rt, "memory"), answer.expect(rt, "memory"));
    assert_answer(rt, alloc, line.as_bytes(), answer.as_bytes());
}

#[test]
fn answers_long_lines(rt: HostRuntime) {
    for long in &LONG_LINES {
        assert_long_answer(&rt, rt.alloc(), long);
    }
}

#[test]
fn answers_bytes_that_are_no_text(rt: HostRuntime) {
    for line in [b"unix \xff\xfe".as_slice(), b"\xc3\x28 00", b"unix 00\0"] {
        assert_answer(&rt, rt.alloc(), line, b"bad line");
    }
}

/// Names of lines, each with the space that follows it.
const LINE_NAMES: &str = "unixreq |inetreq |sockid4 |unix |inet |message |netlink |unixview |dump ";

/// Checks that a line with a field of each size has an answer if there is memory. With two digits
/// for each byte, the longest field has 1 MiB.
#[test]
fn lines_of_each_size(rt: HostRuntime) {
    let alloc = rt.alloc();
    for name in LINE_NAMES.split('|') {
        for size in (0..301).chain(LARGE) {
            let line = repeated(&rt, alloc, (name, "01", size, ""));
            assert!(rt;
                !answer(alloc, line.as_bytes())
                    .expect(&rt, "memory")
                    .is_empty()
            );
        }
    }
}

/// Asserts that the answer to a line of these parts starts with `ok`.
fn assert_accepted(rt: &impl Abort, alloc: Global, parts: &[&str]) {
    let line = parts.concat(alloc).expect(rt, "memory");
    let text = answer(alloc, line.as_bytes()).expect(rt, "memory");
    assert!(rt; text.starts_with(b"ok "));
}

/// An attribute of 8 bytes that is valid in a reply about a UNIX socket (`UNIX_DIAG_SHUTDOWN`) and
/// in one about an internet socket (`INET_DIAG_TCLASS`).
const ATTRIBUTE: &str = "0500060002000000";

/// A netlink message with a reply about a UNIX socket.
const REPLY: &str = "2000000014000200070000000000000001010a000e4f0000a002000000000000";

/// The message [`REPLY`], in another datagram: datagrams are separated by spaces.
const NEXT_REPLY: &str = " 2000000014000200070000000000000001010a000e4f0000a002000000000000";

/// Numbers of attributes or of messages above 300.
const COUNTS: [usize; 9] = [
    512, 1_000, 1_024, 2_048, 4_096, 8_192, 10_000, 16_384, 32_768,
];

/// Asserts that the answer to the line that consists of `start` and `count` equal items starts with
/// `ok`.
fn assert_items_accepted(rt: &impl Abort, alloc: Global, start: &str, item: &str, count: usize) {
    let items = item.repeat(alloc, count).expect(rt, "memory");
    assert_accepted(rt, alloc, &[start, items.as_str()]);
}

/// Checks replies with each count of attributes, and dumps with each count of messages and of
/// datagrams.
#[test]
fn lists_of_each_size(rt: HostRuntime) {
    // In each row: the name of a line, the digits after it, and the digits that are repeated.
    for (name, first, item) in [
        ("unix ", UNIX_HEADER, ATTRIBUTE),
        ("unixview ", UNIX_HEADER, ATTRIBUTE),
        ("message ", UNIX_HEADER, ATTRIBUTE),
        ("inet ", INET_HEADER, ATTRIBUTE),
        ("dump ", REPLY, REPLY),
        ("dump ", REPLY, NEXT_REPLY),
    ] {
        let start = [name, first].concat(rt.alloc()).expect(&rt, "memory");
        for count in (0..301).chain(COUNTS) {
            assert_items_accepted(&rt, rt.alloc(), start.as_str(), item, count);
        }
    }
}

/// Checks messages of type `NLMSG_DONE` with a payload of each size.
#[test]
fn payloads_of_each_size(rt: HostRuntime) {
    for size in (0..301).chain(LARGE) {
        // The length field, which counts the header: the four low bytes in little-endian order.
        let length = size.saturating_add(16).swap_bytes() >> 32;
        let header = format!(in rt.alloc(); "netlink {length:08x}030000000000000000000000");
        let header = header.expect(&rt, "memory");
        let payload = "5a".repeat(rt.alloc(), size).expect(&rt, "memory");
        assert_accepted(&rt, rt.alloc(), &[header.as_str(), payload.as_str()]);
    }
}

/// Sizes of names above 300, up to the longest.
const NAME_SIZES: [usize; 7] = [512, 1_000, 1_024, 4_096, 10_000, 32_768, 65_530];

/// Asserts that a reply with a pathname of `size` letters and its NUL is accepted in lines `unix`,
/// `unixview` and `message`.
fn assert_name_accepted(rt: &impl Abort, alloc: Global, size: usize) {
    // The length field of the attribute, which counts its header and the NUL: the two low bytes in
    // little-endian order. The type is 0 (`UNIX_DIAG_NAME`).
    let length = size.saturating_add(5).swap_bytes() >> 48;
    let header = format!(in alloc; "{UNIX_HEADER}{length:04x}0000").expect(rt, "memory");
    let letters = "61".repeat(alloc, size).expect(rt, "memory");
    assert_accepted(
        rt,
        alloc,
        &["unix ", header.as_str(), letters.as_str(), "00"],
    );
    assert_accepted(
        rt,
        alloc,
        &["unixview ", header.as_str(), letters.as_str(), "00"],
    );
    assert_accepted(
        rt,
        alloc,
        &["message ", header.as_str(), letters.as_str(), "00"],
    );
}

/// Checks UNIX sockets with a name of each size and its terminating NUL.
#[test]
fn names_of_each_size(rt: HostRuntime) {
    for size in (1..301).chain(NAME_SIZES) {
        assert_name_accepted(&rt, rt.alloc(), size);
    }
}
