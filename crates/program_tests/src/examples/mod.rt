//! Tests of `sock_diag_examples`, for functions that allocate or have no contract.

use self::ported::add_paths;
use netlink_core::{DecodeError, DefaultNla, Emitable, Parseable};
use netlink_packet_sock_diag::unix::UnixResponse;
use sock_diag_examples::link::{LinkError, attribute_key, parse_link};
use sock_diag_examples::listening_tcp::Family;
use sock_diag_examples::lister::list;
use sock_diag_examples::reading_back::copy_by_bytes;
use sock_diag_examples::readme::{listener, listening};
use sock_diag_examples::stored::{key, same_reply};
use sock_diag_examples::test_kernel::{AnswerError, answer};
use sock_diag_values::unix::Vfs;
use std::alloc::Global;
use std::fmt::Debug;
use std::process::Abort;

mod ported;

// A reply about a listening UNIX socket, without attributes.
const LISTENING: [u8; 16] = [1, 1, 10, 0, 0x0e, 0x4f, 0, 0, 0xa0, 2, 0, 0, 0, 0, 0, 0];

// A reply about a socket at /run/x. The byte at offset 3 and the padding are ignored.
const NAMED: &[u8] = b"\x01\x01\x0a\x07\x0e\x4f\0\0\xa0\x02\0\0\0\0\0\0\x0b\0\0\0/run/x\0\x09";

// The canonical form of that reply.
const CANONICAL: &[u8] = b"\x01\x01\x0a\0\x0e\x4f\0\0\xa0\x02\0\0\0\0\0\0\x0b\0\0\0/run/x\0\0";

// The canonical form in a message that answers the request below.
const MESSAGE: &[u8] = b"\x2c\0\0\0\x14\0\x02\0\x07\0\0\0\0\0\0\0\
\x01\x01\x0a\0\x0e\x4f\0\0\xa0\x02\0\0\0\0\0\0\x0b\0\0\0/run/x\0\0";

// A message with a reply about a listening socket, and the end of a dump.
const DUMP: [u8; 52] = [
    32, 0, 0, 0, 20, 0, 2, 0, 7, 0, 0, 0, 0, 0, 0, 0, 1, 1, 10, 0, 0x0e, 0x4f, 0, 0, 0xa0, 2, 0, 0,
    0, 0, 0, 0, 20, 0, 0, 0, 3, 0, 2, 0, 7, 0, 0, 0, 0, 0, 0, 0, 0, 0, 0, 0,
];

// An `NLMSG_ERROR` with the error number -ENOENT, and an `NLMSG_OVERRUN`, which reports lost data.
const FAILURES: [u8; 40] = [
    20, 0, 0, 0, 2, 0, 0, 0, 7, 0, 0, 0, 0, 0, 0, 0, 0xfe, 0xff, 0xff, 0xff, 20, 0, 0, 0, 4, 0, 0,
    0, 7, 0, 0, 0, 0, 0, 0, 0, 0, 0, 0, 0,
];

// The payload of a message of rtnetlink(7) about eth0, an Ethernet device: name, an attribute of
// type 13, MTU.
const ETH0: [u8; 44] = [
    0, 0, 1, 0, 2, 0, 0, 0, 0x43, 0x10, 1, 0, 0, 0, 0, 0, 9, 0, 3, 0, 0x65, 0x74, 0x68, 0x30, 0, 0,
    0, 0, 8, 0, 13, 0, 0xe8, 3, 0, 0, 8, 0, 4, 0, 0xdc, 5, 0, 0,
];

// A request for established and listening UNIX sockets (states 0x402) with their names, with
// sequence number 7.
const REQUEST: [u8; 40] = [
    40, 0, 0, 0, 20, 0, 1, 3, 7, 0, 0, 0, 0, 0, 0, 0, 1, 0, 0, 0, 2, 4, 0, 0, 0, 0, 0, 0, 1, 0, 0,
    0, 0, 0, 0, 0, 0, 0, 0, 0,
];

/// Asserts that `Debug` prints the value as this text.
fn assert_debug<T: Debug>(rt: &impl Abort, alloc: Global, value: &T, text: &str) {
    let shown = format!(in alloc; "{value:?}").expect(rt, "memory");
    assert!(rt; shown.as_str() == text, "{shown}");
}

#[test]
fn replies_are_stored_by_canonical_form(rt: HostRuntime) {
    let alloc = rt.alloc();
    assert!(rt; key(alloc, NAMED).expect(&rt, "refused").as_slice() == CANONICAL);
    assert!(rt; same_reply(alloc, NAMED, CANONICAL).expect(&rt, "refused"));
    assert!(rt; !same_reply(alloc, NAMED, &LISTENING).expect(&rt, "refused"));
    // The first of two rejected replies is reported.
    let cut = "Some(Refused(BufferTooSmall { which: UnixResponseHeader, got: 8, need: 16 }))";
    let error = same_reply(alloc, &NAMED[..8], &NAMED[..9]).err();
    assert_debug(&rt, alloc, &error, cut);
}

/// Asserts what `Debug` prints for a datagram: `lines` for the result of `list`, and `count` for
/// that of `listening`, which counts the listening sockets.
fn assert_listed(rt: &impl Abort, alloc: Global, datagram: &[u8], lines: &str, count: &str) {
    let listed = list(alloc, datagram).expect(rt, "memory");
    assert_debug(rt, alloc, &listed, lines);
    assert_debug(rt, alloc, &listening(datagram), count);
}

#[test]
fn datagrams_are_listed_and_counted(rt: HostRuntime) {
    let alloc = rt.alloc();
    let mut failed = DUMP;
    // The error number of the `NLMSG_DONE`: a dump that failed has no count.
    failed[48] = 0xfe;
    let one = "[Socket { state: 10, inode: 20238 }, End]";
    assert_listed(&rt, alloc, &DUMP, one, "Ok(Some(1))");
    assert_listed(&rt, alloc, &failed, one, "Ok(None)");
    let cut = "[Refused(EnvelopeCut { got: 4 })]";
    assert_listed(&rt, alloc, &DUMP[48..], cut, "Err(EnvelopeCut { got: 4 })");
    assert_listed(&rt, alloc, &FAILURES, "[Failure, Failure]", "Ok(None)");
}

#[test]
fn paths_of_a_dump_are_listed(rt: HostRuntime) {
    let alloc = rt.alloc();
    let reply = UnixResponse::parse(alloc, NAMED).expect(&rt, "refused");
    let dump = answered(&rt, alloc, &[reply]);
    let mut paths = Vec::new(alloc);
    assert!(rt; add_paths(alloc, &dump, &mut paths).expect(&rt, "refused"));
    // The bytes of /run/x.
    assert_debug(&rt, alloc, &paths, "[[47, 114, 117, 110, 47, 120]]");
}

/// Returns the datagram with which `answer` answers `REQUEST` by these replies.
fn answered(rt: &impl Abort, alloc: Global, replies: &[UnixResponse]) -> Vec<u8> {
    answer(alloc, &REQUEST, replies).expect(rt, "no answer")
}

/// Asserts what `Debug` prints for the result of `parse_link`.
fn assert_link(rt: &impl Abort, alloc: Global, payload: &[u8], text: &str) {
    assert_debug(rt, alloc, &parse_link(alloc, payload), text);
}

#[test]
fn links_have_their_name_and_their_mtu(rt: HostRuntime) {
    let alloc = rt.alloc();
    let mut odd = ETH0;
    // The length field of the MTU: the value has 3 bytes.
    odd[36] = 7;
    let link = "Ok(Link { name: Some(\"eth0\"), mtu: Some(1500) })";
    assert_link(&rt, alloc, &ETH0, link);
    assert_link(
        &rt,
        alloc,
        &ETH0[..16],
        "Ok(Link { name: None, mtu: None })",
    );
    assert_link(&rt, alloc, &ETH0[..15], "Err(TooShort { got: 15 })");
    let wrong = "Err(Attribute(WrongLength { kind: None, got: 3, need: 4 }))";
    assert_link(&rt, alloc, &odd, wrong);
    let key = attribute_key(alloc, b"\x09\0\x03\0eth0\0\x09\0\0").expect(&rt, "no key");
    assert!(rt; key.as_slice() == b"\x09\0\x03\0eth0\0\0\0\0".as_slice());
}

/// Asserts that `count` replies are answered by `count` messages and the end of the dump.
fn assert_answered(rt: &impl Abort, alloc: Global, count: usize) {
    let mut replies = Vec::new(alloc);
    for _ in 0..count {
        let reply = UnixResponse::parse(alloc, NAMED).expect(rt, "refused");
        replies.push(reply).expect(rt, "memory");
    }
    let mut expected = MESSAGE.repeat(alloc, count).expect(rt, "memory");
    expected.extend_from_slice(&DUMP[32..]).expect(rt, "memory");
    assert!(rt; answered(rt, alloc, &replies).as_slice() == expected.as_slice());
}

/// Checks a reply that is not writable, and a request whose header is truncated.
#[test]
fn requests_without_an_answer(rt: HostRuntime) {
    let alloc = rt.alloc();
    // One letter more than an attribute has space for, before the NUL.
    let path = vec![in alloc; 97; 65_531].expect(&rt, "memory");
    let long = [listener(alloc, 7, &path).expect(&rt, "memory")];
    assert_answer_error(&rt, alloc, &REQUEST, &long, "Some(Unwritable)");
    let text = "Some(Request(EnvelopeCut { got: 15 }))";
    assert_answer_error(&rt, alloc, &REQUEST[..15], &long, text);
}

/// Asserts that `Debug` prints the error of `answer` for this request and these replies as this
/// text.
fn assert_answer_error(
    rt: &impl Abort,
    alloc: Global,
    request: &[u8],
    replies: &[UnixResponse],
    text: &str,
) {
    assert_debug(rt, alloc, &answer(alloc, request, replies).err(), text);
}

#[test]
fn debug_texts(rt: HostRuntime) {
    let alloc = rt.alloc();
    assert_debug(&rt, alloc, &AnswerError::Memory, "Memory");
    let error = LinkError::Attribute(DecodeError::Memory);
    assert_debug(&rt, alloc, &error, "Attribute(Memory)");
    assert_debug(&rt, alloc, &[Family::Inet, Family::Inet6], "[Inet, Inet6]");
}

/// Inodes of replies that are built and answered.
const INODES: [u32; 5] = [0, 1, 0x2a0, 0x4f0e, u32::MAX];

#[test]
fn values_are_made_and_copied(rt: HostRuntime) {
    for &inode in &INODES {
        let reply = listener(rt.alloc(), inode, b"/run/x").expect(&rt, "memory");
        answered(&rt, rt.alloc(), &[reply]);
    }
    let vfs = Vfs::parse(&[4, 3, 2, 1, 7, 0, 0, 0]).expect(&rt, "refused");
    assert!(rt; copy_by_bytes(rt.alloc(), &vfs, ()).expect(&rt, "refused") == vfs);
}

/// Counts of attributes and of messages above 300. Tests also use each count up to 300.
const COUNTS: [usize; 7] = [512, 1_000, 1_024, 2_048, 4_096, 8_192, 10_000];

/// Asserts that `count` equal messages are answered and listed, and that `count` equal attributes
/// are parsed and stored: an `IFLA_IFNAME` with `eth0`, and a `UNIX_DIAG_NAME` with `/run`.
fn assert_many_fit(rt: &impl Abort, alloc: Global, count: usize) {
    assert_answered(rt, alloc, count);
    let dump = MESSAGE.repeat(alloc, count).expect(rt, "memory");
    assert!(rt; list(alloc, &dump).expect(rt, "memory").len() == count);
    let link = repeated(rt, alloc, &ETH0[..16], b"\x09\0\x03\0eth0\0\0\0\0", count);
    assert!(rt; parse_link(alloc, &link).is_ok());
    let reply = repeated(rt, alloc, &LISTENING, b"\x09\0\0\0/run\0\0\0\0", count);
    assert!(rt; same_reply(alloc, &reply, &reply).expect(rt, "refused"));
}

/// Returns the bytes of a header and of a number of equal attributes.
fn repeated(
    rt: &impl Abort,
    alloc: Global,
    header: &[u8],
    attribute: &[u8],
    count: usize,
) -> Vec<u8> {
    let attributes = attribute.repeat(alloc, count).expect(rt, "memory");
    let mut bytes = Vec::from_slice(alloc, header).expect(rt, "memory");
    bytes.extend_from_slice(&attributes).expect(rt, "memory");
    bytes
}

#[test]
fn many_replies_and_attributes(rt: HostRuntime) {
    for count in 0..301 {
        assert_many_fit(&rt, rt.alloc(), count);
    }
    for &count in &COUNTS {
        assert_many_fit(&rt, rt.alloc(), count);
    }
    let dump = MESSAGE.repeat(rt.alloc(), 100_000).expect(&rt, "memory");
    let lines = list(rt.alloc(), &dump).expect(&rt, "memory");
    assert!(rt; lines.len() == 100_000);
}

/// Lengths of names above 300. Tests also use each length up to 300. The last name, with its NUL,
/// is the longest value that an attribute can have.
const SIZES: [u16; 10] = [
    512, 1_000, 1_024, 2_048, 4_096, 8_192, 10_000, 16_384, 32_768, 65_530,
];

/// Returns the bytes, followed by an attribute of this kind whose value is a name of this length
/// and a NUL.
fn with_name(rt: &impl Abort, alloc: Global, bytes: &[u8], kind: u8, size: u16) -> Vec<u8> {
    let [low, high] = size.saturating_add(5).to_le_bytes();
    let mut named = Vec::from_slice(alloc, bytes).expect(rt, "memory");
    named
        .extend_from_slice(&[low, high, kind, 0])
        .expect(rt, "memory");
    let len = named.len().saturating_add(usize::from(size));
    named.resize(len, b'a').expect(rt, "memory");
    named.push(0).expect(rt, "memory");
    named
}

/// Asserts that a name of this length is parsed, stored and listed, as the name of a network device
/// (`IFLA_IFNAME`, 3) and of a UNIX socket (`UNIX_DIAG_NAME`, 0).
fn assert_name_fits(rt: &impl Abort, alloc: Global, size: u16) {
    let named = with_name(rt, alloc, &[], 3, size);
    let length = attribute_key(alloc, &named).expect(rt, "no key").len();
    // The key is the whole attribute: 4 bytes of header, the name, its NUL, and padding.
    assert!(rt; length == usize::from(size.saturating_add(5)).next_multiple_of(4));
    let payload = with_name(rt, alloc, &ETH0[..16], 3, size);
    let link = parse_link(alloc, &payload).expect(rt, "no link");
    assert!(rt;
        link.name
            .is_some_and(|name| name.len() == usize::from(size))
    );
    let reply = with_name(rt, alloc, &LISTENING, 0, size);
    assert!(rt; same_reply(alloc, &reply, &reply).expect(rt, "refused"));
}

/// Asserts that a reply with a path of this length is built, and is in the answer to `REQUEST`,
/// which has one socket and the end of the dump.
fn assert_path_fits(rt: &impl Abort, alloc: Global, size: u16) {
    let path = vec![in alloc; b'a'; usize::from(size)].expect(rt, "memory");
    let reply = listener(alloc, 7, &path).expect(rt, "memory");
    let datagram = answered(rt, alloc, &[reply]);
    assert!(rt; list(alloc, &datagram).expect(rt, "memory").len() == 2);
}

/// Asserts that an attribute with a value of this length is copied, if it is writable.
fn assert_copy_fits(rt: &impl Abort, alloc: Global, size: u16) {
    let value = vec![in alloc; 1; usize::from(size)].expect(rt, "memory");
    let nla = DefaultNla::new(7, value);
    if nla.is_writable() {
        assert!(rt; copy_by_bytes(alloc, &nla, ()).expect(rt, "refused") == nla);
    }
}

/// Checks names and values of this length.
fn assert_size_fits(rt: &impl Abort, alloc: Global, size: u16) {
    assert_name_fits(rt, alloc, size);
    assert_path_fits(rt, alloc, size);
    assert_copy_fits(rt, alloc, size);
}

#[test]
fn names_of_each_length(rt: HostRuntime) {
    for size in 0..301 {
        assert_size_fits(&rt, rt.alloc(), size);
    }
    for &size in &SIZES {
        assert_size_fits(&rt, rt.alloc(), size);
    }
}

/// Lengths of paths that are too long for an attribute. A value with such a path is built all the
/// same; it is only not writable.
const LONG: [usize; 7] = [
    65_531, 65_536, 100_000, 131_072, 262_144, 524_288, 1_000_000,
];

#[test]
fn long_paths(rt: HostRuntime) {
    for &size in &LONG {
        let path = vec![in rt.alloc(); b'a'; size].expect(&rt, "memory");
        listener(rt.alloc(), 7, &path).expect(&rt, "memory");
    }
}
