//! What holds in each run, whichever allocations fail.

use super::parsers::{Report, Subject, examine};
use super::{
    ABSTRACT, CONNECTED, INET, LISTENING, PATH, SHUTDOWN, UNIX_REQUEST, assert_contains, code,
};
use hex::FromHexError;
use netlink_core::{
    CanonError, DecodeError, NetlinkMessage, Parseable, ParseableParametrized, RecordName,
};
use netlink_packet_sock_diag::inet::{self, InetResponse};
use netlink_packet_sock_diag::unix::{self, UnixResponse};
use netlink_packet_sock_diag::{
    DumpError, DumpReader, DumpState, LossyDump, SOCK_DIAG_BY_FAMILY, SockDiagDestroy,
    SockDiagMessage,
};
use std::alloc::{AllocError, Global};
use std::process::Abort;

/// Nine attributes, one more than a reply stores inline.
const NINE: &str =
    "050006000000000005000600000000000500060000000000050006000000000005000600000000000500\
060000000000050006000000000005000600000000000500060000000000";

/// An abstract name, two inodes and an attribute of an unknown kind.
const OTHER: &str = "08000000006275730c00030005000000060000000500070002000000";

/// The directions that are shut down, the congestion control algorithm `cubic`, and an attribute of
/// an unknown kind.
const INET_OTHER: &str = "05000800000000000a000400637562696300000005000300aa000000";

/// The attribute with the text `cubic` in its canonical form, with its terminating NUL and padding.
const CUBIC: &str = "0a0004006375626963000000";

/// The digits of 48 zero bytes.
const ZEROS_48: &str = "000000000000000000000000000000000000000000000000000000000000000000000000\
000000000000000000000000";

/// Returns the bytes of a header and attributes, or `None` if an allocation fails.
fn reply(rt: &impl Abort, alloc: Global, header: &str, attributes: &str) -> Option<Vec<u8>> {
    let digits = [header, attributes].concat(alloc).ok()?;
    match hex::decode(alloc, digits.as_str()) {
        Ok(bytes) => Some(bytes),
        Err(error) => {
            assert!(rt; error == FromHexError::OutOfMemory);
            None
        }
    }
}

/// Returns other bytes that parse as the same value as a header and attributes, or `None` if an
/// allocation fails. Byte 3 is changed. In a UNIX reply and in a request it is padding. In an
/// internet reply it is the number of retransmissions, which is ignored in the header `INET`.
fn equivalent(rt: &impl Abort, alloc: Global, header: &str, attributes: &str) -> Option<Vec<u8>> {
    let mut bytes = reply(rt, alloc, header, attributes)?;
    if let Some(byte) = bytes.get_mut(3) {
        *byte = 7;
    }
    Some(bytes)
}

/// Asserts that a serializer returns these bytes, unless an allocation fails.
fn assert_form_or_memory(rt: &impl Abort, form: &Result<Vec<u8>, CanonError>, bytes: &[u8]) {
    match form {
        Ok(form) => assert!(rt; form.as_slice() == bytes),
        Err(error) => assert!(rt; *error == CanonError::Memory),
    }
}

/// Asserts that all serializers return these bytes, unless an allocation fails.
fn assert_forms_or_memory(rt: &impl Abort, report: &Report, bytes: &[u8]) {
    assert_form_or_memory(rt, &report.form, bytes);
    assert_form_or_memory(rt, &report.owned_form, bytes);
    assert_form_or_memory(rt, &report.view_form, bytes);
}

/// Asserts that each parser returns the value of `equivalent_bytes` for `bytes`, and each
/// serializer the canonical form `form`, unless an allocation fails.
fn assert_parses_or_memory(
    rt: &impl Abort,
    alloc: Global,
    subject: Subject,
    bytes: &[u8],
    equivalent_bytes: &[u8],
    form: &[u8],
) {
    let report = examine(alloc, subject, bytes, Some(equivalent_bytes), false);
    assert!(rt; report.are_original_or_memory);
    assert_forms_or_memory(rt, &report, form);
}

/// A row has a header, attributes, and the canonical form of these attributes, all in hexadecimal.
type Row = (&'static str, &'static str, &'static str);

/// Replies about UNIX sockets. If the attributes are empty, the header column has the whole reply.
/// The last two have a list of two inodes, and an empty one.
const UNIX: [Row; 6] = [
    (PATH, "", ""),
    (ABSTRACT, "", ""),
    (LISTENING, NINE, NINE),
    (LISTENING, OTHER, OTHER),
    (
        LISTENING,
        "0c0003000500000006000000",
        "0c0003000500000006000000",
    ),
    (LISTENING, "04000300", "04000300"),
];

/// Replies about IPv4 sockets. The third has a text without a NUL, the fourth one with a NUL, and
/// the fifth one with two, of which one belongs to the text.
const INTERNET: [Row; 5] = [
    (INET, SHUTDOWN, SHUTDOWN),
    (INET, INET_OTHER, INET_OTHER),
    (INET, "090004006375626963", CUBIC),
    (INET, CUBIC, CUBIC),
    (INET, "0b0004006375626963000000", "0b0004006375626963000000"),
];

/// Checks the reply of a row, and the same bytes as a message. Returns `None`, without a check, if
/// an allocation for these bytes fails.
fn assert_row_parses_or_memory(
    rt: &impl Abort,
    alloc: Global,
    subject: Subject,
    row: &Row,
) -> Option<()> {
    let (header, attributes, canonical) = *row;
    let bytes = reply(rt, alloc, header, attributes)?;
    let form = reply(rt, alloc, header, canonical)?;
    let equivalent_bytes = equivalent(rt, alloc, header, canonical)?;
    assert_parses_or_memory(rt, alloc, subject, &bytes, &equivalent_bytes, &form);
    assert_parses_or_memory(
        rt,
        alloc,
        Subject::Message,
        &bytes,
        &equivalent_bytes,
        &form,
    );
    Some(())
}

#[test]
fn replies(rt: HostRuntime) {
    for row in &UNIX {
        let _ = assert_row_parses_or_memory(&rt, rt.alloc(), Subject::UnixReply, row);
    }
    for row in &INTERNET {
        let _ = assert_row_parses_or_memory(&rt, rt.alloc(), Subject::InetReply, row);
    }
}

/// Asserts that the copy is equal to the value, unless an allocation fails.
fn assert_copy_or_memory<T: PartialEq + Drop>(
    rt: &impl Abort,
    value: &T,
    copy: Result<T, AllocError>,
) {
    if let Ok(copy) = copy {
        assert!(rt; copy == *value);
    }
}

/// Checks the clones of a reply about a UNIX socket, and of its attributes.
fn assert_unix_copies(rt: &impl Abort, alloc: Global, bytes: &[u8]) {
    let Ok(reply) = UnixResponse::parse(alloc, bytes) else {
        return;
    };
    assert_copy_or_memory(rt, &reply, reply.clone(alloc));
    for nla in reply.nlas.as_slice() {
        assert_copy_or_memory(rt, nla, nla.clone(alloc));
        match nla {
            unix::nlas::Nla::Name(name) => assert_copy_or_memory(rt, name, name.clone(alloc)),
            unix::nlas::Nla::Other(other) => assert_copy_or_memory(rt, other, other.clone(alloc)),
            _ => {}
        }
    }
}

/// Checks the clones of a reply about an IPv4 socket, and of its attributes.
fn assert_inet_copies(rt: &impl Abort, alloc: Global, bytes: &[u8]) {
    let Ok(reply) = InetResponse::parse(alloc, bytes) else {
        return;
    };
    assert_copy_or_memory(rt, &reply, reply.clone(alloc));
    for nla in reply.nlas.as_slice() {
        assert_copy_or_memory::<inet::nlas::Nla>(rt, nla, nla.clone(alloc));
    }
}

/// Checks the clones of a message, and of the request to close its socket.
fn assert_message_copies(rt: &impl Abort, alloc: Global, bytes: &[u8]) {
    if let Ok(message) = SockDiagMessage::parse_with_param(alloc, bytes, SOCK_DIAG_BY_FAMILY) {
        assert_copy_or_memory(rt, &message, message.clone(alloc));
        let destroy = SockDiagDestroy::new(message);
        assert_copy_or_memory(rt, &destroy, destroy.clone(alloc));
    }
}

/// Checks that each clone is equal, unless an allocation fails.
#[test]
fn clones(rt: HostRuntime) {
    let alloc = rt.alloc();
    if let Some(bytes) = reply(&rt, alloc, LISTENING, OTHER) {
        assert_unix_copies(&rt, alloc, &bytes);
        assert_message_copies(&rt, alloc, &bytes);
    }
    if let Some(bytes) = reply(&rt, alloc, INET, INET_OTHER) {
        assert_inet_copies(&rt, alloc, &bytes);
        assert_message_copies(&rt, alloc, &bytes);
    }
}

/// The code of `DecodeError::Memory`.
const MEMORY: u8 = 1;

/// A message of type `NLMSG_NOOP`.
const NOOP: &[u8] = b"\x10\0\0\0\x01\0\0\0\0\0\0\0\0\0\0\0";

/// Two replies, about a listening socket and a connected one.
const BOTH: &[u8] = b"\x20\0\0\0\x14\0\x02\0\x07\0\0\0\0\0\0\0\
\x01\x01\x0a\0\x0e\x4f\0\0\xa0\x02\0\0\0\0\0\0\
\x20\0\0\0\x14\0\x02\0\x07\0\0\0\0\0\0\0\x01\x01\x01\0\xb7\x7c\0\0\x22\0\0\0\0\0\0\0";

/// A message of type `NLMSG_DONE`.
const DONE: &[u8] = b"\x14\0\0\0\x03\0\x02\0\x07\0\0\0\0\0\0\0\0\0\0\0";

/// The first message of `BOTH`, with another byte of padding (7) in the header of its reply.
const FIRST: &[u8] = b"\x20\0\0\0\x14\0\x02\0\x07\0\0\0\0\0\0\0\
\x01\x01\x0a\x07\x0e\x4f\0\0\xa0\x02\0\0\0\0\0\0";

/// Asserts that the message in `bytes` is equal to the message in `other`, and that `part` occurs
/// in what `Debug` prints for it, unless an allocation fails. Returns the code of the parser's
/// error, or 0.
fn assert_message_or_memory(
    rt: &impl Abort,
    alloc: Global,
    bytes: &[u8],
    other: &[u8],
    part: &str,
) -> u8 {
    let expected = NetlinkMessage::<SockDiagMessage>::deserialize(alloc, other);
    let read = NetlinkMessage::<SockDiagMessage>::deserialize(alloc, bytes);
    if code(&read) != MEMORY {
        assert!(rt; code(&expected) == MEMORY || read == expected);
        if let Ok(text) = format!(in alloc; "{read:?}") {
            assert_contains(rt, text.as_str(), part);
        }
    }
    code(&read)
}

/// Checks a message with a reply, the end of a dump, and a message that needs no allocation.
#[test]
fn netlink_messages(rt: HostRuntime) {
    let alloc = rt.alloc();
    let text = "Ok(NetlinkMessage { header: NetlinkHeader { length: 32, message_type: 20, flags: \
        2, sequence_number: 7, port_number: 0 }, payload: InnerMessage(UnixResponse(UnixResponse \
        { header: UnixResponseHeader { kind: 1, state: 10, inode: 20238, cookie: [160, 2, 0, 0, \
        0, 0, 0, 0] }, nlas: [] })) })";
    // The code is 0 or that of `Memory`.
    assert!(rt; assert_message_or_memory(&rt, alloc, BOTH, FIRST, text) <= MEMORY);
    let text = "Ok(NetlinkMessage { header: NetlinkHeader { length: 20, message_type: 3, flags: \
        2, sequence_number: 7, port_number: 0 }, payload: Done([0, 0, 0, 0]) })";
    assert!(rt; assert_message_or_memory(&rt, alloc, DONE, DONE, text) <= MEMORY);
    let text = "Ok(NetlinkMessage { header: NetlinkHeader { length: 16, message_type: 1, flags: \
        0, sequence_number: 0, port_number: 0 }, payload: Noop })";
    assert!(rt; assert_message_or_memory(&rt, alloc, NOOP, NOOP, text) == 0);
}

/// Value of `parsed` in a [`Case`]: all bytes are parsed.
const WHOLE: usize = usize::MAX;

/// Bytes that are parsed without an allocation, or rejected whichever allocations fail.
#[derive(Clone, Copy)]
struct Case {
    subject: Subject,
    /// The digits of the header.
    header: &'static str,
    /// The digits of the attributes after the header.
    attributes: &'static str,
    /// How many of these bytes are parsed.
    parsed: usize,
    /// The error, or `None` if the bytes have a value.
    error: Option<DecodeError>,
}

/// Bytes whose parsers do not allocate: requests, and replies of at most eight attributes that have
/// no name, no text, no number of a pending connection and no raw value.
const VALUES: [Case; 9] = [
    // A reply without attributes.
    Case {
        subject: Subject::UnixReply,
        header: LISTENING,
        attributes: "",
        parsed: WHOLE,
        error: None,
    },
    Case {
        subject: Subject::UnixReply,
        header: LISTENING,
        attributes: NINE,
        // The header of 16 bytes and eight attributes of 8 bytes.
        parsed: 80,
        error: None,
    },
    // An empty list of pending connections.
    Case {
        subject: Subject::UnixReply,
        header: LISTENING,
        attributes: "04000300",
        parsed: WHOLE,
        error: None,
    },
    // Queue lengths.
    Case {
        subject: Subject::UnixReply,
        header: CONNECTED,
        attributes: "0c0004000300000007000000",
        parsed: WHOLE,
        error: None,
    },
    // Memory counters.
    Case {
        subject: Subject::UnixReply,
        header: LISTENING,
        attributes: "280005000000000002000000000000000400000000000000060000000000000000000000\
            00000000",
        parsed: WHOLE,
        error: None,
    },
    Case {
        subject: Subject::InetReply,
        header: INET,
        attributes: SHUTDOWN,
        parsed: WHOLE,
        error: None,
    },
    Case {
        subject: Subject::InetReply,
        header: INET,
        attributes: INET_OTHER,
        // The header of 72 bytes and the first attribute.
        parsed: 80,
        error: None,
    },
    Case {
        subject: Subject::UnixRequest,
        header: UNIX_REQUEST,
        attributes: "",
        parsed: WHOLE,
        error: None,
    },
    // A request for UDP sockets over IPv4.
    Case {
        subject: Subject::InetRequest,
        header: "0211000002000000",
        attributes: ZEROS_48,
        parsed: WHOLE,
        error: None,
    },
];

/// Invalid bytes. Most have a name or a text, whose parser allocates, before the error.
const ERRORS: [Case; 10] = [
    Case {
        subject: Subject::UnixRequest,
        header: UNIX_REQUEST,
        attributes: "",
        parsed: 0,
        error: Some(DecodeError::BufferTooSmall {
            which: RecordName::UnixRequest,
            got: 0,
            need: 24,
        }),
    },
    Case {
        subject: Subject::UnixRequest,
        header: UNIX_REQUEST,
        attributes: "",
        parsed: 23,
        error: Some(DecodeError::BufferTooSmall {
            which: RecordName::UnixRequest,
            got: 23,
            need: 24,
        }),
    },
    Case {
        subject: Subject::UnixReply,
        header: PATH,
        attributes: "",
        parsed: 15,
        error: Some(DecodeError::BufferTooSmall {
            which: RecordName::UnixResponseHeader,
            got: 15,
            need: 16,
        }),
    },
    // The last attribute of `PATH`, of 5 bytes and 3 bytes of padding, starts at offset 52.
    Case {
        subject: Subject::UnixReply,
        header: PATH,
        attributes: "",
        parsed: 53,
        error: Some(DecodeError::AttributeHeaderCut { left: 1 }),
    },
    Case {
        subject: Subject::UnixReply,
        header: PATH,
        attributes: "",
        parsed: 54,
        error: Some(DecodeError::AttributeHeaderCut { left: 2 }),
    },
    Case {
        subject: Subject::UnixReply,
        header: PATH,
        attributes: "",
        parsed: 55,
        error: Some(DecodeError::AttributeHeaderCut { left: 3 }),
    },
    Case {
        subject: Subject::UnixReply,
        header: PATH,
        attributes: "",
        parsed: 56,
        error: Some(DecodeError::AttributeLengthPast { length: 5, left: 4 }),
    },
    Case {
        subject: Subject::UnixReply,
        header: PATH,
        attributes: "0000",
        parsed: WHOLE,
        error: Some(DecodeError::AttributeHeaderCut { left: 2 }),
    },
    // A name, and an attribute with the length field 3.
    Case {
        subject: Subject::UnixReply,
        header: LISTENING,
        attributes: "080000006162630003000600",
        parsed: WHOLE,
        error: Some(DecodeError::AttributeLengthUnder4 { length: 3 }),
    },
    // Two congestion control algorithms: `cubic`, and the byte 0xff.
    Case {
        subject: Subject::InetReply,
        header: INET,
        attributes: "0a000400637562696300000005000400ff000000",
        parsed: WHOLE,
        error: Some(DecodeError::NotUtf8),
    },
];

/// Asserts that each parser returns the value or the error of the case, whichever allocations fail.
/// Asserts that each serializer returns the error, or the bytes unless an allocation fails. Returns
/// `None`, without a check, if an allocation for the bytes of the case fails.
fn assert_needs_no_allocation(rt: &impl Abort, alloc: Global, case: &Case) -> Option<()> {
    let bytes = reply(rt, alloc, case.header, case.attributes)?;
    let bytes = bytes.get(..case.parsed).unwrap_or(&bytes);
    let original = equivalent(rt, alloc, case.header, case.attributes)?;
    let original = original.get(..case.parsed).unwrap_or(&original);
    let report = examine(alloc, case.subject, bytes, Some(original), false);
    assert!(rt; report.error == case.error && report.are_equal && report.is_original);
    match case.error {
        Some(error) => assert_forms_rejected(rt, &report, error),
        None => assert_forms_or_memory(rt, &report, bytes),
    }
    Some(())
}

/// Asserts that all serializers return the error of the parser.
fn assert_forms_rejected(rt: &impl Abort, report: &Report, error: DecodeError) {
    let refused = Err(CanonError::Refused(error));
    assert!(rt; report.form == refused);
    assert!(rt; report.owned_form == refused && report.view_form == refused);
}

#[test]
fn values_and_errors_that_need_no_allocation(rt: HostRuntime) {
    for case in &VALUES {
        let _ = assert_needs_no_allocation(&rt, rt.alloc(), case);
    }
    for case in &ERRORS {
        let _ = assert_needs_no_allocation(&rt, rt.alloc(), case);
    }
}

/// The payloads of `BOTH`, each with another byte of padding (7) at offset 3.
const PAYLOADS: [&[u8]; 2] = [
    b"\x01\x01\x0a\x07\x0e\x4f\0\0\xa0\x02\0\0\0\0\0\0",
    b"\x01\x01\x01\x07\xb7\x7c\0\0\x22\0\0\0\0\0\0\0",
];

/// Returns the messages of `BOTH`, or `None` if an allocation fails.
fn both(alloc: Global) -> Option<(SockDiagMessage, SockDiagMessage)> {
    let [first, second] = PAYLOADS;
    let first = SockDiagMessage::parse_with_param(alloc, first, SOCK_DIAG_BY_FAMILY).ok()?;
    let second = SockDiagMessage::parse_with_param(alloc, second, SOCK_DIAG_BY_FAMILY).ok()?;
    Some((first, second))
}

/// Asserts that the message at this index of a dump of `BOTH`, repeated, is the first of `BOTH` if
/// the index is even, else the second.
fn assert_in_order(
    rt: &impl Abort,
    index: usize,
    message: &SockDiagMessage,
    (first, second): &(SockDiagMessage, SockDiagMessage),
) {
    let expected = match index % 2 {
        0 => first,
        _ => second,
    };
    assert!(rt; *message == *expected);
}

/// Asserts that a feed succeeds, or that it returns the error of a failed allocation and the dump
/// has failed. A dump that had failed returns that it has ended. `old_state` and `state` are the
/// states before and after the feed, and `fed` is what it returned.
fn assert_feed_result(
    rt: &impl Abort,
    old_state: DumpState,
    fed: Result<(), DumpError>,
    state: DumpState,
) {
    match old_state {
        DumpState::Failed => assert!(rt; fed == Err(DumpError::Ended) && state == old_state),
        _ if state == DumpState::Failed => {
            assert!(rt; fed == Err(DumpError::Fault(DecodeError::Memory)));
        }
        _ => assert!(rt; fed == Ok(())),
    }
}

/// Feeds the datagrams to a dump, and checks each feed by [`assert_feed_result`]. Returns the dump.
fn fed_dump(rt: &impl Abort, alloc: Global, datagrams: &[&[u8]]) -> DumpReader {
    let mut reader = DumpReader::new(alloc);
    for datagram in datagrams {
        let old_state = reader.state();
        let fed = reader.feed(datagram);
        assert_feed_result(rt, old_state, fed, reader.state());
    }
    reader
}

/// Checks that the messages of a dump are the first of its replies, in order, and that it has all
/// of them unless an allocation fails.
#[test]
fn dumps(rt: HostRuntime) {
    let Some(expected) = both(rt.alloc()) else {
        return;
    };
    let reader = fed_dump(&rt, rt.alloc(), &[BOTH, BOTH, DONE]);
    for (index, message) in reader.messages().iter().enumerate() {
        assert_in_order(&rt, index, message, &expected);
    }
    let (state, count) = (reader.state(), reader.messages().len());
    assert!(rt; state == DumpState::Failed || (state == DumpState::Done && count == 4));
}

/// Checks that the entries of a dump that continues after invalid replies are the replies of
/// `BOTH`, or the first of them if an allocation fails. A failed allocation is not an entry.
#[test]
fn lossy_dumps(rt: HostRuntime) {
    let Some(expected) = both(rt.alloc()) else {
        return;
    };
    let mut dump = LossyDump::new(rt.alloc());
    let fed = dump.feed(BOTH);
    assert_feed_result(&rt, DumpState::Reading, fed, dump.state());
    assert!(rt; dump.entries().len() == 2 || dump.state() == DumpState::Failed);
    for (index, entry) in dump.entries().iter().enumerate() {
        match entry {
            Ok(message) => assert_in_order(&rt, index, message, &expected),
            Err(_) => panic!(rt; "an error"),
        }
    }
}

/// Checks that a dump that keeps no message never fails, whichever allocations fail.
#[test]
fn dumps_that_need_no_allocation(rt: HostRuntime) {
    let reader = fed_dump(&rt, rt.alloc(), &[NOOP, DONE]);
    assert!(rt; reader.state() == DumpState::Done);
}
