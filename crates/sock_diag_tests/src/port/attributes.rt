//! Tests of names and attributes. The bytes are worked out by hand from the layouts of
//! sock_diag(7).

use super::attribute_sizes::attribute;
use super::{assert_bytes, assert_emits, assert_text, debug_text, emitted};
use netlink_core::{
    CanonError, DecodeError, DefaultNla, Emitable, NlaBuffer, Parseable, Wire, canonical,
};
use sock_diag_attributes::inet::nlas::{self as inet, MemInfo, TcpInfo};
use sock_diag_attributes::unix::nlas::{NameView, Nla, NlaView, UnixDiagName};
use std::alloc::Global;
use std::fmt::Debug;
use std::process::Abort;

/// The type that bytes are parsed as: a name of a UNIX socket, or an attribute of a UNIX or of an
/// internet socket.
#[derive(Clone, Copy)]
pub(super) enum Subject {
    Name,
    UnixAttribute,
    InetAttribute,
}

/// What is known of the value that some bytes parse as. Tests compare reports instead of values,
/// since a call of a generic helper takes some seconds to prove at each type.
#[derive(Drop)]
pub(super) struct Report {
    /// What `Debug` prints for the owned value. This text and `copy` are empty if there are more
    /// than 300 bytes, since long texts take time.
    pub(super) owned: String,
    /// What `Debug` prints for the view.
    pub(super) view: String,
    /// What `Debug` prints for a clone of the view's owned copy.
    pub(super) copy: String,
    /// Bytes of the owned value.
    pub(super) written: Result<Vec<u8>, CanonError>,
    /// Canonical form of the bytes.
    pub(super) form: Result<Vec<u8>, CanonError>,
}

/// Returns what `Debug` prints for the value of these bytes, if there are at most 300.
fn short_text<T: Debug>(rt: &impl Abort, alloc: Global, value: &T, bytes: &[u8]) -> String {
    match bytes.len() {
        0..=300 => debug_text(rt, alloc, value),
        _ => String::new(alloc),
    }
}

/// A type that has a borrowed form, a view. The trait does not extend `Wire`, whose laws make each
/// call of a generic helper slow to prove.
trait Viewed: Sized + Debug + Drop + Emitable {
    /// Parses an owned value. If there is more than one parser, asserts that all of them return
    /// the same.
    fn parsed(rt: &impl Abort, alloc: Global, bytes: &[u8]) -> Result<Self, DecodeError>;

    /// Parses a view. Returns the text that `Debug` prints for it, and a clone of its owned copy.
    fn viewed(rt: &impl Abort, alloc: Global, bytes: &[u8]) -> (String, Self);

    /// Returns the canonical form.
    fn form(alloc: Global, bytes: &[u8]) -> Result<Vec<u8>, CanonError>;
}

impl Viewed for UnixDiagName {
    fn parsed(_rt: &impl Abort, alloc: Global, bytes: &[u8]) -> Result<Self, DecodeError> {
        UnixDiagName::read(alloc, bytes, ())
    }

    fn viewed(rt: &impl Abort, alloc: Global, bytes: &[u8]) -> (String, Self) {
        let view = NameView::parse(bytes).expect(rt, "refused");
        let copy = view.to_owned(alloc).expect(rt, "memory");
        let copy = copy.clone(alloc).expect(rt, "memory");
        (debug_text(rt, alloc, &view), copy)
    }

    fn form(alloc: Global, bytes: &[u8]) -> Result<Vec<u8>, CanonError> {
        canonical::<UnixDiagName>(alloc, bytes, ())
    }
}

impl Viewed for Nla {
    fn parsed(rt: &impl Abort, alloc: Global, bytes: &[u8]) -> Result<Self, DecodeError> {
        let value = Nla::read(alloc, bytes, ());
        let nla = NlaBuffer::new_checked(bytes);
        assert!(rt; nla.and_then(|nla| Nla::parse(alloc, nla)) == value);
        value
    }

    fn viewed(rt: &impl Abort, alloc: Global, bytes: &[u8]) -> (String, Self) {
        let nla = NlaBuffer::new_checked(bytes).expect(rt, "refused");
        let view = NlaView::parse(&nla).expect(rt, "refused");
        let copy = view.to_owned(alloc).expect(rt, "memory");
        let copy = copy.clone(alloc).expect(rt, "memory");
        (debug_text(rt, alloc, &view), copy)
    }

    fn form(alloc: Global, bytes: &[u8]) -> Result<Vec<u8>, CanonError> {
        canonical::<Nla>(alloc, bytes, ())
    }
}

impl Viewed for inet::Nla {
    fn parsed(rt: &impl Abort, alloc: Global, bytes: &[u8]) -> Result<Self, DecodeError> {
        let value = inet::Nla::read(alloc, bytes, ());
        let nla = NlaBuffer::new_checked(bytes);
        assert!(rt; nla.and_then(|nla| inet::Nla::parse(alloc, nla)) == value);
        value
    }

    fn viewed(rt: &impl Abort, alloc: Global, bytes: &[u8]) -> (String, Self) {
        let nla = NlaBuffer::new_checked(bytes).expect(rt, "refused");
        let view = inet::NlaView::parse(&nla).expect(rt, "refused");
        let copy = view.to_owned(alloc).expect(rt, "memory");
        let copy = copy.clone(alloc).expect(rt, "memory");
        (debug_text(rt, alloc, &view), copy)
    }

    fn form(alloc: Global, bytes: &[u8]) -> Result<Vec<u8>, CanonError> {
        canonical::<inet::Nla>(alloc, bytes, ())
    }
}

// Parses the bytes as a `T`. Returns what is known of the value, or the error that rejects the
// bytes.
fn examine_as<T: Viewed>(
    rt: &impl Abort,
    alloc: Global,
    bytes: &[u8],
) -> Result<Report, DecodeError> {
    let value = T::parsed(rt, alloc, bytes)?;
    let (view, copy) = T::viewed(rt, alloc, bytes);
    Ok(Report {
        owned: short_text(rt, alloc, &value, bytes),
        view,
        copy: short_text(rt, alloc, &copy, bytes),
        written: emitted(alloc, &value),
        form: T::form(alloc, bytes),
    })
}

/// Parses the bytes as a value of this type. Returns what is known of the owned value and of its
/// view, or the error that rejects the bytes.
pub(super) fn examine(
    rt: &impl Abort,
    alloc: Global,
    subject: Subject,
    bytes: &[u8],
) -> Result<Report, DecodeError> {
    match subject {
        Subject::Name => examine_as::<UnixDiagName>(rt, alloc, bytes),
        Subject::UnixAttribute => examine_as::<Nla>(rt, alloc, bytes),
        Subject::InetAttribute => examine_as::<inet::Nla>(rt, alloc, bytes),
    }
}

/// Asserts that `Debug` prints the result of parsing the bytes as this text: `Ok(..)` of the owned
/// value, or `Err(..)`.
fn assert_parses_as(rt: &impl Abort, alloc: Global, subject: Subject, bytes: &[u8], text: &str) {
    let read = match examine(rt, alloc, subject, bytes) {
        Ok(report) => format!(in alloc; "Ok({})", report.owned),
        Err(error) => format!(in alloc; "Err({error:?})"),
    };
    assert_text(rt, read.expect(rt, "memory").as_str(), text);
}

// Asserts that the bytes parse as an owned value that `Debug` prints as `owned`, and as a view that
// it prints as `viewed`. Asserts that the view's owned copy prints as the owned value does, and
// that the owned value serializes to `written`, which is also the canonical form of the bytes.
fn assert_views_and_values(
    rt: &impl Abort,
    alloc: Global,
    subject: Subject,
    (bytes, written): (&[u8], &[u8]),
    owned: &str,
    viewed: &str,
) {
    let report = examine(rt, alloc, subject, bytes).expect(rt, "refused");
    assert_text(rt, report.owned.as_str(), owned);
    assert_text(rt, report.copy.as_str(), owned);
    assert_text(rt, report.view.as_str(), viewed);
    match (&report.written, &report.form) {
        (Ok(bytes), Ok(form)) => {
            assert_bytes(rt, bytes, written);
            assert_bytes(rt, form, written);
        }
        _ => panic!(rt; "refused"),
    }
}

// Checks a row. It has in this order: bytes, a space, their canonical form, a space, the text of
// the owned value; and `|` and the text of the view, if this differs. Bytes are in hexadecimal.
fn assert_row(rt: &impl Abort, alloc: Global, subject: Subject, row: &str) {
    let (bytes, rest) = row.split_once(' ').expect(rt, "no bytes");
    let (written, texts) = rest.split_once(' ').expect(rt, "no text");
    let (owned, viewed) = texts.split_once('|').unwrap_or((texts, texts));
    let bytes = hex::decode(alloc, bytes).expect(rt, "memory");
    let written = hex::decode(alloc, written).expect(rt, "memory");
    assert_views_and_values(rt, alloc, subject, (&bytes, &written), owned, viewed);
}

// Checks each row, as `assert_row` does.
fn assert_rows(rt: &impl Abort, alloc: Global, subject: Subject, rows: &str) {
    for text in rows.lines() {
        assert_row(rt, alloc, subject, text);
    }
}

// Names of UNIX sockets, as rows of `assert_row`: a pathname, and three abstract names, each after
// a NUL.
const NAMES: &str = "\
6100 6100 Pathname([97])
00 00 Abstract([])
00010000 00010000 Abstract([1, 0, 0])
000700 000700 Abstract([7, 0])";

// Attributes of UNIX sockets, as rows of `assert_row`. The row of `Vfs` has a byte after its
// record, those of `Peer` and `Shutdown` have a flag bit in the type field.
const UNIX: &str = "\
060000006100 0600000061000000 Name(Pathname([97]))
090000000007000707 090000000007000707000000 Name(Abstract([7, 0, 7, 7]))
3000000000316331343430633566356532613532652f6275732f73797374656d642f002f6275732d6170692d75736572 \
3000000000316331343430633566356532613532652f6275732f73797374656d642f002f6275732d6170692d75736572 \
Name(Abstract([49, 99, 49, 52, 52, 48, 99, 53, 102, 53, 101, 50, 97, 53, 50, 101, 47, 98, 117, \
115, 47, 115, 121, 115, 116, 101, 109, 100, 47, 0, 47, 98, 117, 115, 45, 97, 112, 105, 45, 117, \
115, 101, 114]))
0d0001000100000002000000ff 0c0001000100000002000000 Vfs(Vfs { inode: 1, device: 2 })
0800024056790000 0800020056790000 Peer(31062)
0c0004000300000007000000 0c0004000300000007000000 ReceiveQueueLength(3, 7)
28000500010000000200000003000000040000000500000006000000070000000800000009000000 \
28000500000000000200000000000000040000000000000006000000000000000000000000000000 MemInfo(MemInfo \
{ so_rcvbuf: 2, max_datagram_size: 4, alloc: 6 })
0500068002 0500060002000000 Shutdown(2)
0c0003000500000006000000 0c0003000500000006000000 PendingConnections([5, \
6])|PendingConnections(NumbersView { bytes: [5, 0, 0, 0, 6, 0, 0, 0] })
04000300 04000300 PendingConnections([])|PendingConnections(NumbersView { bytes: [] })
0b00078002010000040302 0b0007800201000004030200 Other(DefaultNla { kind: 32775, value: [2, 1, 0, \
0, 4, 3, 2] })|Other(NlaBuffer { type_word: 32775, value: [2, 1, 0, 0, 4, 3, 2] })";

// Attributes of internet sockets, as rows of `assert_row`. The texts have no NUL, one or two, and
// the second one belongs to the text.
const INET: &str = "\
090004006375626963 0a0004006375626963000000 Congestion(\"cubic\")
0a000400637562696300 0a0004006375626963000000 Congestion(\"cubic\")
0b00040063756269630000 0b0004006375626963000000 Congestion(\"cubic\\0\")
04000400 0500040000000000 Congestion(\"\")
0500040000 0500040000000000 Congestion(\"\")
0500050010 0500050010000000 Tos(16)
0500060011 0500060011000000 Tc(17)
0500088002 0500080002000000 Shutdown(2)
05000a0006 05000a0006000000 Protocol(6)
05000b0000 05000b0000000000 SkV6Only(false)
05000b0002 05000b0001000000 SkV6Only(true)
08000f0004030201 08000f0004030201 Mark(16909060)
0800110004030201 0800110004030201 ClassId(16909060)
05000300aa 05000300aa000000 Other(DefaultNla { kind: 3, value: [170] })|Other(NlaBuffer \
{ type_word: 3, value: [170] })
1400010001000000020000000300000004000000 1400010001000000020000000300000004000000 \
LegacyMemInfo(LegacyMemInfo { receive_queue: 1, bottom_send_queue: 2, cache: 3, send_queue: 4 })
28000700010000000200000003000000040000000500000006000000070000000800000009000000 \
28000700010000000200000003000000040000000500000006000000070000000800000009000000 MemInfo(MemInfo \
{ receive_queue: 1, receive_queue_max: 2, bottom_send_queues: 3, send_queue_max: 4, cache: 5, \
send_queue: 6, options: 7, backlog_queue_length: Some(8), drops: Some(9) })";

#[test]
fn names_and_attributes(rt: HostRuntime) {
    let alloc = rt.alloc();
    assert_rows(&rt, alloc, Subject::Name, NAMES);
    assert_rows(&rt, alloc, Subject::UnixAttribute, UNIX);
    assert_rows(&rt, alloc, Subject::InetAttribute, INET);
}

#[test]
fn information_on_a_connection(rt: HostRuntime) {
    let alloc = rt.alloc();
    // `INET_DIAG_INFO` (2) with a value of 232 bytes, each of them 7.
    let bytes = attribute(alloc, 236, 2, 7).expect(&rt, "memory");
    let info = TcpInfo::parse(bytes.get(4..).expect(&rt, "short")).expect(&rt, "refused");
    let text = format!(in alloc; "TcpInfo({info:?})").expect(&rt, "memory");
    let subject = Subject::InetAttribute;
    assert_views_and_values(&rt, alloc, subject, (&bytes, &bytes), &text, &text);
}

// Checks each row. It has bytes in hexadecimal, a space, and the error that rejects them, as
// `Debug` prints it.
fn assert_rejected_rows(rt: &impl Abort, alloc: Global, subject: Subject, rows: &str) {
    for row in rows.lines() {
        let (digits, text) = row.split_once(' ').expect(rt, "no text");
        let bytes = hex::decode(alloc, digits).expect(rt, "refused");
        assert_parses_as(rt, alloc, subject, &bytes, text);
    }
}

// Invalid names, as rows of `assert_rejected_rows`. The first one has no bytes.
const NO_NAMES: &str = " Err(NameEmpty)
61006200 Err(NameInnerZero { index: 1 })
61 Err(NameWithoutEnd)";

// Invalid attributes of UNIX sockets, as rows of `assert_rejected_rows`.
const NO_UNIX: &str = "0b00010000000000000000 Err(BufferTooSmall { which: Vfs, got: 7, need: 8 })
07000280000000 Err(WrongLength { kind: Some(2), got: 3, need: 4 })
0c0002000102030405060708 Err(WrongLength { kind: Some(2), got: 8, need: 4 })
060003000102 Err(NotMultipleOfFour { got: 2 })
0800040000000000 Err(WrongLength { kind: Some(4), got: 4, need: 8 })
10000400000000000000000000000000 Err(WrongLength { kind: Some(4), got: 12, need: 8 })
04000600 Err(WrongLength { kind: Some(6), got: 0, need: 1 })
060006000000 Err(WrongLength { kind: Some(6), got: 2, need: 1 })
2000050001000000020000000300000004000000050000000600000007000000 \
Err(BufferTooSmall { which: UnixMemInfo, got: 28, need: 36 })
050006 Err(AttributeHeaderCut { left: 3 })
03000600 Err(AttributeLengthUnder4 { length: 3 })
ffff0600 Err(AttributeLengthPast { length: 65535, left: 4 })
04000000 Err(NameEmpty)";

// Invalid attributes of internet sockets, as rows of `assert_rejected_rows`.
const NO_INET: &str = "060005000102 Err(WrongLength { kind: Some(5), got: 2, need: 1 })
04000b00 Err(WrongLength { kind: Some(11), got: 0, need: 1 })
07000f40010203 Err(WrongLength { kind: Some(15), got: 3, need: 4 })
0c000f000102030405060708 Err(WrongLength { kind: Some(15), got: 8, need: 4 })
04000100 Err(BufferTooSmall { which: LegacyMemInfo, got: 0, need: 16 })
05000400ff Err(NotUtf8)";

#[test]
fn refusals(rt: HostRuntime) {
    assert_rejected_rows(&rt, rt.alloc(), Subject::Name, NO_NAMES);
    assert_rejected_rows(&rt, rt.alloc(), Subject::UnixAttribute, NO_UNIX);
    assert_rejected_rows(&rt, rt.alloc(), Subject::InetAttribute, NO_INET);
}

// Asserts that the pathname serializes to these bytes, and that `Debug` prints the result of
// parsing them as this text.
fn assert_path_emits(rt: &impl Abort, alloc: Global, path: &[u8], bytes: &[u8], text: &str) {
    let path = Vec::from_slice(alloc, path).expect(rt, "memory");
    assert_emits(rt, alloc, &UnixDiagName::Pathname(path), bytes);
    assert_parses_as(rt, alloc, Subject::Name, bytes, text);
}

// A pathname that is empty or starts with a NUL is parsed as an abstract name. One with another NUL
// is rejected.
#[test]
fn names_that_no_parser_returns(rt: HostRuntime) {
    let alloc = rt.alloc();
    assert_path_emits(&rt, alloc, b"", b"\0", "Ok(Abstract([]))");
    let text = "Err(NameInnerZero { index: 1 })";
    assert_path_emits(&rt, alloc, b"a\0b", b"a\0b\0", text);
    assert_path_emits(&rt, alloc, b"\0a", b"\0a\0", "Ok(Abstract([97, 0]))");
}

// Asserts that the raw attribute of this type and value serializes to these bytes, and that `Debug`
// prints the result of parsing them, as a UNIX attribute, as this text.
fn assert_other_emits(
    rt: &impl Abort,
    alloc: Global,
    (type_word, value): (u16, &[u8]),
    bytes: &[u8],
    text: &str,
) {
    let value = Vec::from_slice(alloc, value).expect(rt, "memory");
    assert_emits(
        rt,
        alloc,
        &Nla::Other(DefaultNla::new(type_word, value)),
        bytes,
    );
    assert_parses_as(rt, alloc, Subject::UnixAttribute, bytes, text);
}

// Raw attributes of a known kind, `UNIX_DIAG_PEER`. They are not parsed as raw ones: the value of 4
// bytes is a peer, and that of 1 byte is rejected.
#[test]
fn attributes_that_no_parser_returns(rt: HostRuntime) {
    let alloc = rt.alloc();
    let peer = b"\x08\0\x02\0\x01\0\0\0";
    assert_other_emits(&rt, alloc, (2, b"\x01\0\0\0"), peer, "Ok(Peer(1))");
    let short = b"\x05\0\x02\x80\x01\0\0\0";
    let text = "Err(WrongLength { kind: Some(2), got: 1, need: 4 })";
    assert_other_emits(&rt, alloc, (0x8002, b"\x01"), short, text);
}

// The memory of a socket with drops and without a backlog, which is serialized as 0.
#[test]
fn a_memory_without_a_backlog(rt: HostRuntime) {
    let memory = MemInfo {
        receive_queue: 1,
        receive_queue_max: 2,
        bottom_send_queues: 3,
        send_queue_max: 4,
        cache: 5,
        send_queue: 6,
        options: 7,
        backlog_queue_length: None,
        drops: Some(9),
    };
    let bytes = b"\x28\0\x07\0\x01\0\0\0\x02\0\0\0\x03\0\0\0\x04\0\0\0\x05\0\0\0\
        \x06\0\0\0\x07\0\0\0\0\0\0\0\x09\0\0\0";
    let text = "Ok(MemInfo(MemInfo { receive_queue: 1, receive_queue_max: 2, \
        bottom_send_queues: 3, send_queue_max: 4, cache: 5, send_queue: 6, options: 7, \
        backlog_queue_length: Some(0), drops: Some(9) }))";
    assert_emits(&rt, rt.alloc(), &inet::Nla::MemInfo(memory), bytes);
    assert_parses_as(&rt, rt.alloc(), Subject::InetAttribute, bytes, text);
}
