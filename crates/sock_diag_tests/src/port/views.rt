//! Borrowed replies, the messages of a datagram, and the states of dumps.

use super::sizes::assert_dump_keeps;
use super::{
    ABSTRACT, INET, PATH, SHUTDOWN, assert_bytes, assert_debug, assert_debug_contains,
    assert_items, bytes,
};
use netlink_core::{DecodeError, Emitable, write_new};
use netlink_packet_sock_diag::inet::InetResponseView;
use netlink_packet_sock_diag::unix::UnixResponseView;
use netlink_packet_sock_diag::unix::nlas::NameView;
use netlink_packet_sock_diag::{
    DumpError, DumpReader, DumpState, DumpViews, LossyDump, SOCK_DIAG_BY_FAMILY, SockDiagView,
};
use std::alloc::Global;
use std::process::Abort;

/// Asserts that the value serializes to these bytes.
fn assert_emits<T: Emitable>(rt: &impl Abort, alloc: Global, value: &T, parts: &[&str]) {
    let written = write_new(alloc, value).expect(rt, "unwritable");
    assert_bytes(rt, &written, &bytes(rt, alloc, parts));
}

/// Asserts that `part` occurs in what `Debug` prints for the borrowed reply as a message, and that
/// the message serializes to these bytes.
fn assert_message_emits(rt: &impl Abort, alloc: Global, reply: &[u8], part: &str, parts: &[&str]) {
    let message = SockDiagView::parse(reply, SOCK_DIAG_BY_FAMILY).expect(rt, "refused");
    assert_debug_contains(rt, alloc, &message, part);
    assert_emits(rt, alloc, &message, parts);
}

/// `UNIX_DIAG_ICONS` (3) with the inodes 5 and 6 of two pending connections.
const PENDING: &str = "0c0003000500000006000000";

#[test]
fn attributes_of_a_borrowed_unix_reply(rt: HostRuntime) {
    let alloc = rt.alloc();
    let reply = bytes(&rt, alloc, &[PATH, PENDING]);
    let view = UnixResponseView::parse(&reply).expect(&rt, "refused");
    let answers = "[Name(Pathname([47, 116, 109, 112, 47, 46, 73, 67, 69, 45, 117, 110, 105, \
        120, 47, 49, 49, 53, 49])), ReceiveQueueLength(0, 128), Shutdown(0), \
        PendingConnections(NumbersView { bytes: [5, 0, 0, 0, 6, 0, 0, 0] })]";
    let attributes = view.attributes().clone().expect(&rt, "memory");
    assert_items(&rt, alloc, attributes, answers);
}

#[test]
fn a_borrowed_unix_reply_is_serialized(rt: HostRuntime) {
    let alloc = rt.alloc();
    let parts = [PATH, PENDING];
    let reply = bytes(&rt, alloc, &parts);
    let view = UnixResponseView::parse(&reply).expect(&rt, "refused");
    assert_emits(&rt, alloc, &view, &parts);
    let text = "UnixResponse(UnixResponseView { bytes: [1, 1, 10, 0, ";
    assert_message_emits(&rt, alloc, &reply, text, &parts);
}

// The name is bytes of the reply.
#[test]
fn a_name_of_a_borrowed_reply(rt: HostRuntime) {
    let reply = bytes(&rt, rt.alloc(), &[ABSTRACT]);
    let view = UnixResponseView::parse(&reply).expect(&rt, "refused");
    // The name follows the header of the reply, that of the attribute, and a NUL.
    let name = reply.get(21..64).expect(&rt, "short");
    assert!(rt; view.name() == Some(NameView::Abstract(name)));
}

// The numbers are bytes of the reply.
#[test]
fn numbers_of_a_borrowed_reply(rt: HostRuntime) {
    let alloc = rt.alloc();
    let reply = bytes(&rt, alloc, &[ABSTRACT, PENDING]);
    let view = UnixResponseView::parse(&reply).expect(&rt, "refused");
    let numbers = view.pending_connections().expect(&rt, "no numbers");
    let text = "NumbersIterator { remaining: NumbersView { bytes: [5, 0, 0, 0, 6, 0, 0, 0] } }";
    assert_debug(&rt, alloc, &numbers.iter(), text);
    let items = [numbers.get(0), numbers.get(1), numbers.get(2)];
    assert_debug(
        &rt,
        alloc,
        &(numbers.len(), items),
        "(2, [Some(5), Some(6), None])",
    );
    let owned = numbers.to_owned(alloc).expect(&rt, "memory");
    assert_debug(&rt, alloc, &owned, "[5, 6]");
}

/// The parts of an IPv4 reply. The text `cubic` has no NUL, which the serializer appends.
const INET_PARTS: [&str; 3] = [INET, "090004006375626963000000", SHUTDOWN];

#[test]
fn attributes_of_a_borrowed_inet_reply(rt: HostRuntime) {
    let alloc = rt.alloc();
    let reply = bytes(&rt, alloc, &INET_PARTS);
    let view = InetResponseView::parse(&reply).expect(&rt, "refused");
    let answers = "[Congestion(\"cubic\"), Shutdown(0)]";
    let attributes = view.attributes().clone().expect(&rt, "memory");
    assert_items(&rt, alloc, attributes, answers);
}

#[test]
fn a_borrowed_inet_reply_is_serialized(rt: HostRuntime) {
    let alloc = rt.alloc();
    let reply = bytes(&rt, alloc, &INET_PARTS);
    let view = InetResponseView::parse(&reply).expect(&rt, "refused");
    let parts = [INET, "0a0004006375626963000000", SHUTDOWN];
    assert_emits(&rt, alloc, &view, &parts);
    let text = "InetResponse(InetResponseView { bytes: [2, 1, 2, 0, 235, 20, 1, 187, 192, ";
    assert_message_emits(&rt, alloc, &reply, text, &parts);
}

// The error of an attribute, here a peer of 1 byte, is the last item.
#[test]
fn attributes_are_checked_as_they_are_given(rt: HostRuntime) {
    let alloc = rt.alloc();
    let reply = bytes(&rt, alloc, &[PATH, "0500020001000000", SHUTDOWN]);
    let (header, nlas) = UnixResponseView::walk(&reply).expect(&rt, "refused");
    assert_debug_contains(&rt, alloc, &header, "state: 10");
    let answers = "[Ok(Name(Pathname([47, 116, 109, 112, 47, 46, 73, 67, 69, 45, 117, 110, 105, \
        120, 47, 49, 49, 53, 49]))), Ok(ReceiveQueueLength(0, 128)), Ok(Shutdown(0)), \
        Err(WrongLength { kind: Some(2), got: 1, need: 4 })]";
    assert_items(&rt, alloc, nlas, answers);
}

// The framing error of the last two bytes is the last item.
#[test]
fn inet_attributes_are_checked_as_they_are_given(rt: HostRuntime) {
    let alloc = rt.alloc();
    let parts = [INET, "0a0004006375626963000000", SHUTDOWN, "0300"];
    let reply = bytes(&rt, alloc, &parts);
    let (_, nlas) = InetResponseView::walk(&reply).expect(&rt, "refused");
    let answers = "[Ok(Congestion(\"cubic\")), Ok(Shutdown(0)), \
        Err(AttributeHeaderCut { left: 2 })]";
    assert_items(&rt, alloc, nlas, answers);
}

/// Returns the digits of the message with this name. Any other name consists of digits, and is
/// returned. The message `unknown` has the type 21, `error` and `lost` have the number 0xee, and
/// `interrupted` has the flag `NLM_F_DUMP_INTR`. The message `odd` has 37 bytes, which is not a
/// multiple of 4.
fn digits(name: &str) -> &str {
    match name {
        "noop" => "10000000010000000000000000000000",
        "reply" => "2000000014000200070000000000000001010a000e4f0000a002000000000000",
        "unknown" => "2000000015000200070000000000000001010a000e4f0000a002000000000000",
        "done" => "1400000003000200070000000000000000000000",
        "error" => "14000000020002000700000000000000ee000000",
        "lost" => "14000000040002000700000000000000ee000000",
        "interrupted" => "2000000014001200070000000000000001010100b77c00002200000000000000",
        "odd" => "2500000014000000000000000000000001010a000e4f0000a0020000000000000500060000",
        digits => digits,
    }
}

/// Returns a datagram of the messages with these names, which are separated by `+`.
fn datagram(rt: &impl Abort, alloc: Global, names: &str) -> Vec<u8> {
    let mut text = String::new(alloc);
    for name in names.split('+') {
        text.push_str(digits(name)).expect(rt, "memory");
    }
    bytes(rt, alloc, &[text.as_str()])
}

/// A row has datagrams, `: `, and what a `DumpReader` reports after the last one, as in
/// `DumpReport`. Datagrams are separated by spaces. Each has the names of its messages, as for
/// `datagram`. In the last row `reply` follows `odd` without the 3 bytes of padding, so that the
/// next message starts at its fourth byte: its length field has the bytes 00 14 00 02.
const DUMPS: &str = ": (Ok(()), Reading, None, 0)
reply: (Ok(()), Reading, None, 1)
reply done: (Ok(()), Done, Some(0), 1)
reply+done: (Ok(()), Done, Some(0), 1)
reply+done reply: (Err(Ended), Done, Some(0), 1)
noop reply done: (Ok(()), Done, Some(0), 1)
reply+done+reply: (Ok(()), Done, Some(0), 1)
reply done reply: (Err(Ended), Done, Some(0), 1)
error: (Ok(()), Error, Some(238), 0)
reply+error reply: (Err(Ended), Error, Some(238), 1)
reply lost: (Ok(()), Overrun, None, 1)
reply lost reply: (Err(Ended), Overrun, None, 1)
reply+20000000: (Err(Fault(EnvelopeCut { got: 4 })), Failed, None, 1)
reply+00: (Err(Fault(EnvelopeCut { got: 1 })), Failed, None, 1)
reply+00 reply: (Err(Ended), Failed, None, 1)
unknown: (Err(Fault(UnknownMessageType { message_type: 21 })), Failed, None, 0)
odd reply: (Ok(()), Reading, None, 2)
odd+000000+reply: (Ok(()), Reading, None, 2)
odd+reply: (Err(Fault(EnvelopeLengthPast { length: 33559552, got: 29 })), Failed, None, 1)";

/// The result of the last `feed`, the state, the error number, and the number of messages of a
/// `DumpReader`.
type DumpReport = (Result<(), DumpError>, DumpState, Option<i32>, usize);

/// Feeds one more reply, with the flag `NLM_F_DUMP_INTR`, to a dump that has ended. Asserts that
/// this returns an error, and changes nothing that the dump reports.
fn assert_ended_dump_unchanged(rt: &impl Abort, alloc: Global, reader: &mut DumpReader) {
    let before = report_text(rt, alloc, reader);
    let fed = reader.feed(&datagram(rt, alloc, "interrupted"));
    assert!(rt; fed == Err(DumpError::Ended));
    assert!(rt; report_text(rt, alloc, reader) == before);
}

/// Returns what `Debug` prints for all that a dump reports.
fn report_text(rt: &impl Abort, alloc: Global, reader: &DumpReader) -> String {
    let (state, number) = (reader.state(), reader.error_number());
    let reported = (state, number, reader.is_interrupted(), reader.messages());
    format!(in alloc; "{reported:?}").expect(rt, "memory")
}

/// Feeds the datagrams of a row to a `DumpReader`, and returns its report. If the dump has ended,
/// asserts that one more reply changes nothing.
fn report_of_dump(rt: &impl Abort, alloc: Global, datagrams: &str) -> DumpReport {
    let mut reader = DumpReader::new(alloc);
    let mut answer = Ok(());
    for names in datagrams.split(' ') {
        answer = reader.feed(&datagram(rt, alloc, names));
    }
    let (state, number) = (reader.state(), reader.error_number());
    if state != DumpState::Reading {
        assert_ended_dump_unchanged(rt, alloc, &mut reader);
    }
    (answer, state, number, reader.into_messages().len())
}

#[test]
fn dumps_are_read(rt: HostRuntime) {
    for row in DUMPS.lines() {
        // The first row has no datagram: one without bytes is fed.
        let (datagrams, text) = row.split_once(": ").expect(&rt, "no text");
        assert_debug(
            &rt,
            rt.alloc(),
            &report_of_dump(&rt, rt.alloc(), datagrams),
            text,
        );
    }
}

/// A row has datagrams as in `DUMPS`, `: `, and what a `LossyDump` reports after the last one: the
/// result of the last `feed`, the state, the error number, and a list with the error of each entry,
/// or `None`. The digits are a reply of family 17.
const LOSSY_DUMPS: &str = "reply unknown+reply: (Ok(()), Reading, None, [None, \
Some(UnknownMessageType { message_type: 21 }), None])
2000000014000200070000000000000011010a000e4f0000a002000000000000 noop+reply+done: (Ok(()), Done, \
Some(0), [Some(UnknownFamily { family: 17 }), None])
unknown+error reply: (Err(Ended), Error, Some(238), \
[Some(UnknownMessageType { message_type: 21 })])
unknown+reply+00: (Err(Fault(EnvelopeCut { got: 1 })), Failed, None, \
[Some(UnknownMessageType { message_type: 21 }), None])";

/// Returns the error of each entry, if it has one.
fn entry_errors(rt: &impl Abort, alloc: Global, dump: LossyDump) -> Vec<Option<DecodeError>> {
    let mut errors = Vec::new(alloc);
    for entry in dump.into_entries() {
        errors.push(entry.err()).expect(rt, "memory");
    }
    errors
}

/// Feeds one more reply, with the flag `NLM_F_DUMP_INTR`, to a dump that has ended. Asserts that
/// this returns an error, and changes nothing that the dump reports.
fn assert_ended_lossy_dump_unchanged(rt: &impl Abort, alloc: Global, dump: &mut LossyDump) {
    let before = lossy_report_text(rt, alloc, dump);
    let fed = dump.feed(&datagram(rt, alloc, "interrupted"));
    assert!(rt; fed == Err(DumpError::Ended));
    assert!(rt; lossy_report_text(rt, alloc, dump) == before);
}

/// Returns what `Debug` prints for all that a dump reports.
fn lossy_report_text(rt: &impl Abort, alloc: Global, dump: &LossyDump) -> String {
    let (state, number) = (dump.state(), dump.error_number());
    let reported = (state, number, dump.is_interrupted(), dump.entries());
    format!(in alloc; "{reported:?}").expect(rt, "memory")
}

/// Feeds the datagrams to a `LossyDump`, and asserts that `Debug` prints its report as this text.
/// `datagrams` has the names of each datagram's messages, as for `datagram`, separated by spaces.
fn assert_lossy_report(rt: &impl Abort, alloc: Global, datagrams: &str, text: &str) {
    let mut dump = LossyDump::new(alloc);
    let mut answer = Ok(());
    for names in datagrams.split(' ') {
        answer = dump.feed(&datagram(rt, alloc, names));
    }
    let (state, number) = (dump.state(), dump.error_number());
    if state != DumpState::Reading {
        assert_ended_lossy_dump_unchanged(rt, alloc, &mut dump);
    }
    assert_debug(
        rt,
        alloc,
        &(answer, state, number, entry_errors(rt, alloc, dump)),
        text,
    );
}

#[test]
fn lossy_dumps_continue_after_invalid_replies(rt: HostRuntime) {
    for row in LOSSY_DUMPS.lines() {
        let (datagrams, text) = row.split_once(": ").expect(&rt, "no text");
        assert_lossy_report(&rt, rt.alloc(), datagrams, text);
    }
}

// A datagram of more than a megabyte.
#[test]
fn a_long_dump_keeps_all(rt: HostRuntime) {
    let many = datagram(&rt, rt.alloc(), "reply")
        .repeat(rt.alloc(), 50_000)
        .expect(&rt, "memory");
    assert_dump_keeps(&rt, rt.alloc(), &many, 2, 100_000);
}

/// A row has a datagram as for `datagram`, `: `, and the list of items that `DumpViews` yields.
/// Each item is a payload or an error. `NLMSG_DONE` does not end this iterator, a framing error
/// does.
const WALKS: &str = "reply: [Ok(InnerMessage(UnixResponse(UnixResponseView { bytes: [1, 1, 10, \
0, 14, 79, 0, 0, 160, 2, 0, 0, 0, 0, 0, 0], count: 0 })))]
noop+reply+done+reply: [Ok(Noop), Ok(InnerMessage(UnixResponse(UnixResponseView { bytes: [1, 1, \
10, 0, 14, 79, 0, 0, 160, 2, 0, 0, 0, 0, 0, 0], count: 0 }))), Ok(Done([0, 0, 0, 0])), \
Ok(InnerMessage(UnixResponse(UnixResponseView { bytes: [1, 1, 10, 0, 14, 79, 0, 0, 160, 2, 0, 0, \
0, 0, 0, 0], count: 0 })))]
error+lost: [Ok(Error([238, 0, 0, 0])), Ok(Overrun([238, 0, 0, 0]))]
unknown+reply: [Err(UnknownMessageType { message_type: 21 }), \
Ok(InnerMessage(UnixResponse(UnixResponseView { bytes: [1, 1, 10, 0, 14, 79, 0, 0, 160, 2, 0, 0, \
0, 0, 0, 0], count: 0 })))]
reply+20000000: [Ok(InnerMessage(UnixResponse(UnixResponseView { bytes: [1, 1, 10, 0, 14, 79, 0, \
0, 160, 2, 0, 0, 0, 0, 0, 0], count: 0 }))), Err(EnvelopeCut { got: 4 })]
odd+000000+reply: [Ok(InnerMessage(UnixResponse(UnixResponseView { bytes: [1, 1, 10, 0, 14, 79, \
0, 0, 160, 2, 0, 0, 0, 0, 0, 0, 5, 0, 6, 0, 0], count: 1 }))), \
Ok(InnerMessage(UnixResponse(UnixResponseView { bytes: [1, 1, 10, 0, 14, 79, 0, 0, 160, 2, 0, 0, \
0, 0, 0, 0], count: 0 })))]
odd+reply: [Ok(InnerMessage(UnixResponse(UnixResponseView { bytes: [1, 1, 10, 0, 14, 79, 0, 0, \
160, 2, 0, 0, 0, 0, 0, 0, 5, 0, 6, 0, 0], count: 1 }))), Err(EnvelopeLengthPast { length: \
33559552, got: 29 })]";

#[test]
fn datagrams_are_walked(rt: HostRuntime) {
    for row in WALKS.lines() {
        let (names, text) = row.split_once(": ").expect(&rt, "no text");
        let bytes = datagram(&rt, rt.alloc(), names);
        let views = DumpViews::new(&bytes).clone().expect(&rt, "memory");
        assert_items(&rt, rt.alloc(), views, text);
    }
}
