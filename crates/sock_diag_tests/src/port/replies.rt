//! What `Debug` prints for replies and messages, or a part of it. A row has the digits that follow
//! a given start, possibly none, a space, and that part.

use super::hostile::changed;
use super::parsers::{Subject, parse_all_and_compare, parse_all_and_print};
use super::{
    ABSTRACT, CONNECTED, INET, LISTENING, PATH, PEER, SHUTDOWN, assert_contains, assert_debug,
    assert_debug_contains, assert_debug_lines, bytes, cells,
};
use netlink_core::{
    NetlinkDeserializable, NetlinkHeader, NetlinkMessage, Parseable, ParseableParametrized,
};
use netlink_packet_sock_diag::unix::{UnixResponse, UnixResponseView};
use netlink_packet_sock_diag::{
    MessageView, SOCK_DESTROY, SOCK_DIAG_BY_FAMILY, SockDiagDestroy, SockDiagMessage,
};
use std::alloc::Global;
use std::fmt::Debug;
use std::process::Abort;

/// Asserts that all parsers return the same result for the bytes `reply`, and that `part` occurs in
/// what `Debug` prints for it.
fn assert_report_contains(
    rt: &impl Abort,
    alloc: Global,
    subject: Subject,
    reply: &[u8],
    part: &str,
) {
    let report = parse_all_and_print(rt, alloc, subject, reply);
    let text = report.text.as_deref().expect(rt, "memory");
    assert_contains(rt, text, part);
}

/// Checks a row by [`assert_report_contains`]. It has digits, a space, and a part of the `Debug`
/// output. The bytes that are parsed are those of `front` and of the digits.
fn assert_attribute_row(rt: &impl Abort, alloc: Global, subject: Subject, front: &str, row: &str) {
    let (reply, part) = cells(rt, alloc, front, row);
    assert_report_contains(rt, alloc, subject, &reply, part);
}

/// The row for the reply `PATH`, without digits.
const WITH_PATH: &str = " Ok(UnixResponse { header: UnixResponseHeader { kind: 1, state: 10, \
inode: 20238, cookie: [160, 2, 0, 0, 0, 0, 0, 0] }, nlas: [Name(Pathname([47, 116, 109, 112, 47, \
46, 73, 67, 69, 45, 117, 110, 105, 120, 47, 49, 49, 53, 49])), ReceiveQueueLength(0, 128), \
Shutdown(0)] })";

/// The row for the reply `PEER`, without digits.
const WITH_PEER: &str = " Ok(UnixResponse { header: UnixResponseHeader { kind: 1, state: 1, \
inode: 31927, cookie: [34, 0, 0, 0, 0, 0, 0, 0] }, nlas: [Name(Pathname([47, 114, 117, 110, 47, \
117, 115, 101, 114, 47, 49, 48, 48, 48, 47, 98, 117, 115])), Peer(31062), ReceiveQueueLength(0, \
0), Shutdown(0)] })";

/// The row for the header `INET` and the attribute `SHUTDOWN`, without digits.
const WITH_SHUTDOWN: &str = " Ok(InetResponse { header: InetResponseHeader { family: 2, state: 1, \
timer: Some(KeepAlive(24.704s)), socket_id: SocketId { source_port: 60180, destination_port: 443, \
source_address: 192.168.178.60, destination_address: 172.217.23.131, interface_id: 0, \
cookie: [82, 3, 0, 0, 0, 0, 0, 0] }, recv_queue: 0, send_queue: 0, uid: 1000, inode: 2742952 }, \
nlas: [Shutdown(0)] })";

/// The row for the same bytes, parsed as a message.
const INET_MESSAGE: &str =
    " Ok(InetResponse(InetResponse { header: InetResponseHeader { family: 2, \
state: 1, timer: Some(KeepAlive(24.704s)), socket_id: SocketId { source_port: 60180, ";

/// A row with a request for UNIX sockets, which is parsed as a reply.
const MESSAGE: &str = "010000000204000034120000040000000800020001000000 \
Ok(UnixResponse(UnixResponse { header: UnixResponseHeader { kind: 0, state: 0, inode: 1026, \
cookie: [52, 18, 0, 0, 4, 0, 0, 0] }, nlas: [Peer(1)] }))";

#[test]
fn replies_and_a_message(rt: HostRuntime) {
    let alloc = rt.alloc();
    assert_attribute_row(&rt, alloc, Subject::UnixReply, PATH, WITH_PATH);
    assert_attribute_row(&rt, alloc, Subject::UnixReply, PEER, WITH_PEER);
    let inet = [INET, SHUTDOWN].concat(alloc).expect(&rt, "memory");
    assert_attribute_row(&rt, alloc, Subject::InetReply, &inet, WITH_SHUTDOWN);
    assert_attribute_row(&rt, alloc, Subject::Message, &inet, INET_MESSAGE);
    assert_attribute_row(&rt, alloc, Subject::Message, "", MESSAGE);
}

/// The row for the reply `ABSTRACT`, without digits.
const WITH_ABSTRACT: &str = " Ok(UnixResponse { header: UnixResponseHeader { kind: 1, state: 10, \
inode: 20238, cookie: [160, 2, 0, 0, 0, 0, 0, 0] }, nlas: [Name(Abstract([49, 99, 49, 52, 52, 48, \
99, 53, 102, 53, 101, 50, 97, 53, 50, 101, 47, 98, 117, 115, 47, 115, 121, 115, 116, 101, 109, \
100, 47, 0, 47, 98, 117, 115, 45, 97, 112, 105, 45, 117, 115, 101, 114])), \
ReceiveQueueLength(0, 128), Shutdown(0)] })";

/// Rows with one attribute after the header `LISTENING`.
const LISTENING_ROWS: &str = "\
0500068002000000 Ok(UnixResponse { header: UnixResponseHeader { kind: 1, state: 10, inode: 20238, \
cookie: [160, 2, 0, 0, 0, 0, 0, 0] }, nlas: [Shutdown(2)] })
0500078002000000 nlas: [Other(DefaultNla { kind: 32775, value: [2] })] })
28000500010000000200000003000000040000000500000006000000070000000800000009000000 nlas: \
[MemInfo(MemInfo { so_rcvbuf: 2, max_datagram_size: 4, alloc: 6 })] })
0c0003000500000006000000 nlas: [PendingConnections([5, 6])] })
04000300 nlas: [PendingConnections([])] })
04000700 nlas: [Other(DefaultNla { kind: 7, value: [] })] })
0600030001020000 Err(NotMultipleOfFour { got: 2 })
0800040000000000 Err(WrongLength { kind: Some(4), got: 4, need: 8 })
03000600 Err(AttributeLengthUnder4 { length: 3 })
00000600 Err(AttributeLengthUnder4 { length: 0 })
04000600 Err(WrongLength { kind: Some(6), got: 0, need: 1 })
ffff0600 Err(AttributeLengthPast { length: 65535, left: 4 })
0800000061006200 Err(NameInnerZero { index: 1 })
0500028001000000 Err(WrongLength { kind: Some(2), got: 1, need: 4 })
2000050001000000020000000300000004000000050000000600000007000000 \
Err(BufferTooSmall { which: UnixMemInfo, got: 28, need: 36 })";

/// Rows with one attribute after the header `CONNECTED`.
const CONNECTED_ROWS: &str = "\
0c0004000300000007000000 Ok(UnixResponse { header: UnixResponseHeader { kind: 1, state: 1, inode: \
31927, cookie: [34, 0, 0, 0, 0, 0, 0, 0] }, nlas: [ReceiveQueueLength(3, 7)] })
0800020001000000 nlas: [Peer(1)] })";

/// Rows with one attribute after the header `INET`.
const INET_ROWS: &str = "\
090004006375626963 nlas: [Congestion(\"cubic\")] })
0a0004006375626963000000 nlas: [Congestion(\"cubic\")] })
0b0004006375626963000000 nlas: [Congestion(\"cubic\\0\")] })
05000b0002000000 nlas: [SkV6Only(true)] })
05000400ff000000 Err(NotUtf8)
0600050001020000 Err(WrongLength { kind: Some(5), got: 2, need: 1 })
1f00070000000000000000000000000000000000000000000000000000000000 Err(BufferTooSmall { which: \
MemInfo, got: 27, need: 28 })";

/// Rows with whole replies: `INET` and `SHUTDOWN`, with the timer bytes 3, 0 and 9 instead of 2,
/// and with the family 1.
const INET_TIMERS: &str = "\
02010300eb1401bbc0a8b23c000000000000000000000000acd91783000000000000000000000000000000005203000000\
000000806000000000000000000000e8030000a8da29000500080000000000 timer: Some(TimeWait), \
socket_id
02010000eb1401bbc0a8b23c000000000000000000000000acd91783000000000000000000000000000000005203000000\
000000806000000000000000000000e8030000a8da29000500080000000000 timer: None, socket_id
02010900eb1401bbc0a8b23c000000000000000000000000acd91783000000000000000000000000000000005203000000\
000000806000000000000000000000e8030000a8da29000500080000000000 timer: None, socket_id
01010200eb1401bbc0a8b23c000000000000000000000000acd91783000000000000000000000000000000005203000000\
000000806000000000000000000000e8030000a8da29000500080000000000 Err(UnsupportedFamily { \
family: 1 })";

/// Returns whether the reply `INET` with the timer `one` (`idiag_timer`) equals the one with the
/// timer `other`.
fn are_equal_with_timers(rt: &impl Abort, alloc: Global, one: u8, other: u8) -> bool {
    // `INET` has the timer 2, at offset 2.
    let reply = bytes(rt, alloc, &[INET]);
    let one = changed(rt, alloc, &reply, 2, one ^ 2);
    let other = changed(rt, alloc, &reply, 2, other ^ 2);
    let report = parse_all_and_compare(rt, alloc, Subject::InetReply, &one, &other);
    assert!(rt; report.error.is_none());
    report.is_original
}

/// Rows with payloads of messages. The first two have the layout of `inet_diag_req_v2`, and are
/// parsed as replies: in the address of the first, whose family is `AF_UNIX`, is the header of an
/// attribute.
const MESSAGE_ROWS: &str = "\
01010a00000000000000000000000000280007000000000000000000000000000000000000000000000000000000000000\
00000000000000 Ok(UnixResponse(UnixResponse { header: UnixResponseHeader { kind: 1, state: 10, \
inode: 0, cookie: [0, 0, 0, 0, 0, 0, 0, 0] }, nlas: [Other(DefaultNla { kind: 7, value: [0, 0, 0, \
0, 0, 0, 0, 0, 0, 0, 0, 0, 0, 0, 0, 0, 0, 0, 0, 0, 0, 0, 0, 0, 0, 0, 0, 0, 0, 0, 0, 0, 0, 0, 0, \
0] })] }))
02110000020000000000000000000000000000000000000000000000000000000000000000000000000000000000000000\
00000000000000 Err(BufferTooSmall { which: InetResponseHeader, got: 56, need: 72 })
01 Err(MessageTooShort { got: 1 })
0300 Err(UnknownFamily { family: 3 })";

/// Checks each row by [`assert_attribute_row`].
fn assert_attribute_rows(
    rt: &impl Abort,
    alloc: Global,
    subject: Subject,
    front: &str,
    rows: &str,
) {
    for row in rows.lines() {
        assert_attribute_row(rt, alloc, subject, front, row);
    }
}

#[test]
fn values_and_errors(rt: HostRuntime) {
    let alloc = rt.alloc();
    assert_attribute_row(&rt, alloc, Subject::UnixReply, ABSTRACT, WITH_ABSTRACT);
    assert_attribute_rows(&rt, alloc, Subject::UnixReply, LISTENING, LISTENING_ROWS);
    assert_attribute_rows(&rt, alloc, Subject::UnixReply, CONNECTED, CONNECTED_ROWS);
    assert_attribute_rows(&rt, alloc, Subject::InetReply, INET, INET_ROWS);
    assert_attribute_rows(&rt, alloc, Subject::InetReply, "", INET_TIMERS);
    // The timers 0 and 9 are none, and 2 is a keepalive timer.
    assert!(rt; are_equal_with_timers(&rt, alloc, 0, 9));
    assert!(rt; !are_equal_with_timers(&rt, alloc, 0, 2));
    assert_attribute_rows(&rt, alloc, Subject::Message, "", MESSAGE_ROWS);
}

/// A reply about a listening socket, with two attributes of each kind that a getter looks for.
const TWO_OF_EACH: &str = "01010a000e4f0000a002000000000000\
07000000004100000600000062000000\
08000200010000000800020002000000\
08000300050000000c0003000600000007000000\
0c00040008000000090000000c0004000a0000000b000000\
28000500000000000200000000000000040000000000000006000000000000000000000000000000\
28000500000000000300000000000000050000000000000007000000000000000000000000000000\
05000600010000000500060002000000";

/// Asserts that `Debug` prints what the getters of a reply return as these texts. `details`: peer,
/// name, pending connections, directions that are shut down. `numbers`: the number and the limit of
/// pending connections; the sizes of the receive and the send queue; the limit of a datagram and
/// the memory for outgoing data.
fn assert_getters(rt: &impl Abort, alloc: Global, reply: &str, (details, numbers): (&str, &str)) {
    let reply = bytes(rt, alloc, &[reply]);
    let reply = UnixResponse::parse(alloc, reply.as_slice()).expect(rt, "refused");
    let (peer, name) = (reply.peer(), reply.name());
    let (pending, shutdown) = (reply.pending_connections(), reply.shutdown_state());
    assert_debug(rt, alloc, &(peer, name, pending, shutdown), details);
    let listening = [
        reply.number_of_pending_connection(),
        reply.max_number_of_pending_connection(),
    ];
    let queues = [reply.receive_queue_size(), reply.send_queue_size()];
    let memory = [
        reply.max_datagram_size(),
        reply.memory_used_for_outgoing_data(),
    ];
    assert_debug(rt, alloc, &[listening, queues, memory], numbers);
}

// A getter returns the value of the first attribute of its kind. The queue lengths are those of a
// listening socket or those of any other one.
#[test]
fn getters(rt: HostRuntime) {
    let alloc = rt.alloc();
    let details = "(Some(1), Some(Abstract([65, 0])), Some([5]), Some(1))";
    let numbers = "[[Some(8), Some(9)], [None, None], [Some(4), Some(6)]]";
    assert_getters(&rt, alloc, TWO_OF_EACH, (details, numbers));
    let none = "(None, None, None, None)";
    let numbers = "[[None, None], [Some(3), Some(7)], [None, None]]";
    // A socket that does not listen (state 1), with the queue lengths 3 and 7.
    let connected = "01010100b77c000022000000000000000c0004000300000007000000";
    assert_getters(&rt, alloc, connected, (none, numbers));
    let numbers = "[[Some(0), Some(128)], [None, None], [None, None]]";
    let details = "(None, Some(Pathname([47, 116, 109, 112, 47, 46, 73, 67, 69, 45, 117, 110, \
        105, 120, 47, 49, 49, 53, 49])), None, Some(0))";
    assert_getters(&rt, alloc, PATH, (details, numbers));
}

/// What `{:#?}` prints for an owned reply.
const REPLY_LINES: &str = "UnixResponse {
    header: UnixResponseHeader {
        kind: 1,
        state: 10,
        inode: 20238,
        cookie: [
            160,
            2,
            0,
            0,
            0,
            0,
            0,
            0,
        ],
    },
    nlas: [
        Shutdown(
            2,
        ),
    ],
}";

/// What `{:#?}` prints for the same reply, borrowed.
const VIEW_LINES: &str = "UnixResponseView {
    bytes: [
        1,
        1,
        10,
        0,
        14,
        79,
        0,
        0,
        160,
        2,
        0,
        0,
        0,
        0,
        0,
        0,
        5,
        0,
        6,
        0,
        2,
        0,
        0,
        0,
    ],
    count: 1,
}";

#[test]
fn lines_of_a_reply(rt: HostRuntime) {
    let reply = bytes(&rt, rt.alloc(), &[LISTENING, "0500060002000000"]);
    let view = UnixResponseView::parse(&reply).expect(&rt, "refused");
    assert_debug_lines(&rt, rt.alloc(), &view, VIEW_LINES);
    let reply = view.to_owned(rt.alloc()).expect(&rt, "memory");
    assert_debug_lines(&rt, rt.alloc(), &reply, REPLY_LINES);
}

/// Asserts what `Debug` prints for a reply of this header and `count + 1` equal attributes, which
/// are printed as `Shutdown(2)`.
fn assert_debug_of_many(
    rt: &impl Abort,
    alloc: Global,
    subject: Subject,
    header: &str,
    attribute: &str,
    count: usize,
) {
    let many = attribute.repeat(alloc, count).expect(rt, "memory");
    let reply = bytes(rt, alloc, &[header, attribute, &many]);
    assert_report_contains(rt, alloc, subject, &reply, &many_text(rt, alloc, count));
}

/// Returns what `Debug` prints for `count + 1` attributes `Shutdown(2)`.
fn many_text(rt: &impl Abort, alloc: Global, count: usize) -> String {
    let many = "Shutdown(2), ".repeat(alloc, count).expect(rt, "memory");
    let parts = ["nlas: [", many.as_str(), "Shutdown(2)] })"];
    parts.concat(alloc).expect(rt, "memory")
}

/// Numbers of attributes, less one. A reply stores up to eight inline.
const COUNTS: [usize; 7] = [0, 1, 7, 8, 9, 300, 10_000];

#[test]
fn replies_with_many_attributes(rt: HostRuntime) {
    let (unix, inet) = ("0500060002000000", "0500080002000000");
    for &count in &COUNTS {
        assert_debug_of_many(&rt, rt.alloc(), Subject::UnixReply, CONNECTED, unix, count);
        assert_debug_of_many(&rt, rt.alloc(), Subject::InetReply, INET, inet, count);
    }
}

/// Checks each row. It has a netlink message in hexadecimal, a space, and a part of what `Debug`
/// prints for the result of parsing it.
fn assert_message_rows<I: NetlinkDeserializable + Debug + Drop>(
    rt: &impl Abort,
    alloc: Global,
    rows: &str,
) {
    for row in rows.lines() {
        let (message, part) = cells(rt, alloc, "", row);
        let read = NetlinkMessage::<I>::deserialize(alloc, &message);
        assert_debug_contains(rt, alloc, &read, part);
    }
}

/// Rows of [`assert_message_rows`]: a message with a reply, control messages, and rejected ones: a
/// truncated header, two wrong lengths, and a request.
const ENVELOPES: &str = "2000000014000200070000000000000001010a000e4f0000a002000000000000ffff \
Ok(NetlinkMessage { header: NetlinkHeader { length: 32, message_type: 20, flags: 2, \
sequence_number: 7, port_number: 0 }, payload: InnerMessage(UnixResponse(UnixResponse { header: \
UnixResponseHeader { kind: 1, state: 10, inode: 20238, cookie: [160, 2, 0, 0, 0, 0, 0, 0] }, \
nlas: [] })) })
10000000010000000000000000000000 payload: Noop })
1400000003000200070000000000000000000000 payload: Done([0, 0, 0, 0]) })
10000000020002000700000000000000 payload: Error([]) })
120000000400010307000080443322110900 Ok(NetlinkMessage { header: NetlinkHeader { length: 18, \
message_type: 4, flags: 769, sequence_number: 2147483655, port_number: 287454020 }, payload: \
Overrun([9, 0]) })
200000001400020007000000000000 Err(EnvelopeCut { got: 15 })
0f00000014000200070000000000000001010a000e4f0000a002000000000000ffff Err(EnvelopeLengthUnder16 { \
length: 15 })
2300000014000200070000000000000001010a000e4f0000a002000000000000ffff Err(EnvelopeLengthPast { \
length: 35, got: 34 })
4800000014000103000000000000000002060000fe0f000000000000000000000000000000000000000000000000000000\
0000000000000000000000000000000000000000000000 Err(BufferTooSmall { which: InetResponseHeader, \
got: 56, need: 72 })";

/// Parses the message in `parts`, and calls `finalize`. Asserts that then `Debug` prints its header
/// as this text, and that its payload is unchanged.
fn assert_finalized(rt: &impl Abort, alloc: Global, parts: &[&str], header: &str) {
    let bytes = bytes(rt, alloc, parts);
    let mut message = NetlinkMessage::<SockDiagMessage>::deserialize(alloc, &bytes).expect(
        rt, "refused",
    );
    assert!(rt; message.is_writable());
    message.finalize();
    let (finalized, payload) = message.into_parts();
    assert_debug(rt, alloc, &finalized, header);
    let parsed_again = NetlinkMessage::<SockDiagMessage>::deserialize(alloc, &bytes);
    assert!(rt; parsed_again.expect(rt, "refused").payload == payload);
}

// Two bytes follow the first message. The second one lacks the last byte of its padding: its length
// is 75 (0x4b), and 76 after `finalize`, with the padding that is serialized.
#[test]
fn parsed_messages_are_finalized(rt: HostRuntime) {
    let alloc = rt.alloc();
    let parts = ["20000000140002000700000000000000", LISTENING, "ffff"];
    let text = "NetlinkHeader { length: 32, message_type: 20, flags: 2, sequence_number: 7, \
        port_number: 0 }";
    assert_finalized(&rt, alloc, &parts, text);
    let parts = [
        "4b000000140002000700000000000000",
        LISTENING,
        "180000002f746d702f2e4943452d756e69782f31313531000c0004000000000080000000",
        "05000600000000",
    ];
    let text = "NetlinkHeader { length: 76, message_type: 20, flags: 2, sequence_number: 7, \
        port_number: 0 }";
    assert_finalized(&rt, alloc, &parts, text);
}

#[test]
fn a_borrowed_message(rt: HostRuntime) {
    let end = bytes(
        &rt,
        rt.alloc(),
        &["1400000003000200070000000000000000000000"],
    );
    let text = "Ok(MessageView { header: NetlinkHeader { length: 20, message_type: 3, flags: 2, \
        sequence_number: 7, port_number: 0 }, payload: Done([0, 0, 0, 0]) })";
    assert_debug(&rt, rt.alloc(), &MessageView::parse(&end), text);
}

/// Rows of [`assert_message_rows`]: a reply as the payload of a `SockDiagDestroy`, accepted under
/// type 20 and rejected under 21 (`SOCK_DESTROY`); and a request for IPv4 sockets under 21,
/// rejected.
const DESTROY_MESSAGES: &str =
    "4c00000014000000000000000000000001010a000e4f0000a0020000000000001800\
00002f746d702f2e4943452d756e69782f31313531000c00040000000000800000000500060000000000 payload: \
InnerMessage(SockDiagDestroy(UnixResponse(UnixResponse { header: UnixResponseHeader { kind: 1, \
state: 10, inode: 20238, cookie: [160, 2, 0, 0, 0, 0, 0, 0] }, nlas: [Name(Pathname([47, 116, \
109, 112, 47, 46, 73, 67, 69, 45, 117, 110, 105, 120, 47, 49, 49, 53, 49])), \
ReceiveQueueLength(0, 128), Shutdown(0)] }))) })
4c00000015000000000000000000000001010a000e4f0000a002000000000000180000002f746d702f2e4943452d75\
6e69782f31313531000c00040000000000800000000500060000000000 Err(UnknownMessageType { \
message_type: 21 })
4800000015000103000000000000000002060000fe0f000000000000000000000000000000000000000000000000000000\
0000000000000000000000000000000000000000000000 Err(UnknownMessageType { message_type: 21 })";

// The message type is checked before the family, which is unknown here (3).
#[test]
fn a_message_under_another_type(rt: HostRuntime) {
    let read = SockDiagMessage::parse_with_param(rt.alloc(), b"\x03\0", SOCK_DESTROY);
    let text = "Err(UnknownMessageType { message_type: 21 })";
    assert_debug(&rt, rt.alloc(), &read, text);
    // The length in the header is not considered: it is 0.
    let mut header = NetlinkHeader::default();
    header.message_type = SOCK_DESTROY;
    let reply = bytes(&rt, rt.alloc(), &[PATH]);
    let read = SockDiagDestroy::deserialize(rt.alloc(), &header, &reply);
    assert_debug(&rt, rt.alloc(), &read, text);
    header.message_type = SOCK_DIAG_BY_FAMILY;
    let read = SockDiagDestroy::deserialize(rt.alloc(), &header, &reply);
    let part =
        "Ok(SockDiagDestroy(UnixResponse(UnixResponse { header: UnixResponseHeader { kind: 1, \
        state: 10, inode: 20238, ";
    assert_debug_contains(&rt, rt.alloc(), &read, part);
}

#[test]
fn envelopes(rt: HostRuntime) {
    assert_message_rows::<SockDiagMessage>(&rt, rt.alloc(), ENVELOPES);
    assert_message_rows::<SockDiagDestroy>(&rt, rt.alloc(), DESTROY_MESSAGES);
}
