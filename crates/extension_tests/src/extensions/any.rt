//! Tests of replies and requests for sockets of the families netlink, packet, vsock and XDP. Linux
//! 6.18 sent the bytes of the netlink and packet replies. The bytes of the vsock and XDP replies
//! and of the requests are derived by hand from the kernel's headers.

use super::{assert_debug, assert_text, items};
use netlink_core::{Emitable, write_new};
use sock_diag_any::{AnyNlas, AnyReply, InfoFormat};
use sock_diag_families::netlink::NetlinkRequest;
use sock_diag_families::vsock::VsockRequest;
use std::alloc::Global;
use std::process::Abort;

/// A reply about a `NETLINK_ROUTE` socket that is a member of the multicast groups 1 and 5.
const NETLINK: &str = "100300076a1800000000000000000000ff53010001100000000000000c000100110000000000\
00002800000000000000004003000000000000400300000000000000000000000000000000000000000008000400200000\
00";

/// A reply about a packet socket for IPv4 on the loopback interface, with a receive ring, a filter
/// and a fanout group.
const PACKET: &str = "110300080054010003100000000000001c000000010000000000000000000000000000000000\
00000100000008000500000000003000010001000000010000000000060001005e0000fb00000000000000000000000000\
00000000000000000000000000200002000010000002000000000800000400000000000000000000000000000008000400\
07000000280006000000000000400300000000000040030000000000000000008800000000000000000000000c00070006\
000000ffff0000";

/// A reply about a vsock socket of the host (context id 2) that listens on port 22.
const VSOCK: &str = "28010a000200000016000000ffffffffffffffff0a5000000500000000000000";

/// A reply about an XDP socket bound to queue 1 of interface 3, with its rings, UMEM and
/// statistics.
const XDP: &str = "2c0300000b00000006000000000000000c000100030000000100000008000200e803000008000300\
000800002c0005000000400000000000020000000004000000100000000000000300000001000000010000000100000008\
00060000100000340009000100000000000000020000000000000003000000000000000400000000000000050000000000\
00000600000000000000";

/// A reply about a listening UNIX socket.
const UNIX: &str = "01010a000e4f0000a002000000000000";

/// A reply about a TCP connection over IPv4.
const INET: &str = "02010200eb1401bbc0a8b23c000000000000000000000000acd9178300000000000000000000000\
0000000005203000000000000806000000000000000000000e8030000a8da2900";

/// An attribute of kind 99, which no family defines.
const OTHER: &str = "0800630007000000";

/// Returns the bytes in hexadecimal.
fn decoded(rt: &impl Abort, alloc: Global, row: &str) -> Vec<u8> {
    hex::decode(alloc, row).expect(rt, "digits")
}

/// Asserts that the value serializes to the bytes in hexadecimal.
fn assert_emits<T: Emitable>(rt: &impl Abort, alloc: Global, value: &T, row: &str) {
    let written = write_new(alloc, value).expect(rt, "unwritable");
    assert!(rt; written == decoded(rt, alloc, row), "{written:?}");
}

/// Parses a reply under `SOCK_DIAG_BY_FAMILY` (20).
fn parsed<'a>(rt: &impl Abort, bytes: &'a [u8]) -> AnyReply<'a> {
    AnyReply::parse(bytes, 20).expect(rt, "refused")
}

/// A reply of each family, the `Debug` output of its header, and the text of its attributes.
const REPLIES: [(&str, &str, &str); 6] = [
    (
        NETLINK,
        "Netlink(NetlinkResponseHeader { kind: 3, protocol: 0, state: 7, port: 6250, \
            destination_port: 0, destination_group: 0, inode: 87039, cookie: 4097 })",
        "Groups([17, 0, 0, 0, 0, 0, 0, 0]);\
            Memory(MemInfo { receive_queue: 0, receive_queue_max: 212992, bottom_send_queues: 0, \
            send_queue_max: 212992, cache: 0, send_queue: 0, options: 0, \
            backlog_queue_length: Some(0), drops: Some(0) });\
            NetlinkFlags(32);",
    ),
    (
        PACKET,
        "Packet(PacketResponseHeader { kind: 3, protocol: 2048, inode: 87040, cookie: 4099 })",
        "PacketInfo(PacketInfo { interface: 1, version: 0, reserve: 0, copy_threshold: 0, \
            timestamp: 0, flags: 1 });\
            Owner(0);\
            Memberships([1, 0, 0, 0, 1, 0, 0, 0, 0, 0, 6, 0, 1, 0, 94, 0, 0, 251, 0, 0, 0, 0, 0, \
            0, 0, 0, 0, 0, 0, 0, 0, 0, 0, 0, 0, 0, 0, 0, 0, 0, 0, 0, 0, 0]);\
            ReceiveFrames(PacketRing { block_size: 4096, blocks: 2, frame_size: 2048, frames: 4, \
            retire_timeout: 0, private_size: 0, features: 0 });\
            Fanout(7);\
            Memory(MemInfo { receive_queue: 0, receive_queue_max: 212992, bottom_send_queues: 0, \
            send_queue_max: 212992, cache: 0, send_queue: 0, options: 136, \
            backlog_queue_length: Some(0), drops: Some(0) });\
            Filter([6, 0, 0, 0, 255, 255, 0, 0]);",
    ),
    (
        VSOCK,
        "Vsock(VsockResponseHeader { kind: 1, state: 10, shutdown: 0, source_context: 2, \
            source_port: 22, destination_context: 4294967295, destination_port: 4294967295, \
            inode: 20490, cookie: 5 })",
        "",
    ),
    (
        XDP,
        "Xdp(XdpResponseHeader { kind: 3, inode: 11, cookie: 6 })",
        "XdpInfo(XdpInfo { interface: 3, queue: 1 });\
            Owner(1000);\
            ReceiveRing(2048);\
            Umem(XdpUmem { size: 4194304, id: 2, pages: 1024, chunk_size: 4096, headroom: 0, \
            interface: 3, queue: 1, flags: 1, references: 1 });\
            FillRing(4096);\
            Statistics(XdpStatistics { received_dropped: 1, received_invalid: 2, \
            received_full: 3, fill_ring_empty: 4, sent_invalid: 5, send_ring_empty: 6 });",
    ),
    (
        UNIX,
        "Unix(UnixResponseHeader { kind: 1, state: 10, inode: 20238, cookie: [160, 2, 0, 0, 0, \
            0, 0, 0] })",
        "",
    ),
    (
        INET,
        "Inet(InetResponseHeader { family: 2, state: 1, timer: Some(KeepAlive(24.704s)), \
            socket_id: SocketId { source_port: 60180, destination_port: 443, \
            source_address: 192.168.178.60, destination_address: 172.217.23.131, interface_id: 0, \
            cookie: [82, 3, 0, 0, 0, 0, 0, 0] }, recv_queue: 0, send_queue: 0, uid: 1000, \
            inode: 2742952 })",
        "",
    ),
];

/// Asserts the `Debug` output of the header of a reply, and the text of its attributes.
fn assert_reply(rt: &impl Abort, alloc: Global, (row, header, nlas): (&str, &str, &str)) {
    let bytes = decoded(rt, alloc, row);
    let reply = parsed(rt, &bytes);
    assert_debug(rt, alloc, reply.header(), header);
    let found = items(rt, alloc, reply.attributes(InfoFormat::Unknown));
    assert_text(rt, found.as_str(), nlas);
}

#[test]
fn headers_and_attributes(rt: HostRuntime) {
    for row in &REPLIES {
        assert_reply(&rt, rt.alloc(), *row);
    }
}

#[test]
fn attribute_with_its_bytes(rt: HostRuntime) {
    let bytes = decoded(&rt, rt.alloc(), NETLINK);
    let reply = parsed(&rt, &bytes);
    let mut nlas = reply.attributes(InfoFormat::Unknown);
    // The bits of the groups 1 and 5 are 1 and 16.
    let text = "Some(Ok((NlaBuffer { type_word: 1, value: [17, 0, 0, 0, 0, 0, 0, 0] }, \
        Groups([17, 0, 0, 0, 0, 0, 0, 0]))))";
    assert_debug(&rt, rt.alloc(), &nlas.next(), text);
}

#[test]
fn requests(rt: HostRuntime) {
    let alloc = rt.alloc();
    // Listening sockets, of state 10.
    let vsock = VsockRequest {
        states: 0x400,
        cookie: 0,
    };
    let row = "280000000004000000000000000000000000000000000000";
    assert_emits(&rt, alloc, &vsock, row);
    // Sockets of all protocols (`NDIAG_PROTO_ALL`).
    let netlink = NetlinkRequest {
        protocol: 255,
        inode: 0,
        show: 0xb,
        cookie: 0,
    };
    let row = "10ff0000000000000b0000000000000000000000";
    assert_emits(&rt, alloc, &netlink, row);
}

/// Replies, each with the number of its attributes.
const COUNTS: [(&str, usize); 6] = [
    (NETLINK, 3),
    (PACKET, 7),
    (VSOCK, 0),
    (XDP, 6),
    (UNIX, 0),
    (INET, 0),
];

/// Returns the number of attributes that are accepted.
fn accepted(nlas: AnyNlas<'_>) -> usize {
    let mut count = 0usize;
    for item in nlas {
        count = count.saturating_add(usize::from(item.is_ok()));
    }
    count
}

/// Asserts that a reply has `count` attributes, and `more` after so many copies of [`OTHER`] are
/// appended to it, none of which is rejected.
fn assert_count(rt: &impl Abort, alloc: Global, row: &str, count: usize, more: usize) {
    let others = OTHER.repeat(alloc, more).expect(rt, "memory");
    let digits = [row, others.as_str()].concat(alloc).expect(rt, "memory");
    let bytes = decoded(rt, alloc, digits.as_str());
    let reply = parsed(rt, &bytes);
    let found = accepted(reply.attributes(InfoFormat::Unknown));
    assert!(rt; found == count.saturating_add(more), "{row} {found}");
}

#[test]
fn many_attributes(rt: HostRuntime) {
    for (row, count) in &COUNTS {
        assert_count(&rt, rt.alloc(), row, *count, 0);
        assert_count(&rt, rt.alloc(), row, *count, 1);
        assert_count(&rt, rt.alloc(), row, *count, 300);
        assert_count(&rt, rt.alloc(), row, *count, 10_000);
    }
}

/// Asserts that a reply is rejected with an error that has this text.
fn assert_rejected(rt: &impl Abort, alloc: Global, row: &str, text: &str) {
    let bytes = decoded(rt, alloc, row);
    let error = AnyReply::parse(&bytes, 20).err().expect(rt, "accepted");
    let shown = format!(in alloc; "{error}").expect(rt, "memory");
    assert_text(rt, shown.as_str(), text);
}

#[test]
fn rejected_replies(rt: HostRuntime) {
    // A netlink reply (family 16) with a truncated header, and the family 29.
    let cut = "FamilyResponseHeader { family: 16 }: buffer of 5 bytes, at least 28 needed";
    assert_rejected(&rt, rt.alloc(), "1003000701", cut);
    assert_rejected(&rt, rt.alloc(), "1d03", "unknown address family 29");
}
