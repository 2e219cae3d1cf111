//! How requests are built, printed and serialized.

use super::{ZEROS, assert_bytes, assert_debug, bytes};
use bitflags::Flags;
use netlink_core::{
    NLM_F_DUMP, NLM_F_REQUEST, NetlinkHeader, NetlinkMessage, NetlinkPayload, NetlinkSerializable,
    Parseable,
};
use netlink_packet_sock_diag::constants::{AF_INET, AF_UNIX, IPPROTO_TCP};
use netlink_packet_sock_diag::inet::{ExtensionFlags, InetRequest, SocketId, StateFlags};
use netlink_packet_sock_diag::unix::{self, ShowFlags, UnixRequest};
use netlink_packet_sock_diag::{SockDiagDestroy, SockDiagMessage};
use std::alloc::Global;
use std::net::{IpAddr, Ipv6Addr};
use std::process::Abort;

/// Asserts that a message with this payload and the flags of a dump request serializes to the bytes
/// in `parts` after `finalize`, and that the two bytes of the buffer after them are unchanged
/// (0xee).
fn assert_sent<I: NetlinkSerializable + Drop>(
    rt: &impl Abort,
    alloc: Global,
    payload: NetlinkPayload<I>,
    parts: &[&str],
) {
    let sent = sent_bytes(rt, alloc, payload);
    let mut expected = bytes(rt, alloc, parts);
    expected
        .extend_from_slice(&[0xee, 0xee])
        .expect(rt, "memory");
    assert_bytes(rt, &sent, &expected);
}

/// Returns the bytes of a message with this payload, serialized to the start of a buffer, and the
/// two bytes of the buffer after them.
fn sent_bytes<I: NetlinkSerializable + Drop>(
    rt: &impl Abort,
    alloc: Global,
    payload: NetlinkPayload<I>,
) -> Vec<u8> {
    let mut message = NetlinkMessage::new(NetlinkHeader::default(), payload);
    message.header.flags = NLM_F_REQUEST | NLM_F_DUMP;
    assert!(rt; message.is_writable());
    message.finalize();
    assert!(rt; message.is_writable());
    let mut buffer = vec![in alloc; 0xee; message.buffer_len()].expect(rt, "memory");
    buffer.extend_from_slice(&[0xee, 0xee]).expect(rt, "memory");
    message.serialize(&mut buffer);
    buffer
}

/// Checks a request by [`assert_sent`].
fn assert_request_sent(rt: &impl Abort, alloc: Global, request: SockDiagMessage, parts: &[&str]) {
    assert_sent(rt, alloc, request.into(), parts);
}

// The requests of each family use the flags that its module re-exports. The state flag `LISTEN` is
// 0x400.
#[test]
fn a_unix_request(rt: HostRuntime) {
    let alloc = rt.alloc();
    let request = SockDiagMessage::UnixRequest(UnixRequest {
        state_flags: unix::StateFlags::LISTEN,
        inode: 0x1234,
        show_flags: ShowFlags::PEER,
        cookie: [255; 8],
    });
    let text = "Ok(UnixRequest(UnixRequest { state_flags: StateFlags(1024), inode: 4660, \
        show_flags: ShowFlags(4), cookie: [255, 255, 255, 255, 255, 255, 255, 255] }))";
    assert_debug(&rt, alloc, &request.clone(alloc), text);
    let sent = "2800000014000103000000000000000001000000000400003412000004000000ffffffffffffffff";
    assert_request_sent(&rt, alloc, request, &[sent]);
}

#[test]
fn an_inet_request_and_one_to_close(rt: HostRuntime) {
    let alloc = rt.alloc();
    let request = SockDiagMessage::InetRequest(InetRequest {
        family: AF_INET,
        protocol: IPPROTO_TCP,
        extensions: ExtensionFlags::empty(),
        states: StateFlags::all(),
        socket_id: SocketId::new_v4(),
    });
    let destroy = SockDiagDestroy::new(request.clone(alloc).expect(&rt, "memory"));
    let text = "Ok(SockDiagDestroy(InetRequest(InetRequest { family: 2, protocol: 6, \
        extensions: ExtensionFlags(0), states: StateFlags(4094), socket_id: SocketId { \
        source_port: 0, destination_port: 0, source_address: 0.0.0.0, \
        destination_address: 0.0.0.0, interface_id: 0, cookie: [0, 0, 0, 0, 0, 0, 0, 0] } })))";
    assert_debug(&rt, alloc, &destroy.clone(alloc), text);
    let front = "4800000014000103000000000000000002060000fe0f0000";
    assert_request_sent(&rt, alloc, request, &[front, ZEROS, ZEROS, ZEROS]);
    let front = "4800000015000103000000000000000002060000fe0f0000";
    assert_sent(&rt, alloc, destroy.into(), &[front, ZEROS, ZEROS, ZEROS]);
}

// A value that no parser returns: an `InetRequest` with the family `AF_UNIX`, in whose address is
// the header of an attribute.
#[test]
fn a_request_that_reads_as_a_reply(rt: HostRuntime) {
    let alloc = rt.alloc();
    let fields = bytes(&rt, alloc, &["02010a0000000000", ZEROS, ZEROS, ZEROS]);
    let mut request = InetRequest::parse(alloc, fields.as_slice()).expect(&rt, "refused");
    request.family = AF_UNIX;
    let octets = [0, 0, 0, 0, 40, 0, 7, 0, 0, 0, 0, 0, 0, 0, 0, 0];
    request.socket_id.source_address = IpAddr::V6(Ipv6Addr::from(octets));
    request.socket_id.destination_address = IpAddr::V6(Ipv6Addr::UNSPECIFIED);
    let front = "4800000014000103000000000000000001010a0000000000000000000000000028000700";
    let parts = [front, ZEROS, ZEROS, "00000000"];
    assert_request_sent(&rt, alloc, SockDiagMessage::InetRequest(request), &parts);
}
