//! Tests of the records of `sock_diag_records`, with those that it re-exports.

use super::{assert_bytes, assert_debug, assert_debug_lines, assert_emits};
use bitflags::Flags;
use netlink_core::{
    Fills, Parseable, ParseableParametrized, Record, RecordBuffer, Wire, canonical,
};
use sock_diag_attributes::unix::nlas::{NameView, Nla, NlaView};
use sock_diag_records::inet::nlas::{LegacyMemInfo, MemInfo, MemInfoBuffer, TCP_INFO_LEN, TcpInfo};
use sock_diag_records::inet::{InetRequest, InetResponseHeader, SocketId, Timer};
use sock_diag_records::unix::nlas::{self as unix_nlas, Vfs};
use sock_diag_records::unix::{StateFlags, UnixRequest, UnixRequestBuffer, UnixResponseHeader};
use std::alloc::Global;
use std::fmt::Debug;
use std::net::{IpAddr, Ipv6Addr};
use std::process::Abort;
use std::time::Duration;

// A reply header of a socket with a keepalive timer. All of its fields differ. The bytes 0x80, 0x60
// at offset 52 are the time of the timer, 24,704 milliseconds.
const HEADER: [u8; 72] = [
    2, 1, 2, 0, 0xeb, 0x14, 1, 0xbb, 0xc0, 0xa8, 0xb2, 0x3c, 0, 0, 0, 0, 0, 0, 0, 0, 0, 0, 0, 0,
    0xac, 0xd9, 0x17, 0x83, 0, 0, 0, 0, 0, 0, 0, 0, 0, 0, 0, 0, 4, 3, 0, 0, 11, 12, 13, 14, 15, 16,
    17, 18, 0x80, 0x60, 0, 0, 5, 1, 0, 0, 6, 2, 0, 0, 0xe8, 3, 0, 0, 0xa8, 0xda, 0x29, 0,
];

// A request for IPv4 sockets with nonzero bytes in `pad`, in the undefined flag bits, and after the
// source address. Its id has the ports 53 and 54321, and the addresses 127.0.0.1.
const LOOSE_INET: [u8; 56] = [
    2, 0x11, 0, 0xee, 255, 255, 255, 255, 0, 0x35, 0xd4, 0x31, 127, 0, 0, 1, 238, 238, 238, 238,
    238, 238, 238, 238, 238, 238, 238, 238, 127, 0, 0, 1, 0, 0, 0, 0, 0, 0, 0, 0, 0, 0, 0, 0, 1, 0,
    0, 0, 0, 1, 2, 3, 4, 5, 6, 7,
];

// A request for UNIX sockets with undefined flag bits, other values in the bytes that are ignored,
// and three more bytes.
const LOOSE_UNIX: [u8; 27] = [
    7, 9, 255, 255, 255, 255, 255, 255, 0x34, 0x12, 0, 0, 255, 255, 255, 255, 255, 255, 255, 255,
    255, 255, 255, 255, 0xaa, 0xbb, 0xcc,
];

// The canonical form of `LOOSE_UNIX`: defined flags only, and default values in ignored bytes.
const CANONICAL_UNIX: [u8; 24] = [
    1, 0, 0, 0, 2, 4, 0, 0, 0x34, 0x12, 0, 0, 0x3f, 0, 0, 0, 255, 255, 255, 255, 255, 255, 255, 255,
];

// A request for the peer (`ShowFlags::PEER`) of the UNIX socket with the inode 0x1234, if this
// socket is established or listening (states 0x402).
const PEER: [u8; 24] = [
    1, 0, 0, 0, 2, 4, 0, 0, 0x34, 0x12, 0, 0, 4, 0, 0, 0, 255, 255, 255, 255, 255, 255, 255, 255,
];

// Returns bytes each of which is its own offset, so the first `u32` is 0x03020100. They suffice for
// the longest record, `TcpInfo`.
fn counting_bytes() -> [u8; TCP_INFO_LEN] {
    let mut bytes = [0; TCP_INFO_LEN];
    for offset in 0..TCP_INFO_LEN as u8 {
        bytes[usize::from(offset)] = offset;
    }
    bytes
}

// Asserts that the bytes parse as a value that `Debug` prints as `text`, and that their canonical
// form is `canonical_form`. One byte less than `N` is rejected with the error `short`. `param` is
// the parameter of the parser: the family for a `SocketId`, else `()`.
fn assert_parses<T: Fills<N> + Debug + Drop, const N: usize>(
    rt: &impl Abort,
    alloc: Global,
    bytes: &[u8],
    param: T::Param,
    (text, short): (&str, &str),
    canonical_form: &[u8],
) {
    let value = T::read(alloc, bytes, param).expect(rt, "refused");
    assert_debug(rt, alloc, &value, text);
    let form = canonical::<T>(alloc, bytes, param).expect(rt, "refused");
    assert_bytes(rt, &form, canonical_form);
    let truncated = bytes.get(..N.saturating_sub(1)).expect(rt, "short");
    assert_debug(rt, alloc, &T::read(alloc, truncated, param), short);
}

// Asserts that the value serializes to these bytes, and that its buffer contains them.
fn assert_record_bytes<T: Fills<N>, const N: usize>(
    rt: &impl Abort,
    alloc: Global,
    value: &T,
    bytes: [u8; N],
) {
    assert_bytes(rt, &RecordBuffer::from(value).to_bytes(), &bytes);
    assert_emits(rt, alloc, value, &bytes);
}

// The canonical form of `counting_bytes` as the memory of a UNIX socket: the ignored fields are 0.
const UNIX_MEMORY: [u8; 36] = [
    0, 0, 0, 0, 4, 5, 6, 7, 0, 0, 0, 0, 12, 13, 14, 15, 0, 0, 0, 0, 20, 21, 22, 23, 0, 0, 0, 0, 0,
    0, 0, 0, 0, 0, 0, 0,
];

#[test]
fn values_of_attributes(rt: HostRuntime) {
    let (alloc, input) = (rt.alloc(), counting_bytes());
    let text = "Vfs { inode: 50462976, device: 117835012 }";
    let short = "Err(BufferTooSmall { which: Vfs, got: 7, need: 8 })";
    assert_parses::<Vfs, 8>(&rt, alloc, &input, (), (text, short), &input[..8]);
    let text = "MemInfo { so_rcvbuf: 117835012, max_datagram_size: 252579084, alloc: 387323156 }";
    let short = "Err(BufferTooSmall { which: UnixMemInfo, got: 35, need: 36 })";
    assert_parses::<unix_nlas::MemInfo, 36>(&rt, alloc, &input, (), (text, short), &UNIX_MEMORY);
    let text = "LegacyMemInfo { receive_queue: 50462976, bottom_send_queue: 117835012, \
        cache: 185207048, send_queue: 252579084 }";
    let short = "Err(BufferTooSmall { which: LegacyMemInfo, got: 15, need: 16 })";
    assert_parses::<LegacyMemInfo, 16>(&rt, alloc, &input, (), (text, short), &input[..16]);
    let short = "Err(BufferTooSmall { which: TcpInfo, got: 231, need: 232 })";
    assert_parses::<TcpInfo, TCP_INFO_LEN>(&rt, alloc, &input, (), (TCP_INFO, short), &input);
}

// What `Debug` prints for `counting_bytes` as a `TcpInfo`.
const TCP_INFO: &str = "TcpInfo { state: 0, ca_state: 1, retransmits: 2, probes: 3, backoff: 4, \
options: 5, wscale: 6, delivery_rate_app_limited: 7, rto: 185207048, ato: 252579084, \
snd_mss: 319951120, rcv_mss: 387323156, unacked: 454695192, sacked: 522067228, lost: 589439264, \
retrans: 656811300, fackets: 724183336, last_data_sent: 791555372, last_ack_sent: 858927408, \
last_data_recv: 926299444, last_ack_recv: 993671480, pmtu: 1061043516, rcv_ssthresh: 1128415552, \
rtt: 1195787588, rttvar: 1263159624, snd_ssthresh: 1330531660, snd_cwnd: 1397903696, \
advmss: 1465275732, reordering: 1532647768, rcv_rtt: 1600019804, rcv_space: 1667391840, \
total_retrans: 1734763876, pacing_rate: 8029475498074204520, \
max_pacing_rate: 8608196880778817904, bytes_acked: 9186918263483431288, \
bytes_received: 9765639646188044672, segs_out: 2341112200, segs_in: 2408484236, \
notsent_bytes: 2475856272, min_rtt: 2543228308, data_segs_in: 2610600344, \
data_segs_out: 2677972380, delivery_rate: 12080525177006498208, \
busy_time: 12659246559711111592, rwnd_limited: 13237967942415724976, \
sndbuf_limited: 13816689325120338360, delivered: 3284320704, delivered_ce: 3351692740, \
bytes_sent: 14974132090529565128, bytes_retrans: 15552853473234178512, dsack_dups: 3688552920, \
reord_seen: 3755924956, rcv_ooopack: 3823296992, snd_wnd: 3890669028 }";

// Asserts that the bytes parse as memory counters that serialize to `serialized`. `Debug` prints
// their first seven fields as the text in this function, and the others as `last_fields`, which
// also has the start of the text of the buffer, up to its bytes.
fn assert_mem_info(
    rt: &impl Abort,
    alloc: Global,
    bytes: &[u8],
    last_fields: &str,
    serialized: &[u8],
) {
    let value = MemInfo::parse(bytes).expect(rt, "refused");
    let buffer = MemInfoBuffer::from(&value);
    let text = format!(in alloc;
        "(MemInfo {{ receive_queue: 50462976, receive_queue_max: 117835012, \
            bottom_send_queues: 185207048, send_queue_max: 252579084, cache: 319951120, \
            send_queue: 387323156, options: 454695192, {last_fields}({serialized:?}) }})"
    )
    .expect(rt, "memory");
    assert_debug(rt, alloc, &(value, buffer), &text);
}

#[test]
fn memory_of_seven_to_nine_fields(rt: HostRuntime) {
    let input = counting_bytes();
    let seven = "backlog_queue_length: None, drops: None }, MemInfoBuffer { bytes: Seven";
    let eight =
        "backlog_queue_length: Some(522067228), drops: None }, MemInfoBuffer { bytes: Eight";
    let nine = "backlog_queue_length: Some(522067228), drops: Some(589439264) }, \
        MemInfoBuffer { bytes: Nine";
    // 28, 32 or 36 bytes are parsed; those after them are ignored.
    assert_mem_info(&rt, rt.alloc(), &input[..28], seven, &input[..28]);
    assert_mem_info(&rt, rt.alloc(), &input[..35], eight, &input[..32]);
    assert_mem_info(&rt, rt.alloc(), &input[..40], nine, &input[..36]);
    let short = &[0; 27];
    let text = "(Err(BufferTooSmall { which: MemInfo, got: 27, need: 28 }), None)";
    let refused = (MemInfo::parse(short), MemInfoBuffer::read_prefix(short));
    assert_debug(&rt, rt.alloc(), &refused, text);
}

#[test]
fn headers_of_replies(rt: HostRuntime) {
    let alloc = rt.alloc();
    // Another family and other padding are ignored.
    let loose = [9, 1, 10, 7, 0x0e, 0x4f, 0, 0, 0xa0, 2, 0, 0, 0, 0, 0, 0];
    let written = [1, 1, 10, 0, 0x0e, 0x4f, 0, 0, 0xa0, 2, 0, 0, 0, 0, 0, 0];
    let text = "UnixResponseHeader { kind: 1, state: 10, inode: 20238, \
        cookie: [160, 2, 0, 0, 0, 0, 0, 0] }";
    let short = "Err(BufferTooSmall { which: UnixResponseHeader, got: 15, need: 16 })";
    assert_parses::<UnixResponseHeader, 16>(&rt, alloc, &loose, (), (text, short), &written);
    let text = "InetResponseHeader { family: 2, state: 1, timer: Some(KeepAlive(24.704s)), \
        socket_id: SocketId { source_port: 60180, destination_port: 443, \
        source_address: 192.168.178.60, destination_address: 172.217.23.131, interface_id: 772, \
        cookie: [11, 12, 13, 14, 15, 16, 17, 18] }, recv_queue: 261, send_queue: 518, uid: 1000, \
        inode: 2742952 }";
    let short = "Err(BufferTooSmall { which: InetResponseHeader, got: 71, need: 72 })";
    assert_parses::<InetResponseHeader, 72>(&rt, alloc, &HEADER, (), (text, short), &HEADER);
}

// What `{:#?}` prints for a reply header, an attribute and a view.
const DEBUG_LINES: &str = "\
(
    InetResponseHeader {
        family: 2,
        state: 1,
        timer: Some(
            KeepAlive(
                24.704s,
            ),
        ),
        socket_id: SocketId {
            source_port: 60180,
            destination_port: 443,
            source_address: 192.168.178.60,
            destination_address: 172.217.23.131,
            interface_id: 772,
            cookie: [
                11,
                12,
                13,
                14,
                15,
                16,
                17,
                18,
            ],
        },
        recv_queue: 261,
        send_queue: 518,
        uid: 1000,
        inode: 2742952,
    },
    ReceiveQueueLength(
        3,
        7,
    ),
    Name(
        Abstract(
            [
                7,
                0,
            ],
        ),
    ),
)";

#[test]
fn records_attributes_and_views_on_lines(rt: HostRuntime) {
    let header = InetResponseHeader::parse(rt.alloc(), HEADER.as_slice());
    let header = header.expect(&rt, "refused");
    let name = NameView::parse(&[0, 7, 0]).expect(&rt, "refused");
    let values = (header, Nla::ReceiveQueueLength(3, 7), NlaView::Name(name));
    assert_debug_lines(&rt, rt.alloc(), &values, DEBUG_LINES);
}

// Returns `HEADER` with this timer and number of retransmissions (`timer`), and these bytes of
// `idiag_expires`.
fn with_timer(timer: [u8; 2], expires: [u8; 4]) -> [u8; 72] {
    let mut bytes = HEADER;
    bytes[2..4].copy_from_slice(&timer);
    bytes[52..56].copy_from_slice(&expires);
    bytes
}

// The bytes of `idiag_expires` for 24.704 seconds, in milliseconds, little-endian.
const EXPIRES: [u8; 4] = [0x80, 0x60, 0, 0];

// In each row: the timer and the number of retransmissions in a header, what `Debug` prints for the
// timer, and both bytes and those of `idiag_expires` in the canonical form.
const TIMERS: [([u8; 2], &str, [u8; 2], [u8; 4]); 6] = [
    ([0, 0], "None", [0, 0], [0; 4]),
    ([9, 7], "None", [0, 0], [0; 4]),
    ([1, 7], "Some(Retransmit(24.704s, 7))", [1, 7], EXPIRES),
    ([2, 7], "Some(KeepAlive(24.704s))", [2, 0], EXPIRES),
    ([3, 7], "Some(TimeWait)", [3, 0], [0; 4]),
    ([4, 7], "Some(Probe(24.704s))", [4, 0], EXPIRES),
];

#[test]
fn timers(rt: HostRuntime) {
    for (given_timer, text, timer, expires) in &TIMERS {
        let bytes = with_timer(*given_timer, EXPIRES);
        let header = InetResponseHeader::parse(rt.alloc(), bytes.as_slice());
        let header = header.expect(&rt, "refused");
        assert_debug(&rt, rt.alloc(), &header.timer, text);
        assert_record_bytes(&rt, rt.alloc(), &header, with_timer(*timer, *expires));
    }
}

// What `Debug` prints for the socket id of `LOOSE_INET`, for IPv4.
const IPV4_ID: &str = "SocketId { source_port: 53, destination_port: 54321, \
source_address: 127.0.0.1, destination_address: 127.0.0.1, interface_id: 1, \
cookie: [0, 1, 2, 3, 4, 5, 6, 7] }";

// What `Debug` prints for the same bytes as a socket id for IPv6.
const IPV6_ID: &str = "SocketId { source_port: 53, destination_port: 54321, \
source_address: 7f00:1:eeee:eeee:eeee:eeee:eeee:eeee, destination_address: 7f00:1::, \
interface_id: 1, cookie: [0, 1, 2, 3, 4, 5, 6, 7] }";

#[test]
fn identities(rt: HostRuntime) {
    let alloc = rt.alloc();
    // In the canonical form for IPv4, the bytes after the source address are zeros.
    let mut written = LOOSE_INET;
    written[16..28].fill(0);
    // The socket id in the request. The parameter is the family: 2 for IPv4, 10 for IPv6.
    let loose = &LOOSE_INET[8..];
    let short = "Err(BufferTooSmall { which: SocketId, got: 47, need: 48 })";
    assert_parses::<SocketId, 48>(&rt, alloc, loose, 2, (IPV4_ID, short), &written[8..]);
    assert_parses::<SocketId, 48>(&rt, alloc, loose, 10, (IPV6_ID, short), loose);
    let rejected = (
        SocketId::parse_with_param(alloc, &loose[..47], 1),
        SocketId::parse_with_param(alloc, loose, 1),
        InetRequest::parse(alloc, [1; 56].as_slice()),
    );
    let text = "(Err(BufferTooSmall { which: SocketId, got: 47, need: 48 }), \
        Err(UnsupportedFamily { family: 1 }), Err(UnsupportedFamily { family: 1 }))";
    assert_debug(&rt, alloc, &rejected, text);
}

#[test]
fn requests(rt: HostRuntime) {
    let alloc = rt.alloc();
    let text = "UnixRequest { state_flags: StateFlags(1026), inode: 4660, \
        show_flags: ShowFlags(63), cookie: [255, 255, 255, 255, 255, 255, 255, 255] }";
    let short = "Err(BufferTooSmall { which: UnixRequest, got: 23, need: 24 })";
    assert_parses::<UnixRequest, 24>(&rt, alloc, &LOOSE_UNIX, (), (text, short), &CANONICAL_UNIX);
    let buffer = UnixRequestBuffer::read_prefix(&LOOSE_UNIX).expect(&rt, "short");
    assert_bytes(&rt, &buffer.to_bytes(), &LOOSE_UNIX[..24]);
    let text = "UnixRequest { state_flags: StateFlags(1026), inode: 4660, \
        show_flags: ShowFlags(4), cookie: [255, 255, 255, 255, 255, 255, 255, 255] }";
    assert_parses::<UnixRequest, 24>(&rt, alloc, &PEER, (), (text, short), &PEER);
    // In the canonical form `pad` is 0, the states are 0xffe, and zeros follow the source address.
    let mut written = LOOSE_INET;
    written[3..8].copy_from_slice(&[0, 0xfe, 0x0f, 0, 0]);
    written[16..28].fill(0);
    let text = "InetRequest { family: 2, protocol: 17, extensions: ExtensionFlags(0), \
        states: StateFlags(4094), socket_id: SocketId { source_port: 53, \
        destination_port: 54321, source_address: 127.0.0.1, destination_address: 127.0.0.1, \
        interface_id: 1, cookie: [0, 1, 2, 3, 4, 5, 6, 7] } }";
    let short = "Err(BufferTooSmall { which: InetRequest, got: 55, need: 56 })";
    assert_parses::<InetRequest, 56>(&rt, alloc, &LOOSE_INET, (), (text, short), &written);
}

// Asserts that a keepalive timer of this duration serializes to these bytes, and that they are
// parsed as the text.
fn assert_keepalive(
    rt: &impl Abort,
    alloc: Global,
    duration: Duration,
    expires: [u8; 4],
    text: &str,
) {
    let header = InetResponseHeader::parse(alloc, HEADER.as_slice());
    let mut header = header.expect(rt, "refused");
    header.timer = Some(Timer::KeepAlive(duration));
    let bytes = with_timer([2, 0], expires);
    assert_record_bytes(rt, alloc, &header, bytes);
    let parsed_again = InetResponseHeader::parse(alloc, bytes.as_slice()).expect(rt, "refused");
    assert_debug(rt, alloc, &parsed_again.timer, text);
}

#[test]
fn durations_that_do_not_fit_milliseconds(rt: HostRuntime) {
    let alloc = rt.alloc();
    // 1.5 milliseconds are truncated to 1.
    let short = Duration::from_nanos(1_500_000);
    assert_keepalive(&rt, alloc, short, [1, 0, 0, 0], "Some(KeepAlive(1ms))");
    // 2^32 + 5 milliseconds, and as many as a `Duration` can have: the low 32 bits are serialized.
    let long = Duration::from_millis(4_294_967_301);
    assert_keepalive(&rt, alloc, long, [5, 0, 0, 0], "Some(KeepAlive(5ms))");
    let text = "Some(KeepAlive(4294967.295s))";
    assert_keepalive(&rt, alloc, Duration::MAX, [255; 4], text);
}

// An IPv6 address next to an IPv4 address. It is serialized whole, but parsed as IPv4.
#[test]
fn an_identity_that_no_parser_returns(rt: HostRuntime) {
    let octets = [1, 2, 3, 4, 5, 6, 7, 8, 9, 10, 11, 12, 13, 14, 15, 16];
    let mut identity = SocketId::new_v4();
    identity.source_address = IpAddr::V6(Ipv6Addr::from(octets));
    let mut expected = [0; 48];
    expected[4..20].copy_from_slice(&octets);
    assert_record_bytes(&rt, rt.alloc(), &identity, expected);
    let text = "Ok(SocketId { source_port: 0, destination_port: 0, source_address: 1.2.3.4, \
        destination_address: 0.0.0.0, interface_id: 0, cookie: [0, 0, 0, 0, 0, 0, 0, 0] })";
    let parsed_again = SocketId::parse_with_param(rt.alloc(), expected.as_slice(), 2);
    assert_debug(&rt, rt.alloc(), &parsed_again, text);
}

// Undefined state flags. They are serialized, but masked off by the parser.
#[test]
fn a_request_that_no_parser_returns(rt: HostRuntime) {
    let mut request = UnixRequest::parse(rt.alloc(), PEER.as_slice()).expect(&rt, "refused");
    request.state_flags = StateFlags::from_bits_retain(0xffff_ffff);
    let mut expected = PEER;
    expected[4..8].fill(255);
    assert_record_bytes(&rt, rt.alloc(), &request, expected);
    let parsed_again = UnixRequest::parse(rt.alloc(), expected.as_slice()).expect(&rt, "refused");
    assert_debug(
        &rt,
        rt.alloc(),
        &parsed_again.state_flags,
        "StateFlags(1026)",
    );
}

// Drops without a backlog. The missing backlog is serialized as 0.
#[test]
fn a_memory_that_no_parser_returns(rt: HostRuntime) {
    let mut memory = MemInfo::parse(&counting_bytes()).expect(&rt, "refused");
    memory.backlog_queue_length = None;
    let written = MemInfoBuffer::from(&memory);
    let parsed_again = MemInfo::parse(written.to_bytes().as_slice()).expect(&rt, "refused");
    let drops = (parsed_again.backlog_queue_length, parsed_again.drops);
    assert_debug(&rt, rt.alloc(), &drops, "(Some(0), Some(589439264))");
}
