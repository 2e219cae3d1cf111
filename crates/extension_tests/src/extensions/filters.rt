//! Tests of programs against those that ss(8) sends, of requests, and of `Debug` outputs.

use super::{assert_debug, assert_text};
use netlink_core::Emitable;
use sock_diag_filters::uses::listening_on;
use sock_diag_filters::{
    AnyRequestView, AssembleError, Comparison, Condition, Filter, Host, ParsedFilter, Prefix,
    RequestAttribute, RequestView, RequestWithAttributes, assemble,
};
use std::alloc::Global;
use std::net::{IpAddr, Ipv4Addr, Ipv6Addr};
use std::process::Abort;

/// Asserts that the filter assembles to the program in hexadecimal.
fn assert_assembles(rt: &impl Abort, alloc: Global, filter: &Filter, program: &str) {
    assert_hex(rt, alloc, &assembled(rt, alloc, filter), program);
}

/// Returns the program of the filter.
fn assembled(rt: &impl Abort, alloc: Global, filter: &Filter) -> Vec<u8> {
    assemble(alloc, filter).expect(rt, "refused")
}

/// Asserts that the bytes have these digits in hexadecimal.
fn assert_hex(rt: &impl Abort, alloc: Global, bytes: &[u8], digits: &str) {
    let encoded = hex::encode(alloc, bytes).expect(rt, "memory");
    assert_text(rt, encoded.as_str(), digits);
}

/// Asserts that the condition assembles to the program in hexadecimal.
fn assert_condition_assembles(rt: &impl Abort, alloc: Global, condition: Condition, program: &str) {
    assert_assembles(rt, alloc, &Filter::Condition(condition), program);
}

/// Checks the programs that ss(8) sends for `dst [::1]:53`, `autobound`, `cgroup /` (with the id
/// 0), and `fwmark = 0x01/0x03`, and the program for interface 3.
#[test]
fn conditions_are_those_of_ss(rt: HostRuntime) {
    let local = Host {
        prefix: Prefix::new(IpAddr::V6(Ipv6Addr::LOCALHOST), 128),
        port: Some(53),
    };
    let program = "081c20000a8000003500000000000000000000000000000000000001";
    assert_condition_assembles(&rt, rt.alloc(), Condition::Destination(local), program);
    for (condition, program) in &PROGRAMS {
        assert_condition_assembles(&rt, rt.alloc(), *condition, program);
    }
}

/// In each row: a condition, and its program in hexadecimal.
const PROGRAMS: [(Condition, &str); 4] = [
    (Condition::AutoBound, "06040800"),
    (Condition::Cgroup(0), "0d0c10000000000000000000"),
    (
        Condition::Mark { mark: 1, mask: 3 },
        "0a0c10000100000003000000",
    ),
    (Condition::Interface(3), "09080c0003000000"),
];

/// Checks the program that ss(8) sends for
/// `sport >= :1024 and ( dport <= :99 or not src 10.0.0.0/8 )`.
#[test]
fn a_filter_is_that_of_ss(rt: HostRuntime) {
    let source = Filter::Condition(Condition::Source(Host {
        prefix: Prefix::new(IpAddr::V4(Ipv4Addr::new(10, 0, 0, 0)), 8),
        port: None,
    }));
    let elsewhere = Filter::Not(&source);
    let low = Filter::Condition(Condition::DestinationPort(Comparison::AtMost, 99));
    let either = Filter::Or(&low, &elsewhere);
    let high = Filter::Condition(Condition::SourcePort(Comparison::AtLeast, 1024));
    let program =
        "02082c000000000405080c0000006300010418000710140002080000ffffffff0a00000001040800";
    assert_assembles(&rt, rt.alloc(), &Filter::And(&high, &either), program);
}

/// A dump request for listening IPv4 sockets, with the sequence number 9, the program of
/// `autobound`, and the protocol MPTCP.
const ASKED: &str = "\
580000001400010309000000000000000206000000040000000000000000000000000000000000000000000000000000\
00000000000000000000000000000000000000000000000008000100060408000800030006010000";

#[test]
fn requests_are_written(rt: HostRuntime) {
    let alloc = rt.alloc();
    // No port is at least 443 and at most 80, which is not an error.
    assert!(rt; listening_on(alloc, 443, 80, 9).is_ok());
    let message = listening_on(alloc, 80, 443, 9).expect(&rt, "refused");
    let view = RequestView::parse(&message).expect(&rt, "no request");
    assert!(rt; view.protocol == 6);
    // The request for TCP (6), with the program of `autobound` and the protocol MPTCP (262).
    let program = RequestAttribute::Program(&[6, 4, 8, 0]);
    let request = RequestWithAttributes {
        header: view.header,
        request: view.request,
        attributes: &[program, RequestAttribute::Protocol(262)],
    };
    assert!(rt; request.is_writable());
    let mut bytes = vec![in alloc; 0; request.buffer_len()].expect(&rt, "memory");
    request.emit(&mut bytes);
    assert_hex(&rt, alloc, &bytes, ASKED);
}

/// In each row: a request in hexadecimal, `|`, and its `Debug` output. The requests were derived by
/// hand from the kernel's headers: to close the UNIX socket with inode 0x1234, followed by an
/// attribute; for netlink sockets of all protocols, with their memory counters; for packet sockets;
/// for listening vsock sockets; for XDP sockets; and for IPv6 sockets.
const BY_FAMILY: &str = "\
2c0000001500050009000000000000000100000002040000341200000100000000000000000000ff04000900|\
Ok(Unix(RecordRequestView { header: NetlinkHeader { length: 44, message_type: 21, flags: 5, \
sequence_number: 9, port_number: 0 }, request: UnixRequest { state_flags: StateFlags(1026), \
inode: 4660, show_flags: ShowFlags(1), cookie: [0, 0, 0, 0, 0, 0, 0, 255] }, \
attributes: [4, 0, 9, 0] }))
2400000014000103090000000000000010ff00000000000001000000ffffffffffffffff|\
Ok(Netlink(RecordRequestView { header: NetlinkHeader { length: 36, message_type: 20, flags: 769, \
sequence_number: 9, port_number: 0 }, request: ShowRequest { protocol: 255, inode: 0, show: 1, \
cookie: 18446744073709551615 }, attributes: [] }))
2400000014000103090000000000000011000000070000003f0000000000000000000000|\
Ok(Packet(RecordRequestView { header: NetlinkHeader { length: 36, message_type: 20, flags: 769, \
sequence_number: 9, port_number: 0 }, request: ShowRequest { protocol: 0, inode: 7, show: 63, \
cookie: 0 }, attributes: [] }))
28000000140001030900000000000000280000000004000000000000000000000500000000000000|\
Ok(Vsock(RecordRequestView { header: NetlinkHeader { length: 40, message_type: 20, flags: 769, \
sequence_number: 9, port_number: 0 }, request: VsockRequest { states: 1024, cookie: 5 }, \
attributes: [] }))
240000001400010309000000000000002c00000000000000070000000000000000000000|\
Ok(Xdp(RecordRequestView { header: NetlinkHeader { length: 36, message_type: 20, flags: 769, \
sequence_number: 9, port_number: 0 }, request: ShowRequest { protocol: 0, inode: 0, show: 7, \
cookie: 0 }, attributes: [] }))
480000001400010309000000000000000a060000020000000035d4310000000000000000000000000000000100000000\
0000000000000000000000010300000000000000000000ff|\
Ok(Inet(RequestView { header: NetlinkHeader { length: 72, message_type: 20, flags: 769, \
sequence_number: 9, port_number: 0 }, request: InetRequest { family: 10, protocol: 6, \
extensions: ExtensionFlags(0), states: StateFlags(2), socket_id: SocketId { source_port: 53, \
destination_port: 54321, source_address: ::1, destination_address: ::1, interface_id: 3, \
cookie: [0, 0, 0, 0, 0, 0, 0, 255] } }, protocol: 6, program: None }))";

/// The end of a row for [`ASKED`]: `|`, and the `Debug` output of the parsed request.
const ASKED_TEXT: &str = "|\
Ok(Inet(RequestView { header: NetlinkHeader { length: 88, message_type: 20, flags: 769, \
sequence_number: 9, port_number: 0 }, request: InetRequest { family: 2, protocol: 6, \
extensions: ExtensionFlags(0), states: StateFlags(1024), socket_id: SocketId { source_port: 0, \
destination_port: 0, source_address: 0.0.0.0, destination_address: 0.0.0.0, interface_id: 0, \
cookie: [0, 0, 0, 0, 0, 0, 0, 0] } }, protocol: 262, program: Some([6, 4, 8, 0]) }))";

/// Checks a row. It has a request in hexadecimal, `|`, and what `Debug` prints for the result of
/// parsing it.
fn assert_request_row(rt: &impl Abort, alloc: Global, row: &str) {
    let (digits, text) = row.split_once('|').expect(rt, "no text");
    let bytes = hex::decode(alloc, digits).expect(rt, "digits");
    assert_debug(rt, alloc, &AnyRequestView::parse(&bytes), text);
}

#[test]
fn requests_are_read(rt: HostRuntime) {
    for row in BY_FAMILY.lines() {
        assert_request_row(&rt, rt.alloc(), row);
    }
    let asked = [ASKED, ASKED_TEXT].concat(rt.alloc()).expect(&rt, "memory");
    assert_request_row(&rt, rt.alloc(), asked.as_str());
}

/// Asserts that `Debug` and `Display` print the error of `assemble` as these texts.
fn assert_error_texts(
    rt: &impl Abort,
    alloc: Global,
    error: AssembleError,
    name: &str,
    text: &str,
) {
    assert_debug(rt, alloc, &error, name);
    let shown = format!(in alloc; "{error}").expect(rt, "memory");
    assert_text(rt, shown.as_str(), text);
}

/// Checks the texts of errors of `assemble`.
#[test]
fn errors_have_texts(rt: HostRuntime) {
    let alloc = rt.alloc();
    let text = "a filter of more than 65531 bytes";
    assert_error_texts(&rt, alloc, AssembleError::TooLong, "TooLong", text);
    assert_error_texts(&rt, alloc, AssembleError::Memory, "Memory", "out of memory");
}

/// Asserts that `Debug` prints the condition as this text.
fn assert_condition_debug(rt: &impl Abort, alloc: Global, condition: Condition, text: &str) {
    assert_debug(rt, alloc, &condition, text);
}

/// Checks the `Debug` output of conditions on addresses.
#[test]
fn conditions_on_addresses_have_texts(rt: HostRuntime) {
    let alloc = rt.alloc();
    let local = Host {
        prefix: Prefix::new(IpAddr::V4(Ipv4Addr::LOCALHOST), 8),
        port: None,
    };
    let text = "Source(Host { prefix: Some(Prefix { address: 127.0.0.1, bits: 8 }), port: None })";
    assert_condition_debug(&rt, alloc, Condition::Source(local), text);
    // Any address.
    let any = Host {
        prefix: None,
        port: Some(53),
    };
    let text = "Destination(Host { prefix: None, port: Some(53) })";
    assert_condition_debug(&rt, alloc, Condition::Destination(any), text);
    let far = Host {
        prefix: Prefix::new(IpAddr::V6(Ipv6Addr::LOCALHOST), 128),
        port: Some(53),
    };
    let text =
        "Destination(Host { prefix: Some(Prefix { address: ::1, bits: 128 }), port: Some(53) })";
    assert_condition_debug(&rt, alloc, Condition::Destination(far), text);
}

/// In each row: a condition, and its `Debug` output.
const CONDITIONS: [(Condition, &str); 7] = [
    (
        Condition::SourcePort(Comparison::AtLeast, 1),
        "SourcePort(AtLeast, 1)",
    ),
    (
        Condition::DestinationPort(Comparison::AtMost, 2),
        "DestinationPort(AtMost, 2)",
    ),
    (
        Condition::SourcePort(Comparison::Equal, 3),
        "SourcePort(Equal, 3)",
    ),
    (Condition::Interface(4), "Interface(4)"),
    (
        Condition::Mark { mark: 5, mask: 6 },
        "Mark { mark: 5, mask: 6 }",
    ),
    (Condition::Cgroup(7), "Cgroup(7)"),
    (Condition::AutoBound, "AutoBound"),
];

/// Checks the `Debug` output of other conditions, and of attributes of requests.
#[test]
fn conditions_have_texts(rt: HostRuntime) {
    let alloc = rt.alloc();
    for (condition, text) in &CONDITIONS {
        assert_condition_debug(&rt, alloc, *condition, text);
    }
    let program = RequestAttribute::Program(&[6, 4]);
    assert_debug(&rt, alloc, &program, "Program([6, 4])");
    assert_debug(
        &rt,
        alloc,
        &RequestAttribute::Protocol(262),
        "Protocol(262)",
    );
}

/// Asserts that an allocation for the program of a filter does not fail.
fn assert_program_fits(rt: &impl Abort, alloc: Global, filter: &Filter) {
    assert!(rt; assemble(alloc, filter).err() != Some(AssembleError::Memory));
}

/// Asserts that no allocation fails for the program of the filter `one`, and of filters of 2, 4, 8,
/// 16, 32 and 64 times as many operations.
fn assert_programs_fit(rt: &impl Abort, alloc: Global, one: &Filter) {
    let two = Filter::And(one, one);
    let four = Filter::And(&two, &two);
    let eight = Filter::And(&four, &four);
    let of_16 = Filter::And(&eight, &eight);
    let of_32 = Filter::And(&of_16, &of_16);
    assert_program_fits(rt, alloc, one);
    assert_program_fits(rt, alloc, &two);
    assert_program_fits(rt, alloc, &four);
    assert_program_fits(rt, alloc, &eight);
    assert_program_fits(rt, alloc, &of_16);
    assert_program_fits(rt, alloc, &of_32);
    assert_program_fits(rt, alloc, &Filter::And(&of_32, &of_32));
}

/// Checks filters of 1, 2, 4 and so on up to 8,192 operations of 4 bytes.
#[test]
fn programs_of_each_size(rt: HostRuntime) {
    let one = Filter::Condition(Condition::AutoBound);
    let two = Filter::And(&one, &one);
    let four = Filter::And(&two, &two);
    let eight = Filter::And(&four, &four);
    let of_16 = Filter::And(&eight, &eight);
    let of_32 = Filter::And(&of_16, &of_16);
    let of_64 = Filter::And(&of_32, &of_32);
    assert_programs_fit(&rt, rt.alloc(), &one);
    // 128 operations, and up to 64 times as many.
    assert_programs_fit(&rt, rt.alloc(), &Filter::And(&of_64, &of_64));
}

/// Checks the states and the program that ss(8) sends for a text.
#[test]
fn texts_are_those_of_ss(rt: HostRuntime) {
    let text = b"state established sport >= :5 and ! ( dst 127.0.0.0/8:7 or autobound )";
    let filter = ParsedFilter::parse(text).expect(&rt, "rejected");
    let mut program = [0; 36];
    assert!(rt; filter.states == Some(2));
    assert!(rt; filter.write_program(&mut program) == Some(36));
    let sent = "02082800000005000810140002080000070000007f000000010408000604080001040800";
    assert_hex(&rt, rt.alloc(), &program, sent);
}

/// In each row: a text, and the printed error.
const REJECTED_TEXTS: [(&str, &str); 2] = [
    ("sport = :80 or dst http", "unexpected word at byte 19"),
    ("state listening (", "the filter is not complete"),
];

/// Checks the texts of the errors of texts that are not filters.
#[test]
fn errors_of_texts_are_printed(rt: HostRuntime) {
    for (text, printed) in &REJECTED_TEXTS {
        let error = ParsedFilter::parse(text.as_bytes())
            .err()
            .expect(&rt, "accepted");
        let line = format!(in rt.alloc(); "{error}").expect(&rt, "memory");
        assert_text(&rt, line.as_str(), printed);
    }
}
