//! The facts of a TCP or MPTCP connection: the fields of `struct tcp_info` or `struct mptcp_info`,
//! as far as a value contains them. If a function of this module fails, an allocation failed, and
//! the content of the sink is not specified. In the contracts, `AddsFacts old new facts` states
//! that the sink shows these facts after what it showed before, and `AddsItems` states it of items.
//! `S.content sink.old` and `S.content sink.new` are what the sink shows before and after the call.
//!
//! The definitions name the tables of this module. [`crate::laws::rows_are_fields`] states which
//! fields their rows are about.

ghost use Rattle.std.specs.Prelude.{◌≡◌, OnOk, flat_map, map, option_map};
ghost use Rattle.sslist_facts.specs.Facts.{AddsFacts, AddsItems};
ghost use Rattle.sslist_facts.specs.Tcp.{bytes_from, field_facts, field_in, field_row_of};
ghost use Rattle.sslist_facts.specs.Tcp.{has_round_trip, has_scales, mptcp_facts, number_in};
ghost use Rattle.sslist_facts.specs.Tcp.{part_bits, row_facts, tcp_facts, tcp_field_facts};

use crate::facts::{FactSink, Shown};
use byteorder::{ByteOrder, LittleEndian};
use sock_diag_extras::constants::{MPTCP_INFO_FLAG_FALLBACK, MPTCP_INFO_FLAG_REMOTE_KEY_RECEIVED};
use sock_diag_records::constants::{
    TCPI_OPT_ECN, TCPI_OPT_ECN_SEEN, TCPI_OPT_SACK, TCPI_OPT_SYN_DATA, TCPI_OPT_TIMESTAMPS,
    TCPI_OPT_WSCALE,
};
use std::alloc::AllocError;

/// The number of a row: a little-endian number at an offset, or some of its bits.
#[derive(Clone, Copy)]
enum FieldPart {
    /// A byte.
    Byte,
    /// A number of two bytes.
    Two,
    /// A number of four bytes.
    Four,
    /// A number of eight bytes.
    Eight,
    /// A byte, if window scaling is negotiated.
    Negotiated,
    /// A number of four bytes, if the round-trip time was measured.
    Measured,
    /// Bits 0 to 3 of a byte.
    LowFour,
    /// Bits 4 to 7 of a byte.
    HighFour,
    /// Bit 0 of a byte.
    FirstBit,
    /// Bits 1 and 2 of a byte.
    NextTwo,
    /// Bits 0 and 1 of a byte.
    LowTwo,
    /// Bits 2 and 3 of a byte.
    MiddleTwo,
}

/// A row: the offset of a field in bytes, which number or bits of it the row is about, how the
/// table shows them, their text in the table, and their name in JSON.
type FieldRow = (usize, FieldPart, Shown, &'static [u8], Option<&'static str>);

/// A row with all five columns of a `FieldRow`.
macro_rules! row {
    ($offset:literal, $part:ident, $format:expr, $text:literal, $member:expr) => {
        ($offset, FieldPart::$part, $format, $text, $member)
    };
}

/// A field, or some bits of it, that the table shows unless it is 0 or, for no limit, `u64::MAX`.
macro_rules! nonzero {
    ($offset:literal, $part:ident, $text:literal, $member:literal) => {
        row!($offset, $part, Shown::Nonzero, $text, Some($member))
    };
}

/// A number that the table does not show.
macro_rules! json_only {
    ($offset:literal, $part:ident, $member:literal) => {
        row!($offset, $part, Shown::Never, b"", Some($member))
    };
}

/// A number that the table shows in hexadecimal digits, if it is not 0.
macro_rules! hexadecimal {
    ($offset:literal, $part:ident, $text:literal, $member:literal) => {
        row!($offset, $part, Shown::NonzeroHex, $text, Some($member))
    };
}

/// A bit of a field of flags at an offset, which the table shows if it is set.
macro_rules! bit {
    ($offset:literal, $part:ident, $bit:ident, $text:literal) => {
        row!($offset, $part, Shown::Bits($bit as u64), $text, None)
    };
}

/// A number of four bytes that the table shows unless it is 0 or this one.
macro_rules! known {
    ($offset:literal, $unknown:ident, $text:literal, $member:literal) => {
        row!(
            $offset,
            Four,
            Shown::NonzeroExcept($unknown),
            $text,
            Some($member)
        )
    };
}

/// Offset of `tcpi_options` in bytes.
const OPTIONS: usize = 5;

/// Offset of `tcpi_rtt` in bytes.
const RTT: usize = 68;

/// `TCP_INFINITE_SSTHRESH`, a slow start threshold that is not set.
const INFINITE_THRESHOLD: u64 = 0x7fff_ffff;

/// Minimum round-trip time of a connection of which none was measured.
const NO_MIN_RTT: u64 = 0xffff_ffff;

// In the rows below: the offset of the field in bytes, the number there, how the table shows it
// (`Shown`, if the macro does not say it), its text, and the name in JSON.

/// The facts of the first eight bytes of `struct tcp_info`: the state, the options and the window
/// scales.
static TCP_STATE_ROWS: [FieldRow; 16] = [
    json_only!(0, Byte, "state"),
    json_only!(1, Byte, "ca_state"),
    json_only!(2, Byte, "retransmits"),
    json_only!(3, Byte, "probes"),
    nonzero!(4, Byte, b" backoff:", "backoff"),
    json_only!(5, Byte, "options"),
    bit!(5, Byte, TCPI_OPT_TIMESTAMPS, b" ts"),
    bit!(5, Byte, TCPI_OPT_SACK, b" sack"),
    bit!(5, Byte, TCPI_OPT_ECN, b" ecn"),
    bit!(5, Byte, TCPI_OPT_ECN_SEEN, b" ecnseen"),
    bit!(5, Byte, TCPI_OPT_SYN_DATA, b" fastopen"),
    json_only!(6, LowFour, "snd_wscale"),
    json_only!(6, HighFour, "rcv_wscale"),
    row!(6, Negotiated, Shown::Halves, b" wscale:(", None),
    row!(
        7,
        FirstBit,
        Shown::Bits(1),
        b" app_limited",
        Some("delivery_rate_app_limited")
    ),
    json_only!(7, NextTwo, "fastopen_client_fail"),
];

/// The facts of the times and metrics in `struct tcp_info`, up to `tcpi_total_retrans`.
static TCP_METRIC_ROWS: [FieldRow; 25] = [
    nonzero!(8, Four, b" rto:", "rto"),
    nonzero!(12, Four, b" ato:", "ato"),
    nonzero!(16, Four, b" mss:", "snd_mss"),
    nonzero!(20, Four, b" rcvmss:", "rcv_mss"),
    nonzero!(24, Four, b" unacked:", "unacked"),
    nonzero!(28, Four, b" sacked:", "sacked"),
    nonzero!(32, Four, b" lost:", "lost"),
    nonzero!(36, Four, b" retrans_now:", "retrans"),
    json_only!(40, Four, "fackets"),
    nonzero!(44, Four, b" lastsnd:", "last_data_sent"),
    json_only!(48, Four, "last_ack_sent"),
    nonzero!(52, Four, b" lastrcv:", "last_data_recv"),
    nonzero!(56, Four, b" lastack:", "last_ack_recv"),
    nonzero!(60, Four, b" pmtu:", "pmtu"),
    nonzero!(64, Four, b" rcv_ssthresh:", "rcv_ssthresh"),
    nonzero!(68, Four, b" rtt:", "rtt"),
    row!(72, Measured, Shown::Nonzero, b" rttvar:", None),
    json_only!(72, Four, "rttvar"),
    known!(76, INFINITE_THRESHOLD, b" ssthresh:", "snd_ssthresh"),
    nonzero!(80, Four, b" cwnd:", "snd_cwnd"),
    nonzero!(84, Four, b" advmss:", "advmss"),
    nonzero!(88, Four, b" reordering:", "reordering"),
    nonzero!(92, Four, b" rcv_rtt:", "rcv_rtt"),
    nonzero!(96, Four, b" rcv_space:", "rcv_space"),
    nonzero!(100, Four, b" retrans:", "total_retrans"),
];

/// The facts of the rates and counters in `struct tcp_info`, from `tcpi_pacing_rate` on. The last
/// three are bit fields of Linux 7.0 and later. Earlier kernels send 0 there, or fewer bytes.
static TCP_RATE_ROWS: [FieldRow; 37] = [
    nonzero!(104, Eight, b" pacing_rate:", "pacing_rate"),
    nonzero!(112, Eight, b" max_pacing_rate:", "max_pacing_rate"),
    nonzero!(120, Eight, b" bytes_acked:", "bytes_acked"),
    nonzero!(128, Eight, b" received:", "bytes_received"),
    nonzero!(136, Four, b" segs_out:", "segs_out"),
    nonzero!(140, Four, b" segs_in:", "segs_in"),
    nonzero!(144, Four, b" notsent:", "notsent_bytes"),
    known!(148, NO_MIN_RTT, b" minrtt:", "min_rtt"),
    nonzero!(152, Four, b" data_segs_in:", "data_segs_in"),
    nonzero!(156, Four, b" data_segs_out:", "data_segs_out"),
    nonzero!(160, Eight, b" delivery_rate:", "delivery_rate"),
    nonzero!(168, Eight, b" busy:", "busy_time"),
    nonzero!(176, Eight, b" rwnd_limited:", "rwnd_limited"),
    nonzero!(184, Eight, b" sndbuf_limited:", "sndbuf_limited"),
    nonzero!(192, Four, b" delivered:", "delivered"),
    nonzero!(196, Four, b" delivered_ce:", "delivered_ce"),
    nonzero!(200, Eight, b" sent:", "bytes_sent"),
    nonzero!(208, Eight, b" bytes_retrans:", "bytes_retrans"),
    nonzero!(216, Four, b" dsack_dups:", "dsack_dups"),
    nonzero!(220, Four, b" reord_seen:", "reord_seen"),
    nonzero!(224, Four, b" rcv_ooopack:", "rcv_ooopack"),
    nonzero!(228, Four, b" snd_wnd:", "snd_wnd"),
    nonzero!(232, Four, b" rcv_wnd:", "rcv_wnd"),
    nonzero!(236, Four, b" rehash:", "rehash"),
    nonzero!(240, Two, b" total_rto:", "total_rto"),
    nonzero!(242, Two, b" total_rto_recoveries:", "total_rto_recoveries"),
    nonzero!(244, Four, b" total_rto_time:", "total_rto_time"),
    nonzero!(248, Four, b" received_ce:", "received_ce"),
    nonzero!(252, Four, b" delivered_e1_bytes:", "delivered_e1_bytes"),
    nonzero!(256, Four, b" delivered_e0_bytes:", "delivered_e0_bytes"),
    nonzero!(260, Four, b" delivered_ce_bytes:", "delivered_ce_bytes"),
    nonzero!(264, Four, b" received_e1_bytes:", "received_e1_bytes"),
    nonzero!(268, Four, b" received_e0_bytes:", "received_e0_bytes"),
    nonzero!(272, Four, b" received_ce_bytes:", "received_ce_bytes"),
    nonzero!(276, LowTwo, b" ecn_mode:", "ecn_mode"),
    nonzero!(276, MiddleTwo, b" accecn_opt_seen:", "accecn_opt_seen"),
    nonzero!(276, HighFour, b" accecn_fail_mode:", "accecn_fail_mode"),
];

/// The facts of `struct mptcp_info`, in the order of its members.
static MPTCP_ROWS: [FieldRow; 27] = [
    nonzero!(0, Byte, b" subflows:", "subflows"),
    nonzero!(1, Byte, b" add_addr_signal:", "add_addr_signal"),
    nonzero!(2, Byte, b" add_addr_accepted:", "add_addr_accepted"),
    nonzero!(3, Byte, b" subflows_max:", "subflows_max"),
    nonzero!(4, Byte, b" add_addr_signal_max:", "add_addr_signal_max"),
    nonzero!(5, Byte, b" add_addr_accepted_max:", "add_addr_accepted_max"),
    json_only!(8, Four, "flags"),
    bit!(8, Four, MPTCP_INFO_FLAG_FALLBACK, b" fallback"),
    bit!(8, Four, MPTCP_INFO_FLAG_REMOTE_KEY_RECEIVED, b" remote_key"),
    hexadecimal!(12, Four, b" token:", "token"),
    hexadecimal!(16, Eight, b" write_seq:", "write_seq"),
    hexadecimal!(24, Eight, b" snd_una:", "snd_una"),
    hexadecimal!(32, Eight, b" rcv_nxt:", "rcv_nxt"),
    nonzero!(40, Byte, b" local_addr_used:", "local_addr_used"),
    nonzero!(41, Byte, b" local_addr_max:", "local_addr_max"),
    nonzero!(42, Byte, b" csum_enabled:", "csum_enabled"),
    nonzero!(44, Four, b" retransmits:", "retransmits"),
    nonzero!(48, Eight, b" bytes_retrans:", "bytes_retrans"),
    nonzero!(56, Eight, b" bytes_sent:", "bytes_sent"),
    nonzero!(64, Eight, b" bytes_received:", "bytes_received"),
    nonzero!(72, Eight, b" bytes_acked:", "bytes_acked"),
    nonzero!(80, Byte, b" subflows_total:", "subflows_total"),
    nonzero!(81, Byte, b" endp_laminar_max:", "endp_laminar_max"),
    nonzero!(82, Byte, b" endp_fullmesh_max:", "endp_fullmesh_max"),
    nonzero!(84, Four, b" last_data_sent:", "last_data_sent"),
    nonzero!(88, Four, b" last_data_recv:", "last_data_recv"),
    nonzero!(92, Four, b" last_ack_recv:", "last_ack_recv"),
];

/// Shows the fields of `struct tcp_info` that the bytes contain, as the group `info`.
pub fn show_tcp_info<S: FactSink>(sink: &mut S, bytes: &[u8]) -> Result<(), AllocError>
    ensures { OnOk result (AddsFacts (S.content sink.old) (S.content sink.new)
        (tcp_facts bytes.now)) }
{
    sink.begin(b"", "info")?;
    show_tcp_fields(sink, bytes)?;
    sink.end(b"")
}

/// Shows the fields of `struct tcp_info` that the bytes contain.
fn show_tcp_fields<S: FactSink>(sink: &mut S, bytes: &[u8]) -> Result<(), AllocError>
    ensures { OnOk result (AddsFacts (S.content sink.old) (S.content sink.new)
        (tcp_field_facts bytes.now)) }
{
    show_fields(sink, bytes, &TCP_STATE_ROWS)?;
    show_fields(sink, bytes, &TCP_METRIC_ROWS)?;
    show_fields(sink, bytes, &TCP_RATE_ROWS)
}

/// Shows the fields of `struct mptcp_info` that the bytes contain, as the group `info`.
pub fn show_mptcp_info<S: FactSink>(sink: &mut S, bytes: &[u8]) -> Result<(), AllocError>
    ensures { OnOk result (AddsFacts (S.content sink.old) (S.content sink.new)
        (mptcp_facts bytes.now)) }
{
    sink.begin(b"", "info")?;
    show_fields(sink, bytes, &MPTCP_ROWS)?;
    sink.end(b"")
}

/// Shows the facts of those of these rows whose number the bytes have, in the order of the rows.
fn show_fields<S: FactSink>(sink: &mut S, bytes: &[u8], rows: &[FieldRow]) -> Result<(), AllocError>
    ensures { OnOk result (AddsFacts (S.content sink.old) (S.content sink.new)
        (field_facts bytes.now (map field_row_of rows.now))) }
{
    show_rows(sink, bytes, rows)
}

/// Does what [`show_fields`] does. The contract states it of items, as the loop appends them.
#[tactic(auto, using(crate::proofs::Rows::same), unfolding(crate::specs::Tcp::row_facts))]
fn show_rows<S: FactSink>(sink: &mut S, bytes: &[u8], rows: &[FieldRow]) -> Result<(), AllocError>
    ensures { OnOk result (AddsItems (S.content sink.old) (S.content sink.new)
        (flat_map (λ row. S.items (row_facts bytes.now (field_row_of row))) rows.now)) }
{
    for &(offset, part, format, text, member) in rows {
        if let Some(number) = number_in(bytes, offset, part) {
            sink.number(format, text, member, number)?;
        }
    }
    Ok(())
}

/// Returns the number of the row with this offset and this part. Returns `None` if the value ends
/// before the end of the field, or if the number does not apply to the connection (`Negotiated`,
/// `Measured`).
#[inline(always)]
fn number_in(value: &[u8], offset: usize, part: FieldPart) -> Option<u64>
    ensures { result ≡ number_in part offset value.now }
{
    match part {
        FieldPart::Measured if !has_round_trip(value) => None,
        FieldPart::Four | FieldPart::Measured => u32_at(value, offset),
        FieldPart::Eight => {
            let bytes = bytes_from(value, offset, 8)?;
            Some(LittleEndian::read_u64(bytes))
        }
        FieldPart::Two => {
            let bytes = bytes_from(value, offset, 2)?;
            Some(LittleEndian::read_u16(bytes).into())
        }
        FieldPart::Negotiated if !has_scales(byte_at(value, OPTIONS)) => None,
        // `part_bits` returns all of the byte for `Byte` and `Negotiated`.
        FieldPart::Byte
        | FieldPart::Negotiated
        | FieldPart::LowFour
        | FieldPart::HighFour
        | FieldPart::FirstBit
        | FieldPart::NextTwo
        | FieldPart::LowTwo
        | FieldPart::MiddleTwo => Some(part_bits(byte_at(value, offset)?, part)),
    }
}

/// Returns the bytes from an offset on. Returns `None` if there are fewer than `width`.
#[inline(always)]
fn bytes_from<'a>(value: &'a [u8], offset: usize, width: usize) -> Option<&'a [u8]>
    ensures { option_map (λ rest. rest.now) result ≡ bytes_from width offset value.entry.now }
{
    match value.get(offset..) {
        Some(rest) if rest.len() >= width => Some(rest),
        _ => None,
    }
}

/// Returns the byte at an offset. Returns `None` if the value has no byte there.
#[inline(always)]
fn byte_at(value: &[u8], offset: usize) -> Option<u64>
    ensures { result ≡ field_in 1 offset value.now }
{
    let bytes = bytes_from(value, offset, 1)?;
    Some(LittleEndian::read_uint(bytes, 1))
}

/// Returns the number of four bytes at an offset. Returns `None` if the value ends before its end.
#[inline(always)]
fn u32_at(value: &[u8], offset: usize) -> Option<u64>
    ensures { result ≡ field_in 4 offset value.now }
{
    let bytes = bytes_from(value, offset, 4)?;
    Some(LittleEndian::read_u32(bytes).into())
}

/// Returns whether the round-trip time was measured: `tcpi_rtt` is not 0. Returns false if the
/// value does not contain this field.
fn has_round_trip(value: &[u8]) -> bool
    ensures { result ≡ has_round_trip (field_in 4 RTT value.now) }
{
    match u32_at(value, RTT) {
        Some(time) => time != 0,
        None => false,
    }
}

/// Returns whether window scaling is negotiated, by `tcpi_options`. Returns false for `None`.
fn has_scales(options: Option<u64>) -> bool
    ensures { result ≡ has_scales options }
{
    match options {
        Some(options) => options & TCPI_OPT_WSCALE as u64 != 0,
        None => false,
    }
}

/// Returns the bits of a byte that a row is about. Returns the byte if the row is about all of it.
#[inline(always)]
fn part_bits(byte: u64, part: FieldPart) -> u64
    ensures { result ≡ part_bits part byte }
{
    match part {
        FieldPart::LowFour => byte % 16,
        FieldPart::HighFour => byte / 16,
        FieldPart::FirstBit => byte % 2,
        FieldPart::NextTwo => byte / 2 % 4,
        FieldPart::LowTwo => byte % 4,
        FieldPart::MiddleTwo => byte / 4 % 4,
        _ => byte,
    }
}
