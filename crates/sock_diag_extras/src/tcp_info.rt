//! The value of INET_DIAG_INFO with any number of bytes: fewer than the port parses, or more.

ghost use Rattle.std.specs.Prelude.{◌≡◌, ◌<◌, ◌≤◌, drop, length, IfSome, SomeIff, option_map};
ghost use Rattle.std.specs.Result.{result_ok};
ghost use Rattle.netlink_core.specs.Layout.{parse_record};
ghost use Rattle.sock_diag_values.specs.TcpInfo.{tcp_info};
ghost use Rattle.sock_diag_extras.specs.Models.{tcp_info_bytes};

use crate::bytes::{number_at, suffix_from};
use sock_diag_values::inet::TcpInfo;

/// The size of `struct tcp_info` in Linux 7.2, in bytes.
const LINUX_TCP_INFO_LEN: usize = 280;

/// A field of `struct tcp_info` of `linux/tcp.h`, as Linux 7.2 defines it: 280 bytes,
/// little-endian. The number after `at` is the offset in bytes. [`TcpInfo`] documents the fields
/// that it also has.
///
/// The last four fields are bit fields of the `u32` at 276. Linux 6.18 and 6.19 define other fields
/// there, and send 0.
#[derive(Clone, Copy, Debug, PartialEq, Eq)]
pub enum TcpField {
    /// `tcpi_state` at 0.
    State,
    /// `tcpi_ca_state` at 1.
    CaState,
    /// `tcpi_retransmits` at 2.
    Retransmits,
    /// `tcpi_probes` at 3.
    Probes,
    /// `tcpi_backoff` at 4.
    Backoff,
    /// `tcpi_options` at 5.
    Options,
    /// `tcpi_snd_wscale` at 6 in the low four bits, and `tcpi_rcv_wscale` in the high four bits.
    Wscale,
    /// `tcpi_delivery_rate_app_limited` at 7 in bit 0, and `tcpi_fastopen_client_fail` in bits 1
    /// and 2.
    DeliveryRateAppLimited,
    /// `tcpi_rto` at 8, in microseconds.
    Rto,
    /// `tcpi_ato` at 12, in microseconds.
    Ato,
    /// `tcpi_snd_mss` at 16, in bytes.
    SndMss,
    /// `tcpi_rcv_mss` at 20, in bytes.
    RcvMss,
    /// `tcpi_unacked` at 24.
    Unacked,
    /// `tcpi_sacked` at 28.
    Sacked,
    /// `tcpi_lost` at 32.
    Lost,
    /// `tcpi_retrans` at 36.
    Retrans,
    /// `tcpi_fackets` at 40.
    Fackets,
    /// `tcpi_last_data_sent` at 44, in milliseconds.
    LastDataSent,
    /// `tcpi_last_ack_sent` at 48. The kernel does not set it.
    LastAckSent,
    /// `tcpi_last_data_recv` at 52, in milliseconds.
    LastDataRecv,
    /// `tcpi_last_ack_recv` at 56, in milliseconds.
    LastAckRecv,
    /// `tcpi_pmtu` at 60, in bytes.
    Pmtu,
    /// `tcpi_rcv_ssthresh` at 64, in bytes.
    RcvSsthresh,
    /// `tcpi_rtt` at 68, in microseconds.
    Rtt,
    /// `tcpi_rttvar` at 72, in microseconds.
    Rttvar,
    /// `tcpi_snd_ssthresh` at 76, in segments.
    SndSsthresh,
    /// `tcpi_snd_cwnd` at 80, in segments.
    SndCwnd,
    /// `tcpi_advmss` at 84, in bytes.
    Advmss,
    /// `tcpi_reordering` at 88, in segments.
    Reordering,
    /// `tcpi_rcv_rtt` at 92, in microseconds.
    RcvRtt,
    /// `tcpi_rcv_space` at 96, in bytes.
    RcvSpace,
    /// `tcpi_total_retrans` at 100.
    TotalRetrans,
    /// `tcpi_pacing_rate` at 104, in bytes per second.
    PacingRate,
    /// `tcpi_max_pacing_rate` at 112, in bytes per second.
    MaxPacingRate,
    /// `tcpi_bytes_acked` at 120.
    BytesAcked,
    /// `tcpi_bytes_received` at 128.
    BytesReceived,
    /// `tcpi_segs_out` at 136.
    SegsOut,
    /// `tcpi_segs_in` at 140.
    SegsIn,
    /// `tcpi_notsent_bytes` at 144.
    NotsentBytes,
    /// `tcpi_min_rtt` at 148, in microseconds.
    MinRtt,
    /// `tcpi_data_segs_in` at 152.
    DataSegsIn,
    /// `tcpi_data_segs_out` at 156.
    DataSegsOut,
    /// `tcpi_delivery_rate` at 160, in bytes per second.
    DeliveryRate,
    /// `tcpi_busy_time` at 168, in microseconds.
    BusyTime,
    /// `tcpi_rwnd_limited` at 176, in microseconds.
    RwndLimited,
    /// `tcpi_sndbuf_limited` at 184, in microseconds.
    SndbufLimited,
    /// `tcpi_delivered` at 192.
    Delivered,
    /// `tcpi_delivered_ce` at 196.
    DeliveredCe,
    /// `tcpi_bytes_sent` at 200.
    BytesSent,
    /// `tcpi_bytes_retrans` at 208.
    BytesRetrans,
    /// `tcpi_dsack_dups` at 216.
    DsackDups,
    /// `tcpi_reord_seen` at 220.
    ReordSeen,
    /// `tcpi_rcv_ooopack` at 224.
    RcvOoopack,
    /// `tcpi_snd_wnd` at 228, in bytes.
    SndWnd,
    /// The receive window that the local end advertises, after scaling, in bytes. `tcpi_rcv_wnd` at
    /// 232.
    RcvWnd,
    /// Number of attempts to take another path by a new flow hash, after a timeout or by PLB
    /// (protective load balancing). `tcpi_rehash` at 236.
    Rehash,
    /// Total number of retransmission timeouts, including timeouts of SYN and SYN-ACK segments.
    /// `tcpi_total_rto` at 240.
    TotalRto,
    /// Total number of recoveries after a retransmission timeout, including an unfinished one.
    /// `tcpi_total_rto_recoveries` at 242.
    TotalRtoRecoveries,
    /// Total time spent in these recoveries, including an unfinished one, in milliseconds.
    /// `tcpi_total_rto_time` at 244.
    TotalRtoTime,
    /// Number of received segments with the ECN mark CE (congestion experienced).
    /// `tcpi_received_ce` at 248.
    ReceivedCe,
    /// Number of bytes delivered to the peer with the ECN mark ECT(1). `tcpi_delivered_e1_bytes` at
    /// 252.
    DeliveredE1Bytes,
    /// Number of bytes delivered to the peer with the ECN mark ECT(0). `tcpi_delivered_e0_bytes` at
    /// 256.
    DeliveredE0Bytes,
    /// Number of bytes delivered to the peer with the ECN mark CE. `tcpi_delivered_ce_bytes` at
    /// 260.
    DeliveredCeBytes,
    /// Number of bytes received with the ECN mark ECT(1). `tcpi_received_e1_bytes` at 264.
    ReceivedE1Bytes,
    /// Number of bytes received with the ECN mark ECT(0). `tcpi_received_e0_bytes` at 268.
    ReceivedE0Bytes,
    /// Number of bytes received with the ECN mark CE. `tcpi_received_ce_bytes` at 272.
    ReceivedCeBytes,
    /// How ECN is used: 0 not at all, 1 as in RFC 3168, 2 accurate ECN, 3 not negotiated yet. It
    /// is also 0 from kernels before Linux 7.0, with and without ECN. `tcpi_ecn_mode` at 276, bits
    /// 0 and 1.
    EcnMode,
    /// Which TCP options of accurate ECN were seen. `tcpi_accecn_opt_seen` at 276, bits 2 and 3.
    AccecnOptSeen,
    /// Bits for the ways in which accurate ECN failed. `tcpi_accecn_fail_mode` at 276, bits 4 to 7.
    AccecnFailMode,
    /// More options of the connection. `tcpi_options2` at 276, bits 8 to 31.
    Options2,
}

impl TcpField {
    ghost use Rattle.sock_diag_extras.specs.Spans.{shift_and_mask};
    ghost use Rattle.sock_diag_extras.specs.TcpFields.{tcp_bits_of, tcp_span_of};

    /// Returns the offset of the field and its width, both in bytes. Of a bit field, these are the
    /// offset and the width of the number that contains it.
    pub fn span(self) -> (usize, usize)
        ensures { result ≡ tcp_span_of self }
    {
        match self {
            TcpField::State => (0, 1),
            TcpField::CaState => (1, 1),
            TcpField::Retransmits => (2, 1),
            TcpField::Probes => (3, 1),
            TcpField::Backoff => (4, 1),
            TcpField::Options => (5, 1),
            TcpField::Wscale => (6, 1),
            TcpField::DeliveryRateAppLimited => (7, 1),
            TcpField::Rto => (8, 4),
            TcpField::Ato => (12, 4),
            TcpField::SndMss => (16, 4),
            TcpField::RcvMss => (20, 4),
            TcpField::Unacked => (24, 4),
            TcpField::Sacked => (28, 4),
            TcpField::Lost => (32, 4),
            TcpField::Retrans => (36, 4),
            TcpField::Fackets => (40, 4),
            TcpField::LastDataSent => (44, 4),
            TcpField::LastAckSent => (48, 4),
            TcpField::LastDataRecv => (52, 4),
            TcpField::LastAckRecv => (56, 4),
            TcpField::Pmtu => (60, 4),
            TcpField::RcvSsthresh => (64, 4),
            TcpField::Rtt => (68, 4),
            TcpField::Rttvar => (72, 4),
            TcpField::SndSsthresh => (76, 4),
            TcpField::SndCwnd => (80, 4),
            TcpField::Advmss => (84, 4),
            TcpField::Reordering => (88, 4),
            TcpField::RcvRtt => (92, 4),
            TcpField::RcvSpace => (96, 4),
            TcpField::TotalRetrans => (100, 4),
            TcpField::PacingRate => (104, 8),
            TcpField::MaxPacingRate => (112, 8),
            TcpField::BytesAcked => (120, 8),
            TcpField::BytesReceived => (128, 8),
            TcpField::SegsOut => (136, 4),
            TcpField::SegsIn => (140, 4),
            TcpField::NotsentBytes => (144, 4),
            TcpField::MinRtt => (148, 4),
            TcpField::DataSegsIn => (152, 4),
            TcpField::DataSegsOut => (156, 4),
            TcpField::DeliveryRate => (160, 8),
            TcpField::BusyTime => (168, 8),
            TcpField::RwndLimited => (176, 8),
            TcpField::SndbufLimited => (184, 8),
            TcpField::Delivered => (192, 4),
            TcpField::DeliveredCe => (196, 4),
            TcpField::BytesSent => (200, 8),
            TcpField::BytesRetrans => (208, 8),
            TcpField::DsackDups => (216, 4),
            TcpField::ReordSeen => (220, 4),
            TcpField::RcvOoopack => (224, 4),
            TcpField::SndWnd => (228, 4),
            TcpField::RcvWnd => (232, 4),
            TcpField::Rehash => (236, 4),
            TcpField::TotalRto => (240, 2),
            TcpField::TotalRtoRecoveries => (242, 2),
            TcpField::TotalRtoTime => (244, 4),
            TcpField::ReceivedCe => (248, 4),
            TcpField::DeliveredE1Bytes => (252, 4),
            TcpField::DeliveredE0Bytes => (256, 4),
            TcpField::DeliveredCeBytes => (260, 4),
            TcpField::ReceivedE1Bytes => (264, 4),
            TcpField::ReceivedE0Bytes => (268, 4),
            TcpField::ReceivedCeBytes => (272, 4),
            TcpField::EcnMode => (276, 4),
            TcpField::AccecnOptSeen => (276, 4),
            TcpField::AccecnFailMode => (276, 4),
            TcpField::Options2 => (276, 4),
        }
    }

    /// Returns the shift and the mask of a bit field: its value is `number >> shift & mask`, where
    /// `number` is the number at its span. Returns `None` if the field is the whole number.
    pub fn bits(self) -> Option<(u32, u64)>
        ensures row { result ≡ option_map shift_and_mask (tcp_bits_of self) }
        ensures shift { IfSome result (λ bits. bits.0 < 64) }
    {
        match self {
            TcpField::EcnMode => Some((0, 3)),
            TcpField::AccecnOptSeen => Some((2, 3)),
            TcpField::AccecnFailMode => Some((4, 15)),
            TcpField::Options2 => Some((8, 0xff_ffff)),
            _ => None,
        }
    }
}

/// The borrowed value of `INET_DIAG_INFO` of a TCP connection, of any length. Each kernel version
/// sends `struct tcp_info` in its own size; newer versions append fields. It does not allocate.
#[derive(Clone, Copy, Debug, PartialEq, Eq)]
pub struct TcpInfoBytes<'a> {
    bytes: &'a [u8],
}

impl<'a> TcpInfoBytes<'a> {
    ghost use Rattle.sock_diag_extras.specs.Spans.{end_of_span};
    ghost use Rattle.sock_diag_extras.specs.TcpFields.{tcp_span_of, tcp_value_in};

    /// Borrows the bytes of the value. Any number of bytes is accepted.
    pub fn new(value: &'a [u8]) -> TcpInfoBytes<'a>
        ensures { tcp_info_bytes result ≡ value.entry.now }
    {
        TcpInfoBytes { bytes: value }
    }

    /// Returns the bytes of the value.
    pub fn bytes(&self) -> &'a [u8]
        ensures { result.now ≡ tcp_info_bytes self.now }
    {
        self.bytes
    }

    /// Returns the length of the value in bytes.
    pub fn len(&self) -> usize
        ensures { result ≡ length (tcp_info_bytes self.now) }
    {
        self.bytes.len()
    }

    /// Returns the value of the field, a little-endian number or bits of one. Returns `None` if the
    /// bytes end before the end of the number.
    pub fn get(&self, field: TcpField) -> Option<u64>
        ensures { SomeIff result
            (end_of_span (tcp_span_of field) ≤ length (tcp_info_bytes self.now))
            (tcp_value_in field (tcp_info_bytes self.now)) }
    {
        let (offset, width) = field.span();
        let number = number_at(self.bytes, offset, width)?;
        match field.bits() {
            Some((shift, mask)) => Some(number >> shift & mask),
            None => Some(number),
        }
    }

    /// Returns the record that the port parses from the first 232 bytes. Returns `None` if there
    /// are fewer bytes.
    pub fn whole(&self) -> Option<TcpInfo>
        ensures { result ≡ result_ok (parse_record tcp_info tt (tcp_info_bytes self.now)) }
    {
        TcpInfo::parse(self.bytes).ok()
    }

    /// Returns the bytes from offset 280 on, after the fields that [`TcpField`] lists. There are
    /// none if the value has at most 280 bytes.
    pub fn rest(&self) -> &'a [u8]
        ensures { result.now ≡ drop LINUX_TCP_INFO_LEN (tcp_info_bytes self.now) }
    {
        suffix_from(self.bytes, LINUX_TCP_INFO_LEN)
    }
}
