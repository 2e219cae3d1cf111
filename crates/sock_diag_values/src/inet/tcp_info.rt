//! The value of `INET_DIAG_INFO`: the state of a TCP connection.

ghost use Rattle.std.specs.Prelude.{◌≡◌, ◌++◌, ◌^◌, ⊤, length};
ghost use Rattle.std.specs.List.{flat_map};
ghost use Rattle.byteorder.specs.Endian.{little_bytes};
ghost use Rattle.netlink_core.specs.Bytes.{AreAllBelow};
ghost use Rattle.std.proofs.Common.{rules};
ghost use Rattle.netlink_core.specs.Layout.{parse_record};
ghost use Rattle.netlink_core.proofs.LayoutLaws.{record_laws};
ghost use Rattle.sock_diag_values.specs.TcpInfo.{tcp_info};
ghost use Rattle.sock_diag_values.specs.private.TcpInfo.{u8s_at_0, u32s_at_8, u32s_at_44};
ghost use Rattle.sock_diag_values.specs.private.TcpInfo.{u32s_at_60, u32s_at_92, u64s_at_104};
ghost use Rattle.sock_diag_values.specs.private.TcpInfo.{u32s_at_136, u64s_at_160, u32s_at_192};
ghost use Rattle.sock_diag_values.specs.private.TcpInfo.{u64s_at_200, u32s_at_216};
ghost use Rattle.sock_diag_values.specs.laws.TcpInfoEqual.{tcp_info_equal};
ghost use Rattle.sock_diag_values.specs.laws.TcpInfo.{tcp_info_sound};

use netlink_core::fields::{array_at, u32s_at, u64s_at, write_bytes, write_u32s, write_u64s};
use netlink_core::{DecodeError, Exact, Fills, Record, RecordBuffer, RecordName, read_record};
use std::alloc::AllocError;

/// Size in bytes of the part of `struct tcp_info` that [`TcpInfo`] represents. Newer kernels append
/// fields.
pub const TCP_INFO_LEN: usize = 232;

/// The state of a TCP connection: `struct tcp_info` of `linux/tcp.h`, without the prefix `tcpi_`.
///
/// It is the value of the attribute `INET_DIAG_INFO`. It has 232 bytes: `u8`, `u32` and `u64`
/// fields, little-endian. Newer kernels append fields, which are ignored.
#[derive(Debug, Drop, PartialEq, Eq)]
pub struct TcpInfo {
    /// TCP state (`tcpi_state`), `TCP_ESTABLISHED` to `TCP_CLOSING`, at offset 0.
    pub state: u8,
    /// State of congestion control (`tcpi_ca_state`), `TCP_CA_OPEN` to `TCP_CA_LOSS`, at offset 1.
    pub ca_state: u8,
    /// Number of times that the retransmission timer has retransmitted the oldest segment
    /// (`tcpi_retransmits`), at offset 2.
    pub retransmits: u8,
    /// Number of unanswered zero-window or keepalive probes (`tcpi_probes`), at offset 3.
    pub probes: u8,
    /// Number of times that the timer was doubled, by exponential backoff (`tcpi_backoff`), at
    /// offset 4.
    pub backoff: u8,
    /// Options of the connection (`tcpi_options`), bits `TCPI_OPT_*`, at offset 5.
    pub options: u8,
    /// Window scale shifts, at offset 6: `tcpi_snd_wscale` in bits 0 to 3, `tcpi_rcv_wscale` in
    /// bits 4 to 7.
    pub wscale: u8,
    /// Bit fields at offset 7. Bit 0 is set if the sending program limits `delivery_rate`
    /// (`tcpi_delivery_rate_app_limited`). Bits 1 and 2 are `tcpi_fastopen_client_fail`.
    pub delivery_rate_app_limited: u8,
    /// Retransmission timeout in microseconds (`tcpi_rto`), at offset 8.
    pub rto: u32,
    /// Timeout of delayed acknowledgements in microseconds (`tcpi_ato`), at offset 12.
    pub ato: u32,
    /// Maximum size of sent segments in bytes (`tcpi_snd_mss`), at offset 16.
    pub snd_mss: u32,
    /// Estimated maximum size of received segments in bytes (`tcpi_rcv_mss`), at offset 20.
    pub rcv_mss: u32,
    /// Number of segments that are sent and not acknowledged (`tcpi_unacked`), at offset 24. For a
    /// listening socket, the number of pending connections.
    pub unacked: u32,
    /// Number of segments that are selectively acknowledged (`tcpi_sacked`), at offset 28. For a
    /// listening socket, the backlog limit.
    pub sacked: u32,
    /// Number of segments that are considered lost (`tcpi_lost`), at offset 32.
    pub lost: u32,
    /// Number of retransmitted segments in flight (`tcpi_retrans`), at offset 36.
    pub retrans: u32,
    /// Number of segments up to the highest one that is selectively acknowledged (`tcpi_fackets`),
    /// at offset 40. Newer kernels write 0.
    pub fackets: u32,
    /// Time since data was last sent, in milliseconds (`tcpi_last_data_sent`), at offset 44.
    pub last_data_sent: u32,
    /// Time since an acknowledgement was last sent (`tcpi_last_ack_sent`), at offset 48. The kernel
    /// does not record it, and writes 0.
    pub last_ack_sent: u32,
    /// Time since data was last received, in milliseconds (`tcpi_last_data_recv`), at offset 52.
    pub last_data_recv: u32,
    /// Time since an acknowledgement was last received, in milliseconds (`tcpi_last_ack_recv`), at
    /// offset 56.
    pub last_ack_recv: u32,
    /// Path MTU in bytes (`tcpi_pmtu`), at offset 60.
    pub pmtu: u32,
    /// Current limit on the growth of the receive window, in bytes (`tcpi_rcv_ssthresh`), at offset
    /// 64.
    pub rcv_ssthresh: u32,
    /// Smoothed round-trip time in microseconds (`tcpi_rtt`), at offset 68.
    pub rtt: u32,
    /// Mean deviation of the round-trip time in microseconds (`tcpi_rttvar`), at offset 72.
    pub rttvar: u32,
    /// Slow start threshold in segments (`tcpi_snd_ssthresh`), at offset 76.
    pub snd_ssthresh: u32,
    /// Congestion window in segments (`tcpi_snd_cwnd`), at offset 80.
    pub snd_cwnd: u32,
    /// Maximum segment size that was advertised to the peer, in bytes (`tcpi_advmss`), at offset
    /// 84.
    pub advmss: u32,
    /// Reordering metric in segments (`tcpi_reordering`), at offset 88: how far segments may be out
    /// of order before one is considered lost.
    pub reordering: u32,
    /// Round-trip time that the receiver estimates, in microseconds (`tcpi_rcv_rtt`), at offset 92.
    pub rcv_rtt: u32,
    /// Space that receive buffer auto-tuning provides for, in bytes (`tcpi_rcv_space`), at offset
    /// 96.
    pub rcv_space: u32,
    /// Total number of retransmitted segments (`tcpi_total_retrans`), at offset 100.
    pub total_retrans: u32,
    /// Pacing rate in bytes per second (`tcpi_pacing_rate`), at offset 104.
    pub pacing_rate: u64,
    /// Limit on the pacing rate in bytes per second (`tcpi_max_pacing_rate`), at offset 112.
    pub max_pacing_rate: u64,
    /// Number of acknowledged bytes (`tcpi_bytes_acked`), at offset 120. A FIN counts as one byte,
    /// and so does the SYN of the socket that called connect(2).
    pub bytes_acked: u64,
    /// Number of bytes that were received in order (`tcpi_bytes_received`), at offset 128. A FIN
    /// counts as one byte.
    pub bytes_received: u64,
    /// Number of sent segments (`tcpi_segs_out`), at offset 136.
    pub segs_out: u32,
    /// Number of received segments (`tcpi_segs_in`), at offset 140.
    pub segs_in: u32,
    /// Number of bytes in the send queue that are not yet sent (`tcpi_notsent_bytes`), at offset
    /// 144.
    pub notsent_bytes: u32,
    /// Minimum round-trip time in microseconds (`tcpi_min_rtt`), at offset 148.
    pub min_rtt: u32,
    /// Number of received segments with data (`tcpi_data_segs_in`), at offset 152.
    pub data_segs_in: u32,
    /// Number of sent segments with data (`tcpi_data_segs_out`), at offset 156.
    pub data_segs_out: u32,
    /// Most recent rate at which data was delivered to the peer, in bytes per second
    /// (`tcpi_delivery_rate`), at offset 160.
    pub delivery_rate: u64,
    /// Time with data to send, in microseconds (`tcpi_busy_time`), at offset 168.
    pub busy_time: u64,
    /// Part of the busy time in which the peer's receive window was the limit, in microseconds
    /// (`tcpi_rwnd_limited`), at offset 176.
    pub rwnd_limited: u64,
    /// Part of the busy time in which the send buffer was the limit, in microseconds
    /// (`tcpi_sndbuf_limited`), at offset 184.
    pub sndbuf_limited: u64,
    /// Number of segments that were delivered to the peer, including retransmitted ones
    /// (`tcpi_delivered`), at offset 192.
    pub delivered: u32,
    /// Number of delivered segments that the peer reported as marked for congestion, by ECN
    /// (`tcpi_delivered_ce`), at offset 196.
    pub delivered_ce: u32,
    /// Number of sent bytes of data, including retransmitted ones (`tcpi_bytes_sent`), at offset
    /// 200.
    pub bytes_sent: u64,
    /// Number of retransmitted bytes of data (`tcpi_bytes_retrans`), at offset 208.
    pub bytes_retrans: u64,
    /// Number of segments that the peer reported as received twice, by DSACK (`tcpi_dsack_dups`),
    /// at offset 216.
    pub dsack_dups: u32,
    /// Number of times that reordering was observed (`tcpi_reord_seen`), at offset 220.
    pub reord_seen: u32,
    /// Number of segments that were received out of order (`tcpi_rcv_ooopack`), at offset 224.
    pub rcv_ooopack: u32,
    /// Receive window that the peer advertises, after scaling, in bytes (`tcpi_snd_wnd`), at offset
    /// 228.
    pub snd_wnd: u32,
}

/// The 232 bytes of a [`TcpInfo`].
pub type TcpInfoBuffer = RecordBuffer<TcpInfo, TCP_INFO_LEN>;

// Implemented by hand: a derived `clone` has a branch for each copied field, and takes a minute to
// prove.
impl Clone for TcpInfo {
    ghost is_clone = { λ info copy. copy ≡ info };

    ghost is_infallible = { λ _. ⊤ };

    fn clone(&self) -> Result<Self, AllocError> {
        Ok(TcpInfo { ..*self })
    }
}

impl Exact for TcpInfo {
    ghost exact = { (tcp_info_equal, Prim.search rules, Prim.search rules) };
}

impl Record for TcpInfo {
    type Param = ();

    ghost layout = { tcp_info };

    #[tactic(auto, unfolding(crate::specs::TcpInfo::tcp_info))]
    fn name_and_least() -> (RecordName, usize) {
        (RecordName::TcpInfo, TCP_INFO_LEN)
    }

    #[tactic(auto, unfolding(crate::specs::TcpInfo::tcp_info))]
    fn size(&self) -> usize {
        TCP_INFO_LEN
    }

    /// Parses the first 232 bytes, and ignores the bytes after them. There have to be 232 bytes:
    /// the caller checks this first, and reports [`DecodeError::BufferTooSmall`].
    // Inlined, so that fields that the caller does not use are not read.
    #[tactic(auto, unfolding(crate::specs::TcpInfo::tcp_info))]
    #[inline(always)]
    fn from_fields(payload: &[u8], _param: ()) -> Result<Self, DecodeError> {
        let u8s_at_0 = array_at::<8>(payload, 0);
        let u32s_at_8 = u32s_at::<9>(payload, 8);
        let u32s_at_44 = u32s_at::<4>(payload, 44);
        let u32s_at_60 = u32s_at::<8>(payload, 60);
        let u32s_at_92 = u32s_at::<3>(payload, 92);
        let u64s_at_104 = u64s_at::<4>(payload, 104);
        let u32s_at_136 = u32s_at::<6>(payload, 136);
        let u64s_at_160 = u64s_at::<4>(payload, 160);
        let u32s_at_192 = u32s_at::<2>(payload, 192);
        let u64s_at_200 = u64s_at::<2>(payload, 200);
        let u32s_at_216 = u32s_at::<4>(payload, 216);
        Ok(TcpInfo {
            state: u8s_at_0[0],
            ca_state: u8s_at_0[1],
            retransmits: u8s_at_0[2],
            probes: u8s_at_0[3],
            backoff: u8s_at_0[4],
            options: u8s_at_0[5],
            wscale: u8s_at_0[6],
            delivery_rate_app_limited: u8s_at_0[7],
            rto: u32s_at_8[0],
            ato: u32s_at_8[1],
            snd_mss: u32s_at_8[2],
            rcv_mss: u32s_at_8[3],
            unacked: u32s_at_8[4],
            sacked: u32s_at_8[5],
            lost: u32s_at_8[6],
            retrans: u32s_at_8[7],
            fackets: u32s_at_8[8],
            last_data_sent: u32s_at_44[0],
            last_ack_sent: u32s_at_44[1],
            last_data_recv: u32s_at_44[2],
            last_ack_recv: u32s_at_44[3],
            pmtu: u32s_at_60[0],
            rcv_ssthresh: u32s_at_60[1],
            rtt: u32s_at_60[2],
            rttvar: u32s_at_60[3],
            snd_ssthresh: u32s_at_60[4],
            snd_cwnd: u32s_at_60[5],
            advmss: u32s_at_60[6],
            reordering: u32s_at_60[7],
            rcv_rtt: u32s_at_92[0],
            rcv_space: u32s_at_92[1],
            total_retrans: u32s_at_92[2],
            pacing_rate: u64s_at_104[0],
            max_pacing_rate: u64s_at_104[1],
            bytes_acked: u64s_at_104[2],
            bytes_received: u64s_at_104[3],
            segs_out: u32s_at_136[0],
            segs_in: u32s_at_136[1],
            notsent_bytes: u32s_at_136[2],
            min_rtt: u32s_at_136[3],
            data_segs_in: u32s_at_136[4],
            data_segs_out: u32s_at_136[5],
            delivery_rate: u64s_at_160[0],
            busy_time: u64s_at_160[1],
            rwnd_limited: u64s_at_160[2],
            sndbuf_limited: u64s_at_160[3],
            delivered: u32s_at_192[0],
            delivered_ce: u32s_at_192[1],
            bytes_sent: u64s_at_200[0],
            bytes_retrans: u64s_at_200[1],
            dsack_dups: u32s_at_216[0],
            reord_seen: u32s_at_216[1],
            rcv_ooopack: u32s_at_216[2],
            snd_wnd: u32s_at_216[3],
        })
    }

    #[tactic(auto, unfolding(crate::specs::TcpInfo::tcp_info))]
    fn write_fields(&self, buffer: &mut [u8]) {
        let (metrics, rates) = buffer.split_at_mut(104);
        self.write_metrics(metrics);
        self.write_rates(rates);
    }

    ghost laws = { record_laws tcp_info tcp_info_sound };
}

impl Fills<TCP_INFO_LEN> for TcpInfo {
    ghost use Rattle.sock_diag_values.specs.laws.TcpInfo.{tcp_info_has_fixed_length};

    ghost fills = { tcp_info_has_fixed_length };
}

impl TcpInfo {
    /// Parses the first 232 bytes, and ignores the bytes after them. Fewer bytes are
    /// [`DecodeError::BufferTooSmall`].
    #[inline(always)]
    pub fn parse(payload: &[u8]) -> Result<Self, DecodeError>
        ensures { result ≡ parse_record tcp_info tt payload.now }
    {
        read_record(payload, ())
    }

    // Writes the fields up to `total_retrans`, which end at offset 104.
    #[inline(always)]
    fn write_metrics(&self, buffer: &mut [u8])
        requires { length buffer.old ≡ 104 }
        ensures written { buffer.new ≡ u8s_at_0 self.now
            ++ flat_map (little_bytes 4) (u32s_at_8 self.now)
            ++ flat_map (little_bytes 4) (u32s_at_44 self.now)
            ++ flat_map (little_bytes 4) (u32s_at_60 self.now)
            ++ flat_map (little_bytes 4) (u32s_at_92 self.now) }
        ensures in_range { AreAllBelow (2 ^ 8) (u8s_at_0 self.now)
            × AreAllBelow (2 ^ 32) (u32s_at_8 self.now)
            × AreAllBelow (2 ^ 32) (u32s_at_44 self.now)
            × AreAllBelow (2 ^ 32) (u32s_at_60 self.now)
            × AreAllBelow (2 ^ 32) (u32s_at_92 self.now) }
    {
        let (u8s_at_0, rest) = buffer.split_at_mut(8);
        let (u32s_at_8, rest) = rest.split_at_mut(36);
        let (u32s_at_44, rest) = rest.split_at_mut(16);
        let (u32s_at_60, u32s_at_92) = rest.split_at_mut(32);
        write_bytes(&self.u8s_at_0(), u8s_at_0);
        write_u32s(&self.u32s_at_8(), u32s_at_8);
        write_u32s(&self.u32s_at_44(), u32s_at_44);
        write_u32s(&self.u32s_at_60(), u32s_at_60);
        write_u32s(&self.u32s_at_92(), u32s_at_92);
    }

    // Writes the fields from `pacing_rate` on, at offset 104.
    #[inline(always)]
    fn write_rates(&self, buffer: &mut [u8])
        requires { length buffer.old ≡ 128 }
        ensures written { buffer.new ≡ flat_map (little_bytes 8) (u64s_at_104 self.now)
            ++ flat_map (little_bytes 4) (u32s_at_136 self.now)
            ++ flat_map (little_bytes 8) (u64s_at_160 self.now)
            ++ flat_map (little_bytes 4) (u32s_at_192 self.now)
            ++ flat_map (little_bytes 8) (u64s_at_200 self.now)
            ++ flat_map (little_bytes 4) (u32s_at_216 self.now) }
        ensures in_range { AreAllBelow (2 ^ 64) (u64s_at_104 self.now)
            × AreAllBelow (2 ^ 32) (u32s_at_136 self.now)
            × AreAllBelow (2 ^ 64) (u64s_at_160 self.now)
            × AreAllBelow (2 ^ 32) (u32s_at_192 self.now)
            × AreAllBelow (2 ^ 64) (u64s_at_200 self.now)
            × AreAllBelow (2 ^ 32) (u32s_at_216 self.now) }
    {
        let (u64s_at_104, rest) = buffer.split_at_mut(32);
        let (u32s_at_136, rest) = rest.split_at_mut(24);
        let (u64s_at_160, rest) = rest.split_at_mut(32);
        let (u32s_at_192, rest) = rest.split_at_mut(8);
        let (u64s_at_200, u32s_at_216) = rest.split_at_mut(16);
        write_u64s(&self.u64s_at_104(), u64s_at_104);
        write_u32s(&self.u32s_at_136(), u32s_at_136);
        write_u64s(&self.u64s_at_160(), u64s_at_160);
        write_u32s(&self.u32s_at_192(), u32s_at_192);
        write_u64s(&self.u64s_at_200(), u64s_at_200);
        write_u32s(&self.u32s_at_216(), u32s_at_216);
    }

    // Returns the eight `u8` fields from offset 0 on.
    fn u8s_at_0(&self) -> [u8; 8]
        ensures { result ≡ u8s_at_0 self.now }
    {
        [
            self.state,
            self.ca_state,
            self.retransmits,
            self.probes,
            self.backoff,
            self.options,
            self.wscale,
            self.delivery_rate_app_limited,
        ]
    }

    // Returns the nine `u32` fields from offset 8 on.
    fn u32s_at_8(&self) -> [u32; 9]
        ensures { result ≡ u32s_at_8 self.now }
    {
        [
            self.rto,
            self.ato,
            self.snd_mss,
            self.rcv_mss,
            self.unacked,
            self.sacked,
            self.lost,
            self.retrans,
            self.fackets,
        ]
    }

    // Returns the four `u32` fields from offset 44 on.
    fn u32s_at_44(&self) -> [u32; 4]
        ensures { result ≡ u32s_at_44 self.now }
    {
        [
            self.last_data_sent,
            self.last_ack_sent,
            self.last_data_recv,
            self.last_ack_recv,
        ]
    }

    // Returns the eight `u32` fields from offset 60 on.
    fn u32s_at_60(&self) -> [u32; 8]
        ensures { result ≡ u32s_at_60 self.now }
    {
        [
            self.pmtu,
            self.rcv_ssthresh,
            self.rtt,
            self.rttvar,
            self.snd_ssthresh,
            self.snd_cwnd,
            self.advmss,
            self.reordering,
        ]
    }

    // Returns the three `u32` fields from offset 92 on.
    fn u32s_at_92(&self) -> [u32; 3]
        ensures { result ≡ u32s_at_92 self.now }
    {
        [self.rcv_rtt, self.rcv_space, self.total_retrans]
    }

    // Returns the four `u64` fields from offset 104 on.
    fn u64s_at_104(&self) -> [u64; 4]
        ensures { result ≡ u64s_at_104 self.now }
    {
        [
            self.pacing_rate,
            self.max_pacing_rate,
            self.bytes_acked,
            self.bytes_received,
        ]
    }

    // Returns the six `u32` fields from offset 136 on.
    fn u32s_at_136(&self) -> [u32; 6]
        ensures { result ≡ u32s_at_136 self.now }
    {
        [
            self.segs_out,
            self.segs_in,
            self.notsent_bytes,
            self.min_rtt,
            self.data_segs_in,
            self.data_segs_out,
        ]
    }

    // Returns the four `u64` fields from offset 160 on.
    fn u64s_at_160(&self) -> [u64; 4]
        ensures { result ≡ u64s_at_160 self.now }
    {
        [
            self.delivery_rate,
            self.busy_time,
            self.rwnd_limited,
            self.sndbuf_limited,
        ]
    }

    // Returns the two `u32` fields from offset 192 on.
    fn u32s_at_192(&self) -> [u32; 2]
        ensures { result ≡ u32s_at_192 self.now }
    {
        [self.delivered, self.delivered_ce]
    }

    // Returns the two `u64` fields from offset 200 on.
    fn u64s_at_200(&self) -> [u64; 2]
        ensures { result ≡ u64s_at_200 self.now }
    {
        [self.bytes_sent, self.bytes_retrans]
    }

    // Returns the four `u32` fields from offset 216 on.
    fn u32s_at_216(&self) -> [u32; 4]
        ensures { result ≡ u32s_at_216 self.now }
    {
        [
            self.dsack_dups,
            self.reord_seen,
            self.rcv_ooopack,
            self.snd_wnd,
        ]
    }
}
