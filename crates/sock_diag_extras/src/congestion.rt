//! Measurements of congestion control algorithms for a TCP connection: INET_DIAG_VEGASINFO,
//! INET_DIAG_DCTCPINFO and INET_DIAG_BBRINFO. The algorithm, whose name INET_DIAG_CONG contains,
//! determines which of them the kernel sends. No record here has an array, so the conditions on the
//! layouts, in `laws`, hold by computation.

ghost use Rattle.std.specs.Prelude.{refl};
ghost use Rattle.netlink_core.proofs.LayoutLaws.{plain_sound, record_laws};
ghost use Rattle.sock_diag_extras.specs.Congestion.{bbr_info, dctcp_info, vegas_info};
ghost use Rattle.sock_diag_extras.specs.RecordTable.{layout_with_name};

use crate::record::AttributeRecord;
use byteorder::{ByteOrder, LittleEndian};
use netlink_core::fields::{u32s_at, u64s_at};

/// The measurements of TCP Vegas, and of other algorithms that report in the same format:
/// `struct tcpvegas_info` of `linux/inet_diag.h`, 16 bytes, four little-endian `u32` fields.
#[repr(C)]
#[derive(Clone, Copy, Debug, PartialEq, Eq)]
pub struct VegasInfo {
    /// Whether the algorithm is in use, `tcpv_enabled`, at offset 0: 0 for no.
    pub enabled: u32,
    /// Number of round trips measured, `tcpv_rttcnt`, at offset 4.
    pub rtt_count: u32,
    /// Round-trip time, `tcpv_rtt`, at offset 8, in microseconds. Which one (the least, the mean or
    /// the last) depends on the algorithm.
    pub rtt: u32,
    /// Minimum round-trip time, `tcpv_minrtt`, at offset 12, in microseconds: of all measurements,
    /// or with Vegas only of the last round trip.
    pub min_rtt: u32,
}

impl AttributeRecord for VegasInfo {
    ghost layout = { vegas_info };

    fn size() -> usize {
        16
    }

    fn from_fields(bytes: &[u8]) -> Self {
        let [enabled, rtt_count, rtt, min_rtt] = u32s_at::<4>(bytes, 0);
        VegasInfo {
            enabled,
            rtt_count,
            rtt,
            min_rtt,
        }
    }

    fn write_fields(&self, buffer: &mut [u8]) {
        let numbers = [self.enabled, self.rtt_count, self.rtt, self.min_rtt];
        LittleEndian::write_u32_into(&numbers, buffer);
    }

    ghost laws = { λ name. record_laws (layout_with_name vegas_info name)
        (plain_sound refl (λ _. refl)
        (λ _. refl) (λ _. tt) (λ _ _. refl)) };
}

/// The measurements of DCTCP: `struct tcp_dctcp_info` of `linux/inet_diag.h`, 16 bytes,
/// little-endian.
#[repr(C)]
#[derive(Clone, Copy, Debug, PartialEq, Eq)]
pub struct DctcpInfo {
    /// Whether the algorithm is in use, `dctcp_enabled`, at offset 0: 0 for no.
    pub enabled: u16,
    /// Whether the last received segment had the ECN mark CE, `dctcp_ce_state`, at offset 2: 0 for
    /// no.
    pub ce_state: u16,
    /// Estimated fraction of the bytes that are marked, `dctcp_alpha`, at offset 4, in 1024ths.
    pub alpha: u32,
    /// Number of acknowledged bytes that the peer reported as marked, since `alpha` was last
    /// updated, `dctcp_ab_ecn`, at offset 8.
    pub marked_bytes: u32,
    /// Number of acknowledged bytes since then, `dctcp_ab_tot`, at offset 12.
    pub acked_bytes: u32,
}

impl AttributeRecord for DctcpInfo {
    ghost layout = { dctcp_info };

    fn size() -> usize {
        16
    }

    fn from_fields(bytes: &[u8]) -> Self {
        let [alpha, marked_bytes, acked_bytes] = u32s_at::<3>(bytes, 4);
        DctcpInfo {
            enabled: LittleEndian::read_u16(bytes),
            ce_state: LittleEndian::read_u16(&bytes[2..]),
            alpha,
            marked_bytes,
            acked_bytes,
        }
    }

    fn write_fields(&self, buffer: &mut [u8]) {
        let (u16_fields, u32_fields) = buffer.split_at_mut(4);
        LittleEndian::write_u16_into(&[self.enabled, self.ce_state], u16_fields);
        let numbers = [self.alpha, self.marked_bytes, self.acked_bytes];
        LittleEndian::write_u32_into(&numbers, u32_fields);
    }

    ghost laws = { λ name. record_laws (layout_with_name dctcp_info name)
        (plain_sound refl (λ _. refl)
        (λ _. refl) (λ _. tt) (λ _ _. refl)) };
}

/// The measurements of BBR: `struct tcp_bbr_info` of `linux/inet_diag.h`, 20 bytes, little-endian.
#[repr(C)]
#[derive(Clone, Copy, Debug, PartialEq, Eq)]
pub struct BbrInfo {
    /// Estimated bandwidth, in bytes per second: `bbr_bw_lo`, at offset 0, is its low half, and
    /// `bbr_bw_hi`, at offset 4, its high half.
    pub bandwidth: u64,
    /// Minimum round-trip time, `bbr_min_rtt`, at offset 8, in microseconds.
    pub min_rtt: u32,
    /// Factor from the bandwidth to the pacing rate, `bbr_pacing_gain`, at offset 12, in 256ths.
    pub pacing_gain: u32,
    /// Factor from the bandwidth-delay product to the congestion window, `bbr_cwnd_gain`, at offset
    /// 16, in 256ths.
    pub window_gain: u32,
}

impl AttributeRecord for BbrInfo {
    ghost layout = { bbr_info };

    fn size() -> usize {
        20
    }

    fn from_fields(bytes: &[u8]) -> Self {
        let [bandwidth] = u64s_at::<1>(bytes, 0);
        let [min_rtt, pacing_gain, window_gain] = u32s_at::<3>(bytes, 8);
        BbrInfo {
            bandwidth,
            min_rtt,
            pacing_gain,
            window_gain,
        }
    }

    fn write_fields(&self, buffer: &mut [u8]) {
        let (bandwidth, u32_fields) = buffer.split_at_mut(8);
        LittleEndian::write_u64(bandwidth, self.bandwidth);
        let numbers = [self.min_rtt, self.pacing_gain, self.window_gain];
        LittleEndian::write_u32_into(&numbers, u32_fields);
    }

    ghost laws = { λ name. record_laws (layout_with_name bbr_info name)
        (plain_sound refl (λ _. refl)
        (λ _. refl) (λ _. tt) (λ _ _. refl)) };
}
