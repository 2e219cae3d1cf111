//! The values of attributes of a reply about an XDP socket.

ghost use Rattle.std.proofs.Common.{rules};
ghost use Rattle.std.specs.Prelude.{◌≡◌, ◌≤◌, length};
ghost use Rattle.sock_diag_families.specs.XdpAttributes.{parse_xdp_info, parse_xdp_umem};
ghost use Rattle.sock_diag_families.specs.XdpAttributes.{xdp_umem_fields};
ghost use Rattle.sock_diag_families.specs.XdpAttributes.{parse_xdp_statistics};
ghost use Rattle.sock_diag_families.specs.XdpAttributes.{xdp_statistics_fields};

use super::{AF_XDP, XDP_DIAG_INFO, XDP_DIAG_STATS, XDP_DIAG_UMEM};
use crate::values::enough_in;
use netlink_core::fields::{u32s_at, u64s_at};
use netlink_core::{DecodeError, Exact};

// Size of `struct xdp_diag_info` in bytes.
const XDP_INFO_LEN: usize = 8;

// Size of `struct xdp_diag_umem` in bytes.
const XDP_UMEM_LEN: usize = 40;

// Size of `struct xdp_diag_stats` in bytes.
const XDP_STATISTICS_LEN: usize = 48;

/// The interface and the queue that an XDP socket is bound to: `struct xdp_diag_info` of
/// `linux/xdp_diag.h`.
///
/// It is the first 8 bytes of the value of `XDP_DIAG_INFO`, little-endian.
#[repr(C)]
#[derive(Clone, Copy, Debug, Default, PartialEq, Eq)]
pub struct XdpInfo {
    /// Index of the interface (`ifindex`), at offset 0.
    pub interface: u32,
    /// Index of the interface's queue (`queue_id`), at offset 4.
    pub queue: u32,
}

impl Exact for XdpInfo {
    ghost exact = { Prim.search rules };
}

impl XdpInfo {
    /// Parses the first 8 bytes of the value of an attribute `XDP_DIAG_INFO`, and ignores the bytes
    /// after them. Fewer bytes are `BufferTooSmall`.
    pub fn parse(value: &[u8]) -> Result<XdpInfo, DecodeError>
        ensures { result ≡ parse_xdp_info value.now }
    {
        let value = enough_in(value, AF_XDP, XDP_DIAG_INFO, XDP_INFO_LEN)?;
        let [interface, queue] = u32s_at::<2>(value, 0);
        Ok(XdpInfo { interface, queue })
    }
}

/// The memory that an XDP socket shares with its program (UMEM): `struct xdp_diag_umem` of
/// `linux/xdp_diag.h`.
///
/// It is the first 40 bytes of the value of `XDP_DIAG_UMEM`, little-endian.
#[repr(C)]
#[derive(Clone, Copy, Debug, Default, PartialEq, Eq)]
pub struct XdpUmem {
    /// Size of the memory in bytes (`size`), at offset 0.
    pub size: u64,
    /// Id of the memory (`id`), at offset 8.
    pub id: u32,
    /// Number of pages (`num_pages`), at offset 12.
    pub pages: u32,
    /// Size of a chunk in bytes (`chunk_size`), at offset 16.
    pub chunk_size: u32,
    /// Headroom of a chunk that the program reserves, in bytes (`headroom`), at offset 20.
    pub headroom: u32,
    /// Index of the interface that the memory is bound to (`ifindex`), at offset 24.
    pub interface: u32,
    /// Index of the interface's queue (`queue_id`), at offset 28.
    pub queue: u32,
    /// Flags (`flags`), the bit `XDP_DU_F_ZEROCOPY` (1), at offset 32.
    pub flags: u32,
    /// Number of sockets that share the memory (`refs`), at offset 36.
    pub references: u32,
}

impl Exact for XdpUmem {
    ghost exact = { Prim.search rules };
}

impl XdpUmem {
    /// Parses the first 40 bytes of the value of an attribute `XDP_DIAG_UMEM`, and ignores the
    /// bytes after them. Fewer bytes are `BufferTooSmall`.
    pub fn parse(value: &[u8]) -> Result<XdpUmem, DecodeError>
        ensures { result ≡ parse_xdp_umem value.now }
    {
        let value = enough_in(value, AF_XDP, XDP_DIAG_UMEM, XDP_UMEM_LEN)?;
        Ok(umem_in(value))
    }
}

/// The counters of an XDP socket: `struct xdp_diag_stats` of `linux/xdp_diag.h`.
///
/// They are the first 48 bytes of the value of `XDP_DIAG_STATS`: six `u64`, little-endian.
#[repr(C)]
#[derive(Clone, Copy, Debug, Default, PartialEq, Eq)]
pub struct XdpStatistics {
    /// Number of received packets that were dropped for reasons other than the following
    /// (`n_rx_dropped`), at offset 0.
    pub received_dropped: u64,
    /// Number of received packets that were dropped because of an invalid descriptor
    /// (`n_rx_invalid`), at offset 8.
    pub received_invalid: u64,
    /// Number of received packets that were dropped because the receive ring was full
    /// (`n_rx_full`), at offset 16.
    pub received_full: u64,
    /// Number of times that a frame was needed and the fill ring was empty (`n_fill_ring_empty`),
    /// at offset 24.
    pub fill_ring_empty: u64,
    /// Number of packets that were not sent because of an invalid descriptor (`n_tx_invalid`), at
    /// offset 32.
    pub sent_invalid: u64,
    /// Number of times that the transmit ring was found empty (`n_tx_ring_empty`), at offset 40.
    pub send_ring_empty: u64,
}

impl Exact for XdpStatistics {
    ghost exact = { Prim.search rules };
}

impl XdpStatistics {
    /// Parses the first 48 bytes of the value of an attribute `XDP_DIAG_STATS`, and ignores the
    /// bytes after them. Fewer bytes are `BufferTooSmall`.
    pub fn parse(value: &[u8]) -> Result<XdpStatistics, DecodeError>
        ensures { result ≡ parse_xdp_statistics value.now }
    {
        let value = enough_in(value, AF_XDP, XDP_DIAG_STATS, XDP_STATISTICS_LEN)?;
        Ok(statistics_in(value))
    }
}

// Parses the `struct xdp_diag_umem` at the start of the value. Requires that the value contains it.
fn umem_in(value: &[u8]) -> XdpUmem
    requires { XDP_UMEM_LEN ≤ length value.now }
    ensures { result ≡ xdp_umem_fields value.now }
{
    let [size] = u64s_at::<1>(value, 0);
    let [
        id,
        pages,
        chunk_size,
        headroom,
        interface,
        queue,
        flags,
        references,
    ] = u32s_at::<8>(value, 8);
    XdpUmem {
        size,
        id,
        pages,
        chunk_size,
        headroom,
        interface,
        queue,
        flags,
        references,
    }
}

// Parses the `struct xdp_diag_stats` at the start of the value. Requires that the value contains
// it.
fn statistics_in(value: &[u8]) -> XdpStatistics
    requires { XDP_STATISTICS_LEN ≤ length value.now }
    ensures { result ≡ xdp_statistics_fields value.now }
{
    let [
        received_dropped,
        received_invalid,
        received_full,
        fill_ring_empty,
        sent_invalid,
        send_ring_empty,
    ] = u64s_at::<6>(value, 0);
    XdpStatistics {
        received_dropped,
        received_invalid,
        received_full,
        fill_ring_empty,
        sent_invalid,
        send_ring_empty,
    }
}
