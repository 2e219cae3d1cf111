//! XDP sockets, by `linux/xdp_diag.h`.

mod attributes;
mod response;

use crate::ShowRequest;
pub use attributes::{XdpInfo, XdpStatistics, XdpUmem};
pub use response::{XDP_RESPONSE_HEADER_LEN, XdpResponseHeader};

/// The address family of XDP sockets, `AF_XDP` of `sys/socket.h`.
pub const AF_XDP: u8 = 44;

/// A request for XDP sockets: `struct xdp_diag_req`. `protocol` is 0. `show` has bits `XDP_SHOW_*`.
pub type XdpRequest = ShowRequest<AF_XDP>;

/// Requests `XDP_DIAG_INFO` and `XDP_DIAG_UID`.
pub const XDP_SHOW_INFO: u32 = 0x1;
/// Requests `XDP_DIAG_RX_RING` and `XDP_DIAG_TX_RING`.
pub const XDP_SHOW_RING_CFG: u32 = 0x2;
/// Requests `XDP_DIAG_UMEM`, `XDP_DIAG_UMEM_FILL_RING` and `XDP_DIAG_UMEM_COMPLETION_RING`.
pub const XDP_SHOW_UMEM: u32 = 0x4;
/// Requests `XDP_DIAG_MEMINFO`.
pub const XDP_SHOW_MEMINFO: u32 = 0x8;
/// Requests `XDP_DIAG_STATS`.
pub const XDP_SHOW_STATS: u32 = 0x10;

/// Kind of [`XdpInfo`].
pub const XDP_DIAG_INFO: u16 = 1;
/// Kind of the user id of the socket's owner: a `u32`.
pub const XDP_DIAG_UID: u16 = 2;
/// Kind of the receive ring: its number of entries, a `u32` (`struct xdp_diag_ring`).
pub const XDP_DIAG_RX_RING: u16 = 3;
/// Kind of the transmit ring: its number of entries, a `u32` (`struct xdp_diag_ring`).
pub const XDP_DIAG_TX_RING: u16 = 4;
/// Kind of [`XdpUmem`].
pub const XDP_DIAG_UMEM: u16 = 5;
/// Kind of the fill ring, by which the program passes frames to the kernel: its number of entries,
/// a `u32` (`struct xdp_diag_ring`).
pub const XDP_DIAG_UMEM_FILL_RING: u16 = 6;
/// Kind of the completion ring, by which the kernel returns frames to the program: its number of
/// entries, a `u32` (`struct xdp_diag_ring`).
pub const XDP_DIAG_UMEM_COMPLETION_RING: u16 = 7;
/// Kind of the socket's memory: an array of `u32`, indexed by `SK_MEMINFO_*`.
pub const XDP_DIAG_MEMINFO: u16 = 8;
/// Kind of [`XdpStatistics`].
pub const XDP_DIAG_STATS: u16 = 9;
