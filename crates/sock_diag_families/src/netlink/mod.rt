//! Netlink sockets, by `linux/netlink_diag.h`.

mod response;

use crate::ShowRequest;
pub use response::{NETLINK_RESPONSE_HEADER_LEN, NetlinkResponseHeader};
use sock_diag_records::constants::AF_NETLINK;

/// A request for netlink sockets: `struct netlink_diag_req`. `protocol` is `NETLINK_*` of
/// `linux/netlink.h`, or [`NDIAG_PROTO_ALL`]. `show` has bits `NDIAG_SHOW_*`.
pub type NetlinkRequest = ShowRequest<AF_NETLINK>;

/// Requests sockets of all protocols.
pub const NDIAG_PROTO_ALL: u8 = 255;

/// Requests `NETLINK_DIAG_MEMINFO`.
pub const NDIAG_SHOW_MEMINFO: u32 = 0x1;
/// Requests `NETLINK_DIAG_GROUPS`.
pub const NDIAG_SHOW_GROUPS: u32 = 0x2;
/// Requests `NETLINK_DIAG_FLAGS`.
pub const NDIAG_SHOW_FLAGS: u32 = 0x8;

/// Kind of the socket's memory: an array of `u32`, indexed by `SK_MEMINFO_*`.
pub const NETLINK_DIAG_MEMINFO: u16 = 0;
/// Kind of the multicast groups that the socket has joined: a bit mask.
pub const NETLINK_DIAG_GROUPS: u16 = 1;
/// Kind of the receive ring. Linux 4.6 removed it.
pub const NETLINK_DIAG_RX_RING: u16 = 2;
/// Kind of the transmit ring. Linux 4.6 removed it.
pub const NETLINK_DIAG_TX_RING: u16 = 3;
/// Kind of the socket's flags: a `u32` with bits `NDIAG_FLAG_*`.
pub const NETLINK_DIAG_FLAGS: u16 = 4;
