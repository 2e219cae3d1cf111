//! Packet sockets, by `linux/packet_diag.h`.

mod attributes;
mod response;

use crate::ShowRequest;
pub use attributes::{PacketInfo, PacketRing};
pub use response::{PACKET_RESPONSE_HEADER_LEN, PacketResponseHeader};
use sock_diag_records::constants::AF_PACKET;

/// A request for packet sockets: `struct packet_diag_req`. `protocol` is 0. `show` has bits
/// `PACKET_SHOW_*`.
pub type PacketRequest = ShowRequest<AF_PACKET>;

/// Requests `PACKET_DIAG_INFO` and `PACKET_DIAG_UID`.
pub const PACKET_SHOW_INFO: u32 = 0x1;
/// Requests `PACKET_DIAG_MCLIST`.
pub const PACKET_SHOW_MCLIST: u32 = 0x2;
/// Requests `PACKET_DIAG_RX_RING` and `PACKET_DIAG_TX_RING`.
pub const PACKET_SHOW_RING_CFG: u32 = 0x4;
/// Requests `PACKET_DIAG_FANOUT`.
pub const PACKET_SHOW_FANOUT: u32 = 0x8;
/// Requests `PACKET_DIAG_MEMINFO`.
pub const PACKET_SHOW_MEMINFO: u32 = 0x10;
/// Requests `PACKET_DIAG_FILTER`.
pub const PACKET_SHOW_FILTER: u32 = 0x20;

/// Kind of [`PacketInfo`].
pub const PACKET_DIAG_INFO: u16 = 0;
/// Kind of the memberships of the socket (`PACKET_ADD_MEMBERSHIP`, packet(7)): an array of `struct
/// packet_diag_mclist`, 44 bytes each.
pub const PACKET_DIAG_MCLIST: u16 = 1;
/// Kind of the receive ring: [`PacketRing`].
pub const PACKET_DIAG_RX_RING: u16 = 2;
/// Kind of the transmit ring: [`PacketRing`].
pub const PACKET_DIAG_TX_RING: u16 = 3;
/// Kind of the fanout group: a `u32`.
pub const PACKET_DIAG_FANOUT: u16 = 4;
/// Kind of the user id of the socket's owner: a `u32`.
pub const PACKET_DIAG_UID: u16 = 5;
/// Kind of the socket's memory: an array of `u32`, indexed by `SK_MEMINFO_*`.
pub const PACKET_DIAG_MEMINFO: u16 = 6;
/// Kind of the socket's filter: a BPF program.
pub const PACKET_DIAG_FILTER: u16 = 7;
