//! Records that describe IPv4 and IPv6 sockets.

mod legacy_mem_info;
mod mem_info;
mod tcp_info;

pub use legacy_mem_info::{LEGACY_MEM_INFO_LEN, LegacyMemInfo, LegacyMemInfoBuffer};
pub use mem_info::{
    MEM_INFO_EIGHT_LEN, MEM_INFO_LEN, MEM_INFO_SEVEN_LEN, MemInfo, MemInfoBuffer, MemInfoBytes,
};
pub use tcp_info::{TCP_INFO_LEN, TcpInfo, TcpInfoBuffer};
