//! Re-exports the records that are values of attributes of IPv4 and IPv6 sockets.

pub use sock_diag_values::inet::{
    LEGACY_MEM_INFO_LEN, LegacyMemInfo, LegacyMemInfoBuffer, MEM_INFO_EIGHT_LEN, MEM_INFO_LEN,
    MEM_INFO_SEVEN_LEN, MemInfo, MemInfoBuffer, MemInfoBytes, TCP_INFO_LEN, TcpInfo, TcpInfoBuffer,
};
