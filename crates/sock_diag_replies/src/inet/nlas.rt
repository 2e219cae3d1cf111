//! The attributes of a reply about an IPv4 or IPv6 socket, and the types of their values.

pub use crate::inet::reply::NlaViews;
pub use sock_diag_attributes::inet::nlas::{
    LEGACY_MEM_INFO_LEN, LegacyMemInfo, LegacyMemInfoBuffer, MEM_INFO_EIGHT_LEN, MEM_INFO_LEN,
    MEM_INFO_SEVEN_LEN, MemInfo, MemInfoBuffer, MemInfoBytes, Nla, NlaView, TCP_INFO_LEN, TcpInfo,
    TcpInfoBuffer,
};
