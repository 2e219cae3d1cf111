//! The functions of `include/sockdiag.h`: messages of sock_diag(7) for C, in memory that C owns.
//!
//! Each calls functions of other crates, and its contract states its promise in terms of the C
//! structs. None of them allocates. `prove!` states the size of each struct, which `tools/bindings`
//! compares with the C ABI.
#![tactic(auto)]

mod attribute_values;
mod check;
mod details;
mod error_attributes;
mod error_details;
mod error_offsets;
mod family_requests;
mod family_values;
mod filters;
mod headers;
mod inet_details;
pub mod laws;
mod lenient;
mod messages;
mod netlink_details;
mod packet_details;
mod parsed_filters;
mod requests;
mod results;
mod rewriting;
mod tcp_info;
mod unix_details;
mod version;
mod vsock_details;
mod walks;
mod xdp_details;
