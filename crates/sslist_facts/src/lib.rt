//! The facts of the values in replies about sockets: what `sslist` shows of each in the table and
//! in JSON.
#![tactic(auto)]

mod facts;
mod family_facts;
mod filter_program;
pub mod laws;
mod md5_keys;
mod memberships;
mod number_names;
mod records;
mod sctp_addresses;
mod socket_facts;
mod tcp;

pub use facts::{FactSink, Shown};
pub use family_facts::{
    show_fanout, show_groups, show_netlink_flags, show_packet, show_packet_ring, show_umem,
    show_xdp, show_xdp_ring, show_xdp_statistics,
};
pub use records::ShownRecord;
pub use socket_facts::{
    show_bbr, show_dctcp, show_legacy_memory, show_memory, show_option_bits, show_queues,
    show_vegas, show_vfs,
};
pub use tcp::{show_mptcp_info, show_tcp_info};
