//! Example callers of the crates of sock_diag(7), with their contracts: short ones about UNIX
//! sockets, those of the pages CALLING.md of five libraries, and longer ones.
#![tactic(auto)]

pub mod bound_sockets;
pub mod dropped_packets;
pub mod framing;
pub mod laws;
pub mod link;
pub mod listeners;
pub mod listening_tcp;
pub mod lister;
pub mod peers;
pub mod reading_back;
pub mod readme;
pub mod stored;
pub mod test_kernel;
