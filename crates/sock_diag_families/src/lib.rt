//! Records of four families of sockets that the port does not parse: vsock, netlink, packet and
//! XDP. The crate has the requests, the headers of replies, and records in attributes of packet and
//! XDP sockets.
#![tactic(auto)]

pub mod laws;
pub mod netlink;
pub mod packet;
mod raw;
mod request;
mod values;
pub mod vsock;
pub mod xdp;

pub use raw::RawNla;
pub use request::{SHOW_REQUEST_LEN, ShowRequest};
