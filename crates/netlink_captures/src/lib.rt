//! Captures of netlink traffic in the formats pcap and pcapng: their packets are read, and the
//! datagrams in them are not decoded.
#![tactic(auto)]

mod block_error;
mod captures;
mod compression;
mod equality;
pub mod laws;
mod pcapng;
mod reader;

pub use block_error::BlockError;
pub use captures::{ByteOrder, CaptureError, FileHeader, Packet, PacketHeader, TimeUnit};
pub use compression::Compression;
pub use pcapng::PcapngReader;
pub use reader::CaptureReader;
