//! The parts of sock_diag(7) that the port of the Rust crate leaves out: all of `struct tcp_info`,
//! `struct mptcp_info`, attributes that the port leaves raw, extended acknowledgements, and
//! constants.
//!
//! This is an extension crate. It changes nothing of the port.
#![tactic(auto)]

mod acknowledgement;
mod bytes;
mod congestion;
pub mod constants;
mod equality;
mod filter_instruction;
pub mod laws;
mod md5_signature;
mod membership;
mod mptcp_info;
mod nested;
mod numbers;
mod options;
mod record;
mod records;
mod storages;
mod stored_address;
mod tcp_info;
mod ulp_info;

pub use acknowledgement::{AckAttributes, AckView};
pub use congestion::{BbrInfo, DctcpInfo, VegasInfo};
pub use filter_instruction::FilterInstruction;
pub use md5_signature::Md5Signature;
pub use membership::PacketMembership;
pub use mptcp_info::{MptcpField, MptcpInfoBytes};
pub use nested::NestedNlas;
pub use numbers::{parse_cgroup_id, parse_uid};
pub use options::{SocketOption, SocketOptions};
pub use record::{AttributeRecord, read_attribute_record, write_attribute_record};
pub use records::AttributeRecords;
pub use storages::BpfStorage;
pub use stored_address::StoredAddress;
pub use tcp_info::{TcpField, TcpInfoBytes};
pub use ulp_info::{SubflowField, SubflowInfo, TlsField, TlsInfo, UlpInfo};
