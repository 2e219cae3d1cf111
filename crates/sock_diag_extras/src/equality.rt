//! Proof only: `==` and `clone` of records and of field names compare and copy the whole value.

ghost use Rattle.std.proofs.Common.{rules};
ghost use Rattle.sock_diag_extras.specs.laws.EqualTcpField.{tcp_field_equal};

use crate::congestion::{BbrInfo, DctcpInfo, VegasInfo};
use crate::filter_instruction::FilterInstruction;
use crate::md5_signature::Md5Signature;
use crate::membership::PacketMembership;
use crate::mptcp_info::MptcpField;
use crate::options::{SocketOption, SocketOptions};
use crate::stored_address::StoredAddress;
use crate::tcp_info::TcpField;
use crate::ulp_info::{SubflowField, TlsField};
use netlink_core::Exact;

impl Exact for VegasInfo {
    ghost exact = { Prim.search rules };
}

impl Exact for DctcpInfo {
    ghost exact = { Prim.search rules };
}

impl Exact for BbrInfo {
    ghost exact = { Prim.search rules };
}

impl Exact for Md5Signature {
    ghost exact = { Prim.search rules };
}

impl Exact for FilterInstruction {
    ghost exact = { Prim.search rules };
}

impl Exact for PacketMembership {
    ghost exact = { Prim.search rules };
}

impl Exact for SocketOption {
    ghost exact = { Prim.search rules };
}

impl Exact for SocketOptions {
    ghost exact = { Prim.search rules };
}

impl Exact for StoredAddress {
    ghost exact = { Prim.search rules };
}

impl Exact for TcpField {
    // It has too many variants for the search: `==` is proved by a lemma.
    ghost exact = { (tcp_field_equal, Prim.search rules, Prim.search rules) };
}

impl Exact for MptcpField {
    ghost exact = { Prim.search rules };
}

impl Exact for SubflowField {
    ghost exact = { Prim.search rules };
}

impl Exact for TlsField {
    ghost exact = { Prim.search rules };
}
