//! Laws of constants and of raw attributes.
//!
//! Proof only: the contract of each function states the property.

ghost use Rattle.std.specs.Prelude.{◌≡◌, ◌↔◌, ℕ, [], ◌∷◌, IfOk, IsOk, IsTrue};
ghost use Rattle.netlink_core.specs.Walk.{buffered_attribute};
ghost use Rattle.sock_diag_families.specs.NetlinkResponseHeader.{netlink_header};
ghost use Rattle.sock_diag_families.specs.PacketResponseHeader.{packet_header};
ghost use Rattle.sock_diag_families.specs.ShowRequest.{show_request};
ghost use Rattle.sock_diag_families.specs.VsockRequest.{vsock_request};
ghost use Rattle.sock_diag_families.specs.VsockResponseHeader.{vsock_header};
ghost use Rattle.sock_diag_families.specs.XdpResponseHeader.{xdp_header};
ghost use Rattle.sock_diag_records.specs.Constants.{PairsAreEqual};

use crate::netlink::{
    NDIAG_PROTO_ALL, NDIAG_SHOW_FLAGS, NDIAG_SHOW_GROUPS, NDIAG_SHOW_MEMINFO, NETLINK_DIAG_FLAGS,
    NETLINK_DIAG_GROUPS, NETLINK_DIAG_MEMINFO, NETLINK_DIAG_RX_RING, NETLINK_DIAG_TX_RING,
    NETLINK_RESPONSE_HEADER_LEN,
};
use crate::packet::{
    PACKET_DIAG_FANOUT, PACKET_DIAG_FILTER, PACKET_DIAG_INFO, PACKET_DIAG_MCLIST,
    PACKET_DIAG_MEMINFO, PACKET_DIAG_RX_RING, PACKET_DIAG_TX_RING, PACKET_DIAG_UID,
    PACKET_RESPONSE_HEADER_LEN, PACKET_SHOW_FANOUT, PACKET_SHOW_FILTER, PACKET_SHOW_INFO,
    PACKET_SHOW_MCLIST, PACKET_SHOW_MEMINFO, PACKET_SHOW_RING_CFG,
};
use crate::vsock::{AF_VSOCK, VSOCK_REQUEST_LEN, VSOCK_RESPONSE_HEADER_LEN};
use crate::xdp::{
    AF_XDP, XDP_DIAG_INFO, XDP_DIAG_MEMINFO, XDP_DIAG_RX_RING, XDP_DIAG_STATS, XDP_DIAG_TX_RING,
    XDP_DIAG_UID, XDP_DIAG_UMEM, XDP_DIAG_UMEM_COMPLETION_RING, XDP_DIAG_UMEM_FILL_RING,
    XDP_RESPONSE_HEADER_LEN, XDP_SHOW_INFO, XDP_SHOW_MEMINFO, XDP_SHOW_RING_CFG, XDP_SHOW_STATS,
    XDP_SHOW_UMEM,
};
use crate::{RawNla, SHOW_REQUEST_LEN};
use std::alloc::AllocError;

/// States that `==` of two attributes returns true if and only if they have the same type field,
/// with its two flag bits, and the same bytes in their values.
#[tactic(auto, using(netlink_core::proofs::ValueTests::attribute_test_decides))]
pub fn equal_raw_nlas(left: &RawNla<'_>, right: &RawNla<'_>) -> bool
    ensures { IsTrue result ↔ (buffered_attribute left.now.0 ≡ buffered_attribute right.now.0) }
{
    left == right
}

/// Clones an attribute, which never fails and returns one with the same type field, with its two
/// flag bits, and the same bytes in its value.
pub fn copied_raw_nla<'a>(nla: &RawNla<'a>) -> Result<RawNla<'a>, AllocError>
    ensures ok { IsOk result }
    ensures same { IfOk result (λ copy. buffered_attribute copy.0 ≡ buffered_attribute nla.now.0) }
{
    nla.clone()
}

/// States the value of each constant of this crate. Most clauses list pairs of a constant and its
/// value, and `PairsAreEqual` says that both numbers of each pair are equal. The value of each
/// constant of a length is the fewest bytes that its record is parsed from (`least` of its layout).
/// `SHOW_REQUEST_LEN` has its own clause, since its layout depends on the family: it is the same
/// length for each.
pub fn family_constants_have_their_values()
    ensures families { PairsAreEqual ((AF_VSOCK, 40) ∷ (AF_XDP, 44) ∷ []) }
    ensures netlink_requests { PairsAreEqual ((NDIAG_PROTO_ALL, 255) ∷ (NDIAG_SHOW_MEMINFO, 1) ∷
        (NDIAG_SHOW_GROUPS, 2) ∷ (NDIAG_SHOW_FLAGS, 8) ∷ []) }
    ensures netlink_attributes { PairsAreEqual ((NETLINK_DIAG_MEMINFO, 0) ∷ (NETLINK_DIAG_GROUPS, 1)
        ∷ (NETLINK_DIAG_RX_RING, 2) ∷ (NETLINK_DIAG_TX_RING, 3) ∷ (NETLINK_DIAG_FLAGS, 4) ∷ []) }
    ensures packet_requests { PairsAreEqual ((PACKET_SHOW_INFO, 1) ∷ (PACKET_SHOW_MCLIST, 2) ∷
        (PACKET_SHOW_RING_CFG, 4) ∷ (PACKET_SHOW_FANOUT, 8) ∷ (PACKET_SHOW_MEMINFO, 16) ∷
        (PACKET_SHOW_FILTER, 32) ∷ []) }
    ensures packet_attributes { PairsAreEqual ((PACKET_DIAG_INFO, 0) ∷ (PACKET_DIAG_MCLIST, 1) ∷
        (PACKET_DIAG_RX_RING, 2) ∷ (PACKET_DIAG_TX_RING, 3) ∷ (PACKET_DIAG_FANOUT, 4) ∷
        (PACKET_DIAG_UID, 5) ∷ (PACKET_DIAG_MEMINFO, 6) ∷ (PACKET_DIAG_FILTER, 7) ∷ []) }
    ensures xdp_requests { PairsAreEqual ((XDP_SHOW_INFO, 1) ∷ (XDP_SHOW_RING_CFG, 2) ∷
        (XDP_SHOW_UMEM, 4) ∷ (XDP_SHOW_MEMINFO, 8) ∷ (XDP_SHOW_STATS, 16) ∷ []) }
    ensures xdp_attributes { PairsAreEqual ((XDP_DIAG_INFO, 1) ∷ (XDP_DIAG_UID, 2) ∷
        (XDP_DIAG_RX_RING, 3) ∷ (XDP_DIAG_TX_RING, 4) ∷ (XDP_DIAG_UMEM, 5) ∷
        (XDP_DIAG_UMEM_FILL_RING, 6) ∷ (XDP_DIAG_UMEM_COMPLETION_RING, 7) ∷
        (XDP_DIAG_MEMINFO, 8) ∷ (XDP_DIAG_STATS, 9) ∷ []) }
    ensures show_request_size { (family : ℕ) → SHOW_REQUEST_LEN ≡ (show_request family).least }
    ensures sizes { PairsAreEqual ((VSOCK_REQUEST_LEN, vsock_request.least) ∷
        (NETLINK_RESPONSE_HEADER_LEN, netlink_header.least) ∷
        (PACKET_RESPONSE_HEADER_LEN, packet_header.least) ∷
        (VSOCK_RESPONSE_HEADER_LEN, vsock_header.least) ∷
        (XDP_RESPONSE_HEADER_LEN, xdp_header.least) ∷ []) }
{}
