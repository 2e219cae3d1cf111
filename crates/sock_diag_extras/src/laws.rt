//! Properties of the fields of `struct tcp_info` and `struct mptcp_info`, and of `==` and `clone`.
//! Proof only: the contract of each function states the property. `tcp_info_bytes`,
//! `mptcp_info_bytes` and `nested_bytes` are the bytes that a value borrows. `result.0` and
//! `result.1` are the parts of a returned pair.

ghost use Rattle.std.specs.Prelude.{◌≡◌, ◌↔◌, ◌*◌, [], ◌∷◌, ◌++◌, map, IfOk, IsOk, IsTrue};
ghost use Rattle.netlink_core.specs.Layout.{tag_fields};
ghost use Rattle.sock_diag_values.specs.TcpInfo.{tcp_info};
ghost use Rattle.sock_diag_extras.specs.Models.{ack_attributes, ack_number, ack_request};
ghost use Rattle.sock_diag_extras.specs.Models.{mptcp_info_bytes, nested_bytes, tcp_info_bytes};
ghost use Rattle.sock_diag_extras.specs.MptcpFields.{aligned_spans, mptcp_fields, mptcp_span_of};
ghost use Rattle.sock_diag_extras.specs.MptcpFields.{mptcp_width_of};
ghost use Rattle.sock_diag_extras.specs.TcpFields.{first_fields, later_fields};
ghost use Rattle.sock_diag_extras.specs.TcpFields.{tcp_end_bit, tcp_first_bit, tcp_layout_field};

use crate::acknowledgement::{AckAttributes, AckView};
use crate::mptcp_info::MptcpInfoBytes;
use crate::nested::NestedNlas;
use crate::storages::BpfStorage;
use crate::tcp_info::TcpInfoBytes;
use crate::ulp_info::{SubflowInfo, TlsInfo, UlpInfo};
use std::alloc::AllocError;

/// States that the first fields are the fields of the port's `TcpInfo`, in order and with the same
/// offsets and widths (`first`); and that all fields follow each other without gaps (`later`), in
/// bits: the first starts at bit 0, each other one where the one before it ends, and the last ends
/// with the byte at offset 279.
pub fn tcp_fields_are_rows()
    ensures first { map tcp_layout_field first_fields ≡ tag_fields tcp_info tt }
    // The starts of all fields, and then the end of 280 bytes, are 0 and then the ends of these
    // fields.
    ensures later { map tcp_first_bit (first_fields ++ later_fields) ++ 8 * 280 ∷ []
        ≡ 0 ∷ map tcp_end_bit (first_fields ++ later_fields) }
{}

/// States that the fields of `struct mptcp_info`, in order, have the offsets at which a C compiler
/// places numbers of their widths: each starts at the first multiple of its width after the field
/// before it.
pub fn mptcp_fields_are_aligned()
    ensures { map mptcp_span_of mptcp_fields ≡ aligned_spans 0 (map mptcp_width_of mptcp_fields) }
{}

/// Returns `left == right` and the clone of `left`, for two `TcpInfoBytes`. They are equal if and
/// only if they have the same bytes. The clone has the same bytes, and `clone` never fails.
pub fn compared_tcp_info_bytes<'a>(
    left: &TcpInfoBytes<'a>,
    right: &TcpInfoBytes<'_>,
) -> (bool, Result<TcpInfoBytes<'a>, AllocError>)
    ensures equal { IsTrue result.0 ↔ (tcp_info_bytes left.now ≡ tcp_info_bytes right.now) }
    ensures ok { IsOk result.1 }
    ensures same { IfOk result.1 (λ copy. tcp_info_bytes copy ≡ tcp_info_bytes left.now) }
{
    (left == right, left.clone())
}

/// Returns `left == right` and the clone of `left`, for two `MptcpInfoBytes`. They are equal if and
/// only if they have the same bytes. The clone has the same bytes, and `clone` never fails.
pub fn compared_mptcp_info_bytes<'a>(
    left: &MptcpInfoBytes<'a>,
    right: &MptcpInfoBytes<'_>,
) -> (bool, Result<MptcpInfoBytes<'a>, AllocError>)
    ensures equal { IsTrue result.0 ↔ (mptcp_info_bytes left.now ≡ mptcp_info_bytes right.now) }
    ensures ok { IsOk result.1 }
    ensures same { IfOk result.1 (λ copy. mptcp_info_bytes copy ≡ mptcp_info_bytes left.now) }
{
    (left == right, left.clone())
}

/// Returns `left == right` and the clone of `left`, for two `NestedNlas`. They are equal if and
/// only if they have the same bytes. The clone has the same bytes, and `clone` never fails.
pub fn compared_nested_nlas<'a>(
    left: &NestedNlas<'a>,
    right: &NestedNlas<'_>,
) -> (bool, Result<NestedNlas<'a>, AllocError>)
    ensures equal { IsTrue result.0 ↔ (nested_bytes left.now ≡ nested_bytes right.now) }
    ensures ok { IsOk result.1 }
    ensures same { IfOk result.1 (λ copy. nested_bytes copy ≡ nested_bytes left.now) }
{
    (left == right, left.clone())
}

/// Returns `left == right` and the clone of `left`, for two `AckAttributes`. They are equal if and
/// only if they have the same bytes. The clone has the same bytes, and `clone` never fails.
pub fn compared_ack_attributes<'a>(
    left: &AckAttributes<'a>,
    right: &AckAttributes<'_>,
) -> (bool, Result<AckAttributes<'a>, AllocError>)
    ensures equal { IsTrue result.0 ↔ (nested_bytes left.now.0 ≡ nested_bytes right.now.0) }
    ensures ok { IsOk result.1 }
    ensures same { IfOk result.1 (λ copy. nested_bytes copy.0 ≡ nested_bytes left.now.0) }
{
    (left == right, left.clone())
}

/// Returns `left == right` and the clone of `left`, for two `BpfStorage`. They are equal if and
/// only if they have the same bytes. The clone has the same bytes, and `clone` never fails.
pub fn compared_bpf_storages<'a>(
    left: &BpfStorage<'a>,
    right: &BpfStorage<'_>,
) -> (bool, Result<BpfStorage<'a>, AllocError>)
    ensures equal { IsTrue result.0 ↔ (nested_bytes left.now.0 ≡ nested_bytes right.now.0) }
    ensures ok { IsOk result.1 }
    ensures same { IfOk result.1 (λ copy. nested_bytes copy.0 ≡ nested_bytes left.now.0) }
{
    (left == right, left.clone())
}

/// Returns `left == right` and the clone of `left`, for two `UlpInfo`. They are equal if and only
/// if they have the same bytes. The clone has the same bytes, and `clone` never fails.
pub fn compared_ulp_infos<'a>(
    left: &UlpInfo<'a>,
    right: &UlpInfo<'_>,
) -> (bool, Result<UlpInfo<'a>, AllocError>)
    ensures equal { IsTrue result.0 ↔ (nested_bytes left.now.0 ≡ nested_bytes right.now.0) }
    ensures ok { IsOk result.1 }
    ensures same { IfOk result.1 (λ copy. nested_bytes copy.0 ≡ nested_bytes left.now.0) }
{
    (left == right, left.clone())
}

/// Returns `left == right` and the clone of `left`, for two `TlsInfo`. They are equal if and only
/// if they have the same bytes. The clone has the same bytes, and `clone` never fails.
pub fn compared_tls_infos<'a>(
    left: &TlsInfo<'a>,
    right: &TlsInfo<'_>,
) -> (bool, Result<TlsInfo<'a>, AllocError>)
    ensures equal { IsTrue result.0 ↔ (nested_bytes left.now.0 ≡ nested_bytes right.now.0) }
    ensures ok { IsOk result.1 }
    ensures same { IfOk result.1 (λ copy. nested_bytes copy.0 ≡ nested_bytes left.now.0) }
{
    (left == right, left.clone())
}

/// Returns `left == right` and the clone of `left`, for two `SubflowInfo`. They are equal if and
/// only if they have the same bytes. The clone has the same bytes, and `clone` never fails.
pub fn compared_subflow_infos<'a>(
    left: &SubflowInfo<'a>,
    right: &SubflowInfo<'_>,
) -> (bool, Result<SubflowInfo<'a>, AllocError>)
    ensures equal { IsTrue result.0 ↔ (nested_bytes left.now.0 ≡ nested_bytes right.now.0) }
    ensures ok { IsOk result.1 }
    ensures same { IfOk result.1 (λ copy. nested_bytes copy.0 ≡ nested_bytes left.now.0) }
{
    (left == right, left.clone())
}

/// Returns `left == right`: whether two acknowledgements have the same number, request and bytes of
/// attributes.
pub fn equal_ack_views(left: &AckView<'_>, right: &AckView<'_>) -> bool
    ensures { IsTrue result ↔ ((ack_number left.now ≡ ack_number right.now)
        × (ack_request left.now ≡ ack_request right.now)
        × (ack_attributes left.now ≡ ack_attributes right.now)) }
{
    left == right
}

/// Returns the clone of an acknowledgement. It has the same number, request and bytes of
/// attributes, and `clone` never fails.
pub fn copied_ack_view<'a>(view: &AckView<'a>) -> Result<AckView<'a>, AllocError>
    ensures ok { IsOk result }
    ensures number { IfOk result (λ copy. ack_number copy ≡ ack_number view.now) }
    ensures request { IfOk result (λ copy. ack_request copy ≡ ack_request view.now) }
    ensures attributes { IfOk result (λ copy. ack_attributes copy ≡ ack_attributes view.now) }
{
    view.clone()
}
