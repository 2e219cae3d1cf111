//! Proof only: `==` and `clone` of plain types compare and copy the whole value.

ghost use Rattle.std.proofs.Common.{rules};
ghost use Rattle.netlink_core.specs.laws.EqualErrors.{decode_error_equal, error_equal};

use crate::{CanonError, DecodeError, NetlinkHeader, RecordBuffer, RecordName};
use exact_values::Exact;

impl Exact for RecordName {
    ghost exact = { Prim.search rules };
}

impl Exact for NetlinkHeader {
    ghost exact = { Prim.search rules };
}

impl<T: PartialEq + Clone, const N: usize> Exact for RecordBuffer<T, N> {
    ghost exact = { Prim.search rules };
}

impl Exact for DecodeError {
    ghost exact = { (decode_error_equal, Prim.search rules, Prim.search rules) };
}

impl Exact for CanonError {
    ghost exact = { (error_equal, Prim.search rules, Prim.search rules) };
}
