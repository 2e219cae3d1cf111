//! Proof only: `==` and `clone` of conditions, parts and errors compare and copy the whole value.

ghost use Rattle.std.proofs.Common.{rules};
ghost use Rattle.sock_diag_filters.specs.laws.EqualCondition.{condition_equal, host_equal};
ghost use Rattle.sock_diag_filters.specs.laws.EqualCondition.{prefix_equal};
ghost use Rattle.sock_diag_filters.specs.laws.EqualPart.{part_equal};

use crate::condition::{Comparison, Condition, Host, Prefix};
use crate::text::{FilterTextError, Part};
use netlink_core::Exact;

impl Exact for Comparison {
    ghost exact = { Prim.search rules };
}

impl Exact for Prefix {
    ghost exact = { (prefix_equal, Prim.search rules, Prim.search rules depth 12) };
}

impl Exact for Host {
    ghost exact = { (host_equal, Prim.search rules, Prim.search rules depth 12) };
}

impl Exact for Condition {
    ghost exact = { (condition_equal, Prim.search rules, Prim.search rules depth 12) };
}

impl Exact for Part {
    ghost exact = { (part_equal, Prim.search rules, Prim.search rules depth 12) };
}

impl Exact for FilterTextError {
    ghost exact = { Prim.search rules };
}
