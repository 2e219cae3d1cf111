//! Proof only: `==` and `clone` compare and copy the whole value.

ghost use Rattle.std.proofs.Common.{rules};

use crate::{InfoFormat, RawTimer, Sockets};
use netlink_core::Exact;

impl Exact for InfoFormat {
    ghost exact = { Prim.search rules };
}

impl Exact for Sockets {
    ghost exact = { Prim.search rules };
}

impl Exact for RawTimer {
    ghost exact = { Prim.search rules };
}
