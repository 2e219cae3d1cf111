//! Proof only: `==` and `clone` of parts of the command line compare and copy the whole value.
//! [`Exact`] says what the parts of each proof `exact` state.

ghost use Rattle.std.proofs.Common.{rules};

use crate::choice::Rejection;
use crate::options::{Detail, Family};
use exact_values::Exact;

impl Exact for Detail {
    ghost exact = { Prim.search rules };
}

impl Exact for Family {
    ghost exact = { Prim.search rules };
}

impl Exact for Rejection {
    ghost exact = { Prim.search rules };
}
