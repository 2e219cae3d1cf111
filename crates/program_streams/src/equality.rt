//! Proof only: `==` and `clone` of errors compare and copy the whole value.

ghost use Rattle.std.proofs.Common.{rules};

use crate::lines::RunError;
use crate::streams::{ReadError, WriteError};
use exact_values::Exact;

impl Exact for ReadError {
    ghost exact = { Prim.search rules };
}

impl Exact for WriteError {
    ghost exact = { Prim.search rules };
}

impl Exact for RunError {
    ghost exact = { Prim.search rules };
}
