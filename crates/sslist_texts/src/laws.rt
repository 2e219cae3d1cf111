//! A property of `Cells`, which has no `Exact`: `clone` returns an equal value.

ghost use Rattle.std.specs.Prelude.{◌≡◌, IsOk, IfOk};

use crate::cells::Cells;
use std::alloc::AllocError;

/// Copies cells by `clone`, which never fails and returns an equal value.
pub fn copied_cells(v: &Cells) -> Result<Cells, AllocError>
    ensures ok { IsOk result }
    ensures same { IfOk result (λ copy. copy ≡ v.now) }
{
    v.clone()
}
