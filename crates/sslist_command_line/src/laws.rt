//! A property of `Choice`, which has no `Exact`: `clone` returns an equal value.

ghost use Rattle.std.specs.Prelude.{◌≡◌, IsOk, IfOk};

use crate::choice::Choice;
use std::alloc::AllocError;

/// Copies a choice by `clone`, which never fails and returns an equal value.
pub fn copied_choice<'a>(v: &Choice<'a>) -> Result<Choice<'a>, AllocError>
    ensures ok { IsOk result }
    ensures same { IfOk result (λ copy. copy ≡ v.now) }
{
    v.clone()
}
