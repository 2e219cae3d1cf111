//! Properties of the text of an error: `clone`.

ghost use Rattle.std.specs.Prelude.{◌≡◌, IsOk, IfOk};

use crate::error_text::ErrorText;
use std::alloc::AllocError;

/// Returns a clone of an error's text. `clone` never fails, and returns an equal value.
pub fn copied_error_text(text: &ErrorText) -> Result<ErrorText, AllocError>
    ensures ok { IsOk result }
    ensures same { IfOk result (λ copy. copy ≡ text.now) }
{
    text.clone()
}
