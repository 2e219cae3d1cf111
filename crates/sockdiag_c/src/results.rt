//! Return values of the functions for C: 0 or a positive code. The codes of decode errors, 2 to 18,
//! are those of `DecodeError`; the others are here.

ghost use Rattle.std.specs.Prelude.{◌≡◌, MatchResult, None, length};
ghost use Rattle.netlink_core.specs.Errors.{error_code};
ghost use Rattle.sockdiag_c.specs.Answers.{IsGetterResult, padded_or_truncated};

use netlink_core::DecodeError;

/// The call has succeeded.
pub(crate) const OK: u32 = 0;

/// An iterator has stored an item.
pub(crate) const ITEM: u32 = 100;

/// An iterator is at the end, or the reply lacks the value that the call copies, or has one of
/// length 0.
pub(crate) const END: u32 = 101;

/// The buffer is shorter than the message, whose length is stored.
pub(crate) const NO_SPACE: u32 = 102;

/// A message or an attribute is too long for its length field.
pub(crate) const TOO_LONG: u32 = 103;

/// The size of a struct is below that of version 1.0, or the argument `what` is unknown.
pub(crate) const INVALID_ARGUMENT: u32 = 104;

/// No filter begins with the text up to and including a word, and one begins with the words before
/// it.
pub(crate) const FILTER_UNEXPECTED: u32 = 105;

/// The text ends before the end of the filter.
pub(crate) const FILTER_INCOMPLETE: u32 = 106;

/// With a word the filter has more than 256 conditions, operators and open groups.
pub(crate) const FILTER_TOO_LONG: u32 = 107;

/// Stores the parsed value in the target, and returns 0. If it was rejected, returns the code of
/// the error; then the target is unchanged.
pub(crate) fn store_parsed<T: Copy>(parsed: Result<T, DecodeError>, target: &mut T) -> u32
    ensures { MatchResult parsed (λ found. (result ≡ 0) × (target.new ≡ found))
        (λ e. (result ≡ error_code e) × (target.new ≡ target.old)) }
{
    match parsed {
        Ok(found) => {
            *target = found;
            OK
        }
        Err(error) => u32::from(error.number()),
    }
}

/// Stores the value, and returns 0. If there is none, since its `got` bytes are fewer than the
/// `need` bytes that it needs, returns the code of `WrongLength`; then the target is unchanged.
pub(crate) fn store<T: Copy>(found: Option<T>, got: usize, need: usize, target: &mut T) -> u32
    ensures { IsGetterResult found
        record { old = target.old; new = target.new; returned = result } }
{
    match found {
        Some(item) => {
            *target = item;
            OK
        }
        None => u32::from(wrong_length(got, need).number()),
    }
}

/// Returns the error of `got` bytes in place of the `need` bytes of a value.
pub(crate) fn wrong_length(got: usize, need: usize) -> DecodeError
    ensures { result ≡ DecodeError.WrongLength None got need }
{
    DecodeError::WrongLength {
        kind: None,
        got,
        need,
    }
}

/// Copies the bytes to the target, as many as fit, and fills the rest of it with zeros.
#[inline(always)]
pub(crate) fn copy_padded(bytes: &[u8], target: &mut [u8])
    ensures { target.new ≡ padded_or_truncated (length target.old) bytes.now }
{
    // `fill` of no bytes is a call of memset.
    if target.is_empty() {
        return;
    }
    let len = bytes.len().min(target.len());
    let (copied, zeros) = target.split_at_mut(len);
    copied.copy_from_slice(&bytes[..len]);
    zeros.fill(0);
}
