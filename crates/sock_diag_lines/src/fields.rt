//! The fields of a line.

ghost use Rattle.std.specs.Prelude.{◌≡◌, ◌∷◌, [], length, IfOk, IsTrue, MatchBool};
ghost use Rattle.std.specs.Prelude.{MatchOption, MatchResult};
ghost use Rattle.std.specs.List.{slice_split};
ghost use Rattle.hex.specs.Hex.{decode_sized};
ghost use Rattle.sock_diag_lines.specs.HexField.{IsHexField, IsNoHexField, is_space};
ghost use Rattle.sock_diag_lines.specs.private.Text.{IsFirstSpace};

use memchr::memchr;
use std::alloc::AllocError;

/// Returns the offset of the first space, or `None` if there is none.
pub(crate) fn find_space(line: &[u8]) -> Option<usize>
    // `None`: the line, split at its spaces, is one field.
    ensures { MatchOption result (slice_split is_space line.now ≡ line.now ∷ [])
        (IsFirstSpace line.now) }
{
    memchr(b' ', line)
}

/// Parses a hex field, and replaces the content of `bytes` by its bytes. Returns whether it is a
/// hex field; if it is not, the content of `bytes` is not specified. Fails only if an allocation
/// fails.
#[tactic(auto, using(crate::proofs::FieldLists::empty_is_no_hex_field))]
pub(crate) fn read_field(bytes: &mut Vec<u8>, field: &[u8]) -> Result<bool, AllocError>
    ensures { IfOk result (λ is_field. MatchBool is_field (IsHexField field.now bytes.new.items)
        (IsNoHexField field.now)) }
{
    if field.is_empty() {
        return Ok(false);
    }
    if field == b"-".as_slice() {
        bytes.clear();
        return Ok(true);
    }
    // If the number of digits is odd, `decode` returns false.
    bytes.resize(field.len() / 2, 0)?;
    Ok(decode(field, bytes.as_mut_slice()))
}

/// Decodes hex digits into a buffer. Returns whether there are two hex digits for each byte of the
/// buffer. If not, the content of the buffer is not specified.
// Out of line: inlined, the loop takes more instructions, and up to a quarter more time.
#[inline(never)]
fn decode(digits: &[u8], bytes: &mut [u8]) -> bool
    // `decode_sized digits count`: the `count` bytes that the digits decode to, or an error.
    ensures { MatchResult (decode_sized digits.now (length bytes.old))
        (λ decoded. IsTrue result × (bytes.new ≡ decoded)) (λ error. ¬ IsTrue result) }
{
    hex::decode_to_slice(digits, bytes).is_ok()
}
