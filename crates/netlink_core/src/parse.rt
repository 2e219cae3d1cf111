//! Numbers and texts that take all of their bytes.

ghost use Rattle.std.specs.Prelude.{◌≡◌, ◌≢◌, ◌≤◌, ◌++◌, length, drop, string_bytes, None, IsOk};
ghost use Rattle.std.specs.Prelude.{IfOk, IfErr};
ghost use Rattle.byteorder.specs.Endian.{little_bytes};
ghost use Rattle.netlink_core.specs.declared.error.DecodeError.TheVariants.{Memory};
ghost use Rattle.netlink_core.specs.Parse.{number_of_width, without_terminating_nul, parse_text};

use crate::error::DecodeError;
use byteorder::{ByteOrder, LittleEndian};
use std::alloc::Global;
use std::str;

/// Parses a number of exactly one byte. Any other length is `WrongLength` without a kind, with the
/// number of bytes and the 1 that is needed.
pub fn parse_u8(payload: &[u8]) -> Result<u8, DecodeError>
    ensures { result ≡ number_of_width None 1 payload.now }
{
    match payload {
        [byte] => Ok(*byte),
        _ => Err(wrong_length(payload, 1)),
    }
}

/// Parses a little-endian number of exactly four bytes. Any other length is `WrongLength` without a
/// kind, with the number of bytes and the 4 that are needed.
pub fn parse_u32(payload: &[u8]) -> Result<u32, DecodeError>
    ensures { result ≡ number_of_width None 4 payload.now }
{
    if payload.len() != 4 {
        return Err(wrong_length(payload, 4));
    }
    Ok(LittleEndian::read_u32(payload))
}

// Returns the error for a value that does not have the `need` bytes that it needs: `WrongLength`
// without a kind (`None`), with the length of the value and with `need`.
fn wrong_length(payload: &[u8], need: usize) -> DecodeError
    ensures { result ≡ DecodeError.WrongLength None (length payload.now) need }
{
    DecodeError::WrongLength {
        kind: None,
        got: payload.len(),
        need,
    }
}

/// Returns the text in the bytes, without one terminating NUL if there is one.
///
/// Fails with `NotUtf8` if this is not valid UTF-8, and with `Memory` only if the bytes are a text.
pub fn parse_string(alloc: Global, payload: &[u8]) -> Result<String, DecodeError>
    ensures value { IfOk result (λ text. parse_text payload.now ≡ Ok (string_bytes text)) }
    ensures error { IfErr result (λ e. e ≢ Memory → parse_text payload.now ≡ Err e) }
    ensures memory { IfErr result (λ e. e ≡ Memory → IsOk (parse_text payload.now)) }
{
    Ok(String::from_str(alloc, parse_str(payload)?)?)
}

/// Returns the text in the bytes, borrowed, without one terminating NUL if there is one. Fails with
/// `NotUtf8` if this is not valid UTF-8.
#[tactic(auto, using(crate::proofs::Texts::utf8_text_rules))]
#[inline(always)]
pub fn parse_str(payload: &[u8]) -> Result<&str, DecodeError>
    ensures value { IfOk result (λ text. parse_text payload.entry.now ≡ Ok text.now) }
    ensures error { IfErr result (λ e. parse_text payload.entry.now ≡ Err e) }
{
    match str::from_utf8(text_bytes(payload)) {
        Ok(text) => Ok(text),
        Err(_) => Err(DecodeError::NotUtf8),
    }
}

/// Returns the bytes without one terminating NUL, if there is one.
pub fn text_bytes(payload: &[u8]) -> &[u8]
    ensures { result.now ≡ without_terminating_nul payload.entry.now }
{
    match payload.split_last() {
        Some((last, text)) => if *last == 0 { text } else { payload },
        None => payload,
    }
}

/// Writes the number, little-endian, to the first four bytes of the buffer. The bytes after them
/// are unchanged. The buffer must have at least four bytes.
pub fn emit_u32(buffer: &mut [u8], value: u32)
    requires { 4 ≤ length buffer.old }
    ensures { buffer.new ≡ little_bytes 4 value ++ drop 4 buffer.old }
{
    LittleEndian::write_u32(buffer, value);
}
