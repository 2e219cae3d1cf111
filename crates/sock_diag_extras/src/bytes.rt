//! Suffixes of bytes, and numbers in them.

ghost use Rattle.std.specs.Prelude.{◌≡◌, ◌≤◌, drop, length, SomeIff};
ghost use Rattle.sock_diag_extras.specs.Spans.{end_of_span, number_in_span};

use byteorder::{ByteOrder, LittleEndian};

/// Returns the bytes after the first `count` bytes, or no bytes if there are fewer than `count`.
pub(crate) fn suffix_from(bytes: &[u8], count: usize) -> &[u8]
    ensures { result.now ≡ drop count bytes.entry.now }
{
    if bytes.len() < count {
        return &[];
    }
    &bytes[count..]
}

/// Returns the little-endian number of `width` bytes at the offset. `width` must be 1 to 8. Returns
/// `None` if the bytes end before the end of the number.
pub(crate) fn number_at(bytes: &[u8], offset: usize, width: usize) -> Option<u64>
    requires one { 1 ≤ width }
    requires eight { width ≤ 8 }
    ensures { SomeIff result (end_of_span (offset, width) ≤ length bytes.now)
        (number_in_span (offset, width) bytes.now) }
{
    let number = bytes.get(offset..)?;
    if number.len() < width {
        return None;
    }
    Some(LittleEndian::read_uint(number, width))
}
