//! Texts that make up the complete value of an attribute.

ghost use Rattle.std.specs.Prelude.{◌≤◌, [], ◌∷◌, ◌++◌, length, IsUtf8};
ghost use Rattle.netlink_core.specs.Bytes.{HoldsAtStart, IsBytes};

/// Writes the text and a terminating NUL at the start of `buffer`, which has to be long enough. The
/// bytes after them are unchanged.
pub(crate) fn emit_text(text: &str, buffer: &mut [u8])
    requires { length (text.now ++ 0 ∷ []) ≤ length buffer.old }
    ensures written { HoldsAtStart (text.now ++ 0 ∷ []) buffer.old buffer.new }
    // The text is valid UTF-8, and each byte is below 256. So it is for each `str`; this is stated
    // for the codec laws.
    ensures in_range { IsUtf8 text.now × IsBytes text.now }
{
    buffer[..text.len()].copy_from_slice(text.as_bytes());
    buffer[text.len()] = 0;
}
