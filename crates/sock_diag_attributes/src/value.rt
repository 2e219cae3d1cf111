//! The value of an attribute, whatever its kind.

ghost use Rattle.std.specs.Prelude.{◌≡◌, ◌≤◌, length};
ghost use Rattle.sock_diag_attributes.specs.private.Value.{value_bytes, IsValueInRange};
ghost use Rattle.netlink_core.specs.Bytes.{HoldsAtStart};

use crate::numbers::{emit_numbers, emit_u32_pair};
use crate::text::emit_text;
use crate::unix::nlas::NameView;
use netlink_core::fields::write_bytes;
use netlink_core::{Emitable, emit_u32};
use sock_diag_values::inet::{LegacyMemInfo, MemInfo, TcpInfo};
use sock_diag_values::unix::{MemInfo as UnixMemInfo, Vfs};

/// The value of an attribute, borrowed. Numbers are serialized little-endian, a text with a
/// terminating NUL, a name with its zero, a record by its layout, and `Bytes` unchanged.
#[derive(Drop)]
pub(crate) enum Value<'a> {
    U8(u8),
    U32(u32),
    U32Pair(u32, u32),
    Numbers(&'a [u32]),
    Text(&'a str),
    Name(NameView<'a>),
    LegacyMemInfo(&'a LegacyMemInfo),
    TcpInfo(&'a TcpInfo),
    MemInfo(&'a MemInfo),
    UnixMemInfo(&'a UnixMemInfo),
    Vfs(&'a Vfs),
    Bytes(&'a [u8]),
}

impl Value<'_> {
    /// Returns the number of bytes that the value serializes to (`value_bytes`), without a header
    /// and padding.
    #[inline(always)]
    #[tactic(auto, using(crate::specs::laws::Number::length_numbers))]
    pub(crate) fn len(&self) -> usize
        ensures { result ≡ length (value_bytes self.now) }
    {
        match self {
            Value::U8(_) => 1,
            Value::U32(_) => 4,
            Value::U32Pair(..) => 8,
            Value::Numbers(numbers) => 4 * numbers.len(),
            // The text and its terminating NUL.
            Value::Text(text) => text.len() + 1,
            Value::Name(name) => name.len(),
            Value::LegacyMemInfo(info) => info.buffer_len(),
            Value::TcpInfo(info) => info.buffer_len(),
            Value::MemInfo(info) => info.buffer_len(),
            Value::UnixMemInfo(info) => info.buffer_len(),
            Value::Vfs(vfs) => vfs.buffer_len(),
            Value::Bytes(bytes) => bytes.len(),
        }
    }

    /// Writes the bytes that the value serializes to at the start of `buffer`, which has to be long
    /// enough. The bytes after them are unchanged.
    #[inline(always)]
    pub(crate) fn emit(&self, buffer: &mut [u8])
        requires { length (value_bytes self.now) ≤ length buffer.old }
        ensures written { HoldsAtStart (value_bytes self.now) buffer.old buffer.new }
        // Each number fits its type, as in each Rust value; this is stated for the codec laws.
        ensures in_range { IsValueInRange self.now }
    {
        match self {
            Value::U8(number) => buffer[0] = *number,
            Value::U32(number) => emit_u32(buffer, *number),
            Value::U32Pair(first, second) => emit_u32_pair(*first, *second, buffer),
            Value::Numbers(numbers) => emit_numbers(numbers, buffer),
            Value::Text(text) => emit_text(text, buffer),
            Value::Name(name) => name.emit_name(buffer),
            Value::LegacyMemInfo(info) => info.emit(buffer),
            Value::TcpInfo(info) => info.emit(buffer),
            Value::MemInfo(info) => info.emit(buffer),
            Value::UnixMemInfo(info) => info.emit(buffer),
            Value::Vfs(vfs) => vfs.emit(buffer),
            Value::Bytes(bytes) => write_bytes(bytes, &mut buffer[..bytes.len()]),
        }
    }
}
