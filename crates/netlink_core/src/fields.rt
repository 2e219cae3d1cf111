//! Reads the fields of a record from its bytes, and writes them.
//!
//! Each clause `in_range` holds for all Rust values; `in_range` of [`Emitable`](crate::Emitable)
//! says why it is stated.

ghost use Rattle.std.specs.Prelude.{◌≡◌, ◌≤◌, ◌<◌, ◌+◌, ◌*◌, ◌^◌, ℕ, length, slice_index};
ghost use Rattle.std.specs.List.{flat_map};
ghost use Rattle.byteorder.specs.Endian.{little_bytes, big_bytes};
ghost use Rattle.netlink_core.specs.Bytes.{AreAllBelow, IsBytes};
ghost use Rattle.netlink_core.specs.Table.{bytes_at, values_of};
ghost use Rattle.netlink_core.specs.Table.{u16_be_fields, u32_fields, u64_fields};

use byteorder::{BigEndian, ByteOrder, LittleEndian};

/// Returns the `N` bytes at the offset. There must be at least `offset + N` bytes.
pub fn array_at<const N: usize>(bytes: &[u8], offset: usize) -> [u8; N]
    requires { offset + N ≤ length bytes.now }
    ensures { result ≡ values_of (bytes_at offset N) bytes.now }
{
    let mut array = [0; N];
    array.copy_from_slice(&bytes[offset..offset + N]);
    array
}

/// Returns the `N` consecutive little-endian 32-bit numbers at the offset. There must be at least
/// `offset + 4 * N` bytes.
pub fn u32s_at<const N: usize>(bytes: &[u8], offset: usize) -> [u32; N]
    requires { offset + 4 * N ≤ length bytes.now }
    ensures { result ≡ values_of (u32_fields offset N) bytes.now }
{
    let mut numbers = [0; N];
    LittleEndian::read_u32_into(&bytes[offset..offset + 4 * N], &mut numbers);
    numbers
}

/// Returns the `N` consecutive little-endian 64-bit numbers at the offset. There must be at least
/// `offset + 8 * N` bytes.
pub fn u64s_at<const N: usize>(bytes: &[u8], offset: usize) -> [u64; N]
    requires { offset + 8 * N ≤ length bytes.now }
    ensures { result ≡ values_of (u64_fields offset N) bytes.now }
{
    let mut numbers = [0; N];
    LittleEndian::read_u64_into(&bytes[offset..offset + 8 * N], &mut numbers);
    numbers
}

/// Returns the `N` consecutive 16-bit numbers in network byte order at the offset. There must be at
/// least `offset + 2 * N` bytes.
pub fn u16s_be_at<const N: usize>(bytes: &[u8], offset: usize) -> [u16; N]
    requires { offset + 2 * N ≤ length bytes.now }
    ensures { result ≡ values_of (u16_be_fields offset N) bytes.now }
{
    let mut numbers = [0; N];
    BigEndian::read_u16_into(&bytes[offset..offset + 2 * N], &mut numbers);
    numbers
}

/// Replaces the content of the buffer by the bytes. The buffer must have exactly their length.
#[tactic(auto, using(crate::proofs::FieldReads::each_number_below))]
#[inline(always)]
pub fn write_bytes(bytes: &[u8], buffer: &mut [u8])
    requires { length buffer.old ≡ length bytes.now }
    ensures written { buffer.new ≡ bytes.now }
    ensures in_range { AreAllBelow (2 ^ 8) bytes.now }
    // The same by index.
    ensures by_index { IsBytes bytes.now }
{
    buffer.copy_from_slice(bytes);
}

/// Replaces the content of the buffer by the numbers, two bytes each, little-endian. The buffer
/// must have exactly their length.
#[tactic(auto, using(crate::proofs::FieldReads::each_number_below))]
#[inline(always)]
pub fn write_u16s(numbers: &[u16], buffer: &mut [u8])
    requires { length buffer.old ≡ 2 * length numbers.now }
    ensures written { buffer.new ≡ flat_map (little_bytes 2) numbers.now }
    ensures in_range { AreAllBelow (2 ^ 16) numbers.now }
{
    LittleEndian::write_u16_into(numbers, buffer);
}

/// Replaces the content of the buffer by the numbers, four bytes each, little-endian. The buffer
/// must have exactly their length.
#[tactic(auto, using(crate::proofs::FieldReads::each_number_below))]
#[inline(always)]
pub fn write_u32s(numbers: &[u32], buffer: &mut [u8])
    requires { length buffer.old ≡ 4 * length numbers.now }
    ensures written { buffer.new ≡ flat_map (little_bytes 4) numbers.now }
    ensures in_range { AreAllBelow (2 ^ 32) numbers.now }
{
    LittleEndian::write_u32_into(numbers, buffer);
}

/// Replaces the content of the buffer by the numbers, eight bytes each, little-endian. The buffer
/// must have exactly their length.
#[tactic(auto, using(crate::proofs::FieldReads::each_number_below))]
#[inline(always)]
pub fn write_u64s(numbers: &[u64], buffer: &mut [u8])
    requires { length buffer.old ≡ 8 * length numbers.now }
    ensures written { buffer.new ≡ flat_map (little_bytes 8) numbers.now }
    ensures in_range { AreAllBelow (2 ^ 64) numbers.now }
{
    LittleEndian::write_u64_into(numbers, buffer);
}

/// Replaces the content of the buffer by the numbers, two bytes each, in network byte order. The
/// buffer must have exactly their length.
#[tactic(auto, using(crate::proofs::FieldReads::each_number_below))]
#[inline(always)]
pub fn write_u16s_be(numbers: &[u16], buffer: &mut [u8])
    requires { length buffer.old ≡ 2 * length numbers.now }
    ensures written { buffer.new ≡ flat_map (big_bytes 2) numbers.now }
    ensures in_range { AreAllBelow (2 ^ 16) numbers.now }
    // The same by index, for proofs about one port of a socket id.
    ensures by_index { (index : ℕ) → slice_index numbers.now index < 2 ^ 16 }
{
    BigEndian::write_u16_into(numbers, buffer);
}
