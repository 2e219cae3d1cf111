//! Values of attributes that are known to be accepted: they are read without another test. The
//! parameter `KIND` is the kind of the attribute, which only the contracts use.

ghost use Rattle.std.specs.Prelude.{◌≡◌, Ok, IsOk, Some};
ghost use Rattle.netlink_core.specs.Layout.{parse_record};
ghost use Rattle.netlink_core.specs.Parse.{number_of_width, parse_text};
ghost use Rattle.sock_diag_attributes.specs.Numbers.{parse_number_pair};

use byteorder::{ByteOrder, LittleEndian};
use netlink_core::{Record, text_bytes};

/// Returns the number in one byte. Requires that the value has exactly one byte.
#[inline(always)]
pub(crate) fn accepted_u8<const KIND: u16>(value: &[u8]) -> u8
    requires { IsOk (number_of_width (Some KIND) 1 value.now) }
    ensures { number_of_width (Some KIND) 1 value.now ≡ Ok result }
{
    value[0]
}

/// Returns the little-endian number in four bytes. Requires that the value has exactly four bytes.
#[inline(always)]
pub(crate) fn accepted_u32<const KIND: u16>(value: &[u8]) -> u32
    requires { IsOk (number_of_width (Some KIND) 4 value.now) }
    ensures { number_of_width (Some KIND) 4 value.now ≡ Ok result }
{
    LittleEndian::read_u32(value)
}

/// Returns the two little-endian numbers in eight bytes. Requires that the value has exactly eight
/// bytes.
#[inline(always)]
pub(crate) fn accepted_u32_pair<const KIND: u16>(value: &[u8]) -> (u32, u32)
    requires { IsOk (parse_number_pair KIND value.now) }
    ensures { parse_number_pair KIND value.now ≡ Ok result }
{
    let (first, second) = value.split_at(4);
    (
        LittleEndian::read_u32(first),
        LittleEndian::read_u32(second),
    )
}

/// Returns the record at the start of the bytes. Requires that its parser accepts the bytes: that
/// there are enough for the record, and that the record has no other error.
#[inline(always)]
#[tactic(auto, using(netlink_core::proofs::LayoutLaws::parsed_by_fields))]
pub(crate) fn accepted_record<T: Record<Param = ()>>(bytes: &[u8]) -> T
    requires { IsOk (parse_record T.layout tt bytes.now) }
    ensures { parse_record T.layout tt bytes.now ≡ Ok result }
{
    match T::from_fields(bytes, ()) {
        Ok(record) => record,
        Err(_) => unreachable!(),
    }
}

/// Returns the text in the bytes, without one terminating NUL if there is one. Requires that the
/// text is valid UTF-8.
#[inline(always)]
#[tactic(auto, using(netlink_core::proofs::Texts::text_is_valid_utf8))]
pub(crate) fn accepted_str(bytes: &[u8]) -> &str
    requires { IsOk (parse_text bytes.now) }
    ensures { parse_text bytes.entry.now ≡ Ok result.now }
{
    // It is proved that the text is valid UTF-8.
    unsafe { str::from_utf8_unchecked(text_bytes(bytes)) }
}
