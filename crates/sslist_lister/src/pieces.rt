//! Attributes of requests, and nested attributes. In the contracts, `pieces_in bytes` is each
//! attribute in the bytes, and then the framing error, if there is one.

ghost use Rattle.std.specs.Prelude.{◌≡◌, ◌≤◌, option_map};
ghost use Rattle.netlink_core.specs.Walk.{buffered_attribute};
ghost use Rattle.sock_diag_any.specs.Pieces.{YieldsFirstPiece, first_of_kind, pieces_in};
ghost use Rattle.sock_diag_any.specs.Pieces.{last_of_kind};
ghost use Rattle.sslist_lister.specs.Pieces.{nested_number, nested_value};

use byteorder::{ByteOrder, LittleEndian};
use netlink_core::{DecodeError, NlaBuffer, NlasIterator};

/// Returns the next attribute, or the error of the remaining bytes. Returns `None` at the end, and
/// after an error.
#[tactic(auto, using(sock_diag_any::proofs::PieceWalk::iterator_step_rules))]
fn next_piece<'a>(walk: &mut NlasIterator<'a>) -> Option<Result<NlaBuffer<'a>, DecodeError>>
    ensures { YieldsFirstPiece walk.old result walk.new }
{
    walk.next()
}

/// Returns the first attribute of this kind. Returns `None` if there is none before the end, or
/// before bytes that are not an attribute.
fn find_kind<'a>(bytes: &'a [u8], kind: u16) -> Option<NlaBuffer<'a>>
    ensures { option_map buffered_attribute result
        ≡ first_of_kind kind (pieces_in bytes.entry.now) }
{
    let mut walk = NlasIterator::new(bytes);
    while let Some(piece) = next_piece(&mut walk) {
        match piece {
            Ok(nla) if nla.kind() == kind => return Some(nla),
            _ => {}
        }
    }
    None
}

/// Returns the last attribute of this kind. Returns `None` if there is none before the end, or
/// before bytes that are not an attribute.
pub(crate) fn find_last_of_kind<'a>(bytes: &'a [u8], kind: u16) -> Option<NlaBuffer<'a>>
    ensures { option_map buffered_attribute result
        ≡ last_of_kind kind (pieces_in bytes.entry.now) }
{
    let mut walk = NlasIterator::new(bytes);
    let mut last = None;
    while let Some(piece) = next_piece(&mut walk) {
        match piece {
            Ok(nla) if nla.kind() == kind => last = Some(nla),
            _ => {}
        }
    }
    last
}

/// Returns the little-endian number of `width` bytes in the first attribute of this kind. Returns
/// `None` if there is no such attribute, or if its value has another length.
pub(crate) fn find_number(bytes: &[u8], kind: u16, width: usize) -> Option<u64>
    // `read_uint` reads one to eight bytes.
    requires one { 1 ≤ width }
    requires eight { width ≤ 8 }
    ensures { result ≡ nested_number (kind, width) bytes.now }
{
    match find_value(bytes, kind) {
        Some(value) if value.len() == width => Some(LittleEndian::read_uint(value, width)),
        _ => None,
    }
}

/// Returns the value of the first attribute of this kind in the bytes, if there is one.
pub(crate) fn find_value<'a>(bytes: &'a [u8], kind: u16) -> Option<&'a [u8]>
    ensures { option_map (λ value. value.now) result ≡ nested_value kind bytes.entry.now }
{
    match find_kind(bytes, kind) {
        Some(nla) => Some(nla.value()),
        None => None,
    }
}
