//! Values of single attributes that the structs of a reply lack. `sockdiag_next_attribute` returns
//! them.

ghost use Rattle.std.specs.Prelude.{◌≡◌, ◌≢◌, ◌+◌, ◌≤◌, [], MatchOption, MatchResult, length};
ghost use Rattle.byteorder.specs.Endian.{little_number};
ghost use Rattle.sock_diag_extras.specs.Congestion.{bbr_info, dctcp_info, vegas_info};
ghost use Rattle.sock_diag_extras.specs.FilterInstruction.{filter_instruction};
ghost use Rattle.sock_diag_extras.specs.Md5Signature.{md5_signature};
ghost use Rattle.sock_diag_extras.specs.PacketMembership.{packet_membership};
ghost use Rattle.sock_diag_extras.specs.RecordTable.{parse_by_table};
ghost use Rattle.sock_diag_extras.specs.StoredAddress.{stored_address};
ghost use Rattle.sockdiag_c.specs.Answers.{IsStoredIf};
ghost use Rattle.sockdiag_c.specs.AttributeValues.{IsIncompleteItem, IsNumberWidth, StepsOverItem};
ghost use Rattle.sockdiag_c.specs.Walks.{bytes_after_cursor};

use crate::results::{END, ITEM, OK, store, wrong_length};
use crate::walks::{Cursor, bytes_from};
use byteorder::{ByteOrder, LittleEndian};
use netlink_core::DecodeError;
use sock_diag_extras::{
    AttributeRecord, BbrInfo, DctcpInfo, FilterInstruction, Md5Signature, PacketMembership,
    StoredAddress, VegasInfo, read_attribute_record,
};

const _: () = prove!(std::mem::size_of::<VegasInfo>() == 16);

const _: () = prove!(std::mem::size_of::<DctcpInfo>() == 16);

const _: () = prove!(std::mem::size_of::<BbrInfo>() == 24);

const _: () = prove!(std::mem::size_of::<Md5Signature>() == 100);

const _: () = prove!(std::mem::size_of::<StoredAddress>() == 128);

const _: () = prove!(std::mem::size_of::<PacketMembership>() == 44);

const _: () = prove!(std::mem::size_of::<FilterInstruction>() == 8);

/// Stores a number, the value of an attribute: little-endian, of 1, 2, 4 or 8 bytes. Another length
/// is `SOCKDIAG_WRONG_LENGTH`.
#[unsafe(no_mangle)]
pub extern "C" fn sockdiag_get_number(value: &[u8], number: &mut u64) -> u32
    ensures { IsStoredIf (IsNumberWidth (length value.now))
        (little_number (length value.now) value.now)
        record { old = number.old; new = number.new; returned = result } }
{
    match value.len() {
        1 | 2 | 4 | 8 => {
            *number = LittleEndian::read_uint(value, value.len());
            OK
        }
        len => u32::from(wrong_length(len, 8).number()),
    }
}

/// Stores the measurements of TCP Vegas and of similar algorithms: the value of
/// `INET_DIAG_VEGASINFO`. If it has fewer than 16 bytes, the error is `SOCKDIAG_WRONG_LENGTH`.
#[unsafe(no_mangle)]
pub extern "C" fn sockdiag_get_vegas_info(value: &[u8], info: &mut VegasInfo) -> u32
    ensures { IsStoredIf (vegas_info.size ≤ length value.now)
        (parse_by_table vegas_info value.now)
        record { old = info.old; new = info.new; returned = result } }
{
    store_record(value, info)
}

/// Stores the measurements of DCTCP: the value of `INET_DIAG_DCTCPINFO`. If it has fewer than 16
/// bytes, the error is `SOCKDIAG_WRONG_LENGTH`.
#[unsafe(no_mangle)]
pub extern "C" fn sockdiag_get_dctcp_info(value: &[u8], info: &mut DctcpInfo) -> u32
    ensures { IsStoredIf (dctcp_info.size ≤ length value.now)
        (parse_by_table dctcp_info value.now)
        record { old = info.old; new = info.new; returned = result } }
{
    store_record(value, info)
}

/// Stores the measurements of BBR: the value of `INET_DIAG_BBRINFO`. If it has fewer than 20 bytes,
/// the error is `SOCKDIAG_WRONG_LENGTH`.
#[unsafe(no_mangle)]
pub extern "C" fn sockdiag_get_bbr_info(value: &[u8], info: &mut BbrInfo) -> u32
    ensures { IsStoredIf (bbr_info.size ≤ length value.now)
        (parse_by_table bbr_info value.now)
        record { old = info.old; new = info.new; returned = result } }
{
    store_record(value, info)
}

/// Iterates over the MD5 signature keys, of 100 bytes each, in the value of `INET_DIAG_MD5SIG`. The
/// kernel sends keys only to processes with `CAP_NET_ADMIN`.
#[unsafe(no_mangle)]
pub extern "C" fn sockdiag_next_md5_signature(
    value: &[u8],
    cursor: &mut Cursor,
    signature: &mut Md5Signature,
) -> u32
    ensures { StepsOverItem md5_signature.size (parse_by_table md5_signature) record {
      bytes = value.now;
      old_cursor = cursor.old;
      new_cursor = cursor.new;
      old_item = signature.old;
      new_item = signature.new;
      returned = result;
    } }
{
    next_record(value, cursor, signature)
}

/// Iterates over the addresses of an SCTP association, of 128 bytes each, in the value of
/// `INET_DIAG_LOCALS` or `INET_DIAG_PEERS`.
#[unsafe(no_mangle)]
pub extern "C" fn sockdiag_next_address(
    value: &[u8],
    cursor: &mut Cursor,
    address: &mut StoredAddress,
) -> u32
    ensures { StepsOverItem stored_address.size (parse_by_table stored_address) record {
      bytes = value.now;
      old_cursor = cursor.old;
      new_cursor = cursor.new;
      old_item = address.old;
      new_item = address.new;
      returned = result;
    } }
{
    next_record(value, cursor, address)
}

/// Iterates over the inodes, of 4 bytes each, in the value of `UNIX_DIAG_ICONS`: of the sockets
/// that connected to a UNIX socket, and were not yet accepted; 0 for one that was closed since.
#[unsafe(no_mangle)]
pub extern "C" fn sockdiag_next_pending(value: &[u8], cursor: &mut Cursor, inode: &mut u32) -> u32
    ensures { StepsOverItem 4 (little_number 4) record {
      bytes = value.now;
      old_cursor = cursor.old;
      new_cursor = cursor.new;
      old_item = inode.old;
      new_item = inode.new;
      returned = result;
    } }
{
    match take_bytes(value, cursor, 4) {
        Some(Ok(bytes)) => {
            *inode = LittleEndian::read_u32(bytes);
            ITEM
        }
        Some(Err(error)) => u32::from(error.number()),
        None => END,
    }
}

/// Iterates over the memberships of a packet socket, of 44 bytes each, in the value of
/// `PACKET_DIAG_MCLIST`, the field `memberships` of its details.
#[unsafe(no_mangle)]
pub extern "C" fn sockdiag_next_membership(
    value: &[u8],
    cursor: &mut Cursor,
    membership: &mut PacketMembership,
) -> u32
    ensures { StepsOverItem packet_membership.size (parse_by_table packet_membership) record {
      bytes = value.now;
      old_cursor = cursor.old;
      new_cursor = cursor.new;
      old_item = membership.old;
      new_item = membership.new;
      returned = result;
    } }
{
    next_record(value, cursor, membership)
}

/// Iterates over the instructions of the filter of a packet socket, of 8 bytes each, in the value
/// of `PACKET_DIAG_FILTER`, the field `filter` of its details.
#[unsafe(no_mangle)]
pub extern "C" fn sockdiag_next_instruction(
    value: &[u8],
    cursor: &mut Cursor,
    instruction: &mut FilterInstruction,
) -> u32
    ensures { StepsOverItem filter_instruction.size (parse_by_table filter_instruction) record {
      bytes = value.now;
      old_cursor = cursor.old;
      new_cursor = cursor.new;
      old_item = instruction.old;
      new_item = instruction.new;
      returned = result;
    } }
{
    next_record(value, cursor, instruction)
}

// Stores the record at the start of the value, and returns 0. If the value is shorter, returns the
// code of `WrongLength`; then the record is unchanged.
fn store_record<T: AttributeRecord + Copy>(value: &[u8], found: &mut T) -> u32
    ensures { IsStoredIf (T.layout.size ≤ length value.now) (parse_by_table T.layout value.now)
        record { old = found.old; new = found.new; returned = result } }
{
    store(read_attribute_record(value), value.len(), T::size(), found)
}

// Stores the record at the cursor, and advances the cursor past it. Returns what an iterator does.
fn next_record<T: AttributeRecord + Copy>(value: &[u8], cursor: &mut Cursor, found: &mut T) -> u32
    ensures { StepsOverItem T.layout.size (parse_by_table T.layout) record {
      bytes = value.now;
      old_cursor = cursor.old;
      new_cursor = cursor.new;
      old_item = found.old;
      new_item = found.new;
      returned = result;
    } }
{
    match take_bytes(value, cursor, T::size()) {
        Some(Ok(bytes)) => {
            *found = T::from_fields(bytes);
            ITEM
        }
        Some(Err(error)) => u32::from(error.number()),
        None => END,
    }
}

// Returns all bytes from the cursor on, and advances the cursor by `size` bytes. Returns `None` if
// no bytes are left. Fewer than `size` bytes are an error, after which no bytes are left.
fn take_bytes<'a>(
    value: &'a [u8],
    cursor: &mut Cursor,
    size: usize,
) -> Option<Result<&'a [u8], DecodeError>>
    ensures { let left = bytes_after_cursor value.entry.now cursor.old in
        MatchOption result ((left ≡ []) × (cursor.new ≡ cursor.old))
        (λ taken. (left ≢ []) × MatchResult taken
        (λ bytes. (bytes.now ≡ left) × (size ≤ length left)
        × (cursor.new.offset ≡ cursor.old.offset + size))
        (λ e. IsIncompleteItem size left e
        × (bytes_after_cursor value.entry.now cursor.new ≡ []))) }
{
    let left = bytes_from(value, cursor.offset);
    if left.is_empty() {
        return None;
    }
    if left.len() < size {
        cursor.offset = value.len();
        return Some(Err(wrong_length(left.len(), size)));
    }
    cursor.offset = cursor.offset + size;
    Some(Ok(left))
}
