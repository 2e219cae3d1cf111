//! Laws of the five records: their equivalence, stated on bytes, and their sizes.
//!
//! Two byte strings are equivalent if both are accepted and parse as equal values. In the contracts
//! `EqualUnder masks b c` says that `b` and `c` have the same bits under the masks, one for each
//! byte from the first on: 255 for a significant byte, 0 for an ignored one. `vfs_masks` are the
//! masks of a `Vfs`, and so on. Bytes after the last mask are not compared. The byte strings are
//! any lists `b` and `c` of numbers, so that each contract has the premise that these are bytes:
//! `IsBytes` says that each number of a list is below 256. The equivalence of a record is the
//! member `equivalent` of its codec, whose parameter is `tt`, since these records have none.
//!
//! Proof only: the contracts state the property.

ghost use Rattle.std.specs.Prelude.{◌≡◌, ◌↔◌, ◌≤◌, ◌*◌, ℕ, List, length};
ghost use Rattle.netlink_core.specs.Bytes.{IsBytes};
ghost use Rattle.netlink_core.specs.SignificantBits.{EqualUnder};
ghost use Rattle.sock_diag_values.specs.LegacyMemInfo.{legacy_mem_info};
ghost use Rattle.sock_diag_values.specs.MemInfo.{mem_info};
ghost use Rattle.sock_diag_values.specs.SignificantBits.{legacy_mem_info_masks, mem_info_masks};
ghost use Rattle.sock_diag_values.specs.SignificantBits.{tcp_info_masks, unix_mem_info_masks};
ghost use Rattle.sock_diag_values.specs.SignificantBits.{complete_u32s_in, vfs_masks};
ghost use Rattle.sock_diag_values.specs.TcpInfo.{tcp_info};
ghost use Rattle.sock_diag_values.specs.UnixMemInfo.{unix_mem_info};
ghost use Rattle.sock_diag_values.specs.Vfs.{vfs};

use crate::inet::{
    LEGACY_MEM_INFO_LEN, LegacyMemInfo, MEM_INFO_EIGHT_LEN, MEM_INFO_LEN, MEM_INFO_SEVEN_LEN,
    MemInfo, TCP_INFO_LEN, TcpInfo,
};
use crate::unix::{MEM_INFO_LEN as UNIX_MEM_INFO_LEN, MemInfo as UnixMemInfo, VFS_LEN, Vfs};
use netlink_core::HasCodec;

/// States that two byte strings are equivalent as [`Vfs`] if and only if both have at least 8
/// bytes, and their first 8 bytes are equal.
pub fn equivalent_vfs()
    ensures { (b c : List ℕ) → IsBytes b → IsBytes c → ⟦<Vfs as HasCodec>⟧.codec.equivalent tt b c
        ↔ ((VFS_LEN ≤ length b) × (VFS_LEN ≤ length c) × EqualUnder vfs_masks b c) }
{}

/// States that two byte strings are equivalent as [`UnixMemInfo`] if and only if both have at least
/// 36 bytes, and their `u32` fields at offsets 4, 12 and 20 are equal. The other bytes are ignored.
pub fn equivalent_unix_mem_infos()
    ensures { (b c : List ℕ) → IsBytes b → IsBytes c
        → ⟦<UnixMemInfo as HasCodec>⟧.codec.equivalent tt b c
        ↔ ((UNIX_MEM_INFO_LEN ≤ length b) × (UNIX_MEM_INFO_LEN ≤ length c)
        × EqualUnder unix_mem_info_masks b c) }
{}

/// States that two byte strings are equivalent as [`LegacyMemInfo`] if and only if both have at
/// least 16 bytes, and their first 16 bytes are equal.
pub fn equivalent_legacy_mem_infos()
    ensures { (b c : List ℕ) → IsBytes b → IsBytes c
        → ⟦<LegacyMemInfo as HasCodec>⟧.codec.equivalent tt b c
        ↔ ((LEGACY_MEM_INFO_LEN ≤ length b) × (LEGACY_MEM_INFO_LEN ≤ length c)
        × EqualUnder legacy_mem_info_masks b c) }
{}

/// States that two byte strings are equivalent as [`MemInfo`] if and only if both have at least 28
/// bytes, both contain the same number of complete `u32` fields (`complete_u32s_in`: seven, eight
/// or nine; more are not counted), and these fields are equal.
pub fn equivalent_mem_infos()
    ensures { (b c : List ℕ) → IsBytes b → IsBytes c
        → ⟦<MemInfo as HasCodec>⟧.codec.equivalent tt b c
        ↔ ((MEM_INFO_SEVEN_LEN ≤ length b) × (MEM_INFO_SEVEN_LEN ≤ length c)
        × (complete_u32s_in b ≡ complete_u32s_in c)
        × EqualUnder (mem_info_masks (complete_u32s_in b)) b c) }
{}

/// States that two byte strings are equivalent as [`TcpInfo`] if and only if both have at least 232
/// bytes, and their first 232 bytes are equal.
pub fn equivalent_tcp_infos()
    ensures { (b c : List ℕ) → IsBytes b → IsBytes c
        → ⟦<TcpInfo as HasCodec>⟧.codec.equivalent tt b c
        ↔ ((TCP_INFO_LEN ≤ length b) × (TCP_INFO_LEN ≤ length c)
        × EqualUnder tcp_info_masks b c) }
{}

/// States that each constant is the fewest bytes that its record is parsed from (`least` of its
/// layout). For [`MemInfo`] this is `MEM_INFO_SEVEN_LEN`, the 28 bytes of seven `u32`. Its other
/// two constants are the number of bytes of eight and of nine `u32`, of four bytes each.
#[tactic(auto, unfolding(crate::specs::TcpInfo::tcp_info))]
pub fn sizes_are_those_of_layouts()
    ensures legacy_mem_info { LEGACY_MEM_INFO_LEN ≡ legacy_mem_info.least }
    ensures tcp_info { TCP_INFO_LEN ≡ tcp_info.least }
    ensures unix_mem_info { UNIX_MEM_INFO_LEN ≡ unix_mem_info.least }
    ensures vfs { VFS_LEN ≡ vfs.least }
    ensures seven { MEM_INFO_SEVEN_LEN ≡ mem_info.least }
    ensures eight { MEM_INFO_EIGHT_LEN ≡ 4 * 8 }
    ensures nine { MEM_INFO_LEN ≡ 4 * 9 }
{}
