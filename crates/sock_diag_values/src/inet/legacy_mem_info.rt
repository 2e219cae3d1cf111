//! The value of `INET_DIAG_MEMINFO`: the memory of a socket in the format of old kernels.

ghost use Rattle.std.specs.Prelude.{◌≡◌, refl};
ghost use Rattle.std.proofs.Common.{rules};
ghost use Rattle.netlink_core.specs.Layout.{parse_record};
ghost use Rattle.netlink_core.proofs.LayoutLaws.{record_laws};
ghost use Rattle.sock_diag_values.specs.LegacyMemInfo.{legacy_mem_info};
ghost use Rattle.sock_diag_values.specs.laws.PlainLayouts.{legacy_mem_info_sound};

use netlink_core::fields::{u32s_at, write_u32s};
use netlink_core::{DecodeError, Exact, Fills, Record, RecordBuffer, RecordName, read_record};

/// Size of `struct inet_diag_meminfo` in bytes.
pub const LEGACY_MEM_INFO_LEN: usize = 16;

/// The memory of a socket in the format of old kernels: `struct inet_diag_meminfo` (sock_diag(7)),
/// the value of the attribute `INET_DIAG_MEMINFO`. It has 16 bytes: four `u32`, little-endian.
/// Newer kernels also send [`MemInfo`](super::MemInfo).
#[derive(Clone, Debug, Drop, PartialEq, Eq)]
pub struct LegacyMemInfo {
    /// Memory that the receive queue uses, in bytes (`idiag_rmem`), at offset 0. sock_diag(7) calls
    /// it the data in the receive queue.
    pub receive_queue: u32,
    /// Memory that the send queue uses, in bytes (`idiag_wmem`), at offset 4. Linux sends the
    /// number of `SK_MEMINFO_WMEM_QUEUED`, which is `send_queue` of [`MemInfo`](super::MemInfo);
    /// sock_diag(7) calls it data that TCP has queued and not yet sent.
    pub bottom_send_queue: u32,
    /// Memory that is reserved for later use, in bytes (`idiag_fmem`), at offset 8. sock_diag(7)
    /// says that only TCP has it; Linux also sends it for UDP.
    pub cache: u32,
    /// Memory of packets that were committed to the device queue, in bytes, at offset 12
    /// (`idiag_tmem`). Linux sends the number of `SK_MEMINFO_WMEM_ALLOC`, which is
    /// `bottom_send_queues` of [`MemInfo`](super::MemInfo): the names are exchanged there.
    /// sock_diag(7) calls it the data in the send queue.
    pub send_queue: u32,
}

/// The 16 bytes of a [`LegacyMemInfo`].
pub type LegacyMemInfoBuffer = RecordBuffer<LegacyMemInfo, LEGACY_MEM_INFO_LEN>;

impl Exact for LegacyMemInfo {
    ghost exact = { Prim.search rules };
}

impl Record for LegacyMemInfo {
    type Param = ();

    ghost layout = { legacy_mem_info };

    fn name_and_least() -> (RecordName, usize) {
        (RecordName::LegacyMemInfo, LEGACY_MEM_INFO_LEN)
    }

    fn size(&self) -> usize {
        LEGACY_MEM_INFO_LEN
    }

    /// Parses the first 16 bytes, and ignores the bytes after them. There have to be 16 bytes: the
    /// caller checks this first, and reports [`DecodeError::BufferTooSmall`].
    fn from_fields(payload: &[u8], _param: ()) -> Result<Self, DecodeError> {
        let [receive_queue, bottom_send_queue, cache, send_queue] = u32s_at::<4>(payload, 0);
        Ok(LegacyMemInfo {
            receive_queue,
            bottom_send_queue,
            cache,
            send_queue,
        })
    }

    fn write_fields(&self, buffer: &mut [u8]) {
        write_u32s(
            &[
                self.receive_queue,
                self.bottom_send_queue,
                self.cache,
                self.send_queue,
            ],
            buffer,
        );
    }

    ghost laws = { record_laws legacy_mem_info legacy_mem_info_sound };
}

impl Fills<LEGACY_MEM_INFO_LEN> for LegacyMemInfo {
    ghost fills = { (refl, λ _. refl) };
}

impl LegacyMemInfo {
    /// Parses the first 16 bytes, and ignores the bytes after them. Fewer bytes are
    /// [`DecodeError::BufferTooSmall`].
    pub fn parse(payload: &[u8]) -> Result<Self, DecodeError>
        ensures { result ≡ parse_record legacy_mem_info tt payload.now }
    {
        read_record(payload, ())
    }
}
