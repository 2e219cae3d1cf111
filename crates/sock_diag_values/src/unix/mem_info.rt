//! The value of `UNIX_DIAG_MEMINFO`: the memory of a UNIX socket.

ghost use Rattle.std.specs.Prelude.{◌≡◌, refl};
ghost use Rattle.std.proofs.Common.{rules};
ghost use Rattle.netlink_core.specs.Layout.{parse_record};
ghost use Rattle.netlink_core.proofs.LayoutLaws.{record_laws};
ghost use Rattle.sock_diag_values.specs.UnixMemInfo.{unix_mem_info};
ghost use Rattle.sock_diag_values.specs.laws.PlainLayouts.{unix_mem_info_sound};

use netlink_core::fields::{u32s_at, write_u32s};
use netlink_core::{DecodeError, Exact, Fills, Record, RecordBuffer, RecordName, read_record};

/// Size of the value of `UNIX_DIAG_MEMINFO` in bytes.
pub const MEM_INFO_LEN: usize = 36;

/// The memory of a UNIX socket, the value of the attribute `UNIX_DIAG_MEMINFO`: an array of nine
/// `u32`, little-endian, indexed by `SK_MEMINFO_*` (linux/sock_diag.h). It has 36 bytes.
///
/// Three of the elements are parsed. The other six, at offsets 0, 8, 16, 24, 28 and 32, are
/// ignored, and serialized as 0.
#[derive(Clone, Copy, Debug, PartialEq, Eq)]
pub struct MemInfo {
    /// Receive buffer limit in bytes (`SK_MEMINFO_RCVBUF`), at offset 4. It has no effect on a UNIX
    /// socket.
    pub so_rcvbuf: u32,
    /// Send buffer limit in bytes (`SK_MEMINFO_SNDBUF`), at offset 12. It limits the size of a sent
    /// datagram: unix(7).
    pub max_datagram_size: u32,
    /// Memory of data that is queued to be sent, in bytes (`SK_MEMINFO_WMEM_QUEUED`), at offset 20.
    /// Linux writes 0: data that a UNIX socket sent and its peer has not read is counted in the
    /// ignored field at offset 8 (`SK_MEMINFO_WMEM_ALLOC`).
    pub alloc: u32,
}

/// The 36 bytes of a [`MemInfo`], including the ignored fields.
pub type MemInfoBuffer = RecordBuffer<MemInfo, MEM_INFO_LEN>;

impl Exact for MemInfo {
    ghost exact = { Prim.search rules };
}

impl Record for MemInfo {
    type Param = ();

    ghost layout = { unix_mem_info };

    fn name_and_least() -> (RecordName, usize) {
        (RecordName::UnixMemInfo, MEM_INFO_LEN)
    }

    fn size(&self) -> usize {
        MEM_INFO_LEN
    }

    /// Parses the first 36 bytes, and ignores the bytes after them. There have to be 36 bytes: the
    /// caller checks this first, and reports [`DecodeError::BufferTooSmall`].
    fn from_fields(payload: &[u8], _param: ()) -> Result<Self, DecodeError> {
        let [_, so_rcvbuf, _, max_datagram_size, _, alloc, _, _, _] = u32s_at::<9>(payload, 0);
        Ok(MemInfo {
            so_rcvbuf,
            max_datagram_size,
            alloc,
        })
    }

    fn write_fields(&self, buffer: &mut [u8]) {
        let elements = [
            0,
            self.so_rcvbuf,
            0,
            self.max_datagram_size,
            0,
            self.alloc,
            0,
            0,
            0,
        ];
        write_u32s(&elements, buffer);
    }

    ghost laws = { record_laws unix_mem_info unix_mem_info_sound };
}

impl Fills<MEM_INFO_LEN> for MemInfo {
    ghost fills = { (refl, λ _. refl) };
}

impl MemInfo {
    /// Parses the first 36 bytes, and ignores the bytes after them. Fewer bytes are
    /// [`DecodeError::BufferTooSmall`].
    pub fn parse(payload: &[u8]) -> Result<Self, DecodeError>
        ensures { result ≡ parse_record unix_mem_info tt payload.now }
    {
        read_record(payload, ())
    }
}
