//! The value of `UNIX_DIAG_VFS`: the file that a UNIX socket is bound to.

ghost use Rattle.std.specs.Prelude.{◌≡◌, refl};
ghost use Rattle.std.proofs.Common.{rules};
ghost use Rattle.netlink_core.specs.Layout.{parse_record};
ghost use Rattle.netlink_core.proofs.LayoutLaws.{record_laws};
ghost use Rattle.sock_diag_values.specs.Vfs.{vfs};
ghost use Rattle.sock_diag_values.specs.laws.PlainLayouts.{vfs_sound};

use netlink_core::fields::{u32s_at, write_u32s};
use netlink_core::{DecodeError, Exact, Fills, Record, RecordBuffer, RecordName, read_record};

/// Size of `struct unix_diag_vfs` in bytes.
pub const VFS_LEN: usize = 8;

/// The file that a UNIX socket is bound to: `struct unix_diag_vfs` (linux/unix_diag.h), the value
/// of the attribute `UNIX_DIAG_VFS`. It has 8 bytes: two `u32`, little-endian. The inode precedes
/// the device, although sock_diag(7) lists the device first.
#[derive(Clone, Debug, Drop, PartialEq, Eq)]
pub struct Vfs {
    /// Inode number of the file (`udiag_vfs_ino`), at offset 0.
    inode: u32,
    /// Device of the file (`udiag_vfs_dev`), at offset 4: `major << 20 | minor`, the kernel's
    /// `dev_t`, and not the `st_dev` of stat(2).
    device: u32,
}

/// The 8 bytes of a [`Vfs`].
pub type VfsBuffer = RecordBuffer<Vfs, VFS_LEN>;

impl Exact for Vfs {
    ghost exact = { Prim.search rules };
}

impl Record for Vfs {
    type Param = ();

    ghost layout = { vfs };

    fn name_and_least() -> (RecordName, usize) {
        (RecordName::Vfs, VFS_LEN)
    }

    fn size(&self) -> usize {
        VFS_LEN
    }

    /// Parses the first 8 bytes, and ignores the bytes after them. There have to be 8 bytes: the
    /// caller checks this first, and reports [`DecodeError::BufferTooSmall`].
    fn from_fields(payload: &[u8], _param: ()) -> Result<Self, DecodeError> {
        let [inode, device] = u32s_at::<2>(payload, 0);
        Ok(Vfs { inode, device })
    }

    fn write_fields(&self, buffer: &mut [u8]) {
        write_u32s(&[self.inode, self.device], buffer);
    }

    ghost laws = { record_laws vfs vfs_sound };
}

impl Fills<VFS_LEN> for Vfs {
    ghost fills = { (refl, λ _. refl) };
}

impl Vfs {
    /// Returns the file with this inode number (`udiag_vfs_ino`) on this device (`udiag_vfs_dev`).
    #[inline(always)]
    pub fn new(inode: u32, device: u32) -> Self
        ensures inode { result.inode ≡ inode }
        ensures device { result.device ≡ device }
    {
        Vfs { inode, device }
    }

    /// Parses the first 8 bytes, and ignores the bytes after them. Fewer bytes are
    /// [`DecodeError::BufferTooSmall`].
    pub fn parse(payload: &[u8]) -> Result<Self, DecodeError>
        ensures { result ≡ parse_record vfs tt payload.now }
    {
        read_record(payload, ())
    }

    /// Returns the inode number of the file (`udiag_vfs_ino`).
    pub fn inode(&self) -> u32
        ensures { result ≡ self.now.inode }
    {
        self.inode
    }

    /// Returns the device of the file (`udiag_vfs_dev`).
    pub fn device(&self) -> u32
        ensures { result ≡ self.now.device }
    {
        self.device
    }
}
