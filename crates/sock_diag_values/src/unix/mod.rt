//! Records that describe UNIX sockets.

mod mem_info;
mod vfs;

pub use mem_info::{MEM_INFO_LEN, MemInfo, MemInfoBuffer};
pub use vfs::{VFS_LEN, Vfs, VfsBuffer};
