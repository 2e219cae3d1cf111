//! Re-exports the records that are values of attributes of UNIX sockets.

pub use sock_diag_values::unix::{MEM_INFO_LEN, MemInfo, MemInfoBuffer, VFS_LEN, Vfs, VfsBuffer};
