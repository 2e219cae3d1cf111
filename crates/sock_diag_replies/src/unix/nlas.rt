//! The attributes of a reply about a UNIX socket, and the types of their values.

pub use crate::unix::reply::NlaViews;
pub use sock_diag_attributes::unix::nlas::{
    MEM_INFO_LEN, MemInfo, MemInfoBuffer, NameView, Nla, NlaView, NumbersIterator, NumbersView,
    UnixDiagName, VFS_LEN, Vfs, VfsBuffer,
};
