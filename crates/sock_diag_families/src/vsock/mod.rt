//! Sockets between a virtual machine and its host, by `linux/vm_sockets_diag.h`.

mod request;
mod response;

pub use request::{VSOCK_REQUEST_LEN, VsockRequest};
pub use response::{VSOCK_RESPONSE_HEADER_LEN, VsockResponseHeader};

/// The address family of vsock sockets, `AF_VSOCK` of `sys/socket.h`.
pub const AF_VSOCK: u8 = 40;
