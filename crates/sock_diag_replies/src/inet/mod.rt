//! Requests and replies about IPv4 and IPv6 sockets.

pub mod nlas;
mod reply;

pub use reply::{InetResponse, InetResponseView};
pub use sock_diag_records::inet::{
    ExtensionFlags, INET_REQUEST_LEN, INET_RESPONSE_HEADER_LEN, InetRequest, InetRequestBuffer,
    InetResponseBuffer, InetResponseHeader, SOCKET_ID_LEN, SocketId, SocketIdBuffer, StateFlags,
    Timer,
};
