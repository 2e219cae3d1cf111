//! Records for IPv4 and IPv6 sockets.

mod equality;
mod flags;
pub mod nlas;
mod request;
mod response;
mod socket_id;

pub use flags::{
    ExtensionFlags, StateFlags, extension_flags_have_their_values, flags_have_their_bits,
    state_flags_have_their_values,
};
pub use request::{
    INET_DIAG_REQ_BYTECODE, INET_DIAG_REQ_NONE, INET_DIAG_REQ_PROTOCOL,
    INET_DIAG_REQ_SK_BPF_STORAGES, INET_REQUEST_LEN, InetRequest, InetRequestBuffer,
};
pub use response::{
    INET_RESPONSE_HEADER_LEN, InetResponseBuffer, InetResponseHeader, Timer, timer_fields,
};
pub use socket_id::{SOCKET_ID_LEN, SocketId, SocketIdBuffer};
