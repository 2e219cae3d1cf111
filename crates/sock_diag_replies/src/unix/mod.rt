//! Requests and replies about UNIX sockets.

mod getters;
pub mod nlas;
mod reply;
mod view_getters;

pub use reply::{UnixResponse, UnixResponseView};
pub use sock_diag_records::unix::{
    ShowFlags, StateFlags, UNIX_REQUEST_LEN, UNIX_RESPONSE_HEADER_LEN, UnixRequest,
    UnixRequestBuffer, UnixResponseBuffer, UnixResponseHeader,
};
