//! Records for UNIX sockets.

mod flags;
pub mod nlas;
mod request;
mod response;

pub use flags::{
    ShowFlags, StateFlags, flags_have_their_bits, show_flags_have_their_values,
    state_flags_have_their_values,
};
pub use request::{UNIX_REQUEST_LEN, UnixRequest, UnixRequestBuffer};
pub use response::{UNIX_RESPONSE_HEADER_LEN, UnixResponseBuffer, UnixResponseHeader};
