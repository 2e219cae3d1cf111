//! Attributes of replies about IPv4 and IPv6 sockets.

mod codec;
mod family;
pub mod nlas;
