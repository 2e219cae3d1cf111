//! Attributes of replies about UNIX sockets.

mod codec;
mod family;
mod name;
pub mod nlas;
