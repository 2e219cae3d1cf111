//! Replies about the sockets of any family, with everything in them that is known: the port's
//! attributes, and those that the port leaves raw. Nothing here allocates.
//!
//! This is an extension crate. It changes nothing of the port.
#![tactic(auto)]

mod equality;
mod header;
pub mod laws;
mod nla;
mod nlas;
mod reply;

pub use header::{AnyHeader, RawTimer};
pub use nla::{AnyNla, InfoFormat, Sockets};
pub use nlas::{AnyNlas, Rejected};
pub use reply::AnyReply;
