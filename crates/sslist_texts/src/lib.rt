//! The texts of the lists of `sslist` that need neither a netlink message nor the options.
#![tactic(auto)]

pub mod cells;
mod equality;
pub mod json_writing;
pub mod laws;
mod list_error;
pub mod names;
pub mod output;
pub mod reports;
pub mod times;

pub use list_error::ListError;
