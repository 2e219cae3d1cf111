//! The fixed-size records of sock_diag(7), and its constants.
#![tactic(auto)]

pub mod constants;
pub mod inet;
pub mod laws;
mod named;
pub mod unix;
