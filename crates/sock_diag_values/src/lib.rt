//! The five records that attributes of sock_diag(7) replies have as their values.
#![tactic(auto)]

pub mod inet;
pub mod laws;
pub mod unix;
