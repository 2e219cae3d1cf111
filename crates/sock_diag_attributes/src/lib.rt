//! The attributes of the replies of sock_diag(7).
#![tactic(auto)]

mod accepted;
mod borrowed;
pub mod inet;
pub mod laws;
mod numbers;
mod text;
pub mod unix;
mod value;
