//! The tests of the lister.
#![tactic(auto)]

#[cfg(test)]
mod lister;
