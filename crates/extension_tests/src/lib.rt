//! The tests of the extension crates.
#![tactic(auto)]

#[cfg(test)]
mod extensions;
