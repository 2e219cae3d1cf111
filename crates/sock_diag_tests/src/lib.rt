//! The tests of the port.
#![tactic(auto)]

#[cfg(test)]
mod port;
