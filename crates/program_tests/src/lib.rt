//! The tests of the line protocol and of the examples.
#![tactic(auto)]

#[cfg(test)]
mod examples;
#[cfg(test)]
mod lines;
