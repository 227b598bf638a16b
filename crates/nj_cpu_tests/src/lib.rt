//! The tests of the processor. They stand apart, since a crate with tests of its own is proved twice.
#![tactic(auto)]

#[cfg(test)]
mod units;
