//! The tests of the crates that threads share: the claim table, and the dealt pieces. They stand apart, since a crate
//! with tests of its own is proved twice.
#![tactic(auto)]

#[cfg(test)]
mod claims;
#[cfg(test)]
mod pieces;
