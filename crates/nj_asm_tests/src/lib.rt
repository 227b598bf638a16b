//! The tests of the assembler and of the reader of its lines. They stand apart, since a crate with tests of its own is
//! proved twice.
#![tactic(auto)]

#[cfg(test)]
mod assembling;
#[cfg(test)]
mod lines;
