//! The tests of shelves and sinks, of the system's and of those over memory. They stand apart, since a crate with tests
//! of its own is proved twice.
#![tactic(auto)]

#[cfg(test)]
mod outside;
