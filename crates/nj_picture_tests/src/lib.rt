//! The tests of both pictures. They stand apart, since a crate with tests of its own is proved twice.
#![tactic(auto)]

#[cfg(test)]
mod catching_up;
#[cfg(test)]
mod dots;
