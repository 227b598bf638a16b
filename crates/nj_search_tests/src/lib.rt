//! The tests of the search of a plan. They stand apart, since a crate with tests of its own is proved twice.
#![tactic(auto)]

#[cfg(test)]
mod plans;
#[cfg(test)]
mod searches;
#[cfg(test)]
mod walking;
