//! The tests of the top call, by one thread and by several workers. They stand apart, since a crate with tests of its
//! own is proved twice.
#![tactic(auto)]

#[cfg(test)]
mod cases;
#[cfg(test)]
mod commands;
#[cfg(test)]
mod files;
#[cfg(test)]
mod meeting;
#[cfg(test)]
mod searches;
