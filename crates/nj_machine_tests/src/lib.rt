//! The tests of the machine and of its boards. They stand apart, since a crate with tests of its own is proved twice.
#![tactic(auto)]

#[cfg(test)]
mod boards;
#[cfg(test)]
mod cartridges;
#[cfg(test)]
mod frames;
#[cfg(test)]
mod timing;
#[cfg(test)]
mod units;
