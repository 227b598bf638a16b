//! Work on the elements of a slice, each in a thread of its own, all of which the caller starts: [`for_each_apart`].
//!
//! It says what std's `thread::for_each_mut` says. There a thread that was started starts half of the others, at the
//! time at which its caller starts the other half; a system that sets a new thread on an idle processor then often sets
//! two on one, where they take turns while another processor is idle. Here one thread starts them one behind the other,
//! so each is in its place before the next. The definitions are std's, `AcceptsEach` and `ChangesEach` in its
//! `specs/Fork.antt`.
#![tactic(auto)]

mod apart;

pub use apart::for_each_apart;
