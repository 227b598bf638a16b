//! The pieces of a front, dealt to workers. Each worker has a deque of its own, takes from it first, and
//! then steals from the others. [`Pieces::deal`] deals them, [`Pieces::take`] takes one, in any thread,
//! and [`Pieces::gather`] gives those that nobody took.
#![tactic(auto)]

mod deal;
mod gather;
mod parts;
mod rule;
mod take;

pub use parts::{Pieces, Taker};
