//! The search between its steps: a step makes the rows of its front's candidates, and ends by the choice of a winner or
//! of the candidates that are kept, which are run again into a new front. The images of the front's states are kept, so
//! that no word is ever run again from power-on: a search that goes on from a saved one ([`Search::from_saved`]) runs
//! the start once, and each word from its state. How a candidate is run, and states again, is nj_candidate's, whose
//! public names and definitions are given out here too.
//!
//! The definition to read first is `Held` in `specs/Held.antt`, what a search is between two steps, and then `IsStep`
//! in `specs/Step.antt`; of a saved search `saved_of` and `resumed` in `specs/Saving.antt`.
#![tactic(auto)]

mod again;
mod children;
mod ending;
mod kept;
mod laws;
mod opening;
mod resuming;
mod saving;
mod search;
mod tables;

pub use kept::{Chosen, Kept};
pub use laws::{
    a_front_follows_the_one_before, a_step_is_bounded, live_rows_are_live, live_rows_can_claim,
    live_rows_come_by_words, states_are_saved_whole,
};
pub use nj_candidate::{
    Again, a_candidate_is_told_by_its_parent, an_image_stands_for_its_word, expand,
};
pub use nj_machine::{Cart, Machine, Pad};
pub use nj_movie::Movie;
pub use nj_rows::{Row, Verdict3};
pub use nj_rules::{Judged, Status};
pub use nj_saved::Saved;
pub use nj_script::Script;
pub use nj_steps::Steps;
pub use search::Search;

/// What bounds a search.
#[derive(Clone, Copy)]
pub struct Bounds {
    /// The most words of a front, from 1 to 2^20.
    pub front: u64,
    /// The seen keys have 2^exponent slots; from 10 to 25.
    pub exponent: u32,
    /// How many different pads the script names.
    pub inputs: u64,
}

/// How a step ended.
#[derive(Clone, Copy, Debug, PartialEq, Eq)]
pub enum Stepped {
    /// A candidate wins; this is its row.
    Won { row: Row },
    /// Nothing is kept.
    Exhausted,
    /// The search stands in its next state.
    Go,
}
