//! The search of one command, as it is planned: by one thread ([`search_plain`]) and by several workers
//! ([`search_shared`]).
//!
//! The outcome is a function of the plan alone, in which no worker occurs: both searches begin alike and end alike, and
//! each step of either is the one that the definition over words makes. What is left to prove of several workers is
//! that their counters together rise by no more than the one counter of one thread may.
//!
//! What may be planned, what the outcome is by definition, and its laws are `nj_plan`'s, and all its names are given
//! out again here.
//!
//! The definition to read first is `told_of` in `specs/Ends.antt`, what is told of an outcome, and before it
//! `outcome_of` in nj_plan's `specs/Outcomes.antt`.
#![tactic(auto)]

mod searching;
mod sharing;

pub use nj_ines::Cart;
pub use nj_movie::Movie;
pub use nj_plan::{
    Limits, Plan, PlanRefused, a_won_word_replays, cost, fronts_are_within_the_budget,
    longer_searches_begin_alike, resumed_is_unbroken,
};
pub use nj_saved::Saved;
pub use nj_script::Script;
pub use nj_steps::Steps;
pub use nj_workers::Gate;
pub use searching::{Ended, Outcome, search_plain};
pub use sharing::search_shared;
