//! What a search is asked to do: its plan ([`Plan`]), within which limits, what of a plan is refused, and what its
//! outcome is. No code that finds the outcome stands here.
//!
//! The outcome is a function of the plan alone, defined over words, in which neither a worker nor a step of the code
//! occurs. So its laws are laws over plans: the movie of a won word replays ([`a_won_word_replays`]), a longer search
//! begins as the shorter one ([`longer_searches_begin_alike`]), and a search that is stopped, saved and resumed ends as
//! the unbroken one ([`resumed_is_unbroken`]), since what the bounds forget may be forgotten at once and all that a
//! state has is in its file. A plan also opens the search before its next step ([`Plan::open`]), whose fronts stay
//! within the budget ([`fronts_are_within_the_budget`]).
//!
//! The definition to read first is `outcome_of` in `specs/Outcomes.antt`, and behind it `refusals` in
//! `specs/Plans.antt`.
#![tactic(auto)]

mod laws;
mod planning;

pub use laws::{
    a_won_word_replays, fronts_are_within_the_budget, longer_searches_begin_alike,
    resumed_is_unbroken,
};
pub use nj_expand::Search;
pub use nj_ines::Cart;
pub use nj_movie::Movie;
pub use nj_saved::Saved;
pub use nj_script::Script;
pub use nj_steps::Steps;
pub use planning::{Limits, Plan, PlanRefused, cost};
