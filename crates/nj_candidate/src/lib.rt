//! Candidates and the states that a search runs on: a candidate is the row of a state after one more pad, held for the
//! frames of a step. It is run from the image of its parent's state, so no word is run again from power-on; the states
//! of rows that are kept are run again into a pool in the same way, and the words of a saved front each from the
//! start's state, judged after every pad. What a search decides of its rows stands above ([`expand`] knows no front).
//!
//! The definition to read first is `row_at` in `specs/Rows.antt`, the row of a child by its parent's state; then
//! `image_at` in `specs/Front.antt`, and `AreRunFrom` in `specs/Again.antt`, what states are in a pool and judged.
#![tactic(auto)]

mod again;
mod candidate;
mod laws;
mod movies;
mod opening;
mod resuming;

pub use again::{Again, run_rows};
pub use candidate::{allow, expand, key_in};
pub use laws::{a_candidate_is_told_by_its_parent, an_image_stands_for_its_word};
pub use movies::push_word;
pub use nj_machine::{Cart, Machine, Pad};
pub use nj_movie::Movie;
pub use nj_pool::FrontPool;
pub use nj_rows::{Row, Verdict3};
pub use nj_rules::{Judged, Status};
pub use nj_saved::Saved;
pub use nj_script::Script;
pub use nj_steps::Steps;
pub use opening::{Begun, is_cartridge, pool_of};
pub use resuming::{count_of, run_front};
