//! The keys that a search has seen, in a claim table: the owner of a key is the step whose generation
//! has it. Before a step the oldest generations are forgotten until the keys of the step have room.
//!
//! One thread finds the fresh rows of a step by looking its keys up ([`unseen`]) and adds their keys
//! with the new step as their owner ([`add_keys`]); nothing is copied unless something is forgotten.
//! Several threads claim the keys of a step for numbers from [`FIRST_CLAIM`] on. Where they do it in a
//! table of the step's own, the fresh rows are those that own their key there and that no generation has
//! ([`owned_unseen`]), and their keys are added in the same way. Where they do it in a table that was
//! opened with the seen keys and room ([`room`]), a row is fresh where it owns its key ([`fresh`]), and
//! [`publish`] makes the claimed keys the new generation. The laws say that all find the same.
//!
//! A search that is saved tells its generations ([`generations`]), and one that goes on from them makes
//! its table of them ([`table_of`]).
//!
//! The definition to read first is `HoldsSeen` in `specs/Held.antt`: what it is that a table holds the
//! seen keys of a search.
#![tactic(auto)]

mod adding;
mod claimed;
mod filling;
mod forgetting;
mod laws;
mod publishing;
mod telling;

pub use adding::{add_keys, keys_of, unseen};
pub use claimed::owned_unseen;
pub use filling::table_of;
pub use forgetting::{SeenKeys, left, room};
pub use laws::{
    added_keys_are_seen, claims_are_of_rows, fresh_keys_are_new, fresh_keys_are_seen,
    no_key_is_seen, one_key_is_seen, owned_is_fresh, owned_unseen_is_fresh, room_is_enough,
    rows_in_any_order, seen_is_told, seen_keys_stand,
};
pub use nj_rows::{Row, Verdict3};
pub use nj_seq::Seq;
pub use publishing::{FIRST_CLAIM, fresh, publish};
pub use telling::generations;
