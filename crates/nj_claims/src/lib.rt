//! The claim table: which number owns a key. Threads share a table without a lock, and claim keys for
//! numbers; a key's owner is the least of what it was and of the numbers claimed for it, in every order
//! of the threads.
//!
//! A table of 2^k slots is a list of 2^(k+1) words. A slot's first word is a key, or 0 where the slot is
//! empty; its second is the key's owner, or 2^64 - 1. A key's home is its remainder by the slots, and it
//! stands in the first slot from there, round the table, that holds it or was empty. Contracts see the
//! words as the list of their keys and owners (`entries_in`) and as a map (`owner_in`).
//!
//! A thread claims through a [`Pass`]. `open` gives the first pass; further ones are split from it and
//! joined to it, and `close` asks for the first one with no other out. A claim walks from the key's home:
//! it loads a slot's key word, and tries one compare-and-exchange where that is 0; once the key stands in
//! a slot, one `fetch_min` on the owner word ends the claim.
//!
//! The rule between the threads is what holds of the words and of all passes between any two of these
//! steps. The keys stand in their places, each once, and an empty slot has no owner. The keys of the
//! opening table stand where they did. Every further key was claimed by some pass, or some pass has just
//! found it. Every owner is 2^64 - 1, or the opening owner, or a number that some pass claimed for the key.
//! What a pass knows is true: a key that it claimed stands, with an owner at most the number; an owner that
//! it saw was one, and the owner is at most that; where a claim found no room, no slot is empty and none has
//! the key; and the slots that it has passed hold other keys. A pass that was joined knows nothing, and the
//! passes are one more than those that are out. A key word changes only from 0, and an owner word only
//! falls, so no step makes untrue what another pass knows.
//!
//! [`insert`] puts a key into a table that one thread owns.
#![tactic(auto)]

mod claimed;
mod laws;
mod pass;
mod placing;
mod plays;
mod probe;
mod rule;
mod shared;
mod table;
mod view;
mod words;

pub use claimed::Claimed;
pub use laws::{different_numbers_fit, entries_are_the_map};
pub use pass::Pass;
pub use placing::insert;
pub use shared::ClaimTable;
pub use words::{empty_table, is_table, owner_of};
