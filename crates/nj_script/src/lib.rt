//! The script reader: what a JSON text (RFC 8259) says of a search, or the first thing in it that is
//! refused. The layout of a script is this project's own, in two versions, of which the second knows a
//! bucket and a quota.
//!
//! A reading of a kind of thing is a function from a JSON value into a `Result`, and readings go on from
//! one another as calls with `?` do (`then_read`), so the order of a script's refusals is the order in
//! which its definition reads. How a member, a list, a name, a property and a condition is read is
//! nj_fields'; here are the items, the input sets, the rules and the whole. Read `script_in`
//! (specs/Script) first, and then nj_fields' specs/Fields.
#![tactic(auto)]

mod items;
mod laws;
mod naming;
mod rules;
mod script;
mod sets;

pub use laws::what_is_read_is_in_range;
pub use nj_fields::ScriptRefused;
pub use nj_pad::Pad;
pub use nj_rules::{
    Cmp, Condition, HashItem, HashItems, InputSet, InputSets, Kind, Property, Rule, Rules, Side,
    Weight,
};
pub use nj_seq::{Seq, Text};
pub use script::Script;
