//! The parts of a script that its kinds of object share: the refusals, the members of a JSON object
//! (RFC 8259), lists whose members are read in order, names that are looked up, and the two kinds of
//! object by which input sets and rules both speak, properties and conditions. The whole is nj_script's.
//!
//! A reading of a kind of thing is a function from a JSON value into a `Result`, and readings go on from
//! one another as calls with `?` do (`then_read`); each call here gives its reading, or want of memory
//! (`Gives`). A list is read by [`read_each`], whatever its kind of [`Member`]. Read specs/Reading first,
//! and then `opened`, `required` and `integer_in` in specs/Fields.
#![tactic(auto)]

mod conditions;
mod fields;
mod lists;
mod names;
mod properties;
mod refusal;

pub use conditions::conditions_in;
pub use fields::{
    integer, integer_or, list, list_or_none, natural, natural_or, open, required, text, text_in,
    truth, wrong_kind,
};
pub use lists::{Member, read_each};
pub use names::{Named, free_name, number_of, pad_named, property_named};
pub use nj_pad::Pad;
pub use nj_property::{Cmp, Condition, Kind, Property, Side};
pub use nj_seq::{Seq, Text};
pub use properties::{PropertyMember, property_at};
pub use refusal::ScriptRefused;
