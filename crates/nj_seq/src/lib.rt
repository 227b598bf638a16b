//! Lists and texts that contracts compare: [`Seq`] is a `Vec` seen as the list of its elements, and
//! [`Text`] a `String` seen as its bytes. Capacities and pointers are no part of what a clause sees,
//! so two of them are equal where their contents are. Each is made from its `Vec` or `String`, and
//! gives it back, without taking memory. Beside them the law that a sorted rearrangement of a list is
//! unique ([`sorted_is_unique`]).
#![tactic(auto)]

mod list;
mod sorting;
mod texts;

pub use list::Seq;
pub use sorting::sorted_is_unique;
pub use texts::Text;
