//! What a script says of a state of the game, seen by its 2,048 bytes of working memory alone: which
//! rules are satisfied and what they come to ([`judge`]), which pads may come next ([`allowed`]), and
//! the key by which states count as repeated ([`key_of`]). All three are this project's own.
#![tactic(auto)]

mod judging;
mod keys;
mod laws;
mod pads;
mod record;

pub use judging::judge;
pub use keys::key_of;
pub use laws::{
    allowed_pads_come_once, keys_tell_bytes_and_status, levels_are_few, naming_is_one_level_deep,
    no_rule_gives_nothing, satisfied_rules_stay,
};
pub use nj_pad::Pad;
pub use nj_property::{Cmp, Condition, Kind, Property, Side};
pub use nj_seq::Seq;
pub use pads::{allowed, pad_count};
pub use record::{
    HashItem, HashItems, InputSet, InputSets, Judged, Rule, Rules, Status, Verdict, Weight,
};
