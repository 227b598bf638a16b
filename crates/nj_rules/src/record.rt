use nj_pad::Pad;
use nj_property::{Condition, Property};
use nj_seq::Seq;

/// A script's rules, each known by its place, from 0: at most 128.
#[derive(Drop)]
pub struct Rules {
    pub rules: Seq<Rule>,
}

/// A rule: what has to hold, and what it is worth once satisfied.
#[derive(Drop)]
pub struct Rule {
    /// The conditions, all of which have to hold: at most 16.
    pub when: Seq<Condition>,
    pub win: bool,
    pub fail: bool,
    pub checkpoint: bool,
    /// The fixed reward, from -2^30 to 2^30.
    pub reward: i64,
    /// At most 4.
    pub weights: Seq<Weight>,
    /// The numbers of the rules that become satisfied with this one: at most 128.
    pub also: Seq<u32>,
}

/// A part of a reward: a number of times a property's value.
#[derive(Clone, Copy)]
pub struct Weight {
    pub property: Property,
    /// From -2^20 to 2^20.
    pub weight: i64,
}

/// The rules satisfied so far: bit k is 1 where rule k is.
#[derive(Clone, Copy)]
pub struct Status(pub u128);

/// What the satisfied rules come to.
#[derive(Clone, Copy, Debug, PartialEq, Eq)]
pub enum Verdict {
    Go,
    Win,
    Fail,
}

/// A state as the rules judge it.
#[derive(Clone, Copy)]
pub struct Judged {
    pub status: Status,
    pub verdict: Verdict,
    pub reward: i64,
    /// The number of satisfied checkpoint rules.
    pub level: u32,
}

/// A script's input sets, in order: at most 32.
#[derive(Drop)]
pub struct InputSets {
    pub sets: Seq<InputSet>,
}

/// Pads that are offered where conditions hold.
#[derive(Drop)]
pub struct InputSet {
    /// The conditions, all of which have to hold: at most 16.
    pub when: Seq<Condition>,
    /// At most 256.
    pub pads: Seq<Pad>,
    /// Whether the sets behind this one are passed over where its conditions hold.
    pub stop: bool,
}

/// The parts of working memory that tell states apart, in order: at most 64.
#[derive(Drop)]
pub struct HashItems {
    pub items: Seq<HashItem>,
}

/// The bytes of working memory from one address to another, both ends included: at most to 2,047.
#[derive(Clone, Copy)]
pub struct HashItem {
    pub from: u16,
    pub to: u16,
}
