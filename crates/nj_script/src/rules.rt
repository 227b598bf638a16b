ghost use Rattle.std.specs.Prelude.{◌≡◌, ◌∷◌, [], List, map, codes, bytes_eq};
ghost use Rattle.std.specs.List.{list_any};
ghost use Rattle.serde_json.specs.View.{view};
ghost use Rattle.nj_fields.specs.Reading.{Gives};
ghost use Rattle.nj_fields.specs.Fields.{text_in};
ghost use Rattle.nj_script.specs.Kinds.{flags_in, weight_in, weights_in, also_in, body_in, rule_keys, rule_in};

use nj_fields::{
    Member, Named, ScriptRefused, conditions_in, free_name, integer, integer_or, list_or_none,
    open, property_at, read_each, text, text_in, truth,
};
use nj_property::Condition;
use nj_rules::Weight;
use nj_seq::{Seq, Text};
use serde_json::Value;
use std::alloc::Global;

/// The truth values of a rule.
#[derive(Clone, Copy)]
pub struct Flags {
    pub win: bool,
    pub fail: bool,
    pub checkpoint: bool,
}

/// What a rule has beside its name; the rules that it names are not looked up yet.
#[derive(Drop)]
pub struct Body {
    pub when: Seq<Condition>,
    pub flags: Flags,
    pub reward: i64,
    pub weights: Seq<Weight>,
    pub also: Seq<Text>,
}

/// A rule and its name.
#[derive(Drop)]
pub struct NamedRule {
    pub name: Text,
    pub body: Body,
}

#[tactic(auto, unfolding(crate::specs::Kinds::flags_in))]
fn flags_in(alloc: Global, object: &Value) -> Result<Flags, ScriptRefused>
    ensures { Gives (flags_in (view object.now)) result }
{
    let win = truth(alloc, object, "win")?;
    let fail = truth(alloc, object, "fail")?;
    let checkpoint = truth(alloc, object, "checkpoint")?;
    Ok(Flags {
        win,
        fail,
        checkpoint,
    })
}

fn weight_keys() -> &'static [&'static str]
    ensures { map (λ s. s.now) result.now ≡ codes "property" ∷ codes "weight" ∷ [] }
{
    &["property", "weight"]
}

/// The members of `weights`.
#[derive(Clone, Copy)]
pub struct WeightMember<'a> {
    pub properties: &'a [Named],
}

impl Member for WeightMember<'_> {
    type Made = Weight;

    ghost reading = { λ m _ d. weight_in m.properties.now d };

    #[tactic(auto, unfolding(crate::specs::Kinds::weight_in))]
    fn read(
        &self,
        alloc: Global,
        _before: &[Weight],
        value: &Value,
    ) -> Result<Weight, ScriptRefused> {
        open(alloc, value, "weights", weight_keys())?;
        let property = property_at(alloc, value, "property", self.properties)?;
        let weight = integer(alloc, value, "weight", -1_048_576, 1_048_576)?;
        Ok(Weight { property, weight })
    }
}

#[tactic(auto, unfolding(crate::specs::Kinds::weights_in))]
fn weights_in(
    alloc: Global,
    object: &Value,
    properties: &[Named],
) -> Result<Seq<Weight>, ScriptRefused>
    ensures { Gives (weights_in properties.now (view object.now)) result }
{
    let items = list_or_none(alloc, object, "weights", 4)?;
    let weights = read_each(alloc, items, &WeightMember { properties })?;
    Ok(Seq::from_vec(weights))
}

/// The members of `also`.
#[derive(Clone, Copy)]
pub struct AlsoMember;

impl Member for AlsoMember {
    type Made = Text;

    ghost reading = { λ _ _ d. text_in (codes "also") d };

    fn read(&self, alloc: Global, _before: &[Text], value: &Value) -> Result<Text, ScriptRefused> {
        let name = text_in(alloc, value, "also")?;
        let name = Text::from_str(alloc, name)?;
        Ok(name)
    }
}

#[tactic(auto, unfolding(crate::specs::Kinds::also_in))]
fn also_in(alloc: Global, object: &Value) -> Result<Seq<Text>, ScriptRefused>
    ensures { Gives (also_in (view object.now)) result }
{
    let items = list_or_none(alloc, object, "also", 128)?;
    let names = read_each(alloc, items, &AlsoMember)?;
    Ok(Seq::from_vec(names))
}

#[tactic(auto, unfolding(crate::specs::Kinds::body_in))]
fn body_in(alloc: Global, object: &Value, properties: &[Named]) -> Result<Body, ScriptRefused>
    ensures { Gives (body_in properties.now (view object.now)) result }
{
    let when = conditions_in(alloc, object, properties)?;
    let flags = flags_in(alloc, object)?;
    let reward = integer_or(alloc, object, "reward", -1_073_741_824, 1_073_741_824, 0)?;
    let weights = weights_in(alloc, object, properties)?;
    let also = also_in(alloc, object)?;
    Ok(Body {
        when,
        flags,
        reward,
        weights,
        also,
    })
}

fn keys_of_rule() -> &'static [&'static str]
    ensures { map (λ s. s.now) result.now ≡ rule_keys }
{
    &[
        "name",
        "when",
        "win",
        "fail",
        "checkpoint",
        "reward",
        "weights",
        "also",
    ]
}

fn is_taken(before: &[NamedRule], name: &str) -> bool
    ensures { result ≡ list_any (λ r. bytes_eq r.name name.now) before.now }
{
    before.iter().any(|rule| rule.name.as_str() == name)
}

/// The members of `rules`.
#[derive(Clone, Copy)]
pub struct RuleMember<'a> {
    pub properties: &'a [Named],
}

impl Member for RuleMember<'_> {
    type Made = NamedRule;

    ghost reading = { λ m before d. rule_in m.properties.now before d };

    #[tactic(auto, unfolding(crate::specs::Kinds::rule_in))]
    fn read(
        &self,
        alloc: Global,
        before: &[NamedRule],
        value: &Value,
    ) -> Result<NamedRule, ScriptRefused> {
        open(alloc, value, "rules", keys_of_rule())?;
        let name = text(alloc, value, "name")?;
        let name = free_name(alloc, is_taken(before, name), name)?;
        let body = body_in(alloc, value, self.properties)?;
        Ok(NamedRule { name, body })
    }
}
