ghost use Rattle.std.specs.Prelude.{◌≡◌, ◌∷◌, [], List, map, codes, pos, neg_ℤ, Ok};
ghost use Rattle.serde_json.specs.View.{view};
ghost use Rattle.nj_fields.specs.Reading.{Gives, then_read};
ghost use Rattle.nj_fields.specs.Fields.{integer, text_in};
ghost use Rattle.nj_fields.specs.Names.{property_named};
ghost use Rattle.nj_fields.specs.Conditions.{condition_keys, comparison_in, side_in, condition_in, conditions_in};

use crate::fields::{integer, list_or_none, open, text, text_in};
use crate::lists::{Member, read_each};
use crate::names::{Named, comparison_named, property_named};
use crate::properties::property_at;
use crate::refusal::ScriptRefused;
use nj_property::{Cmp, Condition, Side};
use nj_seq::Seq;
use serde_json::Value;
use std::alloc::Global;

fn keys_of_condition(other: bool) -> &'static [&'static str]
    ensures { map (λ s. s.now) result.now ≡ condition_keys other }
{
    if other {
        &["property", "op", "other"]
    } else {
        &["property", "op", "other", "value"]
    }
}

#[tactic(auto, unfolding(crate::specs::Conditions::comparison_in))]
fn comparison_in(alloc: Global, object: &Value) -> Result<Cmp, ScriptRefused>
    ensures { Gives (comparison_in (view object.now)) result }
{
    let name = text(alloc, object, "op")?;
    comparison_named(alloc, name)
}

fn number_side(alloc: Global, object: &Value) -> Result<Side, ScriptRefused>
    ensures { Gives (then_read (integer (codes "value") (neg_ℤ (pos 65536)) (pos 65535) (view object.now))
        (λ n. Ok (Side.Number n))) result }
{
    let value = integer(alloc, object, "value", -65536, 65535)?;
    Ok(Side::Number {
        value: value as i32,
    })
}

fn other_side(alloc: Global, value: &Value, properties: &[Named]) -> Result<Side, ScriptRefused>
    ensures { Gives (then_read (text_in (codes "other") (view value.now))
        (λ name. then_read (property_named properties.now name) (λ p. Ok (Side.Other p)))) result }
{
    let name = text_in(alloc, value, "other")?;
    let property = property_named(alloc, properties, name)?;
    Ok(Side::Other { property })
}

#[tactic(auto, unfolding(crate::specs::Conditions::side_in))]
fn side_in(alloc: Global, object: &Value, properties: &[Named]) -> Result<Side, ScriptRefused>
    ensures { Gives (side_in properties.now (view object.now)) result }
{
    match object.get("other") {
        Some(value) => other_side(alloc, value, properties),
        None => number_side(alloc, object),
    }
}

/// The members of `when`.
#[derive(Clone, Copy)]
pub struct ConditionMember<'a> {
    pub properties: &'a [Named],
}

impl Member for ConditionMember<'_> {
    type Made = Condition;

    ghost reading = { λ m _ d. condition_in m.properties.now d };

    #[tactic(auto, unfolding(crate::specs::Conditions::condition_in))]
    fn read(
        &self,
        alloc: Global,
        _before: &[Condition],
        value: &Value,
    ) -> Result<Condition, ScriptRefused> {
        let has_other = value.get("other").is_some();
        open(alloc, value, "when", keys_of_condition(has_other))?;
        let left = property_at(alloc, value, "property", self.properties)?;
        let op = comparison_in(alloc, value)?;
        let right = side_in(alloc, value, self.properties)?;
        Ok(Condition { left, op, right })
    }
}

/// The conditions of an input set or a rule.
#[tactic(auto, unfolding(crate::specs::Conditions::conditions_in))]
pub fn conditions_in(
    alloc: Global,
    object: &Value,
    properties: &[Named],
) -> Result<Seq<Condition>, ScriptRefused>
    ensures { Gives (conditions_in properties.now (view object.now)) result }
{
    let items = list_or_none(alloc, object, "when", 16)?;
    let conditions = read_each(alloc, items, &ConditionMember { properties })?;
    Ok(Seq::from_vec(conditions))
}
