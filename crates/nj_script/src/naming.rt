// The rules of a script, whose names in `also` are looked up once all rules were read.

ghost use Rattle.std.specs.Prelude.{◌≡◌, ◌≤◌, ◌<◌, ◌^◌, List, [], map, length, IfOk, MatchResult};
ghost use Rattle.serde_json.specs.View.{view};
ghost use Rattle.nj_fields.specs.Reading.{Gives, GivesAs};
ghost use Rattle.nj_fields.specs.Lists.{collected};
ghost use Rattle.nj_script.specs.Script.{named_rules_in, numbers_of, rule_of, rules_in};

use crate::rules::{Body, NamedRule, RuleMember};
use nj_fields::{Named, ScriptRefused, list, number_of, read_each};
use nj_rules::Rule;
use nj_seq::{Seq, Text};
use serde_json::Value;
use std::alloc::Global;

#[tactic(auto, unfolding(crate::specs::Script::named_rules_in))]
fn named_rules_in(
    alloc: Global,
    object: &Value,
    properties: &[Named],
) -> Result<Vec<NamedRule>, ScriptRefused>
    ensures value { GivesAs (λ v. v.items) (named_rules_in properties.now (view object.now)) result }
    ensures few { IfOk result (λ v. length v.items ≤ 128) }
{
    let items = list(alloc, object, "rules", 128)?;
    read_each(alloc, items, &RuleMember { properties })
}

#[tactic(auto, unfolding(crate::specs::Script::numbers_of))]
fn numbers_of(alloc: Global, names: &[Text], also: &[Text]) -> Result<Seq<u32>, ScriptRefused>
    requires { length names.now < 2 ^ 32 }
    ensures { Gives (numbers_of names.now also.now) result }
{
    let mut numbers = Seq::new(alloc);
    for name in also {
        let number = number_of(alloc, names, name.as_str())?;
        numbers.push(number)?;
    }
    Ok(numbers)
}

#[tactic(auto, unfolding(crate::specs::Script::rule_of))]
fn rule_of(alloc: Global, names: &[Text], body: Body) -> Result<Rule, ScriptRefused>
    requires { length names.now < 2 ^ 32 }
    ensures { Gives (rule_of names.now body) result }
{
    let also = numbers_of(alloc, names, body.also.as_slice())?;
    Ok(Rule {
        when: body.when,
        win: body.flags.win,
        fail: body.flags.fail,
        checkpoint: body.flags.checkpoint,
        reward: body.reward,
        weights: body.weights,
        also,
    })
}

// The names of the rules, and what they have beside them.
#[derive(Drop)]
struct Parts {
    names: Vec<Text>,
    bodies: Vec<Body>,
}

fn parts_of(alloc: Global, rules: Vec<NamedRule>) -> Result<Parts, ScriptRefused>
    ensures { MatchResult result
        (λ parts. (parts.names.items ≡ map (λ r. r.name) rules.items)
        × (parts.bodies.items ≡ map (λ r. r.body) rules.items))
        (λ e. e ≡ ScriptRefused.NoMemory) }
{
    let mut names = Vec::new(alloc);
    let mut bodies = Vec::new(alloc);
    for rule in rules {
        names.push(rule.name)?;
        bodies.push(rule.body)?;
    }
    Ok(Parts { names, bodies })
}

fn rules_of(alloc: Global, names: &[Text], bodies: Vec<Body>) -> Result<Vec<Rule>, ScriptRefused>
    requires { length names.now < 2 ^ 32 }
    ensures { GivesAs (λ v. v.items) (collected (rule_of names.now) [] bodies.items) result }
{
    let mut rules = Vec::new(alloc);
    for body in bodies {
        let rule = rule_of(alloc, names, body)?;
        rules.push(rule)?;
    }
    Ok(rules)
}

/// The rules of a script.
#[tactic(auto, using(crate::proofs::Sizes::sizes), unfolding(crate::specs::Script::rules_in))]
pub fn rules_in(
    alloc: Global,
    object: &Value,
    properties: &[Named],
) -> Result<Vec<Rule>, ScriptRefused>
    ensures { GivesAs (λ v. v.items) (rules_in properties.now (view object.now)) result }
{
    let named = named_rules_in(alloc, object, properties)?;
    let Parts { names, bodies } = parts_of(alloc, named)?;
    rules_of(alloc, names.as_slice(), bodies)
}
