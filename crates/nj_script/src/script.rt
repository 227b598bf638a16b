ghost use Rattle.std.specs.Prelude.{◌≡◌, ◌≤◌, ◌∷◌, [], List, map, length, codes, All, Some, None, IfOk, MatchResult, ◌⊎◌};
ghost use Rattle.serde_json.specs.View.{view};
ghost use Rattle.nj_property.specs.Property.{IsPlaced};
ghost use Rattle.nj_rules.specs.Limits.{AreRulesInRange, AreSetsInRange, AreItemsInRange};
ghost use Rattle.nj_rules.specs.Pads.{named_pads};
ghost use Rattle.nj_fields.specs.Reading.{Gives, GivesAs};
ghost use Rattle.nj_script.specs.Script.{properties_in, items_in, sets_in, version_in, script_keys, head_in, bucket_in, json_of, script_in, script_of};

use crate::items::{BucketMember, ItemMember};
use crate::naming::rules_in;
use crate::sets::SetMember;
use nj_fields::{
    Named, PropertyMember, ScriptRefused, list, list_or_none, natural_or, open, read_each,
    required, wrong_kind,
};
use nj_rules::{HashItem, HashItems, InputSet, InputSets, Property, Rules, pad_count};
use nj_seq::Seq;
use serde_json::Value;
use std::alloc::Global;
use std::marker::Model;

// ---- the lists of a script

#[tactic(auto, unfolding(crate::specs::Script::properties_in))]
fn read_properties(alloc: Global, object: &Value) -> Result<Vec<Named>, ScriptRefused>
    ensures value { GivesAs (λ v. v.items) (properties_in (view object.now)) result }
    ensures few { IfOk result (λ v. length v.items ≤ 64) }
{
    let items = list(alloc, object, "properties", 64)?;
    read_each(alloc, items, &PropertyMember)
}

fn properties_in(alloc: Global, object: &Value) -> Result<Vec<Named>, ScriptRefused>
    ensures value { GivesAs (λ v. v.items) (properties_in (view object.now)) result }
    ensures few { IfOk result (λ v. length v.items ≤ 64) }
    ensures placed { IfOk result (λ v. All (λ n. IsPlaced n.property) v.items) }
{
    let properties = read_properties(alloc, object)?;
    Ok(properties)
}

#[tactic(auto, unfolding(crate::specs::Script::items_in))]
fn items_in(
    alloc: Global,
    object: &Value,
    properties: &[Named],
) -> Result<Vec<HashItem>, ScriptRefused>
    requires { All (λ n. IsPlaced n.property) properties.now }
    ensures { GivesAs (λ v. v.items) (items_in properties.now (view object.now)) result }
{
    let items = list(alloc, object, "hash", 64)?;
    read_each(alloc, items, &ItemMember { properties })
}

#[tactic(auto, unfolding(crate::specs::Script::sets_in))]
fn sets_in(
    alloc: Global,
    object: &Value,
    properties: &[Named],
) -> Result<Vec<InputSet>, ScriptRefused>
    ensures { GivesAs (λ v. v.items) (sets_in properties.now (view object.now)) result }
{
    let items = list(alloc, object, "inputs", 32)?;
    read_each(alloc, items, &SetMember { properties })
}

#[tactic(auto, unfolding(crate::specs::Script::bucket_in))]
fn bucket_in(
    alloc: Global,
    object: &Value,
    properties: &[Named],
) -> Result<Vec<Property>, ScriptRefused>
    ensures { GivesAs (λ v. v.items) (bucket_in properties.now (view object.now)) result }
{
    let items = list_or_none(alloc, object, "bucket", 4)?;
    read_each(alloc, items, &BucketMember { properties })
}

// ---- the whole

/// The version of a script's text, which says what keys it may have.
#[derive(Clone, Copy)]
pub enum ScriptVersion {
    One,
    /// With `bucket` and `quota`.
    Two,
}

#[tactic(auto, unfolding(crate::specs::Script::version_in))]
fn version_in(alloc: Global, object: &Value) -> Result<ScriptVersion, ScriptRefused>
    ensures { Gives (version_in (view object.now)) result }
{
    let value = required(alloc, object, "version")?;
    match value.as_i64() {
        Some(1) => Ok(ScriptVersion::One),
        Some(2) => Ok(ScriptVersion::Two),
        Some(n) => Err(ScriptRefused::Version { n }),
        None => Err(wrong_kind(alloc, "version")),
    }
}

fn keys_of_script(version: ScriptVersion) -> &'static [&'static str]
    ensures { map (λ s. s.now) result.now ≡ script_keys version }
{
    match version {
        ScriptVersion::One => &[
            "version",
            "properties",
            "hash",
            "hold",
            "tolerance",
            "inputs",
            "rules",
        ],
        ScriptVersion::Two => &[
            "version",
            "properties",
            "hash",
            "hold",
            "tolerance",
            "inputs",
            "rules",
            "bucket",
            "quota",
        ],
    }
}

#[tactic(auto, unfolding(crate::specs::Script::head_in))]
fn head_in(alloc: Global, value: &Value) -> Result<(), ScriptRefused>
    ensures { GivesAs (λ _. tt) (head_in (view value.now)) result }
{
    if !value.is_object() {
        return Err(wrong_kind(alloc, ""));
    }
    let version = version_in(alloc, value)?;
    open(alloc, value, "", keys_of_script(version))
}

// The JSON value of a text of bytes.
#[tactic(auto, using(crate::proofs::Json::texts), unfolding(crate::specs::Script::json_of))]
fn json_in(alloc: Global, bytes: &[u8]) -> Result<Value, ScriptRefused>
    ensures { MatchResult result (λ value. json_of bytes.now ≡ Some (view value))
        (λ e. (e ≡ ScriptRefused.NoMemory) ⊎ ((e ≡ ScriptRefused.NotJson) × (json_of bytes.now ≡ None))) }
{
    match Value::from_slice(alloc, bytes) {
        Ok(value) => Ok(value),
        Err(e) => {
            if e.is_memory() {
                Err(ScriptRefused::NoMemory)
            } else {
                Err(ScriptRefused::NotJson)
            }
        }
    }
}

/// A script: what a search is told of a game.
#[derive(Drop)]
pub struct Script {
    properties: Seq<Property>,
    hash: HashItems,
    hold: u32,
    tolerance: u32,
    inputs: InputSets,
    rules: Rules,
    bucket: Seq<Property>,
    quota: u32,
}

impl Model for Script {
    ghost use Rattle.nj_script.specs.Script.{Record, IsInRange};

    ghost Value = { Record };

    ghost view = { λ s. record {
      properties = s.properties;
      hash = s.hash;
      hold = s.hold;
      tolerance = s.tolerance;
      inputs = s.inputs;
      rules = s.rules;
      bucket = s.bucket;
      quota = s.quota;
    } };

    ghost invariant = { λ s. IsInRange (record {
      properties = s.properties;
      hash = s.hash;
      hold = s.hold;
      tolerance = s.tolerance;
      inputs = s.inputs;
      rules = s.rules;
      bucket = s.bucket;
      quota = s.quota;
    }) };
}

fn without_names(alloc: Global, properties: &[Named]) -> Result<Seq<Property>, ScriptRefused>
    ensures { MatchResult result (λ ps. ps ≡ map (λ n. n.property) properties.now)
        (λ e. e ≡ ScriptRefused.NoMemory) }
{
    let mut bare = Seq::new(alloc);
    for named in properties {
        bare.push(named.property)?;
    }
    Ok(bare)
}

#[tactic(auto, unfolding(crate::specs::Script::script_in))]
fn script_in(alloc: Global, value: &Value) -> Result<Script, ScriptRefused>
    ensures { Gives (script_in (view value.now)) result }
{
    head_in(alloc, value)?;
    let named = properties_in(alloc, value)?;
    let items = items_in(alloc, value, named.as_slice())?;
    let hold = natural_or(alloc, value, "hold", 1, 60, 1)?;
    let tolerance = natural_or(alloc, value, "tolerance", 0, 1_048_576, 0)?;
    let sets = sets_in(alloc, value, named.as_slice())?;
    let rules = rules_in(alloc, value, named.as_slice())?;
    let bucket = bucket_in(alloc, value, named.as_slice())?;
    let quota = natural_or(alloc, value, "quota", 1, 1_048_576, 1_048_576)?;
    let properties = without_names(alloc, named.as_slice())?;
    Ok(Script {
        properties,
        hash: HashItems {
            items: Seq::from_vec(items),
        },
        hold,
        tolerance,
        inputs: InputSets {
            sets: Seq::from_vec(sets),
        },
        rules: Rules {
            rules: Seq::from_vec(rules),
        },
        bucket: Seq::from_vec(bucket),
        quota,
    })
}

impl Script {
    /// What the bytes of a file say, or the first refusal.
    #[tactic(auto, unfolding(crate::specs::Script::script_of))]
    pub fn read(alloc: Global, bytes: &[u8]) -> Result<Script, ScriptRefused>
        ensures { Gives (script_of bytes.now) result }
    {
        let value = json_in(alloc, bytes)?;
        script_in(alloc, &value)
    }

    /// The rules, in the script's order, by which they are numbered.
    pub fn rules(&self) -> &Rules
        ensures value { result.now ≡ self.now.rules }
        ensures in_range { AreRulesInRange result.now.rules }
    {
        &self.rules
    }

    /// The sets of pads, in order.
    pub fn inputs(&self) -> &InputSets
        ensures value { result.now ≡ self.now.inputs }
        ensures in_range { AreSetsInRange result.now.sets }
    {
        &self.inputs
    }

    /// The ranges of working memory whose bytes tell states apart, in order.
    pub fn hash(&self) -> &HashItems
        ensures value { result.now ≡ self.now.hash }
        ensures in_range { AreItemsInRange result.now.items }
    {
        &self.hash
    }

    /// The frames of one step.
    pub fn hold(&self) -> u32
        ensures value { result ≡ self.now.hold }
        ensures low { 1 ≤ result }
        ensures high { result ≤ 60 }
    {
        self.hold
    }

    /// The steps for which states of a lower level live on after a higher one was kept.
    pub fn tolerance(&self) -> u32
        ensures value { result ≡ self.now.tolerance }
        ensures within { result ≤ 1048576 }
    {
        self.tolerance
    }

    /// The properties in the script's order, without their names.
    pub fn properties(&self) -> &[Property]
        ensures value { result.now ≡ self.now.properties }
        ensures placed { All IsPlaced result.now }
        ensures few { length result.now ≤ 64 }
    {
        self.properties.as_slice()
    }

    /// The properties whose values in a state are its bucket, in order; none in a script of version 1.
    pub fn bucket(&self) -> &[Property]
        ensures value { result.now ≡ self.now.bucket }
        ensures few { length result.now ≤ 4 }
        ensures placed { All IsPlaced result.now }
    {
        self.bucket.as_slice()
    }

    /// How many kept states may have one bucket; 1,048,576 in a script of version 1.
    pub fn quota(&self) -> u32
        ensures value { result ≡ self.now.quota }
        ensures low { 1 ≤ result }
        ensures high { result ≤ 1048576 }
    {
        self.quota
    }

    /// How many properties there are.
    pub fn property_count(&self) -> u32
        ensures value { result ≡ length self.now.properties }
        ensures within { result ≤ 64 }
    {
        self.properties.len() as u32
    }

    /// How many rules there are.
    pub fn rule_count(&self) -> u32
        ensures value { result ≡ length self.now.rules.rules }
        ensures within { result ≤ 128 }
    {
        self.rules.rules.len() as u32
    }

    /// How many different pads the input sets name, whatever their conditions.
    pub fn input_count(&self) -> u64
        ensures value { result ≡ length (named_pads self.now.inputs.sets) }
        ensures within { result ≤ 256 }
    {
        pad_count(&self.inputs)
    }
}
