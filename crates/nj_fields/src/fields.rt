ghost use Rattle.std.specs.Prelude.{◌≡◌, ◌⊎◌, ◌≤◌, pos, ◌≤ℤ◌, map, IfOk, length, bytes_eq, find, not, option_map, string_bytes};
ghost use Rattle.std.specs.List.{list_any};
ghost use Rattle.std.specs.BTreeMap.{keys};
ghost use Rattle.serde_json.specs.View.{view, items_view};
ghost use Rattle.nj_fields.specs.Reading.{Gives, GivesAs, Refuses};
ghost use Rattle.nj_fields.specs.Fields.{opened, required, integer_in, integer, integer_or, natural, natural_or, truth, text_in, text, list_in, list, list_or_none};

use crate::refusal::ScriptRefused;
use nj_seq::Text;
use serde_json::{Map, Value};
use std::alloc::Global;

// ---- refusals, which own their texts

fn missing(alloc: Global, key: &str) -> ScriptRefused
    ensures { (result ≡ ScriptRefused.NoMemory) ⊎ (result ≡ ScriptRefused.Missing key.now) }
{
    match Text::from_str(alloc, key) {
        Ok(key) => ScriptRefused::Missing { key },
        Err(_) => ScriptRefused::NoMemory,
    }
}

/// The refusal of a value of a wrong kind under the key.
pub fn wrong_kind(alloc: Global, key: &str) -> ScriptRefused
    ensures { (result ≡ ScriptRefused.NoMemory) ⊎ (result ≡ ScriptRefused.WrongKind key.now) }
{
    match Text::from_str(alloc, key) {
        Ok(key) => ScriptRefused::WrongKind { key },
        Err(_) => ScriptRefused::NoMemory,
    }
}

fn out_of_range(alloc: Global, key: &str, value: i64) -> ScriptRefused
    ensures { (result ≡ ScriptRefused.NoMemory) ⊎ (result ≡ ScriptRefused.OutOfRange key.now value) }
{
    match Text::from_str(alloc, key) {
        Ok(key) => ScriptRefused::OutOfRange { key, value },
        Err(_) => ScriptRefused::NoMemory,
    }
}

fn too_many(alloc: Global, key: &str, limit: u64) -> ScriptRefused
    ensures { (result ≡ ScriptRefused.NoMemory) ⊎ (result ≡ ScriptRefused.TooMany key.now limit) }
{
    match Text::from_str(alloc, key) {
        Ok(key) => ScriptRefused::TooMany { key, limit },
        Err(_) => ScriptRefused::NoMemory,
    }
}

// ---- members

/// The member under the key, which must be there.
#[tactic(auto, unfolding(crate::specs::Fields::required))]
pub fn required<'a>(alloc: Global, object: &'a Value, key: &str) -> Result<&'a Value, ScriptRefused>
    ensures { GivesAs (λ v. view v.now) (required key.now (view object.now)) result }
{
    match object.get(key) {
        Some(value) => Ok(value),
        None => Err(missing(alloc, key)),
    }
}

#[tactic(auto, unfolding(crate::specs::Fields::integer_in))]
fn integer_in(
    alloc: Global,
    value: &Value,
    key: &str,
    low: i64,
    high: i64,
) -> Result<i64, ScriptRefused>
    ensures value { Gives (integer_in key.now low high (view value.now)) result }
    ensures within { IfOk result (λ n. (low ≤ℤ n) × (n ≤ℤ high)) }
{
    let Some(n) = value.as_i64() else {
        return Err(wrong_kind(alloc, key));
    };
    if n < low || n > high {
        return Err(out_of_range(alloc, key, n));
    }
    Ok(n)
}

/// The whole number under the key, which must be there, from `low` to `high`.
#[tactic(auto, unfolding(crate::specs::Fields::integer))]
pub fn integer(
    alloc: Global,
    object: &Value,
    key: &str,
    low: i64,
    high: i64,
) -> Result<i64, ScriptRefused>
    ensures value { Gives (integer key.now low high (view object.now)) result }
    ensures within { IfOk result (λ n. (low ≤ℤ n) × (n ≤ℤ high)) }
{
    let value = required(alloc, object, key)?;
    integer_in(alloc, value, key, low, high)
}

/// The whole number under the key, from `low` to `high`, or the default where there is none.
#[tactic(auto, unfolding(crate::specs::Fields::integer_or))]
pub fn integer_or(
    alloc: Global,
    object: &Value,
    key: &str,
    low: i64,
    high: i64,
    default: i64,
) -> Result<i64, ScriptRefused>
    requires low { low ≤ℤ default }
    requires high { default ≤ℤ high }
    ensures value { Gives (integer_or key.now low high default (view object.now)) result }
    ensures within { IfOk result (λ n. (low ≤ℤ n) × (n ≤ℤ high)) }
{
    match object.get(key) {
        Some(value) => integer_in(alloc, value, key, low, high),
        None => Ok(default),
    }
}

/// As [`integer`], for numbers from 0.
#[tactic(auto, unfolding(crate::specs::Fields::natural))]
pub fn natural(
    alloc: Global,
    object: &Value,
    key: &str,
    low: u32,
    high: u32,
) -> Result<u32, ScriptRefused>
    ensures value { Gives (natural key.now low high (view object.now)) result }
    ensures within { IfOk result (λ n. (low ≤ n) × (n ≤ high)) }
{
    let n = integer(alloc, object, key, i64::from(low), i64::from(high))?;
    Ok(n as u32)
}

/// As [`integer_or`], for numbers from 0.
#[tactic(auto, unfolding(crate::specs::Fields::natural_or))]
pub fn natural_or(
    alloc: Global,
    object: &Value,
    key: &str,
    low: u32,
    high: u32,
    default: u32,
) -> Result<u32, ScriptRefused>
    requires low { low ≤ default }
    requires high { default ≤ high }
    ensures value { Gives (natural_or key.now low high default (view object.now)) result }
    ensures within { IfOk result (λ n. (low ≤ n) × (n ≤ high)) }
{
    let n = integer_or(
        alloc,
        object,
        key,
        i64::from(low),
        i64::from(high),
        i64::from(default),
    )?;
    Ok(n as u32)
}

/// The truth value under the key, false where there is none.
#[tactic(auto, unfolding(crate::specs::Fields::truth))]
pub fn truth(alloc: Global, object: &Value, key: &str) -> Result<bool, ScriptRefused>
    ensures { Gives (truth key.now (view object.now)) result }
{
    let Some(value) = object.get(key) else {
        return Ok(false);
    };
    match value.as_bool() {
        Some(truth) => Ok(truth),
        None => Err(wrong_kind(alloc, key)),
    }
}

/// The text that the value is, which stands under the key or in its list.
#[tactic(auto, unfolding(crate::specs::Fields::text_in))]
pub fn text_in<'a>(alloc: Global, value: &'a Value, key: &str) -> Result<&'a str, ScriptRefused>
    ensures { GivesAs (λ s. s.now) (text_in key.now (view value.now)) result }
{
    match value.as_str() {
        Some(text) => Ok(text),
        None => Err(wrong_kind(alloc, key)),
    }
}

/// The text under the key, which must be there.
#[tactic(auto, unfolding(crate::specs::Fields::text))]
pub fn text<'a>(alloc: Global, object: &'a Value, key: &str) -> Result<&'a str, ScriptRefused>
    ensures { GivesAs (λ s. s.now) (text key.now (view object.now)) result }
{
    let value = required(alloc, object, key)?;
    text_in(alloc, value, key)
}

#[tactic(auto, using(crate::proofs::Sizes::sizes), unfolding(crate::specs::Fields::list_in))]
fn list_in<'a>(
    alloc: Global,
    value: &'a Value,
    key: &str,
    limit: usize,
) -> Result<&'a [Value], ScriptRefused>
    ensures value { GivesAs (λ items. items_view items.now) (list_in key.now limit (view value.now)) result }
    ensures within { IfOk result (λ items. length items.now ≤ limit) }
{
    let Some(items) = value.as_array() else {
        return Err(wrong_kind(alloc, key));
    };
    if items.len() > limit {
        return Err(too_many(alloc, key, limit as u64));
    }
    Ok(items.as_slice())
}

/// The members of the list under the key, which must be there, at most `limit`.
#[tactic(auto, unfolding(crate::specs::Fields::list))]
pub fn list<'a>(
    alloc: Global,
    object: &'a Value,
    key: &str,
    limit: usize,
) -> Result<&'a [Value], ScriptRefused>
    ensures value { GivesAs (λ items. items_view items.now) (list key.now limit (view object.now)) result }
    ensures within { IfOk result (λ items. length items.now ≤ limit) }
{
    let value = required(alloc, object, key)?;
    list_in(alloc, value, key, limit)
}

/// As [`list`], with no members where there is no list.
#[tactic(auto, unfolding(crate::specs::Fields::list_or_none))]
pub fn list_or_none<'a>(
    alloc: Global,
    object: &'a Value,
    key: &str,
    limit: usize,
) -> Result<&'a [Value], ScriptRefused>
    ensures value { GivesAs (λ items. items_view items.now) (list_or_none key.now limit (view object.now)) result }
    ensures within { IfOk result (λ items. length items.now ≤ limit) }
{
    match object.get(key) {
        Some(value) => list_in(alloc, value, key, limit),
        None => Ok(&[]),
    }
}

// ---- objects

fn unknown_key(alloc: Global, key: &str) -> ScriptRefused
    ensures { (result ≡ ScriptRefused.NoMemory) ⊎ (result ≡ ScriptRefused.UnknownKey key.now) }
{
    match Text::from_str(alloc, key) {
        Ok(key) => ScriptRefused::UnknownKey { key },
        Err(_) => ScriptRefused::NoMemory,
    }
}

fn is_among(key: &str, known: &[&str]) -> bool
    ensures { result ≡ list_any (λ word. bytes_eq key.now word.now) known.now }
{
    known.iter().any(|word| key == *word)
}

// The first key that is not among the known ones.
fn unknown_among<'a>(members: &'a Map<String, Value>, known: &[&str]) -> Option<&'a str>
    ensures { option_map (λ s. s.now) result
        ≡ find (λ key. not (list_any (λ word. bytes_eq key word.now) known.now)) (map string_bytes (keys members.now)) }
{
    for key in members.keys() {
        if !is_among(key.as_str(), known) {
            return Some(key.as_str());
        }
    }
    None
}

/// That the value is an object whose keys are all known; else it is of a wrong kind for the list that it stands in, or
/// has an unknown key.
#[tactic(auto, unfolding(crate::specs::Fields::opened))]
pub fn open(alloc: Global, value: &Value, list: &str, known: &[&str]) -> Result<(), ScriptRefused>
    ensures { GivesAs (λ _. tt) (opened list.now (map (λ s. s.now) known.now) (view value.now)) result }
{
    let Some(members) = value.as_object() else {
        return Err(wrong_kind(alloc, list));
    };
    match unknown_among(members, known) {
        Some(key) => Err(unknown_key(alloc, key)),
        None => Ok(()),
    }
}
