ghost use Rattle.std.specs.Prelude.{◌≡◌, ◌∷◌, [], List, map, codes, bytes_eq};
ghost use Rattle.std.specs.List.{list_any};
ghost use Rattle.serde_json.specs.View.{view};
ghost use Rattle.nj_fields.specs.Reading.{Gives};
ghost use Rattle.nj_fields.specs.Properties.{kind_in, property_in, property_at};

use crate::fields::{natural, open, text};
use crate::lists::Member;
use crate::names::{Named, free_name, kind_named, property_named};
use crate::refusal::ScriptRefused;
use nj_property::{Kind, Property};
use serde_json::Value;
use std::alloc::Global;

fn property_keys() -> &'static [&'static str]
    ensures { map (λ s. s.now) result.now ≡ codes "name" ∷ codes "kind" ∷ codes "at" ∷ [] }
{
    &["name", "kind", "at"]
}

#[tactic(auto, unfolding(crate::specs::Properties::kind_in))]
fn kind_in(alloc: Global, object: &Value) -> Result<Kind, ScriptRefused>
    ensures { Gives (kind_in (view object.now)) result }
{
    let name = text(alloc, object, "kind")?;
    kind_named(alloc, name)
}

fn is_taken(before: &[Named], name: &str) -> bool
    ensures { result ≡ list_any (λ n. bytes_eq n.name name.now) before.now }
{
    before.iter().any(|named| named.name.as_str() == name)
}

#[tactic(auto, unfolding(crate::specs::Properties::property_in))]
fn property_in(alloc: Global, before: &[Named], value: &Value) -> Result<Named, ScriptRefused>
    ensures { Gives (property_in before.now (view value.now)) result }
{
    open(alloc, value, "properties", property_keys())?;
    let name = text(alloc, value, "name")?;
    let name = free_name(alloc, is_taken(before, name), name)?;
    let kind = kind_in(alloc, value)?;
    let at = natural(alloc, value, "at", 0, 2048 - u32::from(kind.size()))?;
    Ok(Named {
        name,
        property: Property {
            at: at as u16,
            kind,
        },
    })
}

/// The property that the member names.
#[tactic(auto, unfolding(crate::specs::Properties::property_at))]
pub fn property_at(
    alloc: Global,
    object: &Value,
    key: &str,
    properties: &[Named],
) -> Result<Property, ScriptRefused>
    ensures { Gives (property_at key.now properties.now (view object.now)) result }
{
    let name = text(alloc, object, key)?;
    property_named(alloc, properties, name)
}

/// The members of `properties`.
#[derive(Clone, Copy)]
pub struct PropertyMember;

impl Member for PropertyMember {
    type Made = Named;

    ghost reading = { λ _ before d. property_in before d };

    fn read(&self, alloc: Global, before: &[Named], value: &Value) -> Result<Named, ScriptRefused> {
        property_in(alloc, before, value)
    }
}
