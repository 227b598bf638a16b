// The members of `hash` and of `bucket`, which name properties.

ghost use Rattle.std.specs.Prelude.{◌≡◌, ◌∷◌, [], List, map, codes, All, Ok};
ghost use Rattle.serde_json.specs.View.{view};
ghost use Rattle.nj_property.specs.Property.{IsPlaced};
ghost use Rattle.nj_fields.specs.Reading.{Gives, then_read};
ghost use Rattle.nj_fields.specs.Names.{property_named};
ghost use Rattle.nj_script.specs.Kinds.{range_in, range_of, item_in};
ghost use Rattle.nj_script.specs.Script.{bucket_property_in};

use nj_fields::{Member, Named, ScriptRefused, natural, open, property_named, text_in};
use nj_property::Property;
use nj_rules::HashItem;
use serde_json::Value;
use std::alloc::Global;

fn range_keys() -> &'static [&'static str]
    ensures { map (λ s. s.now) result.now ≡ codes "from" ∷ codes "to" ∷ [] }
{
    &["from", "to"]
}

#[tactic(auto, unfolding(crate::specs::Kinds::range_in))]
fn range_in(alloc: Global, value: &Value) -> Result<HashItem, ScriptRefused>
    ensures { Gives (range_in (view value.now)) result }
{
    open(alloc, value, "hash", range_keys())?;
    let from = natural(alloc, value, "from", 0, 2047)?;
    let to = natural(alloc, value, "to", from, 2047)?;
    Ok(HashItem {
        from: from as u16,
        to: to as u16,
    })
}

// The range of a property's bytes.
fn range_of(property: Property) -> HashItem
    requires { IsPlaced property }
    ensures { result ≡ range_of property }
{
    HashItem {
        from: property.at,
        to: property.at + property.kind.size() - 1,
    }
}

/// The members of `hash`: names of properties, and ranges.
#[derive(Drop)]
pub struct ItemMember<'a> {
    pub properties: &'a [Named],
    ghost placed: { All (λ n. IsPlaced n.property) properties.now },
}

impl Member for ItemMember<'_> {
    type Made = HashItem;

    ghost reading = { λ m _ d. item_in m.properties.now d };

    #[tactic(auto, unfolding(crate::specs::Kinds::item_in))]
    fn read(
        &self,
        alloc: Global,
        _before: &[HashItem],
        value: &Value,
    ) -> Result<HashItem, ScriptRefused> {
        match value.as_str() {
            Some(name) => item_named(alloc, self.properties, name),
            None => range_in(alloc, value),
        }
    }
}

// The bytes of the property of that name.
fn item_named(alloc: Global, properties: &[Named], name: &str) -> Result<HashItem, ScriptRefused>
    requires { All (λ n. IsPlaced n.property) properties.now }
    ensures { Gives (then_read (property_named properties.now name.now) (λ p. Ok (range_of p))) result }
{
    let property = property_named(alloc, properties, name)?;
    Ok(range_of(property))
}

/// The members of `bucket`: names of properties.
#[derive(Clone, Copy)]
pub struct BucketMember<'a> {
    pub properties: &'a [Named],
}

impl Member for BucketMember<'_> {
    type Made = Property;

    ghost reading = { λ m _ d. bucket_property_in m.properties.now d };

    #[tactic(auto, unfolding(crate::specs::Script::bucket_property_in))]
    fn read(
        &self,
        alloc: Global,
        _before: &[Property],
        value: &Value,
    ) -> Result<Property, ScriptRefused> {
        let name = text_in(alloc, value, "bucket")?;
        property_named(alloc, self.properties, name)
    }
}
