ghost use Rattle.std.specs.Prelude.{◌≡◌, ◌⊎◌, ◌<◌, ◌^◌, length, position, bytes_eq, IfSome, IfOk, ℕ, slice_index_or};
ghost use Rattle.nj_fields.specs.declared.names.Named.{Named};
ghost use Rattle.nj_fields.specs.Reading.{Gives};
ghost use Rattle.nj_fields.specs.Names.{free_name, property_named, number_of, kind_named, comparison_named, pad_named};

use crate::refusal::ScriptRefused;
use nj_pad::Pad;
use nj_property::{Cmp, Kind, Property};
use nj_seq::Text;
use std::alloc::Global;

/// A property and its name.
#[derive(Drop)]
pub struct Named {
    pub name: Text,
    pub property: Property,
}

fn unknown_name(alloc: Global, name: &str) -> ScriptRefused
    ensures { (result ≡ ScriptRefused.NoMemory) ⊎ (result ≡ ScriptRefused.UnknownName name.now) }
{
    match Text::from_str(alloc, name) {
        Ok(name) => ScriptRefused::UnknownName { name },
        Err(_) => ScriptRefused::NoMemory,
    }
}

fn twice_named(alloc: Global, name: &str) -> ScriptRefused
    ensures { (result ≡ ScriptRefused.NoMemory) ⊎ (result ≡ ScriptRefused.TwiceNamed name.now) }
{
    match Text::from_str(alloc, name) {
        Ok(name) => ScriptRefused::TwiceNamed { name },
        Err(_) => ScriptRefused::NoMemory,
    }
}

/// The name, which owns its bytes, unless it is taken.
#[tactic(auto, unfolding(crate::specs::Names::free_name))]
pub fn free_name(alloc: Global, taken: bool, name: &str) -> Result<Text, ScriptRefused>
    ensures { Gives (free_name taken name.now) result }
{
    if taken {
        return Err(twice_named(alloc, name));
    }
    let name = Text::from_str(alloc, name)?;
    Ok(name)
}

/// The first property of that name.
#[tactic(auto, unfolding(crate::specs::Names::property_named))]
pub fn property_named(
    alloc: Global,
    properties: &[Named],
    name: &str,
) -> Result<Property, ScriptRefused>
    ensures property { Gives (property_named properties.now name.now) result }
    ensures among { IfOk result (λ p. (k : ℕ) × (k < length properties.now)
        × ((d : Named) → (slice_index_or properties.now k d).property ≡ p)) }
{
    for named in properties {
        if named.name.as_str() == name {
            return Ok(named.property);
        }
    }
    Err(unknown_name(alloc, name))
}

fn place_of(names: &[Text], name: &str) -> Option<usize>
    ensures place { result ≡ position (λ n. bytes_eq n name.now) names.now }
    ensures within { IfSome result (λ k. k < length names.now) }
{
    names.iter().position(|known| known.as_str() == name)
}

/// The number of the first rule of that name.
#[tactic(auto, unfolding(crate::specs::Names::number_of))]
pub fn number_of(alloc: Global, names: &[Text], name: &str) -> Result<u32, ScriptRefused>
    requires { length names.now < 2 ^ 32 }
    ensures { Gives (number_of names.now name.now) result }
{
    match place_of(names, name) {
        Some(number) => Ok(number as u32),
        None => Err(unknown_name(alloc, name)),
    }
}

/// The kind that is written so.
#[tactic(auto, unfolding(crate::specs::Names::kind_named))]
pub fn kind_named(alloc: Global, name: &str) -> Result<Kind, ScriptRefused>
    ensures { Gives (kind_named name.now) result }
{
    match name {
        "u8" => Ok(Kind::U8),
        "i8" => Ok(Kind::I8),
        "u16" => Ok(Kind::U16),
        "i16" => Ok(Kind::I16),
        _ => Err(unknown_name(alloc, name)),
    }
}

/// The comparison that is written so.
#[tactic(auto, unfolding(crate::specs::Names::comparison_named))]
pub fn comparison_named(alloc: Global, name: &str) -> Result<Cmp, ScriptRefused>
    ensures { Gives (comparison_named name.now) result }
{
    match name {
        "==" => Ok(Cmp::Eq),
        "!=" => Ok(Cmp::Ne),
        "<" => Ok(Cmp::Lt),
        "<=" => Ok(Cmp::Le),
        ">" => Ok(Cmp::Gt),
        ">=" => Ok(Cmp::Ge),
        _ => Err(unknown_name(alloc, name)),
    }
}

/// The pad that is written so: eight characters, as in a line of a movie.
#[tactic(auto, unfolding(crate::specs::Names::pad_named))]
pub fn pad_named(alloc: Global, name: &str) -> Result<Pad, ScriptRefused>
    ensures { Gives (pad_named name.now) result }
{
    match Pad::from_text(name.as_bytes()) {
        Some(pad) => Ok(pad),
        None => Err(unknown_name(alloc, name)),
    }
}
