//! The properties after each frame.

ghost use Rattle.std.specs.Prelude.{◌≡◌, ◌≤◌, ◌+◌, ◌++◌, All, length, string_bytes, IfOk, OnOk};
ghost use Rattle.std.specs.Fmt.{decimal};
ghost use Rattle.std.specs.List.{flat_map};
ghost use Rattle.nj_property.specs.Property.{IsPlaced};
ghost use Rattle.nj_trace.specs.Watch.{value_text, watch_line, watch_head, watch_text};

use nj_machine::{Cart, Machine};
use nj_movie::Movie;
use nj_property::Property;
use nj_script::Script;
use nj_steps::Steps;
use std::alloc::{AllocError, Global};
use std::sync::ledger::Ledger;

#[tactic(auto, unfolding(crate::specs::Watch::watch_head))]
fn watch_head(alloc: Global, frames: usize, properties: usize) -> Result<String, AllocError>
    ensures { IfOk result (λ text. string_bytes text ≡ watch_head frames properties) }
{
    format!(in alloc; "# watch frames={frames} properties={properties}\n")
}

#[tactic(auto, unfolding(crate::specs::Watch::value_text))]
fn value_text(alloc: Global, ram: &[u8], property: &Property) -> Result<String, AllocError>
    requires ram { length ram.now ≡ 2048 }
    requires placed { IsPlaced property.now }
    ensures { IfOk result (λ text. string_bytes text ≡ value_text ram.now property.now) }
{
    let value = property.value(ram);
    format!(in alloc; " {value}")
}

fn push_values(
    alloc: Global,
    properties: &[Property],
    ram: &[u8],
    text: &mut Vec<u8>,
) -> Result<(), AllocError>
    requires ram { length ram.now ≡ 2048 }
    requires placed { All IsPlaced properties.now }
    ensures { OnOk result (text.new.items ≡ text.old.items ++ flat_map (value_text ram.now) properties.now) }
{
    for property in properties {
        let value = value_text(alloc, ram, property)?;
        text.extend_from_slice(value.as_bytes())?;
    }
    Ok(())
}

fn number_text(alloc: Global, number: usize) -> Result<String, AllocError>
    ensures { IfOk result (λ text. string_bytes text ≡ decimal number) }
{
    format!(in alloc; "{number}")
}

#[tactic(auto, unfolding(crate::specs::Watch::watch_line))]
fn push_line(
    alloc: Global,
    properties: &[Property],
    frame: usize,
    ram: &[u8],
    text: &mut Vec<u8>,
) -> Result<(), AllocError>
    requires ram { length ram.now ≡ 2048 }
    requires placed { All IsPlaced properties.now }
    ensures { OnOk result (text.new.items ≡ text.old.items ++ watch_line properties.now frame ram.now) }
{
    let number = number_text(alloc, frame)?;
    text.extend_from_slice(number.as_bytes())?;
    push_values(alloc, properties, ram, text)?;
    text.extend_from_slice(b"\n")
}

// The first line, and the values before the movie.
fn first_lines(
    alloc: Global,
    frames: usize,
    properties: &[Property],
    ram: &[u8],
) -> Result<Vec<u8>, AllocError>
    requires ram { length ram.now ≡ 2048 }
    requires placed { All IsPlaced properties.now }
    ensures { IfOk result (λ text. text.items
        ≡ watch_head frames (length properties.now) ++ watch_line properties.now 0 ram.now) }
{
    let mut text = Vec::new(alloc);
    text.extend_from_slice(watch_head(alloc, frames, properties.len())?.as_bytes())?;
    push_line(alloc, properties, 0, ram, &mut text)?;
    Ok(text)
}

/// The text of a script's properties after each frame of a movie, the first line before it. It runs a frame for each
/// pad.
#[tactic(auto, unfolding(crate::specs::Watch::watch_text))]
pub fn watch<L: Ledger>(
    alloc: Global,
    cart: &Cart,
    script: &Script,
    movie: &Movie,
    steps: &mut Steps<L>,
) -> Result<Vec<u8>, AllocError>
    ensures text { IfOk result (λ text. text.items ≡ watch_text cart.now script.now.properties movie.now) }
    ensures frames { steps.new ≤ steps.old + length movie.now }
    ensures never_falls { steps.old ≤ steps.new }
{
    let properties = script.properties();
    let pads = movie.pads();
    let mut machine = Machine::power_on(alloc, cart)?;
    let mut text = first_lines(alloc, pads.len(), properties, machine.ram())?;
    for (frame, pad) in pads.iter().enumerate() {
        machine.frame(*pad, steps);
        push_line(alloc, properties, frame + 1, machine.ram(), &mut text)?;
    }
    Ok(text)
}
