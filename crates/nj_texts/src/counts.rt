//! What a cartridge and a script count.

ghost use Rattle.std.specs.Prelude.{◌≡◌, IfOk, string_bytes};
ghost use Rattle.nj_texts.specs.Counts.{cart_counts, check_line, mirror_letter, script_counts};

use nj_seq::Text;
use std::alloc::{AllocError, Global};

/// What is told of a cartridge and a script: program memory in units of 16 KiB, pattern ROM in units of 8 KiB, the
/// mirroring, how many properties, rules and different pads there are, and the bytes of the budget that a state takes.
#[derive(Clone, Copy)]
pub struct Counts {
    pub prg: usize,
    pub chr: usize,
    pub vertical: bool,
    pub properties: u32,
    pub rules: u32,
    pub inputs: u64,
    pub cost: u64,
}

fn mirror_letter(vertical: bool) -> &'static str
    ensures { result.now ≡ mirror_letter vertical }
{
    if vertical { "V" } else { "H" }
}

#[tactic(auto, unfolding(crate::specs::Counts::cart_counts))]
fn cart_counts(alloc: Global, counts: &Counts) -> Result<String, AllocError>
    ensures { IfOk result (λ text. string_bytes text ≡ cart_counts counts.now) }
{
    let mirror = mirror_letter(counts.vertical);
    let Counts { prg, chr, .. } = *counts;
    format!(in alloc; "# check prg={prg} chr={chr} mirror={mirror}")
}

#[tactic(auto, unfolding(crate::specs::Counts::script_counts))]
fn script_counts(alloc: Global, counts: &Counts) -> Result<String, AllocError>
    ensures { IfOk result (λ text. string_bytes text ≡ script_counts counts.now) }
{
    let Counts {
        properties,
        rules,
        inputs,
        cost,
        ..
    } = *counts;
    format!(in alloc; " properties={properties} rules={rules} inputs={inputs} cost={cost}\n")
}

/// The line of these counts.
#[tactic(auto, unfolding(crate::specs::Counts::check_line))]
pub fn check_line(alloc: Global, counts: Counts) -> Result<Text, AllocError>
    ensures { IfOk result (λ text. text ≡ check_line counts) }
{
    let mut line = Text::from_string(cart_counts(alloc, &counts)?);
    let rest = script_counts(alloc, &counts)?;
    line.push_str(rest.as_str())?;
    Ok(line)
}
