//! The assembler.

ghost use Rattle.std.specs.Prelude.{◌≡◌, ◌⊎◌, ◌||◌, ◌++◌, None, Some, Ok, Err, false, IfOk, IfErr, MatchResult};
ghost use Rattle.nj_asm.specs.Assembly.{homes, is_said, origin_of, first_refused, bytes_from, assembly_in, assembly_of};

use crate::emission::{fault_of, is_said, push_bytes};
use crate::labels::{Labels, homes_of, origin_of, size_of};
use crate::refusals::{AsmRefused, refused};
use nj_asm_lines::{Line, Statement, read_lines};
use nj_seq::Seq;
use std::alloc::Global;

/// The bytes of a source, and the address where they begin.
#[derive(Drop)]
pub struct Assembled {
    pub origin: u16,
    pub bytes: Seq<u8>,
}

// Whether a statement stands on this line or before it.
fn has_begun(begun: bool, statement: &Statement) -> bool
    ensures { result ≡ (begun || is_said statement.now) }
{
    begun || is_said(statement)
}

// The bytes of the lines, or the first refusal.
fn emitted(
    alloc: Global,
    labels: &Labels,
    origin: u16,
    lines: &[Line],
) -> Result<Seq<u8>, AsmRefused>
    ensures bytes { IfOk result (λ bytes. (first_refused (homes labels.now) false origin 0 lines.now ≡ None)
        × (bytes ≡ bytes_from (homes labels.now) origin lines.now)) }
    ensures refused { IfErr result (λ refusal. (refusal ≡ AsmRefused.NoMemory)
        ⊎ (first_refused (homes labels.now) false origin 0 lines.now ≡ Some refusal)) }
{
    let mut bytes = Seq::new(alloc);
    let mut at = u32::from(origin);
    let mut begun = false;
    for (index, line) in lines.iter().enumerate() {
        if let Some(fault) = fault_of(labels, begun, at, index as u64, line) {
            return Err(refused(fault, index as u64 + 1));
        }
        push_bytes(&mut bytes, labels, at, &line.statement)?;
        at += size_of(&line.statement) as u32;
        begun = has_begun(begun, &line.statement);
    }
    Ok(bytes)
}

#[tactic(auto, unfolding(crate::specs::Assembly::assembly_in))]
fn assemble_lines(alloc: Global, lines: &[Line]) -> Result<Assembled, AsmRefused>
    ensures { MatchResult result (λ assembled. assembly_in lines.now ≡ Ok assembled)
        (λ refusal. (refusal ≡ AsmRefused.NoMemory) ⊎ (assembly_in lines.now ≡ Err refusal)) }
{
    let origin = origin_of(lines);
    let labels = homes_of(alloc, origin, lines)?;
    let bytes = emitted(alloc, &labels, origin, lines)?;
    Ok(Assembled { origin, bytes })
}

/// The bytes of a source of UTF-8 text, or its first refusal.
#[tactic(auto, unfolding(crate::specs::Assembly::assembly_of))]
pub fn assemble(alloc: Global, source: &[u8]) -> Result<Assembled, AsmRefused>
    ensures assembled { IfOk result (λ assembled. assembly_of source.now ≡ Ok assembled) }
    ensures refused { IfErr result
        (λ refusal. (refusal ≡ AsmRefused.NoMemory) ⊎ (assembly_of source.now ≡ Err refusal)) }
{
    let lines = read_lines(alloc, source)?;
    assemble_lines(alloc, lines.as_slice())
}
