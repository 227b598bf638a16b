//! The reading of a file.

ghost use Rattle.std.specs.Prelude.{◌≡◌, ◌⊎◌, Ok, Err, IfOk, MatchResult};
ghost use Rattle.nj_saved.specs.declared.refusal.SavedRefused.{SavedRefused};
ghost use Rattle.nj_saved.specs.Fields.{generations_below, count_of, contents_of};
ghost use Rattle.nj_saved.specs.Ranges.{IsInRange, Fits};
ghost use Rattle.nj_saved.specs.Reading.{HasHead, saved_of};

use crate::fields::{u32_at, u64_at};
use crate::generations::read_generations;
use crate::head::{check_identity, check_sizes};
use crate::tail::check_tail;
use crate::{Saved, SavedRefused};
use nj_seq::Seq;
use std::alloc::{AllocError, Global};

// The search that the fields are, with the generations that were read.
#[tactic(auto, unfolding(crate::specs::Fields::contents_of, crate::specs::Fields::words_end))]
fn contents(alloc: Global, file: &[u8], generations: Seq<Seq<u64>>) -> Result<Saved, AllocError>
    requires head { HasHead file.now }
    requires read { generations ≡ generations_below file.now (count_of file.now) }
    ensures { IfOk result (λ saved. saved ≡ contents_of file.now) }
{
    let step = u32_at(file, 24);
    let pads = u32_at(file, 28) as usize * step as usize;
    let words = Seq::from_slice(alloc, &file[44..44 + pads])?;
    Ok(Saved {
        cart: u64_at(file, 8),
        script: u64_at(file, 16),
        step,
        level: u32_at(file, 32),
        until: u32_at(file, 36),
        words,
        generations,
    })
}

/// Reads a saved file, of version 1 or 2, for the numbers of the cartridge file and of the script file with the start.
pub fn read_saved(alloc: Global, file: &[u8], cart: u64, script: u64) -> Result<Saved, SavedRefused>
    ensures value { MatchResult result (λ saved. saved_of file.now cart script ≡ Ok saved)
        (λ refused. (refused ≡ SavedRefused.NoMemory) ⊎ (saved_of file.now cart script ≡ Err refused)) }
    ensures ranges { IfOk result (λ saved. IsInRange saved) }
    ensures fits { IfOk result (λ saved. Fits saved) }
{
    check_identity(file, cart, script)?;
    check_sizes(file)?;
    let (older, end) = read_generations(alloc, file)?;
    check_tail(file, end)?;
    Ok(contents(alloc, file, older.into_generations())?)
}
