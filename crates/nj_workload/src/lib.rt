//! A workload made from a number: a small game for the NES, the script of a search in it, and the movie that the search
//! starts from. Nothing has to be fetched to try a search, and equal numbers give equal files.
#![tactic(auto)]

mod cartridge;
mod generator;
mod laws;
mod script;

ghost use Rattle.std.specs.Prelude.{◌≡◌, IfOk, length, take, slice_index};
ghost use Rattle.nj_workload.specs.Game.{file_with, game_file};
ghost use Rattle.nj_workload.specs.Script.{script_with, script_text, start_text};

use crate::generator::drawn;
pub use laws::{game_file_is_read, game_file_size};
use nj_seq::{Seq, Text};
use std::alloc::{AllocError, Global};

/// The files of a search.
#[derive(Debug, Drop)]
pub struct Workload {
    /// The cartridge's file.
    pub cart: Seq<u8>,
    /// The script's file.
    pub script: Text,
    /// The text of the movie that the search starts from.
    pub start: Text,
}

// The files of the bytes that were drawn: two tables, and the two values of the goal.
fn files_of(alloc: Global, bytes: &[u8]) -> Result<Workload, AllocError>
    requires { length bytes.now ≡ 514 }
    ensures cart { IfOk result (λ made. made.cart ≡ file_with (take 512 bytes.now)) }
    ensures script { IfOk result (λ made. made.script
        ≡ script_with (slice_index bytes.now 512) (slice_index bytes.now 513)) }
    ensures start { IfOk result (λ made. made.start ≡ start_text) }
{
    let cart = cartridge::made(alloc, &bytes[..512])?;
    let script = script::made(alloc, bytes[512], bytes[513])?;
    let start = script::blank_frames(alloc)?;
    Ok(Workload {
        cart,
        script,
        start,
    })
}

/// The workload of a number.
#[tactic(auto, using(crate::proofs::Bytes::drawn_length, crate::proofs::Bytes::file_drawn, crate::proofs::Bytes::script_drawn))]
pub fn make_workload(alloc: Global, number: u64) -> Result<Workload, AllocError>
    ensures cart { IfOk result (λ made. made.cart ≡ game_file number) }
    ensures script { IfOk result (λ made. made.script ≡ script_text number) }
    ensures start { IfOk result (λ made. made.start ≡ start_text) }
{
    let bytes = drawn(alloc, number)?;
    files_of(alloc, bytes.as_slice())
}

#[cfg(test)]
mod tests;
