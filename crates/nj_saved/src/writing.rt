//! The writing of a file.

ghost use Rattle.std.specs.Prelude.{◌≡◌, ◌++◌, IfOk, is_ok, if◌then◌else◌, length, ◌<◌, ◌^◌, ◌≤◌};
ghost use Rattle.std.specs.List.{flat_map};
ghost use Rattle.std.specs.Int.{w32, w64, to_le_bytes};
ghost use Rattle.nj_saved.specs.Ranges.{IsInRange, words_of};
ghost use Rattle.nj_saved.specs.Bytes.{head_bytes, generation_bytes, field_bytes, file_bytes};

use crate::Saved;
use nj_bytes::fnv;
use std::alloc::{AllocError, Global};

/// The version that is written.
const VERSION: u32 = 2;

// The number of words of the front.
fn words(saved: &Saved) -> u32
    requires { IsInRange saved.now }
    ensures { result ≡ words_of saved.now }
{
    (saved.words.len() / saved.step as usize) as u32
}

// Adds a number of four bytes.
fn add_u32(bytes: &mut Vec<u8>, number: u32) -> Result<(), AllocError>
    ensures { IfOk result (λ done. bytes.new.items ≡ bytes.old.items ++ to_le_bytes w32 number) }
{
    bytes.extend_from_slice(&number.to_le_bytes())
}

// Adds a number of eight bytes.
fn add_u64(bytes: &mut Vec<u8>, number: u64) -> Result<(), AllocError>
    ensures { IfOk result (λ done. bytes.new.items ≡ bytes.old.items ++ to_le_bytes w64 number) }
{
    bytes.extend_from_slice(&number.to_le_bytes())
}

// A text that begins with the numbers before the words.
#[tactic(auto, unfolding(crate::specs::Bytes::head_bytes, crate::specs::Fields::file_name))]
fn head(alloc: Global, saved: &Saved) -> Result<Vec<u8>, AllocError>
    requires { IsInRange saved.now }
    ensures { IfOk result (λ bytes. bytes.items ≡ head_bytes 2 saved.now) }
{
    let mut bytes = Vec::from_slice(alloc, b"NJSV")?;
    add_u32(&mut bytes, VERSION)?;
    add_u64(&mut bytes, saved.cart)?;
    add_u64(&mut bytes, saved.script)?;
    add_u32(&mut bytes, saved.step)?;
    add_u32(&mut bytes, words(saved))?;
    add_u32(&mut bytes, saved.level)?;
    add_u32(&mut bytes, saved.until)?;
    add_u32(&mut bytes, saved.generations.len() as u32)?;
    Ok(bytes)
}

// Adds keys.
fn add_keys(bytes: &mut Vec<u8>, keys: &[u64]) -> Result<(), AllocError>
    ensures { IfOk result (λ done. bytes.new.items ≡ bytes.old.items ++ flat_map (to_le_bytes w64) keys.now) }
{
    for key in keys {
        add_u64(bytes, *key)?;
    }
    Ok(())
}

// Adds a generation: the count of its keys, and then these.
#[tactic(auto, unfolding(crate::specs::Bytes::generation_bytes))]
fn add_generation(bytes: &mut Vec<u8>, keys: &[u64]) -> Result<(), AllocError>
    requires { length keys.now < 2 ^ 32 }
    ensures { IfOk result (λ done. bytes.new.items ≡ bytes.old.items ++ generation_bytes keys.now) }
{
    add_u32(bytes, keys.len() as u32)?;
    add_keys(bytes, keys)
}

/// Writes a saved file of version 2.
#[tactic(auto, unfolding(crate::specs::Bytes::file_bytes, crate::specs::Bytes::field_bytes))]
pub fn write_saved(alloc: Global, saved: &Saved) -> Result<Vec<u8>, AllocError>
    requires { IsInRange saved.now }
    ensures bytes { IfOk result (λ bytes. bytes.items ≡ file_bytes 2 saved.now) }
{
    let mut bytes = head(alloc, saved)?;
    bytes.extend_from_slice(saved.words.as_slice())?;
    for keys in saved.generations.as_slice() {
        add_generation(&mut bytes, keys.as_slice())?;
    }
    let hash = fnv(bytes.as_slice());
    add_u64(&mut bytes, hash)?;
    Ok(bytes)
}
