//! The reading of the generations.

ghost use Rattle.std.specs.Prelude.{◌≡◌, ◌+◌, ◌*◌, ◌≤◌, ◌⊎◌, length, Some, IfOk, MatchResult};
ghost use Rattle.std.specs.Result.{result_err};
ghost use Rattle.nj_saved.specs.declared.refusal.SavedRefused.{SavedRefused};
ghost use Rattle.nj_saved.specs.Fields.{u32_at, u64_at, key_place, key_before};
ghost use Rattle.nj_saved.specs.Reading.{key_count, count_tests, key_tests, tests_below, generation_tests, generations_tests, first_refusal, HasHead};
ghost use Rattle.nj_saved.specs.Steps.{AreKeys, IsNextGeneration, AreGenerationsTo};

use crate::SavedRefused;
use crate::fields::{range, short, u32_at, u64_at, words_end};
use crate::older::Older;
use nj_seq::Seq;
use std::alloc::Global;

/// The most keys of all generations: 2^25.
const MOST_KEYS: u64 = 33_554_432;

// The count of keys of the generation at a place.
#[tactic(auto, unfolding(crate::specs::Reading::count_tests))]
fn read_count(file: &[u8], older: &Older, at: usize) -> Result<u32, SavedRefused>
    requires there { at ≤ length file.now }
    requires few { key_count older.now ≤ MOST_KEYS }
    ensures test { first_refusal (count_tests file.now older.now at) ≡ result_err result }
    ensures count { IfOk result (λ count. count ≡ u32_at file.now at) }
    ensures there { IfOk result (λ count. at + 4 ≤ length file.now) }
    ensures few { IfOk result (λ count. key_count older.now + count ≤ MOST_KEYS) }
{
    if file.len() - at < 4 {
        return Err(short(file));
    }
    let count = u32_at(file, at);
    if count < 1 || older.count() + u64::from(count) > MOST_KEYS {
        return Err(range(at));
    }
    Ok(count)
}

// The k-th key of the generation at a place, where `last` is the key before it.
#[tactic(auto, unfolding(crate::specs::Reading::key_tests))]
fn read_key(file: &[u8], older: &Older, at: usize, k: usize, last: u64) -> Result<u64, SavedRefused>
    requires reached { key_place at k ≤ length file.now }
    requires before { last ≡ key_before file.now at k }
    ensures test { first_refusal (key_tests file.now older.now at k) ≡ result_err result }
    ensures key { IfOk result (λ key. key ≡ u64_at file.now (key_place at k)) }
    ensures there { IfOk result (λ key. key_place at k + 8 ≤ length file.now) }
{
    let place = at + 4 + 8 * k;
    if file.len() - place < 8 {
        return Err(short(file));
    }
    let key = u64_at(file, place);
    if key <= last || older.has(key) {
        return Err(range(place));
    }
    Ok(key)
}

// The keys of the generation at a place.
fn read_keys(
    alloc: Global,
    file: &[u8],
    older: &Older,
    at: usize,
    count: u32,
) -> Result<Seq<u64>, SavedRefused>
    requires count { count ≡ u32_at file.now at }
    requires reached { at + 4 ≤ length file.now }
    ensures { MatchResult result (λ keys. AreKeys file.now older.now at keys)
        (λ refused. (refused ≡ SavedRefused.NoMemory)
        ⊎ (first_refusal (tests_below (key_tests file.now older.now at) (u32_at file.now at)) ≡ Some refused)) }
{
    let mut keys = Vec::new(alloc);
    let mut last = 0;
    for k in 0..count as usize {
        last = read_key(file, older, at, k, last)?;
        keys.push(last)?;
    }
    Ok(Seq::from_vec(keys))
}

// The generation at a place.
#[tactic(auto, unfolding(crate::specs::Reading::generation_tests))]
fn read_generation(
    alloc: Global,
    file: &[u8],
    older: &Older,
    at: usize,
) -> Result<Seq<u64>, SavedRefused>
    requires there { at ≤ length file.now }
    requires few { key_count older.now ≤ MOST_KEYS }
    ensures { MatchResult result (λ keys. IsNextGeneration file.now older.now at keys)
        (λ refused. (refused ≡ SavedRefused.NoMemory)
        ⊎ (first_refusal (generation_tests file.now older.now at) ≡ Some refused)) }
{
    let count = read_count(file, older, at)?;
    read_keys(alloc, file, older, at, count)
}

// The generations of a file, and where they end.
#[tactic(auto, unfolding(crate::specs::Reading::generations_tests))]
pub(crate) fn read_generations(alloc: Global, file: &[u8]) -> Result<(Older, usize), SavedRefused>
    requires { HasHead file.now }
    ensures { MatchResult result (λ read. AreGenerationsTo file.now read.0 read.1)
        (λ refused. (refused ≡ SavedRefused.NoMemory) ⊎ (first_refusal (generations_tests file.now) ≡ Some refused)) }
{
    let mut older = Older::new(alloc);
    let mut at = words_end(file);
    for g in 0..u32_at(file, 40) {
        let keys = read_generation(alloc, file, &older, at)?;
        at += 4 + 8 * keys.len();
        older = older.with(keys)?;
    }
    Ok((older, at))
}
