ghost use Rattle.std.specs.Prelude.{◌≡◌, ◌*◌, ◌+◌, ◌-◌, ◌<◌, ◌≤◌, ℕ, [], length, drop, IfOk};
ghost use Rattle.std.specs.List.{All};
ghost use Rattle.std.specs.List.Sorted.{IsPermutation};
ghost use Rattle.nj_search_defs.specs.Pruning.{Seen, forgotten, key_count};
ghost use Rattle.nj_claims.specs.Tables.{IsTable, entries_in, slot_count};
ghost use Rattle.nj_seen.specs.Held as held;
ghost use Rattle.nj_seen.specs.Held.{HoldsSeen, IsOldestKept, IsWithRoom, entries_since, first_claim, oldest_step};

use nj_claims::{different_numbers_fit, entries_are_the_map, insert};
use std::alloc::{AllocError, Global};

/// What is known of the seen keys of a table without a look at its words.
#[derive(Clone, Copy)]
pub struct SeenKeys {
    /// The step of the oldest generation; where there is none, the step after the last.
    pub oldest: u64,
    /// How many keys are seen.
    pub count: u64,
}

/// What is left of the seen keys once so many more have room. The words are looked at only where
/// something is forgotten.
pub fn left(words: &[u64], keys: SeenKeys, room: u64) -> SeenKeys
    requires table { IsTable words.now }
    requires fits { room ≤ slot_count words.now }
    requires steps { All (λ entry. entry.1 < first_claim) (entries_in words.now) }
    requires count { keys.count ≤ slot_count words.now }
    ensures oldest { (seen : Seen) (step : ℕ) → HoldsSeen words.now seen step
        → keys.oldest ≡ oldest_step step seen → keys.count ≡ key_count seen
        → result.oldest ≡ oldest_step step (forgotten (slot_count words.now) room seen) }
    ensures gone { (seen : Seen) (step : ℕ) → HoldsSeen words.now seen step
        → keys.oldest ≡ oldest_step step seen → keys.count ≡ key_count seen
        → drop (result.oldest - keys.oldest) seen ≡ forgotten (slot_count words.now) room seen }
    ensures count { (seen : Seen) (step : ℕ) → HoldsSeen words.now seen step
        → keys.oldest ≡ oldest_step step seen → keys.count ≡ key_count seen
        → result.count ≡ key_count (forgotten (slot_count words.now) room seen) }
{
    entries_are_the_map();
    different_numbers_fit();
    if keys.count + room <= (words.len() / 2) as u64 {
        return keys;
    }
    let from = oldest_kept(words, room);
    SeenKeys {
        oldest: from.max(keys.oldest),
        count: count_since(words, from),
    }
}

/// The table without the oldest generations: they are forgotten one by one, until the keys that are
/// kept leave room for as many as a front may have children.
pub fn room(alloc: Global, words: &[u64], front: u64, inputs: u64) -> Result<Vec<u64>, AllocError>
    requires table { IsTable words.now }
    requires fits { front * inputs ≤ slot_count words.now }
    requires steps { All (λ entry. entry.1 < first_claim) (entries_in words.now) }
    ensures table { IfOk result (λ rest. IsTable rest.items) }
    ensures size { IfOk result (λ rest. length rest.items ≡ length words.now) }
    ensures exact { IfOk result (λ rest. IsWithRoom words.now (front * inputs) rest.items) }
    ensures room { IfOk result (λ rest. length (entries_in rest.items) + front * inputs ≤ slot_count rest.items) }
    ensures seen { IfOk result (λ rest. (seen : Seen) (step : ℕ) → HoldsSeen words.now seen step
        → HoldsSeen rest.items (forgotten (slot_count words.now) (front * inputs) seen) step) }
{
    entries_are_the_map();
    different_numbers_fit();
    let from = oldest_kept(words, front * inputs);
    since(alloc, words, from)
}

// The step of the oldest generation that is kept.
fn oldest_kept(words: &[u64], room: u64) -> u64
    requires fits { room ≤ slot_count words.now }
    requires steps { All (λ entry. entry.1 < first_claim) (entries_in words.now) }
    ensures { IsOldestKept words.now room result }
{
    let most = (words.len() / 2) as u64 - room;
    let mut from = 0;
    while count_since(words, from) > most {
        from = first_since(words, from) + 1;
    }
    from
}

// Whether a slot holds a key whose owner is this step or a later one.
pub(crate) fn is_since(words: &[u64], slot: usize, from: u64) -> bool
    requires { 2 * slot + 1 < length words.now }
    ensures { result ≡ held.is_since from words.now slot }
{
    words[2 * slot] != 0 && words[2 * slot + 1] >= from
}

// How many keys have an owner from a step on.
fn count_since(words: &[u64], from: u64) -> u64
    ensures { result ≡ length (entries_since from words.now) }
{
    let mut count = 0;
    for slot in 0..words.len() / 2 {
        if is_since(words, slot, from) {
            count += 1;
        }
    }
    count
}

// The least owner from a step on, or 2^64 - 1.
fn first_since(words: &[u64], from: u64) -> u64
    ensures least { All (λ entry. result ≤ entry.1) (entries_since from words.now) }
    ensures within { from ≤ result }
{
    let mut first = u64::MAX;
    for slot in 0..words.len() / 2 {
        if is_since(words, slot, from) {
            first = first.min(words[2 * slot + 1]);
        }
    }
    first
}

// A table of as many slots, all empty.
fn emptied(alloc: Global, words: &[u64]) -> Result<Vec<u64>, AllocError>
    requires { IsTable words.now }
    ensures table { IfOk result (λ rest. IsTable rest.items) }
    ensures size { IfOk result (λ rest. length rest.items ≡ length words.now) }
    ensures empty { IfOk result (λ rest. entries_in rest.items ≡ []) }
{
    let mut rest = vec![in alloc; u64::MAX; words.len()]?;
    for slot in 0..words.len() / 2 {
        rest[2 * slot] = 0;
    }
    Ok(rest)
}

// The table of the keys whose owner is this step or a later one.
fn since(alloc: Global, words: &[u64], from: u64) -> Result<Vec<u64>, AllocError>
    requires { IsTable words.now }
    ensures table { IfOk result (λ rest. IsTable rest.items) }
    ensures size { IfOk result (λ rest. length rest.items ≡ length words.now) }
    ensures kept { IfOk result (λ rest. IsPermutation (entries_since from words.now) (entries_in rest.items)) }
{
    if from == 0 {
        return Vec::from_slice(alloc, words);
    }
    entries_are_the_map();
    let mut rest = emptied(alloc, words)?;
    for slot in 0..words.len() / 2 {
        if is_since(words, slot, from) {
            insert(&mut rest, words[2 * slot], words[2 * slot + 1]);
        }
    }
    Ok(rest)
}
