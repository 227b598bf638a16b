//! A step of one thread: its fresh rows, and their keys as the new generation.
ghost use Rattle.std.specs.Prelude.{◌≡◌, ◌≢◌, ℕ, ◌+◌, ◌-◌, ◌<◌, ◌≤◌, ◌==◌, ◌&&◌, ◌||◌, not, nat_eq, Some, None, ◌++◌, ◌∷◌, [], length, map, drop, IfOk, OnOk, if◌then◌else◌};
ghost use Rattle.std.specs.List.{All, AllPairs, list_any};
ghost use Rattle.std.specs.HashSet.{contains};
ghost use Rattle.nj_search_defs.specs.Pruning.{Seen};
ghost use Rattle.nj_claims.specs.Tables.{IsTable, entries_in, owner_in, slot_count};
ghost use Rattle.nj_seen.specs.Rows.{IsRising, fresh_rows};
ghost use Rattle.nj_seen.specs.Held.{HoldsSeen, oldest_step, is_owner_since};

use nj_claims::{insert, owner_of};
use nj_rows::Row;
use std::alloc::{AllocError, Global};
use std::collections::HashSet;

/// The fresh rows, as they stand: those whose key no earlier row has, nor a generation from the step
/// `from` on.
pub fn unseen(alloc: Global, rows: &[Row], words: &[u64], from: u64) -> Result<Vec<Row>, AllocError>
    requires rising { IsRising rows.now }
    requires table { IsTable words.now }
    ensures { IfOk result (λ fresh. (seen : Seen) (step : ℕ) → HoldsSeen words.now seen step
        → fresh.items ≡ fresh_rows (drop (from - oldest_step step seen) seen) rows.now) }
{
    let mut met = HashSet::new(alloc);
    let mut fresh = Vec::new(alloc);
    for row in rows {
        let is_new = is_first(&mut met, row.key, words, from)?;
        push_if(&mut fresh, *row, is_new)?;
    }
    Ok(fresh)
}

// Whether neither the keys met so far nor a generation from a step on has the key, which is met now.
fn is_first(met: &mut HashSet<u64>, key: u64, words: &[u64], from: u64) -> Result<bool, AllocError>
    requires { IsTable words.now }
    ensures first { IfOk result (λ first. first
        ≡ (not (contains nat_eq met.old key) && not (is_owner_since from (owner_in words.now key)))) }
    ensures met { OnOk result ((other : ℕ)
        → contains nat_eq met.new other ≡ (contains nat_eq met.old other || (key == other))) }
{
    let added = met.insert(key)?;
    Ok(added && !has_since(words, key, from))
}

// Whether a generation from a step on has the key.
pub(crate) fn has_since(words: &[u64], key: u64, from: u64) -> bool
    requires { IsTable words.now }
    ensures { result ≡ is_owner_since from (owner_in words.now key) }
{
    match owner_of(words, key) {
        Some(owner) => owner >= from,
        None => false,
    }
}

// Adds the row, if told to.
pub(crate) fn push_if(rows: &mut Vec<Row>, row: Row, is_told: bool) -> Result<(), AllocError>
    ensures { OnOk result (rows.new.items ≡ rows.old.items ++ (if is_told then row ∷ [] else [])) }
{
    if is_told {
        rows.push(row)?;
    }
    Ok(())
}

/// The keys of rows, as they stand.
pub fn keys_of(alloc: Global, rows: &[Row]) -> Result<Vec<u64>, AllocError>
    ensures { IfOk result (λ keys. keys.items ≡ map (λ row. row.key) rows.now) }
{
    rows.iter().map(|row| row.key).collect(alloc)
}

/// Adds new keys, whose owner becomes the step.
pub fn add_keys(words: &mut [u64], keys: &[u64], step: u64)
    requires table { IsTable words.old }
    requires named { All (λ key. key ≢ 0) keys.now }
    requires once { AllPairs (λ a b. a ≢ b) keys.now }
    requires new { All (λ key. owner_in words.old key ≡ None) keys.now }
    requires room { length (entries_in words.old) + length keys.now ≤ slot_count words.old }
    ensures table { IsTable words.new }
    ensures size { length words.new ≡ length words.old }
    ensures count { length (entries_in words.new) ≡ length (entries_in words.old) + length keys.now }
    ensures owners { (key : ℕ) → owner_in words.new key
        ≡ (if list_any (λ k. k == key) keys.now then Some step else owner_in words.old key) }
{
    for key in keys {
        insert(words, *key, step);
    }
}
