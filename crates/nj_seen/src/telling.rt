//! The generations that a table tells, for a search that is saved.

ghost use Rattle.std.specs.Prelude.{◌≡◌, ◌<◌, ◌==◌, nat_lt, ℕ, [], ◌∷◌, ◌++◌, List, map, IfOk, OnOk, if◌then◌else◌};
ghost use Rattle.nj_search_defs.specs.Order.{in_order};
ghost use Rattle.nj_claims.specs.Tables.{IsTable, entries_in};
ghost use Rattle.nj_seen.specs.Held.{first_claim, seen_in};
ghost use Rattle.nj_seen.specs.Saved.{keys_by_owner};

use crate::SeenKeys;
use nj_seq::Seq;
use std::alloc::{AllocError, Global};

/// The generations of a table's keys at a step, the oldest first, each in rising order.
pub fn generations(
    alloc: Global,
    words: &[u64],
    keys: SeenKeys,
    step: u64,
) -> Result<Seq<Seq<u64>>, AllocError>
    requires table { IsTable words.now }
    requires step { step < first_claim }
    ensures { IfOk result (λ told. told ≡ seen_in words.now step keys.oldest) }
{
    let count = (step + 1).saturating_sub(keys.oldest);
    let lists = by_owner(alloc, words, keys.oldest, count as usize)?;
    let told = all_rising(alloc, lists)?;
    Ok(Seq::from_vec(told))
}

// The keys of so many consecutive owners, each list in the order of the slots.
fn by_owner(
    alloc: Global,
    words: &[u64],
    first: u64,
    count: usize,
) -> Result<Vec<Seq<u64>>, AllocError>
    ensures { IfOk result (λ lists. lists.items ≡ keys_by_owner (entries_in words.now) first count) }
{
    let mut lists = empty_lists(alloc, count)?;
    for slot in 0..words.len() / 2 {
        put(&mut lists, words[2 * slot], words[2 * slot + 1], first)?;
    }
    Ok(lists)
}

// So many lists with nothing in them.
fn empty_lists(alloc: Global, count: usize) -> Result<Vec<Seq<u64>>, AllocError>
    ensures { IfOk result (λ lists. (first : ℕ) → lists.items ≡ keys_by_owner [] first count) }
{
    let mut lists = Vec::new(alloc);
    for _place in 0..count {
        lists.push(Seq::new(alloc))?;
    }
    Ok(lists)
}

// Adds the key of a slot, if it has one, to the list of its owner, where there is one.
fn put(lists: &mut Vec<Seq<u64>>, key: u64, owner: u64, first: u64) -> Result<(), AllocError>
    ensures { OnOk result ((entries : List (ℕ × ℕ)) (count : ℕ) → lists.old.items ≡ keys_by_owner entries first count
        → lists.new.items ≡ keys_by_owner (entries ++ (if key == 0 then [] else (key, owner) ∷ [])) first count) }
{
    if key == 0 || owner < first || owner - first >= lists.len() as u64 {
        return Ok(());
    }
    lists[(owner - first) as usize].push(key)?;
    Ok(())
}

// Each of the lists in rising order.
fn all_rising(alloc: Global, lists: Vec<Seq<u64>>) -> Result<Vec<Seq<u64>>, AllocError>
    ensures { IfOk result (λ told. told.items ≡ map (in_order nat_lt) lists.items) }
{
    lists.into_iter().map(|list| rising(list)).collect(alloc)
}

// The list in rising order.
fn rising(list: Seq<u64>) -> Seq<u64>
    ensures { result ≡ in_order nat_lt list }
{
    let mut keys = list.into_vec();
    keys.sort_unstable();
    Seq::from_vec(keys)
}
