//! The table of the generations of a saved search.

ghost use Rattle.std.specs.Prelude.{◌≡◌, ◌≢◌, ◌+◌, ◌^◌, ◌<◌, ◌≤◌, ℕ, None, [], length, drop, IfOk};
ghost use Rattle.std.specs.List.{All, AllPairs, concat};
ghost use Rattle.nj_search_defs.specs.Pruning.{forgotten, key_count};
ghost use Rattle.nj_claims.specs.Tables.{IsTable, entries_in, owner_in, slot_count};
ghost use Rattle.nj_seen.specs.Held.{AreInOrder, HoldsSeen, first_claim, oldest_step};

use crate::{SeenKeys, add_keys};
use nj_claims::empty_table;
use nj_seq::Seq;
use std::alloc::{AllocError, Global};

/// A table of 2 to the `exponent` slots with what is left of the generations, the newest of them of this
/// step, once the oldest are forgotten until so many keys more have room; and what is known of its keys.
pub fn table_of(
    alloc: Global,
    exponent: u32,
    generations: &Seq<Seq<u64>>,
    step: u64,
    room: u64,
) -> Result<(Vec<u64>, SeenKeys), AllocError>
    requires exponent_low { 10 ≤ exponent }
    requires exponent_high { exponent ≤ 25 }
    requires room { room ≤ 2 ^ exponent }
    requires step { step < first_claim }
    requires few { length generations.now ≤ step + 1 }
    requires in_order { All AreInOrder generations.now }
    requires once { AllPairs (λ a b. a ≢ b) (concat generations.now) }
    requires named { All (All (λ key. key ≢ 0)) generations.now }
    ensures table { IfOk result (λ told. IsTable told.0.items) }
    ensures slots { IfOk result (λ told. slot_count told.0.items ≡ 2 ^ exponent) }
    ensures seen { IfOk result (λ told. HoldsSeen told.0.items (forgotten (2 ^ exponent) room generations.now) step) }
    ensures oldest { IfOk result (λ told. told.1.oldest
        ≡ oldest_step step (forgotten (2 ^ exponent) room generations.now)) }
    ensures count { IfOk result (λ told. told.1.count ≡ key_count (forgotten (2 ^ exponent) room generations.now)) }
{
    let mut words = empty_table(alloc, exponent)?;
    let (first, count) = first_kept(generations, (words.len() / 2) as u64, room);
    fill(&mut words, generations, first, step);
    let keys = SeenKeys {
        oldest: step + 1 - (generations.len() - first) as u64,
        count,
    };
    Ok((words, keys))
}

// The place of the first generation that is kept, and how many keys there are from it on.
fn first_kept(generations: &Seq<Seq<u64>>, slots: u64, room: u64) -> (usize, u64)
    requires { room ≤ slots }
    ensures place { drop result.0 generations.now ≡ forgotten slots room generations.now }
    ensures within { result.0 ≤ length generations.now }
    ensures count { result.1 ≡ key_count (drop result.0 generations.now) }
    ensures fits { result.1 + room ≤ slots }
{
    let mut place = generations.len();
    let mut count = 0;
    while place > 0 {
        let more = generations.at(place - 1).len() as u64;
        if more > slots - room - count {
            return (place, count);
        }
        count += more;
        place -= 1;
    }
    (place, count)
}

// Adds the keys of the generations from a place on, with consecutive steps up to this one as their owners.
fn fill(words: &mut [u64], generations: &Seq<Seq<u64>>, first: usize, step: u64)
    requires table { IsTable words.old }
    requires empty { entries_in words.old ≡ [] }
    requires none { (key : ℕ) → owner_in words.old key ≡ None }
    requires within { first ≤ length generations.now }
    requires room { key_count (drop first generations.now) ≤ slot_count words.old }
    requires step { step < first_claim }
    requires few { length generations.now ≤ step + 1 }
    requires in_order { All AreInOrder generations.now }
    requires once { AllPairs (λ a b. a ≢ b) (concat generations.now) }
    requires named { All (All (λ key. key ≢ 0)) generations.now }
    ensures table { IsTable words.new }
    ensures size { length words.new ≡ length words.old }
    ensures seen { HoldsSeen words.new (drop first generations.now) step }
{
    for place in first..generations.len() {
        let owner = step + 1 + place as u64 - generations.len() as u64;
        add_keys(words, generations.at(place).as_slice(), owner);
    }
}
