ghost use Rattle.std.specs.Prelude.{◌≡◌, ◌≢◌, ◌*◌, ◌^◌, ◌<◌, ◌≤◌, [], length, IfOk, IsTrue, ◌↔◌, None};
ghost use Rattle.nj_claims.specs.Tables.{IsTable, entries_in, owner_in, slot_count, slot_from};
ghost use Rattle.nj_claims.specs.Places.{FitsSlot, IsFind};

use std::alloc::{AllocError, Global};

// The slot at a distance behind the key's home, round the table.
pub(crate) fn slot_of(slots: usize, key: u64, distance: usize) -> usize
    requires { (distance < slots) × (2 * slots < 2 ^ 64) }
    ensures slot { result ≡ slot_from slots key distance }
    ensures inside { result < slots }
{
    let home = (key % slots as u64) as usize;
    (home + distance) % slots
}

// The slot that holds the key: the first from its home that holds it or is empty. None where that slot is empty, or all
// hold other keys.
fn find(words: &[u64], slots: usize, key: u64) -> Option<usize>
    requires slots { (0 < slots) × (2 * slots ≤ length words.now) × (2 * slots < 2 ^ 64) }
    requires key { key ≢ 0 }
    ensures { IsFind slots words.now key result }
{
    for distance in 0..slots {
        let slot = slot_of(slots, key, distance);
        let held = words[2 * slot];
        if held == key {
            return Some(slot);
        }
        if held == 0 {
            return None;
        }
    }
    None
}

// Whether a slot is empty and has no owner, or its key stands in its place there.
fn fits(words: &[u64], slots: usize, slot: usize) -> bool
    requires slots { (2 * slots ≤ length words.now) × (2 * slots < 2 ^ 64) × (slot < slots) }
    ensures { IsTrue result ↔ FitsSlot slots words.now slot }
{
    let key = words[2 * slot];
    if key == 0 {
        words[2 * slot + 1] == u64::MAX
    } else {
        match find(words, slots, key) {
            Some(found) => found == slot,
            None => false,
        }
    }
}

/// Whether the words are a table: two for each of 2^k slots, with every key in its place.
pub fn is_table(words: &[u64]) -> bool
    ensures { IsTrue result ↔ IsTable words.now }
{
    let count = words.len();
    if count < 2 {
        return false;
    }
    if !count.is_power_of_two() {
        return false;
    }
    let slots = count / 2;
    for slot in 0..slots {
        if !fits(words, slots, slot) {
            return false;
        }
    }
    true
}

/// The owner of a key.
pub fn owner_of(words: &[u64], key: u64) -> Option<u64>
    requires { IsTable words.now }
    ensures { result ≡ owner_in words.now key }
{
    if key == 0 {
        return None;
    }
    let slots = words.len() / 2;
    let slot = find(words, slots, key)?;
    Some(words[2 * slot + 1])
}

/// A table of 2^exponent empty slots.
pub fn empty_table(alloc: Global, exponent: u32) -> Result<Vec<u64>, AllocError>
    requires { (10 ≤ exponent) × (exponent ≤ 25) }
    ensures table { IfOk result (λ words. IsTable words.items) }
    ensures slots { IfOk result (λ words. slot_count words.items ≡ 2 ^ exponent) }
    ensures empty { IfOk result (λ words. entries_in words.items ≡ []) }
    ensures owners { IfOk result (λ words. (key : _) → owner_in words.items key ≡ None) }
{
    let slots = 1_usize << exponent;
    let mut words = vec![in alloc; u64::MAX; 2 * slots]?;
    for slot in 0..slots {
        words[2 * slot] = 0;
    }
    Ok(words)
}
