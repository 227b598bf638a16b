ghost use Rattle.std.specs.Prelude.{◌≡◌, ◌≢◌, ◌+◌, ◌*◌, ◌^◌, ◌<◌, ◌==◌, length, ◌∷◌, Some, None, if◌then◌else◌};
ghost use Rattle.std.specs.List.Sorted.{IsPermutation};
ghost use Rattle.nj_claims.specs.Tables.{IsTable, entries_in, owner_in, slot_count};
ghost use Rattle.nj_claims.specs.Places.{IsFree, IsAbsent};

use crate::words::slot_of;

// The first empty slot behind the home of a key that does not stand in the table.
fn free_slot(words: &[u64], slots: usize, key: u64) -> usize
    requires slots { (length words.now ≡ 2 * slots) × (2 * slots < 2 ^ 64) }
    requires key { (key ≢ 0) × IsAbsent slots words.now key }
    requires room { length (entries_in words.now) < slots }
    ensures { IsFree slots words.now key result }
{
    for distance in 0..slots {
        let slot = slot_of(slots, key, distance);
        if words[2 * slot] == 0 {
            return slot;
        }
    }
    unreachable!()
}

/// Puts a key that does not stand in the table into its place, with its owner. The table is one
/// thread's own.
pub fn insert(words: &mut [u64], key: u64, owner: u64)
    requires table { IsTable words.old }
    requires key { key ≢ 0 }
    requires absent { owner_in words.old key ≡ None }
    requires room { length (entries_in words.old) < slot_count words.old }
    ensures table { IsTable words.new }
    ensures entries { IsPermutation ((key, owner) ∷ entries_in words.old) (entries_in words.new) }
    ensures count { length (entries_in words.new) ≡ length (entries_in words.old) + 1 }
    ensures owners { (other : _)
        → owner_in words.new other ≡ (if key == other then Some owner else owner_in words.old other) }
{
    let slots = words.len() / 2;
    let slot = free_slot(words, slots, key);
    words[2 * slot] = key;
    words[2 * slot + 1] = owner;
}
