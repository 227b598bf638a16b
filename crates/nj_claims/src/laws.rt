//! Laws on tables and lists of keys. The functions do nothing: their contracts are the laws.
ghost use Rattle.std.specs.Prelude.{◌≡◌, ◌≢◌, ◌≤◌, ℕ, List, length, Some, ◌↔◌};
ghost use Rattle.std.specs.List.{All, AllPairs, Contains};
ghost use Rattle.nj_claims.specs.Tables.{IsTable, entries_in, keys_in, owner_in, slot_count};

/// A table's entries are its map from keys to owners: each key once, no more than there are slots.
pub fn entries_are_the_map()
    ensures once { (words : List ℕ) → IsTable words → AllPairs (λ key other. key ≢ other) (keys_in words) }
    ensures owners { (words : List ℕ) (key owner : ℕ) → IsTable words
        → Contains (entries_in words) (key, owner) ↔ (owner_in words key ≡ Some owner) }
    ensures named { (words : List ℕ) → All (λ entry. entry.0 ≢ 0) (entries_in words) }
    ensures within { (words : List ℕ) → length (entries_in words) ≤ slot_count words }
{}

/// A list of different numbers that all stand in another list is no longer than that list.
pub fn different_numbers_fit()
    ensures { (numbers others : List ℕ) → AllPairs (λ a b. a ≢ b) numbers → All (Contains others) numbers
        → length numbers ≤ length others }
{}
