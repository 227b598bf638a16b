//! Laws on the seen keys in a claim table. The functions do nothing: their contracts are the laws.
ghost use Rattle.std.specs.Prelude.{◌≡◌, ◌≢◌, ℕ, Bool, ◌+◌, ◌-◌, ◌<◌, ◌≤◌, ◌==◌, List, [], ◌∷◌, ◌++◌, length, map, filter, drop, true, Some, None, option_map, if◌then◌else◌};
ghost use Rattle.std.specs.List.{All, AllPairs, Contains, list_any};
ghost use Rattle.std.specs.List.Sorted.{IsPermutation};
ghost use Rattle.nj_search_defs.specs.Pruning.{Seen, key_count};
ghost use Rattle.nj_rows.specs.declared.Row.{Row};
ghost use Rattle.nj_rows.specs.Order.{is_win_row};
ghost use Rattle.nj_claims.specs.Tables.{IsTable, entries_in, owner_in, owner_after, slot_count};
ghost use Rattle.nj_claims.specs.Passes.{HadNoRoom};
ghost use Rattle.nj_seen.specs.Rows.{IsRising, winner_row, is_fresh_row, fresh_rows, generation_rows};
ghost use Rattle.nj_seen.specs.Held.{HoldsSeen, AreClaims, claim_of, first_claim, is_owned, is_owned_unseen, keys_in_rows, oldest_step, published, seen_in};

use nj_claims::{different_numbers_fit, entries_are_the_map};
use nj_rows::any_order_is_one;

/// A table that holds the seen keys of a search has as many entries as there are keys, and its
/// owners are steps up to that of the search.
pub fn seen_keys_stand()
    ensures count { (words : List ℕ) (seen : Seen) (step : ℕ) → IsTable words → HoldsSeen words seen step
        → length (entries_in words) ≡ key_count seen }
    ensures steps { (words : List ℕ) (seen : Seen) (step : ℕ) → IsTable words → HoldsSeen words seen step
        → All (λ entry. entry.1 ≤ step) (entries_in words) }
{
    entries_are_the_map();
    different_numbers_fit();
}

/// A table without a key holds the seen keys of a search that has seen none.
pub fn no_key_is_seen()
    ensures { (words : List ℕ) (step : ℕ) → ((key : ℕ) → owner_in words key ≡ None) → HoldsSeen words [] step }
{}

/// A table of one key, with the owner 0, holds the seen keys of a search before its first step.
pub fn one_key_is_seen()
    ensures { (words : List ℕ) (key : ℕ) → IsTable words
        → ((other : ℕ) → owner_in words other ≡ (if key == other then Some 0 else None))
        → HoldsSeen words ((key ∷ []) ∷ []) 0 }
{}

/// The claims of rows are theirs, and in any order as well.
pub fn claims_are_of_rows()
    ensures own { (rows : List Row) → AreClaims rows (map claim_of rows) }
    ensures moved { (rows : List Row) (claims others : List (ℕ × ℕ)) → IsPermutation claims others
        → AreClaims rows claims → AreClaims rows others }
{}

/// After the claims of all rows a row owns its key where it is fresh.
pub fn owned_is_fresh()
    ensures { (opening closed : List ℕ) (seen : Seen) (step : ℕ) (rows : List Row) (claims : List (ℕ × ℕ))
        → HoldsSeen opening seen step → step < first_claim → AreClaims rows claims
        → ((key : ℕ) → owner_in closed key ≡ owner_after key (owner_in opening key) claims)
        → All (λ row. is_owned closed row ≡ is_fresh_row seen rows row) rows }
{}

/// After the claims of all rows in a table beside the seen keys', which was opened with the newest
/// generations alone or with no key, a row owns its key there, and no generation from a step on has it,
/// where the row is fresh.
pub fn owned_unseen_is_fresh()
    ensures { (words opening closed : List ℕ) (seen : Seen)
        → (step from older : ℕ) (rows : List Row) (claims : List (ℕ × ℕ))
        → HoldsSeen words seen step
        → HoldsSeen opening (drop older (drop (from - oldest_step step seen) seen)) step
        → step < first_claim → AreClaims rows claims
        → ((key : ℕ) → owner_in closed key ≡ owner_after key (owner_in opening key) claims)
        → All (λ row. is_owned_unseen closed words from row
        ≡ is_fresh_row (drop (from - oldest_step step seen) seen) rows row) rows }
{}

/// Once the next step is published, the table holds the seen keys with the generation of the fresh rows.
pub fn fresh_keys_are_seen()
    ensures { (opening closed words : List ℕ) (seen : Seen) (step : ℕ) (rows : List Row) (claims : List (ℕ × ℕ))
        → HoldsSeen opening seen step → step < first_claim → IsRising rows → AreClaims rows claims
        → ((key : ℕ) → owner_in closed key ≡ owner_after key (owner_in opening key) claims)
        → ((key : ℕ) → owner_in words key ≡ option_map (published (step + 1)) (owner_in closed key))
        → HoldsSeen words (seen ++ generation_rows (fresh_rows seen rows) ∷ []) (step + 1) }
{}

/// Where a table has room for these keys, no claim of one of them finds it full.
pub fn room_is_enough()
    ensures { (opening closed : List ℕ) (keys full : List ℕ) (claims : List (ℕ × ℕ))
        → IsTable opening → IsTable closed → length closed ≡ length opening
        → length (entries_in opening) + length keys ≤ slot_count opening
        → ((key : ℕ) → owner_in closed key ≡ owner_after key (owner_in opening key) claims)
        → All (λ claim. Contains keys claim.0) claims → All (Contains keys) full → All (HadNoRoom closed) full
        → full ≡ [] }
{
    entries_are_the_map();
    different_numbers_fit();
}

/// A table tells the seen keys that it holds: the generation of a step is the keys that it owns.
pub fn seen_is_told()
    ensures { (words : List ℕ) (seen : Seen) (step : ℕ) → IsTable words → HoldsSeen words seen step
        → seen ≡ seen_in words step (oldest_step step seen) }
{
    entries_are_the_map();
}

/// The keys of the fresh rows are new to the table that holds the seen keys, and different.
pub fn fresh_keys_are_new()
    ensures new { (words : List ℕ) (seen : Seen) (step : ℕ) (rows : List Row) → HoldsSeen words seen step
        → All (λ key. owner_in words key ≡ None) (keys_in_rows (fresh_rows seen rows)) }
    ensures once { (seen : Seen) (rows : List Row) → IsRising rows
        → AllPairs (λ a b. a ≢ b) (keys_in_rows (fresh_rows seen rows)) }
    ensures few { (seen : Seen) (rows : List Row) → length (fresh_rows seen rows) ≤ length rows }
{}

/// Once they are added with the next step as their owner, the table holds the seen keys with the
/// generation of the fresh rows.
pub fn added_keys_are_seen()
    ensures { (before after : List ℕ) (seen : Seen) (step : ℕ) (rows : List Row)
        → HoldsSeen before seen step → IsRising rows
        → ((key : ℕ) → owner_in after key
        ≡ (if list_any (λ k. k == key) (keys_in_rows (fresh_rows seen rows)) then Some (step + 1)
        else owner_in before key))
        → HoldsSeen after (seen ++ generation_rows (fresh_rows seen rows) ∷ []) (step + 1) }
{}

/// Some of the rows of a step, in any order, tell its winner where they have all that win; and those that
/// pass a test by which rows are fresh are the fresh rows in some order, where they have all of these.
pub fn rows_in_any_order()
    ensures winner { (some rows : List Row)
        → AllPairs (λ a b. a.number ≢ b.number) some → IsRising rows → All (Contains rows) some
        → All (λ row. is_win_row row ≡ true → Contains some row) rows → winner_row some ≡ winner_row rows }
    ensures fresh { (some rows : List Row) (test : Row → Bool) (seen : Seen)
        → AllPairs (λ a b. a.number ≢ b.number) some → IsRising rows → All (Contains rows) some
        → All (λ row. test row ≡ is_fresh_row seen rows row) rows
        → All (λ row. is_fresh_row seen rows row ≡ true → Contains some row) rows
        → IsPermutation (filter test some) (fresh_rows seen rows) }
{
    any_order_is_one();
}
