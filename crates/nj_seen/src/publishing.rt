ghost use Rattle.std.specs.Prelude.{◌≡◌, ◌<◌, ℕ, map, option_map};
ghost use Rattle.nj_claims.specs.Tables.{IsTable, entries_in, owner_in};
ghost use Rattle.nj_seen.specs.Held.{first_claim, is_owned, published, published_entry};

use crate::forgetting::is_since;
use nj_claims::owner_of;
use nj_rows::Row;

/// The least claim number: an owner below it is the step whose generation holds the key, and a
/// candidate claims its key for this and its number.
pub const FIRST_CLAIM: u64 = 1 << 24;

/// Whether the row's candidate owns its key in a table that was closed after the claims of a step.
pub fn fresh(words: &[u64], row: &Row) -> bool
    requires { IsTable words.now }
    ensures { result ≡ is_owned words.now row.now }
{
    match owner_of(words, row.key) {
        Some(owner) => owner >= FIRST_CLAIM && owner - FIRST_CLAIM == row.number,
        None => false,
    }
}

/// Makes the keys that were claimed in a step the generation of that step.
pub fn publish(words: &mut [u64], step: u64)
    requires table { IsTable words.old }
    requires step { step < first_claim }
    ensures table { IsTable words.new }
    ensures entries { entries_in words.new ≡ map (published_entry step) (entries_in words.old) }
    ensures owners { (key : ℕ) → owner_in words.new key ≡ option_map (published step) (owner_in words.old key) }
{
    for slot in 0..words.len() / 2 {
        if is_since(words, slot, FIRST_CLAIM) {
            words[2 * slot + 1] = step;
        }
    }
}
