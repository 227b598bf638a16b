ghost use Rattle.std.specs.Prelude.{◌≡◌, ℕ, nat_eq, ◌≤◌, [], ◌∷◌, ◌++◌, length, take, slice_index};
ghost use Rattle.std.specs.List.{IsDistinct};
ghost use Rattle.nj_rules.specs.Pads.{distinct, offered_pads, allowed_pads, named_pads};
ghost use Rattle.nj_rules.specs.Limits.{AreSetsInRange};

use crate::record::{InputSet, InputSets};
use nj_pad::Pad;
use nj_property::all_hold;

fn add_pad(pad: u8, into: &mut [u8; 256], filled: usize) -> usize
    requires count { filled ≤ 256 }
    requires once { IsDistinct nat_eq (take filled into.old) }
    ensures pads { take result into.new ≡ distinct (take filled into.old ++ pad ∷ []) }
    ensures grows { filled ≤ result }
    ensures within { result ≤ 256 }
    ensures rest { (k : ℕ) → result ≤ k → slice_index into.new k ≡ slice_index into.old k }
{
    if into[..filled].contains(&pad) {
        return filled;
    }
    into[filled] = pad;
    filled + 1
}

fn add_pads(pads: &[Pad], into: &mut [u8; 256], count: usize) -> usize
    requires count { count ≤ 256 }
    requires once { IsDistinct nat_eq (take count into.old) }
    ensures pads { take result into.new ≡ distinct (take count into.old ++ pads.now) }
    ensures grows { count ≤ result }
    ensures within { result ≤ 256 }
    ensures rest { (k : ℕ) → result ≤ k → slice_index into.new k ≡ slice_index into.old k }
{
    let mut filled = count;
    for pad in pads {
        filled = add_pad(pad.0, into, filled);
    }
    filled
}

/// The pads that may come after a state whose working memory is `ram`, written to the front of `into`
/// in their order; the answer is their count.
#[tactic(auto, unfolding(crate::specs::Pads::allowed_pads))]
pub fn allowed(sets: &InputSets, ram: &[u8], into: &mut [u8; 256]) -> usize
    requires ram { length ram.now ≡ 2048 }
    requires sets { AreSetsInRange sets.now.sets }
    ensures pads { take result into.new ≡ allowed_pads sets.now.sets ram.now }
    ensures count { result ≡ length (allowed_pads sets.now.sets ram.now) }
    ensures within { result ≤ 256 }
    ensures rest { (k : ℕ) → result ≤ k → slice_index into.new k ≡ slice_index into.old k }
{
    let mut count = 0;
    for set in sets.sets.as_slice() {
        if !all_hold(set.when.as_slice(), ram) {
            continue;
        }
        count = add_pads(set.pads.as_slice(), into, count);
        if set.stop {
            return count;
        }
    }
    count
}

/// How many different pads the sets name, whatever their conditions: at most 256.
#[tactic(auto, unfolding(crate::specs::Pads::named_pads))]
pub fn pad_count(sets: &InputSets) -> u64
    ensures count { result ≡ length (named_pads sets.now.sets) }
    ensures within { result ≤ 256 }
{
    let mut into = [0; 256];
    let mut count = 0;
    for set in sets.sets.as_slice() {
        count = add_pads(set.pads.as_slice(), &mut into, count);
    }
    count as u64
}
