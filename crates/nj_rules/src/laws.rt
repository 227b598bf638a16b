//! What the definitions of this crate come to, in words of their subject. The functions do nothing:
//! their contracts hold of all rules, sets, items and memory.

ghost use Rattle.std.specs.Prelude.{◌≡◌, ◌≢◌, ℕ, ◌<◌, ◌≤◌, ◌^◌, ◌||◌, Bool, true, List, map, length, nat_eq, pos};
ghost use Rattle.std.specs.List.{IsDistinct};
ghost use Rattle.std.specs.Set.{is_member};
ghost use Rattle.nj_rules.specs.declared.record.Rule.{Rule};
ghost use Rattle.nj_rules.specs.declared.record.InputSet.{InputSet};
ghost use Rattle.nj_rules.specs.declared.record.HashItem.{HashItem};
ghost use Rattle.nj_rules.specs.Rules.{is_in, status_after, own_hold, is_named, level_of, reward_of};
ghost use Rattle.nj_rules.specs.Pads.{allowed_pads, offered_pads, named_pads};
ghost use Rattle.nj_rules.specs.Key.{item_bytes, key_in};

/// After a state the satisfied rules are those that were before, those whose own conditions hold and
/// those that a rule whose own conditions hold names; so naming goes one level deep.
pub fn naming_is_one_level_deep()
    ensures { (rules : List Rule) (ram : List ℕ) (old k : ℕ) → k < 128
        → is_in (status_after rules ram old) k ≡ (is_in old k || (own_hold rules ram k || is_named rules ram k)) }
{}

/// A satisfied rule stays satisfied.
pub fn satisfied_rules_stay()
    ensures { (rules : List Rule) (ram : List ℕ) (old k : ℕ) → k < 128
        → is_in old k ≡ true → is_in (status_after rules ram old) k ≡ true }
{}

/// Where no rule is satisfied the reward is 0.
pub fn no_rule_gives_nothing()
    ensures { (rules : List Rule) (ram : List ℕ) → reward_of rules ram 0 ≡ pos 0 }
{}

/// An allowed pad comes once, the allowed pads are those that the open sets offer, and they are no
/// more than the sets name.
pub fn allowed_pads_come_once()
    ensures once { (sets : List InputSet) (ram : List ℕ) → IsDistinct nat_eq (allowed_pads sets ram) }
    ensures offered { (sets : List InputSet) (ram : List ℕ) (pad : ℕ)
        → is_member nat_eq (allowed_pads sets ram) pad ≡ is_member nat_eq (offered_pads sets ram) pad }
    ensures named { (sets : List InputSet) (ram : List ℕ)
        → length (allowed_pads sets ram) ≤ length (named_pads sets) }
{}

/// A level is no more than there are rules.
pub fn levels_are_few()
    ensures { (rules : List Rule) (status : ℕ) → level_of rules status ≤ length rules }
{}

/// States whose items have the same bytes and whose status is the same have the same key, no key is 0,
/// and each has 64 bits.
pub fn keys_tell_bytes_and_status()
    ensures equal { (items : List HashItem) (rules status : ℕ) (ram other : List ℕ)
        → map (item_bytes ram) items ≡ map (item_bytes other) items
        → key_in items rules ram status ≡ key_in items rules other status }
    ensures never_zero { (items : List HashItem) (rules status : ℕ) (ram : List ℕ)
        → key_in items rules ram status ≢ 0 }
    ensures fit { (items : List HashItem) (rules status : ℕ) (ram : List ℕ)
        → key_in items rules ram status < 2 ^ 64 }
{}
