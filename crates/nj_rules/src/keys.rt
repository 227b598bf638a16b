ghost use Rattle.std.specs.Prelude.{◌≡◌, ◌≤◌, ◌<◌, ◌%◌, ◌^◌, ◌++◌, length, flat_map};
ghost use Rattle.nj_bytes.specs.Fnv.{fnv_of};
ghost use Rattle.nj_rules.specs.Key.{item_bytes, key_bytes, key_in};
ghost use Rattle.nj_rules.specs.Limits.{AreItemsInRange};

use crate::record::{HashItem, HashItems, Status};
use nj_bytes::{fnv, fnv_on};

/// The key of a state whose working memory is `ram` and whose status is `status`, of a script with so
/// many rules.
#[tactic(auto, unfolding(crate::specs::Key::key_in, crate::specs::Key::key_for))]
pub fn key_of(hash: &HashItems, rules: u32, ram: &[u8], status: Status) -> u64
    requires ram { length ram.now ≡ 2048 }
    requires items { AreItemsInRange hash.now.items }
    requires rules { rules ≤ 128 }
    ensures key { result ≡ key_in hash.now.items rules ram.now status.0 }
    ensures never_zero { 0 < result }
{
    let key = state_hash(hash.items.as_slice(), rules, ram, status);
    if key == 0 { 1 } else { key }
}

// The hash of what tells a state from others.
fn state_hash(items: &[HashItem], rules: u32, ram: &[u8], status: Status) -> u64
    requires ram { length ram.now ≡ 2048 }
    requires items { AreItemsInRange items.now }
    requires rules { rules ≤ 128 }
    ensures { result ≡ fnv_of (key_bytes items.now rules ram.now status.0) }
{
    let bytes = rule_bits(status.0, rules).to_le_bytes();
    let count = (rules as usize + 7) / 8;
    fnv_on(memory_hash(items, ram), &bytes[..count])
}

// The hash of the items' bytes.
#[tactic(auto, unfolding(nj_bytes::specs::Fnv::fnv_of, nj_bytes::specs::Fnv::fnv_from))]
fn memory_hash(items: &[HashItem], ram: &[u8]) -> u64
    requires ram { length ram.now ≡ 2048 }
    requires items { AreItemsInRange items.now }
    ensures { result ≡ fnv_of (flat_map (item_bytes ram.now) items.now) }
{
    let mut hash = fnv(&[]);
    for item in items {
        hash = fnv_on(hash, &ram[item.from as usize..item.to as usize + 1]);
    }
    hash
}

// The bits of so many rules.
fn rule_bits(status: u128, rules: u32) -> u128
    requires { rules ≤ 128 }
    ensures { result ≡ status % 2 ^ rules }
{
    if rules < 128 {
        status % (1 << rules)
    } else {
        status
    }
}
