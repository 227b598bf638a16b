//! The generations that were read so far, with the set of their keys.

ghost use Rattle.std.specs.Prelude.{◌≡◌, ◌++◌, ◌∷◌, [], ◌+◌, ◌<◌, ◌^◌, ◌||◌, ◌==◌, ℕ, nat_eq, length, IfOk, OnOk};
ghost use Rattle.std.specs.HashSet.{contains};
ghost use Rattle.std.specs.List.{list_any};
ghost use Rattle.nj_saved.specs.Reading.{key_count, has_key};

use nj_seq::Seq;
use std::alloc::{AllocError, Global};
use std::collections::HashSet;
use std::marker::Model;

/// Generations, oldest first. Contracts see them as the list of their keys' lists.
#[derive(Drop)]
pub(crate) struct Older {
    generations: Vec<Seq<u64>>,
    keys: HashSet<u64>,
    count: u64,
}

impl Model for Older {
    ghost use Rattle.std.specs.Prelude.{◌≡◌, ℕ, List, nat_eq};
    ghost use Rattle.std.specs.HashSet.{contains};
    ghost use Rattle.nj_saved.specs.Reading.{key_count, has_key};

    ghost Value = { List (List ℕ) };

    ghost view = { λ o. o.generations.items };

    ghost invariant = { λ o. ((key : ℕ) → contains nat_eq o.keys key ≡ has_key o.generations.items key)
        × (o.count ≡ key_count o.generations.items) };
}

impl Older {
    /// No generations. It takes no memory.
    pub fn new(alloc: Global) -> Self
        ensures { result ≡ [] }
    {
        Older {
            generations: Vec::new(alloc),
            keys: HashSet::new(alloc),
            count: 0,
        }
    }

    /// The number of keys.
    pub fn count(&self) -> u64
        ensures { result ≡ key_count self.now }
    {
        self.count
    }

    /// Whether one of the generations has the key.
    pub fn has(&self, key: u64) -> bool
        ensures { result ≡ has_key self.now key }
    {
        self.keys.contains(&key)
    }

    /// These generations and then one more.
    pub fn with(self, keys: Seq<u64>) -> Result<Self, AllocError>
        requires { key_count self + length keys < 2 ^ 64 }
        ensures { IfOk result (λ older. older ≡ self ++ keys ∷ []) }
    {
        let Older {
            mut generations,
            keys: mut known,
            count,
        } = self;
        insert_all(&mut known, keys.as_slice())?;
        let count = count + keys.len() as u64;
        generations.push(keys)?;
        Ok(Older {
            generations,
            keys: known,
            count,
        })
    }

    /// The generations themselves. No memory is taken.
    pub fn into_generations(self) -> Seq<Seq<u64>>
        ensures { result ≡ self }
    {
        Seq::from_vec(self.generations)
    }
}

// Puts the keys into the set.
fn insert_all(set: &mut HashSet<u64>, keys: &[u64]) -> Result<(), AllocError>
    ensures { OnOk result ((key : ℕ) → contains nat_eq set.new key
        ≡ (contains nat_eq set.old key || list_any (λ k. k == key) keys.now)) }
{
    for key in keys {
        set.insert(*key)?;
    }
    Ok(())
}
