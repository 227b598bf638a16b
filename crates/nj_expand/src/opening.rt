//! The start of a search: the start movie is run once, and its state is the first front.

ghost use Rattle.std.specs.Prelude.{◌≡◌, ◌≢◌, ◌≤◌, ◌+◌, ◌^◌, [], ◌∷◌, length, IfOk};
ghost use Rattle.nj_claims.specs.Tables.{IsTable, slot_count};
ghost use Rattle.nj_seen.specs.Held.{HoldsSeen};
ghost use Rattle.nj_game.specs.Plan.{plan_of};
ghost use Rattle.nj_expand.specs.Opening.{IsFirst};

use crate::Bounds;
use nj_candidate::{Begun, an_image_stands_for_its_word, is_cartridge, key_in, pool_of};
use nj_claims::{empty_table, insert};
use nj_ines::Cart;
use nj_movie::Movie;
use nj_pool::FrontPool;
use nj_rules::Judged;
use nj_script::Script;
use nj_seen::one_key_is_seen;
use nj_steps::Steps;
use std::alloc::{AllocError, Global};
use std::sync::ledger::Ledger;

/// What a search has before its first step: the start's state, alone in a pool, its judgement, a claim table of its
/// key, and its level.
#[derive(Drop)]
pub(crate) struct First {
    pub(crate) pool: FrontPool,
    pub(crate) judged: Vec<Judged>,
    pub(crate) words: Vec<u64>,
    pub(crate) level: u32,
}

// A table of so many slots for a key that is seen before the first step.
fn first_table(alloc: Global, exponent: u32, key: u64) -> Result<Vec<u64>, AllocError>
    requires low { 10 ≤ exponent }
    requires high { exponent ≤ 25 }
    requires key { key ≢ 0 }
    ensures table { IfOk result (λ words. IsTable words.items) }
    ensures slots { IfOk result (λ words. slot_count words.items ≡ 2 ^ exponent) }
    ensures seen { IfOk result (λ words. HoldsSeen words.items ((key ∷ []) ∷ []) 0) }
{
    one_key_is_seen();
    let mut words = empty_table(alloc, exponent)?;
    insert(words.as_mut_slice(), key, 0);
    Ok(words)
}

impl First {
    /// The start's state, by its run from power-on.
    pub(crate) fn run<L: Ledger>(
        alloc: Global,
        cart: &Cart,
        script: &Script,
        start: &Movie,
        bounds: Bounds,
        steps: &mut Steps<L>,
    ) -> Result<First, AllocError>
        requires some { 1 ≤ bounds.front }
        requires few { bounds.front ≤ 2 ^ 20 }
        requires exponent { (10 ≤ bounds.exponent) × (bounds.exponent ≤ 25) }
        ensures first { IfOk result (IsFirst (plan_of cart.now script.now start.now) bounds) }
        ensures frames { steps.new ≤ steps.old + length start.now }
        ensures never_falls { steps.old ≤ steps.new }
    {
        an_image_stands_for_its_word();
        is_cartridge(cart);
        let Begun {
            machine,
            image,
            judged,
        } = Begun::run(alloc, cart, script, start, steps)?;
        let key = key_in(&machine, judged, script);
        let pool = pool_of(alloc, image.as_slice(), bounds.front)?;
        let words = first_table(alloc, bounds.exponent, key)?;
        Ok(First {
            pool,
            judged: vec![in alloc; judged]?,
            words,
            level: judged.level,
        })
    }
}
