//! The search that goes on from a saved one: each of its words is run again from the start's state.

ghost use Rattle.std.specs.Prelude.{◌≡◌, ◌≤◌, ◌<◌, ◌+◌, ◌*◌, ◌^◌, length, IfOk};
ghost use Rattle.nj_ines.specs.Cartridge.{IsCartridge};
ghost use Rattle.nj_rules.specs.Pads.{named_pads};
ghost use Rattle.nj_game.specs.Plan.{plan_of};
ghost use Rattle.nj_saved.specs.Ranges.{IsInRange, words_of};
ghost use Rattle.nj_search_defs.specs.Pruning.{forgotten};
ghost use Rattle.nj_candidate.specs.Front.{size_in};
ghost use Rattle.nj_candidate.specs.SavedFront.{front_in};
ghost use Rattle.nj_candidate.specs.Resuming.{AreRunAgain};
ghost use Rattle.nj_expand.specs.Held.{bounds_of};
ghost use Rattle.nj_expand.specs.Ranges.{AreBounds};
ghost use Rattle.nj_expand.specs.Saving.{resumed};
ghost use Rattle.nj_expand.specs.Table.{IsSeenTable};

use crate::Bounds;
use crate::search::{Mark, Search};
use nj_candidate::{Again, an_image_stands_for_its_word, count_of, is_cartridge, run_front};
use nj_ines::Cart;
use nj_movie::Movie;
use nj_saved::{Saved, generations_come_once};
use nj_script::Script;
use nj_seen::{SeenKeys, seen_is_told, table_of};
use nj_steps::Steps;
use std::alloc::{AllocError, Global};
use std::sync::ledger::Ledger;

// The table of the keys that a saved search has seen, without those that are forgotten at once.
fn seen_table(
    alloc: Global,
    bounds: Bounds,
    saved: &Saved,
) -> Result<(Vec<u64>, SeenKeys), AllocError>
    requires exponent { (10 ≤ bounds.exponent) × (bounds.exponent ≤ 25) }
    requires fits { bounds.front * bounds.inputs ≤ 2 ^ bounds.exponent }
    requires ranges { IsInRange saved.now }
    requires few { words_of saved.now ≤ bounds.front }
    ensures { let seen = forgotten (2 ^ bounds.exponent) (words_of saved.now * bounds.inputs) saved.now.generations in
        IfOk result (λ told. IsSeenTable told.0.items told.1 seen saved.now.step bounds.exponent) }
{
    generations_come_once();
    let room = count_of(saved) as u64 * bounds.inputs;
    table_of(
        alloc,
        bounds.exponent,
        &saved.generations,
        saved.step as u64,
        room,
    )
}

impl Search {
    /// The search that goes on from a saved one: the start movie is run, and from its state each word of the front,
    /// judged after each pad. What the bounds forget is forgotten at once. The numbers of the two files are not looked
    /// at.
    pub fn from_saved<L: Ledger>(
        alloc: Global,
        cart: Cart,
        script: Script,
        start: Movie,
        bounds: Bounds,
        saved: &Saved,
        steps: &mut Steps<L>,
    ) -> Result<Search, AllocError>
        requires front { (1 ≤ bounds.front) × (bounds.front ≤ 2 ^ 20) }
        requires exponent { (10 ≤ bounds.exponent) × (bounds.exponent ≤ 25) }
        requires inputs { bounds.inputs ≡ length (named_pads script.inputs.sets) }
        requires fits { bounds.front * bounds.inputs ≤ 2 ^ bounds.exponent }
        requires ranges { IsInRange saved.now }
        requires few { words_of saved.now ≤ bounds.front }
        ensures resumed { IfOk result (λ search. search
            ≡ resumed (plan_of cart script start) (bounds_of bounds script) saved.now) }
        ensures frames { steps.new ≤ steps.old + (length start + script.hold * (saved.now.step * words_of saved.now)) }
        ensures never_falls { steps.old ≤ steps.new }
    {
        is_cartridge(&cart);
        let _inputs = script.input_count();
        let front = run_front(alloc, &cart, &script, &start, bounds.front, saved, steps)?;
        let table = seen_table(alloc, bounds, saved)?;
        Ok(Search::going_on(cart, script, start, bounds, saved, front, table))
    }

    // The search of these parts.
    fn going_on(
        cart: Cart,
        script: Script,
        start: Movie,
        bounds: Bounds,
        saved: &Saved,
        front: Again,
        table: (Vec<u64>, SeenKeys),
    ) -> Search
        requires bounds { AreBounds bounds script }
        requires cartridge { IsCartridge cart }
        requires ranges { IsInRange saved.now }
        requires few { words_of saved.now ≤ bounds.front }
        requires front { let plan = plan_of cart script start in
            AreRunAgain plan (bounds.front * (size_in plan + 16)) (front_in saved.now) front }
        requires table { let seen =
            forgotten (2 ^ bounds.exponent) (words_of saved.now * bounds.inputs) saved.now.generations in
            IsSeenTable table.0.items table.1 seen saved.now.step bounds.exponent }
        ensures { result ≡ resumed (plan_of cart script start) (bounds_of bounds script) saved.now }
    {
        an_image_stands_for_its_word();
        seen_is_told();
        let Again { pool, judged } = front;
        let (words, keys) = table;
        Search {
            cart,
            script,
            start,
            bounds,
            pool,
            judged,
            words,
            keys,
            step: saved.step,
            mark: Mark {
                level: saved.level,
                until: saved.until,
            },
            spent: false,
        }
    }
}
