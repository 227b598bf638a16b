//! The search between two steps.

ghost use Rattle.std.specs.Prelude.{◌≡◌, ◌≤◌, ◌<◌, ◌+◌, ◌*◌, ◌^◌, [], false, true, not, length, sum_by, get_or, IfOk};
ghost use Rattle.nj_search_defs.specs.Pruning.{is_fail};
ghost use Rattle.nj_ines.specs.Cartridge.{IsCartridge};
ghost use Rattle.nj_machine.specs.State.{power_on};
ghost use Rattle.nj_machine.specs.Image.{of_image, IsImage};
ghost use Rattle.nj_rules.specs.Pads.{named_pads};
ghost use Rattle.nj_game.specs.Plan.{plan_of, movie_of};
ghost use Rattle.nj_game.specs.Words.{state_of, status_of, judged_of};
ghost use Rattle.nj_claims.specs.Tables.{IsTable, slot_count};
ghost use Rattle.nj_seen.specs.Verdicts.{verdict_of};
ghost use Rattle.nj_seen.specs.Rows.{is_live_row};
ghost use Rattle.nj_seen.specs.Held.{HoldsSeen};
ghost use Rattle.nj_candidate.specs.Front.{rom_in, size_in, image_at, need_at, one_state};
ghost use Rattle.nj_expand.specs.Held.{bounds_of, opened};
ghost use Rattle.nj_expand.specs.Opening.{IsFirst};
ghost use Rattle.nj_expand.specs.Ranges.{AreBounds};

use crate::Bounds;
use crate::opening::First;
use nj_candidate::{
    a_candidate_is_told_by_its_parent, an_image_stands_for_its_word, is_cartridge, push_word,
};
use nj_ines::Cart;
use nj_machine::{Machine, frames_keep_the_cartridge};
use nj_movie::Movie;
use nj_pool::{FrontPool, a_need_is_bounded};
use nj_rows::{Row, Verdict3};
use nj_rules::Judged;
use nj_script::Script;
use nj_seen::{SeenKeys, seen_is_told};
use nj_steps::Steps;
use std::alloc::{AllocError, Global};
use std::marker::Model;
use std::sync::ledger::Ledger;

// The greatest checkpoint level that a front has had, and the last step at which a lower level is kept.
#[derive(Clone, Copy)]
pub(crate) struct Mark {
    pub(crate) level: u32,
    pub(crate) until: u32,
}

/// A search between two steps. After want of memory in a step it is spent.
#[derive(Drop)]
pub struct Search {
    pub(crate) cart: Cart,
    pub(crate) script: Script,
    pub(crate) start: Movie,
    pub(crate) bounds: Bounds,
    pub(crate) pool: FrontPool,
    pub(crate) judged: Vec<Judged>,
    pub(crate) words: Vec<u64>,
    pub(crate) keys: SeenKeys,
    pub(crate) step: u32,
    pub(crate) mark: Mark,
    pub(crate) spent: bool,
}

impl Model for Search {
    ghost use Rattle.nj_game.specs.Plan.{plan_of};
    ghost use Rattle.nj_expand.specs.Held.{Held, bounds_of};
    ghost use Rattle.nj_expand.specs.Ranges.{AreBounds, IsFront};
    ghost use Rattle.nj_expand.specs.Table.{IsTableAt};
    ghost use Rattle.nj_seen.specs.Held.{seen_in};

    ghost Value = { Held };

    ghost view = { λ s. record {
      plan = plan_of s.cart s.script s.start;
      bounds = bounds_of s.bounds s.script;
      state = record {
        step = s.step;
        front = s.pool.words;
        seen = seen_in s.words.items s.step s.keys.oldest;
        mark = record { level = s.mark.level; until = s.mark.until };
      };
      spent = s.spent;
    } };

    ghost invariant = { λ s. AreBounds s.bounds s.script
        × IsFront (plan_of s.cart s.script s.start) s.bounds.front s.pool s.judged.items
        × IsTableAt s.words.items s.keys s.step s.bounds.exponent };
}

impl Search {
    /// The search before its first step: the start movie is run, and its state is the front. The cartridge moves in,
    /// since a machine is made of it at each step.
    pub fn start<L: Ledger>(
        alloc: Global,
        cart: Cart,
        script: Script,
        start: Movie,
        bounds: Bounds,
        steps: &mut Steps<L>,
    ) -> Result<Search, AllocError>
        requires front { (1 ≤ bounds.front) × (bounds.front ≤ 2 ^ 20) }
        requires exponent { (10 ≤ bounds.exponent) × (bounds.exponent ≤ 25) }
        requires inputs { bounds.inputs ≡ length (named_pads script.inputs.sets) }
        requires fits { bounds.front * bounds.inputs ≤ 2 ^ bounds.exponent }
        ensures opened { IfOk result (λ search. search
            ≡ opened (plan_of cart script start) (bounds_of bounds script)) }
        ensures frames { steps.new ≤ steps.old + length start }
        ensures never_falls { steps.old ≤ steps.new }
    {
        is_cartridge(&cart);
        let _inputs = script.input_count();
        let first = First::run(alloc, &cart, &script, &start, bounds, steps)?;
        Ok(Search::begun(cart, script, start, bounds, first))
    }

    // The search of these parts before its first step.
    #[tactic(auto, unfolding(crate::specs::Held::opened, nj_search_defs::specs::Outcome::opening, nj_game::specs::Words::game_of, nj_candidate::specs::Front::one_state))]
    fn begun(cart: Cart, script: Script, start: Movie, bounds: Bounds, first: First) -> Search
        requires bounds { AreBounds bounds script }
        requires cartridge { IsCartridge cart }
        requires first { IsFirst (plan_of cart script start) bounds first }
        ensures { result ≡ opened (plan_of cart script start) (bounds_of bounds script) }
    {
        an_image_stands_for_its_word();
        seen_is_told();
        let First {
            pool,
            judged,
            words,
            level,
        } = first;
        Search {
            cart,
            script,
            start,
            bounds,
            pool,
            judged,
            words,
            keys: SeenKeys {
                oldest: 0,
                count: 1,
            },
            step: 0,
            mark: Mark { level, until: 0 },
            spent: false,
        }
    }

    /// The movie of the front's word at a place.
    pub fn movie(&self, alloc: Global, place: usize) -> Result<Movie, AllocError>
        requires place { place < length self.now.state.front }
        requires spent { self.now.spent ≡ false }
        ensures { IfOk result (λ movie. movie ≡ movie_of self.now.plan (get_or self.now.state.front place [])) }
    {
        let word = self.pool.word_of(alloc, place)?;
        let pads = Vec::from_slice(alloc, self.start.pads())?;
        let mut movie = Movie::from_pads(pads);
        push_word(&mut movie, self.script.hold(), word.as_slice())?;
        Ok(movie)
    }

    /// Copies the image of the state of the front's word at a place.
    pub fn image(&self, place: usize, into: &mut [u8])
        requires place { place < length self.now.state.front }
        requires long { length into.old ≡ size_in self.now.plan }
        requires spent { self.now.spent ≡ false }
        ensures image { into.new ≡ image_at self.now.plan (get_or self.now.state.front place []) }
        ensures is_image { IsImage (rom_in self.now.plan) into.new }
        ensures state { of_image (rom_in self.now.plan) into.new
            ≡ state_of self.now.plan (get_or self.now.state.front place []) }
    {
        an_image_stands_for_its_word();
        self.pool.load(place, into);
    }

    /// How the rules judge the front's word at a place.
    pub fn judged(&self, place: usize) -> Judged
        requires place { place < length self.now.state.front }
        requires spent { self.now.spent ≡ false }
        ensures judged { result ≡ judged_of self.now.plan (get_or self.now.state.front place []) }
        ensures status { result.status.0 ≡ status_of self.now.plan (get_or self.now.state.front place []) }
    {
        a_candidate_is_told_by_its_parent();
        self.judged[place]
    }

    /// Whether a candidate of the next step is live.
    pub fn live(&self, row: &Row) -> bool
        requires spent { self.now.spent ≡ false }
        ensures { result ≡ is_live_row self.now.state.mark (self.now.state.step + 1) row.now }
    {
        let is_low = row.level < self.mark.level && self.mark.until <= self.step;
        !is_low && is_no_fail(row.verdict)
    }

    /// The claim table of the seen keys: the owner of a key is the step whose generation has it.
    pub fn words(&self) -> &[u64]
        ensures table { IsTable result.now }
        ensures slots { slot_count result.now ≡ self.now.bounds.slots }
        ensures seen { HoldsSeen result.now self.now.state.seen self.now.state.step }
    {
        self.words.as_slice()
    }

    /// A machine of the cartridge at power-on.
    pub fn machine(&self, alloc: Global) -> Result<Machine, AllocError>
        ensures { IfOk result (λ machine. machine ≡ power_on self.now.plan.cartridge) }
    {
        Machine::power_on(alloc, &self.cart)
    }

    /// The bytes of an image of the machine: 4,480, or 12,672 where pattern memory is RAM.
    #[tactic(auto, unfolding(nj_candidate::specs::Front::size_in, nj_candidate::specs::Front::rom_in, nj_machine::specs::Image::image_len))]
    pub fn image_len(&self) -> usize
        ensures len { result ≡ size_in self.now.plan }
        ensures within { result ≤ 12672 }
    {
        frames_keep_the_cartridge();
        if self.cart.chr_ram() { 12_672 } else { 4_480 }
    }

    /// The script that is searched.
    pub fn script(&self) -> &Script
        ensures { result.now ≡ self.now.plan.script }
    {
        &self.script
    }

    /// The bounds of the search.
    pub fn bounds(&self) -> Bounds
        ensures bounds { bounds_of result self.now.plan.script ≡ self.now.bounds }
        ensures some { 1 ≤ result.front }
        ensures most { result.front ≤ 2 ^ 20 }
        ensures exponent_low { 10 ≤ result.exponent }
        ensures exponent_high { result.exponent ≤ 25 }
        ensures inputs { result.inputs ≡ length (named_pads self.now.plan.script.inputs.sets) }
        ensures few_inputs { result.inputs ≤ 256 }
        ensures fits { result.front * result.inputs ≤ 2 ^ result.exponent }
    {
        self.bounds
    }

    /// The steps that were made.
    pub fn step(&self) -> u32
        ensures { result ≡ self.now.state.step }
    {
        self.step
    }

    /// The words of the front.
    pub fn front_len(&self) -> usize
        ensures len { result ≡ length self.now.state.front }
        ensures some { 1 ≤ result }
        ensures within { result ≤ self.now.bounds.most }
        ensures most { self.now.bounds.most ≤ 2 ^ 20 }
    {
        self.pool.len()
    }

    /// The bytes that the front's states need: each its packing over the start's image and 15 for its place in the
    /// trail of words.
    pub fn bytes(&self) -> u64
        ensures sum { result ≡ sum_by (need_at self.now.plan) self.now.state.front }
        ensures few { result ≤ length self.now.state.front * (size_in self.now.plan + 16) }
        ensures within { result ≤ self.now.bounds.most * (size_in self.now.plan + 16) }
    {
        an_image_stands_for_its_word();
        a_need_is_bounded();
        let _base = self.pool.base();
        self.pool.bytes()
    }

    /// Whether the search is spent: a step wanted memory, or somebody called [`Search::spend`].
    pub fn spent(&self) -> bool
        ensures { result ≡ self.now.spent }
    {
        self.spent
    }

    /// Makes the search spent.
    pub fn spend(&mut self)
        ensures { self.new ≡ record self.old { spent = true } }
    {
        self.spent = true;
    }
}

// Whether a verdict is no failure.
fn is_no_fail(verdict: Verdict3) -> bool
    ensures { result ≡ not (is_fail (verdict_of verdict)) }
{
    match verdict {
        Verdict3::Go | Verdict3::Win => true,
        Verdict3::Fail => false,
    }
}
