//! The plan of a search, the cost of a word, and the refusals.

ghost use Rattle.std.specs.Prelude.{◌≡◌, ◌≤◌, ◌+◌, ◌^◌, Bool, length, is_some, IfOk, IfSome, MatchResult, Some, None};
ghost use Rattle.nj_game.specs.Plan.{plan_of};
ghost use Rattle.nj_saved.specs.Ranges.{IsInRange, Fits};
ghost use Rattle.nj_expand.specs.Held.{bounds_of};
ghost use Rattle.nj_plan.specs.Plans.{AreInRange, cost_of, most_of, steps_before, words_before, refusals, first_refusal, refusal_of, bounds_in};
ghost use Rattle.nj_plan.specs.Outcomes.{outcome_of, saved_in, held_in, frames_before};

use crate::{Cart, Movie, Saved, Script, Steps};
use nj_expand::{Bounds, Search};
use nj_movie::MOST_FRAMES;
use nj_rules::{allowed_pads_come_once, keys_tell_bytes_and_status, levels_are_few};
use nj_saved::generations_come_once;
use nj_search_defs::{limits_are_sound, limits_have_fronts, limits_have_fronts_from};
use std::alloc::{AllocError, Global};
use std::marker::Model;
use std::sync::ledger::Ledger;
use thiserror::Error;

/// The most words that all fronts of a search have together: 2^26.
const MOST_ROWS: u64 = 67_108_864;

/// The most words of one front: 2^20.
const MOST_WORDS: u64 = 1_048_576;

/// The limits of a search.
#[derive(Clone, Copy, Debug, PartialEq, Eq)]
pub struct Limits {
    /// The bytes that the states of the old and the new front may take together: 1 to 2,147,483,648.
    pub budget: u64,
    /// The most steps, behind those of a saved search: 1 to 16,777,215.
    pub steps: u32,
    /// The seen keys have 2 to this power of slots: 10 to 25.
    pub exponent: u32,
}

/// Why a plan is refused. The variants stand in the order in which they are told.
#[derive(Clone, Copy, Debug, PartialEq, Eq, Error)]
pub enum PlanRefused {
    /// The budget is below the cost of one word.
    #[error("a budget of {budget} bytes is below the cost {cost} of one word")]
    BudgetTooSmall { budget: u64, cost: u64 },
    /// A step may have more candidates than the seen keys have slots.
    #[error("{need} candidates of a step exceed the {slots} slots of the seen keys")]
    SeenTooSmall { need: u64, slots: u64 },
    /// The fronts of all steps may have more words together than the limit, 2^26.
    #[error("{rows} words of all fronts exceed the limit {limit}")]
    TrailTooLong { rows: u64, limit: u64 },
    /// A movie of the search may have more frames than the limit, 2^20.
    #[error("{frames} frames exceed the limit {limit}")]
    MovieTooLong { frames: u64, limit: u64 },
    /// The front of the saved search has more words than the budget pays for.
    #[error("{front} words of the saved front exceed the bound {bound}")]
    FrontTooLong { front: u64, bound: u64 },
}

/// The bytes of the budget that a word of a front takes, in the old front and in the new one together: 8,992 with CHR
/// ROM, 25,376 with CHR RAM.
#[tactic(auto, unfolding(crate::specs::Plans::cost_of))]
pub fn cost(cart: &Cart) -> u64
    ensures cost { result ≡ cost_of cart.now }
    ensures least { 8992 ≤ result }
{
    let pages = if cart.chr_ram() { 198 } else { 70 };
    2 * (16 + 64 * pages)
}

// The most words of a front.
#[tactic(auto, unfolding(crate::specs::Plans::most_of))]
fn most(cart: &Cart, limits: Limits) -> u64
    ensures most { result ≡ most_of limits cart.now }
    ensures within { result ≤ 2 ^ 20 }
{
    (limits.budget / cost(cart)).min(MOST_WORDS)
}

// The steps that a saved search has made.
fn made_before(saved: &Option<Saved>) -> u32
    requires { IfSome saved.now IsInRange }
    ensures steps { result ≡ steps_before saved.now }
    ensures within { result ≤ 16777215 }
{
    match saved {
        None => 0,
        Some(saved) => saved.step,
    }
}

// The words of a saved front.
fn front_before(saved: &Option<Saved>) -> u64
    requires { IfSome saved.now IsInRange }
    ensures { result ≡ words_before saved.now }
{
    match saved {
        None => 0,
        Some(saved) => (saved.words.len() / saved.step as usize) as u64,
    }
}

// The first refusal of a plan, if there is one.
#[tactic(auto, unfolding(crate::specs::Plans::refusals, crate::specs::Plans::refusal_of))]
fn refusal(
    cart: &Cart,
    script: &Script,
    start: &Movie,
    limits: Limits,
    saved: &Option<Saved>,
) -> Option<PlanRefused>
    requires limits { AreInRange limits }
    requires saved { IfSome saved.now IsInRange }
    ensures { result ≡ refusal_of (plan_of cart.now script.now start.now) limits saved.now }
{
    let budget = limits.budget;
    let cost = cost(cart);
    if budget < cost {
        return Some(PlanRefused::BudgetTooSmall { budget, cost });
    }
    let most = most(cart, limits);
    let need = most * script.input_count();
    let slots = 1 << limits.exponent;
    if need > slots {
        return Some(PlanRefused::SeenTooSmall { need, slots });
    }
    let steps = u64::from(limits.steps) + u64::from(made_before(saved));
    let rows = most * steps;
    if rows > MOST_ROWS {
        return Some(PlanRefused::TrailTooLong {
            rows,
            limit: MOST_ROWS,
        });
    }
    let limit = MOST_FRAMES as u64;
    let frames = start.pads().len() as u64 + u64::from(script.hold()) * steps;
    if frames > limit {
        return Some(PlanRefused::MovieTooLong { frames, limit });
    }
    let front = front_before(saved);
    if front > most {
        return Some(PlanRefused::FrontTooLong { front, bound: most });
    }
    None
}

/// A search that may run: what it is played on, its limits, and the saved search that it goes on from, if there is one.
/// Of all these nothing is refused.
#[derive(Drop)]
pub struct Plan {
    cart: Cart,
    script: Script,
    start: Movie,
    limits: Limits,
    saved: Option<Saved>,
}

impl Model for Plan {
    ghost use Rattle.std.specs.Prelude.{◌≡◌, IfSome, None};
    ghost use Rattle.nj_game.specs.Plan.{plan_of};
    ghost use Rattle.nj_saved.specs.Ranges.{IsInRange, Fits};
    ghost use Rattle.nj_plan.specs.Plans.{Planned, AreInRange, refusal_of};

    ghost Value = { Planned };

    ghost view = { λ p. record { plan = plan_of p.cart p.script p.start; limits = p.limits; saved = p.saved } };

    ghost invariant = { λ p. AreInRange p.limits × IfSome p.saved IsInRange × IfSome p.saved Fits
        × (refusal_of (plan_of p.cart p.script p.start) p.limits p.saved ≡ None) };
}

impl Plan {
    /// The plan of these, or its first refusal. The numbers of the two files in a saved search are not looked at.
    pub fn new(
        cart: Cart,
        script: Script,
        start: Movie,
        limits: Limits,
        saved: Option<Saved>,
    ) -> Result<Plan, PlanRefused>
        requires limits { AreInRange limits }
        requires saved { IfSome saved IsInRange }
        requires fits { IfSome saved Fits }
        ensures { MatchResult result
            (λ plan. (refusal_of (plan_of cart script start) limits saved ≡ None)
            × (plan ≡ record { plan = plan_of cart script start; limits = limits; saved = saved }))
            (λ refused. refusal_of (plan_of cart script start) limits saved ≡ Some refused) }
    {
        if let Some(refused) = refusal(&cart, &script, &start, limits, &saved) {
            return Err(refused);
        }
        Ok(Plan {
            cart,
            script,
            start,
            limits,
            saved,
        })
    }

    /// The most steps.
    pub fn steps(&self) -> u32
        ensures steps { result ≡ self.now.limits.steps }
        ensures within { steps_before self.now.saved + result ≤ 16777215 }
    {
        let _hold = self.script.hold();
        self.limits.steps
    }

    /// Whether the search goes on from a saved one.
    pub fn goes_on(&self) -> bool
        ensures { result ≡ is_some self.now.saved }
    {
        self.saved.is_some()
    }

    /// Law: what is saved of its search is in its ranges.
    pub fn saves_in_range(&self)
        ensures { (keep : Bool) → IfSome (saved_in keep (outcome_of self.now)) IsInRange }
    {
        allowed_pads_come_once();
        keys_tell_bytes_and_status();
        levels_are_few();
        limits_are_sound();
        limits_have_fronts();
        limits_have_fronts_from();
        generations_come_once();
        let _hold = self.script.hold();
        let _tolerance = self.script.tolerance();
        let _inputs = self.script.input_count();
        let _rules = self.script.rule_count();
    }

    /// The search before its next step: the start movie is run, and the words of a saved search.
    #[tactic(auto, unfolding(crate::specs::Plans::bounds_in, nj_expand::specs::Held::bounds_of))]
    pub fn open<L: Ledger>(self, alloc: Global, steps: &mut Steps<L>) -> Result<Search, AllocError>
        ensures opened { IfOk result (λ search. search ≡ held_in self) }
        ensures frames { steps.new ≤ steps.old + frames_before self }
        ensures never_falls { steps.old ≤ steps.new }
    {
        let Plan {
            cart,
            script,
            start,
            limits,
            saved,
        } = self;
        let bounds = Bounds {
            front: most(&cart, limits),
            exponent: limits.exponent,
            inputs: script.input_count(),
        };
        match saved {
            None => Search::start(alloc, cart, script, start, bounds, steps),
            Some(saved) => { Search::from_saved(alloc, cart, script, start, bounds, &saved, steps) }
        }
    }
}
