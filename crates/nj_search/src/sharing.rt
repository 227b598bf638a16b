//! The search of a plan by several workers, and its outcome.

ghost use Rattle.std.specs.Prelude.{◌≡◌, ◌≤◌, ◌<◌, ◌+◌, ◌*◌, ℕ, false, length, IfOk, IfSome, IfNone};
ghost use Rattle.nj_expand.specs.Held.{candidates_in, kept_in};
ghost use Rattle.nj_workers.specs.Counted.{AreCounted};
ghost use Rattle.nj_saved.specs.Ranges.{IsInRange};
ghost use Rattle.nj_plan.specs.Outcomes.{frames_before, frames_most};
ghost use Rattle.nj_search.specs.Ends.{answer_of, ended_of};
ghost use Rattle.nj_search.specs.Rests.{rest_of, frames_a_step, IsFurther};
ghost use Rattle.nj_search.specs.Starts.{EndsIn, IsBegun};

use crate::searching::{Begun, at_limit, begin, outcome_after};
use crate::{Ended, Gate, Outcome, Plan, Steps};
use nj_expand::{Search, a_step_is_bounded};
use nj_search_defs::steps_are_counted;
use nj_workers::next_shared;
use std::alloc::{AllocError, Global};
use std::sync::Wait;
use std::sync::ledger::Ledger;
use std::thread::Threads;

// Begins the search on the first counter.
fn begin_first<L: Ledger>(
    alloc: Global,
    plan: Plan,
    steps: &mut Vec<Steps<L>>,
) -> Result<Begun, AllocError>
    requires { 0 < length steps.old.items }
    ensures begun { IfOk result (λ begun. IsBegun plan begun) }
    ensures frames { AreCounted 1 steps.old.items steps.new.items (frames_before plan) }
{
    begin(alloc, plan, &mut steps[0])
}

// Candidates and those that are kept cost no more frames than a full front's.
fn frames_are_bounded(search: &Search)
    ensures { search.now.plan.script.hold * (length (candidates_in search.now) + length (kept_in search.now))
        ≤ frames_a_step search.now }
{
    a_step_is_bounded();
    let _bounds = search.bounds();
    let _words = search.front_len();
}

// One step: the outcome, if the step ends the search.
fn step_shared<R: Threads + Wait + Sync, G: Gate, L: Ledger + Send>(
    rt: &R,
    alloc: Global,
    search: &mut Search,
    workers: u32,
    gate: &G,
    steps: &mut Vec<Steps<L>>,
) -> Result<Option<Outcome>, AllocError>
    requires spent { search.old.spent ≡ false }
    requires step { search.old.state.step < 16777215 }
    requires workers { (1 ≤ workers) × (workers ≤ 64) }
    requires counters { workers ≤ length steps.old.items }
    ensures ended { IfOk result (λ told. IfSome told (EndsIn search.old)) }
    ensures further { IfOk result (λ told. IfNone told (IsFurther search.old search.new)) }
    ensures frames { AreCounted workers steps.old.items steps.new.items (frames_a_step search.old) }
{
    steps_are_counted();
    frames_are_bounded(search);
    let stepped = next_shared(rt, search, alloc, workers, gate, steps)?;
    outcome_after(alloc, search, stepped)
}

// So many steps at most.
fn share_steps<R: Threads + Wait + Sync, G: Gate, L: Ledger + Send>(
    rt: &R,
    alloc: Global,
    search: &mut Search,
    limit: u32,
    keep: bool,
    workers: u32,
    gate: &G,
    steps: &mut Vec<Steps<L>>,
) -> Result<Ended, AllocError>
    requires spent { search.old.spent ≡ false }
    requires limit { search.old.state.step + limit ≤ 16777215 }
    requires workers { (1 ≤ workers) × (workers ≤ 64) }
    requires counters { workers ≤ length steps.old.items }
    ensures ended { IfOk result (λ ended. answer_of search.old.plan keep (rest_of search.old limit) ≡ ended) }
    ensures frames { AreCounted workers steps.old.items steps.new.items (frames_a_step search.old * limit) }
{
    for _made in 0..limit {
        if let Some(outcome) = step_shared(rt, alloc, search, workers, gate, steps)? {
            return Ok(Ended::unsaved(outcome));
        }
    }
    at_limit(alloc, search, keep)
}

// So many steps at most of a search that is let go behind them.
fn share_on<R: Threads + Wait + Sync, G: Gate, L: Ledger + Send>(
    rt: &R,
    alloc: Global,
    mut search: Search,
    limit: u32,
    keep: bool,
    workers: u32,
    gate: &G,
    steps: &mut Vec<Steps<L>>,
) -> Result<Ended, AllocError>
    requires spent { search.spent ≡ false }
    requires limit { search.state.step + limit ≤ 16777215 }
    requires workers { (1 ≤ workers) × (workers ≤ 64) }
    requires counters { workers ≤ length steps.old.items }
    ensures ended { IfOk result (λ ended. answer_of search.plan keep (rest_of search limit) ≡ ended) }
    ensures frames { AreCounted workers steps.old.items steps.new.items (frames_a_step search * limit) }
{
    let ended = share_steps(rt, alloc, &mut search, limit, keep, workers, gate, steps);
    drop(search);
    ended
}

// Searches as planned.
fn share_planned<R: Threads + Wait + Sync, G: Gate, L: Ledger + Send>(
    rt: &R,
    alloc: Global,
    plan: Plan,
    keep: bool,
    workers: u32,
    gate: &G,
    steps: &mut Vec<Steps<L>>,
) -> Result<Ended, AllocError>
    requires workers { (1 ≤ workers) × (workers ≤ 64) }
    requires counters { workers ≤ length steps.old.items }
    ensures ended { IfOk result (λ ended. ended ≡ ended_of plan keep) }
    ensures frames { AreCounted workers steps.old.items steps.new.items (frames_most plan) }
{
    let limit = plan.steps();
    match begin_first(alloc, plan, steps)? {
        Begun::Over(outcome) => Ok(Ended::unsaved(outcome)),
        Begun::Going(search) => share_on(rt, alloc, search, limit, keep, workers, gate, steps),
    }
}

/// Searches as planned, by so many workers, from 1 to 64, each with the counter at its place. The answer is that of
/// [`crate::search_plain`].
pub fn search_shared<R: Threads + Wait + Sync, G: Gate, L: Ledger + Send>(
    rt: &R,
    alloc: Global,
    plan: Plan,
    keep: bool,
    workers: u32,
    gate: &G,
    steps: &mut Vec<Steps<L>>,
) -> Result<Ended, AllocError>
    requires workers { (1 ≤ workers) × (workers ≤ 64) }
    requires counters { workers ≤ length steps.old.items }
    ensures ended { IfOk result (λ ended. ended ≡ ended_of plan keep) }
    ensures saved { IfOk result (λ ended. IfSome ended.saved IsInRange) }
    ensures frames { AreCounted workers steps.old.items steps.new.items (frames_most plan) }
{
    plan.saves_in_range();
    share_planned(rt, alloc, plan, keep, workers, gate, steps)
}
