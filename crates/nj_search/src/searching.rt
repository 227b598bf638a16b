//! The search of a plan, and its outcome.

ghost use Rattle.std.specs.Prelude.{◌≡◌, ◌≤◌, ◌<◌, ◌+◌, ◌*◌, ◌++◌, ℕ, false, None, length, replicate, IfOk, IfSome, IfNone, OnOk};
ghost use Rattle.nj_search_defs.specs.Outcome.{LimitAt};
ghost use Rattle.nj_saved.specs.Ranges.{IsInRange};
ghost use Rattle.nj_expand.specs.declared.Stepped.{Stepped};
ghost use Rattle.nj_expand.specs.Step.{IsStep};
ghost use Rattle.nj_plan.specs.Plans.{Planned};
ghost use Rattle.nj_plan.specs.Outcomes.{saved_in, held_in, frames_before, frames_most};
ghost use Rattle.nj_search.specs.Ends.{answer_of, ended_of};
ghost use Rattle.nj_search.specs.Rests.{rest_of, frames_a_step, IsFurther};
ghost use Rattle.nj_search.specs.Starts.{unsaved, CanEnd, EndsIn, IsBegun, IsEnded};

use crate::{Movie, Plan, Saved, Steps};
use nj_expand::{Judged, Row, Search, Stepped};
use nj_pad::Pad;
use nj_rules::{Verdict, allowed_pads_come_once};
use nj_search_defs::{steps_are_counted, winners_tell_parents};
use nj_single::next_single;
use std::alloc::{AllocError, Global};
use std::sync::ledger::Ledger;

/// How a search ended.
#[derive(Drop)]
pub enum Outcome {
    /// A word won at this step: its reward and its movie.
    Won {
        step: u32,
        reward: i64,
        movie: Movie,
    },
    /// At this step nothing was kept.
    Exhausted {
        step: u32,
    },
    /// All steps were made: the reward and the movie of the front's first word.
    Limit {
        step: u32,
        reward: i64,
        movie: Movie,
    },
}

impl Outcome {
    // Won by the candidate of this row.
    fn won_by(step: u32, row: &Row, movie: Movie) -> Outcome
        ensures { result ≡ Outcome.Won step row.now.reward movie }
    {
        Outcome::Won {
            step,
            reward: row.reward,
            movie,
        }
    }

    // Won by a start that is judged so.
    fn won_at_once(judged: Judged, movie: Movie) -> Outcome
        ensures { result ≡ Outcome.Won 0 judged.reward movie }
    {
        Outcome::Won {
            step: 0,
            reward: judged.reward,
            movie,
        }
    }

    // At the limit, with a word that is judged so.
    fn limited(step: u32, judged: Judged, movie: Movie) -> Outcome
        ensures { result ≡ Outcome.Limit step judged.reward movie }
    {
        Outcome::Limit {
            step,
            reward: judged.reward,
            movie,
        }
    }
}

/// What a search answers.
#[derive(Drop)]
pub struct Ended {
    /// How it ended.
    pub outcome: Outcome,
    /// Its state at the limit, where this was to be kept. The numbers of the two files are 0.
    pub saved: Option<Saved>,
}

impl Ended {
    // An end with what is saved of it.
    fn with_saved(outcome: Outcome, saved: Option<Saved>) -> Ended
        ensures { result ≡ record { outcome = outcome; saved = saved } }
    {
        Ended { outcome, saved }
    }

    // An end of which nothing is saved.
    pub(crate) fn unsaved(outcome: Outcome) -> Ended
        ensures { result ≡ unsaved outcome }
    {
        Ended {
            outcome,
            saved: None,
        }
    }
}

// One more pad, held for the frames of a step.
fn hold_pad(movie: &mut Movie, hold: u32, pad: Pad) -> Result<(), AllocError>
    ensures { OnOk result (movie.new ≡ movie.old ++ replicate hold pad) }
{
    for _frame in 0..hold {
        movie.push(pad)?;
    }
    Ok(())
}

// The winner's movie: its parent's, and its pad for a step more.
fn won(alloc: Global, search: &Search, row: &Row) -> Result<Outcome, AllocError>
    requires spent { search.now.spent ≡ false }
    requires row { IsStep search.now (Stepped.Won row.now) search.now }
    requires step { search.now.state.step ≤ 16777215 }
    ensures { IfOk result (EndsIn search.now) }
{
    winners_tell_parents();
    allowed_pads_come_once();
    let _bounds = search.bounds();
    let place = row.number as usize / 256;
    let mut movie = search.movie(alloc, place)?;
    hold_pad(&mut movie, search.script().hold(), Pad(row.pad))?;
    Ok(Outcome::won_by(search.step() + 1, row, movie))
}

// What is saved of a search at its limit, where it is to be kept.
fn saved_at(alloc: Global, search: &Search, keep: bool) -> Result<Option<Saved>, AllocError>
    requires spent { search.now.spent ≡ false }
    ensures { IfOk result (λ saved. saved ≡ saved_in keep (LimitAt search.now.state)) }
{
    if keep {
        Ok(Some(search.save(alloc)?))
    } else {
        Ok(None)
    }
}

// What a search answers at its limit, by the front's first word.
pub(crate) fn at_limit(alloc: Global, search: &Search, keep: bool) -> Result<Ended, AllocError>
    requires spent { search.now.spent ≡ false }
    ensures { IfOk result (λ ended. answer_of search.now.plan keep (LimitAt search.now.state) ≡ ended) }
{
    let _words = search.front_len();
    let best = search.judged(0);
    let movie = search.movie(alloc, 0)?;
    let saved = saved_at(alloc, search, keep)?;
    let outcome = Outcome::limited(search.step(), best, movie);
    Ok(Ended::with_saved(outcome, saved))
}

// What a step ends the search with, if it ends it.
pub(crate) fn outcome_after(
    alloc: Global,
    search: &Search,
    stepped: Stepped,
) -> Result<Option<Outcome>, AllocError>
    requires spent { search.now.spent ≡ false }
    requires step { search.now.state.step ≤ 16777215 }
    requires row { CanEnd stepped search.now }
    ensures { IfOk result (λ told. IsEnded stepped search.now told) }
{
    match stepped {
        Stepped::Won { row } => Ok(Some(won(alloc, search, &row)?)),
        Stepped::Exhausted => Ok(Some(Outcome::Exhausted {
            step: search.step() + 1,
        })),
        Stepped::Go => Ok(None),
    }
}

// One step: the outcome, if the step ends the search.
fn step_on<L: Ledger>(
    alloc: Global,
    search: &mut Search,
    steps: &mut Steps<L>,
) -> Result<Option<Outcome>, AllocError>
    requires spent { search.old.spent ≡ false }
    requires step { search.old.state.step < 16777215 }
    ensures ended { IfOk result (λ told. IfSome told (EndsIn search.old)) }
    ensures further { IfOk result (λ told. IfNone told (IsFurther search.old search.new)) }
    ensures frames { steps.new ≤ steps.old + frames_a_step search.old }
    ensures never_falls { steps.old ≤ steps.new }
{
    steps_are_counted();
    let stepped = next_single(search, alloc, steps)?;
    outcome_after(alloc, search, stepped)
}

// So many steps at most.
fn make_steps<L: Ledger>(
    alloc: Global,
    search: &mut Search,
    limit: u32,
    keep: bool,
    steps: &mut Steps<L>,
) -> Result<Ended, AllocError>
    requires spent { search.old.spent ≡ false }
    requires limit { search.old.state.step + limit ≤ 16777215 }
    ensures ended { IfOk result (λ ended. answer_of search.old.plan keep (rest_of search.old limit) ≡ ended) }
    ensures frames { steps.new ≤ steps.old + frames_a_step search.old * limit }
    ensures never_falls { steps.old ≤ steps.new }
{
    for _made in 0..limit {
        if let Some(outcome) = step_on(alloc, search, steps)? {
            return Ok(Ended::unsaved(outcome));
        }
    }
    at_limit(alloc, search, keep)
}

// So many steps at most of a search that is let go behind them.
fn search_on<L: Ledger>(
    alloc: Global,
    mut search: Search,
    limit: u32,
    keep: bool,
    steps: &mut Steps<L>,
) -> Result<Ended, AllocError>
    requires spent { search.spent ≡ false }
    requires limit { search.state.step + limit ≤ 16777215 }
    ensures ended { IfOk result (λ ended. answer_of search.plan keep (rest_of search limit) ≡ ended) }
    ensures frames { steps.new ≤ steps.old + frames_a_step search * limit }
    ensures never_falls { steps.old ≤ steps.new }
{
    let ended = make_steps(alloc, &mut search, limit, keep, steps);
    drop(search);
    ended
}

// A search that was begun: it is over at its start, or goes on.
#[derive(Drop)]
pub(crate) enum Begun {
    Over(Outcome),
    Going(Search),
}

// Judges the start of a search that is before its first step: it may win or fail.
fn judge_start(alloc: Global, search: Search) -> Result<Begun, AllocError>
    requires { search.spent ≡ false }
    ensures { IfOk result (λ begun. (planned : Planned) → planned.saved ≡ None → search ≡ held_in planned
        → IsBegun planned begun) }
{
    let _words = search.front_len();
    let first = search.judged(0);
    match first.verdict {
        Verdict::Go => Ok(Begun::Going(search)),
        Verdict::Win => {
            let movie = search.movie(alloc, 0);
            drop(search);
            Ok(Begun::Over(Outcome::won_at_once(first, movie?)))
        }
        Verdict::Fail => {
            drop(search);
            Ok(Begun::Over(Outcome::Exhausted { step: 0 }))
        }
    }
}

// Begins the search: from its start, which may win or fail, or from its saved search.
pub(crate) fn begin<L: Ledger>(
    alloc: Global,
    plan: Plan,
    steps: &mut Steps<L>,
) -> Result<Begun, AllocError>
    ensures begun { IfOk result (λ begun. IsBegun plan begun) }
    ensures frames { steps.new ≤ steps.old + frames_before plan }
    ensures never_falls { steps.old ≤ steps.new }
{
    let goes_on = plan.goes_on();
    let search = plan.open(alloc, steps)?;
    if goes_on {
        Ok(Begun::Going(search))
    } else {
        judge_start(alloc, search)
    }
}

// Searches as planned.
fn search_planned<L: Ledger>(
    alloc: Global,
    plan: Plan,
    keep: bool,
    steps: &mut Steps<L>,
) -> Result<Ended, AllocError>
    ensures ended { IfOk result (λ ended. ended ≡ ended_of plan keep) }
    ensures frames { steps.new ≤ steps.old + frames_most plan }
    ensures never_falls { steps.old ≤ steps.new }
{
    let limit = plan.steps();
    match begin(alloc, plan, steps)? {
        Begun::Over(outcome) => Ok(Ended::unsaved(outcome)),
        Begun::Going(search) => search_on(alloc, search, limit, keep, steps),
    }
}

/// Searches as planned, by one thread. At the limit the state is saved, where it is to be kept.
pub fn search_plain<L: Ledger>(
    alloc: Global,
    plan: Plan,
    keep: bool,
    steps: &mut Steps<L>,
) -> Result<Ended, AllocError>
    ensures ended { IfOk result (λ ended. ended ≡ ended_of plan keep) }
    ensures saved { IfOk result (λ ended. IfSome ended.saved IsInRange) }
    ensures frames { steps.new ≤ steps.old + frames_most plan }
    ensures never_falls { steps.old ≤ steps.new }
{
    plan.saves_in_range();
    search_planned(alloc, plan, keep, steps)
}
