//! The kept rows of a step, run again by all workers.

ghost use Rattle.std.specs.Prelude.{◌≡◌, ◌≤◌, ◌<◌, ◌*◌, All, length, IfOk, OnOk, OnErr};
ghost use Rattle.nj_expand.specs.Kept.{ArePartsOf};
ghost use Rattle.nj_workers.specs.Counted.{AreCounted};
ghost use Rattle.nj_workers.specs.Desks.{EachPair, AllHave};
ghost use Rattle.nj_workers.specs.Runs.{rows_in, MayRunAgain, HasRun};

use crate::desks::{Desk, sit_down, stand_up};
use nj_expand::{Again, Row, Search};
use nj_steps::Steps;
use nj_threads::for_each_apart;
use std::alloc::{AllocError, Global};
use std::sync::Wait;
use std::sync::ledger::Ledger;
use std::thread::Threads;

// The least rows of a run, but the last one. A thread for fewer is not worth its start.
const LEAST: usize = 4;

/// Neighbours among the kept rows, and their states, once a worker was at them.
#[derive(Drop)]
pub(crate) struct Run<'a> {
    pub(crate) rows: &'a [Row],
    pub(crate) again: Result<Again, AllocError>,
}

/// Runs the states of rows again by so many workers, each in a thread and with the counter at its place. The answer is
/// their states in parts, in order.
pub(crate) fn run_kept<R: Threads + Wait + Sync, L: Ledger + Send>(
    rt: &R,
    alloc: Global,
    search: &Search,
    rows: &[Row],
    workers: u32,
    steps: &mut Vec<Steps<L>>,
) -> Result<Vec<Again>, AllocError>
    requires rows { MayRunAgain search.now rows.now }
    requires some { 0 < length rows.now }
    requires workers { 1 ≤ workers }
    requires counters { workers ≤ length steps.old.items }
    ensures parts { IfOk result (λ parts. ArePartsOf search.now rows.now parts.items) }
    ensures frames { AreCounted workers steps.old.items steps.new.items
        (search.now.plan.script.hold * length rows.now) }
{
    let mut runs = cut(alloc, rows, workers)?;
    let mut parts = Vec::with_capacity(alloc, runs.len())?;
    run_all(rt, alloc, search, &mut runs, steps)?;
    while let Some(run) = runs.pop() {
        parts.push_reserved(run.again?);
    }
    parts.reverse();
    Ok(parts)
}

// How many rows a run has, but the last one.
fn run_size(rows: usize, workers: u32) -> usize
    requires { 1 ≤ workers }
    ensures some { 1 ≤ result }
    ensures enough { rows ≤ workers * result }
{
    LEAST.max(rows.div_ceil(workers as usize))
}

// Cuts rows in runs of neighbours, no more of them than workers.
fn cut<'a>(alloc: Global, rows: &'a [Row], workers: u32) -> Result<Vec<Run<'a>>, AllocError>
    requires { 1 ≤ workers }
    ensures rows { IfOk result (λ runs. rows_in runs.items ≡ rows.now) }
    ensures few { IfOk result (λ runs. length runs.items ≤ workers) }
{
    let size = run_size(rows.len(), workers);
    let mut runs = Vec::with_capacity(alloc, workers as usize)?;
    let mut left = rows;
    while !left.is_empty() {
        let (run, rest) = left.split_at(size.min(left.len()));
        runs.push_reserved(Run {
            rows: run,
            again: Err(AllocError),
        });
        left = rest;
    }
    Ok(runs)
}

// All runs are run again, each by a worker. Without memory for the desks none is.
fn run_all<'a, R: Threads + Wait + Sync, L: Ledger + Send>(
    rt: &R,
    alloc: Global,
    search: &Search,
    runs: &mut Vec<Run<'a>>,
    steps: &mut Vec<Steps<L>>,
) -> Result<(), AllocError>
    requires counters { length runs.old.items ≤ length steps.old.items }
    requires rows { MayRunAgain search.now (rows_in runs.old.items) }
    ensures ran { OnOk result
        (AllHave (HasRun search.now) runs.old.items runs.new.items steps.old.items steps.new.items) }
    ensures counters { OnErr result (steps.new.items ≡ steps.old.items) }
{
    let mut desks = Vec::with_capacity(alloc, runs.len())?;
    sit_down(runs, steps, &mut desks);
    run_desks(rt, alloc, search, desks.as_mut_slice());
    stand_up(desks, runs, steps);
    Ok(())
}

// All workers run what is at their desks.
fn run_desks<'a, R: Threads + Wait + Sync, L: Ledger + Send>(
    rt: &R,
    alloc: Global,
    search: &Search,
    desks: &mut [Desk<Run<'a>, L>],
)
    requires rows { All (λ desk. MayRunAgain search.now desk.end.rows.now) desks.old }
    ensures many { length desks.new ≡ length desks.old }
    ensures ran { EachPair (λ old new. HasRun search.now old.end new.end old.steps new.steps) desks.old desks.new }
{
    for_each_apart(
        rt,
        desks,
        &|_at: usize, desk: &mut Desk<Run, L>|
            requires { MayRunAgain search.now desk.old.end.rows.now }
            ensures { HasRun search.entry.now desk.old.end desk.new.end desk.old.steps desk.new.steps }
        { run_one(alloc, search, &mut desk.end, &mut desk.steps) },
    );
}

// Runs the states of a run's rows again.
fn run_one<'a, L: Ledger>(alloc: Global, search: &Search, run: &mut Run<'a>, steps: &mut Steps<L>)
    requires { MayRunAgain search.now run.old.rows.now }
    ensures { HasRun search.now run.old run.new steps.old steps.new }
{
    run.again = search.run_again(alloc, run.rows, steps);
}
