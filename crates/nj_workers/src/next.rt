//! The whole of a step by several workers.

ghost use Rattle.std.specs.Prelude.{◌≡◌, ◌≤◌, ◌<◌, ◌+◌, ◌*◌, false, true, length, IfOk, OnErr};
ghost use Rattle.nj_expand.specs.Held.{candidates_in, kept_in};
ghost use Rattle.nj_expand.specs.Step.{IsStep};
ghost use Rattle.nj_expand.specs.Closed.{AreRowsOf, IsClosedFor};
ghost use Rattle.nj_workers.specs.Counted.{AreCounted};

use crate::runs::run_kept;
use crate::step::claimed_rows;
use nj_expand::{Chosen, Row, Search, Stepped};
use nj_hands::{close_table, open_table};
use nj_outside::Gate;
use nj_steps::Steps;
use std::alloc::{AllocError, Global};
use std::sync::Wait;
use std::sync::ledger::Ledger;
use std::thread::Threads;

/// Makes the next step by so many workers, from 1 to 64: they run the candidates of the front's pieces, each in a
/// thread where one can be made, and claim their keys in one table, and so they run again what is kept; the step ends
/// as one thread would end it. Each worker counts frames by the counter at its place. After want of memory the search
/// is spent.
pub fn next_shared<R: Threads + Wait + Sync, G: Gate, L: Ledger + Send>(
    rt: &R,
    search: &mut Search,
    alloc: Global,
    workers: u32,
    gate: &G,
    steps: &mut Vec<Steps<L>>,
) -> Result<Stepped, AllocError>
    requires spent { search.old.spent ≡ false }
    requires step { search.old.state.step < 16777215 }
    requires workers { (1 ≤ workers) × (workers ≤ 64) }
    requires counters { workers ≤ length steps.old.items }
    ensures next { IfOk result (λ stepped. IsStep search.old stepped search.new) }
    ensures spent { OnErr result (search.new.spent ≡ true) }
    ensures plan { search.new.plan ≡ search.old.plan }
    ensures bounds { search.new.bounds ≡ search.old.bounds }
    ensures frames { AreCounted workers steps.old.items steps.new.items
        (search.old.plan.script.hold * (length (candidates_in search.old) + length (kept_in search.old))) }
{
    let ended = by_workers(rt, search, alloc, workers, gate, steps);
    if ended.is_err() {
        search.spend();
    }
    ended
}

// The next step. After want of memory plan and bounds are as before.
fn by_workers<R: Threads + Wait + Sync, G: Gate, L: Ledger + Send>(
    rt: &R,
    search: &mut Search,
    alloc: Global,
    workers: u32,
    gate: &G,
    steps: &mut Vec<Steps<L>>,
) -> Result<Stepped, AllocError>
    requires spent { search.old.spent ≡ false }
    requires step { search.old.state.step < 16777215 }
    requires some { 1 ≤ workers }
    requires few { workers ≤ 64 }
    requires counters { workers ≤ length steps.old.items }
    ensures next { IfOk result (λ stepped. IsStep search.old stepped search.new) }
    ensures plan { search.new.plan ≡ search.old.plan }
    ensures bounds { search.new.bounds ≡ search.old.bounds }
    ensures frames { AreCounted workers steps.old.items steps.new.items
        (search.old.plan.script.hold * (length (candidates_in search.old) + length (kept_in search.old))) }
{
    let (rows, claims) = made(rt, search, alloc, workers, gate, steps)?;
    match search.choose(alloc, rows, claims)? {
        Chosen::Ended(stepped) => Ok(stepped),
        Chosen::Keeps(kept) => {
            let parts = run_kept(rt, alloc, search, kept.rows.as_slice(), workers, steps)?;
            search.go_on(alloc, kept, parts)?;
            Ok(Stepped::Go)
        }
    }
}

// The rows of the next step, and the closed table of their claims.
fn made<R: Threads + Wait + Sync, G: Gate, L: Ledger + Send>(
    rt: &R,
    search: &Search,
    alloc: Global,
    workers: u32,
    gate: &G,
    steps: &mut Vec<Steps<L>>,
) -> Result<(Vec<Row>, Vec<u64>), AllocError>
    requires spent { search.now.spent ≡ false }
    requires step { search.now.state.step < 16777215 }
    requires some { 1 ≤ workers }
    requires few { workers ≤ 64 }
    requires counters { workers ≤ length steps.old.items }
    ensures rows { IfOk result (λ pair. AreRowsOf search.now pair.0.items) }
    ensures words { IfOk result (λ pair. IsClosedFor search.now pair.1.items) }
    ensures frames { AreCounted workers steps.old.items steps.new.items
        (search.now.plan.script.hold * length (candidates_in search.now)) }
{
    let (table, mut pass) = open_table(search, alloc)?;
    let rows = claimed_rows(rt, alloc, search, &table, &mut pass, workers, gate, steps)?;
    Ok(close_table(search, table, pass, rows))
}
