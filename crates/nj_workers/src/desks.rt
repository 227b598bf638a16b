//! The desks at which workers work, each with a counter.

ghost use Rattle.std.specs.Prelude.{◌≡◌, ◌≤◌, ◌<◌, ◌+◌, ◌++◌, [], All, length, map, reverse, vec_len, vec_capacity, OnOk, OnErr};
ghost use Rattle.nj_hands.specs.Hands.{MayWork};
ghost use Rattle.nj_workers.specs.Desks.{EachPair, Served, AllServed};

use nj_claims::ClaimTable;
use nj_hands::{WorkEnd, serve};
use nj_outside::Gate;
use nj_pieces::Pieces;
use nj_steps::Steps;
use nj_threads::for_each_apart;
use std::alloc::{AllocError, Global};
use std::sync::Wait;
use std::sync::ledger::Ledger;
use std::thread::Threads;

// The words between what two workers write: a pair of cache lines.
const APART: usize = 16;

/// A worker's place: what it works on, and its counter. What is behind the counter keeps it off the cache line on which
/// the next worker's things begin.
#[derive(Drop)]
pub(crate) struct Desk<E: Drop, L: Ledger> {
    pub(crate) end: E,
    pub(crate) steps: Steps<L>,
    apart: [u64; APART],
}

// All workers work, each in a thread and with the counter at its place. Without memory nobody has worked.
pub(crate) fn work_all<'a, R: Threads + Wait + Sync, G: Gate, L: Ledger + Send>(
    rt: &R,
    alloc: Global,
    table: &ClaimTable,
    pieces: &Pieces,
    gate: &G,
    ends: &mut Vec<WorkEnd<'a>>,
    steps: &mut Vec<Steps<L>>,
) -> Result<(), AllocError>
    requires counters { length ends.old.items ≤ length steps.old.items }
    requires may { All (λ end. MayWork table.now pieces.now end.hand) ends.old.items }
    ensures served { OnOk result
        (AllServed table.now pieces.now ends.old.items ends.new.items steps.old.items steps.new.items) }
    ensures capacity { OnOk result (vec_capacity ends.new ≡ vec_capacity ends.old) }
    ensures counters { OnErr result (steps.new.items ≡ steps.old.items) }
{
    let mut desks = Vec::with_capacity(alloc, ends.len())?;
    sit_down(ends, steps, &mut desks);
    serve_all(rt, alloc, table, pieces, gate, desks.as_mut_slice());
    stand_up(desks, ends, steps);
    Ok(())
}

// All workers work at their desks.
fn serve_all<'a, R: Threads + Wait + Sync, G: Gate, L: Ledger + Send>(
    rt: &R,
    alloc: Global,
    table: &ClaimTable,
    pieces: &Pieces,
    gate: &G,
    desks: &mut [Desk<WorkEnd<'a>, L>],
)
    requires may { All (λ desk. MayWork table.now pieces.now desk.end.hand) desks.old }
    ensures many { length desks.new ≡ length desks.old }
    ensures served { EachPair (λ old new. Served table.now pieces.now old.end new.end old.steps new.steps)
        desks.old desks.new }
{
    for_each_apart(
        rt,
        desks,
        &|_at: usize, desk: &mut Desk<WorkEnd, L>|
            requires { MayWork table.now pieces.now desk.old.end.hand }
            ensures { Served table.entry.now pieces.entry.now desk.old.end desk.new.end desk.old.steps desk.new.steps }
        {
            serve(
                rt,
                alloc,
                table,
                pieces,
                gate,
                &mut desk.end,
                &mut desk.steps,
            )
        },
    );
}

/// Gives each worker a desk, with the counter at its place. The counters that are left stand turned round.
pub(crate) fn sit_down<E: Drop, L: Ledger>(
    ends: &mut Vec<E>,
    steps: &mut Vec<Steps<L>>,
    desks: &mut Vec<Desk<E, L>>,
)
    requires empty { desks.old.items ≡ [] }
    requires room { vec_len ends.old ≤ vec_capacity desks.old }
    requires counters { vec_len ends.old ≤ vec_len steps.old }
    ensures left { ends.new.items ≡ [] }
    ensures ends { map (λ desk. desk.end) desks.new.items ≡ ends.old.items }
    ensures counters { map (λ desk. desk.steps) desks.new.items ++ reverse steps.new.items ≡ steps.old.items }
    ensures capacity { vec_capacity ends.new ≡ vec_capacity ends.old }
    ensures room { vec_capacity steps.new ≡ vec_capacity steps.old }
{
    ends.reverse();
    steps.reverse();
    while let Some(end) = ends.pop() {
        let Some(counter) = steps.pop() else {
            unreachable!()
        };
        desks.push_reserved(Desk {
            end,
            steps: counter,
            apart: [0; APART],
        });
    }
}

/// Takes the workers and the counters from their desks, back into the lists where they stood.
pub(crate) fn stand_up<E: Drop, L: Ledger>(
    desks: Vec<Desk<E, L>>,
    ends: &mut Vec<E>,
    steps: &mut Vec<Steps<L>>,
)
    requires empty { ends.old.items ≡ [] }
    requires room { vec_len desks ≤ vec_capacity ends.old }
    requires counters { vec_len desks + vec_len steps.old ≤ vec_capacity steps.old }
    ensures ends { ends.new.items ≡ map (λ desk. desk.end) desks.items }
    ensures counters { steps.new.items ≡ map (λ desk. desk.steps) desks.items ++ reverse steps.old.items }
    ensures capacity { vec_capacity ends.new ≡ vec_capacity ends.old }
{
    let mut desks = desks;
    while let Some(desk) = desks.pop() {
        let Desk {
            end,
            steps: counter,
            apart: _,
        } = desk;
        ends.push_reserved(end);
        steps.push_reserved(counter);
    }
    ends.reverse();
    steps.reverse();
}
