//! One step by several workers.

ghost use Rattle.std.specs.Prelude.{◌≡◌, ◌≤◌, ◌*◌, false, true, [], length, vec_len, vec_capacity, IfOk, OnOk, OnErr};
ghost use Rattle.nj_claims.specs.Passes.{first_pass};
ghost use Rattle.nj_expand.specs.Held.{live_rows, candidates_in};
ghost use Rattle.nj_hands.specs.Claimed.{AreClaimed};
ghost use Rattle.nj_workers.specs.Counted.{AreCounted};
ghost use Rattle.nj_workers.specs.Meeting.{HaveMet};

use crate::desks::work_all;
use crate::sharing::{returned, seated};
use nj_claims::{ClaimTable, Pass};
use nj_expand::{Row, Search};
use nj_hands::{WorkEnd, claims_go_together, piece_count, pieces_are_the_front};
use nj_outside::Gate;
use nj_pieces::{Pieces, Taker};
use nj_steps::Steps;
use std::alloc::{AllocError, Global};
use std::sync::Wait;
use std::sync::ledger::Ledger;
use std::thread::Threads;

// Claims the keys of all live candidates of a step by so many workers, and gives the rows that were kept. All passes
// have come back to the first one. Where a worker wanted memory and left a piece, or the rows do, it is want of memory.
pub(crate) fn claimed_rows<R: Threads + Wait + Sync, G: Gate, L: Ledger + Send>(
    rt: &R,
    alloc: Global,
    search: &Search,
    table: &ClaimTable,
    pass: &mut Pass,
    workers: u32,
    gate: &G,
    steps: &mut Vec<Steps<L>>,
) -> Result<Vec<Row>, AllocError>
    requires spent { search.now.spent ≡ false }
    requires first { pass.old ≡ first_pass table.now.id }
    requires some { 1 ≤ workers }
    requires few { workers ≤ 64 }
    requires counters { workers ≤ length steps.old.items }
    ensures claimed { IfOk result
        (λ rows. AreClaimed (live_rows search.now) (first_pass table.now.id) pass.new rows.items) }
    ensures own { OnOk result (pass.new.table ≡ table.now.id) }
    ensures root { OnOk result (pass.new.is_root ≡ true) }
    ensures joined { OnOk result (pass.new.out ≡ 0) }
    ensures frames { AreCounted workers steps.old.items steps.new.items
        (search.now.plan.script.hold * length (candidates_in search.now)) }
{
    claims_go_together();
    pieces_are_the_front();
    let (pieces, mut takers, ends) = all_worked(
        rt, alloc, search, table, pass, workers, gate, steps,
    )?;
    let mut rows = Vec::new(alloc);
    let added = returned(table, pass, &mut takers, ends, &mut rows);
    let left = pieces.gather(takers);
    added?;
    if !left.is_empty() {
        return Err(AllocError);
    }
    Ok(rows)
}

// Deals the pieces of the front to so many workers, and lets all work. It gives the pieces, an empty list with room for
// the takers, and what the workers bring back. Without memory nobody has worked.
fn all_worked<'a, R: Threads + Wait + Sync, G: Gate, L: Ledger + Send>(
    rt: &R,
    alloc: Global,
    search: &'a Search,
    table: &ClaimTable,
    pass: &mut Pass,
    workers: u32,
    gate: &G,
    steps: &mut Vec<Steps<L>>,
) -> Result<(Pieces, Vec<Taker>, Vec<WorkEnd<'a>>), AllocError>
    requires spent { search.now.spent ≡ false }
    requires first { pass.old ≡ first_pass table.now.id }
    requires some { 1 ≤ workers }
    requires few { workers ≤ 64 }
    requires counters { workers ≤ length steps.old.items }
    ensures met { IfOk result (λ worked.
        HaveMet table.now worked.0 search.now workers worked.2.items steps.old.items steps.new.items) }
    ensures pass { OnOk result (pass.new ≡ record (first_pass table.now.id) { out = workers }) }
    ensures empty { IfOk result (λ worked. worked.1.items ≡ []) }
    ensures room { IfOk result (λ worked. vec_len worked.2 ≤ vec_capacity worked.1) }
    ensures counters { OnErr result (steps.new.items ≡ steps.old.items) }
{
    let (pieces, mut takers) = Pieces::deal(alloc, piece_count(search), workers)?;
    let mut ends = seated(alloc, search, table, pass, &mut takers)?;
    work_all(rt, alloc, table, &pieces, gate, &mut ends, steps)?;
    Ok((pieces, takers, ends))
}
