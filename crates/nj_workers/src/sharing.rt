//! What comes before the workers' work, and after it.

ghost use Rattle.std.specs.Prelude.{◌≡◌, ◌≤◌, ◌<◌, ◌+◌, ◌++◌, false, true, [], All, length, map, reverse, vec_len, vec_capacity, IsOk, IfOk, OnOk};
ghost use Rattle.nj_claims.specs.Passes.{first_pass, joined_pass};
ghost use Rattle.nj_workers.specs.Desks.{IsSeated, joined_all, rows_all};

use nj_claims::{ClaimTable, Pass};
use nj_expand::{Row, Search};
use nj_hands::{Hand, WorkEnd};
use nj_pieces::Taker;
use std::alloc::{AllocError, Global};

// A hand for each taker, in their order: with a machine, and with a pass split from the first one.
pub(crate) fn seated<'a>(
    alloc: Global,
    search: &'a Search,
    table: &ClaimTable,
    pass: &mut Pass,
    takers: &mut Vec<Taker>,
) -> Result<Vec<WorkEnd<'a>>, AllocError>
    requires first { pass.old ≡ first_pass table.now.id }
    requires few { length takers.old.items ≤ 64 }
    ensures seated { IfOk result (λ ends. All (IsSeated table.now search.now) ends.items) }
    ensures takers { IfOk result (λ ends. map (λ end. end.hand.taker) ends.items ≡ takers.old.items) }
    ensures left { OnOk result (takers.new.items ≡ []) }
    ensures capacity { OnOk result (vec_capacity takers.new ≡ vec_capacity takers.old) }
    ensures room { IfOk result (λ ends. vec_len takers.old ≤ vec_capacity ends) }
    ensures pass { OnOk result (pass.new ≡ record (first_pass table.now.id) { out = length takers.old.items }) }
{
    let mut ends = Vec::with_capacity(alloc, takers.len())?;
    takers.reverse();
    while let Some(taker) = takers.pop() {
        let machine = search.machine(alloc)?;
        ends.push_reserved(WorkEnd {
            hand: Hand {
                worker: ends.len() as u32,
                machine,
                taker,
                pass: table.split(pass),
                search,
            },
            rows: Vec::new(alloc),
            refused: false,
        });
    }
    Ok(ends)
}

// Joins the workers' passes to the first one, puts their takers back where they stood, and adds up their rows. Without
// memory for the rows the passes and takers come back all the same.
pub(crate) fn returned<'a>(
    table: &ClaimTable,
    pass: &mut Pass,
    takers: &mut Vec<Taker>,
    ends: Vec<WorkEnd<'a>>,
    rows: &mut Vec<Row>,
) -> Result<(), AllocError>
    requires own { pass.old.table ≡ table.now.id }
    requires root { pass.old.is_root ≡ true }
    requires others { All (λ end. end.hand.pass.table ≡ table.now.id) ends.items }
    requires empty { takers.old.items ≡ [] }
    requires room { vec_len ends ≤ vec_capacity takers.old }
    requires no_rows { rows.old.items ≡ [] }
    ensures pass { pass.new ≡ joined_all pass.old ends.entry.items }
    ensures takers { takers.new.items ≡ map (λ end. end.hand.taker) ends.entry.items }
    ensures rows { OnOk result (rows.new.items ≡ rows_all ends.entry.items) }
{
    let mut ends = ends;
    let mut added = Ok(());
    while let Some(end) = ends.pop() {
        let (taker, found) = join_end(table, pass, end);
        takers.push_reserved(taker);
        added = add_rows(added, found.as_slice(), rows);
    }
    takers.reverse();
    added
}

// Joins the pass of a worker to the first one, and gives its taker and its rows.
fn join_end<'a>(table: &ClaimTable, pass: &mut Pass, end: WorkEnd<'a>) -> (Taker, Vec<Row>)
    requires own { pass.old.table ≡ table.now.id }
    requires root { pass.old.is_root ≡ true }
    requires other { end.hand.pass.table ≡ table.now.id }
    ensures pass { pass.new ≡ joined_pass pass.old end.entry.hand.pass }
    ensures taker { result.0 ≡ end.entry.hand.taker }
    ensures rows { result.1.items ≡ end.entry.rows.items }
{
    let WorkEnd {
        hand,
        rows,
        refused: _,
    } = end;
    let Hand {
        worker: _,
        machine: _,
        taker,
        pass: other,
        search: _,
    } = hand;
    table.join(pass, other);
    (taker, rows)
}

// Adds rows, unless memory was wanted before.
fn add_rows(
    added: Result<(), AllocError>,
    found: &[Row],
    rows: &mut Vec<Row>,
) -> Result<(), AllocError>
    ensures before { OnOk result (IsOk added) }
    ensures rows { OnOk result (rows.new.items ≡ rows.old.items ++ found.now) }
{
    added?;
    rows.extend_from_slice(found)
}
