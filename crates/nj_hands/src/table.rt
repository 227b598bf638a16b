//! The claim table of a step: opened with room for its claims, and closed once all are made.

ghost use Rattle.std.specs.Prelude.{◌≡◌, ◌≤◌, ◌<◌, ◌*◌, ◌^◌, true, length, IfOk};
ghost use Rattle.nj_claims.specs.Passes.{first_pass};
ghost use Rattle.nj_seen.specs.Rows.{IsRising};
ghost use Rattle.nj_expand.specs.Held.{live_rows};
ghost use Rattle.nj_expand.specs.Closed.{AreRowsOf, IsClosedFor};
ghost use Rattle.nj_hands.specs.Claimed.{AreClaimed};
ghost use Rattle.nj_hands.specs.Room.{IsOpenFor};

use nj_claims::{ClaimTable, Pass, empty_table};
use nj_expand::{Row, Search, a_step_is_bounded, live_rows_are_live, live_rows_can_claim};
use nj_seen::{claims_are_of_rows, no_key_is_seen, owned_is_fresh, room_is_enough};
use std::alloc::{AllocError, Global};

/// An empty table with room for the claims of the next step, and its first pass.
pub fn open_table(search: &Search, alloc: Global) -> Result<(ClaimTable, Pass), AllocError>
    ensures opening { IfOk result (λ opened. IsOpenFor search.now opened.0.opening) }
    ensures pass { IfOk result (λ opened. opened.1 ≡ first_pass opened.0.id) }
{
    let claims = opening(search, alloc)?;
    let (table, pass) = ClaimTable::open(alloc, claims)?;
    Ok((table, pass))
}

// An empty table with room for the claims of the next step.
fn opening(search: &Search, alloc: Global) -> Result<Vec<u64>, AllocError>
    ensures { IfOk result (λ claims. IsOpenFor search.now claims.items) }
{
    no_key_is_seen();
    let bounds = search.bounds();
    let room = search.front_len() as u64 * bounds.inputs;
    let claims = empty_table(alloc, exponent_for(room, bounds.exponent))?;
    Ok(claims)
}

// The least exponent from 10 on of a table with twice the room, or the greatest that is allowed, which has the room.
// In a table that is half empty few slots are passed before a key's.
fn exponent_for(room: u64, most: u32) -> u32
    requires least { 10 ≤ most }
    requires most { most ≤ 25 }
    requires fits { room ≤ 2 ^ most }
    ensures least { 10 ≤ result }
    ensures most { result ≤ 25 }
    ensures fits { room ≤ 2 ^ result }
{
    for exponent in 10..most {
        if 2 * room <= 2_u64.pow(exponent) {
            return exponent;
        }
    }
    most
}

/// The rows that were kept of a step's live ones, and the closed table of their claims, once these are made and all
/// passes have come back to the first one: what the end of a step needs.
pub fn close_table(
    search: &Search,
    table: ClaimTable,
    pass: Pass,
    rows: Vec<Row>,
) -> (Vec<Row>, Vec<u64>)
    requires step { search.now.state.step < 16777215 }
    requires opening { IsOpenFor search.now table.opening }
    requires own { pass.table ≡ table.id }
    requires root { pass.is_root ≡ true }
    requires joined { pass.out ≡ 0 }
    requires claimed { AreClaimed (live_rows search.now) (first_pass table.id) pass rows.items }
    ensures rows { AreRowsOf search.now result.0.items }
    ensures words { IsClosedFor search.now result.1.items }
{
    claims_are_of_rows();
    owned_is_fresh();
    room_is_enough();
    lives_are_few(search);
    (rows, table.close(pass))
}

// What is known of the rows of a step's live candidates.
fn lives_are_few(search: &Search)
    ensures rising { IsRising (live_rows search.now) }
    ensures few { length (live_rows search.now) ≤ length search.now.state.front * search.now.bounds.inputs }
{
    live_rows_can_claim();
    live_rows_are_live();
    a_step_is_bounded();
    let _bounds = search.bounds();
}
