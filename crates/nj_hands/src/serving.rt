//! What a worker does.

ghost use Rattle.std.specs.Prelude.{◌≡◌, ◌≤◌, ◌+◌, ◌*◌, ◌++◌, false, true, length, vec_len, vec_capacity, OnOk};
ghost use Rattle.nj_expand.specs.Front.{size_in};
ghost use Rattle.nj_pieces.specs.Takers.{number_of, taken_of, is_done};
ghost use Rattle.nj_hands.specs.Claimed.{IsSamePass, AreClaimed};
ghost use Rattle.nj_hands.specs.Hands.{MayWork, HasWorked, taken_between, rows_between, frames_between};

use crate::hand::{Hand, WorkEnd};
use crate::piece::{WORDS, do_piece};
use nj_claims::ClaimTable;
use nj_expand::Row;
use nj_outside::Gate;
use nj_pieces::Pieces;
use nj_steps::Steps;
use std::alloc::{AllocError, Global};
use std::sync::Wait;
use std::sync::ledger::Ledger;

/// Takes pieces, until none is left or memory is wanted, which is told before one is taken; so each piece that was
/// taken is done. The key of each live candidate of these pieces is claimed once. A row is dropped only where a smaller
/// number was seen for its key and it does not win.
pub fn work<'a, R: Wait, G: Gate, L: Ledger>(
    rt: &R,
    alloc: Global,
    hand: Hand<'a>,
    table: &ClaimTable,
    pieces: &Pieces,
    gate: &G,
    steps: &mut Steps<L>,
) -> WorkEnd<'a>
    requires { MayWork table.now pieces.now hand }
    ensures pieces { taken_of result.hand.taker ≡ taken_of hand.entry.taker ++ taken_between hand.entry result.hand }
    ensures claimed { AreClaimed (rows_between hand.entry result.hand)
        hand.entry.pass result.hand.pass result.rows.items }
    ensures pass { IsSamePass hand.entry.pass result.hand.pass }
    ensures frames { steps.new ≤ steps.old + frames_between hand.entry result.hand }
    ensures never_falls { steps.old ≤ steps.new }
    ensures may { MayWork table.now pieces.now result.hand }
    ensures worker { result.hand.worker ≡ hand.entry.worker }
    ensures number { number_of result.hand.taker ≡ number_of hand.entry.taker }
    ensures search { result.hand.search.now ≡ hand.entry.search.now }
    ensures done { result.refused ≡ false → is_done result.hand.taker ≡ true }
{
    let mut end = WorkEnd {
        hand,
        rows: Vec::new(alloc),
        refused: false,
    };
    serve(rt, alloc, table, pieces, gate, &mut end, steps);
    end
}

/// Works as [`work`] does, in the place of what is given back.
pub fn serve<'a, R: Wait, G: Gate, L: Ledger>(
    rt: &R,
    alloc: Global,
    table: &ClaimTable,
    pieces: &Pieces,
    gate: &G,
    end: &mut WorkEnd<'a>,
    steps: &mut Steps<L>,
)
    requires { MayWork table.now pieces.now end.old.hand }
    ensures worked { HasWorked table.now pieces.now end.old.hand end.new.hand
        end.old.rows.items end.new.rows.items steps.old steps.new }
    ensures done { end.new.refused ≡ false → is_done end.new.hand.taker ≡ true }
{
    let taken = take_all(
        rt,
        alloc,
        table,
        pieces,
        gate,
        &mut end.hand,
        &mut end.rows,
        steps,
    );
    end.refused = taken.is_err();
}

// Takes pieces until none is left. Memory is asked for before a piece is taken.
fn take_all<'a, R: Wait, G: Gate, L: Ledger>(
    rt: &R,
    alloc: Global,
    table: &ClaimTable,
    pieces: &Pieces,
    gate: &G,
    hand: &mut Hand<'a>,
    rows: &mut Vec<Row>,
    steps: &mut Steps<L>,
) -> Result<(), AllocError>
    requires { MayWork table.now pieces.now hand.old }
    ensures worked { HasWorked table.now pieces.now hand.old hand.new
        rows.old.items rows.new.items steps.old steps.new }
    ensures done { OnOk result (is_done hand.new.taker ≡ true) }
{
    let inputs = hand.search.bounds().inputs as usize;
    let mut image_room = vec![in alloc; 0; hand.search.image_len()]?;
    let image = image_room.as_mut_slice();
    let mut found = Vec::with_capacity(alloc, inputs)?;
    for _ in rt.forever() {
        rows.reserve(WORDS * inputs)?;
        if !take_one(
            rt, table, pieces, gate, hand, image, &mut found, rows, steps,
        ) {
            return Ok(());
        }
    }
    unreachable!()
}

// Takes a piece and does it, or tells that none is left.
fn take_one<'a, R: Wait, G: Gate, L: Ledger>(
    rt: &R,
    table: &ClaimTable,
    pieces: &Pieces,
    gate: &G,
    hand: &mut Hand<'a>,
    image: &mut [u8],
    found: &mut Vec<Row>,
    rows: &mut Vec<Row>,
    steps: &mut Steps<L>,
) -> bool
    requires may { MayWork table.now pieces.now hand.old }
    requires long { length image.old ≡ size_in hand.old.search.now.plan }
    requires found { hand.old.search.now.bounds.inputs ≤ vec_capacity found.old }
    requires room { vec_len rows.old + 16 * hand.old.search.now.bounds.inputs ≤ vec_capacity rows.old }
    ensures worked { HasWorked table.now pieces.now hand.old hand.new
        rows.old.items rows.new.items steps.old steps.new }
    ensures none { result ≡ false → is_done hand.new.taker ≡ true }
    ensures long { length image.new ≡ length image.old }
    ensures found { vec_capacity found.new ≡ vec_capacity found.old }
{
    let Some(piece) = pieces.take(rt, &mut hand.taker) else {
        return false;
    };
    gate.at_piece(hand.worker, piece);
    do_piece(
        hand.search,
        piece as usize,
        table,
        &mut hand.machine,
        &mut hand.pass,
        image,
        found,
        rows,
        steps,
    );
    true
}
