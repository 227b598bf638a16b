//! The atomic steps of a claim.
ghost use Rattle.std.specs.Prelude.{◌≡◌, ◌≢◌, ℕ, ◌+◌, ◌*◌, ◌^◌, ◌<◌, min, None, Some, true};
ghost use Rattle.nj_claims.specs.Tables.{slot_from, no_owner};
ghost use Rattle.nj_claims.specs.Steps.{looking, after_look, after_put, Owns};
ghost use Rattle.nj_claims.specs.Boards.{IsBoard, HasFirst, IsProbed, IsSettled, found_key, first_owner};
ghost use Rattle.nj_claims.specs.declared.view.Flight.TheVariants.{Found, Idle};

use crate::plays::{Asked, Look, Own, Put};
use crate::rule::ClaimRule;
use crate::view::{Opening, View};
use crate::words::slot_of;
use atomic_table::{Seat, Shared};
use std::marker::Brand;

pub(crate) type Board = Shared<u64, View, Opening, ClaimRule>;

// Loads the key word of the slot that the claim comes to.
fn look<C: Asked>(board: &Board, seat: &mut Seat<u64, View>, slot: usize) -> u64
    requires own { seat.old.table_id ≡ board.now.table_id }
    requires board { IsBoard C.slots board.now.key board.now.table_id }
    requires slot { (C.key ≢ 0) × (C.depth < C.slots) × (slot ≡ slot_from C.slots C.key C.depth) }
    requires living { seat.old.me.0.living ≡ true }
    requires flight { seat.old.me.0.flight ≡ looking C.key C.depth }
    ensures same { (seat.new.table_id ≡ seat.old.table_id) × (seat.new.id ≡ seat.old.id) }
    ensures view { seat.new.me ≡ (after_look C.slots C.key C.depth result seat.old.me.0, seat.old.me.1) }
{
    board.load::<Look<C>>(seat, 2 * slot)
}

// Puts the key into the slot that the claim comes to, where it is empty.
fn put<C: Asked>(board: &Board, seat: &mut Seat<u64, View>, slot: usize, key: u64) -> u64
    requires own { seat.old.table_id ≡ board.now.table_id }
    requires board { IsBoard C.slots board.now.key board.now.table_id }
    requires key { C.key ≡ key }
    requires slot { (C.key ≢ 0) × (C.depth < C.slots) × (slot ≡ slot_from C.slots C.key C.depth) }
    requires living { seat.old.me.0.living ≡ true }
    requires flight { seat.old.me.0.flight ≡ looking C.key C.depth }
    ensures same { (seat.new.table_id ≡ seat.old.table_id) × (seat.new.id ≡ seat.old.id) }
    ensures view { seat.new.me ≡ (after_put C.slots C.key C.depth result seat.old.me.0, seat.old.me.1) }
{
    board.compare_exchange::<Put<C>>(seat, 2 * slot, 0, key)
}

// Lowers the owner of the key in its slot to the number, and answers the owner before.
fn own<C: Asked>(board: &Board, seat: &mut Seat<u64, View>, slot: usize, number: u64) -> u64
    requires own { seat.old.table_id ≡ board.now.table_id }
    requires board { IsBoard C.slots board.now.key board.now.table_id }
    requires number { (C.number ≡ number) × (number < no_owner) }
    requires slot { slot < C.slots }
    requires living { seat.old.me.0.living ≡ true }
    requires found { seat.old.me.0.flight ≡ Found C.key slot }
    requires first { HasFirst C.key C.most board.now.key }
    ensures same { (seat.new.table_id ≡ seat.old.table_id) × (seat.new.id ≡ seat.old.id) }
    ensures tells { Owns C.key C.number C.most seat.old.me result seat.new.me }
{
    board.fetch_min::<Own<C>>(seat, 2 * slot + 1, number)
}

// Comes to the next slot of the walk: the slot where it holds the key now, None where it holds another.
fn probe<C: Asked>(
    board: &Board,
    seat: &mut Seat<u64, View>,
    slots: usize,
    key: u64,
    depth: usize,
) -> Option<usize>
    requires own { seat.old.table_id ≡ board.now.table_id }
    requires board { (C.slots ≡ slots) × IsBoard C.slots board.now.key board.now.table_id }
    requires key { (C.key ≡ key) × (key ≢ 0) }
    requires depth { (C.depth ≡ depth) × (depth < slots) }
    requires living { seat.old.me.0.living ≡ true }
    requires flight { seat.old.me.0.flight ≡ looking key depth }
    ensures same { (seat.new.table_id ≡ seat.old.table_id) × (seat.new.id ≡ seat.old.id) }
    ensures view { IsProbed slots key depth seat.old.me seat.new.me result }
{
    let slot = slot_of(slots, key, depth);
    let held = look::<C>(board, seat, slot);
    if held == key {
        return Some(slot);
    }
    if held != 0 {
        return None;
    }
    let met = put::<C>(board, seat, slot, key);
    if met == 0 {
        return Some(slot);
    }
    if met == key {
        return Some(slot);
    }
    None
}

// The slot that holds the key now: the first from its home that holds it or was empty. None where every slot holds
// another key.
pub(crate) fn settle(
    board: &Board,
    seat: &mut Seat<u64, View>,
    slots: usize,
    key: u64,
) -> Option<usize>
    requires own { seat.old.table_id ≡ board.now.table_id }
    requires board { IsBoard slots board.now.key board.now.table_id }
    requires key { key ≢ 0 }
    requires living { seat.old.me.0.living ≡ true }
    requires idle { seat.old.me.0.flight ≡ Idle }
    ensures same { (seat.new.table_id ≡ seat.old.table_id) × (seat.new.id ≡ seat.old.id) }
    ensures view { IsSettled slots key seat.old.me seat.new.me result }
{
    for depth in 0..slots {
        if let Some(slot) = probe::<Brand>(board, seat, slots, key, depth) {
            return Some(slot);
        }
    }
    None
}

// Lowers the owner of the key that was found to the number, and answers the owner before.
pub(crate) fn lower(board: &Board, seat: &mut Seat<u64, View>, slot: usize, number: u64) -> u64
    requires own { seat.old.table_id ≡ board.now.table_id }
    requires board { IsBoard board.now.key.slots board.now.key board.now.table_id }
    requires number { number < no_owner }
    requires slot { slot < board.now.key.slots }
    requires living { seat.old.me.0.living ≡ true }
    requires found { seat.old.me.0.flight ≡ Found (found_key seat.old.me.0.flight) slot }
    ensures same { (seat.new.table_id ≡ seat.old.table_id) × (seat.new.id ≡ seat.old.id) }
    ensures tells { Owns (found_key seat.old.me.0.flight) number
        (first_owner board.now.key.words.items (found_key seat.old.me.0.flight)) seat.old.me result seat.new.me }
{
    own::<Brand>(board, seat, slot, number)
}
