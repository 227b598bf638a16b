ghost use Rattle.std.specs.Prelude.{◌≡◌, ℕ, ◌<◌, ◌++◌, ◌∷◌, [], length, true, false, slice_index_or, Contains, ◌⊎◌, None, IfSome, IfNone, IfOk};
ghost use Rattle.crossbeam_deque.specs.Handles.{view, IsPassOf, SamePass, stealer_deque, stealer_flavor, worker_port, worker_view, SameWorker};
ghost use Rattle.nj_pieces.specs.Tallies.{with_piece, with_end, noted, IsOf};
ghost use Rattle.nj_pieces.specs.Dealing.{dealt_to};
ghost use Rattle.nj_pieces.specs.Takers.{count_of, number_of, dealt_of, taken_of, is_done, HasMetOwnEnd, IsTakerOf};

use crate::parts::{Access, Pieces, Taker};
use crate::rule::{Noted, Notes, Owner, Takes, Task, Thief};
use crossbeam_deque::Steal;
use std::marker::Brand;
use std::sync::Wait;

impl Pieces {
    /// Takes a piece: from the worker's own deque, or, once that was found without a piece, from another's.
    /// `None` says that each deque was found without a piece, in this call or in an earlier one of this taker,
    /// and every later call with this taker answers it again.
    #[tactic(auto, unfolding(crate::specs::Takers::count_of, crate::specs::Takers::number_of, crate::specs::Takers::dealt_of, crate::specs::Takers::taken_of, crate::specs::Takers::is_done, crate::specs::Takers::HasMetOwnEnd))]
    pub fn take<R: Wait>(&self, rt: &R, taker: &mut Taker) -> Option<u64>
        requires { IsTakerOf self.now taker.old }
        ensures piece { IfSome result (λ piece. taken_of taker.new ≡ taken_of taker.old ++ piece ∷ []) }
        ensures below { IfSome result (λ piece. piece < count_of self.now) }
        ensures own_first { IfSome result (λ piece. Contains (dealt_of taker.old) piece ⊎ HasMetOwnEnd taker.new) }
        ensures none { IfNone result (is_done taker.new ≡ true) }
        ensures again { is_done taker.old ≡ true → result ≡ None }
        ensures none_taken { IfNone result (taken_of taker.new ≡ taken_of taker.old) }
        ensures same { IsTakerOf self.now taker.new }
        ensures number { number_of taker.new ≡ number_of taker.old }
        ensures dealt { dealt_of taker.new ≡ dealt_of taker.old }
    {
        let own = taker.number;
        if let Some(piece) = self.take_at(rt, taker, own) {
            return Some(piece);
        }
        for at in 0..self.thieves.len() {
            if let Some(piece) = self.take_at(rt, taker, at) {
                return Some(piece);
            }
        }
        None
    }

    // Takes a piece from the deque of this worker, unless its end was met.
    fn take_at<R: Wait>(&self, rt: &R, taker: &mut Taker, at: usize) -> Option<u64>
        requires taker { IsTakerOf self.now taker.old }
        requires within { at < length self.now.thieves.items }
        ensures piece { IfSome result (λ piece. (worker_view taker.new.owner).log
            ≡ (worker_view taker.old.owner).log ++ piece ∷ []) }
        ensures from { IfSome result (λ piece. Contains (dealt_to at (length self.now.thieves.items) self.now.count) piece) }
        ensures already { ((d : Access) → (slice_index_or taker.old.accesses.items at d).ended ≡ true) → result ≡ None }
        ensures none { IfNone result ((worker_view taker.new.owner).log ≡ (worker_view taker.old.owner).log) }
        ensures ended { IfNone result ((d : Access) → (slice_index_or taker.new.accesses.items at d).ended ≡ true) }
        ensures kept { (k : ℕ) (d : Access) → k < length self.now.thieves.items
            → (slice_index_or taker.old.accesses.items k d).ended ≡ true
            → (slice_index_or taker.new.accesses.items k d).ended ≡ true }
        ensures same { IsTakerOf self.now taker.new }
        ensures number { taker.new.number ≡ taker.old.number }
        ensures dealt { (worker_view taker.new.owner).dealt ≡ (worker_view taker.old.owner).dealt }
    {
        let access = &mut taker.accesses[at];
        if access.ended {
            return None;
        }
        let piece = steal(rt, &self.thieves[at], access)?;
        note(&mut taker.owner, piece);
        Some(piece)
    }
}

// Takes the first piece of a deque. A steal that lost a race is tried again. At `None` it has met a mark.
fn steal<R: Wait>(rt: &R, thief: &Thief, access: &mut Access) -> Option<u64>
    requires fifo { stealer_flavor thief.now ≡ 0 }
    requires deque { IsPassOf (stealer_deque thief.now) access.old.ticket }
    requires right { (view access.old.ticket).ends < (view access.old.ticket).seats }
    ensures same { SamePass access.old.ticket access.new.ticket }
    ensures piece { IfSome result (λ piece. (view access.new.ticket ≡ with_piece (view access.old.ticket) piece)
        × IsOf (view access.old.ticket).dealt piece) }
    ensures mark { IfNone result (view access.new.ticket ≡ with_end (view access.old.ticket)) }
    ensures ended { IfSome result (λ piece. access.new.ended ≡ access.old.ended) }
    ensures met { IfNone result (access.new.ended ≡ true) }
{
    for _ in rt.forever() {
        match thief.steal_as::<Takes>(&mut access.ticket) {
            Steal::Success(Task::Piece(piece)) => return Some(piece),
            Steal::Success(Task::End) => {
                access.ended = true;
                return None;
            }
            Steal::Empty => unreachable!(),
            Steal::Retry => {}
        }
    }
    unreachable!()
}

// Tells the owner's pass that its worker has taken a piece. It changes nothing else.
fn note(owner: &mut Owner, piece: u64)
    requires { worker_port owner.old ≡ 0 }
    ensures same { SameWorker owner.old owner.new }
    ensures noted { worker_view owner.new ≡ noted (worker_view owner.old) piece }
{
    note_as::<Brand>(owner, piece)
}

fn note_as<N: Noted>(owner: &mut Owner, piece: u64)
    requires port { worker_port owner.old ≡ 0 }
    requires named { piece ≡ N.piece }
    ensures same { SameWorker owner.old owner.new }
    ensures noted { worker_view owner.new ≡ noted (worker_view owner.old) piece }
{
    let _pass = owner.another::<Notes<N>>();
}
