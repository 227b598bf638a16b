ghost use Rattle.std.specs.Prelude.{◌≡◌, ℕ, ◌+◌, ◌<◌, ◌≤◌, [], ◌∷◌, length, true, slice_index_or, vec_len, vec_capacity};
ghost use Rattle.std.specs.List.{sum_by, range_with_len};
ghost use Rattle.std.specs.List.Sorted.{IsSorted};
ghost use Rattle.std.specs.Ordering.{nat_cmp};
ghost use Rattle.crossbeam_deque.specs.Handles.{worker_flavor, worker_port, worker_view};
ghost use Rattle.nj_pieces.specs.Dealing.{times, once_below};
ghost use Rattle.nj_pieces.specs.Takers.{count_of, taken_of, is_done, AreTakersOf};
ghost use Rattle.nj_pieces.specs.Gathering.{IsReturn, IsGathered, IsGiven, weight_back, weight_out};

use crate::parts::{Access, Pieces, Taker};
use crate::rule::{Drains, Gives, Owner, Task};
use std::alloc::Global;
use std::mem;

impl Pieces {
    /// The pieces that nobody took, in rising order. It takes no memory.
    #[tactic(auto, unfolding(crate::specs::Takers::count_of))]
    pub fn gather(self, takers: Vec<Taker>) -> Vec<u64>
        requires { AreTakersOf self takers.items }
        ensures once { (piece : ℕ) → times piece result.items
            + sum_by (λ taker. times piece (taken_of taker)) takers.items ≡ once_below piece (count_of self) }
        ensures whole { (h : ℕ → ℕ) → sum_by h result.items + sum_by (λ taker. sum_by h (taken_of taker)) takers.items
            ≡ sum_by h (range_with_len 0 (count_of self)) }
        ensures ascending { IsSorted nat_cmp result.items }
        ensures none_left { (k : ℕ) (d : Taker) → k < length takers.items
            → is_done (slice_index_or takers.items k d) ≡ true → result.items ≡ [] }
    {
        let mut takers = takers;
        let mut left = self.left;
        take_back(self.alloc, takers.as_mut_slice());
        while let Some(taker) = takers.pop() {
            drain(taker.owner, &mut left);
        }
        left.sort_unstable();
        left
    }
}

// Gives what all accesses have back to the owners of their deques.
fn take_back(alloc: Global, takers: &mut [Taker])
    requires ports { (k : ℕ) (d : Taker) → k < length takers.old
        → worker_port (slice_index_or takers.old k d).owner ≡ 0 }
    requires many { (j : ℕ) (d : Taker) → j < length takers.old
        → length (slice_index_or takers.old j d).accesses.items ≡ length takers.old }
    requires returns { (j k : ℕ) (d : Taker) (a : Access) → j < length takers.old → k < length takers.old
        → IsReturn (slice_index_or takers.old k d) (slice_index_or (slice_index_or takers.old j d).accesses.items k a) }
    ensures many { length takers.new ≡ length takers.old }
    ensures owners { (k : ℕ) (d : Taker) → k < length takers.old
        → IsGathered (length takers.old) (slice_index_or takers.old k d) (slice_index_or takers.new k d) }
    ensures weights { (h : ℕ → ℕ)
        → sum_by (weight_back h) takers.new ≡ sum_by (weight_back h) takers.old + sum_by (weight_out h) takers.old }
    ensures ended { (j k : ℕ) (d : Taker) → j < length takers.old → k < length takers.old →
        is_done (slice_index_or takers.old j d) ≡ true → 0 < (worker_view (slice_index_or takers.new k d).owner).ends }
{
    for from in 0..takers.len() {
        let accesses = mem::replace(&mut takers[from].accesses, Vec::new(alloc));
        give(takers, accesses);
    }
}

// Gives what these accesses have back to the owners, each to its own.
fn give(takers: &mut [Taker], accesses: Vec<Access>)
    requires ports { (k : ℕ) (d : Taker) → k < length takers.old
        → worker_port (slice_index_or takers.old k d).owner ≡ 0 }
    requires many { length accesses.items ≡ length takers.old }
    requires returns { (k : ℕ) (d : Taker) (a : Access) → k < length takers.old
        → IsReturn (slice_index_or takers.old k d) (slice_index_or accesses.items k a) }
    ensures many { length takers.new ≡ length takers.old }
    ensures given { (k : ℕ) (d : Taker) (a : Access) → k < length takers.old
        → IsGiven (slice_index_or takers.old k d) (slice_index_or accesses.items k a) (slice_index_or takers.new k d) }
{
    let mut accesses = accesses;
    while let Some(access) = accesses.pop() {
        takers[accesses.len()].owner.absorb::<Gives>(access.ticket);
    }
}

// Takes the pieces that are left in a deque.
fn drain(owner: Owner, left: &mut Vec<u64>)
    requires fifo { worker_flavor owner ≡ 0 }
    requires port { worker_port owner ≡ 0 }
    requires whole { (worker_view owner).seats ≡ (worker_view owner).marks }
    requires some_mark { 0 < (worker_view owner).marks }
    requires room { vec_len left.old + length (worker_view owner).dealt
        ≤ vec_capacity left.old + length (worker_view owner).taken }
    ensures weights { (h : ℕ → ℕ) → sum_by h left.new.items + sum_by h (worker_view owner).taken
        ≡ sum_by h left.old.items + sum_by h (worker_view owner).dealt }
    ensures capacity { vec_capacity left.new ≡ vec_capacity left.old }
    ensures none_left { 0 < (worker_view owner).ends → left.new.items ≡ left.old.items }
{
    let mut owner = owner;
    loop {
        match owner.pop_as::<Drains>() {
            Some(Task::Piece(piece)) => left.push_reserved(piece),
            Some(Task::End) | None => return,
        }
    }
}
