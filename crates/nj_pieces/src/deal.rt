ghost use Rattle.std.specs.Prelude.{◌≡◌, ℕ, ◌<◌, ◌≤◌, [], ◌∷◌, length, false, slice_index_or, All, IfOk, OnOk};
ghost use Rattle.crossbeam_deque.specs.Handles.{worker_deque, worker_flavor, worker_port, worker_view, stealer_deque, stealer_flavor, SameWorker};
ghost use Rattle.nj_pieces.specs.declared.rule.Task.TheVariants.{Piece, End};
ghost use Rattle.nj_pieces.specs.Tallies.{put, opening};
ghost use Rattle.nj_pieces.specs.Dealing.{dealt_to};
ghost use Rattle.nj_pieces.specs.Takers.{Thief, count_of, workers_of, dealt_of, taken_of, is_done, AreTakersOf};
ghost use Rattle.nj_pieces.specs.Seating.{IsOpened, MayCut, IsCut, IsSeat};

use crate::parts::{Access, Pieces, Taker};
use crate::rule::{Cuts, Owner, Puts, Task, Thief};
use std::alloc::{AllocError, Global};

impl Pieces {
    /// Deals the pieces below `count`, piece p to worker p mod `workers`, in rising order. There is a taker
    /// for each worker, in their order.
    #[tactic(auto, unfolding(crate::specs::Takers::count_of, crate::specs::Takers::workers_of))]
    pub fn deal(alloc: Global, count: u64, workers: u32) -> Result<(Pieces, Vec<Taker>), AllocError>
        requires workers { (0 < workers) × (workers ≤ 64) }
        requires pieces { count ≤ 65536 }
        ensures count { IfOk result (λ dealing. count_of dealing.0 ≡ count) }
        ensures workers { IfOk result (λ dealing. workers_of dealing.0 ≡ workers) }
        ensures takers { IfOk result (λ dealing. AreTakersOf dealing.0 dealing.1.items) }
        ensures dealt { IfOk result (λ dealing. (k : ℕ) (d : Taker) → k < workers
            → dealt_of (slice_index_or dealing.1.items k d) ≡ dealt_to k workers count) }
        ensures none_taken { IfOk result (λ dealing. All (λ taker. taken_of taker ≡ []) dealing.1.items) }
        ensures none_done { IfOk result (λ dealing. All (λ taker. is_done taker ≡ false) dealing.1.items) }
    {
        let (mut takers, thieves) = opened(alloc, count, workers as usize)?;
        seat(alloc, takers.as_mut_slice())?;
        let left = Vec::with_capacity(alloc, count as usize)?;
        let pieces = Pieces {
            count,
            thieves,
            left,
            alloc,
        };
        Ok((pieces, takers))
    }
}

// A taker for each worker, with the owner's end of its deque and no access, and a handle that takes from each deque.
fn opened(alloc: Global, count: u64, workers: usize) -> Result<(Vec<Taker>, Vec<Thief>), AllocError>
    requires { (0 < workers) × (workers ≤ 64) × (count ≤ 65536) }
    ensures takers { IfOk result (λ pair. length pair.0.items ≡ workers) }
    ensures thieves { IfOk result (λ pair. length pair.1.items ≡ workers) }
    ensures each { IfOk result (λ pair. (k : ℕ) (d : Taker) (s : Thief) → k < workers
        → IsOpened count workers k (slice_index_or pair.0.items k d) (slice_index_or pair.1.items k s)) }
{
    let mut takers = Vec::with_capacity(alloc, workers)?;
    let mut thieves = Vec::with_capacity(alloc, workers)?;
    for number in 0..workers {
        let owner = marked(filled(alloc, number, count, workers)?, workers)?;
        thieves.push(owner.stealer()?)?;
        takers.push(Taker {
            number,
            owner,
            accesses: Vec::new(alloc),
        })?;
    }
    Ok((takers, thieves))
}

// A deque with the pieces of the worker of this number.
#[tactic(auto, using(crate::proofs::Dealings::dealt_here, crate::proofs::Dealings::dealt_else))]
fn filled(alloc: Global, number: usize, count: u64, workers: usize) -> Result<Owner, AllocError>
    requires { (0 < workers) × (workers ≤ 64) × (count ≤ 65536) }
    ensures fifo { IfOk result (λ owner. worker_flavor owner ≡ 0) }
    ensures port { IfOk result (λ owner. worker_port owner ≡ 0) }
    ensures view { IfOk result (λ owner. worker_view owner ≡ opening (dealt_to number workers count) 0) }
{
    let each = count / workers as u64;
    let mut owner = Owner::fifo_as(alloc, each as usize + workers + 1)?;
    for piece in 0..count {
        if piece % workers as u64 == number as u64 {
            put_piece(&mut owner, piece)?;
        }
    }
    Ok(owner)
}

// The deque with so many marks behind the pieces.
fn marked(owner: Owner, marks: usize) -> Result<Owner, AllocError>
    requires port { worker_port owner ≡ 0 }
    requires unmarked { (worker_view owner) ≡ opening (worker_view owner).dealt 0 }
    ensures same { IfOk result (λ marked. SameWorker owner marked) }
    ensures view { IfOk result (λ marked. worker_view marked ≡ opening (worker_view owner).dealt marks) }
{
    let mut owner = owner;
    for _ in 0..marks {
        put_mark(&mut owner)?;
    }
    Ok(owner)
}

fn put_piece(owner: &mut Owner, piece: u64) -> Result<(), AllocError>
    requires port { worker_port owner.old ≡ 0 }
    requires unmarked { (worker_view owner.old).marks ≡ 0 }
    ensures same { SameWorker owner.old owner.new }
    ensures view { OnOk result (worker_view owner.new ≡ put (worker_view owner.old) (Piece piece ∷ [])) }
{
    match owner.push_as::<Puts>(Task::Piece(piece)) {
        Ok(()) => Ok(()),
        Err(_) => Err(AllocError),
    }
}

fn put_mark(owner: &mut Owner) -> Result<(), AllocError>
    requires { worker_port owner.old ≡ 0 }
    ensures same { SameWorker owner.old owner.new }
    ensures view { OnOk result (worker_view owner.new ≡ put (worker_view owner.old) (End ∷ [])) }
{
    match owner.push_as::<Puts>(Task::End) {
        Ok(()) => Ok(()),
        Err(_) => Err(AllocError),
    }
}

// Gives each taker its accesses.
fn seat(alloc: Global, takers: &mut [Taker]) -> Result<(), AllocError>
    requires { (k : ℕ) (d : Taker) → k < length takers.old
        → MayCut (length takers.old) (slice_index_or takers.old k d) }
    ensures many { length takers.new ≡ length takers.old }
    ensures cut { OnOk result ((k : ℕ) (d : Taker) → k < length takers.old
        → IsCut (length takers.old) (slice_index_or takers.old k d) (slice_index_or takers.new k d)) }
    ensures accesses { OnOk result ((j : ℕ) (d : Taker) → j < length takers.old
        → length (slice_index_or takers.new j d).accesses.items ≡ length takers.old) }
    ensures seats { OnOk result ((j k : ℕ) (d : Taker) (a : Access) → j < length takers.old → k < length takers.old
        → IsSeat (slice_index_or takers.old k d) (slice_index_or (slice_index_or takers.new j d).accesses.items k a)) }
{
    for at in 0..takers.len() {
        let accesses = cut_from(alloc, takers)?;
        takers[at].accesses = accesses;
    }
    Ok(())
}

// An access to each taker's own deque.
fn cut_from(alloc: Global, takers: &mut [Taker]) -> Result<Vec<Access>, AllocError>
    requires { (k : ℕ) (d : Taker) → k < length takers.old → MayCut 1 (slice_index_or takers.old k d) }
    ensures many { length takers.new ≡ length takers.old }
    ensures cut { OnOk result ((k : ℕ) (d : Taker) → k < length takers.old
        → IsCut 1 (slice_index_or takers.old k d) (slice_index_or takers.new k d)) }
    ensures kept { OnOk result ((k : ℕ) (d : Taker) → k < length takers.old
        → (slice_index_or takers.new k d).accesses ≡ (slice_index_or takers.old k d).accesses) }
    ensures accesses { IfOk result (λ accesses. length accesses.items ≡ length takers.old) }
    ensures seats { IfOk result (λ accesses. (k : ℕ) (d : Taker) (a : Access) → k < length takers.old
        → IsSeat (slice_index_or takers.old k d) (slice_index_or accesses.items k a)) }
{
    let mut accesses = Vec::with_capacity(alloc, takers.len())?;
    for at in 0..takers.len() {
        let ticket = takers[at].owner.another::<Cuts>();
        accesses.push(Access {
            ticket,
            ended: false,
        })?;
    }
    Ok(accesses)
}
