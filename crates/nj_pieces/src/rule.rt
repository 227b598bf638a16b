// The rule of one deque: what stands in it, and what each of its passes may do and has done.
use crossbeam_deque::protocol::{Join, Outcome, Protocol, Split};
use crossbeam_deque::{Pass, Stealer, Worker};
use std::alloc::Global;
use std::collections::LinkedList;
use std::marker::{Brand, PhantomData};

// What stands in a deque: its pieces, and behind them the marks that say that no piece is left.
#[derive(Clone, Copy)]
pub(crate) enum Task {
    Piece(u64),
    End,
}

// What a pass may do and has done. No value of it is made.
pub(crate) struct Tally {
    // How many marks it may take.
    pub seats: u64,
    // How many marks it has taken.
    pub ends: u64,
    // How many marks were put into the deque, which the owner's pass knows.
    pub marks: u64,
    // The pieces that were put into the deque.
    pub dealt: LinkedList<u64>,
    // The pieces that it has taken from the deque.
    pub taken: LinkedList<u64>,
    // What the owner's pass notes beside: the pieces that its worker has taken from all deques.
    pub log: LinkedList<u64>,
}

pub(crate) struct Fair;

impl Protocol<Task, Tally> for Fair {
    ghost use Rattle.nj_pieces.specs.Tallies.{blank};
    ghost use Rattle.nj_pieces.specs.Rule.{Holds};

    ghost holds = { Holds };

    ghost first = { blank };

    ghost guest = { blank };
}

// The owner puts a task.
pub(crate) struct Puts;

impl Outcome<Task, Tally> for Puts {
    ghost use Rattle.std.specs.Prelude.{◌≡◌};
    ghost use Rattle.nj_pieces.specs.Tallies.{put};

    ghost then = { λ v tasks w. w ≡ put v tasks };
}

// A worker takes a piece or a mark. While it may take a mark, the deque is never empty.
pub(crate) struct Takes;

impl Outcome<Task, Tally> for Takes {
    ghost use Rattle.nj_pieces.specs.Tallies.{IsTaken};

    ghost then = { IsTaken };

    ghost empty = { λ v. ⊥ };
}

// The pass that has all marks takes what is left.
pub(crate) struct Drains;

impl Outcome<Task, Tally> for Drains {
    ghost use Rattle.nj_pieces.specs.Tallies.{IsDrained, IsSettled};

    ghost then = { IsDrained };

    ghost empty = { IsSettled };
}

// A new pass gets the right to one mark.
pub(crate) struct Cuts;

impl Split<Tally> for Cuts {
    ghost use Rattle.nj_pieces.specs.Tallies.{cut, guest};

    ghost left = { cut };

    ghost right = { guest };
}

// The owner takes back what a pass has.
pub(crate) struct Gives;

impl Join<Tally> for Gives {
    ghost use Rattle.nj_pieces.specs.Tallies.{both, blank};

    ghost both = { both };

    ghost spent = { blank };
}

// The piece that is noted.
pub(crate) trait Noted {
    ghost use Rattle.std.specs.Prelude.{ℕ};

    ghost piece: { ℕ };
}

impl Noted for Brand {
    ghost piece = { 0 };
}

// The owner notes a piece. The new pass gets nothing.
pub(crate) struct Notes<N: Noted> {
    of: PhantomData<N>,
}

impl<N: Noted> Split<Tally> for Notes<N> {
    ghost use Rattle.nj_pieces.specs.Tallies.{noted, blank};

    ghost left = { λ v. noted v N.piece };

    ghost right = { λ v. blank };
}

pub(crate) type Owner = Worker<Task, Global, Tally, Fair>;

pub(crate) type Thief = Stealer<Task, Global, Tally, Fair>;

pub(crate) type Ticket = Pass<Task, Tally>;
