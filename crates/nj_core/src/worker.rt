ghost use Rattle.std.specs.Prelude.{◌≡◌, [], ◌∷◌, ◌++◌, IsSome, is_none, is_ok, option_map, unwrap_or, IfOk, if◌then◌else◌};
ghost use Rattle.nj_core.specs.Machine.{beginning, first_piece, next_claim, done_piece, without_first, holding, moved_on, finishing, answer};

use crate::claim::{Claim, Hand};
use crate::event::Applied;
use nj_seq::Seq;
use std::alloc::{AllocError, Global};
use std::collections::VecDeque;
use std::marker::Model;

/// A worker of the machine: the pieces of its list, its hand, and the pieces that it finished.
#[derive(Drop)]
pub(crate) struct Worker {
    waiting: VecDeque<Seq<Claim>>,
    hand: Option<Hand>,
    finished: Vec<Seq<Claim>>,
}

impl Model for Worker {
    ghost use Rattle.nj_core.specs.Machine.{WorkerState};

    ghost Value = { WorkerState };

    ghost view = { λ w. record { waiting = w.waiting.items; hand = w.hand; finished = w.finished.items } };
}

impl Worker {
    pub(crate) fn new(alloc: Global) -> Worker
        ensures { result ≡ beginning [] }
    {
        Worker {
            waiting: VecDeque::new(alloc),
            hand: None,
            finished: Vec::new(alloc),
        }
    }

    // Puts a piece at the end of the list. Without memory the worker is as before.
    pub(crate) fn deal(&mut self, piece: Seq<Claim>) -> Result<(), AllocError>
        ensures { self.new
            ≡ (if is_ok result then record self.old { waiting = self.old.waiting ++ piece ∷ [] } else self.old) }
    {
        self.waiting.push_back(piece)?;
        Ok(())
    }

    pub(crate) fn is_idle(&self) -> bool
        ensures { result ≡ is_none self.now.hand }
    {
        self.hand.is_none()
    }

    // Takes the first piece from the list.
    pub(crate) fn take_first(&mut self) -> Option<Seq<Claim>>
        ensures piece { result ≡ first_piece self.old }
        ensures rest { self.new ≡ without_first self.old }
    {
        self.waiting.pop_front()
    }

    // Takes a piece in hand.
    pub(crate) fn hold(&mut self, piece: Seq<Claim>)
        ensures { self.new ≡ holding piece self.old }
    {
        self.hand = Some(Hand { piece, place: 0 });
    }

    // The claim at the hand's place.
    pub(crate) fn next_claim(&self) -> Option<Claim>
        ensures { result ≡ next_claim self.now }
    {
        let hand = self.hand.as_ref()?;
        hand.piece.as_slice().get(hand.place).copied()
    }

    // Goes on to the next place.
    pub(crate) fn move_on(&mut self)
        requires { IsSome (next_claim self.old) }
        ensures { self.new ≡ moved_on self.old }
    {
        if let Some(hand) = &mut self.hand {
            prove!(hand.place < hand.piece.len());
            hand.place += 1;
        }
    }

    // Finishes the piece in hand, where all its claims are made. Without memory the worker is as before.
    pub(crate) fn finish(&mut self) -> Result<Applied, AllocError>
        ensures answer { IfOk result (λ applied. applied ≡ answer (done_piece self.old)) }
        ensures worker { self.new ≡ (if is_ok result then
            unwrap_or (option_map (λ piece. finishing piece self.old) (done_piece self.old)) self.old else self.old) }
    {
        if self.hand.is_none() || self.next_claim().is_some() {
            return Ok(Applied::NotEnabled);
        }
        self.finished.reserve(1)?;
        if let Some(Hand { piece, place: _ }) = self.hand.take() {
            self.finished.push_reserved(piece);
        }
        Ok(Applied::Done)
    }
}
