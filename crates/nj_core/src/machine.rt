ghost use Rattle.std.specs.Prelude.{◌≡◌, ◌≤◌, [], map, is_ok, IsSome, position, slice_get, option_and_then, unwrap_or, IfOk, if◌then◌else◌};
ghost use Rattle.std.specs.List.{range_with_len};
ghost use Rattle.nj_core.specs.Owners.{claimed, of_key};
ghost use Rattle.nj_core.specs.Machine.{beginning, opening, step, answer, taken, claimed_next, finished_by, is_idle, next_claim, first_piece, without_first, holding, moved_on, changed};

use crate::claim::Claim;
use crate::event::{Applied, Event};
use crate::worker::Worker;
use nj_seq::Seq;
use std::alloc::{AllocError, Global};
use std::marker::Model;

/// The interleaving machine.
#[derive(Drop)]
pub struct Core {
    workers: Vec<Worker>,
    owners: Vec<Claim>,
}

impl Model for Core {
    ghost use Rattle.nj_core.specs.Machine.{State};

    ghost Value = { State };

    ghost view = { λ core. record { workers = core.workers.items; owners = core.owners.items } };
}

impl Core {
    /// The machine before the first event: piece p is in the list of worker p mod `workers`, and no key has an owner.
    pub fn new(alloc: Global, pieces: Vec<Vec<Claim>>, workers: u32) -> Result<Core, AllocError>
        requires { 1 ≤ workers }
        ensures { IfOk result (λ core. core ≡ opening [] (map (λ piece. piece.items) pieces.items) workers) }
    {
        let count = workers as usize;
        let mut dealt = idle_workers(alloc, count)?;
        for (place, piece) in pieces.into_iter().enumerate() {
            dealt[place % count].deal(Seq::from_vec(piece))?;
        }
        Ok(Core {
            workers: dealt,
            owners: Vec::new(alloc),
        })
    }

    /// Makes the event's step, where it is enabled. Without memory the machine is as before.
    #[tactic(auto, unfolding(crate::specs::Machine::step))]
    pub fn apply(&mut self, event: Event) -> Result<Applied, AllocError>
        ensures answer { IfOk result (λ applied. applied ≡ answer (step self.old event)) }
        ensures state { self.new ≡ (if is_ok result then unwrap_or (step self.old event) self.old else self.old) }
    {
        match event {
            Event::Pop { w } => Ok(self.take(w as usize, w as usize)),
            Event::Steal { w, v } => if w == v {
                Ok(Applied::NotEnabled)
            } else {
                Ok(self.take(w as usize, v as usize))
            },
            Event::ClaimNext { w } => self.claim_next(w as usize),
            Event::Finish { w } => self.finish(w as usize),
        }
    }

    // The first piece of v's list comes into w's hand.
    fn take(&mut self, w: usize, v: usize) -> Applied
        ensures answer { result ≡ answer (taken w v self.old.workers) }
        ensures state { self.new
            ≡ record self.old { workers = unwrap_or (taken w v self.old.workers) self.old.workers } }
    {
        take_at(self.workers.as_mut_slice(), w, v)
    }

    // The claim at the place of w's hand is made.
    fn claim_next(&mut self, w: usize) -> Result<Applied, AllocError>
        ensures answer { IfOk result (λ applied. applied ≡ answer (claimed_next w self.old)) }
        ensures state { self.new ≡ (if is_ok result then unwrap_or (claimed_next w self.old) self.old else self.old) }
    {
        match next_claim_at(self.workers.as_slice(), w) {
            None => Ok(Applied::NotEnabled),
            Some(claim) => {
                make(&mut self.owners, claim)?;
                move_on_at(self.workers.as_mut_slice(), w);
                Ok(Applied::Done)
            }
        }
    }

    // The piece in w's hand is finished.
    fn finish(&mut self, w: usize) -> Result<Applied, AllocError>
        ensures answer { IfOk result (λ applied. applied ≡ answer (finished_by w self.old.workers)) }
        ensures state { self.new ≡ (if is_ok result then
            record self.old { workers = unwrap_or (finished_by w self.old.workers) self.old.workers } else self.old) }
    {
        finish_at(self.workers.as_mut_slice(), w)
    }
}

// So many workers with nothing.
fn idle_workers(alloc: Global, count: usize) -> Result<Vec<Worker>, AllocError>
    ensures { IfOk result (λ workers. workers.items ≡ map (λ _. beginning []) (range_with_len 0 count)) }
{
    let mut idle = Vec::new(alloc);
    for _ in 0..count {
        idle.push(Worker::new(alloc))?;
    }
    Ok(idle)
}

// Whether the worker of this number exists and its hand is empty.
fn is_idle_at(workers: &[Worker], w: usize) -> bool
    ensures { result ≡ is_idle (slice_get workers.now w) }
{
    match workers.get(w) {
        None => false,
        Some(worker) => worker.is_idle(),
    }
}

// The claim at the place of a worker's hand, if there is one.
fn next_claim_at(workers: &[Worker], w: usize) -> Option<Claim>
    ensures { result ≡ option_and_then next_claim (slice_get workers.now w) }
{
    workers.get(w)?.next_claim()
}

// The first piece of v's list comes into w's hand.
fn take_at(workers: &mut [Worker], w: usize, v: usize) -> Applied
    ensures answer { result ≡ answer (taken w v workers.old) }
    ensures workers { workers.new ≡ unwrap_or (taken w v workers.old) workers.old }
{
    if !is_idle_at(workers, w) {
        return Applied::NotEnabled;
    }
    match take_first_at(workers, v) {
        None => Applied::NotEnabled,
        Some(piece) => {
            hold_at(workers, w, piece);
            Applied::Done
        }
    }
}

// Takes the first piece from a worker's list, if there is one.
fn take_first_at(workers: &mut [Worker], v: usize) -> Option<Seq<Claim>>
    ensures piece { result ≡ option_and_then first_piece (slice_get workers.old v) }
    ensures rest { workers.new ≡ changed without_first v workers.old }
{
    if v >= workers.len() {
        return None;
    }
    workers[v].take_first()
}

// A worker takes a piece in hand, if it exists.
fn hold_at(workers: &mut [Worker], w: usize, piece: Seq<Claim>)
    ensures { workers.new ≡ changed (holding piece) w workers.old }
{
    if w < workers.len() {
        workers[w].hold(piece);
    }
}

// A worker goes on to its hand's next place.
fn move_on_at(workers: &mut [Worker], w: usize)
    requires { IsSome (option_and_then next_claim (slice_get workers.old w)) }
    ensures { workers.new ≡ changed moved_on w workers.old }
{
    if w < workers.len() {
        workers[w].move_on();
    }
}

// Finishes the piece in a worker's hand, where all its claims are made. Without memory the workers are as before.
fn finish_at(workers: &mut [Worker], w: usize) -> Result<Applied, AllocError>
    ensures answer { IfOk result (λ applied. applied ≡ answer (finished_by w workers.old)) }
    ensures workers { workers.new
        ≡ (if is_ok result then unwrap_or (finished_by w workers.old) workers.old else workers.old) }
{
    if w >= workers.len() {
        return Ok(Applied::NotEnabled);
    }
    workers[w].finish()
}

// Makes a claim. Without memory the owners are as before.
fn make(owners: &mut Vec<Claim>, claim: Claim) -> Result<(), AllocError>
    ensures { owners.new.items ≡ (if is_ok result then claimed claim owners.old.items else owners.old.items) }
{
    match place_of(owners.as_slice(), claim.key) {
        None => {
            owners.push(claim)?;
        }
        Some(place) => {
            let owner = &mut owners[place];
            owner.number = owner.number.min(claim.number);
        }
    }
    Ok(())
}

// The place of a key's entry, if it has one.
fn place_of(owners: &[Claim], key: u64) -> Option<usize>
    ensures { result ≡ position (of_key key) owners.now }
{
    owners.iter().position(|owner| owner.key == key)
}

#[cfg(test)]
mod tests {
    use super::*;
    use std::test::Fail;

    // Three pieces: two claims, one claim of the first one's key, and none.
    fn three_pieces(alloc: Global) -> Result<Vec<Vec<Claim>>, AllocError> {
        let first = Claim { key: 7, number: 10 };
        let second = Claim { key: 8, number: 11 };
        let again = Claim { key: 7, number: 12 };
        let two = vec![in alloc; first, second]?;
        let one = vec![in alloc; again]?;
        let mut pieces = Vec::new(alloc);
        pieces.push(two)?;
        pieces.push(one)?;
        pieces.push(Vec::new(alloc))?;
        Ok(pieces)
    }

    #[test]
    fn two_workers_finish_three_pieces(rt: HostRuntime) -> Result<(), Fail> {
        let mut core = Core::new(rt.alloc(), three_pieces(rt.alloc())?, 2)?;
        let events = [
            (Event::ClaimNext { w: 1 }, Applied::NotEnabled),
            (Event::Pop { w: 1 }, Applied::Done),
            (Event::ClaimNext { w: 1 }, Applied::Done),
            (Event::Finish { w: 1 }, Applied::Done),
            (Event::Steal { w: 1, v: 1 }, Applied::NotEnabled),
            (Event::Steal { w: 1, v: 0 }, Applied::Done),
            (Event::Pop { w: 0 }, Applied::Done),
            (Event::ClaimNext { w: 0 }, Applied::NotEnabled),
            (Event::Finish { w: 0 }, Applied::Done),
            (Event::ClaimNext { w: 1 }, Applied::Done),
            (Event::Finish { w: 1 }, Applied::NotEnabled),
            (Event::ClaimNext { w: 1 }, Applied::Done),
            (Event::Finish { w: 1 }, Applied::Done),
            (Event::Pop { w: 0 }, Applied::NotEnabled),
            (Event::Steal { w: 0, v: 1 }, Applied::NotEnabled),
            (Event::Steal { w: 0, v: 2 }, Applied::NotEnabled),
            (Event::Pop { w: 2 }, Applied::NotEnabled),
        ];
        for (event, applied) in events {
            assert_eq!(rt; core.apply(event)?, applied, "at {event:?}");
        }
        let owners = [Claim { key: 7, number: 10 }, Claim { key: 8, number: 11 }];
        assert_eq!(rt; core.owners.as_slice(), owners.as_slice());
        Ok(())
    }
}
