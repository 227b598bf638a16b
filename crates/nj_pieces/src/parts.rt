ghost use Rattle.std.specs.Prelude.{◌≡◌, ◌<◌, ◌≤◌, [], length, vec_capacity};

use crate::rule::{Owner, Thief, Ticket};
use std::alloc::Global;

// What a taker has of one deque. Once it has met a mark there, it never looks there again.
#[derive(Drop)]
pub(crate) struct Access {
    pub ticket: Ticket,
    pub ended: bool,
}

/// What one worker takes pieces with. It may go to another thread.
#[derive(Drop)]
pub struct Taker {
    pub(crate) number: usize,
    // The owner's end of the worker's own deque.
    pub(crate) owner: Owner,
    // An access to each deque, its own among them, in the order of the workers.
    pub(crate) accesses: Vec<Access>,
}

/// The pieces of a front, dealt to workers. It is shared by the threads that take them.
#[derive(Drop)]
pub struct Pieces {
    pub(crate) count: u64,
    // A handle that takes from each worker's deque.
    pub(crate) thieves: Vec<Thief>,
    // Room for the pieces that nobody takes.
    pub(crate) left: Vec<u64>,
    pub(crate) alloc: Global,
    ghost has_worker: { 0 < length thieves.items },
    ghost left_is_empty: { left.items ≡ [] },
    ghost left_has_room: { count ≤ vec_capacity left },
}
