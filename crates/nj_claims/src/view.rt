use std::collections::LinkedList;

/// A claim that is under way: the key with the number of slots that it has passed, or with the slot
/// that holds it.
pub enum Flight {
    Idle,
    Looking(u64, u64),
    Found(u64, u64),
}

/// What a seat at the table knows. No value of it is made.
pub struct View {
    pub claims: LinkedList<(u64, u64)>,
    pub seen: LinkedList<(u64, u64)>,
    pub full: LinkedList<u64>,
    pub flight: Flight,
    pub out: u64,
    pub living: bool,
}

/// The words that a table was opened with, two for each slot.
#[derive(Drop)]
pub struct Opening {
    pub slots: usize,
    pub words: Vec<u64>,
}
