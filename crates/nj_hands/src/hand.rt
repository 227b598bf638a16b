//! What a worker has.

use nj_claims::Pass;
use nj_expand::{Row, Search};
use nj_machine::Machine;
use nj_pieces::Taker;

/// What a worker works with.
#[derive(Drop)]
pub struct Hand<'a> {
    /// The worker's number, from 0.
    pub worker: u32,
    /// A machine of the search's cartridge.
    pub machine: Machine,
    /// A taker of the pieces of the search's front.
    pub taker: Taker,
    /// A pass of the table.
    pub pass: Pass,
    /// The search whose step is made.
    pub search: &'a Search,
}

/// What a worker gives back.
#[derive(Drop)]
pub struct WorkEnd<'a> {
    pub hand: Hand<'a>,
    /// The rows of live candidates that it kept.
    pub rows: Vec<Row>,
    /// Whether it wanted memory. It then had no piece in hand.
    pub refused: bool,
}
