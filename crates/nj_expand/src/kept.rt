//! What is chosen of a step's rows.

use crate::Stepped;
use crate::tables::NewTable;
use nj_rows::Row;
use nj_seen::SeenKeys;

/// What a step keeps.
#[derive(Drop)]
pub struct Kept {
    /// The rows that are kept, the most preferred first: at least one, and no more than a front may have.
    pub rows: Vec<Row>,
    pub(crate) table: NewTable,
    pub(crate) keys: SeenKeys,
}

/// How a step ends, by its rows.
#[derive(Drop)]
pub enum Chosen {
    /// A candidate wins, or nothing is kept.
    Ended(Stepped),
    /// The step goes on with these, once their states were run again.
    Keeps(Kept),
}
