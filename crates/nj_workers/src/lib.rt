//! One step of a search by several workers, which ends as one thread would end it, whoever takes which candidates.
//!
//! What a worker does is the crate below ([`work`]): it has a hand, and takes pieces of the front until none is left.
//! Here each worker is seated at a desk with a hand and a counter, and works in a thread where one can be made. Then
//! all passes come back to the first one, the table is closed, and the search chooses by the rows and the closed table
//! what is kept. That is cut into as many runs of neighbours as there are workers, and each worker runs one again into
//! a pool of its own; the pools one behind the other are the next front ([`next_shared`]). A worker that wants memory
//! has no piece in hand then, and the others go on; where a piece is left in the end, the step answers want of memory
//! and the search is spent.
//!
//! The definition to read first is `HaveMet` in `specs/Meeting.antt`: all workers of a step when their work is done.
//! What they claimed makes one `AreClaimed` of all live rows (a definition of the crate below), which is what the end
//! of a step needs; and their counters together are `AreCounted` (`specs/Counted.antt`).
#![tactic(auto)]

mod desks;
mod next;
mod runs;
mod sharing;
mod step;

pub use next::next_shared;
pub use nj_expand::Stepped;
pub use nj_hands::{
    ClaimTable, Gate, Hand, Machine, Pass, Pieces, Row, Search, Steps, Taker, WorkEnd, work,
};
