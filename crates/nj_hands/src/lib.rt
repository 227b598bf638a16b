//! What one of several workers does in a step of a search. Nothing here starts a thread: the crate above gives each
//! worker one.
//!
//! The front is cut into pieces of sixteen words. Each worker has a hand: a machine, a taker of the pieces, and a pass
//! of the claim table that all share. It takes a piece, runs the candidates of its words, and claims the key of each
//! live one for its number ([`work`]). It keeps their rows, but those of keys that it saw claimed for a smaller number
//! and that do not win. The table is the step's own and begins empty ([`open_table`]), so that a step costs work for
//! its candidates and none for each slot of the search's table. Once all passes have come back to the first one, the
//! rows and the closed table are what the end of a step needs ([`close_table`]).
//!
//! The definition to read first is `AreClaimed` in `specs/Claimed.antt`: what claims of rows, in whatever order, make
//! of a pass, and which of the rows are kept. Claims of more rows, joined passes and another order of the rows only
//! make larger `AreClaimed`s ([`claims_go_together`]), and all pieces have the live rows ([`pieces_are_the_front`]).
#![tactic(auto)]

mod claiming;
mod hand;
mod laws;
mod piece;
mod serving;
mod table;

pub use hand::{Hand, WorkEnd};
pub use laws::{claims_go_together, pieces_are_the_front};
pub use nj_claims::{ClaimTable, Pass};
pub use nj_expand::{Row, Search};
pub use nj_machine::Machine;
pub use nj_outside::Gate;
pub use nj_pieces::{Pieces, Taker};
pub use nj_steps::Steps;
pub use piece::piece_count;
pub use serving::{serve, work};
pub use table::{close_table, open_table};
