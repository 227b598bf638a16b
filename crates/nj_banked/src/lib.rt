//! The boards with several banks: UxROM (mapper 2), whose program memory is seen through two windows, and CNROM (mapper
//! 3), whose pattern memory is. A write from $8000 on chooses the bank that stands in the window. NROM is the board
//! with one bank, so a [`Banked`] holds the cartridge of any of the three.
//!
//! What such a board holds is told as a record, `Banks`: the memories, the mapper and the chosen bank. Read specs/Banks
//! first, then specs/Banked, the board's calls; specs/Calls says what they show after any list of calls.
#![tactic(auto)]

mod banked;
mod laws;

pub use banked::Banked;
pub use laws::{calls_keep_memories, calls_show_windows, one_bank_is_nrom};
pub use nj_board::Board;
