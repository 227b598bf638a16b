//! What the program prints: the line of each refusal ([`Refusal`], [`refusal_line`]), which begins with its kind
//! ([`Kind`]), and the first lines and texts of commands. Each text is a definition over numbers, and a function that
//! makes it; what is told in it is computed elsewhere. Of the definitions read `refusal_line` in specs/Refusals first,
//! and then `outcome_line` in specs/Lines, whose text is a movie again ([`won_text_is_a_movie`]).
#![tactic(auto)]

mod counts;
mod kinds;
mod laws;
mod lines;
mod memory;
mod refusals;

pub use counts::{Counts, check_line};
pub use kinds::Kind;
pub use laws::{won_text_is_a_movie, won_text_is_short};
pub use lines::{clean_line, exhausted_line, is_win, outcome_line, replay_line, workload_line};
pub use memory::memory_text;
pub use refusals::{Refusal, refusal_line, too_long};
