//! Turns of loops that wait. A game waits for the next picture in a loop of a few instructions that changes nothing:
//! `JMP` to itself, `LDA flag / BEQ`, or polls of $2002. One turn of it leads from the processor to the very same
//! processor, so each later turn does the same, for as long as nothing else happens.
//!
//! The main idea: the turn is tried *dry*, beside the machine, by the same code of the processor over a bus that has
//! working and program memory, and a status for $2002 where one is known to stay, and is lost as soon as anything else
//! is asked of it. What a dry turn does, each bus does that *rests*: one whose state, while only these are read, is
//! told by the number of cycles and the last byte read. The machine's is one up to the picture's next event, or as long
//! as its status stays. Read `dry` (specs/Dry.antt), then `IsTurn` and `Rests` (specs/Turn.antt).
#![tactic(auto)]

mod dry;
mod laws;
mod turn;

pub use laws::turns_are_the_same_on_each_resting_bus;
pub use nj_banked::Banked;
pub use nj_cpu::{Bus, Cpu, Flags};
pub use turn::turn_cycles;
