//! A shelf and a sink over memory ([`MemShelf`], [`MemSink`]), for tests of what reads and writes: they tell all
//! their bytes, their calls are numbered from 1, and those of given numbers fail. So each answer is exact, which the
//! outside's own traits leave open. Of the definitions read `MemoryShelf` in `specs/Memory.antt` first.
#![tactic(auto)]

mod shelf;
mod sink;

pub use shelf::MemShelf;
pub use sink::MemSink;
