//! The board of a cartridge: what the processor and the picture see of its memories. Built is NROM.
#![tactic(auto)]

mod boards;
mod nrom;

pub use boards::Board;
pub use nrom::Nrom;
