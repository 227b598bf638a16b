//! The processor of the NES, a 2A03: an NMOS 6502 without decimal mode, over any bus. One call runs
//! one unit: an instruction, an NMI entry or a sprite copy, cycle by cycle. An instruction is the
//! walk over its list of accesses (nj_isa), and then what its operation computes; the code has a
//! function for each mode and each class of instructions, which ends as the walk over that list
//! does. Read `walk` (specs/Walk.antt) and then `unit_of` (specs/Unit.antt) first; `done`
//! (specs/Effects.antt) is what the operations compute.
#![tactic(auto)]

mod cycle;
mod effects;
mod laws;
mod modes;
mod rows;
mod state;
mod units;

pub use laws::{
    cycles_are_published, instructions_go_on_behind_themselves, jams_are_those_of_the_table,
    pulled_a_is_pushed_a, returns_come_back_behind_calls,
};
pub use nj_alu::Flags;
pub use nj_isa::Bus;
pub use state::{Cpu, Note, UnitEnd};
pub use units::{next_unit, power_on, unit};
