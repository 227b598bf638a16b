//! An assembler for the NMOS 6502 and the listing of assembled bytes. The lines of a source are read, then its labels
//! get their values, then its bytes are made, or its first refused line is told. The assembler knows the 151 official
//! opcodes; the listing prints each opcode that does not jam, and so the listing of official instructions in their
//! shortest form assembles again. Read `assembly_of` (specs/Assembly.antt) and `listing_of` (specs/Listing.antt)
//! first.
#![tactic(auto)]

mod assembling;
mod emission;
mod labels;
mod laws;
mod listing;
mod pieces;
mod refusals;

pub use assembling::{Assembled, assemble};
pub use laws::{
    every_official_opcode_is_reached, listed_instructions_assemble_again,
    the_first_refused_line_is_told,
};
pub use listing::{is_whole, list, list_one};
pub use nj_asm_lines::{Fault, Line};
pub use nj_seq::Seq;
pub use refusals::AsmRefused;
