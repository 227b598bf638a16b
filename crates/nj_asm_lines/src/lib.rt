//! The lines of a source for the NMOS 6502: what each line says, as values, or why it can't be read. The crate knows
//! nothing of addresses: a label is a name, a statement is a list of cells. Mnemonics, modes and opcodes are the 151
//! official ones alone. Each part of a line is a reading, a function of its text; the code meets them one by one. Read
//! `line_of` and `statement_of` (specs/Grammar.antt) first.
#![tactic(auto)]

mod operands;
mod source;
mod statements;
mod syntax;
mod table;
mod values;
mod words;

pub use source::read_lines;
pub use syntax::{Cell, Fault, Form, Line, Operand, Statement, Value};
