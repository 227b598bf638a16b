//! The instruction set of the NMOS 6502: the 256 opcodes as operation, mode and kind of access,
//! the accesses of each instruction as data, and the bus that a processor is wired to. Besides the
//! 151 official opcodes, 85 unofficial ones run that do the same on every NMOS 6502; the other 20
//! jam. An instruction is a list of accesses, one a cycle, so that its published timing is the
//! length of its list. Read `row_of` and its two lists of opcodes (specs/Table.antt) first, then
//! `by_mode` (specs/Accesses.antt).
#![tactic(auto)]

mod buses;
mod classes;
mod laws;
mod modes;
mod operations;
mod table;

pub use buses::Bus;
pub use classes::{Class, op_class};
pub use laws::{cycles_are_published, official_opcodes_are_151, twenty_opcodes_jam};
pub use modes::{Index, Kind, Mode, mode_len};
pub use operations::{Op, op_name};
pub use table::{OpRow, official, op_row};

#[cfg(test)]
mod tests {
    use super::*;

    #[test]
    fn rows_of_the_manual(rt: HostRuntime) {
        for (opcode, name, len) in [
            (0x00, "BRK", 1),
            (0x02, "JAM", 1),
            (0x03, "SLO", 2),
            (0x0A, "ASL", 1),
            (0x20, "JSR", 3),
            (0x6C, "JMP", 3),
            (0x7F, "RRA", 3),
            (0x81, "STA", 2),
            (0x8B, "JAM", 1),
            (0x9D, "STA", 3),
            (0xB6, "LDX", 2),
            (0xEA, "NOP", 1),
            (0xEB, "SBC", 2),
            (0xF0, "BEQ", 2),
            (0xFC, "NOP", 3),
        ] {
            let row = op_row(opcode);
            assert_eq!(rt; op_name(row.op), name, "at {opcode}");
            assert_eq!(rt; mode_len(row.mode), len, "at {opcode}");
        }
    }

    #[test]
    fn classes_and_kinds(rt: HostRuntime) {
        for (opcode, class, kind) in [
            (0x10, Class::Branches, Kind::Read),
            (0x4C, Class::Jumps, Kind::Read),
            (0x6C, Class::JumpsIndirect, Kind::Read),
            (0x8D, Class::ByMode, Kind::Write),
            (0x4A, Class::ByMode, Kind::Read),
            (0x4E, Class::ByMode, Kind::Modify),
        ] {
            let row = op_row(opcode);
            assert_eq!(rt; op_class(row.op, row.mode), class, "at {opcode}");
            assert_eq!(rt; row.kind, kind, "at {opcode}");
        }
    }
}
