//! Laws of the tables in the words of the published manuals. Nothing calls these functions: each is
//! the statement that its clauses make.

ghost use Rattle.std.specs.Prelude.{◌≡◌, ◌+◌, ◌<◌, ◌++◌, ℕ, Bool, true, false, ◌==◌, count_by};
ghost use Rattle.std.specs.List.{range_with_len};
ghost use Rattle.nj_isa.specs.Table.{row_of, is_official};
ghost use Rattle.nj_isa.specs.Timing.{cycles_of, penalty_of, count_made, accesses_of, is_among, jams, stopping_opcodes, unstable_opcodes};

/// The opcode's access and those after it are as many as the published cycles of each opcode that
/// does not jam, official or not, with the published penalties.
pub fn cycles_are_published()
    ensures { (opcode : ℕ) (crossed taken away : Bool) → opcode < 256 → 0 < cycles_of opcode
        → 1 + count_made crossed taken away (accesses_of (row_of opcode))
        ≡ cycles_of opcode + penalty_of opcode crossed taken away }
{}

/// Of the 256 opcodes 20 jam: the twelve that stop an NMOS 6502 and the eight unstable ones. They
/// are the ones for which the table has no cycles, and none of them is official.
pub fn twenty_opcodes_jam()
    ensures count { count_by jams (range_with_len 0 256) ≡ 20 }
    ensures named { (opcode : ℕ) → opcode < 256 → jams opcode ≡ is_among (stopping_opcodes ++ unstable_opcodes) opcode }
    ensures which { (opcode : ℕ) → opcode < 256 → jams opcode ≡ (cycles_of opcode == 0) }
    ensures unofficial { (opcode : ℕ) → opcode < 256 → is_official opcode ≡ true → jams opcode ≡ false }
{}

/// Of the 256 opcodes 151 are official.
pub fn official_opcodes_are_151()
    ensures { count_by is_official (range_with_len 0 256) ≡ 151 }
{}
