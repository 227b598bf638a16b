//! The official opcode of a mnemonic in a mode.

ghost use Rattle.std.specs.Prelude.{◌≡◌, ◌-◌, ◌<◌, ◌≤◌, ◌==◌, map, Some, option_copied, IfSome};
ghost use Rattle.nj_isa.specs.Names.{name_of};
ghost use Rattle.nj_isa.specs.Table.{row_of, is_official};
ghost use Rattle.nj_asm_lines.specs.Grammar.{number_of, is_mode, is_spelled, is_row, is_code, opcode_of, is_mnemonic, coded};

use nj_isa::{Mode, OpRow, official, op_name, op_row};

fn number_of(mode: Mode) -> u8
    ensures { result ≡ number_of mode }
{
    match mode {
        Mode::Implied => 0,
        Mode::Accumulator => 1,
        Mode::Immediate => 2,
        Mode::Zp => 3,
        Mode::ZpX => 4,
        Mode::ZpY => 5,
        Mode::Abs => 6,
        Mode::AbsX => 7,
        Mode::AbsY => 8,
        Mode::IndX => 9,
        Mode::IndY => 10,
        Mode::Indirect => 11,
        Mode::Relative => 12,
    }
}

fn is_mode(wanted: Option<Mode>, mode: Mode) -> bool
    ensures { result ≡ is_mode wanted mode }
{
    match wanted {
        None => true,
        Some(wanted) => number_of(wanted) == number_of(mode),
    }
}

fn is_spelled(word: &[u8], mnemonic: &[u8]) -> bool
    ensures { result ≡ is_spelled word.now mnemonic.now }
{
    word.eq_ignore_ascii_case(mnemonic)
}

fn is_row(word: &[u8], wanted: Option<Mode>, row: OpRow) -> bool
    ensures { result ≡ is_row word.now wanted row }
{
    is_spelled(word, op_name(row.op).as_bytes()) && is_mode(wanted, row.mode)
}

fn is_code(word: &[u8], wanted: Option<Mode>, code: u8) -> bool
    ensures { result ≡ is_code word.now wanted code }
{
    official(code) && is_row(word, wanted, op_row(code))
}

#[tactic(auto, unfolding(crate::specs::Grammar::opcode_of))]
fn opcode_of(word: &[u8], wanted: Option<Mode>) -> Option<u8>
    ensures { result ≡ opcode_of word.now wanted }
{
    for code in 0..256u16 {
        if is_code(word, wanted, code as u8) {
            return Some(code as u8);
        }
    }
    None
}

/// Whether the word is an official mnemonic, its letters in either case.
#[tactic(auto, unfolding(crate::specs::Grammar::is_mnemonic))]
pub fn is_mnemonic(word: &[u8]) -> bool
    ensures { result ≡ is_mnemonic word.now }
{
    opcode_of(word, None).is_some()
}

/// The opcode in the first of the modes that the mnemonic has.
pub fn coded(word: &[u8], modes: &[Mode]) -> Option<(u8, Mode)>
    ensures { result ≡ coded word.now modes.now }
{
    for mode in modes {
        if let Some(code) = opcode_of(word, Some(*mode)) {
            return Some((code, *mode));
        }
    }
    None
}
