//! Addressing modes and kinds of access.

ghost use Rattle.std.specs.Prelude.{◌≡◌};
ghost use Rattle.nj_isa.specs.Names.{length_of};

/// Where an instruction finds its operand. `IndX` is (zp,X) and `IndY` is (zp),Y.
#[derive(Clone, Copy, Debug, PartialEq, Eq)]
pub enum Mode {
    Implied,
    Accumulator,
    Immediate,
    Zp,
    ZpX,
    ZpY,
    Abs,
    AbsX,
    AbsY,
    IndX,
    IndY,
    Indirect,
    Relative,
}

/// An index register.
#[derive(Clone, Copy, Debug, PartialEq, Eq)]
pub enum Index {
    X,
    Y,
}

/// What an instruction does with the byte at its address.
#[derive(Clone, Copy, Debug, PartialEq, Eq)]
pub enum Kind {
    Read,
    Write,
    Modify,
}

/// The bytes of an instruction in this mode, its opcode among them, as an assembler and a listing
/// count them: 1 to 3.
pub fn mode_len(mode: Mode) -> u8
    ensures { result ≡ length_of mode }
{
    match mode {
        Mode::Implied | Mode::Accumulator => 1,
        Mode::Abs | Mode::AbsX | Mode::AbsY | Mode::Indirect => 3,
        _ => 2,
    }
}
