//! The classes of instructions: which list of accesses an instruction follows.

ghost use Rattle.std.specs.Prelude.{◌≡◌};
ghost use Rattle.nj_isa.specs.Accesses.{class_of};

use crate::modes::Mode;
use crate::operations::Op;

/// The list of accesses that an instruction follows. `ByMode` goes by mode and kind, every other
/// class has a list of its own.
#[derive(Clone, Copy, Debug, PartialEq, Eq)]
pub enum Class {
    ByMode,
    Branches,
    Jumps,
    JumpsIndirect,
    Calls,
    Returns,
    ReturnsFromInterrupt,
    Breaks,
    PushesA,
    PushesFlags,
    PullsA,
    PullsFlags,
    Jams,
}

/// The class of an operation in a mode; the mode tells the two jumps apart.
#[tactic(auto, unfolding(crate::specs::Accesses::class_of))]
#[inline(always)]
pub fn op_class(op: Op, mode: Mode) -> Class
    ensures { result ≡ class_of op mode }
{
    match op {
        Op::Bpl | Op::Bmi | Op::Bvc | Op::Bvs | Op::Bcc | Op::Bcs | Op::Bne | Op::Beq =>
            Class::Branches,
        Op::Jmp => match mode {
            Mode::Indirect => Class::JumpsIndirect,
            _ => Class::Jumps,
        },
        Op::Jsr => Class::Calls,
        Op::Rts => Class::Returns,
        Op::Rti => Class::ReturnsFromInterrupt,
        Op::Brk => Class::Breaks,
        Op::Pha => Class::PushesA,
        Op::Php => Class::PushesFlags,
        Op::Pla => Class::PullsA,
        Op::Plp => Class::PullsFlags,
        Op::Jam => Class::Jams,
        _ => Class::ByMode,
    }
}
