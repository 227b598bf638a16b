//! Why a source is refused.

ghost use Rattle.std.specs.Prelude.{◌≡◌};
ghost use Rattle.nj_asm.specs.Assembly.{refused};

use nj_asm_lines::Fault;
use std::alloc::AllocError;

/// Why a source is refused. Of all refusals the one of the first refused line is told, and of that line's the first in
/// this order. Lines count from 1.
#[derive(Clone, Copy)]
pub enum AsmRefused {
    /// The line has no form of the grammar, is no UTF-8, or has an `.org` that is not the first statement.
    Syntax { line: u64 },
    /// The first word is a name and no official mnemonic.
    UnknownOp { line: u64 },
    /// The mnemonic has no mode that the operand may mean.
    NoMode { line: u64 },
    /// A value is above what its place holds, or a branch does not reach its target.
    Range { line: u64 },
    /// A label stands nowhere.
    UnknownLabel { line: u64 },
    /// The line's label stands on an earlier line.
    TwiceLabel { line: u64 },
    /// The bytes pass $FFFF.
    TooLong { line: u64 },
    /// Memory ran out.
    NoMemory,
}

impl From<AllocError> for AsmRefused {
    ghost use Rattle.std.specs.Prelude.{◌≡◌};
    ghost use Rattle.nj_asm.specs.declared.refusals.AsmRefused.TheVariants.{NoMemory};

    ghost from_gives = { λ _ refused. refused ≡ NoMemory };

    fn from(_error: AllocError) -> Self {
        AsmRefused::NoMemory
    }
}

/// The refusal of a line by its kind.
pub fn refused(fault: Fault, line: u64) -> AsmRefused
    ensures { result ≡ refused fault line }
{
    match fault {
        Fault::Syntax => AsmRefused::Syntax { line },
        Fault::UnknownOp => AsmRefused::UnknownOp { line },
        Fault::NoMode => AsmRefused::NoMode { line },
        Fault::Range => AsmRefused::Range { line },
        Fault::UnknownLabel => AsmRefused::UnknownLabel { line },
        Fault::TwiceLabel => AsmRefused::TwiceLabel { line },
        Fault::TooLong => AsmRefused::TooLong { line },
    }
}
