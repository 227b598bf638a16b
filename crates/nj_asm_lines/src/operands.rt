//! The forms of operands, and the modes that they may mean.

ghost use Rattle.std.specs.Prelude.{◌≡◌, IfOk, option_copied};
ghost use Rattle.std.specs.Option.{option_map};
ghost use Rattle.nj_asm_lines.specs.Grammar.{value_of, shape_of, operand_of, modes_in, modes_of, is_narrow};

use crate::syntax::{Form, Operand};
use crate::values::{is_narrow, value_of};
use crate::words::between;
use nj_isa::Mode;
use std::alloc::{AllocError, Global};

#[tactic(auto, unfolding(crate::specs::Grammar::shape_of))]
fn shape_of(text: &[u8]) -> (Form, &[u8])
    ensures form { result.0 ≡ (shape_of text.now).0 }
    ensures inner { result.1.now ≡ (shape_of text.now).1 }
{
    if let Some(inner) = between(b"#", b"", text) {
        return (Form::Hash, inner);
    }
    if let Some(inner) = between(b"(", b",X)", text) {
        return (Form::ParenCommaX, inner);
    }
    if let Some(inner) = between(b"(", b"),Y", text) {
        return (Form::ParenCommaY, inner);
    }
    if let Some(inner) = between(b"(", b")", text) {
        return (Form::Paren, inner);
    }
    if let Some(inner) = between(b"", b",X", text) {
        return (Form::CommaX, inner);
    }
    if let Some(inner) = between(b"", b",Y", text) {
        return (Form::CommaY, inner);
    }
    (Form::Plain, text)
}

fn valued(alloc: Global, form: Form, inner: &[u8]) -> Result<Option<Operand>, AllocError>
    ensures { IfOk result (λ operand. operand ≡ option_map (Operand.Valued form) (value_of inner.now)) }
{
    match value_of(alloc, inner)? {
        Some(value) => Ok(Some(Operand::Valued(form, value))),
        None => Ok(None),
    }
}

/// The operand that the whole text spells, without blanks around it.
#[tactic(auto, unfolding(crate::specs::Grammar::operand_of))]
pub fn operand_of(alloc: Global, text: &[u8]) -> Result<Option<Operand>, AllocError>
    ensures { IfOk result (λ operand. operand ≡ operand_of text.now) }
{
    if text.is_empty() {
        return Ok(Some(Operand::Nothing));
    }
    if text == b"A".as_slice() {
        return Ok(Some(Operand::LetterA));
    }
    let (form, inner) = shape_of(text);
    valued(alloc, form, inner)
}

fn modes_in(form: Form, narrow: bool) -> &'static [Mode]
    ensures { result.now ≡ modes_in form narrow }
{
    match form {
        Form::Hash => &[Mode::Immediate],
        Form::Plain => {
            if narrow {
                &[Mode::Relative, Mode::Zp, Mode::Abs]
            } else {
                &[Mode::Relative, Mode::Abs]
            }
        }
        Form::CommaX => {
            if narrow {
                &[Mode::ZpX, Mode::AbsX]
            } else {
                &[Mode::AbsX]
            }
        }
        Form::CommaY => {
            if narrow {
                &[Mode::ZpY, Mode::AbsY]
            } else {
                &[Mode::AbsY]
            }
        }
        Form::ParenCommaX => &[Mode::IndX],
        Form::ParenCommaY => &[Mode::IndY],
        Form::Paren => &[Mode::Indirect],
    }
}

/// The modes that the operand may mean, the first to be taken first.
pub fn modes_of(operand: &Operand) -> &'static [Mode]
    ensures { result.now ≡ modes_of operand.now }
{
    match operand {
        Operand::Nothing => &[Mode::Implied],
        Operand::LetterA => &[Mode::Accumulator],
        Operand::Valued(form, value) => modes_in(*form, is_narrow(value)),
    }
}
