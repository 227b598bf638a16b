//! Directives and instructions.

ghost use Rattle.std.specs.Prelude.{◌≡◌, ◌+◌, ◌<◌, ◌∷◌, ◌==◌, [], ◌++◌, IfOk, length, take, drop, map};
ghost use Rattle.std.specs.List.{slice_split};
ghost use Rattle.nj_asm_lines.specs.Grammar.{value_of, operand_of, instruction_of, cell_in, cells_in, encoded, item_in, item_of, items_of, all_some, cells_or, origin_in, directive_of, said_by, statement_of};

use crate::operands::{modes_of, operand_of};
use crate::syntax::{Cell, Fault, Operand, Statement, Value};
use crate::table::{coded, is_mnemonic};
use crate::values::value_of;
use crate::words::{is_name, length_before, without_start, word_len};
use nj_isa::Mode;
use nj_seq::Seq;
use std::alloc::{AllocError, Global};

fn cell_in(mode: Mode, value: Value) -> Cell
    ensures { result ≡ cell_in mode value }
{
    match mode {
        Mode::Relative => Cell::Branch(value),
        Mode::Abs | Mode::AbsX | Mode::AbsY | Mode::Indirect => Cell::Word(value),
        _ => Cell::Byte(value),
    }
}

fn encoded(alloc: Global, code: u8, mode: Mode, operand: Operand) -> Result<Seq<Cell>, AllocError>
    ensures { IfOk result (λ cells. cells ≡ Cell.Opcode code ∷ cells_in mode operand) }
{
    let mut cells = Seq::new(alloc);
    cells.push(Cell::Opcode(code))?;
    match operand {
        Operand::Nothing | Operand::LetterA => {}
        Operand::Valued(_, value) => cells.push(cell_in(mode, value))?,
    }
    Ok(cells)
}

#[tactic(auto, unfolding(crate::specs::Grammar::instruction_of))]
fn instruction_of(
    alloc: Global,
    word: &[u8],
    operand: Option<Operand>,
) -> Result<Statement, AllocError>
    ensures { IfOk result (λ statement. statement ≡ instruction_of word.now operand) }
{
    let Some(operand) = operand else {
        return Ok(Statement::Refused(Fault::Syntax));
    };
    if !is_name(word) {
        return Ok(Statement::Refused(Fault::Syntax));
    }
    if !is_mnemonic(word) {
        return Ok(Statement::Refused(Fault::UnknownOp));
    }
    match coded(word, modes_of(&operand)) {
        Some((code, mode)) => Ok(Statement::Cells(encoded(alloc, code, mode, operand)?)),
        None => Ok(Statement::Refused(Fault::NoMode)),
    }
}

fn item_in(wide: bool, value: Value) -> Cell
    ensures { result ≡ item_in wide value }
{
    if wide {
        Cell::Word(value)
    } else {
        Cell::Byte(value)
    }
}

fn item_of(alloc: Global, wide: bool, part: &[u8]) -> Result<Option<Cell>, AllocError>
    ensures { IfOk result (λ cell. cell ≡ item_of wide part.now) }
{
    match value_of(alloc, without_start(part))? {
        Some(value) => Ok(Some(item_in(wide, value))),
        None => Ok(None),
    }
}

// What stands before a place and behind it.
fn parted(text: &[u8], place: usize) -> (&[u8], &[u8])
    requires { place < length text.now }
    ensures before { result.0.now ≡ take place text.now }
    ensures behind { result.1.now ≡ drop (place + 1) text.now }
{
    (&text[..place], &text[place + 1..])
}

fn items_of(alloc: Global, wide: bool, text: &[u8]) -> Result<Option<Seq<Cell>>, AllocError>
    ensures { IfOk result (λ cells. cells ≡ items_of wide text.now) }
{
    let mut cells = Seq::new(alloc);
    let mut rest = text;
    let mut end = length_before(b',', rest);
    while end < rest.len() {
        let (part, after) = parted(rest, end);
        match item_of(alloc, wide, part)? {
            Some(cell) => cells.push(cell)?,
            None => return Ok(None),
        }
        rest = after;
        end = length_before(b',', rest);
    }
    match item_of(alloc, wide, rest)? {
        Some(cell) => cells.push(cell)?,
        None => return Ok(None),
    }
    Ok(Some(cells))
}

fn cells_or(cells: Option<Seq<Cell>>) -> Statement
    ensures { result ≡ cells_or cells }
{
    match cells {
        Some(cells) => Statement::Cells(cells),
        None => Statement::Refused(Fault::Syntax),
    }
}

fn origin_in(value: Option<Value>) -> Statement
    ensures { result ≡ origin_in value }
{
    match value {
        Some(Value::Literal(number)) => Statement::Origin(number),
        _ => Statement::Refused(Fault::Syntax),
    }
}

#[tactic(auto, unfolding(crate::specs::Grammar::directive_of))]
fn directive_of(alloc: Global, word: &[u8], rest: &[u8]) -> Result<Statement, AllocError>
    ensures { IfOk result (λ statement. statement ≡ directive_of word.now rest.now) }
{
    if word == b".org".as_slice() {
        return Ok(origin_in(value_of(alloc, rest)?));
    }
    if word == b".byte".as_slice() {
        return Ok(cells_or(items_of(alloc, false, rest)?));
    }
    if word == b".word".as_slice() {
        return Ok(cells_or(items_of(alloc, true, rest)?));
    }
    Ok(Statement::Refused(Fault::Syntax))
}

#[tactic(auto, unfolding(crate::specs::Grammar::said_by))]
fn said_by(alloc: Global, word: &[u8], rest: &[u8]) -> Result<Statement, AllocError>
    ensures { IfOk result (λ statement. statement ≡ said_by word.now rest.now) }
{
    if word.starts_with(b".") {
        directive_of(alloc, word, rest)
    } else {
        instruction_of(alloc, word, operand_of(alloc, rest)?)
    }
}

/// The statement of a text without blanks around it.
#[tactic(auto, unfolding(crate::specs::Grammar::statement_of))]
pub fn statement_of(alloc: Global, text: &[u8]) -> Result<Statement, AllocError>
    ensures { IfOk result (λ statement. statement ≡ statement_of text.now) }
{
    if text.is_empty() {
        return Ok(Statement::Blank);
    }
    let len = word_len(text);
    said_by(alloc, &text[..len], without_start(&text[len..]))
}
