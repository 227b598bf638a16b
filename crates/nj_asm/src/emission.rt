//! What refuses a line, and the bytes that it gives.

ghost use Rattle.std.specs.Prelude.{◌≡◌, ◌+◌, ◌-◌, ◌*◌, ◌/◌, ◌%◌, ◌<◌, ◌≤◌, ◌++◌, ◌∷◌, [], OnOk, IfNone, unwrap_or};
ghost use Rattle.std.specs.List.{list_any, flat_map};
ghost use Rattle.nj_asm.specs.Assembly.{homes, size_of, number_in, offset_to, is_far, number_of_cell, is_beyond, is_out, is_unknown, cells_fault, statement_fault, is_late, is_said, is_twice, fault_of, number, cell_bytes, bytes_of};

use crate::labels::{Labels, home_of, number_in, size_of};
use nj_asm_lines::{Cell, Fault, Line, Statement, Value};
use nj_seq::{Seq, Text};
use std::alloc::AllocError;

/// A branch's offset is counted from the byte behind it.
fn offset_to(at: u32, target: u32) -> u32
    requires { at ≤ 65536 }
    ensures { result ≡ offset_to at target }
{
    (target % 65_536 + 65_536 - (at + 2) % 65_536) % 65_536
}

fn is_far(at: u32, target: u32) -> bool
    requires { at ≤ 65536 }
    ensures { result ≡ is_far at target }
{
    let offset = offset_to(at, target);
    127 < offset && offset < 65_408
}

fn is_beyond(at: u32, cell: &Cell, number: u32) -> bool
    requires { at ≤ 65536 }
    ensures { result ≡ is_beyond at cell.now number }
{
    match cell {
        Cell::Opcode(_) => false,
        Cell::Byte(_) => 255 < number,
        Cell::Word(_) => 65_535 < number,
        Cell::Branch(_) => 65_535 < number || is_far(at, number),
    }
}

fn number_of_cell(labels: &Labels, cell: &Cell) -> Option<u32>
    ensures { result ≡ number_of_cell (homes labels.now) cell.now }
{
    match cell {
        Cell::Opcode(code) => Some(u32::from(*code)),
        Cell::Byte(value) | Cell::Word(value) | Cell::Branch(value) => number_in(labels, value),
    }
}

fn is_out(labels: &Labels, at: u32, cell: &Cell) -> bool
    requires { at ≤ 65536 }
    ensures { result ≡ is_out (homes labels.now) at cell.now }
{
    match number_of_cell(labels, cell) {
        Some(number) => is_beyond(at, cell, number),
        None => false,
    }
}

fn is_unknown(labels: &Labels, cell: &Cell) -> bool
    ensures { result ≡ is_unknown (homes labels.now) cell.now }
{
    number_of_cell(labels, cell).is_none()
}

fn has_out(labels: &Labels, at: u32, cells: &[Cell]) -> bool
    requires { at ≤ 65536 }
    ensures { result ≡ list_any (is_out (homes labels.now) at) cells.now }
{
    cells.iter().any(|cell| is_out(labels, at, cell))
}

fn has_unknown(labels: &Labels, cells: &[Cell]) -> bool
    ensures { result ≡ list_any (is_unknown (homes labels.now)) cells.now }
{
    cells.iter().any(|cell| is_unknown(labels, cell))
}

#[tactic(auto, unfolding(crate::specs::Assembly::cells_fault))]
fn cells_fault(labels: &Labels, at: u32, cells: &[Cell]) -> Option<Fault>
    requires { at ≤ 65536 }
    ensures { result ≡ cells_fault (homes labels.now) at cells.now }
{
    if has_out(labels, at, cells) {
        return Some(Fault::Range);
    }
    if has_unknown(labels, cells) {
        return Some(Fault::UnknownLabel);
    }
    None
}

fn statement_fault(labels: &Labels, at: u32, statement: &Statement) -> Option<Fault>
    requires { at ≤ 65536 }
    ensures { result ≡ statement_fault (homes labels.now) at statement.now }
{
    match statement {
        Statement::Blank => None,
        Statement::Origin(number) => {
            if 65_535 < *number {
                Some(Fault::Range)
            } else {
                None
            }
        }
        Statement::Cells(cells) => cells_fault(labels, at, cells.as_slice()),
        Statement::Refused(fault) => Some(*fault),
    }
}

fn is_late(begun: bool, statement: &Statement) -> bool
    ensures { result ≡ is_late begun statement.now }
{
    match statement {
        Statement::Origin(_) => begun,
        Statement::Blank | Statement::Cells(_) | Statement::Refused(_) => false,
    }
}

/// Whether the line has a statement.
pub fn is_said(statement: &Statement) -> bool
    ensures { result ≡ is_said statement.now }
{
    match statement {
        Statement::Blank => false,
        Statement::Origin(_) | Statement::Cells(_) | Statement::Refused(_) => true,
    }
}

fn is_twice(labels: &Labels, index: u64, label: &Option<Text>) -> bool
    ensures { result ≡ is_twice (homes labels.now) index label.now }
{
    match label {
        None => false,
        Some(name) => match home_of(labels, name) {
            Some(home) => home.line < index,
            None => false,
        },
    }
}

/// What refuses a line that begins at an address, the first by kind.
#[tactic(auto, unfolding(crate::specs::Assembly::fault_of))]
pub fn fault_of(labels: &Labels, begun: bool, at: u32, index: u64, line: &Line) -> Option<Fault>
    requires { at ≤ 65536 }
    ensures value { result ≡ fault_of (homes labels.now) begun at index line.now }
    ensures fits { IfNone result (at + size_of line.now.statement ≤ 65536) }
{
    if is_late(begun, &line.statement) {
        return Some(Fault::Syntax);
    }
    if let Some(fault) = statement_fault(labels, at, &line.statement) {
        return Some(fault);
    }
    if is_twice(labels, index, &line.label) {
        return Some(Fault::TwiceLabel);
    }
    if 65_536 < u128::from(at) + size_of(&line.statement) {
        return Some(Fault::TooLong);
    }
    None
}

fn number(labels: &Labels, value: &Value) -> u32
    ensures { result ≡ number (homes labels.now) value.now }
{
    number_in(labels, value).unwrap_or(0)
}

fn branch_byte(at: u32, target: u32) -> u8
    requires { at ≤ 65536 }
    ensures { result ≡ offset_to at target % 256 }
{
    (offset_to(at, target) % 256) as u8
}

fn push_byte(bytes: &mut Seq<u8>, byte: u8) -> Result<(), AllocError>
    ensures { OnOk result (bytes.new ≡ bytes.old ++ byte ∷ []) }
{
    Ok(bytes.push(byte)?)
}

// Adds a number mod 65,536, its low byte first.
fn push_word(bytes: &mut Seq<u8>, word: u32) -> Result<(), AllocError>
    ensures { OnOk result (bytes.new ≡ bytes.old ++ word % 256 ∷ word / 256 % 256 ∷ []) }
{
    bytes.extend_from_slice(&[(word % 256) as u8, (word / 256 % 256) as u8])
}

fn push_cell(bytes: &mut Seq<u8>, labels: &Labels, at: u32, cell: &Cell) -> Result<(), AllocError>
    requires { at ≤ 65536 }
    ensures { OnOk result (bytes.new ≡ bytes.old ++ cell_bytes (homes labels.now) at cell.now) }
{
    match cell {
        Cell::Opcode(code) => push_byte(bytes, *code),
        Cell::Byte(value) => push_byte(bytes, (number(labels, value) % 256) as u8),
        Cell::Word(value) => push_word(bytes, number(labels, value)),
        Cell::Branch(value) => push_byte(bytes, branch_byte(at, number(labels, value))),
    }
}

fn push_cells(
    bytes: &mut Seq<u8>,
    labels: &Labels,
    at: u32,
    cells: &[Cell],
) -> Result<(), AllocError>
    requires { at ≤ 65536 }
    ensures { OnOk result (bytes.new ≡ bytes.old ++ flat_map (cell_bytes (homes labels.now) at) cells.now) }
{
    for cell in cells {
        push_cell(bytes, labels, at, cell)?;
    }
    Ok(())
}

/// Adds the bytes of a statement that begins at an address.
pub fn push_bytes(
    bytes: &mut Seq<u8>,
    labels: &Labels,
    at: u32,
    statement: &Statement,
) -> Result<(), AllocError>
    requires { at ≤ 65536 }
    ensures { OnOk result (bytes.new ≡ bytes.old ++ bytes_of (homes labels.now) at statement.now) }
{
    match statement {
        Statement::Blank | Statement::Origin(_) | Statement::Refused(_) => Ok(()),
        Statement::Cells(cells) => push_cells(bytes, labels, at, cells.as_slice()),
    }
}
