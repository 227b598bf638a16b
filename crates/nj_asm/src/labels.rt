//! Where the labels of a source stand.

ghost use Rattle.std.specs.Prelude.{◌≡◌, ◌+◌, ◌*◌, ◌%◌, ◌<◌, ◌≤◌, ℕ, List, length, sum_by, Some, None, IfOk, OnOk, unwrap_or, ◌^◌, if◌then◌else◌};
ghost use Rattle.std.specs.HashMap.{get_by_text};
ghost use Rattle.std.specs.Option.{option_or, option_map};
ghost use Rattle.nj_asm.specs.Assembly.{cell_size, size_of, next_place, is_labelled, home_in, origin_by, origin_of, homes, homes_of, number_in};

use nj_asm_lines::{Cell, Line, Statement, Value};
use nj_seq::Text;
use std::alloc::{AllocError, Global};
use std::collections::HashMap;

/// The first line that has a label, counted from 0, and its address.
#[derive(Clone, Copy)]
pub struct Home {
    pub line: u64,
    pub place: u16,
}

/// Where each label stands first.
pub type Labels = HashMap<String, Home>;

const DEFAULT_ORIGIN: u16 = 0x8000;

fn cell_size(cell: &Cell) -> u8
    ensures value { result ≡ cell_size cell.now }
    ensures small { result ≤ 2 }
{
    match cell {
        Cell::Word(_) => 2,
        Cell::Opcode(_) | Cell::Byte(_) | Cell::Branch(_) => 1,
    }
}

fn cells_size(cells: &[Cell]) -> u128
    ensures value { result ≡ sum_by cell_size cells.now }
    ensures small { result < 2 ^ 65 }
{
    let mut size = 0u128;
    for cell in cells {
        size += u128::from(cell_size(cell));
    }
    size
}

/// The bytes that a statement takes.
pub fn size_of(statement: &Statement) -> u128
    ensures value { result ≡ size_of statement.now }
    ensures small { result < 2 ^ 65 }
{
    match statement {
        Statement::Blank | Statement::Origin(_) | Statement::Refused(_) => 0,
        Statement::Cells(cells) => cells_size(cells.as_slice()),
    }
}

fn next_place(place: u16, statement: &Statement) -> u16
    ensures { result ≡ next_place place statement.now }
{
    ((u128::from(place) + size_of(statement)) % 65_536) as u16
}

// The origin that a first statement gives, if it is one.
fn origin_by(statement: &Statement) -> Option<u16>
    ensures { (next : ℕ) → origin_by statement.now next ≡ unwrap_or result next }
{
    match statement {
        Statement::Blank => None,
        Statement::Origin(number) => {
            if *number < 65_536 {
                Some(*number as u16)
            } else {
                Some(DEFAULT_ORIGIN)
            }
        }
        Statement::Cells(_) | Statement::Refused(_) => Some(DEFAULT_ORIGIN),
    }
}

/// The origin of a source.
pub fn origin_of(lines: &[Line]) -> u16
    ensures { result ≡ origin_of lines.now }
{
    for line in lines {
        if let Some(origin) = origin_by(&line.statement) {
            return origin;
        }
    }
    DEFAULT_ORIGIN
}

// Takes a line's label in, unless it stands on an earlier line.
fn note(
    alloc: Global,
    labels: &mut Labels,
    label: &Option<Text>,
    home: Home,
) -> Result<(), AllocError>
    ensures { OnOk result ((name : List ℕ) → homes labels.new name
        ≡ option_or (homes labels.old name) (if is_labelled name label.now then Some home else None)) }
{
    let Some(name) = label else {
        return Ok(());
    };
    if home_of(labels, name).is_some() {
        return Ok(());
    }
    let key = String::from_str(alloc, name.as_str())?;
    labels.insert(key, home)?;
    Ok(())
}

/// Where the labels of these lines stand, from the origin on.
#[tactic(auto, unfolding(crate::specs::Assembly::homes_of))]
pub fn homes_of(alloc: Global, origin: u16, lines: &[Line]) -> Result<Labels, AllocError>
    requires { origin ≡ origin_of lines.now }
    ensures { IfOk result (λ labels. homes labels ≡ homes_of lines.now) }
{
    let mut labels = HashMap::new(alloc);
    let mut place = origin;
    for (index, line) in lines.iter().enumerate() {
        let home = Home {
            line: index as u64,
            place,
        };
        note(alloc, &mut labels, &line.label, home)?;
        place = next_place(place, &line.statement);
    }
    Ok(labels)
}

/// Where a label stands first.
pub fn home_of(labels: &Labels, name: &Text) -> Option<Home>
    ensures { result ≡ homes labels.now name.now }
{
    labels.get(name.as_str()).copied()
}

/// The number that a value is, if its label stands somewhere.
pub fn number_in(labels: &Labels, value: &Value) -> Option<u32>
    ensures { result ≡ number_in (homes labels.now) value.now }
{
    match value {
        Value::Literal(number) => Some(*number),
        Value::Label(name) => place_of(labels, name),
        Value::Low(name) => Some(place_of(labels, name)? % 256),
        Value::High(name) => Some(place_of(labels, name)? / 256),
    }
}

fn place_of(labels: &Labels, name: &Text) -> Option<u32>
    ensures { result ≡ option_map (λ h. h.place) (homes labels.now name.now) }
{
    let home = home_of(labels, name)?;
    Some(u32::from(home.place))
}
