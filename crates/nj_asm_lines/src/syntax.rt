//! What a line of a source says, as values.

use nj_seq::{Seq, Text};

/// A number as a source spells it.
#[derive(Drop)]
pub enum Value {
    /// A literal, clipped at 65,536, which is above every address.
    Literal(u32),
    /// The address of a label.
    Label(Text),
    /// The low byte of a label's address.
    Low(Text),
    /// The high byte of a label's address.
    High(Text),
}

/// The signs around an operand's value.
#[derive(Clone, Copy)]
pub enum Form {
    /// `#n`
    Hash,
    /// `n`
    Plain,
    /// `n,X`
    CommaX,
    /// `n,Y`
    CommaY,
    /// `(n,X)`
    ParenCommaX,
    /// `(n),Y`
    ParenCommaY,
    /// `(n)`
    Paren,
}

/// What stands behind a mnemonic.
#[derive(Drop)]
pub enum Operand {
    Nothing,
    /// `A` alone, the accumulator.
    LetterA,
    Valued(Form, Value),
}

/// One or two bytes of the output before its labels are known.
#[derive(Drop)]
pub enum Cell {
    Opcode(u8),
    Byte(Value),
    /// Two bytes, the low one first.
    Word(Value),
    /// The offset of a branch to the value.
    Branch(Value),
}

/// Why a line is refused.
#[derive(Clone, Copy)]
pub enum Fault {
    Syntax,
    UnknownOp,
    NoMode,
    Range,
    UnknownLabel,
    TwiceLabel,
    TooLong,
}

/// What a line says behind its label.
#[derive(Drop)]
pub enum Statement {
    Blank,
    /// `.org`; an origin above 65,535 is 65,536.
    Origin(u32),
    Cells(Seq<Cell>),
    /// A statement that can't be read, which takes no byte.
    Refused(Fault),
}

/// A line of a source.
#[derive(Drop)]
pub struct Line {
    pub label: Option<Text>,
    pub statement: Statement,
}
