//! The lines of a source.

ghost use Rattle.std.specs.Prelude.{◌≡◌, ◌+◌, ◌<◌, ◌==◌, ◌++◌, [], ◌∷◌, ◌&&◌, nat_lt, length, take, drop, map, IfOk, IsTrue};
ghost use Rattle.nj_lines.specs.Lines.{lines};
ghost use Rattle.nj_asm_lines.specs.Words.{length_before};
ghost use Rattle.nj_asm_lines.specs.Grammar.{content, code_of, has_label, label_of, statement_text, is_text, said_on, line_of, read_lines};

use crate::statements::statement_of;
use crate::syntax::{Fault, Line, Statement};
use crate::words::{is_name, length_before, name_in, without_end, without_start};
use nj_lines::{next_line, without};
use nj_seq::{Seq, Text};
use std::alloc::{AllocError, Global};

fn content(line: &[u8]) -> &[u8]
    ensures { result.now ≡ content line.now }
{
    without(b"\n", without(b"\r\n", line))
}

#[tactic(auto, unfolding(crate::specs::Grammar::code_of))]
fn code_of(line: &[u8]) -> &[u8]
    ensures { result.now ≡ code_of line.now }
{
    let text = content(line);
    without_end(without_start(&text[..length_before(b';', text)]))
}

fn has_label(text: &[u8]) -> bool
    ensures value { result ≡ has_label text.now }
    ensures colon { IsTrue result → length_before 58 text.now < length text.now }
{
    let len = length_before(b':', text);
    len < text.len() && is_name(&text[..len])
}

#[tactic(auto, unfolding(crate::specs::Grammar::label_of))]
fn label_of(alloc: Global, text: &[u8]) -> Result<Option<Text>, AllocError>
    ensures { IfOk result (λ label. label ≡ label_of text.now) }
{
    let len = length_before(b':', text);
    if len < text.len() {
        name_in(alloc, &text[..len])
    } else {
        Ok(None)
    }
}

#[tactic(auto, unfolding(crate::specs::Grammar::statement_text))]
fn statement_text(text: &[u8]) -> &[u8]
    ensures { result.now ≡ statement_text text.now }
{
    if has_label(text) {
        let len = length_before(b':', text);
        without_start(&text[len + 1..])
    } else {
        text
    }
}

fn is_text(bytes: &[u8]) -> bool
    ensures { result ≡ is_text bytes.now }
{
    match str::from_utf8(bytes) {
        Ok(_) => true,
        Err(_) => false,
    }
}

#[tactic(auto, unfolding(crate::specs::Grammar::said_on))]
fn said_on(alloc: Global, line: &[u8]) -> Result<Statement, AllocError>
    ensures { IfOk result (λ statement. statement ≡ said_on line.now) }
{
    if is_text(line) {
        statement_of(alloc, statement_text(code_of(line)))
    } else {
        Ok(Statement::Refused(Fault::Syntax))
    }
}

#[tactic(auto, unfolding(crate::specs::Grammar::line_of))]
fn line_of(alloc: Global, line: &[u8]) -> Result<Line, AllocError>
    ensures { IfOk result (λ l. l ≡ line_of line.now) }
{
    let label = label_of(alloc, code_of(line))?;
    let statement = said_on(alloc, line)?;
    Ok(Line { label, statement })
}

/// The lines of a source as they are read.
#[tactic(auto, unfolding(crate::specs::Grammar::read_lines))]
pub fn read_lines(alloc: Global, source: &[u8]) -> Result<Seq<Line>, AllocError>
    ensures { IfOk result (λ all. all ≡ read_lines source.now) }
{
    let mut all = Seq::new(alloc);
    let mut rest = source;
    while !rest.is_empty() {
        let (line, after) = next_line(rest);
        all.push(line_of(alloc, line)?)?;
        rest = after;
    }
    Ok(all)
}
