//! The listing of bytes.

ghost use Rattle.std.specs.Prelude.{◌≡◌, ◌+◌, ◌-◌, ◌%◌, ◌<◌, ◌≤◌, ◌++◌, ◌∷◌, [], length, take, drop, slice_index, IfOk, OnOk, true};
ghost use Rattle.nj_isa.specs.Table.{row_of};
ghost use Rattle.nj_isa.specs.Timing.{is_jam};
ghost use Rattle.nj_asm.specs.Listing.{instruction_text, byte_text, bytes_text, span_of, is_whole, listed, listing_of};

use crate::pieces::{push_hex2, push_operand, push_place};
use nj_isa::{Op, mode_len, op_name, op_row};
use std::alloc::{AllocError, Global};

fn is_jam(op: Op) -> bool
    ensures { result ≡ is_jam op }
{
    matches!(op, Op::Jam)
}

fn span_of(opcode: u8) -> usize
    ensures value { result ≡ span_of opcode }
    ensures some { 0 < result }
    ensures few { result ≤ 3 }
{
    mode_len(op_row(opcode).mode) as usize
}

fn byte_at(bytes: &[u8], place: usize) -> u8
    ensures { result ≡ slice_index bytes.now place }
{
    if place < bytes.len() { bytes[place] } else { 0 }
}

// An instruction's line without its line feed.
#[tactic(auto, unfolding(crate::specs::Listing::instruction_text))]
fn push_line(text: &mut Vec<u8>, at: u32, bytes: &[u8]) -> Result<(), AllocError>
    requires { at < 65536 }
    ensures { OnOk result (text.new.items ++ 10 ∷ [] ≡ text.old.items ++ instruction_text at bytes.now) }
{
    let row = op_row(byte_at(bytes, 0));
    push_place(text, at, bytes)?;
    text.extend_from_slice(op_name(row.op).as_bytes())?;
    push_operand(text, row.mode, at, byte_at(bytes, 1), byte_at(bytes, 2))
}

fn push_instruction(text: &mut Vec<u8>, at: u32, bytes: &[u8]) -> Result<(), AllocError>
    requires { at < 65536 }
    ensures { OnOk result (text.new.items ≡ text.old.items ++ instruction_text at bytes.now) }
{
    push_line(text, at, bytes)?;
    text.extend_from_slice(b"\n")
}

#[tactic(auto, unfolding(crate::specs::Listing::byte_text))]
fn push_byte(text: &mut Vec<u8>, at: u32, byte: u8) -> Result<(), AllocError>
    ensures { OnOk result (text.new.items ≡ text.old.items ++ byte_text at byte) }
{
    push_place(text, at, &[byte])?;
    text.extend_from_slice(b".BYTE $")?;
    push_hex2(text, byte)?;
    text.extend_from_slice(b"\n")
}

fn push_bytes(text: &mut Vec<u8>, at: u32, bytes: &[u8]) -> Result<(), AllocError>
    requires { at < 65536 }
    ensures { OnOk result (text.new.items ≡ text.old.items ++ bytes_text at bytes.now) }
{
    let mut place = at;
    for byte in bytes {
        push_byte(text, place, *byte)?;
        place = (place + 1) % 65_536;
    }
    Ok(())
}

/// One line an instruction, from the origin on; addresses count mod 65,536.
#[tactic(auto, unfolding(crate::specs::Listing::listing_of))]
pub fn list(alloc: Global, bytes: &[u8], origin: u16) -> Result<Vec<u8>, AllocError>
    ensures { IfOk result (λ text. text.items ≡ listing_of origin bytes.now) }
{
    let mut text = Vec::new(alloc);
    let mut at = u32::from(origin);
    let mut rest = bytes;
    while !rest.is_empty() {
        let opcode = rest[0];
        let span = span_of(opcode);
        if is_jam(op_row(opcode).op) {
            push_byte(&mut text, at, opcode)?;
            rest = &rest[1..];
            at = (at + 1) % 65_536;
        } else if rest.len() < span {
            push_bytes(&mut text, at, rest)?;
            rest = &rest[rest.len()..];
        } else {
            let (shown, after) = rest.split_at(span);
            push_instruction(&mut text, at, shown)?;
            rest = after;
            at = (at + span as u32) % 65_536;
        }
    }
    Ok(text)
}

/// Whether the bytes are one whole instruction, which does not jam.
pub fn is_whole(bytes: &[u8]) -> bool
    ensures { result ≡ is_whole bytes.now }
{
    match bytes {
        [] => false,
        [opcode, ..] => !is_jam(op_row(*opcode).op) && bytes.len() == span_of(*opcode),
    }
}

/// The line that a listing has for one whole instruction, without its line feed.
#[tactic(auto, using(crate::proofs::ListingLemmas::listed_one))]
pub fn list_one(alloc: Global, bytes: &[u8], at: u16) -> Result<Vec<u8>, AllocError>
    requires { is_whole bytes.now ≡ true }
    ensures { IfOk result (λ line. line.items ++ 10 ∷ [] ≡ listing_of at bytes.now) }
{
    let mut line = Vec::new(alloc);
    push_line(&mut line, u32::from(at), bytes)?;
    Ok(line)
}
