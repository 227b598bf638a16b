//! The line of a unit.

ghost use Rattle.std.specs.Prelude.{◌≡◌, ◌≤◌, ◌++◌, ◌∷◌, [], take, length, codes, string_bytes, IfOk, OnOk, true};
ghost use Rattle.nj_asm.specs.Listing.{is_whole};
ghost use Rattle.nj_machine.specs.declared.seeing.UnitKind.TheVariants.{Code};
ghost use Rattle.nj_trace.specs.Trace.{hex_byte, hex_word, place_text, registers_text, unit_word, event_text, unit_text, unit_line};

use nj_alu::pack_flags;
use nj_asm::list_one;
use nj_machine::{Cpu, UnitKind, UnitSeen};
use std::alloc::{AllocError, Global};

#[tactic(auto, unfolding(crate::specs::Trace::place_text))]
fn place_text(alloc: Global, line: u16, dot: u16) -> Result<String, AllocError>
    ensures { IfOk result (λ text. string_bytes text ≡ place_text line dot) }
{
    format!(in alloc; "L={line} D={dot} ")
}

#[tactic(auto, using(std::proofs::lemmas::Fmt::hex_byte))]
fn hex_registers(alloc: Global, a: u8, x: u8, y: u8, s: u8, p: u8) -> Result<String, AllocError>
    ensures { IfOk result
        (λ text. string_bytes text ≡ codes "A=" ++ (hex_byte a ++ (codes " X=" ++ (hex_byte x ++ (codes " Y="
        ++ (hex_byte y ++ (codes " S=" ++ (hex_byte s ++ (codes " P=" ++ (hex_byte p ++ codes " ")))))))))) }
{
    format!(in alloc; "A={a:02X} X={x:02X} Y={y:02X} S={s:02X} P={p:02X} ")
}

#[tactic(auto, unfolding(crate::specs::Trace::registers_text))]
fn registers_text(alloc: Global, cpu: &Cpu) -> Result<String, AllocError>
    ensures { IfOk result (λ text. string_bytes text ≡ registers_text cpu.now) }
{
    let p = pack_flags(cpu.flags, false);
    hex_registers(alloc, cpu.a, cpu.x, cpu.y, cpu.s, p)
}

fn unit_word(kind: UnitKind) -> &'static str
    ensures { result.now ≡ unit_word kind }
{
    match kind {
        UnitKind::Copy => "DMA",
        UnitKind::Nmi => "NMI",
        _ => "JAM",
    }
}

#[tactic(auto, using(std::proofs::lemmas::Fmt::hex_byte))]
fn hex_word(alloc: Global, high: u8, low: u8) -> Result<String, AllocError>
    ensures { IfOk result (λ text. string_bytes text ≡ hex_byte high ++ hex_byte low) }
{
    format!(in alloc; "{high:02X}{low:02X}")
}

#[tactic(auto, unfolding(crate::specs::Trace::event_text))]
fn event_text(alloc: Global, pc: u16, kind: UnitKind) -> Result<String, AllocError>
    ensures { IfOk result (λ text. string_bytes text ≡ event_text pc kind) }
{
    let word = unit_word(kind);
    let address = hex_word(alloc, (pc / 256) as u8, (pc % 256) as u8)?;
    format!(in alloc; "{address} {word}\n")
}

fn push_code(alloc: Global, pc: u16, bytes: &[u8], text: &mut Vec<u8>) -> Result<(), AllocError>
    requires { is_whole bytes.now ≡ true }
    ensures { OnOk result (text.new.items ≡ text.old.items ++ unit_text UnitKind.Code pc bytes.now) }
{
    let line = list_one(alloc, bytes, pc)?;
    text.extend_from_slice(line.as_slice())?;
    text.extend_from_slice(b"\n")
}

fn push_event(alloc: Global, pc: u16, kind: UnitKind, text: &mut Vec<u8>) -> Result<(), AllocError>
    ensures { OnOk result (text.new.items ≡ text.old.items ++ event_text pc kind) }
{
    let line = event_text(alloc, pc, kind)?;
    text.extend_from_slice(line.as_bytes())
}

// What the unit was.
fn push_unit_text(alloc: Global, seen: &UnitSeen, text: &mut Vec<u8>) -> Result<(), AllocError>
    requires few { seen.now.len ≤ 3 }
    requires whole { seen.now.kind ≡ Code → is_whole (take seen.now.len seen.now.bytes) ≡ true }
    ensures { OnOk result (text.new.items
        ≡ text.old.items ++ unit_text seen.now.kind seen.now.cpu.pc (take seen.now.len seen.now.bytes)) }
{
    match seen.kind {
        UnitKind::Code => push_code(alloc, seen.cpu.pc, &seen.bytes[..seen.len as usize], text),
        kind => push_event(alloc, seen.cpu.pc, kind, text),
    }
}

/// Adds the line of a unit.
#[tactic(auto, unfolding(crate::specs::Trace::unit_line))]
pub fn push_unit(alloc: Global, seen: &UnitSeen, text: &mut Vec<u8>) -> Result<(), AllocError>
    requires few { seen.now.len ≤ 3 }
    requires whole { seen.now.kind ≡ Code → is_whole (take seen.now.len seen.now.bytes) ≡ true }
    ensures { OnOk result (text.new.items ≡ text.old.items ++ unit_line seen.now) }
{
    let place = place_text(alloc, seen.line, seen.dot)?;
    let registers = registers_text(alloc, &seen.cpu)?;
    text.extend_from_slice(place.as_bytes())?;
    text.extend_from_slice(registers.as_bytes())?;
    push_unit_text(alloc, seen, text)
}
