//! One cycle: an access, and then a look at the NMI line.

ghost use Rattle.std.specs.Prelude.{◌≡◌, ◌+◌, ◌%◌};
ghost use Rattle.nj_cpu.specs.Walk.{watched};

use crate::state::{Cpu, Rises};
use nj_isa::Bus;

/// Looks at the NMI line after an access.
#[inline(always)]
fn look<B: Bus>(cpu: &mut Cpu, rises: &mut Rises, bus: &B)
    requires { rises.old.line ≡ cpu.old.line }
    ensures cpu { cpu.new ≡ record cpu.old { line = B.acts.line (B.held bus.now) } }
    ensures rises { rises.new ≡ watched cpu.old.line (B.acts.line (B.held bus.now)) rises.old }
{
    let level = bus.nmi_line();
    if !rises.is_quiet(level) {
        note_change(cpu, rises, level);
    }
}

// The same where the line has changed, or rose before in this unit.
#[cold]
#[inline(never)]
fn note_change(cpu: &mut Cpu, rises: &mut Rises, level: bool)
    requires { rises.old.line ≡ cpu.old.line }
    ensures cpu { cpu.new ≡ record cpu.old { line = level } }
    ensures rises { rises.new ≡ watched cpu.old.line level rises.old }
{
    rises.turn(level, level && !cpu.line);
    cpu.line = level;
}

/// One cycle that reads.
#[inline(always)]
pub(crate) fn read<B: Bus>(cpu: &mut Cpu, rises: &mut Rises, bus: &mut B, at: u16) -> u8
    requires { rises.old.line ≡ cpu.old.line }
    ensures byte { result ≡ B.acts.byte (B.held bus.old) at }
    ensures held { B.held bus.new ≡ B.acts.after_read (B.held bus.old) at }
    ensures cpu { cpu.new ≡ record cpu.old { line = B.acts.line (B.held bus.new) } }
    ensures rises { rises.new ≡ watched cpu.old.line (B.acts.line (B.held bus.new)) rises.old }
{
    let byte = bus.read(at);
    look(cpu, rises, bus);
    byte
}

/// One cycle that writes.
#[inline(always)]
pub(crate) fn write<B: Bus>(cpu: &mut Cpu, rises: &mut Rises, bus: &mut B, at: u16, value: u8)
    requires { rises.old.line ≡ cpu.old.line }
    ensures held { B.held bus.new ≡ B.acts.after_write (B.held bus.old) at value }
    ensures cpu { cpu.new ≡ record cpu.old { line = B.acts.line (B.held bus.new) } }
    ensures rises { rises.new ≡ watched cpu.old.line (B.acts.line (B.held bus.new)) rises.old }
{
    bus.write(at, value);
    look(cpu, rises, bus);
}

/// Reads at PC and lets the byte go.
#[inline(always)]
pub(crate) fn idle<B: Bus>(cpu: &mut Cpu, rises: &mut Rises, bus: &mut B)
    requires { rises.old.line ≡ cpu.old.line }
    ensures held { B.held bus.new ≡ B.acts.after_read (B.held bus.old) cpu.old.pc }
    ensures cpu { cpu.new ≡ record cpu.old { line = B.acts.line (B.held bus.new) } }
    ensures rises { rises.new ≡ watched cpu.old.line (B.acts.line (B.held bus.new)) rises.old }
{
    let _ = read(cpu, rises, bus, cpu.pc);
}

/// Reads the next byte of the instruction.
#[inline(always)]
pub(crate) fn fetch<B: Bus>(cpu: &mut Cpu, rises: &mut Rises, bus: &mut B) -> u8
    requires { rises.old.line ≡ cpu.old.line }
    ensures byte { result ≡ B.acts.byte (B.held bus.old) cpu.old.pc }
    ensures held { B.held bus.new ≡ B.acts.after_read (B.held bus.old) cpu.old.pc }
    ensures cpu { cpu.new ≡ record cpu.old { line = B.acts.line (B.held bus.new); pc = (cpu.old.pc + 1) % 65536 } }
    ensures rises { rises.new ≡ watched cpu.old.line (B.acts.line (B.held bus.new)) rises.old }
{
    let byte = read(cpu, rises, bus, cpu.pc);
    cpu.pc = cpu.pc.wrapping_add(1);
    byte
}

/// Reads at the stack.
#[inline]
pub(crate) fn peek<B: Bus>(cpu: &mut Cpu, rises: &mut Rises, bus: &mut B) -> u8
    requires { rises.old.line ≡ cpu.old.line }
    ensures byte { result ≡ B.acts.byte (B.held bus.old) (256 + cpu.old.s) }
    ensures held { B.held bus.new ≡ B.acts.after_read (B.held bus.old) (256 + cpu.old.s) }
    ensures cpu { cpu.new ≡ record cpu.old { line = B.acts.line (B.held bus.new) } }
    ensures rises { rises.new ≡ watched cpu.old.line (B.acts.line (B.held bus.new)) rises.old }
{
    read(cpu, rises, bus, 256 + cpu.s as u16)
}

/// Reads at the stack and moves the stack pointer up.
#[inline]
pub(crate) fn pull<B: Bus>(cpu: &mut Cpu, rises: &mut Rises, bus: &mut B) -> u8
    requires { rises.old.line ≡ cpu.old.line }
    ensures byte { result ≡ B.acts.byte (B.held bus.old) (256 + cpu.old.s) }
    ensures held { B.held bus.new ≡ B.acts.after_read (B.held bus.old) (256 + cpu.old.s) }
    ensures cpu { cpu.new ≡ record cpu.old { line = B.acts.line (B.held bus.new); s = (cpu.old.s + 1) % 256 } }
    ensures rises { rises.new ≡ watched cpu.old.line (B.acts.line (B.held bus.new)) rises.old }
{
    let byte = peek(cpu, rises, bus);
    cpu.s = cpu.s.wrapping_add(1);
    byte
}

/// Writes at the stack and moves the stack pointer down.
#[inline]
pub(crate) fn push<B: Bus>(cpu: &mut Cpu, rises: &mut Rises, bus: &mut B, value: u8)
    requires { rises.old.line ≡ cpu.old.line }
    ensures held { B.held bus.new ≡ B.acts.after_write (B.held bus.old) (256 + cpu.old.s) value }
    ensures cpu { cpu.new ≡ record cpu.old { line = B.acts.line (B.held bus.new); s = (cpu.old.s + 255) % 256 } }
    ensures rises { rises.new ≡ watched cpu.old.line (B.acts.line (B.held bus.new)) rises.old }
{
    write(cpu, rises, bus, 256 + cpu.s as u16, value);
    cpu.s = cpu.s.wrapping_sub(1);
}
