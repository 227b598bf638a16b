//! One unit: nothing, a sprite copy, an NMI entry or an instruction.

ghost use Rattle.std.specs.Prelude.{◌≡◌, ◌≢◌, ◌++◌, true, false};
ghost use Rattle.nj_isa.specs.declared.operations.Op.TheVariants.{Nop as NoOp};
ghost use Rattle.nj_isa.specs.Accesses.{copies};
ghost use Rattle.nj_cpu.specs.Walk.{begun, walk, EndsAs};
ghost use Rattle.nj_cpu.specs.Unit.{powered_on, no_rise, instruction, entered, waits, copied, on_note, later_note, active, end_of, unit_of};
ghost use Rattle.nj_cpu.specs.Notes.{ripe, with_note, ripened};

use crate::cycle::{idle, read, write};
use crate::rows::{enter, run_row};
use crate::state::{Cpu, Note, Rises, UnitEnd};
use nj_alu::Flags;
use nj_isa::{Bus, Op, op_row};

/// A processor at power-on, before its first cycle, at this PC.
pub fn power_on(pc: u16) -> Cpu
    ensures { result ≡ powered_on pc }
{
    Cpu {
        a: 0,
        x: 0,
        y: 0,
        s: 0xFD,
        pc,
        flags: Flags {
            n: false,
            v: false,
            d: false,
            i: true,
            z: false,
            c: false,
        },
        note: Note::None,
        line: false,
        jammed: false,
    }
}

/// One instruction. A jam makes its opcode's access alone, and PC stays at the opcode.
#[tactic(auto, unfolding(crate::specs::Unit::instruction))]
#[inline(always)]
fn run_instruction<B: Bus>(cpu: &mut Cpu, rises: &mut Rises, bus: &mut B)
    requires { rises.old.line ≡ cpu.old.line }
    ensures { rises.old.edges ≡ no_rise → EndsAs (instruction B.acts cpu.old (B.held bus.old))
        cpu.new (B.held bus.new) rises.new }
{
    let opcode = read(cpu, rises, bus, cpu.pc);
    run_row(cpu, rises, bus, op_row(opcode));
}

/// The entry of an NMI.
#[tactic(auto, unfolding(crate::specs::Unit::entered))]
#[inline(never)]
fn enter_nmi<B: Bus>(cpu: &mut Cpu, rises: &mut Rises, bus: &mut B)
    requires { rises.old.line ≡ cpu.old.line }
    ensures { rises.old.edges ≡ no_rise → EndsAs (entered B.acts cpu.old (B.held bus.old))
        cpu.new (B.held bus.new) rises.new }
{
    cpu.note = Note::None;
    idle(cpu, rises, bus);
    idle(cpu, rises, bus);
    enter(cpu, rises, bus, Op::Nop, false, 0xFFFA);
}

/// One cycle before a sprite copy, two where the next cycle's number is odd.
#[inline]
fn wait<B: Bus>(cpu: &mut Cpu, rises: &mut Rises, bus: &mut B)
    requires { rises.old.line ≡ cpu.old.line }
    ensures { EndsAs
        (walk B.acts NoOp (waits (B.acts.odd (B.held bus.old))) (begun cpu.old (B.held bus.old) rises.old.edges))
        cpu.new (B.held bus.new) rises.new }
{
    let odd = bus.odd();
    idle(cpu, rises, bus);
    if odd {
        idle(cpu, rises, bus);
    }
}

/// Reads the 256 bytes of a page and writes each to $2004.
#[inline]
fn copy_page<B: Bus>(cpu: &mut Cpu, rises: &mut Rises, bus: &mut B, page: u8)
    requires { rises.old.line ≡ cpu.old.line }
    ensures { EndsAs (walk B.acts NoOp (copies page 256) (begun cpu.old (B.held bus.old) rises.old.edges))
        cpu.new (B.held bus.new) rises.new }
{
    for i in 0..256u16 {
        let byte = read(cpu, rises, bus, page as u16 * 256 + i);
        write(cpu, rises, bus, 0x2004, byte);
    }
}

/// A Late note is Due after the unit, whatever the unit does. So it may be at once, and no one has to remember it.
fn ripen(cpu: &mut Cpu)
    ensures { cpu.new ≡ with_note (ripe cpu.old.note) cpu.old }
{
    if cpu.note == Note::Late {
        cpu.note = Note::Due;
    }
}

/// The cycles of a sprite copy.
#[tactic(auto, unfolding(crate::specs::Unit::copied))]
fn wait_and_copy<B: Bus>(cpu: &mut Cpu, rises: &mut Rises, bus: &mut B, page: u8)
    requires { rises.old.line ≡ cpu.old.line }
    ensures { rises.old.edges ≡ no_rise → EndsAs (copied B.acts page cpu.old (B.held bus.old))
        cpu.new (B.held bus.new) rises.new }
{
    wait(cpu, rises, bus);
    copy_page(cpu, rises, bus, page);
}

/// A sprite copy.
#[cold]
#[inline(never)]
fn copy<B: Bus>(cpu: &mut Cpu, rises: &mut Rises, bus: &mut B, page: u8)
    requires { rises.old.line ≡ cpu.old.line }
    ensures { rises.old.edges ≡ no_rise → EndsAs (ripened (copied B.acts page cpu.old (B.held bus.old)))
        cpu.new (B.held bus.new) rises.new }
{
    wait_and_copy(cpu, rises, bus, page);
    ripen(cpu);
}

/// What comes first where there is a note: the entry of an NMI that is Due, in place of an instruction. Tells whether
/// it was. A Late note is ripe then.
#[cold]
#[inline(never)]
fn enter_if_due<B: Bus>(cpu: &mut Cpu, rises: &mut Rises, bus: &mut B) -> bool
    requires { rises.old.line ≡ cpu.old.line }
    ensures entered { result ≡ true → rises.old.edges ≡ no_rise
        → EndsAs (ripened (on_note cpu.old.note B.acts cpu.old (B.held bus.old))) cpu.new (B.held bus.new) rises.new }
    ensures not_due { result ≡ false → cpu.old.note ≢ Note.Due }
    ensures cpu { result ≡ false → cpu.new ≡ with_note (ripe cpu.old.note) cpu.old }
    ensures held { result ≡ false → B.held bus.new ≡ B.held bus.old }
    ensures rises { result ≡ false → rises.new ≡ rises.old }
{
    if cpu.note == Note::Due {
        enter_nmi(cpu, rises, bus);
        return true;
    }
    ripen(cpu);
    false
}

/// An NMI entry where it is Due, else an instruction.
#[inline(always)]
fn run_noted<B: Bus>(cpu: &mut Cpu, rises: &mut Rises, bus: &mut B)
    requires { rises.old.line ≡ cpu.old.line }
    ensures { rises.old.edges ≡ no_rise → EndsAs (ripened (on_note cpu.old.note B.acts cpu.old (B.held bus.old)))
        cpu.new (B.held bus.new) rises.new }
{
    if cpu.note != Note::None && enter_if_due(cpu, rises, bus) {
        return;
    }
    run_instruction(cpu, rises, bus);
}

/// A unit of a processor that is not jammed, but for what was seen of the NMI line.
#[tactic(auto, unfolding(crate::specs::Unit::active))]
#[inline(always)]
fn run_active<B: Bus>(cpu: &mut Cpu, rises: &mut Rises, bus: &mut B)
    requires { rises.old.line ≡ cpu.old.line }
    ensures { rises.old.edges ≡ no_rise → EndsAs (ripened (active B.acts cpu.old (B.held bus.old)))
        cpu.new (B.held bus.new) rises.new }
{
    match bus.take_dma() {
        Some(page) => copy(cpu, rises, bus, page),
        None => run_noted(cpu, rises, bus),
    }
}

/// Sets the note at a unit's end. Where the line did not rise, it stays as it is.
#[inline(always)]
fn set_note(cpu: &mut Cpu, rises: &Rises)
    ensures { cpu.new ≡ with_note (later_note cpu.old.note rises.now.edges) cpu.old }
{
    if rises.any() {
        cpu.note = next_note(cpu.note, rises);
    }
}

/// The note at a unit's end.
#[cold]
#[inline(never)]
fn next_note(now: Note, rises: &Rises) -> Note
    ensures { result ≡ later_note now rises.now.edges }
{
    if rises.before() {
        Note::Due
    } else if rises.last() && now != Note::Due {
        Note::Late
    } else {
        now
    }
}

/// Runs one unit: nothing where the processor is jammed, else a sprite copy where the bus asks for
/// one, else an NMI entry where one is due, else one instruction. Each access is one cycle.
#[tactic(auto, unfolding(crate::specs::Unit::unit_of))]
#[inline(always)]
pub fn unit<B: Bus>(cpu: &mut Cpu, bus: &mut B) -> UnitEnd
    ensures cpu { cpu.new ≡ (unit_of B.acts cpu.old (B.held bus.old)).cpu }
    ensures held { B.held bus.new ≡ (unit_of B.acts cpu.old (B.held bus.old)).held }
    ensures end { result ≡ (unit_of B.acts cpu.old (B.held bus.old)).end_ }
{
    if cpu.jammed {
        return UnitEnd::Jammed;
    }
    next_unit(cpu, bus)
}

/// Runs one unit of a processor that is not jammed, as `unit` does.
#[tactic(auto, unfolding(crate::specs::Unit::unit_of))]
#[inline(always)]
pub fn next_unit<B: Bus>(cpu: &mut Cpu, bus: &mut B) -> UnitEnd
    requires { cpu.old.jammed ≡ false }
    ensures cpu { cpu.new ≡ (unit_of B.acts cpu.old (B.held bus.old)).cpu }
    ensures held { B.held bus.new ≡ (unit_of B.acts cpu.old (B.held bus.old)).held }
    ensures end { result ≡ (unit_of B.acts cpu.old (B.held bus.old)).end_ }
{
    let mut rises = Rises::begun(cpu.line);
    run_active(cpu, &mut rises, bus);
    set_note(cpu, &rises);
    end_now(cpu)
}

#[inline]
fn end_now(cpu: &Cpu) -> UnitEnd
    ensures { result ≡ end_of cpu.now.jammed }
{
    if cpu.jammed {
        UnitEnd::Jammed
    } else {
        UnitEnd::Done
    }
}
