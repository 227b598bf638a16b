//! The classes of instructions, from behind the opcode's access on.

ghost use Rattle.std.specs.Prelude.{◌≡◌, ◌+◌, ◌%◌, ◌<◌};
ghost use Rattle.nj_isa.specs.declared.classes.Class.TheVariants.{ByMode as ByModeClass, Branches as BranchClass, Jumps as JumpClass, JumpsIndirect as JumpIndirectClass, Calls as CallClass, Returns as ReturnClass, ReturnsFromInterrupt as InterruptReturnClass, Breaks as BreakClass, PushesA as PushAClass, PushesFlags as PushFlagsClass, PullsA as PullAClass, PullsFlags as PullFlagsClass};
ghost use Rattle.nj_isa.specs.Accesses.{enter as entering};
ghost use Rattle.nj_cpu.specs.Walk.{begun, walk, EndsAs};
ghost use Rattle.nj_cpu.specs.Unit.{rest_by, rest_of};

use crate::cycle::{fetch, idle, peek, pull, push, read};
use crate::effects::{branch_target, finish, load_a, make_word, stored, takes};
use crate::modes::byte_by;
use crate::state::{Cpu, Rises};
use nj_alu::{pack_flags, unpack_flags};
use nj_isa::{Bus, Class, Kind, Op, OpRow, op_class};

#[inline]
fn step_over(cpu: &mut Cpu)
    ensures { cpu.new ≡ record cpu.old { pc = (cpu.old.pc + 1) % 65536 } }
{
    cpu.pc = cpu.pc.wrapping_add(1);
}

/// Pushes PC and the flags, and goes on at a vector with I set.
#[inline]
pub(crate) fn enter<B: Bus>(
    cpu: &mut Cpu,
    rises: &mut Rises,
    bus: &mut B,
    op: Op,
    brk: bool,
    vector: u16,
)
    requires level { rises.old.line ≡ cpu.old.line }
    requires vector { vector < 65535 }
    ensures { EndsAs (walk B.acts op (entering brk vector) (begun cpu.old (B.held bus.old) rises.old.edges))
        cpu.new (B.held bus.new) rises.new }
{
    push(cpu, rises, bus, (cpu.pc / 256) as u8);
    push(cpu, rises, bus, (cpu.pc % 256) as u8);
    push(cpu, rises, bus, pack_flags(cpu.flags, brk));
    let low = read(cpu, rises, bus, vector);
    cpu.flags.i = true;
    let high = read(cpu, rises, bus, vector + 1);
    cpu.pc = make_word(high, low);
}

/// An instruction that goes by its mode.
#[tactic(auto, unfolding(crate::specs::Unit::rest_by))]
#[inline(always)]
fn run_by_mode<B: Bus>(cpu: &mut Cpu, rises: &mut Rises, bus: &mut B, row: OpRow)
    requires { rises.old.line ≡ cpu.old.line }
    ensures { EndsAs (rest_by B.acts ByModeClass row (begun cpu.old (B.held bus.old) rises.old.edges))
        cpu.new (B.held bus.new) rises.new }
{
    step_over(cpu);
    let byte = byte_by(cpu, rises, bus, row.op, row.mode, row.kind);
    match row.kind {
        Kind::Read | Kind::Modify => finish(cpu, row.op, row.mode, byte),
        Kind::Write => {}
    }
}

/// A branch: one cycle more where it is taken, two where it goes to another page.
#[tactic(auto, unfolding(crate::specs::Unit::rest_by))]
#[inline(always)]
fn branch<B: Bus>(cpu: &mut Cpu, rises: &mut Rises, bus: &mut B, row: OpRow)
    requires { rises.old.line ≡ cpu.old.line }
    ensures { EndsAs (rest_by B.acts BranchClass row (begun cpu.old (B.held bus.old) rises.old.edges))
        cpu.new (B.held bus.new) rises.new }
{
    step_over(cpu);
    let offset = fetch(cpu, rises, bus);
    if takes(row.op, cpu.flags) {
        let target = branch_target(cpu.pc, offset);
        idle(cpu, rises, bus);
        if target / 256 != cpu.pc / 256 {
            let _ = read(
                cpu,
                rises,
                bus,
                make_word((cpu.pc / 256) as u8, (target % 256) as u8),
            );
        }
        cpu.pc = target;
    }
}

/// JMP to an absolute address.
#[tactic(auto, unfolding(crate::specs::Unit::rest_by))]
#[inline(always)]
fn jump<B: Bus>(cpu: &mut Cpu, rises: &mut Rises, bus: &mut B, row: OpRow)
    requires { rises.old.line ≡ cpu.old.line }
    ensures { EndsAs (rest_by B.acts JumpClass row (begun cpu.old (B.held bus.old) rises.old.edges))
        cpu.new (B.held bus.new) rises.new }
{
    step_over(cpu);
    let low = fetch(cpu, rises, bus);
    let high = read(cpu, rises, bus, cpu.pc);
    cpu.pc = make_word(high, low);
}

/// JMP through a pointer, which never leaves its page.
#[tactic(auto, unfolding(crate::specs::Unit::rest_by))]
#[inline(never)]
fn jump_indirect<B: Bus>(cpu: &mut Cpu, rises: &mut Rises, bus: &mut B, row: OpRow)
    requires { rises.old.line ≡ cpu.old.line }
    ensures { EndsAs (rest_by B.acts JumpIndirectClass row (begun cpu.old (B.held bus.old) rises.old.edges))
        cpu.new (B.held bus.new) rises.new }
{
    step_over(cpu);
    let pointer = fetch(cpu, rises, bus);
    let page = read(cpu, rises, bus, cpu.pc);
    let low = read(cpu, rises, bus, make_word(page, pointer));
    let high = read(cpu, rises, bus, make_word(page, pointer.wrapping_add(1)));
    cpu.pc = make_word(high, low);
}

/// JSR: PC is pushed while it stands at the operand's second byte.
#[tactic(auto, unfolding(crate::specs::Unit::rest_by))]
#[inline(always)]
fn call<B: Bus>(cpu: &mut Cpu, rises: &mut Rises, bus: &mut B, row: OpRow)
    requires { rises.old.line ≡ cpu.old.line }
    ensures { EndsAs (rest_by B.acts CallClass row (begun cpu.old (B.held bus.old) rises.old.edges))
        cpu.new (B.held bus.new) rises.new }
{
    step_over(cpu);
    let low = fetch(cpu, rises, bus);
    let _ = peek(cpu, rises, bus);
    push(cpu, rises, bus, (cpu.pc / 256) as u8);
    push(cpu, rises, bus, (cpu.pc % 256) as u8);
    let high = read(cpu, rises, bus, cpu.pc);
    cpu.pc = make_word(high, low);
}

/// RTS: behind the address that was pushed.
#[tactic(auto, unfolding(crate::specs::Unit::rest_by))]
#[inline(always)]
fn return_from_call<B: Bus>(cpu: &mut Cpu, rises: &mut Rises, bus: &mut B, row: OpRow)
    requires { rises.old.line ≡ cpu.old.line }
    ensures { EndsAs (rest_by B.acts ReturnClass row (begun cpu.old (B.held bus.old) rises.old.edges))
        cpu.new (B.held bus.new) rises.new }
{
    step_over(cpu);
    idle(cpu, rises, bus);
    let _ = pull(cpu, rises, bus);
    let low = pull(cpu, rises, bus);
    let high = peek(cpu, rises, bus);
    let _ = read(cpu, rises, bus, make_word(high, low));
    cpu.pc = make_word(high, low).wrapping_add(1);
}

/// RTI: the flags and PC that were pushed.
#[tactic(auto, unfolding(crate::specs::Unit::rest_by))]
#[inline(never)]
fn return_from_interrupt<B: Bus>(cpu: &mut Cpu, rises: &mut Rises, bus: &mut B, row: OpRow)
    requires { rises.old.line ≡ cpu.old.line }
    ensures { EndsAs (rest_by B.acts InterruptReturnClass row (begun cpu.old (B.held bus.old) rises.old.edges))
        cpu.new (B.held bus.new) rises.new }
{
    step_over(cpu);
    idle(cpu, rises, bus);
    let _ = pull(cpu, rises, bus);
    let flags = pull(cpu, rises, bus);
    cpu.flags = unpack_flags(flags);
    let low = pull(cpu, rises, bus);
    let high = peek(cpu, rises, bus);
    cpu.pc = make_word(high, low);
}

/// BRK: enters at $FFFE, with the byte behind the opcode skipped.
#[tactic(auto, unfolding(crate::specs::Unit::rest_by))]
#[inline(never)]
fn break_in<B: Bus>(cpu: &mut Cpu, rises: &mut Rises, bus: &mut B, row: OpRow)
    requires { rises.old.line ≡ cpu.old.line }
    ensures { EndsAs (rest_by B.acts BreakClass row (begun cpu.old (B.held bus.old) rises.old.edges))
        cpu.new (B.held bus.new) rises.new }
{
    step_over(cpu);
    let _ = fetch(cpu, rises, bus);
    enter(cpu, rises, bus, row.op, true, 0xFFFE);
}

/// PHA.
#[tactic(auto, unfolding(crate::specs::Unit::rest_by))]
#[inline(never)]
fn push_a<B: Bus>(cpu: &mut Cpu, rises: &mut Rises, bus: &mut B, row: OpRow)
    requires { rises.old.line ≡ cpu.old.line }
    ensures { EndsAs (rest_by B.acts PushAClass row (begun cpu.old (B.held bus.old) rises.old.edges))
        cpu.new (B.held bus.new) rises.new }
{
    step_over(cpu);
    idle(cpu, rises, bus);
    let value = stored(row.op, cpu);
    push(cpu, rises, bus, value);
}

/// PHP.
#[tactic(auto, unfolding(crate::specs::Unit::rest_by))]
#[inline(never)]
fn push_flags<B: Bus>(cpu: &mut Cpu, rises: &mut Rises, bus: &mut B, row: OpRow)
    requires { rises.old.line ≡ cpu.old.line }
    ensures { EndsAs (rest_by B.acts PushFlagsClass row (begun cpu.old (B.held bus.old) rises.old.edges))
        cpu.new (B.held bus.new) rises.new }
{
    step_over(cpu);
    idle(cpu, rises, bus);
    push(cpu, rises, bus, pack_flags(cpu.flags, true));
}

/// PLA.
#[tactic(auto, unfolding(crate::specs::Unit::rest_by))]
#[inline(never)]
fn pull_a<B: Bus>(cpu: &mut Cpu, rises: &mut Rises, bus: &mut B, row: OpRow)
    requires { rises.old.line ≡ cpu.old.line }
    ensures { EndsAs (rest_by B.acts PullAClass row (begun cpu.old (B.held bus.old) rises.old.edges))
        cpu.new (B.held bus.new) rises.new }
{
    step_over(cpu);
    idle(cpu, rises, bus);
    let _ = pull(cpu, rises, bus);
    let value = peek(cpu, rises, bus);
    load_a(cpu, value);
}

/// PLP.
#[tactic(auto, unfolding(crate::specs::Unit::rest_by))]
#[inline(never)]
fn pull_flags<B: Bus>(cpu: &mut Cpu, rises: &mut Rises, bus: &mut B, row: OpRow)
    requires { rises.old.line ≡ cpu.old.line }
    ensures { EndsAs (rest_by B.acts PullFlagsClass row (begun cpu.old (B.held bus.old) rises.old.edges))
        cpu.new (B.held bus.new) rises.new }
{
    step_over(cpu);
    idle(cpu, rises, bus);
    let _ = pull(cpu, rises, bus);
    let flags = peek(cpu, rises, bus);
    cpu.flags = unpack_flags(flags);
}

/// The rest of an instruction by its class.
#[tactic(auto, unfolding(crate::specs::Unit::rest_by))]
#[inline(always)]
fn run_class<B: Bus>(cpu: &mut Cpu, rises: &mut Rises, bus: &mut B, class: Class, row: OpRow)
    requires { rises.old.line ≡ cpu.old.line }
    ensures { EndsAs (rest_by B.acts class row (begun cpu.old (B.held bus.old) rises.old.edges))
        cpu.new (B.held bus.new) rises.new }
{
    match class {
        Class::ByMode => run_by_mode(cpu, rises, bus, row),
        Class::Branches => branch(cpu, rises, bus, row),
        Class::Jumps => jump(cpu, rises, bus, row),
        Class::JumpsIndirect => jump_indirect(cpu, rises, bus, row),
        Class::Calls => call(cpu, rises, bus, row),
        Class::Returns => return_from_call(cpu, rises, bus, row),
        Class::ReturnsFromInterrupt => return_from_interrupt(cpu, rises, bus, row),
        Class::Breaks => break_in(cpu, rises, bus, row),
        Class::PushesA => push_a(cpu, rises, bus, row),
        Class::PushesFlags => push_flags(cpu, rises, bus, row),
        Class::PullsA => pull_a(cpu, rises, bus, row),
        Class::PullsFlags => pull_flags(cpu, rises, bus, row),
        Class::Jams => cpu.jammed = true,
    }
}

/// The rest of an instruction by its row.
#[tactic(auto, unfolding(crate::specs::Unit::rest_of))]
#[inline(always)]
pub(crate) fn run_row<B: Bus>(cpu: &mut Cpu, rises: &mut Rises, bus: &mut B, row: OpRow)
    requires { rises.old.line ≡ cpu.old.line }
    ensures { EndsAs (rest_of B.acts row (begun cpu.old (B.held bus.old) rises.old.edges))
        cpu.new (B.held bus.new) rises.new }
{
    run_class(cpu, rises, bus, op_class(row.op, row.mode), row);
}
