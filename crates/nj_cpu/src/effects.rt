//! What an operation computes.

ghost use Rattle.std.specs.Prelude.{◌≡◌, ◌+◌, ◌*◌};
ghost use Rattle.nj_alu.specs.Bits.{is_negative};
ghost use Rattle.nj_isa.specs.declared.operations.Op.TheVariants.{Asl as AslOp, Lsr as LsrOp, Rol as RolOp, Ror as RorOp, Inc as IncOp, Dec as DecOp};
ghost use Rattle.nj_cpu.specs.Effects.{stored_by, changed_by, is_taken, with_result, in_a, in_x, in_y, with_sum, compared, with_changed, shifted, tested, joined, done};
ghost use Rattle.nj_cpu.specs.Walk.{word, index_of, target_of};

use crate::state::Cpu;
use nj_alu::{Flags, Flags3, Shifted, Sum, adc, arr, asl, compare, lsr, rol, ror, sbc};
use nj_isa::{Index, Mode, Op};

/// The word of two bytes.
#[inline]
pub(crate) fn make_word(high: u8, low: u8) -> u16
    ensures { result ≡ word high low }
{
    high as u16 * 256 + low as u16
}

/// The value of an index register.
#[inline(always)]
pub(crate) fn index_value(index: Index, cpu: &Cpu) -> u8
    ensures { result ≡ index_of index cpu.now }
{
    match index {
        Index::X => cpu.x,
        Index::Y => cpu.y,
    }
}

/// Where a branch goes.
#[inline]
pub(crate) fn branch_target(pc: u16, offset: u8) -> u16
    ensures { result ≡ target_of pc offset }
{
    if offset >= 128 {
        pc.wrapping_add(65280 + offset as u16)
    } else {
        pc.wrapping_add(offset as u16)
    }
}

/// The byte that a store or a push of A puts.
#[tactic(auto, unfolding(crate::specs::Effects::stored_by))]
#[inline(always)]
pub(crate) fn stored(op: Op, cpu: &Cpu) -> u8
    ensures { result ≡ stored_by op cpu.now.a cpu.now.x cpu.now.y }
{
    match op {
        Op::Sta | Op::Pha => cpu.a,
        Op::Stx => cpu.x,
        Op::Sty => cpu.y,
        Op::Sax => cpu.a & cpu.x,
        _ => 0,
    }
}

/// The byte that an operation on memory makes of a byte.
#[tactic(auto, unfolding(crate::specs::Effects::changed_by))]
#[inline(always)]
pub(crate) fn changed(op: Op, carry: bool, value: u8) -> u8
    ensures { result ≡ changed_by op carry value }
{
    match op {
        Op::Asl | Op::Slo => asl(value).value,
        Op::Lsr | Op::Sre => lsr(value).value,
        Op::Rol | Op::Rla => rol(value, carry).value,
        Op::Ror | Op::Rra => ror(value, carry).value,
        Op::Inc | Op::Isc => value.wrapping_add(1),
        Op::Dec | Op::Dcp => value.wrapping_sub(1),
        _ => value,
    }
}

/// Whether a branch is taken.
#[tactic(auto, unfolding(crate::specs::Effects::is_taken))]
#[inline(always)]
pub(crate) fn takes(op: Op, flags: Flags) -> bool
    ensures { result ≡ is_taken op flags }
{
    match op {
        Op::Bpl => !flags.n,
        Op::Bmi => flags.n,
        Op::Bvc => !flags.v,
        Op::Bvs => flags.v,
        Op::Bcc => !flags.c,
        Op::Bcs => flags.c,
        Op::Bne => !flags.z,
        Op::Beq => flags.z,
        _ => false,
    }
}

#[inline]
fn set_result(flags: &mut Flags, value: u8)
    ensures { flags.new ≡ with_result value flags.old }
{
    flags.z = value == 0;
    flags.n = value >= 128;
}

#[inline]
pub(crate) fn load_a(cpu: &mut Cpu, value: u8)
    ensures { cpu.new ≡ in_a value cpu.old }
{
    cpu.a = value;
    set_result(&mut cpu.flags, value);
}

#[inline]
fn load_x(cpu: &mut Cpu, value: u8)
    ensures { cpu.new ≡ in_x value cpu.old }
{
    cpu.x = value;
    set_result(&mut cpu.flags, value);
}

#[inline]
fn load_y(cpu: &mut Cpu, value: u8)
    ensures { cpu.new ≡ in_y value cpu.old }
{
    cpu.y = value;
    set_result(&mut cpu.flags, value);
}

#[inline]
fn load_sum(cpu: &mut Cpu, sum: Sum)
    ensures { cpu.new ≡ with_sum sum cpu.old }
{
    load_a(cpu, sum.value);
    cpu.flags.c = sum.carry;
    cpu.flags.v = sum.overflow;
}

#[inline]
fn set_comparison(cpu: &mut Cpu, comparison: Flags3)
    ensures { cpu.new ≡ compared comparison cpu.old }
{
    cpu.flags.c = comparison.carry;
    cpu.flags.z = comparison.zero;
    cpu.flags.n = comparison.negative;
}

// The flags of a byte that a shift made.
#[inline(always)]
fn set_shifted(cpu: &mut Cpu, made: Shifted)
    ensures { cpu.new ≡ record cpu.old { flags = record (with_result made.value cpu.old.flags) { c = made.carry } } }
{
    set_result(&mut cpu.flags, made.value);
    cpu.flags.c = made.carry;
}

// The same, and the byte is A.
#[inline(always)]
fn put_in_a(cpu: &mut Cpu, made: Shifted)
    ensures { cpu.new ≡ record cpu.old {
      flags = record (with_result made.value cpu.old.flags) { c = made.carry };
      a = made.value;
    } }
{
    set_shifted(cpu, made);
    cpu.a = made.value;
}

/// ASL, of A or of a byte in memory.
#[tactic(auto, unfolding(crate::specs::Effects::changed_by, crate::specs::Effects::carry_by))]
#[inline(always)]
fn shift_left(cpu: &mut Cpu, mode: Mode, value: u8)
    ensures { cpu.new ≡ shifted AslOp mode value cpu.old }
{
    match mode {
        Mode::Accumulator => put_in_a(cpu, asl(cpu.a)),
        _ => set_shifted(cpu, asl(value)),
    }
}

/// LSR.
#[tactic(auto, unfolding(crate::specs::Effects::changed_by, crate::specs::Effects::carry_by))]
#[inline(always)]
fn shift_right(cpu: &mut Cpu, mode: Mode, value: u8)
    ensures { cpu.new ≡ shifted LsrOp mode value cpu.old }
{
    match mode {
        Mode::Accumulator => put_in_a(cpu, lsr(cpu.a)),
        _ => set_shifted(cpu, lsr(value)),
    }
}

/// ROL.
#[tactic(auto, unfolding(crate::specs::Effects::changed_by, crate::specs::Effects::carry_by))]
#[inline(always)]
fn rotate_left(cpu: &mut Cpu, mode: Mode, value: u8)
    ensures { cpu.new ≡ shifted RolOp mode value cpu.old }
{
    match mode {
        Mode::Accumulator => put_in_a(cpu, rol(cpu.a, cpu.flags.c)),
        _ => set_shifted(cpu, rol(value, cpu.flags.c)),
    }
}

/// ROR.
#[tactic(auto, unfolding(crate::specs::Effects::changed_by, crate::specs::Effects::carry_by))]
#[inline(always)]
fn rotate_right(cpu: &mut Cpu, mode: Mode, value: u8)
    ensures { cpu.new ≡ shifted RorOp mode value cpu.old }
{
    match mode {
        Mode::Accumulator => put_in_a(cpu, ror(cpu.a, cpu.flags.c)),
        _ => set_shifted(cpu, ror(value, cpu.flags.c)),
    }
}

/// INC: the flags of the byte after it.
#[tactic(auto, unfolding(crate::specs::Effects::changed_by, crate::specs::Effects::carry_by))]
#[inline(always)]
fn count_up(cpu: &mut Cpu, value: u8)
    ensures { cpu.new ≡ with_changed IncOp value cpu.old }
{
    set_result(&mut cpu.flags, value.wrapping_add(1));
}

/// DEC: the flags of the byte after it.
#[tactic(auto, unfolding(crate::specs::Effects::changed_by, crate::specs::Effects::carry_by))]
#[inline(always)]
fn count_down(cpu: &mut Cpu, value: u8)
    ensures { cpu.new ≡ with_changed DecOp value cpu.old }
{
    set_result(&mut cpu.flags, value.wrapping_sub(1));
}

#[inline]
fn test_bits(cpu: &mut Cpu, value: u8)
    ensures { cpu.new ≡ tested value cpu.old }
{
    cpu.flags.z = cpu.a & value == 0;
    cpu.flags.n = value >= 128;
    cpu.flags.v = value / 64 % 2 == 1;
}

/// A change of memory and then an operation on A and the byte that it made, or two operations on
/// registers: what unofficial opcodes do beside the manual's operations.
#[tactic(auto, unfolding(crate::specs::Effects::joined, crate::specs::Effects::changed_by, crate::specs::Effects::carry_by))]
#[cold]
#[inline(never)]
fn finish_joined(cpu: &mut Cpu, op: Op, value: u8)
    ensures { cpu.new ≡ joined op value cpu.old }
{
    match op {
        Op::Slo => {
            let made = asl(value);
            set_shifted(cpu, made);
            load_a(cpu, cpu.a | made.value);
        }
        Op::Rla => {
            let made = rol(value, cpu.flags.c);
            set_shifted(cpu, made);
            load_a(cpu, cpu.a & made.value);
        }
        Op::Sre => {
            let made = lsr(value);
            set_shifted(cpu, made);
            load_a(cpu, cpu.a ^ made.value);
        }
        Op::Rra => {
            let made = ror(value, cpu.flags.c);
            set_shifted(cpu, made);
            load_sum(cpu, adc(cpu.a, made.value, cpu.flags.c));
        }
        Op::Dcp => {
            count_down(cpu, value);
            set_comparison(cpu, compare(cpu.a, value.wrapping_sub(1)));
        }
        Op::Isc => {
            count_up(cpu, value);
            load_sum(cpu, sbc(cpu.a, value.wrapping_add(1), cpu.flags.c));
        }
        Op::Lax => {
            load_a(cpu, value);
            cpu.x = value;
        }
        Op::Anc => {
            load_a(cpu, cpu.a & value);
            cpu.flags.c = cpu.a >= 128;
        }
        Op::Alr => {
            load_a(cpu, cpu.a & value);
            put_in_a(cpu, lsr(cpu.a));
        }
        Op::Arr => load_sum(cpu, arr(cpu.a, value, cpu.flags.c)),
        Op::Sbx => {
            let both = cpu.a & cpu.x;
            set_comparison(cpu, compare(both, value));
            cpu.x = both.wrapping_sub(value);
        }
        _ => {}
    }
}

/// Does an operation on the byte that its mode gave.
#[tactic(auto, unfolding(crate::specs::Effects::done))]
#[inline(always)]
pub(crate) fn finish(cpu: &mut Cpu, op: Op, mode: Mode, value: u8)
    ensures { cpu.new ≡ done op mode value cpu.old }
{
    match op {
        Op::Lda => load_a(cpu, value),
        Op::Ldx => load_x(cpu, value),
        Op::Ldy => load_y(cpu, value),
        Op::Tax => load_x(cpu, cpu.a),
        Op::Tay => load_y(cpu, cpu.a),
        Op::Tsx => load_x(cpu, cpu.s),
        Op::Txa => load_a(cpu, cpu.x),
        Op::Tya => load_a(cpu, cpu.y),
        Op::Txs => cpu.s = cpu.x,
        Op::Inx => load_x(cpu, cpu.x.wrapping_add(1)),
        Op::Iny => load_y(cpu, cpu.y.wrapping_add(1)),
        Op::Dex => load_x(cpu, cpu.x.wrapping_sub(1)),
        Op::Dey => load_y(cpu, cpu.y.wrapping_sub(1)),
        Op::And => load_a(cpu, cpu.a & value),
        Op::Ora => load_a(cpu, cpu.a | value),
        Op::Eor => load_a(cpu, cpu.a ^ value),
        Op::Adc => load_sum(cpu, adc(cpu.a, value, cpu.flags.c)),
        Op::Sbc => load_sum(cpu, sbc(cpu.a, value, cpu.flags.c)),
        Op::Cmp => set_comparison(cpu, compare(cpu.a, value)),
        Op::Cpx => set_comparison(cpu, compare(cpu.x, value)),
        Op::Cpy => set_comparison(cpu, compare(cpu.y, value)),
        Op::Bit => test_bits(cpu, value),
        Op::Asl => shift_left(cpu, mode, value),
        Op::Lsr => shift_right(cpu, mode, value),
        Op::Rol => rotate_left(cpu, mode, value),
        Op::Ror => rotate_right(cpu, mode, value),
        Op::Inc => count_up(cpu, value),
        Op::Dec => count_down(cpu, value),
        Op::Clc => cpu.flags.c = false,
        Op::Sec => cpu.flags.c = true,
        Op::Cli => cpu.flags.i = false,
        Op::Sei => cpu.flags.i = true,
        Op::Clv => cpu.flags.v = false,
        Op::Cld => cpu.flags.d = false,
        Op::Sed => cpu.flags.d = true,
        Op::Nop => {}
        _ => finish_joined(cpu, op, value),
    }
}
