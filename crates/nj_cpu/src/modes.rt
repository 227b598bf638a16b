//! The addressing modes of reads, writes and changes of memory.

ghost use Rattle.std.specs.Prelude.{◌≡◌, [], ◌∷◌};
ghost use Rattle.nj_isa.specs.declared.modes.Kind.TheVariants.{Modify as ModifyKind};
ghost use Rattle.nj_isa.specs.Accesses.{InZero, InZeroBy, AtWord, AtWordBy, AtUncarried, AtPointer, AfterPointer, ToLow, ToHigh, ToPointer, ToData, Ignores, Stay, PointerUp, access, fetch as fetched, At, end_on, by_mode};
ghost use Rattle.nj_cpu.specs.Walk.{address_of, begun, walk, EndsAs};
ghost use Rattle.nj_cpu.specs.Leading.{leading, ending, early_by, early, given, index_by};

use crate::cycle::{fetch, idle, read, write};
use crate::effects::{changed, index_value, make_word, stored};
use crate::state::{Cpu, Rises};
use nj_isa::{Bus, Index, Kind, Mode, Op};

/// The address of a zero page operand.
#[inline(always)]
fn zero_page<B: Bus>(cpu: &mut Cpu, rises: &mut Rises, bus: &mut B, op: Op) -> u16
    requires { rises.old.line ≡ cpu.old.line }
    ensures ends { EndsAs (walk B.acts op (fetched ToLow ∷ []) (begun cpu.old (B.held bus.old) rises.old.edges))
        cpu.new (B.held bus.new) rises.new }
    ensures place { result ≡ address_of InZero (walk B.acts op (fetched ToLow ∷ [])
        (begun cpu.old (B.held bus.old) rises.old.edges)) }
{
    fetch(cpu, rises, bus) as u16
}

/// The address of a zero page operand with an index, which never leaves the page.
#[inline(always)]
fn zero_page_by<B: Bus>(cpu: &mut Cpu, rises: &mut Rises, bus: &mut B, op: Op, index: Index) -> u16
    requires { rises.old.line ≡ cpu.old.line }
    ensures ends { EndsAs (walk B.acts op (fetched ToLow ∷ access InZero Ignores Stay ∷ [])
        (begun cpu.old (B.held bus.old) rises.old.edges)) cpu.new (B.held bus.new) rises.new }
    ensures place { result ≡ address_of (InZeroBy index) (walk B.acts op
        (fetched ToLow ∷ access InZero Ignores Stay ∷ []) (begun cpu.old (B.held bus.old) rises.old.edges)) }
{
    let low = fetch(cpu, rises, bus);
    let _ = read(cpu, rises, bus, low as u16);
    low.wrapping_add(index_value(index, cpu)) as u16
}

/// The high and the low byte of an absolute operand.
#[inline(always)]
fn absolute_bytes<B: Bus>(cpu: &mut Cpu, rises: &mut Rises, bus: &mut B, op: Op) -> (u8, u8)
    requires { rises.old.line ≡ cpu.old.line }
    ensures ends { EndsAs (walk B.acts op (fetched ToLow ∷ fetched ToHigh ∷ [])
        (begun cpu.old (B.held bus.old) rises.old.edges)) cpu.new (B.held bus.new) rises.new }
    ensures high { result.0 ≡ (walk B.acts op (fetched ToLow ∷ fetched ToHigh ∷ [])
        (begun cpu.old (B.held bus.old) rises.old.edges)).high }
    ensures low { result.1 ≡ (walk B.acts op (fetched ToLow ∷ fetched ToHigh ∷ [])
        (begun cpu.old (B.held bus.old) rises.old.edges)).low }
{
    let low = fetch(cpu, rises, bus);
    let high = fetch(cpu, rises, bus);
    (high, low)
}

/// The high and the low byte at a pointer in zero page; the second place never leaves the page.
#[inline(always)]
fn bytes_at<B: Bus>(cpu: &mut Cpu, rises: &mut Rises, bus: &mut B, op: Op, pointer: u8) -> (u8, u8)
    requires { rises.old.line ≡ cpu.old.line }
    ensures ends { EndsAs (walk B.acts op (access AtPointer ToLow Stay ∷ access AfterPointer ToHigh Stay ∷ [])
        (record (begun cpu.old (B.held bus.old) rises.old.edges) { pointer = pointer })) cpu.new (B.held bus.new)
        rises.new }
    ensures high { result.0 ≡ (walk B.acts op (access AtPointer ToLow Stay ∷ access AfterPointer ToHigh Stay ∷ [])
        (record (begun cpu.old (B.held bus.old) rises.old.edges) { pointer = pointer })).high }
    ensures low { result.1 ≡ (walk B.acts op (access AtPointer ToLow Stay ∷ access AfterPointer ToHigh Stay ∷ [])
        (record (begun cpu.old (B.held bus.old) rises.old.edges) { pointer = pointer })).low }
{
    let low = read(cpu, rises, bus, pointer as u16);
    let high = read(cpu, rises, bus, pointer.wrapping_add(1) as u16);
    (high, low)
}

/// The high and the low byte behind a pointer in zero page.
#[inline(always)]
fn pointed_bytes<B: Bus>(cpu: &mut Cpu, rises: &mut Rises, bus: &mut B, op: Op) -> (u8, u8)
    requires { rises.old.line ≡ cpu.old.line }
    ensures ends { EndsAs (walk B.acts op (fetched ToPointer ∷ access AtPointer ToLow Stay
        ∷ access AfterPointer ToHigh Stay ∷ []) (begun cpu.old (B.held bus.old) rises.old.edges))
        cpu.new (B.held bus.new) rises.new }
    ensures high { result.0 ≡ (walk B.acts op (fetched ToPointer ∷ access AtPointer ToLow Stay
        ∷ access AfterPointer ToHigh Stay ∷ []) (begun cpu.old (B.held bus.old) rises.old.edges)).high }
    ensures low { result.1 ≡ (walk B.acts op (fetched ToPointer ∷ access AtPointer ToLow Stay
        ∷ access AfterPointer ToHigh Stay ∷ []) (begun cpu.old (B.held bus.old) rises.old.edges)).low }
{
    let pointer = fetch(cpu, rises, bus);
    bytes_at(cpu, rises, bus, op, pointer)
}

/// The address of an absolute operand.
#[inline(always)]
fn absolute<B: Bus>(cpu: &mut Cpu, rises: &mut Rises, bus: &mut B, op: Op) -> u16
    requires { rises.old.line ≡ cpu.old.line }
    ensures ends { EndsAs (walk B.acts op (fetched ToLow ∷ fetched ToHigh ∷ [])
        (begun cpu.old (B.held bus.old) rises.old.edges)) cpu.new (B.held bus.new) rises.new }
    ensures place { result ≡ address_of AtWord (walk B.acts op (fetched ToLow ∷ fetched ToHigh ∷ [])
        (begun cpu.old (B.held bus.old) rises.old.edges)) }
{
    let (high, low) = absolute_bytes(cpu, rises, bus, op);
    make_word(high, low)
}

/// The address behind a pointer in zero page, X added to the pointer first.
#[inline(never)]
fn indirect_by_x<B: Bus>(cpu: &mut Cpu, rises: &mut Rises, bus: &mut B, op: Op) -> u16
    requires { rises.old.line ≡ cpu.old.line }
    ensures ends { EndsAs (walk B.acts op (fetched ToPointer ∷ access AtPointer Ignores PointerUp
        ∷ access AtPointer ToLow Stay ∷ access AfterPointer ToHigh Stay ∷ [])
        (begun cpu.old (B.held bus.old) rises.old.edges)) cpu.new (B.held bus.new) rises.new }
    ensures place { result ≡ address_of AtWord (walk B.acts op (fetched ToPointer ∷ access AtPointer Ignores PointerUp
        ∷ access AtPointer ToLow Stay ∷ access AfterPointer ToHigh Stay ∷ [])
        (begun cpu.old (B.held bus.old) rises.old.edges)) }
{
    let pointer = fetch(cpu, rises, bus);
    let _ = read(cpu, rises, bus, pointer as u16);
    let (high, low) = bytes_at(cpu, rises, bus, op, pointer.wrapping_add(cpu.x));
    make_word(high, low)
}

/// Reads at a word with an index without the carry into the high byte. Answers the whole address, and the byte where
/// no carry is left out and nothing but a read was asked for.
#[inline(always)]
fn carried<B: Bus>(
    cpu: &mut Cpu,
    rises: &mut Rises,
    bus: &mut B,
    op: Op,
    kind: Kind,
    index: Index,
    high: u8,
    low: u8,
) -> (u16, Option<u8>)
    requires { rises.old.line ≡ cpu.old.line }
    ensures ends { EndsAs (walk B.acts op (access (AtUncarried index) ToData Stay ∷ [])
        (record (begun cpu.old (B.held bus.old) rises.old.edges) { low = low; high = high }))
        cpu.new (B.held bus.new) rises.new }
    ensures place { result.0 ≡ address_of (AtWordBy index) (walk B.acts op (access (AtUncarried index) ToData Stay ∷ [])
        (record (begun cpu.old (B.held bus.old) rises.old.edges) { low = low; high = high })) }
    ensures early { result.1 ≡ early_by index kind (walk B.acts op (access (AtUncarried index) ToData Stay ∷ [])
        (record (begun cpu.old (B.held bus.old) rises.old.edges) { low = low; high = high })) }
{
    let offset = index_value(index, cpu);
    let byte = read(cpu, rises, bus, make_word(high, low.wrapping_add(offset)));
    let at = make_word(high, low).wrapping_add(offset as u16);
    match kind {
        Kind::Read => {
            if low as u16 + offset as u16 >= 256 {
                (at, None)
            } else {
                (at, Some(byte))
            }
        }
        Kind::Write | Kind::Modify => (at, None),
    }
}

/// The index of a mode that has one.
#[inline(always)]
fn mode_index(mode: Mode) -> Index
    ensures { result ≡ index_by mode }
{
    match mode {
        Mode::ZpX | Mode::AbsX => Index::X,
        _ => Index::Y,
    }
}

/// The accesses that lead to a mode's address. Answers the address, and the byte where it is known already.
#[inline(always)]
fn lead<B: Bus>(
    cpu: &mut Cpu,
    rises: &mut Rises,
    bus: &mut B,
    op: Op,
    mode: Mode,
    kind: Kind,
) -> (u16, Option<u8>)
    requires { rises.old.line ≡ cpu.old.line }
    ensures ends { EndsAs (walk B.acts op (leading mode kind) (begun cpu.old (B.held bus.old) rises.old.edges))
        cpu.new (B.held bus.new) rises.new }
    ensures place { result.0 ≡ address_of (ending mode) (walk B.acts op (leading mode kind)
        (begun cpu.old (B.held bus.old) rises.old.edges)) }
    ensures early { result.1 ≡ early mode kind (walk B.acts op (leading mode kind)
        (begun cpu.old (B.held bus.old) rises.old.edges)) }
{
    match mode {
        Mode::Implied | Mode::Accumulator => {
            idle(cpu, rises, bus);
            (0, Some(0))
        }
        Mode::Immediate => match kind {
            Kind::Read => (0, Some(fetch(cpu, rises, bus))),
            Kind::Write | Kind::Modify => (0, Some(0)),
        },
        Mode::Zp => (zero_page(cpu, rises, bus, op), None),
        Mode::ZpX | Mode::ZpY => (zero_page_by(cpu, rises, bus, op, mode_index(mode)), None),
        Mode::Abs => (absolute(cpu, rises, bus, op), None),
        Mode::AbsX | Mode::AbsY => {
            let (high, low) = absolute_bytes(cpu, rises, bus, op);
            carried(cpu, rises, bus, op, kind, mode_index(mode), high, low)
        }
        Mode::IndX => (indirect_by_x(cpu, rises, bus, op), None),
        Mode::IndY => {
            let (high, low) = pointed_bytes(cpu, rises, bus, op);
            carried(cpu, rises, bus, op, kind, Index::Y, high, low)
        }
        Mode::Indirect | Mode::Relative => (0, Some(0)),
    }
}

/// Reads a byte, writes it back, and writes what the operation makes of it. Answers the byte read.
#[inline(always)]
fn change_at<B: Bus>(cpu: &mut Cpu, rises: &mut Rises, bus: &mut B, op: Op, at: u16) -> u8
    requires { rises.old.line ≡ cpu.old.line }
    ensures ends { EndsAs (walk B.acts op (end_on (At at) ModifyKind) (begun cpu.old (B.held bus.old) rises.old.edges))
        cpu.new (B.held bus.new) rises.new }
    ensures byte { result ≡ (walk B.acts op (end_on (At at) ModifyKind)
        (begun cpu.old (B.held bus.old) rises.old.edges)).data_ }
{
    let byte = read(cpu, rises, bus, at);
    write(cpu, rises, bus, at, byte);
    let value = changed(op, cpu.flags.c, byte);
    write(cpu, rises, bus, at, value);
    byte
}

/// The end of an instruction at its address: a read, a write, or a read and two writes. Answers the byte read, 0 where
/// none is.
#[inline(always)]
fn end_at<B: Bus>(cpu: &mut Cpu, rises: &mut Rises, bus: &mut B, op: Op, kind: Kind, at: u16) -> u8
    requires { rises.old.line ≡ cpu.old.line }
    ensures ends { EndsAs (walk B.acts op (end_on (At at) kind) (begun cpu.old (B.held bus.old) rises.old.edges))
        cpu.new (B.held bus.new) rises.new }
    ensures byte { result ≡ given kind (walk B.acts op (end_on (At at) kind)
        (begun cpu.old (B.held bus.old) rises.old.edges)).data_ }
{
    match kind {
        Kind::Read => read(cpu, rises, bus, at),
        Kind::Write => {
            let value = stored(op, cpu);
            write(cpu, rises, bus, at, value);
            0
        }
        Kind::Modify => change_at(cpu, rises, bus, op, at),
    }
}

/// The accesses behind the opcode's of an operation that goes by its mode. Answers the byte that the mode gives, 0
/// where it gives none.
#[inline(always)]
pub(crate) fn byte_by<B: Bus>(
    cpu: &mut Cpu,
    rises: &mut Rises,
    bus: &mut B,
    op: Op,
    mode: Mode,
    kind: Kind,
) -> u8
    requires { rises.old.line ≡ cpu.old.line }
    ensures ends { EndsAs (walk B.acts op (by_mode mode kind) (begun cpu.old (B.held bus.old) rises.old.edges))
        cpu.new (B.held bus.new) rises.new }
    ensures byte { result ≡ given kind (walk B.acts op (by_mode mode kind)
        (begun cpu.old (B.held bus.old) rises.old.edges)).data_ }
{
    let (at, early) = lead(cpu, rises, bus, op, mode, kind);
    match early {
        Some(byte) => byte,
        None => end_at(cpu, rises, bus, op, kind, at),
    }
}
