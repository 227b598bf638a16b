//! One turn of a loop, tried on the dry bus.

ghost use Rattle.std.specs.Prelude.{◌≡◌, ◌<◌, ◌≤◌, true};
ghost use Rattle.nj_turns.specs.Dry.{begun};
ghost use Rattle.nj_turns.specs.Turn.{IsTurn};

use crate::dry::DryBus;
use nj_banked::Banked;
use nj_cpu::{Cpu, Flags};

// The units that are tried at most.
const MOST_UNITS: u32 = 16;

// The two sets of flags are the same.
fn has_same_flags(one: Flags, other: Flags) -> bool
    ensures { result ≡ true → one ≡ other }
{
    if one.n != other.n || one.v != other.v || one.d != other.d {
        return false;
    }
    if one.i != other.i || one.z != other.z {
        return false;
    }
    one.c == other.c
}

// The two processors are the same in all that they hold.
fn is_same(one: &Cpu, other: &Cpu) -> bool
    ensures { result ≡ true → one.now ≡ other.now }
{
    if one.pc != other.pc {
        return false;
    }
    if one.a != other.a || one.x != other.x || one.y != other.y || one.s != other.s {
        return false;
    }
    if one.line != other.line || one.jammed != other.jammed {
        return false;
    }
    if one.note != other.note {
        return false;
    }
    has_same_flags(one.flags, other.flags)
}

// The processor, and the last byte on the data bus, are again what they were.
fn is_back(now: &Cpu, cpu: &Cpu, last: u8, bus_byte: u8) -> bool
    ensures cpu { result ≡ true → now.now ≡ cpu.now }
    ensures byte { result ≡ true → last ≡ bus_byte }
{
    last == bus_byte && is_same(now, cpu)
}

/// How many cycles one turn takes, at most 255, of a loop that reads working and program memory alone, and $2002 where
/// reads of it answer this status: from the processor as it stands, with this level of the NMI line and this last byte
/// on the data bus. 0 where no such turn was found within a few instructions.
pub fn turn_cycles(
    cpu: &Cpu,
    ram: &[u8; 2048],
    board: &Banked,
    status: Option<u8>,
    line: bool,
    bus_byte: u8,
) -> u32
    ensures turn { 0 < result → IsTurn cpu.now (begun ram.now board.now status line bus_byte) result }
    ensures few { result ≤ 255 }
{
    let mut dry = DryBus {
        ram,
        board,
        status,
        line,
        bus_byte,
        cycles: 0,
        lost: false,
    };
    let mut now = *cpu;
    for _ in 0..MOST_UNITS {
        if !dry.run_unit(&mut now) {
            return 0;
        }
        if is_back(&now, cpu, dry.bus_byte, bus_byte) {
            return dry.cycles;
        }
    }
    0
}
