//! Cycles of sprite copies and of a jump, and reads of $2002 about dot (241,1).

ghost use Rattle.std.specs.Prelude.{◌≡◌};

use crate::cartridges::{machine, played};
use nj_catchup::CatchUp;
use nj_machine::{Console, Pad, Picture, Steps, UnitSeen, Waiting};
use nj_ppu::DotPicture;
use std::alloc::{AllocError, Global};
use std::marker::Brand;
use std::sync::ledger::{Blank, Ledger};
use std::test::Fail;

// PC after this many units, and the line and dot of the picture's next dot: three dots for each cycle since power-on.
fn after_units<P: Picture + Drop + Waiting, L: Ledger>(
    blank: Blank,
    machine: &mut Console<P>,
    units: u32,
) -> (u16, u16, u16)
    requires { blank.name ≡ L.name }
{
    let mut steps = Steps::<L>::open(blank);
    let mut seen = UnitSeen::new();
    for _ in 0..=units {
        let _ = machine.unit_step(Pad(0), &mut seen, &mut steps);
    }
    (seen.cpu.pc, seen.line, seen.dot)
}

// The same of a program.
fn clocked(alloc: Global, code: &[u8], units: u32) -> Result<(u16, u16, u16), Fail> {
    let mut machine = machine::<CatchUp>(alloc, code, 0x00)?;
    Ok(after_units::<CatchUp, Brand>(Blank::new(1), &mut machine, units))
}

// A copy that begins in cycle 6 takes 513 cycles, one that begins in cycle 9 takes 514.
#[test]
fn sprite_copies(rt: HostRuntime) -> Result<(), Fail> {
    let even = [0xA9, 0x02, 0x8D, 0x14, 0x40, 0x4C, 0x05, 0x80];
    assert_eq!(rt; clocked(rt.alloc(), &even, 2)?, (0x8005, 0, 18));
    assert_eq!(rt; clocked(rt.alloc(), &even, 3)?, (0x8005, 4, 193));
    let odd = [0xA5, 0x00, 0xA9, 0x02, 0x8D, 0x14, 0x40, 0x4C, 0x07, 0x80];
    assert_eq!(rt; clocked(rt.alloc(), &odd, 3)?, (0x8007, 0, 27));
    assert_eq!(rt; clocked(rt.alloc(), &odd, 4)?, (0x8007, 4, 205));
    Ok(())
}

// JMP ($02FF) takes five cycles, and its high byte is that at $0200.
#[test]
fn a_jump_within_a_page(rt: HostRuntime) -> Result<(), Fail> {
    let code = [
        0xA9, 0x34, 0x8D, 0xFF, 0x02, 0xA9, 0x12, 0x8D, 0x00, 0x02, 0x6C, 0xFF, 0x02,
    ];
    assert_eq!(rt; clocked(rt.alloc(), &code, 4)?, (0x800A, 0, 36));
    assert_eq!(rt; clocked(rt.alloc(), &code, 5)?, (0x1234, 0, 51));
    Ok(())
}

// The bytes at $10 and $11 after two frames of this code, and then each NMI counts at $12.
fn kept<P: Picture + Drop + Waiting>(alloc: Global, code: &[u8]) -> Result<[u8; 3], Fail> {
    let mut machine = machine::<P>(alloc, code, 0xF0)?;
    let _ = played::<P, Brand>(Blank::new(1), &mut machine, &[0, 0]);
    let memory = machine.ram();
    Ok([memory[0x10], memory[0x11], memory[0x12]])
}

// An attribute byte of $FF, copied to OAM and read there, has bits $E3 alone.
#[test]
fn attributes_have_six_bits(rt: HostRuntime) -> Result<(), Fail> {
    let code = [
        0xA9, 0xFF, 0x8D, 0x02, 0x02, 0xA9, 0x02, 0x8D, 0x14, 0x40, 0xA9, 0x02, 0x8D, 0x03, 0x20,
        0xAD, 0x04, 0x20, 0x85, 0x10, 0x4C, 0x14, 0x80,
    ];
    assert_eq!(rt; kept::<CatchUp>(rt.alloc(), &code)?, [0xE3, 0, 0]);
    Ok(())
}

// 27,353 cycles.
const WAITS: [u8; 10] = [0xA0, 0x34, 0xA2, 0x68, 0xCA, 0xD0, 0xFD, 0x88, 0xD0, 0xF8];

// Keeps what was read at $10, reads $2002 once more, keeps that at $11, and stays.
const KEEPS: [u8; 10] = [0x85, 0x10, 0xAD, 0x02, 0x20, 0x85, 0x11, 0xB8, 0x50, 0xFD];

// Code that begins with these bytes, waits 27,353 cycles and then two for each NOP, and goes on with these bytes. An
// NMI counts at $12.
fn waiting(alloc: Global, first: &[u8], nops: usize, last: &[u8]) -> Result<Vec<u8>, AllocError> {
    let mut code = Vec::from_slice(alloc, first)?;
    code.extend_from_slice(&WAITS)?;
    for _ in 0..nops {
        code.push(0xEA)?;
    }
    code.extend_from_slice(last)?;
    code.extend_from_slice(&KEEPS)?;
    code.resize(0xF0, 0xEA)?;
    code.extend_from_slice(&[0xE6, 0x12, 0x40])?;
    Ok(code)
}

// LDA $2002 read just before dot (241,1), with NMIs let through, 27,393 cycles after power-on.
fn read_before<P: Picture + Drop + Waiting>(alloc: Global) -> Result<[u8; 3], Fail> {
    let code = waiting(
        alloc,
        &[0xA9, 0x80, 0x8D, 0x00, 0x20, 0xA5, 0x00],
        14,
        &[0xAD, 0x02, 0x20],
    )?;
    kept::<P>(alloc, code.as_slice())
}

// LDA $2002 read in the cycle after that.
fn read_after<P: Picture + Drop + Waiting>(alloc: Global) -> Result<[u8; 3], Fail> {
    let code = waiting(alloc, &[], 19, &[0xAD, 0x02, 0x20])?;
    kept::<P>(alloc, code.as_slice())
}

// LDA $20F2,X with X $10, after dot (241,1), reads $2002 on its way to $2102, which mirrors it.
fn read_twice<P: Picture + Drop + Waiting>(alloc: Global) -> Result<[u8; 3], Fail> {
    let code = waiting(alloc, &[], 20, &[0xA2, 0x10, 0xBD, 0xF2, 0x20])?;
    kept::<P>(alloc, code.as_slice())
}

// Just before dot (241,1) a read of $2002 finds no vertical blank and keeps the flag and the NMI line down; after it
// the flag is set, and clear at the next read.
#[test]
fn the_race_at_vertical_blank(rt: HostRuntime) -> Result<(), Fail> {
    assert_eq!(rt; read_before::<CatchUp>(rt.alloc())?, [0, 0, 0]);
    assert_eq!(rt; read_before::<DotPicture>(rt.alloc())?, [0, 0, 0]);
    assert_eq!(rt; read_after::<CatchUp>(rt.alloc())?, [0x80, 0, 0]);
    assert_eq!(rt; read_after::<DotPicture>(rt.alloc())?, [0x80, 0, 0]);
    assert_eq!(rt; read_twice::<CatchUp>(rt.alloc())?, [0, 0, 0]);
    assert_eq!(rt; read_twice::<DotPicture>(rt.alloc())?, [0, 0, 0]);
    Ok(())
}
