//! Whole frames, on both machines.

use crate::cartridges::{
    COUNTS, HEADER, HEADER_CHR_RAM, WALKS, cartridge, file_of, machine, played,
};
use nj_catchup::CatchUp;
use nj_machine::{Cart, Console, Machine, Picture, PlainMachine, Waiting};
use nj_ppu::DotPicture;
use std::alloc::Global;
use std::marker::Brand;
use std::sync::ledger::Blank;
use std::test::Fail;

// Reads button A with the strobe high and keeps it at $10.
const READS_A: [u8; 15] = [
    0xA9, 0x01, 0x8D, 0x16, 0x40, 0xAD, 0x16, 0x40, 0x29, 0x01, 0x85, 0x10, 0x4C, 0x05, 0x80,
];

// The byte that counts after one frame and after two, and the byte of button A held and not.
fn of_programs<P: Picture + Drop + Waiting>(alloc: Global) -> Result<[u8; 4], Fail> {
    let mut counts = machine::<P>(alloc, &COUNTS, 0x00)?;
    let _ = played::<P, Brand>(Blank::new(1), &mut counts, &[0]);
    let once = counts.ram()[0x10];
    let _ = played::<P, Brand>(Blank::new(1), &mut counts, &[0]);
    let twice = counts.ram()[0x10];
    let mut reads = machine::<P>(alloc, &READS_A, 0x00)?;
    let _ = played::<P, Brand>(Blank::new(1), &mut reads, &[0x01]);
    let held = reads.ram()[0x10];
    let _ = played::<P, Brand>(Blank::new(1), &mut reads, &[0x00]);
    Ok([once, twice, held, reads.ram()[0x10]])
}

#[test]
fn frames_of_programs(rt: HostRuntime) -> Result<(), Fail> {
    assert_eq!(rt; of_programs::<CatchUp>(rt.alloc())?, [0x61, 0xEB, 1, 0]);
    assert_eq!(rt; of_programs::<DotPicture>(rt.alloc())?, [0x61, 0xEB, 1, 0]);
    let mut jams = machine::<CatchUp>(rt.alloc(), &[0x02], 0x00)?;
    assert_eq!(rt;
        played::<CatchUp, Brand>(Blank::new(1), &mut jams, &[0, 0, 0]),
        3
    );
    assert!(rt; jams.jammed());
    Ok(())
}

// Working memory after the eight frames of a walk: three without a button, five with Right.
fn walked<P: Picture + Drop + Waiting>(alloc: Global) -> Result<Vec<u8>, Fail> {
    let mut walks = machine::<P>(alloc, &WALKS, 0x09)?;
    let pads = [0, 0, 0, 0x80, 0x80, 0x80, 0x80, 0x80];
    let _ = played::<P, Brand>(Blank::new(1), &mut walks, &pads);
    Ok(Vec::from_slice(alloc, walks.ram())?)
}

#[test]
fn a_walk_with_interrupts(rt: HostRuntime) -> Result<(), Fail> {
    let memory = walked::<CatchUp>(rt.alloc())?;
    for (at, byte) in memory.iter().enumerate() {
        let want = match at {
            0x10 => 0x05,
            0x11 => 0x07,
            0x1FB => 0xA4,
            0x1FC => 0x06,
            0x1FD => 0x80,
            _ => 0,
        };
        assert_eq!(rt; *byte, want);
    }
    assert_eq!(rt;
        walked::<DotPicture>(rt.alloc())?.as_slice(),
        memory.as_slice()
    );
    Ok(())
}

// A program whose reset vector is $2002 runs from the picture's registers.
#[test]
fn a_program_in_the_registers(rt: HostRuntime) -> Result<(), Fail> {
    let cart = cartridge(rt.alloc(), HEADER, &COUNTS, 0x00, [0x02, 0x20])?.ok_or("no cartridge")?;
    let mut machine = Machine::power_on(rt.alloc(), &cart)?;
    let mut plain = PlainMachine::power_on(rt.alloc(), &cart)?;
    let _ = played::<CatchUp, Brand>(Blank::new(1), &mut machine, &[0, 0, 0]);
    let _ = played::<DotPicture, Brand>(Blank::new(1), &mut plain, &[0, 0, 0]);
    assert_eq!(rt; machine.ram(), plain.ram());
    Ok(())
}

// A machine that loads the image of the other kind goes on as that one does.
#[test]
fn saved_and_loaded(rt: HostRuntime) -> Result<(), Fail> {
    let cart = cartridge(rt.alloc(), HEADER_CHR_RAM, &WALKS, 0x09, [0x00, 0x80])?.ok_or(
        "no cartridge",
    )?;
    let mut first = Machine::power_on(rt.alloc(), &cart)?;
    let mut second = PlainMachine::power_on(rt.alloc(), &cart)?;
    assert_eq!(rt; first.image_len(), 12_672);
    let _ = played::<CatchUp, Brand>(Blank::new(1), &mut first, &[0, 0, 0, 0x80]);
    let mut image = vec![in rt.alloc(); 0; first.image_len()]?;
    first.save(image.as_mut_slice());
    second.load(image.as_slice());
    let _ = played::<CatchUp, Brand>(Blank::new(1), &mut first, &[0x80]);
    let _ = played::<DotPicture, Brand>(Blank::new(1), &mut second, &[0x80]);
    assert_eq!(rt; second.ram()[0x10], 2);
    assert_eq!(rt; first.ram(), second.ram());
    Ok(())
}

// The byte at $10 after one frame of this file.
fn kept_at_10<P: Picture + Drop + Waiting>(alloc: Global, file: &[u8]) -> Result<u8, Fail> {
    let cart = Cart::read(alloc, file).ok().ok_or("no cartridge")?;
    let mut machine = Console::<P>::power_on(alloc, &cart)?;
    let _ = played::<P, Brand>(Blank::new(1), &mut machine, &[0]);
    Ok(machine.ram()[0x10])
}

const HEADER_UXROM: [u8; 16] = [
    b'N', b'E', b'S', 0x1A, 2, 0, 0x20, 0, 0, 0, 0, 0, 0, 0, 0, 0,
];

const HEADER_CNROM: [u8; 16] = [
    b'N', b'E', b'S', 0x1A, 1, 2, 0x30, 0, 0, 0, 0, 0, 0, 0, 0, 0,
];

// Writes $FF at $FFF0 and keeps the byte at $8000.
const SWITCHES_PRG: [u8; 12] = [
    0xA9, 0xFF, 0x8D, 0xF0, 0xFF, 0xAD, 0x00, 0x80, 0x85, 0x10, 0x4C, 0x0A,
];

// Writes $FF at $FFF0 and keeps the byte of pattern memory at 0.
const SWITCHES_CHR: [u8; 25] = [
    0xA9, 0xFF, 0x8D, 0xF0, 0xFF, 0xA9, 0x00, 0x8D, 0x06, 0x20, 0x8D, 0x06, 0x20, 0xAD, 0x07, 0x20,
    0xAD, 0x07, 0x20, 0x85, 0x10, 0x4C, 0x15, 0x80, 0x00,
];

// A write chooses the bank that its byte and the one that stands there have in common: the last with 1, the first with
// 0.
#[test]
fn banks_of_both_boards(rt: HostRuntime) -> Result<(), Fail> {
    for (there, prg_byte, chr_byte) in [(0x01, 0xA9, 0x42), (0x00, 0x11, 0x21)] {
        let uxrom = file_of(
            rt.alloc(),
            HEADER_UXROM,
            0x8000,
            &[
                (0x0000, &[0x11]),
                (0x4000, &SWITCHES_PRG),
                (0x400C, &[0xC0]),
                (0x7FF0, &[there]),
                (0x7FFC, &[0x00, 0xC0]),
            ],
        )?;
        assert_eq!(rt;
            kept_at_10::<CatchUp>(rt.alloc(), uxrom.as_slice())?,
            prg_byte
        );
        assert_eq!(rt;
            kept_at_10::<DotPicture>(rt.alloc(), uxrom.as_slice())?,
            prg_byte
        );
        let cnrom = file_of(
            rt.alloc(),
            HEADER_CNROM,
            0x8000,
            &[
                (0x0000, &SWITCHES_CHR),
                (0x3FF0, &[there]),
                (0x3FFC, &[0x00, 0x80]),
                (0x4000, &[0x21]),
                (0x6000, &[0x42]),
            ],
        )?;
        assert_eq!(rt;
            kept_at_10::<CatchUp>(rt.alloc(), cnrom.as_slice())?,
            chr_byte
        );
        assert_eq!(rt;
            kept_at_10::<DotPicture>(rt.alloc(), cnrom.as_slice())?,
            chr_byte
        );
    }
    Ok(())
}
