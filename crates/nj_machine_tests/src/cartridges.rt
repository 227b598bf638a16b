//! Cartridges made of a few bytes, and machines that play them.

ghost use Rattle.std.specs.Prelude.{◌≡◌};
ghost use Rattle.nj_machine.specs.State.{rom_of};

use nj_machine::{Cart, Console, Pad, Picture, Steps, Waiting};
use std::alloc::{AllocError, Global};
use std::sync::ledger::{Blank, Ledger};
use std::test::Fail;

/// One bank of program memory and one of pattern ROM, mapper 0.
pub const HEADER: [u8; 16] = [b'N', b'E', b'S', 0x1A, 1, 1, 0, 0, 0, 0, 0, 0, 0, 0, 0, 0];

/// One bank of program memory and pattern RAM, mapper 0.
pub const HEADER_CHR_RAM: [u8; 16] = [b'N', b'E', b'S', 0x1A, 1, 0, 0, 0, 0, 0, 0, 0, 0, 0, 0, 0];

/// INC $10 and a jump back.
pub const COUNTS: [u8; 5] = [0xE6, 0x10, 0x4C, 0x00, 0x80];

/// Lets NMIs come. Each counts at $11, reads the eight buttons, and counts at $10 where Right is held.
pub const WALKS: [u8; 36] = [
    0x78, 0xA9, 0x80, 0x8D, 0x00, 0x20, 0x4C, 0x06, 0x80, 0xE6, 0x11, 0xA9, 0x01, 0x8D, 0x16, 0x40,
    0xA9, 0x00, 0x8D, 0x16, 0x40, 0xA2, 0x08, 0xAD, 0x16, 0x40, 0xCA, 0xD0, 0xFA, 0x29, 0x01, 0xF0,
    0x02, 0xE6, 0x10, 0x40,
];

/// A cartridge of 16 KiB with code at $8000 and these vectors.
pub fn cartridge(
    alloc: Global,
    header: [u8; 16],
    code: &[u8],
    nmi: u8,
    reset: [u8; 2],
) -> Result<Option<Cart>, AllocError> {
    let mut file = Vec::from_slice(alloc, &header)?;
    file.extend_from_slice(code)?;
    file.resize(16 + 0x3FFA, 0)?;
    file.extend_from_slice(&[nmi, 0x80, reset[0], reset[1], 0x00, 0x80])?;
    file.resize(24_592, 0)?;
    Ok(Cart::read(alloc, file.as_slice()).ok())
}

/// A file of zeros with a header, but for pieces at these places behind it.
pub fn file_of(
    alloc: Global,
    header: [u8; 16],
    length: u16,
    pieces: &[(u16, &[u8])],
) -> Result<Vec<u8>, AllocError> {
    let mut file = Vec::from_slice(alloc, &header)?;
    for (at, piece) in pieces {
        file.resize(16 + usize::from(*at), 0)?;
        file.extend_from_slice(piece)?;
    }
    file.resize(16 + usize::from(length), 0)?;
    Ok(file)
}

/// A machine with this code at $8000, where it begins, and this low byte of the NMI vector.
pub fn machine<P: Picture + Drop + Waiting>(
    alloc: Global,
    code: &[u8],
    nmi: u8,
) -> Result<Console<P>, Fail> {
    let cart = cartridge(alloc, HEADER, code, nmi, [0x00, 0x80])?.ok_or("no cartridge")?;
    Ok(Console::<P>::power_on(alloc, &cart)?)
}

/// Plays these pads; how many steps were counted.
pub fn played<P: Picture + Drop + Waiting, L: Ledger>(
    blank: Blank,
    machine: &mut Console<P>,
    pads: &[u8],
) -> u64
    requires { blank.name ≡ L.name }
    ensures { rom_of machine.new ≡ rom_of machine.old }
{
    let mut steps = Steps::<L>::open(blank);
    for pad in pads {
        let _ = machine.frame(Pad(*pad), &mut steps);
    }
    steps.count()
}
