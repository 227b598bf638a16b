//! The boards with banks by themselves: what their windows show after a write.

use nj_banked::{Banked, Board};
use std::alloc::{AllocError, Global};
use std::test::Fail;

// UxROM with two banks and this byte at $FFF0.
fn uxrom(alloc: Global, under: u8) -> Result<Banked, AllocError> {
    let mut prg = vec![in alloc; 0; 0x8000]?;
    prg[0] = 0x11;
    prg[0x4000] = 0xA9;
    prg[0x7FF0] = under;
    let chr = vec![in alloc; 0; 0x2000]?;
    Ok(Banked::new(prg, chr, true, 2))
}

// CNROM with two banks and this byte at $FFF0.
fn cnrom(alloc: Global, under: u8) -> Result<Banked, AllocError> {
    let mut prg = vec![in alloc; 0; 0x4000]?;
    prg[0] = 0xA9;
    prg[0x3FF0] = under;
    let mut chr = vec![in alloc; 0; 0x4000]?;
    chr[0] = 0x21;
    chr[0x2000] = 0x42;
    Ok(Banked::new(prg, chr, false, 3))
}

// NROM with 16 KiB of program memory and the byte $FF at $FFF0.
fn nrom(alloc: Global) -> Result<Banked, AllocError> {
    let mut prg = vec![in alloc; 0; 0x4000]?;
    prg[0] = 0x11;
    prg[0x3FF0] = 0xFF;
    let mut chr = vec![in alloc; 0; 0x2000]?;
    chr[0] = 0x21;
    Ok(Banked::fixed(prg, chr, false))
}

// The bytes at $8000 and $C000, the picture's first and the bank, after $FF is written at $FFF0.
fn after_write<B: Board>(board: &mut B) -> (Option<u8>, Option<u8>, u8, u8) {
    board.cpu_write(0xFFF0, 0xFF);
    board.put_pattern(1, 0x17);
    let first = board.pattern()[0];
    (
        board.cpu_read(0x8000),
        board.cpu_read(0xC000),
        first,
        board.bank(),
    )
}

// The byte at $FFF0 decides which bits of the written $FF choose a bank.
#[test]
fn uxrom_has_two_windows(rt: HostRuntime) -> Result<(), Fail> {
    for (under, low, bank) in [(0x01, 0xA9, 1), (0x00, 0x11, 0), (0xFE, 0x11, 0)] {
        let mut board = uxrom(rt.alloc(), under)?;
        assert_eq!(rt; after_write(&mut board), (Some(low), Some(0xA9), 0, bank));
        assert_eq!(rt; board.pattern()[1], 0x17);
    }
    Ok(())
}

#[test]
fn cnrom_has_one_window(rt: HostRuntime) -> Result<(), Fail> {
    for (under, first, bank) in [(0x01, 0x42, 1), (0x00, 0x21, 0)] {
        let mut board = cnrom(rt.alloc(), under)?;
        assert_eq!(rt;
            after_write(&mut board),
            (Some(0xA9), Some(0xA9), first, bank)
        );
        assert_eq!(rt; board.pattern()[1], 0);
    }
    Ok(())
}

#[test]
fn nrom_has_one_bank(rt: HostRuntime) -> Result<(), Fail> {
    let mut board = nrom(rt.alloc())?;
    assert_eq!(rt; after_write(&mut board), (Some(0x11), Some(0x11), 0x21, 0));
    assert_eq!(rt; board.cpu_read(0x7FFF), None);
    Ok(())
}
