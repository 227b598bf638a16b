use nj_ines::Cart;
use nj_ines::CartRefused::{
    ChrUnits, FourScreen, Mapper, NotInes, PrgUnits, Short, Timing, Trainer,
};
use std::alloc::{AllocError, Global};
use std::test::Fail;

// A header of these counts of units, these bytes 6 to 9 and this byte 12.
fn header_of(prg: u8, chr: u8, flags: [u8; 4], timing: u8) -> [u8; 16] {
    let [six, seven, eight, nine] = flags;
    [
        b'N', b'E', b'S', 0x1A, prg, chr, six, seven, eight, nine, 0, 0, timing, 0, 0, 0,
    ]
}

// A file of this header, filled with zeros or cut to a length.
fn file_of(alloc: Global, header: [u8; 16], length: usize) -> Result<Vec<u8>, AllocError> {
    let mut file = Vec::from_slice(alloc, &header)?;
    file.resize(length, 0)?;
    Ok(file)
}

// What is refused of a header, its order and its numbers.
#[test]
fn refuses_headers(rt: HostRuntime) -> Result<(), Fail> {
    for (header, want) in [
        (header_of(9, 9, [0xFC, 0, 0, 0], 0), Trainer),
        (header_of(9, 9, [0xF8, 0, 0, 0], 0), FourScreen),
        (header_of(9, 9, [16, 16, 0, 0], 0), Mapper { number: 17 }),
        (header_of(9, 9, [16, 16, 0, 0], 1), Mapper { number: 1 }),
        (header_of(9, 9, [16, 20, 0, 0], 0), Mapper { number: 1 }),
        (header_of(1, 1, [0, 8, 15, 0], 3), Mapper { number: 3840 }),
        (header_of(3, 9, [0; 4], 0), PrgUnits { n: 3 }),
        (header_of(0, 1, [0; 4], 0), PrgUnits { n: 0 }),
        (header_of(1, 1, [0, 8, 0, 0xB9], 0), PrgUnits { n: 2305 }),
        (header_of(1, 1, [0, 8, 0, 0xF0], 0), ChrUnits { n: 3841 }),
        (header_of(2, 2, [0; 4], 0), ChrUnits { n: 2 }),
        (header_of(3, 0, [32, 0, 0, 0], 0), PrgUnits { n: 3 }),
        (header_of(1, 0, [32, 0, 0, 0], 0), PrgUnits { n: 1 }),
        (header_of(2, 2, [32, 0, 0, 0], 0), ChrUnits { n: 2 }),
        (header_of(4, 1, [48, 0, 0, 0], 0), PrgUnits { n: 4 }),
        (header_of(1, 0, [48, 0, 0, 0], 0), ChrUnits { n: 0 }),
        (header_of(1, 1, [0, 8, 0, 0], 1), Timing { n: 1 }),
        (header_of(1, 1, [0, 8, 0, 0], 7), Timing { n: 3 }),
    ] {
        let file = file_of(rt.alloc(), header, 16)?;
        assert_eq!(rt; Cart::read(rt.alloc(), file.as_slice()).err(), Some(want));
    }
    Ok(())
}

// Files that end too early.
#[test]
fn refuses_short_files(rt: HostRuntime) -> Result<(), Fail> {
    for (prg, chr, six, length, need) in [
        (1, 1, 0, 15, 16),
        (1, 1, 0, 24_591, 24_592),
        (2, 0, 0, 32_783, 32_784),
        (2, 1, 0, 16, 40_976),
        (16, 1, 32, 16, 270_352),
        (1, 4, 48, 49_167, 49_168),
    ] {
        let file = file_of(rt.alloc(), header_of(prg, chr, [six, 0, 0, 0], 0), length)?;
        let have = file.len() as u64;
        let want = Short { need, have };
        assert_eq!(rt; Cart::read(rt.alloc(), file.as_slice()).err(), Some(want));
    }
    Ok(())
}

// What is there of the first four bytes is looked at before the length.
#[test]
fn refuses_other_files(rt: HostRuntime) {
    for other in [
        b"P".as_slice(),
        b"NES\x1B".as_slice(),
        b"PK\x03\x04".as_slice(),
    ] {
        assert_eq!(rt; Cart::read(rt.alloc(), other).err(), Some(NotInes));
    }
    let empty = Cart::read(rt.alloc(), b"").err();
    assert_eq!(rt; empty, Some(Short { need: 16, have: 0 }));
}

// Headers that are taken: a text from byte 7 on, either timing, bytes behind the memories, and the other boards.
#[test]
fn accepts_headers(rt: HostRuntime) -> Result<(), Fail> {
    for (header, length, prg, chr, mapper) in [
        (*b"NES\x1A\x01\x01\0DiskDude!", 24_592, 16_384, 8_192, 0),
        (header_of(1, 1, [3, 8, 0, 0], 2), 24_720, 16_384, 8_192, 0),
        (header_of(2, 0, [0; 4], 0), 32_784, 32_768, 8_192, 0),
        (header_of(4, 0, [33, 0, 0, 0], 0), 65_552, 65_536, 8_192, 2),
        (header_of(1, 4, [48, 0, 0, 0], 0), 49_168, 16_384, 32_768, 3),
    ] {
        let mut file = file_of(rt.alloc(), header, length)?;
        if let Some(first) = file.get_mut(16) {
            *first = 0xA9;
        }
        let cart = Cart::read(rt.alloc(), file.as_slice())?;
        assert_eq!(rt; cart.prg().len(), prg);
        assert_eq!(rt; cart.prg().first(), Some(&0xA9));
        assert_eq!(rt; cart.chr().len(), chr);
        assert_eq!(rt; cart.chr_ram(), header[5] == 0);
        assert_eq!(rt; cart.vertical(), header[6] % 2 == 1);
        assert_eq!(rt; cart.mapper(), mapper);
    }
    Ok(())
}
