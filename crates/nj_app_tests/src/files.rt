//! The files that the command lines name.

use nj_memory::MemShelf;
use nj_workload::make_workload;
use std::alloc::{AllocError, Global};

// Lets NMIs come. Each counts at $11, reads the eight buttons, and counts at $10 where Right is held.
const WALK: &[u8] = &[
    0x78, 0xA9, 0x80, 0x8D, 0x00, 0x20, 0x4C, 0x06, 0x80, 0xE6, 0x11, 0xA9, 0x01, 0x8D, 0x16, 0x40,
    0xA9, 0x00, 0x8D, 0x16, 0x40, 0xA2, 0x08, 0xAD, 0x16, 0x40, 0xCA, 0xD0, 0xFA, 0x29, 0x01, 0xF0,
    0x02, 0xE6, 0x10, 0x40,
];

// Reads button A with the strobe high, and keeps it at $10.
const BUTTON: &[u8] = &[
    0xA9, 0x01, 0x8D, 0x16, 0x40, 0xAD, 0x16, 0x40, 0x29, 0x01, 0x85, 0x10, 0x4C, 0x05, 0x80,
];

// A point for each count at $10, and 100 more once it is 5, which wins.
const GOAL: &str = r#"{"version":1,
"properties":[{"name":"x","at":16,"kind":"u8"},{"name":"t","at":17,"kind":"u8"}],
"hash":["x"],
"inputs":[{"pads":["........","...R...."]}],
"rules":[{"name":"go","weights":[{"property":"x","weight":1}]},
{"name":"goal","when":[{"property":"x","op":"==","value":5}],"win":true,"reward":100}]}"#;

// Three frames without a button.
const START: &str = "|..|........|\n|..|........|\n|..|........|\n";

// Counts turns of its loop at $10.
const COUNT: &[u8] = &[0xE6, 0x10, 0x4C, 0x00, 0x80];

// Jams at once.
const JAM: &[u8] = &[0x02, 0x10, 0x4C, 0x00, 0x80];

// The vectors of NMIs, of the reset and of BRK, all at $8000.
const AT_CODE: &[u8] = &[0x00, 0x80, 0x00, 0x80, 0x00, 0x80];

// With that of NMIs at $8009.
const BY_NMI: &[u8] = &[0x09, 0x80, 0x00, 0x80, 0x00, 0x80];

// With that of the reset at the picture's status, $2002.
const AT_STATUS: &[u8] = &[0x00, 0x80, 0x02, 0x20, 0x00, 0x80];

// A header of 16 KiB and 8 KiB, without its last ten zeros.
const HEADER: &[u8] = b"NES\x1A\x01\x01";

// Bytes of a cartridge of 16 KiB and 8 KiB.
const SIZE: usize = 24_592;

// A cartridge: its name, its header, its code at $8000, its vectors and how many bytes it has.
type Row = (
    &'static str,
    &'static [u8],
    &'static [u8],
    &'static [u8],
    usize,
);

// `count` counts turns of its loop at $10, `status` the same once the picture's status was carried out as code, `jam`
// jams at once, `walk` is moved by Right; `short` ends inside its header, and `huge` is none.
const CARTS: [Row; 18] = [
    ("count", HEADER, COUNT, AT_CODE, SIZE),
    ("short", HEADER, COUNT, AT_CODE, 15),
    ("jam", HEADER, JAM, AT_CODE, SIZE),
    ("status", HEADER, COUNT, AT_STATUS, SIZE),
    ("disk", b"NES\x1A\x01\x01\x00DiskDude!", WALK, BY_NMI, SIZE),
    (
        "pal",
        b"NES\x1A\x01\x01\x00\x08\x00\x00\x00\x00\x01",
        WALK,
        BY_NMI,
        SIZE,
    ),
    (
        "multi",
        b"NES\x1A\x01\x01\x00\x08\x00\x00\x00\x00\x02",
        WALK,
        BY_NMI,
        SIZE,
    ),
    ("trainer", b"NES\x1A\x01\x01\x0C", WALK, BY_NMI, SIZE),
    ("four", b"NES\x1A\x01\x01\x08", WALK, BY_NMI, SIZE),
    ("mapper", b"NES\x1A\x01\x01\x10", WALK, BY_NMI, SIZE),
    ("three", b"NES\x1A\x03\x01", WALK, BY_NMI, SIZE),
    ("patterns", b"NES\x1A\x01\x02", WALK, BY_NMI, SIZE),
    ("button", HEADER, BUTTON, AT_CODE, SIZE),
    ("large", b"NES\x1A\x02\x01", b"", b"", 40_976),
    ("huge", b"", b"", b"", 1_048_577),
    ("cut", HEADER, WALK, BY_NMI, SIZE - 1),
    ("long", HEADER, WALK, BY_NMI, SIZE + 128),
    ("walk", HEADER, WALK, BY_NMI, SIZE),
];

fn cartridge(
    alloc: Global,
    header: &[u8],
    code: &[u8],
    vectors: &[u8],
    size: usize,
) -> Result<Vec<u8>, AllocError> {
    let mut file = Vec::from_slice(alloc, header)?;
    file.resize(16, 0)?;
    file.extend_from_slice(code)?;
    file.resize(16 + 0x3FFA, 0)?;
    file.extend_from_slice(vectors)?;
    file.resize(size, 0)?;
    Ok(file)
}

fn named(alloc: Global, name: &str, bytes: Vec<u8>) -> Result<(String, Vec<u8>), AllocError> {
    Ok((String::from_str(alloc, name)?, bytes))
}

/// The cartridges, their script `goal`, the start movie `start` and the file `movie` of these bytes.
pub fn shelf_with(alloc: Global, movie: &[u8], failing: &[u64]) -> Result<MemShelf, AllocError> {
    let mut files = Vec::new(alloc);
    for (name, header, code, vectors, size) in CARTS {
        let cart = cartridge(alloc, header, code, vectors, size)?;
        files.push(named(alloc, name, cart)?)?;
    }
    for (name, bytes) in [
        ("goal", GOAL.as_bytes()),
        ("start", START.as_bytes()),
        ("movie", movie),
    ] {
        files.push(named(alloc, name, Vec::from_slice(alloc, bytes)?)?)?;
    }
    Ok(MemShelf::new(alloc, files, Vec::from_slice(alloc, failing)?, 10_000))
}

/// The files of the workload of number 0.
pub fn made_shelf(alloc: Global) -> Result<MemShelf, AllocError> {
    let made = make_workload(alloc, 0)?;
    let mut files = Vec::new(alloc);
    let cart = Vec::from_slice(alloc, made.cart.as_slice())?;
    files.push(named(alloc, "cart", cart)?)?;
    let script = Vec::from_slice(alloc, made.script.as_bytes())?;
    files.push(named(alloc, "script", script)?)?;
    let start = Vec::from_slice(alloc, made.start.as_bytes())?;
    files.push(named(alloc, "start", start)?)?;
    Ok(MemShelf::new(alloc, files, Vec::new(alloc), 10_000))
}
