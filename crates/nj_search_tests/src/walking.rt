//! What the tests search: a walking cartridge, scripts, starts and limits.
ghost use Rattle.std.specs.Prelude.{◌≡◌};

use nj_pad::Pad;
use nj_search::{Cart, Limits, Movie, Script};
use std::alloc::Global;
use std::test::Fail;

// Lets NMIs come. Each counts at $11, reads the eight buttons, and counts at $10 where Right is held.
const WALK: [u8; 36] = [
    0x78, 0xA9, 0x80, 0x8D, 0x00, 0x20, 0x4C, 0x06, 0x80, 0xE6, 0x11, 0xA9, 0x01, 0x8D, 0x16, 0x40,
    0xA9, 0x00, 0x8D, 0x16, 0x40, 0xA2, 0x08, 0xAD, 0x16, 0x40, 0xCA, 0xD0, 0xFA, 0x29, 0x01, 0xF0,
    0x02, 0xE6, 0x10, 0x40,
];

// The key is the count at $10; one point for each, and 100 more once it is 5, which wins.
pub(crate) const FIVE: &str =
    r#"{"version":1,"properties":[{"name":"x","at":16,"kind":"u8"}],"hash":["x"],
"inputs":[{"pads":["........","...R...."]}],
"rules":[{"name":"go","weights":[{"property":"x","weight":1}]},
{"name":"goal","when":[{"property":"x","op":"==","value":5}],"win":true,"reward":100}]}"#;

// Keys of both counts and no rule: after step n the front has a word for each count from 0 to n at $10.
pub(crate) const COUNTS: &str =
    r#"{"version":1,"properties":[{"name":"x","at":16,"kind":"u8"},{"name":"t","at":17,"kind":"u8"}],
"hash":["x","t"],"inputs":[{"pads":["........","...R...."]}],"rules":[]}"#;

// Eight pads.
pub(crate) const EIGHT: &str =
    r#"{"version":1,"properties":[{"name":"x","at":16,"kind":"u8"}],"hash":["x"],
"inputs":[{"pads":["........","...R....","..L.....",".D......","U.......",".......A","......B.","...R...A"]}],
"rules":[]}"#;

pub(crate) const R: u8 = 0x80;

pub(crate) const BUDGET: u64 = 67_108_864;

// For a front of at most 64 words.
pub(crate) const WORDS_64: u64 = 64 * 8992;

// A cartridge of this many units of both memories, zeros but for the walking program and the vectors of 16 KiB.
pub(crate) fn cartridge(alloc: Global, prg: u8, chr: u8) -> Result<Cart, Fail> {
    let header = [
        b'N', b'E', b'S', 0x1A, prg, chr, 0, 0, 0, 0, 0, 0, 0, 0, 0, 0,
    ];
    let mut file = Vec::from_slice(alloc, &header)?;
    file.extend_from_slice(&WALK)?;
    file.resize(16 + 0x3FFA, 0)?;
    file.extend_from_slice(&[0x09, 0x80, 0x00, 0x80, 0x00, 0x80])?;
    file.resize(16 + 16_384 * usize::from(prg) + 8192 * usize::from(chr), 0)?;
    Ok(
        Cart::read(alloc, file.as_slice())
            .ok()
            .ok_or("no cartridge")?,
    )
}

pub(crate) fn script(alloc: Global, text: &str) -> Result<Script, Fail> {
    Ok(
        Script::read(alloc, text.as_bytes())
            .ok()
            .ok_or("no script")?,
    )
}

pub(crate) fn movie(alloc: Global, pads: &[u8]) -> Result<Movie, Fail> {
    let mut movie = Movie::new(alloc);
    for pad in pads {
        movie.push(Pad(*pad))?;
    }
    Ok(movie)
}

pub(crate) fn limits(budget: u64, steps: u32, exponent: u32) -> Limits
    ensures { result ≡ record { budget = budget; steps = steps; exponent = exponent } }
{
    Limits {
        budget,
        steps,
        exponent,
    }
}
