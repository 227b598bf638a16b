//! How long a state is packed and unpacked: the program packs or unpacks one image of 4,480 bytes, of which some pages
//! differ from its base's, as often as it is told. It prints what it was told and the packing's length.
//!
//! Words: what to do, `pack` or `unpack`; the pages that differ, from 0 to 69; how often.
#![tactic(auto)]

ghost use Rattle.std.specs.Prelude.{◌≡◌, ◌≤◌, ◌<◌, length};

use nj_image::{pack, unpack};
use std::{env, io};

/// The bytes of an image without pattern memory.
const IMAGE: usize = 4480;

/// The bytes of a page.
const PAGE: usize = 64;

fn main(rt: HostRuntime) -> io::Result<()> {
    let mut words = env::args(&rt)?.skip(1);
    let task = words.next();
    let task = task.as_deref().unwrap_or("pack");
    let pages = number(words.next()).min(69);
    let times = number(words.next());
    let base = [0; IMAGE];
    let image = differing(pages);
    let mut packing = [0; IMAGE + 1];
    let mut back = [0; IMAGE];
    let size = pack(&image, &base, &mut packing);
    if task == "pack" {
        for _round in 0..times {
            let _size = pack(&image, &base, &mut packing);
        }
    }
    let packed = packing.get(..size).unwrap_or(&[]);
    if task == "unpack" {
        for _round in 0..times {
            let _ = unpack(packed, &base, &mut back);
        }
    }
    let _ = unpack(packed, &base, &mut back);
    let same = back == image;
    println!(rt; "{task} pages={pages} times={times} size={size} same={same}")
}

// The number that a word says, or 0.
fn number(word: Option<String>) -> usize {
    match word {
        Some(word) => word.parse::<usize>().unwrap_or(0),
        None => 0,
    }
}

// An image of zeros but for a byte in each of so many pages.
fn differing(pages: usize) -> [u8; IMAGE]
    requires { pages ≤ 69 }
{
    let mut image = [0; IMAGE];
    for page in 0..pages {
        image[PAGE * page + 9] = 1;
    }
    image
}
