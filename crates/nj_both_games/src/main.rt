//! Four cartridges on both machines: a waiting loop, a game with rendering on, one that computes, and one that chooses
//! banks of pattern memory in mid-frame and runs unofficial opcodes. Prints of each whether the machines had the same
//! image after every frame. That they have is proved; this run is of the code that the compilers made of it.
#![tactic(auto)]

use nj_both_machines::{Cart, Pad, first_difference};
use nj_outside::{FileShelf, Shelf, read_all};
use std::alloc::Global;
use std::io;

/// The longest cartridge file, in bytes.
const LONGEST: u64 = 65_536;

/// Right and A in every frame.
const PADS: [Pad; 100] = [Pad(0x81); 100];

fn main(rt: HostRuntime) -> io::Result<()> {
    let mut shelf = FileShelf::new(&rt);
    for name in ["steps.nes", "walk.nes", "mill.nes", "banks.nes"] {
        let told = compared(rt.alloc(), &mut shelf, name);
        println!(rt; "{name}: {told}")?;
    }
    Ok(())
}

// What the two machines made of the cartridge of this name.
fn compared<S: Shelf>(alloc: Global, shelf: &mut S, name: &str) -> &'static str {
    let Ok(file) = read_all(alloc, shelf, name, LONGEST) else {
        return "not read";
    };
    let Ok(cart) = Cart::read(alloc, &file) else {
        return "no cartridge";
    };
    match first_difference(alloc, &cart, &PADS) {
        Ok(None) => "the same after each of 100 frames",
        Ok(Some(_)) => "not the same",
        Err(_) => "no memory",
    }
}
