//! The units of frames, and the properties after each frame, as text.

ghost use Rattle.std.specs.Prelude.{◌≡◌, ◌≤◌};

use crate::data::two;
use crate::movies::{file, movie, script};
use nj_replay::Cart;
use nj_trace::{Steps, TraceRefused, trace, watch};
use std::alloc::Global;
use std::marker::Brand;
use std::sync::ledger::{Blank, Ledger};
use std::test::Fail;

// The walking cartridge, or one whose first opcode is another.
fn cartridge(alloc: Global, first: u8) -> Result<Cart, Fail> {
    let mut file = file(alloc)?;
    if let Some(opcode) = file.get_mut(16) {
        *opcode = first;
    }
    Ok(Cart::read(alloc, file.as_slice()).map_err(|_| "no cartridge")?)
}

// The trace of a frame, and how many frames it took.
fn traced<L: Ledger>(
    alloc: Global,
    blank: Blank,
    first: u8,
    pads: &[u8],
    frame: u32,
) -> Result<(Result<Vec<u8>, TraceRefused>, u64), Fail>
    requires blank { blank.name ≡ L.name }
    requires frame { 1 ≤ frame }
{
    let cart = cartridge(alloc, first)?;
    let played = movie(alloc, pads)?;
    let mut steps = Steps::<L>::open(blank);
    let told = trace(alloc, &cart, &played, frame, &mut steps);
    Ok((told, steps.count()))
}

fn text(told: (Result<Vec<u8>, TraceRefused>, u64)) -> Result<Vec<u8>, Fail> {
    Ok(told.0.ok().ok_or("no trace")?)
}

// Whether the text begins with these lines.
fn begins(text: &[u8], lines: &[&[u8]]) -> bool {
    let mut rest = text;
    for line in lines {
        let Some(behind) = rest.strip_prefix(*line) else {
            return false;
        };
        rest = behind;
    }
    true
}

#[test]
fn the_units_of_frames(rt: HostRuntime) -> Result<(), Fail> {
    let one = text(traced::<Brand>(rt.alloc(), Blank::new(1), 0x78, b".", 1)?)?;
    let lines: [&[u8]; 4] = [
        b"# trace frame=1 units=9132\n",
        b"L=0 D=0 A=00 X=00 Y=00 S=FD P=24 8000 78       SEI\n",
        b"L=0 D=6 A=00 X=00 Y=00 S=FD P=24 8001 A9 80    LDA #$80\n",
        b"L=0 D=12 A=80 X=00 Y=00 S=FD P=A4 8003 8D 00 20 STA $2000\n",
    ];
    assert!(rt; begins(one.as_slice(), &lines));
    let two = text(traced::<Brand>(rt.alloc(), Blank::new(1), 0x78, b"..", 2)?)?;
    let lines: [&[u8]; 4] = [
        b"# trace frame=2 units=9925\n",
        b"L=241 D=4 A=80 X=00 Y=00 S=FD P=A4 8006 4C 06 80 JMP $8006\n",
        b"L=241 D=13 A=80 X=00 Y=00 S=FD P=A4 8006 NMI\n",
        b"L=241 D=34 A=80 X=00 Y=00 S=FA P=A4 8009 E6 11    INC $11\n",
    ];
    assert!(rt; begins(two.as_slice(), &lines));
    Ok(())
}

#[test]
fn jams_and_frames_that_are_not_there(rt: HostRuntime) -> Result<(), Fail> {
    let one = text(traced::<Brand>(rt.alloc(), Blank::new(1), 0x02, b".", 1)?)?;
    let lines: [&[u8]; 2] = [
        b"# trace frame=1 units=1\n",
        b"L=0 D=0 A=00 X=00 Y=00 S=FD P=24 8000 JAM\n",
    ];
    assert!(rt; begins(one.as_slice(), &lines));
    let three = text(traced::<Brand>(rt.alloc(), Blank::new(1), 0x02, b"...", 3)?)?;
    assert_eq!(rt; three.as_slice(), b"# trace frame=3 units=0\n".as_slice());
    let (none, frames) = traced::<Brand>(rt.alloc(), Blank::new(1), 0x78, b"", 1)?;
    assert!(rt;
        matches!(
            none,
            Err(TraceRefused::NoFrame {
                frame: 1,
                frames: 0
            })
        )
    );
    assert_eq!(rt; frames, 0);
    Ok(())
}

fn watched<L: Ledger>(alloc: Global, blank: Blank, pads: &[u8]) -> Result<Vec<u8>, Fail>
    requires { blank.name ≡ L.name }
{
    let cart = cartridge(alloc, 0x78)?;
    let two = script(alloc, two())?;
    let played = movie(alloc, pads)?;
    let mut steps = Steps::<L>::open(blank);
    Ok(watch(alloc, &cart, &two, &played, &mut steps)?)
}

#[test]
fn the_properties_after_frames(rt: HostRuntime) -> Result<(), Fail> {
    let text = watched::<Brand>(rt.alloc(), Blank::new(1), b"...RR")?;
    let lines = b"# watch frames=5 properties=2\n0 0 0\n1 0 0\n2 0 1\n3 0 2\n4 1 3\n5 2 4\n";
    assert_eq!(rt; text.as_slice(), lines.as_slice());
    Ok(())
}
