ghost use Rattle.std.specs.Prelude.{◌≡◌};

use crate::data::{goal, in_pairs, of_goal, pairs, walk};
use nj_pad::Pad;
use nj_replay::{Cart, Movie, ReplayRefused, Replayed, Script, Steps, Verdict, replay};
use std::alloc::{AllocError, Global};
use std::marker::Brand;
use std::sync::ledger::{Blank, Ledger};
use std::test::Fail;

/// 16 KiB of zeros but for the walking program and the vectors, and 8 KiB of zeros.
pub(crate) fn file(alloc: Global) -> Result<Vec<u8>, AllocError> {
    let mut file = Vec::from_slice(alloc, &[b'N', b'E', b'S', 0x1A, 1, 1])?;
    file.resize(16, 0)?;
    file.extend_from_slice(walk())?;
    file.resize(16 + 0x3FFA, 0)?;
    file.extend_from_slice(&[0x09, 0x80, 0x00, 0x80, 0x00, 0x80])?;
    file.resize(24_592, 0)?;
    Ok(file)
}

/// The cartridge of that file.
pub(crate) fn cartridge(alloc: Global) -> Result<Cart, Fail> {
    let file = file(alloc)?;
    Ok(Cart::read(alloc, file.as_slice()).map_err(|_| "no cartridge")?)
}

/// The script of a text.
pub(crate) fn script(alloc: Global, text: &str) -> Result<Script, Fail> {
    Ok(Script::read(alloc, text.as_bytes()).map_err(|_| "no script")?)
}

/// A movie of these frames, Right where an R stands.
pub(crate) fn movie(alloc: Global, pads: &[u8]) -> Result<Movie, AllocError> {
    let mut movie = Movie::new(alloc);
    for pad in pads {
        movie.push(Pad(if *pad == b'R' { 0x80 } else { 0 }))?;
    }
    Ok(movie)
}

// What comes of a movie behind three frames without a button, and how many frames were run.
fn outcome<L: Ledger>(
    alloc: Global,
    blank: Blank,
    script: &Script,
    played: &Movie,
) -> Result<(Result<Replayed, ReplayRefused>, u64), Fail>
    requires { blank.name ≡ L.name }
{
    let cart = cartridge(alloc)?;
    let start = movie(alloc, b"...")?;
    if played.pads().len() > 100 {
        return Err(Fail::from("a long movie"));
    }
    let mut steps = Steps::<L>::open(blank);
    let told = replay(alloc, &cart, script, &start, played, &mut steps);
    Ok((told, steps.count()))
}

// The same, as the rows of `data` say it.
fn answer(
    alloc: Global,
    told: Result<Replayed, ReplayRefused>,
    run: u64,
) -> Result<String, AllocError> {
    match told {
        Ok(told) => {
            let (step, frames, reward) = (told.step, told.frames, told.reward);
            let won = if told.verdict == Verdict::Win {
                " won"
            } else {
                ""
            };
            format!(in alloc; "step={step} frames={frames} reward={reward}{won}, {run} run")
        }
        Err(ReplayRefused::NotStart { frame }) => {
            format!(in alloc; "not the start at {frame}, {run} run")
        }
        Err(ReplayRefused::NotHeld { frame }) => {
            format!(in alloc; "not held at {frame}, {run} run")
        }
        Err(ReplayRefused::NoMemory) => Err(AllocError),
    }
}

#[test]
fn movies_with_a_goal(rt: HostRuntime) -> Result<(), Fail> {
    let alloc = rt.alloc();
    let script = script(alloc, goal())?;
    for row in of_goal().lines() {
        let (pads, wanted) = row.split_once(" => ").ok_or("no arrow")?;
        let played = movie(alloc, pads.as_bytes())?;
        let (told, run) = outcome::<Brand>(alloc, Blank::new(1), &script, &played)?;
        let told = answer(alloc, told, run)?;
        assert_eq!(rt; told.as_str(), wanted, "{row}");
    }
    Ok(())
}

#[test]
fn movies_in_pairs_of_frames(rt: HostRuntime) -> Result<(), Fail> {
    let alloc = rt.alloc();
    let script = script(alloc, pairs())?;
    for row in in_pairs().lines() {
        let (pads, wanted) = row.split_once(" => ").ok_or("no arrow")?;
        let played = movie(alloc, pads.as_bytes())?;
        let (told, run) = outcome::<Brand>(alloc, Blank::new(1), &script, &played)?;
        let told = answer(alloc, told, run)?;
        assert_eq!(rt; told.as_str(), wanted, "{row}");
    }
    Ok(())
}
