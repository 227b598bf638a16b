//! Movies, and what each is cleaned to.

ghost use Rattle.std.specs.Prelude.{◌≡◌};

use crate::data::{goal, pairs_to_win};
use crate::movies::{cartridge, script};
use nj_clean::{CleanEnd, Movie, ReplayRefused, Replayed, Script, Steps, Verdict, clean};
use nj_pad::Pad;
use std::alloc::Global;
use std::marker::Brand;
use std::sync::ledger::{Blank, Ledger};
use std::test::Fail;

const R: u8 = 0x80;

const A: u8 = 0x01;

fn movie(alloc: Global, pads: &[u8]) -> Result<Movie, Fail> {
    let mut movie = Movie::new(alloc);
    for pad in pads {
        movie.push(Pad(*pad))?;
    }
    Ok(movie)
}

// What is told of a movie behind three frames without a button: the pads of its cleaned movie, how many presses were
// released, and what it comes to; no pads where it does not win.
fn outcome<L: Ledger>(
    alloc: Global,
    blank: Blank,
    script: &Script,
    pads: &[u8],
) -> Result<(Vec<u8>, u32, Result<Replayed, ReplayRefused>, u64), Fail>
    requires { blank.name ≡ L.name }
{
    let cart = cartridge(alloc)?;
    let start = movie(alloc, &[0, 0, 0])?;
    let played = movie(alloc, pads)?;
    let mut steps = Steps::<L>::open(blank);
    let mut bytes = Vec::new(alloc);
    if played.pads().len() > 100 {
        return Ok((bytes, 0, Err(ReplayRefused::NoMemory), 0));
    }
    let (released, told) = match clean(alloc, &cart, script, &start, &played, &mut steps) {
        Ok(
            CleanEnd::Cleaned {
                movie,
                released,
                replayed,
            },
        ) => {
            for pad in movie.pads() {
                bytes.push(pad.0)?;
            }
            (released, Ok(replayed))
        }
        Ok(CleanEnd::NotWon { replayed }) => (0, Ok(replayed)),
        Err(refused) => (0, Err(refused)),
    };
    Ok((bytes, released, told, steps.count()))
}

fn told(step: u32, frames: u32, reward: i64, verdict: Verdict) -> Result<Replayed, ReplayRefused> {
    Ok(Replayed {
        step,
        frames,
        reward,
        verdict,
    })
}

#[test]
fn what_movies_are_cleaned_to(rt: HostRuntime) -> Result<(), Fail> {
    let goal = script(rt.alloc(), goal())?;
    let (pads, released, told_of, _) = outcome::<Brand>(
        rt.alloc(),
        Blank::new(1),
        &goal,
        &[0, 0, 0, R + A, R, R, R, R],
    )?;
    assert_eq!(rt; pads.as_slice(), [0, 0, 0, R, R, R, R, R].as_slice());
    assert_eq!(rt; (released, told_of), (1, told(5, 8, 105, Verdict::Win)));
    let (pads, released, told_of, _) = outcome::<Brand>(
        rt.alloc(),
        Blank::new(1),
        &goal,
        &[0, 0, 0, R, R, R, R, R, R],
    )?;
    assert_eq!(rt; pads.as_slice(), [0, 0, 0, 0, R, R, R, R, R].as_slice());
    assert_eq!(rt; (released, told_of), (1, told(6, 9, 105, Verdict::Win)));
    Ok(())
}

#[test]
fn what_is_not_cleaned(rt: HostRuntime) -> Result<(), Fail> {
    let goal = script(rt.alloc(), goal())?;
    let (pads, _, told_of, frames) = outcome::<Brand>(
        rt.alloc(),
        Blank::new(1),
        &goal,
        &[0, 0, 0, R, R, R, R],
    )?;
    assert_eq!(rt;
        (pads.len(), told_of, frames),
        (0, told(4, 7, 4, Verdict::Go), 7)
    );
    let (_, _, told_of, frames) = outcome::<Brand>(rt.alloc(), Blank::new(1), &goal, &[0, 0])?;
    assert_eq!(rt;
        (told_of, frames),
        (Err(ReplayRefused::NotStart { frame: 2 }), 0)
    );
    Ok(())
}

// A press is released in both frames of its step. At two frames a step Right counts in each, so that one step wins.
#[test]
fn presses_of_two_frames(rt: HostRuntime) -> Result<(), Fail> {
    let pairs = script(rt.alloc(), pairs_to_win())?;
    let (pads, released, told_of, _) = outcome::<Brand>(
        rt.alloc(),
        Blank::new(1),
        &pairs,
        &[0, 0, 0, R, R, R + A, R + A],
    )?;
    assert_eq!(rt; pads.as_slice(), [0, 0, 0, 0, 0, R, R].as_slice());
    assert_eq!(rt; (released, told_of), (2, told(2, 7, 102, Verdict::Win)));
    Ok(())
}
