//! The pads of a movie's steps, and their presses.

ghost use Rattle.std.specs.Prelude.{◌≡◌, ◌≤◌, ◌^◌, ◌++◌, ◌∷◌, ℕ, List, length, replicate, IfOk};
ghost use Rattle.nj_game.specs.Plan.{held_pads};
ghost use Rattle.nj_replay.specs.Reading.{first_from, first_pads};
ghost use Rattle.nj_clean.specs.Presses.{presses, without};

use nj_movie::Movie;
use nj_pad::{Button, Pad};
use std::alloc::{AllocError, Global};

// One more frame of a step of which so many frames are left; the answer is how many are left then.
fn take_pad(word: &mut Vec<Pad>, hold: u32, left: u32, pad: Pad) -> Result<u32, AllocError>
    requires { 1 ≤ hold }
    ensures { IfOk result (λ n. (rest : List ℕ)
        → word.new.items ++ first_from hold n rest ≡ word.old.items ++ first_from hold left (pad ∷ rest)) }
{
    if left == 0 {
        word.push(pad)?;
        Ok(hold - 1)
    } else {
        Ok(left - 1)
    }
}

/// The first pad of each step.
pub fn first_pads(alloc: Global, hold: u32, behind: &[Pad]) -> Result<Vec<Pad>, AllocError>
    requires { 1 ≤ hold }
    ensures { IfOk result (λ word. word.items ≡ first_pads hold behind.now) }
{
    let mut word = Vec::new(alloc);
    let mut left = 0;
    for pad in behind {
        left = take_pad(&mut word, hold, left, *pad)?;
    }
    Ok(word)
}

fn push_held(movie: &mut Movie, hold: u32, pad: Pad) -> Result<(), AllocError>
    ensures { IfOk result (λ _. movie.new ≡ movie.old ++ replicate hold pad) }
{
    for _frame in 0..hold {
        movie.push(pad)?;
    }
    Ok(())
}

/// The movie of a word: the start, and then each pad for the frames of a step.
pub fn movie_of(alloc: Global, start: &[Pad], hold: u32, word: &[Pad]) -> Result<Movie, AllocError>
    ensures { IfOk result (λ movie. movie ≡ start.now ++ held_pads hold word.now) }
{
    let mut movie = Movie::from_pads(Vec::from_slice(alloc, start)?);
    for pad in word {
        push_held(&mut movie, hold, *pad)?;
    }
    Ok(movie)
}

/// How many presses a word has.
pub fn press_count(word: &[Pad]) -> u32
    requires { length word.now ≤ 2 ^ 20 }
    ensures { result ≡ length (presses word.now) }
{
    let mut count = 0;
    for pad in word {
        count += pad.0.count_ones();
    }
    count
}

/// The pad without the button.
pub fn without(pad: Pad, button: Button) -> Pad
    ensures { result ≡ without button pad }
{
    if pad.is_pressed(button) {
        Pad(pad.0 - (1 << (button as u8)))
    } else {
        pad
    }
}
