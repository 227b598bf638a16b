//! The movie of a word.

ghost use Rattle.std.specs.Prelude.{◌≡◌, ◌++◌, replicate, OnOk};
ghost use Rattle.nj_game.specs.Plan.{held_pads};

use nj_movie::Movie;
use nj_pad::Pad;
use std::alloc::AllocError;

// So many frames of a pad.
fn push_pad(movie: &mut Movie, hold: u32, pad: Pad) -> Result<(), AllocError>
    ensures { OnOk result (movie.new ≡ movie.old ++ replicate hold pad) }
{
    for _frame in 0..hold {
        movie.push(pad)?;
    }
    Ok(())
}

/// Each pad of a word for the frames of a step.
pub fn push_word(movie: &mut Movie, hold: u32, word: &[u8]) -> Result<(), AllocError>
    ensures { OnOk result (movie.new ≡ movie.old ++ held_pads hold word.now) }
{
    for pad in word {
        push_pad(movie, hold, Pad(*pad))?;
    }
    Ok(())
}
