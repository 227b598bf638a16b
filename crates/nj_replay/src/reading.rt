//! A movie, read as the start movie and the word behind it.

ghost use Rattle.std.specs.Prelude.{◌≡◌, ◌≤◌, ◌^◌, length, Option, Some, None, MatchResult, IfSome, IfOk, Ok, Err, drop, ◌+◌};
ghost use Rattle.nj_game.specs.Plan.{held_pads};
ghost use Rattle.nj_replay.specs.Reading.{first_left, first_pads, word_of};

use crate::ReplayRefused;
use nj_pad::Pad;

// The first frame where a movie leaves the other.
#[tactic(auto, using(crate::proofs::Leaving::left_length))]
fn first_left(whole: &[Pad], movie: &[Pad]) -> Option<usize>
    ensures frame { result ≡ first_left whole.now movie.now }
    ensures within { result ≡ None → length whole.now ≤ length movie.now }
{
    for (frame, pad) in whole.iter().enumerate() {
        let Some(shown) = movie.get(frame) else {
            return Some(frame);
        };
        if shown.0 != pad.0 {
            return Some(frame);
        }
    }
    None
}

// The first frame that is not its step's first pad, or the end where the last step is short.
fn first_unheld(hold: u32, behind: &[Pad]) -> Option<usize>
    requires { 1 ≤ hold }
    ensures frame { result ≡ first_left (held_pads hold (first_pads hold behind.now)) behind.now }
    ensures within { IfSome result (λ frame. frame ≤ length behind.now) }
{
    let mut held = 0;
    let mut left = 0;
    for (frame, pad) in behind.iter().enumerate() {
        if left == 0 {
            held = pad.0;
            left = hold - 1;
        } else if pad.0 == held {
            left -= 1;
        } else {
            return Some(frame);
        }
    }
    if left == 0 { None } else { Some(behind.len()) }
}

/// The frames of the word behind the start.
pub fn read_word<'a>(hold: u32, start: &[Pad], movie: &'a [Pad]) -> Result<&'a [Pad], ReplayRefused>
    requires hold { 1 ≤ hold }
    requires few { length movie.now ≤ 2 ^ 20 }
    ensures word { MatchResult result (λ behind. word_of hold start.now movie.now ≡ Ok (first_pads hold behind.now))
        (λ refused. word_of hold start.now movie.now ≡ Err refused) }
    ensures whole { IfOk result (λ behind. behind.now ≡ held_pads hold (first_pads hold behind.now)) }
    ensures len { IfOk result (λ behind. length movie.now ≡ length start.now + length behind.now) }
{
    if let Some(frame) = first_left(start, movie) {
        return Err(ReplayRefused::NotStart {
            frame: frame as u64,
        });
    }
    let (_, behind) = movie.split_at(start.len());
    if let Some(frame) = first_unheld(hold, behind) {
        return Err(ReplayRefused::NotHeld {
            frame: (start.len() + frame) as u64,
        });
    }
    Ok(behind)
}
