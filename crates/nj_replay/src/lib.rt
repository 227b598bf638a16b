//! The replayer: what a movie comes to, run from power-on and judged at the end of each step.
//!
//! A movie is first read as a word: it has to be the start movie, followed by each pad of the word held for a step.
//! Only then the machine runs, and what is told is what the game of specs/Words of nj_game says of that word. Read
//! `word_of` (specs/Reading) and then `replay_of` (specs/Replay) first.
#![tactic(auto)]

ghost use Rattle.std.specs.Prelude.{◌≡◌, ◌≤◌, ◌+◌, ◌^◌, ◌⊎◌, length, MatchResult, Ok, Err};
ghost use Rattle.nj_game.specs.Plan.{plan_of};
ghost use Rattle.nj_replay.specs.Replay.{replay_of};
ghost use Rattle.nj_replay.specs.declared.ReplayRefused.{ReplayRefused};

mod laws;
mod reading;
mod running;

pub use laws::{a_movie_is_read_as_its_word, a_replay_tells_of_its_word};
pub use nj_machine::Cart;
pub use nj_movie::Movie;
pub use nj_rules::Verdict;
pub use nj_script::Script;
pub use nj_steps::Steps;
use reading::read_word;
use running::Run;
use std::alloc::{AllocError, Global};
use std::sync::ledger::Ledger;

/// What a movie comes to.
#[derive(Clone, Copy, Debug, PartialEq, Eq)]
pub struct Replayed {
    /// The steps behind the start movie.
    pub step: u32,
    /// The frames of the whole movie.
    pub frames: u32,
    /// The reward at the end of the last step.
    pub reward: i64,
    /// The verdict at the end of the last step.
    pub verdict: Verdict,
}

/// Why a movie is no start movie followed by whole steps. Frames are counted from 0.
#[derive(Clone, Copy, Debug, PartialEq, Eq)]
pub enum ReplayRefused {
    /// The first frame where the movie differs from the start movie or ends before it.
    NotStart { frame: u64 },
    /// The first frame that differs from the first of its step, or the movie's length where the last step is short.
    NotHeld { frame: u64 },
    /// Memory ran out.
    NoMemory,
}

impl From<AllocError> for ReplayRefused {
    ghost use Rattle.std.specs.Prelude.{◌≡◌};
    ghost use Rattle.nj_replay.specs.declared.ReplayRefused.TheVariants.{NoMemory};

    ghost from_gives = { λ _ refused. refused ≡ NoMemory };

    fn from(_error: AllocError) -> Self {
        ReplayRefused::NoMemory
    }
}

/// What a movie comes to that begins as the start movie and holds each pad behind it for a step: the rules judge the
/// state at the end of the start, and of each step. A movie that is refused runs no frame.
pub fn replay<L: Ledger>(
    alloc: Global,
    cart: &Cart,
    script: &Script,
    start: &Movie,
    movie: &Movie,
    steps: &mut Steps<L>,
) -> Result<Replayed, ReplayRefused>
    requires { length movie.now ≤ 2 ^ 20 }
    ensures answer { MatchResult result
        (λ replayed. replay_of (plan_of cart.now script.now start.now) movie.now ≡ Ok replayed)
        (λ refused. (refused ≡ ReplayRefused.NoMemory)
        ⊎ (replay_of (plan_of cart.now script.now start.now) movie.now ≡ Err refused)) }
    ensures frames { steps.new ≤ steps.old + length movie.now }
    ensures never_falls { steps.old ≤ steps.new }
    ensures refused { (refused : ReplayRefused)
        → replay_of (plan_of cart.now script.now start.now) movie.now ≡ Err refused → steps.new ≡ steps.old }
{
    let hold = script.hold();
    let behind = read_word(hold, start.pads(), movie.pads())?;
    let mut run = Run::begin(alloc, cart, script, start, steps)?;
    let step = run.follow(script.rules(), hold, behind, steps);
    Ok(run.replayed(step, movie.pads().len() as u32))
}
