//! A movie that wins, without the presses that its win does not need. A press is a button that is held in one step
//! behind the start; sweeps go through the presses and release each whose release leaves a movie that wins, until a
//! sweep releases none. A press is tried from the image of the state in front of it, so that no try runs the steps
//! before it again. Read `swept` and `cleaned` (specs/Sweeps.antt) first.
#![tactic(auto)]

ghost use Rattle.std.specs.Prelude.{◌≡◌, ◌≤◌, ◌+◌, ◌^◌, ◌⊎◌, length, MatchResult, Ok, Err};
ghost use Rattle.nj_game.specs.Plan.{plan_of};
ghost use Rattle.nj_clean.specs.Clean.{clean_of, clean_frames};

mod bench;
mod cleaning;
mod laws;
mod presses;
mod sweeping;

use bench::Setting;
use cleaning::{a_read_movie_is_its_words, cleaned_end};
pub use laws::{a_cleaned_word_needs_each_press, sweeps_come_to_an_end};
pub use nj_machine::Cart;
pub use nj_movie::Movie;
use nj_replay::replay;
pub use nj_replay::{ReplayRefused, Replayed, Verdict};
pub use nj_script::Script;
pub use nj_steps::Steps;
use std::alloc::Global;
use std::sync::ledger::Ledger;
use sweeping::is_win;

/// What a movie is cleaned to.
#[derive(Drop)]
pub enum CleanEnd {
    /// The movie without the presses that its win does not need, how many they are, and what it comes to.
    Cleaned {
        movie: Movie,
        released: u32,
        replayed: Replayed,
    },
    /// The movie does not win; what it comes to.
    NotWon {
        replayed: Replayed,
    },
}

/// Releases each press that a movie's win does not need. The movie is read as in a replay, with the same refusals.
/// With p presses behind the start and F frames at most F x (1 + p x (p + 1)) frames are run, and none where it is
/// refused.
pub fn clean<L: Ledger>(
    alloc: Global,
    cart: &Cart,
    script: &Script,
    start: &Movie,
    movie: &Movie,
    steps: &mut Steps<L>,
) -> Result<CleanEnd, ReplayRefused>
    requires { length movie.now ≤ 2 ^ 20 }
    ensures answer { MatchResult result (λ end. clean_of (plan_of cart.now script.now start.now) movie.now ≡ Ok end)
        (λ refused. (refused ≡ ReplayRefused.NoMemory)
        ⊎ (clean_of (plan_of cart.now script.now start.now) movie.now ≡ Err refused)) }
    ensures frames { steps.new ≤ steps.old + clean_frames (plan_of cart.now script.now start.now) movie.now }
    ensures never_falls { steps.old ≤ steps.new }
{
    a_read_movie_is_its_words(script);
    let replayed = replay(alloc, cart, script, start, movie, steps)?;
    if !is_win(replayed.verdict) {
        return Ok(CleanEnd::NotWon { replayed });
    }
    let setting = Setting {
        cart,
        script,
        start,
    };
    let end = cleaned_end(alloc, setting, movie, replayed, steps)?;
    Ok(end)
}
