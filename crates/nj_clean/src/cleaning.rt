//! A movie that wins, cleaned.

ghost use Rattle.std.specs.Prelude.{◌≡◌, ◌≤◌, ◌<◌, ◌+◌, ◌-◌, ◌^◌, ◌++◌, ℕ, List, true, All, length, IfOk, MatchResult, Ok};
ghost use Rattle.nj_rules.specs.declared.record.Verdict.TheVariants.{Win};
ghost use Rattle.nj_search_defs.specs.Game.{Word};
ghost use Rattle.nj_game.specs.Plan.{movie_of, held_pads};
ghost use Rattle.nj_replay.specs.Reading.{word_of};
ghost use Rattle.nj_replay.specs.Replay.{replay_of};
ghost use Rattle.nj_clean.specs.declared.CleanEnd.TheVariants.{Cleaned};
ghost use Rattle.nj_clean.specs.Presses.{presses};
ghost use Rattle.nj_clean.specs.Sweeps.{is_win};
ghost use Rattle.nj_clean.specs.Bench.{plan_in, IsWon};
ghost use Rattle.nj_clean.specs.Clean.{clean_of, clean_frames};

use crate::CleanEnd;
use crate::bench::Setting;
use crate::presses::{first_pads, movie_of, press_count};
use crate::sweeping::{Won, clear};
use nj_movie::Movie;
use nj_pad::Pad;
use nj_replay::{ReplayRefused, Replayed, Verdict, a_movie_is_read_as_its_word};
use nj_script::Script;
use nj_steps::Steps;
use std::alloc::{AllocError, Global};
use std::sync::ledger::Ledger;

/// A movie is that of the word that it is read as.
pub fn a_read_movie_is_its_words(script: &Script)
    ensures { (start movie : List ℕ) (word : Word) → word_of script.now.hold start movie ≡ Ok word
        → movie ≡ start ++ held_pads script.now.hold word }
{
    a_movie_is_read_as_its_word();
    let _hold = script.hold();
}

// The word of a movie that wins, where a replay told this of it.
fn won_word(
    alloc: Global,
    setting: Setting,
    movie: &Movie,
    replayed: Replayed,
) -> Result<Won, AllocError>
    requires few { length movie.now ≤ 2 ^ 20 }
    requires told { replay_of (plan_in setting) movie.now ≡ Ok replayed }
    requires won { is_win replayed.verdict ≡ true }
    ensures word { IfOk result
        (λ won. word_of setting.entry.script.now.hold setting.entry.start.now movie.now ≡ Ok won.word.items) }
    ensures won { IfOk result (λ won. IsWon (plan_in setting.entry) won) }
    ensures bytes { IfOk result (λ won. All (λ pad. pad < 256) won.word.items) }
    ensures few { IfOk result (λ won. length won.word.items ≤ 2 ^ 20) }
{
    a_read_movie_is_its_words(setting.script);
    let pads = movie.pads();
    let (_, behind) = pads.split_at(setting.start.pads().len());
    let word = first_pads(alloc, setting.script.hold(), behind)?;
    Ok(won_of(word, replayed))
}

fn won_of(word: Vec<Pad>, replayed: Replayed) -> Won
    ensures { result ≡ record { word = word; reward = replayed.reward } }
{
    Won {
        word,
        reward: replayed.reward,
    }
}

// What is told of a word that wins and has as many steps and frames as another.
fn told_of(replayed: Replayed, won: &Won) -> Replayed
    ensures { result
        ≡ record { step = replayed.step; frames = replayed.frames; reward = won.now.reward; verdict = Win } }
{
    Replayed {
        step: replayed.step,
        frames: replayed.frames,
        reward: won.reward,
        verdict: Verdict::Win,
    }
}

// What is told of a cleaned word, of which so many presses were given.
fn told_clean(
    alloc: Global,
    setting: Setting,
    given: u32,
    replayed: Replayed,
    won: &Won,
) -> Result<CleanEnd, AllocError>
    requires few { length won.now.word.items ≤ 2 ^ 20 }
    requires fewer { length (presses won.now.word.items) ≤ given }
    ensures { IfOk result (λ end. end
        ≡ Cleaned (movie_of (plan_in setting.entry) won.now.word.items) (given - length (presses won.now.word.items))
        (record { step = replayed.step; frames = replayed.frames; reward = won.now.reward; verdict = Win })) }
{
    let word = won.word.as_slice();
    let released = given - press_count(word);
    let movie = movie_of(alloc, setting.start.pads(), setting.script.hold(), word)?;
    Ok(CleanEnd::Cleaned {
        movie,
        released,
        replayed: told_of(replayed, won),
    })
}

/// What a movie that wins is cleaned to, where a replay told this of it.
pub fn cleaned_end<L: Ledger>(
    alloc: Global,
    setting: Setting,
    movie: &Movie,
    replayed: Replayed,
    steps: &mut Steps<L>,
) -> Result<CleanEnd, AllocError>
    requires few { length movie.now ≤ 2 ^ 20 }
    requires told { replay_of (plan_in setting) movie.now ≡ Ok replayed }
    requires won { is_win replayed.verdict ≡ true }
    ensures answer { IfOk result (λ end. clean_of (plan_in setting.entry) movie.now ≡ Ok end) }
    ensures frames { steps.new + length movie.now ≤ steps.old + clean_frames (plan_in setting.entry) movie.now }
    ensures never_falls { steps.old ≤ steps.new }
{
    a_read_movie_is_its_words(setting.script);
    let mut won = won_word(alloc, setting, movie, replayed)?;
    let given = press_count(won.word.as_slice());
    clear(alloc, setting, &mut won, steps)?;
    told_clean(alloc, setting, given, replayed, &won)
}
