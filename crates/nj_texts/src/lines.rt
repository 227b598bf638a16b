//! The first lines that commands write.

ghost use Rattle.std.specs.Prelude.{◌≡◌, IfOk, codes, if◌then◌else◌};
ghost use Rattle.nj_texts.specs.Lines.{clean_line, exhausted_line, is_win, outcome_line, replay_line, workload_line};

use nj_replay::Replayed;
use nj_rules::Verdict;
use nj_seq::Text;
use std::alloc::{AllocError, Global};

/// The first line of an outcome that has a movie, by its word.
#[tactic(auto, unfolding(crate::specs::Lines::outcome_line))]
pub fn outcome_line(
    alloc: Global,
    word: &str,
    step: u32,
    frames: u64,
    reward: i64,
) -> Result<Text, AllocError>
    ensures { IfOk result (λ text. text ≡ outcome_line word.now step frames reward) }
{
    let line = format!(in alloc; "# {word} step={step} frames={frames} reward={reward}\n")?;
    Ok(Text::from_string(line))
}

/// The line of a search that was exhausted at a step.
#[tactic(auto, unfolding(crate::specs::Lines::exhausted_line))]
pub fn exhausted_line(alloc: Global, step: u32) -> Result<Text, AllocError>
    ensures { IfOk result (λ text. text ≡ exhausted_line step) }
{
    let line = format!(in alloc; "# exhausted step={step}\n")?;
    Ok(Text::from_string(line))
}

/// Whether the verdict is a win.
pub fn is_win(verdict: Verdict) -> bool
    ensures { result ≡ is_win verdict }
{
    match verdict {
        Verdict::Win => true,
        Verdict::Go | Verdict::Fail => false,
    }
}

fn outcome_word(is_won: bool) -> &'static str
    ensures { result.now ≡ (if is_won then codes "won" else codes "notwon") }
{
    if is_won { "won" } else { "notwon" }
}

/// The line of a replay.
pub fn replay_line(alloc: Global, replayed: Replayed) -> Result<Text, AllocError>
    ensures { IfOk result (λ text. text ≡ replay_line replayed) }
{
    let outcome = outcome_word(is_win(replayed.verdict));
    let Replayed {
        step,
        frames,
        reward,
        verdict: _,
    } = replayed;
    outcome_line(alloc, outcome, step, u64::from(frames), reward)
}

/// The line of a cleaned movie: what it comes to, and how many presses were released.
#[tactic(auto, unfolding(crate::specs::Lines::clean_line))]
pub fn clean_line(alloc: Global, released: u32, replayed: Replayed) -> Result<Text, AllocError>
    ensures { IfOk result (λ text. text ≡ clean_line released replayed) }
{
    let Replayed {
        step,
        frames,
        reward,
        verdict: _,
    } = replayed;
    let line = format!(in alloc;
        "# clean step={step} frames={frames} reward={reward} released={released}\n"
    )?;
    Ok(Text::from_string(line))
}

/// The line of a workload: its number and the bytes of its cartridge.
#[tactic(auto, unfolding(crate::specs::Lines::workload_line))]
pub fn workload_line(alloc: Global, number: u64, size: u64) -> Result<Text, AllocError>
    ensures { IfOk result (λ text. text ≡ workload_line number size) }
{
    let line = format!(in alloc; "# workload number={number} size={size}\n")?;
    Ok(Text::from_string(line))
}
