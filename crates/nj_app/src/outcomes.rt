//! The text of an outcome: its first line, and the lines of its movie.

ghost use Rattle.std.specs.Prelude.{◌≡◌, ◌++◌, IfOk};
ghost use Rattle.nj_tasks.specs.Causes.{IsCarriedOut};
ghost use Rattle.nj_app.specs.Outcomes.{outcome_head, outcome_lines, outcome_status, outcome_text};

use nj_movie::write_movie;
use nj_search::Outcome;
use nj_seq::{Seq, Text};
use nj_tasks::bytes_of;
use nj_texts::{exhausted_line, outcome_line};
use std::alloc::{AllocError, Global};

/// The first line of the text.
pub fn outcome_head(alloc: Global, outcome: &Outcome) -> Result<Text, AllocError>
    ensures { IfOk result (λ text. text ≡ outcome_head outcome.now) }
{
    match outcome {
        Outcome::Won {
            step,
            reward,
            movie,
        } => outcome_line(alloc, "won", *step, movie.pads().len() as u64, *reward),
        Outcome::Exhausted { step } => exhausted_line(alloc, *step),
        Outcome::Limit {
            step,
            reward,
            movie,
        } => outcome_line(alloc, "limit", *step, movie.pads().len() as u64, *reward),
    }
}

// The lines of the movie, where there is one.
fn outcome_lines(alloc: Global, outcome: &Outcome) -> Result<Vec<u8>, AllocError>
    ensures { IfOk result (λ lines. lines.items ≡ outcome_lines outcome.now) }
{
    match outcome {
        Outcome::Won { movie, .. } => write_movie(alloc, movie),
        Outcome::Exhausted { .. } => Ok(Vec::new(alloc)),
        Outcome::Limit { movie, .. } => write_movie(alloc, movie),
    }
}

/// The text of an outcome.
#[tactic(auto, unfolding(crate::specs::Outcomes::outcome_text))]
pub fn outcome_text(alloc: Global, outcome: &Outcome) -> Result<Seq<u8>, AllocError>
    ensures { IfOk result (λ text. text ≡ outcome_text outcome.now) }
{
    let head = outcome_head(alloc, outcome)?;
    let mut text = bytes_of(head);
    let lines = outcome_lines(alloc, outcome)?;
    text.extend_from_slice(lines.as_slice())?;
    Ok(text)
}

/// The status of an outcome.
pub fn outcome_status(outcome: &Outcome) -> u8
    ensures value { result ≡ outcome_status outcome.now }
    ensures carried_out { IsCarriedOut result }
{
    match outcome {
        Outcome::Won { .. } => 0,
        Outcome::Exhausted { .. } => 1,
        Outcome::Limit { .. } => 2,
    }
}
