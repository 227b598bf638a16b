//! `clean CART SCRIPT START MOVIE`: a movie that wins, without the presses that its win does not need.

ghost use Rattle.std.specs.Prelude.{◌≡◌, ◌≤◌, ◌++◌, ◌^◌, length, IfOk, None};
ghost use Rattle.nj_movie.specs.Text.{movie_text};
ghost use Rattle.nj_texts.specs.Lines.{clean_line};
ghost use Rattle.nj_commands.specs.Clean.{clean_finding};

use crate::replay::NOT_WON;
use nj_clean::{CleanEnd, clean};
use nj_ines::Cart;
use nj_movie::{Movie, write_movie};
use nj_replay::{ReplayRefused, Replayed};
use nj_script::Script;
use nj_seq::{Seq, Text};
use nj_steps::Steps;
use nj_tasks::{
    CartFormat, File, Job, MovieFormat, Reply, ScriptFormat, Stop, Task, bytes_of, named, refused,
};
use nj_texts::{Kind, clean_line, replay_line};
use std::alloc::{AllocError, Global};
use std::sync::ledger::Ledger;

/// What `clean` does. A movie that is refused runs no frame.
#[derive(Clone, Copy)]
pub struct Clean;

/// The task of `clean`.
pub fn cleaned<'a>(
    cart: &'a Text,
    script: &'a Text,
    start: &'a Text,
    movie: &'a Text,
) -> Task<
    (
        (File<'a, CartFormat>, File<'a, ScriptFormat>),
        (File<'a, MovieFormat>, File<'a, MovieFormat>),
    ),
    Clean,
>
    ensures cart { result.source.0.0.name.now ≡ cart.now }
    ensures script { result.source.0.1.name.now ≡ script.now }
    ensures start { result.source.1.0.name.now ≡ start.now }
    ensures movie { result.source.1.1.name.now ≡ movie.now }
{
    let game = (named(CartFormat, cart), named(ScriptFormat, script));
    let movies = (named(MovieFormat, start), named(MovieFormat, movie));
    Task {
        source: (game, movies),
        job: Clean,
    }
}

impl Job<((Cart, Script), (Movie, Movie))> for Clean {
    type Found = CleanEnd;

    ghost finding = { λ _. clean_finding };

    ghost needs = { λ _ said. length said.1.1 ≤ 2 ^ 20 };

    #[tactic(auto, unfolding(crate::specs::Clean::clean_finding))]
    fn find<L: Ledger>(
        &self,
        alloc: Global,
        said: ((Cart, Script), (Movie, Movie)),
        steps: &mut Steps<L>,
    ) -> Result<CleanEnd, Stop> {
        let ((cart, script), (start, movie)) = said;
        match clean(alloc, &cart, &script, &start, &movie, steps) {
            Ok(end) => Ok(end),
            Err(ReplayRefused::NoMemory) => Err(Stop::NoMemory),
            Err(refusal) => Err(refused(alloc, Kind::Movie, &refusal)),
        }
    }

    #[tactic(auto, unfolding(crate::specs::Clean::clean_finding, crate::specs::Clean::clean_text))]
    fn reply(&self, alloc: Global, found: CleanEnd) -> Result<Reply, AllocError> {
        match found {
            CleanEnd::Cleaned {
                movie,
                released,
                replayed,
            } => {
                let text = cleaned_text(alloc, &movie, released, replayed)?;
                Ok(Reply::of(0, text))
            }
            CleanEnd::NotWon { replayed } => {
                let line = replay_line(alloc, replayed)?;
                Ok(Reply::of(NOT_WON, bytes_of(line)))
            }
        }
    }
}

fn cleaned_text(
    alloc: Global,
    movie: &Movie,
    released: u32,
    replayed: Replayed,
) -> Result<Seq<u8>, AllocError>
    ensures { IfOk result (λ text. text ≡ clean_line released replayed ++ movie_text movie.now) }
{
    let line = clean_line(alloc, released, replayed)?;
    let mut text = bytes_of(line);
    let lines = write_movie(alloc, movie)?;
    text.extend_from_slice(lines.as_slice())?;
    Ok(text)
}
