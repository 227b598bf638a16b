//! `replay CART SCRIPT START MOVIE`: what a movie comes to, as the rules judge it.

ghost use Rattle.std.specs.Prelude.{◌≡◌, ◌≤◌, ◌^◌, length, None};
ghost use Rattle.nj_commands.specs.Replay.{replay_finding};

use nj_ines::Cart;
use nj_movie::Movie;
use nj_replay::{ReplayRefused, Replayed, replay};
use nj_script::Script;
use nj_seq::Text;
use nj_steps::Steps;
use nj_tasks::{
    CartFormat, File, Job, MovieFormat, Reply, ScriptFormat, Stop, Task, bytes_of, named, refused,
};
use nj_texts::{Kind, is_win, replay_line};
use std::alloc::{AllocError, Global};
use std::sync::ledger::Ledger;

/// The status of a movie that does not win.
pub const NOT_WON: u8 = 10;

/// What `replay` does. A movie that is refused runs no frame.
#[derive(Clone, Copy)]
pub struct Replay;

/// The task of `replay`.
pub fn replayed<'a>(
    cart: &'a Text,
    script: &'a Text,
    start: &'a Text,
    movie: &'a Text,
) -> Task<
    (
        (File<'a, CartFormat>, File<'a, ScriptFormat>),
        (File<'a, MovieFormat>, File<'a, MovieFormat>),
    ),
    Replay,
>
    ensures cart { result.source.0.0.name.now ≡ cart.now }
    ensures script { result.source.0.1.name.now ≡ script.now }
    ensures start { result.source.1.0.name.now ≡ start.now }
    ensures movie { result.source.1.1.name.now ≡ movie.now }
{
    let game = (named(CartFormat, cart), named(ScriptFormat, script));
    let movies = (named(MovieFormat, start), named(MovieFormat, movie));
    Task {
        source: (game, movies),
        job: Replay,
    }
}

impl Job<((Cart, Script), (Movie, Movie))> for Replay {
    type Found = Replayed;

    ghost finding = { λ _. replay_finding };

    ghost needs = { λ _ said. length said.1.1 ≤ 2 ^ 20 };

    #[tactic(auto, unfolding(crate::specs::Replay::replay_finding))]
    fn find<L: Ledger>(
        &self,
        alloc: Global,
        said: ((Cart, Script), (Movie, Movie)),
        steps: &mut Steps<L>,
    ) -> Result<Replayed, Stop> {
        let ((cart, script), (start, movie)) = said;
        match replay(alloc, &cart, &script, &start, &movie, steps) {
            Ok(replayed) => Ok(replayed),
            Err(ReplayRefused::NoMemory) => Err(Stop::NoMemory),
            Err(refusal) => Err(refused(alloc, Kind::Movie, &refusal)),
        }
    }

    #[tactic(auto, unfolding(crate::specs::Replay::replay_finding))]
    fn reply(&self, alloc: Global, found: Replayed) -> Result<Reply, AllocError> {
        let status = if is_win(found.verdict) { 0 } else { NOT_WON };
        let line = replay_line(alloc, found)?;
        Ok(Reply::of(status, bytes_of(line)))
    }
}
