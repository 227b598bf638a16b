//! `watch CART SCRIPT MOVIE`: the values of a script's properties after each frame of a movie.

ghost use Rattle.std.specs.Prelude.{◌≡◌, None};
ghost use Rattle.nj_commands.specs.Watch.{watch_finding};

use nj_ines::Cart;
use nj_movie::Movie;
use nj_script::Script;
use nj_seq::{Seq, Text};
use nj_steps::Steps;
use nj_tasks::{CartFormat, File, Job, MovieFormat, Reply, ScriptFormat, Stop, Task, named};
use nj_trace::watch;
use std::alloc::{AllocError, Global};
use std::sync::ledger::Ledger;

/// What `watch` does.
#[derive(Clone, Copy)]
pub struct Watch;

/// The task of `watch`.
pub fn watched<'a>(
    cart: &'a Text,
    script: &'a Text,
    movie: &'a Text,
) -> Task<
    (
        (File<'a, CartFormat>, File<'a, ScriptFormat>),
        File<'a, MovieFormat>,
    ),
    Watch,
>
    ensures cart { result.source.0.0.name.now ≡ cart.now }
    ensures script { result.source.0.1.name.now ≡ script.now }
    ensures movie { result.source.1.name.now ≡ movie.now }
{
    let game = (named(CartFormat, cart), named(ScriptFormat, script));
    Task {
        source: (game, named(MovieFormat, movie)),
        job: Watch,
    }
}

impl Job<((Cart, Script), Movie)> for Watch {
    type Found = Seq<u8>;

    ghost finding = { λ _. watch_finding };

    #[tactic(auto, unfolding(crate::specs::Watch::watch_finding))]
    fn find<L: Ledger>(
        &self,
        alloc: Global,
        said: ((Cart, Script), Movie),
        steps: &mut Steps<L>,
    ) -> Result<Seq<u8>, Stop> {
        let ((cart, script), movie) = said;
        let text = watch(alloc, &cart, &script, &movie, steps)?;
        Ok(Seq::from_vec(text))
    }

    #[tactic(auto, unfolding(crate::specs::Watch::watch_finding))]
    fn reply(&self, _alloc: Global, found: Seq<u8>) -> Result<Reply, AllocError> {
        Ok(Reply::of(0, found))
    }
}
