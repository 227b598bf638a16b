//! `play CART MOVIE`: the working memory after a movie.

ghost use Rattle.std.specs.Prelude.{◌≡◌, ◌+◌, ◌≤◌, length, fold, IfOk, None};
ghost use Rattle.nj_machine.specs.Frame.{frame, play};
ghost use Rattle.nj_commands.specs.Play.{play_finding, play_text};

use nj_ines::Cart;
use nj_machine::Machine;
use nj_movie::Movie;
use nj_pad::Pad;
use nj_seq::{Seq, Text};
use nj_steps::Steps;
use nj_tasks::{CartFormat, File, Job, MovieFormat, Reply, Stop, Task, bytes_of, named};
use nj_texts::memory_text;
use std::alloc::{AllocError, Global};
use std::sync::ledger::Ledger;

/// What `play` does.
#[derive(Clone, Copy)]
pub struct Play;

/// The task of `play`.
pub fn played<'a>(
    cart: &'a Text,
    movie: &'a Text,
) -> Task<(File<'a, CartFormat>, File<'a, MovieFormat>), Play>
    ensures cart { result.source.0.name.now ≡ cart.now }
    ensures movie { result.source.1.name.now ≡ movie.now }
{
    Task {
        source: (named(CartFormat, cart), named(MovieFormat, movie)),
        job: Play,
    }
}

impl Job<(Cart, Movie)> for Play {
    type Found = Seq<u8>;

    ghost finding = { λ _. play_finding };

    #[tactic(auto, unfolding(crate::specs::Play::play_finding))]
    fn find<L: Ledger>(
        &self,
        alloc: Global,
        said: (Cart, Movie),
        steps: &mut Steps<L>,
    ) -> Result<Seq<u8>, Stop> {
        let (cart, movie) = said;
        let text = played_text(alloc, &cart, &movie, steps)?;
        Ok(bytes_of(text))
    }

    #[tactic(auto, unfolding(crate::specs::Play::play_finding))]
    fn reply(&self, _alloc: Global, found: Seq<u8>) -> Result<Reply, AllocError> {
        Ok(Reply::of(0, found))
    }
}

/// The text of a played movie: the machine's working memory after it, from power-on. It runs a frame for each pad.
fn played_text<L: Ledger>(
    alloc: Global,
    cart: &Cart,
    movie: &Movie,
    steps: &mut Steps<L>,
) -> Result<Text, AllocError>
    ensures text { IfOk result (λ text. text ≡ play_text (length movie.now) (play cart.now movie.now)) }
    ensures frames { steps.new ≤ steps.old + length movie.now }
    ensures never_falls { steps.old ≤ steps.new }
{
    let mut machine = Machine::power_on(alloc, cart)?;
    run_frames(&mut machine, movie.pads(), steps);
    memory_text(alloc, movie.pads().len(), machine.jammed(), machine.ram())
}

// A call of its own: where LLVM sees the machine as a local variable, it reads four bytes of registers of which two
// were just stored, and a processor waits for each such read.
#[inline(never)]
fn run_frames<L: Ledger>(machine: &mut Machine, pads: &[Pad], steps: &mut Steps<L>)
    ensures state { machine.new ≡ fold (λ s pad. (frame s pad).0) machine.old pads.now }
    ensures frames { steps.new ≤ steps.old + length pads.now }
    ensures never_falls { steps.old ≤ steps.new }
{
    for pad in pads {
        machine.frame(*pad, steps);
    }
}
