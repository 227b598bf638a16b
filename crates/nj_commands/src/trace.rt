//! `trace CART MOVIE`: what the processor does in one frame of a movie.

ghost use Rattle.std.specs.Prelude.{◌≡◌, ◌≤◌, None};
ghost use Rattle.nj_commands.specs.Trace.{trace_finding};

use nj_ines::Cart;
use nj_movie::Movie;
use nj_seq::{Seq, Text};
use nj_steps::Steps;
use nj_tasks::{CartFormat, File, Job, MovieFormat, Reply, Stop, Task, named, refused};
use nj_texts::Kind;
use nj_trace::{TraceRefused, trace};
use std::alloc::{AllocError, Global};
use std::sync::ledger::Ledger;

/// What `trace` does. A frame that the movie does not have runs no frame.
#[derive(Clone, Copy)]
pub struct Trace {
    /// The frame; the first is 1.
    pub frame: u32,
}

/// The task of `trace`.
pub fn traced<'a>(
    cart: &'a Text,
    movie: &'a Text,
    frame: u32,
) -> Task<(File<'a, CartFormat>, File<'a, MovieFormat>), Trace>
    ensures cart { result.source.0.name.now ≡ cart.now }
    ensures movie { result.source.1.name.now ≡ movie.now }
    ensures frame { result.job.frame ≡ frame }
{
    Task {
        source: (named(CartFormat, cart), named(MovieFormat, movie)),
        job: Trace { frame },
    }
}

impl Job<(Cart, Movie)> for Trace {
    type Found = Seq<u8>;

    ghost finding = { λ job. trace_finding job.frame };

    ghost needs = { λ job _. 1 ≤ job.frame };

    #[tactic(auto, unfolding(crate::specs::Trace::trace_finding))]
    fn find<L: Ledger>(
        &self,
        alloc: Global,
        said: (Cart, Movie),
        steps: &mut Steps<L>,
    ) -> Result<Seq<u8>, Stop> {
        let (cart, movie) = said;
        match trace(alloc, &cart, &movie, self.frame, steps) {
            Ok(text) => Ok(Seq::from_vec(text)),
            Err(TraceRefused::NoMemory) => Err(Stop::NoMemory),
            Err(refusal) => Err(refused(alloc, Kind::Movie, &refusal)),
        }
    }

    #[tactic(auto, unfolding(crate::specs::Trace::trace_finding))]
    fn reply(&self, _alloc: Global, found: Seq<u8>) -> Result<Reply, AllocError> {
        Ok(Reply::of(0, found))
    }
}
