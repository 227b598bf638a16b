//! What a search saves of its state.

ghost use Rattle.std.specs.Prelude.{◌≡◌, false, length, IfOk};
ghost use Rattle.std.specs.List.{concat};
ghost use Rattle.nj_expand.specs.Saving.{saved_of};

use crate::search::Search;
use nj_pool::FrontPool;
use nj_saved::{Saved, Seq};
use nj_seen::generations;
use std::alloc::{AllocError, Global};

// The words of a front, one behind the other.
fn words_in(alloc: Global, front: &FrontPool) -> Result<Seq<u8>, AllocError>
    requires { length front.now.images ≡ length front.now.words }
    ensures { IfOk result (λ words. words ≡ concat front.now.words) }
{
    let mut words = Seq::new(alloc);
    for place in 0..front.len() {
        let word = front.word_of(alloc, place)?;
        words.extend_from_slice(word.as_slice())?;
    }
    Ok(words)
}

impl Search {
    /// What a search that goes on later needs: the words of the front, the seen keys by generation, and the mark. The
    /// numbers of the two files are 0.
    #[tactic(auto, unfolding(crate::specs::Saving::saved_of))]
    pub fn save(&self, alloc: Global) -> Result<Saved, AllocError>
        requires spent { self.now.spent ≡ false }
        ensures { IfOk result (λ saved. saved ≡ saved_of self.now.state) }
    {
        let words = words_in(alloc, &self.pool)?;
        let keys = generations(alloc, self.words.as_slice(), self.keys, self.step as u64)?;
        Ok(Saved {
            cart: 0,
            script: 0,
            step: self.step,
            level: self.mark.level,
            until: self.mark.until,
            words,
            generations: keys,
        })
    }
}
