ghost use Rattle.std.specs.Prelude.{◌≡◌, ◌+◌, ◌<◌, [], ◌∷◌, ◌++◌, length, take, get_or, is_ok, IfOk, if◌then◌else◌};
ghost use Rattle.nj_pool.specs.Words.{HaveParents, words_after, IsLinked, grown};

use crate::birth::Birth;
use nj_seq::Seq;
use std::alloc::{AllocError, Global};
use std::marker::Model;

/// The words of a front, as a trail of parents: whole words, and the births of each step since.
#[derive(Drop)]
pub(crate) struct Trail {
    roots: Vec<Seq<u8>>,
    steps: Vec<Seq<Birth>>,
}

impl Model for Trail {
    ghost use Rattle.std.specs.Prelude.{length};
    ghost use Rattle.nj_pool.specs.Words.{Grown, words_after, IsLinked};

    ghost Value = { Grown };

    ghost view = { λ t. record { words = words_after t.roots.items t.steps.items; depth = length t.steps.items } };

    ghost invariant = { λ t. IsLinked t.roots.items t.steps.items };
}

impl Trail {
    pub(crate) fn new(alloc: Global) -> Trail
        ensures { result ≡ record { words = []; depth = 0 } }
    {
        Trail {
            roots: Vec::new(alloc),
            steps: Vec::new(alloc),
        }
    }

    // Adds a whole word, before any step.
    pub(crate) fn push_root(&mut self, alloc: Global, word: &[u8]) -> Result<(), AllocError>
        requires { self.old.depth ≡ 0 }
        ensures { self.new
            ≡ (if is_ok result then record self.old { words = self.old.words ++ word.now ∷ [] } else self.old) }
    {
        push_copy(alloc, &mut self.roots, word)
    }

    // The number of whole words.
    pub(crate) fn roots(&self) -> usize
        requires { self.now.depth ≡ 0 }
        ensures { result ≡ length self.now.words }
    {
        self.roots.len()
    }

    // Only so many whole words, before any step.
    pub(crate) fn truncate(&mut self, count: usize)
        requires { self.old.depth ≡ 0 }
        ensures { self.new ≡ record self.old { words = take count self.old.words } }
    {
        self.roots.truncate(count);
    }

    // The words one step on.
    pub(crate) fn grow(&mut self, born: Seq<Birth>) -> Result<(), AllocError>
        requires { HaveParents self.old.words born }
        ensures { self.new ≡ (if is_ok result then grown born self.old else self.old) }
    {
        push_step(&mut self.steps, born)
    }

    // The word at a place of the front.
    pub(crate) fn word_of(&self, alloc: Global, place: usize) -> Result<Vec<u8>, AllocError>
        requires { place < length self.now.words }
        ensures { IfOk result (λ word. word.items ≡ get_or self.now.words place []) }
    {
        walk_back(alloc, self.roots.as_slice(), self.steps.as_slice(), place)
    }
}

// The word at a place, its last pads first: each from its birth, and the rest from the whole word.
fn walk_back(
    alloc: Global,
    roots: &[Seq<u8>],
    steps: &[Seq<Birth>],
    place: usize,
) -> Result<Vec<u8>, AllocError>
    requires linked { IsLinked roots.now steps.now }
    requires within { place < length (words_after roots.now steps.now) }
    ensures { IfOk result (λ word. word.items ≡ get_or (words_after roots.now steps.now) place []) }
{
    let mut back = Vec::new(alloc);
    let mut at = place;
    let mut left = steps.len();
    while left > 0 {
        left -= 1;
        let birth = *steps[left].at(at);
        back.push(birth.pad)?;
        at = birth.parent as usize;
    }
    back.reverse();
    let mut word = Vec::from_slice(alloc, roots[at].as_slice())?;
    word.extend_from_slice(back.as_slice())?;
    Ok(word)
}

// Adds a step. Without memory the list is as before.
fn push_step(steps: &mut Vec<Seq<Birth>>, born: Seq<Birth>) -> Result<(), AllocError>
    ensures { steps.new.items ≡ (if is_ok result then steps.old.items ++ born ∷ [] else steps.old.items) }
{
    match steps.push(born) {
        Ok(()) => Ok(()),
        Err(_) => Err(AllocError),
    }
}

// Adds a copy of the bytes. Without memory the list is as before.
fn push_copy(alloc: Global, list: &mut Vec<Seq<u8>>, bytes: &[u8]) -> Result<(), AllocError>
    ensures { list.new.items ≡ (if is_ok result then list.old.items ++ bytes.now ∷ [] else list.old.items) }
{
    let copy = Seq::from_slice(alloc, bytes)?;
    match list.push(copy) {
        Ok(()) => Ok(()),
        Err(_) => Err(AllocError),
    }
}
