//! Strings of bytes, one behind the other in one buffer.

ghost use Rattle.std.specs.Prelude.{◌≡◌, ◌+◌, ◌^◌, ◌<◌, ◌≤◌, [], ◌∷◌, ◌++◌, All, length, map, get_or, slice_range, vec_len, vec_capacity, is_ok, if◌then◌else◌};
ghost use Rattle.nj_pool.specs.Strings.{strings_in, start_in, AreEnds};

use std::alloc::{AllocError, Global};
use std::marker::Model;

/// A list of strings of bytes, which takes no memory for each of them.
#[derive(Drop)]
pub(crate) struct Strings {
    bytes: Vec<u8>,
    ends: Vec<usize>,
}

impl Model for Strings {
    ghost use Rattle.std.specs.Prelude.{ℕ, List, length};
    ghost use Rattle.nj_pool.specs.Strings.{strings_in, AreEnds};

    ghost Value = { List (List ℕ) };

    ghost view = { λ s. strings_in 0 s.ends.items s.bytes.items };

    ghost invariant = { λ s. AreEnds 0 s.ends.items (length s.bytes.items) };
}

impl Strings {
    pub(crate) fn new(alloc: Global) -> Strings
        ensures { result ≡ [] }
    {
        Strings {
            bytes: Vec::new(alloc),
            ends: Vec::new(alloc),
        }
    }

    pub(crate) fn len(&self) -> usize
        ensures { result ≡ length self.now }
    {
        self.ends.len()
    }

    pub(crate) fn at(&self, place: usize) -> &[u8]
        requires { place < length self.now }
        ensures { result.now ≡ get_or self.now place [] }
    {
        string_at(self.bytes.as_slice(), self.ends.as_slice(), place)
    }

    // Adds a string. Without memory the list is as before.
    pub(crate) fn push(&mut self, string: &[u8]) -> Result<(), AllocError>
        ensures { self.new ≡ (if is_ok result then self.old ++ string.now ∷ [] else self.old) }
    {
        self.ends.reserve(1)?;
        self.bytes.extend_from_slice(string)?;
        self.ends.push_reserved(self.bytes.len());
        Ok(())
    }

    // Adds all strings of another list. Without memory the list is as before.
    pub(crate) fn append(&mut self, other: Strings) -> Result<(), AllocError>
        ensures { self.new ≡ (if is_ok result then self.old ++ other else self.old) }
    {
        let Strings { bytes, ends } = other;
        let start = self.bytes.len();
        self.ends.reserve(ends.len())?;
        self.bytes.extend_from_slice(bytes.as_slice())?;
        push_ends(&mut self.ends, ends.as_slice(), start);
        Ok(())
    }
}

// Adds the ends of strings that begin at a place.
fn push_ends(ends: &mut Vec<usize>, more: &[usize], start: usize)
    requires small { All (λ end. start + end < 2 ^ 64) more.now }
    requires room { vec_len ends.old + length more.now ≤ vec_capacity ends.old }
    ensures { ends.new.items ≡ ends.old.items ++ map (λ end. start + end) more.now }
{
    for end in more {
        ends.push_reserved(start + *end);
    }
}

// The string at a place.
fn string_at<'a>(bytes: &'a [u8], ends: &[usize], place: usize) -> &'a [u8]
    requires ends { AreEnds 0 ends.now (length bytes.now) }
    requires place { place < length ends.now }
    ensures { result.now ≡ get_or (strings_in 0 ends.now bytes.now) place [] }
{
    part(bytes, start_of(ends, place), ends[place])
}

// Where the string at a place begins: at the end of the one before.
fn start_of(ends: &[usize], place: usize) -> usize
    requires { place < length ends.now }
    ensures { result ≡ start_in 0 ends.now place }
{
    if place == 0 { 0 } else { ends[place - 1] }
}

// The bytes from a place up to another.
fn part(bytes: &[u8], start: usize, end: usize) -> &[u8]
    requires in_order { start ≤ end }
    requires within { end ≤ length bytes.now }
    ensures { result.now ≡ slice_range bytes.now start end }
{
    &bytes[start..end]
}
