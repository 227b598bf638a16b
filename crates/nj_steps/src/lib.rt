//! A counter of steps that nobody who is only lent it can set back: [`Steps`]. It is opened from the
//! blank of its ledger, and a borrower of the counter has no blank of that name, so he can neither
//! open another of the same type nor put one in its place. One blank opens one counter, or a list of
//! them. A caller that counts nothing opens his from `Blank::new(1)`.
//!
//! What one step stands for is said where `tick` is called.
#![tactic(auto)]

ghost use Rattle.std.specs.Prelude.{◌≡◌, ◌+◌, ◌-◌, ◌^◌, ◌≤◌, min, replicate, IfOk};

use std::alloc::{AllocError, Global};
use std::marker::{Model, PhantomData};
use std::sync::ledger::{Blank, Ledger};

/// How many steps were taken, at most 2^64 - 1. Only `tick` changes it.
pub struct Steps<L: Ledger> {
    count: u64,
    of: PhantomData<L>,
}

impl<L: Ledger> Model for Steps<L> {
    ghost use Rattle.std.specs.Prelude.{ℕ};

    ghost Value = { ℕ };

    ghost view = { λ s. s.count };
}

impl<L: Ledger> Drop for Steps<L> {
    fn drop(self) {
        let Steps { count: _, of: _ } = self;
    }
}

impl<L: Ledger> Steps<L> {
    /// A counter at 0.
    pub fn open(blank: Blank) -> Steps<L>
        requires { blank.name ≡ L.name }
        ensures { result ≡ 0 }
    {
        drop(blank);
        Steps::zero()
    }

    /// As many counters as asked for, each at 0.
    pub fn open_many(alloc: Global, blank: Blank, many: usize) -> Result<Vec<Steps<L>>, AllocError>
        requires { blank.name ≡ L.name }
        ensures { IfOk result (λ counters. counters.items ≡ replicate many 0) }
    {
        drop(blank);
        let mut counters = Vec::with_capacity(alloc, many)?;
        for _ in 0..many {
            counters.push(Steps::zero())?;
        }
        Ok(counters)
    }

    fn zero() -> Steps<L>
        ensures { result ≡ 0 }
    {
        Steps {
            count: 0,
            of: PhantomData,
        }
    }

    /// Counts one step. At 2^64 - 1 the count stands still.
    pub fn tick(&mut self)
        ensures one_more { self.new ≡ min (self.old + 1) (2 ^ 64 - 1) }
        ensures at_most_one { self.new ≤ self.old + 1 }
        ensures never_falls { self.old ≤ self.new }
    {
        self.count = self.count.saturating_add(1);
    }

    /// The steps counted so far.
    pub fn count(&self) -> u64
        ensures { result ≡ self.now }
    {
        self.count
    }
}

#[cfg(test)]
mod tests {
    use super::*;
    use std::marker::Brand;
    use std::test::Fail;

    fn ticked<L: Ledger>(alloc: Global, blank: Blank) -> Result<(u64, u64), AllocError>
        requires { blank.name ≡ L.name }
    {
        let mut counters = Steps::<L>::open_many(alloc, blank, 3)?;
        for counter in counters.iter_mut() {
            counter.tick();
            counter.tick();
        }
        let sum = counters
            .iter()
            .fold(0u64, |sum, counter| sum.wrapping_add(counter.count()));
        Ok((counters.len() as u64, sum))
    }

    fn ticked_once<L: Ledger>(blank: Blank) -> u64
        requires { blank.name ≡ L.name }
    {
        let mut counter = Steps::<L>::open(blank);
        counter.tick();
        counter.count()
    }

    #[test]
    fn counts_up_from_zero(rt: HostRuntime) -> Result<(), Fail> {
        assert_eq!(rt; ticked::<Brand>(rt.alloc(), Blank::new(1))?, (3, 6));
        assert_eq!(rt; ticked_once::<Brand>(Blank::new(1)), 1);
        Ok(())
    }
}
