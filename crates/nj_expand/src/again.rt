//! The states of the rows that are kept, run again into a new pool.

ghost use Rattle.std.specs.Prelude.{◌≤◌, ◌<◌, ◌+◌, ◌*◌, All, length, IfOk};
ghost use Rattle.nj_machine.specs.Image.{image_len};
ghost use Rattle.nj_candidate.specs.Again.{parent_of};
ghost use Rattle.nj_expand.specs.Kept.{IsAgain};

use crate::search::Search;
use nj_candidate::{Again, an_image_stands_for_its_word, run_rows};
use nj_machine::Machine;
use nj_rows::Row;
use nj_steps::Steps;
use std::alloc::{AllocError, Global};
use std::sync::ledger::Ledger;

impl Search {
    /// Runs the states of rows again from the front, one after another, each for the frames of a step. Several threads
    /// may run others at once.
    pub fn run_again<L: Ledger>(
        &self,
        alloc: Global,
        rows: &[Row],
        steps: &mut Steps<L>,
    ) -> Result<Again, AllocError>
        requires parents { All (λ row. parent_of row < length self.now.state.front) rows.now }
        requires few { length rows.now ≤ self.now.bounds.most }
        ensures again { IfOk result (IsAgain self.now rows.now) }
        ensures frames { steps.new ≤ steps.old + self.now.plan.script.hold * length rows.now }
        ensures never_falls { steps.old ≤ steps.new }
    {
        an_image_stands_for_its_word();
        let mut machine = Machine::power_on(alloc, &self.cart)?;
        let limit = self.bounds.front * (machine.image_len() as u64 + 16);
        run_rows(
            alloc,
            &mut machine,
            &self.pool,
            self.judged.as_slice(),
            rows,
            &self.script,
            limit,
            steps,
        )
    }
}
