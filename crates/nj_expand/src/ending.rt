//! The end of a step: a winner, nothing that is kept, or the kept as the next front.

ghost use Rattle.std.specs.Prelude.{◌≡◌, ◌≤◌, ◌<◌, ◌+◌, ◌*◌, [], false, true, max, length, IfOk, OnOk, OnErr, if◌then◌else◌, nat_lt};
ghost use Rattle.nj_candidate.specs.Front.{size_in, image_at};
ghost use Rattle.nj_expand.specs.Held.{live_rows, kept_in};
ghost use Rattle.nj_expand.specs.Step.{IsStep};
ghost use Rattle.nj_expand.specs.Closed.{AreRowsOf, IsClosedFor};
ghost use Rattle.nj_expand.specs.Ending.{top_of_rows, IsPrepared, AreFew};
ghost use Rattle.nj_expand.specs.Kept.{IsAgain, ArePartsOf, IsKept, IsChosen};

use crate::Stepped;
use crate::kept::{Chosen, Kept};
use crate::search::{Mark, Search};
use crate::tables::{Prepared, put};
use nj_candidate::{Again, a_candidate_is_told_by_its_parent, an_image_stands_for_its_word};
use nj_game::a_word_goes_on;
use nj_rows::{Row, keep_quota, order_is_preference, winner};
use nj_rules::allowed_pads_come_once;
use nj_seen::seen_is_told;
use nj_steps::Steps;
use std::alloc::{AllocError, Global};
use std::mem;
use std::sync::ledger::Ledger;

// The greatest level of rows.
fn top_level(rows: &[Row]) -> u32
    ensures { result ≡ top_of_rows rows.now }
{
    let mut top = 0;
    for row in rows {
        top = row.level.max(top);
    }
    top
}

// The mark, raised where this top level is above it.
fn raised(mark: Mark, top: u32, until: u32) -> Mark
    ensures level { result.level ≡ (if nat_lt mark.level top then top else mark.level) }
    ensures until { result.until ≡ (if nat_lt mark.level top then until else mark.until) }
{
    if mark.level < top {
        Mark { level: top, until }
    } else {
        mark
    }
}

impl Search {
    /// Ends a step of one thread, by the rows of all its live candidates by rising number: finds the winner, or makes
    /// the kept the front by running them again. The new keys go into the search's own table, which is copied only
    /// where a generation is forgotten. After want of memory the search is spent.
    pub fn finish_alone<L: Ledger>(
        &mut self,
        alloc: Global,
        rows: Vec<Row>,
        steps: &mut Steps<L>,
    ) -> Result<Stepped, AllocError>
        requires spent { self.old.spent ≡ false }
        requires step { self.old.state.step < 16777215 }
        requires rows { rows.items ≡ live_rows self.old }
        ensures next { IfOk result (λ stepped. IsStep self.old stepped self.new) }
        ensures spent { OnErr result (self.new.spent ≡ true) }
        ensures plan { self.new.plan ≡ self.old.plan }
        ensures bounds { self.new.bounds ≡ self.old.bounds }
        ensures frames { steps.new ≤ steps.old + self.old.plan.script.hold * length (kept_in self.old) }
        ensures never_falls { steps.old ≤ steps.new }
    {
        let ended = self.end_alone(alloc, rows.as_slice(), steps);
        if ended.is_err() {
            self.spend();
        }
        ended
    }

    // The end of a step of one thread. After want of memory plan and bounds are as before.
    fn end_alone<L: Ledger>(
        &mut self,
        alloc: Global,
        rows: &[Row],
        steps: &mut Steps<L>,
    ) -> Result<Stepped, AllocError>
        requires step { self.old.state.step < 16777215 }
        requires rows { rows.now ≡ live_rows self.old }
        ensures next { IfOk result (λ stepped. IsStep self.old stepped self.new) }
        ensures plan { self.new.plan ≡ self.old.plan }
        ensures bounds { self.new.bounds ≡ self.old.bounds }
        ensures frames { steps.new ≤ steps.old + self.old.plan.script.hold * length (kept_in self.old) }
        ensures never_falls { steps.old ≤ steps.new }
    {
        let prepared = self.prepare_alone(alloc, rows)?;
        match self.chosen(alloc, rows, prepared)? {
            Chosen::Ended(stepped) => Ok(stepped),
            Chosen::Keeps(kept) => {
                let again = self.run_again(alloc, kept.rows.as_slice(), steps)?;
                self.move_on(alloc, kept, again)?;
                Ok(Stepped::Go)
            }
        }
    }

    /// Chooses of a step's rows, which are rows of its live candidates in any order, by the table that was closed
    /// after the claims of all of them: the winner, or what is kept. The table may have been opened with the seen keys
    /// that are not forgotten, with the newest of their generations, or with no key. Behind it come
    /// [`Search::run_again`], by one thread or several, and [`Search::go_on`].
    pub fn choose(
        &self,
        alloc: Global,
        rows: Vec<Row>,
        words: Vec<u64>,
    ) -> Result<Chosen, AllocError>
        requires step { self.now.state.step < 16777215 }
        requires rows { AreRowsOf self.now rows.items }
        requires words { IsClosedFor self.now words.items }
        ensures { IfOk result (IsChosen self.now) }
    {
        let prepared = self.prepare_closed(alloc, rows.as_slice(), words.as_slice())?;
        self.chosen(alloc, rows.as_slice(), prepared)
    }

    // What is chosen of the rows of a step that is prepared.
    fn chosen(&self, alloc: Global, rows: &[Row], prepared: Prepared) -> Result<Chosen, AllocError>
        requires prepared { IsPrepared self.now rows.now prepared }
        ensures { IfOk result (IsChosen self.now) }
    {
        self.few_pads();
        order_is_preference();
        if let Some(row) = winner(rows) {
            return Ok(Chosen::Ended(Stepped::Won { row }));
        }
        let Prepared {
            fresh: mut kept,
            table,
            keys,
        } = prepared;
        let quota = self.script.quota();
        keep_quota(alloc, &mut kept, self.bounds.front as usize, quota)?;
        if kept.is_empty() {
            return Ok(Chosen::Ended(Stepped::Exhausted));
        }
        Ok(Chosen::Keeps(Kept {
            rows: kept,
            table,
            keys,
        }))
    }

    // How many pads may follow a word.
    pub(crate) fn few_pads(&self)
        ensures { AreFew self.now }
    {
        allowed_pads_come_once();
        a_candidate_is_told_by_its_parent();
        let _bounds = &self.bounds;
    }

    /// Makes what a step keeps the front, by its states in parts, each of a run of neighbours. The new keys go into
    /// the search's own table, which is copied only where a generation is forgotten. After want of memory the state is
    /// as before, and nothing that is kept is left.
    pub fn go_on(&mut self, alloc: Global, kept: Kept, parts: Vec<Again>) -> Result<(), AllocError>
        requires step { self.old.state.step < 16777215 }
        requires kept { IsKept self.old kept }
        requires parts { ArePartsOf self.old kept.rows.items parts.items }
        ensures next { OnOk result (IsStep self.old Stepped.Go self.new) }
        ensures plan { self.new.plan ≡ self.old.plan }
        ensures bounds { self.new.bounds ≡ self.old.bounds }
    {
        self.images_are_long();
        let mut parts = parts;
        parts.reverse();
        let Some(mut all) = parts.pop() else {
            unreachable!()
        };
        while let Some(part) = parts.pop() {
            all.append(part)?;
        }
        self.move_on(alloc, kept, all)
    }

    // The start's image is as long as all.
    fn images_are_long(&self)
        ensures { length (image_at self.now.plan []) ≡ size_in self.now.plan }
    {
        let _pool = &self.pool;
    }

    // Makes what a step keeps the front, by its states.
    fn move_on(&mut self, alloc: Global, kept: Kept, again: Again) -> Result<(), AllocError>
        requires step { self.old.state.step < 16777215 }
        requires kept { IsKept self.old kept }
        requires again { IsAgain self.old kept.rows.items again }
        ensures next { OnOk result (IsStep self.old Stepped.Go self.new) }
        ensures plan { self.new.plan ≡ self.old.plan }
        ensures bounds { self.new.bounds ≡ self.old.bounds }
    {
        self.few_pads();
        order_is_preference();
        a_word_goes_on();
        an_image_stands_for_its_word();
        seen_is_told();
        let Kept { rows, table, keys } = kept;
        let Again { pool, judged } = again;
        self.pool.next_front(pool)?;
        self.judged = judged;
        self.step += 1;
        let own = mem::replace(&mut self.words, Vec::new(alloc));
        self.words = put(own, table, self.step as u64);
        self.keys = keys;
        self.mark = raised(
            self.mark,
            top_level(rows.as_slice()),
            self.step + self.script.tolerance(),
        );
        Ok(())
    }
}
