//! The claim table at the end of a step: which rows are fresh by it, and what it becomes.

ghost use Rattle.std.specs.Prelude.{◌≡◌, ◌<◌, ◌+◌, ℕ, List, IfOk};
ghost use Rattle.std.specs.List.Sorted.{IsPermutation};
ghost use Rattle.nj_seen.specs.Held.{keys_in_rows};
ghost use Rattle.nj_expand.specs.Held.{live_rows};
ghost use Rattle.nj_expand.specs.Closed.{AreRowsOf, IsClosedFor};
ghost use Rattle.nj_expand.specs.Ending.{fresh_rows_in, HoldsLeft, IsLeft, IsReady, IsPrepared, IsNewTable, IsMade, CanAdd, IsAdded, CanPut, IsPut};

use crate::laws::{a_step_is_bounded, live_rows_are_live, live_rows_can_claim};
use crate::search::Search;
use nj_claims::entries_are_the_map;
use nj_rows::{Row, any_order_is_one};
use nj_seen::{
    SeenKeys, add_keys, added_keys_are_seen, fresh_keys_are_new, keys_of, left, owned_unseen,
    owned_unseen_is_fresh, room, rows_in_any_order, seen_keys_stand, unseen,
};
use std::alloc::{AllocError, Global};

/// What becomes of the search's table where the step goes on.
#[derive(Drop)]
pub(crate) enum NewTable {
    /// These keys are added to it, with the next step as their owner.
    Own(Vec<u64>),
    /// This table stands in its place.
    Made(Vec<u64>),
}

/// A step before its end: its fresh rows, and the table and the seen keys after it.
#[derive(Drop)]
pub(crate) struct Prepared {
    pub(crate) fresh: Vec<Row>,
    pub(crate) table: NewTable,
    pub(crate) keys: SeenKeys,
}

/// The table after a step that goes on.
pub(crate) fn put(own: Vec<u64>, table: NewTable, step: u64) -> Vec<u64>
    requires { CanPut own.items table }
    ensures { IsPut own.items step table result.items }
{
    match table {
        NewTable::Made(words) => words,
        NewTable::Own(keys) => {
            let mut words = own;
            add_keys(words.as_mut_slice(), keys.as_slice(), step);
            words
        }
    }
}

impl Search {
    /// Prepares the end of a step of one thread.
    pub(crate) fn prepare_alone(&self, alloc: Global, rows: &[Row]) -> Result<Prepared, AllocError>
        requires step { self.now.state.step < 16777215 }
        requires rows { rows.now ≡ live_rows self.now }
        ensures { IfOk result (IsPrepared self.now rows.now) }
    {
        self.few_pads();
        live_rows_can_claim();
        let left = self.left();
        let fresh = unseen(alloc, rows, self.words(), left.oldest)?;
        let prepared = self.prepare(alloc, left, fresh)?;
        Ok(prepared)
    }

    /// Prepares the end of a step by rows in any order and the table that was closed after the claims.
    pub(crate) fn prepare_closed(
        &self,
        alloc: Global,
        rows: &[Row],
        claims: &[u64],
    ) -> Result<Prepared, AllocError>
        requires step { self.now.state.step < 16777215 }
        requires rows { AreRowsOf self.now rows.now }
        requires claims { IsClosedFor self.now claims.now }
        ensures { IfOk result (IsPrepared self.now rows.now) }
    {
        self.few_pads();
        live_rows_can_claim();
        rows_in_any_order();
        owned_unseen_is_fresh();
        let left = self.left();
        let fresh = owned_unseen(alloc, rows, claims, self.words(), left.oldest)?;
        let prepared = self.prepare(alloc, left, fresh)?;
        Ok(prepared)
    }

    // Prepares the end of a step by its fresh rows, in any order.
    fn prepare(
        &self,
        alloc: Global,
        left: SeenKeys,
        fresh: Vec<Row>,
    ) -> Result<Prepared, AllocError>
        requires step { self.now.state.step < 16777215 }
        requires left { IsLeft self.now left }
        requires fresh { IsPermutation fresh.items (fresh_rows_in self.now) }
        ensures { IfOk result (IsReady self.now) }
    {
        any_order_is_one();
        let keys = keys_of(alloc, fresh.as_slice())?;
        let count = left.count + keys.len() as u64;
        let table = self.new_table(alloc, left, keys)?;
        Ok(Prepared {
            fresh,
            table,
            keys: SeenKeys {
                oldest: left.oldest,
                count,
            },
        })
    }

    // What the keys of the fresh rows make of the table.
    fn new_table(
        &self,
        alloc: Global,
        left: SeenKeys,
        keys: Vec<u64>,
    ) -> Result<NewTable, AllocError>
        requires step { self.now.state.step < 16777215 }
        requires left { IsLeft self.now left }
        requires keys { IsPermutation (keys_in_rows (fresh_rows_in self.now)) keys.items }
        ensures { IfOk result (IsNewTable self.now) }
    {
        if left.oldest == self.keys.oldest {
            self.may_add();
            return Ok(NewTable::Own(keys));
        }
        let words = self.made(alloc, keys.as_slice())?;
        Ok(NewTable::Made(words))
    }

    // The keys of the fresh rows, in any order, can be added to a table without the generations that are forgotten.
    fn may_add(&self)
        ensures can { (words keys : List ℕ) → HoldsLeft self.now words
            → IsPermutation (keys_in_rows (fresh_rows_in self.now)) keys → CanAdd words keys }
        ensures adds { (before keys after : List ℕ) → HoldsLeft self.now before
            → IsPermutation (keys_in_rows (fresh_rows_in self.now)) keys
            → IsAdded before keys (self.now.state.step + 1) after → IsMade self.now after }
    {
        self.few_pads();
        live_rows_can_claim();
        live_rows_are_live();
        a_step_is_bounded();
        fresh_keys_are_new();
        added_keys_are_seen();
        seen_keys_stand();
        let _bounds = self.bounds();
        let _words = self.front_len();
    }

    // A table without the generations that are forgotten.
    fn kept(&self, alloc: Global) -> Result<Vec<u64>, AllocError>
        requires { self.now.state.step < 16777215 }
        ensures { IfOk result (λ words. HoldsLeft self.now words.items) }
    {
        seen_keys_stand();
        let front = self.pool.len() as u64;
        let words = room(alloc, self.words.as_slice(), front, self.bounds.inputs)?;
        Ok(words)
    }

    // Such a table with these keys.
    fn made(&self, alloc: Global, keys: &[u64]) -> Result<Vec<u64>, AllocError>
        requires step { self.now.state.step < 16777215 }
        requires keys { IsPermutation (keys_in_rows (fresh_rows_in self.now)) keys.now }
        ensures { IfOk result (λ words. IsMade self.now words.items) }
    {
        self.may_add();
        let mut words = self.kept(alloc)?;
        add_keys(words.as_mut_slice(), keys, self.step as u64 + 1);
        Ok(words)
    }

    // What is left of the seen keys once there is room for the step.
    fn left(&self) -> SeenKeys
        requires { self.now.state.step < 16777215 }
        ensures { IsLeft self.now result }
    {
        seen_keys_stand();
        entries_are_the_map();
        let room = self.pool.len() as u64 * self.bounds.inputs;
        left(self.words.as_slice(), self.keys, room)
    }
}
