ghost use Rattle.std.specs.Prelude.{◌≡◌, ◌≢◌, ◌+◌, ◌<◌, true, false, [], ◌++◌, length, IfOk};
ghost use Rattle.std.specs.List.{All};
ghost use Rattle.nj_claims.specs.Tables.{IsTable, no_owner, owner_in, owner_after, slot_count, entries_in};
ghost use Rattle.nj_claims.specs.Passes.{first_pass, lent_pass, IsGiven, joined_pass, WasOwner, HadNoRoom};
ghost use Rattle.nj_claims.specs.Answers.{after_claim, IsTold};

use crate::claimed::Claimed;
use crate::pass::Pass;
use crate::plays::{Lend, TakeIn};
use crate::probe::{lower, settle};
use crate::shared::ClaimTable;
use crate::view::Opening;
use atomic_table::Table;
use std::alloc::{AllocError, Global};

impl ClaimTable {
    /// Shares a table among threads, and gives the first pass. Without memory the words are given up.
    pub fn open(alloc: Global, words: Vec<u64>) -> Result<(ClaimTable, Pass), AllocError>
        requires { IsTable words.items }
        ensures table { IfOk result (λ t. t.0.opening ≡ words.items) }
        ensures pass { IfOk result (λ t. t.1 ≡ first_pass t.0.id) }
    {
        let slots = words.len() / 2;
        let opening = Opening { slots, words };
        let (table, seat) = Table::of_words(alloc, opening.words.as_slice(), &opening)?;
        Ok((ClaimTable { table, opening }, Pass { seat }))
    }

    /// A further pass, which has seen what the first one has.
    pub fn split(&self, pass: &mut Pass) -> Pass
        requires own { pass.old.table ≡ self.now.id }
        requires root { pass.old.is_root ≡ true }
        ensures lent { pass.new ≡ lent_pass pass.old }
        ensures given { IsGiven pass.old result }
    {
        Pass {
            seat: self.table.shared.split_seat::<Lend>(&mut pass.seat),
        }
    }

    /// Takes a further pass back into the first one.
    pub fn join(&self, pass: &mut Pass, other: Pass)
        requires own { (pass.old.table ≡ self.now.id) × (other.table ≡ self.now.id) }
        requires root { pass.old.is_root ≡ true }
        ensures { pass.new ≡ joined_pass pass.old other }
    {
        let Pass { seat } = other;
        self.table.shared.join_seat::<TakeIn>(&mut pass.seat, seat);
    }

    /// Claims the key for the number: the key stands in the table from now on, and its owner is at
    /// most the number. It waits for no other thread.
    pub fn claim(&self, pass: &mut Pass, key: u64, number: u64) -> Claimed
        requires own { pass.old.table ≡ self.now.id }
        requires key { key ≢ 0 }
        requires number { number < no_owner }
        ensures pass { pass.new ≡ after_claim key number result pass.old }
        ensures told { IsTold self.now.opening key number result pass.old }
    {
        let board = &self.table.shared;
        let Some(slot) = settle(board, &mut pass.seat, self.opening.slots, key) else {
            return Claimed::Full;
        };
        let owner = lower(board, &mut pass.seat, slot, number);
        if owner < number {
            Claimed::Before(owner)
        } else {
            Claimed::Least
        }
    }

    /// The words at the end, when all passes have come back to the first one.
    pub fn close(self, pass: Pass) -> Vec<u64>
        requires own { pass.table ≡ self.id }
        requires root { pass.is_root ≡ true }
        requires joined { pass.out ≡ 0 }
        ensures table { IsTable result.items }
        ensures size { length result.items ≡ length self.opening }
        ensures owners { (key : _)
            → owner_in result.items key ≡ owner_after key (owner_in self.opening key) pass.claims }
        ensures seen { All (λ entry. WasOwner self.opening result.items pass.claims entry.0 entry.1) pass.seen }
        ensures full { All (HadNoRoom result.items) pass.full }
    {
        let ClaimTable { table, opening } = self;
        let Pass { seat } = pass;
        let Opening {
            slots: _,
            mut words,
        } = opening;
        let closed = table.close_with(seat);
        for i in 0..words.len() {
            words[i] = closed.word(i);
        }
        closed.free();
        words
    }
}
