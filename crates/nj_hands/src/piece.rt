//! The work of a piece: sixteen words of the front.

ghost use Rattle.std.specs.Prelude.{◌≡◌, ◌≤◌, ◌<◌, ◌+◌, ◌*◌, ◌^◌, [], false, length, get_or, vec_len, vec_capacity};
ghost use Rattle.nj_machine.specs.State.{rom_of};
ghost use Rattle.nj_game.specs.Words.{allowed_of};
ghost use Rattle.nj_expand.specs.Front.{rom_in, size_in};
ghost use Rattle.nj_expand.specs.Children.{word_rows};
ghost use Rattle.nj_hands.specs.Claimed.{AddsClaimed};
ghost use Rattle.nj_hands.specs.Shares.{pieces_in, piece_rows, piece_runs};

use crate::claiming::claim_rows;
use nj_claims::{ClaimTable, Pass};
use nj_expand::{Row, Search};
use nj_machine::Machine;
use nj_steps::Steps;
use std::sync::ledger::Ledger;

/// The words of a piece.
pub(crate) const WORDS: usize = 16;

/// How many pieces the front has.
pub fn piece_count(search: &Search) -> u64
    ensures count { result ≡ pieces_in search.now }
    ensures few { result ≤ 65536 }
{
    let words = search.front_len();
    ((words + 15) / WORDS) as u64
}

// Does the words of a piece. There is room for the rows of all their candidates.
#[tactic(auto, unfolding(crate::specs::Shares::pieces_in, crate::specs::Shares::piece_rows, crate::specs::Shares::piece_runs))]
pub(crate) fn do_piece<L: Ledger>(
    search: &Search,
    piece: usize,
    table: &ClaimTable,
    machine: &mut Machine,
    pass: &mut Pass,
    image: &mut [u8],
    found: &mut Vec<Row>,
    rows: &mut Vec<Row>,
    steps: &mut Steps<L>,
)
    requires spent { search.now.spent ≡ false }
    requires piece { piece < pieces_in search.now }
    requires own { pass.old.table ≡ table.now.id }
    requires cartridge { rom_of machine.old ≡ rom_in search.now.plan }
    requires long { length image.old ≡ size_in search.now.plan }
    requires found { search.now.bounds.inputs ≤ vec_capacity found.old }
    requires room { vec_len rows.old + 16 * search.now.bounds.inputs ≤ vec_capacity rows.old }
    ensures claimed { AddsClaimed (piece_rows search.now piece) pass.old pass.new rows.old.items rows.new.items }
    ensures cartridge { rom_of machine.new ≡ rom_in search.now.plan }
    ensures long { length image.new ≡ length image.old }
    ensures found { vec_capacity found.new ≡ vec_capacity found.old }
    ensures frames { steps.new ≤ steps.old + search.now.plan.script.hold * piece_runs search.now piece }
    ensures never_falls { steps.old ≤ steps.new }
{
    let words = search.front_len();
    let first = WORDS * piece;
    let last = words.min(first + WORDS);
    for place in first..last {
        do_word(
            search, place, table, machine, pass, image, found, rows, steps,
        );
    }
}

// Runs the candidates of the word at a place of the front, and claims the keys of the live ones.
fn do_word<L: Ledger>(
    search: &Search,
    place: usize,
    table: &ClaimTable,
    machine: &mut Machine,
    pass: &mut Pass,
    image: &mut [u8],
    found: &mut Vec<Row>,
    rows: &mut Vec<Row>,
    steps: &mut Steps<L>,
)
    requires spent { search.now.spent ≡ false }
    requires place { place < length search.now.state.front }
    requires few { place < 2 ^ 20 }
    requires own { pass.old.table ≡ table.now.id }
    requires cartridge { rom_of machine.old ≡ rom_in search.now.plan }
    requires long { length image.old ≡ size_in search.now.plan }
    requires found { search.now.bounds.inputs ≤ vec_capacity found.old }
    requires room { vec_len rows.old + search.now.bounds.inputs ≤ vec_capacity rows.old }
    ensures claimed { AddsClaimed (word_rows search.now place (get_or search.now.state.front place []))
        pass.old pass.new rows.old.items rows.new.items }
    ensures few { vec_len rows.new ≤ vec_len rows.old + search.now.bounds.inputs }
    ensures capacity { vec_capacity rows.new ≡ vec_capacity rows.old }
    ensures cartridge { rom_of machine.new ≡ rom_in search.now.plan }
    ensures long { length image.new ≡ length image.old }
    ensures found { vec_capacity found.new ≡ vec_capacity found.old }
    ensures frames { steps.new ≤ steps.old
        + search.now.plan.script.hold * length (allowed_of search.now.plan (get_or search.now.state.front place [])) }
    ensures never_falls { steps.old ≤ steps.new }
{
    found.clear();
    search.expand_word(place, machine, image, found, steps);
    claim_rows(table, pass, found.as_slice(), rows);
}
