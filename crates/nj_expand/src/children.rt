//! The candidates of one word of the front.

ghost use Rattle.std.specs.Prelude.{◌≡◌, ◌≢◌, ◌≤◌, ◌<◌, ◌+◌, ◌*◌, ◌^◌, ◌++◌, ◌∷◌, [], All, false, length, get_or, vec_capacity};
ghost use Rattle.nj_machine.specs.State.{rom_of};
ghost use Rattle.nj_machine.specs.Image.{of_image, IsImage};
ghost use Rattle.nj_game.specs.Words.{allowed_of};
ghost use Rattle.nj_candidate.specs.Front.{rom_in, size_in};
ghost use Rattle.nj_expand.specs.Children.{child_rows, live_among, word_rows};

use crate::search::Search;
use nj_candidate::{a_candidate_is_told_by_its_parent, allow, expand};
use nj_machine::Machine;
use nj_pad::Pad;
use nj_rows::Row;
use nj_rules::{Status, allowed_pads_come_once, keys_tell_bytes_and_status};
use nj_steps::Steps;
use std::sync::ledger::Ledger;

impl Search {
    /// Adds the rows of the live candidates of the front's word at a place, for which there is room. The image's room
    /// becomes the image of the word's state, and the machine is left in some state.
    pub fn expand_word<L: Ledger>(
        &self,
        place: usize,
        machine: &mut Machine,
        image: &mut [u8],
        rows: &mut Vec<Row>,
        steps: &mut Steps<L>,
    )
        requires spent { self.now.spent ≡ false }
        requires place { place < length self.now.state.front }
        requires long { length image.old ≡ size_in self.now.plan }
        requires cartridge { rom_of machine.old ≡ rom_in self.now.plan }
        requires room { length rows.old.items + self.now.bounds.inputs ≤ vec_capacity rows.old }
        ensures rows { rows.new.items ≡ rows.old.items
            ++ word_rows self.now place (get_or self.now.state.front place []) }
        ensures few { length (word_rows self.now place (get_or self.now.state.front place []))
            ≤ self.now.bounds.inputs }
        ensures keys { All (λ row. row.key ≢ 0) (word_rows self.now place (get_or self.now.state.front place [])) }
        ensures numbers { All (λ row. row.number < 256 * (place + 1))
            (word_rows self.now place (get_or self.now.state.front place [])) }
        ensures capacity { vec_capacity rows.new ≡ vec_capacity rows.old }
        ensures long { length image.new ≡ length image.old }
        ensures cartridge { rom_of machine.new ≡ rom_in self.now.plan }
        ensures frames { steps.new ≤ steps.old
            + self.now.plan.script.hold * length (allowed_of self.now.plan (get_or self.now.state.front place [])) }
        ensures never_falls { steps.old ≤ steps.new }
    {
        a_candidate_is_told_by_its_parent();
        self.may_claim(place);
        self.image(place, image);
        let mut pads = no_pads();
        let count = allow(machine, image, self.script(), &mut pads);
        let status = self.judged(place).status;
        let first = 256 * place as u64;
        self.add_children(machine, image, status, first, &pads[..count], rows, steps);
    }

    // What is known of the rows of a word: they are few, and can claim their keys.
    fn may_claim(&self, place: usize)
        requires { place < length self.now.state.front }
        ensures pads { length (allowed_of self.now.plan (get_or self.now.state.front place []))
            ≤ self.now.bounds.inputs }
        ensures few { length (word_rows self.now place (get_or self.now.state.front place []))
            ≤ self.now.bounds.inputs }
        ensures keys { All (λ row. row.key ≢ 0) (word_rows self.now place (get_or self.now.state.front place [])) }
        ensures numbers { All (λ row. row.number < 256 * (place + 1))
            (word_rows self.now place (get_or self.now.state.front place [])) }
        ensures place { place < 2 ^ 20 }
    {
        allowed_pads_come_once();
        keys_tell_bytes_and_status();
        let _bounds = self.bounds();
        let _words = self.front_len();
    }

    // Adds the rows of those children by these pads that are live, numbered from `first` on.
    fn add_children<L: Ledger>(
        &self,
        machine: &mut Machine,
        image: &[u8],
        status: Status,
        first: u64,
        pads: &[u8],
        rows: &mut Vec<Row>,
        steps: &mut Steps<L>,
    )
        requires spent { self.now.spent ≡ false }
        requires image { IsImage (rom_of machine.old) image.now }
        requires first { first < 2 ^ 32 }
        requires pads { length pads.now ≤ 256 }
        requires room { length rows.old.items + length pads.now ≤ vec_capacity rows.old }
        ensures rows { rows.new.items ≡ rows.old.items ++ live_among self.now
            (child_rows self.now.plan.script status.0 (of_image (rom_of machine.old) image.now) first pads.now) }
        ensures capacity { vec_capacity rows.new ≡ vec_capacity rows.old }
        ensures cartridge { rom_of machine.new ≡ rom_of machine.old }
        ensures frames { steps.new ≤ steps.old + self.now.plan.script.hold * length pads.now }
        ensures never_falls { steps.old ≤ steps.new }
    {
        for (place, pad) in pads.iter().enumerate() {
            let number = first + place as u64;
            let row = expand(
                machine,
                image,
                status,
                Pad(*pad),
                number,
                self.script(),
                steps,
            );
            self.push_live(row, rows);
        }
    }

    // Adds the row, if it is live.
    fn push_live(&self, row: Row, rows: &mut Vec<Row>)
        requires spent { self.now.spent ≡ false }
        requires room { length rows.old.items < vec_capacity rows.old }
        ensures rows { rows.new.items ≡ rows.old.items ++ live_among self.now (row ∷ []) }
        ensures capacity { vec_capacity rows.new ≡ vec_capacity rows.old }
    {
        if self.live(&row) {
            rows.push_reserved(row);
        }
    }
}

// Room for pads.
fn no_pads() -> [u8; 256] {
    [0; 256]
}
