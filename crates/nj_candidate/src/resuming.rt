//! The words of a saved front, each run again from the start's state.

ghost use Rattle.std.specs.Prelude.{◌≡◌, ◌≤◌, ◌<◌, ◌+◌, ◌*◌, ◌^◌, [], ◌∷◌, ◌++◌, length, IfOk, OnOk};
ghost use Rattle.nj_machine.specs.State.{rom_of};
ghost use Rattle.nj_machine.specs.Image.{image_len, of_image, IsImage};
ghost use Rattle.nj_image.specs.Pages.{IsImageSize};
ghost use Rattle.nj_pool.specs.Front.{with_word, bytes_held};
ghost use Rattle.nj_game.specs.Plan.{plan_of};
ghost use Rattle.nj_saved.specs.Ranges.{IsInRange, words_of};
ghost use Rattle.nj_candidate.specs.Front.{size_in};
ghost use Rattle.nj_candidate.specs.SavedFront.{word_at, front_in};
ghost use Rattle.nj_candidate.specs.Resuming.{Reached, replayed, AreReplayed, AreRunAgain};

use crate::again::Again;
use crate::candidate::{hold_pad, judge_state};
use crate::laws::an_image_stands_for_its_word;
use crate::opening::{Begun, image_room, is_cartridge, save_into, want_of_memory};
use nj_game::a_word_goes_on;
use nj_ines::Cart;
use nj_machine::Machine;
use nj_movie::Movie;
use nj_pad::Pad;
use nj_pool::{FrontPool, a_need_is_bounded};
use nj_rules::Judged;
use nj_saved::Saved;
use nj_script::Script;
use nj_steps::Steps;
use std::alloc::{AllocError, Global};
use std::sync::ledger::Ledger;

// Runs a word from the state that has this image and judgement, and judges it after each pad. The machine is left in
// the word's state.
fn replay<L: Ledger>(
    machine: &mut Machine,
    image: &[u8],
    judged: Judged,
    word: &[u8],
    script: &Script,
    steps: &mut Steps<L>,
) -> Judged
    requires image { IsImage (rom_of machine.old) image.now }
    ensures reached { let from : Reached =
        record { state = of_image (rom_of machine.old) image.now; judged = judged } in
        let to : Reached = record { state = machine.new; judged = result } in
        to ≡ replayed script.now from word.now }
    ensures cartridge { rom_of machine.new ≡ rom_of machine.old }
    ensures frames { steps.new ≤ steps.old + script.now.hold * length word.now }
    ensures never_falls { steps.old ≤ steps.new }
{
    machine.load(image);
    let mut told = judged;
    for pad in word {
        hold_pad(machine, script.hold(), Pad(*pad), steps);
        told = judge_state(machine, told.status, script);
    }
    told
}

// The word at a place of a saved front.
fn word_of(saved: &Saved, place: usize) -> &[u8]
    requires ranges { IsInRange saved.now }
    requires place { place < words_of saved.now }
    ensures word { result.now ≡ word_at saved.now.words saved.now.step place }
    ensures long { length result.now ≡ saved.now.step }
{
    let long = saved.step as usize;
    let start = place * long;
    &saved.words.as_slice()[start..start + long]
}

/// How many words a saved front has.
pub fn count_of(saved: &Saved) -> usize
    requires { IsInRange saved.now }
    ensures { result ≡ words_of saved.now }
{
    saved.words.len() / saved.step as usize
}

impl Again {
    // Adds the state of a word.
    fn push_word(
        &mut self,
        alloc: Global,
        image: &[u8],
        word: &[u8],
        judged: Judged,
    ) -> Result<(), AllocError>
        requires long { length image.now ≡ length self.old.pool.base }
        requires first { self.old.pool.depth ≡ 0 }
        requires room { bytes_held self.old.pool + (length image.now + 16) ≤ self.old.pool.limit }
        ensures pool { OnOk result (self.new.pool ≡ with_word image.now word.now self.old.pool) }
        ensures bytes { OnOk result (bytes_held self.new.pool ≤ bytes_held self.old.pool + (length image.now + 16)) }
        ensures judged { OnOk result (self.new.judged.items ≡ self.old.judged.items ++ judged ∷ []) }
    {
        a_need_is_bounded();
        let _base = self.pool.base();
        match self.pool.push_word(alloc, image, word) {
            Ok(()) => {}
            Err(refused) => return Err(want_of_memory(refused)),
        }
        self.judged.push(judged)?;
        Ok(())
    }
}

// Runs the words of a saved front again into a pool with this limit, each from the start's state.
fn replay_all<L: Ledger>(
    alloc: Global,
    begun: Begun,
    saved: &Saved,
    limit: u64,
    script: &Script,
    steps: &mut Steps<L>,
) -> Result<Again, AllocError>
    requires ranges { IsInRange saved.now }
    requires image { IsImage (rom_of begun.machine) begun.image.items }
    requires size { IsImageSize begun.image.items }
    requires long { length begun.image.items ≡ image_len (rom_of begun.machine) }
    requires room { words_of saved.now * (length begun.image.items + 16) ≤ limit }
    ensures again { let from : Reached = record {
      state = of_image (rom_of begun.machine) begun.image.items;
      judged = begun.judged;
    } in
        IfOk result (AreReplayed script.now from begun.image.items limit (front_in saved.now)) }
    ensures frames { steps.new ≤ steps.old + script.now.hold * (saved.now.step * words_of saved.now) }
    ensures never_falls { steps.old ≤ steps.new }
{
    let Begun {
        mut machine,
        image,
        judged,
    } = begun;
    let mut own = image_room(alloc, &machine)?;
    let mut again = Again {
        pool: FrontPool::new(alloc, image.as_slice(), limit)?,
        judged: Vec::new(alloc),
    };
    for place in 0..count_of(saved) {
        let word = word_of(saved, place);
        let told = replay(&mut machine, image.as_slice(), judged, word, script, steps);
        save_into(&mut machine, &mut own);
        again.push_word(alloc, own.as_slice(), word, told)?;
    }
    Ok(again)
}

/// The states of a saved front and how the rules judge them, by the run of the start and of each word.
pub fn run_front<L: Ledger>(
    alloc: Global,
    cart: &Cart,
    script: &Script,
    start: &Movie,
    most: u64,
    saved: &Saved,
    steps: &mut Steps<L>,
) -> Result<Again, AllocError>
    requires few { most ≤ 2 ^ 20 }
    requires ranges { IsInRange saved.now }
    requires within { words_of saved.now ≤ most }
    ensures front { let plan = plan_of cart.now script.now start.now in
        IfOk result (AreRunAgain plan (most * (size_in plan + 16)) (front_in saved.now)) }
    ensures frames { steps.new
        ≤ steps.old + (length start.now + script.now.hold * (saved.now.step * words_of saved.now)) }
    ensures never_falls { steps.old ≤ steps.new }
{
    a_word_goes_on();
    an_image_stands_for_its_word();
    is_cartridge(cart);
    let begun = Begun::run(alloc, cart, script, start, steps)?;
    let limit = most * (begun.image.len() as u64 + 16);
    replay_all(alloc, begun, saved, limit, script, steps)
}
