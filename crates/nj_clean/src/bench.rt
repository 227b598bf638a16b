//! The machine on which presses are tried, with the state in front of the press that is tried.

ghost use Rattle.std.specs.Prelude.{◌≡◌, ◌≤◌, ◌+◌, ◌-◌, ◌*◌, ◌++◌, ◌∷◌, [], length, take, IfOk};
ghost use Rattle.nj_search_defs.specs.Game.{Word};
ghost use Rattle.nj_machine.specs.State.{power_on, rom_of};
ghost use Rattle.nj_machine.specs.Image.{image_len, image_of, of_image, IsImage};
ghost use Rattle.nj_ines.specs.Cartridge.{IsCartridge};
ghost use Rattle.nj_game.specs.Plan.{Plan};
ghost use Rattle.nj_game.specs.Words.{state_of, held, judged_of};
ghost use Rattle.nj_replay.specs.Replay.{IsAfter};
ghost use Rattle.nj_clean.specs.Bench.{plan_in, Stands, StandsAt};

use nj_game::{
    a_word_goes_on, a_word_keeps_the_cartridge, one_more_frame_is_held, the_empty_word_is_the_start,
};
use nj_machine::{Cart, Machine, an_image_tells_its_state};
use nj_movie::Movie;
use nj_pad::Pad;
use nj_rules::{Judged, Status, judge};
use nj_script::Script;
use nj_steps::Steps;
use std::alloc::{AllocError, Global};
use std::sync::ledger::Ledger;

/// What a movie is played on.
#[derive(Clone, Copy)]
pub struct Setting<'a> {
    pub cart: &'a Cart,
    pub script: &'a Script,
    pub start: &'a Movie,
}

/// A state between two steps: its image, and how the rules judge it.
#[derive(Drop)]
pub struct Kept {
    image: Vec<u8>,
    judged: Judged,
}

/// The machine on which presses are tried, the state behind the start, and the state in front of the press.
#[derive(Drop)]
pub struct Bench {
    machine: Machine,
    opening: Kept,
    front: Kept,
}

// What a cartridge holds.
fn is_cartridge(cart: &Cart)
    ensures { IsCartridge cart.now }
{
    let _prg = cart.prg();
    let _chr = cart.chr();
    let _mapper = cart.mapper();
}

// The image of a word's state is one of its cartridge, and the state is made again from it.
fn an_image_stands_for_its_word()
    ensures is_image { (plan : Plan) (word : Word) → IsCartridge plan.cartridge
        → IsImage (rom_of (power_on plan.cartridge)) (image_of (state_of plan word)) }
    ensures state { (plan : Plan) (word : Word) → IsCartridge plan.cartridge
        → of_image (rom_of (power_on plan.cartridge)) (image_of (state_of plan word)) ≡ state_of plan word }
    ensures len { (plan : Plan) (word : Word) → IsCartridge plan.cartridge
        → length (image_of (state_of plan word)) ≡ image_len (rom_of (power_on plan.cartridge)) }
{
    a_word_keeps_the_cartridge();
    an_image_tells_its_state();
}

// Room for an image of the machine.
fn image_room(alloc: Global, machine: &Machine) -> Result<Vec<u8>, AllocError>
    ensures { IfOk result (λ image. length image.items ≡ image_len (rom_of machine.now)) }
{
    vec![in alloc; 0; machine.image_len()]
}

// Writes the image of the machine's state.
fn save_into(machine: &mut Machine, image: &mut Vec<u8>)
    requires { length image.old.items ≡ image_len (rom_of machine.old) }
    ensures image { image.new.items ≡ image_of machine.old }
    ensures same { machine.new ≡ machine.old }
{
    machine.save(image.as_mut_slice());
}

// The image of the machine's state.
fn saved(alloc: Global, machine: &mut Machine) -> Result<Vec<u8>, AllocError>
    ensures image { IfOk result (λ image. image.items ≡ image_of machine.old) }
    ensures same { machine.new ≡ machine.old }
{
    let mut image = image_room(alloc, machine)?;
    save_into(machine, &mut image);
    Ok(image)
}

// So many frames with the pad held.
fn hold_pad<L: Ledger>(machine: &mut Machine, hold: u32, pad: Pad, steps: &mut Steps<L>)
    ensures state { machine.new ≡ held hold pad machine.old }
    ensures cartridge { rom_of machine.new ≡ rom_of machine.old }
    ensures frames { steps.new ≤ steps.old + hold }
    ensures never_falls { steps.old ≤ steps.new }
{
    one_more_frame_is_held();
    for _frame in 0..hold {
        machine.frame(pad, steps);
    }
}

// One more pad of a word, and how the rules judge the state at its end.
fn run_step<L: Ledger>(
    machine: &mut Machine,
    script: &Script,
    judged: Judged,
    pad: Pad,
    steps: &mut Steps<L>,
) -> Judged
    ensures after { (plan : Plan) (word : Word) → plan.script ≡ script.now → IsAfter plan word machine.old judged
        → IsAfter plan (word ++ pad ∷ []) machine.new result }
    ensures cartridge { rom_of machine.new ≡ rom_of machine.old }
    ensures frames { steps.new ≤ steps.old + script.now.hold }
    ensures never_falls { steps.old ≤ steps.new }
{
    a_word_goes_on();
    hold_pad(machine, script.hold(), pad, steps);
    judge(
        script.rules(),
        machine.ram(),
        judged.status,
        machine.jammed(),
    )
}

// More pads of a word, judged at the end of each step.
fn run_steps<L: Ledger>(
    machine: &mut Machine,
    script: &Script,
    before: Judged,
    pads: &[Pad],
    steps: &mut Steps<L>,
) -> Judged
    ensures after { (plan : Plan) (word : Word) → plan.script ≡ script.now → IsAfter plan word machine.old before
        → IsAfter plan (word ++ pads.now) machine.new result }
    ensures cartridge { rom_of machine.new ≡ rom_of machine.old }
    ensures frames { steps.new ≤ steps.old + script.now.hold * length pads.now }
    ensures never_falls { steps.old ≤ steps.new }
{
    let mut judged = before;
    for pad in pads {
        judged = run_step(machine, script, judged, *pad, steps);
    }
    judged
}

impl Bench {
    /// The start, run from power-on; the state behind it is in front.
    pub fn open<L: Ledger>(
        alloc: Global,
        setting: Setting,
        steps: &mut Steps<L>,
    ) -> Result<Bench, AllocError>
        ensures stands { IfOk result (λ bench. Stands (plan_in setting.entry) bench) }
        ensures frames { steps.new ≤ steps.old + length setting.entry.start.now }
        ensures never_falls { steps.old ≤ steps.new }
    {
        the_empty_word_is_the_start();
        is_cartridge(setting.cart);
        let mut machine = Machine::power_on(alloc, setting.cart)?;
        machine.play(setting.start.pads(), steps);
        let judged = judge(
            setting.script.rules(),
            machine.ram(),
            Status(0),
            machine.jammed(),
        );
        let image = saved(alloc, &mut machine)?;
        let opening = Kept { image, judged };
        let front = Kept {
            image: Vec::new(alloc),
            judged,
        };
        Ok(Bench {
            machine,
            opening,
            front,
        })
    }

    /// The state behind the start is in front.
    pub fn rewind(&mut self) -> Result<(), AllocError>
        ensures { IfOk result (λ _. (plan : Plan) → Stands plan self.old → StandsAt plan [] self.new) }
    {
        self.front.image.clear();
        self.front
            .image
            .extend_from_slice(self.opening.image.as_slice())?;
        self.front.judged = self.opening.judged;
        Ok(())
    }

    // The word's pads from the state in front on, which is that after `at` of them, up to this step.
    fn run_on<L: Ledger>(
        &mut self,
        setting: Setting,
        word: &[Pad],
        at: usize,
        to: usize,
        steps: &mut Steps<L>,
    ) -> Judged
        requires stands { StandsAt (plan_in setting) (take at word.now) self.old }
        requires order { at ≤ to }
        requires within { to ≤ length word.now }
        ensures after { IsAfter (plan_in setting.entry) (take to word.now) self.new.machine result }
        ensures stands { StandsAt (plan_in setting.entry) (take at word.now) self.new }
        ensures frames { steps.new ≤ steps.old + setting.entry.script.now.hold * (to - at) }
        ensures never_falls { steps.old ≤ steps.new }
    {
        an_image_stands_for_its_word();
        self.machine.load(self.front.image.as_slice());
        run_steps(
            &mut self.machine,
            setting.script,
            self.front.judged,
            &word[at..to],
            steps,
        )
    }

    /// The state in front, which is that after `at` pads of the word, becomes that after the pads up to this step.
    pub fn move_front<L: Ledger>(
        &mut self,
        setting: Setting,
        word: &[Pad],
        at: usize,
        to: usize,
        steps: &mut Steps<L>,
    )
        requires stands { StandsAt (plan_in setting) (take at word.now) self.old }
        requires order { at ≤ to }
        requires within { to ≤ length word.now }
        ensures stands { StandsAt (plan_in setting.entry) (take to word.now) self.new }
        ensures frames { steps.new ≤ steps.old + setting.entry.script.now.hold * (to - at) }
        ensures never_falls { steps.old ≤ steps.new }
    {
        an_image_stands_for_its_word();
        let judged = self.run_on(setting, word, at, to, steps);
        save_into(&mut self.machine, &mut self.front.image);
        self.front.judged = judged;
    }

    /// How the rules judge the whole word, of which `at` pads were played in the state in front.
    pub fn judge_word<L: Ledger>(
        &mut self,
        setting: Setting,
        word: &[Pad],
        at: usize,
        steps: &mut Steps<L>,
    ) -> Judged
        requires stands { StandsAt (plan_in setting) (take at word.now) self.old }
        requires within { at ≤ length word.now }
        ensures judged { result ≡ judged_of (plan_in setting.entry) word.now }
        ensures stands { StandsAt (plan_in setting.entry) (take at word.now) self.new }
        ensures frames { steps.new ≤ steps.old + setting.entry.script.now.hold * (length word.now - at) }
        ensures never_falls { steps.old ≤ steps.new }
    {
        self.run_on(setting, word, at, word.len(), steps)
    }
}
