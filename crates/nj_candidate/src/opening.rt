//! The run of the start movie, and what is made of its state.

ghost use Rattle.std.specs.Prelude.{◌≡◌, ◌≤◌, ◌+◌, ◌*◌, ◌^◌, [], length, IfOk};
ghost use Rattle.nj_ines.specs.Cartridge.{IsCartridge};
ghost use Rattle.nj_machine.specs.State.{rom_of};
ghost use Rattle.nj_machine.specs.Image.{image_len, image_of};
ghost use Rattle.nj_image.specs.Pages.{IsImageSize};
ghost use Rattle.nj_pool.specs.declared.refused.PushRefused.{PushRefused};
ghost use Rattle.nj_game.specs.Plan.{plan_of};
ghost use Rattle.nj_candidate.specs.Front.{one_state};
ghost use Rattle.nj_candidate.specs.Opening.{IsBegun};

use crate::candidate::judge_state;
use nj_game::the_empty_word_is_the_start;
use nj_ines::Cart;
use nj_machine::Machine;
use nj_movie::Movie;
use nj_pool::{FrontPool, PushRefused, a_need_is_bounded};
use nj_rules::{Judged, Status};
use nj_script::Script;
use nj_steps::Steps;
use std::alloc::{AllocError, Global};
use std::sync::ledger::Ledger;

/// The machine after the start movie, the image of its state, and how the rules judge it.
#[derive(Drop)]
pub struct Begun {
    /// The machine, in the start's state.
    pub machine: Machine,
    /// The image of that state.
    pub image: Vec<u8>,
    /// How the rules judge it.
    pub judged: Judged,
}

/// Room for an image of the machine.
pub(crate) fn image_room(alloc: Global, machine: &Machine) -> Result<Vec<u8>, AllocError>
    ensures { IfOk result (λ image. length image.items ≡ image_len (rom_of machine.now)) }
{
    vec![in alloc; 0; machine.image_len()]
}

// The image of the machine's state.
fn saved(alloc: Global, machine: &mut Machine) -> Result<Vec<u8>, AllocError>
    ensures image { IfOk result (λ image. image.items ≡ image_of machine.old) }
    ensures same { machine.new ≡ machine.old }
{
    let mut image = image_room(alloc, machine)?;
    save_into(machine, &mut image);
    Ok(image)
}

/// Writes the image of the machine's state.
pub(crate) fn save_into(machine: &mut Machine, image: &mut Vec<u8>)
    requires { length image.old.items ≡ image_len (rom_of machine.old) }
    ensures image { image.new.items ≡ image_of machine.old }
    ensures long { length image.new.items ≡ image_len (rom_of machine.old) }
    ensures same { machine.new ≡ machine.old }
{
    machine.save(image.as_mut_slice());
}

/// What a state is refused for for which there is room.
pub(crate) fn want_of_memory(refused: PushRefused) -> AllocError
    requires { refused ≡ PushRefused.NoMemory }
{
    match refused {
        PushRefused::NoMemory => AllocError,
        PushRefused::PoolFull { .. } => unreachable!(),
    }
}

/// A pool for so many states, packed over this image, with its state, whose word is empty.
#[tactic(auto, unfolding(crate::specs::Front::one_state))]
pub fn pool_of(alloc: Global, image: &[u8], most: u64) -> Result<FrontPool, AllocError>
    requires some { 1 ≤ most }
    requires few { most ≤ 2 ^ 20 }
    requires size { IsImageSize image.now }
    ensures { IfOk result (λ pool. pool ≡ one_state (most * (length image.now + 16)) image.now) }
{
    a_need_is_bounded();
    let limit = most * (image.len() as u64 + 16);
    let mut pool = FrontPool::new(alloc, image, limit)?;
    match pool.push_word(alloc, image, &[]) {
        Ok(()) => Ok(pool),
        Err(refused) => Err(want_of_memory(refused)),
    }
}

impl Begun {
    /// Runs the start movie from power-on.
    pub fn run<L: Ledger>(
        alloc: Global,
        cart: &Cart,
        script: &Script,
        start: &Movie,
        steps: &mut Steps<L>,
    ) -> Result<Begun, AllocError>
        ensures begun { IfOk result (IsBegun (plan_of cart.now script.now start.now)) }
        ensures frames { steps.new ≤ steps.old + length start.now }
        ensures never_falls { steps.old ≤ steps.new }
    {
        the_empty_word_is_the_start();
        let mut machine = Machine::power_on(alloc, cart)?;
        machine.play(start.pads(), steps);
        let judged = judge_state(&machine, Status(0), script);
        let image = saved(alloc, &mut machine)?;
        Ok(Begun {
            machine,
            image,
            judged,
        })
    }
}

/// What a cartridge holds.
pub fn is_cartridge(cart: &Cart)
    ensures { IsCartridge cart.now }
{
    let _prg = cart.prg();
    let _chr = cart.chr();
    let _mapper = cart.mapper();
}
