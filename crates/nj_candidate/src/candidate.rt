//! A candidate: the state of a parent after one more pad.

ghost use Rattle.std.specs.Prelude.{◌≡◌, ◌≢◌, ◌≤◌, ◌+◌, pos, length, take, get_or};
ghost use Rattle.nj_machine.specs.State.{rom_of, ram_of};
ghost use Rattle.nj_machine.specs.Image.{of_image, IsImage};
ghost use Rattle.nj_rules.specs.Pads.{allowed_pads};
ghost use Rattle.nj_game.specs.Words.{held};
ghost use Rattle.nj_candidate.specs.Rows.{told_verdict, judged_at, key_at, values_at, row_bucket, row_told, row_at};

use nj_game::{a_jam_ends_its_step, one_more_frame_is_held};
use nj_machine::{FrameEnd, Machine};
use nj_pad::Pad;
use nj_rows::{Row, Verdict3};
use nj_rules::{Judged, Status, Verdict, allowed, judge, key_of};
use nj_script::Script;
use nj_steps::Steps;
use std::sync::ledger::Ledger;

/// So many frames with the pad held. A jam ends them, since the frames behind it change nothing.
pub(crate) fn hold_pad<L: Ledger>(machine: &mut Machine, hold: u32, pad: Pad, steps: &mut Steps<L>)
    ensures state { machine.new ≡ held hold pad machine.old }
    ensures cartridge { rom_of machine.new ≡ rom_of machine.old }
    ensures frames { steps.new ≤ steps.old + hold }
    ensures never_falls { steps.old ≤ steps.new }
{
    one_more_frame_is_held();
    a_jam_ends_its_step();
    for _frame in 0..hold {
        if machine.frame(pad, steps) == FrameEnd::Jammed {
            return;
        }
    }
}

/// How the rules judge the machine's state, where the parent has this status.
#[tactic(auto, unfolding(crate::specs::Rows::judged_at))]
pub(crate) fn judge_state(machine: &Machine, status: Status, script: &Script) -> Judged
    ensures { result ≡ judged_at script.now status.0 machine.now }
{
    judge(script.rules(), machine.ram(), status, machine.jammed())
}

/// The step of a pad from the state that has this image and status. The machine is left in the child's state; the
/// answer is how the rules judge it.
pub(crate) fn run_step<L: Ledger>(
    machine: &mut Machine,
    image: &[u8],
    status: Status,
    pad: Pad,
    script: &Script,
    steps: &mut Steps<L>,
) -> Judged
    requires { IsImage (rom_of machine.old) image.now }
    ensures child { machine.new ≡ held script.now.hold pad (of_image (rom_of machine.old) image.now) }
    ensures judged { result ≡ judged_at script.now status.0 machine.new }
    ensures cartridge { rom_of machine.new ≡ rom_of machine.old }
    ensures frames { steps.new ≤ steps.old + script.now.hold }
    ensures never_falls { steps.old ≤ steps.new }
{
    machine.load(image);
    hold_pad(machine, script.hold(), pad, steps);
    judge_state(machine, status, script)
}

// A verdict of the rules, as a row has it.
fn verdict_of(verdict: Verdict) -> Verdict3
    ensures { result ≡ told_verdict verdict }
{
    match verdict {
        Verdict::Go => Verdict3::Go,
        Verdict::Win => Verdict3::Win,
        Verdict::Fail => Verdict3::Fail,
    }
}

/// The key of the machine's state, which is judged so.
#[tactic(auto, unfolding(crate::specs::Rows::key_at))]
pub fn key_in(machine: &Machine, judged: Judged, script: &Script) -> u64
    ensures key { result ≡ key_at script.now machine.now judged }
    ensures never_zero { result ≢ 0 }
{
    key_of(
        script.hash(),
        script.rule_count(),
        machine.ram(),
        judged.status,
    )
}

// The value of the script's bucket property at a place; 0 where it names fewer.
fn value_at(machine: &Machine, script: &Script, place: usize) -> i32
    ensures { result ≡ get_or (values_at script.now machine.now) place (pos 0) }
{
    match script.bucket().get(place) {
        Some(property) => property.value(machine.ram()),
        None => 0,
    }
}

// The values of the script's bucket properties, in their order; unused places are 0.
#[tactic(auto, unfolding(crate::specs::Rows::row_bucket))]
fn bucket_in(machine: &Machine, script: &Script) -> [i32; 4]
    ensures { result ≡ row_bucket (values_at script.now machine.now) }
{
    let _few = script.bucket();
    [
        value_at(machine, script, 0),
        value_at(machine, script, 1),
        value_at(machine, script, 2),
        value_at(machine, script, 3),
    ]
}

// The row of the machine's state.
#[tactic(auto, unfolding(crate::specs::Rows::row_told))]
fn row_in(machine: &Machine, judged: Judged, pad: Pad, number: u64, script: &Script) -> Row
    ensures row { result ≡ row_told script.now number pad machine.now judged }
    ensures key { result.key ≢ 0 }
{
    Row {
        number,
        key: key_in(machine, judged, script),
        reward: judged.reward,
        level: judged.level,
        verdict: verdict_of(judged.verdict),
        pad: pad.0,
        bucket: bucket_in(machine, script),
    }
}

/// The row of the candidate of this number: the pad, held for a step, after the parent that has this image and status.
/// The machine is left in the candidate's state. A jam ends the step's frames.
#[tactic(auto, unfolding(crate::specs::Rows::row_at))]
pub fn expand<L: Ledger>(
    machine: &mut Machine,
    image: &[u8],
    status: Status,
    pad: Pad,
    number: u64,
    script: &Script,
    steps: &mut Steps<L>,
) -> Row
    requires image { IsImage (rom_of machine.old) image.now }
    ensures row { result ≡ row_at script.now status.0 (of_image (rom_of machine.old) image.now) pad number }
    ensures key { result.key ≢ 0 }
    ensures child { machine.new ≡ held script.now.hold pad (of_image (rom_of machine.old) image.now) }
    ensures cartridge { rom_of machine.new ≡ rom_of machine.old }
    ensures frames { steps.new ≤ steps.old + script.now.hold }
    ensures never_falls { steps.old ≤ steps.new }
{
    let judged = run_step(machine, image, status, pad, script, steps);
    row_in(machine, judged, pad, number, script)
}

/// The pads that may follow the state that has this image, written to the front of `pads`; the answer is their count.
pub fn allow(machine: &mut Machine, image: &[u8], script: &Script, pads: &mut [u8; 256]) -> usize
    requires { IsImage (rom_of machine.old) image.now }
    ensures pads { take result pads.new
        ≡ allowed_pads script.now.inputs.sets (ram_of (of_image (rom_of machine.old) image.now)) }
    ensures count { result
        ≡ length (allowed_pads script.now.inputs.sets (ram_of (of_image (rom_of machine.old) image.now))) }
    ensures within { result ≤ 256 }
    ensures cartridge { rom_of machine.new ≡ rom_of machine.old }
{
    machine.load(image);
    allowed(script.inputs(), machine.ram(), pads)
}
