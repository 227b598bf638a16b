//! The trace of one frame.

ghost use Rattle.std.specs.Prelude.{◌≡◌, ◌≤◌, ◌<◌, ◌+◌, ◌-◌, ◌++◌, ◌⊎◌, ℕ, false, None, is_some, length, take, get_or, string_bytes, IfOk, MatchResult, Ok, Err};
ghost use Rattle.std.specs.List.{flat_map};
ghost use Rattle.nj_ines.specs.Cartridge.{IsCartridge};
ghost use Rattle.nj_machine.specs.State.{State, is_jammed};
ghost use Rattle.nj_machine.specs.Frame.{IsReady, dots_left, play, unit_step};
ghost use Rattle.nj_machine.specs.Seen.{end_told};
ghost use Rattle.nj_trace.specs.Units.{frame_units};
ghost use Rattle.nj_trace.specs.Trace.{unit_line, trace_head, trace_text, movie_units, trace_of};

use crate::units::push_unit;
use nj_machine::{Cart, Machine, UnitSeen, UnitStep, frames_are_units, frames_keep_the_cartridge};
use nj_movie::Movie;
use nj_pad::Pad;
use nj_steps::Steps;
use std::alloc::{AllocError, Global};
use std::sync::ledger::Ledger;

/// Why a frame has no trace.
#[derive(Clone, Copy)]
pub enum TraceRefused {
    /// The movie has fewer frames; frames are counted from 1.
    NoFrame { frame: u64, frames: u64 },
    /// Memory ran out.
    NoMemory,
}

impl From<AllocError> for TraceRefused {
    ghost use Rattle.std.specs.Prelude.{◌≡◌};
    ghost use Rattle.nj_trace.specs.declared.tracing.TraceRefused.TheVariants.{NoMemory};

    ghost from_gives = { λ _ refused. refused ≡ NoMemory };

    fn from(_error: AllocError) -> Self {
        TraceRefused::NoMemory
    }
}

// The lines of a frame's units, and how many they are.
#[derive(Drop)]
struct Lines {
    text: Vec<u8>,
    count: u64,
}

#[tactic(auto, unfolding(crate::specs::Trace::trace_head))]
fn trace_head(alloc: Global, frame: u32, units: u64) -> Result<String, AllocError>
    ensures { IfOk result (λ text. string_bytes text ≡ trace_head frame units) }
{
    format!(in alloc; "# trace frame={frame} units={units}\n")
}

// Whether a unit that answered this ended its frame.
fn ends_frame(step: UnitStep) -> bool
    ensures { result ≡ is_some (end_told step) }
{
    !matches!(step, UnitStep::More)
}

// What a cartridge holds.
fn is_cartridge(cart: &Cart)
    ensures { IsCartridge cart.now }
{
    let _prg = cart.prg();
    let _chr = cart.chr();
    let _mapper = cart.mapper();
}

// A unit that does not end its frame leaves fewer dots, and a machine between two units.
fn units_go_on()
    ensures nearer { (s t : State) (pad : ℕ) → IsReady s → unit_step pad s ≡ (t, None) → dots_left t < dots_left s }
    ensures ready { (s t : State) (pad : ℕ) → IsReady s → unit_step pad s ≡ (t, None) → IsReady t }
{
    frames_are_units();
}

// The units of a frame of a machine that is not jammed.
fn unit_lines<L: Ledger>(
    alloc: Global,
    machine: &mut Machine,
    pad: Pad,
    steps: &mut Steps<L>,
) -> Result<Lines, AllocError>
    requires ready { IsReady machine.old }
    requires runs { is_jammed machine.old ≡ false }
    ensures text { IfOk result (λ lines. lines.text.items ≡ flat_map unit_line (frame_units pad machine.old)) }
    ensures count { IfOk result (λ lines. lines.count ≡ length (frame_units pad machine.old)) }
    ensures frames { steps.new ≤ steps.old + 1 }
    ensures never_falls { steps.old ≤ steps.new }
{
    units_go_on();
    let mut seen = UnitSeen::new();
    let mut text = Vec::new(alloc);
    let mut count = 0;
    loop {
        let step = machine.unit_step(pad, &mut seen, steps);
        push_unit(alloc, &seen, &mut text)?;
        count += 1;
        if ends_frame(step) {
            return Ok(Lines { text, count });
        }
    }
}

// The units of the machine's next frame: none where it is jammed.
fn frame_lines<L: Ledger>(
    alloc: Global,
    machine: &mut Machine,
    pad: Pad,
    steps: &mut Steps<L>,
) -> Result<Lines, AllocError>
    requires { IsReady machine.old }
    ensures text { IfOk result (λ lines. lines.text.items ≡ flat_map unit_line (frame_units pad machine.old)) }
    ensures count { IfOk result (λ lines. lines.count ≡ length (frame_units pad machine.old)) }
    ensures frames { steps.new ≤ steps.old + 1 }
    ensures never_falls { steps.old ≤ steps.new }
{
    if machine.jammed() {
        return Ok(Lines {
            text: Vec::new(alloc),
            count: 0,
        });
    }
    unit_lines(alloc, machine, pad, steps)
}

// The machine that a movie leaves is between two units.
fn is_ready(cart: &Cart, pads: &[Pad])
    ensures { IsReady (play cart.now pads.now) }
{
    frames_keep_the_cartridge();
    is_cartridge(cart);
}

// The machine after a movie.
fn played<L: Ledger>(
    alloc: Global,
    cart: &Cart,
    pads: &[Pad],
    steps: &mut Steps<L>,
) -> Result<Machine, AllocError>
    ensures played { IfOk result (λ machine. machine ≡ play cart.now pads.now) }
    ensures ready { IfOk result (λ machine. IsReady machine) }
    ensures frames { steps.new ≤ steps.old + length pads.now }
    ensures never_falls { steps.old ≤ steps.new }
{
    is_ready(cart, pads);
    let mut machine = Machine::power_on(alloc, cart)?;
    machine.play(pads, steps);
    Ok(machine)
}

// The first line of a frame's trace, and its units' lines.
fn with_head(alloc: Global, frame: u32, lines: &Lines) -> Result<Vec<u8>, AllocError>
    ensures { IfOk result (λ text. text.items ≡ trace_head frame lines.now.count ++ lines.now.text.items) }
{
    let mut text = Vec::new(alloc);
    text.extend_from_slice(trace_head(alloc, frame, lines.count)?.as_bytes())?;
    text.extend_from_slice(lines.text.as_slice())?;
    Ok(text)
}

#[tactic(auto, unfolding(crate::specs::Trace::trace_text, crate::specs::Trace::movie_units))]
fn traced<L: Ledger>(
    alloc: Global,
    cart: &Cart,
    pads: &[Pad],
    frame: u32,
    steps: &mut Steps<L>,
) -> Result<Vec<u8>, AllocError>
    requires low { 1 ≤ frame }
    requires high { frame ≤ length pads.now }
    ensures text { IfOk result (λ text. text.items ≡ trace_text frame (movie_units cart.now pads.now frame)) }
    ensures frames { steps.new ≤ steps.old + frame }
    ensures never_falls { steps.old ≤ steps.new }
{
    let before = frame as usize - 1;
    let mut machine = played(alloc, cart, &pads[..before], steps)?;
    let lines = frame_lines(alloc, &mut machine, pads[before], steps)?;
    with_head(alloc, frame, &lines)
}

/// The text of one frame of a movie, unit by unit; the first frame is 1. At most so many frames are run, and none
/// where the movie has fewer.
#[tactic(auto, unfolding(crate::specs::Trace::trace_of))]
pub fn trace<L: Ledger>(
    alloc: Global,
    cart: &Cart,
    movie: &Movie,
    frame: u32,
    steps: &mut Steps<L>,
) -> Result<Vec<u8>, TraceRefused>
    requires { 1 ≤ frame }
    ensures answer { MatchResult result (λ text. trace_of cart.now movie.now frame ≡ Ok text.items)
        (λ refused. (refused ≡ TraceRefused.NoMemory) ⊎ (trace_of cart.now movie.now frame ≡ Err refused)) }
    ensures frames { steps.new ≤ steps.old + frame }
    ensures refused { length movie.now + 1 ≤ frame → steps.new ≡ steps.old }
    ensures never_falls { steps.old ≤ steps.new }
{
    let frames = movie.pads().len() as u64;
    if u64::from(frame) > frames {
        return Err(TraceRefused::NoFrame {
            frame: u64::from(frame),
            frames,
        });
    }
    let text = traced(alloc, cart, movie.pads(), frame, steps)?;
    Ok(text)
}
