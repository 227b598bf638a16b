//! The machine, frame by frame.

ghost use Rattle.std.specs.Prelude.{◌≡◌, ◌+◌, ◌-◌, ◌^◌, ◌≤◌, ◌↔◌, ℕ, List, true, false, min, length, replicate, IfOk};
ghost use Rattle.nj_banked.specs.Banks.{IsBanks};
ghost use Rattle.nj_machine.specs.State.{State, power_on, ram_of, rom_of, is_jammed, memory_of, reset_vector};
ghost use Rattle.nj_machine.specs.Frame.{unit_step, frame, frames, IsReady, IsFirstEnd};
ghost use Rattle.nj_machine.specs.Seen.{end_told, counted, seen_of};

use crate::FrameEnd;
use crate::cells::Cells;
use crate::seeing::{Recorder, UnitSeen, UnitStep};
use crate::waiting::{Waiting, Watch};
use nj_banked::Banked;
use nj_board::Board;
use nj_cpu::{Cpu, UnitEnd};
use nj_dots::Picture;
use nj_ines::Cart;
use nj_pad::{Pad, Port};
use nj_steps::Steps;
use std::alloc::{AllocError, Global};
use std::marker::Model;
use std::sync::ledger::Ledger;

/// The machine between two frames, over any picture.
#[derive(Drop)]
pub struct Console<P: Picture> {
    pub(crate) cpu: Cpu,
    pub(crate) recorder: Recorder<P>,
}

impl<P: Picture> Model for Console<P> {
    ghost use Rattle.nj_banked.specs.Banked.{pattern_of};
    ghost use Rattle.nj_machine.specs.State.{State, cells_of};
    ghost use Rattle.nj_machine.specs.Frame.{IsReady};

    ghost Value = { State };

    ghost view = { λ m. record {
      cpu = m.cpu;
      cells = cells_of (P.meaning m.recorder.cells.picture (pattern_of m.recorder.cells.board)) m.recorder.cells.ram
          m.recorder.cells.board m.recorder.cells.bus_byte m.recorder.cells.page m.recorder.cells.odd
          m.recorder.cells.port_one m.recorder.cells.port_two;
    } };

    ghost invariant = { λ m. IsReady (record {
      cpu = m.cpu;
      cells = cells_of (P.meaning m.recorder.cells.picture (pattern_of m.recorder.cells.board)) m.recorder.cells.ram
          m.recorder.cells.board m.recorder.cells.bus_byte m.recorder.cells.page m.recorder.cells.odd
          m.recorder.cells.port_one m.recorder.cells.port_two;
    }) };
}

// The memory at power-on.
fn zeros() -> [u8; 2048]
    ensures { result ≡ replicate 2048 0 }
{
    [0; 2048]
}

// The word at $FFFC of a board.
#[tactic(auto, unfolding(crate::specs::State::reset_vector))]
fn reset_vector(board: &Banked) -> u16
    ensures { result ≡ reset_vector board.now }
{
    let low = board.cpu_read(0xFFFC).unwrap_or(0);
    let high = board.cpu_read(0xFFFD).unwrap_or(0);
    u16::from(high) * 256 + u16::from(low)
}

// The board of a cartridge.
fn board_of(alloc: Global, cart: &Cart) -> Result<Banked, AllocError>
    ensures board { IfOk result (λ board. board ≡ memory_of cart.now) }
    ensures sized { IfOk result (λ board. IsBanks board) }
{
    let prg = Vec::from_slice(alloc, cart.prg())?;
    let chr = Vec::from_slice(alloc, cart.chr())?;
    let mapper = cart.mapper();
    if mapper == 0 {
        Ok(Banked::fixed(prg, chr, cart.chr_ram()))
    } else {
        Ok(Banked::new(prg, chr, cart.chr_ram(), mapper))
    }
}

// Whether a unit that ended so ends the frame: by a jam, or since it ran dot (241,1). One look tells both.
#[inline(always)]
fn ends_frame<P: Picture>(picture: &P, end: UnitEnd) -> bool
    ensures done { result ≡ false → end ≡ UnitEnd.Done }
    ensures unmarked { (p : List ℕ) → result ≡ false → (P.meaning picture.now p).ended ≡ false }
    ensures marked { (p : List ℕ) → result ≡ true → end ≡ UnitEnd.Done → (P.meaning picture.now p).ended ≡ true }
{
    let jammed = end == UnitEnd::Jammed;
    picture.has_ended() as u8 | jammed as u8 != 0
}

impl<P: Picture + Drop + Waiting> Console<P> {
    /// The machine of a cartridge, before its first cycle.
    #[tactic(auto, unfolding(crate::specs::State::power_on))]
    pub fn power_on(alloc: Global, cart: &Cart) -> Result<Self, AllocError>
        ensures begun { IfOk result (λ machine. machine ≡ power_on cart.now) }
        ensures ready { IfOk result (λ machine. IsReady machine) }
    {
        let board = board_of(alloc, cart)?;
        let cpu = nj_cpu::power_on(reset_vector(&board));
        let cells = Cells {
            picture: P::power_on(cart.vertical()),
            ram: zeros(),
            board,
            bus_byte: 0,
            page: None,
            odd: false,
            port_one: Port::new(),
            port_two: Port::new(),
            pad: Pad(0),
        };
        let recorder = Recorder {
            cells,
            reads: [0, 0, 0, 0],
            count: 0,
        };
        Ok(Console { cpu, recorder })
    }

    /// One frame with this pad, which counts as one step. It ends with the first unit of the processor that runs the
    /// picture's dot (241,1), or with a jam, also where the unit that jams runs that dot.
    #[tactic(auto, using(crate::proofs::Fuel::frame_ends, crate::proofs::Fuel::frame_goes_on, crate::proofs::Fuel::fewer_left, crate::proofs::Units::end_tells))]
    pub fn frame<L: Ledger>(&mut self, pad: Pad, steps: &mut Steps<L>) -> FrameEnd
        ensures after { frame self.old pad ≡ (self.new, result) }
        ensures jammed { (result ≡ FrameEnd.Jammed) ↔ (is_jammed self.new ≡ true) }
        ensures ready { IsReady self.new }
        ensures cartridge { rom_of self.new ≡ rom_of self.old }
        ensures counted { steps.new ≡ min (steps.old + 1) (2 ^ 64 - 1) }
        ensures never_falls { steps.old ≤ steps.new }
    {
        steps.tick();
        if self.stands() {
            return FrameEnd::Jammed;
        }
        let mut watch = Watch::new(&self.cpu);
        loop {
            let before = self.cpu.pc;
            if let Some(end) = self.run_unit(pad) {
                return end;
            }
            self.look_for_turns(before, &mut watch);
        }
    }

    /// One frame for each pad, each of which counts as one step.
    pub fn play<L: Ledger>(&mut self, pads: &[Pad], steps: &mut Steps<L>)
        ensures played { self.new ≡ frames self.old pads.now }
        ensures cartridge { rom_of self.new ≡ rom_of self.old }
        ensures counted { steps.new ≤ steps.old + length pads.now }
        ensures never_falls { steps.old ≤ steps.new }
    {
        for pad in pads {
            let _ = self.frame(*pad, steps);
        }
    }

    /// The 2,048 bytes of working memory.
    #[tactic(auto, unfolding(crate::specs::State::ram_of))]
    pub fn ram(&self) -> &[u8]
        ensures bytes { result.now ≡ ram_of self.now }
        ensures len { length result.now ≡ 2048 }
    {
        &self.recorder.cells.ram
    }

    /// Whether the processor is jammed.
    #[tactic(auto, unfolding(crate::specs::State::is_jammed))]
    pub fn jammed(&self) -> bool
        ensures { result ≡ is_jammed self.now }
    {
        self.cpu.jammed
    }

    // Whether no unit does anything: the processor is jammed.
    #[tactic(auto, unfolding(crate::specs::State::is_jammed))]
    fn stands(&self) -> bool
        ensures jammed { result ≡ is_jammed self.now }
        ensures ready { IsReady self.now }
    {
        self.cpu.jammed
    }

    /// One unit of a processor that is not jammed, in a frame with this pad, and how it ended the frame, if it did.
    #[inline(always)]
    #[tactic(auto, unfolding(crate::specs::Frame::unit_step, crate::specs::State::is_jammed))]
    fn run_unit(&mut self, pad: Pad) -> Option<FrameEnd>
        requires running { is_jammed self.old ≡ false }
        ensures step { unit_step pad self.old ≡ (self.new, result) }
        ensures began { IsReady self.old }
        ensures ready { IsReady self.new }
        ensures cartridge { rom_of self.new ≡ rom_of self.old }
    {
        self.recorder.cells.pad = pad;
        let end = nj_cpu::next_unit(&mut self.cpu, &mut self.recorder.cells);
        if !ends_frame(&self.recorder.cells.picture, end) {
            return None;
        }
        let _ = self.recorder.cells.picture.take_end();
        match end {
            UnitEnd::Jammed => Some(FrameEnd::Jammed),
            UnitEnd::Done => Some(FrameEnd::Picture),
        }
    }

    // One unit in a frame with this pad, and what it was.
    #[tactic(auto, unfolding(crate::specs::Frame::unit_step))]
    fn see_unit(&mut self, pad: Pad, seen: &mut UnitSeen) -> UnitStep
        ensures step { unit_step pad self.old ≡ (self.new, end_told result) }
        ensures seen { seen.new ≡ seen_of pad self.old }
        ensures began { IsReady self.old }
        ensures ready { IsReady self.new }
        ensures cartridge { rom_of self.new ≡ rom_of self.old }
    {
        self.recorder.cells.pad = pad;
        let end = self.recorder.unit(&mut self.cpu, seen);
        let ended = self.recorder.cells.picture.take_end();
        match end {
            UnitEnd::Jammed => UnitStep::Jammed,
            UnitEnd::Done => {
                if ended {
                    UnitStep::Picture
                } else {
                    UnitStep::More
                }
            }
        }
    }

    /// One unit of the processor in a frame with this pad, with what it was. The units of a frame are those up to the
    /// first that does not answer `More`, which counts as one step.
    #[tactic(auto, using(crate::proofs::Units::step_tells))]
    pub fn unit_step<L: Ledger>(
        &mut self,
        pad: Pad,
        seen: &mut UnitSeen,
        steps: &mut Steps<L>,
    ) -> UnitStep
        ensures after { unit_step pad self.old ≡ (self.new, end_told result) }
        ensures seen { seen.new ≡ seen_of pad self.old }
        ensures jammed { (result ≡ UnitStep.Jammed) ↔ (is_jammed self.new ≡ true) }
        ensures ready { IsReady self.new }
        ensures cartridge { rom_of self.new ≡ rom_of self.old }
        ensures counted { steps.new ≡ counted result steps.old }
        ensures never_falls { steps.old ≤ steps.new }
    {
        let step = self.see_unit(pad, seen);
        if step != UnitStep::More {
            steps.tick();
        }
        step
    }
}
