//! Loops that wait: their turns are passed over.

ghost use Rattle.std.specs.Prelude.{◌≡◌, ◌<◌, ◌≤◌, ◌*◌, ℕ, IfSome};
ghost use Rattle.nj_machine.specs.State.{is_jammed, rom_of};
ghost use Rattle.nj_machine.specs.Frame.{dots_left, frame, IsReady};
ghost use Rattle.nj_machine.specs.Waiting.{IsWait};

use crate::cells::Cells;
use crate::frames::Console;
use nj_board::Board;
use nj_catchup::{CatchUp, FixedStatus};
use nj_cpu::Cpu;
use nj_dots::Picture;
use nj_isa::Bus;
use nj_ppu::DotPicture;
use nj_turns::{turn_cycles, turns_are_the_same_on_each_resting_bus};

/// A picture by which a machine knows whether it is to pass over the turns of loops that wait. The answers change no
/// frame, only how fast it is run.
pub trait Waiting: Picture {
    ghost use Rattle.std.specs.Prelude.{ℕ, List};
    ghost use Rattle.nj_catchup.specs.Fixed.{IsFixed};

    /// Turns are passed over: many dots at once cost this picture little.
    fn passes_turns() -> bool;

    /// What reads of $2002 answer, and for how many dots, while they change nothing. No dots where that is not known.
    fn steady_status(&self) -> FixedStatus
        ensures { (p : List ℕ) → IsFixed result.status result.dots p (Self.meaning self.now p) };
}

impl Waiting for CatchUp {
    #[inline(always)]
    fn passes_turns() -> bool {
        true
    }

    fn steady_status(&self) -> FixedStatus {
        self.fixed_status()
    }
}

impl Waiting for DotPicture {
    #[inline(always)]
    fn passes_turns() -> bool {
        false
    }

    fn steady_status(&self) -> FixedStatus {
        FixedStatus { status: 0, dots: 0 }
    }
}

/// What a frame keeps to find loops that wait. It decides nothing but where turns are looked for.
#[derive(Drop)]
pub(crate) struct Watch {
    // The processor after the last jump back.
    anchor: Cpu,
    // The loop that it is in was found to wait by reading $2002.
    polls: bool,
    // Where the last loop began that was found not to wait.
    barred: Option<u16>,
    // How many jumps back in a row found another processor than the one before.
    misses: u8,
    // After many of them so many are passed by: a loop that counts is not looked at each time.
    rests: u8,
}

// So many jumps back that find another processor are looked at, each.
const MOST_MISSES: u8 = 32;

// And then one of so many and one.
const RESTS: u8 = 7;

impl Watch {
    /// Nothing was seen yet of a frame that begins with this processor.
    pub fn new(cpu: &Cpu) -> Watch {
        Watch {
            anchor: *cpu,
            polls: false,
            barred: None,
            misses: 0,
            rests: 0,
        }
    }

    // Whether a jump back to this address is to be looked at.
    #[inline(always)]
    fn looks_at(&mut self, pc: u16) -> bool {
        if self.rests > 0 {
            self.rests -= 1;
            return false;
        }
        self.barred != Some(pc)
    }

    // A jump back found another processor than the one before.
    fn miss(&mut self, cpu: &Cpu) {
        self.anchor = *cpu;
        self.polls = false;
        if self.misses < MOST_MISSES {
            self.misses += 1;
        } else {
            self.rests = RESTS;
        }
    }
}

// So many dots are worth the trial of a turn that reads $2002.
const LEAST_DOTS: u32 = 64;

// A turn of a loop that waits: its cycles, and within how many dots turns are known.
#[derive(Clone, Copy)]
pub(crate) struct Turn {
    pub cycles: u32,
    pub dots: u32,
}

impl Turn {
    // The dots of as many turns as end before those within which they are known, an even number of turns.
    fn whole_dots(self) -> u32
        requires some { 0 < self.cycles }
        requires few { self.cycles ≤ 255 }
        ensures even { (q : ℕ) × (result ≡ q * (6 * self.cycles)) }
        ensures within { 0 < result → result < self.dots }
    {
        self.dots.saturating_sub(1) / (6 * self.cycles) * (6 * self.cycles)
    }
}

impl<P: Picture + Drop + Waiting> Cells<P> {
    // A turn of the loop that the processor is in, if it waits. Where it is known to poll $2002 and the status stays
    // for a few dots alone, no turn is tried, and none is known.
    fn turn(&self, cpu: &Cpu, polls: &mut bool) -> Option<Turn>
        ensures { IfSome result
            (λ turn. IsWait cpu.now (⟦<Cells<P> as Bus>⟧.held self.now).cells turn.cycles turn.dots) }
    {
        if self.page.is_some() {
            return None;
        }
        let line = self.picture.nmi_line();
        let event = self.picture.dots_to_event();
        if !*polls {
            let cycles = turn_cycles(cpu, &self.ram, &self.board, None, line, self.bus_byte);
            if cycles > 0 {
                return Some(Turn {
                    cycles,
                    dots: event,
                });
            }
        }
        let fixed = self.picture.steady_status();
        if *polls && fixed.dots < LEAST_DOTS {
            return Some(Turn { cycles: 1, dots: 0 });
        }
        let status = Some(fixed.status);
        let cycles = turn_cycles(cpu, &self.ram, &self.board, status, line, self.bus_byte);
        if cycles == 0 {
            return None;
        }
        *polls = true;
        Some(Turn {
            cycles,
            dots: fixed.dots.min(event),
        })
    }
}

impl<P: Picture + Drop + Waiting> Console<P> {
    // Passes over turns of the loop that the processor is in, as many as are known, an even number of them. Tells
    // whether the loop waits.
    fn pass_turns(&mut self, polls: &mut bool) -> bool
        ensures same { (pad : ℕ) → frame self.new pad ≡ frame self.old pad }
        ensures fewer { dots_left self.new ≤ dots_left self.old }
        ensures ready { IsReady self.new }
        ensures cartridge { rom_of self.new ≡ rom_of self.old }
        ensures jam { is_jammed self.new ≡ is_jammed self.old }
    {
        let Some(turn) = self.recorder.cells.turn(&self.cpu, polls) else {
            return false;
        };
        turns_are_the_same_on_each_resting_bus::<Cells<P>>();
        let dots = turn.whole_dots();
        self.recorder
            .cells
            .picture
            .run(dots, self.recorder.cells.board.pattern());
        true
    }

    // Looks for a loop that waits after a unit that went back, and passes over turns of it.
    #[cold]
    #[inline(never)]
    fn look_back(&mut self, watch: &mut Watch)
        ensures same { (pad : ℕ) → frame self.new pad ≡ frame self.old pad }
        ensures fewer { dots_left self.new ≤ dots_left self.old }
        ensures ready { IsReady self.new }
        ensures cartridge { rom_of self.new ≡ rom_of self.old }
        ensures jam { is_jammed self.new ≡ is_jammed self.old }
    {
        if watch.anchor != self.cpu {
            watch.miss(&self.cpu);
            return;
        }
        watch.misses = 0;
        if !self.pass_turns(&mut watch.polls) {
            watch.barred = Some(self.cpu.pc);
        }
    }

    // After a unit that began at this address: a unit that went back may be the end of a turn.
    #[inline(always)]
    pub(crate) fn look_for_turns(&mut self, before: u16, watch: &mut Watch)
        ensures same { (pad : ℕ) → frame self.new pad ≡ frame self.old pad }
        ensures fewer { dots_left self.new ≤ dots_left self.old }
        ensures ready { IsReady self.new }
        ensures cartridge { rom_of self.new ≡ rom_of self.old }
        ensures jam { is_jammed self.new ≡ is_jammed self.old }
    {
        let pc = self.cpu.pc;
        if P::passes_turns() && pc <= before && watch.looks_at(pc) {
            self.look_back(watch);
        }
    }
}
