//! The bus that a turn is tried on.

ghost use Rattle.std.specs.Prelude.{◌≡◌, true};
ghost use Rattle.nj_cpu.specs.declared.state.UnitEnd.TheVariants.{Done};
ghost use Rattle.nj_cpu.specs.Unit.{unit_of};
ghost use Rattle.nj_turns.specs.Dry.{told_byte, dry};
ghost use Rattle.nj_turns.specs.Turn.{IsDry};

use nj_banked::Banked;
use nj_board::Board;
use nj_cpu::{Cpu, UnitEnd};
use nj_isa::Bus;

// The cycles that are tried at most.
pub(crate) const MOST_CYCLES: u32 = 255;

/// Working and program memory, a status that stays, and what was seen of the bus so far.
#[derive(Drop)]
pub(crate) struct DryBus<'a> {
    pub ram: &'a [u8; 2048],
    pub board: &'a Banked,
    pub status: Option<u8>,
    pub line: bool,
    pub bus_byte: u8,
    pub cycles: u32,
    pub lost: bool,
}

impl<'a> DryBus<'a> {
    // The byte of working or program memory at an address, or the status.
    #[inline]
    #[tactic(auto, unfolding(crate::specs::Dry::told_byte, nj_banked::specs::Banked::byte_at))]
    fn told_byte(&self, at: u16) -> Option<u8>
        ensures { result ≡ told_byte self.now.ram.now self.now.board.now self.now.status at }
    {
        if at < 0x2000 {
            Some(self.ram[at as usize % 2048])
        } else if at >= 0x8000 {
            self.board.cpu_read(at)
        } else if at < 0x4000 && at % 8 == 2 {
            self.status
        } else {
            None
        }
    }

    /// One unit; whether it neither jams nor asks for anything but memory.
    pub fn run_unit(&mut self, cpu: &mut Cpu) -> bool
        ensures unit { result ≡ true → unit_of dry cpu.old (⟦<DryBus<'a> as Bus>⟧.held self.old)
            ≡ record { cpu = cpu.new; held = ⟦<DryBus<'a> as Bus>⟧.held self.new; end_ = Done } }
        ensures kept { result ≡ true → IsDry (⟦<DryBus<'a> as Bus>⟧.held self.new) }
    {
        match nj_cpu::unit(cpu, self) {
            UnitEnd::Done => !self.lost,
            UnitEnd::Jammed => false,
        }
    }
}

impl<'a> Bus for DryBus<'a> {
    ghost use Rattle.nj_turns.specs.Dry.{Dry, dry};

    ghost Held = { Dry };

    ghost held = { λ d. record {
      ram = d.ram.now;
      board = d.board.now;
      status = d.status;
      line = d.line;
      bus_byte = d.bus_byte;
      cycles = d.cycles;
      lost = d.lost;
    } };

    ghost acts = { dry };

    #[inline]
    #[tactic(auto, unfolding(crate::specs::Dry::after_read))]
    fn read(&mut self, at: u16) -> u8 {
        match self.told_byte(at) {
            Some(byte) => {
                if self.cycles < MOST_CYCLES {
                    self.bus_byte = byte;
                    self.cycles += 1;
                } else {
                    self.lost = true;
                }
                byte
            }
            None => {
                self.lost = true;
                0
            }
        }
    }

    fn write(&mut self, _at: u16, _value: u8) {
        self.lost = true;
    }

    #[inline]
    fn nmi_line(&self) -> bool {
        self.line
    }

    fn take_dma(&mut self) -> Option<u8> {
        None
    }

    fn odd(&self) -> bool {
        false
    }
}
