//! What the processor is wired to.

ghost use Rattle.std.specs.Prelude.{◌≡◌, ◌<◌, ◌≤◌, ◌*◌, ◌/◌, ◌+◌};
ghost use Rattle.nj_banked.specs.Banked.{pattern_of};
ghost use Rattle.nj_dots.specs.Dots.{after_dots};
ghost use Rattle.nj_machine.specs.State.{cells_of};
ghost use Rattle.nj_machine.specs.Wires.{answer, answered, port_byte, wires, written, Wired};

use nj_banked::Banked;
use nj_board::Board;
use nj_dots::Picture;
use nj_isa::Bus;
use nj_pad::{Pad, Port};

/// All that the machine holds beside its processor, and the pad of the frame.
#[derive(Drop)]
pub(crate) struct Cells<P> {
    pub picture: P,
    pub ram: [u8; 2048],
    pub board: Banked,
    pub bus_byte: u8,
    pub page: Option<u8>,
    pub odd: bool,
    pub port_one: Port,
    pub port_two: Port,
    pub pad: Pad,
}

/// A port gives bit 0; bits 5 to 7 stay on the data bus.
#[inline]
fn port_byte(bus_byte: u8, bit: u8) -> u8
    requires { bit < 2 }
    ensures { result ≡ port_byte bus_byte bit }
{
    bus_byte / 32 * 32 + bit
}

// The three dots of a cycle. Pattern memory is looked for only where they cannot stay pending.
#[inline(always)]
fn run_cycle<P: Picture>(picture: &mut P, board: &Banked)
    ensures { P.meaning picture.new (pattern_of board.now)
        ≡ after_dots 3 (pattern_of board.now) (P.meaning picture.old (pattern_of board.now)) }
{
    if picture.defer(3) {
        run_now(picture, board);
    }
}

// The same where they cannot.
#[cold]
#[inline(never)]
fn run_now<P: Picture>(picture: &mut P, board: &Banked)
    ensures { P.meaning picture.new (pattern_of board.now)
        ≡ after_dots 3 (pattern_of board.now) (P.meaning picture.old (pattern_of board.now)) }
{
    picture.run(3, board.pattern());
}

impl<P: Picture + Drop> Cells<P> {
    // The access of a read outside working memory and program memory, after the cycle's dots.
    #[inline(never)]
    #[tactic(auto, unfolding(crate::specs::Wires::answer, crate::specs::Wires::answered, crate::specs::Wires::register_read, crate::specs::Wires::port_one_read, crate::specs::Wires::port_two_read))]
    fn read_outside(&mut self, at: u16) -> u8
        requires from { 8192 ≤ at }
        requires below { at < 32768 }
        ensures byte { result ≡ answer (⟦<Cells<P> as Bus>⟧.held self.old) at }
        ensures after { ⟦<Cells<P> as Bus>⟧.held self.new ≡ answered (⟦<Cells<P> as Bus>⟧.held self.old) at }
    {
        if at < 0x4000 {
            self.picture.read((at % 8) as u8, self.board.pattern())
        } else if at == 0x4016 {
            port_byte(self.bus_byte, self.port_one.read(self.pad))
        } else if at == 0x4017 {
            port_byte(self.bus_byte, self.port_two.read(Pad(0)))
        } else if at < 0x4020 {
            self.bus_byte
        } else {
            let last = self.bus_byte;
            self.board.cpu_read(at).unwrap_or(last)
        }
    }

    // The access of a write outside working memory, after the cycle's dots.
    #[inline(never)]
    #[tactic(auto, unfolding(crate::specs::Wires::written, crate::specs::Wires::register_put, crate::specs::Wires::copy_asked, crate::specs::Wires::ports_strobed, crate::specs::Wires::board_put))]
    fn write_outside(&mut self, at: u16, value: u8)
        requires from { 8192 ≤ at }
        ensures { ⟦<Cells<P> as Bus>⟧.held self.new ≡ written (⟦<Cells<P> as Bus>⟧.held self.old) at value }
    {
        if at < 0x4000 {
            if let Some((place, byte)) = self
                .picture
                .write((at % 8) as u8, value, self.board.pattern())
            {
                self.board.put_pattern(place, byte);
            }
        } else if at == 0x4014 {
            self.page = Some(value);
        } else if at == 0x4016 {
            self.port_one.strobe(value, self.pad);
            self.port_two.strobe(value, Pad(0));
        } else if at >= 0x8000 {
            self.picture.settle(self.board.pattern());
            self.board.cpu_write(at, value);
        }
    }
}

impl<P: Picture + Drop> Bus for Cells<P> {
    ghost Held = { Wired };

    ghost held = { λ c. record {
      cells = cells_of (P.meaning c.picture (pattern_of c.board)) c.ram c.board c.bus_byte c.page c.odd c.port_one
          c.port_two;
      pad = c.pad;
    } };

    ghost acts = { wires };

    #[inline(always)]
    #[tactic(auto, unfolding(crate::specs::Wires::byte_read, crate::specs::Wires::after_read, crate::specs::Wires::dots_run, crate::specs::Wires::answer, crate::specs::Wires::answered, crate::specs::Wires::over))]
    fn read(&mut self, at: u16) -> u8 {
        run_cycle(&mut self.picture, &self.board);
        let byte = if at >= 0x8000 {
            self.board.cpu_read(at).unwrap_or(self.bus_byte)
        } else if at < 0x2000 {
            self.ram[at as usize % 2048]
        } else {
            self.read_outside(at)
        };
        self.bus_byte = byte;
        self.odd = !self.odd;
        byte
    }

    #[inline(always)]
    #[tactic(auto, unfolding(crate::specs::Wires::after_write, crate::specs::Wires::dots_run, crate::specs::Wires::written, crate::specs::Wires::ram_put, crate::specs::Wires::over))]
    fn write(&mut self, at: u16, value: u8) {
        run_cycle(&mut self.picture, &self.board);
        if at < 0x2000 {
            self.ram[at as usize % 2048] = value;
        } else {
            self.write_outside(at, value);
        }
        self.bus_byte = value;
        self.odd = !self.odd;
    }

    #[inline]
    fn nmi_line(&self) -> bool {
        self.picture.nmi_line()
    }

    #[inline]
    #[tactic(auto, unfolding(crate::specs::Wires::page_taken))]
    fn take_dma(&mut self) -> Option<u8> {
        if self.page.is_some() {
            self.page.take()
        } else {
            None
        }
    }

    #[inline]
    fn odd(&self) -> bool {
        self.odd
    }
}
