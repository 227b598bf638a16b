//! One unit of the machine, and what it was.

ghost use Rattle.std.specs.Prelude.{◌≡◌, ◌<◌, [], ◌∷◌, take};
ghost use Rattle.nj_isa.specs.Accesses.{class_of};
ghost use Rattle.nj_cpu.specs.Unit.{powered_on, unit_of};
ghost use Rattle.nj_machine.specs.Recorder.{noted, recording, is_call, nth, bytes_by, told_by};
ghost use Rattle.nj_machine.specs.Seen.{kind_in, awaited, seen_in};
ghost use Rattle.nj_machine.specs.Wires.{wires};

use crate::cells::Cells;
use nj_cpu::{Cpu, Note, UnitEnd};
use nj_dots::Picture;
use nj_isa::{Bus, Class, OpRow, mode_len, op_class, op_row};

/// What a unit of the processor was.
#[derive(Clone, Copy, Debug, PartialEq, Eq)]
pub enum UnitKind {
    /// The processor was jammed before it.
    Nothing,
    /// A sprite copy.
    Copy,
    /// The entry of an NMI.
    Nmi,
    /// An instruction that jams.
    Jam,
    /// Any other instruction.
    Code,
}

/// How a unit left the frame that it is in.
#[derive(Clone, Copy, Debug, PartialEq, Eq)]
pub enum UnitStep {
    /// The frame goes on.
    More,
    /// The unit ran the picture's dot (241,1), and the processor is not jammed.
    Picture,
    /// The processor is jammed.
    Jammed,
}

/// A unit, with the registers and the place of the picture's next dot before it (lines 0 to 261, dots 0 to 340).
#[derive(Clone, Copy, Debug, PartialEq, Eq)]
pub struct UnitSeen {
    pub kind: UnitKind,
    /// The instruction's opcode and the bytes of its operand, as they were read; zeros behind them.
    pub bytes: [u8; 3],
    /// How many bytes there are: 1 to 3 for `Code`, 1 for `Jam`, else 0.
    pub len: u8,
    pub cpu: Cpu,
    pub line: u16,
    pub dot: u16,
}

impl UnitSeen {
    /// No unit yet, to be handed to the first call of `Console::unit_step`.
    pub fn new() -> UnitSeen
        ensures { result
            ≡ record {
              kind = UnitKind.Nothing;
              bytes = 0 ∷ 0 ∷ 0 ∷ [];
              len = 0;
              cpu = powered_on 0;
              line = 0;
              dot = 0;
            } }
    {
        UnitSeen {
            kind: UnitKind::Nothing,
            bytes: [0, 0, 0],
            len: 0,
            cpu: nj_cpu::power_on(0),
            line: 0,
            dot: 0,
        }
    }
}

/// The machine's bus, and where a unit is to be told the values of its first four reads.
#[derive(Drop)]
pub(crate) struct Recorder<P> {
    pub cells: Cells<P>,
    pub reads: [u8; 4],
    pub count: usize,
}

impl<P: Picture + Drop> Recorder<P> {
    // Keeps the value of a read.
    fn note(&mut self, byte: u8)
        ensures cells { self.new.cells ≡ self.old.cells }
        ensures reads { take self.new.count self.new.reads ≡ noted (take self.old.count self.old.reads) byte }
    {
        if self.count < 4 {
            self.reads[self.count] = byte;
            self.count += 1;
        }
    }

    // The value of a read, or 0 where it was not made.
    fn nth(&self, n: usize) -> u8
        requires { n < 4 }
        ensures value { result ≡ nth (take self.now.count self.now.reads) n }
        ensures below { result < 256 }
    {
        if n < self.count { self.reads[n] } else { 0 }
    }

    // The bytes of the instruction of this row that was run.
    #[tactic(auto, unfolding(crate::specs::Recorder::bytes_by))]
    fn bytes(&self, row: OpRow) -> [u8; 3]
        ensures { result ≡ bytes_by row (take self.now.count self.now.reads) }
    {
        let len = mode_len(row.mode);
        let last = if is_call(op_class(row.op, row.mode)) {
            3
        } else {
            2
        };
        let second = if len > 1 { self.nth(1) } else { 0 };
        let third = if len > 2 { self.nth(last) } else { 0 };
        [self.nth(0), second, third]
    }

    // What the next unit is, if it is no instruction.
    #[tactic(auto, unfolding(crate::specs::Seen::awaited))]
    fn awaited(&self, cpu: &Cpu) -> Option<UnitKind>
        ensures { result ≡ awaited wires cpu.now (⟦<Cells<P> as Bus>⟧.held self.now.cells) }
    {
        if cpu.jammed {
            return Some(UnitKind::Nothing);
        }
        match self.cells.page {
            Some(_) => Some(UnitKind::Copy),
            None => match cpu.note {
                Note::Due => Some(UnitKind::Nmi),
                Note::None | Note::Late => None,
            },
        }
    }

    // The kind and the bytes of the unit that was run, which was awaited so, and how many bytes there are.
    fn told(&self, awaited: Option<UnitKind>) -> (UnitKind, u8, [u8; 3])
        ensures kind { result.0 ≡ (told_by awaited (take self.now.count self.now.reads)).kind }
        ensures len { result.1 ≡ (told_by awaited (take self.now.count self.now.reads)).len }
        ensures below { nth (take self.now.count self.now.reads) 0 < 256 }
        ensures bytes { result.2 ≡ (told_by awaited (take self.now.count self.now.reads)).bytes }
    {
        let opcode = self.nth(0);
        match awaited {
            Some(kind) => (kind, 0, [0, 0, 0]),
            None => {
                let row = op_row(opcode);
                (kind_in(row), mode_len(row.mode), self.bytes(row))
            }
        }
    }

    /// Runs one unit as the bus alone would, and tells what it was.
    #[tactic(auto, unfolding(crate::specs::Seen::seen_in))]
    pub fn unit(&mut self, cpu: &mut Cpu, seen: &mut UnitSeen) -> UnitEnd
        ensures cpu { cpu.new ≡ (unit_of wires cpu.old (⟦<Cells<P> as Bus>⟧.held self.old.cells)).cpu }
        ensures held { ⟦<Cells<P> as Bus>⟧.held self.new.cells
            ≡ (unit_of wires cpu.old (⟦<Cells<P> as Bus>⟧.held self.old.cells)).held }
        ensures end { result ≡ (unit_of wires cpu.old (⟦<Cells<P> as Bus>⟧.held self.old.cells)).end_ }
        ensures seen { seen.new ≡ seen_in cpu.old (⟦<Cells<P> as Bus>⟧.held self.old.cells) }
    {
        let before = *cpu;
        let place = self.cells.picture.position();
        let awaited = self.awaited(cpu);
        self.count = 0;
        let end = nj_cpu::unit(cpu, self);
        let (kind, len, bytes) = self.told(awaited);
        *seen = UnitSeen {
            kind,
            bytes,
            len,
            cpu: before,
            line: place.line,
            dot: place.dot,
        };
        end
    }
}

// The bus alone, and the value of each read noted.
impl<P: Picture + Drop> Bus for Recorder<P> {
    ghost use Rattle.std.specs.Prelude.{take};
    ghost use Rattle.nj_machine.specs.Wires.{Wired, wires};
    ghost use Rattle.nj_machine.specs.Recorder.{Recorded, recording};

    ghost Held = { Recorded Wired };

    ghost held = { λ r. record { held = ⟦<Cells<P> as Bus>⟧.held r.cells; reads = take r.count r.reads } };

    ghost acts = { recording wires };

    fn read(&mut self, at: u16) -> u8 {
        let byte = self.cells.read(at);
        self.note(byte);
        byte
    }

    fn write(&mut self, at: u16, value: u8) {
        self.cells.write(at, value);
    }

    fn nmi_line(&self) -> bool {
        self.cells.nmi_line()
    }

    fn take_dma(&mut self) -> Option<u8> {
        self.cells.take_dma()
    }

    fn odd(&self) -> bool {
        self.cells.odd()
    }
}

// Whether an instruction of this class is a call, which fetches its last byte after the stack was read.
fn is_call(class: Class) -> bool
    ensures { result ≡ is_call class }
{
    match class {
        Class::Calls => true,
        _ => false,
    }
}

// An instruction of this row is a jam or other code.
fn kind_in(row: OpRow) -> UnitKind
    ensures { result ≡ kind_in row }
{
    match op_class(row.op, row.mode) {
        Class::Jams => UnitKind::Jam,
        _ => UnitKind::Code,
    }
}
