//! Laws of whole instructions in the words of the published manuals, over any bus. Nothing calls
//! these functions: each is the statement that its clauses make of the definition that `unit` meets.

ghost use Rattle.std.specs.Prelude.{◌≡◌, ◌+◌, ◌%◌, ◌<◌, ℕ, true, false};
ghost use Rattle.nj_isa.specs.Timing.{cycles_of, jams};
ghost use Rattle.nj_cpu.specs.declared.state.Cpu.{Cpu as Processor};
ghost use Rattle.nj_cpu.specs.Unit.{unit_of, end_of};
ghost use Rattle.nj_cpu.specs.Laws.{Runs, CountsCycles, RemembersStack, IsPulled, published_cycles, branches, goes_on, bytes_of};

use nj_isa::Bus;

/// An instruction, official or not, takes its published cycles, with the published penalties for a crossed
/// page and a taken branch, as any count of the bus's cycles tells.
pub fn cycles_are_published<B: Bus>()
    ensures { (count : B.Held → ℕ) (cpu : Processor) (held : B.Held) (opcode : ℕ) → CountsCycles B.acts count
        → Runs B.acts cpu held opcode → opcode < 256 → 0 < cycles_of opcode
        → count (unit_of B.acts cpu held).held ≡ count held + published_cycles B.acts cpu held opcode }
{
    nj_isa::cycles_are_published();
}

/// An instruction that is no jump, call, return, break, jam or taken branch moves PC by its length.
pub fn instructions_go_on_behind_themselves<B: Bus>()
    ensures { (cpu : Processor) (held : B.Held) (opcode : ℕ) → Runs B.acts cpu held opcode → opcode < 256
        → goes_on opcode ≡ true → branches cpu opcode ≡ false
        → (unit_of B.acts cpu held).cpu.pc ≡ (cpu.pc + bytes_of opcode) % 65536 }
{}

/// A unit that is an instruction ends as jammed exactly where its opcode is one of the 20 that jam.
pub fn jams_are_those_of_the_table<B: Bus>()
    ensures { (cpu : Processor) (held : B.Held) (opcode : ℕ) → Runs B.acts cpu held opcode
        → (unit_of B.acts cpu held).end_ ≡ end_of (jams opcode) }
{}

/// Where the bus remembers its stack, `PHA` ($48) and then `PLA` ($68) give A back, with Z and N of
/// it, whatever the registers but S became between them.
pub fn pulled_a_is_pushed_a<B: Bus>()
    ensures pulled { (cpu later : Processor) (held : B.Held) → RemembersStack B.acts → cpu.a < 256 → cpu.s < 256
        → Runs B.acts cpu held 0x48 → later.s ≡ (unit_of B.acts cpu held).cpu.s
        → Runs B.acts later (unit_of B.acts cpu held).held 0x68
        → IsPulled later (unit_of B.acts later (unit_of B.acts cpu held).held).cpu cpu.a }
    ensures stack { (cpu later : Processor) (held : B.Held) → RemembersStack B.acts → cpu.a < 256 → cpu.s < 256
        → Runs B.acts cpu held 0x48 → later.s ≡ (unit_of B.acts cpu held).cpu.s
        → Runs B.acts later (unit_of B.acts cpu held).held 0x68
        → (unit_of B.acts later (unit_of B.acts cpu held).held).cpu.s ≡ cpu.s }
{}

/// Where the bus remembers its stack, `JSR` ($20) and then `RTS` ($60) come back behind the call.
pub fn returns_come_back_behind_calls<B: Bus>()
    ensures behind { (cpu later : Processor) (held : B.Held) → RemembersStack B.acts → cpu.s < 256
        → Runs B.acts cpu held 0x20 → later.s ≡ (unit_of B.acts cpu held).cpu.s
        → Runs B.acts later (unit_of B.acts cpu held).held 0x60
        → (unit_of B.acts later (unit_of B.acts cpu held).held).cpu.pc ≡ (cpu.pc + 3) % 65536 }
    ensures stack { (cpu later : Processor) (held : B.Held) → RemembersStack B.acts → cpu.s < 256
        → Runs B.acts cpu held 0x20 → later.s ≡ (unit_of B.acts cpu held).cpu.s
        → Runs B.acts later (unit_of B.acts cpu held).held 0x60
        → (unit_of B.acts later (unit_of B.acts cpu held).held).cpu.s ≡ cpu.s }
{}
