//! The bus of the processor.

ghost use Rattle.std.specs.Prelude.{◌≡◌};
ghost use Rattle.nj_isa.specs.Bus.{Acts, after_asking};

/// What the processor is wired to. Each `read` and each `write` is one cycle; the other calls take
/// no time. What a call does is told over what the bus holds, so two buses that keep it differently
/// have one meaning.
pub trait Bus {
    /// What the bus holds, as a value of the proofs alone.
    ghost Held: { Type 0 };

    /// What this bus holds now.
    ghost held: { Self → Held };

    /// What each call answers and leaves.
    ghost acts: { Acts Held };

    /// One cycle that reads the byte at an address.
    fn read(&mut self, at: u16) -> u8
        ensures byte { result ≡ acts.byte (held self.old) at }
        ensures after { held self.new ≡ acts.after_read (held self.old) at };

    /// One cycle that writes a byte at an address.
    fn write(&mut self, at: u16, value: u8)
        ensures { held self.new ≡ acts.after_write (held self.old) at value };

    /// The level of the NMI line.
    fn nmi_line(&self) -> bool
        ensures { result ≡ acts.line (held self.now) };

    /// Takes the page of a sprite copy that was asked for and not yet taken, if there is one.
    fn take_dma(&mut self) -> Option<u8>
        ensures page { result ≡ acts.page (held self.old) }
        ensures after { held self.new ≡ after_asking acts (held self.old) };

    /// Whether the number of the next cycle, counted from 0 at power-on, is odd.
    fn odd(&self) -> bool
        ensures { result ≡ acts.odd (held self.now) };
}
