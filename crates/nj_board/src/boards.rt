//! What the machine sees of any board.

ghost use Rattle.std.specs.Prelude.{◌≡◌, ◌<◌, ◌≤◌, length};
ghost use Rattle.nj_board.specs.Board.{BoardActs};

/// A cartridge's board. What a call does is told over what the board holds.
pub trait Board {
    /// What the board holds, as a value of the proofs alone.
    ghost Held: { Type 0 };

    /// What this board holds now.
    ghost held: { Self → Held };

    /// What each call answers and leaves.
    ghost acts: { BoardActs Held };

    /// The byte that the processor reads at an address, or none where nothing is mapped.
    fn cpu_read(&self, at: u16) -> Option<u8>
        requires { 0x4020 ≤ at }
        ensures { result ≡ acts.byte (held self.now) at };

    /// The processor's write at an address.
    fn cpu_write(&mut self, at: u16, value: u8)
        ensures { held self.new ≡ acts.after_write (held self.old) at value };

    /// The pattern memory that the picture sees, 8,192 bytes.
    fn pattern(&self) -> &[u8]
        ensures bytes { result.now ≡ acts.pattern (held self.now) }
        ensures len { length result.now ≡ 8192 };

    /// The picture's write to pattern memory, which ROM ignores.
    fn put_pattern(&mut self, at: u16, value: u8)
        requires { at < 0x2000 }
        ensures { held self.new ≡ acts.after_put (held self.old) at value };

    /// The chosen bank.
    fn bank(&self) -> u8
        ensures chosen { result ≡ acts.bank (held self.now) }
        ensures below { result < acts.banks (held self.now) };

    /// Chooses a bank.
    fn set_bank(&mut self, bank: u8)
        requires { bank < acts.banks (held self.old) }
        ensures { held self.new ≡ acts.after_bank (held self.old) bank };
}
