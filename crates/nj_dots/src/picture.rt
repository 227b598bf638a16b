//! What a machine sees of a picture, however it keeps its state.

use crate::position::Position;

/// A picture. Every `pattern` is the 8,192 bytes of pattern memory, the same from one `settle` or register access to
/// the next; registers are numbered 0 to 7, for $2000 to $2007. A read of $2002 may leave dots pending: after it the
/// caller hands in the same pattern until another register was accessed or the picture was settled.
pub trait Picture {
    ghost use Rattle.std.specs.Prelude.{◌≡◌, ◌≤◌, ◌<◌, ℕ, List, true, false, length};
    ghost use Rattle.nj_dots.specs.declared.screen.Screen.{Screen};
    ghost use Rattle.nj_dots.specs.Screen.{IsScreen, nmi_line_of, power_on};
    ghost use Rattle.nj_dots.specs.Dots.{after_dots, to_event};
    ghost use Rattle.nj_dots.specs.Registers.{after_read, after_write, read_byte, to_pattern};
    ghost use Rattle.nj_dots.specs.Image.{Holds, IsStored, with_picture};

    // The picture's state, given the pattern memory that its pending dots are to read.
    ghost meaning: { Self → List ℕ → Screen };

    // No dot is pending.
    ghost settled: { Self → Type 0 };

    /// The picture at power-on, line 0 dot 0, for a cartridge of vertical or horizontal mirroring.
    fn power_on(vertical: bool) -> Self
        ensures { (p : List ℕ) → meaning result p ≡ power_on vertical };

    /// Runs the next dots.
    fn run(&mut self, dots: u32, pattern: &[u8])
        requires { length pattern.now ≡ 8192 }
        ensures { meaning self.new pattern.now ≡ after_dots dots pattern.now (meaning self.old pattern.now) };

    /// Leaves the next dots pending, if no one has to know yet what they do: a run that needs no pattern memory. Tells
    /// whether they are due instead: then nothing has changed, and they are still to be run.
    fn defer(&mut self, dots: u32) -> bool
        ensures pending { (p : List ℕ) → result ≡ false → meaning self.new p ≡ after_dots dots p (meaning self.old p) }
        ensures due { (p : List ℕ) → result ≡ true → meaning self.new p ≡ meaning self.old p };

    /// Reads a register.
    fn read(&mut self, reg: u8, pattern: &[u8]) -> u8
        requires reg { reg < 8 }
        requires pattern { length pattern.now ≡ 8192 }
        ensures byte { result ≡ read_byte reg (meaning self.old pattern.now) }
        ensures after { (p : List ℕ) → (reg ≡ 2 → p ≡ pattern.now)
            → meaning self.new p ≡ after_read reg pattern.now (meaning self.old pattern.now) };

    /// Writes a register. `Some` is a write to pattern memory, place and byte, left to the board.
    fn write(&mut self, reg: u8, value: u8, pattern: &[u8]) -> Option<(u16, u8)>
        requires reg { reg < 8 }
        requires pattern { length pattern.now ≡ 8192 }
        ensures left { result ≡ to_pattern reg value (meaning self.old pattern.now) }
        ensures after { (p : List ℕ) → meaning self.new p ≡ after_write reg value (meaning self.old pattern.now) };

    /// The level of the NMI line.
    fn nmi_line(&self) -> bool
        ensures { (p : List ℕ) → result ≡ nmi_line_of (meaning self.now p) };

    /// Whether dot (241,1) was run since its mark was last taken.
    fn has_ended(&self) -> bool
        ensures { (p : List ℕ) → result ≡ (meaning self.now p).ended };

    /// Tells whether dot (241,1) was run since the last such call.
    fn take_end(&mut self) -> bool
        ensures told { (p : List ℕ) → result ≡ (meaning self.old p).ended }
        ensures taken { (p : List ℕ) → meaning self.new p ≡ record (meaning self.old p) { ended = false } };

    /// The next dot to be run, pending dots counted as run.
    fn position(&self) -> Position
        ensures { (p : List ℕ) → result ≡ (meaning self.now p).position };

    /// The number of dots up to and including the next (241,1) or (261,1), if no register is written before.
    fn dots_to_event(&self) -> u32
        ensures { (p : List ℕ) → result ≡ to_event (meaning self.now p) };

    /// Leaves no dot pending.
    fn settle(&mut self, pattern: &[u8])
        requires { length pattern.now ≡ 8192 }
        ensures pending { settled self.new }
        ensures same { (p : List ℕ) → meaning self.new p ≡ meaning self.old pattern.now };

    /// Writes the picture's part of an image, bytes 2,048 to 4,447, and no other byte.
    fn put(&self, image: &mut [u8])
        requires pending { settled self.now }
        requires long { 4448 ≤ length image.old }
        ensures { (p : List ℕ) → image.new ≡ with_picture (meaning self.now p) image.old };

    /// Takes the state that `put` wrote of a picture of the same mirroring, of which no end was marked.
    fn get(&mut self, image: &[u8])
        requires long { 4448 ≤ length image.now }
        requires stored { (p : List ℕ) × IsStored (meaning self.old p).vram.vertical image.now }
        ensures pending { settled self.new }
        ensures state { (p : List ℕ) (s : Screen) → Holds image.now s
            → s.vram.vertical ≡ (meaning self.old p).vram.vertical
            → meaning self.new p ≡ s };

    // Position and registers stay in their ranges, the memories keep their sizes.
    ghost fits: { (s : Self) (p : List ℕ) → IsScreen (meaning s p) };
}
