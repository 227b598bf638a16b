//! Where the picture is in its frame.

ghost use Rattle.std.specs.Prelude.{◌≡◌};
ghost use Rattle.nj_dots.specs.Screen.{place_of};

/// The dots of a line (NESdev Wiki, "PPU frame timing").
pub const DOTS_OF_LINE: u32 = 341;

/// The dots of a frame of 262 lines, none left out.
pub const DOTS_OF_FRAME: u32 = 89_342;

/// The place of dot (241,1), where vertical blank begins.
pub const BLANK_BEGINS: u32 = 82_182;

/// The place of dot (261,1), where vertical blank ends.
pub const BLANK_ENDS: u32 = 89_002;

/// The next dot to be run: lines 0 to 261, of which 0 to 239 are visible, 241 begins vertical blank and 261 is the
/// pre-render line; dots 0 to 340.
#[derive(Clone, Copy, Debug, PartialEq, Eq)]
pub struct Position {
    pub line: u16,
    pub dot: u16,
}

impl Position {
    /// The dot's place in its frame, all dots counted from 0.
    pub fn place(self) -> u32
        ensures { result ≡ place_of self }
    {
        u32::from(self.line) * DOTS_OF_LINE + u32::from(self.dot)
    }
}
