//! The picture's state.

ghost use Rattle.std.specs.Prelude.{◌≡◌, false};
ghost use Rattle.nj_dots.specs.Screen.{IsPlaced, IsScreen, is_next, is_rendering, nmi_line_of, power_on, shows_both_layers, shows_left_columns};
ghost use Rattle.nj_dots.specs.Dots.{to_event};

use crate::position::{BLANK_BEGINS, BLANK_ENDS, DOTS_OF_FRAME, Position};
use crate::scroll::Scroll;
use nj_sprite0::{SpriteRow, has_bit};
use nj_vram::Vram;

/// All that the picture holds. Registers are those of NESdev Wiki, "PPU registers".
#[derive(Drop)]
pub struct Screen {
    /// The next dot to be run.
    pub position: Position,
    /// The parity of the frame; the first one is even.
    pub odd_frame: bool,
    /// $2000 as last written.
    pub control: u8,
    /// $2001 as last written.
    pub mask: u8,
    pub vertical_blank: bool,
    pub sprite_zero_hit: bool,
    /// A visible line had at least nine sprites; of all 64 those are counted that have the line as one of theirs.
    pub sprite_overflow: bool,
    /// A read of $2002 just before dot (241,1) keeps the vertical blank flag down at that dot.
    pub hold: bool,
    /// The last pixel was a hit of sprite zero, whose flag rises with the next dot.
    pub near: bool,
    pub scroll: Scroll,
    /// What the next read of $2007 answers below $3F00.
    pub buffer: u8,
    /// The last byte that was written to or read from a register.
    pub latch: u8,
    pub oam_address: u8,
    /// The background's next 16 pixels, the leftmost in bit 15; a bit is set where one is opaque.
    pub shift: u16,
    /// What the line shows of sprite zero.
    pub sprite_row: Option<SpriteRow>,
    /// Dot (241,1) was run since the mark was last taken.
    pub ended: bool,
    pub oam: [u8; 256],
    /// Nametables and palette.
    pub vram: Vram,
}

impl Screen {
    /// The picture at power-on.
    #[tactic(auto, unfolding(crate::specs::Screen::power_on), using(crate::proofs::Kept::screen_facts))]
    pub fn power_on(vertical: bool) -> Screen
        ensures screen { result ≡ power_on vertical }
        ensures fits { IsScreen result }
    {
        Screen {
            position: Position { line: 0, dot: 0 },
            odd_frame: false,
            control: 0,
            mask: 0,
            vertical_blank: false,
            sprite_zero_hit: false,
            sprite_overflow: false,
            hold: false,
            near: false,
            scroll: Scroll {
                v: 0,
                t: 0,
                x: 0,
                w: false,
            },
            buffer: 0,
            latch: 0,
            oam_address: 0,
            shift: 0,
            sprite_row: None,
            ended: false,
            oam: [0; 256],
            vram: Vram::new(vertical),
        }
    }

    /// Background or sprites are shown.
    #[tactic(auto, unfolding(crate::specs::Screen::is_rendering))]
    pub fn is_rendering(&self) -> bool
        ensures { result ≡ is_rendering self.now.mask }
    {
        has_bit(self.mask, 3) || has_bit(self.mask, 4)
    }

    /// The level of the NMI line.
    #[tactic(auto, unfolding(crate::specs::Screen::nmi_line_of))]
    pub fn nmi_line(&self) -> bool
        ensures { result ≡ nmi_line_of self.now }
    {
        self.vertical_blank && has_bit(self.control, 7)
    }

    /// The next dot is this one.
    #[tactic(auto, unfolding(crate::specs::Screen::is_next))]
    pub fn is_next(&self, line: u16, dot: u16) -> bool
        ensures { result ≡ is_next line dot self.now }
    {
        self.position.line == line && self.position.dot == dot
    }

    /// Tells whether dot (241,1) was run since the last such call, and takes the mark away.
    pub fn take_end(&mut self) -> bool
        requires { IsScreen self.old }
        ensures told { result ≡ self.old.ended }
        ensures taken { self.new ≡ record self.old { ended = false } }
        ensures fits { IsScreen self.new }
    {
        let ended = self.ended;
        self.ended = false;
        ended
    }

    /// The number of dots up to and including the next (241,1) or (261,1), if no register is written before.
    #[tactic(auto, unfolding(crate::specs::Dots::to_event))]
    pub fn dots_to_event(&self) -> u32
        requires { IsPlaced self.now.position }
        ensures { result ≡ to_event self.now }
    {
        let place = self.position.place();
        if place <= BLANK_BEGINS {
            BLANK_BEGINS + 1 - place
        } else if place <= BLANK_ENDS {
            BLANK_ENDS + 1 - place
        } else if place <= DOTS_OF_FRAME - 2 && self.odd_frame && self.is_rendering() {
            DOTS_OF_FRAME + BLANK_BEGINS - place
        } else {
            DOTS_OF_FRAME + BLANK_BEGINS + 1 - place
        }
    }
}

/// Both layers are shown, by $2001.
#[tactic(auto, unfolding(crate::specs::Screen::shows_both_layers))]
pub fn shows_both_layers(mask: u8) -> bool
    ensures { result ≡ shows_both_layers mask }
{
    has_bit(mask, 3) && has_bit(mask, 4)
}

/// Both layers are shown in the eight left columns, by $2001.
#[tactic(auto, unfolding(crate::specs::Screen::shows_left_columns))]
pub fn shows_left_columns(mask: u8) -> bool
    ensures { result ≡ shows_left_columns mask }
{
    has_bit(mask, 1) && has_bit(mask, 2)
}
