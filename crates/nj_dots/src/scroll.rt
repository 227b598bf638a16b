//! The picture's internal scroll registers (NESdev Wiki, "PPU scrolling").

ghost use Rattle.std.specs.Prelude.{◌≡◌};
ghost use Rattle.nj_dots.specs.Scroll.{next_column, next_row, next_tile_row, with_horizontal, with_vertical, scrolled, addressed};

/// v, the current address, t, the one that is being put together, the fine X, and w, which is set where the next
/// write of $2005 or $2006 is the second. v and t have 15 bits, yyy NN YYYYY XXXXX; fine X has three.
#[derive(Clone, Copy, Debug, PartialEq, Eq)]
pub struct Scroll {
    pub v: u16,
    pub t: u16,
    pub x: u8,
    pub w: bool,
}

impl Scroll {
    /// The tile to the right.
    #[tactic(auto, unfolding(crate::specs::Scroll::next_column))]
    pub fn step_x(&mut self)
        ensures { self.new ≡ record self.old { v = next_column self.old.v } }
    {
        let v = self.v;
        if v % 32 == 31 {
            self.v = v / 2048 * 2048 + (1 - v / 1024 % 2) * 1024 + v / 32 % 32 * 32;
        } else {
            self.v = v + 1;
        }
    }

    /// The line below.
    #[tactic(auto, unfolding(crate::specs::Scroll::next_row))]
    pub fn step_y(&mut self)
        ensures { self.new ≡ record self.old { v = next_row self.old.v } }
    {
        let v = self.v;
        if v / 4096 % 8 == 7 {
            self.v = next_tile_row(v);
        } else {
            self.v = v + 4096;
        }
    }

    /// v takes the horizontal bits of t.
    #[tactic(auto, unfolding(crate::specs::Scroll::with_horizontal))]
    pub fn copy_x(&mut self)
        ensures { self.new ≡ record self.old { v = with_horizontal self.old.t self.old.v } }
    {
        let (t, v) = (self.t, self.v);
        self.v = v / 2048 * 2048 + t / 1024 % 2 * 1024 + v / 32 % 32 * 32 + t % 32;
    }

    /// v takes the vertical bits of t.
    #[tactic(auto, unfolding(crate::specs::Scroll::with_vertical))]
    pub fn copy_y(&mut self)
        ensures { self.new ≡ record self.old { v = with_vertical self.old.t self.old.v } }
    {
        let (t, v) = (self.t, self.v);
        self.v = t / 2048 % 16 * 2048 + v / 1024 % 2 * 1024 + t / 32 % 32 * 32 + v % 32;
    }

    /// A write of $2005.
    #[tactic(auto, unfolding(crate::specs::Scroll::scrolled))]
    pub fn scroll(&mut self, value: u8)
        ensures { self.new ≡ scrolled value self.old }
    {
        let (t, byte) = (self.t, u16::from(value));
        if self.w {
            self.t = byte % 8 * 4096 + t / 1024 % 4 * 1024 + byte / 8 * 32 + t % 32;
            self.w = false;
        } else {
            self.t = t / 32 * 32 + byte / 8;
            self.x = value % 8;
            self.w = true;
        }
    }

    /// A write of $2006.
    #[tactic(auto, unfolding(crate::specs::Scroll::addressed))]
    pub fn address(&mut self, value: u8)
        ensures { self.new ≡ addressed value self.old }
    {
        let (t, byte) = (self.t, u16::from(value));
        if self.w {
            self.t = t / 256 * 256 + byte;
            self.v = self.t;
            self.w = false;
        } else {
            self.t = byte % 64 * 256 + t % 256;
            self.w = true;
        }
    }
}

// The first line of the next row of tiles.
#[tactic(auto, unfolding(crate::specs::Scroll::next_tile_row))]
fn next_tile_row(v: u16) -> u16
    ensures { result ≡ next_tile_row v }
{
    match v / 32 % 32 {
        29 => (1 - v / 2048 % 2) * 2048 + v / 1024 % 2 * 1024 + v % 32,
        31 => v / 1024 % 4 * 1024 + v % 32,
        _ => v % 4096 + 32,
    }
}
