//! What a dot does.

ghost use Rattle.std.specs.Prelude.{◌≡◌, ◌+◌, ◌≤◌, ◌<◌, length};
ghost use Rattle.nj_dots.specs.Screen.{IsPlaced, IsScreen, first_sprite};
ghost use Rattle.nj_sprite0.specs.Sprite.{shows_at};
ghost use Rattle.nj_dots.specs.Dots.{background_bit, dot_of, drawn, fetch_place, fetched_row, flagged, hidden, is_hit_pixel, is_drawn_line, is_last_dot, is_shown_column, latched, moved, overflows, pixel, prefetched, raised, shown, sprites_fetched, tile_ended, tile_fetched};

use crate::position::Position;
use crate::screen::{Screen, shows_both_layers, shows_left_columns};
use nj_sprite0::{has_bit, in_range, opaque_row, sprite_row};

impl Screen {
    /// Runs the next dot.
    #[tactic(auto, unfolding(crate::specs::Dots::dot_of), using(crate::proofs::Kept::dot_facts))]
    pub fn dot(&mut self, pattern: &[u8])
        requires fits { IsScreen self.old }
        requires pattern { length pattern.now ≡ 8192 }
        ensures dot { self.new ≡ dot_of pattern.now self.old }
        ensures fits { IsScreen self.new }
    {
        self.raise();
        self.flag();
        self.draw(pattern);
        self.move_on();
    }

    // A hit that was near raises its flag.
    #[tactic(auto, unfolding(crate::specs::Dots::raised))]
    fn raise(&mut self)
        ensures { self.new ≡ raised self.old }
    {
        self.sprite_zero_hit = self.sprite_zero_hit || self.near;
        self.near = false;
    }

    // The flags at the two ends of vertical blank.
    #[tactic(auto, unfolding(crate::specs::Dots::flagged, crate::specs::Dots::blank_begun, crate::specs::Dots::blank_ended))]
    fn flag(&mut self)
        ensures { self.new ≡ flagged self.old }
    {
        if self.is_next(241, 1) {
            self.vertical_blank = self.vertical_blank || !self.hold;
            self.hold = false;
            self.ended = true;
        } else if self.is_next(261, 1) {
            self.vertical_blank = false;
            self.sprite_zero_hit = false;
            self.sprite_overflow = false;
        }
    }

    // The work of the dot on its line.
    #[tactic(auto, unfolding(crate::specs::Dots::drawn))]
    fn draw(&mut self, pattern: &[u8])
        requires fits { self.old.scroll.x < 8 }
        requires pattern { length pattern.now ≡ 8192 }
        ensures { self.new ≡ drawn pattern.now self.old }
    {
        if is_drawn_line(self.position.line) {
            if self.is_rendering() {
                self.show(pattern);
            } else {
                self.hide();
            }
        }
    }

    // A dot of a drawn line with rendering off.
    #[tactic(auto, unfolding(crate::specs::Dots::hidden, crate::specs::Dots::emptied))]
    fn hide(&mut self)
        ensures { self.new ≡ hidden self.old }
    {
        if self.position.dot == 257 {
            self.sprite_row = None;
        }
    }

    // A dot of a drawn line with rendering on.
    #[tactic(auto, unfolding(crate::specs::Dots::shown))]
    fn show(&mut self, pattern: &[u8])
        requires fits { self.old.scroll.x < 8 }
        requires pattern { length pattern.now ≡ 8192 }
        ensures { self.new ≡ shown pattern.now self.old }
    {
        let dot = self.position.dot;
        if 1 <= dot && dot <= 256 {
            self.pixel();
            self.end_tile(pattern);
        } else if dot == 257 {
            self.latch_sprite(pattern);
        } else if 258 <= dot && dot <= 320 {
            self.fetch_sprites();
        } else if dot == 328 || dot == 336 {
            self.prefetch(pattern);
        }
    }

    // A pixel: a hit is near, and the shift register moves.
    #[tactic(auto, unfolding(crate::specs::Dots::pixel))]
    fn pixel(&mut self)
        requires dot { 1 ≤ self.old.position.dot }
        requires fits { self.old.scroll.x < 8 }
        ensures { self.new ≡ pixel self.old }
    {
        self.near = self.is_hit_pixel();
        self.shift = self.shift % 32768 * 2;
    }

    // The dot's pixel is a hit of sprite zero.
    #[tactic(auto, unfolding(crate::specs::Dots::is_hit_pixel))]
    fn is_hit_pixel(&self) -> bool
        requires dot { 1 ≤ self.now.position.dot }
        requires fits { self.now.scroll.x < 8 }
        ensures { result ≡ is_hit_pixel self.now }
    {
        self.position.line < 240
            && self.position.dot <= 255
            && shows_both_layers(self.mask)
            && background_bit(self.shift, self.scroll.x)
            && self.shows_sprite(self.position.dot - 1)
            && is_shown_column(self.mask, self.position.dot - 1)
    }

    // The latched row has an opaque pixel there.
    fn shows_sprite(&self, pixel: u16) -> bool
        ensures { result ≡ shows_at self.now.sprite_row pixel }
    {
        match self.sprite_row {
            Some(row) => row.is_opaque(pixel),
            None => false,
        }
    }

    // The end of a tile, and of the line's tiles.
    #[tactic(auto, unfolding(crate::specs::Dots::tile_ended, crate::specs::Dots::line_ended))]
    fn end_tile(&mut self, pattern: &[u8])
        requires { length pattern.now ≡ 8192 }
        ensures { self.new ≡ tile_ended pattern.now self.old }
    {
        if self.position.dot == 256 {
            self.fetch_tile(pattern);
            self.scroll.step_y();
        } else if self.position.dot % 8 == 0 {
            self.fetch_tile(pattern);
        }
    }

    /// The last dot of a tile: the row of the next tile but one comes into the low half of the shift register, and
    /// coarse X moves on.
    #[tactic(auto, unfolding(crate::specs::Dots::tile_fetched))]
    pub fn fetch_tile(&mut self, pattern: &[u8])
        requires { length pattern.now ≡ 8192 }
        ensures { self.new ≡ tile_fetched pattern.now self.old }
    {
        let row = self.fetched_row(pattern);
        self.shift = self.shift / 256 * 256 + u16::from(row);
        self.scroll.step_x();
    }

    /// A whole tile as one, as at dots 328 and 336: the shift register moves left by eight and takes the tile's row,
    /// and coarse X moves on.
    #[tactic(auto, unfolding(crate::specs::Dots::prefetched))]
    pub fn prefetch(&mut self, pattern: &[u8])
        requires { length pattern.now ≡ 8192 }
        ensures { self.new ≡ prefetched pattern.now self.old }
    {
        let row = self.fetched_row(pattern);
        self.shift = self.shift % 256 * 256 + u16::from(row);
        self.scroll.step_x();
    }

    // Which pixels of the tile's row at v are opaque.
    #[tactic(auto, unfolding(crate::specs::Dots::fetched_row))]
    fn fetched_row(&self, pattern: &[u8]) -> u8
        requires { length pattern.now ≡ 8192 }
        ensures { result ≡ fetched_row pattern.now self.now }
    {
        let tile = self.vram.get(0x2000 + self.scroll.v % 4096);
        opaque_row(pattern, fetch_place(self.control, tile, self.scroll.v))
    }

    // Dot 257: horizontal bits, OAM address, overflow, the row of sprite zero.
    #[tactic(auto, unfolding(crate::specs::Dots::latched, crate::specs::Screen::first_sprite))]
    fn latch_sprite(&mut self, pattern: &[u8])
        requires { length pattern.now ≡ 8192 }
        ensures { self.new ≡ latched pattern.now self.old }
    {
        self.scroll.copy_x();
        self.oam_address = 0;
        self.sprite_overflow = self.sprite_overflow || self.overflows();
        let first = [self.oam[0], self.oam[1], self.oam[2], self.oam[3]];
        let (tall, high_table) = (has_bit(self.control, 5), has_bit(self.control, 3));
        self.sprite_row = sprite_row(&first, self.position.line, tall, high_table, pattern);
    }

    // The line is visible and has more sprites than it can show.
    #[tactic(auto, unfolding(crate::specs::Dots::overflows))]
    fn overflows(&self) -> bool
        ensures { result ≡ overflows self.now.oam self.now.control self.now.position.line }
    {
        let line = self.position.line;
        line < 240 && in_range(&self.oam, line, has_bit(self.control, 5)) >= 9
    }

    // Dots 258 to 320: OAM address, and on the pre-render line the vertical bits.
    #[tactic(auto, unfolding(crate::specs::Dots::sprites_fetched, crate::specs::Dots::vertical_copied))]
    fn fetch_sprites(&mut self)
        ensures { self.new ≡ sprites_fetched self.old }
    {
        self.oam_address = 0;
        if self.position.line == 261 && 280 <= self.position.dot && self.position.dot <= 304 {
            self.scroll.copy_y();
        }
    }

    // The frame's last dot.
    #[tactic(auto, unfolding(crate::specs::Dots::is_last_dot))]
    fn is_last_dot(&self) -> bool
        ensures { result ≡ is_last_dot self.now }
    {
        self.is_next(261, 340) || (self.is_next(261, 339) && self.odd_frame && self.is_rendering())
    }

    // The position moves on.
    #[tactic(auto, unfolding(crate::specs::Dots::moved, crate::specs::Dots::frame_begun, crate::specs::Dots::advanced, crate::specs::Dots::after_position))]
    fn move_on(&mut self)
        requires { IsPlaced self.old.position }
        ensures { self.new ≡ moved self.old }
    {
        if self.is_last_dot() {
            self.position = Position { line: 0, dot: 0 };
            self.odd_frame = !self.odd_frame;
        } else if self.position.dot == 340 {
            self.position = Position {
                line: self.position.line + 1,
                dot: 0,
            };
        } else {
            self.position.dot += 1;
        }
    }
}

/// The line is drawn: 0 to 239, and the pre-render line 261.
#[tactic(auto, unfolding(crate::specs::Dots::is_drawn_line))]
pub fn is_drawn_line(line: u16) -> bool
    ensures { result ≡ is_drawn_line line }
{
    line < 240 || line == 261
}

// The background bit of a pixel.
#[tactic(auto, unfolding(crate::specs::Dots::background_bit))]
fn background_bit(shift: u16, x: u8) -> bool
    requires { x < 8 }
    ensures { result ≡ background_bit shift x }
{
    (shift >> (15 - x)) % 2 == 1
}

#[tactic(auto, unfolding(crate::specs::Dots::is_shown_column))]
fn is_shown_column(mask: u8, pixel: u16) -> bool
    ensures { result ≡ is_shown_column mask pixel }
{
    pixel >= 8 || shows_left_columns(mask)
}

// Where a tile's row stands in pattern memory.
#[tactic(auto, unfolding(crate::specs::Dots::fetch_place))]
fn fetch_place(control: u8, tile: u8, v: u16) -> u16
    ensures place { result ≡ fetch_place control tile v }
    ensures within { result + 8 < 8192 }
{
    let table = if has_bit(control, 4) { 4096 } else { 0 };
    table + u16::from(tile) * 16 + v / 4096 % 8
}
