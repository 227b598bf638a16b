//! The row of sprite zero that a line latches.

ghost use Rattle.std.specs.Prelude.{◌≡◌, ◌≤◌, ◌<◌, ◌+◌, ◌-◌, ◌%◌, ℕ, nat_lt, length, true};
ghost use Rattle.nj_sprite0.specs.Sprite.{has_bit, height_of, in_range_of, is_in_range, is_opaque_at, opaque_row, reversed, row_number, row_place, shown_bits, sprite_row_of};

/// The part of sprite zero that one line shows: its left edge and its eight pixels, bit 7 leftmost.
#[derive(Clone, Copy, Debug, PartialEq, Eq)]
pub struct SpriteRow {
    /// The pixel of the line where the row begins.
    pub x: u8,
    /// A bit is set where the pixel is opaque, flips done.
    pub bits: u8,
}

impl SpriteRow {
    /// The row has an opaque pixel at `x`, counted from the line's left edge.
    #[tactic(auto, unfolding(crate::specs::Sprite::is_opaque_at))]
    pub fn is_opaque(self, x: u16) -> bool
        ensures { result ≡ is_opaque_at self x }
    {
        let left = u16::from(self.x);
        x >= left && x < left + 8 && has_bit(self.bits, 7 - (x - left) as u8)
    }
}

/// The row that dot 257 of `line` latches of the sprite in OAM bytes 0 to 3. Tall sprites have 16 rows and
/// their own table; `high_table` is bit 3 of $2000. `None` where the line is below the picture or is none of
/// the sprite's.
#[tactic(auto, unfolding(crate::specs::Sprite::sprite_row_of))]
pub fn sprite_row(
    oam: &[u8; 4],
    line: u16,
    tall: bool,
    high_table: bool,
    pattern: &[u8],
) -> Option<SpriteRow>
    requires { length pattern.now ≡ 8192 }
    ensures { result ≡ sprite_row_of oam.now line tall high_table pattern.now }
{
    if line <= 239 && is_in_range(oam[0], line, tall) {
        let row = row_number(oam[0], oam[2], line, tall);
        let place = row_place(oam[1], row, tall, high_table);
        Some(SpriteRow {
            x: oam[3],
            bits: shown_bits(oam[2], opaque_row(pattern, place)),
        })
    } else {
        None
    }
}

/// Which pixels of a tile's row are opaque, bit 7 leftmost: those with a bit in either plane.
#[tactic(auto, unfolding(crate::specs::Sprite::opaque_row))]
pub fn opaque_row(pattern: &[u8], place: u16) -> u8
    requires { place + 8 < length pattern.now }
    ensures { result ≡ opaque_row pattern.now place }
{
    let at = place as usize;
    pattern[at] | pattern[at + 8]
}

// The number of rows of a sprite.
#[tactic(auto, unfolding(crate::specs::Sprite::height_of))]
fn height(tall: bool) -> u16
    ensures rows { result ≡ height_of tall }
    ensures least { 8 ≤ result }
    ensures most { result ≤ 16 }
{
    if tall { 16 } else { 8 }
}

#[tactic(auto, unfolding(crate::specs::Sprite::is_in_range))]
fn is_in_range(top: u8, line: u16, tall: bool) -> bool
    ensures { result ≡ is_in_range top line tall }
{
    let top = u16::from(top);
    top <= line && line < top + height(tall)
}

/// The number of the 64 sprites of OAM that have `line` as one of theirs, tall ones with 16 lines, the others with 8.
pub fn in_range(oam: &[u8; 256], line: u16, tall: bool) -> u32
    ensures count { result ≡ in_range_of oam.now line tall }
    ensures most { result ≤ 64 }
{
    let tops = tops_of_line(line, tall);
    let mut count = 0u8;
    for sprite in 0..64 {
        if tops.has(oam[sprite * 4]) {
            count += 1;
        }
    }
    u32::from(count)
}

// The first lines of the sprites that have a line as one of theirs: so many, from the least on.
#[derive(Clone, Copy)]
struct Tops {
    least: u8,
    count: u8,
}

impl Tops {
    // The sprite that begins there is one of them.
    fn has(self, top: u8) -> bool
        ensures { result ≡ nat_lt ((top + 256 - self.least) % 256) self.count }
    {
        top.wrapping_sub(self.least) < self.count
    }
}

#[tactic(auto, unfolding(crate::specs::Sprite::is_in_range))]
fn tops_of_line(line: u16, tall: bool) -> Tops
    ensures { (top : ℕ) → top < 256
        → nat_lt ((top + 256 - result.least) % 256) result.count ≡ is_in_range top line tall }
{
    let height = height(tall);
    if line < height {
        Tops {
            least: 0,
            count: line as u8 + 1,
        }
    } else if line < 256 {
        Tops {
            least: (line - height + 1) as u8,
            count: height as u8,
        }
    } else if line < 255 + height {
        Tops {
            least: (line - height + 1) as u8,
            count: (255 + height - line) as u8,
        }
    } else {
        Tops { least: 0, count: 0 }
    }
}

/// The bit of a byte is set.
#[tactic(auto, unfolding(crate::specs::Sprite::has_bit))]
pub fn has_bit(byte: u8, bit: u8) -> bool
    requires { bit < 8 }
    ensures { result ≡ has_bit byte bit }
{
    (byte >> bit) % 2 == 1
}

// The row of the sprite that the line shows, counted from below where the sprite is flipped.
#[tactic(auto, unfolding(crate::specs::Sprite::row_number, crate::specs::Sprite::is_in_range))]
fn row_number(top: u8, attributes: u8, line: u16, tall: bool) -> u16
    requires { is_in_range top line tall ≡ true }
    ensures row { result ≡ row_number top attributes line tall }
    ensures below { result < height_of tall }
{
    let row = line - u16::from(top);
    if has_bit(attributes, 7) {
        height(tall) - 1 - row
    } else {
        row
    }
}

// Where the row stands in pattern memory.
#[tactic(auto, unfolding(crate::specs::Sprite::row_place, crate::specs::Sprite::height_of))]
fn row_place(tile: u8, row: u16, tall: bool, high_table: bool) -> u16
    requires { row < height_of tall }
    ensures place { result ≡ row_place tile row tall high_table }
    ensures within { result + 8 < 8192 }
{
    let tile = u16::from(tile);
    if tall {
        tile % 2 * 4096 + (tile / 2 * 2 + row / 8) * 16 + row % 8
    } else {
        let table = if high_table { 4096 } else { 0 };
        table + tile * 16 + row
    }
}

// The row's pixels as shown, in reverse order where the sprite is flipped.
#[tactic(auto, unfolding(crate::specs::Sprite::shown_bits))]
fn shown_bits(attributes: u8, bits: u8) -> u8
    ensures { result ≡ shown_bits attributes bits }
{
    if has_bit(attributes, 6) {
        reversed(bits)
    } else {
        bits
    }
}

#[tactic(auto, unfolding(crate::specs::Sprite::reversed))]
fn reversed(bits: u8) -> u8
    ensures { result ≡ reversed bits }
{
    bits % 2 * 128
        + bits / 2 % 2 * 64
        + bits / 4 % 2 * 32
        + bits / 8 % 2 * 16
        + bits / 16 % 2 * 8
        + bits / 32 % 2 * 4
        + bits / 64 % 2 * 2
        + bits / 128 % 2
}
