//! The picture's part of a machine's image: nametables from byte 2,048, OAM from 4,096, palette from 4,352, 64 bytes of
//! registers from 4,384.

ghost use Rattle.std.specs.Prelude.{◌≡◌, ◌+◌, ◌*◌, ◌/◌, ◌%◌, ◌≤◌, ◌==◌, not, false, length, if◌then◌else◌};
ghost use Rattle.nj_dots.specs.declared.screen.Screen.{Screen};
ghost use Rattle.nj_dots.specs.Screen.{IsScreen};
ghost use Rattle.nj_dots.specs.Image.{Holds, IsStored, flag_at, flag_byte, overwritten, register_bytes, row_at, row_flag, row_left, row_pixels, with_picture, with_registers, word_at};

use crate::position::Position;
use crate::screen::Screen;
use crate::scroll::Scroll;
use nj_sprite0::SpriteRow;

impl Screen {
    /// Writes the picture's part of an image.
    pub fn put(&self, image: &mut [u8])
        requires fits { IsScreen self.now }
        requires long { 4448 ≤ length image.old }
        ensures { image.new ≡ with_picture self.now image.old }
    {
        place(image, 2048, &self.vram.cells);
        place(image, 4096, &self.oam);
        place(image, 4352, &self.vram.palette);
        place(image, 4384, &self.register_bytes());
        place(image, 4410, &[0; 38]);
    }

    /// Takes the state that the image holds, of the mirroring that this picture has.
    pub fn get(&mut self, image: &[u8])
        requires long { 4448 ≤ length image.now }
        requires stored { IsStored self.old.vram.vertical image.now }
        ensures state { (s : Screen) → Holds image.now s → s.vram.vertical ≡ self.old.vram.vertical → self.new ≡ s }
        ensures fits { IsScreen self.new }
    {
        self.vram.cells.copy_from_slice(&image[2048..4096]);
        self.oam.copy_from_slice(&image[4096..4352]);
        self.vram.palette.copy_from_slice(&image[4352..4384]);
        self.take_registers(&image[4384..4410]);
    }

    // Registers and flags as bytes.
    #[tactic(auto, unfolding(crate::specs::Image::register_bytes))]
    fn register_bytes(&self) -> [u8; 26]
        ensures { result ≡ register_bytes self.now }
    {
        let Position { line, dot } = self.position;
        let Scroll { v, t, x, w } = self.scroll;
        [
            low(line),
            high(line),
            low(dot),
            high(dot),
            flag_byte(self.odd_frame),
            self.control,
            self.mask,
            flag_byte(self.vertical_blank),
            flag_byte(self.sprite_zero_hit),
            flag_byte(self.sprite_overflow),
            flag_byte(self.hold),
            flag_byte(self.near),
            low(v),
            high(v),
            low(t),
            high(t),
            x,
            flag_byte(w),
            self.buffer,
            self.latch,
            self.oam_address,
            low(self.shift),
            high(self.shift),
            row_flag(self.sprite_row),
            row_left(self.sprite_row),
            row_pixels(self.sprite_row),
        ]
    }

    // Registers and flags from their bytes.
    #[tactic(auto, unfolding(crate::specs::Image::with_registers))]
    fn take_registers(&mut self, bytes: &[u8])
        requires { length bytes.now ≡ 26 }
        ensures { self.new ≡ with_registers bytes.now self.old }
    {
        self.position = Position {
            line: word(bytes[0], bytes[1]),
            dot: word(bytes[2], bytes[3]),
        };
        self.odd_frame = flag(bytes[4]);
        self.control = bytes[5];
        self.mask = bytes[6];
        self.vertical_blank = flag(bytes[7]);
        self.sprite_zero_hit = flag(bytes[8]);
        self.sprite_overflow = flag(bytes[9]);
        self.hold = flag(bytes[10]);
        self.near = flag(bytes[11]);
        self.scroll = Scroll {
            v: word(bytes[12], bytes[13]),
            t: word(bytes[14], bytes[15]),
            x: bytes[16],
            w: flag(bytes[17]),
        };
        self.buffer = bytes[18];
        self.latch = bytes[19];
        self.oam_address = bytes[20];
        self.shift = word(bytes[21], bytes[22]);
        self.sprite_row = row(bytes[23], bytes[24], bytes[25]);
        self.ended = false;
    }
}

// Copies bytes to a place of an image.
fn place(image: &mut [u8], at: usize, bytes: &[u8])
    requires { at + length bytes.now ≤ length image.old }
    ensures { image.new ≡ overwritten at bytes.now image.old }
{
    image[at..at + bytes.len()].copy_from_slice(bytes);
}

fn low(word: u16) -> u8
    ensures { result ≡ word % 256 }
{
    (word % 256) as u8
}

fn high(word: u16) -> u8
    ensures { result ≡ word / 256 }
{
    (word / 256) as u8
}

fn word(low: u8, high: u8) -> u16
    ensures { result ≡ low + 256 * high }
{
    u16::from(low) + 256 * u16::from(high)
}

fn flag_byte(flag: bool) -> u8
    ensures { result ≡ flag_byte flag }
{
    if flag { 1 } else { 0 }
}

fn flag(byte: u8) -> bool
    ensures { result ≡ not (byte == 0) }
{
    byte != 0
}

fn row_flag(row: Option<SpriteRow>) -> u8
    ensures { result ≡ row_flag row }
{
    match row {
        Some(_) => 1,
        None => 0,
    }
}

fn row_left(row: Option<SpriteRow>) -> u8
    ensures { result ≡ row_left row }
{
    match row {
        Some(row) => row.x,
        None => 0,
    }
}

fn row_pixels(row: Option<SpriteRow>) -> u8
    ensures { result ≡ row_pixels row }
{
    match row {
        Some(row) => row.bits,
        None => 0,
    }
}

fn row(there: u8, x: u8, bits: u8) -> Option<SpriteRow>
    ensures { result ≡ (if not (there == 0) then Some (record { x = x; bits = bits }) else None) }
{
    if flag(there) {
        Some(SpriteRow { x, bits })
    } else {
        None
    }
}
