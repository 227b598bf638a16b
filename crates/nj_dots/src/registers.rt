//! What an access of a register does. Registers are numbered 0 to 7, for $2000 to $2007.

ghost use Rattle.std.specs.Prelude.{◌≡◌, ◌≤◌, ◌<◌, length, nat_lt, if◌then◌else◌};
ghost use Rattle.nj_dots.specs.Screen.{IsScreen};
ghost use Rattle.nj_dots.specs.Registers.{after_data_read, after_oam_read, after_read, after_status, after_write, buffered_address, cell_at, data_address, data_byte, next_address, oam_byte, oam_kept, put_address, put_control, put_data, put_mask, put_nothing, put_oam, put_oam_address, put_scroll, read_byte, status_byte, to_pattern, weighed};

use crate::screen::Screen;
use nj_sprite0::has_bit;

impl Screen {
    /// A read of a register.
    #[tactic(auto, using(crate::proofs::Accesses::fits_after))]
    pub fn read(&mut self, reg: u8, pattern: &[u8]) -> u8
        requires fits { IsScreen self.old }
        requires reg { reg < 8 }
        requires pattern { length pattern.now ≡ 8192 }
        ensures byte { result ≡ read_byte reg self.old }
        ensures after { self.new ≡ after_read reg pattern.now self.old }
        ensures fits { IsScreen self.new }
    {
        self.read_register(reg, pattern)
    }

    /// A write of a register; `Some` is a write to pattern memory, place and byte, left to the board.
    #[tactic(auto, using(crate::proofs::Accesses::fits_after))]
    pub fn write(&mut self, reg: u8, value: u8) -> Option<(u16, u8)>
        requires fits { IsScreen self.old }
        requires reg { reg < 8 }
        ensures left { result ≡ to_pattern reg value self.old }
        ensures after { self.new ≡ after_write reg value self.old }
        ensures fits { IsScreen self.new }
    {
        self.write_register(reg, value)
    }

    #[tactic(auto, unfolding(crate::specs::Registers::read_byte, crate::specs::Registers::after_read))]
    fn read_register(&mut self, reg: u8, pattern: &[u8]) -> u8
        requires { length pattern.now ≡ 8192 }
        ensures byte { result ≡ read_byte reg self.old }
        ensures after { self.new ≡ after_read reg pattern.now self.old }
    {
        match reg {
            2 => self.read_status(),
            4 => self.read_oam(),
            7 => self.read_data(pattern),
            _ => self.latch,
        }
    }

    #[tactic(auto, unfolding(crate::specs::Registers::after_write, crate::specs::Registers::to_pattern))]
    fn write_register(&mut self, reg: u8, value: u8) -> Option<(u16, u8)>
        requires { reg < 8 }
        ensures left { result ≡ to_pattern reg value self.old }
        ensures after { self.new ≡ after_write reg value self.old }
    {
        match reg {
            0 => self.write_control(value),
            1 => self.write_mask(value),
            2 => self.write_nothing(value),
            3 => self.write_oam_address(value),
            4 => self.write_oam(value),
            5 => self.write_scroll(value),
            6 => self.write_address(value),
            _ => return self.write_data(value),
        }
        None
    }

    // $2002: the flags over the latch's low bits.
    #[tactic(auto, unfolding(crate::specs::Registers::status_byte, crate::specs::Registers::after_status))]
    fn read_status(&mut self) -> u8
        ensures byte { result ≡ status_byte self.old }
        ensures after { self.new ≡ after_status self.old }
    {
        let flags = weight(self.vertical_blank, 128)
            + weight(self.sprite_zero_hit, 64)
            + weight(self.sprite_overflow, 32);
        self.hold = self.hold || self.is_next(241, 1);
        self.latch = flags + self.latch % 32;
        self.vertical_blank = false;
        self.scroll.w = false;
        self.latch
    }

    // $2004: the byte of OAM at the OAM address.
    #[tactic(auto, unfolding(crate::specs::Registers::oam_byte, crate::specs::Registers::after_oam_read))]
    fn read_oam(&mut self) -> u8
        ensures byte { result ≡ oam_byte self.old }
        ensures after { self.new ≡ after_oam_read self.old }
    {
        self.latch = self.oam[self.oam_address as usize];
        self.latch
    }

    // $2007: the buffer, or a colour.
    #[tactic(auto, unfolding(crate::specs::Registers::data_byte, crate::specs::Registers::after_data_read))]
    fn read_data(&mut self, pattern: &[u8]) -> u8
        requires { length pattern.now ≡ 8192 }
        ensures byte { result ≡ data_byte self.old }
        ensures after { self.new ≡ after_data_read pattern.now self.old }
    {
        let byte = self.data_byte();
        self.buffer = self.cell(buffered_address(self.data_address()), pattern);
        self.latch = byte;
        self.scroll.v = next_address(self.control, self.scroll.v);
        byte
    }

    // The byte that $2007 answers: the buffer, or from $3F00 on a colour under the latch's two high bits.
    #[tactic(auto, unfolding(crate::specs::Registers::data_byte))]
    fn data_byte(&self) -> u8
        ensures { result ≡ data_byte self.now }
    {
        let at = self.data_address();
        if at < 0x3F00 {
            self.buffer
        } else {
            self.latch / 64 * 64 + self.vram.get(at)
        }
    }

    // Where $2007 reads and writes.
    #[tactic(auto, unfolding(crate::specs::Registers::data_address))]
    fn data_address(&self) -> u16
        ensures address { result ≡ data_address self.now }
        ensures below { result < 0x4000 }
    {
        self.scroll.v % 16384
    }

    // The byte at an address of the picture's bus.
    #[tactic(auto, unfolding(crate::specs::Registers::cell_at))]
    fn cell(&self, at: u16, pattern: &[u8]) -> u8
        requires below { at < 0x4000 }
        requires pattern { length pattern.now ≡ 8192 }
        ensures { result ≡ cell_at pattern.now self.now at }
    {
        if at < 0x2000 {
            pattern[at as usize]
        } else {
            self.vram.get(at)
        }
    }

    #[tactic(auto, unfolding(crate::specs::Registers::put_control))]
    fn write_control(&mut self, value: u8)
        ensures { self.new ≡ put_control value self.old }
    {
        let t = self.scroll.t;
        self.control = value;
        self.latch = value;
        self.scroll.t = t / 4096 * 4096 + u16::from(value) % 4 * 1024 + t % 1024;
    }

    #[tactic(auto, unfolding(crate::specs::Registers::put_mask))]
    fn write_mask(&mut self, value: u8)
        ensures { self.new ≡ put_mask value self.old }
    {
        self.mask = value;
        self.latch = value;
    }

    // $2002 has nothing to write.
    #[tactic(auto, unfolding(crate::specs::Registers::put_nothing))]
    fn write_nothing(&mut self, value: u8)
        ensures { self.new ≡ put_nothing value self.old }
    {
        self.latch = value;
    }

    #[tactic(auto, unfolding(crate::specs::Registers::put_oam_address))]
    fn write_oam_address(&mut self, value: u8)
        ensures { self.new ≡ put_oam_address value self.old }
    {
        self.oam_address = value;
        self.latch = value;
    }

    #[tactic(auto, unfolding(crate::specs::Registers::put_oam))]
    fn write_oam(&mut self, value: u8)
        ensures { self.new ≡ put_oam value self.old }
    {
        self.oam[self.oam_address as usize] = oam_kept(self.oam_address, value);
        self.oam_address = self.oam_address.wrapping_add(1);
        self.latch = value;
    }

    #[tactic(auto, unfolding(crate::specs::Registers::put_scroll))]
    fn write_scroll(&mut self, value: u8)
        ensures { self.new ≡ put_scroll value self.old }
    {
        self.scroll.scroll(value);
        self.latch = value;
    }

    #[tactic(auto, unfolding(crate::specs::Registers::put_address))]
    fn write_address(&mut self, value: u8)
        ensures { self.new ≡ put_address value self.old }
    {
        self.scroll.address(value);
        self.latch = value;
    }

    // $2007: a cell of this memory, or one of the board's.
    #[tactic(auto, unfolding(crate::specs::Registers::put_data))]
    fn write_data(&mut self, value: u8) -> Option<(u16, u8)>
        ensures after { self.new ≡ put_data value self.old }
        ensures left { result
            ≡ (if nat_lt (data_address self.old) 0x2000 then Some (data_address self.old, value) else None) }
    {
        let at = self.data_address();
        self.latch = value;
        self.scroll.v = next_address(self.control, self.scroll.v);
        if at < 0x2000 {
            Some((at, value))
        } else {
            self.vram.set(at, value);
            None
        }
    }
}

// v after an access of $2007.
#[tactic(auto, unfolding(crate::specs::Registers::next_address))]
fn next_address(control: u8, v: u16) -> u16
    ensures { result ≡ next_address control v }
{
    let step = if has_bit(control, 2) { 32 } else { 1 };
    (v % 32768 + step) % 32768
}

// Which address a read of $2007 brings into the buffer.
#[tactic(auto, unfolding(crate::specs::Registers::buffered_address))]
fn buffered_address(at: u16) -> u16
    requires { at < 0x4000 }
    ensures address { result ≡ buffered_address at }
    ensures below { result < 0x4000 }
{
    if at < 0x3F00 { at } else { at - 0x1000 }
}

// The byte of OAM that a write leaves.
#[tactic(auto, unfolding(crate::specs::Registers::oam_kept))]
fn oam_kept(address: u8, value: u8) -> u8
    ensures { result ≡ oam_kept address value }
{
    if address % 4 == 2 {
        value / 32 * 32 + value % 4
    } else {
        value
    }
}

#[tactic(auto, unfolding(crate::specs::Registers::weighed))]
fn weight(flag: bool, weight: u8) -> u8
    ensures weight { result ≡ weighed flag weight }
    ensures most { result ≤ weight }
{
    if flag { weight } else { 0 }
}
