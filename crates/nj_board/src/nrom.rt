//! The NROM board.

ghost use Rattle.std.specs.Prelude.{◌≡◌, ℕ, ◌+◌, ◌-◌, ◌%◌, ◌<◌, ◌≤◌, length, Bool, true};
ghost use Rattle.nj_board.specs.Nrom.{Memory, IsProgram, nrom, byte_at};

use crate::boards::Board;
use std::marker::Model;

/// A board without registers: program memory at $8000, of which 16 KiB stand there twice, and 8 KiB
/// of pattern memory.
#[derive(Drop)]
pub struct Nrom {
    prg: Vec<u8>,
    chr: Vec<u8>,
    chr_ram: bool,
}

impl Model for Nrom {
    ghost use Rattle.nj_board.specs.Nrom.{Memory, IsMemory};

    ghost Value = { Memory };

    ghost view = { λ b. record { prg = b.prg.items; chr = b.chr.items; chr_ram = b.chr_ram } };

    ghost invariant = { λ b. IsMemory (record { prg = b.prg.items; chr = b.chr.items; chr_ram = b.chr_ram }) };
}

impl Nrom {
    /// The board of a cartridge's memories.
    pub fn new(prg: Vec<u8>, chr: Vec<u8>, chr_ram: bool) -> Nrom
        requires program { IsProgram prg.items }
        requires pattern { length chr.items ≡ 8192 }
        ensures { result ≡ record { prg = prg.items; chr = chr.items; chr_ram = chr_ram } }
    {
        Nrom { prg, chr, chr_ram }
    }

    /// Whether pattern memory is RAM.
    #[inline]
    pub fn has_chr_ram(&self) -> bool
        ensures { result ≡ self.now.chr_ram }
    {
        self.chr_ram
    }

    // Where program memory has the byte of an address from $8000 on: the length is a power of two, so a mask leaves the
    // rest of the division by it.
    #[inline(always)]
    fn place(&self, at: u16) -> usize
        requires { 0x8000 ≤ at }
        ensures { result ≡ (at - 0x8000) % length self.now.prg }
    {
        at as usize & (self.prg.len() - 1)
    }

    /// Replaces all of pattern memory, which is RAM.
    pub fn load_pattern(&mut self, bytes: &[u8])
        requires ram { self.old.chr_ram ≡ true }
        requires len { length bytes.now ≡ 8192 }
        ensures { self.new ≡ record self.old { chr = bytes.now } }
    {
        self.chr.as_mut_slice().copy_from_slice(bytes);
    }
}

impl Board for Nrom {
    ghost Held = { Memory };

    ghost held = { λ b. b };

    ghost acts = { nrom };

    #[inline(always)]
    #[tactic(auto, unfolding(crate::specs::Nrom::byte_at))]
    fn cpu_read(&self, at: u16) -> Option<u8> {
        if at >= 0x8000 {
            Some(self.prg[self.place(at)])
        } else {
            None
        }
    }

    #[inline]
    fn cpu_write(&mut self, _at: u16, _value: u8) {}

    #[inline(always)]
    fn pattern(&self) -> &[u8] {
        self.chr.as_slice()
    }

    #[inline]
    #[tactic(auto, unfolding(crate::specs::Nrom::put_at))]
    fn put_pattern(&mut self, at: u16, value: u8) {
        if self.chr_ram {
            self.chr[at as usize] = value;
        }
    }

    #[inline]
    fn bank(&self) -> u8 {
        0
    }

    #[inline]
    fn set_bank(&mut self, _bank: u8) {}
}

#[cfg(test)]
mod tests {
    use super::*;
    use std::alloc::{AllocError, Global};
    use std::test::Fail;

    fn board(alloc: Global, chr_ram: bool) -> Result<Nrom, AllocError> {
        let mut prg = vec![in alloc; 0; 0x4000]?;
        prg[1] = 0x42;
        let chr = vec![in alloc; 0; 0x2000]?;
        Ok(Nrom::new(prg, chr, chr_ram))
    }

    fn read_twice<B: Board>(board: &mut B) -> (Option<u8>, Option<u8>) {
        board.cpu_write(0x8001, 0x99);
        board.put_pattern(7, 0x17);
        (board.cpu_read(0x8001), board.cpu_read(0xC001))
    }

    // 16 KiB of program memory stand twice from $8000 on; nothing is mapped below. Pattern memory is written where it is RAM.
    #[test]
    fn sees_its_memories(rt: HostRuntime) -> Result<(), Fail> {
        let mut ram = board(rt.alloc(), true)?;
        assert_eq!(rt; read_twice(&mut ram), (Some(0x42), Some(0x42)));
        assert_eq!(rt; ram.cpu_read(0x7FFF), None);
        assert_eq!(rt; ram.pattern()[7], 0x17);
        assert_eq!(rt; ram.bank(), 0);
        let mut rom = board(rt.alloc(), false)?;
        let _ = read_twice(&mut rom);
        assert_eq!(rt; rom.pattern()[7], 0);
        Ok(())
    }
}
