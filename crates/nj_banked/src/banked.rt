//! A board with banks.

ghost use Rattle.std.specs.Prelude.{◌≡◌, ◌⊎◌, ◌<◌, ◌≤◌, ◌+◌, ◌-◌, ◌*◌, ◌/◌, true, length, get_or, slice_index};
ghost use Rattle.nj_banked.specs.Banks.{Banks, begun, bank_count, IsNrom, IsUxrom, IsCnrom, IsBanks};
ghost use Rattle.nj_banked.specs.Banked.{banked, prg_byte, chosen_by, with_bank};

use nj_board::Board;
use std::marker::Model;

// UxROM's mapper.
const UXROM: u16 = 2;

// CNROM's mapper.
const CNROM: u16 = 3;

// A bank of program memory.
const PRG_BANK: usize = 0x4000;

// What is kept of the window at $8000 where it stands on the first bank.
const LOWEST: usize = 0x8000;

// A bank of pattern memory.
const CHR_BANK: usize = 0x2000;

/// A cartridge's memories behind NROM, UxROM or CNROM, with the chosen bank. Program memory is read through two windows
/// of 16 KiB. What is kept of each is its place in program memory less its address, moved up by 64 KiB, so that a read
/// chooses one of two numbers and adds it to the address.
#[derive(Drop)]
pub struct Banked {
    prg: Vec<u8>,
    chr: Vec<u8>,
    chr_ram: bool,
    mapper: u16,
    bank: u8,
    // Where in program memory the byte at an address stands is the address and this number less 64 KiB: the first
    // number for the window at $8000, the second for that at $C000.
    windows: [usize; 2],
    // Where in pattern memory the picture's window begins.
    pattern: usize,
}

impl Model for Banked {
    ghost use Rattle.nj_banked.specs.Banks.{Banks};
    ghost use Rattle.std.specs.Prelude.{slice_index};
    ghost use Rattle.nj_banked.specs.Windows.{IsWindowed};

    ghost Value = { Banks };

    ghost view = { λ b. record {
      prg = b.prg.items;
      chr = b.chr.items;
      chr_ram = b.chr_ram;
      mapper = b.mapper;
      bank = b.bank;
    } };

    ghost invariant = { λ b. IsWindowed (record {
      prg = b.prg.items;
      chr = b.chr.items;
      chr_ram = b.chr_ram;
      mapper = b.mapper;
      bank = b.bank;
    }) (slice_index b.windows 0) (slice_index b.windows 1) b.pattern };
}

impl Banked {
    /// The board of a cartridge of UxROM (mapper 2) or CNROM (mapper 3). Bank 0 is chosen.
    pub fn new(prg: Vec<u8>, chr: Vec<u8>, chr_ram: bool, mapper: u16) -> Banked
        requires { IsUxrom (begun prg.items chr.items chr_ram mapper)
            ⊎ IsCnrom (begun prg.items chr.items chr_ram mapper) }
        ensures { result ≡ begun prg.items chr.items chr_ram mapper }
    {
        let high = prg.len();
        Banked {
            prg,
            chr,
            chr_ram,
            mapper,
            bank: 0,
            windows: [LOWEST, high],
            pattern: 0,
        }
    }

    /// The board of a cartridge of NROM, which has one bank.
    pub fn fixed(prg: Vec<u8>, chr: Vec<u8>, chr_ram: bool) -> Banked
        requires { IsNrom (begun prg.items chr.items chr_ram 0) }
        ensures { result ≡ begun prg.items chr.items chr_ram 0 }
    {
        let high = prg.len();
        Banked {
            prg,
            chr,
            chr_ram,
            mapper: 0,
            bank: 0,
            windows: [LOWEST, high],
            pattern: 0,
        }
    }

    /// Tells what holds of every board.
    pub fn fits(&self)
        ensures { IsBanks self.now }
    {
        let _bank = self.bank;
    }

    /// Whether pattern memory is RAM.
    #[inline]
    pub fn has_chr_ram(&self) -> bool
        ensures { result ≡ self.now.chr_ram }
    {
        self.chr_ram
    }

    /// Replaces all of pattern memory, which is RAM, of 8,192 bytes.
    pub fn load_pattern(&mut self, bytes: &[u8])
        requires ram { self.old.chr_ram ≡ true }
        requires len { length bytes.now ≡ 8192 }
        ensures { self.new ≡ record self.old { chr = bytes.now } }
    {
        self.chr.as_mut_slice().copy_from_slice(bytes);
    }

    // How many banks there are to choose from.
    #[tactic(auto, unfolding(crate::specs::Banks::bank_count))]
    fn banks(&self) -> usize
        ensures count { result ≡ bank_count self.now }
        ensures fits { IsBanks self.now }
    {
        match self.mapper {
            UXROM => self.prg.len() / PRG_BANK,
            CNROM => self.chr.len() / CHR_BANK,
            _ => 1,
        }
    }

    // The byte of program memory at an address.
    #[inline(always)]
    fn prg_byte(&self, at: u16) -> u8
        requires { 0x8000 ≤ at }
        ensures { result ≡ prg_byte self.now at }
    {
        let window = self.windows[at as usize / PRG_BANK - 2];
        self.prg[window + at as usize - 0x10000]
    }

    // Moves the windows to a bank.
    fn choose(&mut self, bank: u8)
        requires { bank < bank_count self.old }
        ensures { self.new ≡ with_bank self.old bank }
    {
        self.bank = bank;
        if self.mapper == UXROM {
            self.windows[0] = LOWEST + PRG_BANK * bank as usize;
        } else if self.mapper == CNROM {
            self.pattern = CHR_BANK * bank as usize;
        }
    }
}

impl Board for Banked {
    ghost Held = { Banks };

    ghost held = { λ b. b };

    ghost acts = { banked };

    #[inline(always)]
    #[tactic(auto, unfolding(crate::specs::Banked::byte_at))]
    fn cpu_read(&self, at: u16) -> Option<u8> {
        if at >= 0x8000 {
            Some(self.prg_byte(at))
        } else {
            None
        }
    }

    #[tactic(auto, unfolding(crate::specs::Banked::written, crate::specs::Banked::chosen_by))]
    fn cpu_write(&mut self, at: u16, value: u8) {
        if at >= 0x8000 {
            let chosen = value & self.prg_byte(at);
            let bank = chosen as usize % self.banks();
            self.choose(bank as u8);
        }
    }

    #[inline(always)]
    fn pattern(&self) -> &[u8] {
        &self.chr[self.pattern..self.pattern + CHR_BANK]
    }

    #[tactic(auto, unfolding(crate::specs::Banked::put_at))]
    fn put_pattern(&mut self, at: u16, value: u8) {
        if self.chr_ram {
            self.chr[at as usize] = value;
        }
    }

    #[inline]
    fn bank(&self) -> u8 {
        self.bank
    }

    fn set_bank(&mut self, bank: u8) {
        self.choose(bank);
    }
}
