//! A bus of 2 KiB of RAM and 16 KiB of PRG.

ghost use Rattle.std.specs.Prelude.{◌≡◌, ◌%◌, ◌<◌, List, ℕ, Bool, Option, false, None, length, vec_len, slice_set};
ghost use Rattle.nj_cpu_bench.specs.Memory.{byte_at, ram_after};

use nj_cpu::Bus;

/// A table at $9000, and at $8000 a loop that reads the table, adds, rotates, counts and writes RAM.
const PROGRAM: [u8; 22] = [
    0xA2, 0x00, 0xBD, 0x00, 0x90, 0x65, 0x10, 0x9D, 0x00, 0x02, 0xE6, 0x11, 0x45, 0x11, 0x2A, 0x85,
    0x10, 0xE8, 0xD0, 0xEE, 0x4C, 0x00,
];

/// RAM and PRG, with a count of cycles.
#[derive(Drop)]
pub struct Cells {
    pub ram: [u8; 2048],
    pub prg: Vec<u8>,
    pub cycles: u64,
    ghost whole: { vec_len prg ≡ 16384 },
}

impl Cells {
    /// RAM is 0 and no cycle has passed.
    pub fn new(prg: Vec<u8>) -> Cells
        requires { vec_len prg ≡ 16384 }
    {
        Cells {
            ram: [0; 2048],
            prg,
            cycles: 0,
        }
    }
}

/// Writes the loop and its table.
pub fn fill(prg: &mut [u8])
    requires { length prg.old ≡ 16384 }
{
    for (i, byte) in PROGRAM.iter().enumerate() {
        prg[i] = *byte;
    }
    prg[22] = 0x80;
    for i in 0..256usize {
        prg[4096 + i] = ((i * 7 + 3) % 256) as u8;
    }
}

/// The sum of the 256 bytes that the loop writes.
pub fn ram_sum(cells: &Cells) -> u32 {
    let mut sum = 0u32;
    for i in 0..256usize {
        sum = sum.wrapping_add(cells.ram[512 + i] as u32);
    }
    sum
}

impl Bus for Cells {
    ghost Held = { (List ℕ) × (List ℕ) };

    ghost held = { λ b. (b.ram, b.prg.items) };

    ghost acts = { record {
      byte = λ h at. byte_at h.0 h.1 at;
      after_read = λ h at. h;
      after_write = λ h at value. (ram_after h.0 at value, h.1);
      line = λ h. false;
      page = λ h. None;
      after_take = λ h. h;
      odd = λ h. false;
    } };

    #[inline]
    fn read(&mut self, at: u16) -> u8 {
        self.cycles = self.cycles.wrapping_add(1);
        if at < 8192 {
            self.ram[at as usize % 2048]
        } else if at >= 32768 {
            self.prg[(at as usize - 32768) % 16384]
        } else {
            0
        }
    }

    #[inline]
    fn write(&mut self, at: u16, value: u8) {
        self.cycles = self.cycles.wrapping_add(1);
        if at < 8192 {
            self.ram[at as usize % 2048] = value;
        }
    }

    #[inline]
    fn nmi_line(&self) -> bool {
        false
    }

    #[inline]
    fn take_dma(&mut self) -> Option<u8> {
        None
    }

    #[inline]
    fn odd(&self) -> bool {
        false
    }
}
