//! The reader of cartridge files of the boards NROM, UxROM and CNROM, in the formats iNES and NES 2.0. What is
//! refused is one table of conditions in their order, `refusals` of specs/Reading, which is the definition to read
//! first; a file of which nothing is refused holds the cartridge `contents_of` it. Source: NESdev Wiki, "iNES", "NES
//! 2.0", "NROM", "UxROM" and "CNROM".
#![tactic(auto)]

ghost use Rattle.std.specs.Prelude.{◌≡◌, ◌+◌, ◌*◌, ◌/◌, ◌%◌, ◌<◌, ◌≤◌, ◌⊎◌, ◌==◌, ℕ, length, replicate, slice_index, slice_range, IsTrue, IfOk, MatchResult, None, Ok, Err, if◌then◌else◌};
ghost use Rattle.std.specs.Int.{bit_at};
ghost use Rattle.std.specs.List.{list_all};
ghost use Rattle.nj_ines.specs.Header.{is_named, is_nes_2, is_clean, mapper_of, prg_units_of, chr_units_of, timing_of};
ghost use Rattle.nj_ines.specs.Cartridge.{IsCartridge};
ghost use Rattle.nj_ines.specs.Reading.{is_board, has_prg, has_chr, refusals, first_refusal, IsReadable, contents_of, cartridge_of};

use std::alloc::{AllocError, Global};
use std::marker::Model;

const HEADER_BYTES: usize = 16;

const PRG_UNIT: usize = 16_384;

const CHR_UNIT: usize = 8_192;

/// Why a file is no cartridge that this machine takes. The variants stand in the order in which they are told.
#[derive(Clone, Copy, Debug, PartialEq, Eq)]
pub enum CartRefused {
    /// One of the first four bytes that are there differs.
    NotInes,
    /// The header asks for a trainer.
    Trainer,
    /// The header asks for four-screen mirroring.
    FourScreen,
    /// The board is not NROM (mapper 0), UxROM (2) or CNROM (3).
    Mapper { number: u64 },
    /// Not 2, 4, 8 or 16 units of 16 KiB of program memory with UxROM, not 1 or 2 with another board.
    PrgUnits { n: u64 },
    /// Not 1, 2 or 4 units of 8 KiB of pattern memory with CNROM, not 0 or 1 with another board.
    ChrUnits { n: u64 },
    /// The timing of PAL (1) or Dendy (3).
    Timing { n: u64 },
    /// The file has fewer bytes than the header, or than header and memories.
    Short { need: u64, have: u64 },
    /// Memory ran out.
    NoMemory,
}

impl From<AllocError> for CartRefused {
    ghost use Rattle.std.specs.Prelude.{◌≡◌};
    ghost use Rattle.nj_ines.specs.declared.CartRefused.TheVariants.{NoMemory};

    ghost from_gives = { λ _ refused. refused ≡ NoMemory };

    fn from(_error: AllocError) -> Self {
        CartRefused::NoMemory
    }
}

// Whether the first four bytes, as many as there are, are those of the format.
fn has_name(file: &[u8]) -> bool
    ensures { result ≡ is_named file.now }
{
    b"NES\x1A".starts_with(&file[..file.len().min(4)])
}

// Whether a bit of a byte is set.
fn has_bit(byte: u8, bit: u8) -> bool
    requires { bit < 8 }
    ensures { result ≡ (bit_at byte bit == 1) }
{
    byte >> bit & 1 == 1
}

// Whether the header is one of NES 2.0.
#[tactic(auto, unfolding(crate::specs::Header::is_nes_2))]
fn has_nes_2(file: &[u8]) -> bool
    requires { 16 ≤ length file.now }
    ensures { result ≡ is_nes_2 file.now }
{
    file[7] / 4 % 4 == 2
}

// Whether all bytes are zeros.
fn are_zeros(bytes: &[u8]) -> bool
    ensures { result ≡ list_all (λ byte. byte == 0) bytes.now }
{
    bytes.iter().all(|byte| *byte == 0)
}

// Whether an older header may be read past byte 6.
#[tactic(auto, unfolding(crate::specs::Header::is_clean))]
fn has_clean_tail(file: &[u8]) -> bool
    requires { 16 ≤ length file.now }
    ensures { result ≡ is_clean file.now }
{
    file[7] / 4 % 4 == 0 && are_zeros(&file[12..16])
}

// The mapper's number.
#[tactic(auto, unfolding(crate::specs::Header::mapper_of))]
fn mapper(file: &[u8]) -> u64
    requires { 16 ≤ length file.now }
    ensures number { result ≡ mapper_of file.now }
    ensures bound { result < 4096 }
{
    let high = if has_nes_2(file) || has_clean_tail(file) {
        16 * u64::from(file[7] / 16)
    } else {
        0
    };
    let above = if has_nes_2(file) {
        256 * u64::from(file[8] % 16)
    } else {
        0
    };
    u64::from(file[6] / 16) + high + above
}

// The count of units of program memory.
#[tactic(auto, unfolding(crate::specs::Header::prg_units_of))]
fn prg_units(file: &[u8]) -> u64
    requires { 16 ≤ length file.now }
    ensures units { result ≡ prg_units_of file.now }
    ensures bound { result < 4096 }
{
    let above = if has_nes_2(file) {
        256 * u64::from(file[9] % 16)
    } else {
        0
    };
    u64::from(file[4]) + above
}

// The count of units of pattern memory.
#[tactic(auto, unfolding(crate::specs::Header::chr_units_of))]
fn chr_units(file: &[u8]) -> u64
    requires { 16 ≤ length file.now }
    ensures units { result ≡ chr_units_of file.now }
    ensures bound { result < 4096 }
{
    let above = if has_nes_2(file) {
        256 * u64::from(file[9] / 16)
    } else {
        0
    };
    u64::from(file[5]) + above
}

// The timing.
#[tactic(auto, unfolding(crate::specs::Header::timing_of))]
fn timing(file: &[u8]) -> u64
    requires { 16 ≤ length file.now }
    ensures { result ≡ timing_of file.now }
{
    if has_nes_2(file) {
        u64::from(file[12] % 4)
    } else {
        0
    }
}

// Whether a board is taken.
#[tactic(auto, unfolding(crate::specs::Reading::is_board))]
fn is_board(mapper: u64) -> bool
    ensures { result ≡ is_board mapper }
{
    mapper == 0 || mapper == 2 || mapper == 3
}

// Whether a board has this count of units of program memory.
#[tactic(auto, unfolding(crate::specs::Reading::has_prg))]
fn has_prg(mapper: u64, units: u64) -> bool
    ensures { result ≡ has_prg mapper units }
{
    if mapper == 2 {
        units == 2 || units == 4 || units == 8 || units == 16
    } else {
        units == 1 || units == 2
    }
}

// Whether a board has this count of units of pattern memory.
#[tactic(auto, unfolding(crate::specs::Reading::has_chr))]
fn has_chr(mapper: u64, units: u64) -> bool
    ensures { result ≡ has_chr mapper units }
{
    if mapper == 3 {
        units == 1 || units == 2 || units == 4
    } else {
        units == 0 || units == 1
    }
}

// The first refusal of a file, if there is one.
#[tactic(auto, unfolding(crate::specs::Reading::refusals))]
fn refusal(file: &[u8]) -> Option<CartRefused>
    ensures first { result ≡ first_refusal (refusals file.now) }
    ensures readable { result ≡ None → IsReadable file.now }
{
    let have = file.len() as u64;
    if !has_name(file) {
        return Some(CartRefused::NotInes);
    }
    if have < 16 {
        return Some(CartRefused::Short { need: 16, have });
    }
    if has_bit(file[6], 2) {
        return Some(CartRefused::Trainer);
    }
    if has_bit(file[6], 3) {
        return Some(CartRefused::FourScreen);
    }
    let number = mapper(file);
    if !is_board(number) {
        return Some(CartRefused::Mapper { number });
    }
    let prg = prg_units(file);
    if !has_prg(number, prg) {
        return Some(CartRefused::PrgUnits { n: prg });
    }
    let chr = chr_units(file);
    if !has_chr(number, chr) {
        return Some(CartRefused::ChrUnits { n: chr });
    }
    let timing = timing(file);
    if timing == 1 || timing == 3 {
        return Some(CartRefused::Timing { n: timing });
    }
    let need = 16 + 16_384 * prg + 8_192 * chr;
    if have < need {
        return Some(CartRefused::Short { need, have });
    }
    None
}

// Pattern memory that is RAM.
fn zeros(alloc: Global) -> Result<Vec<u8>, AllocError>
    ensures { IfOk result (λ chr. chr.items ≡ replicate 8192 0) }
{
    vec![in alloc; 0; CHR_UNIT]
}

// The pattern memory of a file that is not refused: zeros where it is RAM.
fn pattern_memory(
    alloc: Global,
    file: &[u8],
    prg_end: usize,
    units: u64,
) -> Result<Vec<u8>, AllocError>
    requires few { units < 4096 }
    requires whole { prg_end + 8192 * units ≤ length file.now }
    ensures { IfOk result (λ chr. chr.items
        ≡ (if units == 0 then replicate 8192 0 else slice_range file.now prg_end (prg_end + 8192 * units))) }
{
    if units == 0 {
        zeros(alloc)
    } else {
        Vec::from_slice(alloc, &file[prg_end..prg_end + CHR_UNIT * units as usize])
    }
}

/// A cartridge of one of the boards NROM, UxROM and CNROM.
#[derive(Drop)]
pub struct Cart {
    prg: Vec<u8>,
    chr: Vec<u8>,
    chr_ram: bool,
    vertical: bool,
    mapper: u16,
}

impl Model for Cart {
    ghost use Rattle.nj_ines.specs.Cartridge.{Cartridge, IsCartridge};

    ghost Value = { Cartridge };

    ghost view = { λ c. record {
      prg = c.prg.items;
      chr = c.chr.items;
      chr_ram = c.chr_ram;
      vertical = c.vertical;
      mapper = c.mapper;
    } };

    ghost invariant = { λ c. IsCartridge (record {
      prg = c.prg.items;
      chr = c.chr.items;
      chr_ram = c.chr_ram;
      vertical = c.vertical;
      mapper = c.mapper;
    }) };
}

impl Cart {
    /// Reads a cartridge file. What stands behind the memories is ignored.
    #[tactic(auto, unfolding(crate::specs::Reading::cartridge_of))]
    pub fn read(alloc: Global, file: &[u8]) -> Result<Self, CartRefused>
        ensures { MatchResult result (λ cart. cartridge_of file.now ≡ Ok cart)
            (λ refused. (refused ≡ CartRefused.NoMemory) ⊎ (cartridge_of file.now ≡ Err refused)) }
    {
        match refusal(file) {
            Some(refused) => Err(refused),
            None => Ok(Cart::contents(alloc, file)?),
        }
    }

    // The cartridge that a file holds of which nothing is refused.
    fn contents(alloc: Global, file: &[u8]) -> Result<Self, AllocError>
        requires { IsReadable file.now }
        ensures { IfOk result (λ cart. cart ≡ contents_of file.now) }
    {
        let prg_end = HEADER_BYTES + PRG_UNIT * prg_units(file) as usize;
        let chr_units = chr_units(file);
        let prg = Vec::from_slice(alloc, &file[HEADER_BYTES..prg_end])?;
        let chr = pattern_memory(alloc, file, prg_end, chr_units)?;
        Ok(Cart {
            prg,
            chr,
            chr_ram: chr_units == 0,
            vertical: has_bit(file[6], 0),
            mapper: mapper(file) as u16,
        })
    }

    /// The program memory: 16 or 32 KiB with NROM and CNROM, 32, 64, 128 or 256 KiB with UxROM.
    pub fn prg(&self) -> &[u8]
        ensures { result.now ≡ self.now.prg }
    {
        self.prg.as_slice()
    }

    /// The pattern memory: 8 KiB with NROM and UxROM, 8, 16 or 32 KiB with CNROM.
    pub fn chr(&self) -> &[u8]
        ensures bytes { result.now ≡ self.now.chr }
        ensures ram_zeros { IsTrue self.now.chr_ram → result.now ≡ replicate 8192 0 }
    {
        self.chr.as_slice()
    }

    /// Whether the pattern memory is RAM.
    pub fn chr_ram(&self) -> bool
        ensures { result ≡ self.now.chr_ram }
    {
        self.chr_ram
    }

    /// Whether the nametables are mirrored vertically, that is, lie side by side.
    pub fn vertical(&self) -> bool
        ensures { result ≡ self.now.vertical }
    {
        self.vertical
    }

    /// The number of the board: 0 for NROM, 2 for UxROM, 3 for CNROM.
    pub fn mapper(&self) -> u16
        ensures number { result ≡ self.now.mapper }
        ensures fits { IsCartridge self.now }
    {
        self.mapper
    }
}
