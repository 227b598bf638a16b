//! The six flags and the byte that they are pushed as.

ghost use Rattle.std.specs.Prelude.{◌≡◌};
ghost use Rattle.nj_alu.specs.FlagByte.{flag_byte, flags_of_byte};

/// The six flags: negative, overflow, decimal, interrupt disable, zero, carry.
#[derive(Clone, Copy, Debug, PartialEq, Eq)]
pub struct Flags {
    pub n: bool,
    pub v: bool,
    pub d: bool,
    pub i: bool,
    pub z: bool,
    pub c: bool,
}

/// The byte N V 1 B D I Z C, from bit 7 to bit 0. `brk` is B: set where an instruction pushes it,
/// clear where an interrupt does.
#[tactic(auto, unfolding(crate::specs::FlagByte::flag_byte))]
#[inline]
pub fn pack_flags(f: Flags, brk: bool) -> u8
    ensures { result ≡ flag_byte f brk }
{
    f.n as u8 * 128
        + f.v as u8 * 64
        + 32
        + brk as u8 * 16
        + f.d as u8 * 8
        + f.i as u8 * 4
        + f.z as u8 * 2
        + f.c as u8
}

/// The flags of a pulled byte; bits 4 and 5 are ignored.
#[tactic(auto, unfolding(crate::specs::FlagByte::flags_of_byte))]
#[inline]
pub fn unpack_flags(p: u8) -> Flags
    ensures { result ≡ flags_of_byte p }
{
    Flags {
        n: p / 128 % 2 == 1,
        v: p / 64 % 2 == 1,
        d: p / 8 % 2 == 1,
        i: p / 4 % 2 == 1,
        z: p / 2 % 2 == 1,
        c: p % 2 == 1,
    }
}
