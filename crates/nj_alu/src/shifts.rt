//! Shifts and rotations.

ghost use Rattle.std.specs.Prelude.{◌≡◌};
ghost use Rattle.nj_alu.specs.Shifts.{shifted_left, shifted_right, rotated_left, rotated_right, and_rotated};

use crate::arithmetic::Sum;

/// A byte moved by one bit, and the bit that left it.
#[derive(Clone, Copy, Debug, PartialEq, Eq)]
pub struct Shifted {
    pub value: u8,
    pub carry: bool,
}

/// Shift left: a 0 comes in at bit 0, bit 7 goes out.
#[tactic(auto, unfolding(crate::specs::Shifts::shifted_left))]
#[inline]
pub fn asl(v: u8) -> Shifted
    ensures { result ≡ shifted_left v }
{
    Shifted {
        value: v % 128 * 2,
        carry: v >= 128,
    }
}

/// Shift right: a 0 comes in at bit 7, bit 0 goes out.
#[tactic(auto, unfolding(crate::specs::Shifts::shifted_right))]
#[inline]
pub fn lsr(v: u8) -> Shifted
    ensures { result ≡ shifted_right v }
{
    Shifted {
        value: v / 2,
        carry: v % 2 == 1,
    }
}

/// Rotate left: the carry comes in at bit 0, bit 7 goes out.
#[tactic(auto, unfolding(crate::specs::Shifts::rotated_left))]
#[inline]
pub fn rol(v: u8, carry: bool) -> Shifted
    ensures { result ≡ rotated_left v carry }
{
    Shifted {
        value: v % 128 * 2 + carry as u8,
        carry: v >= 128,
    }
}

/// Rotate right: the carry comes in at bit 7, bit 0 goes out.
#[tactic(auto, unfolding(crate::specs::Shifts::rotated_right))]
#[inline]
pub fn ror(v: u8, carry: bool) -> Shifted
    ensures { result ≡ rotated_right v carry }
{
    Shifted {
        value: v / 2 + carry as u8 * 128,
        carry: v % 2 == 1,
    }
}

/// ARR: the AND of two bytes, rotated right. The carry is bit 6 of the result, and the overflow is
/// bit 6 xor bit 5.
#[tactic(auto, unfolding(crate::specs::Shifts::and_rotated))]
#[inline]
pub fn arr(a: u8, m: u8, carry: bool) -> Sum
    ensures { result ≡ and_rotated a m carry }
{
    let value = ror(a & m, carry).value;
    let bit_6 = value / 64 % 2 == 1;
    let bit_5 = value / 32 % 2 == 1;
    Sum {
        value,
        carry: bit_6,
        overflow: bit_6 != bit_5,
    }
}
