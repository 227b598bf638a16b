//! Sums, differences and comparisons.

ghost use Rattle.std.specs.Prelude.{◌≡◌};
ghost use Rattle.nj_alu.specs.Arithmetic.{sum_of, difference_of, comparison_of};

/// What an addition or a subtraction leaves.
#[derive(Clone, Copy, Debug, PartialEq, Eq)]
pub struct Sum {
    pub value: u8,
    pub carry: bool,
    pub overflow: bool,
}

/// The three flags that a comparison sets.
#[derive(Clone, Copy, Debug, PartialEq, Eq)]
pub struct Flags3 {
    pub carry: bool,
    pub zero: bool,
    pub negative: bool,
}

/// Add with carry. Decimal mode has no effect, as in the 2A03.
#[tactic(auto, unfolding(crate::specs::Arithmetic::sum_of))]
#[inline]
pub fn adc(a: u8, m: u8, carry: bool) -> Sum
    ensures { result ≡ sum_of a m carry }
{
    let wide = a as u16 + m as u16 + carry as u16;
    let value = (wide % 256) as u8;
    Sum {
        value,
        carry: wide > 255,
        overflow: (a >= 128) != (value >= 128) && (m >= 128) != (value >= 128),
    }
}

/// Subtract with borrow, the borrow being a clear carry.
#[tactic(auto, unfolding(crate::specs::Arithmetic::difference_of))]
#[inline]
pub fn sbc(a: u8, m: u8, carry: bool) -> Sum
    ensures { result ≡ difference_of a m carry }
{
    adc(a, 255 - m, carry)
}

/// Compares a register with a byte.
#[tactic(auto, unfolding(crate::specs::Arithmetic::comparison_of))]
#[inline]
pub fn compare(a: u8, m: u8) -> Flags3
    ensures { result ≡ comparison_of a m }
{
    let difference = ((a as u16 + 256 - m as u16) % 256) as u8;
    Flags3 {
        carry: a >= m,
        zero: difference == 0,
        negative: difference >= 128,
    }
}
