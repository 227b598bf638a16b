//! Laws of the arithmetic in the words of the manuals. Nothing calls these functions: each is the
//! statement that its clauses make.

ghost use Rattle.std.specs.Prelude.{◌≡◌, ◌+◌, ◌-◌, ◌%◌, ◌<◌, ℕ, Bool, false, not, nat_le};
ghost use Rattle.nj_alu.specs.declared.flags.Flags.{Flags as SixFlags};
ghost use Rattle.nj_alu.specs.Bits.{bit};
ghost use Rattle.nj_alu.specs.Arithmetic.{sum_of, difference_of};
ghost use Rattle.nj_alu.specs.FlagByte.{flag_byte, flags_of_byte};
ghost use Rattle.nj_alu.specs.Signed.{FitsSignedByte, signed_sum};

/// V of ADC is clear exactly where the sum of the signed bytes is from -128 to 127.
pub fn overflow_tells_signed_sum()
    ensures fits { (a m : ℕ) (carry : Bool) → a < 256 → m < 256 → (sum_of a m carry).overflow ≡ false
        → FitsSignedByte (signed_sum a m carry) }
    ensures only_then { (a m : ℕ) (carry : Bool) → a < 256 → m < 256 → FitsSignedByte (signed_sum a m carry)
        → (sum_of a m carry).overflow ≡ false }
{}

/// SBC takes the byte and, where the carry is clear, one more away; the carry then tells that
/// nothing was borrowed.
pub fn subtraction_borrows()
    ensures value { (a m : ℕ) (carry : Bool) → a < 256 → m < 256
        → (difference_of a m carry).value ≡ (a + 256 - m - bit (not carry)) % 256 }
    ensures carry { (a m : ℕ) (carry : Bool) → a < 256 → m < 256
        → (difference_of a m carry).carry ≡ nat_le (m + bit (not carry)) a }
{}

/// Flags that are pushed and pulled are the same, whatever bit 4 was.
pub fn flags_come_back()
    ensures { (f : SixFlags) (brk : Bool) → flags_of_byte (flag_byte f brk) ≡ f }
{}
