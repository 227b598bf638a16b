//! The arithmetic of the NMOS 6502: sums, comparisons, shifts and the flag byte. Every value is a
//! byte, and a flag is a `bool`. Definitions and code speak in sums, quotients and remainders and
//! not in words of bits, so that the check finds the proofs itself; three laws say above them what
//! overflow, borrow and the flag byte mean. Read `sum_of` (specs/Arithmetic.antt) first.
#![tactic(auto)]

mod arithmetic;
mod flags;
mod laws;
mod shifts;

pub use arithmetic::{Flags3, Sum, adc, compare, sbc};
pub use flags::{Flags, pack_flags, unpack_flags};
pub use laws::{flags_come_back, overflow_tells_signed_sum, subtraction_borrows};
pub use shifts::{Shifted, arr, asl, lsr, rol, ror};

#[cfg(test)]
mod tests {
    use super::*;

    #[test]
    fn sums(rt: HostRuntime) {
        for (a, m, carry, value, carry_out, overflow) in [
            (0x50, 0x10, false, 0x60, false, false),
            (0x50, 0x50, false, 0xA0, false, true),
            (0x50, 0xD0, false, 0x20, true, false),
            (0xD0, 0x90, false, 0x60, true, true),
            (0xFF, 0x00, true, 0x00, true, false),
        ] {
            let sum = adc(a, m, carry);
            assert_eq!(rt; sum.value, value, "{a} + {m}");
            assert_eq!(rt; sum.carry, carry_out, "{a} + {m}");
            assert_eq!(rt; sum.overflow, overflow, "{a} + {m}");
        }
        for (a, m, value, carry_out, overflow) in [
            (0x50, 0xF0, 0x60, false, false),
            (0x50, 0xB0, 0xA0, false, true),
            (0x50, 0x30, 0x20, true, false),
            (0xD0, 0x70, 0x60, true, true),
        ] {
            let sum = sbc(a, m, true);
            assert_eq!(rt; sum.value, value, "{a} - {m}");
            assert_eq!(rt; sum.carry, carry_out, "{a} - {m}");
            assert_eq!(rt; sum.overflow, overflow, "{a} - {m}");
        }
    }

    #[test]
    fn shifts_and_flags(rt: HostRuntime) {
        assert_eq!(rt; asl(0x81).value, 0x02);
        assert_eq!(rt; lsr(0x81).value, 0x40);
        assert_eq!(rt; rol(0x81, true).value, 0x03);
        assert_eq!(rt; ror(0x81, true).value, 0xC0);
        let rotated = arr(0xC0, 0xFF, true);
        assert_eq!(rt; rotated.value, 0xE0);
        assert!(rt; rotated.carry && !rotated.overflow);
        assert!(rt; !arr(0x40, 0xFF, false).carry && arr(0x40, 0xFF, false).overflow);
        assert!(rt; compare(0x10, 0x10).zero);
        assert!(rt; compare(0x10, 0x20).negative);
        assert_eq!(rt; pack_flags(unpack_flags(0x00), true), 0x30);
        assert_eq!(rt; pack_flags(unpack_flags(0xCF), false), 0xEF);
    }
}
