ghost use Rattle.std.specs.Prelude.{◌≡◌, ◌↔◌, IsSome};
ghost use Rattle.std.specs.Char.{is_ascii_digit};
ghost use Rattle.std.specs.List.{list_all};
ghost use Rattle.nj_bytes.specs.Decimal.{IsDecimal, decimal_of};

/// The most digits of a number. The greatest `u64` has as many.
const MOST_DIGITS: usize = 20;

/// The number that the text is. Zeros may lead; a sign, a blank or a 21st digit makes it no number.
pub fn read_decimal(text: &str) -> Option<u64>
    ensures value { result ≡ decimal_of text.now }
    ensures exactly { IsSome result ↔ IsDecimal text.now }
{
    if text.len() > MOST_DIGITS {
        return None;
    }
    if !has_digits_alone(text) {
        return None;
    }
    text.parse().ok()
}

fn has_digits_alone(text: &str) -> bool
    ensures { result ≡ list_all is_ascii_digit text.now }
{
    text.bytes().all(|byte| byte.is_ascii_digit())
}

#[cfg(test)]
mod tests {
    use super::*;

    #[test]
    fn numbers_and_no_numbers(rt: HostRuntime) {
        for (text, want) in [
            ("0", Some(0)),
            ("18446744073709551615", Some(u64::MAX)),
            ("00000000000000000042", Some(42)),
            ("000000000000000000042", None),
            ("18446744073709551616", None),
            ("", None),
            ("+5", None),
            ("-1", None),
            ("5 ", None),
        ] {
            assert_eq!(rt; read_decimal(text), want, "of {text:?}");
        }
    }
}
