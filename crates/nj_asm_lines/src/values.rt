//! Literals and labels.

ghost use Rattle.std.specs.Prelude.{◌≡◌, ◌+◌, ◌*◌, ◌<◌, ◌≤◌, ◌∷◌, ◌&&◌, length, min, IfOk, MatchOption};
ghost use Rattle.std.specs.Char.{digit_value, is_digit};
ghost use Rattle.std.specs.List.{list_all};
ghost use Rattle.std.specs.Option.{option_map, option_or};
ghost use Rattle.std.specs.Str.Parse.{digits_value};
ghost use Rattle.nj_asm_lines.specs.Grammar.{is_numeral, literal_of, name_in, value_of, is_narrow};

use crate::syntax::Value;
use crate::words::name_in;
use std::alloc::{AllocError, Global};

// The value of a digit in either case, 36 where there is none.
fn digit_value(digit: u8) -> u32
    ensures value { result ≡ digit_value digit }
    ensures small { result ≤ 36 }
{
    match digit {
        b'0'..=b'9' => (digit - b'0') as u32,
        b'A'..=b'Z' => (digit - b'A') as u32 + 10,
        b'a'..=b'z' => (digit - b'a') as u32 + 10,
        _ => 36,
    }
}

fn has_digits(radix: u32, text: &[u8]) -> bool
    ensures { result ≡ list_all (λ digit. is_digit digit radix) text.now }
{
    text.iter().all(|digit| digit_value(*digit) < radix)
}

fn is_numeral(radix: u32, text: &[u8]) -> bool
    ensures { result ≡ is_numeral radix text.now }
{
    !text.is_empty() && has_digits(radix, text)
}

// The number that digits write, clipped at 65,536.
fn clipped(radix: u32, text: &[u8]) -> u32
    requires some { 0 < radix }
    requires few { radix ≤ 16 }
    ensures { result ≡ min 65536 (digits_value radix text.now) }
{
    let mut number = 0;
    for digit in text {
        number = clip(number * radix + digit_value(*digit));
    }
    number
}

fn clip(number: u32) -> u32
    ensures { result ≡ min 65536 number }
{
    number.min(65_536)
}

#[tactic(auto, unfolding(crate::specs::Grammar::literal_of))]
fn literal_of(radix: u32, text: &[u8]) -> Option<Value>
    requires some { 0 < radix }
    requires few { radix ≤ 16 }
    ensures { result ≡ literal_of radix text.now }
{
    if is_numeral(radix, text) {
        Some(Value::Literal(clipped(radix, text)))
    } else {
        None
    }
}

fn low_of(alloc: Global, text: &[u8]) -> Result<Option<Value>, AllocError>
    ensures { IfOk result (λ value. value ≡ option_map Value.Low (name_in text.now)) }
{
    match name_in(alloc, text)? {
        Some(name) => Ok(Some(Value::Low(name))),
        None => Ok(None),
    }
}

fn high_of(alloc: Global, text: &[u8]) -> Result<Option<Value>, AllocError>
    ensures { IfOk result (λ value. value ≡ option_map Value.High (name_in text.now)) }
{
    match name_in(alloc, text)? {
        Some(name) => Ok(Some(Value::High(name))),
        None => Ok(None),
    }
}

fn plain_of(alloc: Global, text: &[u8]) -> Result<Option<Value>, AllocError>
    ensures { IfOk result
        (λ value. value ≡ option_or (literal_of 10 text.now) (option_map Value.Label (name_in text.now))) }
{
    if let Some(literal) = literal_of(10, text) {
        return Ok(Some(literal));
    }
    match name_in(alloc, text)? {
        Some(name) => Ok(Some(Value::Label(name))),
        None => Ok(None),
    }
}

/// The value that the whole text spells, without blanks.
#[tactic(auto, unfolding(crate::specs::Grammar::value_of))]
pub fn value_of(alloc: Global, text: &[u8]) -> Result<Option<Value>, AllocError>
    ensures { IfOk result (λ value. value ≡ value_of text.now) }
{
    match text.split_first() {
        None => Ok(None),
        Some((first, rest)) => {
            if *first == b'$' {
                Ok(literal_of(16, rest))
            } else if *first == b'<' {
                low_of(alloc, rest)
            } else if *first == b'>' {
                high_of(alloc, rest)
            } else {
                plain_of(alloc, text)
            }
        }
    }
}

/// Whether the value may stand in a zero-page mode.
pub fn is_narrow(value: &Value) -> bool
    ensures { result ≡ is_narrow value.now }
{
    match value {
        Value::Literal(number) => *number < 256,
        Value::Label(_) => false,
        Value::Low(_) | Value::High(_) => true,
    }
}
