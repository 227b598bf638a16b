//! The pieces of a listing's lines, each added at the text's end.

ghost use Rattle.std.specs.Prelude.{◌≡◌, ◌+◌, ◌-◌, ◌*◌, ◌/◌, ◌%◌, ◌<◌, ◌≤◌, ◌++◌, ◌∷◌, [], ℕ, codes, length, OnOk};
ghost use Rattle.std.specs.List.{flat_map};
ghost use Rattle.nj_asm.specs.Listing.{hex_digit, hex2, hex4, branch_target, number_text, operand_text, spaced, filling, place_text};

use nj_isa::Mode;
use std::alloc::AllocError;

fn hex_digit(number: u8) -> u8
    requires { number < 16 }
    ensures { result ≡ hex_digit number }
{
    if number < 10 {
        48 + number
    } else {
        55 + number
    }
}

/// Adds a byte as two hexadecimal digits, the letters among them as capitals.
#[tactic(auto, unfolding(crate::specs::Listing::hex2))]
pub fn push_hex2(text: &mut Vec<u8>, byte: u8) -> Result<(), AllocError>
    ensures { OnOk result (text.new.items ≡ text.old.items ++ hex2 byte) }
{
    text.push(hex_digit(byte / 16 % 16))?;
    text.push(hex_digit(byte % 16))?;
    Ok(())
}

#[tactic(auto, unfolding(crate::specs::Listing::hex4))]
fn push_hex4(text: &mut Vec<u8>, number: u32) -> Result<(), AllocError>
    ensures { OnOk result (text.new.items ≡ text.old.items ++ hex4 number) }
{
    push_hex2(text, (number / 256 % 256) as u8)?;
    push_hex2(text, (number % 256) as u8)
}

fn branch_target(at: u32, offset: u8) -> u32
    requires { at < 65536 }
    ensures { result ≡ branch_target at offset }
{
    let sign = if offset < 128 { 0 } else { 65_280 };
    (at + 2 + u32::from(offset) + sign) % 65_536
}

// The signs before an operand's number, the blank among them, and those behind it.
#[tactic(auto, unfolding(crate::specs::Listing::operand_text))]
fn signs(mode: Mode) -> (&'static [u8], &'static [u8])
    ensures { (at low high : ℕ) → operand_text mode at low high
        ≡ result.0.now ++ number_text mode at low high ++ result.1.now }
{
    match mode {
        Mode::Implied => (b"", b""),
        Mode::Accumulator => (b" A", b""),
        Mode::Immediate => (b" #$", b""),
        Mode::Zp | Mode::Abs | Mode::Relative => (b" $", b""),
        Mode::ZpX | Mode::AbsX => (b" $", b",X"),
        Mode::ZpY | Mode::AbsY => (b" $", b",Y"),
        Mode::IndX => (b" ($", b",X)"),
        Mode::IndY => (b" ($", b"),Y"),
        Mode::Indirect => (b" ($", b")"),
    }
}

fn push_number(text: &mut Vec<u8>, mode: Mode, at: u32, low: u8, high: u8) -> Result<(), AllocError>
    requires { at < 65536 }
    ensures { OnOk result (text.new.items ≡ text.old.items ++ number_text mode at low high) }
{
    match mode {
        Mode::Implied | Mode::Accumulator => Ok(()),
        Mode::Abs | Mode::AbsX | Mode::AbsY | Mode::Indirect => {
            push_hex4(text, u32::from(low) + 256 * u32::from(high))
        }
        Mode::Relative => push_hex4(text, branch_target(at, low)),
        _ => push_hex2(text, low),
    }
}

/// Adds a blank and the operand, if the mode has one.
pub fn push_operand(
    text: &mut Vec<u8>,
    mode: Mode,
    at: u32,
    low: u8,
    high: u8,
) -> Result<(), AllocError>
    requires { at < 65536 }
    ensures { OnOk result (text.new.items ≡ text.old.items ++ operand_text mode at low high) }
{
    let (front, back) = signs(mode);
    text.extend_from_slice(front)?;
    push_number(text, mode, at, low, high)?;
    text.extend_from_slice(back)
}

fn push_spaced(text: &mut Vec<u8>, byte: u8) -> Result<(), AllocError>
    ensures { OnOk result (text.new.items ≡ text.old.items ++ spaced byte) }
{
    text.push(b' ')?;
    push_hex2(text, byte)
}

fn push_all_spaced(text: &mut Vec<u8>, bytes: &[u8]) -> Result<(), AllocError>
    ensures { OnOk result (text.new.items ≡ text.old.items ++ flat_map spaced bytes.now) }
{
    for byte in bytes {
        push_spaced(text, *byte)?;
    }
    Ok(())
}

fn filling(count: usize) -> &'static [u8]
    ensures { result.now ≡ filling count }
{
    if count == 1 {
        b"      "
    } else if count == 2 {
        b"   "
    } else {
        b""
    }
}

/// Adds an address and the bytes there, filled to eight columns, with a blank behind.
#[tactic(auto, unfolding(crate::specs::Listing::place_text))]
pub fn push_place(text: &mut Vec<u8>, at: u32, bytes: &[u8]) -> Result<(), AllocError>
    ensures { OnOk result (text.new.items ≡ text.old.items ++ place_text at bytes.now) }
{
    push_hex4(text, at)?;
    push_all_spaced(text, bytes)?;
    text.extend_from_slice(filling(bytes.len()))?;
    text.extend_from_slice(b" ")
}
