//! The words of a source: blanks, names and the parts of a text.

ghost use Rattle.std.specs.Prelude.{◌≡◌, ◌+◌, ◌-◌, ◌<◌, ◌≤◌, ◌==◌, length, take, drop, not, position, nat_eq, option_copied, IfOk, IfSome, MatchOption};
ghost use Rattle.std.specs.List.{list_all};
ghost use Rattle.nj_asm_lines.specs.Words.{is_blank, is_name_byte, is_name, blanks_before, without_start, without_end, length_before, between};
ghost use Rattle.nj_asm_lines.specs.Grammar.{name_in, word_len};

use nj_seq::Text;
use std::alloc::{AllocError, Global};

/// A space or a tab.
pub fn is_blank(byte: u8) -> bool
    ensures { result ≡ is_blank byte }
{
    byte == b' ' || byte == b'\t'
}

fn is_name_byte(byte: u8) -> bool
    ensures { result ≡ is_name_byte byte }
{
    byte.is_ascii_alphanumeric() || byte == b'_'
}

fn has_name_bytes(text: &[u8]) -> bool
    ensures { result ≡ list_all is_name_byte text.now }
{
    text.iter().all(|byte| is_name_byte(*byte))
}

/// Letters, digits and underscores, the first no digit.
#[tactic(auto, unfolding(crate::specs::Words::is_name))]
pub fn is_name(text: &[u8]) -> bool
    ensures { result ≡ is_name text.now }
{
    !text.is_empty() && !text[0].is_ascii_digit() && has_name_bytes(text)
}

/// The name that the text is, if it is one.
pub fn name_in(alloc: Global, text: &[u8]) -> Result<Option<Text>, AllocError>
    ensures { IfOk result (λ name. name ≡ name_in text.now) }
{
    if !is_name(text) {
        return Ok(None);
    }
    match str::from_utf8(text) {
        Ok(name) => Ok(Some(Text::from_str(alloc, name)?)),
        Err(_) => Ok(None),
    }
}

fn first_blank(text: &[u8]) -> Option<usize>
    ensures { result ≡ position is_blank text.now }
{
    text.iter().position(|byte| is_blank(*byte))
}

fn first_other(text: &[u8]) -> Option<usize>
    ensures { result ≡ position (λ b. not (is_blank b)) text.now }
{
    text.iter().position(|byte| !is_blank(*byte))
}

fn first_of(byte: u8, text: &[u8]) -> Option<usize>
    ensures { result ≡ position (λ b. b == byte) text.now }
{
    text.iter().position(|b| *b == byte)
}

/// The place of the first blank, or the text's length.
pub fn word_len(text: &[u8]) -> usize
    ensures value { result ≡ word_len text.now }
    ensures within { result ≤ length text.now }
{
    first_blank(text).unwrap_or(text.len())
}

/// The place of the first such byte, or the text's length.
pub fn length_before(byte: u8, text: &[u8]) -> usize
    ensures value { result ≡ length_before byte text.now }
    ensures within { result ≤ length text.now }
{
    first_of(byte, text).unwrap_or(text.len())
}

/// The text without the blanks that it begins with.
pub fn without_start(text: &[u8]) -> &[u8]
    ensures { result.now ≡ without_start text.now }
{
    &text[blanks_before(text)..]
}

// How many blanks a text begins with.
fn blanks_before(text: &[u8]) -> usize
    ensures value { result ≡ blanks_before text.now }
    ensures within { result ≤ length text.now }
{
    first_other(text).unwrap_or(text.len())
}

/// The text without the blanks that it ends with.
pub fn without_end(text: &[u8]) -> &[u8]
    ensures { result.now ≡ without_end text.now }
{
    let mut end = text.len();
    while end > 0 && is_blank(text[end - 1]) {
        end -= 1;
    }
    &text[..end]
}

/// What stands between these two ends, if the text has them.
#[tactic(auto, unfolding(crate::specs::Words::between))]
pub fn between<'a>(front: &[u8], back: &[u8], text: &'a [u8]) -> Option<&'a [u8]>
    ensures { option_copied result ≡ between front.now back.now text.now }
{
    text.strip_prefix(front)?.strip_suffix(back)
}
