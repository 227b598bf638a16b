//! The text of a working memory.

ghost use Rattle.std.specs.Prelude.{◌≡◌, ◌≤◌, ◌++◌, length, codes, if◌then◌else◌, string_bytes, IfOk};
ghost use Rattle.nj_texts.specs.Memory.{hex_line_of, memory_text, play_line, ram_line, ram_lines};

use nj_seq::Text;
use std::alloc::{AllocError, Global};

/// The text after so many frames: whether the processor is jammed, and each byte of the memory that is not 0, with its
/// address.
#[tactic(auto, unfolding(crate::specs::Memory::memory_text))]
pub fn memory_text(
    alloc: Global,
    frames: usize,
    jammed: bool,
    ram: &[u8],
) -> Result<Text, AllocError>
    requires { length ram.now ≤ 65536 }
    ensures { IfOk result (λ text. text ≡ memory_text frames jammed ram.now) }
{
    let mut text = play_line(alloc, frames, jammed)?;
    write_ram(alloc, ram, &mut text)?;
    Ok(text)
}

#[tactic(auto, unfolding(crate::specs::Memory::play_line))]
fn play_line(alloc: Global, frames: usize, jammed: bool) -> Result<Text, AllocError>
    ensures { IfOk result (λ text. text ≡ play_line frames jammed) }
{
    let state = state_name(jammed);
    let line = format!(in alloc; "# play frames={frames} state={state}\n")?;
    Ok(Text::from_string(line))
}

fn state_name(jammed: bool) -> &'static str
    ensures { result.now ≡ (if jammed then codes "jam" else codes "run") }
{
    if jammed { "jam" } else { "run" }
}

fn write_ram(alloc: Global, ram: &[u8], text: &mut Text) -> Result<(), AllocError>
    requires { length ram.now ≤ 65536 }
    ensures { IfOk result (λ _. text.new ≡ text.old ++ ram_lines 0 ram.now) }
{
    for (at, byte) in ram.iter().enumerate() {
        write_byte(alloc, at as u16, *byte, text)?;
    }
    Ok(())
}

// A byte 0 has no line.
fn write_byte(alloc: Global, at: u16, byte: u8, text: &mut Text) -> Result<(), AllocError>
    ensures { IfOk result (λ _. text.new ≡ text.old ++ ram_line (at, byte)) }
{
    if byte == 0 {
        return Ok(());
    }
    let line = hex_line(alloc, (at / 256) as u8, (at % 256) as u8, byte)?;
    text.push_str(line.as_str())
}

#[tactic(auto, using(std::proofs::lemmas::Fmt::hex_byte))]
fn hex_line(alloc: Global, high: u8, low: u8, byte: u8) -> Result<String, AllocError>
    ensures { IfOk result (λ line. string_bytes line ≡ hex_line_of high low byte) }
{
    format!(in alloc; "{high:02X}{low:02X} {byte:02X}\n")
}
