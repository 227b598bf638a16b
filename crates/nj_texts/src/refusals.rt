//! The texts of refusals: a number, a name and each of its fields.

ghost use Rattle.std.specs.Prelude.{◌≡◌, ◌<◌, ◌++◌, List, ℕ, map, IfOk, string_bytes};
ghost use Rattle.nj_texts.specs.Refusals.{asm_refusal, cart_refusal, movie_refusal, refusal_line, replay_refusal, saved_refusal};
ghost use Rattle.nj_texts.specs.Refusals.{script_refusal, shown, shown_byte, too_long, trace_refusal};

use crate::kinds::Kind;
use nj_asm::AsmRefused;
use nj_ines::CartRefused;
use nj_movie::MovieRefused;
use nj_replay::ReplayRefused;
use nj_saved::SavedRefused;
use nj_script::ScriptRefused;
use nj_seq::Text;
use nj_trace::TraceRefused;
use std::alloc::{AllocError, Global};

/// A refusal that is told in a line.
pub trait Refusal {
    ghost text: { Self → List ℕ };

    /// Its number, its name and its fields. Want of memory has no text and stays that.
    fn text(&self, alloc: Global) -> Result<String, AllocError>
        ensures { IfOk result (λ told. string_bytes told ≡ text self.now) };
}

/// The text of a file that is longer than its limit, by the number that its kind of file gives this refusal.
#[tactic(auto, unfolding(crate::specs::Refusals::too_long))]
pub fn too_long(alloc: Global, number: u32, limit: u64) -> Result<String, AllocError>
    ensures { IfOk result (λ text. string_bytes text ≡ too_long number limit) }
{
    format!(in alloc; "{number} TooLong limit={limit}")
}

/// The line of a refusal of this kind, by its text.
#[tactic(auto, unfolding(crate::specs::Refusals::refusal_line))]
pub fn refusal_line(alloc: Global, kind: Kind, refusal: &str) -> Result<Text, AllocError>
    ensures { IfOk result (λ line. line ≡ refusal_line kind refusal.now) }
{
    let name = kind.name();
    let line = format!(in alloc; "nj: {name} {refusal}\n")?;
    Ok(Text::from_string(line))
}

impl Refusal for CartRefused {
    ghost text = { cart_refusal };

    #[tactic(auto, unfolding(crate::specs::Refusals::cart_refusal))]
    fn text(&self, alloc: Global) -> Result<String, AllocError> {
        match self {
            CartRefused::NotInes => String::from_str(alloc, "1 NotInes"),
            CartRefused::Trainer => String::from_str(alloc, "2 Trainer"),
            CartRefused::FourScreen => String::from_str(alloc, "3 FourScreen"),
            CartRefused::Mapper { number } => format!(in alloc; "4 Mapper number={number}"),
            CartRefused::PrgUnits { n } => format!(in alloc; "5 PrgUnits n={n}"),
            CartRefused::ChrUnits { n } => format!(in alloc; "6 ChrUnits n={n}"),
            CartRefused::Timing { n } => format!(in alloc; "7 Timing n={n}"),
            CartRefused::Short { need, have } => {
                format!(in alloc; "8 Short need={need} have={have}")
            }
            CartRefused::NoMemory => Err(AllocError),
        }
    }
}

impl Refusal for MovieRefused {
    ghost text = { movie_refusal };

    #[tactic(auto, unfolding(crate::specs::Refusals::movie_refusal))]
    fn text(&self, alloc: Global) -> Result<String, AllocError> {
        match self {
            MovieRefused::Line { line } => format!(in alloc; "1 Line line={line}"),
            MovieRefused::TooManyFrames { line } => format!(in alloc;
                "2 TooManyFrames line={line}"
            ),
            MovieRefused::NoMemory => Err(AllocError),
        }
    }
}

impl Refusal for ReplayRefused {
    ghost text = { replay_refusal };

    #[tactic(auto, unfolding(crate::specs::Refusals::replay_refusal))]
    fn text(&self, alloc: Global) -> Result<String, AllocError> {
        match self {
            ReplayRefused::NotStart { frame } => format!(in alloc; "3 NotStart frame={frame}"),
            ReplayRefused::NotHeld { frame } => format!(in alloc; "4 NotHeld frame={frame}"),
            ReplayRefused::NoMemory => Err(AllocError),
        }
    }
}

impl Refusal for TraceRefused {
    ghost text = { trace_refusal };

    #[tactic(auto, unfolding(crate::specs::Refusals::trace_refusal))]
    fn text(&self, alloc: Global) -> Result<String, AllocError> {
        match self {
            TraceRefused::NoFrame { frame, frames } => {
                format!(in alloc; "6 NoFrame frame={frame} frames={frames}")
            }
            TraceRefused::NoMemory => Err(AllocError),
        }
    }
}

impl Refusal for SavedRefused {
    ghost text = { saved_refusal };

    #[tactic(auto, unfolding(crate::specs::Refusals::saved_refusal))]
    fn text(&self, alloc: Global) -> Result<String, AllocError> {
        match self {
            SavedRefused::NotSaved => String::from_str(alloc, "1 NotSaved"),
            SavedRefused::Version { n } => format!(in alloc; "2 Version n={n}"),
            SavedRefused::OtherCartridge { kept, now } => {
                format!(in alloc; "3 OtherCartridge kept={kept} now={now}")
            }
            SavedRefused::OtherScript { kept, now } => {
                format!(in alloc; "4 OtherScript kept={kept} now={now}")
            }
            SavedRefused::Short { at } => format!(in alloc; "5 Short at={at}"),
            SavedRefused::Range { at } => format!(in alloc; "6 Range at={at}"),
            SavedRefused::Trailing { at } => format!(in alloc; "7 Trailing at={at}"),
            SavedRefused::Damaged { kept, now } => {
                format!(in alloc; "9 Damaged kept={kept} now={now}")
            }
            SavedRefused::NoMemory => Err(AllocError),
        }
    }
}

impl Refusal for AsmRefused {
    ghost text = { asm_refusal };

    #[tactic(auto, unfolding(crate::specs::Refusals::asm_refusal))]
    fn text(&self, alloc: Global) -> Result<String, AllocError> {
        match self {
            AsmRefused::Syntax { line } => format!(in alloc; "1 Syntax line={line}"),
            AsmRefused::UnknownOp { line } => format!(in alloc; "2 UnknownOp line={line}"),
            AsmRefused::NoMode { line } => format!(in alloc; "3 NoMode line={line}"),
            AsmRefused::Range { line } => format!(in alloc; "4 Range line={line}"),
            AsmRefused::UnknownLabel { line } => format!(in alloc; "5 UnknownLabel line={line}"),
            AsmRefused::TwiceLabel { line } => format!(in alloc; "6 TwiceLabel line={line}"),
            AsmRefused::TooLong { line } => format!(in alloc; "7 TooLong line={line}"),
            AsmRefused::NoMemory => Err(AllocError),
        }
    }
}

impl Refusal for ScriptRefused {
    ghost text = { script_refusal };

    #[tactic(auto, unfolding(crate::specs::Refusals::script_refusal))]
    fn text(&self, alloc: Global) -> Result<String, AllocError> {
        match self {
            ScriptRefused::NotJson => String::from_str(alloc, "1 NotJson"),
            ScriptRefused::Missing { key } => with_text(alloc, "2 Missing key=", key),
            ScriptRefused::UnknownKey { key } => with_text(alloc, "3 UnknownKey key=", key),
            ScriptRefused::WrongKind { key } => with_text(alloc, "4 WrongKind key=", key),
            ScriptRefused::OutOfRange { key, value } => {
                let key = shown_text(alloc, key)?;
                format!(in alloc; "5 OutOfRange key={key} value={value}")
            }
            ScriptRefused::UnknownName { name } => with_text(alloc, "6 UnknownName name=", name),
            ScriptRefused::TwiceNamed { name } => with_text(alloc, "7 TwiceNamed name=", name),
            ScriptRefused::TooMany { key, limit } => {
                let key = shown_text(alloc, key)?;
                format!(in alloc; "8 TooMany key={key} limit={limit}")
            }
            ScriptRefused::Version { n } => format!(in alloc; "9 Version n={n}"),
            ScriptRefused::NoMemory => Err(AllocError),
        }
    }
}

// A byte that is shown as it is, or `?`.
#[tactic(auto, unfolding(crate::specs::Refusals::shown_byte))]
fn shown_char(byte: u8) -> char
    ensures value { result ≡ shown_byte byte }
    ensures ascii { result < 128 }
{
    if byte >= b' ' && byte <= b'~' {
        char::from(byte)
    } else {
        '?'
    }
}

fn shown_bytes(alloc: Global, text: &[u8]) -> Result<String, AllocError>
    ensures { IfOk result (λ told. string_bytes told ≡ shown text.now) }
{
    let mut told = String::new(alloc);
    for byte in text {
        told.push(shown_char(*byte))?;
    }
    Ok(told)
}

fn shown_text(alloc: Global, text: &Text) -> Result<String, AllocError>
    ensures { IfOk result (λ told. string_bytes told ≡ shown text.now) }
{
    shown_bytes(alloc, text.as_bytes())
}

// A refusal with one text.
fn with_text(alloc: Global, refusal: &str, text: &Text) -> Result<String, AllocError>
    ensures { IfOk result (λ told. string_bytes told ≡ refusal.now ++ shown text.now) }
{
    let text = shown_text(alloc, text)?;
    format!(in alloc; "{refusal}{text}")
}
