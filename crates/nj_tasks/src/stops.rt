//! What a command comes to: a reply, or what stops it.

ghost use Rattle.std.specs.Prelude.{◌≡◌, None};
ghost use Rattle.nj_texts.specs.Refusals.{too_long};
ghost use Rattle.nj_tasks.specs.Stops.{IsRefusal, status_of, line_of};

use crate::files::Bounds;
use nj_seq::{Seq, Text};
use nj_texts::{Kind, Refusal, refusal_line};
use std::alloc::{AllocError, Global};

/// Why a command ends before its text. A refusal has its whole line.
#[derive(Drop)]
pub enum Stop {
    Usage,
    Refused { kind: Kind, line: Text },
    ReadFault,
    NoMemory,
}

impl Stop {
    /// The exit status.
    pub fn status(&self) -> u8
        ensures { result ≡ status_of self.now }
    {
        match self {
            Stop::Usage => 3,
            Stop::Refused { kind, .. } => kind.status(),
            Stop::ReadFault => 7,
            Stop::NoMemory => 9,
        }
    }

    /// The line on `err`, with its end of line.
    pub fn line(&self) -> &[u8]
        ensures { result.now ≡ line_of self.now }
    {
        match self {
            Stop::Usage => b"nj: usage\n",
            Stop::Refused { line, .. } => line.as_bytes(),
            Stop::ReadFault => b"nj: read fault\n",
            Stop::NoMemory => b"nj: no memory\n",
        }
    }
}

impl From<AllocError> for Stop {
    ghost use Rattle.nj_tasks.specs.declared.stops.Stop.TheVariants.{NoMemory};

    ghost from_gives = { λ _ stop. stop ≡ NoMemory };

    fn from(_error: AllocError) -> Stop {
        Stop::NoMemory
    }
}

/// The stop of a refusal of this kind.
pub fn refused<R: Refusal>(alloc: Global, kind: Kind, refusal: &R) -> Stop
    ensures { IsRefusal kind (R.text refusal.now) result }
{
    match refusal.text(alloc) {
        Ok(text) => told(alloc, kind, text.as_str()),
        Err(_) => Stop::NoMemory,
    }
}

/// The stop of a file that is longer than its limit.
pub fn too_long(alloc: Global, bounds: Bounds) -> Stop
    ensures { IsRefusal bounds.kind (too_long bounds.too_long bounds.limit) result }
{
    match nj_texts::too_long(alloc, bounds.too_long, bounds.limit) {
        Ok(text) => told(alloc, bounds.kind, text.as_str()),
        Err(_) => Stop::NoMemory,
    }
}

fn told(alloc: Global, kind: Kind, refusal: &str) -> Stop
    ensures { IsRefusal kind refusal.now result }
{
    match refusal_line(alloc, kind, refusal) {
        Ok(line) => Stop::Refused { kind, line },
        Err(_) => Stop::NoMemory,
    }
}

/// A file to put: its name and its bytes.
#[derive(Drop)]
pub struct Put {
    pub name: Text,
    pub bytes: Seq<u8>,
}

/// A command that was carried out: its exit status, its text, and the file that is put behind it, if there is one.
#[derive(Drop)]
pub struct Reply {
    pub status: u8,
    pub text: Seq<u8>,
    pub file: Option<Put>,
}

impl Reply {
    /// The reply with this text and no file.
    pub fn of(status: u8, text: Seq<u8>) -> Reply
        ensures { result ≡ record { status = status; text = text; file = None } }
    {
        Reply {
            status,
            text,
            file: None,
        }
    }
}

/// The bytes of a text, which move.
pub fn bytes_of(text: Text) -> Seq<u8>
    ensures { result ≡ text }
{
    Seq::from_vec(text.into_string().into_bytes())
}
