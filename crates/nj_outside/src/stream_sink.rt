ghost use Rattle.std.specs.Prelude.{◌≡◌, ◌≤◌, ◌<◌, None, length, IfOk, OnOk, OnErr, is_err, if◌then◌else◌};
ghost use Rattle.nj_outside.specs.Rise.{Rose, one_more};

use crate::file_shelf::write_some;
use crate::shelves::Failed;
use crate::sinks::Sink;
use std::io;
use std::io::Write;
use std::marker::Model;

/// A stream of the system, as standard output. It tells none of its bytes.
#[derive(Drop)]
pub struct StreamSink<W: Write + Drop> {
    stream: W,
    faults: u64,
}

impl<W: Write + Drop> Model for StreamSink<W> {
    ghost use Rattle.std.specs.Prelude.{ℕ};

    ghost Value = { ℕ };

    ghost view = { λ s. s.faults };
}

impl<W: Write + Drop> StreamSink<W> {
    /// A sink that writes to a stream, with no fault counted so far.
    pub fn new(stream: W) -> StreamSink<W>
        ensures { result ≡ 0 }
    {
        StreamSink { stream, faults: 0 }
    }

    /// How many writes failed, at most 2^64 - 1.
    pub fn faults(&self) -> u64
        ensures { result ≡ self.now }
    {
        self.faults
    }
}

impl<W: Write + Drop> Sink for StreamSink<W> {
    ghost written = { λ _. None };

    ghost faults = { λ s. s };

    ghost wrote = { λ _ _ _ _. Unit {0} };

    fn write(&mut self, bytes: &[u8]) -> Result<usize, Failed>
        ensures within { IfOk result (λ n. n ≤ length bytes.now) }
        ensures some { IfOk result (λ n. 0 < length bytes.now → 0 < n) }
        ensures failed { OnErr result (Rose self.old self.new) }
        ensures no_fault { OnOk result (self.new ≡ self.old) }
        ensures never_falls { self.old ≤ self.new }
        ensures counted { self.new ≡ (if is_err result then one_more self.old else self.old) }
    {
        match write_through(&mut self.stream, bytes) {
            Ok(count) => Ok(count),
            Err(_) => {
                self.faults = self.faults.saturating_add(1);
                Err(Failed)
            }
        }
    }
}

/// One write, with what the stream holds back sent on, so that its failure is seen in this call.
fn write_through<W: Write>(stream: &mut W, bytes: &[u8]) -> io::Result<usize>
    ensures within { IfOk result (λ n. n ≤ length bytes.now) }
    ensures some { IfOk result (λ n. 0 < length bytes.now → 0 < n) }
{
    let count = write_some(stream, bytes)?;
    stream.flush()?;
    Ok(count)
}
