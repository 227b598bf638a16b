ghost use Rattle.std.specs.Prelude.{◌≡◌, ◌↔◌, ℕ, ◌+◌, ◌<◌, ◌≤◌, ◌⊎◌, IsTrue, [], Option, Some, length, min, take, is_err, if◌then◌else◌, IfOk, OnOk, OnErr, IsErr, Contains};
ghost use Rattle.std.specs.Result.{result_ok};
ghost use Rattle.nj_outside.specs.Rise.{Rose, one_more};
ghost use Rattle.nj_outside.specs.Told.{appended};
ghost use Rattle.nj_memory.specs.Memory.{MemorySink, IsMemoryWrite};

use nj_outside::{Failed, Sink};
use std::alloc::Global;
use std::marker::Model;

/// A sink over memory. It tells its bytes, and its calls, numbered from 1, fail where they are told to.
#[derive(Drop)]
pub struct MemSink {
    bytes: Vec<u8>,
    failing: Vec<u64>,
    most: usize,
    calls: u64,
    faults: u64,
    dry: u64,
}

impl Model for MemSink {
    ghost use Rattle.std.specs.Prelude.{◌≤◌};
    ghost use Rattle.nj_memory.specs.Memory.{MemorySink};

    ghost Value = { MemorySink };

    ghost view = { λ s. record {
      written = s.bytes.items;
      failing = s.failing.items;
      most = s.most;
      calls = s.calls;
      faults = s.faults;
      dry = s.dry;
    } };

    ghost invariant = { λ s. 1 ≤ s.most };
}

impl MemSink {
    /// A sink without bytes. The calls of the numbers in `failing` fail; every other moves at most
    /// `most` bytes.
    pub fn new(alloc: Global, failing: Vec<u64>, most: usize) -> MemSink
        requires { 1 ≤ most }
        ensures { result ≡ record {
          written = [];
          failing = failing.items;
          most = most;
          calls = 0;
          faults = 0;
          dry = 0;
        } }
    {
        MemSink {
            bytes: Vec::new(alloc),
            failing,
            most,
            calls: 0,
            faults: 0,
            dry: 0,
        }
    }

    /// All that was written.
    pub fn bytes(&self) -> &[u8]
        ensures { result.now ≡ self.now.written }
    {
        self.bytes.as_slice()
    }

    /// How many writes there were, at most 2^64 - 1.
    pub fn calls(&self) -> u64
        ensures { result ≡ self.now.calls }
    {
        self.calls
    }

    /// How many writes failed, at most 2^64 - 1.
    pub fn faults(&self) -> u64
        ensures { result ≡ self.now.faults }
    {
        self.faults
    }

    /// How many growths found no memory, at most 2^64 - 1.
    pub fn dry(&self) -> u64
        ensures { result ≡ self.now.dry }
    {
        self.dry
    }
}

impl Sink for MemSink {
    ghost written = { λ s. Some s.written };

    ghost faults = { λ s. s.faults };

    ghost wrote = { IsMemoryWrite };

    fn write(&mut self, bytes: &[u8]) -> Result<usize, Failed>
        ensures within { IfOk result (λ n. n ≤ length bytes.now) }
        ensures some { IfOk result (λ n. 0 < length bytes.now → 0 < n) }
        ensures appends { IfOk result (λ n. Some self.new.written
            ≡ appended (Some self.old.written) (take n bytes.now)) }
        ensures unchanged { OnErr result (Some self.new.written ≡ Some self.old.written) }
        ensures wrote { IsMemoryWrite self.old bytes.now (result_ok result) self.new }
        ensures failed { OnErr result (Rose self.old.faults self.new.faults) }
        ensures no_fault { OnOk result (self.new.faults ≡ self.old.faults) }
        ensures never_falls { self.old.faults ≤ self.new.faults }

        ensures moved { IfOk result (λ n. n ≡ min self.old.most (length bytes.now)) }
        ensures fails { Contains self.old.failing (self.old.calls + 1) ⊎ (self.old.dry < self.new.dry) → IsErr result }
        ensures fails_only { IsErr result → Contains self.old.failing (self.old.calls + 1)
            ⊎ Rose self.old.dry self.new.dry }
        ensures counted { self.new ≡ record self.old {
          written = self.new.written;
          calls = one_more self.old.calls;
          faults = if is_err result then one_more self.old.faults else self.old.faults;
          dry = self.new.dry;
        } }
    {
        let fails = fails_next(self.failing.as_slice(), self.calls);
        self.calls = self.calls.saturating_add(1);
        if fails {
            self.faults = self.faults.saturating_add(1);
            return Err(Failed);
        }
        let count = self.most.min(bytes.len());
        if self.bytes.extend_from_slice(&bytes[..count]).is_err() {
            self.dry = self.dry.saturating_add(1);
            self.faults = self.faults.saturating_add(1);
            return Err(Failed);
        }
        Ok(count)
    }
}

/// Whether the call after so many is one of those that fail. After 2^64 - 1 calls none is, since no
/// `u64` is its number.
pub(crate) fn fails_next(failing: &[u64], calls: u64) -> bool
    ensures { IsTrue result ↔ Contains failing.now (calls + 1) }
{
    match calls.checked_add(1) {
        Some(number) => failing.contains(&number),
        None => false,
    }
}
