ghost use Rattle.std.specs.Prelude.{◌≡◌, ℕ, ◌<◌, ◌≤◌, List, Option, length, take, IfOk, OnOk, OnErr};
ghost use Rattle.std.specs.Result.{result_ok};
ghost use Rattle.nj_outside.specs.Rise.{Rose};
ghost use Rattle.nj_outside.specs.Told.{appended};

use crate::shelves::Failed;

/// A stream that bytes are written to.
pub trait Sink {
    /// The bytes written, where the sink tells them.
    ghost written: { Self → Option (List ℕ) };

    /// How many writes failed. It never falls.
    ghost faults: { Self → ℕ };

    /// What a write does: the sink before, the piece, how many of its bytes were taken (none where the write failed),
    /// and the sink after.
    ghost wrote: { Self → List ℕ → Option ℕ → Self → Type 0 };

    /// Appends bytes from the front of the piece, of a nonempty one at least one, and answers how many.
    fn write(&mut self, bytes: &[u8]) -> Result<usize, Failed>
        ensures within { IfOk result (λ n. n ≤ length bytes.now) }
        ensures some { IfOk result (λ n. 0 < length bytes.now → 0 < n) }
        ensures appends { IfOk result (λ n. written self.new ≡ appended (written self.old) (take n bytes.now)) }
        ensures unchanged { OnErr result (written self.new ≡ written self.old) }
        ensures wrote { wrote self.old bytes.now (result_ok result) self.new }
        ensures failed { OnErr result (Rose (faults self.old) (faults self.new)) }
        ensures no_fault { OnOk result (faults self.new ≡ faults self.old) }
        ensures never_falls { faults self.old ≤ faults self.new };
}
