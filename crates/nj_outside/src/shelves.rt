ghost use Rattle.std.specs.Prelude.{◌≡◌, ℕ, ◌+◌, ◌-◌, ◌<◌, ◌≤◌, ◌⊎◌, List, Option, Some, None, length, take, drop, IfOk, OnOk, OnErr, IsErr};
ghost use Rattle.nj_bytes.specs.Fnv.{fnv_of};
ghost use Rattle.nj_outside.specs.Rise.{Rose};
ghost use Rattle.nj_outside.specs.Told.{Files, bytes_at, put_file_from};

/// A call of the outside that failed.
#[derive(Clone, Copy)]
pub struct Failed;

/// Files by name, read and put piece by piece.
///
/// Reads have a count of faults, which never falls, and the hash of the name of the last one that
/// failed; puts have the same two of their own. No read changes what is known of puts, and no put what
/// is known of reads.
pub trait Shelf {
    /// The files, where the shelf tells them.
    ghost content: { Self → Option Files };

    ghost read_faults: { Self → ℕ };

    ghost failed_read: { Self → ℕ };

    ghost put_faults: { Self → ℕ };

    ghost failed_put: { Self → ℕ };

    /// Puts bytes of the file from place `at` on to the front of `into`, and answers how many. Of a
    /// nonempty `into` it answers 0 only at the file's end. A name that is not there is a fault.
    fn read_at(&mut self, name: &str, at: u64, into: &mut [u8]) -> Result<usize, Failed>
        ensures within { IfOk result (λ n. n ≤ length into.new) }
        ensures content { content self.new ≡ content self.old }
        ensures bytes { (files : Files) → content self.old ≡ Some files → (file : List ℕ) → files name.now ≡ Some file
            → IfOk result (λ n. (n ≤ length file - at) × (take n into.new ≡ take n (drop at file))) }
        ensures end { (files : Files) → content self.old ≡ Some files → (file : List ℕ) → files name.now ≡ Some file
            → IfOk result (λ n. n ≡ 0 → 0 < length into.new → length file ≤ at) }
        ensures missing { (files : Files) → content self.old ≡ Some files → files name.now ≡ None → IsErr result }
        ensures failed { OnErr result (Rose (read_faults self.old) (read_faults self.new)) }
        ensures failed_name { OnErr result (failed_read self.new ≡ fnv_of name.now) }
        ensures not_failed { OnOk result (failed_read self.new ≡ failed_read self.old) }
        ensures no_fault { OnOk result (read_faults self.new ≡ read_faults self.old) }
        ensures never_falls { read_faults self.old ≤ read_faults self.new }
        ensures put_faults { put_faults self.new ≡ put_faults self.old }
        ensures failed_put { failed_put self.new ≡ failed_put self.old };

    /// Makes the file its first `at` bytes and then the bytes taken from the front of `bytes`, and
    /// answers how many were taken, of a nonempty piece at least one. A file that is not there is
    /// made. `at` is 0 or the file's length.
    fn put_at(&mut self, name: &str, at: u64, bytes: &[u8]) -> Result<usize, Failed>
        requires { (files : Files) → content self.old ≡ Some files
            → (at ≡ 0) ⊎ (at ≡ length (bytes_at files name.now)) }
        ensures within { IfOk result (λ n. n ≤ length bytes.now) }
        ensures some { IfOk result (λ n. 0 < length bytes.now → 0 < n) }
        ensures put { IfOk result (λ n. content self.new
            ≡ put_file_from (content self.old) name.now at (take n bytes.now)) }
        ensures unchanged { OnErr result (content self.new ≡ content self.old) }
        ensures failed { OnErr result (Rose (put_faults self.old) (put_faults self.new)) }
        ensures failed_name { OnErr result (failed_put self.new ≡ fnv_of name.now) }
        ensures not_failed { OnOk result (failed_put self.new ≡ failed_put self.old) }
        ensures no_fault { OnOk result (put_faults self.new ≡ put_faults self.old) }
        ensures never_falls { put_faults self.old ≤ put_faults self.new }
        ensures read_faults { read_faults self.new ≡ read_faults self.old }
        ensures failed_read { failed_read self.new ≡ failed_read self.old };
}
