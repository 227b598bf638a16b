ghost use Rattle.std.specs.Prelude.{◌≡◌, ℕ, ◌<◌, ◌≤◌, ◌⊎◌, List, Some, length, vec_len, IfOk, OnOk, OnErr, IsErrOf, IsOkUnless};
ghost use Rattle.nj_bytes.specs.Fnv.{fnv_of};
ghost use Rattle.nj_outside.specs.Rise.{Rose};
ghost use Rattle.nj_outside.specs.Told.{Files};

use crate::shelves::Shelf;
use std::alloc::{AllocError, Global};

/// Why a file was not read whole.
#[derive(Clone, Copy)]
pub enum ReadRefused {
    /// The shelf had a fault, as where there is no such file.
    ReadFault,
    /// The file has more bytes than the limit.
    TooLong { limit: u64 },
    NoMemory,
}

impl From<AllocError> for ReadRefused {
    ghost use Rattle.nj_outside.specs.declared.reading.ReadRefused.TheVariants.{NoMemory};

    ghost from_gives = { λ _ e. e ≡ NoMemory };

    fn from(_error: AllocError) -> ReadRefused {
        ReadRefused::NoMemory
    }
}

/// The most bytes of one read.
const PIECE: usize = 16_384;

/// The whole content of the file, if it has no more bytes than the limit.
pub fn read_all<S: Shelf>(
    alloc: Global,
    shelf: &mut S,
    name: &str,
    limit: u64,
) -> Result<Vec<u8>, ReadRefused>
    ensures whole { (files : Files) → S.content shelf.old ≡ Some files
        → IfOk result (λ bytes. files name.now ≡ Some bytes.items) }
    ensures within { IfOk result (λ bytes. vec_len bytes ≤ limit) }
    ensures too_long { (files : Files) → S.content shelf.old ≡ Some files → (n : ℕ)
        → IsErrOf result (ReadRefused.TooLong n)
        → (file : List ℕ) × (files name.now ≡ Some file) × (limit < length file) }
    ensures too_long_limit { (n : ℕ) → IsErrOf result (ReadRefused.TooLong n) → n ≡ limit }
    ensures fault { IsErrOf result ReadRefused.ReadFault → Rose (S.read_faults shelf.old) (S.read_faults shelf.new) }
    ensures fault_name { IsErrOf result ReadRefused.ReadFault → S.failed_read shelf.new ≡ fnv_of name.now }

    // Where no read failed, memory aside, a file that fits is read and a longer one is refused as such.
    ensures fits { (files : Files) → S.content shelf.old ≡ Some files → (file : List ℕ) → files name.now ≡ Some file
        → length file ≤ limit
        → (Rose (S.read_faults shelf.old) (S.read_faults shelf.new) → ⊥) → IsOkUnless result ReadRefused.NoMemory }
    ensures long { (files : Files) → S.content shelf.old ≡ Some files → (file : List ℕ) → files name.now ≡ Some file
        → limit < length file
        → (Rose (S.read_faults shelf.old) (S.read_faults shelf.new) → ⊥)
        → IsErrOf result (ReadRefused.TooLong limit) ⊎ IsErrOf result ReadRefused.NoMemory }

    // no fault is passed over
    ensures no_fault { (IsErrOf result ReadRefused.ReadFault → ⊥) → S.read_faults shelf.new ≡ S.read_faults shelf.old }

    ensures content { S.content shelf.new ≡ S.content shelf.old }
    ensures never_falls { S.read_faults shelf.old ≤ S.read_faults shelf.new }
    ensures put_faults { S.put_faults shelf.new ≡ S.put_faults shelf.old }
    ensures failed_put { S.failed_put shelf.new ≡ S.failed_put shelf.old }
{
    let mut bytes = Vec::new(alloc);
    let mut piece = [0u8; PIECE];
    while bytes.len() as u64 <= limit {
        let count = match shelf.read_at(name, bytes.len() as u64, &mut piece) {
            Ok(count) => count,
            Err(_) => return Err(ReadRefused::ReadFault),
        };
        if count == 0 {
            return Ok(bytes);
        }
        bytes.extend_from_slice(&piece[..count])?;
    }
    Err(ReadRefused::TooLong { limit })
}
