use std::alloc::{AllocError, AllocFailed};
use thiserror::Error;

/// Why a file is no saved search of this cartridge and script. Places are counted in bytes from 0. The tests go by the
/// order of the fields, as the list `tests_of` in specs/Reading says. The sentences leave the fields' numbers out.
#[derive(Clone, Copy, Debug, PartialEq, Eq, Error)]
pub enum SavedRefused {
    /// One of the first four bytes that are there differs from the format's name.
    #[error("this is no saved search")]
    NotSaved,
    /// The version is neither 1 nor 2.
    #[error("the version is not known")]
    Version { n: u64 },
    /// The number of the cartridge file is another.
    #[error("the file is of another cartridge")]
    OtherCartridge { kept: u64, now: u64 },
    /// The number of the script and the start is another.
    #[error("the file is of another script or another start")]
    OtherScript { kept: u64, now: u64 },
    /// The file ends inside a field, at this length.
    #[error("the file ends inside a field")]
    Short { at: u64 },
    /// The field at this place is out of its range.
    #[error("a field is out of its range")]
    Range { at: u64 },
    /// Bytes stand behind the last field, from this place on.
    #[error("bytes follow the last field")]
    Trailing { at: u64 },
    /// The hash at the file's end is not that of the bytes before it.
    #[error("the bytes have another hash")]
    Damaged { kept: u64, now: u64 },
    /// Memory ran out.
    #[error("no memory")]
    NoMemory,
}

impl From<AllocError> for SavedRefused {
    ghost use Rattle.std.specs.Prelude.{◌≡◌};
    ghost use Rattle.nj_saved.specs.declared.refusal.SavedRefused.TheVariants.{NoMemory};

    ghost from_gives = { λ _ refused. refused ≡ NoMemory };

    fn from(_error: AllocError) -> Self {
        SavedRefused::NoMemory
    }
}

impl<T: Drop> From<AllocFailed<T>> for SavedRefused {
    ghost use Rattle.std.specs.Prelude.{◌≡◌};
    ghost use Rattle.nj_saved.specs.declared.refusal.SavedRefused.TheVariants.{NoMemory};

    ghost from_gives = { λ _ refused. refused ≡ NoMemory };

    fn from(_error: AllocFailed<T>) -> Self {
        SavedRefused::NoMemory
    }
}
