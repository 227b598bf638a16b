ghost use Rattle.std.specs.Prelude.{◌≡◌};
ghost use Rattle.nj_words.specs.declared.refused.WordsRefused.TheVariants.{NoMemory};

use std::alloc::{AllocError, AllocFailed};

/// Why no command was read.
#[derive(Clone, Copy)]
pub enum WordsRefused {
    /// The words have no reading.
    Usage,
    /// Memory ran out, whatever the words are.
    NoMemory,
}

impl From<AllocError> for WordsRefused {
    ghost from_gives = { λ _ refused. refused ≡ NoMemory };

    fn from(_: AllocError) -> WordsRefused {
        WordsRefused::NoMemory
    }
}

impl<T: Drop> From<AllocFailed<T>> for WordsRefused {
    ghost from_gives = { λ _ refused. refused ≡ NoMemory };

    fn from(_: AllocFailed<T>) -> WordsRefused {
        WordsRefused::NoMemory
    }
}
