ghost use Rattle.std.specs.Prelude.{◌≡◌};
ghost use Rattle.nj_fields.specs.declared.refusal.ScriptRefused.TheVariants.{NoMemory};

use nj_seq::Text;
use std::alloc::{AllocError, AllocFailed};

/// Why a text is no script: the first refusal counts. A key is the member's own name, and a name is
/// as the text has it.
#[derive(Drop)]
pub enum ScriptRefused {
    /// The text is no JSON.
    NotJson,
    /// A required member is not there.
    Missing { key: Text },
    /// An object has a member that it may not have: the least by bytes.
    UnknownKey { key: Text },
    /// A member's value is of another kind; of the whole text the key is empty.
    WrongKind { key: Text },
    /// A number is out of the member's range.
    OutOfRange { key: Text, value: i64 },
    /// A name that stands for nothing: of a property, a rule, a kind, a comparison or a pad.
    UnknownName { name: Text },
    /// A property's or a rule's name stands a second time.
    TwiceNamed { name: Text },
    /// A list has more members than its limit.
    TooMany { key: Text, limit: u64 },
    /// The version is neither 1 nor 2.
    Version { n: i64 },
    /// Memory was short. It may come at any time.
    NoMemory,
}

impl From<AllocError> for ScriptRefused {
    ghost from_gives = { λ _ e. e ≡ NoMemory };

    fn from(_: AllocError) -> Self {
        ScriptRefused::NoMemory
    }
}

impl<T: Drop> From<AllocFailed<T>> for ScriptRefused {
    ghost from_gives = { λ _ e. e ≡ NoMemory };

    fn from(_: AllocFailed<T>) -> Self {
        ScriptRefused::NoMemory
    }
}
