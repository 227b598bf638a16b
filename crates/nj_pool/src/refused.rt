use std::alloc::AllocError;

/// Why a pool does not take a state.
#[derive(Debug, PartialEq, Eq, Drop)]
pub enum PushRefused {
    /// The bytes that are held and the state's need exceed the limit.
    PoolFull { bytes: u64, limit: u64 },
    NoMemory,
}

impl From<AllocError> for PushRefused {
    ghost use Rattle.std.specs.Prelude.{◌≡◌};
    ghost use Rattle.nj_pool.specs.declared.refused.PushRefused.TheVariants.{NoMemory};

    ghost from_gives = { λ _ e. e ≡ NoMemory };

    fn from(_error: AllocError) -> PushRefused {
        PushRefused::NoMemory
    }
}
