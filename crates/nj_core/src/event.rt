/// What a worker does, by the workers' numbers, counted from 0.
#[derive(Clone, Copy, Debug, PartialEq, Eq)]
pub enum Event {
    /// Worker `w` takes the first piece of its own list.
    Pop { w: u32 },
    /// Worker `w` takes the first piece of the list of another worker, `v`.
    Steal { w: u32, v: u32 },
    /// Worker `w` makes the next claim of the piece in its hand.
    ClaimNext { w: u32 },
    /// Worker `w` finishes the piece in its hand, all of whose claims are made.
    Finish { w: u32 },
}

/// What became of an event.
#[derive(Clone, Copy, Debug, PartialEq, Eq)]
pub enum Applied {
    Done,
    /// The event is not enabled, and nothing changed.
    NotEnabled,
}
