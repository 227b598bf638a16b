/// How a state came from the front before.
#[derive(Clone, Copy, Debug, PartialEq, Eq)]
pub struct Birth {
    /// The place of its parent in the front before.
    pub parent: u32,
    /// The byte of the pad that its word adds to its parent's.
    pub pad: u8,
}
