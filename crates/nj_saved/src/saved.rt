use nj_seq::Seq;

/// A search between two steps.
#[derive(Drop)]
pub struct Saved {
    /// The hash of the cartridge file: FNV-1a of 64 bits.
    pub cart: u64,
    /// The hash of the script file followed by one byte for each pad of the start.
    pub script: u64,
    /// The steps made: 1 to 16,777,215.
    pub step: u32,
    /// The checkpoint level of the mark: 0 to 128.
    pub level: u32,
    /// The last step at which a lower level is live: 0 to 33,554,432.
    pub until: u32,
    /// The words of the front one behind the other, a byte for each pad, each word as long as the steps: 1 to 1,048,576
    /// words, at most 67,108,864 pads.
    pub words: Seq<u8>,
    /// The seen keys by generation, the oldest first, each rising: at most 33,554,432 keys.
    pub generations: Seq<Seq<u64>>,
}
