use nj_seq::Seq;

/// A claim of a key: the key is owned by the least number that claims it.
#[derive(Clone, Copy, Debug, PartialEq, Eq)]
pub struct Claim {
    pub key: u64,
    pub number: u64,
}

/// A piece in a worker's hand.
#[derive(Debug, Drop)]
pub struct Hand {
    pub piece: Seq<Claim>,
    /// The place of the next claim in the piece, counted from 0.
    pub place: usize,
}
