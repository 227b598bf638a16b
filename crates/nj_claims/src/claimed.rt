/// The answer of a claim.
#[derive(Clone, Copy, Debug, PartialEq, Eq)]
pub enum Claimed {
    /// The key has this owner, which is below the number.
    Before(u64),
    /// No smaller owner was met: the number is the key's owner now.
    Least,
    /// Every slot held another key, and nothing was claimed.
    Full,
}
