//! What bytes say by themselves: FNV-1a of 64 bits, whole ([`fnv`]) and going on from a hash ([`fnv_on`]), and the
//! number that a text is ([`read_decimal`]). Each answer is the value of its definition, `specs/Fnv.antt` and
//! `specs/Decimal.antt`; read the first before the crates that speak of keys and names by their hashes.
#![tactic(auto)]

mod decimals;
mod hashing;

pub use decimals::read_decimal;
pub use hashing::{fnv, fnv_on};
