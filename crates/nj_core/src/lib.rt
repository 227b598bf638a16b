//! The interleaving machine: workers that take pieces from one another's lists and claim keys, one event at
//! a time, and the law that every order of its events ends as one thread would.
#![tactic(auto)]

mod claim;
mod event;
mod laws;
mod machine;
mod worker;

pub use claim::{Claim, Hand};
pub use event::{Applied, Event};
pub use laws::{
    a_claim_takes_the_lesser, any_order_is_one_thread, by_number_is_rising, least_is_the_least,
    owned_claims_are_first, owned_is_first,
};
pub use machine::Core;
