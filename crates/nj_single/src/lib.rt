//! One step of a search by one thread. The words of the front are taken one after another, so that the rows of the live
//! candidates come by rising number, and the search ends its step by them. First the contract of [`next_single`]: its
//! words are those of nj_expand's `IsStep`.
#![tactic(auto)]

mod step;

pub use nj_expand::{Row, Search, Stepped};
pub use nj_steps::Steps;
pub use step::next_single;
