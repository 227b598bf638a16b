//! The states of a front: their images packed over one base, in one buffer, and their words by a trail of
//! parents. The pool counts what its states need, and its type keeps that within a limit.
//!
//! The definition to read first is `Front` in `specs/Front.antt`.
#![tactic(auto)]

mod birth;
mod laws;
mod pool;
mod refused;
mod strings;
mod trail;

pub use birth::Birth;
pub use laws::a_need_is_bounded;
pub use nj_pad::Pad;
pub use pool::FrontPool;
pub use refused::PushRefused;
