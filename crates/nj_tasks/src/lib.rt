//! What a command is, and how each is carried out and told: a [`Task`] is what it reads, a [`Source`] of files each of
//! some [`Format`], and what it does then, a [`Job`]; [`serve`] carries out any task, and [`tell`] writes what it came
//! to. No command stands here, and no machine: only what commands have in common.
//!
//! The main idea: what a command does is a term ([`Work`](specs/Work)), which reads files one after another and ends in
//! a refusal or in what the command finds in what was read (`Finding`). So one reader serves all kinds of file, one
//! function all commands, and one the end of each call. Read specs/Work first.
#![tactic(auto)]

mod files;
mod formats;
mod jobs;
mod stops;
mod telling;

pub use files::{Bounds, File, Format, Made, Source, named};
pub use formats::{
    CART, CartFormat, Hashed, MOVIE, MovieFormat, SAVED, SCRIPT, SOURCE, SavedFormat, ScriptFormat,
    SourceFormat,
};
pub use jobs::{Job, Task, reply_of, serve};
pub use stops::{Put, Reply, Stop, bytes_of, refused};
pub use telling::tell;
