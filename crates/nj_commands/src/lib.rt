//! The commands that need no search, a file each: `play`, `replay`, `asm`, `clean`, `trace` and `watch`. Each is a task
//! of nj_tasks: what it reads, and what it does with that; [`carry_out`] serves the one that is asked for.
//!
//! The main idea: a command is its finding, a record that says what is found in what was read and what is told of it
//! (`play_finding`), and its work reads the files first (`play_work`). Read specs/Play first, and then the table
//! `work_without_search` in specs/Commands, which is the contract's word for all of them.
#![tactic(auto)]

mod asm;
mod clean;
mod commands;
mod play;
mod replay;
mod trace;
mod watch;

pub use commands::carry_out;
