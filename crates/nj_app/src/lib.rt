//! The top call: [`run_plain`] carries out one command line over a shelf of files, a sink for its text and a sink for
//! its one line of refusal, and answers the exit status; [`run`] does so with as many workers as the words ask for.
//! What they answer is a function of the words and the files, `answer` in specs/Answer, in which no worker occurs.
//!
//! The main idea: a command's work is a term over the files (`Work` of nj_tasks), a table gives each command its work,
//! and the answer is that of the work over the files that are there. The commands that search stand here (`search`,
//! `resume`, `workload`, and `check`, which counts what a search needs), the others in nj_commands. Read specs/Answer
//! first.
#![tactic(auto)]

mod check;
mod laws;
mod outcomes;
mod planning;
mod running;
mod search;
mod sharing;
mod workload;

pub use laws::{won_text_replays, workers_change_no_answer};
pub use nj_outside::{Gate, OpenGate, Shelf, Sink};
pub use nj_search::resumed_is_unbroken;
pub use nj_steps::Steps;
pub use nj_texts::won_text_is_a_movie;
pub use nj_words::asks_workers;
pub use running::run_plain;
pub use sharing::{COUNTERS, run};
