//! What a movie does, read unit by unit and frame by frame: `trace` prints each unit of one frame, with the place of
//! the picture and the registers before it, and `watch` the values of a script's properties after each frame. Units
//! are those of the machine's `unit_step`, and an instruction is printed as its line in a listing. Read `unit_line`
//! and `trace_of` (specs/Trace.antt) and `watch_text` (specs/Watch.antt) first.
#![tactic(auto)]

mod laws;
mod tracing;
mod units;
mod watching;

pub use laws::a_frame_has_its_units;
pub use nj_machine::Cart;
pub use nj_movie::Movie;
pub use nj_script::Script;
pub use nj_steps::Steps;
pub use tracing::{TraceRefused, trace};
pub use watching::watch;
