//! The outside: files by name ([`Shelf`]) and a stream of bytes ([`Sink`]) as traits, and one of each over the
//! system's files and streams, which tell nothing but their faults (those over memory, whose answers are exact, are
//! nj_memory's). Beside them whole readings and writings, and the gate ([`Gate`]) that workers pass. Of the definitions
//! read `specs/Told.antt` first.
//!
//! A shelf or sink may tell what it has. What is said of bytes holds where they are told; what is said
//! of faults holds always: a call fails exactly where its object's count of faults rose in that call, or
//! stands at its end.
#![tactic(auto)]

mod file_shelf;
mod gates;
mod reading;
mod shelves;
mod sinks;
mod stream_sink;
mod writing;

pub use file_shelf::FileShelf;
pub use gates::{Gate, OpenGate};
pub use nj_bytes::{fnv, fnv_on, read_decimal};
pub use reading::{ReadRefused, read_all};
pub use shelves::{Failed, Shelf};
pub use sinks::Sink;
pub use stream_sink::StreamSink;
pub use writing::{WriteFault, put_all, write_all};
