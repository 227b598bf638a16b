//! The saved file of a search: the words of its front, its seen keys by generation, and its mark, with the numbers of
//! the cartridge and the script that they belong to. [`write_saved`] writes it, with a hash of its bytes at the end,
//! and [`read_saved`] reads it, with and without that hash, or tells the first thing in it that is refused. The idea:
//! every field has a place that the fields before it give, and two tests there, that the file does not end inside it
//! and that it is in its range; all tests in order are one list. Of the definitions read `tests_of` in specs/Reading
//! first, and then `file_bytes` in specs/Bytes.
#![tactic(auto)]

mod fields;
mod generations;
mod head;
mod laws;
mod older;
mod reading;
mod refusal;
mod saved;
mod tail;
mod writing;

pub use laws::{
    a_changed_byte_is_refused, a_file_says_its_search, generations_come_once,
    what_was_written_is_read,
};
pub use nj_seq::Seq;
pub use reading::read_saved;
pub use refusal::SavedRefused;
pub use saved::Saved;
pub use writing::write_saved;
