//! The picture's state and what dots and register accesses do to it: the timing of the NTSC 2C02, with nothing drawn.
//! Both pictures run this code; `Picture` is what the machine sees of either.
#![tactic(auto)]

mod dot;
mod image;
pub mod laws;
mod picture;
mod position;
mod registers;
mod screen;
mod scroll;

pub use dot::is_drawn_line;
pub use nj_sprite0::SpriteRow;
pub use nj_vram::Vram;
pub use picture::Picture;
pub use position::{BLANK_BEGINS, BLANK_ENDS, DOTS_OF_FRAME, DOTS_OF_LINE, Position};
pub use screen::{Screen, shows_both_layers, shows_left_columns};
pub use scroll::Scroll;
