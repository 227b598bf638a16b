//! Images of the machine, packed. A search keeps many states, and most of an image's pages of 64 bytes are those of the
//! image that the search started from, its base. A packing is a mask of the pages that differ and these pages, or the
//! whole image where all of them do.
//!
//! Read specs/Pages first, then `packing` of specs/Packing. An image has one packing over a base, and `unpack` takes
//! every byte string: it gives the image back, or tells how far the bytes are those of a packing.
#![tactic(auto)]

mod laws;
mod masks;
mod packing;

pub use laws::a_packing_tells_its_image;
pub use masks::page_mask;
pub use packing::{Damaged, pack, unpack};
