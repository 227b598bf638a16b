//! The whole machine: processor, picture, board and ports, from power-on, one frame for each pad, or one unit of the
//! processor after another. A frame ends with the unit that runs the picture's dot (241,1), or with a jam. The
//! machine's state is a record of lists and numbers, whatever the picture does with its dots; an access is a function
//! on it, a unit a fold over accesses, a frame a fold over units, a movie a fold over frames, and a state's image is
//! one list of bytes from which the state is made again. Read specs/State first, then specs/Wires (one cycle) and
//! specs/Frame.
//!
//! Games spend most of a frame waiting: `JMP` to itself, `LDA flag / BEQ`, or polls of $2002, until the NMI comes or a
//! flag rises. One turn of such a loop writes nothing, and brings the processor back to where it was, every register
//! and the last byte on the data bus alike. So the next turn does the same, and so on until something from outside
//! happens: the picture's next event, at which the vertical blank flag changes, or, for a poll, a dot that may raise
//! the hit flag or the overflow flag. After a jump back that finds the processor as the jump before left it, `frame`
//! tries one turn beside the machine, on a bus that has memory alone, and perhaps the status that the picture knows to
//! stay (nj_turns). Where the turn comes back, the picture runs the dots of as many turns as end before that, and no
//! turn is run: nothing else would have changed. An even number of turns is taken, so the parity of cycles stays too.
//! Where the turn does anything else, that loop is left alone for the rest of the frame. None of this shows: a frame is
//! the same state and the same end (specs/Frame), and the plain machine, which runs each turn, has the same contract.
#![tactic(auto)]

mod cells;
mod frames;
mod images;
mod laws;
mod seeing;
mod waiting;

pub use frames::Console;
pub use laws::{
    a_jam_stays, an_image_tells_its_state, frame_is_first, frames_are_units,
    frames_keep_the_cartridge,
};
use nj_catchup::CatchUp;
pub use nj_cpu::{Cpu, Flags, Note};
pub use nj_dots::Picture;
pub use nj_ines::Cart;
pub use nj_pad::Pad;
use nj_ppu::DotPicture;
pub use nj_steps::Steps;
pub use seeing::{UnitKind, UnitSeen, UnitStep};
pub use waiting::Waiting;

/// The machine, over the picture that lets dots stay pending until something asks what they did.
pub type Machine = Console<CatchUp>;

/// The machine over the picture that runs each dot as it comes: the same calls with the same contracts, slower.
pub type PlainMachine = Console<DotPicture>;

/// How a frame ended: with the unit that ran the picture's dot (241,1), or with a jammed processor.
#[derive(Clone, Copy, Debug, PartialEq, Eq)]
pub enum FrameEnd {
    Picture,
    Jammed,
}
