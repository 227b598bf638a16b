//! The law of a frame's units, the contract of a function that does nothing.

ghost use Rattle.std.specs.Prelude.{◌≡◌, ◌+◌, ℕ, false, map};
ghost use Rattle.std.specs.List.{range_with_len};
ghost use Rattle.nj_machine.specs.State.{State, is_jammed};
ghost use Rattle.nj_machine.specs.Frame.{frame, units, IsReady, IsFirstEnd};
ghost use Rattle.nj_machine.specs.Seen.{seen_of};
ghost use Rattle.nj_trace.specs.Units.{frame_units};

use nj_machine::{frame_is_first, frames_are_units};

/// The units of a frame of a machine that is not jammed are all up to the first that ends the frame, that one among
/// them: the last of them is the one that jams, or else the one that runs the picture's dot (241,1).
pub fn a_frame_has_its_units()
    ensures { (s : State) (pad : ℕ) → IsReady s → is_jammed s ≡ false → (n : ℕ) × IsFirstEnd s pad n (frame s pad)
        × (frame_units pad s ≡ map (λ k. seen_of pad (units pad k s)) (range_with_len 0 (n + 1))) }
{
    frame_is_first();
    frames_are_units();
}
