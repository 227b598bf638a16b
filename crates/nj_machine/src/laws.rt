//! Laws of frames and images, each the contract of a function that does nothing.

ghost use Rattle.std.specs.Prelude.{◌≡◌, ◌<◌, ℕ, List, true, length, Some, None};
ghost use Rattle.nj_ines.specs.Cartridge.{Cartridge, IsCartridge};
ghost use Rattle.nj_machine.specs.State.{State, memory_of, power_on, rom_in, rom_of, is_jammed};
ghost use Rattle.nj_machine.specs.Frame.{dots_left, unit_step, frame, frames, play, IsReady, IsFirstEnd};
ghost use Rattle.nj_machine.specs.Image.{image_len, image_of, of_image, IsImage};

use crate::FrameEnd;

/// A frame ends with the first unit that ends it: from each state between two frames there is a number of units before
/// which no unit ends the frame, and the unit after them ends it with the frame's state and end.
pub fn frame_is_first()
    ensures { (s : State) (pad : ℕ) → IsReady s → (n : ℕ) × IsFirstEnd s pad n (frame s pad) }
{}

/// A frame is its units one after another: a unit that ends the frame leaves the frame's state and end, and after one
/// that does not the frame is still the one that it was in, with fewer dots left to its end.
pub fn frames_are_units()
    ensures ends { (s t : State) (pad : ℕ) (end : FrameEnd) → IsReady s → unit_step pad s ≡ (t, Some end)
        → frame s pad ≡ (t, end) }
    ensures goes_on { (s t : State) (pad : ℕ) → IsReady s → unit_step pad s ≡ (t, None) → frame s pad ≡ frame t pad }
    ensures nearer { (s t : State) (pad : ℕ) → IsReady s → unit_step pad s ≡ (t, None) → dots_left t < dots_left s }
    ensures ready { (s t : State) (pad : ℕ) → IsReady s → unit_step pad s ≡ (t, None) → IsReady t }
{}

/// A frame of a jammed machine changes nothing.
pub fn a_jam_stays()
    ensures { (s : State) (pad : ℕ) → IsReady s → is_jammed s ≡ true → frame s pad ≡ (s, FrameEnd.Jammed) }
{}

/// A frame keeps what the cartridge fixes and what a state between two units keeps; so does a movie, from power-on.
pub fn frames_keep_the_cartridge()
    ensures begun { (cart : Cartridge) → IsCartridge cart → IsReady (power_on cart) }
    ensures cartridge { (cart : Cartridge) → rom_of (power_on cart) ≡ rom_in (memory_of cart) cart.vertical }
    ensures ready { (s : State) (pad : ℕ) → IsReady s → IsReady (frame s pad).0 }
    ensures kept { (s : State) (pad : ℕ) → IsReady s → rom_of (frame s pad).0 ≡ rom_of s }
    ensures played { (cart : Cartridge) (movie : List ℕ) → IsCartridge cart → IsReady (play cart movie) }
    ensures played_kept { (cart : Cartridge) (movie : List ℕ) → IsCartridge cart
        → rom_of (play cart movie) ≡ rom_of (power_on cart) }
{}

/// An image is that of one state of its cartridge: the state is made again from it, two states of one cartridge with
/// one image are one, and a state that was made again goes on as the one that was saved.
pub fn an_image_tells_its_state()
    ensures again { (s : State) → IsReady s → of_image (rom_of s) (image_of s) ≡ s }
    ensures one { (s t : State) → IsReady s → IsReady t → rom_of s ≡ rom_of t → image_of s ≡ image_of t → s ≡ t }
    ensures saved { (s : State) → IsReady s → IsImage (rom_of s) (image_of s) }
    ensures len { (s : State) → IsReady s → length (image_of s) ≡ image_len (rom_of s) }
    ensures onward { (s : State) (pads : List ℕ) → IsReady s
        → frames (of_image (rom_of s) (image_of s)) pads ≡ frames s pads }
{}
