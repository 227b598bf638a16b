//! Laws of candidates, each the contract of a function that does nothing.

ghost use Rattle.std.specs.Prelude.{◌≡◌, ◌≤◌, ℕ, length};
ghost use Rattle.nj_search_defs.specs.Game.{Word, Game};
ghost use Rattle.nj_ines.specs.Cartridge.{IsCartridge};
ghost use Rattle.nj_machine.specs.State.{ram_of};
ghost use Rattle.nj_machine.specs.Image.{of_image, IsImage};
ghost use Rattle.nj_rules.specs.Pads.{allowed_pads};
ghost use Rattle.nj_game.specs.Plan.{Plan};
ghost use Rattle.nj_game.specs.Words.{state_of, status_of, judged_of, game_of};
ghost use Rattle.nj_candidate.specs.Rows.{row_of, row_at};
ghost use Rattle.nj_candidate.specs.Front.{rom_in, size_in, image_at};

use nj_game::{a_word_goes_on, a_word_keeps_the_cartridge};
use nj_machine::an_image_tells_its_state;

/// The image of a word's state is one of its cartridge, and the state is made again from it.
pub fn an_image_stands_for_its_word()
    ensures is_image { (plan : Plan) (word : Word) → IsCartridge plan.cartridge
        → IsImage (rom_in plan) (image_at plan word) }
    ensures state { (plan : Plan) (word : Word) → IsCartridge plan.cartridge
        → of_image (rom_in plan) (image_at plan word) ≡ state_of plan word }
    ensures len { (plan : Plan) (word : Word) → IsCartridge plan.cartridge
        → length (image_at plan word) ≡ size_in plan }
    ensures few { (plan : Plan) → size_in plan ≤ 12672 }
{
    a_word_keeps_the_cartridge();
    an_image_tells_its_state();
}

/// The row of a candidate is that of its parent's state and status, and the pads that are allowed after a word are
/// those that its memory allows.
pub fn a_candidate_is_told_by_its_parent()
    ensures row { (plan : Plan) (word : Word) (pad number : ℕ)
        → row_at plan.script (status_of plan word) (state_of plan word) pad number
        ≡ row_of (game_of plan) (record { number = number; parent = word; pad = pad }) }
    ensures status { (plan : Plan) (word : Word) → (let j = judged_of plan word in j.status.0) ≡ status_of plan word }
    ensures allowed { (plan : Plan) (word : Word)
        → (let g : Game = game_of plan in g.allowed word)
        ≡ allowed_pads plan.script.inputs.sets (ram_of (state_of plan word)) }
{
    a_word_goes_on();
}
