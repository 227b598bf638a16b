//! What a word of the search means, by its replay from power-on: the movie, the machine's state, the satisfied rules,
//! the judgement, the allowed pads, the key and the bucket. So the game that a search plays (`game_of` of specs/Words)
//! is a matter of the cartridge, the script and the start movie alone, whatever a search keeps of its states. Read
//! `movie_of` (specs/Plan) and then `state_of` first. The functions here have laws of these words as their contracts,
//! and do nothing.
#![tactic(auto)]

ghost use Rattle.std.specs.Prelude.{◌≡◌, ◌↔◌, ◌+◌, ◌≤◌, ◌<◌, ◌++◌, ◌∷◌, [], ℕ, List, length, true};
ghost use Rattle.nj_search_defs.specs.Game.{Word};
ghost use Rattle.nj_ines.specs.Cartridge.{IsCartridge};
ghost use Rattle.nj_machine.specs.State.{State, power_on, ram_of, rom_of, is_jammed};
ghost use Rattle.nj_machine.specs.Frame.{frame, play, IsReady};
ghost use Rattle.nj_rules.specs.Rules.{status_after, is_in, judged_of as judged_in};
ghost use Rattle.nj_game.specs.Plan.{Plan, movie_of};
ghost use Rattle.nj_game.specs.Words.{state_of, status_of, judged_of, held};
ghost use Rattle.nj_game.specs.Laws.{IsMetAlong};

use nj_machine::{a_jam_stays, frames_keep_the_cartridge};
use nj_rules::naming_is_one_level_deep;

/// The movie of the empty word is the start movie; its frames are run from power-on, and the rules judge the state as
/// if none of them was satisfied before.
pub fn the_empty_word_is_the_start()
    ensures movie { (plan : Plan) → movie_of plan [] ≡ plan.start }
    ensures state { (plan : Plan) → state_of plan [] ≡ play plan.cartridge plan.start }
    ensures status { (plan : Plan) → status_of plan []
        ≡ status_after plan.script.rules.rules (ram_of (state_of plan [])) 0 }
    ensures judged { (plan : Plan) → judged_of plan []
        ≡ judged_in plan.script.rules.rules (ram_of (state_of plan [])) 0 (is_jammed (state_of plan [])) }
{}

/// One more pad of a word is held from the word's state on, and the rules judge the state at the end of the step, by
/// what was satisfied after the word.
pub fn a_word_goes_on()
    ensures frames { (plan : Plan) (word : Word) (pad : ℕ)
        → length (movie_of plan (word ++ pad ∷ [])) ≡ length (movie_of plan word) + plan.script.hold }
    ensures state { (plan : Plan) (word : Word) (pad : ℕ)
        → state_of plan (word ++ pad ∷ []) ≡ held plan.script.hold pad (state_of plan word) }
    ensures status { (plan : Plan) (word : Word) (pad : ℕ) → status_of plan (word ++ pad ∷ [])
        ≡ status_after plan.script.rules.rules (ram_of (state_of plan (word ++ pad ∷ []))) (status_of plan word) }
    ensures judged { (plan : Plan) (word : Word) (pad : ℕ) → let child = word ++ pad ∷ [] in
        judged_of plan child
        ≡ judged_in plan.script.rules.rules (ram_of (state_of plan child)) (status_of plan word)
        (is_jammed (state_of plan child)) }
{}

/// After a word the machine stands between two frames and has what the cartridge fixes.
pub fn a_word_keeps_the_cartridge()
    ensures ready { (plan : Plan) (word : Word) → IsCartridge plan.cartridge → IsReady (state_of plan word) }
    ensures cartridge { (plan : Plan) (word : Word) → IsCartridge plan.cartridge
        → rom_of (state_of plan word) ≡ rom_of (power_on plan.cartridge) }
{
    frames_keep_the_cartridge();
}

/// A pad that is held for one more frame.
pub fn one_more_frame_is_held()
    ensures { (n pad : ℕ) (s : State) → held (n + 1) pad s ≡ (frame (held n pad s) pad).0 }
{}

/// A jam inside a step ends it: the frames behind it change nothing.
pub fn a_jam_ends_its_step()
    ensures { (s : State) (pad i n : ℕ) → IsReady (held i pad s) → i ≤ n → is_jammed (held i pad s) ≡ true
        → held n pad s ≡ held i pad s }
{
    a_jam_stays();
}

/// A rule is satisfied after a word exactly where the memory at the end of the start, or of a step of the word, meets
/// its conditions or those of a rule that names it.
pub fn a_rule_is_satisfied_once_it_was_met()
    ensures { (plan : Plan) (word : Word) (k : ℕ) → k < 128
        → (is_in (status_of plan word) k ≡ true) ↔ IsMetAlong plan word k }
{
    naming_is_one_level_deep();
}

/// A rule that is satisfied after a word stays so, however the word goes on.
pub fn a_satisfied_rule_stays()
    ensures { (plan : Plan) (word more : Word) (k : ℕ) → k < 128 → is_in (status_of plan word) k ≡ true
        → is_in (status_of plan (word ++ more)) k ≡ true }
{
    naming_is_one_level_deep();
}
