//! Laws of a step's candidates, each the contract of a function that does nothing.

ghost use Rattle.std.specs.Prelude.{◌≡◌, ◌≢◌, ◌≤◌, ◌<◌, ◌+◌, ◌*◌, All, length, map, filter};
ghost use Rattle.nj_search_defs.specs.Outcome.{State, Goes};
ghost use Rattle.nj_search_defs.specs.Laws.{IsChild};
ghost use Rattle.nj_rules.specs.Pads.{named_pads};
ghost use Rattle.nj_game.specs.Words.{game_of};
ghost use Rattle.nj_seen.specs.Rows.{is_live_row, IsRising};
ghost use Rattle.nj_candidate.specs.Rows.{row_of};
ghost use Rattle.nj_expand.specs.Held.{Held, live_rows, candidates_in, kept_in, next_in};
ghost use Rattle.nj_expand.specs.Children.{rows_from, runs_from};
ghost use Rattle.nj_expand.specs.Ending.{AreFew};
ghost use Rattle.nj_expand.specs.Saving.{saved_of, state_in, CanBeSaved};

use nj_rules::{allowed_pads_come_once, keys_tell_bytes_and_status};
use nj_search_defs::{front_is_bounded, parents_stood_before, words_are_equally_long};

/// The rows of the live candidates are the live among the rows of all.
pub fn live_rows_are_live()
    ensures { (held : Held) → live_rows held ≡ filter (is_live_row held.state.mark (held.state.step + 1))
        (map (row_of (game_of held.plan)) (candidates_in held)) }
{}

/// The live rows of a step are those of the words of its front, one word after another; and so are its candidates
/// counted.
pub fn live_rows_come_by_words()
    ensures rows { (held : Held) → live_rows held ≡ rows_from held 0 held.state.front }
    ensures runs { (held : Held) → length (candidates_in held) ≡ runs_from held.plan held.state.front }
{
    live_rows_are_live();
}

/// The live rows can claim: their numbers rise and their keys are not 0.
pub fn live_rows_can_claim()
    ensures rising { (held : Held) → AreFew held → IsRising (live_rows held) }
    ensures keys { (held : Held) → All (λ row. row.key ≢ 0) (live_rows held) }
    ensures numbers { (held : Held) → AreFew held
        → All (λ row. row.number < 256 * length held.state.front) (live_rows held) }
    ensures few { (held : Held) → held.bounds.inputs ≡ length (named_pads held.plan.script.inputs.sets)
        → held.bounds.inputs ≤ 256 → AreFew held }
{
    allowed_pads_come_once();
    keys_tell_bytes_and_status();
}

/// A step has at most as many candidates as the front has words, times the pads that the script names; it keeps no more
/// than a front may have.
pub fn a_step_is_bounded()
    ensures candidates { (held : Held) → held.bounds.inputs ≡ length (named_pads held.plan.script.inputs.sets)
        → length (candidates_in held) ≤ length held.state.front * held.bounds.inputs }
    ensures kept { (held : Held) → length (kept_in held) ≤ held.bounds.most }
    ensures both { (held : Held) → held.bounds.inputs ≡ length (named_pads held.plan.script.inputs.sets)
        → length held.state.front ≤ held.bounds.most
        → length (candidates_in held) + length (kept_in held) ≤ held.bounds.most * (held.bounds.inputs + 1) }
{
    allowed_pads_come_once();
}

/// The front after a step has at most as many words as its bound, each as long as the steps that were made, and each
/// one allowed pad longer than a word of the front before.
#[tactic(auto, unfolding(crate::specs::Held::next_in))]
pub fn a_front_follows_the_one_before()
    ensures few { (held : Held) (state : State) → next_in held ≡ Goes state → length state.front ≤ held.bounds.most }
    ensures long { (held : Held) (state : State) → All (λ word. length word ≡ held.state.step) held.state.front
        → next_in held ≡ Goes state → All (λ word. length word ≡ state.step) state.front }
    ensures parents { (held : Held) (state : State) → next_in held ≡ Goes state
        → All (IsChild (game_of held.plan) held.state.front) state.front }
{
    front_is_bounded();
    words_are_equally_long();
    parents_stood_before();
}

/// Nothing of a state is lost when it is saved, where it has made some steps and each word of its front is as long as
/// these.
pub fn states_are_saved_whole()
    ensures { (state : State) → CanBeSaved state → state_in (saved_of state) ≡ state }
{}
