//! Laws of the outcome of a planned search, each the contract of a function that does nothing.

ghost use Rattle.nj_plan.specs.Laws.{AWonWordReplays, LongerSearchesBeginAlike, ResumedIsUnbroken};
ghost use Rattle.nj_plan.specs.Budget.{FullFrontsTakeHalf, BothFrontsFit};

use nj_expand::{a_step_is_bounded, states_are_saved_whole};
use nj_machine::frames_keep_the_cartridge;
use nj_replay::{a_movie_is_read_as_its_word, a_replay_tells_of_its_word};
use nj_rules::{allowed_pads_come_once, keys_tell_bytes_and_status, levels_are_few};
use nj_saved::{generations_come_once, what_was_written_is_read};
use nj_search_defs::{
    a_forgotten_state_goes_on_alike, limits_add, limits_are_sound, limits_have_fronts,
    limits_have_fronts_from, won_wins, won_wins_from, won_words_are_as_long,
    won_words_are_as_long_from,
};

/// The movie of a won search is read as its word, and replays to its step, its frames, its reward and the verdict Win.
pub fn a_won_word_replays()
    ensures { AWonWordReplays }
{
    won_words_are_as_long();
    won_wins();
    won_words_are_as_long_from();
    won_wins_from();
    a_movie_is_read_as_its_word();
    a_replay_tells_of_its_word();
}

/// The first a steps of a search of a + b steps are those of the search of a steps.
pub fn longer_searches_begin_alike()
    ensures { LongerSearchesBeginAlike }
{
    limits_add();
}

/// A search that is stopped after a steps, saved, and resumed for b steps ends as the unbroken search of a + b steps.
pub fn resumed_is_unbroken()
    ensures { ResumedIsUnbroken }
{
    allowed_pads_come_once();
    keys_tell_bytes_and_status();
    levels_are_few();
    limits_are_sound();
    limits_have_fronts();
    limits_have_fronts_from();
    generations_come_once();
    what_was_written_is_read();
    states_are_saved_whole();
    a_forgotten_state_goes_on_alike();
    limits_add();
}

/// The bytes that a search says its front's states need are at most half of the budget, and while a step makes the next
/// front the states of both are within the budget.
pub fn fronts_are_within_the_budget()
    ensures half { FullFrontsTakeHalf }
    ensures both { BothFrontsFit }
{
    frames_keep_the_cartridge();
    a_step_is_bounded();
}
