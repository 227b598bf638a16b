//! Laws of the texts that the program writes, each the contract of a function that does nothing.

ghost use Rattle.nj_app.specs.Laws.{WonTextReplays};
ghost use Rattle.nj_app.specs.Workers.{WorkersChangeNoAnswer};

use nj_movie::a_text_says_its_pads;
use nj_script::what_is_read_is_in_range;
use nj_search::a_won_word_replays;
use nj_search_defs::{parents_stood_before, winner_is_best};
use nj_texts::{won_text_is_a_movie, won_text_is_short};
use nj_words::pieces_are_said;

/// The text of a won search, read as a movie, replays to the same first line with status 0.
pub fn won_text_replays()
    ensures { WonTextReplays }
{
    won_text_is_a_movie();
    won_text_is_short();
    what_is_read_is_in_range();
    a_text_says_its_pads();
    a_won_word_replays();
    parents_stood_before();
    winner_is_best();
}

/// Two command lines that say the same but for their number of workers have one answer over any files.
pub fn workers_change_no_answer()
    ensures { WorkersChangeNoAnswer }
{
    pieces_are_said();
}
