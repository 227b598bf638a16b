//! Laws of the text of a won outcome, each the contract of a function that does nothing.

ghost use Rattle.nj_texts.specs.Laws.{WonTextIsAMovie, WonTextIsShort};

use nj_lines::printed_numbers_have_no_line_feed;
use nj_movie::what_was_written_is_read;

/// The text of a won outcome, its line and the lines of its movie, is read as this movie: the line is a comment.
pub fn won_text_is_a_movie()
    ensures { WonTextIsAMovie }
{
    what_was_written_is_read();
    printed_numbers_have_no_line_feed();
}

/// The text of a won outcome has at most 300 bytes and 14 for each pad.
pub fn won_text_is_short()
    ensures { WonTextIsShort }
{}
