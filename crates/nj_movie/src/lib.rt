//! Movies, which are lists of pads, and their text: one line a frame. The format is this project's own, after the input
//! lines that emulators log.
#![tactic(auto)]

ghost use Rattle.std.specs.Prelude.{◌≡◌, ◌+◌, ◌<◌, ◌≤◌, ◌⊎◌, ℕ, List, [], ◌∷◌, ◌++◌, length, All, IfOk, MatchResult, Ok, Err, option_to_list};
ghost use Rattle.std.specs.List.{concat};
ghost use Rattle.nj_lines.specs.Lines.{lines, IsPlain};
ghost use Rattle.nj_movie.specs.declared.MovieRefused.{MovieRefused};
ghost use Rattle.nj_movie.specs.Says.{Says, IsFirstRefusal, IsComment};
ghost use Rattle.nj_movie.specs.Text.{written_line, movie_text, content, is_skipped, pad_of_line, line_frames, movie_of};

use nj_lines::{lines_are_the_bytes, next_line, printed_numbers_have_no_line_feed, without};
pub use nj_pad::Pad;
use nj_pad::a_text_shows_its_pad;
use std::alloc::{AllocError, Global};
use std::marker::Model;

/// The most frames of a movie that is read: 2^20.
pub const MOST_FRAMES: usize = 1_048_576;

/// Why bytes are no movie. Lines are counted from 1.
#[derive(Clone, Copy, Debug, PartialEq, Eq)]
pub enum MovieRefused {
    /// A line that is neither empty, nor a comment, nor a frame.
    Line { line: u64 },
    /// A frame after the most that a movie has.
    TooManyFrames { line: u64 },
    /// Memory ran out.
    NoMemory,
}

impl From<AllocError> for MovieRefused {
    ghost use Rattle.std.specs.Prelude.{◌≡◌};
    ghost use Rattle.nj_movie.specs.declared.MovieRefused.TheVariants.{NoMemory};

    ghost from_gives = { λ _ refused. refused ≡ NoMemory };

    fn from(_error: AllocError) -> Self {
        MovieRefused::NoMemory
    }
}

/// A movie: the pad of each frame, in order.
#[derive(Drop)]
pub struct Movie {
    pads: Vec<Pad>,
}

impl Model for Movie {
    ghost use Rattle.std.specs.Prelude.{ℕ, ◌<◌, List, All};

    ghost Value = { List ℕ };

    ghost view = { λ m. m.pads.items };

    ghost invariant = { λ m. All (λ pad. pad < 256) m.pads.items };
}

impl Movie {
    /// The movie without frames.
    pub fn new(alloc: Global) -> Self
        ensures { result ≡ [] }
    {
        Movie {
            pads: Vec::new(alloc),
        }
    }

    /// The movie of these pads. It takes no memory.
    pub fn from_pads(pads: Vec<Pad>) -> Self
        ensures { result ≡ pads.items }
    {
        for pad in &pads {
            let _byte = pad.0;
        }
        Movie { pads }
    }

    /// The pads, given back without taking memory.
    pub fn into_pads(self) -> Vec<Pad>
        ensures { result.items ≡ self }
    {
        self.pads
    }

    /// The pad of each frame.
    pub fn pads(&self) -> &[Pad]
        ensures pads { result.now ≡ self.now }
        ensures bytes { All (λ pad. pad < 256) self.now }
    {
        self.pads.as_slice()
    }

    /// One more frame at the end. After an error the movie is as before.
    pub fn push(&mut self, pad: Pad) -> Result<(), AllocError>
        ensures { MatchResult result (λ _. self.new ≡ self.old ++ pad ∷ []) (λ _. self.new ≡ self.old) }
    {
        self.pads.push(pad)?;
        Ok(())
    }
}

// Whether a line is passed over.
fn is_passed_over(text: &[u8]) -> bool
    ensures { result ≡ is_skipped text.now }
{
    match text {
        [] => true,
        [first, ..] => *first == b'#',
    }
}

// The pad of a frame's line, if it is one.
#[tactic(auto, unfolding(crate::specs::Text::pad_of_line))]
fn frame_pad(text: &[u8]) -> Option<Pad>
    ensures { result ≡ pad_of_line text.now }
{
    let places = text.strip_prefix(b"|..|")?.strip_suffix(b"|")?;
    Pad::from_text(places)
}

// The pad that a line adds, if it is not passed over.
#[tactic(auto, unfolding(crate::specs::Text::line_frames))]
fn line_pad(number: u64, frames: usize, line: &[u8]) -> Result<Option<Pad>, MovieRefused>
    ensures { MatchResult result (λ pad. line_frames number frames line.now ≡ Ok (option_to_list pad))
        (λ refused. line_frames number frames line.now ≡ Err refused) }
{
    let text = without(b"\r", without(b"\n", line));
    if is_passed_over(text) {
        return Ok(None);
    }
    let Some(pad) = frame_pad(text) else {
        return Err(MovieRefused::Line { line: number });
    };
    if frames >= MOST_FRAMES {
        return Err(MovieRefused::TooManyFrames { line: number });
    }
    Ok(Some(pad))
}

/// Reads a movie's text.
pub fn read_movie(alloc: Global, bytes: &[u8]) -> Result<Movie, MovieRefused>
    ensures { MatchResult result (λ movie. movie_of bytes.now ≡ Ok movie)
        (λ refused. (refused ≡ MovieRefused.NoMemory) ⊎ (movie_of bytes.now ≡ Err refused)) }
{
    let mut movie = Movie::new(alloc);
    let mut rest = bytes;
    let mut number = 0;
    while !rest.is_empty() {
        let (line, behind) = next_line(rest);
        number += 1;
        if let Some(pad) = line_pad(number, movie.pads().len(), line)? {
            movie.push(pad)?;
        }
        rest = behind;
    }
    Ok(movie)
}

/// Writes a frame's line, with its line feed.
#[tactic(auto, unfolding(crate::specs::Text::written_line, nj_pad::specs::Pad::pad_text))]
pub fn write_line(pad: Pad, into: &mut [u8; 14])
    ensures { into.new ≡ written_line pad }
{
    let [up, down, left, right, start, select, b, a] = pad.text();
    *into = [
        b'|', b'.', b'.', b'|', up, down, left, right, start, select, b, a, b'|', b'\n',
    ];
}

/// The text of a movie. A movie of at most 2^20 frames is read again from it.
pub fn write_movie(alloc: Global, movie: &Movie) -> Result<Vec<u8>, AllocError>
    ensures text { IfOk result (λ text. text.items ≡ movie_text movie.now) }
    ensures read_back { IfOk result (λ text. length movie.now ≤ MOST_FRAMES → movie_of text.items ≡ Ok movie.now) }
{
    what_was_written_is_read();
    let mut text = Vec::new(alloc);
    for pad in movie.pads() {
        let mut line = [0; 14];
        write_line(*pad, &mut line);
        text.extend_from_slice(&line)?;
    }
    Ok(text)
}

/// Law: what is read of a text is what its lines say, each skipped or the frame of the next pad; all that lines say,
/// of at most 2^20 frames, is read; and a refusal is that of the first line which is no frame, or a frame too many.
pub fn a_text_says_its_pads()
    ensures said { (bytes pads : List ℕ) → movie_of bytes ≡ Ok pads
        → Says (lines bytes) pads × (length pads ≤ MOST_FRAMES) }
    ensures read { (bytes pads : List ℕ) → Says (lines bytes) pads → length pads ≤ MOST_FRAMES
        → movie_of bytes ≡ Ok pads }
    ensures refused { (bytes : List ℕ) (refused : MovieRefused) → movie_of bytes ≡ Err refused
        → IsFirstRefusal (lines bytes) refused }
{
    a_text_shows_its_pad();
}

/// Law: the text of at most 2^20 pads, behind any comments, is read as these pads. A text without line feeds makes a
/// comment.
pub fn what_was_written_is_read()
    ensures commented { (comments : List (List ℕ)) (pads : List ℕ) → All IsComment comments
        → All (λ pad. pad < 256) pads → length pads ≤ MOST_FRAMES
        → movie_of (concat comments ++ movie_text pads) ≡ Ok pads }
    ensures comment { (text : List ℕ) → IsPlain text → IsComment (35 ∷ text ++ 10 ∷ []) }
    ensures behind_one { (text pads : List ℕ) → IsPlain text → All (λ pad. pad < 256) pads → length pads ≤ MOST_FRAMES
        → movie_of ((35 ∷ text ++ 10 ∷ []) ++ movie_text pads) ≡ Ok pads }
    ensures plain { (pads : List ℕ) → All (λ pad. pad < 256) pads → length pads ≤ MOST_FRAMES
        → movie_of (movie_text pads) ≡ Ok pads }
{
    a_text_shows_its_pad();
    lines_are_the_bytes();
    printed_numbers_have_no_line_feed();
}

#[cfg(test)]
mod tests {
    use super::*;
    use std::test::Fail;

    // Comments, empty lines, either end of a line and a last line without one.
    #[test]
    fn reads_pads(rt: HostRuntime) -> Result<(), Fail> {
        for (text, want) in [
            (b"".as_slice(), [].as_slice()),
            (
                b"# x\r\n|..|........|\r\n|..|...R....|".as_slice(),
                [0, 0x80].as_slice(),
            ),
            (
                b"\n\r\n#|..|........|\n|..|UDLRSsBA|\n".as_slice(),
                [0xFF].as_slice(),
            ),
            (b"|..|....S...|\r".as_slice(), [0x08].as_slice()),
        ] {
            let movie = read_movie(rt.alloc(), text)?;
            let mut bytes = Vec::new(rt.alloc());
            for pad in movie.pads() {
                bytes.push(pad.0)?;
            }
            assert_eq!(rt; bytes.as_slice(), want);
        }
        Ok(())
    }

    #[test]
    fn refuses_lines(rt: HostRuntime) {
        for (text, want) in [
            (b"|..|........|\n|..|R.......|\n".as_slice(), 2),
            (b"|..|X.......|\n".as_slice(), 1),
            (b"|..|........|\r\r\n".as_slice(), 1),
            (b" \n".as_slice(), 1),
            (b"\n\n|..|........|.\n".as_slice(), 3),
            (b"# a\n|.|........|\n".as_slice(), 2),
            (b"|..|.........|\n".as_slice(), 1),
            (b"\r\r\n".as_slice(), 1),
        ] {
            assert_eq!(rt;
                read_movie(rt.alloc(), text).err(),
                Some(MovieRefused::Line { line: want })
            );
        }
    }

    // A line after 2^20 frames: skipped, no frame, and a frame too many.
    #[test]
    fn counts_frames(rt: HostRuntime) {
        assert_eq!(rt; line_pad(9, MOST_FRAMES, b"# end\n"), Ok(None));
        assert_eq!(rt;
            line_pad(9, MOST_FRAMES, b"|..|x"),
            Err(MovieRefused::Line { line: 9 })
        );
        let frame = b"|..|.......A|\n";
        assert_eq!(rt;
            line_pad(9, MOST_FRAMES, frame),
            Err(MovieRefused::TooManyFrames { line: 9 })
        );
        assert_eq!(rt; line_pad(9, MOST_FRAMES - 1, frame), Ok(Some(Pad(1))));
    }

    #[test]
    fn writes_lines(rt: HostRuntime) -> Result<(), Fail> {
        let mut pads = Vec::new(rt.alloc());
        pads.push(Pad(0x80))?;
        pads.push(Pad(0x41))?;
        let movie = Movie::from_pads(pads);
        let text = write_movie(rt.alloc(), &movie)?;
        assert_eq!(rt;
            text.as_slice(),
            b"|..|...R....|\n|..|..L....A|\n".as_slice()
        );
        assert_eq!(rt; movie.into_pads().len(), 2);
        let mut line = [0; 14];
        write_line(Pad(0x04), &mut line);
        assert_eq!(rt; line.as_slice(), b"|..|.....s..|\n".as_slice());
        Ok(())
    }
}
