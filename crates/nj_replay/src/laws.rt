//! Laws of the reading and the replay of a movie, each the contract of a function that does nothing.

ghost use Rattle.std.specs.Prelude.{◌≡◌, ◌↔◌, ◌≤◌, ◌++◌, ℕ, List, Ok, Err};
ghost use Rattle.nj_search_defs.specs.Game.{Word};
ghost use Rattle.nj_game.specs.Plan.{Plan, movie_of, held_pads};
ghost use Rattle.nj_replay.specs.declared.ReplayRefused.{ReplayRefused};
ghost use Rattle.nj_replay.specs.Reading.{word_of, IsFirstRefusal};
ghost use Rattle.nj_replay.specs.Replay.{replay_of, replayed_of};

/// A movie is read as a word exactly where it is the movie of this word, and a refusal is that of its first frame that
/// no word has there.
pub fn a_movie_is_read_as_its_word()
    ensures read { (hold : ℕ) (start movie : List ℕ) (word : Word) → 1 ≤ hold
        → (word_of hold start movie ≡ Ok word) ↔ (movie ≡ start ++ held_pads hold word) }
    ensures refused { (hold : ℕ) (start movie : List ℕ) (refused : ReplayRefused) → 1 ≤ hold
        → word_of hold start movie ≡ Err refused → IsFirstRefusal hold start movie refused }
{}

/// A replay of the movie of a word tells of this word: its steps and frames, its reward and its verdict.
pub fn a_replay_tells_of_its_word()
    ensures { (plan : Plan) (word : Word) → 1 ≤ plan.script.hold
        → replay_of plan (movie_of plan word) ≡ Ok (replayed_of plan word) }
{}
