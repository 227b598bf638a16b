//! Laws of cleaned words, each the contract of a function that does nothing.

ghost use Rattle.std.specs.Prelude.{◌≡◌, ◌<◌, ℕ, All, true, false, length};
ghost use Rattle.nj_search_defs.specs.Game.{Word};
ghost use Rattle.nj_game.specs.Plan.{Plan, movie_of};
ghost use Rattle.nj_clean.specs.Presses.{Press, is_pressed, released};
ghost use Rattle.nj_clean.specs.Sweeps.{wins, swept, sweeps, cleaned};

/// A cleaned word still wins, has as many steps and frames as the given one, and its presses are presses of the given
/// one; and without any single one of them it does not win.
pub fn a_cleaned_word_needs_each_press()
    ensures wins { (plan : Plan) (word : Word) → wins plan word ≡ true → wins plan (cleaned plan word) ≡ true }
    ensures steps { (plan : Plan) (word : Word) → length (cleaned plan word) ≡ length word }
    ensures frames { (plan : Plan) (word : Word)
        → length (movie_of plan (cleaned plan word)) ≡ length (movie_of plan word) }
    ensures among { (plan : Plan) (word : Word) (press : Press) → All (λ pad. pad < 256) word
        → is_pressed (cleaned plan word) press ≡ true → is_pressed word press ≡ true }
    ensures needed { (plan : Plan) (word : Word) (press : Press) → All (λ pad. pad < 256) word
        → is_pressed (cleaned plan word) press ≡ true → wins plan (released (cleaned plan word) press) ≡ false }
{}

/// Sweeps end at the cleaned word: a sweep over it releases nothing, and it is the word that is left by any number of
/// sweeps behind which a sweep releases nothing.
pub fn sweeps_come_to_an_end()
    ensures ends { (plan : Plan) (word : Word) → All (λ pad. pad < 256) word
        → swept plan (cleaned plan word) ≡ cleaned plan word }
    ensures only { (plan : Plan) (word : Word) (n : ℕ) → All (λ pad. pad < 256) word
        → swept plan (sweeps n plan word) ≡ sweeps n plan word → cleaned plan word ≡ sweeps n plan word }
{}
