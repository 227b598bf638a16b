//! Laws of claims and of pieces, each the contract of a function that does nothing.

ghost use Rattle.std.specs.Prelude.{◌≡◌, ℕ, List, [], ◌++◌, length};
ghost use Rattle.std.specs.List.{sum_by, range_with_len};
ghost use Rattle.std.specs.List.Sorted.{IsPermutation};
ghost use Rattle.nj_claims.specs.Passes.{PassView, joined_pass};
ghost use Rattle.nj_rows.specs.declared.Row.{Row};
ghost use Rattle.nj_expand.specs.Held.{Held, live_rows, candidates_in};
ghost use Rattle.nj_hands.specs.Claimed.{AreClaimed};
ghost use Rattle.nj_hands.specs.Shares.{pieces_in, rows_of, runs_of};

use nj_expand::live_rows_come_by_words;

/// No rows are claimed by no claims; what was claimed through a pass and through one that began with nothing is
/// claimed through the two joined; and rows that are claimed are so in any order.
pub fn claims_go_together()
    ensures none { (pass : PassView) → AreClaimed [] pass pass [] }
    ensures joined { (a b : List Row) (first root given other : PassView) (xs ys : List Row) → given.claims ≡ []
        → given.seen ≡ [] → given.full ≡ [] → AreClaimed a first root xs → AreClaimed b given other ys
        → AreClaimed (a ++ b) first (joined_pass root other) (xs ++ ys) }
    ensures moved { (lives others : List Row) (p q : PassView) (rows : List Row) → IsPermutation others lives
        → AreClaimed lives p q rows → AreClaimed others p q rows }
{}

/// Where each piece was taken as often as it stands in the front, the rows of what was taken are the live rows of the
/// step in some order; and all pieces have the candidates of the step.
pub fn pieces_are_the_front()
    ensures rows { (held : Held) (taken : List ℕ)
        → ((h : ℕ → ℕ) → sum_by h (range_with_len 0 (pieces_in held)) ≡ sum_by h taken)
        → IsPermutation (live_rows held) (rows_of held taken) }
    ensures runs { (held : Held)
        → runs_of held (range_with_len 0 (pieces_in held)) ≡ length (candidates_in held) }
{
    live_rows_come_by_words();
}
