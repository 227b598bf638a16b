//! Laws of the format. Each function does nothing: its contract is the law.

ghost use Rattle.std.specs.Prelude.{◌≡◌, ◌≢◌, ◌<◌, ◌++◌, ◌∷◌, ℕ, List, All, Ok, IsErr};
ghost use Rattle.std.specs.List.Sorted.{IsSorted};
ghost use Rattle.std.specs.Ordering.{nat_cmp};
ghost use Rattle.nj_saved.specs.declared.saved.Saved.{Saved};
ghost use Rattle.nj_saved.specs.Bytes.{file_bytes};
ghost use Rattle.nj_saved.specs.Fields.{version_of};
ghost use Rattle.nj_saved.specs.Ranges.{AreGenerations, ComeOnce, IsInRange, Fits};
ghost use Rattle.nj_saved.specs.Reading.{saved_of};
ghost use Rattle.nj_saved.specs.Says.{IsFileOf};

/// Law: what was written is read again, with either version.
pub fn what_was_written_is_read()
    ensures first { (saved : Saved) → IsInRange saved → Fits saved
        → saved_of (file_bytes 1 saved) saved.cart saved.script ≡ Ok saved }
    ensures second { (saved : Saved) → IsInRange saved → Fits saved
        → saved_of (file_bytes 2 saved) saved.cart saved.script ≡ Ok saved }
{}

/// Law: what is read of a file is what it says, and what it says is read.
pub fn a_file_says_its_search()
    ensures said { (file : List ℕ) (cart script : ℕ) (saved : Saved) → All (λ b. b < 256) file
        → saved_of file cart script ≡ Ok saved → IsFileOf file cart script saved }
    ensures read { (file : List ℕ) (cart script : ℕ) (saved : Saved) → IsFileOf file cart script saved
        → saved_of file cart script ≡ Ok saved }
{}

/// Law: a file of version 2 that is read is refused once one of its bytes is changed, whichever it is.
pub fn a_changed_byte_is_refused()
    ensures { (before behind : List ℕ) (byte changed cart script : ℕ) (saved : Saved)
        → All (λ b. b < 256) before → All (λ b. b < 256) behind → byte < 256 → changed < 256 → byte ≢ changed
        → version_of (before ++ byte ∷ behind) ≡ 2 → saved_of (before ++ byte ∷ behind) cart script ≡ Ok saved
        → IsErr (saved_of (before ++ changed ∷ behind) cart script) }
{}

/// Law: lists are generations exactly where each has a key, its keys rise from above 0, and no key comes twice in all.
/// So the keys of a generation are in order, and none is 0.
pub fn generations_come_once()
    ensures once { (generations : List (List ℕ)) → AreGenerations generations → ComeOnce generations }
    ensures all { (generations : List (List ℕ)) → ComeOnce generations → AreGenerations generations }
    ensures in_order { (generations : List (List ℕ)) → AreGenerations generations → All (IsSorted nat_cmp) generations }
    ensures never_zero { (generations : List (List ℕ)) → AreGenerations generations
        → All (All (λ key. key ≢ 0)) generations }
{}
