ghost use Rattle.std.specs.Prelude.{◌≡◌, Bool, false, List};
ghost use Rattle.std.specs.Cmp.{IsStrictWeakOrder};
ghost use Rattle.std.specs.List.Sorted.{IsPermutation, IsSortedBy};

/// A sorted rearrangement of a list is unique, where only equal elements tie. The function does nothing:
/// its contract is this law.
pub fn sorted_is_unique<T>()
    ensures { (lt : T → T → Bool) → IsStrictWeakOrder lt → ((x y : T) → lt x y ≡ false → lt y x ≡ false → x ≡ y)
        → (xs ys : List T) → IsPermutation xs ys → IsSortedBy lt xs → IsSortedBy lt ys → xs ≡ ys }
{}
