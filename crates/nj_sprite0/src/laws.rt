//! What the definitions mean, each as the contract of a function that does nothing.

ghost use Rattle.std.specs.Prelude.{◌≡◌, ℕ, ◌-◌, ◌+◌, ◌<◌, ◌≤◌, Bool, true, false, List};
ghost use Rattle.nj_sprite0.specs.Meeting.{meets_at};
ghost use Rattle.nj_sprite0.specs.Sprite.{has_bit, is_opaque_at, reversed};
ghost use Rattle.nj_sprite0.specs.declared.row.SpriteRow.{SpriteRow};

/// Sprite zero never meets the background at pixel 255 nor in hidden left columns, and only where its row lies
/// (NESdev Wiki, "PPU OAM", "Sprite zero hits").
pub fn where_sprite_zero_meets()
    ensures last { (r : SpriteRow) (o : List ℕ) (l : Bool) (x : ℕ) → meets_at r o l x ≡ true → x < 255 }
    ensures left { (r : SpriteRow) (o : List ℕ) (x : ℕ) → meets_at r o false x ≡ true → 8 ≤ x }
    ensures from { (r : SpriteRow) (o : List ℕ) (l : Bool) (x : ℕ) → meets_at r o l x ≡ true → r.x ≤ x }
    ensures below { (r : SpriteRow) (o : List ℕ) (l : Bool) (x : ℕ) → meets_at r o l x ≡ true → x < r.x + 8 }
{}

/// A mirrored row has at each bit what the row has at the bit as far from the other end.
pub fn mirrored_rows()
    ensures { (b k : ℕ) → k < 8 → has_bit (reversed b) k ≡ has_bit b (7 - k) }
{}
