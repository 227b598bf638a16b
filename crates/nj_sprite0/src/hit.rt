//! Where sprite zero first meets an opaque background.

ghost use Rattle.std.specs.Prelude.{◌≡◌, ◌<◌, ℕ, false, true, IfSome, IfNone, length};
ghost use Rattle.nj_sprite0.specs.Meeting.{background_at, meets_at};

use crate::row::SpriteRow;

/// The least pixel where the row and the background are both opaque; `left` shows the eight left columns.
/// The background's bit of pixel x is bit 7 - x % 8 of byte x / 8.
pub fn meeting(row: SpriteRow, opaque: &[u8; 32], left: bool) -> Option<u8>
    ensures meets { IfSome result (λ x. meets_at row opaque.now left x ≡ true) }
    ensures least { IfSome result (λ x. (y : ℕ) → y < x → meets_at row opaque.now left y ≡ false) }
    ensures none { IfNone result ((y : ℕ) → meets_at row opaque.now left y ≡ false) }
{
    let start = u16::from(row.x);
    for i in 0..8u16 {
        let x = start + i;
        if meets(row, opaque, left, x) {
            return Some(x as u8);
        }
    }
    None
}

#[tactic(auto, unfolding(crate::specs::Meeting::meets_at))]
fn meets(row: SpriteRow, opaque: &[u8; 32], left: bool, x: u16) -> bool
    ensures meets { result ≡ meets_at row opaque.now left x }
    ensures below { result ≡ true → x < 255 }
{
    x < 255 && (left || x >= 8) && row.is_opaque(x) && is_background(opaque, x)
}

#[tactic(auto, unfolding(crate::specs::Meeting::background_at, crate::specs::Sprite::has_bit))]
fn is_background(opaque: &[u8; 32], x: u16) -> bool
    requires { x < 256 }
    ensures { result ≡ background_at opaque.now x }
{
    (opaque[x as usize / 8] >> (7 - x % 8)) % 2 == 1
}
