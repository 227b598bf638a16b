//! How sprites lie on the lines to come.

ghost use Rattle.std.specs.Prelude.{◌≡◌, ◌<◌, ◌≤◌, ℕ, Bool, true};
ghost use Rattle.nj_sprite0.specs.Sprite.{has_bit, height_of, in_range_of};

use nj_dots::Screen;
use nj_sprite0::has_bit;

/// Fewer than nine sprites begin on visible lines, so no visible line has nine of them.
pub fn has_few_sprites(oam: &[u8; 256]) -> bool
    ensures { (line : ℕ) (tall : Bool) → result ≡ true → line < 240 → in_range_of oam.now line tall < 9 }
{
    let mut count = 0u8;
    for sprite in 0..64 {
        if oam[sprite * 4] < 240 {
            count += 1;
        }
    }
    count < 9
}

/// The number of lines of a sprite.
#[tactic(auto, unfolding(nj_sprite0::specs::Sprite::height_of))]
pub fn sprite_height(screen: &Screen) -> u16
    ensures rows { result ≡ height_of (has_bit screen.now.control 5) }
    ensures most { result ≤ 16 }
{
    if has_bit(screen.control, 5) { 16 } else { 8 }
}
