//! A whole visible line with a row of sprite zero.

ghost use Rattle.std.specs.Prelude.{◌≡◌, ◌<◌, ◌≤◌, ℕ, true, false, length, slice_index, IfSome};
ghost use Rattle.nj_dots.specs.Screen.{shows_both_layers};
ghost use Rattle.nj_dots.specs.Dots.{after_dots};
ghost use Rattle.nj_catchup.specs.Tiles.{tiles_run};
ghost use Rattle.nj_catchup.specs.Line.{IsRowLine, shown_byte};

use crate::visible::{finish_line, run_tile, run_visible};
use nj_dots::{Screen, shows_both_layers, shows_left_columns};
use nj_sprite0::{SpriteRow, meeting};

/// Runs some of the next dots as one, where they are visible: a whole line that latched a row of sprite zero, or dots
/// none of whose pixels can be a hit. Tells how many, 0 where the next dot is another.
pub fn run_pixels(screen: &mut Screen, left: u32, pattern: &[u8]) -> u32
    requires fine_x { screen.old.scroll.x < 8 }
    requires pattern { length pattern.now ≡ 8192 }
    ensures dots { screen.new ≡ after_dots result pattern.now screen.old }
    ensures within { result ≤ left }
{
    match row_of_line(screen, left) {
        Some(row) => {
            run_line(screen, row, pattern);
            256
        }
        None => run_visible(screen, left, pattern),
    }
}

// The row that the next line latched, where all its pixels are to be run.
fn row_of_line(screen: &Screen, left: u32) -> Option<SpriteRow>
    ensures line { IfSome result (λ row. IsRowLine row screen.now) }
    ensures whole { IfSome result (λ row. 256 ≤ left) }
{
    if left >= 256 && begins_line(screen) {
        screen.sprite_row
    } else {
        None
    }
}

// The next dot is the first of a visible line that shows both layers, with no hit near.
fn begins_line(screen: &Screen) -> bool
    ensures line { result ≡ true → screen.now.position.line < 240 }
    ensures first { result ≡ true → screen.now.position.dot ≡ 1 }
    ensures far { result ≡ true → screen.now.near ≡ false }
    ensures both { result ≡ true → shows_both_layers screen.now.mask ≡ true }
{
    screen.position.dot == 1
        && screen.position.line < 240
        && !screen.near
        && shows_both_layers(screen.mask)
}

// Runs dots 1 to 256 of a line that latched this row; the hit flag rises where the row meets the background.
fn run_line(screen: &mut Screen, row: SpriteRow, pattern: &[u8])
    requires line { IsRowLine row screen.old }
    requires fine_x { screen.old.scroll.x < 8 }
    requires pattern { length pattern.now ≡ 8192 }
    ensures { screen.new ≡ after_dots 256 pattern.now screen.old }
{
    let left = shows_left_columns(screen.mask);
    let opaque = run_tiles_of_line(screen, pattern);
    finish_line(screen);
    if meeting(row, &opaque, left).is_some() {
        screen.sprite_zero_hit = true;
    }
}

// Runs the line's 32 tiles, and tells the opaque pixels of each.
fn run_tiles_of_line(screen: &mut Screen, pattern: &[u8]) -> [u8; 32]
    requires first { screen.old.position.dot ≡ 1 }
    requires fine_x { screen.old.scroll.x < 8 }
    requires pattern { length pattern.now ≡ 8192 }
    ensures screen { screen.new ≡ tiles_run 32 pattern.now screen.old }
    ensures bytes { (j : ℕ) → j < 32 → slice_index result j ≡ shown_byte (tiles_run j pattern.now screen.old) }
{
    let mut opaque = [0; 32];
    for tile in 0..32 {
        opaque[tile] = shown_byte(screen);
        run_tile(screen, pattern);
    }
    opaque
}

// The opaque pixels that the next eight dots show.
#[tactic(auto, unfolding(crate::specs::Line::shown_byte))]
fn shown_byte(screen: &Screen) -> u8
    requires { screen.now.scroll.x < 8 }
    ensures { result ≡ shown_byte screen.now }
{
    ((screen.shift >> (8 - screen.scroll.x)) % 256) as u8
}
