//! The ends of visible lines, many lines as one where nothing is left of them.

ghost use Rattle.std.specs.Prelude.{◌≡◌, ◌≤◌, ◌<◌, ◌+◌, ℕ, Bool, true, false, ◌||◌, length, slice_index};
ghost use Rattle.nj_sprite0.specs.Sprite.{has_bit, height_of, is_in_range};
ghost use Rattle.nj_dots.specs.Screen.{IsScreen};
ghost use Rattle.nj_dots.specs.Scroll.{next_row};
ghost use Rattle.nj_dots.specs.Laws.{repeated};
ghost use Rattle.nj_dots.specs.Dots.{after_dots, overflows};
ghost use Rattle.nj_catchup.specs.Skip.{IsLineEnd, IsPlain, line_prepared, lines_on};

use crate::sprites::{has_few_sprites, sprite_height};
use nj_dots::{DOTS_OF_LINE, Screen, Scroll};

// The dots from dot 257 of a line to dot 336.
const DOTS_OF_END: u32 = 80;

/// Runs the dots from dot 257 of a visible line with rendering on up to dot 336 of it, or of a line below, as one: of
/// the lines between nothing is left but Y. Tells how many, 0 where the next dot is another or not all of them are to
/// be run.
pub fn run_lines(screen: &mut Screen, left: u32, pattern: &[u8]) -> u32
    requires fits { IsScreen screen.old }
    requires pattern { length pattern.now ≡ 8192 }
    ensures dots { screen.new ≡ after_dots result pattern.now screen.old }
    ensures within { result ≤ left }
{
    if left < DOTS_OF_END || !ends_line(screen) {
        return 0;
    }
    let most = (left - DOTS_OF_END) / DOTS_OF_LINE;
    let lines = plain_lines(screen, most);
    skip_lines(screen, lines);
    prepare_line(screen, pattern);
    u32::from(lines) * DOTS_OF_LINE + DOTS_OF_END
}

// Dot 257 of a visible line with rendering on is next.
fn ends_line(screen: &Screen) -> bool
    ensures { result ≡ true → IsLineEnd screen.now }
{
    screen.position.dot == 257
        && screen.position.line < 240
        && !screen.near
        && screen.is_rendering()
}

// How many lines from this one on, at most so many, leave nothing behind but Y.
fn plain_lines(screen: &Screen, most: u32) -> u16
    requires { screen.now.position.line < 240 }
    ensures plain { IsPlain result screen.now }
    ensures few { result ≤ most }
{
    if most > 0 && keeps_overflow(screen) {
        let away = lines_away(screen).min(239 - screen.position.line);
        if u32::from(away) < most {
            away
        } else {
            most as u16
        }
    } else {
        0
    }
}

// No line raises the overflow flag: it is up, or there are few sprites.
fn keeps_overflow(screen: &Screen) -> bool
    ensures { (line : ℕ) → result ≡ true → line < 240
        → (screen.now.sprite_overflow || overflows screen.now.oam screen.now.control line)
        ≡ screen.now.sprite_overflow }
{
    screen.sprite_overflow || has_few_sprites(&screen.oam)
}

// How many lines from this one on sprite zero has none of.
fn lines_away(screen: &Screen) -> u16
    requires { screen.now.position.line < 240 }
    ensures { (line : ℕ) → screen.now.position.line ≤ line → line < screen.now.position.line + result
        → is_in_range (slice_index screen.now.oam 0) line (has_bit screen.now.control 5) ≡ false }
{
    let line = screen.position.line;
    let top = u16::from(screen.oam[0]);
    if top + sprite_height(screen) <= line {
        240 - line
    } else {
        top.saturating_sub(line)
    }
}

// So many lines on, by Y alone.
#[tactic(auto, unfolding(crate::specs::Skip::lines_on))]
fn skip_lines(screen: &mut Screen, lines: u16)
    requires { screen.old.position.line + lines < 240 }
    ensures { screen.new ≡ lines_on lines screen.old }
{
    step_rows(&mut screen.scroll, lines);
    screen.position.line += lines;
}

// The step of Y, so many times.
fn step_rows(scroll: &mut Scroll, lines: u16)
    ensures { scroll.new ≡ record scroll.old { v = repeated lines next_row scroll.old.v } }
{
    for _ in 0..lines {
        scroll.step_y();
    }
}

// The dots from dot 257 to dot 336.
fn prepare_line(screen: &mut Screen, pattern: &[u8])
    requires fits { IsScreen screen.old }
    requires end { IsLineEnd screen.old }
    requires pattern { length pattern.now ≡ 8192 }
    ensures { screen.new ≡ line_prepared pattern.now screen.old }
{
    screen.dot(pattern);
    screen.prefetch(pattern);
    screen.prefetch(pattern);
    screen.position.dot = 337;
}
