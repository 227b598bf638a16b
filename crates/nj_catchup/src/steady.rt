//! Reads of $2002 that pending dots do not change.

ghost use Rattle.std.specs.Prelude.{◌≡◌, ◌≤◌, ◌<◌, ◌+◌, ℕ, List, true, false, Some, None};
ghost use Rattle.nj_dots.specs.Screen.{IsScreen, place_of};
ghost use Rattle.nj_dots.specs.Dots.{after_dots, is_hit_pixel, to_event};
ghost use Rattle.nj_dots.specs.Laws.{IsOverflow};
ghost use Rattle.nj_catchup.specs.Steady.{IsAlong, IsAside, IsAway, IsSteady};

use crate::sprites::{has_few_sprites, sprite_height};
use nj_dots::laws::sprite_overflow_is_timed;
use nj_dots::{DOTS_OF_FRAME, DOTS_OF_LINE, Position, Screen, shows_both_layers};
use nj_sprite0::SpriteRow;

/// No pending dot changes what a read of $2002 answers, nor does the read change what they do.
pub fn is_steady(screen: &Screen, dots: u32) -> bool
    requires fits { IsScreen screen.now }
    requires before_event { dots < to_event screen.now }
    ensures { (p : List ℕ) → result ≡ true → IsSteady dots p screen.now }
{
    dots + 1 < screen.dots_to_event() && keeps_hit(screen, dots) && keeps_overflow(screen, dots)
}

// None of the next dots raises the hit flag.
fn keeps_hit(screen: &Screen, dots: u32) -> bool
    requires fits { IsScreen screen.now }
    requires before_event { dots < to_event screen.now }
    ensures { (p : List ℕ) → result ≡ true
        → (after_dots dots p screen.now).sprite_zero_hit ≡ screen.now.sprite_zero_hit }
{
    screen.sprite_zero_hit || (!screen.near && has_no_hit(screen, dots))
}

// None of the next dots raises the overflow flag.
fn keeps_overflow(screen: &Screen, dots: u32) -> bool
    requires fits { IsScreen screen.now }
    requires before_event { dots < to_event screen.now }
    ensures { (p : List ℕ) → result ≡ true
        → (after_dots dots p screen.now).sprite_overflow ≡ screen.now.sprite_overflow }
{
    sprite_overflow_is_timed();
    screen.sprite_overflow || counts_no_sprites(screen, dots)
}

// None of the next dots counts more sprites on a line than it can show.
fn counts_no_sprites(screen: &Screen, dots: u32) -> bool
    requires fits { IsScreen screen.now }
    requires before_event { dots < to_event screen.now }
    ensures { (p : List ℕ) (n : ℕ) → result ≡ true → n < dots → IsOverflow (after_dots n p screen.now) → ⊥ }
{
    passes_no_count(screen, dots) || has_few_sprites(&screen.oam)
}

// None of the next dots counts the sprites of a line.
fn passes_no_count(screen: &Screen, dots: u32) -> bool
    requires fits { IsScreen screen.now }
    requires before_event { dots < to_event screen.now }
    ensures { (p : List ℕ) (n : ℕ) → result ≡ true → n < dots → IsOverflow (after_dots n p screen.now) → ⊥ }
{
    dots <= dots_to_latch(screen.position.dot)
        || stays_below(screen.position, dots)
        || !screen.is_rendering()
}

// The pixel of none of the next dots is a hit.
fn has_no_hit(screen: &Screen, dots: u32) -> bool
    requires fits { IsScreen screen.now }
    requires before_event { dots < to_event screen.now }
    ensures { (p : List ℕ) (n : ℕ) → result ≡ true → n < dots → 1 ≤ (after_dots n p screen.now).position.dot
        → is_hit_pixel (after_dots n p screen.now) ≡ false }
{
    misses_row(screen, dots) || stays_away(screen, dots)
}

// The same where no line is begun, or none shows a hit.
fn misses_row(screen: &Screen, dots: u32) -> bool
    requires fits { IsScreen screen.now }
    requires before_event { dots < to_event screen.now }
    ensures { (p : List ℕ) (n : ℕ) → result ≡ true → n < dots → 1 ≤ (after_dots n p screen.now).position.dot
        → is_hit_pixel (after_dots n p screen.now) ≡ false }
{
    !shows_both_layers(screen.mask)
        || stays_below(screen.position, dots)
        || dots <= dots_to_hit(screen)
}

// The lines of the next dots are below the visible ones.
fn stays_below(position: Position, dots: u32) -> bool
    requires dots { dots ≤ 89342 }
    ensures line { result ≡ true → 240 ≤ position.line }
    ensures frame { result ≡ true → place_of position + dots ≤ 89341 }
{
    position.line >= 240 && position.place() + dots < DOTS_OF_FRAME
}

// No row of sprite zero is latched, and none of the next dots latches one: in this frame, they end at dot 257 of its
// first line or begin below its last.
fn stays_away(screen: &Screen, dots: u32) -> bool
    requires fits { IsScreen screen.now }
    requires few { dots ≤ 89342 }
    ensures { result ≡ true → IsAway dots screen.now }
{
    if screen.sprite_row.is_some() {
        return false;
    }
    let end = screen.position.place() + dots;
    let top = u32::from(screen.oam[0]);
    let last = top + u32::from(sprite_height(screen));
    let line = u32::from(screen.position.line);
    end < DOTS_OF_FRAME && (end <= top * DOTS_OF_LINE + 257 || last <= line)
}

/// How many dots there are up to dot 257 of the first line of sprite zero, 0 where that is behind.
pub fn dots_to_sprite(screen: &Screen) -> u32
    requires { IsScreen screen.now }
{
    let first = u32::from(screen.oam[0]) * DOTS_OF_LINE + 257;
    first.saturating_sub(screen.position.place())
}

/// How many dots there are at least up to one that latches a row of sprite zero or is a pixel of the latched one.
pub fn dots_to_hit(screen: &Screen) -> u32
    requires { screen.now.position.dot < 341 }
    ensures { (n d : ℕ) → n < result → IsAlong screen.now.position.dot n d → IsAside screen.now.sprite_row d }
{
    match screen.sprite_row {
        None => dots_to_latch(screen.position.dot),
        Some(row) => dots_to_row(row, screen.position.dot),
    }
}

// How many dots there are up to the one that latches a row and counts sprites.
fn dots_to_latch(dot: u16) -> u32
    requires { dot < 341 }
    ensures { (n d : ℕ) → n < result → IsAlong dot n d → IsAside None d }
{
    if dot <= 257 {
        u32::from(257 - dot)
    } else {
        u32::from(597 - dot)
    }
}

// The same where this one is.
fn dots_to_row(row: SpriteRow, dot: u16) -> u32
    requires { dot < 341 }
    ensures { (n d : ℕ) → n < result → IsAlong dot n d → IsAside (Some row) d }
{
    let left = row.x;
    let first = u16::from(left) + 1;
    if dot > 257 {
        u32::from(340 + first - dot)
    } else if dot < first {
        u32::from(first - dot)
    } else if dot < first + 8 {
        0
    } else {
        u32::from(257 - dot)
    }
}
