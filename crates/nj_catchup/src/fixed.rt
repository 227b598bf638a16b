//! For how long reads of $2002 answer the same and change nothing.

ghost use Rattle.std.specs.Prelude.{◌≡◌, ◌<◌, ◌+◌, ℕ, List, true};
ghost use Rattle.nj_dots.specs.Screen.{IsScreen};
ghost use Rattle.nj_dots.specs.Dots.{to_event};
ghost use Rattle.nj_dots.specs.Registers.{weighed};
ghost use Rattle.nj_catchup.specs.Fixed.{IsRead};
ghost use Rattle.nj_catchup.specs.Steady.{IsSteady};

use crate::steady::{dots_to_hit, dots_to_sprite, is_steady};
use nj_dots::Screen;

/// What reads of $2002 answer, and for how many dots they do so and change nothing.
#[derive(Clone, Copy)]
pub struct FixedStatus {
    pub status: u8,
    pub dots: u32,
}

// A flag as a bit of that weight.
fn weighed(flag: bool, weight: u8) -> u8
    ensures { result ≡ weighed flag weight }
{
    if flag { weight } else { 0 }
}

/// A read of $2002 changes nothing now but what it does to the flag's hold.
#[tactic(auto, unfolding(nj_dots::specs::Registers::status_byte))]
pub fn was_read(screen: &Screen) -> bool
    ensures { result ≡ true → IsRead screen.now }
{
    if screen.vertical_blank || screen.scroll.w {
        return false;
    }
    let hit = weighed(screen.sprite_zero_hit, 64);
    let overflow = weighed(screen.sprite_overflow, 32);
    screen.latch == hit + overflow + screen.latch % 32
}

/// Some of the next dots, all of which leave what a read of $2002 answers: those before the next event, those up to the
/// first line of sprite zero, or those up to the next that latches a row of it or may be a hit.
pub fn steady_dots(screen: &Screen) -> u32
    requires fits { IsScreen screen.now }
    ensures { (p : List ℕ) → 0 < result → IsSteady result p screen.now }
{
    let event = screen.dots_to_event();
    let far = event.saturating_sub(2);
    if is_steady(screen, far) {
        return far;
    }
    let away = dots_to_sprite(screen).min(far);
    let near = dots_to_hit(screen).min(far);
    if near < away && is_steady(screen, away) {
        return away;
    }
    if is_steady(screen, near) { near } else { 0 }
}
