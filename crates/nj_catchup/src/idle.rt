//! Dots that do nothing but move the position on.

ghost use Rattle.std.specs.Prelude.{◌≡◌, ◌≤◌, ◌<◌, ◌+◌, ℕ, List, true};
ghost use Rattle.nj_dots.specs.Dots.{after_dots};
ghost use Rattle.nj_catchup.specs.Idle.{at_dot, is_cleared, is_idle, is_idle_shown};

use nj_dots::{Screen, is_drawn_line};

/// The number of the next dots that do nothing but move the position on along its line.
pub fn idle_dots(screen: &Screen) -> u16
    requires { screen.now.position.dot < 341 }
    ensures idle { (p : List ℕ) (n : ℕ) → n ≤ result
        → after_dots n p screen.now ≡ at_dot screen.now (screen.now.position.dot + n) }
    ensures within { screen.now.position.dot + result ≤ 341 }
{
    if screen.near {
        return 0;
    }
    let draws = is_drawn_line(screen.position.line);
    let dot = screen.position.dot;
    idle_end(draws, screen.is_rendering(), is_cleared(screen), dot) - dot
}

// Where the idle dots from a dot on end.
#[tactic(auto, unfolding(crate::specs::Idle::is_idle, crate::specs::Idle::is_idle_hidden))]
fn idle_end(draws: bool, renders: bool, cleared: bool, dot: u16) -> u16
    requires { dot < 341 }
    ensures from { dot ≤ result }
    ensures idle { (d : ℕ) → dot ≤ d → d < result → is_idle draws renders cleared d ≡ true }
    ensures within { result ≤ 341 }
{
    if dot < 2 || dot > 338 {
        dot
    } else if !draws {
        339
    } else if renders {
        shown_idle_end(cleared, dot)
    } else if dot <= 257 {
        257
    } else {
        339
    }
}

// The same with rendering on.
#[tactic(auto, unfolding(crate::specs::Idle::is_idle_shown))]
fn shown_idle_end(cleared: bool, dot: u16) -> u16
    requires { dot ≤ 338 }
    ensures from { dot ≤ result }
    ensures idle { (d : ℕ) → dot ≤ d → d < result → is_idle_shown cleared d ≡ true }
    ensures within { result ≤ 339 }
{
    if dot < 258 || (dot <= 320 && !cleared) {
        dot
    } else if dot <= 328 {
        328
    } else if dot <= 336 {
        336
    } else {
        339
    }
}

#[tactic(auto, unfolding(crate::specs::Idle::is_cleared))]
fn is_cleared(screen: &Screen) -> bool
    ensures { result ≡ is_cleared screen.now }
{
    screen.position.line < 240 && screen.oam_address == 0
}
