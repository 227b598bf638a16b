//! Where the picture is once its pending dots have run.

ghost use Rattle.std.specs.Prelude.{◌≡◌, ◌<◌, ◌≤◌, ◌&&◌, ℕ, List};
ghost use Rattle.nj_dots.specs.Screen.{IsScreen, is_rendering};
ghost use Rattle.nj_dots.specs.Dots.{after_dots, to_event};
ghost use Rattle.nj_catchup.specs.Place.{frame_dots, place_ahead};

use nj_dots::{DOTS_OF_FRAME, DOTS_OF_LINE, Position, Screen};

/// The position a number of dots ahead, before the next change of the vertical blank flag.
pub fn position_ahead(screen: &Screen, dots: u32) -> Position
    requires fits { IsScreen screen.now }
    requires before_event { dots < to_event screen.now }
    ensures { (p : List ℕ) → result ≡ (after_dots dots p screen.now).position }
{
    let ahead = place_ahead(dots, screen.position.place(), skips_dot(screen));
    Position {
        line: (ahead / DOTS_OF_LINE) as u16,
        dot: (ahead % DOTS_OF_LINE) as u16,
    }
}

// The place a number of dots ahead, counted from 0 in its frame.
#[tactic(auto, unfolding(crate::specs::Place::place_ahead))]
fn place_ahead(dots: u32, place: u32, skips: bool) -> u32
    requires dots { dots ≤ 89342 }
    requires place { place < 89342 }
    ensures place { result ≡ place_ahead dots place skips }
    ensures within { result ≤ 178684 }
{
    let frame = frame_dots(place, skips);
    if place + dots < frame {
        place + dots
    } else {
        place + dots - frame
    }
}

// The number of dots of a frame, seen from a place in it.
#[tactic(auto, unfolding(crate::specs::Place::frame_dots))]
fn frame_dots(place: u32, skips: bool) -> u32
    ensures { result ≡ frame_dots place skips }
{
    if place <= DOTS_OF_FRAME - 2 && skips {
        DOTS_OF_FRAME - 1
    } else {
        DOTS_OF_FRAME
    }
}

// The frame leaves its last dot out.
fn skips_dot(screen: &Screen) -> bool
    ensures { result ≡ (screen.now.odd_frame && is_rendering screen.now.mask) }
{
    screen.odd_frame && screen.is_rendering()
}
