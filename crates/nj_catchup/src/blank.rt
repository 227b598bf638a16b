//! Dots of many lines that do nothing but move the position on.

ghost use Rattle.std.specs.Prelude.{◌≡◌, ◌≤◌, ◌<◌, ℕ, List};
ghost use Rattle.nj_dots.specs.Screen.{IsPlaced};
ghost use Rattle.nj_dots.specs.Dots.{after_dots};
ghost use Rattle.nj_catchup.specs.Place.{IsBetween, IsBlank};

use nj_dots::{BLANK_BEGINS, BLANK_ENDS, DOTS_OF_FRAME, DOTS_OF_LINE, Position, Screen};

// The place of dot (240,0), the first below the visible lines.
const VISIBLE_ENDS: u32 = 81_840;

// The place of dot (261,0), the first of the pre-render line.
const PRE_RENDER_BEGINS: u32 = 89_001;

/// Runs some of the next dots as one, up to the next of the frame that does more than move the position on: one that
/// changes the vertical blank flag, is the frame's last, or draws. Tells how many, 0 where the next dot is such a one.
pub fn run_blank(screen: &mut Screen, left: u32) -> u32
    requires { IsPlaced screen.old.position }
    ensures dots { (p : List ℕ) → screen.new ≡ after_dots result p screen.old }
    ensures within { result ≤ left }
{
    if screen.near {
        return 0;
    }
    let place = screen.position.place();
    let dots = (blank_end(screen, place) - place).min(left);
    let ahead = place + dots;
    screen.position = Position {
        line: (ahead / DOTS_OF_LINE) as u16,
        dot: (ahead % DOTS_OF_LINE) as u16,
    };
    dots
}

// The place up to which dots do nothing but move the position on, from this place on.
fn blank_end(screen: &Screen, place: u32) -> u32
    requires { place < 89342 }
    ensures from { place ≤ result }
    ensures last { result ≤ 89341 }
    ensures blank { (n : ℕ) → place ≤ n → n < result → IsBlank screen.now n }
{
    if !screen.is_rendering() && screen.sprite_row.is_none() {
        return hidden_end(place);
    }
    if VISIBLE_ENDS <= place && place <= BLANK_BEGINS {
        BLANK_BEGINS
    } else if VISIBLE_ENDS <= place && place <= PRE_RENDER_BEGINS {
        PRE_RENDER_BEGINS
    } else {
        place
    }
}

// The same with rendering off.
fn hidden_end(place: u32) -> u32
    requires { place < 89342 }
    ensures from { place ≤ result }
    ensures last { result ≤ 89341 }
    ensures between { (n : ℕ) → place ≤ n → n < result → IsBetween n }
{
    if place <= BLANK_BEGINS {
        BLANK_BEGINS
    } else if place <= BLANK_ENDS {
        BLANK_ENDS
    } else {
        DOTS_OF_FRAME - 1
    }
}
