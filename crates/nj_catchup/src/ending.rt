//! The end of a line.

ghost use Rattle.std.specs.Prelude.{◌≡◌, ◌≤◌, ℕ, List};
ghost use Rattle.nj_dots.specs.Dots.{after_dots};

use nj_dots::{Position, Screen};

/// Runs what is left of a line from dot 337 on, and dot 0 of the next, as one: they move the position alone. Tells how
/// many dots, 0 where others are next or not all of them are to be run.
pub fn end_line(screen: &mut Screen, left: u32) -> u32
    ensures dots { (p : List ℕ) → screen.new ≡ after_dots result p screen.old }
    ensures within { result ≤ left }
{
    let Position { line, dot } = screen.position;
    if screen.near || line >= 260 || dot < 337 || dot > 340 || left < 5 {
        return 0;
    }
    screen.position = Position {
        line: line + 1,
        dot: 1,
    };
    u32::from(342 - dot)
}
