//! Many dots of a picture.

ghost use Rattle.std.specs.Prelude.{◌≡◌, ◌≤◌, length};
ghost use Rattle.nj_dots.specs.Screen.{IsScreen};
ghost use Rattle.nj_dots.specs.Dots.{after_dots};

use crate::blank::run_blank;
use crate::ending::end_line;
use crate::idle::idle_dots;
use crate::line::run_pixels;
use crate::skip::run_lines;
use nj_dots::Screen;

/// Runs the next dots.
pub fn advance(screen: &mut Screen, dots: u32, pattern: &[u8])
    requires fits { IsScreen screen.old }
    requires pattern { length pattern.now ≡ 8192 }
    ensures dots { screen.new ≡ after_dots dots pattern.now screen.old }
    ensures fits { IsScreen screen.new }
{
    let mut left = dots;
    while left > 0 {
        left -= advance_some(screen, left, pattern);
    }
}

// Runs some of the next dots as one, one dot at least.
fn advance_some(screen: &mut Screen, left: u32, pattern: &[u8]) -> u32
    requires fits { IsScreen screen.old }
    requires pattern { length pattern.now ≡ 8192 }
    requires left { 1 ≤ left }
    ensures dots { screen.new ≡ after_dots result pattern.now screen.old }
    ensures some { 1 ≤ result }
    ensures within { result ≤ left }
    ensures fits { IsScreen screen.new }
{
    let ending = end_line(screen, left);
    if ending > 0 {
        return ending;
    }
    run_more(screen, left, pattern)
}

// The same where no line ends.
fn run_more(screen: &mut Screen, left: u32, pattern: &[u8]) -> u32
    requires fits { IsScreen screen.old }
    requires pattern { length pattern.now ≡ 8192 }
    requires left { 1 ≤ left }
    ensures dots { screen.new ≡ after_dots result pattern.now screen.old }
    ensures some { 1 ≤ result }
    ensures within { result ≤ left }
    ensures fits { IsScreen screen.new }
{
    let blank = run_blank(screen, left);
    if blank > 0 {
        return blank;
    }
    run_drawn(screen, left, pattern)
}

// The same where the next dot is one of a line that is drawn.
fn run_drawn(screen: &mut Screen, left: u32, pattern: &[u8]) -> u32
    requires fits { IsScreen screen.old }
    requires pattern { length pattern.now ≡ 8192 }
    requires left { 1 ≤ left }
    ensures dots { screen.new ≡ after_dots result pattern.now screen.old }
    ensures some { 1 ≤ result }
    ensures within { result ≤ left }
    ensures fits { IsScreen screen.new }
{
    let lines = run_lines(screen, left, pattern);
    if lines > 0 {
        return lines;
    }
    run_idle(screen, left, pattern)
}

// The same where dot 257 is not the next.
fn run_idle(screen: &mut Screen, left: u32, pattern: &[u8]) -> u32
    requires fits { IsScreen screen.old }
    requires pattern { length pattern.now ≡ 8192 }
    requires left { 1 ≤ left }
    ensures dots { screen.new ≡ after_dots result pattern.now screen.old }
    ensures some { 1 ≤ result }
    ensures within { result ≤ left }
    ensures fits { IsScreen screen.new }
{
    let idle = idle_dots(screen);
    if idle > 0 {
        let dots = if u32::from(idle) < left {
            idle
        } else {
            left as u16
        };
        screen.position.dot += dots;
        u32::from(dots)
    } else {
        run_shown(screen, left, pattern)
    }
}

// The same where the next dot does more than move the position.
fn run_shown(screen: &mut Screen, left: u32, pattern: &[u8]) -> u32
    requires fits { IsScreen screen.old }
    requires pattern { length pattern.now ≡ 8192 }
    requires left { 1 ≤ left }
    ensures dots { screen.new ≡ after_dots result pattern.now screen.old }
    ensures some { 1 ≤ result }
    ensures within { result ≤ left }
    ensures fits { IsScreen screen.new }
{
    let dots = run_pixels(screen, left, pattern);
    if dots > 0 {
        dots
    } else {
        screen.dot(pattern);
        1
    }
}
