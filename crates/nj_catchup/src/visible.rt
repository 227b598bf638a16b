//! Dots 1 to 256 of visible lines with rendering on, many as one where none of their pixels can be a hit.

ghost use Rattle.std.specs.Prelude.{◌≡◌, ◌≤◌, ◌<◌, ◌+◌, ◌-◌, ◌*◌, ◌%◌, ℕ, false, Some, length};
ghost use Rattle.nj_sprite0.specs.Sprite.{shows_at};
ghost use Rattle.nj_dots.specs.Dots.{after_dots};
ghost use Rattle.nj_catchup.specs.Tiles.{IsQuiet, columns_on, jumped, line_finished, may_hit, tile_run};

use nj_dots::{Screen, shows_both_layers};
use nj_sprite0::SpriteRow;

/// Runs some of the next dots as one, where they are visible and none of their pixels can be a hit. Tells how many, 0
/// where the next dot is another.
pub fn run_visible(screen: &mut Screen, left: u32, pattern: &[u8]) -> u32
    requires pattern { length pattern.now ≡ 8192 }
    ensures dots { screen.new ≡ after_dots result pattern.now screen.old }
    ensures within { result ≤ left }
{
    let quiet = quiet_dots(screen);
    let dots = if u32::from(quiet) < left {
        quiet
    } else {
        left as u16
    };
    let done = run_quiet(screen, dots, pattern);
    u32::from(done)
}

// Runs whole tiles, two of them or more, or what the next tile has of so many dots.
fn run_quiet(screen: &mut Screen, dots: u16, pattern: &[u8]) -> u16
    requires quiet { 1 ≤ dots → IsQuiet dots screen.old }
    requires pattern { length pattern.now ≡ 8192 }
    ensures dots { screen.new ≡ after_dots result pattern.now screen.old }
    ensures within { result ≤ dots }
{
    if dots == 0 {
        return 0;
    }
    let into = (screen.position.dot - 1) % 8;
    if into == 0 && dots >= 16 {
        run_tiles(screen, dots / 8, pattern);
        dots / 8 * 8
    } else {
        let rest = 8 - into;
        let part = if dots < rest { dots } else { rest };
        run_part(screen, part, pattern);
        part
    }
}

// Whole tiles: of all but the last two nothing is left but their number.
fn run_tiles(screen: &mut Screen, tiles: u16, pattern: &[u8])
    requires quiet { IsQuiet (8 * tiles) screen.old }
    requires aligned { screen.old.position.dot % 8 ≡ 1 }
    requires two { 2 ≤ tiles }
    requires pattern { length pattern.now ≡ 8192 }
    ensures { screen.new ≡ after_dots (8 * tiles) pattern.now screen.old }
{
    jump(screen, tiles - 2);
    run_tile(screen, pattern);
    run_tile(screen, pattern);
    finish_line(screen);
}

// Dots of one tile, its last or not.
fn run_part(screen: &mut Screen, dots: u16, pattern: &[u8])
    requires quiet { IsQuiet dots screen.old }
    requires some { 1 ≤ dots }
    requires part { (screen.old.position.dot + 7) % 8 + dots ≤ 8 }
    requires pattern { length pattern.now ≡ 8192 }
    ensures { screen.new ≡ after_dots dots pattern.now screen.old }
{
    screen.shift <<= dots;
    screen.position.dot += dots;
    if screen.position.dot % 8 == 1 {
        screen.fetch_tile(pattern);
        finish_line(screen);
    }
}

// So many tiles on, of which none is fetched.
#[tactic(auto, unfolding(crate::specs::Tiles::jumped))]
fn jump(screen: &mut Screen, tiles: u16)
    requires { screen.old.position.dot + 8 * tiles ≤ 257 }
    ensures { screen.new ≡ jumped tiles screen.old }
{
    screen.position.dot += 8 * tiles;
    screen.scroll.v = columns_on(tiles, screen.scroll.v);
}

// v so many tiles to the right.
#[tactic(auto, unfolding(crate::specs::Tiles::columns_on))]
fn columns_on(tiles: u16, v: u16) -> u16
    requires { tiles ≤ 32 }
    ensures { result ≡ columns_on tiles v }
{
    let column = v % 32 + tiles;
    if column < 32 {
        v + tiles
    } else {
        v / 2048 * 2048 + (1 - v / 1024 % 2) * 1024 + v / 32 % 32 * 32 + (column - 32)
    }
}

/// The eight dots of a tile.
#[tactic(auto, unfolding(crate::specs::Tiles::tile_run, nj_dots::specs::Dots::prefetched))]
pub fn run_tile(screen: &mut Screen, pattern: &[u8])
    requires dot { screen.old.position.dot ≤ 249 }
    requires pattern { length pattern.now ≡ 8192 }
    ensures { screen.new ≡ tile_run pattern.now screen.old }
{
    screen.prefetch(pattern);
    screen.position.dot += 8;
}

/// After the line's last tile Y moves on.
#[tactic(auto, unfolding(crate::specs::Tiles::line_finished))]
pub fn finish_line(screen: &mut Screen)
    ensures { screen.new ≡ line_finished screen.old }
{
    if screen.position.dot == 257 {
        screen.scroll.step_y();
    }
}

// How many of the next dots are those of visible pixels with rendering on, none of which can be a hit.
fn quiet_dots(screen: &Screen) -> u16
    ensures { 1 ≤ result → IsQuiet result screen.now }
{
    let dot = screen.position.dot;
    let visible = 1 <= dot && dot <= 256 && screen.position.line < 240;
    if !visible || screen.near || !screen.is_rendering() {
        return 0;
    }
    quiet_end(screen, dot) - dot
}

// The first dot whose pixel may be a hit, or 257.
#[tactic(auto, unfolding(crate::specs::Tiles::may_hit))]
fn quiet_end(screen: &Screen, dot: u16) -> u16
    requires from { 1 ≤ dot }
    requires last { dot ≤ 256 }
    ensures from { dot ≤ result }
    ensures last { result ≤ 257 }
    ensures misses { (d : ℕ) → dot ≤ d → d < result → may_hit screen.now.mask screen.now.sprite_row d ≡ false }
{
    if !shows_both_layers(screen.mask) {
        return 257;
    }
    match screen.sprite_row {
        None => 257,
        Some(row) => row_from(row, dot),
    }
}

// The first dot from this one on whose pixel is one of the row's, or 257.
#[tactic(auto, unfolding(nj_sprite0::specs::Sprite::is_opaque_at))]
fn row_from(row: SpriteRow, dot: u16) -> u16
    requires from { 1 ≤ dot }
    requires last { dot ≤ 256 }
    ensures from { dot ≤ result }
    ensures last { result ≤ 257 }
    ensures misses { (d : ℕ) → dot ≤ d → d < result → shows_at (Some row) (d - 1) ≡ false }
{
    let first = u16::from(row.x) + 1;
    if dot < first {
        first
    } else if dot < first + 8 {
        dot
    } else {
        257
    }
}
