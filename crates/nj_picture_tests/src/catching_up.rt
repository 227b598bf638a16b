//! The picture that catches up.

use nj_catchup::{CatchUp, Picture, Position};

const START_OF_BLANK: u32 = 241 * 341 + 1;

// A picture that shows both layers and has sprite zero at a place, with the left columns hidden or not.
fn with_sprite(
    y: u8,
    tile: u8,
    attributes: u8,
    x: u8,
    left: bool,
    pattern: &[u8; 8192],
) -> CatchUp {
    let mut picture = CatchUp::new(false);
    picture.write(1, if left { 0x1E } else { 0x18 }, pattern);
    picture.write(3, 0, pattern);
    for byte in [y, tile, attributes, x] {
        picture.write(4, byte, pattern);
    }
    picture
}

fn has_hit(picture: &mut CatchUp, pattern: &[u8; 8192]) -> bool {
    picture.read(2, pattern) & 0x40 != 0
}

// A picture with rendering on, eight sprites at Y 20, a ninth at this Y and the others below the picture.
fn with_ninth(y: u8, pattern: &[u8; 8192]) -> CatchUp {
    let mut picture = CatchUp::new(false);
    for sprite in 0..64u8 {
        let top = match sprite {
            0..=7 => 20,
            8 => y,
            _ => 240,
        };
        for byte in [top, 0, 0, 0] {
            picture.write(4, byte, pattern);
        }
    }
    picture.write(1, 0x18, pattern);
    picture
}

fn has_overflow(picture: &mut CatchUp, pattern: &[u8; 8192]) -> bool {
    picture.read(2, pattern) & 0x20 != 0
}

// A read just before dot (241,1) holds the flag; a read after it takes it.
#[test]
fn status_reads_race_with_vertical_blank(rt: HostRuntime) {
    let pattern = [0u8; 8192];
    let mut held = CatchUp::new(false);
    held.write(0, 0x80, &pattern);
    held.run(START_OF_BLANK, &pattern);
    assert_eq!(rt; held.position(), Position { line: 241, dot: 1 });
    assert_eq!(rt; held.dots_to_event(), 1);
    assert_eq!(rt; held.read(2, &pattern) & 0x80, 0);
    held.run(1, &pattern);
    assert!(rt; !held.nmi_line());
    assert_eq!(rt; held.read(2, &pattern) & 0x80, 0);

    let mut taken = CatchUp::new(false);
    taken.write(0, 0x80, &pattern);
    assert_eq!(rt; taken.dots_to_event(), START_OF_BLANK + 1);
    taken.run(START_OF_BLANK + 1, &pattern);
    assert!(rt; taken.nmi_line());
    assert!(rt; taken.take_end());
    assert!(rt; !taken.take_end());
    assert_eq!(rt; taken.read(2, &pattern) & 0x80, 0x80);
    assert_eq!(rt; taken.read(2, &pattern) & 0x80, 0);
}

// A sprite at X 3 and Y 0, with the left columns hidden, first hits at pixel 8 of line 1: its flag rises at dot 10.
#[test]
fn the_first_hit_is_on_the_line_below(rt: HostRuntime) {
    let pattern = [0xFFu8; 8192];
    let mut picture = with_sprite(0, 0, 0, 3, false, &pattern);
    picture.run(341 + 10, &pattern);
    assert_eq!(rt; picture.position(), Position { line: 1, dot: 10 });
    assert!(rt; !has_hit(&mut picture, &pattern));
    picture.run(1, &pattern);
    assert!(rt; has_hit(&mut picture, &pattern));
}

// A sprite at X 100 hits at pixel 100 of line 1: its flag rises at dot 102. Reads of $2002 that come every 21 dots see
// it at the first read from there on, and so does one read after the line was run as one.
#[test]
fn a_hit_inside_a_line_is_seen(rt: HostRuntime) {
    let pattern = [0xFFu8; 8192];
    let mut polled = with_sprite(0, 0, 0, 100, true, &pattern);
    for _ in 0..21 {
        polled.run(21, &pattern);
        assert!(rt; !has_hit(&mut polled, &pattern));
    }
    polled.run(21, &pattern);
    assert!(rt; has_hit(&mut polled, &pattern));
    assert_eq!(rt; polled.position(), Position { line: 1, dot: 121 });

    let mut at_once = with_sprite(0, 0, 0, 100, true, &pattern);
    at_once.run(2 * 341, &pattern);
    assert!(rt; has_hit(&mut at_once, &pattern));
}

// A settled picture writes its position into an image, 1,000 dots from power-on.
#[test]
fn an_image_has_the_settled_position(rt: HostRuntime) {
    let pattern = [0xFFu8; 8192];
    let mut picture = with_sprite(0, 0, 0, 100, true, &pattern);
    picture.run(1000, &pattern);
    picture.settle(&pattern);
    let mut image = [0u8; 4448];
    picture.put(&mut image);
    assert_eq!(rt; &image[4384..4388], [2u8, 0, 62, 1].as_slice());
}

// A ninth sprite on line 27 raises the overflow flag at dot (27,257), also where dots before it are pending from one
// read to the next, and it falls at (261,1).
#[test]
fn a_ninth_sprite_overflows(rt: HostRuntime) {
    let pattern = [0u8; 8192];
    let mut picture = with_ninth(27, &pattern);
    picture.run(27 * 341 + 200, &pattern);
    assert!(rt; !has_overflow(&mut picture, &pattern));
    picture.run(57, &pattern);
    assert!(rt; !has_overflow(&mut picture, &pattern));
    picture.run(1, &pattern);
    assert!(rt; has_overflow(&mut picture, &pattern));
    picture.run(234 * 341 - 257, &pattern);
    assert_eq!(rt; picture.position(), Position { line: 261, dot: 1 });
    assert!(rt; has_overflow(&mut picture, &pattern));
    picture.run(1, &pattern);
    assert!(rt; !has_overflow(&mut picture, &pattern));

    let mut eight = with_ninth(240, &pattern);
    eight.run(START_OF_BLANK, &pattern);
    assert!(rt; !has_overflow(&mut eight, &pattern));
}
