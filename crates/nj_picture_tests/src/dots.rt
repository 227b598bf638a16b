//! The picture that runs each dot when it is asked for.

ghost use Rattle.std.specs.Prelude.{◌≡◌, length};

use nj_ppu::{DotPicture, Picture, Position};

const START_OF_BLANK: u32 = 241 * 341 + 1;

// A picture that shows both layers and has sprite zero at a place, with the left columns hidden or not.
fn with_sprite(
    y: u8,
    tile: u8,
    attributes: u8,
    x: u8,
    left: bool,
    pattern: &[u8; 8192],
) -> DotPicture {
    let mut picture = DotPicture::new(false);
    picture.write(1, if left { 0x1E } else { 0x18 }, pattern);
    picture.write(3, 0, pattern);
    for byte in [y, tile, attributes, x] {
        picture.write(4, byte, pattern);
    }
    picture
}

fn has_hit(picture: &mut DotPicture, pattern: &[u8; 8192]) -> bool {
    picture.read(2, pattern) & 0x40 != 0
}

// A picture with rendering on, eight sprites at Y 20, a ninth at this Y and the others below the picture.
fn with_ninth(y: u8, pattern: &[u8; 8192]) -> DotPicture {
    let mut picture = DotPicture::new(false);
    for sprite in 0..64u8 {
        let top = match sprite {
            0..=7 => 20,
            8 => y,
            _ => 240,
        };
        for byte in [top, 0, 0, 0] {
            picture.write(4, byte, pattern);
        }
    }
    picture.write(1, 0x18, pattern);
    picture
}

fn has_overflow(picture: &mut DotPicture, pattern: &[u8; 8192]) -> bool {
    picture.read(2, pattern) & 0x20 != 0
}

// A read just before dot (241,1) holds the flag; a read after it takes it.
#[test]
fn status_reads_race_with_vertical_blank(rt: HostRuntime) {
    let pattern = [0u8; 8192];
    let mut held = DotPicture::new(false);
    held.write(0, 0x80, &pattern);
    held.run(START_OF_BLANK, &pattern);
    assert_eq!(rt; held.position(), Position { line: 241, dot: 1 });
    assert_eq!(rt; held.dots_to_event(), 1);
    assert_eq!(rt; held.read(2, &pattern) & 0x80, 0);
    held.run(1, &pattern);
    assert!(rt; !held.nmi_line());
    assert_eq!(rt; held.read(2, &pattern) & 0x80, 0);

    let mut taken = DotPicture::new(false);
    taken.write(0, 0x80, &pattern);
    assert_eq!(rt; taken.dots_to_event(), START_OF_BLANK + 1);
    taken.run(START_OF_BLANK + 1, &pattern);
    assert!(rt; taken.nmi_line());
    assert!(rt; taken.take_end());
    assert!(rt; !taken.take_end());
    assert_eq!(rt; taken.read(2, &pattern) & 0x80, 0x80);
    assert_eq!(rt; taken.read(2, &pattern) & 0x80, 0);
    assert!(rt; !taken.nmi_line());
}

// With all background and sprite zero opaque, there is no hit at pixel 255 nor in hidden left columns.
#[test]
fn hits_keep_out_of_the_edges(rt: HostRuntime) {
    let pattern = [0xFFu8; 8192];
    for (x, left) in [(255, true), (0, false)] {
        let mut picture = with_sprite(0, 0, 0, x, left, &pattern);
        picture.run(START_OF_BLANK, &pattern);
        assert!(rt; !has_hit(&mut picture, &pattern), "at {x}");
    }
}

// A sprite at X 3 and Y 0, with the left columns hidden, first hits at pixel 8 of line 1: its flag rises at dot 10.
#[test]
fn the_first_hit_is_on_the_line_below(rt: HostRuntime) {
    let pattern = [0xFFu8; 8192];
    let mut picture = with_sprite(0, 0, 0, 3, false, &pattern);
    picture.run(341 + 10, &pattern);
    assert_eq!(rt; picture.position(), Position { line: 1, dot: 10 });
    assert!(rt; !has_hit(&mut picture, &pattern));
    picture.run(1, &pattern);
    assert!(rt; has_hit(&mut picture, &pattern));
}

// A tall sprite of tile $02, upside down, with row 7 of tile 3 alone opaque, hits on line Y + 1.
#[test]
fn tall_sprites_flip_as_one(rt: HostRuntime) {
    let mut pattern = [0u8; 8192];
    for row in 0..8usize {
        pattern[row] = 0xFF;
    }
    pattern[3 * 16 + 7] = 0xFF;
    let mut picture = with_sprite(20, 2, 0x80, 16, true, &pattern);
    picture.write(0, 0x20, &pattern);
    picture.run(21 * 341, &pattern);
    assert!(rt; !has_hit(&mut picture, &pattern));
    picture.run(341, &pattern);
    assert!(rt; has_hit(&mut picture, &pattern));
}

// Where a picture stands when it writes an image, and where it stands and what its status is 70,000 dots later; and the
// same of the picture that then takes the image.
fn image_taken_again<P: Picture>(
    picture: &mut P,
    pattern: &[u8],
) -> ((Position, Position, u8), (Position, Position, u8))
    requires { length pattern.now ≡ 8192 }
{
    let mut image = [0u8; 4480];
    picture.take_end();
    picture.settle(pattern);
    picture.put(&mut image);
    let written = picture.position();
    picture.run(70_000, pattern);
    let after = picture.position();
    let status = picture.read(2, pattern);
    picture.get(&image);
    let taken = picture.position();
    picture.run(70_000, pattern);
    let end = picture.position();
    let again = picture.read(2, pattern);
    ((written, after, status), (taken, end, again))
}

// A picture that takes an image goes on as the one that wrote it did.
#[test]
fn images_give_the_picture_again(rt: HostRuntime) {
    let pattern = [0xFFu8; 8192];
    let mut picture = with_sprite(30, 1, 0, 40, true, &pattern);
    picture.write(6, 0x21, &pattern);
    picture.run(12_345, &pattern);
    let (first, second) = image_taken_again(&mut picture, &pattern);
    assert_eq!(rt; first, second);
}

// A ninth sprite on line 27 raises the overflow flag at dot (27,257), and it falls at (261,1).
#[test]
fn a_ninth_sprite_overflows(rt: HostRuntime) {
    let pattern = [0u8; 8192];
    let mut picture = with_ninth(27, &pattern);
    picture.run(27 * 341 + 257, &pattern);
    assert!(rt; !has_overflow(&mut picture, &pattern));
    picture.run(1, &pattern);
    assert!(rt; has_overflow(&mut picture, &pattern));
    picture.run(234 * 341 - 257, &pattern);
    assert_eq!(rt; picture.position(), Position { line: 261, dot: 1 });
    assert!(rt; has_overflow(&mut picture, &pattern));
    picture.run(1, &pattern);
    assert!(rt; !has_overflow(&mut picture, &pattern));

    let mut eight = with_ninth(240, &pattern);
    eight.run(START_OF_BLANK, &pattern);
    assert!(rt; !has_overflow(&mut eight, &pattern));
}
