//! Packing and unpacking.

ghost use Rattle.std.specs.Prelude.{◌≡◌, ◌<◌, ◌≤◌, ◌+◌, ◌*◌, ◌/◌, ◌%◌, ◌-◌, ◌++◌, ◌∷◌, ℕ, not, length, take, drop, replicate, if◌then◌else◌, false, true, MatchResult, Some, None};
ghost use Rattle.nj_image.specs.Pages.{IsImageSize, pages, page_count, flags_of, mask_size, mask_of, flag_in, flags_in, overwritten};
ghost use Rattle.nj_image.specs.Packing.{all_of, flagged, packing, IsPacking, IsDamagedAt};
ghost use Rattle.nj_image.specs.Filling.{merged, stop, later};

use crate::masks::{PAGE, differs, every_flagged, is_flagged, page_mask};

// The bytes of the longest mask.
const MASK_ROOM: usize = 25;

/// Bytes that are no packing: how many of them are those of one.
#[derive(Clone, Copy, Debug, PartialEq, Eq)]
pub struct Damaged {
    pub at: usize,
}

// Copies bytes to a place.
fn place(into: &mut [u8], at: usize, bytes: &[u8])
    requires { at + length bytes.now ≤ length into.old }
    ensures { into.new ≡ overwritten at bytes.now into.old }
{
    into[at..at + bytes.len()].copy_from_slice(bytes);
}

// Writes the flagged pages of an image, one behind the other, and tells where they end.
fn put_flagged(image: &[u8], mask: &[u8], start: usize, into: &mut [u8]) -> usize
    requires mask { page_count image.now ≤ 8 * length mask.now }
    requires room { start + length (flagged (flags_in (page_count image.now) mask.now) (pages image.now))
        ≤ length into.old }
    ensures bytes { take result into.new
        ≡ take start into.old ++ flagged (flags_in (page_count image.now) mask.now) (pages image.now) }
    ensures len { length into.new ≡ length into.old }
    ensures end { result ≡ start + length (flagged (flags_in (page_count image.now) mask.now) (pages image.now)) }
{
    let mut at = start;
    for page in 0..image.len() / PAGE {
        if is_flagged(mask, page) {
            place(into, at, &image[PAGE * page..PAGE * page + PAGE]);
            at += PAGE;
        }
    }
    at
}

/// Writes the packing of an image and tells its length, which is at most one more than the image's.
pub fn pack(image: &[u8], base: &[u8], into: &mut [u8]) -> usize
    requires base { IsImageSize base.now }
    requires image { length image.now ≡ length base.now }
    requires room { length image.now + 1 ≤ length into.old }
    ensures bytes { take result into.new ≡ packing image.now base.now }
    ensures len { result ≡ length (packing image.now base.now) }
{
    let pages = base.len() / PAGE;
    let size = (pages + 7) / 8;
    let mut room = [0; MASK_ROOM];
    let mask = &mut room[..size];
    page_mask(image, base, mask);
    if every_flagged(mask, pages) {
        into[0] = 0;
        place(into, 1, image);
        return 1 + image.len();
    }
    into[0] = 1;
    place(into, 1, mask);
    put_flagged(image, mask, 1 + size, into)
}

// Reads the flagged pages of an image from a place on; the others are the base's.
fn fill(
    bytes: &[u8],
    start: usize,
    mask: &[u8],
    base: &[u8],
    into: &mut [u8],
) -> Result<(), Damaged>
    requires start { start ≤ length bytes.now }
    requires mask { page_count base.now ≤ 8 * length mask.now }
    requires pages { 64 * page_count base.now ≡ length base.now }
    requires image { length into.old ≡ length base.now }
    ensures { MatchResult result
        (λ _. (stop (flags_in (page_count base.now) mask.now) (pages base.now) (drop start bytes.now) ≡ None)
        × (into.new ≡ merged (flags_in (page_count base.now) mask.now) (pages base.now) (drop start bytes.now)))
        (λ damaged. stop (flags_in (page_count base.now) mask.now) (pages base.now) (drop start bytes.now)
        ≡ Some (damaged.at - start) × (start ≤ damaged.at)) }
{
    let mut from = start;
    for page in 0..base.len() / PAGE {
        let at = PAGE * page;
        let under = &base[at..at + PAGE];
        if is_flagged(mask, page) {
            if bytes.len() - from < PAGE {
                return Err(Damaged { at: bytes.len() });
            }
            let over = &bytes[from..from + PAGE];
            if !differs(over, under) {
                return Err(Damaged {
                    at: from + PAGE - 1,
                });
            }
            place(into, at, over);
            from += PAGE;
        } else {
            place(into, at, under);
        }
    }
    if from < bytes.len() {
        return Err(Damaged { at: from });
    }
    Ok(())
}

/// The image of a packing. The bytes are damaged exactly where they are no packing over this base; then it is told how
/// many of the first are those of one, and `into` holds anything.
pub fn unpack(bytes: &[u8], base: &[u8], into: &mut [u8]) -> Result<(), Damaged>
    requires base { IsImageSize base.now }
    requires image { length into.old ≡ length base.now }
    ensures { MatchResult result (λ _. (length into.new ≡ length base.now)
        × (packing into.new base.now ≡ bytes.now)) (λ damaged. IsDamagedAt base.now bytes.now damaged.at) }
{
    let pages = base.len() / PAGE;
    let size = (pages + 7) / 8;
    if bytes.is_empty() || bytes[0] > 1 {
        return Err(Damaged { at: 0 });
    }
    if bytes[0] == 0 {
        return fill(bytes, 1, [0xFF; MASK_ROOM].as_slice(), base, into);
    }
    if bytes.len() <= size {
        return Err(Damaged { at: bytes.len() });
    }
    let mask = &bytes[1..1 + size];
    if mask[size - 1] >= 64 || every_flagged(mask, pages) {
        return Err(Damaged { at: size });
    }
    fill(bytes, 1 + size, mask, base, into)
}

#[cfg(test)]
mod tests {
    use super::*;
    use std::alloc::AllocError;
    use std::test::Fail;

    // Whether these bytes unpack over a base of zeros to an image.
    fn unpacked(bytes: &[u8]) -> Result<[u8; 4480], Damaged> {
        let mut image = [0x55; 4480];
        unpack(bytes, [0; 4480].as_slice(), image.as_mut_slice())?;
        Ok(image)
    }

    // The packing of an image over a base of zeros has this length, and gives the image back.
    fn packed_length(image: &[u8; 4480]) -> (usize, bool) {
        let mut into = [0x55; 4481];
        let length = pack(image.as_slice(), [0; 4480].as_slice(), into.as_mut_slice());
        let back = unpacked(&into[..length]);
        (length, back == Ok(*image))
    }

    #[test]
    fn packings(rt: HostRuntime) {
        let mut image = [0; 4480];
        assert_eq!(rt; packed_length(&image), (10, true));
        image[4479] = 7;
        assert_eq!(rt; packed_length(&image), (74, true));
        assert_eq!(rt; packed_length(&[9; 4480]), (4481, true));
    }

    #[test]
    fn damage(rt: HostRuntime) {
        let whole = [1, 0, 0, 0, 0, 0, 0, 0, 0, 0];
        assert_eq!(rt; unpacked(whole.as_slice()), Ok([0; 4480]));
        assert_eq!(rt;
            unpacked([1, 0, 0, 0, 0, 0, 0, 0, 0, 0x40].as_slice()),
            Err(Damaged { at: 9 })
        );
        assert_eq!(rt; unpacked([].as_slice()), Err(Damaged { at: 0 }));
        assert_eq!(rt; unpacked([2].as_slice()), Err(Damaged { at: 0 }));
        assert_eq!(rt;
            unpacked([1, 0, 0, 0, 0, 0, 0, 0, 0, 0, 0].as_slice()),
            Err(Damaged { at: 10 })
        );
        assert_eq!(rt; unpacked(&whole[..5]), Err(Damaged { at: 5 }));
        assert_eq!(rt; unpacked([0; 65].as_slice()), Err(Damaged { at: 64 }));
    }
}
