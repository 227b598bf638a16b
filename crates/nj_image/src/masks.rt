//! Which pages of an image differ from the base's.

ghost use Rattle.std.specs.Prelude.{◌≡◌, ◌≢◌, ◌↔◌, ◌<◌, ◌≤◌, ◌+◌, ◌*◌, ◌/◌, ◌%◌, ℕ, not, length, take, drop, get_or, slice_index, if◌then◌else◌, false, true};
ghost use Rattle.std.specs.Str.{bytes_eq};
ghost use Rattle.std.specs.Int.{bit_at};
ghost use Rattle.std.specs.Simd.Lanes.{mask_l};
ghost use Rattle.nj_image.specs.Pages.{IsImageSize, page_at, page_count, flags_of, mask_size, mask_of, flag_in, flags_in};
ghost use Rattle.nj_image.specs.Packing.{all_of};

use std::simd::prelude::*;

/// The bytes of a page.
pub(crate) const PAGE: usize = 64;

/// Whether two pages differ, lane by lane.
#[inline]
pub(crate) fn differs(page: &[u8], base: &[u8]) -> bool
    requires page { length page.now ≡ 64 }
    requires base { length base.now ≡ 64 }
    ensures { result ≡ not (bytes_eq page.now base.now) }
{
    u8x64::from_slice(page)
        .simd_ne(u8x64::from_slice(base))
        .any()
}

// Whether a page differs from the base's. A page behind the last does not.
#[inline]
fn page_differs(image: &[u8], base: &[u8], page: usize) -> bool
    requires size { length image.now ≡ length base.now }
    requires few { page < 1024 }
    ensures { result ≡ get_or (flags_of image.now base.now) page false }
{
    let at = PAGE * page;
    if at + PAGE <= base.len() {
        differs(&image[at..at + PAGE], &base[at..at + PAGE])
    } else {
        false
    }
}

// The same as a bit.
#[inline]
fn flag(image: &[u8], base: &[u8], page: usize) -> u8
    requires size { length image.now ≡ length base.now }
    requires few { page < 1024 }
    ensures flag { result ≡ (if get_or (flags_of image.now base.now) page false then 1 else 0) }
    ensures bit { result ≤ 1 }
{
    if page_differs(image, base, page) {
        1
    } else {
        0
    }
}

// The flags of eight pages, the first in the lowest bit.

fn mask_byte(image: &[u8], base: &[u8], first: usize) -> u8
    requires size { length image.now ≡ length base.now }
    requires few { first < 1000 }
    ensures { result ≡ mask_l (take 8 (drop first (flags_of image.now base.now))) }
{
    let high = flag(image, base, first + 6) + 2 * flag(image, base, first + 7);
    let high = flag(image, base, first + 4) + 2 * (flag(image, base, first + 5) + 2 * high);
    let high = flag(image, base, first + 2) + 2 * (flag(image, base, first + 3) + 2 * high);
    flag(image, base, first) + 2 * (flag(image, base, first + 1) + 2 * high)
}

/// The mask of the pages that differ from those of the base: bit p mod 8 of byte p div 8 tells page p. An image has
/// 4,480 bytes or 12,672, and a mask 9 or 25.
pub fn page_mask(image: &[u8], base: &[u8], mask: &mut [u8])
    requires base { IsImageSize base.now }
    requires image { length image.now ≡ length base.now }
    requires mask { length mask.old ≡ mask_size base.now }
    ensures mask { mask.new ≡ mask_of image.now base.now }
    ensures pages { (p : ℕ) → p < page_count base.now
        → (flag_in mask.new p ≡ true) ↔ (page_at image.now p ≢ page_at base.now p) }
{
    for place in 0..mask.len() {
        mask[place] = mask_byte(image, base, 8 * place);
    }
}

/// Whether a page is flagged in a mask.
pub(crate) fn is_flagged(mask: &[u8], page: usize) -> bool
    requires { page / 8 < length mask.now }
    ensures { result ≡ flag_in mask.now page }
{
    mask[page / 8] >> (page % 8) & 1 == 1
}

/// Whether each of so many pages is flagged.
pub(crate) fn every_flagged(mask: &[u8], pages: usize) -> bool
    requires { pages ≤ 8 * length mask.now }
    ensures { result ≡ all_of (flags_in pages mask.now) }
{
    for page in 0..pages {
        if !is_flagged(mask, page) {
            return false;
        }
    }
    true
}
