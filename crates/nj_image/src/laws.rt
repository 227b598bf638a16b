//! Laws of packings, each the contract of a function that does nothing.

ghost use Rattle.std.specs.Prelude.{◌≡◌, ◌≤◌, ◌+◌, List, ℕ, length};
ghost use Rattle.nj_image.specs.Pages.{IsImageSize};
ghost use Rattle.nj_image.specs.Packing.{packing, unpacked, AreBytes, IsPacking};

/// A packing is that of one image: what `unpack` gives of an image's packing is the image.
/// It has at most one byte more than the image.
pub fn a_packing_tells_its_image()
    ensures one { (image other base : List ℕ) → IsImageSize base → length image ≡ length base
        → length other ≡ length base → packing image base ≡ packing other base → image ≡ other }
    ensures told { (image base : List ℕ) → IsImageSize base → length image ≡ length base
        → unpacked base (packing image base) ≡ image }
    ensures short { (image base : List ℕ) → IsImageSize base → length image ≡ length base
        → length (packing image base) ≤ length base + 1 }
    ensures packed { (image base : List ℕ) → length image ≡ length base → AreBytes image
        → IsPacking base (packing image base) }
{}
