//! Laws of pools, each the contract of a function that does nothing.

ghost use Rattle.std.specs.Prelude.{◌≡◌, ◌≤◌, ◌+◌, List, ℕ, length};
ghost use Rattle.nj_image.specs.Pages.{IsImageSize};
ghost use Rattle.nj_pool.specs.Front.{need};

use nj_image::a_packing_tells_its_image;

/// A state needs at most the bytes of its image and 16 more.
pub fn a_need_is_bounded()
    ensures { (base image : List ℕ) → IsImageSize base → length image ≡ length base
        → need base image ≤ length base + 16 }
{
    a_packing_tells_its_image();
}
