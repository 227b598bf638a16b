//! The tests of what stands behind the last key.

ghost use Rattle.std.specs.Prelude.{◌≡◌, ◌≤◌, ◌∷◌, [], length};
ghost use Rattle.std.specs.Result.{result_err};
ghost use Rattle.nj_saved.specs.Reading.{tail_tests, trailing, hash_tests, first_refusal};

use crate::SavedRefused;
use crate::fields::{short, u32_at, u64_at};
use nj_bytes::fnv;

// Tests that no bytes stand behind a place.
fn check_end(file: &[u8], end: usize) -> Result<(), SavedRefused>
    ensures { first_refusal (trailing file.now end ∷ []) ≡ result_err result }
{
    if end < file.len() {
        return Err(SavedRefused::Trailing { at: end as u64 });
    }
    Ok(())
}

// Tests the hash at a place, and that nothing stands behind it.
#[tactic(auto, unfolding(crate::specs::Reading::hash_tests))]
fn check_hash(file: &[u8], end: usize) -> Result<(), SavedRefused>
    requires { end ≤ length file.now }
    ensures { first_refusal (hash_tests file.now end) ≡ result_err result }
{
    if file.len() - end < 8 {
        return Err(short(file));
    }
    let kept = u64_at(file, end);
    let now = fnv(&file[..end]);
    if kept != now {
        return Err(SavedRefused::Damaged { kept, now });
    }
    check_end(file, end + 8)
}

// Tests what stands behind the last key.
#[tactic(auto, unfolding(crate::specs::Reading::tail_tests))]
pub(crate) fn check_tail(file: &[u8], end: usize) -> Result<(), SavedRefused>
    requires there { end ≤ length file.now }
    requires head { 8 ≤ length file.now }
    ensures { first_refusal (tail_tests file.now end) ≡ result_err result }
{
    if u32_at(file, 4) == 2 {
        check_hash(file, end)
    } else {
        check_end(file, end)
    }
}
