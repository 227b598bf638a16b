//! The tests of the fields before the generations.

ghost use Rattle.std.specs.Prelude.{◌≡◌, ◌≤◌, length, OnOk};
ghost use Rattle.std.specs.Result.{result_err};
ghost use Rattle.nj_saved.specs.Reading.{identity_tests, size_tests, first_refusal, HasHead};

use crate::SavedRefused;
use crate::fields::{has_name, range, short, u32_at, u64_at};

/// The most words of a front: 2^20.
const MOST_WORDS: u32 = 1_048_576;

/// The most pads of all words: 2^26.
const MOST_PADS: u64 = 67_108_864;

/// The most steps.
const MOST_STEPS: u32 = 16_777_215;

/// The highest checkpoint level: a script has at most so many rules.
const MOST_LEVEL: u32 = 128;

/// The last step that a mark may name.
const MOST_UNTIL: u32 = 33_554_432;

// Tests name, version and the numbers of cartridge and script.
#[tactic(auto, unfolding(crate::specs::Reading::identity_tests))]
pub(crate) fn check_identity(file: &[u8], cart: u64, script: u64) -> Result<(), SavedRefused>
    ensures first { first_refusal (identity_tests file.now cart script) ≡ result_err result }
    ensures there { OnOk result (24 ≤ length file.now) }
{
    if !has_name(file) {
        return Err(SavedRefused::NotSaved);
    }
    if file.len() < 8 {
        return Err(short(file));
    }
    let version = u32_at(file, 4);
    if version != 1 && version != 2 {
        let n = u64::from(version);
        return Err(SavedRefused::Version { n });
    }
    if file.len() < 16 {
        return Err(short(file));
    }
    let kept = u64_at(file, 8);
    if kept != cart {
        return Err(SavedRefused::OtherCartridge { kept, now: cart });
    }
    if file.len() < 24 {
        return Err(short(file));
    }
    let kept = u64_at(file, 16);
    if kept != script {
        return Err(SavedRefused::OtherScript { kept, now: script });
    }
    Ok(())
}

// Tests the other fields before the generations.
#[tactic(auto, unfolding(crate::specs::Reading::size_tests, crate::specs::Fields::words_end))]
pub(crate) fn check_sizes(file: &[u8]) -> Result<(), SavedRefused>
    ensures first { first_refusal (size_tests file.now) ≡ result_err result }
    ensures there { OnOk result (HasHead file.now) }
{
    if file.len() < 28 {
        return Err(short(file));
    }
    let step = u32_at(file, 24);
    if step < 1 || step > MOST_STEPS {
        return Err(range(24));
    }
    if file.len() < 32 {
        return Err(short(file));
    }
    let front = u32_at(file, 28);
    let pads = u64::from(front) * u64::from(step);
    if front < 1 || front > MOST_WORDS || pads > MOST_PADS {
        return Err(range(28));
    }
    if file.len() < 36 {
        return Err(short(file));
    }
    if u32_at(file, 32) > MOST_LEVEL {
        return Err(range(32));
    }
    if file.len() < 40 {
        return Err(short(file));
    }
    if u32_at(file, 36) > MOST_UNTIL {
        return Err(range(36));
    }
    if file.len() < 44 {
        return Err(short(file));
    }
    let count = u32_at(file, 40);
    if count < 1 || count > step + 1 {
        return Err(range(40));
    }
    if (file.len() as u64) < 44 + pads {
        return Err(short(file));
    }
    Ok(())
}
