//! The numbers at the places of a file.

ghost use Rattle.std.specs.Prelude.{◌≡◌, ◌+◌, ◌≤◌, length};
ghost use Rattle.nj_saved.specs.declared.refusal.SavedRefused.{SavedRefused};
ghost use Rattle.nj_saved.specs.Fields.{is_named, u32_at, u64_at, words_end};

use crate::SavedRefused;

// Whether the first four bytes, as many as there are, are those of the format.
#[tactic(auto, unfolding(crate::specs::Fields::is_named, crate::specs::Fields::file_name))]
pub(crate) fn has_name(file: &[u8]) -> bool
    ensures { result ≡ is_named file.now }
{
    b"NJSV".starts_with(&file[..file.len().min(4)])
}

// The number of four bytes at a place.
#[tactic(auto, unfolding(crate::specs::Fields::u32_at))]
pub(crate) fn u32_at(file: &[u8], at: usize) -> u32
    requires { at + 4 ≤ length file.now }
    ensures { result ≡ u32_at file.now at }
{
    let mut field = [0; 4];
    field.copy_from_slice(&file[at..at + 4]);
    u32::from_le_bytes(field)
}

// The number of eight bytes at a place.
#[tactic(auto, unfolding(crate::specs::Fields::u64_at))]
pub(crate) fn u64_at(file: &[u8], at: usize) -> u64
    requires { at + 8 ≤ length file.now }
    ensures { result ≡ u64_at file.now at }
{
    let mut field = [0; 8];
    field.copy_from_slice(&file[at..at + 8]);
    u64::from_le_bytes(field)
}

// Where the words of the front end.
#[tactic(auto, unfolding(crate::specs::Fields::words_end))]
pub(crate) fn words_end(file: &[u8]) -> usize
    requires { 44 ≤ length file.now }
    ensures { result ≡ words_end file.now }
{
    44 + u32_at(file, 28) as usize * u32_at(file, 24) as usize
}

// The refusal of a file that ends inside a field.
pub(crate) fn short(file: &[u8]) -> SavedRefused
    ensures { result ≡ SavedRefused.Short (length file.now) }
{
    SavedRefused::Short {
        at: file.len() as u64,
    }
}

// The refusal of a field that is out of its range.
pub(crate) fn range(at: usize) -> SavedRefused
    ensures { result ≡ SavedRefused.Range at }
{
    SavedRefused::Range { at: at as u64 }
}
