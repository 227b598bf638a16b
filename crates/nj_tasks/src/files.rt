//! What a command reads before it works: files, one after another. A kind of file is a [`Format`], and there is one
//! reader.

ghost use Rattle.std.specs.Prelude.{◌≡◌, ◌≢◌, ◌++◌, List, [], ℕ, IfOk, Some, Err, Option, map, Contains, IsErrOf};
ghost use Rattle.nj_bytes.specs.Fnv.{fnv_of};
ghost use Rattle.nj_outside.specs.Rise.{Rose};
ghost use Rattle.nj_outside.specs.Told.{Files};
ghost use Rattle.nj_tasks.specs.Formats.{FileFormat, loaded, made, names_of, reading_of};
ghost use Rattle.nj_tasks.specs.Stops.{Loads, Reads};
ghost use Rattle.nj_tasks.specs.Work.{Work, both};

use crate::stops::{Stop, too_long};
use nj_outside::{ReadRefused, Shelf, read_all};
use nj_seq::Text;
use nj_texts::Kind;
use std::alloc::Global;

/// What is fixed of a kind of file.
#[derive(Clone, Copy)]
pub struct Bounds {
    pub kind: Kind,
    /// The longest file that is read, in bytes.
    pub limit: u64,
    /// The number of the refusal of a longer one, among the refusals of its kind.
    pub too_long: u32,
}

/// A kind of file.
pub trait Format: Copy {
    /// What a file is read as.
    type Value: Drop;

    ghost format: { Self → FileFormat Self.Value };

    /// What holds of each value that is read.
    ghost holds: { Self.Value → Type 0 };

    fn bounds(self) -> Bounds
        ensures { result ≡ (format self).bounds };

    /// The value that the name stands for, where it is no file's.
    fn without(self, alloc: Global, name: &str) -> Option<Self::Value>
        ensures value { result ≡ (format self).without name.now }
        ensures holds { (value : Self.Value) → result ≡ Some value → holds value };

    fn read(self, alloc: Global, bytes: &[u8]) -> Result<Self::Value, Stop>
        ensures reads { Reads (format self).bounds.kind ((format self).says bytes.now) result }
        ensures holds { IfOk result holds };
}

/// Something that is read before a command works.
pub trait Source {
    type Value: Drop;

    /// How a work begins that reads it.
    ghost work: { Self → (Self.Value → Work) → Work };

    /// The names of its files.
    ghost names: { Self → List (List ℕ) };

    /// What holds of each value that is read.
    ghost holds: { Self.Value → Type 0 };

    fn load<S: Shelf>(&self, alloc: Global, shelf: &mut S) -> Result<Self::Value, Stop>
        ensures loads { (files : Files) → S.content shelf.old ≡ Some files →
            Loads files (work self.now) (S.failed_read shelf.new) result }
        ensures holds { IfOk result holds }
        ensures content { S.content shelf.new ≡ S.content shelf.old }
        ensures not_words { result ≢ Err Stop.Usage }
        ensures fault { IsErrOf result Stop.ReadFault → Rose (S.read_faults shelf.old) (S.read_faults shelf.new) }
        ensures fault_name { IsErrOf result Stop.ReadFault →
            Contains (map fnv_of (names self.now)) (S.failed_read shelf.new) }
        ensures no_fault { ¬ IsErrOf result Stop.ReadFault → S.read_faults shelf.new ≡ S.read_faults shelf.old }
        ensures put_faults { S.put_faults shelf.new ≡ S.put_faults shelf.old };
}

/// The file of a name.
#[derive(Clone, Copy)]
pub struct File<'a, F: Format> {
    pub format: F,
    pub name: &'a Text,
}

/// The file of this name and kind.
pub fn named<F: Format>(format: F, name: &Text) -> File<'_, F>
    ensures format { result.format ≡ format }
    ensures name { result.name.now ≡ name.now }
{
    File { format, name }
}

impl<F: Format> Source for File<'_, F> {
    type Value = F::Value;

    ghost work = { λ file next. loaded (F.format file.format) file.name.now next };

    ghost names = { λ file. names_of (F.format file.format) file.name.now };

    ghost holds = { F.holds };

    fn load<S: Shelf>(&self, alloc: Global, shelf: &mut S) -> Result<F::Value, Stop> {
        read_file(alloc, shelf, self.format, self.name.as_str())
    }
}

/// The one reader of files.
fn read_file<F: Format, S: Shelf>(
    alloc: Global,
    shelf: &mut S,
    format: F,
    name: &str,
) -> Result<F::Value, Stop>
    ensures loads { (files : Files) → S.content shelf.old ≡ Some files →
        Loads files (loaded (F.format format) name.now) (S.failed_read shelf.new) result }
    ensures holds { IfOk result F.holds }
    ensures content { S.content shelf.new ≡ S.content shelf.old }
    ensures not_words { result ≢ Err Stop.Usage }
    ensures fault { IsErrOf result Stop.ReadFault → Rose (S.read_faults shelf.old) (S.read_faults shelf.new) }
    ensures fault_name { IsErrOf result Stop.ReadFault →
        Contains (map fnv_of (names_of (F.format format) name.now)) (S.failed_read shelf.new) }
    ensures no_fault { ¬ IsErrOf result Stop.ReadFault → S.read_faults shelf.new ≡ S.read_faults shelf.old }
    ensures put_faults { S.put_faults shelf.new ≡ S.put_faults shelf.old }
{
    let bounds = format.bounds();
    match format.without(alloc, name) {
        Some(value) => Ok(value),
        None => match read_all(alloc, shelf, name, bounds.limit) {
            Ok(bytes) => format.read(alloc, bytes.as_slice()),
            Err(ReadRefused::ReadFault) => Err(Stop::ReadFault),
            Err(ReadRefused::TooLong { limit: _ }) => Err(too_long(alloc, bounds)),
            Err(ReadRefused::NoMemory) => Err(Stop::NoMemory),
        },
    }
}

/// A file that is in memory.
#[derive(Clone, Copy)]
pub struct Made<'a, F: Format> {
    pub format: F,
    pub bytes: &'a [u8],
}

impl<F: Format> Source for Made<'_, F> {
    type Value = F::Value;

    ghost work = { λ file next. made (F.format file.format) file.bytes.now next };

    ghost names = { λ _. [] };

    ghost holds = { F.holds };

    fn load<S: Shelf>(&self, alloc: Global, _shelf: &mut S) -> Result<F::Value, Stop> {
        let bounds = self.format.bounds();
        if self.bytes.len() as u64 > bounds.limit {
            return Err(too_long(alloc, bounds));
        }
        self.format.read(alloc, self.bytes)
    }
}

/// The first is read before the second.
impl<A: Source, B: Source> Source for (A, B) {
    type Value = (A::Value, B::Value);

    ghost work = { λ s. both (A.work s.0) (B.work s.1) };

    ghost names = { λ s. A.names s.0 ++ B.names s.1 };

    ghost holds = { λ v. A.holds v.0 × B.holds v.1 };

    fn load<S: Shelf>(&self, alloc: Global, shelf: &mut S) -> Result<(A::Value, B::Value), Stop> {
        let first = self.0.load(alloc, shelf)?;
        let second = self.1.load(alloc, shelf)?;
        Ok((first, second))
    }
}
