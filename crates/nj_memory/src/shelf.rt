ghost use Rattle.std.specs.Prelude.{◌≡◌, ◌↔◌, ℕ, ◌+◌, ◌-◌, ◌<◌, ◌≤◌, ◌⊎◌, List, ◌++◌, Option, Some, None, length, min, take, drop, is_err, if◌then◌else◌, option_map, IfOk, IfSome, IfNone, OnOk, OnErr, IsErr, IsTrue, Contains};
ghost use Rattle.nj_bytes.specs.Fnv.{fnv_of};
ghost use Rattle.nj_memory.specs.Memory.{MemoryShelf, files_of, named, IsFirst, NoneBefore};
ghost use Rattle.nj_outside.specs.Rise.{Rose, one_more};
ghost use Rattle.nj_outside.specs.Told.{Files, bytes_at, put_file_from, with_file};

use crate::sink::fails_next;
use nj_outside::{Failed, Shelf, fnv};
use std::alloc::{AllocError, Global};
use std::marker::Model;

/// A shelf over memory. It tells its files, and its calls, reads and puts numbered together from 1,
/// fail where they are told to. Where a name stands twice, its first pair counts.
#[derive(Drop)]
pub struct MemShelf {
    alloc: Global,
    files: Vec<(String, Vec<u8>)>,
    failing: Vec<u64>,
    most: usize,
    calls: u64,
    read_faults: u64,
    failed_read: u64,
    put_faults: u64,
    failed_put: u64,
    dry: u64,
}

impl Model for MemShelf {
    ghost use Rattle.std.specs.Prelude.{◌≤◌};
    ghost use Rattle.nj_memory.specs.Memory.{MemoryShelf, named};

    ghost Value = { MemoryShelf };

    ghost view = { λ s. record {
      files = named s.files.items;
      failing = s.failing.items;
      most = s.most;
      calls = s.calls;
      read_faults = s.read_faults;
      failed_read = s.failed_read;
      put_faults = s.put_faults;
      failed_put = s.failed_put;
      dry = s.dry;
    } };

    ghost invariant = { λ s. 1 ≤ s.most };
}

impl MemShelf {
    /// A shelf with these files. The calls of the numbers in `failing` fail; every other moves at most
    /// `most` bytes.
    pub fn new(
        alloc: Global,
        files: Vec<(String, Vec<u8>)>,
        failing: Vec<u64>,
        most: usize,
    ) -> MemShelf
        requires { 1 ≤ most }
        ensures { result ≡ record {
          files = named files.items;
          failing = failing.items;
          most = most;
          calls = 0;
          read_faults = 0;
          failed_read = 0;
          put_faults = 0;
          failed_put = 0;
          dry = 0;
        } }
    {
        MemShelf {
            alloc,
            files,
            failing,
            most,
            calls: 0,
            read_faults: 0,
            failed_read: 0,
            put_faults: 0,
            failed_put: 0,
            dry: 0,
        }
    }

    /// The bytes of the file, if it is there. This is no call that is counted.
    pub fn file(&self, name: &str) -> Option<&[u8]>
        ensures { option_map (λ bytes. bytes.now) result ≡ files_of self.now.files name.now }
    {
        bytes_of(self.files.as_slice(), name)
    }

    /// How many reads and puts there were, at most 2^64 - 1.
    pub fn calls(&self) -> u64
        ensures { result ≡ self.now.calls }
    {
        self.calls
    }

    /// How many reads failed, at most 2^64 - 1.
    pub fn read_faults(&self) -> u64
        ensures { result ≡ self.now.read_faults }
    {
        self.read_faults
    }

    /// How many puts failed, at most 2^64 - 1.
    pub fn put_faults(&self) -> u64
        ensures { result ≡ self.now.put_faults }
    {
        self.put_faults
    }

    /// How many growths found no memory, at most 2^64 - 1.
    pub fn dry(&self) -> u64
        ensures { result ≡ self.now.dry }
    {
        self.dry
    }

    fn fail_read(&mut self, name: &str) -> Failed
        ensures { self.new ≡ record self.old {
          read_faults = one_more self.old.read_faults;
          failed_read = fnv_of name.now;
        } }
    {
        self.read_faults = self.read_faults.saturating_add(1);
        self.failed_read = fnv(name.as_bytes());
        Failed
    }

    fn fail_put(&mut self, name: &str) -> Failed
        ensures { self.new ≡ record self.old {
          put_faults = one_more self.old.put_faults;
          failed_put = fnv_of name.now;
        } }
    {
        self.put_faults = self.put_faults.saturating_add(1);
        self.failed_put = fnv(name.as_bytes());
        Failed
    }
}

impl Shelf for MemShelf {
    ghost content = { λ s. Some (files_of s.files) };

    ghost read_faults = { λ s. s.read_faults };

    ghost failed_read = { λ s. s.failed_read };

    ghost put_faults = { λ s. s.put_faults };

    ghost failed_put = { λ s. s.failed_put };

    fn read_at(&mut self, name: &str, at: u64, into: &mut [u8]) -> Result<usize, Failed>
        ensures within { IfOk result (λ n. n ≤ length into.new) }
        ensures content { Some (files_of self.new.files) ≡ Some (files_of self.old.files) }
        ensures bytes { (files : Files) → Some (files_of self.old.files) ≡ Some files → (file : List ℕ)
            → files name.now ≡ Some file
            → IfOk result (λ n. (n ≤ length file - at) × (take n into.new ≡ take n (drop at file))) }
        ensures end { (files : Files) → Some (files_of self.old.files) ≡ Some files → (file : List ℕ)
            → files name.now ≡ Some file
            → IfOk result (λ n. n ≡ 0 → 0 < length into.new → length file ≤ at) }
        ensures missing { (files : Files) → Some (files_of self.old.files) ≡ Some files → files name.now ≡ None
            → IsErr result }
        ensures failed { OnErr result (Rose self.old.read_faults self.new.read_faults) }
        ensures failed_name { OnErr result (self.new.failed_read ≡ fnv_of name.now) }
        ensures not_failed { OnOk result (self.new.failed_read ≡ self.old.failed_read) }
        ensures no_fault { OnOk result (self.new.read_faults ≡ self.old.read_faults) }
        ensures never_falls { self.old.read_faults ≤ self.new.read_faults }
        ensures put_faults { self.new.put_faults ≡ self.old.put_faults }
        ensures failed_put { self.new.failed_put ≡ self.old.failed_put }

        ensures moved { (file : List ℕ) → files_of self.old.files name.now ≡ Some file
            → IfOk result (λ n. n ≡ min self.old.most (min (length into.old) (length file - at))) }
        ensures rest { IfOk result (λ n. drop n into.new ≡ drop n into.old) }
        ensures untouched { OnErr result (into.new ≡ into.old) }
        ensures fails { IsErr result ↔ (Contains self.old.failing (self.old.calls + 1)
            ⊎ (files_of self.old.files name.now ≡ None)) }
        ensures counted { self.new ≡ record self.old {
          calls = one_more self.old.calls;
          read_faults = if is_err result then one_more self.old.read_faults else self.old.read_faults;
          failed_read = if is_err result then fnv_of name.now else self.old.failed_read;
        } }
    {
        let fails = fails_next(self.failing.as_slice(), self.calls);
        self.calls = self.calls.saturating_add(1);
        if fails {
            return Err(self.fail_read(name));
        }
        match bytes_of(self.files.as_slice(), name) {
            Some(file) => Ok(copy_from(file, at, self.most, into)),
            None => Err(self.fail_read(name)),
        }
    }

    fn put_at(&mut self, name: &str, at: u64, bytes: &[u8]) -> Result<usize, Failed>
        requires { (files : Files) → Some (files_of self.old.files) ≡ Some files
            → (at ≡ 0) ⊎ (at ≡ length (bytes_at files name.now)) }
        ensures within { IfOk result (λ n. n ≤ length bytes.now) }
        ensures some { IfOk result (λ n. 0 < length bytes.now → 0 < n) }
        ensures put { IfOk result (λ n. Some (files_of self.new.files)
            ≡ put_file_from (Some (files_of self.old.files)) name.now at (take n bytes.now)) }
        ensures unchanged { OnErr result (Some (files_of self.new.files) ≡ Some (files_of self.old.files)) }
        ensures failed { OnErr result (Rose self.old.put_faults self.new.put_faults) }
        ensures failed_name { OnErr result (self.new.failed_put ≡ fnv_of name.now) }
        ensures not_failed { OnOk result (self.new.failed_put ≡ self.old.failed_put) }
        ensures no_fault { OnOk result (self.new.put_faults ≡ self.old.put_faults) }
        ensures never_falls { self.old.put_faults ≤ self.new.put_faults }
        ensures read_faults { self.new.read_faults ≡ self.old.read_faults }
        ensures failed_read { self.new.failed_read ≡ self.old.failed_read }

        ensures moved { IfOk result (λ n. n ≡ min self.old.most (length bytes.now)) }
        ensures fails { Contains self.old.failing (self.old.calls + 1) ⊎ (self.old.dry < self.new.dry) → IsErr result }
        ensures fails_only { IsErr result → Contains self.old.failing (self.old.calls + 1)
            ⊎ Rose self.old.dry self.new.dry }
        ensures counted { self.new ≡ record self.old {
          files = self.new.files;
          calls = one_more self.old.calls;
          put_faults = if is_err result then one_more self.old.put_faults else self.old.put_faults;
          failed_put = if is_err result then fnv_of name.now else self.old.failed_put;
          dry = self.new.dry;
        } }
    {
        let fails = fails_next(self.failing.as_slice(), self.calls);
        self.calls = self.calls.saturating_add(1);
        if fails {
            return Err(self.fail_put(name));
        }
        let count = self.most.min(bytes.len());
        if put_piece(self.alloc, &mut self.files, name, at, &bytes[..count]).is_err() {
            self.dry = self.dry.saturating_add(1);
            return Err(self.fail_put(name));
        }
        Ok(count)
    }
}

/// The bytes of the first pair of the name, if there is one.
fn bytes_of<'a>(files: &'a [(String, Vec<u8>)], name: &str) -> Option<&'a [u8]>
    ensures { option_map (λ bytes. bytes.now) result ≡ files_of (named files.now) name.now }
{
    match place_of(files, name) {
        Some(place) => Some(files[place].1.as_slice()),
        None => None,
    }
}

/// Copies bytes of the file from place `at` on to the front of `into`, at most `most`.
fn copy_from(file: &[u8], at: u64, most: usize, into: &mut [u8]) -> usize
    ensures count { result ≡ min most (min (length into.old) (length file.now - at)) }
    ensures after { into.new ≡ take result (drop at file.now) ++ drop result into.old }
{
    let Ok(start) = usize::try_from(at) else {
        return 0;
    };
    if start >= file.len() {
        return 0;
    }
    let (_, left) = file.split_at(start);
    let count = most.min(into.len()).min(left.len());
    into[..count].copy_from_slice(&left[..count]);
    count
}

/// Puts the piece into the file from place `at` on. Without memory all is as before.
fn put_piece(
    alloc: Global,
    files: &mut Vec<(String, Vec<u8>)>,
    name: &str,
    at: u64,
    piece: &[u8],
) -> Result<(), AllocError>
    requires { (at ≡ 0) ⊎ (at ≡ length (bytes_at (files_of (named files.old.items)) name.now)) }
    ensures put { OnOk result (files_of (named files.new.items)
        ≡ with_file (files_of (named files.old.items)) name.now
        (take at (bytes_at (files_of (named files.old.items)) name.now) ++ piece.now)) }
    ensures unchanged { OnErr result (named files.new.items ≡ named files.old.items) }
{
    match place_of(files.as_slice(), name) {
        Some(place) => put_bytes(alloc, &mut files[place].1, at, piece),
        None => {
            let name = String::from_str(alloc, name)?;
            let bytes = Vec::from_slice(alloc, piece)?;
            files.push((name, bytes))?;
            Ok(())
        }
    }
}

/// Puts the piece behind the first `at` bytes. Without memory the bytes are as before.
fn put_bytes(alloc: Global, bytes: &mut Vec<u8>, at: u64, piece: &[u8]) -> Result<(), AllocError>
    requires { (at ≡ 0) ⊎ (at ≡ length bytes.old.items) }
    ensures put { OnOk result (bytes.new.items ≡ take at bytes.old.items ++ piece.now) }
    ensures unchanged { OnErr result (bytes.new.items ≡ bytes.old.items) }
{
    if at == 0 {
        *bytes = Vec::from_slice(alloc, piece)?;
        return Ok(());
    }
    bytes.extend_from_slice(piece)
}

/// The place of the first pair of the name, if there is one.
fn place_of(files: &[(String, Vec<u8>)], name: &str) -> Option<usize>
    ensures found { IfSome result (IsFirst files.now name.now) }
    ensures missing { IfNone result (NoneBefore files.now name.now (length files.now)) }
{
    for (place, file) in files.iter().enumerate() {
        if file.0.as_str() == name {
            return Some(place);
        }
    }
    None
}
