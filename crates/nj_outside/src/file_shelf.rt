ghost use Rattle.std.specs.Prelude.{◌≡◌, ◌≤◌, ◌<◌, None, length, IfOk, OnErr, is_err, if◌then◌else◌};
ghost use Rattle.nj_bytes.specs.Fnv.{fnv_of};
ghost use Rattle.nj_outside.specs.Real.{RealShelf};
ghost use Rattle.nj_outside.specs.Rise.{Rose, one_more};

use crate::shelves::{Failed, Shelf};
use nj_bytes::fnv;
use std::fs::{File, OpenFile, OpenOptions};
use std::io;
use std::io::{ErrorKind, Read, Seek, SeekFrom, Write};
use std::marker::Model;
use std::rt::Files;

/// The files of the system, each opened anew for every read and put. It tells none of their content,
/// which others may change at any time.
#[derive(Drop)]
pub struct FileShelf<R: Files + Drop> {
    rt: R,
    read_faults: u64,
    failed_read: u64,
    put_faults: u64,
    failed_put: u64,
}

impl<R: Files + Drop> Model for FileShelf<R> {
    ghost use Rattle.nj_outside.specs.Real.{RealShelf};

    ghost Value = { RealShelf };

    ghost view = { λ s. record {
      read_faults = s.read_faults;
      failed_read = s.failed_read;
      put_faults = s.put_faults;
      failed_put = s.failed_put;
    } };
}

impl<R: Files + Drop> FileShelf<R> {
    /// The shelf of the system's files, with no fault counted so far.
    pub fn new(rt: R) -> FileShelf<R>
        ensures { result ≡ record { read_faults = 0; failed_read = 0; put_faults = 0; failed_put = 0 } }
    {
        FileShelf {
            rt,
            read_faults: 0,
            failed_read: 0,
            put_faults: 0,
            failed_put: 0,
        }
    }

    /// How many reads failed, at most 2^64 - 1.
    pub fn read_faults(&self) -> u64
        ensures { result ≡ self.now.read_faults }
    {
        self.read_faults
    }

    /// How many puts failed, at most 2^64 - 1.
    pub fn put_faults(&self) -> u64
        ensures { result ≡ self.now.put_faults }
    {
        self.put_faults
    }

    fn fail_read(&mut self, name: &str) -> Failed
        ensures counted { self.new ≡ record self.old
            { read_faults = one_more self.old.read_faults; failed_read = fnv_of name.now } }
        ensures never_falls { self.old.read_faults ≤ self.new.read_faults }
    {
        self.read_faults = self.read_faults.saturating_add(1);
        self.failed_read = fnv(name.as_bytes());
        Failed
    }

    fn fail_put(&mut self, name: &str) -> Failed
        ensures counted { self.new ≡ record self.old
            { put_faults = one_more self.old.put_faults; failed_put = fnv_of name.now } }
        ensures never_falls { self.old.put_faults ≤ self.new.put_faults }
    {
        self.put_faults = self.put_faults.saturating_add(1);
        self.failed_put = fnv(name.as_bytes());
        Failed
    }
}

impl<R: Files + Drop> Shelf for FileShelf<R> {
    ghost content = { λ _. None };

    ghost read_faults = { λ s. s.read_faults };

    ghost failed_read = { λ s. s.failed_read };

    ghost put_faults = { λ s. s.put_faults };

    ghost failed_put = { λ s. s.failed_put };

    fn read_at(&mut self, name: &str, at: u64, into: &mut [u8]) -> Result<usize, Failed>
        ensures within { IfOk result (λ n. n ≤ length into.new) }
        ensures failed { OnErr result (Rose self.old.read_faults self.new.read_faults) }
        ensures never_falls { self.old.read_faults ≤ self.new.read_faults }
        ensures counted { self.new ≡ record self.old {
          read_faults = if is_err result then one_more self.old.read_faults else self.old.read_faults;
          failed_read = if is_err result then fnv_of name.now else self.old.failed_read;
        } }
    {
        match read_file(&self.rt, name, at, into) {
            Ok(count) => Ok(count),
            Err(_) => Err(self.fail_read(name)),
        }
    }

    fn put_at(&mut self, name: &str, at: u64, bytes: &[u8]) -> Result<usize, Failed>
        ensures within { IfOk result (λ n. n ≤ length bytes.now) }
        ensures some { IfOk result (λ n. 0 < length bytes.now → 0 < n) }
        ensures failed { OnErr result (Rose self.old.put_faults self.new.put_faults) }
        ensures never_falls { self.old.put_faults ≤ self.new.put_faults }
        ensures counted { self.new ≡ record self.old {
          put_faults = if is_err result then one_more self.old.put_faults else self.old.put_faults;
          failed_put = if is_err result then fnv_of name.now else self.old.failed_put;
        } }
    {
        match write_file(&self.rt, name, at, bytes) {
            Ok(count) => Ok(count),
            Err(_) => Err(self.fail_put(name)),
        }
    }
}

fn read_file<R: Files>(rt: &R, name: &str, at: u64, into: &mut [u8]) -> io::Result<usize>
    ensures { IfOk result (λ n. n ≤ length into.new) }
{
    let mut file = File::open(rt, name)?;
    file.seek(SeekFrom::Start(at))?;
    read_some(&mut file, into)
}

/// One read, begun anew where a signal came between.
fn read_some<F: Read>(file: &mut F, into: &mut [u8]) -> io::Result<usize>
    ensures { IfOk result (λ n. n ≤ length into.new) }
{
    for _ in 0..u64::MAX {
        match file.read(into) {
            Err(error) if error.kind() == ErrorKind::Interrupted => {}
            outcome => return outcome,
        }
    }
    Err(io::Error::from(ErrorKind::Interrupted))
}

/// The bytes are written first and the file is cut behind them after, so that a write that fails leaves
/// what the file held.
fn write_file<R: Files>(rt: &R, name: &str, at: u64, bytes: &[u8]) -> io::Result<usize>
    ensures within { IfOk result (λ n. n ≤ length bytes.now) }
    ensures some { IfOk result (λ n. 0 < length bytes.now → 0 < n) }
{
    let mut file = OpenOptions::new().write(true).create(true).open(rt, name)?;
    file.seek(SeekFrom::Start(at))?;
    let count = write_some(&mut file, bytes)?;
    file.set_len(at.saturating_add(count as u64))?;
    Ok(count)
}

/// One write, begun anew where a signal came between. Of a nonempty piece it takes at least one byte.
pub(crate) fn write_some<F: Write>(file: &mut F, bytes: &[u8]) -> io::Result<usize>
    ensures within { IfOk result (λ n. n ≤ length bytes.now) }
    ensures some { IfOk result (λ n. 0 < length bytes.now → 0 < n) }
{
    if bytes.is_empty() {
        return Ok(0);
    }
    for _ in 0..u64::MAX {
        match file.write(bytes) {
            Ok(0) => return Err(io::Error::from(ErrorKind::WriteZero)),
            Err(error) if error.kind() == ErrorKind::Interrupted => {}
            outcome => return outcome,
        }
    }
    Err(io::Error::from(ErrorKind::Interrupted))
}
