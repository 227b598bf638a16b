ghost use Rattle.std.specs.Prelude.{◌≡◌, ℕ, ◌<◌, ◌≤◌, ◌⊎◌, length, take, is_ok, OnOk, OnErr};
ghost use Rattle.nj_bytes.specs.Fnv.{fnv_of};
ghost use Rattle.nj_outside.specs.Handed.{HandsOver};
ghost use Rattle.nj_outside.specs.Rise.{Rose};
ghost use Rattle.nj_outside.specs.Told.{appended, put_file};

use crate::shelves::Shelf;
use crate::sinks::Sink;

/// A whole writing that a fault of its sink or shelf ended.
#[derive(Clone, Copy, Debug, PartialEq, Eq)]
pub struct WriteFault;

/// Appends all of the bytes. Each write hands over all that is left. After a fault a prefix of the
/// bytes was appended.
pub fn write_all<O: Sink>(sink: &mut O, bytes: &[u8]) -> Result<(), WriteFault>
    ensures ok { OnOk result (O.written sink.new ≡ appended (O.written sink.old) bytes.now) }
    ensures prefix { OnErr result ((n : ℕ) × (n ≤ length bytes.now)
        × (O.written sink.new ≡ appended (O.written sink.old) (take n bytes.now))) }
    ensures hands_over { HandsOver O.wrote sink.old bytes.now (is_ok result) sink.new }
    ensures fault { OnErr result (Rose (O.faults sink.old) (O.faults sink.new)) }
    ensures no_fault { OnOk result (O.faults sink.new ≡ O.faults sink.old) }
    ensures never_falls { O.faults sink.old ≤ O.faults sink.new }
{
    let mut taken = 0;
    while taken < bytes.len() {
        let (_, left) = bytes.split_at(taken);
        match sink.write(left) {
            Ok(count) => taken += count,
            Err(_) => return Err(WriteFault),
        }
    }
    Ok(())
}

/// Makes the file hold the bytes. After a fault the file holds a prefix of them, or is as before where
/// the first put failed.
pub fn put_all<S: Shelf>(shelf: &mut S, name: &str, bytes: &[u8]) -> Result<(), WriteFault>
    ensures ok { OnOk result (S.content shelf.new ≡ put_file (S.content shelf.old) name.now bytes.now) }
    ensures prefix { OnErr result ((S.content shelf.new ≡ S.content shelf.old)
        ⊎ ((n : ℕ) × (n ≤ length bytes.now)
        × (S.content shelf.new ≡ put_file (S.content shelf.old) name.now (take n bytes.now)))) }
    ensures fault { OnErr result (Rose (S.put_faults shelf.old) (S.put_faults shelf.new)) }
    ensures fault_name { OnErr result (S.failed_put shelf.new ≡ fnv_of name.now) }
    ensures not_failed { OnOk result (S.failed_put shelf.new ≡ S.failed_put shelf.old) }
    ensures no_fault { OnOk result (S.put_faults shelf.new ≡ S.put_faults shelf.old) }
    ensures never_falls { S.put_faults shelf.old ≤ S.put_faults shelf.new }
    ensures read_faults { S.read_faults shelf.new ≡ S.read_faults shelf.old }
    ensures failed_read { S.failed_read shelf.new ≡ S.failed_read shelf.old }
{
    let mut taken = match shelf.put_at(name, 0, bytes) {
        Ok(count) => count,
        Err(_) => return Err(WriteFault),
    };
    while taken < bytes.len() {
        let (_, left) = bytes.split_at(taken);
        match shelf.put_at(name, taken as u64, left) {
            Ok(count) => taken += count,
            Err(_) => return Err(WriteFault),
        }
    }
    Ok(())
}
