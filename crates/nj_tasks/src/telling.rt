//! How a reply or a stop is told: by its text on `out`, the file that it puts, its line on `err`, and the exit status.

ghost use Rattle.std.specs.Prelude.{◌≡◌, ◌≢◌, ◌⊎◌, ◌≤◌, List, ℕ, Some, Err, Contains, IfOk, IsErrOf, IsSomeAnd, OnOk, OnErr, Option};
ghost use Rattle.nj_bytes.specs.Fnv.{fnv_of};
ghost use Rattle.nj_outside.specs.Rise.{Rose};
ghost use Rattle.nj_outside.specs.Told.{Files, appended};
ghost use Rattle.nj_tasks.specs.Causes.{statuses, IsAnswered, IsPlain, Settles, IsCutShort, IsUnsaved, IsCarriedOut};
ghost use Rattle.nj_tasks.specs.Causes.{IsPutCut, IsSavedAs, IsTextCut, fixed_line, line_for, put_by, with_put};
ghost use Rattle.nj_tasks.specs.Stops.{Serves};
ghost use Rattle.nj_tasks.specs.Work.{Work, given, Reaches};

use crate::stops::{Put, Reply, Stop};
use nj_outside::{Shelf, Sink, WriteFault, put_all, write_all};

const WRITE_FAULT: u8 = 8;

const WRITE_FAULT_LINE: &[u8] = b"nj: write fault\n";

/// Puts the file, if there is one.
fn put<S: Shelf>(shelf: &mut S, file: &Option<Put>) -> Result<(), WriteFault>
    ensures saved { OnOk result (S.content shelf.new ≡ with_put file.now (S.content shelf.old)) }
    ensures no_fault { OnOk result (S.put_faults shelf.new ≡ S.put_faults shelf.old) }
    ensures fault { OnErr result (Rose (S.put_faults shelf.old) (S.put_faults shelf.new)) }
    ensures cut { OnErr result
        (IsPutCut file.now (S.failed_put shelf.new) (S.content shelf.old) (S.content shelf.new)) }
    ensures read_faults { S.read_faults shelf.new ≡ S.read_faults shelf.old }
    ensures failed_read { S.failed_read shelf.new ≡ S.failed_read shelf.old }
{
    match file {
        Some(file) => put_all(shelf, file.name.as_str(), file.bytes.as_slice()),
        None => Ok(()),
    }
}

/// Writes the text of a reply to `out`, and puts its file then.
fn hand_over<S: Shelf, O: Sink>(reply: &Reply, shelf: &mut S, out: &mut O) -> Result<(), WriteFault>
    ensures written { OnOk result (O.written out.new ≡ appended (O.written out.old) reply.now.text) }
    ensures saved { OnOk result (S.content shelf.new ≡ with_put reply.now.file (S.content shelf.old)) }
    ensures no_write_fault { OnOk result (O.faults out.new ≡ O.faults out.old) }
    ensures no_put_fault { OnOk result (S.put_faults shelf.new ≡ S.put_faults shelf.old) }
    ensures fault { OnErr result
        ((Rose (O.faults out.old) (O.faults out.new)
        × IsTextCut reply.now (O.written out.old) (O.written out.new) (S.content shelf.old) (S.content shelf.new))
        ⊎ (Rose (S.put_faults shelf.old) (S.put_faults shelf.new)
        × (O.written out.new ≡ appended (O.written out.old) reply.now.text)
        × IsPutCut reply.now.file (S.failed_put shelf.new) (S.content shelf.old) (S.content shelf.new))) }
    ensures read_faults { S.read_faults shelf.new ≡ S.read_faults shelf.old }
    ensures failed_read { S.failed_read shelf.new ≡ S.failed_read shelf.old }
{
    match write_all(out, reply.text.as_slice()) {
        Ok(()) => put(shelf, &reply.file),
        Err(_) => Err(WriteFault),
    }
}

/// Writes the text of a reply to `out` and puts its file, or writes the line of a stop to `err`. It answers the exit
/// status.
pub fn tell<S: Shelf, O: Sink, E: Sink>(
    reply: Result<Reply, Stop>,
    shelf: &mut S,
    out: &mut O,
    err: &mut E,
) -> u8
    requires done { IfOk reply (λ said. IsCarriedOut said.status) }
    ensures known { Contains statuses result }

    // a file is put at the limit of a search alone
    ensures content { (name : Option (List ℕ)) → IfOk reply (IsSavedAs name) → result ≢ 2 → result ≢ 8 →
        S.content shelf.new ≡ S.content shelf.old }
    ensures saved { (files : Files) (work : Work) (failed : ℕ) → Serves files work failed reply → IsPlain result →
        S.content shelf.new ≡ put_by (given files work) (S.content shelf.old) }
    ensures read_faults { S.read_faults shelf.new ≡ S.read_faults shelf.old }
    ensures failed_read { S.failed_read shelf.new ≡ S.failed_read shelf.old }

    // a status that tells of no fault is the answer's, with the answer's text on `out`
    ensures settled { (files : Files) (work : Work) (failed : ℕ) → Serves files work failed reply →
        Settles (given files work) result (O.written out.old) (O.written out.new) }
    ensures complete { (files : Files) (work : Work) (failed : ℕ) → Serves files work failed reply →
        ¬ IsErrOf reply Stop.ReadFault → ¬ Rose (O.faults out.old) (O.faults out.new) →
        ¬ Rose (S.put_faults shelf.old) (S.put_faults shelf.new) → result ≢ 9 →
        IsAnswered (given files work) result (O.written out.old) (O.written out.new) }

    // which stop a status is of
    ensures usage { result ≡ 3 → IsErrOf reply Stop.Usage }
    ensures unread { reply ≡ Err Stop.Usage → result ≡ 3 }
    ensures no_memory { reply ≡ Err Stop.NoMemory → result ≡ 9 }
    ensures read_fault { result ≡ 7 → IsErrOf reply Stop.ReadFault }
    ensures no_read_fault { result ≢ 7 → ¬ IsErrOf reply Stop.ReadFault }
    ensures read_in_order { (files : Files) (work : Work) (failed : ℕ) → Serves files work failed reply → result ≡ 7 →
        Reaches files work failed }

    // a failed write of the text of a command that nothing refuses, or a failed put of the file that it saves
    ensures write_fault { (name : Option (List ℕ)) → IfOk reply (IsSavedAs name) → result ≡ 8 →
        Rose (O.faults out.old) (O.faults out.new) ⊎ (Rose (S.put_faults shelf.old) (S.put_faults shelf.new)
        × IsSomeAnd name (λ n. S.failed_put shelf.new ≡ fnv_of n)) }
    ensures cut_short { (files : Files) (work : Work) (failed : ℕ) → Serves files work failed reply → result ≡ 8 →
        (Rose (O.faults out.old) (O.faults out.new) × (S.content shelf.new ≡ S.content shelf.old)
        × IsCutShort (given files work) (O.written out.old) (O.written out.new))
        ⊎ (Rose (S.put_faults shelf.old) (S.put_faults shelf.new)
        × IsUnsaved (given files work) (S.failed_put shelf.new) (O.written out.old) (O.written out.new)
        (S.content shelf.old) (S.content shelf.new)) }
    ensures no_write_fault { result ≢ 8 → O.faults out.new ≡ O.faults out.old }
    ensures no_put_fault { result ≢ 8 → S.put_faults shelf.new ≡ S.put_faults shelf.old }

    // no other status but 0, 1, 2, 10 and 8 writes to `out`
    ensures silent { result ≢ 0 → result ≢ 1 → result ≢ 2 → result ≢ 10 → result ≢ 8 →
        O.written out.new ≡ O.written out.old }

    // the line on `err`
    ensures line { (files : Files) (work : Work) (failed : ℕ) → Serves files work failed reply →
        ¬ Rose (E.faults err.old) (E.faults err.new) →
        E.written err.new ≡ appended (E.written err.old) (line_for (given files work) result) }
    ensures fixed_line { (line : List ℕ) → fixed_line result ≡ Some line
        → ¬ Rose (E.faults err.old) (E.faults err.new) →
        E.written err.new ≡ appended (E.written err.old) line }
{
    match reply {
        Ok(reply) => match hand_over(&reply, shelf, out) {
            Ok(()) => reply.status,
            Err(_) => {
                let _ = write_all(err, WRITE_FAULT_LINE);
                WRITE_FAULT
            }
        },
        Err(stop) => {
            let _ = write_all(err, stop.line());
            stop.status()
        }
    }
}
