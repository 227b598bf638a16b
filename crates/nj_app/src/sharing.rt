//! The top call by several workers.

ghost use Rattle.std.specs.Prelude.{◌≡◌, ◌≢◌, ◌⊎◌, ◌≤◌, List, ℕ, Some, None, Err, length, map, string_bytes, Contains, IfOk, IsErrOf};
ghost use Rattle.std.specs.List.{AllZip};
ghost use Rattle.nj_bytes.specs.Fnv.{fnv_of};
ghost use Rattle.nj_outside.specs.Rise.{Rose};
ghost use Rattle.nj_outside.specs.Told.{Files, appended};
ghost use Rattle.nj_tasks.specs.Causes.{statuses, IsAnswered, IsPlain, Settles, IsCutShort, IsUnsaved, IsCarriedOut};
ghost use Rattle.nj_tasks.specs.Causes.{IsSavedAs, fixed_line, line_for, put_by};
ghost use Rattle.nj_tasks.specs.Stops.{Serves};
ghost use Rattle.nj_tasks.specs.Work.{frames_of, given, Reaches};
ghost use Rattle.nj_words.specs.Commands.{reading, IsInRange};
ghost use Rattle.nj_workers.specs.Counted.{AreCounted};
ghost use Rattle.nj_app.specs.Answer.{answer, file_names, save_name, saves_as, work_of, work_for, IsOfCommand, IsOfSaving};

use crate::running::carry_out;
use crate::search::{resumed, searched, share};
use nj_outside::{Gate, Shelf, Sink};
use nj_steps::Steps;
use nj_tasks::{Reply, Stop, tell};
use nj_words::{Command, WordsRefused, read_words};
use std::alloc::Global;
use std::sync::Wait;
use std::sync::ledger::Ledger;
use std::thread::Threads;

/// How many counters [`run`] takes: one for each worker that words may ask for.
pub const COUNTERS: usize = 64;

/// Carries out one command line as [`run_plain`](crate::run_plain) does, and a search by as many workers as the words
/// ask for. What it writes and answers is the same for any number of them. Each worker counts its frames on a counter
/// of its own, and passes the gate when it begins a piece of the work.
pub fn run<R: Threads + Wait + Sync, S: Shelf, O: Sink, E: Sink, G: Gate, L: Ledger + Send>(
    rt: &R,
    alloc: Global,
    words: &[String],
    shelf: &mut S,
    out: &mut O,
    err: &mut E,
    gate: &G,
    steps: &mut Vec<Steps<L>>,
) -> u8
    requires { COUNTERS ≤ length steps.old.items }
    ensures known { Contains statuses result }

    // no file changes, but for one that is saved
    ensures content { result ≢ 2 → result ≢ 8 → S.content shelf.new ≡ S.content shelf.old }
    ensures saved { (files : Files) → S.content shelf.old ≡ Some files → IsPlain result →
        S.content shelf.new ≡ put_by (answer (map string_bytes words.now) files) (S.content shelf.old) }

    // a status that tells of no fault is the answer's, with the answer's text on `out`
    ensures settled { (files : Files) → S.content shelf.old ≡ Some files →
        Settles (answer (map string_bytes words.now) files) result (O.written out.old) (O.written out.new) }

    // where no count of faults rose there is the answer, or memory ran out
    ensures complete { (files : Files) → S.content shelf.old ≡ Some files →
        ¬ Rose (S.read_faults shelf.old) (S.read_faults shelf.new) → ¬ Rose (O.faults out.old) (O.faults out.new) →
        ¬ Rose (S.put_faults shelf.old) (S.put_faults shelf.new) → result ≢ 9
        → IsAnswered (answer (map string_bytes words.now) files) result (O.written out.old)
        (O.written out.new) }

    // status 3 tells that the words have no reading, and such words have it unless memory ran out
    ensures usage { result ≡ 3 → reading (map string_bytes words.now) ≡ None }
    ensures unread { reading (map string_bytes words.now) ≡ None → (result ≡ 3) ⊎ (result ≡ 9) }

    // a failed read: of a file of the command, each file before which was accepted
    ensures read_fault { result ≡ 7 → Rose (S.read_faults shelf.old) (S.read_faults shelf.new) }
    ensures read_of_command { result ≡ 7 →
        IsOfCommand (reading (map string_bytes words.now)) (S.failed_read shelf.new) }
    ensures read_in_order { (files : Files) → S.content shelf.old ≡ Some files → result ≡ 7 →
        Reaches files (work_for (map string_bytes words.now)) (S.failed_read shelf.new) }

    // no failed read is passed over
    ensures no_read_fault { result ≢ 7 → S.read_faults shelf.new ≡ S.read_faults shelf.old }

    // a failed write of the text of a command that nothing refuses, or a failed put of the file that it saves
    ensures write_fault { result ≡ 8 → Rose (O.faults out.old) (O.faults out.new)
        ⊎ (Rose (S.put_faults shelf.old) (S.put_faults shelf.new)
        × IsOfSaving (reading (map string_bytes words.now)) (S.failed_put shelf.new)) }
    ensures cut_short { (files : Files) → S.content shelf.old ≡ Some files → result ≡ 8 →
        (Rose (O.faults out.old) (O.faults out.new) × (S.content shelf.new ≡ S.content shelf.old)
        × IsCutShort (answer (map string_bytes words.now) files) (O.written out.old) (O.written out.new))
        ⊎ (Rose (S.put_faults shelf.old) (S.put_faults shelf.new)
        × IsUnsaved (answer (map string_bytes words.now) files) (S.failed_put shelf.new)
        (O.written out.old) (O.written out.new) (S.content shelf.old) (S.content shelf.new)) }

    // no failed write or put is passed over
    ensures no_write_fault { result ≢ 8 → O.faults out.new ≡ O.faults out.old }
    ensures no_put_fault { result ≢ 8 → S.put_faults shelf.new ≡ S.put_faults shelf.old }

    // no other status but 0, 1, 2, 10 and 8 writes to `out`
    ensures silent { result ≢ 0 → result ≢ 1 → result ≢ 2 → result ≢ 10 → result ≢ 8 →
        O.written out.new ≡ O.written out.old }

    // the line on `err`
    ensures line { (files : Files) → S.content shelf.old ≡ Some files → ¬ Rose (E.faults err.old) (E.faults err.new) →
        E.written err.new ≡ appended (E.written err.old) (line_for (answer (map string_bytes words.now) files) result) }
    ensures fixed_line { (line : List ℕ) → fixed_line result ≡ Some line →
        ¬ Rose (E.faults err.old) (E.faults err.new) →
        E.written err.new ≡ appended (E.written err.old) line }

    // the counters rise together by the frames of an answer alone
    ensures frames { (files : Files) → S.content shelf.old ≡ Some files →
        AreCounted COUNTERS steps.old.items steps.new.items (frames_of (answer (map string_bytes words.now) files)) }
    ensures no_frames { reading (map string_bytes words.now) ≡ None → steps.new.items ≡ steps.old.items }
    ensures never_falls { AllZip (λ before after. before ≤ after) steps.old.items steps.new.items }
{
    let reply = reply_by_workers(rt, alloc, words, shelf, gate, steps);
    tell(reply, shelf, out, err)
}

/// The reply to a command line, before anything is written.
fn reply_by_workers<R: Threads + Wait + Sync, S: Shelf, G: Gate, L: Ledger + Send>(
    rt: &R,
    alloc: Global,
    words: &[String],
    shelf: &mut S,
    gate: &G,
    steps: &mut Vec<Steps<L>>,
) -> Result<Reply, Stop>
    requires { COUNTERS ≤ length steps.old.items }
    ensures serves { (files : Files) → S.content shelf.old ≡ Some files →
        Serves files (work_for (map string_bytes words.now)) (S.failed_read shelf.new) result }
    ensures done { IfOk result (λ reply. IsCarriedOut reply.status) }
    ensures saved { IfOk result (IsSavedAs (saves_as (reading (map string_bytes words.now)))) }
    ensures usage { IsErrOf result Stop.Usage → reading (map string_bytes words.now) ≡ None }
    ensures unread { reading (map string_bytes words.now) ≡ None →
        (result ≡ Err Stop.Usage) ⊎ (result ≡ Err Stop.NoMemory) }
    ensures fault { IsErrOf result Stop.ReadFault → Rose (S.read_faults shelf.old) (S.read_faults shelf.new) }
    ensures no_fault { ¬ IsErrOf result Stop.ReadFault → S.read_faults shelf.new ≡ S.read_faults shelf.old }
    ensures fault_name { IsErrOf result Stop.ReadFault →
        IsOfCommand (reading (map string_bytes words.now)) (S.failed_read shelf.new) }
    ensures frames { (files : Files) → S.content shelf.old ≡ Some files →
        AreCounted COUNTERS steps.old.items steps.new.items (frames_of (answer (map string_bytes words.now) files)) }
    ensures no_frames { reading (map string_bytes words.now) ≡ None → steps.new.items ≡ steps.old.items }
    ensures never_falls { AllZip (λ before after. before ≤ after) steps.old.items steps.new.items }
    ensures content { S.content shelf.new ≡ S.content shelf.old }
    ensures put_faults { S.put_faults shelf.new ≡ S.put_faults shelf.old }
{
    match read_words(alloc, words) {
        Ok(command) => carry_out_by_workers(rt, alloc, &command, shelf, gate, steps),
        Err(WordsRefused::Usage) => Err(Stop::Usage),
        Err(WordsRefused::NoMemory) => Err(Stop::NoMemory),
    }
}

/// The reply to a command. Every command but a search by several workers, begun or gone on with, is carried out on the
/// first counter.
#[tactic(auto, unfolding(crate::specs::Answer::work_of, crate::specs::Search::search_work, nj_words::specs::Commands::IsInRange))]
fn carry_out_by_workers<R: Threads + Wait + Sync, S: Shelf, G: Gate, L: Ledger + Send>(
    rt: &R,
    alloc: Global,
    command: &Command,
    shelf: &mut S,
    gate: &G,
    steps: &mut Vec<Steps<L>>,
) -> Result<Reply, Stop>
    requires range { IsInRange command.now }
    requires counters { COUNTERS ≤ length steps.old.items }
    ensures serves { (files : Files) → S.content shelf.old ≡ Some files →
        Serves files (work_of command.now) (S.failed_read shelf.new) result }
    ensures done { IfOk result (λ reply. IsCarriedOut reply.status) }
    ensures saved { IfOk result (IsSavedAs (save_name command.now)) }
    ensures not_words { result ≢ Err Stop.Usage }
    ensures fault { IsErrOf result Stop.ReadFault → Rose (S.read_faults shelf.old) (S.read_faults shelf.new) }
    ensures no_fault { ¬ IsErrOf result Stop.ReadFault → S.read_faults shelf.new ≡ S.read_faults shelf.old }
    ensures fault_name { IsErrOf result Stop.ReadFault →
        Contains (map fnv_of (file_names command.now)) (S.failed_read shelf.new) }
    ensures frames { (files : Files) → S.content shelf.old ≡ Some files →
        AreCounted COUNTERS steps.old.items steps.new.items (frames_of (given files (work_of command.now))) }
    ensures never_falls { AllZip (λ before after. before ≤ after) steps.old.items steps.new.items }
    ensures content { S.content shelf.new ≡ S.content shelf.old }
    ensures put_faults { S.put_faults shelf.new ≡ S.put_faults shelf.old }
{
    match command {
        Command::Search {
            cart,
            script,
            start,
            options,
        } if options.workers > 1 => {
            let task = searched(cart, script, start, options);
            share(rt, alloc, &task.source, options, shelf, gate, steps)
        }
        Command::Resume {
            cart,
            script,
            start,
            saved,
            options,
        } if options.workers > 1 => {
            let task = resumed(cart, script, start, saved, options);
            share(rt, alloc, &task.source, options, shelf, gate, steps)
        }
        _ => carry_out(alloc, command, shelf, &mut steps[0]),
    }
}
