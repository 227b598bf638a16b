//! The top call by one thread.

ghost use Rattle.std.specs.Prelude.{◌≡◌, ◌≢◌, ◌⊎◌, ◌≤◌, ◌+◌, List, ℕ, Some, None, Err, map, string_bytes, Contains, IfOk, IsErrOf};
ghost use Rattle.nj_bytes.specs.Fnv.{fnv_of};
ghost use Rattle.nj_outside.specs.Rise.{Rose};
ghost use Rattle.nj_outside.specs.Told.{Files, appended};
ghost use Rattle.nj_tasks.specs.Causes.{statuses, IsAnswered, IsPlain, Settles, IsCutShort, IsUnsaved, IsCarriedOut};
ghost use Rattle.nj_tasks.specs.Causes.{IsSavedAs, fixed_line, line_for, put_by};
ghost use Rattle.nj_tasks.specs.Stops.{Serves};
ghost use Rattle.nj_tasks.specs.Work.{frames_of, given, Reaches};
ghost use Rattle.nj_words.specs.Commands.{reading, IsInRange};
ghost use Rattle.nj_app.specs.Answer.{answer, file_names, save_name, saves_as, work_of, work_for, IsOfCommand, IsOfSaving};

use crate::check::checked;
use crate::search::{resumed, searched};
use crate::workload::workload;
use nj_outside::{Shelf, Sink};
use nj_steps::Steps;
use nj_tasks::{Reply, Stop, serve, tell};
use nj_words::{Command, WordsRefused, read_words};
use std::alloc::Global;
use std::sync::ledger::Ledger;

/// Carries out one command line: the words are those after the program's name, the text goes to `out` and a line of
/// refusal to `err`. It answers the exit status. A step is one frame of the machine. One thread searches, however many
/// workers the words ask for; [`run`](crate::run) is the call for more.
pub fn run_plain<S: Shelf, O: Sink, E: Sink, L: Ledger>(
    alloc: Global,
    words: &[String],
    shelf: &mut S,
    out: &mut O,
    err: &mut E,
    steps: &mut Steps<L>,
) -> u8
    ensures known { Contains statuses result }

    // no file changes, but for one that is saved
    ensures content { result ≢ 2 → result ≢ 8 → S.content shelf.new ≡ S.content shelf.old }
    ensures saved { (files : Files) → S.content shelf.old ≡ Some files → IsPlain result →
        S.content shelf.new ≡ put_by (answer (map string_bytes words.now) files) (S.content shelf.old) }

    // a status that tells of no fault is the answer's, with the answer's text on `out`
    ensures settled { (files : Files) → S.content shelf.old ≡ Some files →
        Settles (answer (map string_bytes words.now) files) result (O.written out.old) (O.written out.new) }

    // where no count of faults rose there is the answer, or memory ran out
    ensures complete { (files : Files) → S.content shelf.old ≡ Some files →
        ¬ Rose (S.read_faults shelf.old) (S.read_faults shelf.new) → ¬ Rose (O.faults out.old) (O.faults out.new) →
        ¬ Rose (S.put_faults shelf.old) (S.put_faults shelf.new) → result ≢ 9
        → IsAnswered (answer (map string_bytes words.now) files) result (O.written out.old)
        (O.written out.new) }

    // status 3 tells that the words have no reading, and such words have it unless memory ran out
    ensures usage { result ≡ 3 → reading (map string_bytes words.now) ≡ None }
    ensures unread { reading (map string_bytes words.now) ≡ None → (result ≡ 3) ⊎ (result ≡ 9) }

    // a failed read: of a file of the command, each file before which was accepted
    ensures read_fault { result ≡ 7 → Rose (S.read_faults shelf.old) (S.read_faults shelf.new) }
    ensures read_of_command { result ≡ 7 →
        IsOfCommand (reading (map string_bytes words.now)) (S.failed_read shelf.new) }
    ensures read_in_order { (files : Files) → S.content shelf.old ≡ Some files → result ≡ 7 →
        Reaches files (work_for (map string_bytes words.now)) (S.failed_read shelf.new) }

    // no failed read is passed over
    ensures no_read_fault { result ≢ 7 → S.read_faults shelf.new ≡ S.read_faults shelf.old }

    // a failed write of the text of a command that nothing refuses, or a failed put of the file that it saves
    ensures write_fault { result ≡ 8 → Rose (O.faults out.old) (O.faults out.new)
        ⊎ (Rose (S.put_faults shelf.old) (S.put_faults shelf.new)
        × IsOfSaving (reading (map string_bytes words.now)) (S.failed_put shelf.new)) }
    ensures cut_short { (files : Files) → S.content shelf.old ≡ Some files → result ≡ 8 →
        (Rose (O.faults out.old) (O.faults out.new) × (S.content shelf.new ≡ S.content shelf.old)
        × IsCutShort (answer (map string_bytes words.now) files) (O.written out.old) (O.written out.new))
        ⊎ (Rose (S.put_faults shelf.old) (S.put_faults shelf.new)
        × IsUnsaved (answer (map string_bytes words.now) files) (S.failed_put shelf.new)
        (O.written out.old) (O.written out.new) (S.content shelf.old) (S.content shelf.new)) }

    // no failed write or put is passed over
    ensures no_write_fault { result ≢ 8 → O.faults out.new ≡ O.faults out.old }
    ensures no_put_fault { result ≢ 8 → S.put_faults shelf.new ≡ S.put_faults shelf.old }

    // no other status but 0, 1, 2, 10 and 8 writes to `out`
    ensures silent { result ≢ 0 → result ≢ 1 → result ≢ 2 → result ≢ 10 → result ≢ 8 →
        O.written out.new ≡ O.written out.old }

    // the line on `err`
    ensures line { (files : Files) → S.content shelf.old ≡ Some files → ¬ Rose (E.faults err.old) (E.faults err.new) →
        E.written err.new ≡ appended (E.written err.old) (line_for (answer (map string_bytes words.now) files) result) }
    ensures fixed_line { (line : List ℕ) → fixed_line result ≡ Some line →
        ¬ Rose (E.faults err.old) (E.faults err.new) →
        E.written err.new ≡ appended (E.written err.old) line }

    // frames are run for an answer alone
    ensures frames { (files : Files) → S.content shelf.old ≡ Some files →
        steps.new ≤ steps.old + frames_of (answer (map string_bytes words.now) files) }
    ensures no_frames { reading (map string_bytes words.now) ≡ None → steps.new ≡ steps.old }
    ensures never_falls { steps.old ≤ steps.new }
{
    let reply = reply_to(alloc, words, shelf, steps);
    tell(reply, shelf, out, err)
}

/// The reply to a command line, before anything is written.
fn reply_to<S: Shelf, L: Ledger>(
    alloc: Global,
    words: &[String],
    shelf: &mut S,
    steps: &mut Steps<L>,
) -> Result<Reply, Stop>
    ensures serves { (files : Files) → S.content shelf.old ≡ Some files →
        Serves files (work_for (map string_bytes words.now)) (S.failed_read shelf.new) result }
    ensures done { IfOk result (λ reply. IsCarriedOut reply.status) }
    ensures saved { IfOk result (IsSavedAs (saves_as (reading (map string_bytes words.now)))) }
    ensures usage { IsErrOf result Stop.Usage → reading (map string_bytes words.now) ≡ None }
    ensures unread { reading (map string_bytes words.now) ≡ None →
        (result ≡ Err Stop.Usage) ⊎ (result ≡ Err Stop.NoMemory) }
    ensures fault { IsErrOf result Stop.ReadFault → Rose (S.read_faults shelf.old) (S.read_faults shelf.new) }
    ensures no_fault { ¬ IsErrOf result Stop.ReadFault → S.read_faults shelf.new ≡ S.read_faults shelf.old }
    ensures fault_name { IsErrOf result Stop.ReadFault →
        IsOfCommand (reading (map string_bytes words.now)) (S.failed_read shelf.new) }
    ensures frames { (files : Files) → S.content shelf.old ≡ Some files →
        steps.new ≤ steps.old + frames_of (answer (map string_bytes words.now) files) }
    ensures no_frames { reading (map string_bytes words.now) ≡ None → steps.new ≡ steps.old }
    ensures never_falls { steps.old ≤ steps.new }
    ensures content { S.content shelf.new ≡ S.content shelf.old }
    ensures put_faults { S.put_faults shelf.new ≡ S.put_faults shelf.old }
{
    match read_words(alloc, words) {
        Ok(command) => carry_out(alloc, &command, shelf, steps),
        Err(WordsRefused::Usage) => Err(Stop::Usage),
        Err(WordsRefused::NoMemory) => Err(Stop::NoMemory),
    }
}

/// The reply to a command.
#[tactic(auto, unfolding(crate::specs::Answer::work_of, crate::specs::Check::check_work, crate::specs::Search::search_work, nj_words::specs::Commands::IsInRange))]
pub fn carry_out<S: Shelf, L: Ledger>(
    alloc: Global,
    command: &Command,
    shelf: &mut S,
    steps: &mut Steps<L>,
) -> Result<Reply, Stop>
    requires { IsInRange command.now }
    ensures serves { (files : Files) → S.content shelf.old ≡ Some files →
        Serves files (work_of command.now) (S.failed_read shelf.new) result }
    ensures done { IfOk result (λ reply. IsCarriedOut reply.status) }
    ensures saved { IfOk result (IsSavedAs (save_name command.now)) }
    ensures not_words { result ≢ Err Stop.Usage }
    ensures fault { IsErrOf result Stop.ReadFault → Rose (S.read_faults shelf.old) (S.read_faults shelf.new) }
    ensures no_fault { ¬ IsErrOf result Stop.ReadFault → S.read_faults shelf.new ≡ S.read_faults shelf.old }
    ensures fault_name { IsErrOf result Stop.ReadFault →
        Contains (map fnv_of (file_names command.now)) (S.failed_read shelf.new) }
    ensures frames { (files : Files) → S.content shelf.old ≡ Some files →
        steps.new ≤ steps.old + frames_of (given files (work_of command.now)) }
    ensures never_falls { steps.old ≤ steps.new }
    ensures content { S.content shelf.new ≡ S.content shelf.old }
    ensures put_faults { S.put_faults shelf.new ≡ S.put_faults shelf.old }
{
    match command {
        Command::Search {
            cart,
            script,
            start,
            options,
        } => serve(alloc, &searched(cart, script, start, options), shelf, steps),
        Command::Resume {
            cart,
            script,
            start,
            saved,
            options,
        } => {
            let task = resumed(cart, script, start, saved, options);
            serve(alloc, &task, shelf, steps)
        }
        Command::Check { cart, script } => serve(alloc, &checked(cart, script), shelf, steps),
        Command::Workload { number } => workload(alloc, *number, shelf, steps),
        _ => nj_commands::carry_out(alloc, command, shelf, steps),
    }
}
