//! The commands that need no search, each served as its task.

ghost use Rattle.std.specs.Prelude.{◌≡◌, ◌≤◌, ◌+◌, Some, None, map, Contains, IfOk, IsErrOf};
ghost use Rattle.nj_bytes.specs.Fnv.{fnv_of};
ghost use Rattle.nj_outside.specs.Rise.{Rose};
ghost use Rattle.nj_outside.specs.Told.{Files};
ghost use Rattle.nj_tasks.specs.Causes.{IsCarriedOut, IsSavedAs};
ghost use Rattle.nj_tasks.specs.Stops.{Serves};
ghost use Rattle.nj_tasks.specs.Work.{frames_of, given};
ghost use Rattle.nj_words.specs.Commands.{IsInRange};
ghost use Rattle.nj_commands.specs.Commands.{NeedsSearch, names_without_search, work_without_search};

use crate::asm::assembled;
use crate::clean::cleaned;
use crate::play::played;
use crate::replay::replayed;
use crate::trace::traced;
use crate::watch::watched;
use nj_outside::Shelf;
use nj_steps::Steps;
use nj_tasks::{Reply, Stop, serve};
use nj_words::Command;
use std::alloc::Global;
use std::sync::ledger::Ledger;

/// The reply to a command that needs no search. Any other command is refused, as words without a reading are.
#[tactic(auto, unfolding(crate::specs::Commands::work_without_search, crate::specs::Asm::asm_work, crate::specs::Clean::clean_work, crate::specs::Play::play_work, crate::specs::Replay::replay_work, crate::specs::Trace::trace_work, crate::specs::Watch::watch_work, nj_words::specs::Commands::IsInRange))]
pub fn carry_out<S: Shelf, L: Ledger>(
    alloc: Global,
    command: &Command,
    shelf: &mut S,
    steps: &mut Steps<L>,
) -> Result<Reply, Stop>
    requires { IsInRange command.now }
    ensures serves { (files : Files) → S.content shelf.old ≡ Some files →
        Serves files (work_without_search command.now) (S.failed_read shelf.new) result }
    ensures done { IfOk result (λ reply. IsCarriedOut reply.status) }
    ensures saved { IfOk result (IsSavedAs None) }
    ensures not_words { IsErrOf result Stop.Usage → NeedsSearch command.now }
    ensures fault { IsErrOf result Stop.ReadFault → Rose (S.read_faults shelf.old) (S.read_faults shelf.new) }
    ensures no_fault { ¬ IsErrOf result Stop.ReadFault → S.read_faults shelf.new ≡ S.read_faults shelf.old }
    ensures fault_name { IsErrOf result Stop.ReadFault →
        Contains (map fnv_of (names_without_search command.now)) (S.failed_read shelf.new) }
    ensures frames { (files : Files) → S.content shelf.old ≡ Some files →
        steps.new ≤ steps.old + frames_of (given files (work_without_search command.now)) }
    ensures never_falls { steps.old ≤ steps.new }
    ensures content { S.content shelf.new ≡ S.content shelf.old }
    ensures put_faults { S.put_faults shelf.new ≡ S.put_faults shelf.old }
{
    match command {
        Command::Play { cart, movie } => serve(alloc, &played(cart, movie), shelf, steps),
        Command::Replay {
            cart,
            script,
            start,
            movie,
        } => serve(alloc, &replayed(cart, script, start, movie), shelf, steps),
        Command::Asm { source } => serve(alloc, &assembled(source), shelf, steps),
        Command::Clean {
            cart,
            script,
            start,
            movie,
        } => serve(alloc, &cleaned(cart, script, start, movie), shelf, steps),
        Command::Trace { cart, movie, frame } => {
            serve(alloc, &traced(cart, movie, *frame), shelf, steps)
        }
        Command::Watch {
            cart,
            script,
            movie,
        } => serve(alloc, &watched(cart, script, movie), shelf, steps),
        _ => Err(Stop::Usage),
    }
}
