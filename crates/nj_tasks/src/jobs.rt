//! What a command does once its files were read, and the one way in which each is carried out.

ghost use Rattle.std.specs.Prelude.{◌≡◌, ◌≢◌, ◌+◌, ◌≤◌, List, ℕ, IfOk, Option, Some, None, Err, map, Contains, IsErrOf};
ghost use Rattle.nj_bytes.specs.Fnv.{fnv_of};
ghost use Rattle.nj_outside.specs.Rise.{Rose};
ghost use Rattle.nj_outside.specs.Told.{Files};
ghost use Rattle.nj_tasks.specs.Causes.{IsCarriedOut, IsSavedAs};
ghost use Rattle.nj_tasks.specs.Stops.{Reads, Serves};
ghost use Rattle.nj_tasks.specs.Work.{Finding, found_in, frames_for, frames_of, given};

use crate::files::Source;
use crate::stops::{Reply, Stop};
use nj_outside::Shelf;
use nj_steps::Steps;
use std::alloc::{AllocError, Global};
use std::sync::ledger::Ledger;

/// What a command does with what it read, a `V`: it finds something in it, and tells of what it found.
pub trait Job<V> {
    type Found: Drop;

    ghost finding: { Self → Finding V Self.Found };

    /// What the job has to know of itself and of what was read.
    ghost needs: { Self → V → Type 0 } = { λ _ _. Unit {0} };

    /// The name that it saves under, if it was given one.
    ghost saves: { Self → Option (List ℕ) } = { λ _. None };

    fn find<L: Ledger>(
        &self,
        alloc: Global,
        said: V,
        steps: &mut Steps<L>,
    ) -> Result<Self::Found, Stop>
        requires needs { needs self.now said }
        ensures reads { Reads (finding self.now).kind ((finding self.now).reading said) result }
        ensures not_words { result ≢ Err Stop.Usage }
        ensures not_unread { result ≢ Err Stop.ReadFault }
        ensures frames { steps.new ≤ steps.old
            + frames_for ((finding self.now).reading said) ((finding self.now).frames said) }
        ensures never_falls { steps.old ≤ steps.new };

    fn reply(&self, alloc: Global, found: Self::Found) -> Result<Reply, AllocError>
        ensures status { IfOk result (λ reply. reply.status ≡ (finding self.now).status found) }
        ensures text { IfOk result (λ reply. reply.text ≡ (finding self.now).text found) }
        ensures file { IfOk result (λ reply. reply.file ≡ (finding self.now).file found) }
        ensures done { IfOk result (λ reply. IsCarriedOut reply.status) }
        ensures saved { IfOk result (IsSavedAs (saves self.now)) };
}

/// What a command reads, and what it does then.
#[derive(Clone, Copy)]
pub struct Task<A, J> {
    pub source: A,
    pub job: J,
}

/// The reply to a command with this task.
pub fn serve<A: Source, J: Job<A::Value>, S: Shelf, L: Ledger>(
    alloc: Global,
    task: &Task<A, J>,
    shelf: &mut S,
    steps: &mut Steps<L>,
) -> Result<Reply, Stop>
    requires { (said : A.Value) → A.holds said → J.needs task.now.job said }
    ensures serves { (files : Files) → S.content shelf.old ≡ Some files →
        Serves files (A.work task.now.source (found_in (J.finding task.now.job))) (S.failed_read shelf.new) result }
    ensures done { IfOk result (λ reply. IsCarriedOut reply.status) }
    ensures saved { IfOk result (IsSavedAs (J.saves task.now.job)) }
    ensures not_words { result ≢ Err Stop.Usage }
    ensures fault { IsErrOf result Stop.ReadFault → Rose (S.read_faults shelf.old) (S.read_faults shelf.new) }
    ensures no_fault { ¬ IsErrOf result Stop.ReadFault → S.read_faults shelf.new ≡ S.read_faults shelf.old }
    ensures fault_name { IsErrOf result Stop.ReadFault →
        Contains (map fnv_of (A.names task.now.source)) (S.failed_read shelf.new) }
    ensures frames { (files : Files) → S.content shelf.old ≡ Some files →
        steps.new ≤ steps.old + frames_of (given files (A.work task.now.source (found_in (J.finding task.now.job)))) }
    ensures never_falls { steps.old ≤ steps.new }
    ensures content { S.content shelf.new ≡ S.content shelf.old }
    ensures put_faults { S.put_faults shelf.new ≡ S.put_faults shelf.old }
{
    let said = task.source.load(alloc, shelf)?;
    let found = task.job.find(alloc, said, steps);
    reply_of(alloc, &task.job, found)
}

/// The reply of a job to what it found, or the stop of its finding.
pub fn reply_of<V, J: Job<V>>(
    alloc: Global,
    job: &J,
    found: Result<J::Found, Stop>,
) -> Result<Reply, Stop>
    ensures serves { (files : Files) (said : V) (failed : ℕ) →
        Reads (J.finding job.now).kind ((J.finding job.now).reading said) found →
        Serves files (found_in (J.finding job.now) said) failed result }
    ensures done { IfOk result (λ reply. IsCarriedOut reply.status) }
    ensures saved { IfOk result (IsSavedAs (J.saves job.now)) }
    ensures not_words { found ≢ Err Stop.Usage → result ≢ Err Stop.Usage }
    ensures not_unread { found ≢ Err Stop.ReadFault → result ≢ Err Stop.ReadFault }
{
    let found = found?;
    Ok(job.reply(alloc, found)?)
}
