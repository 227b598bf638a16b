//! `workload NUMBER`: the search of the files that are made from a number.

ghost use Rattle.std.specs.Prelude.{◌≡◌, ◌≢◌, ◌≤◌, ◌+◌, ◌++◌, length, IfOk, Some, None, Err};
ghost use Rattle.nj_outside.specs.Told.{Files};
ghost use Rattle.nj_texts.specs.Lines.{workload_line};
ghost use Rattle.nj_workload.specs.Game.{game_file};
ghost use Rattle.nj_tasks.specs.Causes.{IsCarriedOut, IsSavedAs};
ghost use Rattle.nj_app.specs.Outcomes.{outcome_head};
ghost use Rattle.nj_tasks.specs.Stops.{Serves};
ghost use Rattle.nj_tasks.specs.Work.{frames_of, given};
ghost use Rattle.nj_app.specs.Workload.{workload_finding, workload_work};

use crate::outcomes::outcome_head;
use crate::planning::{Setting, searched};
use nj_ines::Cart;
use nj_movie::Movie;
use nj_outside::Shelf;
use nj_script::Script;
use nj_search::{Ended, Limits, Outcome};
use nj_seq::Text;
use nj_steps::Steps;
use nj_tasks::{
    CartFormat, Job, Made, MovieFormat, Reply, ScriptFormat, Stop, Task, bytes_of, serve,
};
use nj_texts::workload_line;
use nj_workload::make_workload;
use std::alloc::{AllocError, Global};
use std::sync::ledger::Ledger;

/// The limits of a workload's search: 64 words of a front, 20 steps and 2^16 slots.
pub const LIMITS: Limits = Limits {
    budget: 575_488,
    steps: 20,
    exponent: 16,
};

#[derive(Clone, Copy)]
struct Report {
    number: u64,
    /// The bytes of its cartridge.
    size: u64,
}

impl Job<((Cart, Script), Movie)> for Report {
    type Found = Ended;

    ghost finding = { λ job. workload_finding job.number job.size };

    #[tactic(auto, unfolding(crate::specs::Workload::workload_finding))]
    fn find<L: Ledger>(
        &self,
        alloc: Global,
        said: ((Cart, Script), Movie),
        steps: &mut Steps<L>,
    ) -> Result<Ended, Stop> {
        let ((cart, script), start) = said;
        let setting = Setting {
            cart,
            script,
            start,
            saved: None,
        };
        searched(alloc, setting, LIMITS, false, steps)
    }

    #[tactic(auto, unfolding(crate::specs::Workload::workload_finding))]
    fn reply(&self, alloc: Global, found: Ended) -> Result<Reply, AllocError> {
        let text = report_text(alloc, self.number, self.size, &found.outcome)?;
        Ok(Reply::of(0, bytes_of(text)))
    }
}

/// The reply to `workload`. The files that are made are read as those of a shelf are.
pub fn workload<S: Shelf, L: Ledger>(
    alloc: Global,
    number: u64,
    shelf: &mut S,
    steps: &mut Steps<L>,
) -> Result<Reply, Stop>
    ensures serves { (files : Files) → S.content shelf.old ≡ Some files →
        Serves files (workload_work number) (S.failed_read shelf.new) result }
    ensures done { IfOk result (λ reply. IsCarriedOut reply.status) }
    ensures saved { IfOk result (IsSavedAs None) }
    ensures not_words { result ≢ Err Stop.Usage }
    ensures not_unread { result ≢ Err Stop.ReadFault }
    ensures frames { (files : Files) → S.content shelf.old ≡ Some files →
        steps.new ≤ steps.old + frames_of (given files (workload_work number)) }
    ensures never_falls { steps.old ≤ steps.new }
    ensures content { S.content shelf.new ≡ S.content shelf.old }
    ensures no_fault { S.read_faults shelf.new ≡ S.read_faults shelf.old }
    ensures put_faults { S.put_faults shelf.new ≡ S.put_faults shelf.old }
{
    let made = make_workload(alloc, number)?;
    let cart = Made {
        format: CartFormat,
        bytes: made.cart.as_slice(),
    };
    let script = Made {
        format: ScriptFormat,
        bytes: made.script.as_bytes(),
    };
    let start = Made {
        format: MovieFormat,
        bytes: made.start.as_bytes(),
    };
    let size = made.cart.len() as u64;
    let task = Task {
        source: ((cart, script), start),
        job: Report { number, size },
    };
    serve(alloc, &task, shelf, steps)
}

fn report_text(alloc: Global, number: u64, size: u64, outcome: &Outcome) -> Result<Text, AllocError>
    ensures { IfOk result (λ text. text ≡ workload_line number size ++ outcome_head outcome.now) }
{
    let mut text = workload_line(alloc, number, size)?;
    let head = outcome_head(alloc, outcome)?;
    text.push_str(head.as_str())?;
    Ok(text)
}
