//! The search of a plan: what a plan is refused for, and what its search answers, by one thread or by several workers.

ghost use Rattle.std.specs.Prelude.{◌≡◌, ◌≢◌, ◌≤◌, ◌+◌, length, string_bytes, IfOk, IfSome, Err};
ghost use Rattle.nj_saved.specs.Ranges.{Fits, IsInRange};
ghost use Rattle.nj_plan.specs.Outcomes.{frames_most};
ghost use Rattle.nj_plan.specs.Plans.{AreInRange};
ghost use Rattle.nj_texts.specs.declared.kinds.Kind.TheVariants as kinds;
ghost use Rattle.nj_workers.specs.Counted.{AreCounted};
ghost use Rattle.nj_app.specs.Refusals.{plan_refusal};
ghost use Rattle.nj_app.specs.Search.{planned, search_reading};
ghost use Rattle.nj_tasks.specs.Stops.{Reads};
ghost use Rattle.nj_tasks.specs.Work.{frames_for};
ghost use Rattle.nj_app.specs.declared.sharing.TheConstants.{COUNTERS};

use crate::sharing::COUNTERS;
use nj_ines::Cart;
use nj_movie::Movie;
use nj_outside::Gate;
use nj_saved::Saved;
use nj_script::Script;
use nj_search::{Ended, Limits, Plan, PlanRefused, search_plain, search_shared};
use nj_steps::Steps;
use nj_tasks::{Stop, refused};
use nj_texts::{Kind, Refusal};
use std::alloc::{AllocError, Global};
use std::sync::Wait;
use std::sync::ledger::Ledger;
use std::thread::Threads;

/// Why a plan was refused, as it is told.
#[derive(Drop)]
struct RefusedPlan {
    refusal: PlanRefused,
}

impl Refusal for RefusedPlan {
    ghost text = { λ plan. plan_refusal plan.refusal };

    #[tactic(auto, unfolding(crate::specs::Refusals::plan_refusal))]
    fn text(&self, alloc: Global) -> Result<String, AllocError> {
        match &self.refusal {
            PlanRefused::BudgetTooSmall { budget, cost } => {
                format!(in alloc; "1 BudgetTooSmall budget={budget} cost={cost}")
            }
            PlanRefused::SeenTooSmall { need, slots } => {
                format!(in alloc; "2 SeenTooSmall need={need} slots={slots}")
            }
            PlanRefused::TrailTooLong { rows, limit } => {
                format!(in alloc; "3 TrailTooLong rows={rows} limit={limit}")
            }
            PlanRefused::MovieTooLong { frames, limit } => {
                format!(in alloc; "4 MovieTooLong frames={frames} limit={limit}")
            }
            PlanRefused::FrontTooLong { front, bound } => {
                format!(in alloc; "5 FrontTooLong front={front} bound={bound}")
            }
        }
    }
}

/// What is searched: a game, and the saved search that is gone on with, if there is one.
#[derive(Drop)]
pub struct Setting {
    pub cart: Cart,
    pub script: Script,
    pub start: Movie,
    pub saved: Option<Saved>,
}

/// What the search of a setting answers. A plan that is refused runs no frame.
#[tactic(auto, unfolding(crate::specs::Search::search_reading))]
pub fn searched<L: Ledger>(
    alloc: Global,
    setting: Setting,
    limits: Limits,
    keep: bool,
    steps: &mut Steps<L>,
) -> Result<Ended, Stop>
    requires limits { AreInRange limits }
    requires saved { IfSome setting.saved IsInRange }
    requires fits { IfSome setting.saved Fits }
    ensures reads { Reads kinds.Plan (search_reading (planned setting limits) keep) result }
    ensures saved { IfOk result (λ ended. IfSome ended.saved IsInRange) }
    ensures not_words { result ≢ Err Stop.Usage }
    ensures not_unread { result ≢ Err Stop.ReadFault }
    ensures frames { steps.new ≤ steps.old
        + frames_for (search_reading (planned setting limits) keep) (frames_most (planned setting limits)) }
    ensures never_falls { steps.old ≤ steps.new }
{
    let Setting {
        cart,
        script,
        start,
        saved,
    } = setting;
    match Plan::new(cart, script, start, limits, saved) {
        Ok(plan) => Ok(search_plain(alloc, plan, keep, steps)?),
        Err(refusal) => Err(refused(alloc, Kind::Plan, &RefusedPlan { refusal })),
    }
}

/// The same answer, found by so many workers.
#[tactic(auto, unfolding(crate::specs::Search::search_reading))]
pub fn searched_by_workers<R: Threads + Wait + Sync, G: Gate, L: Ledger + Send>(
    rt: &R,
    alloc: Global,
    setting: Setting,
    limits: Limits,
    keep: bool,
    workers: u32,
    gate: &G,
    steps: &mut Vec<Steps<L>>,
) -> Result<Ended, Stop>
    requires limits { AreInRange limits }
    requires saved { IfSome setting.saved IsInRange }
    requires fits { IfSome setting.saved Fits }
    requires workers { (1 ≤ workers) × (workers ≤ COUNTERS) }
    requires counters { COUNTERS ≤ length steps.old.items }
    ensures reads { Reads kinds.Plan (search_reading (planned setting limits) keep) result }
    ensures saved { IfOk result (λ ended. IfSome ended.saved IsInRange) }
    ensures not_words { result ≢ Err Stop.Usage }
    ensures not_unread { result ≢ Err Stop.ReadFault }
    ensures frames { AreCounted COUNTERS steps.old.items steps.new.items
        (frames_for (search_reading (planned setting limits) keep) (frames_most (planned setting limits))) }
{
    let Setting {
        cart,
        script,
        start,
        saved,
    } = setting;
    match Plan::new(cart, script, start, limits, saved) {
        Ok(plan) => Ok(search_shared(rt, alloc, plan, keep, workers, gate, steps)?),
        Err(refusal) => Err(refused(alloc, Kind::Plan, &RefusedPlan { refusal })),
    }
}
