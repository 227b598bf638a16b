//! Searches on the walking cartridge by one thread and by several workers, from a start and from a saved search.
ghost use Rattle.std.specs.Prelude.{◌≡◌, ◌≤◌, IfOk, IfSome};
ghost use Rattle.nj_saved.specs.Ranges.{IsInRange, Fits};
ghost use Rattle.nj_search.specs.Plans.{AreInRange};

use crate::walking::{BUDGET, COUNTS, FIVE, R, WORDS_64, cartridge, limits, movie, script};
use nj_outside::OpenGate;
use nj_saved::{read_saved, write_saved};
use nj_search::{Limits, Outcome, Plan, PlanRefused, Saved, Steps, search_plain, search_shared};
use std::alloc::Global;
use std::marker::Brand;
use std::sync::Wait;
use std::sync::ledger::{Blank, Ledger};
use std::test::Fail;
use std::thread::Threads;

// An outcome's kind, step, reward and pads.
type Told = (u8, u32, i64, Vec<u8>);

// An outcome as its kind, step, reward and pads.
fn told(alloc: Global, outcome: &Outcome) -> Result<Told, Fail> {
    let (kind, step, reward, movie) = match outcome {
        Outcome::Exhausted { step } => return Ok((b'E', *step, 0, Vec::new(alloc))),
        Outcome::Won {
            step,
            reward,
            movie,
        } => (b'W', *step, *reward, movie),
        Outcome::Limit {
            step,
            reward,
            movie,
        } => (b'L', *step, *reward, movie),
    };
    let mut pads = Vec::new(alloc);
    for pad in movie.pads() {
        pads.push(pad.0)?;
    }
    Ok((kind, step, reward, pads))
}

fn plan(alloc: Global, text: &str, start: &[u8], limits: Limits) -> Result<Plan, Fail>
    requires { AreInRange limits }
{
    let start = movie(alloc, start)?;
    let plan = Plan::new(
        cartridge(alloc, 1, 1)?,
        script(alloc, text)?,
        start,
        limits,
        None,
    );
    Ok(plan.ok().ok_or("no plan")?)
}

// The plan that goes on from a saved search behind three frames, or what is refused of it.
fn plan_on(
    alloc: Global,
    text: &str,
    saved: Saved,
    limits: Limits,
) -> Result<Result<Plan, PlanRefused>, Fail>
    requires limits { AreInRange limits }
    requires saved { IsInRange saved }
    requires fits { Fits saved }
{
    let start = movie(alloc, &[0, 0, 0])?;
    Ok(Plan::new(
        cartridge(alloc, 1, 1)?,
        script(alloc, text)?,
        start,
        limits,
        Some(saved),
    ))
}

// What one thread finds, and how many frames it ran.
fn found<L: Ledger>(alloc: Global, blank: Blank, plan: Plan) -> Result<(Told, u64), Fail>
    requires { blank.name ≡ L.name }
{
    let mut steps = Steps::<L>::open(blank);
    let ended = search_plain(alloc, plan, false, &mut steps)?;
    Ok((told(alloc, &ended.outcome)?, steps.count()))
}

// What is read again of the saved search that one thread leaves at its limit, with the size of its file.
fn saved_at<L: Ledger>(alloc: Global, blank: Blank, plan: Plan) -> Result<(Saved, usize), Fail>
    requires { blank.name ≡ L.name }
    ensures ranges { IfOk result (λ told. IsInRange told.0) }
    ensures fits { IfOk result (λ told. Fits told.0) }
{
    let mut steps = Steps::<L>::open(blank);
    let ended = search_plain(alloc, plan, true, &mut steps)?;
    let saved = ended.saved.ok_or("nothing is saved")?;
    let file = write_saved(alloc, &saved)?;
    let read = read_saved(alloc, file.as_slice(), saved.cart, saved.script)?;
    Ok((read, file.len()))
}

// What so many workers find, and how many frames they ran together.
fn found_by<R: Threads + Wait + Sync, L: Ledger + Send>(
    rt: &R,
    alloc: Global,
    blank: Blank,
    plan: Plan,
    workers: u32,
) -> Result<(Told, u64), Fail>
    requires blank { blank.name ≡ L.name }
    requires workers { (1 ≤ workers) × (workers ≤ 64) }
{
    let mut steps = Steps::<L>::open_many(alloc, blank, 64)?;
    let ended = search_shared(rt, alloc, plan, false, workers, &OpenGate, &mut steps)?;
    let frames = steps
        .iter()
        .fold(0u64, |sum, counter| sum.wrapping_add(counter.count()));
    Ok((told(alloc, &ended.outcome)?, frames))
}

#[test]
fn one_thread_searches(rt: HostRuntime) -> Result<(), Fail> {
    let alloc = rt.alloc();
    let five = plan(alloc, FIVE, &[0, 0, 0], limits(BUDGET, 5, 20))?;
    assert_eq!(rt;
        found::<Brand>(alloc, Blank::new(1), five)?,
        ((b'W', 5, 105, vec![in alloc; 0, 0, 0, R, R, R, R, R]?), 17)
    );
    let cut = plan(alloc, FIVE, &[0, 0, 0], limits(8992, 2, 10))?;
    assert_eq!(rt;
        found::<Brand>(alloc, Blank::new(1), cut)?,
        ((b'L', 2, 2, vec![in alloc; 0, 0, 0, R, R]?), 9)
    );
    let exhausted = plan(alloc, FIVE, &[], limits(BUDGET, 5, 20))?;
    assert_eq!(rt;
        found::<Brand>(alloc, Blank::new(1), exhausted)?,
        ((b'E', 1, 0, Vec::new(alloc)), 2)
    );
    Ok(())
}

#[test]
fn workers_win_as_one_thread(rt: HostRuntime) -> Result<(), Fail> {
    let alloc = rt.alloc();
    for workers in [2, 3, 64] {
        let five = plan(alloc, FIVE, &[0, 0, 0], limits(WORDS_64, 5, 10))?;
        assert_eq!(rt;
            found_by::<HostRuntime, Brand>(&rt, alloc, Blank::new(1), five, workers)?,
            ((b'W', 5, 105, vec![in alloc; 0, 0, 0, R, R, R, R, R]?), 17)
        );
    }
    Ok(())
}

#[test]
fn workers_share_fronts_of_two_pieces(rt: HostRuntime) -> Result<(), Fail> {
    let alloc = rt.alloc();
    let counts = plan(alloc, COUNTS, &[0, 0, 0], limits(WORDS_64, 20, 10))?;
    assert_eq!(rt;
        found_by::<HostRuntime, Brand>(&rt, alloc, Blank::new(1), counts, 3)?,
        ((b'L', 20, 0, vec![in alloc; 0; 23]?), 653)
    );
    Ok(())
}

#[test]
fn a_saved_search_goes_on(rt: HostRuntime) -> Result<(), Fail> {
    let alloc = rt.alloc();
    let two = plan(alloc, FIVE, &[0, 0, 0], limits(BUDGET, 2, 20))?;
    let (saved, size) = saved_at::<Brand>(alloc, Blank::new(1), two)?;
    assert_eq!(rt; size, 90);
    assert_eq!(rt; saved.words.as_slice(), [R, R].as_slice());
    let three = plan_on(alloc, FIVE, saved, limits(BUDGET, 3, 20))?;
    assert_eq!(rt;
        found_by::<HostRuntime, Brand>(&rt, alloc, Blank::new(1), three.ok().ok_or("no plan")?, 4)?,
        ((b'W', 5, 105, vec![in alloc; 0, 0, 0, R, R, R, R, R]?), 13)
    );
    Ok(())
}

#[test]
fn saved_fronts_that_are_too_long(rt: HostRuntime) -> Result<(), Fail> {
    let alloc = rt.alloc();
    let two = plan(alloc, COUNTS, &[0, 0, 0], limits(4 * 8992, 2, 20))?;
    let (saved, size) = saved_at::<Brand>(alloc, Blank::new(1), two)?;
    assert_eq!(rt; size, 118);
    let one = plan_on(alloc, COUNTS, saved, limits(8992, 1, 20))?;
    assert_eq!(rt;
        one.err(),
        Some(PlanRefused::FrontTooLong { front: 3, bound: 1 })
    );
    Ok(())
}
