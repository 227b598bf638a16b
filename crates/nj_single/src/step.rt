//! One step by one thread.

ghost use Rattle.std.specs.Prelude.{◌≡◌, ◌≤◌, ◌<◌, ◌+◌, ◌*◌, false, true, length, IfOk, OnErr};
ghost use Rattle.nj_expand.specs.Held.{live_rows, candidates_in, kept_in};
ghost use Rattle.nj_expand.specs.Step.{IsStep};

use nj_expand::{Row, Search, Stepped, a_step_is_bounded, live_rows_come_by_words};
use nj_steps::Steps;
use std::alloc::{AllocError, Global};
use std::sync::ledger::Ledger;

/// Makes the next step: runs all candidates, and ends the step by the rows of the live ones. A candidate costs at most
/// the frames of a step, and one that is kept as many again. After want of memory the search is spent.
pub fn next_single<L: Ledger>(
    search: &mut Search,
    alloc: Global,
    steps: &mut Steps<L>,
) -> Result<Stepped, AllocError>
    requires spent { search.old.spent ≡ false }
    requires step { search.old.state.step < 16777215 }
    ensures next { IfOk result (λ stepped. IsStep search.old stepped search.new) }
    ensures spent { OnErr result (search.new.spent ≡ true) }
    ensures plan { search.new.plan ≡ search.old.plan }
    ensures bounds { search.new.bounds ≡ search.old.bounds }
    ensures frames { steps.new
        ≤ steps.old + search.old.plan.script.hold * (length (candidates_in search.old) + length (kept_in search.old)) }
    ensures bound { steps.new
        ≤ steps.old + search.old.plan.script.hold * (search.old.bounds.most * (search.old.bounds.inputs + 1)) }
    ensures never_falls { steps.old ≤ steps.new }
{
    runs_are_bounded(search);
    match rows_of(search, alloc, steps) {
        Ok(rows) => search.finish_alone(alloc, rows, steps),
        Err(error) => {
            search.spend();
            Err(error)
        }
    }
}

// Candidates and those that are kept are no more than the bounds of the search say.
fn runs_are_bounded(search: &Search)
    ensures { length (candidates_in search.now) + length (kept_in search.now)
        ≤ search.now.bounds.most * (search.now.bounds.inputs + 1) }
{
    a_step_is_bounded();
    let _bounds = search.bounds();
    let _words = search.front_len();
}

// The rows of the live candidates of the next step, by rising number.
fn rows_of<L: Ledger>(
    search: &Search,
    alloc: Global,
    steps: &mut Steps<L>,
) -> Result<Vec<Row>, AllocError>
    requires { search.now.spent ≡ false }
    ensures rows { IfOk result (λ rows. rows.items ≡ live_rows search.now) }
    ensures frames { steps.new ≤ steps.old + search.now.plan.script.hold * length (candidates_in search.now) }
    ensures never_falls { steps.old ≤ steps.new }
{
    live_rows_come_by_words();
    let inputs = search.bounds().inputs as usize;
    let mut machine = search.machine(alloc)?;
    let mut room = vec![in alloc; 0; search.image_len()]?;
    let image = room.as_mut_slice();
    let mut rows = Vec::new(alloc);
    for place in 0..search.front_len() {
        rows.reserve(inputs)?;
        search.expand_word(place, &mut machine, image, &mut rows, steps);
    }
    Ok(rows)
}
