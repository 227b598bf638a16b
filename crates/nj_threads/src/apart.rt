//! One thread starts all others.

ghost use Rattle.std.specs.Prelude.{◌≡◌, ◌≤◌, length};
ghost use denote.Param.Send.{IsSync, IsSend};
ghost use Rattle.std.specs.Fork.{AcceptsEach, ChangesEach};
ghost use Rattle.nj_threads.specs.Elements.{AcceptsOne, ChangesOne, AcceptsFrom, ChangesFrom};

use std::marker::{Send, Sync};
use std::thread::{Threads, join_mut};

/// Calls `f` with each place of a slice and its element, the last in this thread, and each other in a thread of its own
/// where one can be made. This thread starts all of them, and goes on when all calls have returned.
pub fn for_each_apart<R: Threads + Sync, T: Send, F: Fn(usize, &mut T) + Sync>(
    rt: &R,
    all: &mut [T],
    f: &F,
)
    requires accepts { AcceptsEach F.Fn f.now all.old }
    ensures many { length all.new ≡ length all.old }
    ensures changes { ChangesEach F.Fn f.now all.old all.new }
{
    each_from(rt, f, 0, all);
}

// The first element stands at this place.
#[cycle(calls)]
fn each_from<R: Threads + Sync, T: Send, F: Fn(usize, &mut T) + Sync>(
    rt: &R,
    f: &F,
    place: usize,
    all: &mut [T],
)
    requires { AcceptsFrom F.Fn f.now place all.old }
    ensures { ChangesFrom F.Fn f.now place all.old all.new }
{
    if all.len() < 2 {
        at_most_one(f, place, all);
        return;
    }
    let (first, others) = all.split_at_mut(1);
    first_beside_others(rt, f, place, first, place + 1, others);
}

// A separate function from `each_from`, so that what the closures require is what this function is given.
#[cycle(calls)]
fn first_beside_others<R: Threads + Sync, T: Send, F: Fn(usize, &mut T) + Sync>(
    rt: &R,
    f: &F,
    place: usize,
    first: &mut [T],
    next: usize,
    others: &mut [T],
)
    requires one { length first.old ≤ 1 }
    requires first { AcceptsFrom F.Fn f.now place first.old }
    requires others { AcceptsFrom F.Fn f.now next others.old }
    ensures first { ChangesFrom F.Fn f.now place first.old first.new }
    ensures others { ChangesFrom F.Fn f.now next others.old others.new }
{
    let mut apart = ||
        requires { IsSync F.row × IsSend T.row × (length first.now ≤ 1) × AcceptsFrom F.Fn f.now place first.now }
        ensures { ChangesFrom F.Fn f.entry.now place first.entry.now first.exit.now }
    { at_most_one(f, place, first) };
    let mut here = ||
        requires { IsSync R.row × IsSync F.row × IsSend T.row × AcceptsFrom F.Fn f.now next others.now }
        ensures { ChangesFrom F.Fn f.entry.now next others.entry.now others.exit.now }
    { each_from(rt, f, next, others) };
    join_mut(rt, &mut apart, &mut here);
}

// There is no element, or one.
fn at_most_one<T, F: Fn(usize, &mut T)>(f: &F, place: usize, few: &mut [T])
    requires one { length few.old ≤ 1 }
    requires accepts { AcceptsFrom F.Fn f.now place few.old }
    ensures { ChangesFrom F.Fn f.now place few.old few.new }
{
    if let Some((one, _none)) = few.split_first_mut() {
        at_one(f, place, one);
    }
}

fn at_one<T, F: Fn(usize, &mut T)>(f: &F, place: usize, element: &mut T)
    requires { AcceptsOne F.Fn f.now place element.old }
    ensures { ChangesOne F.Fn f.now place element.old element.new }
{
    f(place, element);
}
