ghost use Rattle.std.specs.Prelude.{◌≡◌, ◌≤◌, ◌+◌, ◌*◌, length};

use nj_expand::{Bounds, Cart, Movie, Pad, Script, Search, Stepped, Steps, Verdict3};
use nj_outside::{Gate, OpenGate};
use nj_workers::next_shared;
use std::alloc::Global;
use std::marker::Brand;
use std::process::Abort;
use std::sync::Wait;
use std::sync::atomic::{AtomicU64, Ordering};
use std::sync::ledger::{Blank, Ledger};
use std::test::Fail;
use std::thread::Threads;

const HEADER: [u8; 16] = [b'N', b'E', b'S', 0x1A, 1, 1, 0, 0, 0, 0, 0, 0, 0, 0, 0, 0];

// Lets NMIs come. Each counts at $11, reads the eight buttons, and counts at $10 where Right is held.
const WALK: [u8; 36] = [
    0x78, 0xA9, 0x80, 0x8D, 0x00, 0x20, 0x4C, 0x06, 0x80, 0xE6, 0x11, 0xA9, 0x01, 0x8D, 0x16, 0x40,
    0xA9, 0x00, 0x8D, 0x16, 0x40, 0xA2, 0x08, 0xAD, 0x16, 0x40, 0xCA, 0xD0, 0xFA, 0x29, 0x01, 0xF0,
    0x02, 0xE6, 0x10, 0x40,
];

// Keys of both counts and no rule: after step n the front has a word for each count from 0 to n at $10.
const COUNTS: &str =
    r#"{"version":1,"properties":[{"name":"x","at":16,"kind":"u8"},{"name":"t","at":17,"kind":"u8"}],"hash":["x","t"],"inputs":[{"pads":["........","...R...."]}],"rules":[]}"#;

// The same keys; one point for each count at $10, and 100 more once it is 18, which wins.
const GOAL: &str =
    r#"{"version":1,"properties":[{"name":"x","at":16,"kind":"u8"},{"name":"t","at":17,"kind":"u8"}],"hash":["x","t"],"inputs":[{"pads":["........","...R...."]}],"rules":[{"name":"go","weights":[{"property":"x","weight":1}]},{"name":"goal","when":[{"property":"x","op":"==","value":18}],"win":true,"reward":100}]}"#;

// The most turns that a piece is held.
const TURNS: u64 = 100_000_000;

// Holds piece 0 until piece 1 has begun, and piece 1 until piece 0 has begun.
#[derive(Drop)]
struct Meeting {
    begun: [AtomicU64; 2],
    met: AtomicU64,
}

impl Gate for Meeting {
    fn at_piece(&self, _worker: u32, piece: u64) {
        let (mine, other) = match piece {
            0 => (&self.begun[0], &self.begun[1]),
            1 => (&self.begun[1], &self.begun[0]),
            _ => return,
        };
        mine.store(1, Ordering::SeqCst);
        for _turn in 0..TURNS {
            if other.load(Ordering::SeqCst) == 1 {
                self.met.fetch_add(1, Ordering::SeqCst);
                return;
            }
        }
    }
}

fn cartridge(alloc: Global) -> Result<Cart, Fail> {
    let mut file = Vec::from_slice(alloc, &HEADER)?;
    file.extend_from_slice(&WALK)?;
    file.resize(16 + 0x3FFA, 0)?;
    file.extend_from_slice(&[0x09, 0x80, 0x00, 0x80, 0x00, 0x80])?;
    file.resize(24_592, 0)?;
    Ok(
        Cart::read(alloc, file.as_slice())
            .ok()
            .ok_or("no cartridge")?,
    )
}

// Three frames without a button.
fn start(alloc: Global) -> Result<Movie, Fail> {
    let mut start = Movie::new(alloc);
    for _frame in 0..3u32 {
        start.push(Pad(0))?;
    }
    Ok(start)
}

// The search behind three frames without a button, with at most 64 words in its front.
fn begun<L: Ledger>(alloc: Global, text: &str, steps: &mut Steps<L>) -> Result<Search, Fail> {
    let cart = cartridge(alloc)?;
    let script = Script::read(alloc, text.as_bytes())
        .ok()
        .ok_or("no script")?;
    let bounds = Bounds {
        front: 64,
        exponent: 14,
        inputs: script.input_count(),
    };
    Ok(Search::start(alloc, cart, script, start(alloc)?, bounds, steps)?)
}

// The same search with 66 counters, whose first has counted its start.
fn opened<L: Ledger>(
    alloc: Global,
    blank: Blank,
    text: &str,
) -> Result<(Search, Vec<Steps<L>>), Fail>
    requires { blank.name ≡ L.name }
{
    let mut steps = Steps::<L>::open_many(alloc, blank, 66)?;
    let search = begun(alloc, text, &mut steps[0])?;
    Ok((search, steps))
}

// The next step, of the first hundred.
fn step<R: Threads + Wait + Sync, G: Gate, L: Ledger + Send>(
    rt: &R,
    alloc: Global,
    search: &mut Search,
    workers: u32,
    gate: &G,
    steps: &mut Vec<Steps<L>>,
) -> Result<Stepped, Fail>
    requires { (1 ≤ workers) × (workers ≤ 64) }
{
    if search.spent() || search.step() > 100 || steps.len() < 64 {
        return Err("no step more".into());
    }
    Ok(next_shared(rt, search, alloc, workers, gate, steps)?)
}

// The frames that these counters counted.
fn counted<L: Ledger>(steps: &[Steps<L>]) -> u64 {
    steps
        .iter()
        .fold(0u64, |sum, counter| sum.wrapping_add(counter.count()))
}

// How the search for the goal ends within twenty steps by so many workers, the steps that were made, the frames that
// were run, and those that counters past the workers' counted.
fn ended<R: Threads + Wait + Sync, L: Ledger + Send>(
    rt: &R,
    alloc: Global,
    blank: Blank,
    workers: u32,
) -> Result<(Stepped, u32, u64, u64), Fail>
    requires blank { blank.name ≡ L.name }
    requires workers { (1 ≤ workers) × (workers ≤ 64) }
{
    let (mut search, mut steps) = opened::<L>(alloc, blank, GOAL)?;
    let mut last = Stepped::Go;
    for _step in 0..20 {
        if last == Stepped::Go {
            last = step(rt, alloc, &mut search, workers, &OpenGate, &mut steps)?;
        }
    }
    let others = counted(steps.get(workers as usize..).unwrap_or(&[]));
    Ok((last, search.step(), counted(&steps), others))
}

// Whether the movie of the word at a place holds Right in that many frames, the last ones, and nothing before.
fn holds_right_at_last(alloc: Global, search: &Search, place: usize) -> Result<bool, Fail> {
    if search.spent() || place >= search.front_len() {
        return Err("no word there".into());
    }
    let movie = search.movie(alloc, place)?;
    Ok(
        movie
            .pads()
            .iter()
            .rev()
            .enumerate()
            .all(|(back, pad)| pad.0 == if back < place { 0x80 } else { 0 }),
    )
}

// Whether the movie of each word of the front does so.
fn all_hold_right_at_last(alloc: Global, search: &Search) -> Result<bool, Fail> {
    let mut holds = true;
    for place in 0..search.front_len() {
        holds &= holds_right_at_last(alloc, search, place)?;
    }
    Ok(holds)
}

// Sixteen steps by three workers, each of whom runs a part of the kept words again, and the seventeenth by two, whose
// front is of two pieces, with a meeting: how often one met the other, the words of the front, whether they are those
// of one thread, and the frames that were run.
fn met<R: Threads + Wait + Sync, L: Ledger + Send>(
    rt: &R,
    alloc: Global,
    blank: Blank,
) -> Result<(u64, usize, bool, u64), Fail>
    requires blank { blank.name ≡ L.name }
{
    let (mut search, mut steps) = opened::<L>(alloc, blank, COUNTS)?;
    for _step in 0..16 {
        step(rt, alloc, &mut search, 3, &OpenGate, &mut steps)?;
    }
    let gate = Meeting {
        begun: [AtomicU64::new(0), AtomicU64::new(0)],
        met: AtomicU64::new(0),
    };
    step(rt, alloc, &mut search, 2, &gate, &mut steps)?;
    Ok((
        gate.met.load(Ordering::SeqCst),
        search.front_len(),
        all_hold_right_at_last(alloc, &search)?,
        counted(&steps),
    ))
}

// The words of the front after the first step by two workers, and the bytes that their states need.
fn front_of_one_step<R: Threads + Wait + Sync, L: Ledger + Send>(
    rt: &R,
    alloc: Global,
    blank: Blank,
) -> Result<(usize, u64), Fail>
    requires blank { blank.name ≡ L.name }
{
    let (mut search, mut steps) = opened::<L>(alloc, blank, GOAL)?;
    step(rt, alloc, &mut search, 2, &OpenGate, &mut steps)?;
    Ok((search.front_len(), search.bytes()))
}

// The number, the reward and the pad of a row that wins.
fn won(last: Stepped) -> Option<(u64, i64, u8)> {
    match last {
        Stepped::Won { row } if row.verdict == Verdict3::Win => Some((
            row.number, row.reward, row.pad,
        )),
        Stepped::Won { .. } | Stepped::Exhausted | Stepped::Go => None,
    }
}

// Asks that so many workers end the search for the goal as one thread does.
fn win<R: Threads + Wait + Sync + Abort>(rt: &R, alloc: Global, workers: u32) -> Result<(), Fail>
    requires { (1 ≤ workers) × (workers ≤ 64) }
{
    let (last, made, frames, others) = ended::<R, Brand>(rt, alloc, Blank::new(1), workers)?;
    assert_eq!(rt; won(last), Some((1, 118, 0x80)));
    assert_eq!(rt; (made, frames, others), (17, 515, 0));
    Ok(())
}

#[test]
fn any_number_of_workers_wins_as_one_thread(rt: HostRuntime) -> Result<(), Fail> {
    win(&rt, rt.alloc(), 1)?;
    win(&rt, rt.alloc(), 2)?;
    win(&rt, rt.alloc(), 3)?;
    win(&rt, rt.alloc(), 64)?;
    Ok(())
}

#[test]
fn two_workers_meet_at_a_gate(rt: HostRuntime) -> Result<(), Fail> {
    let met = met::<HostRuntime, Brand>(&rt, rt.alloc(), Blank::new(1))?;
    assert_eq!(rt; met, (2, 18, true, 479));
    Ok(())
}

#[test]
fn a_front_needs_less_than_an_image(rt: HostRuntime) -> Result<(), Fail> {
    let (words, bytes) = front_of_one_step::<HostRuntime, Brand>(&rt, rt.alloc(), Blank::new(1))?;
    assert_eq!(rt; words, 2);
    assert!(rt; bytes <= 4496);
    Ok(())
}
