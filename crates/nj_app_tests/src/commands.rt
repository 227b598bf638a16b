//! Command lines and what they come to, by one thread and by several workers.

ghost use Rattle.std.specs.Prelude.{◌≡◌};

use crate::cases::{CHECKS, CLEANS, FAULTS, LISTS, PLANS, PLAYS, REPLAYS, SOURCES, TRACES};
use crate::files::{made_shelf, shelf_with};
use crate::meeting::Meeting;
use crate::searches::{QUOTAS, SAVES, SEARCHES, WINS};
use nj_app::{COUNTERS, Gate, OpenGate, run, run_plain};
use nj_bytes::read_decimal;
use nj_memory::{MemShelf, MemSink};
use nj_steps::Steps;
use std::alloc::{AllocError, Global};
use std::marker::Brand;
use std::process::Abort;
use std::sync::Wait;
use std::sync::ledger::{Blank, Ledger};
use std::test::Fail;
use std::thread::Threads;

/// The numbers of the calls of the shelf, of `out` and of `err` that fail, 0 for none.
type Failing = (u64, u64, u64);

const NONE: Failing = (0, 0, 0);

fn words_of(alloc: Global, line: &str) -> Result<Vec<String>, AllocError> {
    let mut words = Vec::new(alloc);
    for word in line.split_whitespace() {
        words.push(String::from_str(alloc, word)?)?;
    }
    Ok(words)
}

fn run_alone<L: Ledger>(
    alloc: Global,
    words: &[String],
    shelf: &mut MemShelf,
    out: &mut MemSink,
    err: &mut MemSink,
    blank: Blank,
) -> u8
    requires { blank.name ≡ L.name }
{
    let mut steps = Steps::<L>::open(blank);
    run_plain(alloc, words, shelf, out, err, &mut steps)
}

// By one thread.
fn by_one(
    alloc: Global,
    line: &str,
    shelf: &mut MemShelf,
    failing: Failing,
) -> Result<(u8, MemSink, MemSink), AllocError> {
    let words = words_of(alloc, line)?;
    let mut out = MemSink::new(alloc, Vec::from_slice(alloc, &[failing.1])?, 10);
    let mut err = MemSink::new(alloc, Vec::from_slice(alloc, &[failing.2])?, 10);
    let status = run_alone::<Brand>(
        alloc,
        words.as_slice(),
        shelf,
        &mut out,
        &mut err,
        Blank::new(1),
    );
    Ok((status, out, err))
}

// By as many workers as the line asks for, where there are counters enough.
fn by_workers<R: Threads + Wait + Sync, G: Gate, L: Ledger + Send>(
    rt: &R,
    alloc: Global,
    line: &str,
    shelf: &mut MemShelf,
    failing: Failing,
    gate: &G,
    steps: &mut Vec<Steps<L>>,
) -> Result<(u8, MemSink, MemSink), AllocError> {
    if steps.len() < COUNTERS {
        return Err(AllocError);
    }
    let words = words_of(alloc, line)?;
    let mut out = MemSink::new(alloc, Vec::from_slice(alloc, &[failing.1])?, 10);
    let mut err = MemSink::new(alloc, Vec::from_slice(alloc, &[failing.2])?, 10);
    let words = words.as_slice();
    let status = run(rt, alloc, words, shelf, &mut out, &mut err, gate, steps);
    Ok((status, out, err))
}

// The lines of a case with this mark, without it.
fn marked(alloc: Global, case: &str, mark: char) -> Result<String, AllocError> {
    let mut text = String::new(alloc);
    for line in case.lines() {
        if line.chars().next() == Some(mark) {
            for letter in line.chars().skip(2) {
                text.push(if letter == '^' { '\r' } else { letter })?;
            }
            text.push('\n')?;
        }
    }
    Ok(text)
}

// The lines with one mark, and those with the other without the last one's end.
fn wanted(alloc: Global, case: &str, whole: char, part: char) -> Result<String, AllocError> {
    let mut text = marked(alloc, case, whole)?;
    text.push_str(marked(alloc, case, part)?.trim_end())?;
    Ok(text)
}

// The calls of a case that fail.
fn failing_of(alloc: Global, case: &str) -> Result<Failing, AllocError> {
    let text = marked(alloc, case, '%')?;
    let mut numbers = [0u64; 3];
    for (number, part) in numbers.iter_mut().zip(text.split_whitespace()) {
        *number = read_decimal(part).unwrap_or(0);
    }
    Ok((numbers[0], numbers[1], numbers[2]))
}

// The files that a case begins with.
fn shelf_of(alloc: Global, case: &str) -> Result<MemShelf, AllocError> {
    let movie = marked(alloc, case, '<')?;
    let failing = failing_of(alloc, case)?;
    shelf_with(alloc, movie.as_bytes(), &[failing.0])
}

// What a call came to, as a case writes it.
fn told(
    alloc: Global,
    case: &str,
    status: u8,
    shelf: &MemShelf,
) -> Result<(String, String), AllocError> {
    let size = shelf.file("K").map_or(0, |file| file.len());
    let has_size = !marked(alloc, case, '&')?.is_empty();
    let size = if has_size {
        format!(in alloc; "{size}\n")?
    } else {
        String::new(alloc)
    };
    Ok((format!(in alloc; "{status}\n")?, size))
}

// Whether the outcome is the case's.
fn is_as_told(
    alloc: Global,
    case: &str,
    outcome: (u8, MemSink, MemSink),
    shelf: &MemShelf,
) -> Result<bool, AllocError> {
    let (status, out, err) = outcome;
    let (status, size) = told(alloc, case, status, shelf)?;
    let is_status = status.as_str() == marked(alloc, case, '=')?.as_str();
    let is_size = size.as_str() == marked(alloc, case, '&')?.as_str();
    let is_text = out.bytes() == wanted(alloc, case, '>', '~')?.as_bytes();
    let is_line = err.bytes() == wanted(alloc, case, '!', '?')?.as_bytes();
    Ok(is_status && is_size && is_text && is_line)
}

// Cases with a longer text, of which the lines are the first.
fn begin_cases(rt: &impl Abort, alloc: Global, cases: &str) -> Result<(), AllocError> {
    for case in cases.split("\n\n") {
        let line = marked(alloc, case, '$')?;
        let mut shelf = shelf_of(alloc, case)?;
        let (status, out, err) = by_one(alloc, line.as_str(), &mut shelf, NONE)?;
        let head = marked(alloc, case, '>')?;
        assert_eq!(rt; status, 0, "{case}");
        assert!(rt; out.bytes().starts_with(head.as_bytes()), "{case}");
        assert_eq!(rt; err.bytes(), b"".as_slice(), "{case}");
    }
    Ok(())
}

fn run_cases(rt: &impl Abort, alloc: Global, cases: &str) -> Result<(), AllocError> {
    let mut shelf = shelf_with(alloc, b"", &[])?;
    for case in cases.split("\n\n") {
        if !case.starts_with('+') {
            shelf = shelf_of(alloc, case)?;
        }
        let line = marked(alloc, case, '$')?;
        let failing = failing_of(alloc, case)?;
        let outcome = by_one(alloc, line.as_str(), &mut shelf, failing)?;
        assert!(rt; is_as_told(alloc, case, outcome, &shelf)?, "{case}");
    }
    Ok(())
}

fn run_all(rt: &impl Abort, alloc: Global, tables: &[&str]) -> Result<(), AllocError> {
    for cases in tables {
        run_cases(rt, alloc, cases)?;
    }
    Ok(())
}

// Whether all cases end so by `run`, with more words behind each line.
fn share_cases<R: Threads + Wait + Sync, L: Ledger + Send>(
    rt: &R,
    alloc: Global,
    cases: &str,
    more: &str,
    steps: &mut Vec<Steps<L>>,
) -> Result<bool, AllocError> {
    let mut are_told = true;
    let mut shelf = shelf_with(alloc, b"", &[])?;
    for case in cases.split("\n\n") {
        if !case.starts_with('+') {
            shelf = shelf_of(alloc, case)?;
        }
        let mut line = marked(alloc, case, '$')?;
        line.push_str(more)?;
        let failing = failing_of(alloc, case)?;
        let line = line.as_str();
        let outcome = by_workers(rt, alloc, line, &mut shelf, failing, &OpenGate, steps)?;
        are_told &= is_as_told(alloc, case, outcome, &shelf)?;
    }
    Ok(are_told)
}

// What is run by `run`, each with what stands behind its lines: 2, 3 and 64 workers win as one does, and two search as
// one; where no workers are asked for, it does what one thread does.
static SHARED: [(&str, &str); 9] = [
    (WINS, " --workers 2"),
    (WINS, " --workers=3"),
    (WINS, " --workers 64"),
    (SEARCHES, " --workers 2"),
    (SAVES, " --workers 2"),
    (QUOTAS, ""),
    (WINS, ""),
    (PLAYS, ""),
    (FAULTS, ""),
];

fn share_all<R: Threads + Wait + Sync, L: Ledger + Send>(
    rt: &R,
    alloc: Global,
    tables: &[(&str, &str)],
    steps: &mut Vec<Steps<L>>,
) -> Result<bool, AllocError> {
    let mut are_told = true;
    for (cases, more) in tables {
        are_told &= share_cases(rt, alloc, cases, more, steps)?;
    }
    Ok(are_told)
}

// Whether all of them end so.
fn all_are_shared<R: Threads + Wait + Sync, L: Ledger + Send>(
    rt: &R,
    alloc: Global,
    blank: Blank,
) -> Result<bool, AllocError>
    requires { blank.name ≡ L.name }
{
    let mut steps = Steps::<L>::open_many(alloc, blank, COUNTERS)?;
    share_all(rt, alloc, SHARED.as_slice(), &mut steps)
}

#[test]
fn commands_end_as_written(rt: HostRuntime) -> Result<(), Fail> {
    run_all(&rt, rt.alloc(), &[PLAYS, REPLAYS, SOURCES, CLEANS, LISTS])?;
    Ok(())
}

#[test]
fn refusals_and_faults_are_told(rt: HostRuntime) -> Result<(), Fail> {
    run_all(&rt, rt.alloc(), &[CHECKS, PLANS, FAULTS])?;
    Ok(())
}

#[test]
fn searches_end_as_written(rt: HostRuntime) -> Result<(), Fail> {
    run_all(&rt, rt.alloc(), &[WINS, SEARCHES, SAVES, QUOTAS])?;
    Ok(())
}

#[test]
fn traces_begin_as_written(rt: HostRuntime) -> Result<(), Fail> {
    begin_cases(&rt, rt.alloc(), TRACES)?;
    Ok(())
}

// The saved search of two steps.
fn saved_bytes(alloc: Global) -> Result<Vec<u8>, AllocError> {
    let mut shelf = shelf_with(alloc, b"", &[])?;
    let line = "search walk goal start --steps 2 --save K";
    by_one(alloc, line, &mut shelf, NONE)?;
    match shelf.file("K") {
        Some(file) => Vec::from_slice(alloc, file),
        None => Ok(Vec::new(alloc)),
    }
}

// What `resume` of this saved file comes to.
fn resume_of(alloc: Global, saved: &[u8]) -> Result<(u8, MemSink, MemSink), AllocError> {
    let mut shelf = shelf_with(alloc, saved, &[])?;
    let line = "resume walk goal start movie --steps 3";
    by_one(alloc, line, &mut shelf, NONE)
}

// A saved file that was changed, and the line that refuses it.
fn expect_saved(
    rt: &impl Abort,
    alloc: Global,
    saved: &[u8],
    line: &str,
) -> Result<(), AllocError> {
    let (status, out, err) = resume_of(alloc, saved)?;
    assert_eq!(rt; status, 11, "{line}");
    assert_eq!(rt; out.bytes(), b"".as_slice(), "{line}");
    assert_eq!(rt; err.bytes(), line.as_bytes());
    Ok(())
}

// The bytes with another one at a place.
fn with_byte(alloc: Global, bytes: &[u8], place: usize, byte: u8) -> Result<Vec<u8>, AllocError> {
    let mut changed = Vec::new(alloc);
    for (at, old) in bytes.iter().enumerate() {
        changed.push(if at == place { byte } else { *old })?;
    }
    Ok(changed)
}

#[test]
fn saved_files_are_refused(rt: HostRuntime) -> Result<(), Fail> {
    let alloc = rt.alloc();
    let saved = saved_bytes(alloc)?;
    assert_eq!(&rt; saved.len(), 90);
    let mut cut = saved.clone()?;
    cut.truncate(89);
    expect_saved(&rt, alloc, cut.as_slice(), "nj: saved 5 Short at=89\n")?;
    let mut long = saved.clone()?;
    long.push(0)?;
    expect_saved(&rt, alloc, long.as_slice(), "nj: saved 7 Trailing at=90\n")?;
    let first = with_byte(alloc, saved.as_slice(), 24, 0)?;
    expect_saved(&rt, alloc, first.as_slice(), "nj: saved 6 Range at=24\n")?;
    let other = with_byte(alloc, saved.as_slice(), 4, 9)?;
    expect_saved(&rt, alloc, other.as_slice(), "nj: saved 2 Version n=9\n")?;
    let damaged = with_byte(alloc, saved.as_slice(), 44, 1)?;
    let line = "nj: saved 9 Damaged kept=15950387202685951007 now=3479608552922645262\n";
    expect_saved(&rt, alloc, damaged.as_slice(), line)?;
    Ok(())
}

// A saved file of version 1 has no hash.
#[test]
fn first_version_goes_on(rt: HostRuntime) -> Result<(), Fail> {
    let alloc = rt.alloc();
    let saved = saved_bytes(alloc)?;
    let mut first = with_byte(alloc, saved.as_slice(), 4, 1)?;
    first.truncate(82);
    let (status, out, _err) = resume_of(alloc, first.as_slice())?;
    assert_eq!(rt; status, 0);
    assert!(rt;
        out.bytes()
            .starts_with(b"# won step=5 frames=8 reward=105\n")
    );
    Ok(())
}

#[test]
fn any_number_of_workers_writes_the_text_of_one(rt: HostRuntime) -> Result<(), Fail> {
    let are_told = all_are_shared::<HostRuntime, Brand>(&rt, rt.alloc(), Blank::new(1))?;
    assert!(rt; are_told);
    Ok(())
}

// Keys of both counts and no rule: after step n the front has a word for each count from 0 to n at $10.
const COUNTS: &str = r#"{"version":1,
"properties":[{"name":"x","at":16,"kind":"u8"},{"name":"t","at":17,"kind":"u8"}],
"hash":["x","t"],
"inputs":[{"pads":["........","...R...."]}],
"rules":[]}"#;

// A search of two workers that meet: how many pieces met the other, the status, whether the text is that of 23 frames
// without a button, and the bytes of `err`.
fn met<R: Threads + Wait + Sync, L: Ledger + Send>(
    rt: &R,
    alloc: Global,
    blank: Blank,
) -> Result<(u64, u8, bool, usize), AllocError>
    requires { blank.name ≡ L.name }
{
    let mut steps = Steps::<L>::open_many(alloc, blank, COUNTERS)?;
    let line = "search walk movie start --steps 20 --workers 2";
    let gate = Meeting::new();
    let mut shelf = shelf_with(alloc, COUNTS.as_bytes(), &[])?;
    let (status, out, err) = by_workers(rt, alloc, line, &mut shelf, NONE, &gate, &mut steps)?;
    let mut text = String::from_str(alloc, "# limit step=20 frames=23 reward=0\n")?;
    for _frame in 0..23 {
        text.push_str("|..|........|\n")?;
    }
    Ok((
        gate.met(),
        status,
        out.bytes() == text.as_bytes(),
        err.bytes().len(),
    ))
}

#[test]
fn work_is_shared(rt: HostRuntime) -> Result<(), Fail> {
    let met = met::<HostRuntime, Brand>(&rt, rt.alloc(), Blank::new(1))?;
    assert_eq!(rt; met, (2, 2, true, 0));
    Ok(())
}

// The files of the workload of number 0, searched by one worker and by eight: both statuses, whether the first text is
// that of a win in four steps, and whether the second text is the first.
fn eight_as_one<R: Threads + Wait + Sync, L: Ledger + Send>(
    rt: &R,
    alloc: Global,
    blank: Blank,
) -> Result<(u8, u8, bool, bool), AllocError>
    requires { blank.name ≡ L.name }
{
    let mut steps = Steps::<L>::open_many(alloc, blank, COUNTERS)?;
    let line = "search cart script start --budget 575488 --steps 20 --slots 16";
    let mut shelf = made_shelf(alloc)?;
    let one = by_workers(rt, alloc, line, &mut shelf, NONE, &OpenGate, &mut steps)?;
    let line = "search cart script start --budget 575488 --steps 20 --slots 16 --workers 8";
    let eight = by_workers(rt, alloc, line, &mut shelf, NONE, &OpenGate, &mut steps)?;
    let is_won = one
        .1
        .bytes()
        .starts_with(b"# won step=4 frames=204 reward=0\n");
    Ok((one.0, eight.0, is_won, eight.1.bytes() == one.1.bytes()))
}

#[test]
fn eight_workers_search_a_workload_as_one(rt: HostRuntime) -> Result<(), Fail> {
    let ended = eight_as_one::<HostRuntime, Brand>(&rt, rt.alloc(), Blank::new(1))?;
    assert_eq!(rt; ended, (0, 0, true, true));
    Ok(())
}

const WIN: &str = "search walk goal start --steps 5";

const WON: &str = "# won step=5 frames=8 reward=105
|..|........|
|..|........|
|..|........|
|..|...R....|
|..|...R....|
|..|...R....|
|..|...R....|
|..|...R....|
";

// Eight calls read the three files.
#[test]
fn reads_fail(rt: HostRuntime) -> Result<(), Fail> {
    for call in 1..=9u64 {
        let mut shelf = shelf_with(rt.alloc(), b"", &[call])?;
        let (status, out, err) = by_one(rt.alloc(), WIN, &mut shelf, NONE)?;
        let (wanted, text, line) = match call {
            9 => (0, WON, ""),
            _ => (7, "", "nj: read fault\n"),
        };
        assert_eq!(rt; status, wanted);
        assert_eq!(rt; out.bytes(), text.as_bytes());
        assert_eq!(rt; err.bytes(), line.as_bytes());
    }
    Ok(())
}

// Fifteen calls write the text of 145 bytes, ten each.
#[test]
fn writes_fail(rt: HostRuntime) -> Result<(), Fail> {
    for whole in 0..16u64 {
        let mut shelf = shelf_with(rt.alloc(), b"", &[])?;
        let failing = (0, whole.saturating_add(1), 0);
        let (status, out, err) = by_one(rt.alloc(), WIN, &mut shelf, failing)?;
        let written = WON
            .as_bytes()
            .iter()
            .take((whole as usize).saturating_mul(10));
        let (wanted, line) = match whole {
            15 => (0, ""),
            _ => (8, "nj: write fault\n"),
        };
        assert_eq!(rt; status, wanted);
        assert!(rt; out.bytes().iter().eq(written));
        assert_eq!(rt; err.bytes(), line.as_bytes());
    }
    Ok(())
}

// A run of a workload has at most 9,160 frames. Each ends with status 0 and begins so.
fn expect_workload(
    rt: &impl Abort,
    alloc: Global,
    line: &str,
    head: &str,
) -> Result<(), AllocError> {
    let mut shelf = shelf_with(alloc, b"", &[])?;
    let (status, wrote, told) = by_one(alloc, line, &mut shelf, NONE)?;
    assert_eq!(rt; status, 0, "{line}");
    assert!(rt; wrote.bytes().starts_with(head.as_bytes()), "{line}");
    assert_eq!(rt; told.bytes(), b"".as_slice(), "{line}");
    Ok(())
}

#[test]
fn workloads_begin_as_written(rt: HostRuntime) -> Result<(), Fail> {
    let alloc = rt.alloc();
    let head = "# workload number=0 size=24592\n# won step=4 frames=204 reward=0\n";
    expect_workload(&rt, alloc, "workload 0", head)?;
    let head = "# workload number=1 size=24592\n# limit step=20 frames=220 reward=0\n";
    expect_workload(&rt, alloc, "workload 1", head)?;
    expect_workload(
        &rt,
        alloc,
        "workload 2",
        "# workload number=2 size=24592\n# ",
    )?;
    expect_workload(
        &rt,
        alloc,
        "workload 3",
        "# workload number=3 size=24592\n# ",
    )?;
    Ok(())
}
