//! The program. It carries out the command line over the system's files and streams, by as many workers as a search
//! asks for, and its exit status is the answer's. Words that are not text have no reading.
#![tactic(auto)]

ghost use Rattle.std.specs.Prelude.{◌≡◌};

use nj_app::{COUNTERS, OpenGate, run};
use nj_outside::{FileShelf, Shelf, Sink, StreamSink, write_all};
use nj_steps::Steps;
use std::io::ErrorKind;
use std::marker::Brand;
use std::process::ExitCode;
use std::rt::Env;
use std::sync::Wait;
use std::sync::ledger::{Blank, Ledger};
use std::thread::Threads;
use std::{env, io};

const NO_MEMORY: u8 = 9;

fn main(rt: HostRuntime) -> ExitCode {
    let mut shelf = FileShelf::new(&rt);
    let mut out = StreamSink::new(rt.stdout());
    let mut err = StreamSink::new(rt.stderr());
    let words = match words(&rt) {
        Ok(words) => words,
        Err(error) if error.kind() == ErrorKind::OutOfMemory => {
            return ExitCode::from(no_memory(&mut err));
        }
        Err(_) => Vec::new(rt.alloc()),
    };
    let status = carry_out::<_, _, _, _, Brand>(
        &rt,
        words.as_slice(),
        &mut shelf,
        &mut out,
        &mut err,
        Blank::new(1),
    );
    ExitCode::from(status)
}

/// The words after the program's name.
fn words<R: Env + AllocGlobal>(rt: &R) -> io::Result<Vec<String>> {
    let mut words = Vec::new(rt.alloc());
    for word in env::args(rt)?.skip(1) {
        words.push(word)?;
    }
    Ok(words)
}

fn no_memory<E: Sink>(err: &mut E) -> u8 {
    let _ = write_all(err, b"nj: no memory\n");
    NO_MEMORY
}

fn carry_out<R: Threads + Wait + Sync + AllocGlobal, S: Shelf, O: Sink, E: Sink, L: Ledger + Send>(
    rt: &R,
    words: &[String],
    shelf: &mut S,
    out: &mut O,
    err: &mut E,
    blank: Blank,
) -> u8
    requires { blank.name ≡ L.name }
{
    match Steps::<L>::open_many(rt.alloc(), blank, COUNTERS) {
        Ok(mut steps) => run(
            rt,
            rt.alloc(),
            words,
            shelf,
            out,
            err,
            &OpenGate,
            &mut steps,
        ),
        Err(_) => no_memory(err),
    }
}
