//! Command lines and what they are read as.

use nj_words::{Command, SearchOptions, WordsRefused, asks_workers, read_words};
use std::alloc::{AllocError, Global};
use std::test::Fail;

// A line has words, which one blank parts, and behind `=>` the command with its values, or nothing where the words have
// no reading.
const LINES: &str = "play L - => play L,-
play - M => play -,M
play -- L M => play L,M
play L -- M => play L,M
play L M -- => play L,M
play -- -x -- => play -x,--
play -- --a=b +1 => play --a=b,+1
replay W S - -- M => replay W,S,-,M
check W S => check W,S
workload 18446744073709551615 => workload 18446744073709551615
asm - => asm -
clean W S - M => clean W,S,-,M
trace W M => trace W,M,1
trace --frame=1048576 - - => trace -,-,1048576
watch W S - => watch W,S,-
search W --steps 5 S --slots=10 - --workers 64 => search W,S,- 67108864 5 10 64
--steps=5 search W S - =>
search --steps=16777215 W --save=-x S B3 => search W,S,B3 67108864 16777215 20 1 -x
search W S --save K B3 --budget 1 => search W,S,B3 1 1000 20 1 K
search W --save=- --steps=00000000000000000001 -- S - => search W,S,- 67108864 1 20 1 -
search W S B3 --save=a=b --budget=2147483648 => search W,S,B3 2147483648 1000 20 1 a=b
resume W S B3 K => resume W,S,B3,K 67108864 1000 20 1
resume W S --save K B3 - --slots 25 --workers=2 => resume W,S,B3,- 67108864 1000 25 2 K
 =>
-- play L M =>
Play L M =>
pla L M =>
-h =>
play L =>
play L - - =>
play L  =>
play L -x =>
play L -1 =>
play L M --help =>
play L M --x=1 =>
play L --x M =>
play L --=x M =>
replay W S M =>
check W S --workers 2 =>
check W =>
workload +1 =>
workload 18446744073709551616 =>
asm A B =>
clean W S M =>
clean W S - M --frame 1 =>
trace W =>
trace W M --frame 0 =>
trace W M --frame 1048577 =>
watch W S M --frame 1 =>
search W S - --slots=26 =>
search W S - --slots=9 =>
search W S - --budget 0 =>
search W S - --budget 2147483649 =>
search W S - --workers 0 =>
search W S - --workers=65 =>
search W S - --workers= =>
search W S - --workers +2 =>
search W S - --workers 2 --workers 2 =>
search W S B3 --steps=0 =>
search W S B3 --steps=16777216 =>
search W S B3 --steps=000000000000000000005 =>
search W S B3 --steps= =>
search W S B3 --steps =>
search W S --steps -- B3 =>
search W S B3 --steps -1 =>
search W S B3 --save - =>
search W S B3 --save -x =>
search W S B3 --save= =>
search W S B3 --save  =>
search W S B3 --sav=K =>
search W S B3 --save K --save=L =>
search W S B3 K =>
resume W S B3 =>
resume W S B3 K L =>
resume W S B3 K --save - =>
resume W S B3 K --save= =>";

// The words of a line.
fn words_in(alloc: Global, line: &str) -> Result<Vec<String>, AllocError> {
    let mut words = Vec::new(alloc);
    if line.is_empty() {
        return Ok(words);
    }
    for word in line.split(' ') {
        words.push(String::from_str(alloc, word)?)?;
    }
    Ok(words)
}

fn options_text(alloc: Global, options: &SearchOptions) -> Result<String, AllocError> {
    let SearchOptions {
        budget,
        steps,
        exponent,
        workers,
        save,
    } = options;
    match save {
        Some(save) => format!(in alloc; "{budget} {steps} {exponent} {workers} {save}"),
        None => format!(in alloc; "{budget} {steps} {exponent} {workers}"),
    }
}

// A search, begun or gone on with; nothing of any other command.
fn search_text(alloc: Global, command: &Command) -> Result<String, AllocError> {
    match command {
        Command::Search {
            cart,
            script,
            start,
            options,
        } => {
            let options = options_text(alloc, options)?;
            format!(in alloc; "search {cart},{script},{start} {options}")
        }
        Command::Resume {
            cart,
            script,
            start,
            saved,
            options,
        } => {
            let options = options_text(alloc, options)?;
            format!(in alloc; "resume {cart},{script},{start},{saved} {options}")
        }
        _other => Ok(String::new(alloc)),
    }
}

fn command_text(alloc: Global, command: &Command) -> Result<String, AllocError> {
    match command {
        Command::Play { cart, movie } => format!(in alloc; "play {cart},{movie}"),
        Command::Replay {
            cart,
            script,
            start,
            movie,
        } => format!(in alloc; "replay {cart},{script},{start},{movie}"),
        Command::Check { cart, script } => format!(in alloc; "check {cart},{script}"),
        Command::Workload { number } => format!(in alloc; "workload {number}"),
        Command::Asm { source } => format!(in alloc; "asm {source}"),
        Command::Clean {
            cart,
            script,
            start,
            movie,
        } => format!(in alloc; "clean {cart},{script},{start},{movie}"),
        Command::Trace { cart, movie, frame } => format!(in alloc; "trace {cart},{movie},{frame}"),
        Command::Watch {
            cart,
            script,
            movie,
        } => format!(in alloc; "watch {cart},{script},{movie}"),
        _other => search_text(alloc, command),
    }
}

// What a line is read as: nothing where it has no reading.
fn reading_text(alloc: Global, line: &str) -> Result<String, AllocError> {
    let words = words_in(alloc, line)?;
    match read_words(alloc, words.as_slice()) {
        Ok(command) => command_text(alloc, &command),
        Err(WordsRefused::Usage) => Ok(String::new(alloc)),
        Err(WordsRefused::NoMemory) => Err(AllocError),
    }
}

#[test]
fn lines_are_read(rt: HostRuntime) -> Result<(), Fail> {
    for case in LINES.lines() {
        let (line, want) = case.split_once(" =>").unwrap_or((case, "?"));
        let read = reading_text(rt.alloc(), line)?;
        assert_eq!(rt; read.as_str(), want.trim_start(), "of {line:?}");
    }
    Ok(())
}

// Lines, and behind `=>` whether they ask for two workers or more.
const ASKING: &str = "search W S - --workers=2 => yes
resume W S - K --workers 64 => yes
search W S - --workers 1 => no
search W S - => no
search W S - --workers 65 => no
play L M => no";

#[test]
fn lines_ask_for_workers(rt: HostRuntime) -> Result<(), Fail> {
    for case in ASKING.lines() {
        let (line, want) = case.split_once(" => ").unwrap_or((case, "?"));
        let words = words_in(rt.alloc(), line)?;
        let asks = asks_workers(rt.alloc(), words.as_slice())?;
        assert_eq!(rt; asks, want == "yes", "of {line:?}");
    }
    Ok(())
}
