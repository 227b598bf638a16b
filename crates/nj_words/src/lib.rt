//! The words of the command line, read through `clap` into a command.
//!
//! The rule on the words stands in `specs/Words.antt`, once more as a grammar in
//! `specs/Grammar.antt`, and the table of commands in `specs/Commands.antt`. A command more is a
//! row of that table, a variant of [`Command`], and a function as those of `commands`.
#![tactic(auto)]

ghost use Rattle.std.specs.Prelude.{◌≡◌, Err, IfOk, None, Some, map, string_bytes};
ghost use Rattle.nj_words.specs.Commands.{IsInRange, asks_workers, reading, workers_of};
ghost use Rattle.nj_words.specs.Grammar.{PiecesAreSaid};
ghost use Rattle.nj_words.specs.declared.refused.WordsRefused.TheVariants.{Usage};

mod commands;
mod parser;
mod refused;

use commands::{asm, check, clean, play, replay, resume, search, trace, watch, workload};
pub use nj_seq::Text;
pub use refused::WordsRefused;
use std::alloc::{AllocError, Global};

/// A command of the program, with the names and options that it was given.
#[derive(Drop)]
pub enum Command {
    /// Plays a movie on a cartridge.
    Play {
        cart: Text,
        movie: Text,
    },
    /// Searches a movie that goes on from the start movie and wins by the script.
    Search {
        cart: Text,
        script: Text,
        start: Text,
        options: SearchOptions,
    },
    /// Goes on with a search that was saved.
    Resume {
        cart: Text,
        script: Text,
        start: Text,
        saved: Text,
        options: SearchOptions,
    },
    /// Plays a movie and judges it by a script, as a search from the start movie would.
    Replay {
        cart: Text,
        script: Text,
        start: Text,
        movie: Text,
    },
    /// Reads a cartridge and a script and tells their counts.
    Check {
        cart: Text,
        script: Text,
    },
    /// Searches the workload that is made from a number.
    Workload {
        number: u64,
    },
    /// Assembles a source and lists its bytes.
    Asm {
        source: Text,
    },
    /// Releases each button of a winning movie that the win does not need.
    Clean {
        cart: Text,
        script: Text,
        start: Text,
        movie: Text,
    },
    /// Lists what the processor does in one frame of a movie, from 1 to 1,048,576.
    Trace {
        cart: Text,
        movie: Text,
        frame: u32,
    },
    /// Lists the script's properties after each frame of a movie.
    Watch {
        cart: Text,
        script: Text,
        movie: Text,
    },
}

/// The options of a search, begun or gone on with.
#[derive(Drop)]
pub struct SearchOptions {
    /// The most bytes that the held states may take, 1 to 2,147,483,648.
    pub budget: u64,
    /// The most steps, 1 to 16,777,215.
    pub steps: u32,
    /// The slots for seen keys, as an exponent of two, 10 to 25.
    pub exponent: u32,
    /// The workers, 1 to 64.
    pub workers: u32,
    /// The file that a search at its limit is saved as.
    pub save: Option<Text>,
}

impl Command {
    /// How many workers the command asks for: those of a search, begun or gone on with, 1 to 64, and one for every
    /// other.
    #[tactic(auto, unfolding(crate::specs::Commands::workers_of))]
    pub fn workers(&self) -> u32
        ensures { result ≡ workers_of self.now }
    {
        match self {
            Command::Search { options, .. } => options.workers,
            Command::Resume { options, .. } => options.workers,
            _ => 1,
        }
    }
}

/// Reads the words that follow the program's name. Names are as they were given, so a lone `-` is
/// a name of one byte.
pub fn read_words(alloc: Global, words: &[String]) -> Result<Command, WordsRefused>
    ensures read { IfOk result (λ command. reading (map string_bytes words.now) ≡ Some command) }
    ensures usage { result ≡ Err Usage → reading (map string_bytes words.now) ≡ None }
    ensures in_range { IfOk result (λ command. IsInRange command) }
{
    let Some((command, rest)) = words.split_first() else {
        return Err(WordsRefused::Usage);
    };
    match command.as_str() {
        "play" => play(alloc, rest),
        "search" => search(alloc, rest),
        "resume" => resume(alloc, rest),
        "replay" => replay(alloc, rest),
        "check" => check(alloc, rest),
        "workload" => workload(alloc, rest),
        "asm" => asm(alloc, rest),
        "clean" => clean(alloc, rest),
        "trace" => trace(alloc, rest),
        "watch" => watch(alloc, rest),
        _ => Err(WordsRefused::Usage),
    }
}

/// Whether the words read as a search by two workers or more. They don't where they have no reading.
#[tactic(auto, unfolding(crate::specs::Commands::asks_workers))]
pub fn asks_workers(alloc: Global, words: &[String]) -> Result<bool, AllocError>
    ensures { IfOk result (λ asks. asks ≡ asks_workers (map string_bytes words.now)) }
{
    match read_words(alloc, words) {
        Ok(command) => Ok(command.workers() > 1),
        Err(WordsRefused::Usage) => Ok(false),
        Err(WordsRefused::NoMemory) => Err(AllocError),
    }
}

/// Words are split into names and options as their grammar has it: a law over definitions alone.
pub fn pieces_are_said()
    ensures { PiecesAreSaid }
{}
