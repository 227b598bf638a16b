//! Each command, with its names and options.
ghost use Rattle.std.specs.Prelude.{◌≡◌, ◌≤◌, length, Err, IfOk, IfSome, None, Some};
ghost use Rattle.nj_words.specs.Commands.{AreInRange, IsInRange, asm_row, check_row, clean_row, command_of, play_row, replay_row};
ghost use Rattle.nj_words.specs.Commands.{resume_row, search_numbers_of, search_options_of, search_row, trace_row, watch_row, workload_row};
ghost use Rattle.nj_words.specs.Parser.{taken_of, words_of};
ghost use Rattle.nj_words.specs.declared.refused.WordsRefused.TheVariants.{Usage};

use crate::parser::{Given, take};
use crate::refused::WordsRefused;
use crate::{Command, SearchOptions};
use std::alloc::Global;

static NO_OPTIONS: [&str; 0] = [];

static PLAY_NAMES: [&str; 2] = ["CART", "MOVIE"];

#[tactic(auto, unfolding(crate::specs::Commands::IsInRange))]
pub(crate) fn play(alloc: Global, words: &[String]) -> Result<Command, WordsRefused>
    ensures read { IfOk result (λ command. command_of play_row (words_of words.now) ≡ Some command) }
    ensures usage { result ≡ Err Usage → command_of play_row (words_of words.now) ≡ None }
    ensures in_range { IfOk result (λ command. IsInRange command) }
{
    let given = take(alloc, PLAY_NAMES.as_slice(), NO_OPTIONS.as_slice(), words)?;
    Ok(Command::Play {
        cart: given.name(alloc, 0)?,
        movie: given.name(alloc, 1)?,
    })
}

static REPLAY_NAMES: [&str; 4] = ["CART", "SCRIPT", "START", "MOVIE"];

#[tactic(auto, unfolding(crate::specs::Commands::IsInRange))]
pub(crate) fn replay(alloc: Global, words: &[String]) -> Result<Command, WordsRefused>
    ensures read { IfOk result (λ command. command_of replay_row (words_of words.now) ≡ Some command) }
    ensures usage { result ≡ Err Usage → command_of replay_row (words_of words.now) ≡ None }
    ensures in_range { IfOk result (λ command. IsInRange command) }
{
    let given = take(alloc, REPLAY_NAMES.as_slice(), NO_OPTIONS.as_slice(), words)?;
    let (cart, script) = given.pair(alloc, 0, 1)?;
    let (start, movie) = given.pair(alloc, 2, 3)?;
    Ok(Command::Replay {
        cart,
        script,
        start,
        movie,
    })
}

static SEARCH_NAMES: [&str; 3] = ["CART", "SCRIPT", "START"];

static RESUME_NAMES: [&str; 4] = ["CART", "SCRIPT", "START", "SAVED"];

static SEARCH_OPTIONS: [&str; 5] = ["budget", "steps", "slots", "workers", "save"];

// The numbers of a search, with no name to save under.
#[tactic(auto, unfolding(crate::specs::Commands::search_numbers_of))]
fn search_numbers(given: &Given<'_>) -> Option<SearchOptions>
    requires { 5 ≤ length given.now.values.items }
    ensures value { result ≡ search_numbers_of (taken_of given.now) }
    ensures in_range { IfSome result (λ options. AreInRange options) }
{
    let budget = given.number(0, 1, 2_147_483_648, 67_108_864)?;
    let steps = given.number(1, 1, 16_777_215, 1_000)? as u32;
    let exponent = given.number(2, 10, 25, 20)? as u32;
    let workers = given.number(3, 1, 64, 1)? as u32;
    Some(SearchOptions {
        budget,
        steps,
        exponent,
        workers,
        save: None,
    })
}

// The numbers of a search, and the name to save under.
#[tactic(auto, unfolding(crate::specs::Commands::search_options_of))]
fn search_options(alloc: Global, given: &Given<'_>) -> Result<SearchOptions, WordsRefused>
    requires { 5 ≤ length given.now.values.items }
    ensures read { IfOk result (λ options. search_options_of (taken_of given.now) ≡ Some options) }
    ensures usage { result ≡ Err Usage → search_options_of (taken_of given.now) ≡ None }
    ensures in_range { IfOk result (λ options. AreInRange options) }
{
    let Some(mut options) = search_numbers(given) else {
        return Err(WordsRefused::Usage);
    };
    options.save = given.text(alloc, 4)?;
    Ok(options)
}

#[tactic(auto, unfolding(crate::specs::Commands::IsInRange))]
pub(crate) fn search(alloc: Global, words: &[String]) -> Result<Command, WordsRefused>
    ensures read { IfOk result (λ command. command_of search_row (words_of words.now) ≡ Some command) }
    ensures usage { result ≡ Err Usage → command_of search_row (words_of words.now) ≡ None }
    ensures in_range { IfOk result (λ command. IsInRange command) }
{
    let given = take(
        alloc,
        SEARCH_NAMES.as_slice(),
        SEARCH_OPTIONS.as_slice(),
        words,
    )?;
    let options = search_options(alloc, &given)?;
    let (cart, script) = given.pair(alloc, 0, 1)?;
    Ok(Command::Search {
        cart,
        script,
        start: given.name(alloc, 2)?,
        options,
    })
}

#[tactic(auto, unfolding(crate::specs::Commands::IsInRange))]
pub(crate) fn resume(alloc: Global, words: &[String]) -> Result<Command, WordsRefused>
    ensures read { IfOk result (λ command. command_of resume_row (words_of words.now) ≡ Some command) }
    ensures usage { result ≡ Err Usage → command_of resume_row (words_of words.now) ≡ None }
    ensures in_range { IfOk result (λ command. IsInRange command) }
{
    let given = take(
        alloc,
        RESUME_NAMES.as_slice(),
        SEARCH_OPTIONS.as_slice(),
        words,
    )?;
    let options = search_options(alloc, &given)?;
    let (cart, script) = given.pair(alloc, 0, 1)?;
    let (start, saved) = given.pair(alloc, 2, 3)?;
    Ok(Command::Resume {
        cart,
        script,
        start,
        saved,
        options,
    })
}

static CHECK_NAMES: [&str; 2] = ["CART", "SCRIPT"];

#[tactic(auto, unfolding(crate::specs::Commands::IsInRange))]
pub(crate) fn check(alloc: Global, words: &[String]) -> Result<Command, WordsRefused>
    ensures read { IfOk result (λ command. command_of check_row (words_of words.now) ≡ Some command) }
    ensures usage { result ≡ Err Usage → command_of check_row (words_of words.now) ≡ None }
    ensures in_range { IfOk result (λ command. IsInRange command) }
{
    let given = take(alloc, CHECK_NAMES.as_slice(), NO_OPTIONS.as_slice(), words)?;
    let (cart, script) = given.pair(alloc, 0, 1)?;
    Ok(Command::Check { cart, script })
}

static WORKLOAD_NAMES: [&str; 1] = ["NUMBER"];

#[tactic(auto, unfolding(crate::specs::Commands::IsInRange))]
pub(crate) fn workload(alloc: Global, words: &[String]) -> Result<Command, WordsRefused>
    ensures read { IfOk result (λ command. command_of workload_row (words_of words.now) ≡ Some command) }
    ensures usage { result ≡ Err Usage → command_of workload_row (words_of words.now) ≡ None }
    ensures in_range { IfOk result (λ command. IsInRange command) }
{
    let given = take(
        alloc,
        WORKLOAD_NAMES.as_slice(),
        NO_OPTIONS.as_slice(),
        words,
    )?;
    match given.decimal(0) {
        Some(number) => Ok(Command::Workload { number }),
        None => Err(WordsRefused::Usage),
    }
}

static ASM_NAMES: [&str; 1] = ["SOURCE"];

#[tactic(auto, unfolding(crate::specs::Commands::IsInRange))]
pub(crate) fn asm(alloc: Global, words: &[String]) -> Result<Command, WordsRefused>
    ensures read { IfOk result (λ command. command_of asm_row (words_of words.now) ≡ Some command) }
    ensures usage { result ≡ Err Usage → command_of asm_row (words_of words.now) ≡ None }
    ensures in_range { IfOk result (λ command. IsInRange command) }
{
    let given = take(alloc, ASM_NAMES.as_slice(), NO_OPTIONS.as_slice(), words)?;
    Ok(Command::Asm {
        source: given.name(alloc, 0)?,
    })
}

static CLEAN_NAMES: [&str; 4] = ["CART", "SCRIPT", "START", "MOVIE"];

#[tactic(auto, unfolding(crate::specs::Commands::IsInRange))]
pub(crate) fn clean(alloc: Global, words: &[String]) -> Result<Command, WordsRefused>
    ensures read { IfOk result (λ command. command_of clean_row (words_of words.now) ≡ Some command) }
    ensures usage { result ≡ Err Usage → command_of clean_row (words_of words.now) ≡ None }
    ensures in_range { IfOk result (λ command. IsInRange command) }
{
    let given = take(alloc, CLEAN_NAMES.as_slice(), NO_OPTIONS.as_slice(), words)?;
    let (cart, script) = given.pair(alloc, 0, 1)?;
    let (start, movie) = given.pair(alloc, 2, 3)?;
    Ok(Command::Clean {
        cart,
        script,
        start,
        movie,
    })
}

static TRACE_NAMES: [&str; 2] = ["CART", "MOVIE"];

static TRACE_OPTIONS: [&str; 1] = ["frame"];

#[tactic(auto, unfolding(crate::specs::Commands::IsInRange))]
pub(crate) fn trace(alloc: Global, words: &[String]) -> Result<Command, WordsRefused>
    ensures read { IfOk result (λ command. command_of trace_row (words_of words.now) ≡ Some command) }
    ensures usage { result ≡ Err Usage → command_of trace_row (words_of words.now) ≡ None }
    ensures in_range { IfOk result (λ command. IsInRange command) }
{
    let given = take(
        alloc,
        TRACE_NAMES.as_slice(),
        TRACE_OPTIONS.as_slice(),
        words,
    )?;
    let Some(frame) = given.number(0, 1, 1_048_576, 1) else {
        return Err(WordsRefused::Usage);
    };
    let (cart, movie) = given.pair(alloc, 0, 1)?;
    Ok(Command::Trace {
        cart,
        movie,
        frame: frame as u32,
    })
}

static WATCH_NAMES: [&str; 3] = ["CART", "SCRIPT", "MOVIE"];

#[tactic(auto, unfolding(crate::specs::Commands::IsInRange))]
pub(crate) fn watch(alloc: Global, words: &[String]) -> Result<Command, WordsRefused>
    ensures read { IfOk result (λ command. command_of watch_row (words_of words.now) ≡ Some command) }
    ensures usage { result ≡ Err Usage → command_of watch_row (words_of words.now) ≡ None }
    ensures in_range { IfOk result (λ command. IsInRange command) }
{
    let given = take(alloc, WATCH_NAMES.as_slice(), NO_OPTIONS.as_slice(), words)?;
    let (cart, script) = given.pair(alloc, 0, 1)?;
    Ok(Command::Watch {
        cart,
        script,
        movie: given.name(alloc, 2)?,
    })
}
