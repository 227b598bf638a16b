//! The parser's command that stands for a form, and its run over the words.
ghost use Rattle.std.specs.Prelude.{◌≡◌, ◌<◌, ◌^◌, [], ◌∷◌, Err, List, None, Some, IfErr};
ghost use Rattle.std.specs.Prelude.{IfOk, false, length, map, option_map, true};
ghost use Rattle.clap.specs.Words.{app_of, new_rule, with_rule};
ghost use Rattle.nj_words.specs.Parser.{app_with, form_of, option_rule, parser_app};
ghost use Rattle.clap.specs.Walk.{texts};
ghost use Rattle.nj_words.specs.Parser.{Finds, fault_of_words, given, given_of};
ghost use Rattle.nj_words.specs.Parser.{has_lone_value, is_open_option, word_read, words_of};
ghost use Rattle.nj_words.specs.Words.{Word, is_nonempty};
ghost use Rattle.nj_words.specs.declared.refused.WordsRefused.TheVariants.{Usage};

mod given;

use crate::refused::WordsRefused;
use clap::error::ErrorKind;
use clap::{Arg, ArgMatches, Command};
pub(crate) use given::{Given, take};
use std::alloc::{AllocError, Global};

// A command with no names and no options, not even one for help.
fn empty_command<'a>(alloc: Global) -> Command<'a>
    ensures { app_of result ≡ app_with [] }
{
    Command::new(alloc, "nj")
        .no_binary_name(true)
        .disable_help_flag(true)
}

fn with_name<'a>(
    alloc: Global,
    command: Command<'a>,
    name: &'a str,
) -> Result<Command<'a>, AllocError>
    ensures { IfOk result (λ more.
        app_of more ≡ with_rule (app_of command.entry) (new_rule name.entry.now)) }
{
    command.arg(Arg::new(alloc, name))
}

fn with_option<'a>(
    alloc: Global,
    command: Command<'a>,
    label: &'a str,
) -> Result<Command<'a>, AllocError>
    ensures { IfOk result (λ more.
        app_of more ≡ with_rule (app_of command.entry) (option_rule label.entry.now)) }
{
    let arg = Arg::new(alloc, label).long(label);
    command.arg(arg)
}

// The form's names in order, and then its options.
fn command_of<'a>(
    alloc: Global,
    names: &'a [&'a str],
    options: &'a [&'a str],
) -> Result<Command<'a>, AllocError>
    ensures { IfOk result (λ whole.
        app_of whole ≡ parser_app (form_of names.now options.now)) }
{
    let mut command = empty_command(alloc);
    for name in names {
        command = with_name(alloc, command, name)?;
    }
    for label in options {
        command = with_option(alloc, command, label)?;
    }
    Ok(command)
}

// What the parser finds in the words after the command.
fn parsed<'a>(
    alloc: Global,
    names: &'a [&'a str],
    options: &'a [&'a str],
    words: &'a [String],
) -> Result<ArgMatches<'a>, WordsRefused>
    requires { length names.now < 2 ^ 32 }
    ensures found { IfOk result (Finds names.now options.now words.now) }
    ensures usage { result ≡ Err Usage → fault_of_words names.now options.now words.now ≡ [] → ⊥ }
{
    let command = command_of(alloc, names, options)?;
    match command.try_get_matches_from(words) {
        Ok(matches) => Ok(matches),
        Err(error) => match error.kind() {
            ErrorKind::OutOfMemory => Err(WordsRefused::NoMemory),
            _ => Err(WordsRefused::Usage),
        },
    }
}

fn is_open_option(word: &str) -> bool
    ensures { result ≡ is_open_option word.now }
{
    let bytes = word.as_bytes();
    bytes.starts_with(b"--") && !bytes.contains(&b'=')
}

// Whether a lone `-` stands where an option waits for its value, which the parser would take.
fn has_lone_value(words: &[String]) -> bool
    ensures { result ≡ has_lone_value false (words_of words.now) }
{
    let mut waits = false;
    for word in words {
        let word = word.as_str();
        if word == "--" {
            return false;
        }
        if waits && word == "-" {
            return true;
        }
        waits = is_open_option(word);
    }
    false
}

fn word_read<'a>(matches: &ArgMatches<'a>, id: &str) -> Option<&'a str>
    ensures { option_map (λ s. s.now) result ≡ word_read matches.now id.now }
{
    matches.get_str(id)
}

// The word of a name, where it is there and not empty.
#[tactic(auto, using(crate::proofs::Parsed::given_none, crate::proofs::Parsed::given_empty))]
fn name_read<'a>(matches: &ArgMatches<'a>, id: &str) -> Result<&'a str, WordsRefused>
    ensures read { IfOk result (λ word. word_read matches.now id.now ≡ Some word.now) }
    ensures full { IfOk result (λ word. is_nonempty word.now ≡ true) }
    ensures usage { IfErr result (λ _. (rest : List _)
        → given (word_read matches.now id.now ∷ rest) ≡ None) }
{
    let Some(word) = word_read(matches, id) else {
        return Err(WordsRefused::Usage);
    };
    if word.is_empty() {
        return Err(WordsRefused::Usage);
    }
    Ok(word)
}

// The words of the names, where each is there and none is empty.
fn names_read<'a>(
    alloc: Global,
    matches: &ArgMatches<'a>,
    names: &[&str],
) -> Result<Vec<&'a str>, WordsRefused>
    ensures read { IfOk result (λ words.
        given_of matches.now names.now ≡ Some (texts words.items)) }
    ensures count { IfOk result (λ words. length words.items ≡ length names.now) }
    ensures usage { result ≡ Err Usage → given_of matches.now names.now ≡ None }
{
    let mut words = Vec::new(alloc);
    for name in names {
        let word = name_read(matches, name)?;
        words.push(word)?;
    }
    Ok(words)
}

// The values of the options, where they are there.
fn values_read<'a>(
    alloc: Global,
    matches: &ArgMatches<'a>,
    options: &[&str],
) -> Result<Vec<Option<&'a str>>, AllocError>
    ensures read { IfOk result (λ values. map (option_map (λ s. s.now)) values.items
        ≡ map (word_read matches.now) (texts options.now)) }
    ensures count { IfOk result (λ values. length values.items ≡ length options.now) }
{
    let mut values = Vec::new(alloc);
    for label in options {
        values.push(word_read(matches, label))?;
    }
    Ok(values)
}
