ghost use Rattle.std.specs.Prelude.{◌≡◌, ◌<◌, ◌≤◌, ◌^◌, ◌++◌, Err, IfOk, IfSome, None, Some};
ghost use Rattle.std.specs.Prelude.{length, option_map, true};
ghost use Rattle.clap.specs.Walk.{texts};
ghost use Rattle.nj_bytes.specs.Decimal.{decimal_of};
ghost use Rattle.nj_words.specs.Words.{is_distinct};
ghost use Rattle.nj_words.specs.Commands.{name_at};
ghost use Rattle.nj_words.specs.Options.{in_range, name_or_none, number_in, number_or, value_at};
ghost use Rattle.nj_words.specs.Parser.{taken_by, taken_of};
ghost use Rattle.nj_words.specs.declared.refused.WordsRefused.TheVariants.{Usage};

use super::{has_lone_value, names_read, parsed, values_read};
use crate::refused::WordsRefused;
use nj_bytes::read_decimal;
use nj_seq::Text;
use std::alloc::{AllocError, Global};

/// What a command was given: the words of its names, and the value of each of its options, in the
/// order of its form.
#[derive(Drop)]
pub(crate) struct Given<'a> {
    pub(crate) names: Vec<&'a str>,
    pub(crate) values: Vec<Option<&'a str>>,
}

impl<'a> Given<'a> {
    /// A copy of the word of the name at this place.
    pub(crate) fn name(&self, alloc: Global, place: usize) -> Result<Text, AllocError>
        requires { place < length self.now.names.items }
        ensures { IfOk result (λ word. word ≡ name_at (taken_of self.now) place) }
    {
        Text::from_str(alloc, self.names[place])
    }

    /// Copies of the words of the names at these places.
    pub(crate) fn pair(
        &self,
        alloc: Global,
        first: usize,
        second: usize,
    ) -> Result<(Text, Text), AllocError>
        requires first_there { first < length self.now.names.items }
        requires second_there { second < length self.now.names.items }
        ensures { IfOk result (λ words. (words.0 ≡ name_at (taken_of self.now) first)
            × (words.1 ≡ name_at (taken_of self.now) second)) }
    {
        let word = self.name(alloc, first)?;
        let other = self.name(alloc, second)?;
        Ok((word, other))
    }

    /// The number that the name at this place is, where it is decimal digits.
    pub(crate) fn decimal(&self, place: usize) -> Option<u64>
        requires { place < length self.now.names.items }
        ensures { result ≡ decimal_of (name_at (taken_of self.now) place) }
    {
        read_decimal(self.names[place])
    }

    /// The value of the option at this place, where the option stands.
    fn value(&self, place: usize) -> Option<&'a str>
        requires { place < length self.now.values.items }
        ensures { option_map (λ value. value.now) result ≡ value_at (taken_of self.now) place }
    {
        self.values[place]
    }

    /// The number of the option at this place, or `otherwise` where the option does not stand.
    pub(crate) fn number(&self, place: usize, low: u64, high: u64, otherwise: u64) -> Option<u64>
        requires there { place < length self.now.values.items }
        requires low_enough { low ≤ otherwise }
        requires high_enough { otherwise ≤ high }
        ensures value { result ≡ number_or low high otherwise (value_at (taken_of self.now) place) }
        ensures within { IfSome result (λ number. (low ≤ number) × (number ≤ high)) }
    {
        match self.value(place) {
            Some(word) => number_in(word, low, high),
            None => Some(otherwise),
        }
    }

    /// A copy of the name that the option at this place gives, where the option stands.
    pub(crate) fn text(&self, alloc: Global, place: usize) -> Result<Option<Text>, WordsRefused>
        requires { place < length self.now.values.items }
        ensures read { IfOk result (λ text.
            name_or_none (value_at (taken_of self.now) place) ≡ Some text) }
        ensures usage { result ≡ Err Usage
            → name_or_none (value_at (taken_of self.now) place) ≡ None }
    {
        let Some(word) = self.value(place) else {
            return Ok(None);
        };
        if word.is_empty() {
            return Err(WordsRefused::Usage);
        }
        Ok(Some(Text::from_str(alloc, word)?))
    }
}

fn in_range(number: u64, low: u64, high: u64) -> Option<u64>
    ensures value { result ≡ in_range low high number }
    ensures within { IfSome result (λ inside. (low ≤ inside) × (inside ≤ high)) }
{
    if low <= number && number <= high {
        Some(number)
    } else {
        None
    }
}

/// The number that the word is, where it is one from `low` to `high`.
pub(crate) fn number_in(word: &str, low: u64, high: u64) -> Option<u64>
    ensures value { result ≡ number_in low high word.now }
    ensures within { IfSome result (λ number. (low ≤ number) × (number ≤ high)) }
{
    match read_decimal(word) {
        Some(number) => in_range(number, low, high),
        None => None,
    }
}

/// What the form of these names and options takes from the words after the command.
pub(crate) fn take<'a>(
    alloc: Global,
    names: &'a [&'a str],
    options: &'a [&'a str],
    words: &'a [String],
) -> Result<Given<'a>, WordsRefused>
    requires few { length names.now < 2 ^ 32 }
    requires distinct { is_distinct (texts names.now ++ texts options.now) ≡ true }
    ensures given { IfOk result (λ given.
        taken_by names.now options.now words.now ≡ Some (taken_of given)) }
    ensures names_count { IfOk result (λ given. length given.names.items ≡ length names.now) }
    ensures values_count { IfOk result (λ given. length given.values.items ≡ length options.now) }
    ensures usage { result ≡ Err Usage → taken_by names.now options.now words.now ≡ None }
{
    if has_lone_value(words) {
        return Err(WordsRefused::Usage);
    }
    let matches = parsed(alloc, names, options, words)?;
    let names = names_read(alloc, &matches, names)?;
    let values = values_read(alloc, &matches, options)?;
    Ok(Given { names, values })
}
