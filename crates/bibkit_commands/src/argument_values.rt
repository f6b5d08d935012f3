//! The values of the arguments of a command.

ghost use Rattle.std.specs.Prelude.{◌≡◌, codes, map, IfOk, option_map, unwrap_or};
ghost use Rattle.bibkit_commands.specs.Arguments as spec;
ghost use Rattle.bibkit_commands.specs.Arguments.{arguments_of, given_values, argument_number, argument_value, argument_values};

use clap::ArgMatches;
use std::alloc::{AllocError, Global};

/// Returns whether a flag is given.
pub fn has_flag(matches: &ArgMatches<'_>, id: &str) -> bool
    ensures { result ≡ spec.has_flag (arguments_of matches.now) id.now }
{
    matches.get_one::<bool>(id).unwrap_or(false)
}

/// Returns the value of an argument, or `None` if the argument is missing.
pub fn value<'a>(matches: &ArgMatches<'a>, id: &str) -> Option<&'a str>
    ensures { option_map (λ text. text.now) result ≡ argument_value (arguments_of matches.now) id.now }
{
    matches.get_str(id)
}

/// Returns the values of an option, or `None` if the option is missing.
pub fn given_texts<'a>(
    alloc: Global,
    matches: &ArgMatches<'a>,
    id: &str,
) -> Result<Option<Vec<&'a str>>, AllocError>
    ensures { IfOk result (λ texts. option_map (λ texts. map (λ text. text.now) texts.items) texts
        ≡ given_values (arguments_of matches.now) id.now) }
{
    match matches.get_strs(id) {
        Some(texts) => Ok(Some(Vec::from_slice(alloc, texts)?)),
        None => Ok(None),
    }
}

/// Returns the values of an argument, or an empty list if the argument is missing.
pub fn texts<'a>(
    alloc: Global,
    matches: &ArgMatches<'a>,
    id: &str,
) -> Result<Vec<&'a str>, AllocError>
    ensures { IfOk result (λ texts. map (λ text. text.now) texts.items ≡ argument_values (arguments_of matches.now) id.now) }
{
    match given_texts(alloc, matches, id)? {
        Some(texts) => Ok(texts),
        None => Ok(Vec::new(alloc)),
    }
}

/// Returns the number below 2 ^ 64 that a text is in decimal digits, with or without a plus sign before them, or `None` if it is none.
pub fn number_in(text: &str) -> Option<usize>
    ensures { result ≡ spec.number_in text.now }
{
    text.parse::<usize>().ok()
}

/// Returns the number that is the value of an option, or `None` if the option is missing or its value isn't a number.
pub fn number(matches: &ArgMatches<'_>, id: &str) -> Option<usize>
    ensures { result ≡ argument_number (arguments_of matches.now) id.now }
{
    number_in(value(matches, id)?)
}

/// Returns the value of an argument, or an empty text without one.
pub fn text<'a>(matches: &ArgMatches<'a>, id: &str) -> &'a str
    ensures { result.now ≡ unwrap_or (argument_value (arguments_of matches.now) id.now) (codes "") }
{
    value(matches, id).unwrap_or("")
}
