//! The request of `convert`.

ghost use Rattle.std.specs.Prelude.{◌≡◌, codes, IfOk, option_map};
ghost use Rattle.bibkit_commands.specs.Arguments.{arguments_of};
ghost use Rattle.bibkit_commands.specs.Asked as spec;
ghost use Rattle.bibkit_commands.specs.Asked.{IsConversionOf, IsConvertOf, dialect_for, source_for, target_for, wrong_formats};

use crate::argument_values::{has_flag, texts, value};
use crate::arguments::Asked;
use crate::converting::Converting;
use crate::importing::Source;
use bib_csl::sentence_items::TitleCase;
use bib_tables::dialects::Dialect;
use bibkit_convert::target::Target;
use clap::ArgMatches;
use std::alloc::{AllocError, Global};

// Returns the dialect with this name, or `None` for any other name and for a missing one.
fn dialect_named(name: Option<&str>) -> Option<Dialect>
    ensures { result ≡ dialect_for (option_map (λ name. name.now) name.entry) }
{
    match name {
        Some("biblatex") => Some(Dialect::Biblatex),
        Some("bibtex") => Some(Dialect::Bibtex),
        _ => None,
    }
}

// Returns the case of titles in items: sentence case if it is asked for.
fn title_case(is_sentence: bool) -> TitleCase
    ensures { result ≡ spec.title_case is_sentence }
{
    if is_sentence {
        TitleCase::Sentence
    } else {
        TitleCase::AsWritten
    }
}

// Returns the format of entries with this name, or CSL-JSON with titles in this case for any other name and for a missing one.
fn target_named(titles: TitleCase, name: Option<&str>) -> Target
    ensures { result ≡ target_for titles (option_map (λ name. name.now) name.entry) }
{
    match name {
        Some("json") => Target::Json,
        Some("ris") => Target::Ris,
        _ => Target::Csl(titles),
    }
}

// Returns the format of items, records or objects with this name, or `None` for any other name and for a missing one.
fn source_named(name: Option<&str>) -> Option<Source>
    ensures { result ≡ source_for (option_map (λ name. name.now) name.entry) }
{
    match name {
        Some("csl") => Some(Source::Csl),
        Some("ris") => Some(Source::Ris),
        Some("json") => Some(Source::Json),
        _ => None,
    }
}

// Returns the reason why a command line that requests this format and no dialect is refused.
fn dialect_required(source: Source) -> &'static str
    ensures { result.now ≡ spec.dialect_required source }
{
    match source {
        Source::Csl => "`--from csl` requires `--to biblatex` or `--to bibtex`",
        Source::Ris => "`--from ris` requires `--to biblatex` or `--to bibtex`",
        Source::Json => "`--from json` requires `--to biblatex` or `--to bibtex`",
    }
}

// Returns whether `--from` is missing, so that the ending of a file's name decides how it is read.
fn is_by_ending(matches: &ArgMatches<'_>) -> bool
    ensures { result ≡ spec.is_by_ending (arguments_of matches.now) }
{
    match value(matches, "from") {
        Some(_) => false,
        None => true,
    }
}

// Returns whether a value of `--to` means CSL-JSON, which is the format without a value.
fn is_csl(name: Option<&str>) -> bool
    ensures { result ≡ spec.is_csl (option_map (λ name. name.now) name.entry) }
{
    match name {
        Some(name) => name == "csl",
        None => true,
    }
}

// Returns whether sentence case is asked for, and the format isn't CSL-JSON.
fn is_case_wrong(matches: &ArgMatches<'_>) -> bool
    ensures { result ≡ spec.is_case_wrong (arguments_of matches.now) }
{
    has_flag(matches, "sentence-case") && !is_csl(value(matches, "to"))
}

// Returns the request of `convert`, if sentence case can be used.
fn conversion_asked<'a>(alloc: Global, matches: &ArgMatches<'a>) -> Result<Asked<'a>, AllocError>
    ensures { IfOk result (IsConversionOf (wrong_formats (arguments_of matches.now)) (arguments_of matches.now)) }
{
    let conditions = texts(alloc, matches, "where")?;
    let source = source_named(value(matches, "from"));
    let titles = title_case(has_flag(matches, "sentence-case"));
    let asked = match (dialect_named(value(matches, "to")), source) {
        (None, Some(source)) => Asked::Wrong(dialect_required(source)),
        (Some(_), _) if !conditions.is_empty() => {
            Asked::Wrong("`--where` requires `--to csl`, `--to json` or `--to ris`")
        }
        (Some(dialect), Some(source)) => Asked::Import { dialect, source },
        (Some(dialect), None) => Asked::Rewrite {
            dialect,
            is_by_ending: is_by_ending(matches),
        },
        (None, None) => Asked::Convert(Converting {
            target: target_named(titles, value(matches, "to")),
            conditions,
        }),
    };
    Ok(asked)
}

/// Returns the request of `convert`. Returns an error only if out of memory.
pub(crate) fn convert_asked<'a>(
    alloc: Global,
    matches: &ArgMatches<'a>,
) -> Result<Asked<'a>, AllocError>
    ensures { IfOk result (IsConvertOf (arguments_of matches.now)) }
{
    if is_case_wrong(matches) {
        return Ok(Asked::Wrong("`--sentence-case` requires `--to csl`"));
    }
    conversion_asked(alloc, matches)
}
