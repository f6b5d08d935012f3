//! Names of a project's own style, which aren't reported as unknown.

ghost use Rattle.std.specs.Prelude.{◌≡◌, [], IfOk, OnOk, ◌++◌, ◌∷◌, filter, not};
ghost use Rattle.std.specs.List.{list_any};
ghost use Rattle.std.specs.Option.{option_map};
ghost use Rattle.std.specs.String.{string_bytes};
ghost use Rattle.bib_queries.specs.Elements.{text_before_quote};
ghost use Rattle.bib_syntax.specs.Grammar.{is_word};
ghost use Rattle.bibkit_core.specs.OwnNames as spec;

use crate::conditions::{before_end, text_after};
use bib_findings::codes::Code;
use bib_findings::finding::Finding;
use bib_syntax::raw::is_word;
use std::alloc::{AllocError, Global};

/// The names of a project's own style, in any ASCII case.
#[derive(Debug, Drop)]
pub struct OwnNames {
    /// The names of fields.
    pub fields: Vec<String>,
    /// The names of entry types.
    pub types: Vec<String>,
    /// The names of abbreviations that the style defines.
    pub abbreviations: Vec<String>,
}

impl OwnNames {
    /// Returns no names.
    pub fn none(alloc: Global) -> Self
        ensures fields { result.fields.items ≡ [] }
        ensures types { result.types.items ≡ [] }
        ensures abbreviations { result.abbreviations.items ≡ [] }
    {
        OwnNames {
            fields: Vec::new(alloc),
            types: Vec::new(alloc),
            abbreviations: Vec::new(alloc),
        }
    }
}

// Returns the text before the first space, or the whole text.
fn first_word(text: &str) -> &str
    ensures { result.now ≡ spec.first_word text.now }
{
    match text.split_once(' ') {
        Some((word, _)) => word,
        None => text,
    }
}

// Returns a word without a backtick and a semicolon at its end, or without a backtick at its end, or `None` if it ends otherwise.
fn before_backtick(word: &str) -> Option<&str>
    ensures { option_map (λ name. name.now) result ≡ spec.before_backtick word.now }
{
    match before_end(word, "`;") {
        Some(name) => Some(name),
        None => before_end(word, "`"),
    }
}

// Returns the text before the first quote, or `None` without one.
fn before_quote(text: &str) -> Option<&str>
    ensures { option_map (λ name. name.now) result ≡ text_before_quote text.now }
{
    let (name, _) = text.split_once('"')?;
    Some(name)
}

// Returns the name in backticks after the first occurrence of `words`, or `None` without one. The name contains no space.
fn name_in_backticks<'m>(message: &'m str, words: &str) -> Option<&'m str>
    ensures { option_map (λ name. name.now) result ≡ spec.name_in_backticks words.now message.now }
{
    let rest = text_after(message, words)?;
    before_backtick(first_word(rest))
}

// Returns the name in quotes after the first occurrence of `words`, or `None` without one.
fn name_in_quotes<'m>(message: &'m str, words: &str) -> Option<&'m str>
    ensures { option_map (λ name. name.now) result ≡ spec.name_in_quotes words.now message.now }
{
    let rest = text_after(message, words)?;
    before_quote(rest)
}

// Returns the name that a finding reports as unknown, or `None` for any other finding.
fn unknown_name(finding: &Finding) -> Option<&str>
    ensures { option_map (λ name. name.now) result ≡ spec.unknown_name finding.now.code finding.now.message }
{
    let message = finding.message.as_str();
    match finding.code {
        Code::UnknownField => name_in_backticks(message, "unknown field `"),
        Code::UnknownType => name_in_backticks(message, "unknown entry type `"),
        Code::UnknownAbbreviation => name_in_quotes(message, "unknown abbreviation \""),
        _ => None,
    }
}

// Returns whether `name` is one of these names, in any ASCII case.
fn has_name(names: &[String], name: &str) -> bool
    ensures { result ≡ list_any (λ own. is_word name.now (string_bytes own)) names.now }
{
    names.iter().any(|own| is_word(name, own.as_str()))
}

// Returns whether a name that a finding with this code reports is one of these names.
fn is_own_name(own: &OwnNames, code: Code, name: &str) -> bool
    ensures { result ≡ spec.is_own_name own.now code name.now }
{
    match code {
        Code::UnknownField => has_name(&own.fields, name),
        Code::UnknownType => has_name(&own.types, name),
        Code::UnknownAbbreviation => has_name(&own.abbreviations, name),
        _ => false,
    }
}

// Returns whether a finding reports one of these names as unknown.
fn is_own(own: &OwnNames, finding: &Finding) -> bool
    ensures { result ≡ spec.is_own own.now finding.now }
{
    match unknown_name(finding) {
        Some(name) => is_own_name(own, finding.code, name),
        None => false,
    }
}

// Appends a finding, unless it reports one of these names as unknown.
fn push_other(kept: &mut Vec<Finding>, own: &OwnNames, finding: Finding) -> Result<(), AllocError>
    ensures { OnOk result (kept.new.items ≡ kept.old.items ++ filter (λ f. not (spec.is_own own.now f)) (finding ∷ [])) }
{
    if !is_own(own, &finding) {
        kept.push(finding)?;
    }
    Ok(())
}

/// Returns the findings in `found` except those that report one of the names `own` as unknown. The only error is out of memory.
pub fn without_own(
    alloc: Global,
    own: &OwnNames,
    found: Vec<Finding>,
) -> Result<Vec<Finding>, AllocError>
    ensures { IfOk result (λ kept. kept.items ≡ spec.without_own own.now found.items) }
{
    let mut kept = Vec::new(alloc);
    'found: for finding in found {
        push_other(&mut kept, own, finding)?;
    }
    Ok(kept)
}
