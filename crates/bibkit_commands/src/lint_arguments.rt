//! Parses the arguments of `lint`.

ghost use Rattle.std.specs.Prelude.{◌≡◌, ◌++◌, codes, find, map, IfOk, OnOk, option_and_then, option_map};
ghost use Rattle.std.specs.List.{flat_map};
ghost use Rattle.bibkit_core.specs.Rules.{rules_named};
ghost use Rattle.bibkit_settings.specs.Settings.{color_named, fail_on_named};
ghost use Rattle.bibkit_commands.specs.Arguments.{arguments_of, argument_value};
ghost use Rattle.bibkit_commands.specs.Asked as spec;
ghost use Rattle.bibkit_commands.specs.Asked.{AreSettingsOf, IsDocumentAsked, IsFindingsOf, IsLintOf};
ghost use Rattle.bibkit_commands.specs.Asked.{code_asked, fix_asked, format_asked, rules_asked};

use crate::argument_values::{given_texts, has_flag, texts, value};
use crate::arguments::{Asked, mode_of};
use crate::edits::Mode;
use bib_findings::codes::Code;
use bibkit_core::request::{Cited, FailOn, Request};
use bibkit_core::rules::Rule;
use bibkit_settings::settings::{Color, OutputFormat, Settings, fail_on_named};
use clap::ArgMatches;
use std::alloc::{AllocError, Global};

// Returns whether a word is no rule, without the white space around it.
fn is_no_rule(alloc: Global, word: &str) -> Result<bool, AllocError>
    ensures { IfOk result (λ is. is ≡ spec.is_no_rule word.now) }
{
    Ok(Rule::parse(alloc, word.trim())?.is_none())
}

// Returns the first of these words that is no rule, or `None` if all are.
fn wrong_rule_among<'a>(alloc: Global, words: &[&'a str]) -> Result<Option<&'a str>, AllocError>
    ensures { IfOk result (λ word. option_map (λ word. word.now) word ≡ find spec.is_no_rule (map (λ word. word.now) words.now)) }
{
    'words: for word in words {
        if is_no_rule(alloc, word)? {
            return Ok(Some(*word));
        }
    }
    Ok(None)
}

// Returns the first value of the options `--only` and `--ignore` that is no rule, or `None` if all are.
fn wrong_rule<'a>(alloc: Global, matches: &ArgMatches<'a>) -> Result<Option<&'a str>, AllocError>
    ensures { IfOk result (λ word. option_map (λ word. word.now) word ≡ spec.wrong_rule (arguments_of matches.now)) }
{
    let only = texts(alloc, matches, "only")?;
    if let Some(word) = wrong_rule_among(alloc, &only)? {
        return Ok(Some(word));
    }
    let ignored = texts(alloc, matches, "ignore")?;
    wrong_rule_among(alloc, &ignored)
}

// Appends the rule that a word is, without the white space around it. Appends nothing if it is no rule.
fn push_rule(alloc: Global, rules: &mut Vec<Rule>, word: &str) -> Result<(), AllocError>
    ensures { OnOk result (rules.new.items ≡ rules.old.items ++ rules_named word.now) }
{
    if let Some(rule) = Rule::parse(alloc, word.trim())? {
        rules.push(rule)?;
    }
    Ok(())
}

// Returns the rules among these words.
fn rules_among(alloc: Global, words: &[&str]) -> Result<Vec<Rule>, AllocError>
    ensures { IfOk result (λ rules. rules.items ≡ flat_map rules_named (map (λ word. word.now) words.now)) }
{
    let mut rules = Vec::new(alloc);
    'words: for word in words {
        push_rule(alloc, &mut rules, word)?;
    }
    Ok(rules)
}

// Returns the rules that are the values of an option, or `None` if the option is missing.
fn given_rules(
    alloc: Global,
    matches: &ArgMatches<'_>,
    id: &str,
) -> Result<Option<Vec<Rule>>, AllocError>
    ensures { IfOk result (λ rules. option_map (λ rules. rules.items) rules ≡ rules_asked (arguments_of matches.now) id.now) }
{
    match given_texts(alloc, matches, id)? {
        Some(words) => Ok(Some(rules_among(alloc, &words)?)),
        None => Ok(None),
    }
}

// Returns the use of the new texts of `lint --fix`, or `None` without `--fix`.
fn fix_mode(matches: &ArgMatches<'_>) -> Option<Mode>
    ensures { result ≡ fix_asked (arguments_of matches.now) }
{
    if has_flag(matches, "fix") {
        Some(mode_of(matches, false))
    } else {
        None
    }
}

// Returns the format of findings. With `--fix`, it is `text` without `--format`.
fn output_format(matches: &ArgMatches<'_>) -> Option<OutputFormat>
    ensures { result ≡ format_asked (arguments_of matches.now) }
{
    match value(matches, "format") {
        None if has_flag(matches, "fix") => Some(OutputFormat::Text),
        None => None,
        Some(name) => OutputFormat::from_name(name),
    }
}

// Returns the code that `--explain` names, if there is one.
fn code_asked(matches: &ArgMatches<'_>) -> Option<Code>
    ensures { result ≡ code_asked (arguments_of matches.now) }
{
    Code::from_name(value(matches, "explain")?)
}

// Returns the setting for colours that `--color` names, if there is one.
fn color_asked(matches: &ArgMatches<'_>) -> Option<Color>
    ensures { result ≡ option_and_then color_named (argument_value (arguments_of matches.now) (codes "color")) }
{
    Color::from_name(value(matches, "color")?)
}

// Returns the setting for the status that `--fail-on` names, if there is one.
fn fail_on_asked(matches: &ArgMatches<'_>) -> Option<FailOn>
    ensures { result ≡ option_and_then fail_on_named (argument_value (arguments_of matches.now) (codes "fail-on")) }
{
    fail_on_named(value(matches, "fail-on")?)
}

// Returns the settings of `lint`.
fn lint_settings(alloc: Global, matches: &ArgMatches<'_>) -> Result<Settings, AllocError>
    ensures { IfOk result (AreSettingsOf (arguments_of matches.now)) }
{
    Ok(Settings {
        only: given_rules(alloc, matches, "only")?,
        ignored: given_rules(alloc, matches, "ignore")?,
        color: color_asked(matches),
        format: output_format(matches),
        fail_on: fail_on_asked(matches),
    })
}

// Returns the document that `--cited` names, if there is one.
fn document_asked<'a>(matches: &ArgMatches<'a>) -> Option<Cited<'a>>
    ensures { IsDocumentAsked (arguments_of matches.now) result }
{
    Some(Cited {
        name: value(matches, "cited")?,
        has_unused: has_flag(matches, "unused"),
    })
}

// Returns whether findings are mended, but aren't printed as lines.
fn has_wrong_format(matches: &ArgMatches<'_>) -> bool
    ensures { result ≡ spec.has_wrong_format (arguments_of matches.now) }
{
    has_flag(matches, "fix") && output_format(matches) != Some(OutputFormat::Text)
}

// Returns the request of `lint` that prints the findings of files.
fn findings_asked<'a>(alloc: Global, matches: &ArgMatches<'a>) -> Result<Asked<'a>, AllocError>
    ensures { IfOk result (IsFindingsOf (arguments_of matches.now)) }
{
    Ok(Asked::Lint {
        settings: lint_settings(alloc, matches)?,
        cited: document_asked(matches),
        is_each: has_flag(matches, "each"),
        conditions: texts(alloc, matches, "where")?,
        input_name: value(matches, "stdin-filename"),
        fix: fix_mode(matches),
        baseline: value(matches, "baseline"),
    })
}

/// Returns the request of `lint`. With `--explain`, it explains a code. Otherwise, it reports wrong options if there are any, and prints
/// the findings of files if there are none.
pub fn lint_asked<'a>(alloc: Global, matches: &ArgMatches<'a>) -> Result<Asked<'a>, AllocError>
    ensures { IfOk result (IsLintOf (arguments_of matches.now)) }
{
    if let Some(code) = code_asked(matches) {
        return Ok(Asked::Other(Request::Explain(code)));
    }
    if has_wrong_format(matches) {
        return Ok(Asked::Wrong("`--fix` requires `--format text`"));
    }
    if let Some(word) = wrong_rule(alloc, matches)? {
        return Ok(Asked::WrongRule(word));
    }
    findings_asked(alloc, matches)
}
