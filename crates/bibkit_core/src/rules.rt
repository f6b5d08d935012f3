//! Rules that select findings: a code, alone or with the name of a field, which is a word of the message.

ghost use Rattle.std.specs.Prelude.{◌≡◌, ◌++◌, codes, IfOk, OnOk};
ghost use Rattle.std.specs.List.{list_any};
ghost use Rattle.std.specs.Option.{option_map};
ghost use Rattle.bib_queries.specs.Lines.{text_after_prefix};
ghost use Rattle.bibkit_core.specs.Rules as spec;
ghost use Rattle.bibkit_core.specs.Rules.{rule_named, rules_of_line};

use crate::conditions::text_after;
use bib_findings::codes::Code;
use bib_findings::finding::Finding;
use bib_text::text::Text;
use std::alloc::{AllocError, Global};

/// A code of findings, alone or with the name of a field. For example, `missing-field` means all missing fields, and
/// `missing-field:publisher` missing publishers.
#[derive(Debug, Drop)]
pub struct Rule {
    /// The code.
    pub code: Code,
    /// The name of the field, in any ASCII case. If there is one, the rule means only findings whose message contains this name as a word.
    pub field: Option<Text>,
}

// Returns the text before the first colon, or all of the text without one.
fn before_colon(text: &str) -> &str
    ensures { result.now ≡ spec.before_colon text.now }
{
    match text.split_once(':') {
        Some((before, _)) => before,
        None => text,
    }
}

// Returns whether one of these bytes ends a word of a message.
fn have_word_end(bytes: &[u8]) -> bool
    ensures { result ≡ list_any spec.ends_word bytes.now }
{
    bytes.iter().any(|b| ends_word(*b))
}

// Returns whether a text can be a word of a message: it is not empty, and no byte of it ends a word.
fn is_word_of_message(text: &str) -> bool
    ensures { result ≡ spec.is_word_of_message text.now }
{
    !text.is_empty() && !have_word_end(text.as_bytes())
}

// Returns the rule with this code and this name of a field, if there is one. Returns `None` if the name can't be a word of a message.
fn rule_with(alloc: Global, code: Code, field: Option<&str>) -> Result<Option<Rule>, AllocError>
    ensures { IfOk result (λ rule. rule ≡ spec.rule_with code (option_map (λ name. name.now) field.entry)) }
{
    match field {
        Some(name) if is_word_of_message(name) => {
            let field = Some(Text::from_str(alloc, name)?);
            Ok(Some(Rule { code, field }))
        }
        Some(_) => Ok(None),
        None => Ok(Some(Rule { code, field: None })),
    }
}

// Returns whether a byte ends a word of a message: it is no ASCII letter or digit, hyphen, underscore or plus sign.
fn ends_word(b: u8) -> bool
    ensures { result ≡ spec.ends_word b }
{
    !(b.is_ascii_alphanumeric() || matches!(b, b'-' | b'_' | b'+'))
}

// Returns the text of a message after the first colon with a space after it, which ends the name of the entry, or all of it without one.
fn after_key(message: &str) -> &str
    ensures { result.now ≡ spec.after_key message.now }
{
    match text_after(message, ": ") {
        Some(rest) => rest,
        None => message,
    }
}

// Returns whether a word is the name of a field, in any ASCII case.
fn is_field_name(word: &[u8], field: &str) -> bool
    ensures { result ≡ spec.is_field_name field.now word.now }
{
    word.eq_ignore_ascii_case(field.as_bytes())
}

// Returns whether a message contains the name of a field as a word, in any ASCII case, after the key of its entry.
fn names_field(message: &str, field: &str) -> bool
    ensures { result ≡ spec.names_field field.now message.now }
{
    let mut words = after_key(message).as_bytes().split(|b| ends_word(*b));
    words.any(|word| is_field_name(word, field))
}

impl Rule {
    /// Parses a rule: the name of a code, alone or with a colon and the name of a field after it. The name of a field consists of ASCII
    /// letters, digits, hyphens, underscores and plus signs. Returns `None` for any other text. The only error is out of memory.
    pub fn parse(alloc: Global, text: &str) -> Result<Option<Rule>, AllocError>
        ensures { IfOk result (λ rule. rule ≡ rule_named text.now) }
    {
        let Some(code) = Code::from_name(before_colon(text)) else {
            return Ok(None);
        };
        rule_with(alloc, code, text_after(text, ":"))
    }

    // Returns whether this rule has no field, or the message of the finding contains the name of the field as a word, in any ASCII case,
    // after the key of its entry.
    fn is_of_field(&self, finding: &Finding) -> bool
        ensures { result ≡ spec.is_of_field self.now.field finding.now.message }
    {
        match &self.field {
            Some(field) => names_field(finding.message.as_str(), field.as_str()),
            None => true,
        }
    }

    /// Returns whether this rule means a finding: the finding has the code. If the rule has a field, the finding's message contains its
    /// name as a word, in any ASCII case, after the key of the entry.
    pub fn means(&self, finding: &Finding) -> bool
        ensures { result ≡ spec.means finding.now self.now }
    {
        self.code.name() == finding.code.name() && self.is_of_field(finding)
    }
}

/// Returns whether one of these rules means a finding.
pub fn mean(rules: &[Rule], finding: &Finding) -> bool
    ensures { result ≡ spec.mean rules.now finding.now }
{
    rules.iter().any(|rule| rule.means(finding))
}

// Appends the rule with this name, without the white space around it. Appends nothing if the name is no rule.
fn push_named(alloc: Global, rules: &mut Vec<Rule>, name: &str) -> Result<(), AllocError>
    ensures { OnOk result (rules.new.items ≡ rules.old.items ++ spec.rules_named name.now) }
{
    if let Some(rule) = Rule::parse(alloc, name.trim())? {
        rules.push(rule)?;
    }
    Ok(())
}

// Appends the rules in a comma-separated list.
fn push_listed(alloc: Global, rules: &mut Vec<Rule>, list: &str) -> Result<(), AllocError>
    ensures { OnOk result (rules.new.items ≡ rules.old.items ++ spec.rules_listed list.now) }
{
    'names: for name in list.split(',') {
        push_named(alloc, rules, name)?;
    }
    Ok(())
}

// Returns the list of the rules that a line of a file switches off, or `None` if it is another line.
fn switched_list(line: &str) -> Option<&str>
    ensures { option_map (λ list. list.now) result ≡ text_after_prefix (codes "% bibkit: off ") line.now }
{
    line.strip_prefix("% bibkit: off ")
}

// Appends the rules that a line of a file switches off.
fn push_switched(alloc: Global, rules: &mut Vec<Rule>, line: &str) -> Result<(), AllocError>
    ensures { OnOk result (rules.new.items ≡ rules.old.items ++ rules_of_line line.now) }
{
    match switched_list(line) {
        Some(list) => push_listed(alloc, rules, list),
        None => Ok(()),
    }
}

/// Returns the rules that lines of a file switch off: those that begin with `% bibkit: off ` and list rules, separated by commas. A name
/// that is no rule is passed over. The only error is out of memory.
pub fn switched_off(alloc: Global, text: &str) -> Result<Vec<Rule>, AllocError>
    ensures { IfOk result (λ rules. rules.items ≡ spec.switched_off text.now) }
{
    let mut rules = Vec::new(alloc);
    'lines: for line in text.lines() {
        push_switched(alloc, &mut rules, line)?;
    }
    Ok(rules)
}
