//! Returns parts of a log in the Static Analysis Results Interchange Format (SARIF) 2.1.0.

ghost use Rattle.std.specs.Prelude.{◌≡◌, ◌++◌, ℕ, List, IfOk, OnOk};
ghost use Rattle.std.specs.List.{AllZip};
ghost use Rattle.std.specs.String.{string_bytes};
ghost use Rattle.bib_findings.specs.Codes.{all_codes};
ghost use Rattle.bibkit_core.specs.Sarif as spec;
ghost use Rattle.bibkit_core.specs.Sarif.{IsRuleOf, IsSarifTail, Rule};
ghost use Rattle.bibkit_core.specs.Joining.{with_rule};
ghost use Rattle.bibkit_core.specs.Objects.{element};

use crate::objects::{element, json_text};
use crate::regions::Region;
use crate::uris::uri;
use crate::version::VERSION;
use bib_findings::codes::{Code, Severity};
use bib_findings::finding::Finding;
use std::alloc::{AllocError, Global};

/// The text before all results.
pub const HEAD: &str =
    "{\"$schema\":\"https://docs.oasis-open.org/sarif/sarif/v2.1.0/os/schemas/sarif-schema-2.1.0.json\",\"version\":\"2.1.0\",\"runs\":[{\"columnKind\":\"unicodeCodePoints\",\"results\":[";

// Returns the level of a severity.
fn level(severity: Severity) -> &'static str
    ensures { result.now ≡ spec.level severity }
{
    match severity {
        Severity::Error => "error",
        Severity::Warning => "warning",
        Severity::Info => "note",
    }
}

// Returns the object of a region.
fn region_object(alloc: Global, region: Region) -> Result<String, AllocError>
    ensures { IfOk result (λ text. string_bytes text ≡ spec.region_object region) }
{
    format!(in alloc;
        "{{\"startLine\":{},\"startColumn\":{},\"endLine\":{},\"endColumn\":{}}}",
        region.start.line, region.start.column, region.end.line, region.end.column
    )
}

// Returns the object of a region of the file `name`.
fn location_object(alloc: Global, name: &str, region: Region) -> Result<String, AllocError>
    ensures { IfOk result (λ text. string_bytes text ≡ spec.location_object name.now region) }
{
    let uri = uri(alloc, name)?;
    let region = region_object(alloc, region)?;
    format!(in alloc;
        "{{\"physicalLocation\":{{\"artifactLocation\":{{\"uri\":\"{}\"}},\"region\":{}}}}}",
        uri.as_str(),
        region.as_str()
    )
}

// Returns the object of a finding in this region of the file `name`.
fn result_object(
    alloc: Global,
    name: &str,
    region: Region,
    finding: &Finding,
) -> Result<String, AllocError>
    ensures { IfOk result (λ text. string_bytes text ≡ spec.result_object name.now region finding.now) }
{
    let message = json_text(alloc, finding.message.as_str())?;
    let location = location_object(alloc, name, region)?;
    format!(in alloc;
        "{{\"ruleId\":\"{}\",\"level\":\"{}\",\"message\":{{\"text\":{}}},\"locations\":[{}]}}",
        finding.code.name(),
        level(finding.code.severity()),
        message.as_str(),
        location.as_str()
    )
}

/// Returns the object of a finding in this region of the file `name`, as an element of the array of results.
pub fn result_element(
    alloc: Global,
    is_first: bool,
    name: &str,
    region: Region,
    finding: &Finding,
) -> Result<String, AllocError>
    ensures { IfOk result (λ text. string_bytes text ≡ element is_first (spec.result_object name.now region finding.now)) }
{
    let object = result_object(alloc, name, region, finding)?;
    element(alloc, is_first, object.as_str())
}

// Returns the text before the first point that a space follows, or before the point at the end. Without both it is the whole text.
fn first_sentence(text: &str) -> &str
    ensures { (rest : List ℕ) × (text.now ≡ result.now ++ rest) }
{
    match text.split_once(". ") {
        Some((first, _)) => first,
        None => text.strip_suffix(".").unwrap_or(text),
    }
}

// Returns the object of a message that is a text.
fn message_object(alloc: Global, text: &str) -> Result<String, AllocError>
    ensures { IfOk result (λ object. string_bytes object ≡ spec.message_object text.now) }
{
    let json = json_text(alloc, text)?;
    format!(in alloc; "{{\"text\":{}}}", json.as_str())
}

// Returns the object of a rule with this name, these objects of a short and of a full description, and this level.
fn described_rule(
    alloc: Global,
    name: &str,
    short: &str,
    full: &str,
    level: &str,
) -> Result<String, AllocError>
    ensures { IfOk result (λ text. string_bytes text ≡ spec.described_rule name.now short.now full.now level.now) }
{
    format!(in alloc;
        "{{\"id\":\"{name}\",\"shortDescription\":{short},\"fullDescription\":{full},\"help\":{full},\"defaultConfiguration\":{{\"level\":\"{level}\"}}}}"
    )
}

// Returns the object of the rule for a code.
fn rule_object(alloc: Global, code: Code) -> Result<String, AllocError>
    ensures { IfOk result (λ text. (rule : Rule) × IsRuleOf code rule × (string_bytes text ≡ spec.rule_object rule)) }
{
    let explanation = code.explanation();
    let first = first_sentence(explanation);
    let sentence = format!(in alloc; "{first}.")?;
    let short = message_object(alloc, sentence.as_str())?;
    let full = message_object(alloc, explanation)?;
    let level = level(code.severity());
    let object = described_rule(alloc, code.name(), short.as_str(), full.as_str(), level)?;
    Ok(object)
}

// Appends the object of the rule for a code, as an element of the array of rules.
fn push_rule(rules: &mut String, alloc: Global, code: Code) -> Result<(), AllocError>
    ensures { OnOk result ((rule : Rule) × IsRuleOf code rule ×
        (string_bytes rules.new ≡ with_rule (string_bytes rules.old) rule)) }
{
    let is_first = rules.is_empty();
    let rule = rule_object(alloc, code)?;
    let element = element(alloc, is_first, rule.as_str())?;
    rules.push_str(&element)
}

// Returns the elements of the array of rules: an object for each code.
fn rule_elements(alloc: Global) -> Result<String, AllocError>
    ensures { IfOk result (λ text. (rules : List Rule) × AllZip IsRuleOf all_codes rules ×
        (string_bytes text ≡ spec.rule_elements rules)) }
{
    let mut rules = String::new(alloc);
    'codes: for code in Code::all() {
        push_rule(&mut rules, alloc, *code)?;
    }
    Ok(rules)
}

/// Returns the text after all results: the name and the version of the program, and its rules.
pub fn tail(alloc: Global) -> Result<String, AllocError>
    ensures { IfOk result (λ text. IsSarifTail (string_bytes text)) }
{
    let rules = rule_elements(alloc)?;
    let text = format!(in alloc;
        "\n],\"tool\":{{\"driver\":{{\"name\":\"bibkit\",\"version\":\"{VERSION}\",\"rules\":[{}\n]}}}}}}]}}\n",
        rules.as_str()
    )?;
    Ok(text)
}
