//! Reports on entries, one problem in each line.

ghost use Rattle.std.specs.Prelude.{◌≡◌, ◌++◌, IfOk, OnOk, codes};
ghost use Rattle.std.specs.List.{flat_map};
ghost use Rattle.std.specs.String.{string_bytes};
ghost use Rattle.biblatex.specs.Syntax.{texts};
ghost use Rattle.bib.specs.Output.{AreReported, field_line, malformed_line};
ghost use Rattle.bib.specs.Answering.{AddsReport};

use biblatex::{Bibliography, Entry, Text, TypeError};
use std::alloc::{AllocError, Global};

// Appends a line: the key of an entry, the kind of the problem, and the field or the details.
fn push_line(text: &mut String, key: &str, wrong: &str, what: &str) -> Result<(), AllocError>
    ensures { OnOk result (string_bytes text.new ≡ string_bytes text.old ++
        field_line key.now wrong.now what.now) }
{
    text.push_str(key)?;
    text.push_str(": ")?;
    text.push_str(wrong)?;
    text.push(' ')?;
    text.push_str(what)?;
    text.push('\n')?;
    Ok(())
}

// Appends a line for each of these field names.
fn push_names(
    text: &mut String,
    key: &str,
    wrong: &str,
    names: &[&'static str],
) -> Result<(), AllocError>
    ensures { OnOk result (string_bytes text.new ≡ string_bytes text.old ++
        flat_map (field_line key.now wrong.now) (texts names.now)) }
{
    'names: for name in names {
        push_line(text, key, wrong, *name)?;
    }
    Ok(())
}

// Appends the line of a field that can't be parsed: its name, and the kind of its error.
fn push_error(
    alloc: Global,
    text: &mut String,
    key: &str,
    name: &str,
    error: &TypeError,
) -> Result<(), AllocError>
    ensures { OnOk result (string_bytes text.new ≡ string_bytes text.old ++
        malformed_line key.now (name.now, error.now)) }
{
    let listed = format!(in alloc; "{name}: {}", error.kind)?;
    push_line(text, key, "malformed", &listed)
}

// Appends a line for each field that can't be parsed.
fn push_errors(
    alloc: Global,
    text: &mut String,
    key: &str,
    errors: &[(Text, TypeError)],
) -> Result<(), AllocError>
    ensures { OnOk result (string_bytes text.new ≡ string_bytes text.old ++
        flat_map (malformed_line key.now) errors.now) }
{
    'errors: for (name, error) in errors {
        push_error(alloc, text, key, name.as_str(), error)?;
    }
    Ok(())
}

// Appends the lines of the report on an entry.
fn push_report(alloc: Global, text: &mut String, entry: &Entry) -> Result<(), AllocError>
    ensures { OnOk result (AddsReport entry.now (string_bytes text.old) (string_bytes text.new)) }
{
    let report = entry.verify(alloc)?;
    let key = entry.key.as_str();
    push_names(text, key, "missing", &report.missing)?;
    push_names(text, key, "superfluous", &report.superfluous)?;
    push_errors(alloc, text, key, &report.malformed)
}

// Returns the lines of the reports on all entries, in order.
pub(crate) fn reports(alloc: Global, bibliography: &Bibliography) -> Result<String, AllocError>
    ensures { IfOk result (λ text. AreReported bibliography.now.entries (string_bytes text)) }
{
    let mut text = String::new(alloc);
    'entries: for entry in bibliography {
        push_report(alloc, &mut text, entry)?;
    }
    Ok(text)
}
