//! Findings of the reports on entries.

ghost use Rattle.std.specs.Prelude.{◌≡◌, ◌++◌, codes, map, not, IfOk, OnOk};
ghost use Rattle.std.specs.List.{filter};
ghost use Rattle.std.specs.String.{string_bytes};
ghost use Rattle.bib_tables.specs.Requirements.{texts};
ghost use Rattle.bib_syntax.specs.Views.{entry_reading_of};
ghost use Rattle.bib_findings.specs.Adding.{Adds};
ghost use Rattle.bib_entry.specs.Reports.{superfluous_of};
ghost use Rattle.bib_findings.specs.Entries.{field_finding, field_message};
ghost use Rattle.bib_findings.specs.Reported as spec;
ghost use Rattle.bib_findings.specs.Reported.{AreOfReport, begins_alphanumeric, is_empty_field, is_in_data_model, is_known_text, is_printed_anyway, is_reported_field, lacking_word, malformed_code, malformed_finding, malformed_findings, lacking_finding, superfluous_fields};
ghost use Rattle.bib_findings.specs.declared.codes.Code.TheVariants.{SuperfluousField};

use crate::codes::Code;
use crate::date_parts::malformed_part;
use crate::entry_names::entry_name;
use crate::fields::is_empty_value;
use crate::finding::Finding;
use crate::identities::own_literal;
use crate::other_digits::{are_other_digits, begins_with_other_digit};
use crate::places::{field_place, has_own_field, last_named, malformed_place};
use crate::volume_labels::is_volume_label;
use bib_chunks::chunk::{ChunksRef, format_verbatim};
use bib_entry::entry::Entry;
use bib_syntax::raw::RawEntry;
use bib_tables::mechanics::EntryType;
use bib_tables::type_error::TypeError;
use bib_text::spanned::Spanned;
use bib_text::text::Text;
use std::alloc::{AllocError, Global};

// Returns the message about a field of the entry with this key: the entry's name in messages, the problem, and the field's name.
fn field_message(alloc: Global, key: &str, wrong: &str, name: &str) -> Result<String, AllocError>
    ensures { IfOk result (λ text. string_bytes text ≡ field_message key.now wrong.now name.now) }
{
    let entry = entry_name(key);
    format!(in alloc; "{entry}: {wrong} {name}")
}

// Returns the finding of a field of an entry. `wrong` is the word for the problem.
pub(crate) fn field_finding(
    alloc: Global,
    said: &Spanned<RawEntry<'_>>,
    code: Code,
    wrong: &str,
    name: &str,
) -> Result<Finding, AllocError>
    ensures { IfOk result (λ finding. finding ≡
        field_finding (entry_reading_of said.now) code wrong.now name.now) }
{
    let message = Text::from_string(field_message(alloc, said.v.key.v, wrong, name)?);
    Ok(Finding {
        code,
        span: field_place(said, name),
        message,
    })
}

// Returns the word for the problem of a required field of which the entry has no value.
fn lacking_word(said: &Spanned<RawEntry<'_>>, name: &str) -> &'static str
    ensures { result.now ≡ lacking_word (entry_reading_of said.now) name.now }
{
    if has_own_field(said, name) {
        "empty"
    } else {
        "missing"
    }
}

// Returns the finding of a required field of which the entry has no value.
fn lacking_finding(
    alloc: Global,
    said: &Spanned<RawEntry<'_>>,
    name: &str,
) -> Result<Finding, AllocError>
    ensures { IfOk result (λ finding. finding ≡ lacking_finding (entry_reading_of said.now) name.now) }
{
    let word = lacking_word(said, name);
    field_finding(alloc, said, Code::MissingField, word, name)
}

// Appends a finding for each of these required fields, of which an entry has no value.
fn add_missing(
    alloc: Global,
    found: &mut Vec<Finding>,
    said: &Spanned<RawEntry<'_>>,
    names: &[&'static str],
) -> Result<(), AllocError>
    ensures { OnOk result (found.new.items ≡ found.old.items ++
        map (lacking_finding (entry_reading_of said.now)) (texts names.now)) }
{
    'names: for name in names {
        found.push(lacking_finding(alloc, said, *name)?)?;
    }
    Ok(())
}

// Returns whether an error of the field of this name is only information.
fn is_printed_anyway(name: &str) -> bool
    ensures { result ≡ is_printed_anyway name.now }
{
    name == "pages" || name == "volume"
}

// Returns the code of a malformed field.
fn malformed_code(name: &str) -> Code
    ensures { result ≡ malformed_code name.now }
{
    if is_printed_anyway(name) {
        Code::NotANumber
    } else {
        Code::MalformedField
    }
}

// Returns whether bytes begin with an ASCII letter or digit.
fn begins_alphanumeric(bytes: &[u8]) -> bool
    ensures { result ≡ begins_alphanumeric bytes.now }
{
    match bytes {
        [b, ..] => b.is_ascii_alphanumeric(),
        [] => false,
    }
}

// Returns whether a text begins with an ASCII letter, or with a digit of any script.
fn begins_like_pages(text: &str) -> bool
    ensures { result ≡ spec.begins_like_pages text.now }
{
    begins_alphanumeric(text.as_bytes()) || begins_with_other_digit(text)
}

// Returns whether BibLaTeX knows the text of a field or prints it as it is, although it can't be parsed: the gender `pp`, and pages that
// begin with an ASCII letter or a digit.
fn is_known_text(name: &str, text: &str) -> bool
    ensures { result ≡ is_known_text name.now text.now }
{
    (name == "gender" && text == "pp") || (name == "pages" && begins_like_pages(text))
}

// Returns whether the text of a value without the white space around it is a usual label of a volume.
fn is_label_value(alloc: Global, chunks: ChunksRef<'_>) -> Result<bool, AllocError>
    ensures { IfOk result (λ is. is ≡ spec.is_label_value chunks.now) }
{
    let text = format_verbatim(alloc, chunks)?;
    Ok(is_volume_label(text.as_str().trim()))
}

// Returns whether the field is the volume of an entry, which may be inherited, and is a usual label.
fn has_usual_label(alloc: Global, entry: &Entry, name: &str) -> Result<bool, AllocError>
    ensures { IfOk result (λ has. has ≡ spec.has_usual_label entry.now name.now) }
{
    if name != "volume" {
        return Ok(false);
    }
    match entry.get(name) {
        Some(chunks) => is_label_value(alloc, chunks),
        None => Ok(false),
    }
}

// Returns whether an entry has a field of this name in the file, and the last one is empty.
fn has_empty(said: &Spanned<RawEntry<'_>>, name: &str) -> bool
    ensures { result ≡ spec.has_empty (entry_reading_of said.now) name.now }
{
    match last_named(said.v.fields.as_slice(), name) {
        Some(field) => is_empty_value(field),
        None => false,
    }
}

// Returns whether the field of this name is empty or, for a date in separate fields, the field that can't be parsed.
fn is_empty_field(
    alloc: Global,
    said: &Spanned<RawEntry<'_>>,
    entry: &Entry,
    name: &str,
) -> Result<bool, AllocError>
    ensures { IfOk result (λ is. is ≡ is_empty_field (entry_reading_of said.now) entry.now name.now) }
{
    if has_empty(said, name) {
        return Ok(true);
    }
    let part = malformed_part(alloc, entry, name)?;
    Ok(has_empty(said, part))
}

// Returns whether the field is `date`, and the year of the entry is a number in the digits of another script, which Biber reads.
fn has_year_in_other_digits(said: &Spanned<RawEntry<'_>>, name: &str) -> bool
    ensures { result ≡ spec.has_year_in_other_digits (entry_reading_of said.now) name.now }
{
    name == "date" && are_other_digits(own_literal(said, "year").trim())
}

// Returns whether the error of this field is reported. An empty field isn't malformed. A text that BibLaTeX knows or prints as it is, a
// usual label of a volume, and a year that Biber reads aren't reported.
fn is_reported(
    alloc: Global,
    said: &Spanned<RawEntry<'_>>,
    entry: &Entry,
    name: &str,
) -> Result<bool, AllocError>
    ensures { IfOk result (λ reported. reported ≡ is_reported_field (entry_reading_of said.now) entry.now name.now) }
{
    if is_known_text(name, own_literal(said, name)) || has_year_in_other_digits(said, name) {
        return Ok(false);
    }
    if has_usual_label(alloc, entry, name)? {
        return Ok(false);
    }
    Ok(!is_empty_field(alloc, said, entry, name)?)
}

// Returns the finding of a field that can't be parsed as a value of its type.
fn malformed_finding(
    alloc: Global,
    said: &Spanned<RawEntry<'_>>,
    entry: &Entry,
    name: &str,
    error: &TypeError,
) -> Result<Finding, AllocError>
    ensures { IfOk result (λ finding. finding ≡
        malformed_finding (entry_reading_of said.now) entry.now (name.now, error.now)) }
{
    let what = format!(in alloc; "{name}: {}", error.kind)?;
    let message = Text::from_string(field_message(alloc, said.v.key.v, "malformed", &what)?);
    Ok(Finding {
        code: malformed_code(name),
        span: malformed_place(alloc, said, entry, name)?,
        message,
    })
}

// Appends a finding for each malformed field whose error is reported.
fn add_malformed(
    alloc: Global,
    found: &mut Vec<Finding>,
    said: &Spanned<RawEntry<'_>>,
    entry: &Entry,
    errors: &[(Text, TypeError)],
) -> Result<(), AllocError>
    ensures { OnOk result (found.new.items ≡ found.old.items ++
        malformed_findings (entry_reading_of said.now) entry.now errors.now) }
{
    'errors: for (name, error) in errors {
        let is_reported = is_reported(alloc, said, entry, name.as_str())?;
        if is_reported {
            found.push(malformed_finding(alloc, said, entry, name.as_str(), error)?)?;
        }
    }
    Ok(())
}

// Returns whether BibLaTeX's data model has a field for a type, although the library's rules for the type forbid the field.
fn is_in_data_model(entry_type: &EntryType, name: &str) -> bool
    ensures { result ≡ is_in_data_model entry_type.now name.now }
{
    match entry_type {
        EntryType::MvBook => name == "volume",
        EntryType::MvCollection | EntryType::MvReference => name == "volume" || name == "author",
        _ => false,
    }
}

// Appends a finding for each of these fields, which the library's rules forbid, except those in BibLaTeX's data model.
fn add_forbidden(
    alloc: Global,
    found: &mut Vec<Finding>,
    said: &Spanned<RawEntry<'_>>,
    entry_type: &EntryType,
    names: &[&'static str],
) -> Result<(), AllocError>
    ensures { OnOk result (found.new.items ≡ found.old.items ++
        map (field_finding (entry_reading_of said.now) SuperfluousField (codes "superfluous"))
        (filter (λ name. not (is_in_data_model entry_type.now name)) (texts names.now))) }
{
    'names: for name in names {
        if !is_in_data_model(entry_type, name) {
            found.push(field_finding(alloc, said, Code::SuperfluousField, "superfluous", *name)?)?;
        }
    }
    Ok(())
}

// Appends a finding for each superfluous field, unless the fields of the entry's type aren't known. `names` are the fields that the
// library's rules forbid.
fn add_superfluous(
    alloc: Global,
    found: &mut Vec<Finding>,
    said: &Spanned<RawEntry<'_>>,
    entry: &Entry,
    names: &[&'static str],
) -> Result<(), AllocError>
    requires { texts names.now ≡ superfluous_of entry.now }
    ensures { OnOk result (found.new.items ≡ found.old.items ++
        map (field_finding (entry_reading_of said.now) SuperfluousField (codes "superfluous")) (superfluous_fields entry.now)) }
{
    match entry.entry_type {
        EntryType::Unknown(_) => Ok(()),
        _ => add_forbidden(alloc, found, said, &entry.entry_type, names),
    }
}

// Appends the findings of the report on an entry, with these missing fields.
pub(crate) fn add_report(
    alloc: Global,
    found: &mut Vec<Finding>,
    missing: &[&'static str],
    said: &Spanned<RawEntry<'_>>,
    entry: &Entry,
) -> Result<(), AllocError>
    ensures { OnOk result (Adds (AreOfReport (texts missing.now) (entry_reading_of said.now) entry.now) found.old.items found.new.items) }
{
    add_missing(alloc, found, said, missing)?;
    let report = entry.verify(alloc)?;
    add_superfluous(alloc, found, said, entry, &report.superfluous)?;
    add_malformed(alloc, found, said, entry, &report.malformed)
}
