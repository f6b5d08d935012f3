//! Findings of texts in quotes whose braces aren't balanced.

ghost use Rattle.std.specs.Prelude.{◌≡◌, ◌++◌, ◌<◌, All, length, map, IfOk, OnOk};
ghost use Rattle.std.specs.List.{flat_map};
ghost use Rattle.std.specs.String.{string_bytes};
ghost use Rattle.bib_syntax.specs.Views.{entry_reading_of, field_of};
ghost use Rattle.bib_findings.specs.Duplicates.{entries_at};
ghost use Rattle.bib_findings.specs.Quotes as spec;
ghost use Rattle.bib_findings.specs.Quotes.{defined_quotes, entry_quotes, field_quote, quote_findings};

use crate::codes::Code;
use crate::fields::named_message;
use crate::finding::Finding;
use bib_queries::quotes::is_unbalanced_quote;
use bib_syntax::raw::{Pair, RawEntry};
use bib_text::spanned::Spanned;
use bib_text::text::Text;
use std::alloc::{AllocError, Global};
use std::ops::Range;

// Returns the end of the message: what is wrong, how BibTeX and Biber read it, and what to do.
fn quote_note() -> &'static str
    ensures { result.now ≡ spec.quote_note }
{
    " has unbalanced braces in quotes, so BibTeX and Biber may end the text elsewhere; write it in braces, with as many closing braces as opening ones"
}

// Returns the span of the first piece of a value that is in quotes, and whose braces aren't balanced.
fn unbalanced_range(text: &str, field: &Pair<'_>) -> Option<Range<usize>>
    ensures { result ≡ spec.unbalanced_range text.now (field_of field.now) }
{
    'pieces: for piece in &field.value.v {
        if is_unbalanced_quote(text, piece) {
            return Some(piece.span.start..piece.span.end);
        }
    }
    None
}

// Returns the message about a definition of an abbreviation that has this name.
fn defined_message(alloc: Global, name: &str) -> Result<String, AllocError>
    ensures { IfOk result (λ text. string_bytes text ≡ spec.defined_quote_message name.now) }
{
    let after = quote_note();
    format!(in alloc; "definition of `{name}`{after}")
}

// Appends the finding of a field of the entry with this key, if it has such a text in quotes.
fn add_field(
    alloc: Global,
    found: &mut Vec<Finding>,
    text: &str,
    key: &str,
    field: &Pair<'_>,
) -> Result<(), AllocError>
    ensures { OnOk result (found.new.items ≡ found.old.items ++ field_quote text.now key.now (field_of field.now)) }
{
    let Some(span) = unbalanced_range(text, field) else {
        return Ok(());
    };
    let message = named_message(alloc, key, "field ", field.key.v, quote_note())?;
    found.push(Finding {
        code: Code::UnbalancedQuote,
        span,
        message: Text::from_string(message),
    })?;
    Ok(())
}

// Appends the findings of these fields of the entry with this key.
fn add_fields(
    alloc: Global,
    found: &mut Vec<Finding>,
    text: &str,
    key: &str,
    fields: &[Pair<'_>],
) -> Result<(), AllocError>
    ensures { OnOk result (found.new.items ≡ found.old.items ++ flat_map (field_quote text.now key.now) (map field_of fields.now)) }
{
    'fields: for field in fields {
        add_field(alloc, found, text, key, field)?;
    }
    Ok(())
}

// Appends the findings of the fields of an entry.
fn add_entry(
    alloc: Global,
    found: &mut Vec<Finding>,
    text: &str,
    said: &Spanned<RawEntry<'_>>,
) -> Result<(), AllocError>
    ensures { OnOk result (found.new.items ≡ found.old.items ++ entry_quotes text.now (entry_reading_of said.now)) }
{
    add_fields(alloc, found, text, said.v.key.v, &said.v.fields)
}

/// Appends a finding for each field of these entries with a text in quotes whose braces aren't balanced. `text` is the text of the file.
/// `origins` contains the index of each entry in `said`.
pub(crate) fn add_quotes(
    alloc: Global,
    found: &mut Vec<Finding>,
    text: &str,
    said: &[Spanned<RawEntry<'_>>],
    origins: &[usize],
) -> Result<(), AllocError>
    requires { All (λ index. index < length said.now) origins.now }
    ensures { OnOk result (found.new.items ≡ found.old.items ++
        quote_findings text.now (entries_at (map entry_reading_of said.now) origins.now)) }
{
    'origins: for index in origins {
        add_entry(alloc, found, text, &said[*index])?;
    }
    Ok(())
}

// Appends the finding of a definition, if it has such a text in quotes.
fn add_definition(
    alloc: Global,
    found: &mut Vec<Finding>,
    text: &str,
    definition: &Pair<'_>,
) -> Result<(), AllocError>
    ensures { OnOk result (found.new.items ≡ found.old.items ++ spec.defined_quote text.now (field_of definition.now)) }
{
    let Some(span) = unbalanced_range(text, definition) else {
        return Ok(());
    };
    let message = defined_message(alloc, definition.key.v)?;
    found.push(Finding {
        code: Code::UnbalancedQuote,
        span,
        message: Text::from_string(message),
    })?;
    Ok(())
}

/// Appends a finding for each of these definitions with a text in quotes whose braces aren't balanced. `text` is the text of the file.
pub(crate) fn add_defined_quotes(
    alloc: Global,
    found: &mut Vec<Finding>,
    text: &str,
    definitions: &[Pair<'_>],
) -> Result<(), AllocError>
    ensures { OnOk result (found.new.items ≡ found.old.items ++ defined_quotes text.now (map field_of definitions.now)) }
{
    'definitions: for definition in definitions {
        add_definition(alloc, found, text, definition)?;
    }
    Ok(())
}
