//! Writes the values of fields.

ghost use Rattle.std.specs.Prelude.{◌≡◌, ◌==◌, ◌++◌, OnOk, IfOk, codes, string_bytes};
ghost use Rattle.std.specs.List.{list_any, slice_split};
ghost use Rattle.std.specs.Str.{chars};
ghost use Rattle.bib_text.specs.Characters as char;
ghost use Rattle.bib_from_csl.specs.Values as spec;

use crate::tags::tagged;
use bib_chunks::chunk::making::normal;
use bib_chunks::chunk::value_text;
use bib_tables::fields::is_verbatim_field;
use bib_text::scanner::Scanner;
use bib_text::text::Text;
use std::alloc::{AllocError, Global};

// Appends `c`, or `with` if it is the replaced character.
fn push_replaced(out: &mut Text, replaced: char, with: &str, c: char) -> Result<(), AllocError>
    ensures { OnOk result (out.new ≡ out.old ++ spec.replacing replaced with.now c) }
{
    if c == replaced {
        out.push_str(with)
    } else {
        out.push(c)
    }
}

// Returns a text with `with` for each character `replaced`.
pub(crate) fn replaced(
    alloc: Global,
    text: &str,
    replaced: char,
    with: &str,
) -> Result<Text, AllocError>
    ensures { IfOk result (λ out. out ≡ spec.replaced replaced with.now (chars text.now)) }
{
    let mut out = Text::new(alloc);
    let mut scanner = Scanner::new(text);
    'text: while let Some(c) = scanner.eat() {
        push_replaced(&mut out, replaced, with, c)?;
    }
    Ok(out)
}

// Returns the value of the field `field` for a plain text.
pub(crate) fn plain_value(alloc: Global, field: &str, text: &str) -> Result<Text, AllocError>
    ensures { IfOk result (λ value. value ≡ spec.plain_value field.now text.now) }
{
    let chunks = normal(alloc, text)?;
    let value = value_text(alloc, chunks.as_slice(), is_verbatim_field(field))?;
    Ok(Text::from_string(value))
}

// Returns the value of the field `pages` for a text. Each en dash is replaced by two hyphens.
#[tactic(auto, unfolding(crate::specs::Values::pages_value))]
pub(crate) fn pages_value(alloc: Global, text: &str) -> Result<Text, AllocError>
    ensures { IfOk result (λ value. value ≡ spec.pages_value text.now) }
{
    let value = plain_value(alloc, "pages", text)?;
    replaced(alloc, value.as_str(), '–', "--")
}

// Returns the text with a tilde for each no-break space.
pub(crate) fn with_ties(alloc: Global, text: &str) -> Result<Text, AllocError>
    ensures { IfOk result (λ out. out ≡ spec.with_ties text.now) }
{
    replaced(alloc, text, '\u{a0}', "~")
}

// Returns a text between braces.
pub(crate) fn braced(alloc: Global, text: &str) -> Result<Text, AllocError>
    ensures { IfOk result (λ value. value ≡ spec.braced text.now) }
{
    let mut value = Text::new(alloc);
    value.push('{')?;
    value.push_str(text)?;
    value.push('}')?;
    Ok(value)
}

// Returns the value of a field for a text with HTML tags.
pub(crate) fn tagged_value(alloc: Global, text: &str) -> Result<Text, AllocError>
    ensures { IfOk result (λ value. value ≡ spec.tagged_value text.now) }
{
    let source = tagged(alloc, text)?;
    let tied = with_ties(alloc, source.as_str())?;
    braced(alloc, tied.as_str())
}

// Returns whether one of the words of a text is `and` in any ASCII case. Only spaces separate words.
pub(crate) fn has_and(text: &str) -> bool
    ensures { result ≡ spec.has_and text.now }
{
    let mut found = false;
    'words: for word in text.split(' ') {
        found = found || word.eq_ignore_ascii_case("and");
    }
    found
}

// Returns the value of a list field with this text as its only part: in another pair of braces if it contains the word `and` in any
// ASCII case.
#[tactic(auto, unfolding(crate::specs::Values::listed_value))]
pub(crate) fn listed_value(alloc: Global, text: &str) -> Result<Text, AllocError>
    ensures { IfOk result (λ value. value ≡ spec.listed_value text.now) }
{
    let value = tagged_value(alloc, text)?;
    if has_and(text) {
        return braced(alloc, value.as_str());
    }
    Ok(value)
}
