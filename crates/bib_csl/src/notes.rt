//! The abstract, the notes, the keywords and the language of an item.

ghost use Rattle.std.specs.Prelude.{◌≡◌, ◌++◌, OnOk, IfOk};
ghost use Rattle.std.specs.Option.{option_copied};
ghost use Rattle.bib_csl.specs.Notes as spec;

use crate::adding::{add_plain, add_rich, add_rich_or};
use crate::fields::add_text;
use crate::item::Field;
use crate::named::text_named;
use crate::standing::shown;
use crate::texts::{either, field_or, joined_by_mark, plain_text, rich_text};
use crate::variables::Variable;
use crate::ways::way_in_note;
use bib_chunks::chunk::ChunksRef;
use bib_entry::entry::Entry;
use bib_tables::types::lang::Language;
use bib_text::items::Items;
use bib_text::text::Text;
use std::alloc::{AllocError, Global};

// Returns the tag of a language (BCP 47).
#[tactic(auto, unfolding(crate::specs::Notes::tag_of))]
fn tag_of(language: Language) -> &'static str
    ensures { result.now ≡ spec.tag_of language }
{
    match language {
        Language::EnglishUK => "en-GB",
        other => other.tag(),
    }
}

// Languages that the table of languages lacks: BibLaTeX's name and the tag.
static OTHER_LANGUAGES: [(&str, &str); 11] = [
    ("acadian", "fr-CA"),
    ("canadien", "fr-CA"),
    ("francais", "fr"),
    ("frenchb", "fr"),
    ("brazilian", "pt-BR"),
    ("mexican", "es-MX"),
    ("galician", "gl"),
    ("latin", "la"),
    ("norwegian", "no"),
    ("ukenglish", "en-GB"),
    ("usenglish", "en-US"),
];

// Returns the tag of a language for a name of BibLaTeX that the table of languages lacks, or an empty text for other names.
fn tag_named(name: &str) -> &'static str
    ensures { result.now ≡ spec.tag_named name.now }
{
    text_named(&OTHER_LANGUAGES, name)
}

// Returns the name of a language in a text: without `lang`, with which BibLaTeX's keys begin.
#[tactic(auto, unfolding(crate::specs::Notes::name_of_language))]
fn name_of_language(text: &str) -> &str
    ensures { result.now ≡ spec.name_of_language text.now }
{
    text.strip_prefix("lang").unwrap_or(text)
}

// Returns the tag of the language with this name, or an empty text if there is none.
#[tactic(auto, unfolding(crate::specs::Notes::tag_of_name))]
fn tag_of_name(name: &str) -> &'static str
    ensures { result.now ≡ spec.tag_of_name name.now }
{
    match name.parse::<Language>() {
        Ok(language) => tag_of(language),
        Err(_) => tag_named(name),
    }
}

/// Returns the language of a field: the tag of the language that its text names, or else the text. The only error is out of memory.
#[tactic(auto, unfolding(crate::specs::Notes::language_of))]
pub fn language_of(alloc: Global, field: Option<ChunksRef<'_>>) -> Result<Text, AllocError>
    ensures { IfOk result (λ text. text ≡ spec.language_of (option_copied field.entry)) }
{
    let Some(chunks) = field else {
        return Ok(Text::new(alloc));
    };
    let text = shown(alloc, chunks)?;
    let tag = Text::from_str(alloc, tag_of_name(name_of_language(text.as_str())))?;
    Ok(either(tag, text))
}

// Returns the publication status for BibLaTeX's keys in the field `pubstate`, or any other text as it is.
#[tactic(auto, unfolding(crate::specs::Notes::status_named))]
fn status_named(alloc: Global, text: Text) -> Result<Text, AllocError>
    ensures { IfOk result (λ named. named ≡ spec.status_named text) }
{
    match text.as_str() {
        "inpreparation" => Text::from_str(alloc, "in preparation"),
        "inpress" => Text::from_str(alloc, "in press"),
        "prepublished" => Text::from_str(alloc, "pre-published"),
        _ => Ok(text),
    }
}

/// Returns the field with the language: `langid`, or `hyphenation`, its former name, or else `language`.
pub fn language_value(entry: &Entry) -> Option<ChunksRef<'_>>
    ensures { option_copied result ≡ spec.language_value entry.now }
{
    match field_or(entry, "langid", "hyphenation") {
        Some(chunks) => Some(chunks),
        None => entry.get("language"),
    }
}

// Returns the fields `note` and `addendum`, and `way_in_note`. Between them are full stops, as by `joined_by_mark`.
#[tactic(auto, unfolding(crate::specs::Notes::note_of))]
fn note_of(alloc: Global, entry: &Entry) -> Result<Text, AllocError>
    ensures { IfOk result (λ text. text ≡ spec.note_of entry.now) }
{
    let note = rich_text(alloc, entry, Variable::Note.field())?;
    let both = joined_by_mark(alloc, ".", note, rich_text(alloc, entry, "addendum")?)?;
    joined_by_mark(alloc, ".", both, way_in_note(alloc, entry)?)
}

// Appends the abstract, the annotation, the note, the publication status, the keywords and the language.
#[tactic(auto, unfolding(crate::specs::Notes::note_fields))]
pub(crate) fn add_notes(
    alloc: Global,
    entry: &Entry,
    fields: &mut Items<Field>,
) -> Result<(), AllocError>
    ensures { OnOk result (fields.new ≡ fields.old ++ spec.note_fields entry.now) }
{
    add_rich(alloc, Variable::Abstract, entry, fields)?;
    add_rich_or(alloc, Variable::Annote, entry, "annote", fields)?;
    add_text(fields, Variable::Note, note_of(alloc, entry)?)?;
    let status = plain_text(alloc, entry, Variable::Status.field())?;
    add_text(fields, Variable::Status, status_named(alloc, status)?)?;
    add_plain(alloc, Variable::Keyword, entry, fields)?;
    let language = language_of(alloc, language_value(entry))?;
    add_text(fields, Variable::Language, language)
}
