//! Writes items as BibLaTeX entries.

ghost use Rattle.std.specs.Prelude.{◌≡◌, ◌++◌, OnOk, IfOk, codes};
ghost use Rattle.std.specs.List.{flat_map, list_any};
ghost use Rattle.std.specs.Str.{chars};
ghost use Rattle.bib_from_csl.specs.FromItems as spec;

use crate::days::date_value;
use crate::given::{Given, GivenItem};
use crate::languages::language_name;
use crate::people::{have_fixed_prefix, names_value};
use crate::types::{item_type_for, subtype_of, written_type_name};
use crate::values::{braced, listed_value, pages_value, plain_value, tagged_value};
use crate::variables::{beside_field, beside_text, field_of, form_of};
use bib_csl::item::Content;
use bib_csl::item_types::ItemType;
use bib_csl::variables::Form;
use bib_syntax::raw::is_key;
use bib_text::scanner::Scanner;
use bib_text::text::Text;
use std::alloc::{AllocError, Global};

/// The properties of an item that its fields depend on.
#[derive(Debug, Drop)]
pub struct Work {
    /// The type.
    pub kind: ItemType,
    /// Whether the item has a title of its volume.
    pub in_work: bool,
    /// Whether prefixes are part of family names.
    pub uses_prefix: bool,
    /// Whether the item has the title of an event under its newer name, `event-title`.
    pub has_event_title: bool,
}

// Returns whether a member is the title of a volume.
fn is_volume_title(given: &Given) -> bool
    ensures { result ≡ spec.is_volume_title given.now }
{
    given.name.as_str() == "volume-title"
}

// Returns whether a member is the title of an event, under its newer name.
fn is_event_title(given: &Given) -> bool
    ensures { result ≡ spec.is_event_title given.now }
{
    given.name.as_str() == "event-title"
}

// Returns whether a member has a name with a prefix that is part of the family name.
fn has_prefix(given: &Given) -> bool
    ensures { result ≡ spec.has_prefix given.now }
{
    match &given.content {
        Some(Content::Names(names)) => have_fixed_prefix(names.as_slice()),
        _ => false,
    }
}

// Returns whether one of these members is the title of a volume.
fn have_volume_title(fields: &[Given]) -> bool
    ensures { result ≡ list_any spec.is_volume_title fields.now }
{
    fields.iter().any(|given| is_volume_title(given))
}

// Returns whether one of these members has a name with a prefix that is part of the family name.
fn have_prefix(fields: &[Given]) -> bool
    ensures { result ≡ list_any spec.has_prefix fields.now }
{
    fields.iter().any(|given| has_prefix(given))
}

// Returns whether one of these members is the title of an event, under its newer name.
fn have_event_title(fields: &[Given]) -> bool
    ensures { result ≡ list_any spec.is_event_title fields.now }
{
    fields.iter().any(|given| is_event_title(given))
}

// Returns the properties of an item that its fields depend on.
#[tactic(auto, unfolding(crate::specs::FromItems::work_for_item))]
pub(crate) fn work_of(item: &GivenItem) -> Work
    ensures { result ≡ spec.work_for_item item.now }
{
    Work {
        kind: item_type_for(item.kind.as_str()),
        in_work: have_volume_title(item.fields.as_slice()),
        uses_prefix: have_prefix(item.fields.as_slice()),
        has_event_title: have_event_title(item.fields.as_slice()),
    }
}

// Appends the line of a field.
fn push_line(out: &mut Text, name: &str, value: &str) -> Result<(), AllocError>
    ensures { OnOk result (out.new ≡ out.old ++ spec.entry_field_line name.now value.now) }
{
    out.push_str("  ")?;
    out.push_str(name)?;
    out.push_str(" = ")?;
    out.push_str(value)?;
    out.push_str(",\n")
}

// Appends the line of a field with this text, unless the text is empty.
#[tactic(auto, unfolding(crate::specs::FromItems::known_line))]
fn push_known(alloc: Global, out: &mut Text, name: &str, text: &str) -> Result<(), AllocError>
    ensures { OnOk result (out.new ≡ out.old ++ spec.known_line name.now text.now) }
{
    if text.is_empty() {
        return Ok(());
    }
    let value = braced(alloc, text)?;
    push_line(out, name, value.as_str())
}

// Returns the value of a field for the text of the variable `name`, which is neither a list nor tagged.
fn untagged_value(alloc: Global, field: &str, name: &str, text: &str) -> Result<Text, AllocError>
    ensures { IfOk result (λ value. value ≡ spec.untagged_source field.now name.now text.now) }
{
    if name == "page" {
        return pages_value(alloc, text);
    }
    plain_value(alloc, field, text)
}

// Returns the value of a field for the text of the variable `name`.
#[tactic(auto, unfolding(crate::specs::FromItems::variable_source))]
fn text_value(alloc: Global, field: &str, name: &str, text: &str) -> Result<Text, AllocError>
    ensures { IfOk result (λ value. value ≡ spec.variable_source field.now name.now text.now) }
{
    match form_of(name) {
        Some(Form::Listed) => listed_value(alloc, text),
        Some(Form::Tagged) => tagged_value(alloc, text),
        _ => untagged_value(alloc, field, name, text),
    }
}

// Returns the value of a field for the content of the variable `name`, or `None` for a date that can't be written.
fn value_of(
    alloc: Global,
    uses_prefix: bool,
    field: &str,
    name: &str,
    content: &Content,
) -> Result<Option<Text>, AllocError>
    ensures { IfOk result (λ value. value ≡ spec.content_source uses_prefix field.now name.now content.now) }
{
    match content {
        Content::Text(text) => Ok(Some(text_value(alloc, field, name, text.as_str())?)),
        Content::Names(names) => Ok(Some(names_value(alloc, uses_prefix, names.as_slice())?)),
        Content::Date(date) => date_value(alloc, date),
    }
}

// Returns the field for a language with this tag: `langid` if BibLaTeX has a name for it, otherwise `language`.
fn language_field(tag: &str) -> &'static str
    ensures { result.now ≡ spec.language_field tag.now }
{
    if language_name(tag).is_empty() {
        return "language";
    }
    "langid"
}

// Returns the value of that field: BibLaTeX's name of the language, or else the tag.
fn language_text(tag: &str) -> &str
    ensures { result.now ≡ spec.language_text tag.now }
{
    let name = language_name(tag);
    if name.is_empty() {
        return tag;
    }
    name
}

// Appends the line of the field for a language.
fn push_language(alloc: Global, out: &mut Text, tag: &str) -> Result<(), AllocError>
    ensures { OnOk result (out.new ≡ out.old ++ spec.language_line tag.now) }
{
    let field = language_field(tag);
    let value = plain_value(alloc, field, language_text(tag))?;
    push_line(out, field, value.as_str())
}

// Appends the lines of a variable with this field: that of the field, and that of the additional field, if there is one. Appends
// nothing for a date that can't be written.
fn push_valued(
    alloc: Global,
    out: &mut Text,
    work: &Work,
    field: &str,
    name: &str,
    content: &Content,
) -> Result<(), AllocError>
    ensures { OnOk result (out.new ≡ out.old ++ spec.valued_lines work.now field.now name.now content.now) }
{
    let Some(value) = value_of(alloc, work.uses_prefix, field, name, content)? else {
        return Ok(());
    };
    push_line(out, field, value.as_str())?;
    push_known(alloc, out, beside_field(name), beside_text(name))
}

// Appends the lines of a variable, if it has a field. Appends nothing for the older name of the title of an event beside the newer one,
// which has the same field.
fn push_content(
    alloc: Global,
    out: &mut Text,
    work: &Work,
    name: &str,
    content: &Content,
) -> Result<(), AllocError>
    ensures { OnOk result (out.new ≡ out.old ++ spec.content_lines work.now name.now content.now) }
{
    if let Content::Text(text) = content {
        if name == "language" {
            return push_language(alloc, out, text.as_str());
        }
        if work.has_event_title && name == "event" {
            return Ok(());
        }
    }
    let field = field_of(work.kind, work.in_work, name);
    if field.is_empty() {
        return Ok(());
    }
    push_valued(alloc, out, work, field, name, content)
}

// Returns whether a text or a list of names is empty.
pub(crate) fn is_empty_content(content: &Content) -> bool
    ensures { result ≡ spec.is_empty_content content.now }
{
    match content {
        Content::Text(text) => text.is_empty(),
        Content::Names(names) => names.is_empty(),
        Content::Date(_) => false,
    }
}

// Appends the lines of a member, unless it has no content or an empty one.
fn push_given(alloc: Global, out: &mut Text, work: &Work, given: &Given) -> Result<(), AllocError>
    ensures { OnOk result (out.new ≡ out.old ++ spec.given_lines work.now given.now) }
{
    match &given.content {
        Some(content) => {
            if is_empty_content(content) {
                return Ok(());
            }
            push_content(alloc, out, work, given.name.as_str(), content)
        }
        None => Ok(()),
    }
}

// Returns whether a character can be in the key of an entry, also for BibTeX.
fn is_of_key(c: char) -> bool
    ensures { result ≡ spec.is_of_key c }
{
    is_key(c)
        && !matches!(
            c,
            '{' | '"' | '#' | '%' | '\\' | '~' | '(' | ')' | '=' | '\'' | '@'
        )
}

// Appends a character of a key, or an underscore for one that can't be in a key.
fn push_of_key(key: &mut Text, c: char) -> Result<(), AllocError>
    ensures { OnOk result (key.new ≡ key.old ++ spec.key_character c) }
{
    if is_of_key(c) {
        key.push(c)
    } else {
        key.push('_')
    }
}

// Returns the key of the entry of an item with this `id`.
pub(crate) fn key_of(alloc: Global, id: &str) -> Result<Text, AllocError>
    ensures { IfOk result (λ key. key ≡ spec.key_text (chars id.now)) }
{
    let mut key = Text::new(alloc);
    let mut scanner = Scanner::new(id);
    'id: while let Some(c) = scanner.eat() {
        push_of_key(&mut key, c)?;
    }
    Ok(key)
}

// Appends the start of an entry, up to the line end after its key.
#[tactic(auto, unfolding(crate::specs::FromItems::head))]
fn push_head(alloc: Global, out: &mut Text, item: &GivenItem) -> Result<(), AllocError>
    ensures { OnOk result (out.new ≡ out.old ++ spec.head item.now) }
{
    let key = key_of(alloc, item.id.as_str())?;
    out.push('@')?;
    out.push_str(written_type_name(item.kind.as_str()))?;
    out.push('{')?;
    out.push_str(key.as_str())?;
    out.push_str(",\n")
}

// Returns the value of the field `options`, or an empty text.
fn options_of(uses_prefix: bool) -> &'static str
    ensures { result.now ≡ spec.options_of uses_prefix }
{
    if uses_prefix { "useprefix=true" } else { "" }
}

// Appends the fields of the members of an item.
fn push_fields(
    alloc: Global,
    out: &mut Text,
    work: &Work,
    item: &GivenItem,
) -> Result<(), AllocError>
    ensures { OnOk result (out.new ≡ out.old ++ flat_map (spec.given_lines work.now) item.now.fields) }
{
    'fields: for given in item.fields.as_slice() {
        push_given(alloc, out, work, given)?;
    }
    Ok(())
}

// Appends the start of an entry and its fields that aren't variables: `entrysubtype` and `options`.
#[tactic(auto, unfolding(crate::specs::FromItems::beginning))]
fn push_beginning(
    alloc: Global,
    out: &mut Text,
    work: &Work,
    item: &GivenItem,
) -> Result<(), AllocError>
    ensures { OnOk result (out.new ≡ out.old ++ spec.beginning work.now item.now) }
{
    push_head(alloc, out, item)?;
    push_known(alloc, out, "entrysubtype", subtype_of(item.kind.as_str()))?;
    push_known(alloc, out, "options", options_of(work.uses_prefix))
}

// Appends the end of an entry.
fn push_end(out: &mut Text) -> Result<(), AllocError>
    ensures { OnOk result (out.new ≡ out.old ++ codes "}\n") }
{
    out.push_str("}\n")
}

// Appends the entry of an item. `work` has the properties that its fields depend on.
#[tactic(auto, unfolding(crate::specs::FromItems::source_with))]
fn push_with(alloc: Global, out: &mut Text, work: &Work, item: &GivenItem) -> Result<(), AllocError>
    ensures { OnOk result (out.new ≡ out.old ++ spec.source_with work.now item.now) }
{
    push_beginning(alloc, out, work, item)?;
    push_fields(alloc, out, work, item)?;
    push_end(out)
}

// Appends the entry of an item.
#[tactic(auto, unfolding(crate::specs::FromItems::item_source))]
fn push_entry(alloc: Global, out: &mut Text, item: &GivenItem) -> Result<(), AllocError>
    ensures { OnOk result (out.new ≡ out.old ++ spec.item_source item.now) }
{
    let work = work_of(item);
    push_with(alloc, out, &work, item)
}

// Appends the entry of an item, after an empty line unless it is the first.
fn push_next(alloc: Global, out: &mut Text, first: bool, item: &GivenItem) -> Result<(), AllocError>
    ensures { OnOk result (out.new ≡ out.old ++ spec.next_entry first item.now) }
{
    if !first {
        out.push('\n')?;
    }
    push_entry(alloc, out, item)
}

// Returns the source of the entries of items.
pub fn entries_text(alloc: Global, items: &[GivenItem]) -> Result<Text, AllocError>
    ensures { IfOk result (λ text. text ≡ spec.items_source items.now) }
{
    let mut out = Text::new(alloc);
    let mut first = true;
    'items: for item in items {
        push_next(alloc, &mut out, first, item)?;
        first = false;
    }
    Ok(out)
}
