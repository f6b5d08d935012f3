//! Calls that edit or format the text of a file.
//!
//! Each call returns `NotUtf8` if an argument isn't UTF-8, and `Refused` if a text isn't a file of the grammar. The calls that edit return
//! `UnbalancedQuotes` if a field or a definition of the text contains a text in quotes whose braces aren't balanced. If several of these
//! hold, a call returns the status for the text to edit. If none of them holds, the calls for one entry return `UnknownKey` if no entry
//! has the key.

ghost use Rattle.std.specs.Prelude.{◌≡◌, [], ◌∷◌, IfOk, IfErr, true, false};
ghost use Rattle.std.specs.String.{string_bytes};
ghost use Rattle.edit_entries.specs.Documents.{EntryIsRefused, EntryRemoved, IsDocument, UnsetIsRefused};
ghost use Rattle.edit_entries.specs.Quotes.{has_unbalanced_quotes};
ghost use Rattle.edit_entries.specs.Setting.{FieldSet, SetIsRefused, value_of};
ghost use Rattle.edit_entries.specs.Unset.{FieldUnset};
ghost use Rattle.edit_entries.specs.References.{KeyRenamed, RenameIsRefused};
ghost use Rattle.biblatex_c.specs.Calls as spec;
ghost use Rattle.biblatex_c.specs.Calls.{AddFails, DocumentFails, EditFails, IsEditedText, IsLaidOut, IsNoFile, IsNumberedEnd, ReadingFails, TextFails, WithEntriesOf};

use crate::buffers::end;
use crate::reading::text_of;
use crate::status::Status;
use edit_entries::document::RawDocument;
use edit_entries::field_value::FieldValue;
use edit_entries::line_ends::with_line_ends_of;
use edit_format::formatting::format;
use edit_format::style::Style;
use std::alloc::Global;

// Returns the text in the default style. Fails with `Refused` if the text isn't a file of the grammar.
fn format_text(alloc: Global, text: &[u8]) -> Result<String, Status>
    ensures text { IfOk result (λ edited. IsLaidOut text.now (string_bytes edited)) }
    ensures fails { IfErr result (TextFails (IsNoFile text.now) text.now) }
{
    let document = RawDocument::parse(alloc, text_of(text)?)?;
    Ok(format(alloc, &document, &Style::default())?)
}

/// Writes the text in the default style. Returns `Refused` if the text isn't a file of the grammar.
#[unsafe(no_mangle)]
pub extern "C" fn biblatex_fmt(alloc: Global, text: &[u8], out: &mut [u8], size: &mut usize) -> u32
    ensures { IsNumberedEnd (IsLaidOut text.now) (TextFails (IsNoFile text.now) text.now)
        out.old size.old out.new size.new result }
{
    end(format_text(alloc, text), out, size).number()
}

// Returns the document of a text to edit or to add. Fails with `UnbalancedQuotes` if the braces of a text in quotes aren't balanced.
fn read<'t>(alloc: Global, text: &'t str) -> Result<RawDocument<'t>, Status>
    ensures same { IfOk result (λ d. d.text ≡ text.now) }
    ensures read { IfOk result (λ d. IsDocument d) }
    ensures balanced { IfOk result (λ d. has_unbalanced_quotes d ≡ false) }
    ensures fails { IfErr result (ReadingFails text.now) }
{
    let document = RawDocument::parse(alloc, text)?;
    if document.has_unbalanced_quotes() {
        return Err(Status::UnbalancedQuotes);
    }
    Ok(document)
}

// Returns the document of the bytes of a text to edit.
fn document_of<'t>(alloc: Global, text: &'t [u8]) -> Result<RawDocument<'t>, Status>
    ensures same { IfOk result (λ d. d.text ≡ text.now) }
    ensures read { IfOk result (λ d. IsDocument d) }
    ensures balanced { IfOk result (λ d. has_unbalanced_quotes d ≡ false) }
    ensures fails { IfErr result (DocumentFails text.now) }
{
    read(alloc, text_of(text)?)
}

// Returns the value with a text: without braces if `is_bare`.
fn value_with(is_bare: bool, text: &str) -> FieldValue<'_>
    ensures { value_of result ≡ spec.value_with is_bare text.now }
{
    if is_bare {
        FieldValue::Bare(text)
    } else {
        FieldValue::Text(text)
    }
}

// Returns the text with the field `name` of the first entry `key` set to `value`, without braces if `is_bare` (see [`biblatex_set`]).
fn set_in(
    alloc: Global,
    text: &[u8],
    key: &[u8],
    name: &[u8],
    value: &[u8],
    is_bare: bool,
) -> Result<String, Status>
    ensures made { IfOk result (λ edited. IsEditedText (λ d. FieldSet d key.now name.now (spec.value_with is_bare value.now)) text.now
        (string_bytes edited)) }
    ensures fails { IfErr result (EditFails (λ d why. SetIsRefused d key.now name.now (spec.value_with is_bare value.now) why)
        text.now (key.now ∷ name.now ∷ value.now ∷ [])) }
{
    let document = document_of(alloc, text)?;
    let key = text_of(key)?;
    let name = text_of(name)?;
    let value = text_of(value)?;
    Ok(document.set_field(alloc, key, name, value_with(is_bare, value))?)
}

/// Writes the text with the field `name` of the first entry `key` set to `value`, in braces. If the field occurs several times, each
/// occurrence is set. If the entry has no such field, the field is inserted before the others. A field that has this value already is
/// unchanged. Returns `NotAName` if the entry has no such field and `name` can't be the name of a new field. Returns `NotInBraces` if
/// `value` can't be written in braces, unless the entry has the field and each occurrence has this value already.
#[unsafe(no_mangle)]
pub extern "C" fn biblatex_set(
    alloc: Global,
    text: &[u8],
    key: &[u8],
    name: &[u8],
    value: &[u8],
    out: &mut [u8],
    size: &mut usize,
) -> u32
    ensures { IsNumberedEnd (IsEditedText (λ d. FieldSet d key.now name.now (spec.value_with false value.now)) text.now)
        (EditFails (λ d why. SetIsRefused d key.now name.now (spec.value_with false value.now) why) text.now
        (key.now ∷ name.now ∷ value.now ∷ []))
        out.old size.old out.new size.new result }
{
    end(set_in(alloc, text, key, name, value, false), out, size).number()
}

/// Writes the text with the field `name` of the first entry `key` set to `value`, as [`biblatex_set`] does, but without braces: `value` is
/// a number, or an abbreviation that is defined before the entry, or that of a month. Returns `NotBare` for any other value, unless the
/// entry has the field and each occurrence has this value already.
#[unsafe(no_mangle)]
pub extern "C" fn biblatex_set_bare(
    alloc: Global,
    text: &[u8],
    key: &[u8],
    name: &[u8],
    value: &[u8],
    out: &mut [u8],
    size: &mut usize,
) -> u32
    ensures { IsNumberedEnd (IsEditedText (λ d. FieldSet d key.now name.now (spec.value_with true value.now)) text.now)
        (EditFails (λ d why. SetIsRefused d key.now name.now (spec.value_with true value.now) why) text.now
        (key.now ∷ name.now ∷ value.now ∷ []))
        out.old size.old out.new size.new result }
{
    end(set_in(alloc, text, key, name, value, true), out, size).number()
}

// Returns the text without each field `name` of the first entry `key`.
fn unset_in(alloc: Global, text: &[u8], key: &[u8], name: &[u8]) -> Result<String, Status>
    ensures made { IfOk result (λ edited. IsEditedText (λ d. FieldUnset d key.now name.now) text.now (string_bytes edited)) }
    ensures fails { IfErr result (EditFails (λ d why. UnsetIsRefused d key.now name.now why) text.now (key.now ∷ name.now ∷ [])) }
{
    let document = document_of(alloc, text)?;
    let key = text_of(key)?;
    let name = text_of(name)?;
    Ok(document.unset_field(alloc, key, name)?)
}

/// Writes the text without the field `name` of the first entry `key`. If the field occurs several times, each occurrence is removed. If
/// the entry has no such field, the text is unchanged. The status is `NoFieldLeft` if all fields of the entry would be
/// removed.
#[unsafe(no_mangle)]
pub extern "C" fn biblatex_unset(
    alloc: Global,
    text: &[u8],
    key: &[u8],
    name: &[u8],
    out: &mut [u8],
    size: &mut usize,
) -> u32
    ensures { IsNumberedEnd (IsEditedText (λ d. FieldUnset d key.now name.now) text.now)
        (EditFails (λ d why. UnsetIsRefused d key.now name.now why) text.now (key.now ∷ name.now ∷ []))
        out.old size.old out.new size.new result }
{
    end(unset_in(alloc, text, key, name), out, size).number()
}

// Returns the text with `new` as the key of the first entry `old`, also in the references to it.
fn rename_in(alloc: Global, text: &[u8], old: &[u8], new: &[u8]) -> Result<String, Status>
    ensures made { IfOk result (λ edited. IsEditedText (λ d. KeyRenamed d old.now new.now) text.now (string_bytes edited)) }
    ensures fails { IfErr result (EditFails (λ d why. RenameIsRefused d old.now new.now why) text.now (old.now ∷ new.now ∷ [])) }
{
    let document = document_of(alloc, text)?;
    let old = text_of(old)?;
    let new = text_of(new)?;
    Ok(document.rename_key(alloc, old, new)?)
}

/// Writes the text with `new` as the key of the first entry `old`, also in the references to it. If `new` is `old`, the text is unchanged.
/// Otherwise returns `KeyIsThere` if another entry has the name `new`, in any ASCII case, or this one has it in its field `ids`. Returns
/// `NotAKey` if the first entry `old` has an empty key, or if `new` can't be a new key: BibTeX, Biber or bibtool misreads it, a reference
/// to it is parsed as another text, or its citation means all entries. Returns `NotInBraces` if a changed reference can't be written in
/// braces.
#[unsafe(no_mangle)]
pub extern "C" fn biblatex_rename(
    alloc: Global,
    text: &[u8],
    old: &[u8],
    new: &[u8],
    out: &mut [u8],
    size: &mut usize,
) -> u32
    ensures { IsNumberedEnd (IsEditedText (λ d. KeyRenamed d old.now new.now) text.now)
        (EditFails (λ d why. RenameIsRefused d old.now new.now why) text.now (old.now ∷ new.now ∷ []))
        out.old size.old out.new size.new result }
{
    end(rename_in(alloc, text, old, new), out, size).number()
}

// Returns the text without the first entry `key`.
fn remove_in(alloc: Global, text: &[u8], key: &[u8]) -> Result<String, Status>
    ensures made { IfOk result (λ edited. IsEditedText (λ d. EntryRemoved d key.now) text.now (string_bytes edited)) }
    ensures fails { IfErr result (EditFails (λ d why. EntryIsRefused d key.now why) text.now (key.now ∷ [])) }
{
    let document = document_of(alloc, text)?;
    let key = text_of(key)?;
    Ok(document.remove_entry(alloc, key)?)
}

/// Writes the text without the first entry `key` and the white space after it.
#[unsafe(no_mangle)]
pub extern "C" fn biblatex_remove(
    alloc: Global,
    text: &[u8],
    key: &[u8],
    out: &mut [u8],
    size: &mut usize,
) -> u32
    ensures { IsNumberedEnd (IsEditedText (λ d. EntryRemoved d key.now) text.now)
        (EditFails (λ d why. EntryIsRefused d key.now why) text.now (key.now ∷ []))
        out.old size.old out.new size.new result }
{
    end(remove_in(alloc, text, key), out, size).number()
}

// Returns the text, a line end, and the text `added`. Each line end of `added` is `\r\n` if the first line of the text ends so; otherwise
// `added` is unchanged.
fn add_to(alloc: Global, text: &[u8], added: &[u8]) -> Result<String, Status>
    ensures made { IfOk result (λ edited. IsEditedText (WithEntriesOf added.now) text.now (string_bytes edited)) }
    ensures fails { IfErr result (AddFails text.now added.now) }
{
    let document = document_of(alloc, text)?;
    let added = with_line_ends_of(alloc, document.text(), text_of(added)?)?;
    let more = read(alloc, &added)?;
    Ok(document.add_entries(alloc, &more)?)
}

/// Writes the text, a line end, and the text `added`. If the first line of the text ends with `\r\n`, the line end and each line end of
/// `added` are `\r\n`. Otherwise the line end is `\n`, and `added` is unchanged. Returns `KeyIsThere` if an entry of `added` has a name of
/// another entry, in any ASCII case. Returns `NotAKey` if the key of an entry of `added` can't be a new key (see [`biblatex_rename`]).
/// Returns `DefinitionIsThere` if `added` defines an abbreviation that the text defines, in any ASCII case of the name, with other literals
/// or abbreviations as its value.
/// Returns `UnbalancedQuotes` if the text or `added` contains a text in quotes whose braces aren't balanced.
#[unsafe(no_mangle)]
pub extern "C" fn biblatex_add(
    alloc: Global,
    text: &[u8],
    added: &[u8],
    out: &mut [u8],
    size: &mut usize,
) -> u32
    ensures { IsNumberedEnd (IsEditedText (WithEntriesOf added.now) text.now) (AddFails text.now added.now)
        out.old size.old out.new size.new result }
{
    end(add_to(alloc, text, added), out, size).number()
}
