//! A bibliography file's text with its raw reading, and the edits of it.

ghost use Rattle.std.specs.Prelude.{◌≡◌, ◌⊎◌, IfOk, IfErr, MatchOption, OnOk, length, map};
ghost use Rattle.std.specs.String.{string_bytes};
ghost use Rattle.bib_queries.specs.Sets.{is_in_set};
ghost use Rattle.bib_syntax.specs.Errors.{Refuses, out_of_memory};
ghost use Rattle.bib_syntax.specs.Grammar.{IsFile, IsRawReading};
ghost use Rattle.bib_syntax.specs.SyntaxErrors.{IsReported};
ghost use Rattle.bib_syntax.specs.Views.{file_of};
ghost use Rattle.edit_entries.specs.Documents.{Document, EntriesAdded, EntriesAreRefused, EntryIsRefused, EntryRemoved, IsEdited, IsDocument, UnsetIsRefused};
ghost use Rattle.edit_entries.specs.NewNames.{HaveNewKeys, IsFirstUnsafeKey};
ghost use Rattle.edit_entries.specs.Changes.{IsChanged};
ghost use Rattle.edit_entries.specs.FieldEdits as fields;
ghost use Rattle.edit_entries.specs.FieldEdits.{FieldEditIsRefused, HasFitValue, edit_name, selected_edited};
ghost use Rattle.edit_entries.specs.NewKeys.{key_for};
ghost use Rattle.edit_entries.specs.Quotes as quotes;
ghost use Rattle.edit_entries.specs.References.{KeyRenamed, KeysAreRefused, KeysRenamed, RenameIsRefused, given_keys};
ghost use Rattle.edit_entries.specs.Selected.{EntriesRemoved, FieldsUnset, FirstsAreRefused, FirstsRemoved, UnsettingIsRefused};
ghost use Rattle.edit_entries.specs.Setting.{CanBeNewName, FieldSet, SetIsRefused, value_of};
ghost use Rattle.edit_entries.specs.Unset.{FieldUnset};

use crate::definitions::agree_on_definitions;
use crate::editing::edited_all;
use crate::errors::EditError;
use crate::field_edits::{FieldEdit, edit_text, field_edits, first_start};
use crate::field_value::FieldValue;
use crate::firsts::first_removals;
use crate::joining::{joined, shares_name};
use crate::keys::{first_unsafe_key, have_new_keys, may_get_keys};
use crate::lookup::{entry_index, entry_with};
use crate::new_keys::NewKeys;
use crate::removing::{have_only, without_entry};
use crate::renaming::with_new_keys;
use crate::selected::{all_unset_edits, removals, would_one_be_empty};
use crate::setting::with_field_set;
use crate::taken::is_new_key_taken;
use crate::unsetting::without_fields;
use bib_queries::quotes::{contain_unbalanced_quote, have_unbalanced_quote};
use bib_syntax::raw::{ParseError, RawBibliography};
use std::alloc::{AllocError, Global};
use std::collections::BTreeSet;
use std::marker::Model;

/// A text with its raw reading.
#[derive(Debug, Drop)]
pub struct RawDocument<'s> {
    text: &'s str,
    raw: RawBibliography<'s>,
}

impl<'s> Model for RawDocument<'s> {
    ghost use Rattle.bib_syntax.specs.Grammar.{IsRawReading};
    ghost use Rattle.bib_syntax.specs.Views.{file_of};
    ghost use Rattle.edit_entries.specs.Documents.{Document};

    ghost Value = { Document };

    ghost view = { λ d. record { text = d.text.now; says = file_of d.raw } };

    ghost invariant = { λ d. IsRawReading d.text.now (file_of d.raw) };
}

impl<'s> RawDocument<'s> {
    /// Parses a text, like `RawBibliography::parse`.
    pub fn parse(alloc: Global, src: &'s str) -> Result<Self, ParseError>
        ensures read { IfOk result (λ d. IsDocument d) }
        ensures same { IfOk result (λ d. d.text ≡ src.now) }
        ensures accepted { OnOk result (IsFile src.now) }
        ensures refused { IfErr result (λ e. Refuses src.now e (IsFile src.now → ⊥)) }
        ensures reported { IfErr result (λ e. (e ≡ out_of_memory) ⊎ IsReported src.now e) }
    {
        let raw = RawBibliography::parse(alloc, src)?;
        Ok(RawDocument { text: src, raw })
    }

    /// Returns the text.
    pub fn text(&self) -> &'s str
        ensures { result.now ≡ self.now.text }
    {
        self.text
    }

    /// Returns the raw reading of the text.
    pub fn raw(&self) -> &RawBibliography<'s>
        ensures says { file_of result.now ≡ self.now.says }
        ensures read { IsDocument self.now }
    {
        &self.raw
    }

    /// Returns whether a field of an entry or the definition of an abbreviation contains a text in quotes whose braces aren't balanced, as
    /// in `"The {"}Big{"} one"`. BibTeX and Biber end such a text at the first quote outside of braces. This library and bibtool end it
    /// at the first quote that no backslash escapes. So the end of the text can depend on the program, and an edit can break it.
    pub fn has_unbalanced_quotes(&self) -> bool
        ensures { result ≡ quotes.has_unbalanced_quotes self.now }
    {
        contain_unbalanced_quote(self.text, &self.raw.entries)
            || have_unbalanced_quote(self.text, &self.raw.abbreviations)
    }

    /// Returns the text with a field of the first entry with `key` set: each field with `name`, in any ASCII case, gets `value`. A text is
    /// written in braces, a number or the name of an abbreviation as it is. BibTeX reads the first of several fields with one name, Biber
    /// and this library the last. A field that already has this value is kept. If the entry has no such field, a new one comes before the
    /// others, laid out like them. It has ` = ` if the first has other characters than spaces and tabs around its equals sign.
    ///
    /// # Errors
    ///
    /// `UnknownKey` if no entry has the key; `NotAName` if the entry has no field with `name`, and `name` can't be that of a new field.
    ///
    /// `NotInBraces` and `NotBare` occur only if a field with `name` is missing or has another value. `NotInBraces` if a text can't be
    /// written in braces, for this library or for BibTeX, which also counts a brace after a backslash. `NotBare` if a value without braces
    /// is neither a number nor an abbreviation that is a month or is defined before the entry. Abbreviations are compared in any ASCII
    /// case, and one that begins with a digit is `NotBare`, too.
    pub fn set_field(
        &self,
        alloc: Global,
        key: &str,
        name: &str,
        value: FieldValue<'_>,
    ) -> Result<String, EditError>
        ensures set { IfOk result (λ new. IsEdited (FieldSet self.now key.now name.now (value_of value.entry)) (string_bytes new)) }
        ensures refused { IfErr result (SetIsRefused self.now key.now name.now (value_of value.entry)) }
    {
        let text = self.text();
        match entry_with(&self.raw.entries, key) {
            Some(entry) => with_field_set(alloc, &self.raw.abbreviations, text, entry, name, value),
            None => Err(EditError::UnknownKey),
        }
    }

    /// Returns the text without a field of an entry: each field with `name`, in any ASCII case, of the first entry with `key` is removed.
    /// Returns the same text if the entry lacks the field.
    ///
    /// A field is removed with its comma, the white space before it, and the comment between its value and its comma. Without a comma, the
    /// comment on the line on which its value ends is removed. Comments before the field and after its comma stay. If both are there, they
    /// become one line. If only the comment before the field is there, the field is removed with its lines, so the closing brace keeps its
    /// column.
    ///
    /// In the following cases the text from the name up to the next field or the closing brace is removed, with the comments in it. If one
    /// of several fields with the name is such a case, this is done for each of them.
    ///
    /// - A comment is after the comma before the field, and a later field has the same name.
    /// - A comment is after the comma before the field, and the next field or the closing brace is on the line on which the field ends.
    /// - Special white space, such as a no-break space, is between the key and its comma, or between a comment and the comma or closing
    ///   brace after it. Special means: other than a space, tab, line feed, form feed or carriage return.
    /// - A comment is before the field, and special white space is between one of the two commas and the next comment, field or closing
    ///   brace. Or special white space follows the value, with neither a comma after it nor a comment on its line.
    ///
    /// # Errors
    ///
    /// `UnknownKey` if no entry has the key; `NoFieldLeft` if the entry has fields, and all of them have the name. bibtool doesn't read an
    /// entry without fields.
    pub fn unset_field(&self, alloc: Global, key: &str, name: &str) -> Result<String, EditError>
        ensures unset { IfOk result (λ new. IsEdited (FieldUnset self.now key.now name.now) (string_bytes new)) }
        ensures refused { IfErr result (UnsetIsRefused self.now key.now name.now) }
    {
        let text = self.text();
        let Some(entry) = entry_with(&self.raw.entries, key) else {
            return Err(EditError::UnknownKey);
        };
        if have_only(&entry.v.fields, name) {
            return Err(EditError::NoFieldLeft);
        }
        Ok(without_fields(alloc, text, entry, name)?)
    }

    /// Returns the text without the first entry with a key, and without the white space after it.
    ///
    /// # Errors
    ///
    /// `UnknownKey` if no entry has the key.
    pub fn remove_entry(&self, alloc: Global, key: &str) -> Result<String, EditError>
        ensures removed { IfOk result (λ new. IsEdited (EntryRemoved self.now key.now) (string_bytes new)) }
        ensures refused { IfErr result (EntryIsRefused self.now key.now) }
    {
        match entry_with(&self.raw.entries, key) {
            Some(entry) => Ok(without_entry(alloc, self.text, entry)?),
            None => Err(EditError::UnknownKey),
        }
    }

    /// Returns the text without a field of each entry with one of these keys, as `unset_field` removes it from one entry. The text stays if
    /// no such entry has the field.
    ///
    /// # Errors
    ///
    /// `NoFieldLeft` if an entry with one of these keys has fields, and all of them have the name.
    pub fn unset_fields(
        &self,
        alloc: Global,
        keys: &BTreeSet<&str>,
        name: &str,
    ) -> Result<String, EditError>
        ensures unset { IfOk result (λ new. IsEdited (FieldsUnset self.now (is_in_set keys.now) name.now) (string_bytes new)) }
        ensures refused { IfErr result (UnsettingIsRefused self.now (is_in_set keys.now) name.now) }
    {
        let text = self.text();
        let entries = &self.raw.entries;
        if would_one_be_empty(entries, keys, name) {
            return Err(EditError::NoFieldLeft);
        }
        let edits = all_unset_edits(alloc, text, entries, keys, name)?;
        Ok(edited_all(alloc, text, &edits)?)
    }

    /// Returns the text without the entries with these keys, and without the white space after each.
    pub fn remove_entries(&self, alloc: Global, keys: &BTreeSet<&str>) -> Result<String, AllocError>
        ensures { IfOk result (λ new. IsEdited (EntriesRemoved self.now (is_in_set keys.now)) (string_bytes new)) }
    {
        let text = self.text();
        let edits = removals(alloc, text, &self.raw.entries, keys)?;
        edited_all(alloc, text, &edits)
    }

    /// Returns the text without the first entry with each of these keys, and without the white space after each. A key that is given twice
    /// counts once.
    ///
    /// # Errors
    ///
    /// `UnknownKey` if one of the keys is the key of no entry.
    pub fn remove_first_entries(&self, alloc: Global, keys: &[&str]) -> Result<String, EditError>
        ensures removed { IfOk result (λ new. IsEdited (FirstsRemoved self.now (map (λ k. k.now) keys.now)) (string_bytes new)) }
        ensures refused { IfErr result (FirstsAreRefused self.now (map (λ k. k.now) keys.now)) }
    {
        let text = self.text();
        let edits = first_removals(alloc, text, &self.raw.entries, keys)?;
        Ok(edited_all(alloc, text, &edits)?)
    }

    // Returns the text with new keys of entries, also in the references to them (see `rename_key`).
    fn with_keys(&self, alloc: Global, keys: NewKeys<'_>) -> Result<String, EditError>
        ensures renamed { IfOk result (λ text. IsEdited (KeysRenamed self.now (key_for keys.entry)) (string_bytes text)) }
        ensures refused { IfErr result (KeysAreRefused self.now (key_for keys.entry)) }
    {
        let entries = &self.raw.entries;
        if !may_get_keys(entries, &keys) {
            return Err(EditError::NotAKey);
        }
        if is_new_key_taken(alloc, entries, &keys)? {
            return Err(EditError::KeyIsThere);
        }
        with_new_keys(alloc, self.text, entries, keys)
    }

    /// Returns the text with the key `new` for the first entry with the key `old`, also in the references to it. The references are in the
    /// fields `crossref`, `xref`, `xdata`, `entryset`, `related` and `set` of all entries. If the value is one text, each element of this
    /// comma list is one. An element refers to the first entry that has exactly this key. BibTeX reads only `crossref` of these fields, and
    /// finds the first entry with this key in any ASCII case. If no entry has exactly this key, an element of `crossref` refers to that
    /// entry, unless Biber finds an entry with another key by its field `ids`. A value that changes is written in braces. Joined values,
    /// abbreviations, and keys that are written with TeX stay. The text stays if `new` is `old`.
    ///
    /// # Errors
    ///
    /// `UnknownKey` if no entry has the key `old`. The following occur only if `new` isn't `old`: `NotAKey` if `old` is empty, or `new`
    /// can't be a new key. `KeyIsThere` if `new` is, in any ASCII case, the key of another entry or a name in the field `ids` of an entry.
    /// `NotInBraces` if a value that changes can't be written in braces.
    pub fn rename_key(&self, alloc: Global, old: &str, new: &str) -> Result<String, EditError>
        ensures renamed { IfOk result (λ text. IsEdited (KeyRenamed self.now old.now new.now) (string_bytes text)) }
        ensures refused { IfErr result (RenameIsRefused self.now old.now new.now) }
    {
        let Some(index) = entry_index(&self.raw.entries, old) else {
            return Err(EditError::UnknownKey);
        };
        if old == new {
            return Ok(String::from_str(alloc, self.text)?);
        }
        self.with_keys(alloc, NewKeys::One(index, new))
    }

    /// Returns the text with an edit of a field of each entry with one of these keys. An entry without fields stays. The text stays if no
    /// entry has one of these keys.
    ///
    /// # Errors
    ///
    /// `NotAName` if the name that fields get can't be the name of a new field. `NotInBraces` if the value of the edit can't be written in
    /// braces. `NotBare` if it can't be written without them in the first of these entries, or at the end of the text if there is none
    /// (see `set_field`).
    pub fn edit_fields(
        &self,
        alloc: Global,
        keys: &BTreeSet<&str>,
        edit: &FieldEdit<'_>,
    ) -> Result<String, EditError>
        ensures edited { IfOk result (λ text. IsChanged (selected_edited self.now.text keys.now edit.now) self.now (string_bytes text)) }
        ensures name { OnOk result (CanBeNewName (edit_name edit.now)) }
        ensures value { OnOk result (HasFitValue self.now.says.abbreviations
            (fields.first_start (is_in_set keys.now) (length self.now.text) self.now.says.entries) edit.now) }
        ensures refused { IfErr result (FieldEditIsRefused self.now (is_in_set keys.now) edit.now) }
    {
        let text = self.text();
        let at = first_start(text, &self.raw.entries, keys);
        let written = edit_text(alloc, &self.raw.abbreviations, at, edit)?;
        let edits = field_edits(alloc, text, &self.raw.entries, keys, edit, &written)?;
        Ok(edited_all(alloc, text, &edits)?)
    }

    /// Returns the text with new keys of entries. Each entry gets the key at its index in `keys`, if there is one, and so do the
    /// references to it (see `rename_key`). All keys change at once, so entries can also exchange their keys.
    ///
    /// # Errors
    ///
    /// `NotAKey` if an entry that gets a key has an empty one, or the new one can't be a new key. `KeyIsThere` if a new key is the
    /// key of an entry that gets none, a name in the field `ids` of an entry, or another new key. These are compared in any ASCII
    /// case. `NotInBraces` if a value that changes can't be written in braces.
    pub fn rename_keys(&self, alloc: Global, keys: &[Option<&str>]) -> Result<String, EditError>
        ensures renamed { IfOk result (λ text. IsEdited (KeysRenamed self.now (given_keys keys.now)) (string_bytes text)) }
        ensures refused { IfErr result (KeysAreRefused self.now (given_keys keys.now)) }
    {
        self.with_keys(alloc, NewKeys::Each(keys))
    }

    /// Returns the key of the first entry whose key can't be a new one (see `EditError::NotAKey`), or `None` if there is no such entry.
    /// `add_entries` refuses to add a document with such a key.
    pub fn first_unsafe_key(&self) -> Option<&'s str>
        ensures { MatchOption result (HaveNewKeys self.now.says.entries) (λ key. IsFirstUnsafeKey self.now.says.entries key.now) }
    {
        first_unsafe_key(&self.raw.entries)
    }

    /// Returns the text, its line end (`\r\n` if the first line of the text ends so, otherwise `\n`), and the text of `more`. That text is
    /// copied as it is; `with_line_ends_of` returns it with `\r\n` at its line ends if this document has these.
    ///
    /// # Errors
    ///
    /// `KeyIsThere` if an entry of `more` has a name, in any ASCII case, of an entry of this document or of an earlier entry of `more`. The
    /// names of an entry are its key and the names in its field `ids`. `NotAKey` if the key of an entry of `more` can't be a new key (see
    /// `EditError::NotAKey`). `DefinitionIsThere` if both documents define an abbreviation, in any ASCII case, with different pieces.
    pub fn add_entries(&self, alloc: Global, more: &RawDocument<'_>) -> Result<String, EditError>
        ensures added { IfOk result (λ text. IsEdited (EntriesAdded self.now more.now) (string_bytes text)) }
        ensures refused { IfErr result (EntriesAreRefused self.now more.now) }
    {
        if shares_name(alloc, &self.raw.entries, &more.raw.entries)? {
            return Err(EditError::KeyIsThere);
        }
        if !have_new_keys(&more.raw.entries) {
            return Err(EditError::NotAKey);
        }
        if !agree_on_definitions(alloc, &self.raw.abbreviations, &more.raw.abbreviations)? {
            return Err(EditError::DefinitionIsThere);
        }
        Ok(joined(alloc, self.text, more.text)?)
    }
}
