//! Laws of edited files. The functions have no code: their clauses are theorems about definitions.

ghost use Rattle.std.specs.Prelude.{◌≡◌, false, List, Option, Some, map, ℕ};
ghost use Rattle.std.specs.List.{AllZip};
ghost use Rattle.std.specs.List.Sorted.{IsPermutation};
ghost use Rattle.std.specs.Str.{str_to_ascii_lowercase};
ghost use Rattle.bib_entry.specs.declared.entry.Entry.{Entry};
ghost use Rattle.bib_file_entries.specs.Bibliography.{Bibliography};
ghost use Rattle.edit_entries.specs.Documents.{Document, EntryRemoved, IsDocument};
ghost use Rattle.edit_format.specs.Formatted.{IsReadAlike, says_in_order};
ghost use Rattle.edit_format.specs.declared.style.Style.{Style};
ghost use Rattle.bib_syntax.specs.Grammar.{IsRawReading};
ghost use Rattle.bib_syntax.specs.Reading.{FileReading};
ghost use Rattle.bib_syntax.specs.declared.raw.ParseError.{ParseError};
ghost use Rattle.bib_tables.specs.Requirements.{is_one_of};
ghost use Rattle.biblatex.specs.Headline.{IsAcceptedText, IsBibliographyOf, IsErrorOf};
ghost use Rattle.biblatex.specs.Resolved.{AreOwn};
ghost use Rattle.edit_entries.specs.References.{KeyRenamed, KeysRenamed};
ghost use Rattle.edit_entries.specs.Setting.{FieldSet, SetValue};
ghost use Rattle.edit_entries.specs.Unset.{FieldUnset};
ghost use Rattle.edit_laws.specs.Alike.{AreAlike};
ghost use Rattle.edit_laws.specs.DefinedAlike.{AreDefinedAlike};
ghost use Rattle.edit_laws.specs.OneField.{AreAlikeExcept, AreSet, AreUnset, CanBeFieldContents, HasFieldContents, IsInherited, linked_names, lost_names, text_of_value};
ghost use Rattle.edit_laws.specs.Renamed.{AreEarlierRenamed, HaveGivenKeys, HaveSameReferences, IsKeyRenamed};
ghost use Rattle.edit_laws.specs.SameEntries.{AreClaimsDistinct, HaveSameEntries, described};
ghost use Rattle.edit_laws.specs.WithoutEntry.{AreWithout, IsUnreferenced, IsBibliographyWithout};
ghost use Rattle.edit_sort.specs.Sorted.{IsReadSorted};
ghost use Rattle.edit_strings.specs.Collected.{AreMadeAbbreviations};
ghost use Rattle.edit_strings.specs.Expanded.{IsExpanded};

/// States that, if a text is accepted, a formatted text is too, and gives the same bibliography, except for spans and the borders
/// of chunks. The formatted text is any text that parses to the entries of the old one, with the fields in the order of a style. Spans
/// and the case of entry types and field names may differ.
pub fn formatted_is_alike()
    ensures accepted { (style : Style) (text new : List ℕ) (says : FileReading) (e : ParseError) → IsRawReading text says →
        IsReadAlike (says_in_order style text says) new → IsAcceptedText text → IsErrorOf new e → ⊥ }
    ensures alike { (style : Style) (text new : List ℕ) (says : FileReading) (one other : Bibliography) → IsRawReading text says →
        IsReadAlike (says_in_order style text says) new → IsBibliographyOf text one → IsBibliographyOf new other → AreAlike one other }
{}

/// States that, if a text is accepted, its text with expanded abbreviations is too, and gives the same bibliography, except for
/// spans and the borders of chunks. The premise is that two rules give the same definition for each name of the text. The expansion
/// takes the last one before the use in any ASCII case. The library takes the last one in the file with exactly this name.
pub fn expanded_is_alike()
    ensures accepted { (d : Document) (text : List ℕ) (e : ParseError) → IsDocument d → IsExpanded d text → AreDefinedAlike d.says →
        IsAcceptedText d.text
        → IsErrorOf text e → ⊥ }
    ensures alike { (d : Document) (text : List ℕ) (one other : Bibliography) → IsDocument d → IsExpanded d text → AreDefinedAlike d.says
        → IsBibliographyOf d.text one → IsBibliographyOf text other → AreAlike one other }
{}

/// States that, if a text is accepted, its text with collected abbreviations is too, and gives the same bibliography, except for
/// spans and the borders of chunks.
pub fn collected_is_alike()
    ensures accepted { (d : Document) (fields : List (List ℕ)) (least : ℕ) (text : List ℕ) (e : ParseError) → IsDocument d
        → AreMadeAbbreviations d fields least text → IsAcceptedText d.text → IsErrorOf text e → ⊥ }
    ensures alike { (d : Document) (fields : List (List ℕ)) (least : ℕ) (text : List ℕ) (one other : Bibliography) → IsDocument d
        → AreMadeAbbreviations d fields least text → IsBibliographyOf d.text one → IsBibliographyOf text other → AreAlike one other }
{}

/// States that, after a field is set to a text or a number, the entry with the key has the contents of the text in this field.
/// Each bibliography of the new text has one such entry. Its field has these contents after inheriting too, with three
/// exceptions: `xdata` is removed, and an inherited date replaces `month` and `day`.
///
/// Before inheriting, all other fields of the file are as they were. After inheriting, they are too, if the field isn't `ids`, `crossref`,
/// `xdata`, `date`, `year`, `month` or `day`. Entries that can inherit from this one are excluded. The new text is then accepted if the old
/// one is, and if the contents of the text can be parsed.
pub fn set_is_read()
    ensures own { (d after : Document) (key name text : List ℕ) (value : SetValue) (own others : List Entry) → IsDocument d
        → text_of_value value ≡ Some text → FieldSet d key name value after → AreOwn d.says own → AreOwn after.says others
        → AreSet own others key (str_to_ascii_lowercase name) text }
    ensures contents { (d after : Document) (key name text : List ℕ) (value : SetValue) (bibliography : Bibliography) → IsDocument d
        → IsDocument after → text_of_value value ≡ Some text → FieldSet d key name value after
        → is_one_of lost_names (str_to_ascii_lowercase name) ≡ false → IsBibliographyOf after.text bibliography
        → HasFieldContents bibliography key (str_to_ascii_lowercase name) text }
    ensures rest { (d after : Document) (key name text : List ℕ) (value : SetValue) (own : List Entry) (one other : Bibliography)
        → IsDocument d → IsDocument after → text_of_value value ≡ Some text → FieldSet d key name value after
        → is_one_of linked_names (str_to_ascii_lowercase name) ≡ false → AreOwn d.says own → IsBibliographyOf d.text one
        → IsBibliographyOf after.text other → AreAlikeExcept own one other key (str_to_ascii_lowercase name) }
    ensures accepted { (d after : Document) (key name text : List ℕ) (value : SetValue) (e : ParseError) → IsDocument d → IsDocument after
        → text_of_value value ≡ Some text → FieldSet d key name value after → is_one_of linked_names (str_to_ascii_lowercase name) ≡ false
        → CanBeFieldContents (str_to_ascii_lowercase name) text → IsAcceptedText d.text → IsErrorOf after.text e → ⊥ }
{}

/// States that, after a field is unset, the entry with the key lacks this field before inheriting. All other fields of the file are as
/// they were.
///
/// If the field isn't `ids`, `crossref`, `xdata`, `date`, `year`, `month` or `day`, the entry of a bibliography has the field exactly if it
/// inherits the field. All other fields of the bibliography are then as they were, except in entries that can inherit from this one. The
/// new text is then accepted if the old one is.
pub fn unset_is_read()
    ensures own { (d after : Document) (key name : List ℕ) (own others : List Entry) → FieldUnset d key name after → AreOwn d.says own
        → AreOwn after.says others → AreUnset own others key (str_to_ascii_lowercase name) }
    ensures inherited { (d after : Document) (key name : List ℕ) (own : List Entry) (bibliography : Bibliography) → IsDocument after
        → FieldUnset d key name after → is_one_of linked_names (str_to_ascii_lowercase name) ≡ false → AreOwn after.says own
        → IsBibliographyOf after.text bibliography → IsInherited own bibliography key (str_to_ascii_lowercase name) }
    ensures rest { (d after : Document) (key name : List ℕ) (own : List Entry) (one other : Bibliography) → IsDocument d → IsDocument after
        → FieldUnset d key name after → is_one_of linked_names (str_to_ascii_lowercase name) ≡ false → AreOwn d.says own
        → IsBibliographyOf d.text one → IsBibliographyOf after.text other
        → AreAlikeExcept own one other key (str_to_ascii_lowercase name) }
    ensures accepted { (d after : Document) (key name : List ℕ) (e : ParseError) → IsDocument d → IsDocument after
        → FieldUnset d key name after → is_one_of linked_names (str_to_ascii_lowercase name) ≡ false → IsAcceptedText d.text
        → IsErrorOf after.text e → ⊥ }
{}

/// States that, after an entry is removed, the other entries before inheriting are as they were. If no entry refers to the
/// removed one by `crossref` or `xdata`, the bibliography of the new text is that of the old one without this entry. The new
/// text is then accepted if the old one is.
pub fn removal_is_read()
    ensures own { (d after : Document) (key : List ℕ) (own others : List Entry) → EntryRemoved d key after → AreOwn d.says own
        → AreOwn after.says others → AreWithout own others key }
    ensures rest { (d after : Document) (key : List ℕ) (own : List Entry) (one other : Bibliography) → IsDocument d → IsDocument after
        → EntryRemoved d key after → AreOwn d.says own → IsUnreferenced own key → IsBibliographyOf d.text one
        → IsBibliographyOf after.text other → IsBibliographyWithout one other key }
    ensures accepted { (d after : Document) (key : List ℕ) (own : List Entry) (e : ParseError) → IsDocument d → IsDocument after
        → EntryRemoved d key after → AreOwn d.says own → IsUnreferenced own key → IsAcceptedText d.text → IsErrorOf after.text e → ⊥ }
{}

/// States that, after the entries of a file are sorted, they are the same before inheriting, in some order. If no two entries
/// of the file claim one name, the bibliography has the same entries, and each name points to the same entry. The new text is
/// then accepted if the old one is.
pub fn sorted_is_alike()
    ensures own { (d : Document) (places new : List ℕ) (says : FileReading) (own others : List Entry) → IsReadSorted d places new
        → AreOwn d.says own → IsRawReading new says → AreOwn says others → IsPermutation (map described own) (map described others) }
    ensures rest { (d : Document) (places new : List ℕ) (own : List Entry) (one other : Bibliography) → IsDocument d
        → IsReadSorted d places new → AreOwn d.says own → AreClaimsDistinct own → IsBibliographyOf d.text one
        → IsBibliographyOf new other → HaveSameEntries one other }
    ensures accepted { (d : Document) (places new : List ℕ) (own : List Entry) (e : ParseError) → IsDocument d
        → IsReadSorted d places new → AreOwn d.says own → AreClaimsDistinct own → IsAcceptedText d.text → IsErrorOf new e → ⊥ }
{}

/// States that, after entries get new keys, each entry before inheriting has the same type and the same fields, except for
/// reference fields. Its key is the old one or one of the new ones.
pub fn renamed_keeps_fields()
    ensures { (d after : Document) (keys : ℕ → Option (List ℕ)) (own others : List Entry) → KeysRenamed d keys after → AreOwn d.says own
        → AreOwn after.says others → AllZip (IsKeyRenamed keys) own others }
{}

/// States that, after entries get new keys, each entry has its new key, or its old one if it gets none. Each reference leads to
/// the entry that it led to. If a name in a reference field means an entry, the name in its place means the entry with the same
/// index. This is about values that are one literal. A name that means no entry isn't covered, since it can be a new key.
///
/// References have a premise: if an entry gets a new key, each earlier entry with the same key gets one too. This is so if, of several
/// entries with one key, only the first gets a new one, as `rename` and `rekey` do.
pub fn renamed_leads_alike()
    ensures keys { (d after : Document) (keys : ℕ → Option (List ℕ)) → IsDocument d → KeysRenamed d keys after
        → HaveGivenKeys keys d after }
    ensures references { (d after : Document) (keys : ℕ → Option (List ℕ)) → IsDocument d → KeysRenamed d keys after
        → AreEarlierRenamed d.says.entries keys → HaveSameReferences d after }
    ensures one { (d after : Document) (old new : List ℕ) → IsDocument d → KeyRenamed d old new after → HaveSameReferences d after }
{}
