//! Laws of entries in JSON. The functions have no code: their clauses are theorems about definitions.

ghost use Rattle.std.specs.Prelude.{◌≡◌, List, map, Ok};
ghost use Rattle.std.specs.List.{AllByRecursion};
ghost use Rattle.bib_entry.specs.declared.entry.Entry.{Entry};
ghost use Rattle.bib_json.specs.Arrays.{array_text};
ghost use Rattle.bib_json.specs.Entries.{json_text_of, IsReadBack};
ghost use Rattle.bib_from_json.specs.GivenEntries.{entries_read};
ghost use Rattle.bib_from_json.specs.GivenOf.{given_entry};

/// States that, if the text of each entry parses back to its object, the JSON array of these texts is parsed as the entries. Each has the
/// same type, key and fields, and the same chunks except for their spans.
pub fn json_is_read()
    ensures { (entries : List Entry) → AllByRecursion IsReadBack entries →
        entries_read (array_text (map json_text_of entries)) ≡ Ok (map given_entry entries) }
{}
