//! Laws of the JSON output. These functions have no code: their clauses are theorems about definitions.

ghost use Rattle.std.specs.Prelude.{◌≡◌, ℕ, List, map, codes, true, Some, is_some, option_and_then};
ghost use Rattle.std.specs.FinMap as by_name;
ghost use Rattle.std.specs.List.{AllByRecursion};
ghost use Rattle.std.specs.Option.{option_map};
ghost use Rattle.bib_entry.specs.declared.entry.Entry.{Entry};
ghost use Rattle.serde_json.specs.Find.{get};
ghost use Rattle.serde_json.specs.Read.{read};
ghost use Rattle.bib_json.specs.Arrays.{array_text, in_pieces};
ghost use Rattle.bib_json.specs.Entries.{entry_object, json_text_of, IsReadBack};
ghost use Rattle.bib_json.specs.Fields.{field_json};
ghost use Rattle.bib_json.specs.Objects.{array_of};

/// States that the JSON of an entry has each of its fields under the name of the field, and no other.
pub fn fields_are_found()
    ensures { (entry : Entry) (name : List ℕ) → option_and_then (get name) (get (codes "fields") (entry_object entry)) ≡
        option_map (field_json name) (by_name.get entry.fields name) }
{}

/// States that, if an entry has a field `date`, the date in its JSON is the value of this field.
pub fn date_is_that_of_its_field()
    ensures { (entry : Entry) → is_some (by_name.get entry.fields (codes "date")) ≡ true → get (codes "date") (entry_object entry) ≡
        option_and_then (get (codes "value")) (option_and_then (get (codes "date")) (get (codes "fields") (entry_object entry))) }
{}

/// States that the elements of an array, each after the text before it, and the text after the last one are the whole array.
pub fn pieces_make_the_array()
    ensures { (elements : List (List ℕ)) → in_pieces true elements ≡ array_text elements }
{}

/// States that, if the text of each entry parses back to its object, the array of these texts parses to the array of the objects.
pub fn array_is_read()
    ensures { (entries : List Entry) → AllByRecursion IsReadBack entries →
        read (array_text (map json_text_of entries)) ≡ Some (array_of entry_object entries) }
{}
