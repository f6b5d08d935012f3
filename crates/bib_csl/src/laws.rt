//! Laws of items. These functions have no code: their clauses are theorems about definitions.

ghost use Rattle.std.specs.Prelude.{◌≡◌, Some, codes};
ghost use Rattle.std.specs.List.{AllByRecursion};
ghost use Rattle.serde_json.specs.Data.{string};
ghost use Rattle.serde_json.specs.Find.{get};
ghost use Rattle.bib_entry.specs.declared.entry.Entry.{Entry as AnEntry};
ghost use Rattle.bib_csl.specs.Items.{item_of_entry, type_of_entry};
ghost use Rattle.bib_csl.specs.Json.{content_json, json_of};
ghost use Rattle.bib_csl.specs.Tables.{item_type_name, variable_name};

/// States that the JSON of the item of an entry has each variable of the item under its name, with its content.
pub fn variables_are_found()
    ensures { (entry : AnEntry) → AllByRecursion (λ f. get (variable_name f.variable) (json_of (item_of_entry entry))
        ≡ Some (content_json f.content)) (item_of_entry entry).fields }
{}

/// States that the JSON of the item of an entry has the entry's key as `id`, and the name of the item's type as `type`.
pub fn key_and_type_are_found()
    ensures key { (entry : AnEntry) → get (codes "id") (json_of (item_of_entry entry)) ≡ Some (string entry.key) }
    ensures type_of { (entry : AnEntry) → get (codes "type") (json_of (item_of_entry entry))
        ≡ Some (string (item_type_name (type_of_entry entry))) }
{}
