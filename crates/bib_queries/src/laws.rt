//! Laws of the output for the citations of a document: it contains all parsed entries and definitions that it refers to. Names are
//! compared exactly, so another ASCII case is another name. These functions do nothing; their clauses are facts about the definitions.

ghost use Rattle.std.specs.Prelude.{◌≡◌, ℕ, Bool, true, List, map};
ghost use Rattle.bib_syntax.specs.Reading.{FileReading};
ghost use Rattle.bib_syntax.specs.declared.raw.recovery.SkippedBlock.{SkippedBlock};
ghost use Rattle.bib_queries.specs.Cited.{IsExcerpt, used_in_entries};
ghost use Rattle.bib_queries.specs.Names.{definition_node, entry_node};
ghost use Rattle.bib_queries.specs.Needed.{HasName, IsMarked, RefersTo, is_listed, with_marks};

/// States that, if an entry is printed, each parsed entry of the file that it refers to is printed.
pub fn references_are_printed()
    ensures { (names : List (List ℕ)) (all : Bool) (text printed : List ℕ) (says : FileReading)
        (skipped : List SkippedBlock) (has_entry : Bool) (h : IsExcerpt names all text says skipped printed has_entry) →
        (first second : ℕ) (name : List ℕ) → IsMarked h.entry_marks first → RefersTo (map entry_node says.entries) first name →
        HasName (map entry_node says.entries) second name → IsMarked h.entry_marks second }
{}

/// States that, if an entry is printed, each parsed definition of the file for an abbreviation that it uses is printed.
pub fn used_are_defined()
    ensures { (names : List (List ℕ)) (all : Bool) (text printed : List ℕ) (says : FileReading)
        (skipped : List SkippedBlock) (has_entry : Bool) (h : IsExcerpt names all text says skipped printed has_entry) →
        (index : ℕ) (name : List ℕ) → is_listed (used_in_entries (with_marks h.entry_marks says.entries)) name ≡ true →
        HasName (map definition_node says.abbreviations) index name → IsMarked h.definition_marks index }
{}

/// States that, if a definition is printed, each parsed definition of the file for an abbreviation that it uses is printed.
pub fn definitions_are_defined()
    ensures { (names : List (List ℕ)) (all : Bool) (text printed : List ℕ) (says : FileReading)
        (skipped : List SkippedBlock) (has_entry : Bool) (h : IsExcerpt names all text says skipped printed has_entry) →
        (first second : ℕ) (name : List ℕ) → IsMarked h.definition_marks first →
        RefersTo (map definition_node says.abbreviations) first name →
        HasName (map definition_node says.abbreviations) second name → IsMarked h.definition_marks second }
{}
