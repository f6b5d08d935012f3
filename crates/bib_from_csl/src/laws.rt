//! Laws of items as entries. These functions have no code: their clauses are theorems about definitions.

ghost use Rattle.std.specs.Prelude.{◌≡◌, ℕ, Bool, List, [], ◌∷◌, Some};
ghost use Rattle.std.specs.declared.ops.Range.{Range as ARange};
ghost use Rattle.bib_chunks.specs.Values.{alone};
ghost use Rattle.bib_chunks.specs.declared.chunk.Chunk.TheVariants.{Normal};
ghost use Rattle.bib_csl.specs.Dates.{date_item};
ghost use Rattle.bib_csl.specs.Numbers.{pages};
ghost use Rattle.bib_csl.specs.People.{names_listed};
ghost use Rattle.bib_csl.specs.declared.item.Name.{Name as AName};
ghost use Rattle.bib_dates.specs.Kept.{IsKeptDate};
ghost use Rattle.bib_dates.specs.declared.date.Date.{Date as ADate};
ghost use Rattle.bib_values.specs.Ranges.{RangesKept};
ghost use Rattle.bib_from_csl.specs.PlainDates.{IsDateReadBack};
ghost use Rattle.bib_from_csl.specs.PlainPages.{pages_after};
ghost use Rattle.bib_from_csl.specs.PlainPeople.{ArePlainNames};
ghost use Rattle.bib_from_csl.specs.WrittenPeople.{names_chunks};

/// States that one or more plain names are parsed back, in their order, from the chunks that are written for them.
pub fn names_are_read_again()
    ensures { (uses_prefix : Bool) (name : AName) (names : List AName) → ArePlainNames uses_prefix (name ∷ names) →
        names_listed uses_prefix (names_chunks uses_prefix (name ∷ names)) ≡ name ∷ names }
{}

/// States that the date of an item for a BibLaTeX date is parsed back from its text, under these conditions. The years are from -9999
/// to 9999, the months and the days exist, each day has a month, and there is no time.
pub fn dates_are_read_again()
    ensures { (d : ADate) → IsKeptDate d → IsDateReadBack (date_item d) }
{}

/// States that the pages of at least one range of 32-bit numbers are parsed back from a field that contains them.
pub fn pages_are_read_again()
    ensures { (ranges : List (ARange ℕ)) → RangesKept ranges →
        pages (Some (alone (Normal (pages_after [] ranges)))) ≡ pages_after [] ranges }
{}
