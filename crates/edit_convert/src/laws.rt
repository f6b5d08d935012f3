//! Laws of conversion. These functions have no code: their clauses are theorems about definitions.

ghost use Rattle.edit_convert.specs.Laws.{JoinedIsTheSame, JoinedStaysApart, NamesStayApart, PartsStayApart};

/// States that the new name of a field is not that of another field of its entry.
pub fn names_stay_apart()
    ensures { NamesStayApart }
{}

/// States that a date is replaced by fields of its parts only if its entry has none of these fields.
pub fn parts_stay_apart()
    ensures { PartsStayApart }
{}

/// States that the date that replaces its parts is parsed as the date of these parts.
pub fn joined_is_the_same()
    ensures { JoinedIsTheSame }
{}

/// States that the parts of a date are joined only if their entry has no field `date`.
pub fn joined_stays_apart()
    ensures { JoinedStaysApart }
{}
