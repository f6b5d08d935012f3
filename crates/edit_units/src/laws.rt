//! Laws of units. These functions have no code: their clauses are theorems about definitions.

ghost use Rattle.std.specs.Prelude.{ℕ, List};
ghost use Rattle.edit_entries.specs.Changes.{IsReadPlaceless};
ghost use Rattle.edit_units.specs.Parts.{AreItsParts, AreParts, FilePart, text_of_parts, parts_together};
ghost use Rattle.edit_units.specs.Separated.{AreSeparated};
ghost use Rattle.edit_units.specs.Units.{AreUnits, UnitReading};

/// States that the text of each unit has the content of the unit, and that nothing but white space is around the units.
pub fn units_are_parts()
    ensures { (text : List ℕ) (units : List UnitReading) → AreUnits text units → AreItsParts text units }
{}

/// States that texts of files, with line feeds between them, have the contents of all of them, in order.
pub fn parts_are_read()
    ensures { (parts : List FilePart) (end : List ℕ) → AreParts parts end → IsReadPlaceless (parts_together parts) (text_of_parts parts end) }
{}

/// States that a blank line is between each unit without blocks and the next unit.
pub fn units_are_separated()
    ensures { (text : List ℕ) (units : List UnitReading) → AreUnits text units → AreSeparated text units }
{}
