//! Laws of versions. These functions have no code: their clauses are theorems about definitions.

ghost use Rattle.std.specs.Prelude.{◌≡◌, ◌<◌, ◌^◌, ℕ, List, Option, Some, length, slice_get, true};
ghost use Rattle.edit_units.specs.Units.{AreUnits, UnitReading};
ghost use Rattle.edit_versions.specs.Alike.{is_alike, is_same};
ghost use Rattle.edit_versions.specs.Distinct.{AreAllDifferent};
ghost use Rattle.edit_versions.specs.Versions.{VersionReading, named_index, version_names, version_unit};

/// States that no two units of a version have the same name, if it has fewer than 2^64 units.
pub fn names_are_distinct()
    ensures { (v : VersionReading) → length v.units < 2 ^ 64 → AreAllDifferent (version_names v) }
{}

/// States that the name of a unit leads to the index of this unit, if the version has fewer than 2^64 units.
pub fn names_lead_to_units()
    ensures { (v : VersionReading) → length v.units < 2 ^ 64 → (index : ℕ) (name : List ℕ) →
        slice_get (version_names v) index ≡ Some name → named_index v name ≡ Some index }
{}

/// States that comparisons of units don't depend on the order of the two units.
pub fn comparisons_are_symmetric()
    ensures same { (v : VersionReading) (u : Option UnitReading) (w : VersionReading) (x : Option UnitReading) →
        is_same v u w x ≡ is_same w x v u }
    ensures alike { (v : VersionReading) (u : Option UnitReading) (w : VersionReading) (x : Option UnitReading) →
        is_alike v u w x ≡ is_alike w x v u }
{}

/// States that two units are alike if both are alike a third one, or all three are absent.
pub fn comparisons_are_transitive()
    ensures { (v w x : VersionReading) (i j k : Option ℕ) → AreUnits v.text v.units → AreUnits w.text w.units → AreUnits x.text x.units →
        is_alike v (version_unit v i) w (version_unit w j) ≡ true → is_alike w (version_unit w j) x (version_unit x k) ≡ true →
        is_alike v (version_unit v i) x (version_unit x k) ≡ true }
{}
