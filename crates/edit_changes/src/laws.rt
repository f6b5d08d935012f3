//! Laws of changes. These functions have no code: their clauses are theorems about definitions.

ghost use Rattle.std.specs.Prelude.{◌≡◌, ◌<◌, ◌^◌, length, true};
ghost use Rattle.std.specs.List.{list_all};
ghost use Rattle.edit_changes.specs.Changes.{changes, is_layout};
ghost use Rattle.edit_changes.specs.Same.{HaveSameContent};
ghost use Rattle.edit_versions.specs.Versions.{VersionReading};

/// States that there is no change except of the layout exactly if both versions have the same names in the same order, and no content of a
/// unit has changed. The versions have fewer than 2^64 units.
pub fn only_the_layout_changes()
    ensures same { (v w : VersionReading) → length v.units < 2 ^ 64 →
        list_all is_layout (changes v w) ≡ true → HaveSameContent v w }
    ensures layout { (v w : VersionReading) → length v.units < 2 ^ 64 →
        HaveSameContent v w → list_all is_layout (changes v w) ≡ true }
{}
