//! Laws of `merge`. These functions have no code: their clauses are theorems about definitions.

ghost use Rattle.std.specs.Prelude.{◌≡◌, ◌<◌, ◌^◌, Bool, ℕ, List, length};
ghost use Rattle.bibkit_versions.specs.Merging.{IsMergedFile};
ghost use Rattle.bibkit_versions.specs.WholeMerges.{IsWholeMerge};
ghost use Rattle.edit_entry_merge.specs.ConflictTexts.{MarkerLines};
ghost use Rattle.edit_units.specs.Units.{AreUnits};
ghost use Rattle.edit_versions.specs.Versions.{VersionReading};

/// States that the merged file is ours, byte for byte and without a conflict, if they changed nothing. Ours has fewer than 2^64
/// units.
pub fn unchanged_theirs_gives_ours()
    ensures { (markers : MarkerLines) (base ours : VersionReading) (text : List ℕ) (conflicts : Bool) → AreUnits base.text base.units →
        AreUnits ours.text ours.units → length ours.units < 2 ^ 64 →
        IsMergedFile markers (record { base = base; ours = ours; theirs = base }) text conflicts → IsWholeMerge ours.text text conflicts }
{}

/// States that the merged file is theirs, byte for byte and without a conflict, if we changed nothing. Theirs has fewer than
/// 2^64 units.
pub fn unchanged_ours_gives_theirs()
    ensures { (markers : MarkerLines) (base theirs : VersionReading) (text : List ℕ) (conflicts : Bool) → AreUnits base.text base.units →
        AreUnits theirs.text theirs.units → length theirs.units < 2 ^ 64 →
        IsMergedFile markers (record { base = base; ours = base; theirs = theirs }) text conflicts → IsWholeMerge theirs.text text conflicts }
{}

/// States that the merged file is that of both sides, byte for byte and without a conflict, if they are equal. They
/// have fewer than 2^64 units.
pub fn equal_sides_give_their_text()
    ensures { (markers : MarkerLines) (base side : VersionReading) (text : List ℕ) (conflicts : Bool) → AreUnits base.text base.units →
        AreUnits side.text side.units → length side.units < 2 ^ 64 →
        IsMergedFile markers (record { base = base; ours = side; theirs = side }) text conflicts → IsWholeMerge side.text text conflicts }
{}
