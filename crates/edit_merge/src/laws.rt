//! Laws of merges. These functions have no code: their clauses are theorems about definitions.

ghost use Rattle.std.specs.Prelude.{◌≡◌, ◌⊎◌, ◌<◌, ◌^◌, ℕ, Bool, List, false, length, true};
ghost use Rattle.std.specs.List.{Contains, flat_map};
ghost use Rattle.bib_queries.specs.Needed.{is_listed};
ghost use Rattle.edit_entries.specs.Changes.{IsReadPlaceless};
ghost use Rattle.edit_merge.specs.Clean.{HaveUnits, IsClean, IsPicked, merged_content};
ghost use Rattle.edit_entry_merge.specs.ConflictTexts.{MarkerLines};
ghost use Rattle.edit_merge.specs.Keys.{HaveFewEntries, keys_of_units};
ghost use Rattle.edit_merge.specs.Lost.{is_lost, kept_slots, units_at};
ghost use Rattle.edit_merge.specs.Merged.{merged_text};
ghost use Rattle.edit_merge.specs.Picked.{Versions, exchanged, is_alike_named, merged_names, order_choice, slot_of};
ghost use Rattle.edit_merge.specs.Relaid.{AreRelaid, pick_alike};
ghost use Rattle.edit_merge.specs.Renames.{AreDocumentsOf, Documents, HaveNewTexts, NewTexts, exchanged_texts, no_texts};
ghost use Rattle.edit_merge.specs.Resolved.{resolved_content, resolved_text};
ghost use Rattle.edit_merge.specs.UnitNames.{dangles, defined_names};
ghost use Rattle.edit_merge.specs.Unchanged.{IsMerge};
ghost use Rattle.edit_merge.specs.declared.picking.Choice.TheVariants.{Ours, Theirs, Conflict};
ghost use Rattle.edit_merge.specs.declared.slots.Slot.{Slot};
ghost use Rattle.edit_units.specs.Units.{AreUnits};
ghost use Rattle.edit_versions.specs.Distinct.{AreAllDifferent};
ghost use Rattle.edit_versions.specs.Versions.{VersionReading, version_names};

/// States that the text of a merge without a conflict is the text of a file with the content of the picked units, in order. This holds for
/// any places, and so for those of a merge.
pub fn clean_merges_are_read()
    ensures { (markers : MarkerLines) (vs : Versions) (places : List Slot) → HaveUnits vs → IsClean places →
        IsReadPlaceless (merged_content vs places) (merged_text markers vs places) }
{}

/// States that a merge is the text of a file if each of its conflicts is replaced by the text of either side, with the white space around
/// it kept. If this side lacks the unit, the text is empty. The content is that of the picked units and of the units in place of the
/// conflicts, in order. This holds for any places, and so for those of a merge.
pub fn resolved_merges_are_read()
    ensures { (vs : Versions) (takes : Slot → Bool) (places : List Slot) → HaveUnits vs →
        IsReadPlaceless (resolved_content vs takes places) (resolved_text vs takes places) }
{}

/// States that the merge is our text, byte for byte and without a conflict, if they changed nothing.
pub fn unchanged_theirs_gives_ours()
    ensures { (markers : MarkerLines) (base side : VersionReading) → AreUnits base.text base.units → AreUnits side.text side.units →
        length side.units < 2 ^ 64 → IsMerge markers (record { base = base; ours = side; theirs = base }) side.text }
{}

/// States that the merge is their text, byte for byte and without a conflict, if we changed nothing.
pub fn unchanged_ours_gives_theirs()
    ensures { (markers : MarkerLines) (base side : VersionReading) → AreUnits base.text base.units → AreUnits side.text side.units →
        length side.units < 2 ^ 64 → IsMerge markers (record { base = base; ours = base; theirs = side }) side.text }
{}

/// States that the merge is the text of both sides, byte for byte and without a conflict, if they are equal.
pub fn equal_sides_give_their_text()
    ensures { (markers : MarkerLines) (base side : VersionReading) → AreUnits side.text side.units → length side.units < 2 ^ 64 →
        IsMerge markers (record { base = base; ours = side; theirs = side }) side.text }
{}

/// States that each unit of both sides has a place in the merge, if they have fewer than 2^64 units.
pub fn every_unit_has_a_place()
    ensures ours { (vs : Versions) → length vs.ours.units < 2 ^ 64 → length vs.theirs.units < 2 ^ 64 → (name : List ℕ) →
        Contains (version_names vs.ours) name → Contains (merged_names vs) name }
    ensures theirs { (vs : Versions) → length vs.ours.units < 2 ^ 64 → length vs.theirs.units < 2 ^ 64 → (name : List ℕ) →
        Contains (version_names vs.theirs) name → Contains (merged_names vs) name }
{}

/// States that no two places of a merge have the same name, if both sides have fewer than 2^64 units. So no unit is merged twice.
pub fn places_have_different_names()
    ensures { (vs : Versions) → length vs.ours.units < 2 ^ 64 → length vs.theirs.units < 2 ^ 64 → AreAllDifferent (merged_names vs) }
{}

/// States that the picked units of a merge without a conflict have no key twice if neither side has a key twice, or several entries in one
/// unit. Keys that differ in case are different. The sides have fewer than 2^64 units.
pub fn keys_stay_different()
    ensures { (vs originals : Versions) → length vs.ours.units < 2 ^ 64 → length vs.theirs.units < 2 ^ 64 →
        HaveFewEntries vs.ours.units → HaveFewEntries vs.theirs.units → AreAllDifferent (keys_of_units vs.ours.units) →
        AreAllDifferent (keys_of_units vs.theirs.units) → IsClean (kept_slots vs originals) →
        AreAllDifferent (keys_of_units (units_at vs (kept_slots vs originals))) }
{}

/// States for each name that the picked unit has the changes of both sides: if one side is picked, the unit that the other side has with
/// this name is alike that of the base, or the picked one. This also holds for absent units. A text that a side moves to a unit with
/// another name isn't followed.
pub fn picked_units_keep_changes()
    ensures ours { (vs : Versions) (name : List ℕ) → (slot_of vs name).choice ≡ Theirs → is_alike_named vs.ours vs.base name ≡ true }
    ensures theirs { (vs : Versions) (name : List ℕ) → (slot_of vs name).choice ≡ Ours →
        (is_alike_named vs.theirs vs.base name ≡ true) ⊎ (is_alike_named vs.theirs vs.ours name ≡ true) }
{}

/// States that the same places are conflicts if the sides are exchanged, and so is the order.
pub fn sides_can_be_exchanged()
    ensures places { (vs : Versions) (name : List ℕ) → (slot_of vs name).choice ≡ Conflict → (slot_of (exchanged vs) name).choice ≡ Conflict }
    ensures order { (vs : Versions) → order_choice vs ≡ Conflict → order_choice (exchanged vs) ≡ Conflict }
{}

/// States that a merge makes no difference between alike units, such as an entry in two layouts. If the units with a name in two triples of
/// versions are alike, version by version, both merges have a conflict there or neither has. Without one, they pick alike units. Own names
/// that several units of a version have, and conflicts because of lost names, aren't covered.
pub fn alike_units_are_interchangeable()
    ensures conflicts { (vs ws : Versions) (name : List ℕ) → AreRelaid vs ws name → (slot_of vs name).choice ≡ Conflict →
        (slot_of ws name).choice ≡ Conflict }
    ensures picks { (vs ws : Versions) (name : List ℕ) → AreRelaid vs ws name → IsPicked (slot_of vs name).choice →
        IsPicked (slot_of ws name).choice → pick_alike vs ws name ≡ true }
{}

/// States that no version gets a new text for renamed entries if two versions have the same text.
pub fn equal_texts_rename_nothing()
    ensures theirs { (vs : Versions) (ds : Documents) (texts : NewTexts) → vs.theirs.text ≡ vs.base.text → AreDocumentsOf vs ds →
        HaveNewTexts vs texts → texts ≡ no_texts }
    ensures ours { (vs : Versions) (ds : Documents) (texts : NewTexts) → vs.ours.text ≡ vs.base.text → AreDocumentsOf vs ds →
        HaveNewTexts vs texts → texts ≡ no_texts }
    ensures sides { (vs : Versions) (ds : Documents) (texts : NewTexts) → vs.ours.text ≡ vs.theirs.text → AreDocumentsOf vs ds →
        HaveNewTexts vs texts → texts ≡ no_texts }
{}

/// States that the new texts are exchanged if the sides are exchanged.
pub fn renames_can_be_exchanged()
    ensures { (vs : Versions) (texts : NewTexts) → HaveNewTexts vs texts → HaveNewTexts (exchanged vs) (exchanged_texts texts) }
{}

/// States that a merge without a conflict loses no name, if the sides have fewer than 2^64 units. If the merge uses a name that it doesn't
/// define, so does one of its sides. If it loses a name of `originals`, no unit of its sides defines it.
pub fn clean_merges_lose_no_name()
    ensures merged { (vs : Versions) → length vs.ours.units < 2 ^ 64 → length vs.theirs.units < 2 ^ 64 → IsClean (kept_slots vs vs) →
        (name : List ℕ) → dangles (units_at vs (kept_slots vs vs)) name ≡ true →
        (dangles vs.ours.units name ≡ true) ⊎ (dangles vs.theirs.units name ≡ true) }
    ensures ours { (vs originals : Versions) → length vs.ours.units < 2 ^ 64 → length vs.theirs.units < 2 ^ 64 →
        IsClean (kept_slots vs originals) → (name : List ℕ) → is_lost vs originals name ≡ true →
        is_listed (flat_map defined_names vs.ours.units) name ≡ false }
    ensures theirs { (vs originals : Versions) → length vs.ours.units < 2 ^ 64 → length vs.theirs.units < 2 ^ 64 →
        IsClean (kept_slots vs originals) → (name : List ℕ) → is_lost vs originals name ≡ true →
        is_listed (flat_map defined_names vs.theirs.units) name ≡ false }
{}
