//! Laws of merges. These functions have no code: their clauses are theorems about definitions.

ghost use Rattle.std.specs.Prelude.{◌≡◌, ◌++◌, ℕ, Bool, List, Option, Some, false, option_map, true, unwrap_or};
ghost use Rattle.std.specs.List.{find};
ghost use Rattle.std.specs.Str.{IsUtf8};
ghost use Rattle.edit_entries.specs.Changes.{IsReadPlaceless};
ghost use Rattle.edit_entries.specs.Documents.{Document, IsDocument, has_name};
ghost use Rattle.edit_entry_merge.specs.ConflictTexts.{AreConflictParts, ConflictParts, IsConflictText, MarkerLines, conflict_text, lines_as_text, lines};
ghost use Rattle.edit_entry_merge.specs.Frames.{are_same_frames};
ghost use Rattle.edit_entry_merge.specs.Merges.{MergeReading, entry_merge, merged_reading};
ghost use Rattle.edit_entry_merge.specs.Mixed.{mixed_text};
ghost use Rattle.edit_entry_merge.specs.Picks.{merged_fields};
ghost use Rattle.edit_entry_merge.specs.Choices.{AreSameByName, are_equal_fields, choice, other_side, takes_other, version_at, with_exchanged_sides};
ghost use Rattle.edit_entry_merge.specs.Versions.{EntryVersions, Version, are_found_by_name, named, version_of};
ghost use Rattle.edit_entry_merge.specs.declared.choices.Side.{Side};

/// States that the text of a version with the fields that count parses to the entry with the merged fields, except for byte offsets.
pub fn mixed_texts_are_read()
    ensures { (d e : Document) (main other : Version) (takes : List ℕ → Bool) (text : List ℕ) → IsDocument d → IsUtf8 d.text →
        IsDocument e → IsUtf8 e.text → version_of d ≡ Some main → version_of e ≡ Some other → mixed_text takes main other ≡ Some text →
        IsReadPlaceless (merged_reading d.says takes main other) text }
{}

/// States that the field with a name, in any ASCII case, of the merged entry has the value of the side that counts, or is absent if that
/// side has none. `main` is the side whose text is edited, and a conflict is resolved to `prefer`.
pub fn merged_fields_are_those_that_count()
    ensures { (vs : EntryVersions) (main prefer : Side) (name : List ℕ) →
        are_found_by_name (version_at vs main).entry.fields ≡ true → are_equal_fields
        (find (has_name name)
        (merged_fields (takes_other vs main prefer) (version_at vs main) (version_at vs (other_side main))))
        (named name (version_at vs (unwrap_or (choice vs name) prefer))) ≡ true }
{}

/// States that the other side counts for the field with a name if the sides are exchanged, unless they have equal values for it. If it
/// conflicts, it conflicts then, too.
pub fn sides_can_be_exchanged()
    ensures { (vs : EntryVersions) (name : List ℕ) → are_equal_fields (named name vs.theirs) (named name vs.ours) ≡ false →
        choice (with_exchanged_sides vs) name ≡ option_map other_side (choice vs name) }
{}

/// States that the merge is the text of ours, byte for byte, if theirs has the values and the frame of the base.
pub fn unchanged_theirs_gives_ours()
    ensures { (base ours theirs : Document) (b o t : Version) → version_of base ≡ Some b → version_of ours ≡ Some o →
        version_of theirs ≡ Some t → AreSameByName t b → are_same_frames t b ≡ true →
        entry_merge (Some base) ours theirs ≡ MergeReading.merged ours.text }
{}

/// States that the lines of the parts of a conflict, with the part of one side, are the text of this side.
pub fn conflict_parts_are_the_texts()
    ensures { (ours theirs : List ℕ) (p : ConflictParts) → AreConflictParts (lines ours) (lines theirs) p →
        (lines_as_text (p.start ++ (p.ours ++ p.end)) ≡ ours) × (lines_as_text (p.start ++ (p.theirs ++ p.end)) ≡ theirs) }
{}

/// States that two equal texts have no markers.
pub fn equal_texts_have_no_markers()
    ensures { (m : MarkerLines) (text new : List ℕ) → IsConflictText m (Some text) (Some text) new → new ≡ text }
{}

/// States that the definition `conflict_text` returns two texts as one, with marker lines around the lines in which they differ.
pub fn conflict_texts_have_markers_where_they_differ()
    ensures { (m : MarkerLines) (ours theirs : Option (List ℕ)) → IsConflictText m ours theirs (conflict_text m ours theirs) }
{}
