//! Merges three versions of an entry by its fields.

ghost use Rattle.std.specs.Prelude.{◌≡◌, IfOk, option_map};
ghost use Rattle.edit_entry_merge.specs.Merges as spec;
ghost use Rattle.edit_entry_merge.specs.Views.{merge_of};

use crate::choices::Side;
use crate::versions::Versions;
use bib_text::text::Text;
use edit_entries::document::RawDocument;
use std::alloc::{AllocError, Global};

/// The merge of three versions of an entry.
#[derive(Debug, Drop)]
pub enum EntryMerge {
    /// The entry isn't merged by its fields.
    Whole,
    /// The merged text.
    Merged(String),
    /// Some fields conflict. The two texts differ only in these fields.
    Fields {
        /// The merged text with the values of our side for the conflicting fields.
        ours: String,
        /// The merged text with the values of their side for the conflicting fields.
        theirs: String,
        /// The names of the conflicting fields.
        names: Vec<Text>,
    },
}

/// Merges three versions of a text with one entry by the fields of the entry. `base` is the common base, if there is one.
///
/// **Values.** Names of fields match in any ASCII case. The values of fields are compared as `are_equal_pieces` does, so `{1984}`,
/// `"1984"` and `1984` are equal. Absence is a value, too. If one side has the value of the base, the value of the other side counts. If
/// both sides have equal values, ours counts. Otherwise the field conflicts.
///
/// **Modification times.** Some programs write the time of the last change of an entry into a field. JabRef writes `modificationdate`,
/// earlier versions of JabRef wrote `timestamp`, and BibDesk writes `date-modified`. If both sides changed such a field differently, and
/// each value is one literal, the side with the greater text counts, compared byte by byte.
///
/// **Frame.** The frame of a version is its text outside of the fields: the text around the entry, its type, its key and the comments in
/// it. The side whose frame counts is chosen like that of a value. Frames are compared without the white space and the commas between the
/// fields. The text of the side whose frame counts is edited. If both sides have the frame of the base, the layout of ours counts, unless
/// only theirs changed the bytes before the first field.
///
/// **Text.** A field of that side keeps its bytes if an equal value counts. Otherwise it gets the bytes of the other side's value, or is
/// removed. Fields that only the other side has are added after the last field, in the layout of that field.
///
/// Returns `Whole` in the following cases.
///
/// - A version doesn't have exactly one entry, or its entry has no fields, or two fields with the same name.
/// - The frames conflict.
/// - No field of the edited side would stay.
/// - A field would be removed or added, and a comment is between the fields of the edited side or after the last one.
///
/// # Errors
///
/// Returns an error only if out of memory.
pub fn merge_entry(
    alloc: Global,
    base: Option<&RawDocument<'_>>,
    ours: &RawDocument<'_>,
    theirs: &RawDocument<'_>,
) -> Result<EntryMerge, AllocError>
    ensures merge { IfOk result (λ merge. merge_of merge ≡ spec.entry_merge (option_map (λ d. d.now) base.entry) ours.now theirs.now) }
{
    let Some(versions) = Versions::of(alloc, base, ours, theirs)? else {
        return Ok(EntryMerge::Whole);
    };
    let Some(main) = versions.frame_choice(alloc)? else {
        return Ok(EntryMerge::Whole);
    };
    let Some(our_text) = versions.text_for(alloc, main, Side::Ours)? else {
        return Ok(EntryMerge::Whole);
    };
    let names = versions.conflicts(alloc)?;
    if names.as_slice().is_empty() {
        return Ok(EntryMerge::Merged(our_text));
    }
    let Some(their_text) = versions.text_for(alloc, main, Side::Theirs)? else {
        return Ok(EntryMerge::Whole);
    };
    Ok(EntryMerge::Fields {
        ours: our_text,
        theirs: their_text,
        names,
    })
}
