//! The frame of a version, and the side whose frame counts.

ghost use Rattle.std.specs.Prelude.{◌≡◌, ◌++◌, false, IfOk, OnOk, map};
ghost use Rattle.bib_syntax.specs.Views.{field_of};
ghost use Rattle.edit_entry_merge.specs.Frames as spec;
ghost use Rattle.edit_entry_merge.specs.Mixed as mixed;
ghost use Rattle.edit_entry_merge.specs.Working.{version_reading, versions_reading};

use crate::choices::{Side, choose};
use crate::versions::{Version, Versions};
use bib_queries::bytes::stretch;
use bib_syntax::raw::{Pair, is_word};
use std::alloc::{AllocError, Global};

// Returns the bytes of a text from `start` to `end` that are outside of these fields.
fn outside_fields(
    alloc: Global,
    text: &str,
    start: usize,
    fields: &[Pair<'_>],
    end: usize,
) -> Result<Vec<u8>, AllocError>
    ensures { IfOk result (λ outside. outside.items ≡ spec.outside_of_fields text.now start (map field_of fields.now) end) }
{
    let mut outside = Vec::new(alloc);
    let mut at = start;
    'fields: for field in fields {
        outside.extend_from_slice(stretch(text, at, field.key.span.start))?;
        at = field.value.span.end;
    }
    outside.extend_from_slice(stretch(text, at, end))?;
    Ok(outside)
}

// Returns a text without the white space and the commas outside of its comments.
fn without_layout(alloc: Global, bytes: &[u8]) -> Result<Vec<u8>, AllocError>
    ensures { IfOk result (λ kept. kept.items ≡ spec.without_layout false bytes.now) }
{
    let mut kept = Vec::new(alloc);
    let mut in_comment = false;
    'bytes: for byte in bytes {
        let is_layout = byte.is_ascii_whitespace() || *byte == b',';
        if in_comment || !is_layout {
            kept.push(*byte)?;
        }
        in_comment = if in_comment {
            *byte != b'\n'
        } else {
            *byte == b'%'
        };
    }
    Ok(kept)
}

impl<'a, 's> Version<'a, 's> {
    // Returns the bytes of the text before the entry.
    fn before_entry(&self) -> &'s [u8]
        ensures { result.now ≡ spec.text_before_entry (version_reading self.now) }
    {
        stretch(self.text, 0, self.entry.span.start)
    }

    // Returns the bytes of the text after the entry, from the closing brace on.
    fn behind_entry(&self) -> &'s [u8]
        ensures { result.now ≡ spec.text_behind_entry (version_reading self.now) }
    {
        stretch(self.text, self.entry.span.end, self.text.len())
    }

    // Returns the bytes of the text before the first field.
    fn before_fields(&self) -> &'s [u8]
        ensures { result.now ≡ spec.text_before_fields (version_reading self.now) }
    {
        let start = match self.entry.v.fields.as_slice() {
            [first, ..] => first.key.span.start,
            [] => self.entry.span.end,
        };
        stretch(self.text, 0, start)
    }

    // Returns the bytes of the entry after its type and outside of its fields, without layout.
    fn inner_frame(&self, alloc: Global) -> Result<Vec<u8>, AllocError>
        ensures { IfOk result (λ frame. frame.items ≡ spec.inner_frame (version_reading self.now)) }
    {
        let entry = self.entry;
        let start = entry.v.kind.span.end;
        let outside = outside_fields(alloc, self.text, start, &entry.v.fields, entry.span.end)?;
        without_layout(alloc, &outside)
    }

    // Returns whether a comment is between the fields or after the last one.
    pub(crate) fn has_inner_comment(&self, alloc: Global) -> Result<bool, AllocError>
        ensures { IfOk result (λ has. has ≡ mixed.has_inner_comment (version_reading self.now)) }
    {
        let [first, others @ ..] = self.entry.v.fields.as_slice() else {
            return Ok(false);
        };
        let start = first.value.span.end;
        let gaps = outside_fields(alloc, self.text, start, others, self.entry.span.end)?;
        Ok(gaps.contains(&b'%'))
    }

    // Returns whether the frames of two versions are equal except for the layout.
    fn has_alike_frame(&self, alloc: Global, other: &Version<'_, '_>) -> Result<bool, AllocError>
        ensures { IfOk result (λ alike. alike ≡ spec.are_alike_frames (version_reading self.now) (version_reading other.now)) }
    {
        let own = self.entry;
        let found = other.entry;
        if !is_word(own.v.kind.v, found.v.kind.v) {
            return Ok(false);
        }
        if self.before_entry() != other.before_entry() {
            return Ok(false);
        }
        if self.behind_entry() != other.behind_entry() {
            return Ok(false);
        }
        let own_frame = self.inner_frame(alloc)?;
        let found_frame = other.inner_frame(alloc)?;
        Ok(own_frame.as_slice() == found_frame.as_slice())
    }

    // Returns whether two versions have alike frames, and the same bytes before the first field.
    fn has_same_frame(&self, alloc: Global, other: &Version<'_, '_>) -> Result<bool, AllocError>
        ensures { IfOk result (λ same. same ≡ spec.are_same_frames (version_reading self.now) (version_reading other.now)) }
    {
        if self.before_fields() != other.before_fields() {
            return Ok(false);
        }
        self.has_alike_frame(alloc, other)
    }
}

// Returns the side whose frame and layout count, given the base, or none if the frames conflict.
fn choice_by_base(
    alloc: Global,
    base: &Version<'_, '_>,
    ours: &Version<'_, '_>,
    theirs: &Version<'_, '_>,
) -> Result<Option<Side>, AllocError>
    ensures { IfOk result (λ side. side ≡
        spec.choice_by_base (version_reading base.now) (version_reading ours.now) (version_reading theirs.now)) }
{
    if theirs.has_same_frame(alloc, base)? {
        return Ok(Some(Side::Ours));
    }
    if ours.has_same_frame(alloc, base)? {
        return Ok(Some(Side::Theirs));
    }
    Ok(choose(
        theirs.has_alike_frame(alloc, base)?,
        ours.has_alike_frame(alloc, base)?,
        theirs.has_alike_frame(alloc, ours)?,
    ))
}

impl<'a, 's> Versions<'a, 's> {
    // Returns the side whose frame and layout count, or none if the frames conflict.
    pub(crate) fn frame_choice(&self, alloc: Global) -> Result<Option<Side>, AllocError>
        ensures { IfOk result (λ side. side ≡ spec.frame_choice (versions_reading self.now)) }
    {
        match &self.base {
            Some(base) => choice_by_base(alloc, base, &self.ours, &self.theirs),
            None => Ok(choose(
                false,
                false,
                self.theirs.has_alike_frame(alloc, &self.ours)?,
            )),
        }
    }
}
