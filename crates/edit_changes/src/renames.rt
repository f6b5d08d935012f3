//! Renamed entries: those that are equal except for the key and the layout, and that no other entry is equal to.

ghost use Rattle.std.specs.Prelude.{◌≡◌, ◌==◌, ◌++◌, IfOk, OnOk, bytes_eq, count_by, map, option_map, slice_get};
ghost use Rattle.std.specs.List.{flat_map};
ghost use Rattle.bib_syntax.specs.Views.{entry_reading_of, field_of, piece_of};
ghost use Rattle.edit_units.specs.Views.{unit_reading_of};
ghost use Rattle.edit_changes.specs.Changes as changes;
ghost use Rattle.edit_changes.specs.Renames as spec;
ghost use Rattle.edit_changes.specs.Counts.{AreCounts};

use bib_collections::claims::Claims;
use bib_syntax::raw::{Pair, RawChunk, RawEntry};
use bib_text::spanned::Spanned;
use bib_text::text::Text;
use edit_units::units::Unit;
use edit_versions::alike::single_entry;
use edit_versions::names::{indices_of, words_with_spaces};
use edit_versions::version::Version;
use std::alloc::{AllocError, Global};
use std::marker::Model;

// Appends the words of a piece, after a line feed and a sign that says whether it is a literal. No word has a line feed.
fn push_piece(
    alloc: Global,
    content: &mut Text,
    piece: &Spanned<RawChunk<'_>>,
) -> Result<(), AllocError>
    ensures { OnOk result (content.new ≡ content.old ++ spec.piece_content (piece_of piece.now)) }
{
    let (sign, text) = match piece.v {
        RawChunk::Normal(text) => ("\n=", text),
        RawChunk::Abbreviation(name) => ("\n#", name),
    };
    let words = words_with_spaces(alloc, text)?;
    content.push_str(sign)?;
    content.push_str(words.as_str())
}

// Appends the words of pieces.
fn push_pieces(
    alloc: Global,
    content: &mut Text,
    pieces: &[Spanned<RawChunk<'_>>],
) -> Result<(), AllocError>
    ensures { OnOk result (content.new ≡ content.old ++ flat_map spec.piece_content (map piece_of pieces.now)) }
{
    'pieces: for piece in pieces {
        push_piece(alloc, content, piece)?;
    }
    Ok(())
}

// Appends the name of a field in ASCII lowercase, after a line feed, and the words of its value.
fn push_field(alloc: Global, content: &mut Text, field: &Pair<'_>) -> Result<(), AllocError>
    ensures { OnOk result (content.new ≡ content.old ++ spec.field_content (field_of field.now)) }
{
    let name = field.key.v.to_ascii_lowercase(alloc)?;
    content.push_str("\n")?;
    content.push_str(name.as_str())?;
    push_pieces(alloc, content, &field.value.v)
}

// Returns the content of an entry without its key: its type in ASCII lowercase, and its fields.
fn entry_content(alloc: Global, entry: &Spanned<RawEntry<'_>>) -> Result<Text, AllocError>
    ensures { IfOk result (λ content. content ≡ spec.keyless_content (entry_reading_of entry.now)) }
{
    let kind = entry.v.kind.v.to_ascii_lowercase(alloc)?;
    let mut content = Text::from_string(kind);
    'fields: for field in &entry.v.fields {
        push_field(alloc, &mut content, field)?;
    }
    Ok(content)
}

// Returns the content of the only entry of a unit, without its key, or an empty text for another unit.
fn unit_content(alloc: Global, unit: Option<&Unit<'_>>) -> Result<Text, AllocError>
    ensures { IfOk result (λ content. content ≡ spec.keyless_unit_content (option_map (λ u. unit_reading_of u.now) unit.entry)) }
{
    match unit {
        Some(unit) => match single_entry(unit) {
            Some(entry) => entry_content(alloc, entry),
            None => Ok(Text::new(alloc)),
        },
        None => Ok(Text::new(alloc)),
    }
}

// Returns the content of the unit at an index if another version lacks its name, and otherwise an empty text.
fn lone_content(
    alloc: Global,
    version: &Version<'_>,
    other: &Version<'_>,
    index: usize,
    name: &str,
) -> Result<Text, AllocError>
    ensures { IfOk result (λ content. content ≡ spec.lone_content version.now other.now (index, name.now)) }
{
    if other.index_of(name).is_some() {
        return Ok(Text::new(alloc));
    }
    unit_content(alloc, version.unit_at(Some(index)))
}

// Returns the contents of the units that the other version lacks. The others have an empty text.
fn lone_contents(
    alloc: Global,
    version: &Version<'_>,
    other: &Version<'_>,
) -> Result<Vec<Text>, AllocError>
    ensures { IfOk result (λ contents. contents.items ≡ spec.lone_contents version.now other.now) }
{
    let mut contents = Vec::new(alloc);
    let names = version.names();
    'names: for (index, name) in names.iter().enumerate() {
        contents.push(lone_content(alloc, version, other, index, name.as_str())?)?;
    }
    Ok(contents)
}

// Returns the number of times that each text occurs.
fn counts_of(alloc: Global, texts: &[Text]) -> Result<Claims, AllocError>
    ensures { IfOk result (λ counts. AreCounts texts.now counts) }
{
    let mut counts = Claims::new(alloc);
    'texts: for text in texts {
        let own = Text::from_str(alloc, text.as_str())?;
        let number = counts.get(own.as_str()).unwrap_or(0);
        counts.claim(own, number + 1)?;
    }
    Ok(counts)
}

/// The contents of the units that another version lacks. Contracts see them as a list, with an empty text for each other unit.
#[derive(Drop)]
pub(crate) struct LoneContents {
    contents: Vec<Text>,
    counts: Claims,
    indices: Claims,
}

impl Model for LoneContents {
    ghost use Rattle.std.specs.Prelude.{◌≡◌, ℕ, List};
    ghost use Rattle.edit_changes.specs.Counts.{AreCounts};
    ghost use Rattle.edit_versions.specs.Versions.{indices_of};

    ghost Value = { List (List ℕ) };

    ghost view = { λ c. c.contents.items };

    ghost invariant = { λ c. AreCounts c.contents.items c.counts × (c.indices ≡ indices_of c.contents.items) };
}

impl LoneContents {
    /// Returns the contents of the units that `other` lacks. Returns an error only if out of memory.
    pub(crate) fn of(
        alloc: Global,
        version: &Version<'_>,
        other: &Version<'_>,
    ) -> Result<Self, AllocError>
        ensures { IfOk result (λ contents. contents ≡ spec.lone_contents version.now other.now) }
    {
        let contents = lone_contents(alloc, version, other)?;
        let counts = counts_of(alloc, &contents)?;
        let indices = indices_of(alloc, &contents)?;
        Ok(LoneContents {
            contents,
            counts,
            indices,
        })
    }

    // Returns whether a content occurs exactly once.
    fn has_one(&self, content: &str) -> bool
        ensures { result ≡ (count_by (bytes_eq content.now) self.now == 1) }
    {
        self.counts.get(content).unwrap_or(0) == 1
    }

    // Returns the index of the only content that is equal to one, if exactly one is.
    fn only_index(&self, content: &str) -> Option<usize>
        ensures { result ≡ spec.only_index self.now content.now }
    {
        if self.has_one(content) {
            self.indices.get(content)
        } else {
            None
        }
    }

    // Returns the index of the only one of the other contents that is equal to one, if that isn't empty and occurs once here.
    fn counterpart(&self, others: &LoneContents, content: &str) -> Option<usize>
        ensures { result ≡ spec.counterpart self.now others.now content.now }
    {
        if !content.is_empty() && self.has_one(content) {
            others.only_index(content)
        } else {
            None
        }
    }

    // Returns the content of the unit at an index, if there is one.
    fn content_at(&self, index: usize) -> Option<&Text>
        ensures { option_map (λ content. content.now) result ≡ slice_get self.now index }
    {
        self.contents.get(index)
    }

    /// Returns the index of the unit of the other version that the unit at an index was renamed from or to, if there is one. `others` are
    /// the contents of the units of the other version.
    pub(crate) fn renamed_index(&self, others: &LoneContents, index: usize) -> Option<usize>
        ensures { result ≡ spec.renamed_index self.now others.now (slice_get self.now index) }
    {
        match self.content_at(index) {
            Some(content) => self.counterpart(others, content.as_str()),
            None => None,
        }
    }
}

/// Returns for each unit of an old version the index in the new version of the entry that it was renamed to, if there is one. Returns an
/// error only if out of memory.
pub fn renamed_indices(
    alloc: Global,
    old: &Version<'_>,
    new: &Version<'_>,
) -> Result<Vec<Option<usize>>, AllocError>
    ensures { IfOk result (λ indices. indices.items ≡ changes.renamed_indices old.now new.now) }
{
    let old_contents = LoneContents::of(alloc, old, new)?;
    let new_contents = LoneContents::of(alloc, new, old)?;
    let mut indices = Vec::new(alloc);
    let names = old.names();
    'names: for (index, _name) in names.iter().enumerate() {
        indices.push(old_contents.renamed_index(&new_contents, index))?;
    }
    Ok(indices)
}
