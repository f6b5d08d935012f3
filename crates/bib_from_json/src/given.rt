//! Parsed entries, in the order of the JSON.

use bib_chunks::chunk::Chunks;
use bib_text::items::Items;
use bib_text::text::Text;

/// A parsed field.
#[derive(Debug, Drop)]
pub struct GivenField {
    /// The name of the field.
    pub name: Text,
    /// The chunks of the field. Their spans are detached: both ends are `usize::MAX`.
    pub chunks: Chunks,
}

/// A parsed entry.
#[derive(Debug, Drop)]
pub struct GivenEntry {
    /// The name of the type.
    pub kind: Text,
    /// The key of the entry.
    pub key: Text,
    /// The fields, in their order in the JSON.
    pub fields: Items<GivenField>,
}
