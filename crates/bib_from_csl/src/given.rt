//! Parsed items: the members of an object of CSL-JSON, in their order.

use bib_csl::item::Content;
use bib_text::items::Items;
use bib_text::text::Text;

/// A parsed item.
#[derive(Debug, Drop)]
pub struct GivenItem {
    /// The name of the member that the key of the entry comes from: `citation-key`, or else `id`, or else `DOI`. For a record of RIS, it is
    /// `ID`.
    pub key_member: Text,
    /// The text that the key of the entry comes from.
    pub id: Text,
    /// The value of the member `type`.
    pub kind: Text,
    /// The members except `type`, and except `citation-key` and `id` with this text.
    pub fields: Items<Given>,
}

/// A member of an item.
#[derive(Debug, Drop)]
pub struct Given {
    /// The name of the member.
    pub name: Text,
    /// The value as the content of a variable, if it has that form.
    pub content: Option<Content>,
    /// Whether no part of the value is missing from the content.
    pub is_whole: bool,
}
