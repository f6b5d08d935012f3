//! Requests for entries of files.

/// A request for entries of files, or for their keys. Entries in blocks that can't be parsed don't count.
#[derive(Debug, Drop)]
pub enum Request<'a> {
    /// The keys of all entries.
    Keys,
    /// The entries with these keys.
    Get(Vec<&'a str>),
    /// The entries with a text in a field.
    Grep(Search<'a>),
    /// The cited entries, the entries and abbreviations that they refer to, transitively, and the preambles. The case of letters in keys
    /// and names matters.
    Cited(CitedKeys<'a>),
}

/// A search for a text in a field.
#[derive(Debug, Clone, Copy)]
pub struct Search<'a> {
    /// The name of the field, in any ASCII case.
    pub field: &'a str,
    /// The text to find in the source text of one piece of the field's value. The case of letters matters.
    pub part: &'a str,
}

/// The keys that a document cites.
#[derive(Debug, Drop)]
pub struct CitedKeys<'a> {
    /// The cited keys.
    pub keys: Vec<&'a str>,
    /// Whether all entries are cited.
    pub all: bool,
}
