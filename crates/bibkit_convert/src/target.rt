//! The formats that a bibliography is converted to.

ghost use Rattle.std.specs.Prelude.{◌≡◌, IfOk};
ghost use Rattle.std.specs.String.{string_bytes};
ghost use Rattle.bibkit_convert.specs.Converted as spec;

use bib_csl::objects::item_text_in;
use bib_csl::sentence_items::TitleCase;
use bib_json::arrays::{array_end, before_element};
use bib_ris::records::record_text;
use biblatex::{Entry, EntryType};
use std::alloc::{AllocError, Global};

/// A format that a bibliography is converted to.
#[derive(Debug, Clone, Copy, PartialEq, Eq)]
pub enum Target {
    /// CSL-JSON items, which citation processors read, with their titles in this case.
    Csl(TitleCase),
    /// Entries with chunks and typed values, as JSON.
    Json,
    /// RIS records, which reference managers import.
    Ris,
}

impl Target {
    // Returns whether the format has the entry: CSL-JSON and RIS have no entry of the type `xdata`.
    pub(crate) fn has(self, entry: &Entry) -> bool
        ensures { result ≡ spec.is_written self entry.now }
    {
        match self {
            Target::Json => true,
            Target::Csl(_) | Target::Ris => entry.entry_type != EntryType::XData,
        }
    }

    // Returns the text of an entry in the format.
    pub(crate) fn text_of(self, alloc: Global, entry: &Entry) -> Result<String, AllocError>
        ensures { IfOk result (λ text. string_bytes text ≡ spec.exported_entry self entry.now) }
    {
        match self {
            Target::Csl(titles) => item_text_in(alloc, titles, entry),
            Target::Json => bib_json::entries::entry_text(alloc, entry),
            Target::Ris => record_text(alloc, entry),
        }
    }

    // Returns the separator before an entry, which depends on whether the entry is the first.
    pub(crate) fn before(self, is_first: bool) -> &'static str
        ensures { result.now ≡ spec.before_next self is_first }
    {
        match self {
            Target::Csl(_) | Target::Json => before_element(is_first),
            Target::Ris => "",
        }
    }

    /// Returns the text after the last entry. `is_empty` says whether no entry is printed.
    pub fn end(self, is_empty: bool) -> &'static str
        ensures { result.now ≡ spec.end self is_empty }
    {
        match self {
            Target::Csl(_) | Target::Json => array_end(is_empty),
            Target::Ris => "",
        }
    }
}
