//! Parses and writes BibTeX and BibLaTeX files.
//!
//! `Bibliography::parse` parses a text and resolves the references between its entries. `Bibliography::recover` also accepts
//! texts with errors: it returns the entries and fields that it can load, and the errors. `Entry` has typed getters and setters
//! for 93 fields.
#![tactic(auto)]

pub mod bibliography;
pub mod laws;
pub mod recovery;
mod settled;
mod settled_entry;
pub mod sink;
pub mod write;

pub use bib_abbreviations::parsing::parse_field;
pub use bib_abbreviations::reader::FieldReader;
pub use bib_chunks::chunk::{Chunk, Chunks, ChunksRef, Span, Spanned};
pub use bib_chunks::settling::is_settled;
pub use bib_collections::text_map::TextMap;
pub use bib_contents::classes::is_escapable;
pub use bib_dates::date::{Date, DateValue, Datetime, Time, TimeOffset};
pub use bib_dates::separators::{parse_colon, parse_hyphen};
pub use bib_entry::entry::Entry;
pub use bib_entry::report::Report;
pub use bib_people::person::Person;
pub use bib_source::decoding::{Decoded, Encoding, decode};
pub use bib_syntax::raw::{
    BiblatexParser, Field, Pair, ParseError, ParseErrorKind, RawBibliography, RawChunk, RawEntry,
    RawRecovery, SkippedBlock, Token, is_id_continue, is_id_start, is_key,
};
pub use bib_tables::fields::is_verbatim_field;
pub use bib_tables::mechanics::{AuthorMode, EntryType, PagesChapterMode, Requirements, Row};
pub use bib_tables::type_error::{TypeError, TypeErrorKind};
pub use bib_tables::types::lang::Language;
pub use bib_tables::types::{EditorType, Gender, NameError, Pagination};
pub use bib_text::items::Items;
pub use bib_text::scanner::Scanner;
pub use bib_text::text::Text;
pub use bib_typed::ext::ChunksExt;
pub use bib_typed::retrieval::RetrievalError;
pub use bib_typed::setting::SetError;
pub use bib_typed::typed::{PermissiveType, Type};
pub use bibliography::{Bibliography, InsertError, Keys};
pub use recovery::BibliographyRecovery;
pub use sink::{Output, Sink};
pub use write::WriteError;
