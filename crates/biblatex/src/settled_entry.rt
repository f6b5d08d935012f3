//! Decides whether an entry is settled.

ghost use Rattle.std.specs.Prelude.{◌≡◌, ◌↔◌, IsTrue, bytes_eq, not};
ghost use Rattle.std.specs.Char.{is_ascii_uppercase};
ghost use Rattle.std.specs.List.{list_all, list_any};
ghost use Rattle.biblatex.specs.Settled.{IsIdentifier, IsKey, IsSettledEntry, IsSettledField, IsSettledName, link_names};

use bib_chunks::chunk::ChunksRef;
use bib_chunks::settling::is_settled;
use bib_entry::entry::Entry;
use bib_syntax::raw::{is_id_continue, is_id_start, is_key};
use bib_tables::fields::is_verbatim_field;
use bib_text::scanner::Scanner;

// Returns whether the text consists of key characters. It may be empty.
fn is_whole_key(text: &str) -> bool
    ensures { IsTrue result ↔ IsKey text.now }
{
    let mut scanner = Scanner::new(text);
    scanner.eat_while(|c| is_key(c));
    scanner.done()
}

// Returns whether the whole text is an identifier.
fn is_identifier(text: &str) -> bool
    ensures { IsTrue result ↔ IsIdentifier text.now }
{
    let mut scanner = Scanner::new(text);
    let Some(first) = scanner.eat() else {
        return false;
    };
    if !is_id_start(first) {
        return false;
    }
    scanner.eat_while(|c| is_id_continue(c));
    scanner.done()
}

// Returns whether the text has no uppercase ASCII letter.
fn is_small(text: &str) -> bool
    ensures { result ≡ list_all (λ b. not (is_ascii_uppercase b)) text.now }
{
    text.as_bytes()
        .iter()
        .all(|byte| !byte.is_ascii_uppercase())
}

// Returns whether a field of this name claims names for its entry, or names entries from which it inherits.
fn is_linking(name: &str) -> bool
    ensures { result ≡ list_any (bytes_eq name.now) link_names }
{
    matches!(name, "ids" | "crossref" | "xdata")
}

// Returns whether a field name is settled: an identifier without uppercase ASCII letters, and none of `ids`, `crossref` and
// `xdata`.
fn is_settled_name(name: &str) -> bool
    ensures { IsTrue result ↔ IsSettledName name.now }
{
    if !is_identifier(name) {
        return false;
    }
    if !is_small(name) {
        return false;
    }
    !is_linking(name)
}

// Returns whether a field is settled.
fn is_settled_field(name: &str, chunks: ChunksRef<'_>) -> bool
    ensures { IsTrue result ↔ IsSettledField (name.now, chunks.now) }
{
    is_settled_name(name) && is_settled(chunks, is_verbatim_field(name))
}

// Returns whether an entry is settled: its key consists of key characters, and each value is settled. Each field name is an
// identifier without uppercase ASCII letters and none of `ids`, `crossref` and `xdata`. Does not allocate.
pub(crate) fn is_settled_entry(entry: &Entry) -> bool
    ensures { IsTrue result ↔ IsSettledEntry entry.now }
{
    'fields: for (name, chunks) in &entry.fields {
        if !is_settled_field(name.as_str(), chunks.as_slice()) {
            return false;
        }
    }
    is_whole_key(entry.key.as_str())
}
