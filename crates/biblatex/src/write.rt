//! Writing bibliographies in BibLaTeX's or BibTeX's types and fields.

ghost use Rattle.std.specs.Prelude.{◌≡◌, ◌≢◌, [], ◌∷◌, ◌++◌, ℕ, ◌-◌, ◌^◌, ◌<◌, OnOk, OnErr, IfOk, codes, string_bytes, Err, Some};
ghost use Rattle.std.specs.Io.KnownBytes.{Appends};
ghost use Rattle.bib_entry.specs.WrittenEntries.{entry_in, biblatex_entry, bibtex_entry, entries_text};
ghost use Rattle.biblatex.specs.Settled.{AreSettled};
ghost use Rattle.biblatex.specs.HandedOver.{AreHandedOver, entry_texts};
ghost use Rattle.biblatex.specs.Headline.{IsReadAgain};
ghost use Rattle.biblatex.specs.Writing.{empty_line_unless};

use crate::bibliography::Bibliography;
use crate::sink::Sink;
use bib_entry::entry::Entry;
use bib_entry::write::write_entry;
use bib_tables::dialects::Dialect;
use std::alloc::{AllocError, Global};
use thiserror::Error;

/// The error of writing a bibliography.
#[derive(Debug, Clone, Copy, PartialEq, Eq, Error)]
pub enum WriteError {
    /// The sink refused a text.
    #[error("write refused")]
    Refused,
    /// Out of memory.
    #[error("out of memory")]
    OutOfMemory,
}

impl From<AllocError> for WriteError {
    ghost use Rattle.biblatex.specs.declared.write.WriteError.TheVariants.{OutOfMemory};

    ghost from_gives = { λ _ error. error ≡ OutOfMemory };

    fn from(_error: AllocError) -> WriteError {
        WriteError::OutOfMemory
    }
}

// Appends an entry and a line feed to `out`, after an empty line unless the entry is the first.
fn write_next(
    alloc: Global,
    out: &mut String,
    entry: &Entry,
    is_first: bool,
    dialect: Dialect,
) -> Result<(), AllocError>
    ensures { OnOk result (string_bytes out.new ≡ string_bytes out.old ++
        (empty_line_unless is_first ++ (entry_in dialect entry.now ++ codes "\n"))) }
{
    if !is_first {
        out.push('\n')?;
    }
    write_entry(alloc, out, entry, dialect)?;
    out.push('\n')?;
    Ok(())
}

// Returns the text of entries.
fn text_of(alloc: Global, entries: &[Entry], dialect: Dialect) -> Result<String, AllocError>
    ensures { IfOk result (λ text. string_bytes text ≡ entries_text (entry_in dialect) entries.now) }
{
    let mut out = String::new(alloc);
    let mut is_first = true;
    'entries: for entry in entries {
        write_next(alloc, &mut out, entry, is_first, dialect)?;
        is_first = false;
    }
    Ok(out)
}

// Passes the text of an entry and a line feed to a sink, after an empty line unless the entry is the first.
fn hand_next<K: Sink>(
    alloc: Global,
    sink: &mut K,
    entry: &Entry,
    is_first: bool,
    dialect: Dialect,
) -> Result<(), WriteError>
    ensures written { OnOk result (Appends (K.taken sink.old) (K.taken sink.new)
        (empty_line_unless is_first ++ (entry_in dialect entry.now ++ codes "\n"))) }
    ensures same { result ≢ Err WriteError.Refused → K.refusals sink.new ≡ K.refusals sink.old }
    ensures refused { result ≡ Err WriteError.Refused → K.refusals sink.old < 2 ^ 64 - 1 →
        K.refusals sink.old < K.refusals sink.new }
    ensures handed { AreHandedOver K.hands_over sink.old
        ((empty_line_unless is_first ++ (entry_in dialect entry.now ++ codes "\n")) ∷ []) sink.new result }
{
    let mut text = String::new(alloc);
    write_next(alloc, &mut text, entry, is_first, dialect)?;
    if sink.write_str(&text) {
        Ok(())
    } else {
        Err(WriteError::Refused)
    }
}

// Passes entries to a sink, one text for each entry.
fn hand<K: Sink>(
    alloc: Global,
    sink: &mut K,
    entries: &[Entry],
    dialect: Dialect,
) -> Result<(), WriteError>
    ensures written { OnOk result (Appends (K.taken sink.old) (K.taken sink.new)
        (entries_text (entry_in dialect) entries.now)) }
    ensures same { result ≢ Err WriteError.Refused → K.refusals sink.new ≡ K.refusals sink.old }
    ensures refused { result ≡ Err WriteError.Refused → K.refusals sink.old < 2 ^ 64 - 1 →
        K.refusals sink.old < K.refusals sink.new }
    ensures handed { AreHandedOver K.hands_over sink.old (entry_texts (entry_in dialect) entries.now)
        sink.new result }
{
    let mut is_first = true;
    'entries: for entry in entries {
        hand_next(alloc, sink, entry, is_first, dialect)?;
        is_first = false;
    }
    Ok(())
}

impl Bibliography {
    /// Returns the bibliography as a text with escapes, in BibLaTeX's types and fields. An unknown command was parsed as
    /// plain text, so it is escaped: `\emph{x}` is written `\\emph\{x\}`. Outside verbatim fields and math, `~` is written
    /// `\textasciitilde{}`. The edits of `bibkit` and its `convert --to biblatex` keep such commands.
    ///
    /// Each entry is written as by [`Entry::to_biblatex_string`], with a line feed after it and an empty line between two
    /// entries. The output for a settled bibliography parses back to its entries in order, with types and field names mapped
    /// to BibLaTeX's and with equal styled texts. If two fields of an entry have the same mapped name, only the last one in
    /// the order of their own names remains. The only error is out of memory.
    pub fn to_biblatex_string(&self, alloc: Global) -> Result<String, AllocError>
        ensures text { IfOk result (λ text. string_bytes text ≡
            entries_text biblatex_entry self.now.entries) }
        ensures reread { AreSettled self.now.entries → IfOk result (λ text.
            IsReadAgain self.now.entries (string_bytes text)) }
    {
        text_of(alloc, self.as_slice(), Dialect::Biblatex)
    }

    /// Returns the bibliography as a text with escapes, in BibTeX's types and fields. An unknown command was parsed as plain
    /// text, so it is escaped: `\emph{x}` is written `\\emph\{x\}`. Outside verbatim fields and math, `~` is written
    /// `\textasciitilde{}`. The edits of `bibkit` and its `convert --to bibtex` keep such commands.
    ///
    /// Each entry is written as by [`Entry::to_bibtex_string`], with a line feed after it and an empty line between two
    /// entries. The only error is out of memory.
    pub fn to_bibtex_string(&self, alloc: Global) -> Result<String, AllocError>
        ensures { IfOk result (λ text. string_bytes text ≡
            entries_text bibtex_entry self.now.entries) }
    {
        text_of(alloc, self.as_slice(), Dialect::Bibtex)
    }

    /// Writes the text of [`Self::to_biblatex_string`] to a sink, with the same escapes: an unknown command is written as
    /// plain text. The edits of `bibkit` and its `convert --to biblatex` keep such commands.
    ///
    /// The sink receives the text of each entry whole, in one call. Only the text of one entry is allocated at a time. The
    /// error `Refused` means that the sink refused a text: it has taken the texts before that one, and receives no others. The
    /// error `OutOfMemory` means that memory ran out before a text: the sink has taken those before it, and receives no others.
    pub fn write_biblatex<K: Sink>(&self, alloc: Global, sink: &mut K) -> Result<(), WriteError>
        ensures written { OnOk result (Appends (K.taken sink.old) (K.taken sink.new)
            (entries_text biblatex_entry self.now.entries)) }
        ensures same { result ≢ Err WriteError.Refused →
            K.refusals sink.new ≡ K.refusals sink.old }
        ensures refused { result ≡ Err WriteError.Refused → K.refusals sink.old < 2 ^ 64 - 1 →
            K.refusals sink.old < K.refusals sink.new }
        ensures handed { AreHandedOver K.hands_over sink.old
            (entry_texts biblatex_entry self.now.entries) sink.new result }
    {
        hand(alloc, sink, self.as_slice(), Dialect::Biblatex)
    }

    /// Writes the text of [`Self::to_bibtex_string`] to a sink, with the same escapes: an unknown command is written as plain
    /// text. The edits of `bibkit` and its `convert --to bibtex` keep such commands.
    ///
    /// The sink is used as by [`Self::write_biblatex`].
    pub fn write_bibtex<K: Sink>(&self, alloc: Global, sink: &mut K) -> Result<(), WriteError>
        ensures written { OnOk result (Appends (K.taken sink.old) (K.taken sink.new)
            (entries_text bibtex_entry self.now.entries)) }
        ensures same { result ≢ Err WriteError.Refused →
            K.refusals sink.new ≡ K.refusals sink.old }
        ensures refused { result ≡ Err WriteError.Refused → K.refusals sink.old < 2 ^ 64 - 1 →
            K.refusals sink.old < K.refusals sink.new }
        ensures handed { AreHandedOver K.hands_over sink.old
            (entry_texts bibtex_entry self.now.entries) sink.new result }
    {
        hand(alloc, sink, self.as_slice(), Dialect::Bibtex)
    }
}
