//! Parses a file entry by entry.

ghost use Rattle.std.specs.Prelude.{◌≡◌, [], MatchOption, IfOk, IfErr, OnOk};
ghost use Rattle.std.specs.Str.{IsCharBoundary};
ghost use Rattle.bib_text.specs.Places.{place};
ghost use Rattle.bib_syntax.specs.Blocks.{item_of};
ghost use Rattle.bib_syntax.specs.EntryReader.{HasNoEntry, IsNextEntry};
ghost use Rattle.bib_syntax.specs.Errors.{Refuses};
ghost use Rattle.bib_syntax.specs.Kept.{entry_alone};
ghost use Rattle.bib_syntax.specs.SyntaxErrors.{FileFails, Reports};
ghost use Rattle.bib_syntax.specs.Views.{entry_reading_of};

use crate::raw::fields::line_comment;
use crate::raw::file::{Item, block};
use crate::raw::reader::Reader;
use crate::raw::{ParseError, RawEntry};
use bib_text::scanner::Scanner;
use bib_text::spanned::Spanned;
use std::alloc::Global;
use std::marker::Model;

// Returns the entry of a block, or `None` for a block without an entry.
fn entry_of<'s>(item: Item<'s>) -> Option<Spanned<RawEntry<'s>>>
    ensures { MatchOption result ((item_of item.entry).entries ≡ [])
        (λ e. item_of item.entry ≡ entry_alone (entry_reading_of e)) }
{
    match item {
        Item::Entry(entry) => Some(entry),
        Item::Nothing | Item::Preamble(_) | Item::Strings(_) => None,
    }
}

// Parses blocks up to the end of the next entry, and returns it. Returns `None` at the end of the file.
fn next_entry<'s>(
    s: &mut Reader<'s, '_>,
    alloc: Global,
) -> Result<Option<Spanned<RawEntry<'s>>>, ParseError>
    ensures text { OnOk result (s.new.text ≡ s.old.text) }
    ensures found { IfOk result (λ next. MatchOption next (HasNoEntry s.old)
        (λ e. IsNextEntry s.old (entry_reading_of e) s.new)) }
    ensures fails { IfErr result (λ e. Refuses s.old.text e (Reports (FileFails s.old) e)) }
{
    'file: while let Some(c) = s.peek() {
        if c == '@' {
            let item = block(s, alloc)?;
            if let Some(entry) = entry_of(item) {
                return Ok(Some(entry));
            }
        } else if c == '%' {
            line_comment(s);
        } else {
            s.eat_until_either(b'@', b'%');
        }
    }
    Ok(None)
}

/// Parses a file entry by entry, and keeps none of the entries that it returned.
#[derive(Drop)]
pub struct EntryReader<'s> {
    scanner: Scanner<'s>,
}

impl<'s> Model for EntryReader<'s> {
    ghost use Rattle.bib_text.specs.Places.{Place};

    ghost Value = { Place };

    ghost view = { λ r. r.scanner };
}

impl<'s> EntryReader<'s> {
    /// Returns a reader at the start of `src`.
    pub fn new(src: &'s str) -> Self
        ensures { result ≡ place src.now 0 }
    {
        EntryReader {
            scanner: Scanner::new(src),
        }
    }

    /// Returns the offset up to which the text was parsed, in bytes.
    pub fn cursor(&self) -> usize
        ensures place { result ≡ self.now.at }
        ensures boundary { IsCharBoundary self.now.text result }
    {
        self.scanner.cursor()
    }

    /// Parses the file up to the end of the next entry, and returns this entry. Returns `None` if the rest of the file has no entry. Fails
    /// like `RawBibliography::parse` if this part of the file has an error, and then doesn't move.
    pub fn next_entry(&mut self, alloc: Global) -> Result<Option<Spanned<RawEntry<'s>>>, ParseError>
        ensures text { OnOk result (self.new.text ≡ self.old.text) }
        ensures boundary { OnOk result (IsCharBoundary self.new.text self.new.at) }
        ensures found { IfOk result (λ next. MatchOption next (HasNoEntry self.old)
            (λ e. IsNextEntry self.old (entry_reading_of e) self.new)) }
        ensures fails { IfErr result (λ e. Refuses self.old.text e (Reports (FileFails self.old) e)) }
    {
        let mut s = Reader::new(self.scanner.copy());
        let entry = next_entry(&mut s, alloc)?;
        self.scanner.jump(s.cursor());
        Ok(entry)
    }
}
