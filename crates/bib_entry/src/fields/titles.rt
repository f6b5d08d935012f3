//! Getters and setters of the fields of titles that BibTeX lacks.

ghost use Rattle.std.specs.Prelude.{codes};
ghost use Rattle.bib_entry.specs.Fields.{GetsChunks, SetsChunks};

use crate::entry::Entry;
use bib_chunks::chunk::{Chunks, ChunksRef};
use bib_typed::retrieval::RetrievalError;
use bib_typed::setting::SetError;
use std::alloc::Global;

impl Entry {
    /// Returns the field `booksubtitle`: the subtitle of the book that the work is a part of (BibLaTeX manual, 2.2.2). If
    /// it is missing, the error is `Missing` with the name `booksubtitle`, or out of memory.
    pub fn book_subtitle(&self, alloc: Global) -> Result<ChunksRef<'_>, RetrievalError>
        ensures { GetsChunks self.now (codes "booksubtitle") result }
    {
        self.chunks_of_field(alloc, "booksubtitle")
    }

    /// Sets the field `booksubtitle`: the subtitle of the book that the work is a part of. Returns the previous chunks. If
    /// memory runs out, the entry stays unchanged, and the error contains the new chunks.
    pub fn set_book_subtitle(&mut self, chunks: Chunks) -> Result<Option<Chunks>, SetError>
        ensures { SetsChunks chunks (codes "booksubtitle") self.old self.new result }
    {
        self.set("booksubtitle", chunks)
    }

    /// Returns the field `booktitleaddon`: the text after the title of the book that the work is a part of (BibLaTeX
    /// manual, 2.2.2). If it is missing, the error is `Missing` with the name `booktitleaddon`, or out of memory.
    pub fn book_title_addon(&self, alloc: Global) -> Result<ChunksRef<'_>, RetrievalError>
        ensures { GetsChunks self.now (codes "booktitleaddon") result }
    {
        self.chunks_of_field(alloc, "booktitleaddon")
    }

    /// Sets the field `booktitleaddon`: the text after the title of the book that the work is a part of. Returns the
    /// previous chunks. If memory runs out, the entry stays unchanged, and the error contains the new chunks.
    pub fn set_book_title_addon(&mut self, chunks: Chunks) -> Result<Option<Chunks>, SetError>
        ensures { SetsChunks chunks (codes "booktitleaddon") self.old self.new result }
    {
        self.set("booktitleaddon", chunks)
    }

    /// Returns the field `eventtitle`: the title of the conference (BibLaTeX manual, 2.2.2). If it is missing, the error is
    /// `Missing` with the name `eventtitle`, or out of memory.
    pub fn eventtitle(&self, alloc: Global) -> Result<ChunksRef<'_>, RetrievalError>
        ensures { GetsChunks self.now (codes "eventtitle") result }
    {
        self.chunks_of_field(alloc, "eventtitle")
    }

    /// Sets the field `eventtitle`: the title of the conference. Returns the previous chunks. If memory runs out, the entry
    /// stays unchanged, and the error contains the new chunks.
    pub fn set_eventtitle(&mut self, chunks: Chunks) -> Result<Option<Chunks>, SetError>
        ensures { SetsChunks chunks (codes "eventtitle") self.old self.new result }
    {
        self.set("eventtitle", chunks)
    }

    /// Returns the field `eventtitleaddon`: the text after the title of the conference (BibLaTeX manual, 2.2.2). If it is
    /// missing, the error is `Missing` with the name `eventtitleaddon`, or out of memory.
    pub fn eventtitle_addon(&self, alloc: Global) -> Result<ChunksRef<'_>, RetrievalError>
        ensures { GetsChunks self.now (codes "eventtitleaddon") result }
    {
        self.chunks_of_field(alloc, "eventtitleaddon")
    }

    /// Sets the field `eventtitleaddon`: the text after the title of the conference. Returns the previous chunks. If memory
    /// runs out, the entry stays unchanged, and the error contains the new chunks.
    pub fn set_eventtitle_addon(&mut self, chunks: Chunks) -> Result<Option<Chunks>, SetError>
        ensures { SetsChunks chunks (codes "eventtitleaddon") self.old self.new result }
    {
        self.set("eventtitleaddon", chunks)
    }

    /// Returns the field `indextitle`: the title in an index (BibLaTeX manual, 2.2.2). If it is missing, the error is
    /// `Missing` with the name `indextitle`, or out of memory.
    pub fn index_title(&self, alloc: Global) -> Result<ChunksRef<'_>, RetrievalError>
        ensures { GetsChunks self.now (codes "indextitle") result }
    {
        self.chunks_of_field(alloc, "indextitle")
    }

    /// Sets the field `indextitle`: the title in an index. Returns the previous chunks. If memory runs out, the entry stays
    /// unchanged, and the error contains the new chunks.
    pub fn set_index_title(&mut self, chunks: Chunks) -> Result<Option<Chunks>, SetError>
        ensures { SetsChunks chunks (codes "indextitle") self.old self.new result }
    {
        self.set("indextitle", chunks)
    }

    /// Returns the field `issuesubtitle`: the subtitle of an issue (BibLaTeX manual, 2.2.2). If it is missing, the error is
    /// `Missing` with the name `issuesubtitle`, or out of memory.
    pub fn issue_subtitle(&self, alloc: Global) -> Result<ChunksRef<'_>, RetrievalError>
        ensures { GetsChunks self.now (codes "issuesubtitle") result }
    {
        self.chunks_of_field(alloc, "issuesubtitle")
    }

    /// Sets the field `issuesubtitle`: the subtitle of an issue. Returns the previous chunks. If memory runs out, the entry
    /// stays unchanged, and the error contains the new chunks.
    pub fn set_issue_subtitle(&mut self, chunks: Chunks) -> Result<Option<Chunks>, SetError>
        ensures { SetsChunks chunks (codes "issuesubtitle") self.old self.new result }
    {
        self.set("issuesubtitle", chunks)
    }

    /// Returns the field `issuetitle`: the title of an issue (BibLaTeX manual, 2.2.2). If it is missing, the error is
    /// `Missing` with the name `issuetitle`, or out of memory.
    pub fn issue_title(&self, alloc: Global) -> Result<ChunksRef<'_>, RetrievalError>
        ensures { GetsChunks self.now (codes "issuetitle") result }
    {
        self.chunks_of_field(alloc, "issuetitle")
    }

    /// Sets the field `issuetitle`: the title of an issue. Returns the previous chunks. If memory runs out, the entry stays
    /// unchanged, and the error contains the new chunks.
    pub fn set_issue_title(&mut self, chunks: Chunks) -> Result<Option<Chunks>, SetError>
        ensures { SetsChunks chunks (codes "issuetitle") self.old self.new result }
    {
        self.set("issuetitle", chunks)
    }

    /// Returns the field `issuetitleaddon`: the text after the title of an issue (BibLaTeX manual, 2.2.2). If it is
    /// missing, the error is `Missing` with the name `issuetitleaddon`, or out of memory.
    pub fn issue_title_addon(&self, alloc: Global) -> Result<ChunksRef<'_>, RetrievalError>
        ensures { GetsChunks self.now (codes "issuetitleaddon") result }
    {
        self.chunks_of_field(alloc, "issuetitleaddon")
    }

    /// Sets the field `issuetitleaddon`: the text after the title of an issue. Returns the previous chunks. If memory runs
    /// out, the entry stays unchanged, and the error contains the new chunks.
    pub fn set_issue_title_addon(&mut self, chunks: Chunks) -> Result<Option<Chunks>, SetError>
        ensures { SetsChunks chunks (codes "issuetitleaddon") self.old self.new result }
    {
        self.set("issuetitleaddon", chunks)
    }

    /// Returns the field `journalsubtitle`: the subtitle of the journal (BibLaTeX manual, 2.2.2). If it is missing, the
    /// error is `Missing` with the name `journalsubtitle`, or out of memory.
    pub fn journal_subtitle(&self, alloc: Global) -> Result<ChunksRef<'_>, RetrievalError>
        ensures { GetsChunks self.now (codes "journalsubtitle") result }
    {
        self.chunks_of_field(alloc, "journalsubtitle")
    }

    /// Sets the field `journalsubtitle`: the subtitle of the journal. Returns the previous chunks. If memory runs out, the
    /// entry stays unchanged, and the error contains the new chunks.
    pub fn set_journal_subtitle(&mut self, chunks: Chunks) -> Result<Option<Chunks>, SetError>
        ensures { SetsChunks chunks (codes "journalsubtitle") self.old self.new result }
    {
        self.set("journalsubtitle", chunks)
    }

    /// Returns the field `journaltitleaddon`: the text after the name of the journal (BibLaTeX manual, 2.2.2). If it is
    /// missing, the error is `Missing` with the name `journaltitleaddon`, or out of memory.
    pub fn journal_title_addon(&self, alloc: Global) -> Result<ChunksRef<'_>, RetrievalError>
        ensures { GetsChunks self.now (codes "journaltitleaddon") result }
    {
        self.chunks_of_field(alloc, "journaltitleaddon")
    }

    /// Sets the field `journaltitleaddon`: the text after the name of the journal. Returns the previous chunks. If memory
    /// runs out, the entry stays unchanged, and the error contains the new chunks.
    pub fn set_journal_title_addon(&mut self, chunks: Chunks) -> Result<Option<Chunks>, SetError>
        ensures { SetsChunks chunks (codes "journaltitleaddon") self.old self.new result }
    {
        self.set("journaltitleaddon", chunks)
    }

    /// Returns the field `mainsubtitle`: the subtitle of a work in several volumes (BibLaTeX manual, 2.2.2). If it is
    /// missing, the error is `Missing` with the name `mainsubtitle`, or out of memory.
    pub fn main_subtitle(&self, alloc: Global) -> Result<ChunksRef<'_>, RetrievalError>
        ensures { GetsChunks self.now (codes "mainsubtitle") result }
    {
        self.chunks_of_field(alloc, "mainsubtitle")
    }

    /// Sets the field `mainsubtitle`: the subtitle of a work in several volumes. Returns the previous chunks. If memory
    /// runs out, the entry stays unchanged, and the error contains the new chunks.
    pub fn set_main_subtitle(&mut self, chunks: Chunks) -> Result<Option<Chunks>, SetError>
        ensures { SetsChunks chunks (codes "mainsubtitle") self.old self.new result }
    {
        self.set("mainsubtitle", chunks)
    }

    /// Returns the field `maintitle`: the title of a work in several volumes (BibLaTeX manual, 2.2.2). If it is missing,
    /// the error is `Missing` with the name `maintitle`, or out of memory.
    pub fn main_title(&self, alloc: Global) -> Result<ChunksRef<'_>, RetrievalError>
        ensures { GetsChunks self.now (codes "maintitle") result }
    {
        self.chunks_of_field(alloc, "maintitle")
    }

    /// Sets the field `maintitle`: the title of a work in several volumes. Returns the previous chunks. If memory runs out,
    /// the entry stays unchanged, and the error contains the new chunks.
    pub fn set_main_title(&mut self, chunks: Chunks) -> Result<Option<Chunks>, SetError>
        ensures { SetsChunks chunks (codes "maintitle") self.old self.new result }
    {
        self.set("maintitle", chunks)
    }

    /// Returns the field `maintitleaddon`: the text after the title of a work in several volumes (BibLaTeX manual, 2.2.2).
    /// If it is missing, the error is `Missing` with the name `maintitleaddon`, or out of memory.
    pub fn main_title_addon(&self, alloc: Global) -> Result<ChunksRef<'_>, RetrievalError>
        ensures { GetsChunks self.now (codes "maintitleaddon") result }
    {
        self.chunks_of_field(alloc, "maintitleaddon")
    }

    /// Sets the field `maintitleaddon`: the text after the title of a work in several volumes. Returns the previous chunks.
    /// If memory runs out, the entry stays unchanged, and the error contains the new chunks.
    pub fn set_main_title_addon(&mut self, chunks: Chunks) -> Result<Option<Chunks>, SetError>
        ensures { SetsChunks chunks (codes "maintitleaddon") self.old self.new result }
    {
        self.set("maintitleaddon", chunks)
    }

    /// Returns the field `reprinttitle`: the title of a reprint (BibLaTeX manual, 2.2.2). If it is missing, the error is
    /// `Missing` with the name `reprinttitle`, or out of memory.
    pub fn reprint_title(&self, alloc: Global) -> Result<ChunksRef<'_>, RetrievalError>
        ensures { GetsChunks self.now (codes "reprinttitle") result }
    {
        self.chunks_of_field(alloc, "reprinttitle")
    }

    /// Sets the field `reprinttitle`: the title of a reprint. Returns the previous chunks. If memory runs out, the entry
    /// stays unchanged, and the error contains the new chunks.
    pub fn set_reprint_title(&mut self, chunks: Chunks) -> Result<Option<Chunks>, SetError>
        ensures { SetsChunks chunks (codes "reprinttitle") self.old self.new result }
    {
        self.set("reprinttitle", chunks)
    }

    /// Returns the field `shortjournal`: the name of the journal, abridged (BibLaTeX manual, 2.2.2). If it is missing, the
    /// error is `Missing` with the name `shortjournal`, or out of memory.
    pub fn short_journal(&self, alloc: Global) -> Result<ChunksRef<'_>, RetrievalError>
        ensures { GetsChunks self.now (codes "shortjournal") result }
    {
        self.chunks_of_field(alloc, "shortjournal")
    }

    /// Sets the field `shortjournal`: the name of the journal, abridged. Returns the previous chunks. If memory runs out,
    /// the entry stays unchanged, and the error contains the new chunks.
    pub fn set_short_journal(&mut self, chunks: Chunks) -> Result<Option<Chunks>, SetError>
        ensures { SetsChunks chunks (codes "shortjournal") self.old self.new result }
    {
        self.set("shortjournal", chunks)
    }

    /// Returns the field `shortseries`: the series, abridged (BibLaTeX manual, 2.2.2). If it is missing, the error is
    /// `Missing` with the name `shortseries`, or out of memory.
    pub fn short_series(&self, alloc: Global) -> Result<ChunksRef<'_>, RetrievalError>
        ensures { GetsChunks self.now (codes "shortseries") result }
    {
        self.chunks_of_field(alloc, "shortseries")
    }

    /// Sets the field `shortseries`: the series, abridged. Returns the previous chunks. If memory runs out, the entry stays
    /// unchanged, and the error contains the new chunks.
    pub fn set_short_series(&mut self, chunks: Chunks) -> Result<Option<Chunks>, SetError>
        ensures { SetsChunks chunks (codes "shortseries") self.old self.new result }
    {
        self.set("shortseries", chunks)
    }

    /// Returns the field `shorttitle`: the title, abridged (BibLaTeX manual, 2.2.2). If it is missing, the error is
    /// `Missing` with the name `shorttitle`, or out of memory.
    pub fn short_title(&self, alloc: Global) -> Result<ChunksRef<'_>, RetrievalError>
        ensures { GetsChunks self.now (codes "shorttitle") result }
    {
        self.chunks_of_field(alloc, "shorttitle")
    }

    /// Sets the field `shorttitle`: the title, abridged. Returns the previous chunks. If memory runs out, the entry stays
    /// unchanged, and the error contains the new chunks.
    pub fn set_short_title(&mut self, chunks: Chunks) -> Result<Option<Chunks>, SetError>
        ensures { SetsChunks chunks (codes "shorttitle") self.old self.new result }
    {
        self.set("shorttitle", chunks)
    }

    /// Returns the field `subtitle`: the subtitle (BibLaTeX manual, 2.2.2). If it is missing, the error is `Missing` with
    /// the name `subtitle`, or out of memory.
    pub fn subtitle(&self, alloc: Global) -> Result<ChunksRef<'_>, RetrievalError>
        ensures { GetsChunks self.now (codes "subtitle") result }
    {
        self.chunks_of_field(alloc, "subtitle")
    }

    /// Sets the field `subtitle`: the subtitle. Returns the previous chunks. If memory runs out, the entry stays unchanged,
    /// and the error contains the new chunks.
    pub fn set_subtitle(&mut self, chunks: Chunks) -> Result<Option<Chunks>, SetError>
        ensures { SetsChunks chunks (codes "subtitle") self.old self.new result }
    {
        self.set("subtitle", chunks)
    }

    /// Returns the field `titleaddon`: the text after the title (BibLaTeX manual, 2.2.2). If it is missing, the error is
    /// `Missing` with the name `titleaddon`, or out of memory.
    pub fn title_addon(&self, alloc: Global) -> Result<ChunksRef<'_>, RetrievalError>
        ensures { GetsChunks self.now (codes "titleaddon") result }
    {
        self.chunks_of_field(alloc, "titleaddon")
    }

    /// Sets the field `titleaddon`: the text after the title. Returns the previous chunks. If memory runs out, the entry
    /// stays unchanged, and the error contains the new chunks.
    pub fn set_title_addon(&mut self, chunks: Chunks) -> Result<Option<Chunks>, SetError>
        ensures { SetsChunks chunks (codes "titleaddon") self.old self.new result }
    {
        self.set("titleaddon", chunks)
    }
}
