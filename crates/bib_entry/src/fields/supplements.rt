//! Getters and setters of the other fields that BibTeX lacks.

ghost use Rattle.std.specs.Prelude.{codes};
ghost use Rattle.bib_entry.specs.Fields.{GetsValue, GetsChunks, SetsChunks, SetsValue};

use crate::entry::Entry;
use bib_chunks::chunk::{Chunks, ChunksRef};
use bib_tables::types::lang::Language;
use bib_tables::types::{Gender, Pagination};
use bib_typed::retrieval::RetrievalError;
use bib_typed::setting::SetError;
use bib_typed::typed::{PermissiveType, Type};
use std::alloc::{AllocError, Global};

impl Entry {
    /// Returns the field `abstract`: the abstract (BibLaTeX manual, 2.2.2). If it is missing, the error is `Missing` with
    /// the name `abstract`, or out of memory.
    pub fn abstract_(&self, alloc: Global) -> Result<ChunksRef<'_>, RetrievalError>
        ensures { GetsChunks self.now (codes "abstract") result }
    {
        self.chunks_of_field(alloc, "abstract")
    }

    /// Sets the field `abstract`: the abstract. Returns the previous chunks. If memory runs out, the entry stays unchanged,
    /// and the error contains the new chunks.
    pub fn set_abstract_(&mut self, chunks: Chunks) -> Result<Option<Chunks>, SetError>
        ensures { SetsChunks chunks (codes "abstract") self.old self.new result }
    {
        self.set("abstract", chunks)
    }

    /// Returns the field `addendum`: the text at the very end of the entry (BibLaTeX manual, 2.2.2). If it is missing, the
    /// error is `Missing` with the name `addendum`, or out of memory.
    pub fn addendum(&self, alloc: Global) -> Result<ChunksRef<'_>, RetrievalError>
        ensures { GetsChunks self.now (codes "addendum") result }
    {
        self.chunks_of_field(alloc, "addendum")
    }

    /// Sets the field `addendum`: the text at the very end of the entry. Returns the previous chunks. If memory runs out,
    /// the entry stays unchanged, and the error contains the new chunks.
    pub fn set_addendum(&mut self, chunks: Chunks) -> Result<Option<Chunks>, SetError>
        ensures { SetsChunks chunks (codes "addendum") self.old self.new result }
    {
        self.set("addendum", chunks)
    }

    /// Returns the field `authortype`: the type of the authors (BibLaTeX manual, 2.2.2). If it is missing, the error is
    /// `Missing` with the name `authortype`, or out of memory.
    pub fn author_type(&self, alloc: Global) -> Result<String, RetrievalError>
        ensures { GetsValue ⟦<String as Type>⟧ self.now (codes "authortype") result }
    {
        self.get_as(alloc, "authortype")
    }

    /// Sets the field `authortype`: the type of the authors. If memory runs out, the entry stays unchanged.
    pub fn set_author_type(&mut self, value: &String) -> Result<(), AllocError>
        ensures { SetsValue ⟦<String as Type>⟧ (⟦<String as Type>⟧.meaning value.now)
            (codes "authortype") self.old self.new result }
    {
        self.set_as("authortype", value)
    }

    /// Returns the field `bookpagination`: the pagination scheme of the book that the work is a part of (BibLaTeX manual,
    /// 2.2.2). If it is missing, the error is `Missing` with the name `bookpagination`, or out of memory. If its chunks are no
    /// pagination scheme, the error is a `TypeError`, or out of memory.
    pub fn book_pagination(&self, alloc: Global) -> Result<Pagination, RetrievalError>
        ensures { GetsValue ⟦<Pagination as Type>⟧ self.now (codes "bookpagination") result }
    {
        self.get_as(alloc, "bookpagination")
    }

    /// Sets the field `bookpagination`: the pagination scheme of the book that the work is a part of. If memory runs out,
    /// the entry stays unchanged.
    pub fn set_book_pagination(&mut self, value: &Pagination) -> Result<(), AllocError>
        ensures { SetsValue ⟦<Pagination as Type>⟧ (⟦<Pagination as Type>⟧.meaning value.now)
            (codes "bookpagination") self.old self.new result }
    {
        self.set_as("bookpagination", value)
    }

    /// Returns the field `entrysubtype`: a subtype of the entry (BibLaTeX manual, 2.2.2). If it is missing, the error is
    /// `Missing` with the name `entrysubtype`, or out of memory.
    pub fn entry_subtype(&self, alloc: Global) -> Result<ChunksRef<'_>, RetrievalError>
        ensures { GetsChunks self.now (codes "entrysubtype") result }
    {
        self.chunks_of_field(alloc, "entrysubtype")
    }

    /// Sets the field `entrysubtype`: a subtype of the entry. Returns the previous chunks. If memory runs out, the entry
    /// stays unchanged, and the error contains the new chunks.
    pub fn set_entry_subtype(&mut self, chunks: Chunks) -> Result<Option<Chunks>, SetError>
        ensures { SetsChunks chunks (codes "entrysubtype") self.old self.new result }
    {
        self.set("entrysubtype", chunks)
    }

    /// Returns the field `issue`: the name of an issue of a journal, such as a season (BibLaTeX manual, 2.2.2). If it is
    /// missing, the error is `Missing` with the name `issue`, or out of memory.
    pub fn issue(&self, alloc: Global) -> Result<ChunksRef<'_>, RetrievalError>
        ensures { GetsChunks self.now (codes "issue") result }
    {
        self.chunks_of_field(alloc, "issue")
    }

    /// Sets the field `issue`: the name of an issue of a journal, such as a season. Returns the previous chunks. If memory
    /// runs out, the entry stays unchanged, and the error contains the new chunks.
    pub fn set_issue(&mut self, chunks: Chunks) -> Result<Option<Chunks>, SetError>
        ensures { SetsChunks chunks (codes "issue") self.old self.new result }
    {
        self.set("issue", chunks)
    }

    /// Returns the field `keywords`: the keywords (BibLaTeX manual, 2.2.3). If it is missing, the error is `Missing` with
    /// the name `keywords`, or out of memory.
    pub fn keywords(&self, alloc: Global) -> Result<ChunksRef<'_>, RetrievalError>
        ensures { GetsChunks self.now (codes "keywords") result }
    {
        self.chunks_of_field(alloc, "keywords")
    }

    /// Sets the field `keywords`: the keywords. Returns the previous chunks. If memory runs out, the entry stays unchanged,
    /// and the error contains the new chunks.
    pub fn set_keywords(&mut self, chunks: Chunks) -> Result<Option<Chunks>, SetError>
        ensures { SetsChunks chunks (codes "keywords") self.old self.new result }
    {
        self.set("keywords", chunks)
    }

    /// Returns the field `label`: the substitute for a label, for a style that has no other data for one (BibLaTeX manual,
    /// 2.2.2). If it is missing, the error is `Missing` with the name `label`, or out of memory.
    pub fn label(&self, alloc: Global) -> Result<ChunksRef<'_>, RetrievalError>
        ensures { GetsChunks self.now (codes "label") result }
    {
        self.chunks_of_field(alloc, "label")
    }

    /// Sets the field `label`: the substitute for a label, for a style that has no other data for one. Returns the previous
    /// chunks. If memory runs out, the entry stays unchanged, and the error contains the new chunks.
    pub fn set_label(&mut self, chunks: Chunks) -> Result<Option<Chunks>, SetError>
        ensures { SetsChunks chunks (codes "label") self.old self.new result }
    {
        self.set("label", chunks)
    }

    /// Returns the field `langid`: the language that the entry is printed in (BibLaTeX manual, 2.2.3). If it is missing,
    /// the error is `Missing` with the name `langid`, or out of memory.
    pub fn langid(&self, alloc: Global) -> Result<PermissiveType<Language>, RetrievalError>
        ensures { GetsValue ⟦<PermissiveType<Language> as Type>⟧ self.now (codes "langid") result }
    {
        self.get_as(alloc, "langid")
    }

    /// Sets the field `langid`: the language that the entry is printed in. If memory runs out, the entry stays unchanged.
    pub fn set_langid(&mut self, value: &PermissiveType<Language>) -> Result<(), AllocError>
        ensures { SetsValue ⟦<PermissiveType<Language> as Type>⟧ (⟦<PermissiveType<Language> as Type>⟧.meaning value.now)
            (codes "langid") self.old self.new result }
    {
        self.set_as("langid", value)
    }

    /// Returns the field `language`: the languages of the work (BibLaTeX manual, 2.2.2). If it is missing, the error is
    /// `Missing` with the name `language`, or out of memory.
    pub fn language(&self, alloc: Global) -> Result<Vec<PermissiveType<Language>>, RetrievalError>
        ensures { GetsValue ⟦<Vec<PermissiveType<Language>> as Type>⟧ self.now (codes "language") result }
    {
        self.get_as(alloc, "language")
    }

    /// Sets the field `language`: the languages of the work. If memory runs out, the entry stays unchanged.
    pub fn set_language(&mut self, value: &Vec<PermissiveType<Language>>) -> Result<(), AllocError>
        ensures { SetsValue ⟦<Vec<PermissiveType<Language>> as Type>⟧ (⟦<Vec<PermissiveType<Language>> as Type>⟧.meaning value.now)
            (codes "language") self.old self.new result }
    {
        self.set_as("language", value)
    }

    /// Returns the field `library`: the library that holds the work (BibLaTeX manual, 2.2.2). If it is missing, the error
    /// is `Missing` with the name `library`, or out of memory.
    pub fn library(&self, alloc: Global) -> Result<ChunksRef<'_>, RetrievalError>
        ensures { GetsChunks self.now (codes "library") result }
    {
        self.chunks_of_field(alloc, "library")
    }

    /// Sets the field `library`: the library that holds the work. Returns the previous chunks. If memory runs out, the
    /// entry stays unchanged, and the error contains the new chunks.
    pub fn set_library(&mut self, chunks: Chunks) -> Result<Option<Chunks>, SetError>
        ensures { SetsChunks chunks (codes "library") self.old self.new result }
    {
        self.set("library", chunks)
    }

    /// Returns the field `nameaddon`: the text after the name of the author (BibLaTeX manual, 2.2.2). If it is missing, the
    /// error is `Missing` with the name `nameaddon`, or out of memory.
    pub fn name_addon(&self, alloc: Global) -> Result<ChunksRef<'_>, RetrievalError>
        ensures { GetsChunks self.now (codes "nameaddon") result }
    {
        self.chunks_of_field(alloc, "nameaddon")
    }

    /// Sets the field `nameaddon`: the text after the name of the author. Returns the previous chunks. If memory runs out,
    /// the entry stays unchanged, and the error contains the new chunks.
    pub fn set_name_addon(&mut self, chunks: Chunks) -> Result<Option<Chunks>, SetError>
        ensures { SetsChunks chunks (codes "nameaddon") self.old self.new result }
    {
        self.set("nameaddon", chunks)
    }

    /// Returns the field `options`: the options of the entry (BibLaTeX manual, 2.2.3). If it is missing, the error is
    /// `Missing` with the name `options`, or out of memory.
    pub fn options(&self, alloc: Global) -> Result<ChunksRef<'_>, RetrievalError>
        ensures { GetsChunks self.now (codes "options") result }
    {
        self.chunks_of_field(alloc, "options")
    }

    /// Sets the field `options`: the options of the entry. Returns the previous chunks. If memory runs out, the entry stays
    /// unchanged, and the error contains the new chunks.
    pub fn set_options(&mut self, chunks: Chunks) -> Result<Option<Chunks>, SetError>
        ensures { SetsChunks chunks (codes "options") self.old self.new result }
    {
        self.set("options", chunks)
    }

    /// Returns the field `origlanguage`: the languages of the original of a translation (BibLaTeX manual, 2.2.2). If it is
    /// missing, the error is `Missing` with the name `origlanguage`, or out of memory.
    pub fn orig_language(&self, alloc: Global) -> Result<Vec<String>, RetrievalError>
        ensures { GetsValue ⟦<Vec<String> as Type>⟧ self.now (codes "origlanguage") result }
    {
        self.get_as(alloc, "origlanguage")
    }

    /// Sets the field `origlanguage`: the languages of the original of a translation. If memory runs out, the entry stays
    /// unchanged.
    pub fn set_orig_language(&mut self, value: &Vec<String>) -> Result<(), AllocError>
        ensures { SetsValue ⟦<Vec<String> as Type>⟧ (⟦<Vec<String> as Type>⟧.meaning value.now)
            (codes "origlanguage") self.old self.new result }
    {
        self.set_as("origlanguage", value)
    }

    /// Returns the field `origlocation`: the places where the original was published (BibLaTeX manual, 2.2.2). If it is
    /// missing, the error is `Missing` with the name `origlocation`, or out of memory.
    pub fn orig_location(&self, alloc: Global) -> Result<Vec<Chunks>, RetrievalError>
        ensures { GetsValue ⟦<Vec<Chunks> as Type>⟧ self.now (codes "origlocation") result }
    {
        self.get_as(alloc, "origlocation")
    }

    /// Sets the field `origlocation`: the places where the original was published. If memory runs out, the entry stays
    /// unchanged.
    pub fn set_orig_location(&mut self, value: &Vec<Chunks>) -> Result<(), AllocError>
        ensures { SetsValue ⟦<Vec<Chunks> as Type>⟧ (⟦<Vec<Chunks> as Type>⟧.meaning value.now)
            (codes "origlocation") self.old self.new result }
    {
        self.set_as("origlocation", value)
    }

    /// Returns the field `pagetotal`: the total number of pages (BibLaTeX manual, 2.2.2). If it is missing, the error is
    /// `Missing` with the name `pagetotal`, or out of memory.
    pub fn page_total(&self, alloc: Global) -> Result<ChunksRef<'_>, RetrievalError>
        ensures { GetsChunks self.now (codes "pagetotal") result }
    {
        self.chunks_of_field(alloc, "pagetotal")
    }

    /// Sets the field `pagetotal`: the total number of pages. Returns the previous chunks. If memory runs out, the entry
    /// stays unchanged, and the error contains the new chunks.
    pub fn set_page_total(&mut self, chunks: Chunks) -> Result<Option<Chunks>, SetError>
        ensures { SetsChunks chunks (codes "pagetotal") self.old self.new result }
    {
        self.set("pagetotal", chunks)
    }

    /// Returns the field `pagination`: the pagination scheme of the work (BibLaTeX manual, 2.2.2). If it is missing, the
    /// error is `Missing` with the name `pagination`, or out of memory. If its chunks are no pagination scheme, the error is a
    /// `TypeError`, or out of memory.
    pub fn pagination(&self, alloc: Global) -> Result<Pagination, RetrievalError>
        ensures { GetsValue ⟦<Pagination as Type>⟧ self.now (codes "pagination") result }
    {
        self.get_as(alloc, "pagination")
    }

    /// Sets the field `pagination`: the pagination scheme of the work. If memory runs out, the entry stays unchanged.
    pub fn set_pagination(&mut self, value: &Pagination) -> Result<(), AllocError>
        ensures { SetsValue ⟦<Pagination as Type>⟧ (⟦<Pagination as Type>⟧.meaning value.now)
            (codes "pagination") self.old self.new result }
    {
        self.set_as("pagination", value)
    }

    /// Returns the field `part`: the number of a part of a volume (BibLaTeX manual, 2.2.2). If it is missing, the error is
    /// `Missing` with the name `part`, or out of memory.
    pub fn part(&self, alloc: Global) -> Result<ChunksRef<'_>, RetrievalError>
        ensures { GetsChunks self.now (codes "part") result }
    {
        self.chunks_of_field(alloc, "part")
    }

    /// Sets the field `part`: the number of a part of a volume. Returns the previous chunks. If memory runs out, the entry
    /// stays unchanged, and the error contains the new chunks.
    pub fn set_part(&mut self, chunks: Chunks) -> Result<Option<Chunks>, SetError>
        ensures { SetsChunks chunks (codes "part") self.old self.new result }
    {
        self.set("part", chunks)
    }

    /// Returns the field `pubstate`: the state of publication (BibLaTeX manual, 2.2.2). If it is missing, the error is
    /// `Missing` with the name `pubstate`, or out of memory.
    pub fn pubstate(&self, alloc: Global) -> Result<ChunksRef<'_>, RetrievalError>
        ensures { GetsChunks self.now (codes "pubstate") result }
    {
        self.chunks_of_field(alloc, "pubstate")
    }

    /// Sets the field `pubstate`: the state of publication. Returns the previous chunks. If memory runs out, the entry
    /// stays unchanged, and the error contains the new chunks.
    pub fn set_pubstate(&mut self, chunks: Chunks) -> Result<Option<Chunks>, SetError>
        ensures { SetsChunks chunks (codes "pubstate") self.old self.new result }
    {
        self.set("pubstate", chunks)
    }

    /// Returns the field `shorthand`: the text that is cited instead of the label (BibLaTeX manual, 2.2.2). If it is
    /// missing, the error is `Missing` with the name `shorthand`, or out of memory.
    pub fn shorthand(&self, alloc: Global) -> Result<ChunksRef<'_>, RetrievalError>
        ensures { GetsChunks self.now (codes "shorthand") result }
    {
        self.chunks_of_field(alloc, "shorthand")
    }

    /// Sets the field `shorthand`: the text that is cited instead of the label. Returns the previous chunks. If memory runs
    /// out, the entry stays unchanged, and the error contains the new chunks.
    pub fn set_shorthand(&mut self, chunks: Chunks) -> Result<Option<Chunks>, SetError>
        ensures { SetsChunks chunks (codes "shorthand") self.old self.new result }
    {
        self.set("shorthand", chunks)
    }

    /// Returns the field `shorthandintro`: the text that introduces the shorthand at the first citation (BibLaTeX manual,
    /// 2.2.2). If it is missing, the error is `Missing` with the name `shorthandintro`, or out of memory.
    pub fn shorthand_intro(&self, alloc: Global) -> Result<ChunksRef<'_>, RetrievalError>
        ensures { GetsChunks self.now (codes "shorthandintro") result }
    {
        self.chunks_of_field(alloc, "shorthandintro")
    }

    /// Sets the field `shorthandintro`: the text that introduces the shorthand at the first citation. Returns the previous
    /// chunks. If memory runs out, the entry stays unchanged, and the error contains the new chunks.
    pub fn set_shorthand_intro(&mut self, chunks: Chunks) -> Result<Option<Chunks>, SetError>
        ensures { SetsChunks chunks (codes "shorthandintro") self.old self.new result }
    {
        self.set("shorthandintro", chunks)
    }

    /// Returns the field `url`: the address on the web (BibLaTeX manual, 2.2.2). If it is missing, the error is `Missing`
    /// with the name `url`, or out of memory.
    pub fn url(&self, alloc: Global) -> Result<String, RetrievalError>
        ensures { GetsValue ⟦<String as Type>⟧ self.now (codes "url") result }
    {
        self.get_as(alloc, "url")
    }

    /// Sets the field `url`: the address on the web. If memory runs out, the entry stays unchanged.
    pub fn set_url(&mut self, value: &String) -> Result<(), AllocError>
        ensures { SetsValue ⟦<String as Type>⟧ (⟦<String as Type>⟧.meaning value.now)
            (codes "url") self.old self.new result }
    {
        self.set_as("url", value)
    }

    /// Returns the field `venue`: the place of the conference (BibLaTeX manual, 2.2.2). If it is missing, the error is
    /// `Missing` with the name `venue`, or out of memory.
    pub fn venue(&self, alloc: Global) -> Result<ChunksRef<'_>, RetrievalError>
        ensures { GetsChunks self.now (codes "venue") result }
    {
        self.chunks_of_field(alloc, "venue")
    }

    /// Sets the field `venue`: the place of the conference. Returns the previous chunks. If memory runs out, the entry
    /// stays unchanged, and the error contains the new chunks.
    pub fn set_venue(&mut self, chunks: Chunks) -> Result<Option<Chunks>, SetError>
        ensures { SetsChunks chunks (codes "venue") self.old self.new result }
    {
        self.set("venue", chunks)
    }

    /// Returns the field `version`: the version of software or of a manual (BibLaTeX manual, 2.2.2). If it is missing, the
    /// error is `Missing` with the name `version`, or out of memory.
    pub fn version(&self, alloc: Global) -> Result<ChunksRef<'_>, RetrievalError>
        ensures { GetsChunks self.now (codes "version") result }
    {
        self.chunks_of_field(alloc, "version")
    }

    /// Sets the field `version`: the version of software or of a manual. Returns the previous chunks. If memory runs out,
    /// the entry stays unchanged, and the error contains the new chunks.
    pub fn set_version(&mut self, chunks: Chunks) -> Result<Option<Chunks>, SetError>
        ensures { SetsChunks chunks (codes "version") self.old self.new result }
    {
        self.set("version", chunks)
    }

    /// Returns the field `volumes`: the number of volumes (BibLaTeX manual, 2.2.2). If it is missing, the error is
    /// `Missing` with the name `volumes`, or out of memory. If its chunks are no number, the error is a `TypeError`, or out of
    /// memory.
    pub fn volumes(&self, alloc: Global) -> Result<i64, RetrievalError>
        ensures { GetsValue ⟦<i64 as Type>⟧ self.now (codes "volumes") result }
    {
        self.get_as(alloc, "volumes")
    }

    /// Sets the field `volumes`: the number of volumes. If memory runs out, the entry stays unchanged.
    pub fn set_volumes(&mut self, value: &i64) -> Result<(), AllocError>
        ensures { SetsValue ⟦<i64 as Type>⟧ (⟦<i64 as Type>⟧.meaning value.now)
            (codes "volumes") self.old self.new result }
    {
        self.set_as("volumes", value)
    }

    /// Returns the field `gender`: the gender of the author, or of the editor if there is no author (BibLaTeX manual, 2.2.3).
    /// If it is missing, the error is `Missing` with the name `gender`, or out of memory. If its chunks are no gender, the error
    /// is a `TypeError`, or out of memory.
    pub fn gender(&self, alloc: Global) -> Result<Gender, RetrievalError>
        ensures { GetsValue ⟦<Gender as Type>⟧ self.now (codes "gender") result }
    {
        self.get_as(alloc, "gender")
    }

    /// Sets the field `gender`: the gender of the author, or of the editor if there is no author. If memory runs out, the entry
    /// stays unchanged.
    pub fn set_gender(&mut self, value: &Gender) -> Result<(), AllocError>
        ensures { SetsValue ⟦<Gender as Type>⟧ (⟦<Gender as Type>⟧.meaning value.now)
            (codes "gender") self.old self.new result }
    {
        self.set_as("gender", value)
    }
}
