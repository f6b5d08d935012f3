//! Getters and setters of fields that BibTeX has, too.

ghost use Rattle.std.specs.Prelude.{codes};
ghost use Rattle.bib_entry.specs.Fields.{GetsValue, GetsChunks, SetsChunks, SetsValue};

use crate::entry::Entry;
use bib_chunks::chunk::{Chunks, ChunksRef};
use bib_people::person::Person;
use bib_typed::retrieval::RetrievalError;
use bib_typed::setting::SetError;
use bib_typed::typed::{PermissiveType, Type};
use std::alloc::{AllocError, Global};
use std::ops::Range;

impl Entry {
    /// Returns the field `author`: the authors (BibLaTeX manual, 2.2.2). If it is missing, the error is `Missing` with the
    /// name `author`, or out of memory.
    pub fn author(&self, alloc: Global) -> Result<Vec<Person>, RetrievalError>
        ensures { GetsValue ⟦<Vec<Person> as Type>⟧ self.now (codes "author") result }
    {
        self.get_as(alloc, "author")
    }

    /// Sets the field `author`: the authors. If memory runs out, the entry stays unchanged.
    pub fn set_author(&mut self, value: &Vec<Person>) -> Result<(), AllocError>
        ensures { SetsValue ⟦<Vec<Person> as Type>⟧ (⟦<Vec<Person> as Type>⟧.meaning value.now)
            (codes "author") self.old self.new result }
    {
        self.set_as("author", value)
    }

    /// Returns the field `booktitle`: the title of the book that the work is a part of (BibLaTeX manual, 2.2.2). If it is
    /// missing, the error is `Missing` with the name `booktitle`, or out of memory.
    pub fn book_title(&self, alloc: Global) -> Result<ChunksRef<'_>, RetrievalError>
        ensures { GetsChunks self.now (codes "booktitle") result }
    {
        self.chunks_of_field(alloc, "booktitle")
    }

    /// Sets the field `booktitle`: the title of the book that the work is a part of. Returns the previous chunks. If memory
    /// runs out, the entry stays unchanged, and the error contains the new chunks.
    pub fn set_book_title(&mut self, chunks: Chunks) -> Result<Option<Chunks>, SetError>
        ensures { SetsChunks chunks (codes "booktitle") self.old self.new result }
    {
        self.set("booktitle", chunks)
    }

    /// Returns the field `chapter`: the chapter, or another part of a work (BibLaTeX manual, 2.2.2). If it is missing, the
    /// error is `Missing` with the name `chapter`, or out of memory.
    pub fn chapter(&self, alloc: Global) -> Result<ChunksRef<'_>, RetrievalError>
        ensures { GetsChunks self.now (codes "chapter") result }
    {
        self.chunks_of_field(alloc, "chapter")
    }

    /// Sets the field `chapter`: the chapter, or another part of a work. Returns the previous chunks. If memory runs out,
    /// the entry stays unchanged, and the error contains the new chunks.
    pub fn set_chapter(&mut self, chunks: Chunks) -> Result<Option<Chunks>, SetError>
        ensures { SetsChunks chunks (codes "chapter") self.old self.new result }
    {
        self.set("chapter", chunks)
    }

    /// Returns the field `edition`: the edition (BibLaTeX manual, 2.2.2). If it is missing, the error is `Missing` with the
    /// name `edition`, or out of memory.
    pub fn edition(&self, alloc: Global) -> Result<PermissiveType<i64>, RetrievalError>
        ensures { GetsValue ⟦<PermissiveType<i64> as Type>⟧ self.now (codes "edition") result }
    {
        self.get_as(alloc, "edition")
    }

    /// Sets the field `edition`: the edition. If memory runs out, the entry stays unchanged.
    pub fn set_edition(&mut self, value: &PermissiveType<i64>) -> Result<(), AllocError>
        ensures { SetsValue ⟦<PermissiveType<i64> as Type>⟧ (⟦<PermissiveType<i64> as Type>⟧.meaning value.now)
            (codes "edition") self.old self.new result }
    {
        self.set_as("edition", value)
    }

    /// Returns the field `howpublished`: the form of publication, if it is unusual (BibLaTeX manual, 2.2.2). If it is
    /// missing, the error is `Missing` with the name `howpublished`, or out of memory.
    pub fn how_published(&self, alloc: Global) -> Result<ChunksRef<'_>, RetrievalError>
        ensures { GetsChunks self.now (codes "howpublished") result }
    {
        self.chunks_of_field(alloc, "howpublished")
    }

    /// Sets the field `howpublished`: the form of publication, if it is unusual. Returns the previous chunks. If memory
    /// runs out, the entry stays unchanged, and the error contains the new chunks.
    pub fn set_how_published(&mut self, chunks: Chunks) -> Result<Option<Chunks>, SetError>
        ensures { SetsChunks chunks (codes "howpublished") self.old self.new result }
    {
        self.set("howpublished", chunks)
    }

    /// Returns the field `note`: information that fits no other field (BibLaTeX manual, 2.2.2). If it is missing, the error
    /// is `Missing` with the name `note`, or out of memory.
    pub fn note(&self, alloc: Global) -> Result<ChunksRef<'_>, RetrievalError>
        ensures { GetsChunks self.now (codes "note") result }
    {
        self.chunks_of_field(alloc, "note")
    }

    /// Sets the field `note`: information that fits no other field. Returns the previous chunks. If memory runs out, the
    /// entry stays unchanged, and the error contains the new chunks.
    pub fn set_note(&mut self, chunks: Chunks) -> Result<Option<Chunks>, SetError>
        ensures { SetsChunks chunks (codes "note") self.old self.new result }
    {
        self.set("note", chunks)
    }

    /// Returns the field `number`: the number of an issue, a report or a patent, or within a series (BibLaTeX manual,
    /// 2.2.2). If it is missing, the error is `Missing` with the name `number`, or out of memory.
    pub fn number(&self, alloc: Global) -> Result<ChunksRef<'_>, RetrievalError>
        ensures { GetsChunks self.now (codes "number") result }
    {
        self.chunks_of_field(alloc, "number")
    }

    /// Sets the field `number`: the number of an issue, a report or a patent, or within a series. Returns the previous
    /// chunks. If memory runs out, the entry stays unchanged, and the error contains the new chunks.
    pub fn set_number(&mut self, chunks: Chunks) -> Result<Option<Chunks>, SetError>
        ensures { SetsChunks chunks (codes "number") self.old self.new result }
    {
        self.set("number", chunks)
    }

    /// Returns the field `organization`: the organizations that published a manual or website, or sponsored a conference
    /// (BibLaTeX manual, 2.2.2). If it is missing, the error is `Missing` with the name `organization`, or out of memory.
    pub fn organization(&self, alloc: Global) -> Result<Vec<Chunks>, RetrievalError>
        ensures { GetsValue ⟦<Vec<Chunks> as Type>⟧ self.now (codes "organization") result }
    {
        self.get_as(alloc, "organization")
    }

    /// Sets the field `organization`: the organizations that published a manual or website, or sponsored a conference. If
    /// memory runs out, the entry stays unchanged.
    pub fn set_organization(&mut self, value: &Vec<Chunks>) -> Result<(), AllocError>
        ensures { SetsValue ⟦<Vec<Chunks> as Type>⟧ (⟦<Vec<Chunks> as Type>⟧.meaning value.now)
            (codes "organization") self.old self.new result }
    {
        self.set_as("organization", value)
    }

    /// Returns the field `pages`: the pages (BibLaTeX manual, 2.2.2). If it is missing, the error is `Missing` with the
    /// name `pages`, or out of memory.
    pub fn pages(&self, alloc: Global) -> Result<PermissiveType<Vec<Range<u32>>>, RetrievalError>
        ensures { GetsValue ⟦<PermissiveType<Vec<Range<u32>>> as Type>⟧ self.now (codes "pages") result }
    {
        self.get_as(alloc, "pages")
    }

    /// Sets the field `pages`: the pages. If memory runs out, the entry stays unchanged.
    pub fn set_pages(&mut self, value: &PermissiveType<Vec<Range<u32>>>) -> Result<(), AllocError>
        ensures { SetsValue ⟦<PermissiveType<Vec<Range<u32>>> as Type>⟧ (⟦<PermissiveType<Vec<Range<u32>>> as Type>⟧.meaning value.now)
            (codes "pages") self.old self.new result }
    {
        self.set_as("pages", value)
    }

    /// Returns the field `publisher`: the publishers (BibLaTeX manual, 2.2.2). If it is missing, the error is `Missing`
    /// with the name `publisher`, or out of memory.
    pub fn publisher(&self, alloc: Global) -> Result<Vec<Chunks>, RetrievalError>
        ensures { GetsValue ⟦<Vec<Chunks> as Type>⟧ self.now (codes "publisher") result }
    {
        self.get_as(alloc, "publisher")
    }

    /// Sets the field `publisher`: the publishers. If memory runs out, the entry stays unchanged.
    pub fn set_publisher(&mut self, value: &Vec<Chunks>) -> Result<(), AllocError>
        ensures { SetsValue ⟦<Vec<Chunks> as Type>⟧ (⟦<Vec<Chunks> as Type>⟧.meaning value.now)
            (codes "publisher") self.old self.new result }
    {
        self.set_as("publisher", value)
    }

    /// Returns the field `series`: the series that the work appeared in (BibLaTeX manual, 2.2.2). If it is missing, the
    /// error is `Missing` with the name `series`, or out of memory.
    pub fn series(&self, alloc: Global) -> Result<ChunksRef<'_>, RetrievalError>
        ensures { GetsChunks self.now (codes "series") result }
    {
        self.chunks_of_field(alloc, "series")
    }

    /// Sets the field `series`: the series that the work appeared in. Returns the previous chunks. If memory runs out, the
    /// entry stays unchanged, and the error contains the new chunks.
    pub fn set_series(&mut self, chunks: Chunks) -> Result<Option<Chunks>, SetError>
        ensures { SetsChunks chunks (codes "series") self.old self.new result }
    {
        self.set("series", chunks)
    }

    /// Returns the field `title`: the title (BibLaTeX manual, 2.2.2). If it is missing, the error is `Missing` with the
    /// name `title`, or out of memory.
    pub fn title(&self, alloc: Global) -> Result<ChunksRef<'_>, RetrievalError>
        ensures { GetsChunks self.now (codes "title") result }
    {
        self.chunks_of_field(alloc, "title")
    }

    /// Sets the field `title`: the title. Returns the previous chunks. If memory runs out, the entry stays unchanged, and
    /// the error contains the new chunks.
    pub fn set_title(&mut self, chunks: Chunks) -> Result<Option<Chunks>, SetError>
        ensures { SetsChunks chunks (codes "title") self.old self.new result }
    {
        self.set("title", chunks)
    }

    /// Returns the field `type`: the type of a manual, patent, report or thesis (BibLaTeX manual, 2.2.2). If it is missing,
    /// the error is `Missing` with the name `type`, or out of memory.
    pub fn type_(&self, alloc: Global) -> Result<String, RetrievalError>
        ensures { GetsValue ⟦<String as Type>⟧ self.now (codes "type") result }
    {
        self.get_as(alloc, "type")
    }

    /// Sets the field `type`: the type of a manual, patent, report or thesis. If memory runs out, the entry stays
    /// unchanged.
    pub fn set_type_(&mut self, value: &String) -> Result<(), AllocError>
        ensures { SetsValue ⟦<String as Type>⟧ (⟦<String as Type>⟧.meaning value.now)
            (codes "type") self.old self.new result }
    {
        self.set_as("type", value)
    }

    /// Returns the field `volume`: the volume of a journal or of a work in several volumes (BibLaTeX manual, 2.2.2). If it
    /// is missing, the error is `Missing` with the name `volume`, or out of memory.
    pub fn volume(&self, alloc: Global) -> Result<PermissiveType<i64>, RetrievalError>
        ensures { GetsValue ⟦<PermissiveType<i64> as Type>⟧ self.now (codes "volume") result }
    {
        self.get_as(alloc, "volume")
    }

    /// Sets the field `volume`: the volume of a journal or of a work in several volumes. If memory runs out, the entry
    /// stays unchanged.
    pub fn set_volume(&mut self, value: &PermissiveType<i64>) -> Result<(), AllocError>
        ensures { SetsValue ⟦<PermissiveType<i64> as Type>⟧ (⟦<PermissiveType<i64> as Type>⟧.meaning value.now)
            (codes "volume") self.old self.new result }
    {
        self.set_as("volume", value)
    }
}
