//! Getters and setters of the fields of identifiers that BibTeX lacks.

ghost use Rattle.std.specs.Prelude.{codes};
ghost use Rattle.bib_entry.specs.Fields.{GetsValue, GetsChunks, SetsChunks, SetsValue};

use crate::entry::Entry;
use bib_chunks::chunk::{Chunks, ChunksRef};
use bib_typed::retrieval::RetrievalError;
use bib_typed::setting::SetError;
use bib_typed::typed::Type;
use std::alloc::{AllocError, Global};

impl Entry {
    /// Returns the field `doi`: the Digital Object Identifier (BibLaTeX manual, 2.2.2). If it is missing, the error is
    /// `Missing` with the name `doi`, or out of memory.
    pub fn doi(&self, alloc: Global) -> Result<String, RetrievalError>
        ensures { GetsValue ⟦<String as Type>⟧ self.now (codes "doi") result }
    {
        self.get_as(alloc, "doi")
    }

    /// Sets the field `doi`: the Digital Object Identifier. If memory runs out, the entry stays unchanged.
    pub fn set_doi(&mut self, value: &String) -> Result<(), AllocError>
        ensures { SetsValue ⟦<String as Type>⟧ (⟦<String as Type>⟧.meaning value.now)
            (codes "doi") self.old self.new result }
    {
        self.set_as("doi", value)
    }

    /// Returns the field `eid`: the electronic identifier of an article (BibLaTeX manual, 2.2.2). If it is missing, the
    /// error is `Missing` with the name `eid`, or out of memory.
    pub fn eid(&self, alloc: Global) -> Result<ChunksRef<'_>, RetrievalError>
        ensures { GetsChunks self.now (codes "eid") result }
    {
        self.chunks_of_field(alloc, "eid")
    }

    /// Sets the field `eid`: the electronic identifier of an article. Returns the previous chunks. If memory runs out, the
    /// entry stays unchanged, and the error contains the new chunks.
    pub fn set_eid(&mut self, chunks: Chunks) -> Result<Option<Chunks>, SetError>
        ensures { SetsChunks chunks (codes "eid") self.old self.new result }
    {
        self.set("eid", chunks)
    }

    /// Returns the field `eprint`: the identifier of the electronic version in its archive (BibLaTeX manual, 2.2.2). If it
    /// is missing, the error is `Missing` with the name `eprint`, or out of memory.
    pub fn eprint(&self, alloc: Global) -> Result<String, RetrievalError>
        ensures { GetsValue ⟦<String as Type>⟧ self.now (codes "eprint") result }
    {
        self.get_as(alloc, "eprint")
    }

    /// Sets the field `eprint`: the identifier of the electronic version in its archive. If memory runs out, the entry
    /// stays unchanged.
    pub fn set_eprint(&mut self, value: &String) -> Result<(), AllocError>
        ensures { SetsValue ⟦<String as Type>⟧ (⟦<String as Type>⟧.meaning value.now)
            (codes "eprint") self.old self.new result }
    {
        self.set_as("eprint", value)
    }

    /// Returns the field `isan`: the International Standard Audiovisual Number (BibLaTeX manual, 2.2.2). If it is missing,
    /// the error is `Missing` with the name `isan`, or out of memory.
    pub fn isan(&self, alloc: Global) -> Result<ChunksRef<'_>, RetrievalError>
        ensures { GetsChunks self.now (codes "isan") result }
    {
        self.chunks_of_field(alloc, "isan")
    }

    /// Sets the field `isan`: the International Standard Audiovisual Number. Returns the previous chunks. If memory runs
    /// out, the entry stays unchanged, and the error contains the new chunks.
    pub fn set_isan(&mut self, chunks: Chunks) -> Result<Option<Chunks>, SetError>
        ensures { SetsChunks chunks (codes "isan") self.old self.new result }
    {
        self.set("isan", chunks)
    }

    /// Returns the field `isbn`: the International Standard Book Number (BibLaTeX manual, 2.2.2). If it is missing, the
    /// error is `Missing` with the name `isbn`, or out of memory.
    pub fn isbn(&self, alloc: Global) -> Result<ChunksRef<'_>, RetrievalError>
        ensures { GetsChunks self.now (codes "isbn") result }
    {
        self.chunks_of_field(alloc, "isbn")
    }

    /// Sets the field `isbn`: the International Standard Book Number. Returns the previous chunks. If memory runs out, the
    /// entry stays unchanged, and the error contains the new chunks.
    pub fn set_isbn(&mut self, chunks: Chunks) -> Result<Option<Chunks>, SetError>
        ensures { SetsChunks chunks (codes "isbn") self.old self.new result }
    {
        self.set("isbn", chunks)
    }

    /// Returns the field `ismn`: the International Standard Music Number (BibLaTeX manual, 2.2.2). If it is missing, the
    /// error is `Missing` with the name `ismn`, or out of memory.
    pub fn ismn(&self, alloc: Global) -> Result<ChunksRef<'_>, RetrievalError>
        ensures { GetsChunks self.now (codes "ismn") result }
    {
        self.chunks_of_field(alloc, "ismn")
    }

    /// Sets the field `ismn`: the International Standard Music Number. Returns the previous chunks. If memory runs out, the
    /// entry stays unchanged, and the error contains the new chunks.
    pub fn set_ismn(&mut self, chunks: Chunks) -> Result<Option<Chunks>, SetError>
        ensures { SetsChunks chunks (codes "ismn") self.old self.new result }
    {
        self.set("ismn", chunks)
    }

    /// Returns the field `isrn`: the International Standard Technical Report Number (BibLaTeX manual, 2.2.2). If it is
    /// missing, the error is `Missing` with the name `isrn`, or out of memory.
    pub fn isrn(&self, alloc: Global) -> Result<ChunksRef<'_>, RetrievalError>
        ensures { GetsChunks self.now (codes "isrn") result }
    {
        self.chunks_of_field(alloc, "isrn")
    }

    /// Sets the field `isrn`: the International Standard Technical Report Number. Returns the previous chunks. If memory
    /// runs out, the entry stays unchanged, and the error contains the new chunks.
    pub fn set_isrn(&mut self, chunks: Chunks) -> Result<Option<Chunks>, SetError>
        ensures { SetsChunks chunks (codes "isrn") self.old self.new result }
    {
        self.set("isrn", chunks)
    }

    /// Returns the field `issn`: the International Standard Serial Number (BibLaTeX manual, 2.2.2). If it is missing, the
    /// error is `Missing` with the name `issn`, or out of memory.
    pub fn issn(&self, alloc: Global) -> Result<ChunksRef<'_>, RetrievalError>
        ensures { GetsChunks self.now (codes "issn") result }
    {
        self.chunks_of_field(alloc, "issn")
    }

    /// Sets the field `issn`: the International Standard Serial Number. Returns the previous chunks. If memory runs out,
    /// the entry stays unchanged, and the error contains the new chunks.
    pub fn set_issn(&mut self, chunks: Chunks) -> Result<Option<Chunks>, SetError>
        ensures { SetsChunks chunks (codes "issn") self.old self.new result }
    {
        self.set("issn", chunks)
    }

    /// Returns the field `iswc`: the International Standard Work Code (BibLaTeX manual, 2.2.2). If it is missing, the error
    /// is `Missing` with the name `iswc`, or out of memory.
    pub fn iswc(&self, alloc: Global) -> Result<ChunksRef<'_>, RetrievalError>
        ensures { GetsChunks self.now (codes "iswc") result }
    {
        self.chunks_of_field(alloc, "iswc")
    }

    /// Sets the field `iswc`: the International Standard Work Code. Returns the previous chunks. If memory runs out, the
    /// entry stays unchanged, and the error contains the new chunks.
    pub fn set_iswc(&mut self, chunks: Chunks) -> Result<Option<Chunks>, SetError>
        ensures { SetsChunks chunks (codes "iswc") self.old self.new result }
    {
        self.set("iswc", chunks)
    }
}
