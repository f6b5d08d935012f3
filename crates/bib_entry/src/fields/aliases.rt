//! Getters and setters of the fields that also have another name.

ghost use Rattle.std.specs.Prelude.{codes};
ghost use Rattle.bib_entry.specs.Fields.{GetsEitherValue, GetsEitherChunks, SetsChunks, SetsValue};

use crate::entry::Entry;
use bib_chunks::chunk::{Chunks, ChunksRef};
use bib_typed::retrieval::RetrievalError;
use bib_typed::setting::SetError;
use bib_typed::typed::Type;
use std::alloc::{AllocError, Global};

impl Entry {
    /// Returns the field `address`, or else `location`: the location of the publisher in BibTeX files (BibLaTeX manual,
    /// 2.2.5). If both are missing, the error is `Missing` with the name `address`, or out of memory.
    pub fn address(&self, alloc: Global) -> Result<ChunksRef<'_>, RetrievalError>
        ensures { GetsEitherChunks self.now (codes "address") (codes "location") result }
    {
        self.chunks_of_either(alloc, "address", "location")
    }

    /// Sets the field `address`: the location of the publisher in BibTeX files. Returns the previous chunks. If memory runs
    /// out, the entry stays unchanged, and the error contains the new chunks.
    pub fn set_address(&mut self, chunks: Chunks) -> Result<Option<Chunks>, SetError>
        ensures { SetsChunks chunks (codes "address") self.old self.new result }
    {
        self.set("address", chunks)
    }

    /// Returns the field `location`, or else `address`: the place of publication (BibLaTeX manual, 2.2.2). If both are
    /// missing, the error is `Missing` with the name `location`, or out of memory.
    pub fn location(&self, alloc: Global) -> Result<ChunksRef<'_>, RetrievalError>
        ensures { GetsEitherChunks self.now (codes "location") (codes "address") result }
    {
        self.chunks_of_either(alloc, "location", "address")
    }

    /// Sets the field `location`: the place of publication. Returns the previous chunks. If memory runs out, the entry
    /// stays unchanged, and the error contains the new chunks.
    pub fn set_location(&mut self, chunks: Chunks) -> Result<Option<Chunks>, SetError>
        ensures { SetsChunks chunks (codes "location") self.old self.new result }
    {
        self.set("location", chunks)
    }

    /// Returns the field `annotation`, or else `annote`: the annotation of the work in an annotated bibliography (BibLaTeX
    /// manual, 2.2.2). If both are missing, the error is `Missing` with the name `annotation`, or out of memory.
    pub fn annotation(&self, alloc: Global) -> Result<ChunksRef<'_>, RetrievalError>
        ensures { GetsEitherChunks self.now (codes "annotation") (codes "annote") result }
    {
        self.chunks_of_either(alloc, "annotation", "annote")
    }

    /// Sets the field `annotation`: the annotation of the work in an annotated bibliography. Returns the previous chunks.
    /// If memory runs out, the entry stays unchanged, and the error contains the new chunks.
    pub fn set_annotation(&mut self, chunks: Chunks) -> Result<Option<Chunks>, SetError>
        ensures { SetsChunks chunks (codes "annotation") self.old self.new result }
    {
        self.set("annotation", chunks)
    }

    /// Returns the field `eprinttype`, or else `archiveprefix`: the archive of the electronic version (BibLaTeX manual,
    /// 2.2.2). If both are missing, the error is `Missing` with the name `eprinttype`, or out of memory.
    pub fn eprint_type(&self, alloc: Global) -> Result<ChunksRef<'_>, RetrievalError>
        ensures { GetsEitherChunks self.now (codes "eprinttype") (codes "archiveprefix") result }
    {
        self.chunks_of_either(alloc, "eprinttype", "archiveprefix")
    }

    /// Sets the field `eprinttype`: the archive of the electronic version. Returns the previous chunks. If memory runs out,
    /// the entry stays unchanged, and the error contains the new chunks.
    pub fn set_eprint_type(&mut self, chunks: Chunks) -> Result<Option<Chunks>, SetError>
        ensures { SetsChunks chunks (codes "eprinttype") self.old self.new result }
    {
        self.set("eprinttype", chunks)
    }

    /// Returns the field `eprintclass`, or else `primaryclass`: the class or section within the archive (BibLaTeX manual,
    /// 2.2.2). If both are missing, the error is `Missing` with the name `eprintclass`, or out of memory.
    pub fn eprint_class(&self, alloc: Global) -> Result<ChunksRef<'_>, RetrievalError>
        ensures { GetsEitherChunks self.now (codes "eprintclass") (codes "primaryclass") result }
    {
        self.chunks_of_either(alloc, "eprintclass", "primaryclass")
    }

    /// Sets the field `eprintclass`: the class or section within the archive. Returns the previous chunks. If memory runs
    /// out, the entry stays unchanged, and the error contains the new chunks.
    pub fn set_eprint_class(&mut self, chunks: Chunks) -> Result<Option<Chunks>, SetError>
        ensures { SetsChunks chunks (codes "eprintclass") self.old self.new result }
    {
        self.set("eprintclass", chunks)
    }

    /// Returns the field `journal`, or else `journaltitle`: the name of the journal in BibTeX files (BibLaTeX manual,
    /// 2.2.5). If both are missing, the error is `Missing` with the name `journal`, or out of memory.
    pub fn journal(&self, alloc: Global) -> Result<ChunksRef<'_>, RetrievalError>
        ensures { GetsEitherChunks self.now (codes "journal") (codes "journaltitle") result }
    {
        self.chunks_of_either(alloc, "journal", "journaltitle")
    }

    /// Sets the field `journal`: the name of the journal in BibTeX files. Returns the previous chunks. If memory runs out,
    /// the entry stays unchanged, and the error contains the new chunks.
    pub fn set_journal(&mut self, chunks: Chunks) -> Result<Option<Chunks>, SetError>
        ensures { SetsChunks chunks (codes "journal") self.old self.new result }
    {
        self.set("journal", chunks)
    }

    /// Returns the field `journaltitle`, or else `journal`: the name of the journal (BibLaTeX manual, 2.2.2). If both are
    /// missing, the error is `Missing` with the name `journaltitle`, or out of memory.
    pub fn journal_title(&self, alloc: Global) -> Result<ChunksRef<'_>, RetrievalError>
        ensures { GetsEitherChunks self.now (codes "journaltitle") (codes "journal") result }
    {
        self.chunks_of_either(alloc, "journaltitle", "journal")
    }

    /// Sets the field `journaltitle`: the name of the journal. Returns the previous chunks. If memory runs out, the entry
    /// stays unchanged, and the error contains the new chunks.
    pub fn set_journal_title(&mut self, chunks: Chunks) -> Result<Option<Chunks>, SetError>
        ensures { SetsChunks chunks (codes "journaltitle") self.old self.new result }
    {
        self.set("journaltitle", chunks)
    }

    /// Returns the field `key`, or else `sortkey`: the sort key of the entry (BibLaTeX manual, 2.2.5). If both are missing,
    /// the error is `Missing` with the name `key`, or out of memory.
    pub fn sort_key(&self, alloc: Global) -> Result<String, RetrievalError>
        ensures { GetsEitherValue ⟦<String as Type>⟧ self.now (codes "key") (codes "sortkey") result }
    {
        self.get_as_or(alloc, "key", "sortkey")
    }

    /// Sets the field `key`: the sort key of the entry. If memory runs out, the entry stays unchanged.
    pub fn set_sort_key(&mut self, value: &String) -> Result<(), AllocError>
        ensures { SetsValue ⟦<String as Type>⟧ (⟦<String as Type>⟧.meaning value.now)
            (codes "key") self.old self.new result }
    {
        self.set_as("key", value)
    }

    /// Returns the field `file`, or else `pdf`: the path of a local copy (BibLaTeX manual, 2.2.2). If both are missing, the
    /// error is `Missing` with the name `file`, or out of memory.
    pub fn file(&self, alloc: Global) -> Result<String, RetrievalError>
        ensures { GetsEitherValue ⟦<String as Type>⟧ self.now (codes "file") (codes "pdf") result }
    {
        self.get_as_or(alloc, "file", "pdf")
    }

    /// Sets the field `file`: the path of a local copy. If memory runs out, the entry stays unchanged.
    pub fn set_file(&mut self, value: &String) -> Result<(), AllocError>
        ensures { SetsValue ⟦<String as Type>⟧ (⟦<String as Type>⟧.meaning value.now)
            (codes "file") self.old self.new result }
    {
        self.set_as("file", value)
    }

    /// Returns the field `school`, or else `institution`: the university of a thesis in BibTeX files (BibLaTeX manual,
    /// 2.2.5). If both are missing, the error is `Missing` with the name `school`, or out of memory.
    pub fn school(&self, alloc: Global) -> Result<ChunksRef<'_>, RetrievalError>
        ensures { GetsEitherChunks self.now (codes "school") (codes "institution") result }
    {
        self.chunks_of_either(alloc, "school", "institution")
    }

    /// Sets the field `school`: the university of a thesis in BibTeX files. Returns the previous chunks. If memory runs
    /// out, the entry stays unchanged, and the error contains the new chunks.
    pub fn set_school(&mut self, chunks: Chunks) -> Result<Option<Chunks>, SetError>
        ensures { SetsChunks chunks (codes "school") self.old self.new result }
    {
        self.set("school", chunks)
    }

    /// Returns the field `institution`, or else `school`: the university or other institution (BibLaTeX manual, 2.2.2). If
    /// both are missing, the error is `Missing` with the name `institution`, or out of memory.
    pub fn institution(&self, alloc: Global) -> Result<ChunksRef<'_>, RetrievalError>
        ensures { GetsEitherChunks self.now (codes "institution") (codes "school") result }
    {
        self.chunks_of_either(alloc, "institution", "school")
    }

    /// Sets the field `institution`: the university or other institution. Returns the previous chunks. If memory runs out,
    /// the entry stays unchanged, and the error contains the new chunks.
    pub fn set_institution(&mut self, chunks: Chunks) -> Result<Option<Chunks>, SetError>
        ensures { SetsChunks chunks (codes "institution") self.old self.new result }
    {
        self.set("institution", chunks)
    }
}
