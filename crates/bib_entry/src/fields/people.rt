//! Getters and setters of the fields of people that BibTeX lacks.

ghost use Rattle.std.specs.Prelude.{codes};
ghost use Rattle.bib_entry.specs.Fields.{GetsValue, SetsValue};

use crate::entry::Entry;
use bib_people::person::Person;
use bib_typed::retrieval::RetrievalError;
use bib_typed::typed::Type;
use std::alloc::{AllocError, Global};

impl Entry {
    /// Returns the field `afterword`: the authors of an afterword (BibLaTeX manual, 2.2.2). If it is missing, the error is
    /// `Missing` with the name `afterword`, or out of memory.
    pub fn afterword(&self, alloc: Global) -> Result<Vec<Person>, RetrievalError>
        ensures { GetsValue ⟦<Vec<Person> as Type>⟧ self.now (codes "afterword") result }
    {
        self.get_as(alloc, "afterword")
    }

    /// Sets the field `afterword`: the authors of an afterword. If memory runs out, the entry stays unchanged.
    pub fn set_afterword(&mut self, value: &Vec<Person>) -> Result<(), AllocError>
        ensures { SetsValue ⟦<Vec<Person> as Type>⟧ (⟦<Vec<Person> as Type>⟧.meaning value.now)
            (codes "afterword") self.old self.new result }
    {
        self.set_as("afterword", value)
    }

    /// Returns the field `annotator`: the authors of annotations (BibLaTeX manual, 2.2.2). If it is missing, the error is
    /// `Missing` with the name `annotator`, or out of memory.
    pub fn annotator(&self, alloc: Global) -> Result<Vec<Person>, RetrievalError>
        ensures { GetsValue ⟦<Vec<Person> as Type>⟧ self.now (codes "annotator") result }
    {
        self.get_as(alloc, "annotator")
    }

    /// Sets the field `annotator`: the authors of annotations. If memory runs out, the entry stays unchanged.
    pub fn set_annotator(&mut self, value: &Vec<Person>) -> Result<(), AllocError>
        ensures { SetsValue ⟦<Vec<Person> as Type>⟧ (⟦<Vec<Person> as Type>⟧.meaning value.now)
            (codes "annotator") self.old self.new result }
    {
        self.set_as("annotator", value)
    }

    /// Returns the field `bookauthor`: the authors of the book that the work is a part of (BibLaTeX manual, 2.2.2). If it
    /// is missing, the error is `Missing` with the name `bookauthor`, or out of memory.
    pub fn book_author(&self, alloc: Global) -> Result<Vec<Person>, RetrievalError>
        ensures { GetsValue ⟦<Vec<Person> as Type>⟧ self.now (codes "bookauthor") result }
    {
        self.get_as(alloc, "bookauthor")
    }

    /// Sets the field `bookauthor`: the authors of the book that the work is a part of. If memory runs out, the entry stays
    /// unchanged.
    pub fn set_book_author(&mut self, value: &Vec<Person>) -> Result<(), AllocError>
        ensures { SetsValue ⟦<Vec<Person> as Type>⟧ (⟦<Vec<Person> as Type>⟧.meaning value.now)
            (codes "bookauthor") self.old self.new result }
    {
        self.set_as("bookauthor", value)
    }

    /// Returns the field `commentator`: the authors of a commentary (BibLaTeX manual, 2.2.2). If it is missing, the error
    /// is `Missing` with the name `commentator`, or out of memory.
    pub fn commentator(&self, alloc: Global) -> Result<Vec<Person>, RetrievalError>
        ensures { GetsValue ⟦<Vec<Person> as Type>⟧ self.now (codes "commentator") result }
    {
        self.get_as(alloc, "commentator")
    }

    /// Sets the field `commentator`: the authors of a commentary. If memory runs out, the entry stays unchanged.
    pub fn set_commentator(&mut self, value: &Vec<Person>) -> Result<(), AllocError>
        ensures { SetsValue ⟦<Vec<Person> as Type>⟧ (⟦<Vec<Person> as Type>⟧.meaning value.now)
            (codes "commentator") self.old self.new result }
    {
        self.set_as("commentator", value)
    }

    /// Returns the field `foreword`: the authors of a foreword (BibLaTeX manual, 2.2.2). If it is missing, the error is
    /// `Missing` with the name `foreword`, or out of memory.
    pub fn foreword(&self, alloc: Global) -> Result<Vec<Person>, RetrievalError>
        ensures { GetsValue ⟦<Vec<Person> as Type>⟧ self.now (codes "foreword") result }
    {
        self.get_as(alloc, "foreword")
    }

    /// Sets the field `foreword`: the authors of a foreword. If memory runs out, the entry stays unchanged.
    pub fn set_foreword(&mut self, value: &Vec<Person>) -> Result<(), AllocError>
        ensures { SetsValue ⟦<Vec<Person> as Type>⟧ (⟦<Vec<Person> as Type>⟧.meaning value.now)
            (codes "foreword") self.old self.new result }
    {
        self.set_as("foreword", value)
    }

    /// Returns the field `holder`: the holders of a patent (BibLaTeX manual, 2.2.2). If it is missing, the error is
    /// `Missing` with the name `holder`, or out of memory.
    pub fn holder(&self, alloc: Global) -> Result<Vec<Person>, RetrievalError>
        ensures { GetsValue ⟦<Vec<Person> as Type>⟧ self.now (codes "holder") result }
    {
        self.get_as(alloc, "holder")
    }

    /// Sets the field `holder`: the holders of a patent. If memory runs out, the entry stays unchanged.
    pub fn set_holder(&mut self, value: &Vec<Person>) -> Result<(), AllocError>
        ensures { SetsValue ⟦<Vec<Person> as Type>⟧ (⟦<Vec<Person> as Type>⟧.meaning value.now)
            (codes "holder") self.old self.new result }
    {
        self.set_as("holder", value)
    }

    /// Returns the field `introduction`: the authors of an introduction (BibLaTeX manual, 2.2.2). If it is missing, the
    /// error is `Missing` with the name `introduction`, or out of memory.
    pub fn introduction(&self, alloc: Global) -> Result<Vec<Person>, RetrievalError>
        ensures { GetsValue ⟦<Vec<Person> as Type>⟧ self.now (codes "introduction") result }
    {
        self.get_as(alloc, "introduction")
    }

    /// Sets the field `introduction`: the authors of an introduction. If memory runs out, the entry stays unchanged.
    pub fn set_introduction(&mut self, value: &Vec<Person>) -> Result<(), AllocError>
        ensures { SetsValue ⟦<Vec<Person> as Type>⟧ (⟦<Vec<Person> as Type>⟧.meaning value.now)
            (codes "introduction") self.old self.new result }
    {
        self.set_as("introduction", value)
    }

    /// Returns the field `shortauthor`: the authors, abridged (BibLaTeX manual, 2.2.2). If it is missing, the error is
    /// `Missing` with the name `shortauthor`, or out of memory.
    pub fn short_author(&self, alloc: Global) -> Result<Vec<Person>, RetrievalError>
        ensures { GetsValue ⟦<Vec<Person> as Type>⟧ self.now (codes "shortauthor") result }
    {
        self.get_as(alloc, "shortauthor")
    }

    /// Sets the field `shortauthor`: the authors, abridged. If memory runs out, the entry stays unchanged.
    pub fn set_short_author(&mut self, value: &Vec<Person>) -> Result<(), AllocError>
        ensures { SetsValue ⟦<Vec<Person> as Type>⟧ (⟦<Vec<Person> as Type>⟧.meaning value.now)
            (codes "shortauthor") self.old self.new result }
    {
        self.set_as("shortauthor", value)
    }

    /// Returns the field `shorteditor`: the editors, abridged (BibLaTeX manual, 2.2.2). If it is missing, the error is
    /// `Missing` with the name `shorteditor`, or out of memory.
    pub fn short_editor(&self, alloc: Global) -> Result<Vec<Person>, RetrievalError>
        ensures { GetsValue ⟦<Vec<Person> as Type>⟧ self.now (codes "shorteditor") result }
    {
        self.get_as(alloc, "shorteditor")
    }

    /// Sets the field `shorteditor`: the editors, abridged. If memory runs out, the entry stays unchanged.
    pub fn set_short_editor(&mut self, value: &Vec<Person>) -> Result<(), AllocError>
        ensures { SetsValue ⟦<Vec<Person> as Type>⟧ (⟦<Vec<Person> as Type>⟧.meaning value.now)
            (codes "shorteditor") self.old self.new result }
    {
        self.set_as("shorteditor", value)
    }

    /// Returns the field `translator`: the translators (BibLaTeX manual, 2.2.2). If it is missing, the error is `Missing`
    /// with the name `translator`, or out of memory.
    pub fn translator(&self, alloc: Global) -> Result<Vec<Person>, RetrievalError>
        ensures { GetsValue ⟦<Vec<Person> as Type>⟧ self.now (codes "translator") result }
    {
        self.get_as(alloc, "translator")
    }

    /// Sets the field `translator`: the translators. If memory runs out, the entry stays unchanged.
    pub fn set_translator(&mut self, value: &Vec<Person>) -> Result<(), AllocError>
        ensures { SetsValue ⟦<Vec<Person> as Type>⟧ (⟦<Vec<Person> as Type>⟧.meaning value.now)
            (codes "translator") self.old self.new result }
    {
        self.set_as("translator", value)
    }
}
