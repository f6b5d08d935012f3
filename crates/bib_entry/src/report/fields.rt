// The required fields that an entry lacks, and the forbidden fields that it has.

ghost use Rattle.std.specs.Prelude.{◌≡◌, ◌++◌, IfOk, OnOk, codes};
ghost use Rattle.std.specs.List.{filter};
ghost use Rattle.std.specs.Option.{option_copied};
ghost use Rattle.bib_tables.specs.Requirements.{texts};
ghost use Rattle.bib_text.specs.Enums.{value_named};
ghost use Rattle.bib_entry.specs.Reports.{lacks, has_chunks, has_field, has_editor, has_other, other_required_names, only_if, missing_people, missing_pages, missing_date, superfluous_people, superfluous_pages};

use crate::entry::Entry;
use bib_tables::mechanics::{AuthorMode, PagesChapterMode, Requirements};
use std::alloc::{AllocError, Global};

// Appends `name` if `is_reported`.
fn push_if(
    names: &mut Vec<&'static str>,
    is_reported: bool,
    name: &'static str,
) -> Result<(), AllocError>
    ensures { OnOk result (texts names.new.items ≡ texts names.old.items ++ only_if is_reported name.now) }
{
    if is_reported {
        names.push(name)?;
    }
    Ok(())
}

impl Entry {
    // Returns whether the entry has the field `name`.
    fn has_field(&self, name: &str) -> bool
        ensures { result ≡ has_field self.now name.now }
    {
        self.get(name).is_some()
    }

    // Returns whether the entry has the field `name` with at least one chunk.
    fn has_chunks(&self, name: &str) -> bool
        ensures { result ≡ has_chunks self.now name.now }
    {
        match self.get(name) {
            Some(chunks) => !chunks.is_empty(),
            None => false,
        }
    }

    // Returns whether a required field has no chunks under any of its names.
    fn lacks(&self, name: &str) -> bool
        ensures { result ≡ lacks self.now name.now }
    {
        !(self.has_chunks(name) || self.has_other(other_name(name)))
    }

    // Returns whether there is a name and its field has chunks.
    fn has_other(&self, name: Option<&str>) -> bool
        ensures { result ≡ has_other self.now (option_copied name.entry) }
    {
        match name {
            Some(name) => self.has_chunks(name),
            None => false,
        }
    }

    // Returns whether the entry has one of the four fields of editors.
    fn has_editor(&self) -> bool
        ensures { result ≡ has_editor self.now }
    {
        self.has_field("editor")
            || self.has_field("editora")
            || self.has_field("editorb")
            || self.has_field("editorc")
    }

    // Returns the names of required fields that the entry lacks.
    #[tactic(auto, using(crate::proofs::ReportFacts::only_if_first))]
    fn lacked_names(
        &self,
        alloc: Global,
        names: &[&'static str],
    ) -> Result<Vec<&'static str>, AllocError>
        ensures { IfOk result (λ found. texts found.items ≡ filter (lacks self.now) (texts names.now)) }
    {
        let mut found = Vec::new(alloc);
        for name in names {
            push_if(&mut found, self.lacks(*name), *name)?;
        }
        Ok(found)
    }

    // Returns the names whose fields have chunks.
    #[tactic(auto, using(crate::proofs::ReportFacts::only_if_first))]
    fn filled_names(
        &self,
        alloc: Global,
        names: &[&'static str],
    ) -> Result<Vec<&'static str>, AllocError>
        ensures { IfOk result (λ found. texts found.items ≡ filter (has_chunks self.now) (texts names.now)) }
    {
        let mut found = Vec::new(alloc);
        for name in names {
            push_if(&mut found, self.has_chunks(*name), *name)?;
        }
        Ok(found)
    }

    // Appends `editor` and `author`, each if `rule` requires it and the entry lacks it. If one of them is enough and the
    // entry lacks both, appends `author`.
    fn add_people(
        &self,
        rule: AuthorMode,
        missing: &mut Vec<&'static str>,
    ) -> Result<(), AllocError>
        ensures { OnOk result (texts missing.new.items ≡ texts missing.old.items
            ++ missing_people rule (has_field self.now (codes "author")) (has_editor self.now)) }
    {
        let no_author = !self.has_field("author");
        let no_editor = !self.has_editor();
        match rule {
            AuthorMode::NoneRequired => Ok(()),
            AuthorMode::OneRequired => push_if(missing, no_author && no_editor, "author"),
            AuthorMode::BothRequired => {
                push_if(missing, no_editor, "editor")?;
                push_if(missing, no_author, "author")
            }
            AuthorMode::AuthorRequired | AuthorMode::AuthorRequiredEditorOptional => {
                push_if(missing, no_author, "author")
            }
            AuthorMode::EditorRequiredAuthorForbidden => push_if(missing, no_editor, "editor"),
        }
    }

    // Appends `pages` if `rule` requires pages and the entry lacks them. If a chapter is enough too, the entry must lack both.
    fn add_pages(
        &self,
        rule: PagesChapterMode,
        missing: &mut Vec<&'static str>,
    ) -> Result<(), AllocError>
        ensures { OnOk result (texts missing.new.items ≡ texts missing.old.items
            ++ missing_pages rule (has_field self.now (codes "pages")) (has_field self.now (codes "chapter"))) }
    {
        match rule {
            PagesChapterMode::OneRequired => {
                push_if(
                    missing,
                    !(self.has_field("pages") || self.has_field("chapter")),
                    "pages",
                )
            }
            PagesChapterMode::PagesRequired => push_if(missing, !self.has_field("pages"), "pages"),
            _ => Ok(()),
        }
    }

    // Returns the fields that `asked` requires and the entry lacks.
    pub(crate) fn missing_fields(
        &self,
        alloc: Global,
        asked: &Requirements,
    ) -> Result<Vec<&'static str>, AllocError>
        ensures { IfOk result (λ missing. texts missing.items ≡
            ((filter (lacks self.now) (texts asked.now.required.items)
            ++ missing_people asked.now.author_eds_field (has_field self.now (codes "author")) (has_editor self.now))
            ++ missing_pages asked.now.page_chapter_field (has_field self.now (codes "pages")) (has_field self.now (codes "chapter")))
            ++ missing_date asked.now.needs_date self.now) }
    {
        let mut missing = self.lacked_names(alloc, asked.required.as_slice())?;
        self.add_people(asked.author_eds_field, &mut missing)?;
        self.add_pages(asked.page_chapter_field, &mut missing)?;
        let is_dated = self.has_field("date") || self.has_field("year");
        push_if(&mut missing, asked.needs_date && !is_dated, "year")?;
        Ok(missing)
    }

    // Appends the author if `rule` forbids it and the entry has one.
    fn add_forbidden_people(
        &self,
        rule: AuthorMode,
        superfluous: &mut Vec<&'static str>,
    ) -> Result<(), AllocError>
        ensures { OnOk result (texts superfluous.new.items ≡ texts superfluous.old.items
            ++ superfluous_people rule self.now) }
    {
        match rule {
            AuthorMode::EditorRequiredAuthorForbidden => {
                push_if(superfluous, self.has_field("author"), "author")
            }
            _ => Ok(()),
        }
    }

    // Appends the pages and the chapter if `rule` forbids them and the entry has them.
    fn add_forbidden_pages(
        &self,
        rule: PagesChapterMode,
        superfluous: &mut Vec<&'static str>,
    ) -> Result<(), AllocError>
        ensures { OnOk result (texts superfluous.new.items ≡ texts superfluous.old.items
            ++ superfluous_pages rule self.now) }
    {
        match rule {
            PagesChapterMode::BothForbidden => {
                push_if(superfluous, self.has_field("pages"), "pages")?;
                push_if(superfluous, self.has_field("chapter"), "chapter")
            }
            _ => Ok(()),
        }
    }

    // Returns the fields that `asked` forbids and the entry has.
    pub(crate) fn superfluous_fields(
        &self,
        alloc: Global,
        asked: &Requirements,
    ) -> Result<Vec<&'static str>, AllocError>
        ensures { IfOk result (λ superfluous. texts superfluous.items ≡
            (filter (has_chunks self.now) (texts asked.now.forbidden.items)
            ++ superfluous_people asked.now.author_eds_field self.now)
            ++ superfluous_pages asked.now.page_chapter_field self.now) }
    {
        let mut superfluous = self.filled_names(alloc, asked.forbidden.as_slice())?;
        self.add_forbidden_people(asked.author_eds_field, &mut superfluous)?;
        self.add_forbidden_pages(asked.page_chapter_field, &mut superfluous)?;
        Ok(superfluous)
    }
}

// Returns the other name of a required field, if it has one.
fn other_name(name: &str) -> Option<&'static str>
    ensures { option_copied result ≡ value_named other_required_names name.now }
{
    match name {
        "journaltitle" => Some("journal"),
        "location" => Some("address"),
        "school" => Some("institution"),
        _ => None,
    }
}
