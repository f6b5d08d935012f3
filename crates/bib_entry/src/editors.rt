//! The editors of an entry.

ghost use Rattle.std.specs.Prelude.{◌≡◌, ◌++◌, IfOk, IfErr, OnOk};
ghost use Rattle.bib_tables.specs.TypeError.{no_memory};
ghost use Rattle.std.specs.FinMap as by_name;
ghost use Rattle.bib_entry.specs.Editors.{contents, editors_in, editors_of, role_of};

use crate::entry::Entry;
use bib_people::person::Person;
use bib_tables::type_error::TypeError;
use bib_tables::types::EditorType;
use bib_typed::typed::Type;
use std::alloc::Global;

impl Entry {
    /// Returns the people of each of the fields `editor`, `editora`, `editorb` and `editorc` that the entry has, with their
    /// role. The role is the value of `editortype`, `editoratype`, `editorbtype` or `editorctype`, and `Editor` if that field
    /// is missing. The only error is out of memory.
    pub fn editors(&self, alloc: Global) -> Result<Vec<(Vec<Person>, EditorType)>, TypeError>
        ensures editors { IfOk result (λ editors. contents editors.items ≡ editors_of self.now) }
        ensures refused { IfErr result (λ e. e ≡ no_memory) }
    {
        let mut editors = Vec::new(alloc);
        self.add_editors(alloc, "editor", "editortype", &mut editors)?;
        self.add_editors(alloc, "editora", "editoratype", &mut editors)?;
        self.add_editors(alloc, "editorb", "editorbtype", &mut editors)?;
        self.add_editors(alloc, "editorc", "editorctype", &mut editors)?;
        Ok(editors)
    }

    // Appends the people of the field `people`, if the entry has it, with the role in the field `role`.
    fn add_editors(
        &self,
        alloc: Global,
        people: &str,
        role: &str,
        editors: &mut Vec<(Vec<Person>, EditorType)>,
    ) -> Result<(), TypeError>
        ensures added { OnOk result (contents editors.new.items ≡
            contents editors.old.items ++ editors_in self.now people.now role.now) }
        ensures refused { IfErr result (λ e. e ≡ no_memory) }
    {
        let Some(chunks) = self.get(people) else {
            return Ok(());
        };
        let people = <Vec<Person>>::from_chunks(alloc, chunks)?;
        let role = self.role(alloc, role)?;
        editors.push((people, role))?;
        Ok(())
    }

    // Returns the role in the field `name`, or `Editor` if it is missing.
    fn role(&self, alloc: Global, name: &str) -> Result<EditorType, TypeError>
        ensures role { IfOk result (λ role. role ≡ role_of (by_name.get self.now.fields name.now)) }
        ensures refused { IfErr result (λ e. e ≡ no_memory) }
    {
        match self.get(name) {
            Some(chunks) => EditorType::from_chunks(alloc, chunks),
            None => Ok(EditorType::Editor),
        }
    }
}
