//! The people of an item.

ghost use Rattle.std.specs.Prelude.{◌≡◌, [], ◌++◌, false, is_some, OnOk, IfOk};
ghost use Rattle.std.specs.List.{list_all};
ghost use Rattle.std.specs.Option.{option_copied};
ghost use Rattle.bib_chunks.specs.Values.{text};
ghost use Rattle.bib_entry.specs.Editors.{role_of};
ghost use Rattle.bib_csl.specs.Fields.{given_people};
ghost use Rattle.bib_csl.specs.People as spec;
ghost use Rattle.bib_csl.specs.Texts.{field};
ghost use Rattle.bib_csl.specs.declared.variables.Variable.{Variable as AnyVariable};

use crate::fields::add_names;
use crate::item::{Field, Name, NameParts};
use crate::item_types::ItemType;
use crate::standing::{says_others, shown};
use crate::tags::loosened;
use crate::variables::Variable;
use bib_chunks::chunk::cuts::{and_list, comma_list};
use bib_chunks::chunk::{Chunk, ChunksRef, format_verbatim};
use bib_entry::entry::Entry;
use bib_people::person::Person;
use bib_tables::types::EditorType;
use bib_text::items::Items;
use bib_text::text::Text;
use bib_values::enums::read_editor_type;
use std::alloc::{AllocError, Global};

// Returns whether a chunk is verbatim (in braces), or normal and empty.
fn is_braced(chunk: &Chunk) -> bool
    ensures { result ≡ spec.is_braced chunk.now }
{
    match chunk {
        Chunk::Normal(text) => text.is_empty(),
        Chunk::Verbatim(_) => true,
        Chunk::Math(_) => false,
    }
}

// Returns whether each chunk is verbatim, or normal and empty.
fn is_all_braced(chunks: ChunksRef<'_>) -> bool
    ensures { result ≡ list_all (λ c. spec.is_braced c.v) chunks.now }
{
    chunks.iter().all(|chunk| is_braced(&chunk.v))
}

// Returns the parts of a person's name. `uses_prefix` says whether the prefix is part of the family name.
#[tactic(auto, unfolding(crate::specs::People::parts_with))]
fn parts_with(alloc: Global, uses_prefix: bool, person: Person) -> Result<NameParts, AllocError>
    ensures { IfOk result (λ parts. parts ≡ spec.parts_with uses_prefix person) }
{
    let Person {
        name,
        given_name,
        prefix,
        suffix,
        ..
    } = person;
    let family = loosened(alloc, name)?;
    let given = loosened(alloc, given_name)?;
    let suffix = loosened(alloc, suffix)?;
    let particle = loosened(alloc, prefix)?;
    if uses_prefix {
        return Ok(NameParts {
            family,
            given,
            suffix,
            dropping_particle: Text::new(alloc),
            non_dropping_particle: particle,
        });
    }
    Ok(NameParts {
        family,
        given,
        suffix,
        dropping_particle: particle,
        non_dropping_particle: Text::new(alloc),
    })
}

// Returns whether a name has no parts: it is empty, in braces, or the word `others`.
#[tactic(auto, unfolding(crate::specs::People::is_literal))]
fn is_literal(alloc: Global, chunks: ChunksRef<'_>) -> Result<bool, AllocError>
    ensures { IfOk result (λ literal. literal ≡ spec.is_literal chunks.now) }
{
    if is_all_braced(chunks) {
        return Ok(true);
    }
    says_others(alloc, chunks)
}

/// Returns the name in `chunks`. `uses_prefix` says whether a prefix is part of the family name. If the name has the key `useprefix` of the
/// extended name format, that key decides instead. The only error is out of memory.
#[tactic(auto, unfolding(crate::specs::People::name_said))]
pub fn name_said(
    alloc: Global,
    uses_prefix: bool,
    chunks: ChunksRef<'_>,
) -> Result<Name, AllocError>
    ensures { IfOk result (λ name. name ≡ spec.name_said uses_prefix chunks.now) }
{
    if is_literal(alloc, chunks)? {
        return Ok(Name::Literal(loosened(alloc, shown(alloc, chunks)?)?));
    }
    let person = Person::parse(alloc, chunks)?;
    let uses_prefix = person.use_prefix.unwrap_or(uses_prefix);
    Ok(Name::Parts(parts_with(alloc, uses_prefix, person)?))
}

// Returns whether a name is empty.
#[tactic(auto, unfolding(crate::specs::People::says_nothing))]
fn says_nothing(name: &Name) -> bool
    ensures { result ≡ spec.says_nothing name.now }
{
    match name {
        Name::Literal(text) => text.is_empty(),
        Name::Parts(parts) => {
            parts.family.is_empty()
                && parts.given.is_empty()
                && parts.suffix.is_empty()
                && parts.dropping_particle.is_empty()
                && parts.non_dropping_particle.is_empty()
        }
    }
}

// Appends a name, unless it is empty.
#[tactic(auto, unfolding(crate::specs::People::unless_empty))]
fn add_unless_empty(names: &mut Items<Name>, name: Name) -> Result<(), AllocError>
    ensures { OnOk result (names.new ≡ names.old ++ spec.unless_empty name) }
{
    if !says_nothing(&name) {
        names.push(name)?;
    }
    Ok(())
}

// Appends the names of a list of people, except empty ones.
#[tactic(auto, unfolding(crate::specs::People::names_listed))]
fn add_names_in(
    alloc: Global,
    uses_prefix: bool,
    chunks: ChunksRef<'_>,
    names: &mut Items<Name>,
) -> Result<(), AllocError>
    ensures { OnOk result (names.new ≡ names.old ++ spec.names_listed uses_prefix chunks.now) }
{
    let list = and_list(alloc, chunks)?;
    'people: for part in list.as_slice() {
        add_unless_empty(names, name_said(alloc, uses_prefix, part.as_slice())?)?;
    }
    Ok(())
}

// Appends the names of a field.
#[tactic(auto, unfolding(crate::specs::People::names_said))]
fn add_names_of(
    alloc: Global,
    uses_prefix: bool,
    field: Option<ChunksRef<'_>>,
    names: &mut Items<Name>,
) -> Result<(), AllocError>
    ensures { OnOk result (names.new ≡ names.old ++ spec.names_said uses_prefix (option_copied field.entry)) }
{
    match field {
        Some(chunks) => add_names_in(alloc, uses_prefix, chunks, names),
        None => Ok(()),
    }
}

// Returns whether an option of an entry is `useprefix`, `useprefix=true` or `useprefix = true`: prefixes are then part of family names.
#[tactic(auto, unfolding(crate::specs::People::is_prefix_option))]
fn is_prefix_option(alloc: Global, option: ChunksRef<'_>) -> Result<bool, AllocError>
    ensures { IfOk result (λ is. is ≡ spec.is_prefix_option (text option.now)) }
{
    let text = format_verbatim(alloc, option)?;
    Ok(matches!(
        text.as_str(),
        "useprefix" | "useprefix=true" | "useprefix = true"
    ))
}

// Returns whether one of the options says that prefixes are part of family names.
fn uses_prefix_in(alloc: Global, options: Option<ChunksRef<'_>>) -> Result<bool, AllocError>
    ensures { IfOk result (λ uses. uses ≡ spec.uses_prefix_in (option_copied options.entry)) }
{
    let Some(chunks) = options else {
        return Ok(false);
    };
    let list = comma_list(alloc, chunks)?;
    'options: for option in list.as_slice() {
        if is_prefix_option(alloc, option.as_slice())? {
            return Ok(true);
        }
    }
    Ok(false)
}

// Returns whether prefixes are part of family names in an entry (`useprefix` in its field `options`).
#[tactic(auto, unfolding(crate::specs::People::uses_prefix))]
fn uses_prefix(alloc: Global, entry: &Entry) -> Result<bool, AllocError>
    ensures { IfOk result (λ uses. uses ≡ spec.uses_prefix entry.now) }
{
    uses_prefix_in(alloc, entry.get("options"))
}

// Returns the variable of editors with this role: `compiler`, `director` or `organizer` for these roles, and `editor` for any other.
fn variable_of_role(role: &EditorType) -> Variable
    ensures { result ≡ spec.variable_of_role role.now }
{
    match role {
        EditorType::Compiler => Variable::Compiler,
        EditorType::Director => Variable::Director,
        EditorType::Organizer => Variable::Organizer,
        _ => Variable::Editor,
    }
}

// Returns whether editors with this role are in the variable.
#[tactic(auto, unfolding(crate::specs::People::is_under))]
fn is_under(variable: Variable, role: &EditorType) -> bool
    ensures { result ≡ spec.is_under variable role.now }
{
    variable_of_role(role).name() == variable.name()
}

// Returns the role in a field, or `Editor` if the field is missing.
fn role_of(alloc: Global, field: Option<ChunksRef<'_>>) -> Result<EditorType, AllocError>
    ensures { IfOk result (λ role. role ≡ role_of (option_copied field.entry)) }
{
    match field {
        Some(chunks) => read_editor_type(alloc, chunks),
        None => Ok(EditorType::Editor),
    }
}

// Returns whether an entry has this field.
fn has(entry: &Entry, name: &str) -> bool
    ensures { result ≡ is_some (field entry.now name.now) }
{
    entry.get(name).is_some()
}

// Appends the names in the field `people`, if the role in the field `role` belongs to the variable.
#[tactic(auto, unfolding(crate::specs::People::editors_listed))]
fn add_editors_in(
    alloc: Global,
    variable: Variable,
    entry: &Entry,
    people: &str,
    role: &str,
    names: &mut Items<Name>,
) -> Result<(), AllocError>
    ensures { OnOk result (names.new ≡ names.old ++ spec.editors_listed variable entry.now people.now role.now) }
{
    if !has(entry, people) {
        return Ok(());
    }
    let role = role_of(alloc, entry.get(role))?;
    if is_under(variable, &role) {
        let uses_prefix = uses_prefix(alloc, entry)?;
        return add_names_of(alloc, uses_prefix, entry.get(people), names);
    }
    Ok(())
}

// Returns the editors of an entry whose role belongs to the variable.
#[tactic(auto, unfolding(crate::specs::People::editors_under))]
fn editors_under(
    alloc: Global,
    variable: Variable,
    entry: &Entry,
) -> Result<Items<Name>, AllocError>
    ensures { IfOk result (λ names. names ≡ spec.editors_under variable entry.now) }
{
    let mut names = Items::new(alloc);
    add_editors_in(alloc, variable, entry, "editor", "editortype", &mut names)?;
    add_editors_in(alloc, variable, entry, "editora", "editoratype", &mut names)?;
    add_editors_in(alloc, variable, entry, "editorb", "editorbtype", &mut names)?;
    add_editors_in(alloc, variable, entry, "editorc", "editorctype", &mut names)?;
    Ok(names)
}

// Returns whether an entry has a field for editors. Without such a field, all variables for editors are empty.
fn has_editors(entry: &Entry) -> bool
    ensures { result ≡ false → ((v : AnyVariable) → spec.editors_under v entry.now ≡ []) }
{
    if has(entry, "editor") {
        return true;
    }
    if has(entry, "editora") {
        return true;
    }
    if has(entry, "editorb") {
        return true;
    }
    has(entry, "editorc")
}

// Appends the variable with the editors whose role belongs to it.
fn add_editors(
    alloc: Global,
    variable: Variable,
    entry: &Entry,
    fields: &mut Items<Field>,
) -> Result<(), AllocError>
    ensures { OnOk result (fields.new ≡ fields.old ++ given_people variable (spec.editors_under variable entry.now)) }
{
    add_names(fields, variable, editors_under(alloc, variable, entry)?)
}

// Appends the editors of an entry, each in the variable of the role.
#[tactic(auto, unfolding(crate::specs::People::editor_fields))]
fn add_all_editors(
    alloc: Global,
    entry: &Entry,
    fields: &mut Items<Field>,
) -> Result<(), AllocError>
    ensures { OnOk result (fields.new ≡ fields.old ++ spec.editor_fields entry.now) }
{
    if !has_editors(entry) {
        return Ok(());
    }
    add_editors(alloc, Variable::Editor, entry, fields)?;
    add_editors(alloc, Variable::Compiler, entry, fields)?;
    add_editors(alloc, Variable::Director, entry, fields)?;
    add_editors(alloc, Variable::Organizer, entry, fields)
}

// Returns the people in the field `name`.
#[tactic(auto, unfolding(crate::specs::People::people))]
fn people(alloc: Global, entry: &Entry, name: &str) -> Result<Items<Name>, AllocError>
    ensures { IfOk result (λ names. names ≡ spec.people entry.now name.now) }
{
    let mut names = Items::new(alloc);
    let uses_prefix = uses_prefix(alloc, entry)?;
    add_names_of(alloc, uses_prefix, entry.get(name), &mut names)?;
    Ok(names)
}

// Appends a variable with the people in its field.
#[tactic(auto, unfolding(crate::specs::People::given_people_in))]
fn add_people_in(
    alloc: Global,
    variable: Variable,
    entry: &Entry,
    fields: &mut Items<Field>,
) -> Result<(), AllocError>
    ensures { OnOk result (fields.new ≡ fields.old ++ spec.given_people_in variable entry.now) }
{
    add_names(fields, variable, people(alloc, entry, variable.field())?)
}

// Returns whether the item is a patent.
fn is_patent(kind: ItemType) -> bool
    ensures { result ≡ spec.is_patent kind }
{
    matches!(kind, ItemType::Patent)
}

// Returns the authors, or the holders of a patent without authors.
#[tactic(auto, unfolding(crate::specs::People::authors_of))]
fn authors_of(alloc: Global, kind: ItemType, entry: &Entry) -> Result<Items<Name>, AllocError>
    ensures { IfOk result (λ names. names ≡ spec.authors_of kind entry.now) }
{
    let authors = people(alloc, entry, "author")?;
    if is_patent(kind) && authors.is_empty() {
        return people(alloc, entry, "holder");
    }
    Ok(authors)
}

// Appends the authors, the editors by role, the translators and the authors of the container.
#[tactic(auto, unfolding(crate::specs::People::people_fields))]
pub(crate) fn add_people(
    alloc: Global,
    kind: ItemType,
    entry: &Entry,
    fields: &mut Items<Field>,
) -> Result<(), AllocError>
    ensures { OnOk result (fields.new ≡ fields.old ++ spec.people_fields kind entry.now) }
{
    add_names(fields, Variable::Author, authors_of(alloc, kind, entry)?)?;
    add_all_editors(alloc, entry, fields)?;
    add_people_in(alloc, Variable::Translator, entry, fields)?;
    add_people_in(alloc, Variable::ContainerAuthor, entry, fields)
}
