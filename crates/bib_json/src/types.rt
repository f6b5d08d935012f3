//! The types of the values of fields, by the names of the fields.

ghost use Rattle.std.specs.Prelude.{◌≡◌};
ghost use Rattle.bib_json.specs.ValueTypes as spec;

/// The type of the value of a field.
#[derive(Debug, Clone, Copy, PartialEq, Eq)]
pub enum ValueType {
    /// People.
    People,
    /// A date or a range of dates.
    Date,
    /// A whole number.
    Number,
    /// Ranges of pages.
    Pages,
    /// Texts with commas between them, such as keys and keywords.
    Keys,
    /// Texts with `and` between them, such as places and publishers.
    Parts,
    /// Languages with `and` between them.
    Languages,
    /// A language.
    Language,
    /// The unit that page numbers count, such as pages or columns.
    Pagination,
    /// The role of an editor.
    Role,
    /// The gender of a name.
    Gender,
}

// Returns whether this is a field of people.
fn is_of_people(name: &str) -> bool
    ensures { result ≡ spec.is_listed_in spec.fields_of_people name.now }
{
    matches!(
        name,
        "author"
            | "editor"
            | "editora"
            | "editorb"
            | "editorc"
            | "translator"
            | "annotator"
            | "commentator"
            | "introduction"
            | "foreword"
            | "afterword"
            | "bookauthor"
            | "holder"
            | "shortauthor"
            | "shorteditor"
    )
}

// Returns whether this is a field of a date.
fn is_of_date(name: &str) -> bool
    ensures { result ≡ spec.is_listed_in spec.dated_fields name.now }
{
    matches!(name, "date" | "eventdate" | "origdate" | "urldate")
}

// Returns whether this is a field of a whole number.
fn is_of_number(name: &str) -> bool
    ensures { result ≡ spec.is_listed_in spec.number_fields name.now }
{
    matches!(name, "volume" | "volumes" | "edition")
}

// Returns whether this is a field of a list with commas between its texts.
fn is_of_keys(name: &str) -> bool
    ensures { result ≡ spec.is_listed_in spec.comma_fields name.now }
{
    matches!(
        name,
        "keywords" | "ids" | "xdata" | "entryset" | "related" | "origlanguage"
    )
}

// Returns whether this is a field of a list with `and` between its texts.
fn is_of_parts(name: &str) -> bool
    ensures { result ≡ spec.is_listed_in spec.and_fields name.now }
{
    matches!(
        name,
        "publisher"
            | "location"
            | "address"
            | "organization"
            | "institution"
            | "school"
            | "origlocation"
            | "origpublisher"
    )
}

// Returns whether this is a field of the unit that page numbers count.
fn is_of_pagination(name: &str) -> bool
    ensures { result ≡ spec.is_listed_in spec.pagination_fields name.now }
{
    matches!(name, "pagination" | "bookpagination")
}

// Returns whether this is a field of the role of an editor.
fn is_of_role(name: &str) -> bool
    ensures { result ≡ spec.is_listed_in spec.role_fields name.now }
{
    matches!(
        name,
        "editortype" | "editoratype" | "editorbtype" | "editorctype"
    )
}

// Returns the type of a field that is the only one of its type.
fn single_type(name: &str) -> Option<ValueType>
    ensures { result ≡ spec.single_type name.now }
{
    match name {
        "pages" => Some(ValueType::Pages),
        "language" => Some(ValueType::Languages),
        "langid" => Some(ValueType::Language),
        "gender" => Some(ValueType::Gender),
        _ => None,
    }
}

/// Returns the type of the field `name`, a name in lowercase, or `None` if the field has no type.
pub fn value_type(name: &str) -> Option<ValueType>
    ensures { result ≡ spec.value_type name.now }
{
    if is_of_people(name) {
        Some(ValueType::People)
    } else if is_of_date(name) {
        Some(ValueType::Date)
    } else if is_of_number(name) {
        Some(ValueType::Number)
    } else if is_of_keys(name) {
        Some(ValueType::Keys)
    } else if is_of_parts(name) {
        Some(ValueType::Parts)
    } else if is_of_pagination(name) {
        Some(ValueType::Pagination)
    } else if is_of_role(name) {
        Some(ValueType::Role)
    } else {
        single_type(name)
    }
}
