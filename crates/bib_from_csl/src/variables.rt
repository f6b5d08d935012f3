//! The fields for the variables of items.

ghost use Rattle.std.specs.Prelude.{◌≡◌};
ghost use Rattle.bib_from_csl.specs.Variables as spec;

use crate::types::is_of_institution;
use bib_csl::item_types::ItemType;
use bib_csl::types::{counts_issues, counts_series, is_article, is_in_book, is_volume};
use bib_csl::variables::{Form, Variable};

// Returns the form of the variable with a name, or `None` for an unknown name.
#[tactic(auto, unfolding(crate::specs::Variables::form_of))]
pub(crate) fn form_of(name: &str) -> Option<Form>
    ensures { result ≡ spec.form_of name.now }
{
    match Variable::from_name(name) {
        Some(variable) => Some(variable.form()),
        None => None,
    }
}

// Returns the field for the title of the container. `in_work` says whether the item has a title of its volume.
fn container_field(kind: ItemType, in_work: bool) -> &'static str
    ensures { result.now ≡ spec.container_field kind in_work }
{
    if is_in_book(kind) && in_work {
        return "maintitle";
    }
    if is_article(kind) {
        return "journaltitle";
    }
    "booktitle"
}

// Returns the field for the title of the volume, or an empty text.
fn volume_field(kind: ItemType) -> &'static str
    ensures { result.now ≡ spec.volume_field kind }
{
    if is_volume(kind) {
        return "title";
    }
    if is_in_book(kind) {
        return "booktitle";
    }
    ""
}

// Returns the field for the title of an item.
fn own_field(kind: ItemType, in_work: bool) -> &'static str
    ensures { result.now ≡ spec.own_field kind in_work }
{
    if is_volume(kind) && in_work {
        return "maintitle";
    }
    "title"
}

// Returns the field for the publisher.
fn publisher_field(kind: ItemType) -> &'static str
    ensures { result.now ≡ spec.publisher_field kind }
{
    if is_of_institution(kind) {
        return "institution";
    }
    match kind {
        ItemType::Webpage => "organization",
        _ => "publisher",
    }
}

// Returns the field for the issue.
fn issue_field(kind: ItemType) -> &'static str
    ensures { result.now ≡ spec.issue_field kind }
{
    if counts_issues(kind) {
        return "number";
    }
    "issue"
}

// Returns the field for the number of the work itself: `number`, or `eid` if the type uses `number` for issues or series.
fn own_number_field(kind: ItemType) -> &'static str
    ensures { result.now ≡ spec.own_number_field kind }
{
    if counts_issues(kind) || counts_series(kind) {
        return "eid";
    }
    "number"
}

// Returns the field for the number in the series, or an empty text.
fn series_number_field(kind: ItemType) -> &'static str
    ensures { result.now ≡ spec.series_number_field kind }
{
    if counts_series(kind) {
        return "number";
    }
    ""
}

// Returns the field for a variable in the entry of an item of this type, or an empty text. `in_work` says whether the item has a title of
// its volume.
fn field_for(kind: ItemType, in_work: bool, variable: Variable) -> &'static str
    ensures { result.now ≡ spec.field_for kind in_work variable }
{
    match variable {
        Variable::Title => own_field(kind, in_work),
        Variable::VolumeTitle => volume_field(kind),
        Variable::ContainerTitle => container_field(kind, in_work),
        Variable::Publisher => publisher_field(kind),
        Variable::Issue => issue_field(kind),
        Variable::Number => own_number_field(kind),
        Variable::CollectionNumber => series_number_field(kind),
        _ => variable.field(),
    }
}

// Returns the field for the variable with a name, or an empty text. The field for `language` depends on the language, so it isn't returned
// here.
#[tactic(auto, unfolding(crate::specs::Variables::variable_field))]
pub(crate) fn field_of(kind: ItemType, in_work: bool, name: &str) -> &'static str
    ensures { result.now ≡ spec.variable_field kind in_work name.now }
{
    match Variable::from_name(name) {
        Some(variable) => field_for(kind, in_work, variable),
        None => "",
    }
}

// Returns the additional field for the archive or the role that a variable implies, or an empty text.
fn beside(variable: Variable) -> &'static str
    ensures { result.now ≡ spec.beside variable }
{
    match variable {
        Variable::Pmid => "eprinttype",
        Variable::Compiler => "editoratype",
        Variable::Director => "editorbtype",
        Variable::Organizer => "editorctype",
        _ => "",
    }
}

// Returns the value of that additional field, or an empty text.
fn beside_value(variable: Variable) -> &'static str
    ensures { result.now ≡ spec.beside_value variable }
{
    match variable {
        Variable::Pmid => "pubmed",
        Variable::Compiler => "compiler",
        Variable::Director => "director",
        Variable::Organizer => "organizer",
        _ => "",
    }
}

// Returns the additional field for the variable with a name, or an empty text.
#[tactic(auto, unfolding(crate::specs::Variables::beside_field))]
pub(crate) fn beside_field(name: &str) -> &'static str
    ensures { result.now ≡ spec.beside_field name.now }
{
    match Variable::from_name(name) {
        Some(variable) => beside(variable),
        None => "",
    }
}

// Returns the value of that additional field, or an empty text.
#[tactic(auto, unfolding(crate::specs::Variables::beside_text))]
pub(crate) fn beside_text(name: &str) -> &'static str
    ensures { result.now ≡ spec.beside_text name.now }
{
    match Variable::from_name(name) {
        Some(variable) => beside_value(variable),
        None => "",
    }
}
