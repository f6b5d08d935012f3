//! The types of items, by their names, and the types of their entries.

ghost use Rattle.std.specs.Prelude.{◌≡◌};
ghost use Rattle.bib_from_csl.specs.EntryTypes as spec;

use bib_csl::item_types::ItemType;

// Returns the type of an item whose type has this name; `Document` for an unknown name.
pub(crate) fn item_type_for(name: &str) -> ItemType
    ensures { result ≡ spec.item_type_for name.now }
{
    match ItemType::from_name(name) {
        Some(kind) => kind,
        None => ItemType::Document,
    }
}

// Returns the name of the type of the entry of an item whose type has this name.
pub(crate) fn written_type_name(name: &str) -> &'static str
    ensures { result.now ≡ spec.written_type_name name.now }
{
    item_type_for(name).entry_type()
}

// Returns the value of the field `entrysubtype` for an item whose type has this name, or an empty text.
pub(crate) fn subtype_of(name: &str) -> &'static str
    ensures { result.now ≡ spec.subtype_of name.now }
{
    match item_type_for(name) {
        ItemType::ArticleMagazine => "magazine",
        ItemType::ArticleNewspaper => "newspaper",
        _ => "",
    }
}

// Returns whether the work is published by an institution instead of a publisher.
pub(crate) fn is_of_institution(kind: ItemType) -> bool
    ensures { result ≡ spec.is_of_institution kind }
{
    matches!(
        kind,
        ItemType::Report | ItemType::Standard | ItemType::Thesis
    )
}
