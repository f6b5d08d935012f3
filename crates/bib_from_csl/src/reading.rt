//! Parses the objects of CSL-JSON as items.

ghost use Rattle.std.specs.Prelude.{◌≡◌, ◌==◌, ◌++◌, map, true, IfOk, IfSome, OnOk, is_some};
ghost use Rattle.std.specs.List.{before_first, after_first};
ghost use Rattle.std.specs.Option.{option_map};
ghost use Rattle.bib_dates.specs.Dates.{holds as has_byte};
ghost use Rattle.bib_text.specs.Characters as char;
ghost use Rattle.json.specs.Value.{value_view};
ghost use Rattle.bib_from_csl.specs.GivenItems as spec;

use crate::dates::{given_date, is_whole_date};
use crate::given::{Given, GivenItem};
use crate::names::{are_objects, are_whole_names, given_names};
use crate::objects::{elements, members, string_under, text_in, text_under};
use crate::titles::{is_own_title, protected_title};
use crate::values::replaced;
use crate::variables::form_of;
use bib_csl::item::Content;
use bib_csl::sentence_items::is_english_tag;
use bib_csl::variables::Form;
use bib_text::items::Items;
use bib_text::text::Text;
use json::Value;
use std::alloc::{AllocError, Global};

/// The reason why the items of a text can't be converted.
#[derive(Debug, Clone, Copy, PartialEq, Eq)]
pub enum Fault {
    /// The text isn't JSON, or its nesting is too deep.
    NotJson,
    /// The text is JSON, but neither an array nor an object.
    NotAnArray,
    /// An element is no object.
    NotAnObject,
    /// An item has none of the members `citation-key`, `id` and `DOI` that is a text or a number.
    NoId,
    /// An item has no `type` that is a text.
    NoType,
    /// A variable of an item has another form than a text or a number, an array of these, names, or a date.
    WrongForm,
    /// The entries of two items have one key.
    KeyTwice,
}

/// The result of parsing an object.
#[derive(Debug, Drop)]
pub enum ItemReading {
    /// The item.
    Says(GivenItem),
    /// The reason why it isn't an item.
    Unfit(Fault),
}

/// The result of parsing the items of a text.
#[derive(Debug, Drop)]
pub enum ItemsReading {
    /// The items.
    Are(Items<GivenItem>),
    /// The index of the first element that isn't an item, or 0 if the text is neither a JSON array nor an object, and the reason.
    Refused(usize, Fault),
}

// Returns whether a text consists of ASCII digits, hyphens, en dashes, commas and spaces, as page numbers do.
fn are_numbers(text: &str) -> bool
    ensures { result ≡ spec.are_numbers text.now }
{
    text.chars().all(|c| c.is_ascii_digit() || matches!(c, '-' | '–' | ',' | ' '))
}

// Returns whether the hyphens of a text are written as en dashes: it is the variable `page`, and consists of page numbers.
#[tactic(auto, unfolding(crate::specs::GivenItems::has_dashes))]
fn has_dashes(name: &str, text: &str) -> bool
    ensures { result ≡ spec.has_dashes name.now text.now }
{
    name == "page" && are_numbers(text)
}

// Returns the text with an en dash for each hyphen.
#[tactic(auto, unfolding(crate::specs::GivenItems::dashed_text))]
fn dashed_text(alloc: Global, text: &str) -> Result<Text, AllocError>
    ensures { IfOk result (λ dashed. dashed ≡ spec.dashed_text text.now) }
{
    replaced(alloc, text, '-', "–")
}

// Returns the text before and after the first hyphen, or `None` without a hyphen.
pub(crate) fn sides(text: &str) -> Option<(&str, &str)>
    ensures some { is_some result ≡ has_byte char.hyphen text.now }
    ensures from { IfSome result (λ p. p.0.now ≡ before_first (λ b. b == char.hyphen) text.now) }
    ensures to { IfSome result (λ p. p.1.now ≡ after_first (λ b. b == char.hyphen) text.now) }
{
    text.split_once('-')
}

// Returns the text before the first hyphen if it equals the text after that, such as `115` for `115-115`, or another text unchanged.
#[tactic(auto, unfolding(crate::specs::GivenItems::single_page))]
fn single_page(text: &str) -> &str
    ensures { result.now ≡ spec.single_page text.now }
{
    match sides(text) {
        Some((first, last)) if first == last => first,
        _ => text,
    }
}

// Returns the text of a variable. Page numbers are replaced by their `single_page`, with an en dash for each hyphen. If `keeps_case`, a
// title is replaced by its `protected_title`.
#[tactic(auto, unfolding(crate::specs::GivenItems::content_text))]
fn content_text(alloc: Global, keeps_case: bool, name: &str, text: &str) -> Result<Text, AllocError>
    ensures { IfOk result (λ content. content ≡ spec.content_text keeps_case name.now text.now) }
{
    if has_dashes(name, text) {
        return dashed_text(alloc, single_page(text));
    }
    if keeps_case && is_own_title(name) {
        return protected_title(alloc, text);
    }
    Text::from_str(alloc, text)
}

// Returns a member with this content.
fn given(
    alloc: Global,
    name: &str,
    content: Option<Content>,
    is_whole: bool,
) -> Result<Option<Given>, AllocError>
    ensures { IfOk result (λ member. member ≡ spec.member_with name.now content is_whole) }
{
    Ok(Some(Given {
        name: Text::from_str(alloc, name)?,
        content,
        is_whole,
    }))
}

// Returns a variable of names, or `None` if the value has another form.
#[tactic(auto, unfolding(crate::specs::GivenItems::names_member))]
fn names_member(alloc: Global, name: &str, value: &Value<'_>) -> Result<Option<Given>, AllocError>
    ensures { IfOk result (λ member. member ≡ spec.names_member name.now (value_view value.now)) }
{
    if !are_objects(value) {
        return Ok(None);
    }
    let names = given_names(alloc, value)?;
    given(
        alloc,
        name,
        Some(Content::Names(names)),
        are_whole_names(value),
    )
}

// Returns a variable of a date, or `None` if the value has another form.
#[tactic(auto, unfolding(crate::specs::GivenItems::date_member))]
fn date_member(alloc: Global, name: &str, value: &Value<'_>) -> Result<Option<Given>, AllocError>
    ensures { IfOk result (λ member. member ≡ spec.date_member name.now (value_view value.now)) }
{
    if members(value).is_none() {
        return Ok(None);
    }
    let is_whole = is_whole_date(alloc, value)?;
    match given_date(alloc, value)? {
        Some(date) => given(alloc, name, Some(Content::Date(date)), is_whole),
        None => given(alloc, name, None, is_whole),
    }
}

// Appends the text of an element, after a comma and a space unless it is the first.
fn push_part(joined: &mut Text, is_first: bool, text: &str) -> Result<(), AllocError>
    ensures { OnOk result (joined.new ≡ joined.old ++ spec.next_part is_first text.now) }
{
    if !is_first {
        joined.push_str(", ")?;
    }
    joined.push_str(text)
}

// Returns the texts of elements with a comma and a space between them, or `None` if an element is neither a text nor a number.
fn joined_texts(alloc: Global, values: &[Value<'_>]) -> Result<Option<Text>, AllocError>
    ensures { IfOk result (λ joined. joined ≡ spec.joined_from true (map value_view values.now)) }
{
    let mut joined = Text::new(alloc);
    let mut is_first = true;
    'elements: for value in values {
        let Some(text) = text_in(value) else {
            return Ok(None);
        };
        push_part(&mut joined, is_first, text)?;
        is_first = false;
    }
    Ok(Some(joined))
}

// Returns a text or a number, or the texts of an array with a comma and a space between them, as in the `ISSN` of items from doi.org.
// Returns `None` for another form.
fn text_or_texts(alloc: Global, value: &Value<'_>) -> Result<Option<Text>, AllocError>
    ensures { IfOk result (λ text. text ≡ spec.text_or_texts (value_view value.now)) }
{
    if let Some(values) = elements(value) {
        return joined_texts(alloc, values);
    }
    match text_in(value) {
        Some(text) => Ok(Some(Text::from_str(alloc, text)?)),
        None => Ok(None),
    }
}

// Returns a variable of a text, or `None` if the value has another form.
#[tactic(auto, unfolding(crate::specs::GivenItems::text_member))]
fn text_member(
    alloc: Global,
    keeps_case: bool,
    name: &str,
    value: &Value<'_>,
) -> Result<Option<Given>, AllocError>
    ensures { IfOk result (λ member. member ≡ spec.text_member keeps_case name.now (value_view value.now)) }
{
    let Some(text) = text_or_texts(alloc, value)? else {
        return Ok(None);
    };
    let text = content_text(alloc, keeps_case, name, text.as_str())?;
    given(alloc, name, Some(Content::Text(text)), true)
}

// Returns a member, or `None` if it doesn't have the form of its variable.
#[tactic(auto, unfolding(crate::specs::GivenItems::member_of))]
fn member_of(
    alloc: Global,
    keeps_case: bool,
    name: &str,
    value: &Value<'_>,
) -> Result<Option<Given>, AllocError>
    ensures { IfOk result (λ member. member ≡ spec.member_of keeps_case name.now (value_view value.now)) }
{
    match form_of(name) {
        Some(Form::Names) => names_member(alloc, name, value),
        Some(Form::Date) => date_member(alloc, name, value),
        Some(_) => text_member(alloc, keeps_case, name, value),
        None => given(alloc, name, None, false),
    }
}

// Returns whether a value is a text or a number that is written so.
fn has_text(text: &str, value: &Value<'_>) -> bool
    ensures { result ≡ spec.has_text text.now (value_view value.now) }
{
    match text_in(value) {
        Some(found) => found == text,
        None => false,
    }
}

// Returns whether a member is `type`, or `citation-key` or `id` with this text.
fn is_head(id: &str, name: &str, value: &Value<'_>) -> bool
    ensures { result ≡ spec.is_head id.now name.now (value_view value.now) }
{
    if matches!(name, "citation-key" | "id") {
        return has_text(id, value);
    }
    name == "type"
}

// Returns the members except `type`, and except `citation-key` and `id` with this text. Returns `None` if one doesn't have the form of its
// variable.
fn fields_of(
    alloc: Global,
    keeps_case: bool,
    id: &str,
    members: &[(&str, Value<'_>)],
) -> Result<Option<Items<Given>>, AllocError>
    ensures { IfOk result (λ fields. fields ≡ spec.members_read keeps_case id.now (map (λ m. (m.0.now, value_view m.1)) members.now)) }
{
    let mut fields = Items::new(alloc);
    'members: for member in members {
        let name = member.0;
        if is_head(id, name, &member.1) {
            continue 'members;
        }
        match member_of(alloc, keeps_case, name, &member.1)? {
            Some(field) => fields.push(field)?,
            None => return Ok(None),
        }
    }
    Ok(Some(fields))
}

// Returns the item with these members, or the fault. `id` is the text of the member `key_member`.
fn item_of_members(
    alloc: Global,
    keeps_case: bool,
    key_member: &str,
    id: &str,
    kind: &str,
    members: &[(&str, Value<'_>)],
) -> Result<ItemReading, AllocError>
    ensures { IfOk result (λ reading. reading ≡ spec.item_of_members keeps_case key_member.now id.now kind.now
        (map (λ m. (m.0.now, value_view m.1)) members.now)) }
{
    match fields_of(alloc, keeps_case, id, members)? {
        Some(fields) => Ok(ItemReading::Says(GivenItem {
            key_member: Text::from_str(alloc, key_member)?,
            id: Text::from_str(alloc, id)?,
            kind: Text::from_str(alloc, kind)?,
            fields,
        })),
        None => Ok(ItemReading::Unfit(Fault::WrongForm)),
    }
}

// Returns whether an object has no member `language` that is a text or a number, or an English one.
fn is_english(value: &Value<'_>) -> bool
    ensures { result ≡ spec.is_english (value_view value.now) }
{
    match text_under(value, "language") {
        Some(tag) => is_english_tag(tag),
        None => true,
    }
}

// Returns the name of the first of the members `citation-key`, `id` and `DOI` that is a text or a number, or `None` if none is.
fn key_member(value: &Value<'_>) -> Option<&'static str>
    ensures { option_map (λ name. name.now) result ≡ spec.key_member (value_view value.now) }
{
    if text_under(value, "citation-key").is_some() {
        return Some("citation-key");
    }
    if text_under(value, "id").is_some() {
        return Some("id");
    }
    if text_under(value, "DOI").is_some() {
        return Some("DOI");
    }
    None
}

// Returns the item of an element, or the fault.
fn item_in(alloc: Global, value: &Value<'_>) -> Result<ItemReading, AllocError>
    ensures { IfOk result (λ reading. reading ≡ spec.item_in (value_view value.now)) }
{
    let Some(members) = members(value) else {
        return Ok(ItemReading::Unfit(Fault::NotAnObject));
    };
    let Some(key_member) = key_member(value) else {
        return Ok(ItemReading::Unfit(Fault::NoId));
    };
    let Some(id) = text_under(value, key_member) else {
        return Ok(ItemReading::Unfit(Fault::NoId));
    };
    let Some(kind) = string_under(value, "type") else {
        return Ok(ItemReading::Unfit(Fault::NoType));
    };
    item_of_members(alloc, is_english(value), key_member, id, kind, members)
}

// Returns the items of elements, or the first fault.
fn items_from(alloc: Global, values: &[Value<'_>]) -> Result<ItemsReading, AllocError>
    ensures { IfOk result (λ reading. reading ≡ spec.items_read_from 0 (map value_view values.now)) }
{
    let mut items = Items::new(alloc);
    let mut index = 0;
    'elements: for value in values {
        match item_in(alloc, value)? {
            ItemReading::Says(item) => items.push(item)?,
            ItemReading::Unfit(fault) => return Ok(ItemsReading::Refused(index, fault)),
        }
        index += 1;
    }
    Ok(ItemsReading::Are(items))
}

// Returns the item of an object as the only item, or the fault.
fn only_item(alloc: Global, value: &Value<'_>) -> Result<ItemsReading, AllocError>
    ensures { IfOk result (λ reading. reading ≡ spec.only_item (value_view value.now)) }
{
    match item_in(alloc, value)? {
        ItemReading::Says(item) => {
            let mut items = Items::new(alloc);
            items.push(item)?;
            Ok(ItemsReading::Are(items))
        }
        ItemReading::Unfit(Fault::NotAnObject) => Ok(ItemsReading::Refused(0, Fault::NotAnArray)),
        ItemReading::Unfit(fault) => Ok(ItemsReading::Refused(0, fault)),
    }
}

/// Returns the items of a JSON value, or the first fault. The value is an array of items or one item.
pub(crate) fn items_in(alloc: Global, value: &Value<'_>) -> Result<ItemsReading, AllocError>
    ensures { IfOk result (λ reading. reading ≡ spec.items_in (value_view value.now)) }
{
    match elements(value) {
        Some(values) => items_from(alloc, values),
        None => only_item(alloc, value),
    }
}
