//! The parts of JSON values.

ghost use Rattle.std.specs.Prelude.{◌≡◌, map};
ghost use Rattle.std.specs.Option.{option_map};
ghost use Rattle.json.specs.Value.{value_view};
ghost use Rattle.bib_from_csl.specs.Objects as spec;
ghost use Rattle.bib_values.specs.Numbers.{decimal_of};

use json::Value;

/// Returns the elements of an array, or `None` for another value.
pub fn elements<'v, 'a>(value: &'v Value<'a>) -> Option<&'v [Value<'a>]>
    ensures { option_map (λ all. map value_view all.now) result ≡ spec.array_elements (value_view value.now) }
{
    match value {
        Value::Array(elements) => Some(elements.as_slice()),
        _ => None,
    }
}

/// Returns the members of an object, or `None` for another value.
pub fn members<'v, 'a>(value: &'v Value<'a>) -> Option<&'v [(&'a str, Value<'a>)]>
    ensures { option_map (λ all. map (λ m. (m.0.now, value_view m.1)) all.now) result ≡ spec.object_members (value_view value.now) }
{
    match value {
        Value::Object(members) => Some(members.as_slice()),
        _ => None,
    }
}

/// Returns the number of members of an object, or 0 for another value.
pub fn size(value: &Value<'_>) -> usize
    ensures { result ≡ spec.object_size (value_view value.now) }
{
    match members(value) {
        Some(members) => members.len(),
        None => 0,
    }
}

// Returns a text, or a number as it is written.
pub(crate) fn text_in<'a>(value: &Value<'a>) -> Option<&'a str>
    ensures { option_map (λ text. text.now) result ≡ spec.text_in (value_view value.now) }
{
    match value.as_str() {
        Some(text) => Some(text),
        None => value.as_number(),
    }
}

/// Returns the text of the member with a name, or `None` if there is no such member or it is no text.
pub fn string_under<'a>(value: &Value<'a>, name: &str) -> Option<&'a str>
    ensures { option_map (λ text. text.now) result ≡ spec.string_under name.now (value_view value.now) }
{
    let member = value.get(name)?;
    member.as_str()
}

// Returns the text of the member with a name, or its number as it is written.
pub(crate) fn text_under<'a>(value: &Value<'a>, name: &str) -> Option<&'a str>
    ensures { option_map (λ text. text.now) result ≡ spec.text_under name.now (value_view value.now) }
{
    let member = value.get(name)?;
    text_in(member)
}

// Returns the integer that a text has in decimal digits, maybe with a sign before them, or `None` if it is no `i64`.
fn decimal(text: &str) -> Option<i64>
    ensures { result ≡ decimal_of text.now }
{
    text.parse::<i64>().ok()
}

// Returns the integer that a number or a text has in decimal digits, maybe with a sign before them. Returns `None` if there is no such
// integer, or if it is no `i64`.
pub(crate) fn whole_number(value: &Value<'_>) -> Option<i64>
    ensures { result ≡ spec.whole_number (value_view value.now) }
{
    let text = text_in(value)?;
    decimal(text)
}

/// Returns 1 for true and 0 for false.
pub fn one_if(is_there: bool) -> usize
    ensures { result ≡ spec.one_if is_there }
{
    if is_there { 1 } else { 0 }
}
