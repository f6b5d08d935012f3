//! Names that are reported once in a file: fields of other programs, and unknown fields and entry types without a suggestion.

ghost use Rattle.std.specs.Prelude.{◌≡◌, ◌==◌, ◌+◌, ◌<◌, ◌≤◌, ◌++◌, ◌∷◌, ◌&&◌, [], List, ℕ, All, codes, if◌then◌else◌, is_some, length, map, not, option_copied, set, IfOk, OnOk};
ghost use Rattle.std.specs.BTreeMap.{get_by_text};
ghost use Rattle.std.specs.Fmt.{decimal};
ghost use Rattle.std.specs.String.{string_bytes};
ghost use Rattle.bib_syntax.specs.Views.{entry_reading_of, part_of};
ghost use Rattle.bib_findings.specs.Counted.{CountsMore, HasIndices, counted_of, counted_texts};
ghost use Rattle.bib_findings.specs.Duplicates.{entries_at};
ghost use Rattle.bib_findings.specs.Entries.{part_range};
ghost use Rattle.bib_findings.specs.Errors.{finding_at};
ghost use Rattle.bib_findings.specs.Met.{AreFieldNames};
ghost use Rattle.bib_findings.specs.Once as spec;
ghost use Rattle.bib_findings.specs.Once.{fields_once, once_each, once_findings, once_in_file, types_once};
ghost use Rattle.bib_findings.specs.Types as types;

use crate::codes::Code;
use crate::finding::Finding;
use crate::foreign::is_foreign;
use crate::names::{FieldName, meet};
use crate::types::{is_known_type, meant_type};
use bib_syntax::raw::RawEntry;
use bib_text::spanned::Spanned;
use bib_text::text::Text;
use std::alloc::{AllocError, Global};
use std::collections::BTreeMap;

// The first of some parts with one text, and their number.
#[derive(Debug, Clone, Copy)]
struct Counted<'f, 's> {
    first: &'f Spanned<&'s str>,
    count: usize,
}

// Sets the count at an index: appends the count, and moves it to the index. For the proof: the effect of `counted[index] = one` isn't
// known, because a count contains references.
fn put<'f, 's>(
    counted: &mut Vec<Counted<'f, 's>>,
    index: usize,
    one: Counted<'f, 's>,
) -> Result<(), AllocError>
    requires { index < length counted.old.items }
    ensures { OnOk result (counted.new.items ≡ set counted.old.items index one.entry) }
{
    counted.push(one)?;
    counted.swap_remove(index);
    Ok(())
}

// Counts a part: adds 1 to the count of its text, or appends a count for its text. `indices` has the index of the count for each text in
// ASCII lowercase.
fn count_part<'f, 's>(
    alloc: Global,
    counted: &mut Vec<Counted<'f, 's>>,
    indices: &mut BTreeMap<String, usize>,
    part: &'f Spanned<&'s str>,
) -> Result<(), AllocError>
    requires { HasIndices (get_by_text indices.old) (counted_texts counted.old.items) }
    ensures indices { OnOk result (HasIndices (get_by_text indices.new) (counted_texts counted.new.items)) }
    ensures counted { OnOk result (CountsMore (part_of part.now ∷ []) counted.old.items counted.new.items) }
{
    let name = part.v.to_ascii_lowercase(alloc)?;
    if let Some(index) = indices.get(name.as_str()).copied() {
        let one = counted[index];
        let raised = Counted {
            first: one.first,
            count: one.count.saturating_add(1),
        };
        put(counted, index, raised)?;
        return Ok(());
    }
    indices.insert(name, counted.len())?;
    let count = Counted {
        first: part,
        count: 1,
    };
    counted.push(count)?;
    Ok(())
}

// Returns ` time` for the number 1, and ` times` for any other number.
fn times(count: usize) -> &'static str
    ensures { result.now ≡ if count == 1 then codes " time" else codes " times" }
{
    if count == 1 { " time" } else { " times" }
}

// Returns the message about so many fields with a name that other programs write for themselves.
fn foreign_message(alloc: Global, name: &str, count: usize) -> Result<String, AllocError>
    ensures { IfOk result (λ text. string_bytes text ≡ spec.foreign_message name.now count) }
{
    let times = times(count);
    format!(in alloc; "field {name} of another program, {count}{times}")
}

// Returns the message about an unknown name. `wrong` says what is unknown.
fn unknown_name_message(alloc: Global, wrong: &str, name: &str) -> Result<String, AllocError>
    ensures { IfOk result (λ text. string_bytes text ≡ spec.unknown_name_message wrong.now name.now) }
{
    format!(in alloc; "{wrong} `{name}`")
}

// Returns the message about an unknown name, with the number of its places.
fn counted_name_message(
    alloc: Global,
    wrong: &str,
    name: &str,
    count: usize,
) -> Result<String, AllocError>
    ensures { IfOk result (λ text. string_bytes text ≡
        wrong.now ++ (codes " `" ++ (name.now ++ (codes "`; " ++ (decimal count ++ codes " times"))))) }
{
    format!(in alloc; "{wrong} `{name}`; {count} times")
}

// Returns the message about so many unknown names.
fn unknown_names_message(
    alloc: Global,
    wrong: &str,
    name: &str,
    count: usize,
) -> Result<String, AllocError>
    ensures { IfOk result (λ text. string_bytes text ≡ spec.unknown_names_message wrong.now name.now count) }
{
    if count == 1 {
        unknown_name_message(alloc, wrong, name)
    } else {
        counted_name_message(alloc, wrong, name, count)
    }
}

// Returns the finding with this code and this message at a part.
fn finding_at_part(code: Code, part: &Spanned<&str>, message: String) -> Finding
    ensures { result ≡ finding_at code (part_range (part_of part.now)) (string_bytes message) }
{
    Finding {
        code,
        span: part.span.start..part.span.end,
        message: Text::from_string(message),
    }
}

// Returns the finding of so many fields with one name, the first of which is `counted.first`.
fn fields_finding(alloc: Global, counted: &Counted<'_, '_>) -> Result<Finding, AllocError>
    ensures { IfOk result (λ finding. finding ≡ spec.fields_finding (part_of counted.now.first.now) counted.now.count) }
{
    let name = counted.first.v;
    if is_foreign(name) {
        let message = foreign_message(alloc, name, counted.count)?;
        return Ok(finding_at_part(Code::ForeignField, counted.first, message));
    }
    let message = unknown_names_message(alloc, "unknown field", name, counted.count)?;
    Ok(finding_at_part(Code::UnknownField, counted.first, message))
}

// Returns the finding of so many entries with one type, the first of which is `counted.first`.
fn types_finding(alloc: Global, counted: &Counted<'_, '_>) -> Result<Finding, AllocError>
    ensures { IfOk result (λ finding. finding ≡ spec.types_finding (part_of counted.now.first.now) counted.now.count) }
{
    let name = counted.first.v;
    let message = unknown_names_message(alloc, "unknown entry type", name, counted.count)?;
    Ok(finding_at_part(Code::UnknownType, counted.first, message))
}

// Returns whether an unknown field is reported once in a file. `meant` is the suggestion, if there is one. `has_known_type` says whether
// BibLaTeX knows the type of its entry.
fn is_unknown_once(has_known_type: bool, meant: Option<&'static str>) -> bool
    ensures { result ≡ (has_known_type && not (is_some (option_copied meant.entry))) }
{
    has_known_type && meant.is_none()
}

// Returns whether a field with this name is reported once in a file. `has_known_type` says whether BibLaTeX knows the type of its entry,
// and `met` caches the field names.
fn is_field_once(
    alloc: Global,
    met: &mut BTreeMap<String, FieldName>,
    has_known_type: bool,
    name: &str,
) -> Result<bool, AllocError>
    requires { AreFieldNames (get_by_text met.old) }
    ensures met { OnOk result (AreFieldNames (get_by_text met.new)) }
    ensures is { IfOk result (λ is. (kind : List ℕ) → types.is_known_type kind ≡ has_known_type → is ≡ spec.is_field_once kind name.now) }
{
    match meet(alloc, met, name)? {
        FieldName::Foreign => Ok(true),
        FieldName::Known => Ok(false),
        FieldName::Unknown(meant) => Ok(is_unknown_once(has_known_type, meant)),
    }
}

// Counts the names of the fields of an entry that are reported once in a file.
fn count_fields<'f, 's>(
    alloc: Global,
    met: &mut BTreeMap<String, FieldName>,
    counted: &mut Vec<Counted<'f, 's>>,
    indices: &mut BTreeMap<String, usize>,
    said: &'f Spanned<RawEntry<'s>>,
) -> Result<(), AllocError>
    requires met { AreFieldNames (get_by_text met.old) }
    requires indices { HasIndices (get_by_text indices.old) (counted_texts counted.old.items) }
    ensures met { OnOk result (AreFieldNames (get_by_text met.new)) }
    ensures indices { OnOk result (HasIndices (get_by_text indices.new) (counted_texts counted.new.items)) }
    ensures counted { OnOk result (CountsMore (fields_once (entry_reading_of said.now ∷ [])) counted.old.items counted.new.items) }
{
    let has_known_type = is_known_type(said.v.kind.v);
    'fields: for field in &said.v.fields {
        let is_once = is_field_once(alloc, met, has_known_type, field.key.v)?;
        if is_once {
            count_part(alloc, counted, indices, &field.key)?;
        }
    }
    Ok(())
}

// Counts the type of an entry, if it is reported once in a file.
fn count_type<'f, 's>(
    alloc: Global,
    counted: &mut Vec<Counted<'f, 's>>,
    indices: &mut BTreeMap<String, usize>,
    said: &'f Spanned<RawEntry<'s>>,
) -> Result<(), AllocError>
    requires { HasIndices (get_by_text indices.old) (counted_texts counted.old.items) }
    ensures indices { OnOk result (HasIndices (get_by_text indices.new) (counted_texts counted.new.items)) }
    ensures counted { OnOk result (CountsMore (types_once (entry_reading_of said.now ∷ [])) counted.old.items counted.new.items) }
{
    let kind = &said.v.kind;
    if is_known_type(kind.v) {
        return Ok(());
    }
    let meant = meant_type(alloc, kind.v)?;
    if meant.is_some() {
        return Ok(());
    }
    count_part(alloc, counted, indices, kind)?;
    Ok(())
}

// Appends the findings of those fields of the entries of one file that are reported once in it: one for each name, at its first field.
// `origins` contains the index of each entry in `said`, and `met` caches the field names.
fn add_fields(
    alloc: Global,
    met: &mut BTreeMap<String, FieldName>,
    found: &mut Vec<Finding>,
    said: &[Spanned<RawEntry<'_>>],
    origins: &[usize],
) -> Result<(), AllocError>
    requires met { AreFieldNames (get_by_text met.old) }
    requires there { All (λ index. index < length said.now) origins.now }
    ensures met { OnOk result (AreFieldNames (get_by_text met.new)) }
    ensures added { OnOk result (found.new.items ≡ found.old.items ++
        once_each spec.fields_finding (fields_once (entries_at (map entry_reading_of said.now) origins.now))) }
{
    let mut counted = Vec::new(alloc);
    let mut indices = BTreeMap::new(alloc);
    'origins: for index in origins {
        count_fields(alloc, met, &mut counted, &mut indices, &said[*index])?;
    }
    'counted: for one in &counted {
        found.push(fields_finding(alloc, one)?)?;
    }
    Ok(())
}

// Appends the findings of those types of the entries of one file that are reported once in it: one for each type, at its first entry.
// `origins` contains the index of each entry in `said`.
fn add_types(
    alloc: Global,
    found: &mut Vec<Finding>,
    said: &[Spanned<RawEntry<'_>>],
    origins: &[usize],
) -> Result<(), AllocError>
    requires { All (λ index. index < length said.now) origins.now }
    ensures { OnOk result (found.new.items ≡ found.old.items ++
        once_each spec.types_finding (types_once (entries_at (map entry_reading_of said.now) origins.now))) }
{
    let mut counted = Vec::new(alloc);
    let mut indices = BTreeMap::new(alloc);
    'origins: for index in origins {
        count_type(alloc, &mut counted, &mut indices, &said[*index])?;
    }
    'counted: for one in &counted {
        found.push(types_finding(alloc, one)?)?;
    }
    Ok(())
}

// Appends the findings of those names in the entries of one file that are reported once in it. `origins` contains the index of each entry
// in `said`, and `met` caches the field names.
fn add_of_file(
    alloc: Global,
    met: &mut BTreeMap<String, FieldName>,
    found: &mut Vec<Finding>,
    said: &[Spanned<RawEntry<'_>>],
    origins: &[usize],
) -> Result<(), AllocError>
    requires met { AreFieldNames (get_by_text met.old) }
    requires there { All (λ index. index < length said.now) origins.now }
    ensures met { OnOk result (AreFieldNames (get_by_text met.new)) }
    ensures added { OnOk result (found.new.items ≡ found.old.items ++
        once_in_file (entries_at (map entry_reading_of said.now) origins.now)) }
{
    add_types(alloc, found, said, origins)?;
    add_fields(alloc, met, found, said, origins)
}

// Returns the number of entries before the first one that begins after the offset `end`. `origins` contains the index of each entry in
// `said`.
fn count_begun(said: &[Spanned<RawEntry<'_>>], origins: &[usize], end: usize) -> usize
    requires { All (λ index. index < length said.now) origins.now }
    ensures count { result ≡ spec.count_begun end (entries_at (map entry_reading_of said.now) origins.now) }
    ensures within { result ≤ length origins.now }
{
    'origins: for count in 0..origins.len() {
        if said[origins[count]].span.start > end {
            return count;
        }
    }
    origins.len()
}

/// Appends the findings of those names in entries that are reported once in a file: one for each name in each file, at its first place. The
/// files end at the offsets `ends`, and entries that begin after them are of one more file. `origins` contains the index of each entry in
/// `said`.
pub(crate) fn add_once(
    alloc: Global,
    found: &mut Vec<Finding>,
    ends: &[usize],
    said: &[Spanned<RawEntry<'_>>],
    origins: &[usize],
) -> Result<(), AllocError>
    requires { All (λ index. index < length said.now) origins.now }
    ensures { OnOk result (found.new.items ≡ found.old.items ++
        once_findings ends.now (entries_at (map entry_reading_of said.now) origins.now)) }
{
    let mut met = BTreeMap::new(alloc);
    let mut first = 0usize;
    'ends: for end in ends {
        let left = &origins[first..];
        let count = count_begun(said, left, *end);
        add_of_file(alloc, &mut met, found, said, &left[..count])?;
        first += count;
    }
    add_of_file(alloc, &mut met, found, said, &origins[first..])?;
    Ok(())
}
