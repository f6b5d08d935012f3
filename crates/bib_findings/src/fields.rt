//! Findings of fields that are repeated or empty, of empty keys, and of DOIs with an address or a scheme.

ghost use Rattle.std.specs.Prelude.{◌≡◌, ◌++◌, [], ◌∷◌, codes, if◌then◌else◌, map, IfOk, OnOk};
ghost use Rattle.std.specs.List.{flat_map, list_all, list_any};
ghost use Rattle.std.specs.String.{string_bytes};
ghost use Rattle.bib_tables.specs.Requirements.{texts};
ghost use Rattle.bib_syntax.specs.Views.{entry_reading_of, field_of, piece_of};
ghost use Rattle.bib_findings.specs.Entries.{have_one_name, is_blank_piece, is_empty_value};
ghost use Rattle.bib_findings.specs.Fields as spec;
ghost use Rattle.bib_findings.specs.Fields.{address_findings, empty_finding, empty_findings, empty_of, key_findings, repeated_finding, repeated_findings};

use crate::codes::Code;
use crate::entry_names::entry_name;
use crate::finding::Finding;
use crate::foreign::begins_with_any;
use crate::identities::own_literal;
use crate::malformed_dates::DATE_FIELDS;
use crate::nearest::is_among;
use crate::places::{field_place, has_own_field};
use bib_syntax::raw::{Pair, RawChunk, RawEntry, is_word};
use bib_text::spanned::Spanned;
use bib_text::text::Text;
use std::alloc::{AllocError, Global};
use std::collections::BTreeSet;

// Returns the message about a name of the entry with this key, with words before and after the name.
pub(crate) fn named_message(
    alloc: Global,
    key: &str,
    before: &str,
    name: &str,
    after: &str,
) -> Result<String, AllocError>
    ensures { IfOk result (λ text. string_bytes text ≡ spec.named_message key.now before.now name.now after.now) }
{
    let entry = entry_name(key);
    format!(in alloc; "{entry}: {before}`{name}`{after}")
}

// Returns the finding of a field whose name an earlier field of the entry with this key has.
fn repeated_finding(alloc: Global, key: &str, field: &Pair<'_>) -> Result<Finding, AllocError>
    ensures { IfOk result (λ finding. finding ≡ repeated_finding key.now (field_of field.now)) }
{
    let after = " occurs again; BibTeX keeps the first, Biber the last";
    let message = named_message(alloc, key, "field ", field.key.v, after)?;
    Ok(Finding {
        code: Code::RepeatedField,
        span: field.key.span.start..field.key.span.end,
        message: Text::from_string(message),
    })
}

// Appends the finding of a field, unless its name is new.
fn add_unless_new(
    alloc: Global,
    found: &mut Vec<Finding>,
    is_new: bool,
    key: &str,
    field: &Pair<'_>,
) -> Result<(), AllocError>
    ensures { OnOk result (found.new.items ≡ found.old.items ++
        (if is_new then [] else repeated_finding key.now (field_of field.now) ∷ [])) }
{
    if !is_new {
        found.push(repeated_finding(alloc, key, field)?)?;
    }
    Ok(())
}

// Returns whether one of these fields has the name of `other`, in any ASCII case.
fn have_name_of(fields: &[Pair<'_>], other: &Pair<'_>) -> bool
    ensures { result ≡ list_any (have_one_name (field_of other.now)) (map field_of fields.now) }
{
    'fields: for field in fields {
        if is_word(other.key.v, field.key.v) {
            return true;
        }
    }
    false
}

// Appends a finding for each field of an entry whose name an earlier field has, in any ASCII case. Compares each field with all earlier
// ones.
fn add_repeated_of_few(
    alloc: Global,
    found: &mut Vec<Finding>,
    said: &Spanned<RawEntry<'_>>,
) -> Result<(), AllocError>
    ensures { OnOk result (found.new.items ≡ found.old.items ++ repeated_findings (entry_reading_of said.now)) }
{
    let fields = said.v.fields.as_slice();
    'fields: for index in 0..fields.len() {
        let field = &fields[index];
        let is_new = !have_name_of(&fields[..index], field);
        add_unless_new(alloc, found, is_new, said.v.key.v, field)?;
    }
    Ok(())
}

// Appends a finding for each field of an entry whose name an earlier field has, in any ASCII case. Stores the names of the fields.
fn add_repeated_of_many(
    alloc: Global,
    found: &mut Vec<Finding>,
    said: &Spanned<RawEntry<'_>>,
) -> Result<(), AllocError>
    ensures { OnOk result (found.new.items ≡ found.old.items ++ repeated_findings (entry_reading_of said.now)) }
{
    let mut seen = BTreeSet::new(alloc);
    'fields: for field in &said.v.fields {
        let name = field.key.v.to_ascii_lowercase(alloc)?;
        let is_new = seen.insert(name)?;
        add_unless_new(alloc, found, is_new, said.v.key.v, field)?;
    }
    Ok(())
}

// The greatest number of fields whose names are compared with each other. Comparing so few names takes less time than storing them.
const FEW_FIELDS: usize = 16;

/// Appends a finding for each field of an entry whose name an earlier field has, in any ASCII case.
pub(crate) fn add_repeated(
    alloc: Global,
    found: &mut Vec<Finding>,
    said: &Spanned<RawEntry<'_>>,
) -> Result<(), AllocError>
    ensures { OnOk result (found.new.items ≡ found.old.items ++ repeated_findings (entry_reading_of said.now)) }
{
    if said.v.fields.len() <= FEW_FIELDS {
        return add_repeated_of_few(alloc, found, said);
    }
    add_repeated_of_many(alloc, found, said)
}

// Returns whether a piece of a value is a literal without a character, or with only white space.
fn is_blank_piece(piece: &Spanned<RawChunk<'_>>) -> bool
    ensures { result ≡ is_blank_piece (piece_of piece.now) }
{
    match piece.v {
        RawChunk::Normal(text) => text.trim().is_empty(),
        RawChunk::Abbreviation(_) => false,
    }
}

// Returns whether all of these pieces are blank.
fn are_blank(pieces: &[Spanned<RawChunk<'_>>]) -> bool
    ensures { result ≡ list_all is_blank_piece (map piece_of pieces.now) }
{
    pieces.iter().all(is_blank_piece)
}

/// Returns whether the value of a field is empty: all of its pieces are blank.
pub(crate) fn is_empty_value(field: &Pair<'_>) -> bool
    ensures { result ≡ is_empty_value (field_of field.now) }
{
    are_blank(&field.value.v)
}

// Returns the finding of an empty field of the entry with this key.
fn empty_finding(alloc: Global, key: &str, field: &Pair<'_>) -> Result<Finding, AllocError>
    ensures { IfOk result (λ finding. finding ≡ empty_finding key.now (field_of field.now)) }
{
    let message = named_message(alloc, key, "field ", field.key.v, " is empty")?;
    Ok(Finding {
        code: Code::EmptyField,
        span: field.key.span.start..field.key.span.end,
        message: Text::from_string(message),
    })
}

// Returns whether an empty field with this name is reported: any field if the entry can inherit fields, otherwise only a date.
fn is_reported_empty(inherits: bool, name: &str) -> bool
    ensures { result ≡ spec.is_reported_empty inherits name.now }
{
    inherits || is_among(&DATE_FIELDS, name)
}

// Appends the finding of a field, if its value is empty, such a field is reported if empty, and its name isn't one of the missing fields.
// `inherits` says whether the entry can inherit fields.
fn add_if_empty(
    alloc: Global,
    found: &mut Vec<Finding>,
    missing: &[&'static str],
    inherits: bool,
    key: &str,
    field: &Pair<'_>,
) -> Result<(), AllocError>
    ensures { OnOk result (found.new.items ≡ found.old.items ++
        empty_of key.now (texts missing.now) inherits (field_of field.now)) }
{
    let name = field.key.v;
    if is_empty_value(field) && is_reported_empty(inherits, name) && !is_among(missing, name) {
        found.push(empty_finding(alloc, key, field)?)?;
    }
    Ok(())
}

// Appends a finding for each of `fields` whose value is empty, if such a field is reported if empty, except those in `missing`. `key` is
// the key of the entry, and `inherits` says whether the entry can inherit fields.
fn add_empty_among(
    alloc: Global,
    found: &mut Vec<Finding>,
    missing: &[&'static str],
    inherits: bool,
    key: &str,
    fields: &[Pair<'_>],
) -> Result<(), AllocError>
    ensures { OnOk result (found.new.items ≡ found.old.items ++
        flat_map (empty_of key.now (texts missing.now) inherits) (map field_of fields.now)) }
{
    'fields: for field in fields {
        add_if_empty(alloc, found, missing, inherits, key, field)?;
    }
    Ok(())
}

// Returns whether an entry has a field by which it inherits other fields.
fn refers_to_parents(said: &Spanned<RawEntry<'_>>) -> bool
    ensures { result ≡ spec.refers_to_parents (entry_reading_of said.now) }
{
    has_own_field(said, "crossref") || has_own_field(said, "xdata")
}

/// Appends a finding for each empty field of an entry that can inherit fields, or for each empty date of any other entry. Fields that are
/// reported as missing have none.
pub(crate) fn add_empty(
    alloc: Global,
    found: &mut Vec<Finding>,
    missing: &[&'static str],
    said: &Spanned<RawEntry<'_>>,
) -> Result<(), AllocError>
    ensures { OnOk result (found.new.items ≡ found.old.items ++ empty_findings (texts missing.now) (entry_reading_of said.now)) }
{
    let inherits = refers_to_parents(said);
    add_empty_among(
        alloc,
        found,
        missing,
        inherits,
        said.v.key.v,
        &said.v.fields,
    )
}

/// Appends a finding if the key of an entry is empty.
pub(crate) fn add_empty_key(
    alloc: Global,
    found: &mut Vec<Finding>,
    said: &Spanned<RawEntry<'_>>,
) -> Result<(), AllocError>
    ensures { OnOk result (found.new.items ≡ found.old.items ++ key_findings (entry_reading_of said.now)) }
{
    let key = &said.v.key;
    if !key.v.is_empty() {
        return Ok(());
    }
    let message = String::from_str(alloc, "an entry without a key; Biber skips it")?;
    found.push(Finding {
        code: Code::EmptyKey,
        span: key.span.start..key.span.end,
        message: Text::from_string(message),
    })?;
    Ok(())
}

// The ways in which a DOI with an address or a scheme begins.
static ADDRESS_STARTS: [&str; 3] = ["http://", "https://", "doi:"];

/// Appends a finding if the DOI of an entry is one literal that begins with an address or a scheme, in any ASCII case.
pub(crate) fn add_address(
    alloc: Global,
    found: &mut Vec<Finding>,
    said: &Spanned<RawEntry<'_>>,
) -> Result<(), AllocError>
    ensures { OnOk result (found.new.items ≡ found.old.items ++ address_findings (entry_reading_of said.now)) }
{
    if !begins_with_any(&ADDRESS_STARTS, own_literal(said, "doi")) {
        return Ok(());
    }
    let after = " doesn't begin with `10.`; BibLaTeX puts `https://doi.org/` before it";
    let message = named_message(alloc, said.v.key.v, "", "doi", after)?;
    found.push(Finding {
        code: Code::DoiAddress,
        span: field_place(said, "doi"),
        message: Text::from_string(message),
    })?;
    Ok(())
}
