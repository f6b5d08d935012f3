//! Writes the values of name fields.
//!
//! A plain name is written in BibTeX's format (`von Family, Jr, Given`, or one word). A name without parts is written in
//! braces, except the word `others`. Any other name is written in BibLaTeX's extended name format, a list of `key=value`, which can
//! contain any text.

ghost use Rattle.std.specs.Prelude.{◌≡◌, ◌++◌, OnOk, IfOk};
ghost use Rattle.std.specs.List.{list_all};
ghost use Rattle.std.specs.Str.{chars};
ghost use Rattle.bib_from_csl.specs.WrittenPeople as spec;

use crate::values::with_ties;
use bib_chunks::chunk::making::{push_normal, push_verbatim};
use bib_chunks::chunk::{Chunks, value_text};
use bib_csl::item::{Name, NameParts};
use bib_text::items::Items;
use bib_text::text::Text;
use std::alloc::{AllocError, Global};
use unicode::properties::is_lowercase;

// Returns whether a character can be in a word of a name in BibTeX's format.
fn is_plain(c: char) -> bool
    ensures { result ≡ spec.may_stand_in_name c }
{
    if c == '\u{a0}' {
        return true;
    }
    !c.is_whitespace() && !matches!(c, ',' | '=' | '~')
}

// Returns whether a word begins with a lowercase letter.
fn is_small(word: &str) -> bool
    ensures { result ≡ spec.begins_with_small word.now }
{
    match word.chars().next() {
        Some(c) => is_lowercase(c),
        None => false,
    }
}

// Returns whether all characters of a word can be in a name in BibTeX's format.
fn has_plain_characters(word: &str) -> bool
    ensures { result ≡ list_all spec.may_stand_in_name (chars word.now) }
{
    word.chars().all(|c| is_plain(c))
}

// Returns whether a word can be in a name in BibTeX's format.
fn is_plain_word(word: &str) -> bool
    ensures { result ≡ spec.is_plain_word word.now }
{
    !word.is_empty() && !word.eq_ignore_ascii_case("and") && has_plain_characters(word)
}

// Returns whether a text consists of such words with single spaces between them.
fn are_plain_words(text: &str) -> bool
    ensures { result ≡ spec.are_plain_words text.now }
{
    let mut are_plain = true;
    'words: for word in text.split(' ') {
        are_plain = are_plain && is_plain_word(word);
    }
    are_plain
}

// Returns whether a text is empty or consists of such words.
fn is_nothing_or_words(text: &str) -> bool
    ensures { result ≡ spec.is_nothing_or_words text.now }
{
    text.is_empty() || are_plain_words(text)
}

// Returns whether no word of a text begins with a lowercase letter.
fn has_no_small_word(text: &str) -> bool
    ensures { result ≡ spec.has_no_small_word text.now }
{
    let mut found = false;
    'words: for word in text.split(' ') {
        found = found || is_small(word);
    }
    !found
}

// Returns whether all words of a text begin with a lowercase letter.
fn has_small_words(text: &str) -> bool
    ensures { result ≡ spec.has_small_words text.now }
{
    let mut are_small = true;
    'words: for word in text.split(' ') {
        are_small = are_small && is_small(word);
    }
    are_small
}

// Returns whether a particle is empty, or consists of plain words that each begin with a lowercase letter, as a prefix in BibTeX does.
fn is_plain_particle(particle: &str) -> bool
    ensures { result ≡ spec.is_plain_particle particle.now }
{
    particle.is_empty() || (are_plain_words(particle) && has_small_words(particle))
}

// Returns the particle of a name that the entry can write as its prefix. `uses_prefix` says whether prefixes are part of family names in
// the entry.
fn particle(uses_prefix: bool, parts: &NameParts) -> &str
    ensures { result.now ≡ spec.particle uses_prefix parts.now }
{
    if uses_prefix {
        return parts.non_dropping_particle.as_str();
    }
    parts.dropping_particle.as_str()
}

// Returns whether a name has a family name and a given name, and can be written in BibTeX's format.
#[tactic(auto, unfolding(crate::specs::WrittenPeople::is_bibtex_name))]
fn is_plain_name(uses_prefix: bool, parts: &NameParts) -> bool
    ensures { result ≡ spec.is_bibtex_name uses_prefix parts.now }
{
    are_plain_words(parts.family.as_str())
        && has_no_small_word(parts.family.as_str())
        && are_plain_words(parts.given.as_str())
        && is_nothing_or_words(parts.suffix.as_str())
        && is_plain_particle(particle(uses_prefix, parts))
        && particle(!uses_prefix, parts).is_empty()
}

// Returns whether a name is only a family name of one plain word.
#[tactic(auto, unfolding(crate::specs::WrittenPeople::is_one_word))]
fn is_one_word(parts: &NameParts) -> bool
    ensures { result ≡ spec.is_one_word parts.now }
{
    is_plain_word(parts.family.as_str())
        && parts.given.is_empty()
        && parts.suffix.is_empty()
        && parts.dropping_particle.is_empty()
        && parts.non_dropping_particle.is_empty()
}

// Appends a text and a separator, unless the text is empty.
fn push_before(out: &mut Text, text: &str, separator: &str) -> Result<(), AllocError>
    ensures { OnOk result (out.new ≡ out.old ++ spec.with_separator text.now separator.now) }
{
    if text.is_empty() {
        return Ok(());
    }
    out.push_str(text)?;
    out.push_str(separator)
}

// Returns a name in BibTeX's format.
#[tactic(auto, unfolding(crate::specs::WrittenPeople::plain_text_of))]
fn plain_text_of(alloc: Global, uses_prefix: bool, parts: &NameParts) -> Result<Text, AllocError>
    ensures { IfOk result (λ text. text ≡ spec.plain_text_of uses_prefix parts.now) }
{
    let mut text = Text::new(alloc);
    push_before(&mut text, particle(uses_prefix, parts), " ")?;
    push_before(&mut text, parts.family.as_str(), ", ")?;
    push_before(&mut text, parts.suffix.as_str(), ", ")?;
    text.push_str(parts.given.as_str())?;
    Ok(text)
}

// Appends a key and its value, unless the value is empty.
#[tactic(auto, unfolding(crate::specs::WrittenPeople::keyed_unless_empty))]
fn push_key(alloc: Global, all: &mut Chunks, key: &str, value: &str) -> Result<(), AllocError>
    ensures { OnOk result (all.new ≡ all.old ++ spec.keyed_unless_empty key.now value.now) }
{
    if value.is_empty() {
        return Ok(());
    }
    push_normal(all, Text::from_str(alloc, key)?)?;
    push_verbatim(all, Text::from_str(alloc, value)?)
}

// Returns the prefix of a name: the dropping particle, a space and the other particle, or only one of them.
#[tactic(auto, unfolding(crate::specs::WrittenPeople::whole_prefix))]
fn whole_prefix(alloc: Global, parts: &NameParts) -> Result<Text, AllocError>
    ensures { IfOk result (λ text. text ≡ spec.whole_prefix parts.now) }
{
    let mut text = Text::new(alloc);
    if parts.non_dropping_particle.is_empty() {
        text.push_str(parts.dropping_particle.as_str())?;
        return Ok(text);
    }
    push_before(&mut text, parts.dropping_particle.as_str(), " ")?;
    text.push_str(parts.non_dropping_particle.as_str())?;
    Ok(text)
}

// Returns `true` if the name has a prefix that is part of the family name, and `false` if it only has another prefix. Returns an empty text
// if it has none.
#[tactic(auto, unfolding(crate::specs::WrittenPeople::prefix_flag))]
fn prefix_flag(parts: &NameParts) -> &'static str
    ensures { result.now ≡ spec.prefix_flag parts.now }
{
    if !parts.non_dropping_particle.is_empty() {
        return "true";
    }
    if !parts.dropping_particle.is_empty() {
        return "false";
    }
    ""
}

// Appends the parts of a name except the family name, and the flag for its prefix. Each has its key, and empty ones are left out.
#[tactic(auto, unfolding(crate::specs::WrittenPeople::extended_keys))]
fn push_keys(alloc: Global, all: &mut Chunks, parts: &NameParts) -> Result<(), AllocError>
    ensures { OnOk result (all.new ≡ all.old ++ spec.extended_keys parts.now) }
{
    let prefix = whole_prefix(alloc, parts)?;
    push_key(alloc, all, ", given=", parts.given.as_str())?;
    push_key(alloc, all, ", prefix=", prefix.as_str())?;
    push_key(alloc, all, ", suffix=", parts.suffix.as_str())?;
    push_key(alloc, all, ", useprefix=", prefix_flag(parts))
}

// Appends a name in the extended format.
#[tactic(auto, unfolding(crate::specs::WrittenPeople::extended_chunks))]
fn push_extended(alloc: Global, all: &mut Chunks, parts: &NameParts) -> Result<(), AllocError>
    ensures { OnOk result (all.new ≡ all.old ++ spec.extended_chunks parts.now) }
{
    push_normal(all, Text::from_str(alloc, "family=")?)?;
    push_verbatim(all, parts.family.clone()?)?;
    push_keys(alloc, all, parts)
}

// Appends a name without parts: in braces, except for the word `others`.
fn push_literal(alloc: Global, all: &mut Chunks, text: &Text) -> Result<(), AllocError>
    ensures { OnOk result (all.new ≡ all.old ++ spec.literal_chunks text.now) }
{
    if text.as_str() == "others" {
        return push_normal(all, Text::from_str(alloc, "others")?);
    }
    push_verbatim(all, text.clone()?)
}

// Appends a name with parts.
#[tactic(auto, unfolding(crate::specs::WrittenPeople::parts_chunks))]
fn push_parts(
    alloc: Global,
    uses_prefix: bool,
    all: &mut Chunks,
    parts: &NameParts,
) -> Result<(), AllocError>
    ensures { OnOk result (all.new ≡ all.old ++ spec.parts_chunks uses_prefix parts.now) }
{
    if is_one_word(parts) {
        return push_normal(all, parts.family.clone()?);
    }
    if is_plain_name(uses_prefix, parts) {
        return push_normal(all, plain_text_of(alloc, uses_prefix, parts)?);
    }
    push_extended(alloc, all, parts)
}

// Appends a name.
fn push_name(
    alloc: Global,
    uses_prefix: bool,
    all: &mut Chunks,
    name: &Name,
) -> Result<(), AllocError>
    ensures { OnOk result (all.new ≡ all.old ++ spec.name_chunks uses_prefix name.now) }
{
    match name {
        Name::Literal(text) => push_literal(alloc, all, text),
        Name::Parts(parts) => push_parts(alloc, uses_prefix, all, parts),
    }
}

// Appends a name, after the word `and` unless it is the first.
fn push_joined(
    alloc: Global,
    uses_prefix: bool,
    all: &mut Chunks,
    name: &Name,
    first: bool,
) -> Result<(), AllocError>
    ensures { OnOk result (all.new ≡ all.old ++ spec.joined_name uses_prefix first name.now) }
{
    if !first {
        push_normal(all, Text::from_str(alloc, " and ")?)?;
    }
    push_name(alloc, uses_prefix, all, name)
}

// Returns the chunks of a list of names.
fn chunks_of(alloc: Global, uses_prefix: bool, names: &[Name]) -> Result<Chunks, AllocError>
    ensures { IfOk result (λ chunks. chunks ≡ spec.names_chunks uses_prefix names.now) }
{
    let mut all = Items::new(alloc);
    let mut first = true;
    'names: for name in names {
        push_joined(alloc, uses_prefix, &mut all, name, first)?;
        first = false;
    }
    Ok(all)
}

// Returns the value of a name field.
#[tactic(auto, unfolding(crate::specs::WrittenPeople::names_value))]
pub(crate) fn names_value(
    alloc: Global,
    uses_prefix: bool,
    names: &[Name],
) -> Result<Text, AllocError>
    ensures { IfOk result (λ value. value ≡ spec.names_value uses_prefix names.now) }
{
    let chunks = chunks_of(alloc, uses_prefix, names)?;
    let value = value_text(alloc, chunks.as_slice(), false)?;
    with_ties(alloc, value.as_str())
}

// Returns whether a name has a prefix that is part of the family name.
fn has_fixed_prefix(name: &Name) -> bool
    ensures { result ≡ spec.has_fixed_prefix name.now }
{
    match name {
        Name::Literal(_) => false,
        Name::Parts(parts) => !parts.non_dropping_particle.is_empty(),
    }
}

// Returns whether one of these names has a prefix that is part of the family name.
pub(crate) fn have_fixed_prefix(names: &[Name]) -> bool
    ensures { result ≡ spec.have_fixed_prefix names.now }
{
    names.iter().any(|name| has_fixed_prefix(name))
}
