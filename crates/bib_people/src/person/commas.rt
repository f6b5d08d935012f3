//! Parses names that are cut at commas.

ghost use Rattle.std.specs.Prelude.{false, MatchOption, ◌≡◌, ◌≤◌, ◌+◌, length, IfOk};
ghost use Rattle.std.specs.List.{list_any};
ghost use Rattle.bib_people.specs.WordKinds.{IsLastSpace, cuts_of};
ghost use Rattle.bib_people.specs.Names.{is_space_byte, person, trimmed_text, formats_to_nothing, at_last_space, whole_person, cut_person, without_comma, with_comma, by_commas};

use super::Person;
use super::cuts::{Cuts, before_comma, whole_name};
use super::words::{Word, letters, text_of_words, words};
use bib_chunks::chunk::cuts::cut_at;
use bib_chunks::chunk::{ChunksRef, format_verbatim};
use bib_text::text::Text;
use std::alloc::{AllocError, Global};

// Returns a person of these parts, without the optional ones.
fn person(name: Text, given_name: Text, prefix: Text, suffix: Text) -> Person
    ensures { result ≡ person name given_name prefix suffix }
{
    Person {
        name,
        given_name,
        prefix,
        suffix,
        id: None,
        prefix_initials: None,
        given_initials: None,
        use_prefix: None,
    }
}

// Returns the text of chunks, without the white space at its ends.
pub(crate) fn trimmed_text(alloc: Global, chunks: ChunksRef<'_>) -> Result<Text, AllocError>
    ensures { IfOk result (λ text. text ≡ trimmed_text chunks.now) }
{
    let text = format_verbatim(alloc, chunks)?;
    Text::from_str(alloc, text.as_str().trim())
}

// Returns the person of a name without a comma that has these cuts.
fn whole_person(alloc: Global, words: &[Word<'_>], cuts: Cuts) -> Result<Person, AllocError>
    requires { cuts.given + cuts.prefix ≤ length words.now }
    ensures { IfOk result (λ person. person ≡ whole_person (cuts_of cuts) words.now) }
{
    let following = &words[cuts.given..];
    let name = text_of_words(alloc, &following[cuts.prefix..])?;
    let given = text_of_words(alloc, &words[..cuts.given])?;
    let prefix = text_of_words(alloc, &following[..cuts.prefix])?;
    Ok(person(name, given, prefix, Text::new(alloc)))
}

// Returns the person of a name without a comma.
fn without_comma(alloc: Global, chunks: ChunksRef<'_>) -> Result<Person, AllocError>
    ensures { IfOk result (λ person. person ≡ without_comma chunks.now) }
{
    let letters = letters(alloc, chunks)?;
    let words = words(alloc, letters.as_slice())?;
    let cuts = whole_name(words.as_slice());
    whole_person(alloc, words.as_slice(), cuts)
}

// Returns whether there is a single chunk and it formats to the empty text.
fn formats_to_nothing(alloc: Global, chunks: ChunksRef<'_>) -> Result<bool, AllocError>
    ensures { IfOk result (λ blank. blank ≡ formats_to_nothing chunks.now) }
{
    if chunks.len() != 1 {
        return Ok(false);
    }
    let text = format_verbatim(alloc, chunks)?;
    Ok(text.as_str().is_empty())
}

// Returns the byte offset of the last space of a text.
fn last_space(text: &str) -> Option<usize>
    ensures { MatchOption result (list_any is_space_byte text.now ≡ false) (IsLastSpace text.now) }
{
    text.rfind(' ')
}

// Returns the person of a name whose given name is one chunk without text. The text before the comma is cut at its last space.
// Without a space, all of it is the family name.
fn at_last_space(alloc: Global, text: &str, suffix: Text) -> Result<Person, AllocError>
    ensures { IfOk result (λ person. person ≡ at_last_space text.now suffix) }
{
    let empty = Text::new(alloc);
    let Some(space) = last_space(text) else {
        let name = Text::from_str(alloc, text.trim())?;
        return Ok(person(name, empty, Text::new(alloc), suffix));
    };
    let name = Text::from_str(alloc, text[space + 1..].trim())?;
    let prefix = Text::from_str(alloc, text[..space].trim())?;
    Ok(person(name, empty, prefix, suffix))
}

// Returns the person of a name that has these cuts before its comma.
fn cut_person(
    alloc: Global,
    words: &[Word<'_>],
    cuts: Cuts,
    given: Text,
    suffix: Text,
) -> Result<Person, AllocError>
    requires { cuts.given + cuts.prefix ≤ length words.now }
    ensures { IfOk result (λ person. person ≡ cut_person (cuts_of cuts) words.now given suffix) }
{
    let following = &words[cuts.given..];
    let name = text_of_words(alloc, &following[cuts.prefix..])?;
    let prefix = text_of_words(alloc, &following[..cuts.prefix])?;
    Ok(person(name, given, prefix, suffix))
}

// Returns the person of a name with a comma. `first` is the chunks before the comma, and `second` is those of the given name.
fn with_comma(
    alloc: Global,
    first: ChunksRef<'_>,
    second: ChunksRef<'_>,
    suffix: Text,
) -> Result<Person, AllocError>
    ensures { IfOk result (λ person. person ≡ with_comma first.now second.now suffix) }
{
    if formats_to_nothing(alloc, second)? {
        let text = format_verbatim(alloc, first)?;
        return at_last_space(alloc, text.as_str(), suffix);
    }
    let letters = letters(alloc, first)?;
    let words = words(alloc, letters.as_slice())?;
    let cuts = before_comma(words.as_slice());
    let given = trimmed_text(alloc, second)?;
    cut_person(alloc, words.as_slice(), cuts, given, suffix)
}

// Returns the person of a name that isn't in the extended format.
pub(crate) fn by_commas(alloc: Global, chunks: ChunksRef<'_>) -> Result<Person, AllocError>
    ensures { IfOk result (λ person. person ≡ by_commas chunks.now) }
{
    let Some((first, rest)) = cut_at(alloc, chunks, ',')? else {
        return without_comma(alloc, chunks);
    };
    let Some((suffix, given)) = cut_at(alloc, rest.as_slice(), ',')? else {
        return with_comma(alloc, first.as_slice(), rest.as_slice(), Text::new(alloc));
    };
    let suffix = trimmed_text(alloc, suffix.as_slice())?;
    with_comma(alloc, first.as_slice(), given.as_slice(), suffix)
}
