//! The field `howpublished`, which has the publisher or the address of a web page in many files.

ghost use Rattle.std.specs.Prelude.{◌≡◌, IfOk};
ghost use Rattle.bib_csl.specs.Notes.{is_way_address, is_way_printed, way_in_note};
ghost use Rattle.bib_csl.specs.Ways as spec;

use crate::identifiers::named_address;
use crate::publishing::named_publisher;
use crate::texts::rich_text;
use bib_entry::entry::Entry;
use bib_text::text::Text;
use std::alloc::{AllocError, Global};

// Returns the field `howpublished`, with HTML tags.
#[tactic(auto, unfolding(crate::specs::Ways::way_of))]
fn way_of(alloc: Global, entry: &Entry) -> Result<Text, AllocError>
    ensures { IfOk result (λ way. way ≡ spec.way_of entry.now) }
{
    rich_text(alloc, entry, "howpublished")
}

// Returns whether a text begins with an address: with `http://` or `https://`.
#[tactic(auto, unfolding(crate::specs::Ways::begins_with_address))]
fn begins_with_address(text: &str) -> bool
    ensures { result ≡ spec.begins_with_address text.now }
{
    text.starts_with("http://") || text.starts_with("https://")
}

// Returns whether a text contains white space, or a less-than sign, as a tag does.
#[tactic(auto, unfolding(crate::specs::Ways::has_gap))]
fn has_gap(text: &str) -> bool
    ensures { result ≡ spec.has_gap text.now }
{
    text.chars().any(|c| c.is_whitespace() || c == '<')
}

// Returns the field `howpublished` if it is an address and nothing else, otherwise an empty text.
#[tactic(auto, unfolding(crate::specs::Ways::way_as_address))]
pub(crate) fn way_as_address(alloc: Global, entry: &Entry) -> Result<Text, AllocError>
    ensures { IfOk result (λ way. way ≡ spec.way_as_address entry.now) }
{
    let way = way_of(alloc, entry)?;
    if begins_with_address(way.as_str()) && !has_gap(way.as_str()) {
        return Ok(way);
    }
    Ok(Text::new(alloc))
}

// Returns the field `howpublished` if it doesn't begin with an address, otherwise an empty text.
#[tactic(auto, unfolding(crate::specs::Ways::way_as_publisher))]
pub(crate) fn way_as_publisher(alloc: Global, entry: &Entry) -> Result<Text, AllocError>
    ensures { IfOk result (λ way. way ≡ spec.way_as_publisher entry.now) }
{
    let way = way_of(alloc, entry)?;
    if begins_with_address(way.as_str()) {
        return Ok(Text::new(alloc));
    }
    Ok(way)
}

// Returns whether an address in `howpublished` is the address of the item.
fn is_way_address(alloc: Global, entry: &Entry) -> Result<bool, AllocError>
    ensures { IfOk result (λ is. is ≡ is_way_address entry.now) }
{
    let way = way_as_address(alloc, entry)?;
    if way.is_empty() {
        return Ok(false);
    }
    let named = named_address(alloc, entry)?;
    Ok(named.is_empty() || named.as_str() == way.as_str())
}

// Returns whether `howpublished` is the address of the item if it begins with an address; otherwise, whether the item has no other
// publisher. `way` is the text of `howpublished`.
#[tactic(auto, unfolding(crate::specs::Notes::is_way_printed))]
fn is_way_printed(alloc: Global, entry: &Entry, way: &str) -> Result<bool, AllocError>
    requires { way.now ≡ spec.way_of entry.now }
    ensures { IfOk result (λ is. is ≡ is_way_printed entry.now) }
{
    if begins_with_address(way) {
        return is_way_address(alloc, entry);
    }
    Ok(named_publisher(alloc, entry)?.is_empty())
}

// Returns the field `howpublished`. Returns an empty text if it is the address of the item, or is printed as its publisher because the item
// has no other.
#[tactic(auto, unfolding(crate::specs::Notes::way_in_note))]
pub(crate) fn way_in_note(alloc: Global, entry: &Entry) -> Result<Text, AllocError>
    ensures { IfOk result (λ way. way ≡ way_in_note entry.now) }
{
    let way = way_of(alloc, entry)?;
    if is_way_printed(alloc, entry, way.as_str())? {
        return Ok(Text::new(alloc));
    }
    Ok(way)
}
