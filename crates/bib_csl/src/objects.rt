//! The text of an item as JSON.

ghost use Rattle.std.specs.Prelude.{◌≡◌, IfOk, string_bytes};
ghost use Rattle.serde_json.specs.Written.{compact_text};
ghost use Rattle.bib_csl.specs.Items;
ghost use Rattle.bib_csl.specs.Json as spec;
ghost use Rattle.bib_csl.specs.SentenceItems.{item_of_entry_in};

use crate::item::{Content, Item};
use crate::making::item_of;
use crate::sentence_items::{TitleCase, item_of_in};
use crate::writing::{text_written, write_content, write_item};
use bib_entry::entry::Entry;
use json::Writer;
use std::alloc::{AllocError, Global};

// The texts of most items have fewer bytes.
const USUAL_LENGTH: usize = 1024;

/// Returns the content of a variable as JSON without white space between tokens. The only error is out of memory.
pub fn content_text(alloc: Global, content: &Content) -> Result<String, AllocError>
    ensures { IfOk result (λ text. string_bytes text ≡ compact_text (spec.content_json content.now)) }
{
    let mut out = Writer::new(Vec::new(alloc));
    write_content(&mut out, content)?;
    Ok(text_written(out))
}

// Returns an item as an object of CSL-JSON without white space between tokens.
fn text_of_item(alloc: Global, item: &Item) -> Result<String, AllocError>
    ensures { IfOk result (λ text. string_bytes text ≡ compact_text (spec.json_of item.now)) }
{
    let mut out = Writer::new(Vec::with_capacity(alloc, USUAL_LENGTH)?);
    write_item(alloc, &mut out, item)?;
    Ok(text_written(out))
}

/// Returns the item of an entry as an object of CSL-JSON without white space between tokens. The only error is out of memory.
pub fn item_text(alloc: Global, entry: &Entry) -> Result<String, AllocError>
    ensures { IfOk result (λ text. string_bytes text ≡ compact_text (spec.json_of (Items.item_of_entry entry.now))) }
{
    let item = item_of(alloc, entry)?;
    text_of_item(alloc, &item)
}

/// Returns the item of an entry, with its titles in this case, as an object of CSL-JSON without white space between tokens. The only error
/// is out of memory.
pub fn item_text_in(alloc: Global, titles: TitleCase, entry: &Entry) -> Result<String, AllocError>
    ensures { IfOk result (λ text. string_bytes text ≡ compact_text (spec.json_of (item_of_entry_in titles entry.now))) }
{
    let item = item_of_in(alloc, titles, entry)?;
    text_of_item(alloc, &item)
}
