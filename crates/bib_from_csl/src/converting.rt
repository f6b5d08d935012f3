//! Items of CSL-JSON as entries of BibLaTeX.

ghost use Rattle.std.specs.Prelude.{◌≡◌, ◌≢◌, ◌≤◌, length, IfErr, IfOk, OnErr, OnOk};
ghost use Rattle.bib_from_csl.specs.FromCsl as spec;
ghost use Rattle.bib_from_csl.specs.GivenItems.{items_read};

use crate::given::GivenItem;
use crate::losses::{Loss, all_losses};
use crate::places::{place_of_fault, place_of_item};
use crate::reading::{Fault, ItemsReading, items_in};
use crate::writing::{entries_text, key_of};
use bib_text::items::Items;
use bib_text::text::Text;
use biblatex::{Bibliography, Entry, ParseError, ParseErrorKind};
use json::{Error, Scratch, Value};
use std::alloc::{AllocError, Global};

/// The entries of items.
#[derive(Debug, Drop)]
pub struct Converted {
    /// The source of the entries, for a .bib file.
    pub text: Text,
    /// The members of items that their entries lack or change.
    pub losses: Items<Loss>,
}

/// The reason why the items of a text can't be converted, and its position.
#[derive(Debug, Clone, Copy, PartialEq, Eq)]
pub struct Refusal {
    /// The reason.
    pub fault: Fault,
    /// The index of the element at fault; 0 if the text isn't JSON, or is no array of items.
    pub element: usize,
    /// The byte offset of the fault: the start of that element, or the place at which the text stops being JSON. For JSON that is no array,
    /// it is the start of the value. The place of too deep nesting isn't found. For this fault, it is the place of a later fault, or else
    /// the end of the text.
    pub at: usize,
}

/// The reason why a text can't be converted to entries.
#[derive(Debug, Drop)]
pub enum ItemsError {
    /// An element of the text can't be converted, the text is neither a JSON array nor an object, or the entries of two items have one key.
    Refused(Refusal),
    /// The source of the entries can't be parsed, for this reason.
    NotRead(ParseError),
    /// Out of memory.
    OutOfMemory,
}

impl ItemsError {
    /// Returns the error itself, or an `AllocError` for `OutOfMemory`.
    pub fn unless_out_of_memory(self) -> Result<ItemsError, AllocError>
        ensures other { IfOk result (λ other. (other ≡ self) × (self ≢ ItemsError.OutOfMemory)) }
        ensures no_memory { OnErr result (self ≡ ItemsError.OutOfMemory) }
    {
        match self {
            ItemsError::OutOfMemory => Err(AllocError),
            other => Ok(other),
        }
    }
}

impl From<AllocError> for ItemsError {
    ghost use Rattle.bib_from_csl.specs.declared.converting.ItemsError.TheVariants.{OutOfMemory};

    ghost from_gives = { λ _ error. error ≡ OutOfMemory };

    fn from(_error: AllocError) -> Self {
        ItemsError::OutOfMemory
    }
}

// Returns an `AllocError` for out of memory, and Ok for any other error.
fn unless_out_of_memory(error: Error) -> Result<(), AllocError>
    ensures other { OnOk result (error ≢ Error.OutOfMemory) }
{
    match error {
        Error::OutOfMemory => Err(AllocError),
        _ => Ok(()),
    }
}

// Returns the items in a text of CSL-JSON, or the fault.
#[tactic(auto, unfolding(crate::specs::GivenItems::items_read))]
fn items_of(alloc: Global, text: &str) -> Result<ItemsReading, AllocError>
    ensures { IfOk result (λ reading. reading ≡ items_read text.now) }
{
    let mut scratch = Scratch::new(alloc);
    match Value::parse(alloc, text, &mut scratch) {
        Ok(value) => items_in(alloc, &value),
        Err(error) => {
            unless_out_of_memory(error)?;
            Ok(ItemsReading::Refused(0, Fault::NotJson))
        }
    }
}

// Returns the byte offset of a fault.
fn place_of(alloc: Global, text: &str, element: usize, fault: Fault) -> Result<usize, AllocError>
    ensures { IfOk result (λ place. place ≤ length text.now) }
{
    match fault {
        Fault::NotJson => place_of_fault(alloc, text),
        _ => place_of_item(alloc, text, element),
    }
}

// Returns the refusal for a fault.
fn refused_at(
    alloc: Global,
    text: &str,
    element: usize,
    fault: Fault,
) -> Result<Refusal, AllocError>
    ensures { IfOk result (λ refusal. (refusal.element ≡ element) × (refusal.fault ≡ fault) × (refusal.at ≤ length text.now)) }
{
    Ok(Refusal {
        fault,
        element,
        at: place_of(alloc, text, element, fault)?,
    })
}

/// Returns the index of the second item whose entry has this key, or the number of items if there is none.
pub fn index_of_second(alloc: Global, items: &[GivenItem], key: &str) -> Result<usize, AllocError> {
    let mut index = 0;
    let mut is_met = false;
    'items: for item in items {
        if key_of(alloc, item.id.as_str())?.as_str() == key {
            if is_met {
                return Ok(index);
            }
            is_met = true;
        }
        index += 1;
    }
    Ok(index)
}

// Returns the error for entries whose source can't be parsed: `KeyTwice` for the second of two entries with one key, otherwise `NotRead`.
fn unread(
    alloc: Global,
    json: &str,
    items: &[GivenItem],
    error: ParseError,
) -> Result<ItemsError, AllocError>
    ensures { IfOk result (spec.IsOfUnreadItems json.now) }
{
    if let ParseErrorKind::DuplicateKey(key) = &error.kind {
        let index = index_of_second(alloc, items, key.as_str())?;
        return Ok(ItemsError::Refused(refused_at(alloc, json, index, Fault::KeyTwice)?));
    }
    Ok(ItemsError::NotRead(error))
}

/// Converts the items of a text of CSL-JSON to BibLaTeX entries, one for each item, in order. The text is an array of items, or one item,
/// such as those from doi.org. Also returns the members of items that the entries lack or change. To find them, the source of the entries
/// is parsed, and each entry is converted back to an item. Each member that isn't empty is compared with this item.
///
/// # Errors
///
/// `Refused` if an element of the text can't be converted, the text is neither a JSON array nor an object, or the entries of two items have
/// one key;
/// `NotRead` if the source of the entries can't be parsed for another reason; `OutOfMemory` if memory runs out.
pub fn entries_of(alloc: Global, json: &str) -> Result<Converted, ItemsError>
    ensures made { IfOk result (spec.AreEntriesOf json.now) }
    ensures refused { IfErr result (spec.MayRefuseItems json.now) }
{
    let items = match items_of(alloc, json)? {
        ItemsReading::Are(items) => items,
        ItemsReading::Refused(element, fault) => {
            return Err(ItemsError::Refused(refused_at(alloc, json, element, fault)?));
        }
    };
    let text = entries_text(alloc, items.as_slice())?;
    let bibliography = match Bibliography::parse(alloc, text.as_str()) {
        Ok(bibliography) => bibliography,
        Err(error) => {
            error.unless_out_of_memory()?;
            return Err(unread(alloc, json, items.as_slice(), error)?);
        }
    };
    let entries = bibliography.into_vec();
    let losses = all_losses(alloc, items.as_slice(), entries.as_slice())?;
    Ok(Converted { text, losses })
}
