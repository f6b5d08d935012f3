//! Entries in JSON as entries of BibLaTeX.

ghost use Rattle.std.specs.Prelude.{◌≡◌, ◌≢◌, ◌≤◌, length, IfErr, IfOk, OnErr, OnOk};
ghost use Rattle.bib_from_json.specs.FromJson as spec;
ghost use Rattle.bib_from_json.specs.GivenEntries.{entries_read};

use crate::comparing::entries_fault;
use crate::given::GivenEntry;
use crate::reading::{Fault, UnfitEntry, entries_in, no_json, unfit_in};
use crate::writing::{entries_text, entry_text};
use bib_from_csl::converting::Converted;
use bib_from_csl::places::{place_of_fault, place_of_item};
use bib_text::items::Items;
use biblatex::{Bibliography, ParseError, ParseErrorKind};
use json::{Error, Scratch, Value};
use std::alloc::{AllocError, Global};

/// The reason why the entries of a text can't be converted, and its position.
#[derive(Debug, Drop)]
pub struct Refusal {
    /// The reason, with the key and the field.
    pub unfit: UnfitEntry,
    /// The index of the element at fault; 0 if the text isn't JSON, or is neither an array nor an entry.
    pub element: usize,
    /// The byte offset of the fault: the start of that element, or the place at which the text stops being JSON. For JSON that is no array,
    /// it is the start of the value. The place of too deep nesting isn't found. For this fault, it is the place of a later fault, or else
    /// the end of the text.
    pub at: usize,
}

/// The reason why a text can't be converted to entries.
#[derive(Debug, Drop)]
pub enum EntriesError {
    /// The text has no entries of the schema, or an entry can't be written.
    Refused(Refusal),
    /// The source of the entries can't be parsed, for this reason. Each entry can be parsed alone. For example, entries refer to one
    /// another in a cycle, or an entry would inherit a date that can't be parsed.
    NotRead(ParseError),
    /// Out of memory.
    OutOfMemory,
}

impl EntriesError {
    /// Returns the error itself, or an `AllocError` for `OutOfMemory`.
    pub fn unless_out_of_memory(self) -> Result<EntriesError, AllocError>
        ensures other { IfOk result (λ other. (other ≡ self) × (self ≢ EntriesError.OutOfMemory)) }
        ensures no_memory { OnErr result (self ≡ EntriesError.OutOfMemory) }
    {
        match self {
            EntriesError::OutOfMemory => Err(AllocError),
            other => Ok(other),
        }
    }
}

impl From<AllocError> for EntriesError {
    ghost use Rattle.bib_from_json.specs.declared.converting.EntriesError.TheVariants.{OutOfMemory};

    ghost from_gives = { λ _ error. error ≡ OutOfMemory };

    fn from(_error: AllocError) -> Self {
        EntriesError::OutOfMemory
    }
}

// Returns an `AllocError` for out of memory, and Ok for any other error.
fn unless_out_of_memory(error: Error) -> Result<(), AllocError>
    ensures other { OnOk result (error ≢ Error.OutOfMemory) }
{
    match error {
        Error::OutOfMemory => Err(AllocError),
        _ => Ok(()),
    }
}

// Returns the entries in a text of JSON, or the index of the first element at fault, with the fault.
#[tactic(auto, unfolding(crate::specs::GivenEntries::entries_read))]
fn given_entries(
    alloc: Global,
    json: &str,
) -> Result<Result<Items<GivenEntry>, (usize, UnfitEntry)>, AllocError>
    ensures { IfOk result (λ given. given ≡ entries_read json.now) }
{
    let mut scratch = Scratch::new(alloc);
    match Value::parse(alloc, json, &mut scratch) {
        Ok(value) => entries_in(alloc, &value),
        Err(error) => {
            unless_out_of_memory(error)?;
            Ok(Err(no_json(alloc)?))
        }
    }
}

// Returns the byte offset of a fault.
fn place_of(alloc: Global, json: &str, element: usize, fault: Fault) -> Result<usize, AllocError>
    ensures { IfOk result (λ place. place ≤ length json.now) }
{
    match fault {
        Fault::NotJson => place_of_fault(alloc, json),
        _ => place_of_item(alloc, json, element),
    }
}

// Returns the refusal for a fault.
fn refused_at(
    alloc: Global,
    json: &str,
    element: usize,
    unfit: UnfitEntry,
) -> Result<Refusal, AllocError>
    ensures { IfOk result (λ refusal. (refusal.element ≡ element) × (refusal.unfit ≡ unfit) × (refusal.at ≤ length json.now)) }
{
    let at = place_of(alloc, json, element, unfit.fault)?;
    Ok(Refusal { unfit, element, at })
}

// Returns the index of the second entry with this key, or of the only one. Returns 0 if there is none.
fn index_of_last(entries: &[GivenEntry], key: &str) -> usize {
    let mut found = None;
    'entries: for (index, entry) in entries.iter().enumerate() {
        if entry.key.as_str() != key {
            continue 'entries;
        }
        if found.is_some() {
            return index;
        }
        found = Some(index);
    }
    found.unwrap_or(0)
}

// Returns whether the source of an entry can be parsed alone.
fn can_be_parsed(alloc: Global, entry: &GivenEntry) -> Result<bool, AllocError> {
    let text = entry_text(alloc, entry)?;
    match Bibliography::parse(alloc, text.as_str()) {
        Ok(_) => Ok(true),
        Err(error) => {
            error.unless_out_of_memory()?;
            Ok(false)
        }
    }
}

// Returns the index of the first entry whose source can't be parsed alone, with the fault `NotWritable`, or `None` if there is none.
fn first_unparsed(
    alloc: Global,
    entries: &[GivenEntry],
) -> Result<Option<(usize, UnfitEntry)>, AllocError> {
    'entries: for (index, entry) in entries.iter().enumerate() {
        if !can_be_parsed(alloc, entry)? {
            let unfit = unfit_in(alloc, Fault::NotWritable, entry.key.as_str(), "")?;
            return Ok(Some((index, unfit)));
        }
    }
    Ok(None)
}

// Returns the error for entries whose source can't be parsed: `KeyTwice`, or `NotWritable` for the first entry that can't be parsed alone,
// otherwise `NotRead`.
fn unread(
    alloc: Global,
    json: &str,
    entries: &[GivenEntry],
    error: ParseError,
) -> Result<EntriesError, AllocError>
    ensures { IfOk result (spec.IsOfUnreadEntries json.now) }
{
    if let ParseErrorKind::DuplicateKey(key) = &error.kind {
        let index = index_of_last(entries, key.as_str());
        let unfit = unfit_in(alloc, Fault::KeyTwice, key.as_str(), "")?;
        return Ok(EntriesError::Refused(refused_at(alloc, json, index, unfit)?));
    }
    match first_unparsed(alloc, entries)? {
        Some((index, unfit)) => Ok(EntriesError::Refused(refused_at(alloc, json, index, unfit)?)),
        None => Ok(EntriesError::NotRead(error)),
    }
}

/// Converts the entries of a text of JSON to BibLaTeX entries, in order. docs/entries.schema.json describes the JSON. The text is an array
/// of entries, or one entry. The source has the fields of each entry in their order. A value is written from its chunks. The members
/// `value` of fields, the member `date` of an entry, and the positions `start` and `end` of chunks are ignored.
///
/// Nothing else is lost, so `losses` is empty: the source is parsed again, and has the same entries. Each has the given key, type and names
/// of fields, and the styled texts of the given chunks.
///
/// # Errors
///
/// `Refused` if the text isn't an array of entries or one entry, or if the source of the entries can't be parsed as the same entries. The
/// latter holds, for example, for keys and names that can't be written, two entries with one key, chunks that aren't settled, the field
/// `xdata`, and entries that refer to themselves or inherit fields that they lack. `NotRead` if each entry can be parsed alone, but not all
/// entries together: for example, entries refer to one another in a cycle, or an entry would inherit a date that can't be parsed.
/// `OutOfMemory` if memory runs out.
pub fn entries_of_json(alloc: Global, json: &str) -> Result<Converted, EntriesError>
    ensures made { IfOk result (spec.AreEntriesOfJson json.now) }
    ensures refused { IfErr result (spec.MayRefuseEntries json.now) }
{
    let given = match given_entries(alloc, json)? {
        Ok(given) => given,
        Err((element, unfit)) => {
            return Err(EntriesError::Refused(refused_at(alloc, json, element, unfit)?));
        }
    };
    let text = entries_text(alloc, given.as_slice())?;
    let bibliography = match Bibliography::parse(alloc, text.as_str()) {
        Ok(bibliography) => bibliography,
        Err(error) => {
            error.unless_out_of_memory()?;
            return Err(unread(alloc, json, given.as_slice(), error)?);
        }
    };
    let entries = bibliography.into_vec();
    let fault = entries_fault(alloc, given.as_slice(), entries.as_slice())?;
    if let Some((element, unfit)) = fault {
        return Err(EntriesError::Refused(refused_at(alloc, json, element, unfit)?));
    }
    let losses = Items::new(alloc);
    Ok(Converted { text, losses })
}
