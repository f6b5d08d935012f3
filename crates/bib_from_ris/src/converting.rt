//! Records of RIS as entries of BibLaTeX.

ghost use Rattle.std.specs.Prelude.{◌≡◌, ◌≢◌, IfErr, IfOk, OnErr};
ghost use Rattle.bib_from_ris.specs.FromRis as spec;
ghost use Rattle.bib_from_ris.specs.RisItems.{ris_sections};

use crate::items::items_of;
use crate::lines::ris_lines;
use crate::outside::outside_losses;
use crate::sections::{Section, sections_of};
use bib_entry::entry::Entry;
use bib_from_csl::converting::{Converted, index_of_second};
use bib_from_csl::given::GivenItem;
use bib_from_csl::losses::{Loss, all_losses};
use bib_from_csl::writing::entries_text;
use bib_text::items::Items;
use biblatex::{Bibliography, ParseError, ParseErrorKind};
use std::alloc::{AllocError, Global};

/// The reason why a text can't be converted to entries.
#[derive(Debug, Drop)]
pub enum RisError {
    /// The text has no record: none of its lines has the tag TY.
    NoRecord,
    /// The entries of two records have one key. The index is that of the second record, from 0.
    KeyTwice(usize),
    /// The source of the entries can't be parsed, for this reason.
    NotRead(ParseError),
    /// Out of memory.
    OutOfMemory,
}

impl From<AllocError> for RisError {
    ghost use Rattle.bib_from_ris.specs.declared.converting.RisError.TheVariants.{OutOfMemory};

    ghost from_gives = { λ _ error. error ≡ OutOfMemory };

    fn from(_error: AllocError) -> Self {
        RisError::OutOfMemory
    }
}

impl RisError {
    /// Returns the error itself, or an `AllocError` for `OutOfMemory`.
    pub fn unless_out_of_memory(self) -> Result<RisError, AllocError>
        ensures other { IfOk result (λ other. (other ≡ self) × (self ≢ RisError.OutOfMemory)) }
        ensures no_memory { OnErr result (self ≡ RisError.OutOfMemory) }
    {
        match self {
            RisError::OutOfMemory => Err(AllocError),
            other => Ok(other),
        }
    }
}

// Returns the records of a text, and the lines between them.
fn sections_in(alloc: Global, ris: &str) -> Result<Items<Section>, AllocError>
    ensures { IfOk result (λ sections. sections ≡ ris_sections ris.now) }
{
    let lines = ris_lines(alloc, ris)?;
    sections_of(alloc, lines.as_slice())
}

// Returns the error for entries whose source can't be parsed: `KeyTwice` for two entries with one key, otherwise `NotRead`.
fn unread(alloc: Global, items: &[GivenItem], error: ParseError) -> Result<RisError, AllocError>
    ensures { IfOk result spec.IsOfUnreadRecords }
{
    if let ParseErrorKind::DuplicateKey(key) = &error.kind {
        return Ok(RisError::KeyTwice(index_of_second(alloc, items, key.as_str())?));
    }
    Ok(RisError::NotRead(error))
}

// Returns the losses of a text with these sections, whose items have these entries.
fn losses_of(
    alloc: Global,
    sections: &[Section],
    items: &[GivenItem],
    entries: &[Entry],
) -> Result<Items<Loss>, AllocError>
    ensures { IfOk result (λ losses. losses ≡ spec.losses_with sections.now items.now entries.now) }
{
    let mut losses = outside_losses(alloc, sections)?.into_vec();
    let mut more = all_losses(alloc, items, entries)?.into_vec();
    losses.append(&mut more)?;
    Ok(Items::from_vec(losses))
}

/// Converts the records of a text of RIS to BibLaTeX entries, one for each record, in order. Also returns the lines that the entries
/// lack or change. To find them, the source of the entries is parsed, and each entry is converted back to an item of CSL-JSON. Each
/// member of the item of the record is compared with it. A line with a value that is in no record has a loss with an empty key.
///
/// # Errors
///
/// `NoRecord` if the text has no record; `KeyTwice` if the entries of two records have one key; `NotRead` if the source of the entries
/// can't be parsed for another reason; `OutOfMemory` if memory runs out.
pub fn entries_of_ris(alloc: Global, ris: &str) -> Result<Converted, RisError>
    ensures made { IfOk result (spec.AreEntriesOfRis ris.now) }
    ensures refused { IfErr result (spec.MayRefuseRis ris.now) }
{
    let sections = sections_in(alloc, ris)?;
    let items = items_of(alloc, sections.as_slice())?;
    if items.is_empty() {
        return Err(RisError::NoRecord);
    }
    let text = entries_text(alloc, items.as_slice())?;
    let bibliography = match Bibliography::parse(alloc, text.as_str()) {
        Ok(bibliography) => bibliography,
        Err(error) => {
            error.unless_out_of_memory()?;
            return Err(unread(alloc, items.as_slice(), error)?);
        }
    };
    let entries = bibliography.into_vec();
    let losses = losses_of(
        alloc,
        sections.as_slice(),
        items.as_slice(),
        entries.as_slice(),
    )?;
    Ok(Converted { text, losses })
}
