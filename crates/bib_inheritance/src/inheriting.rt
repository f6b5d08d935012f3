//! The fields of an entry with those that it inherits.

ghost use Rattle.std.specs.Prelude.{◌≡◌, ℕ, List, OnOk, IfOk, Some, None, codes, bytes_eq, if◌then◌else◌};
ghost use Rattle.std.specs.FinMap as by_name;
ghost use Rattle.bib_tables.specs.Requirements.{is_one_of};
ghost use Rattle.bib_inheritance.specs.Inherited.{date_parts, field_by, plain_field};
ghost use Rattle.bib_inheritance.specs.EntryTexts.{first_named};

use bib_chunks::chunk::Chunks;
use bib_collections::text_map::TextMap;
use bib_text::text::Text;
use std::alloc::{AllocError, Global};

// Adds the fields in `given` that `own` lacks, and removes `xdata`. Reserves room for `more` further fields.
fn with_fields(
    own: TextMap<Chunks>,
    given: Vec<(Text, Chunks)>,
    more: usize,
) -> Result<TextMap<Chunks>, AllocError>
    ensures { IfOk result (λ fields. (name : List ℕ) → by_name.get fields name ≡
        plain_field (by_name.get own) (first_named given.items) name) }
{
    let mut given = given;
    let mut pairs = own.into_pairs();
    pairs.reserve_exact(given.len().saturating_add(more))?;
    pairs.append(&mut given)?;
    pairs.reverse();
    let mut fields = TextMap::from_pairs(pairs)?;
    fields.remove("xdata");
    Ok(fields)
}

// Sets the field `date`, and removes `year`, `month` and `day`.
fn set_date(alloc: Global, fields: &mut TextMap<Chunks>, date: Chunks) -> Result<(), AllocError>
    ensures { OnOk result ((name : List ℕ) → by_name.get fields.new name ≡
        (if bytes_eq name (codes "date") then Some date
        else if is_one_of date_parts name then None else by_name.get fields.old name)) }
{
    fields.remove("year");
    fields.remove("month");
    fields.remove("day");
    let name = Text::from_str(alloc, "date")?;
    fields.insert(name, date)?;
    Ok(())
}

/// Returns the fields of an entry after inheriting: its own fields, and those in `given` that it lacks. `xdata` is removed.
/// If there is an inherited `date`, it replaces the field `date`, and `year`, `month` and `day` are removed.
pub fn inherit(
    alloc: Global,
    own: TextMap<Chunks>,
    given: Vec<(Text, Chunks)>,
    date: Option<Chunks>,
) -> Result<TextMap<Chunks>, AllocError>
    ensures { IfOk result (λ fields. (name : List ℕ) → by_name.get fields name ≡
        field_by date (by_name.get own) (first_named given.items) name) }
{
    let mut fields = with_fields(own, given, usize::from(date.is_some()))?;
    if let Some(date) = date {
        set_date(alloc, &mut fields, date)?;
    }
    fields.shrink_to_fit();
    Ok(fields)
}
