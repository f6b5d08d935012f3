//! Resolving: files in which inherited fields are written out.

ghost use Rattle.std.specs.Prelude.{IfErr, IfOk, OnOk};
ghost use Rattle.std.specs.String.{string_bytes};
ghost use Rattle.bib_collections.specs.Graph.{HasNoCycle};
ghost use Rattle.edit_resolve.specs.Parents.{parent_graph};
ghost use Rattle.edit_resolve.specs.Resolved.{IsResolved, ResolveIsRefused};

use crate::edits::edits;
use crate::errors::ResolveError;
use crate::file::File;
use crate::parents::all_parents;
use crate::turns::all_fields;
use edit_entries::document::RawDocument;
use edit_entries::editing::edited_all;
use std::alloc::Global;

/// Returns the text of a document in which inherited fields are written out, by the rules of inheritance of BibLaTeX.
///
/// **References.** An entry inherits from the entries that its fields `crossref` (one key) and `xdata` (a list of keys) name. These can
/// inherit from others. A field whose value isn't one literal names no entry. A key finds the first entry with this key, or else the
/// first entry with this name in its fields `ids`. In `xdata`, it finds nothing if this entry doesn't have the type `xdata`.
///
/// **Fields.** By `xdata` an entry inherits all fields except `ids`, `options`, `crossref`, `xdata` and annotations. By `crossref` the
/// titles of the parent get other names, such as `booktitle`, if the types of both entries have such a rule. Then `shorttitle`,
/// `sorttitle`, `indextitle` and `indexsorttitle` aren't inherited. A part of a book inherits the author of the book also as `bookauthor`.
/// Annotations and `ids`, `xref`, `related`, `label`, `options`, `shorthand`, `sortkey` and other fields of the parent itself aren't
/// inherited, and all other fields keep their names. A field of an `xdata` parent takes the place of an own field with its name. By
/// `crossref` no own field is replaced. Names are compared as Biber reads them: in any ASCII case, and for example `address`, `journal` and
/// `school` as `location`, `journaltitle` and `institution`. An entry with `date` inherits no `year`, `month` or `day`, and one with `year`
/// no `date`.
///
/// **Text.** A reference is resolved if it has a key and each of its keys finds an entry. The inherited fields replace the last resolved
/// reference of their entry. Its other resolved references are removed, with the text up to the next field. Each value is written as its
/// parent has it, with ` # ` between joined pieces. If nothing is inherited, the last resolved reference is removed too, or kept if no
/// field follows it. A field that takes the place of an own field is written there. A reference that isn't resolved is kept, and so is
/// every other byte of the file. An entry without a resolved reference gets no new field, but fields of found `xdata` parents still take
/// the places of own ones.
///
/// # Errors
///
/// Returns `Cycle` if an entry inherits from itself, and `OutOfMemory` if memory runs out.
pub fn resolve(alloc: Global, document: &RawDocument<'_>) -> Result<String, ResolveError>
    ensures resolved { IfOk result (λ new. IsResolved document.now (string_bytes new)) }
    ensures no_cycle { OnOk result (HasNoCycle (parent_graph document.now.says.entries)) }
    ensures refused { IfErr result (ResolveIsRefused document.now) }
{
    let raw = document.raw();
    let file = File::of(alloc, &raw.entries)?;
    let parents = all_parents(alloc, &file)?;
    let fields = all_fields(alloc, &file, &parents)?;
    let edits = edits(alloc, &file, document.text(), &parents, &fields)?;
    Ok(edited_all(alloc, document.text(), &edits)?)
}
