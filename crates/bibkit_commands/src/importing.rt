//! Runs `convert --from csl`, `--from ris` and `--from json`, which convert items of CSL-JSON, records of RIS and objects to entries.

ghost use Rattle.std.specs.Prelude.{◌≡◌, Some, IfOk, codes};
ghost use Rattle.bib_source.specs.Positions.{position_at};
ghost use Rattle.bibkit_commands.specs.Messages as spec;
ghost use Rattle.bibkit_commands.specs.Messages.{says};

use crate::edits::{after_mark, print};
use crate::stops::{Stop, bytes_of, error_line, say};
use bib_from_csl::converting::{Converted, ItemsError, Refusal, entries_of};
use bib_from_csl::losses::{Loss, LossKind};
use bib_from_csl::reading::Fault;
use bib_from_json::converting::{EntriesError, Refusal as ObjectRefusal, entries_of_json};
use bib_from_json::reading::Fault as ObjectFault;
use bib_from_ris::converting::{RisError, entries_of_ris};
use bib_tables::dialects::Dialect;
use bibkit_edits::edit::Edit;
use std::alloc::{AllocError, Global};
use std::str::from_utf8;

/// The format of items, records or objects that become entries.
#[derive(Debug, Clone, Copy, PartialEq, Eq)]
pub enum Source {
    /// CSL-JSON.
    Csl,
    /// RIS.
    Ris,
    /// The JSON that `convert --to json` prints.
    Json,
}

/// Returns the format of a file by the ending of its name: CSL-JSON for `.json`, and RIS for `.ris`. Returns `None` for any other ending.
pub fn source_of(name: &str) -> Option<Source> {
    if name.ends_with(".json") {
        Some(Source::Csl)
    } else if name.ends_with(".ris") {
        Some(Source::Ris)
    } else {
        None
    }
}

/// Returns the format by the endings of these names, if all of them have the same format.
pub fn shared_source(names: &[&str]) -> Option<Source> {
    let source = source_of(names.first()?)?;
    'names: for name in names {
        if source_of(name) != Some(source) {
            return None;
        }
    }
    Some(source)
}

// Returns the message for a fault of a text whose items can't be converted.
fn fault_text(fault: Fault) -> &'static str
    ensures { result.now ≡ spec.fault_text fault }
{
    match fault {
        Fault::NotJson => "expected JSON",
        Fault::NotAnArray => "expected an array of items, or one item",
        Fault::NotAnObject => "expected an item, which is an object",
        Fault::NoId =>
            "expected a text or a number as the `citation-key`, the `id` or the `DOI` of the item",
        Fault::NoType => "expected a text as the `type` of the item",
        Fault::WrongForm => "a variable of the item has a form that CSL doesn't allow",
        Fault::KeyTwice => "the item has the key of an earlier one",
    }
}

// Returns the message and status 1 for a text whose items can't be converted. The message contains the position of the fault.
fn fault_stop(alloc: Global, name: &str, text: &str, refusal: &Refusal) -> Result<Stop, AllocError>
    ensures { IfOk result (λ stop. says stop
        ≡ Some (spec.line_of_error name.now (position_at text.now refusal.now.at) (spec.fault_text refusal.now.fault), 1)) }
{
    let said = fault_text(refusal.fault);
    let line = error_line(alloc, name, text.as_bytes(), refusal.at, said)?;
    Ok(Stop::Said(line, 1))
}

// Returns the message and status 1 for an error of converting items.
fn items_stop(
    alloc: Global,
    name: &str,
    text: &str,
    error: ItemsError,
) -> Result<Stop, AllocError> {
    match error.unless_out_of_memory()? {
        ItemsError::Refused(refusal) => fault_stop(alloc, name, text, &refusal),
        _ => unread_stop(alloc, name),
    }
}

// Returns the message and status 1 for items, records or objects whose entries can't be parsed.
fn unread_stop(alloc: Global, name: &str) -> Result<Stop, AllocError> {
    let line = format!(in alloc; "bibkit: {name}: the converted entries can't be parsed\n")?;
    Ok(Stop::Said(line, 1))
}

// Returns the message and status 1 for an error of converting records.
fn records_stop(alloc: Global, name: &str, error: RisError) -> Result<Stop, AllocError> {
    match error.unless_out_of_memory()? {
        RisError::NoRecord => {
            let line = format!(in alloc;
                "bibkit: {name}: expected a record, which begins with a line `TY  - TYPE`\n"
            )?;
            Ok(Stop::Said(line, 1))
        }
        RisError::KeyTwice(index) => {
            let line = format!(in alloc;
                "bibkit: {name}: the record with the index {index} has the key of an earlier one\n"
            )?;
            Ok(Stop::Said(line, 1))
        }
        _ => unread_stop(alloc, name),
    }
}

// Returns the message for a fault of a text whose objects can't be converted.
fn object_fault_text(fault: ObjectFault) -> &'static str
    ensures { result.now ≡ spec.object_fault_text fault }
{
    match fault {
        ObjectFault::NotJson => "expected JSON",
        ObjectFault::NotEntries => "expected an array of entries, or one entry",
        ObjectFault::NotAnObject => "expected an entry, which is an object",
        ObjectFault::NoKey => "expected a text as the `key` of the entry",
        ObjectFault::NoType => "expected a text as the `type` of the entry",
        ObjectFault::NoFields => "expected an object as the `fields` of the entry",
        ObjectFault::EntryMember =>
            "expected one `type`, one `key`, one `fields`, one `date` or none, and no other member",
        ObjectFault::FieldTwice => "two fields have one name",
        ObjectFault::NoChunks => "expected an object with an array as `chunks`",
        ObjectFault::FieldMember =>
            "expected one `chunks`, one `value` or none, and no other member",
        ObjectFault::NotAChunk => "expected chunks with texts as `kind` and `text`",
        ObjectFault::ChunkMember =>
            "expected no other members of a chunk than `kind`, `text`, `start` and `end`, once each",
        ObjectFault::WrongKind =>
            "expected `normal`, `verbatim` or `math` as the `kind` of a chunk",
        ObjectFault::KeyTwice => "an earlier entry has this key, or has it in `ids`",
        ObjectFault::NotWritable =>
            "the written entry can't be parsed as one entry with this type and key",
        ObjectFault::OtherFields => "the written entry would be parsed with other fields",
        ObjectFault::OtherText => "the written field would be parsed as another text",
    }
}

// Returns the message for a fault of a text whose objects can't be converted, with the key and the field, if they are known.
fn object_message(alloc: Global, refusal: &ObjectRefusal) -> Result<String, AllocError> {
    let said = object_fault_text(refusal.unfit.fault);
    let (key, field) = (refusal.unfit.key.as_str(), refusal.unfit.field.as_str());
    if key.is_empty() {
        return String::from_str(alloc, said);
    }
    if field.is_empty() {
        return format!(in alloc; "`{key}`: {said}");
    }
    format!(in alloc; "`{key}`: `{field}`: {said}")
}

// Returns the message and status 1 for an error of converting objects.
fn objects_stop(
    alloc: Global,
    name: &str,
    text: &str,
    error: EntriesError,
) -> Result<Stop, AllocError> {
    match error.unless_out_of_memory()? {
        EntriesError::Refused(refusal) => {
            let said = object_message(alloc, &refusal)?;
            let line = error_line(alloc, name, text.as_bytes(), refusal.at, &said)?;
            Ok(Stop::Said(line, 1))
        }
        _ => unread_stop(alloc, name),
    }
}

// Converts the items, records or objects of a text to entries.
fn convert_items(alloc: Global, source: Source, name: &str, text: &str) -> Result<Converted, Stop> {
    match source {
        Source::Csl => match entries_of(alloc, text) {
            Ok(converted) => Ok(converted),
            Err(error) => Err(items_stop(alloc, name, text, error)?),
        },
        Source::Ris => match entries_of_ris(alloc, text) {
            Ok(converted) => Ok(converted),
            Err(error) => Err(records_stop(alloc, name, error)?),
        },
        Source::Json => match entries_of_json(alloc, text) {
            Ok(converted) => Ok(converted),
            Err(error) => Err(objects_stop(alloc, name, text, error)?),
        },
    }
}

// Returns the text of a note on a member of an item that is lost or changed in the entry.
fn loss_text(kind: LossKind) -> &'static str
    ensures { result.now ≡ spec.loss_text kind }
{
    match kind {
        LossKind::NoField => "is left out: no field for it",
        LossKind::Changed => "is changed: its field reads back as another value",
        LossKind::Partly => "is kept in part: no field for the rest",
    }
}

// Returns the end of the note on members of an item for which the entry has no field. `has_several` says whether there are several members.
fn left_out_text(has_several: bool) -> &'static str
    ensures { result.now ≡ spec.left_out_text has_several }
{
    if has_several {
        "are left out: no fields for them"
    } else {
        loss_text(LossKind::NoField)
    }
}

// The members of one item for which its entry has no field.
#[derive(Drop)]
struct LeftOut {
    // The names, with commas between them; empty without such a member.
    names: String,
    // Whether there are several names.
    has_several: bool,
}

impl LeftOut {
    // Returns the value before the first member.
    fn none(alloc: Global) -> Self {
        LeftOut {
            names: String::new(alloc),
            has_several: false,
        }
    }

    // Adds a member with this name.
    fn add(&mut self, name: &str) -> Result<(), AllocError> {
        if !self.names.is_empty() {
            self.names.push_str(", ")?;
            self.has_several = true;
        }
        self.names.push('`')?;
        self.names.push_str(name)?;
        self.names.push('`')?;
        Ok(())
    }

    // Prints a note on these members of the item with this `id`, if there are any. Lines of RIS that are in no record have no `id`.
    fn say(&self, rt: &HostRuntime, name: &str, id: &str) {
        let said = left_out_text(self.has_several);
        if self.names.is_empty() {
            return;
        }
        if id.is_empty() {
            let _ = eprint!(rt; "{name}: note: outside of records: {} {said}\n", self.names);
        } else {
            let _ = eprint!(rt; "{name}: note: `{id}`: {} {said}\n", self.names);
        }
    }
}

// Prints notes on the members of items that are lost or changed in the entries. The members without a field have one note for each item.
fn say_losses(rt: &HostRuntime, name: &str, losses: &[Loss]) -> Result<(), AllocError> {
    let mut left_out = LeftOut::none(rt.alloc());
    let mut id = "";
    'losses: for loss in losses {
        if loss.id.as_str() != id {
            left_out.say(rt, name, id);
            left_out = LeftOut::none(rt.alloc());
            id = loss.id.as_str();
        }
        if loss.kind == LossKind::NoField {
            left_out.add(loss.name.as_str())?;
        } else {
            let _ = eprint!(rt;
                "{name}: note: `{id}`: `{}` {}\n",
                loss.name.as_str(),
                loss_text(loss.kind)
            );
        }
    }
    left_out.say(rt, name, id);
    Ok(())
}

// Returns the edit that converts entries to the types and fields of a dialect.
fn edit_of<'a>(dialect: Dialect) -> Edit<'a> {
    match dialect {
        Dialect::Biblatex => Edit::ToBiblatex,
        Dialect::Bibtex => Edit::ToBibtex,
    }
}

// Returns the word for the contents of a file of this format.
fn things(source: Source) -> &'static str {
    match source {
        Source::Csl => "items",
        Source::Ris => "records",
        Source::Json => "entries",
    }
}

// Prints the entries of the items, records or objects of a text, and notes on members that are lost or changed. `is_last` says whether the
// process ends after this text.
fn import_text(
    rt: &HostRuntime,
    dialect: Dialect,
    source: Source,
    name: &str,
    text: &str,
    is_last: bool,
) -> Result<(), Stop> {
    let converted = convert_items(rt.alloc(), source, name, text)?;
    print(
        rt,
        name,
        converted.text.as_str().as_bytes(),
        &[edit_of(dialect)],
        is_last,
    )?;
    if converted.text.is_empty() {
        let _ = eprint!(rt; "{name}: note: no {}\n", things(source));
    }
    say_losses(rt, name, converted.losses.as_slice())?;
    Ok(())
}

// Returns the message and status 1 for bytes that aren't UTF-8 from a byte offset on.
fn encoding_stop(alloc: Global, name: &str, bytes: &[u8], at: usize) -> Result<Stop, AllocError>
    ensures { IfOk result (λ stop. says stop
        ≡ Some (spec.line_of_error name.now (position_at bytes.now at) (codes "not UTF-8 from here on"), 1)) }
{
    let line = error_line(alloc, name, bytes, at, "not UTF-8 from here on")?;
    Ok(Stop::Said(line, 1))
}

// Prints the entries of the items, records or objects of a file. `is_last` says whether it is the last one.
fn import_file(
    rt: &HostRuntime,
    dialect: Dialect,
    source: Source,
    name: &str,
    is_last: bool,
) -> Result<(), Stop> {
    let bytes = bytes_of(rt, name)?;
    let unmarked = after_mark(&bytes);
    match from_utf8(unmarked) {
        Ok(text) => import_text(rt, dialect, source, name, text, is_last),
        Err(error) => { Err(encoding_stop(rt.alloc(), name, unmarked, error.valid_up_to())?) }
    }
}

/// Prints the entries of the items, records or objects of each file in turn, with the types and fields of a dialect. Returns the greatest
/// status.
pub fn run_import(rt: &HostRuntime, dialect: Dialect, source: Source, names: &[&str]) -> u8 {
    let mut status = 0;
    'names: for (index, name) in names.iter().enumerate() {
        let is_last = index + 1 == names.len();
        if let Err(stop) = import_file(rt, dialect, source, name, is_last) {
            status = say(rt, &stop).max(status);
        }
    }
    status
}
