//! Writing entries in BibLaTeX's or BibTeX's types and fields.

ghost use Rattle.std.specs.Prelude.{◌≡◌, ◌++◌, OnOk, IfOk, codes, string_bytes, unwrap_or};
ghost use Rattle.std.specs.FinMap.{entries};
ghost use Rattle.std.specs.List.{flat_map};
ghost use Rattle.bib_tables.specs.EntryType.{entry_type_name};
ghost use Rattle.bib_text.specs.Enums.{value_named};
ghost use Rattle.bib_tables.specs.Dialects.{kind_in};
ghost use Rattle.bib_entry.specs.WrittenEntries.{entry_in, written_field};
ghost use Rattle.std.specs.Option.{option_map};
ghost use Rattle.bib_dates.specs.Chunks.{date_read};
ghost use Rattle.bib_tables.specs.Dialects.{biblatex_name, bibtex_name, bibtex_names, thesis_names};
ghost use Rattle.bib_entry.specs.WrittenEntries.{biblatex_entry, bibtex_entry, bibtex_field, date_lines, date_or, written_line, part_line, side_lines, value_bytes};

use crate::entry::Entry;
use bib_chunks::chunk::{ChunksRef, write_value};
use bib_dates::date::{Date, Datetime};
use bib_tables::dialects::{Dialect, biblatex_name, bibtex_name};
use bib_tables::fields::is_verbatim_field;
use bib_tables::mechanics::EntryType;
use bib_typed::typed::Type;
use std::alloc::{AllocError, Global};

// Appends the line of a field. `written` is the name in the output, and `name` is the name in the entry.
fn write_line(
    out: &mut String,
    written: &str,
    name: &str,
    chunks: ChunksRef<'_>,
) -> Result<(), AllocError>
    ensures { OnOk result (string_bytes out.new ≡ string_bytes out.old ++
        written_line written.now (value_bytes name.now chunks.now)) }
{
    out.push_str(written)?;
    out.push_str(" = ")?;
    write_value(out, chunks, is_verbatim_field(name))?;
    out.push_str(",\n")?;
    Ok(())
}

// Appends the line of a part of a date, if there is one.
fn write_part(
    out: &mut String,
    prefix: &str,
    name: &str,
    part: Option<String>,
) -> Result<(), AllocError>
    ensures { OnOk result (string_bytes out.new ≡ string_bytes out.old ++
        part_line (prefix.now ++ name.now) (option_map string_bytes part)) }
{
    let Some(text) = part else {
        return Ok(());
    };
    out.push_str(prefix)?;
    out.push_str(name)?;
    out.push_str(" = {")?;
    out.push_str(text.as_str())?;
    out.push_str("},\n")?;
    Ok(())
}

// Appends the lines of one side of a date, with `prefix` before their names.
fn write_side(
    alloc: Global,
    out: &mut String,
    prefix: &str,
    side: Datetime,
) -> Result<(), AllocError>
    ensures { OnOk result (string_bytes out.new ≡ string_bytes out.old ++
        side_lines prefix.now side) }
{
    write_part(out, prefix, "year", Some(side.year_text(alloc)?))?;
    write_part(out, prefix, "month", side.month_text(alloc)?)?;
    write_part(out, prefix, "day", side.day_text(alloc)?)
}

// Appends a date in separate fields, without times and marks. A range that is open on one side becomes the date of its other side.
fn write_date(alloc: Global, out: &mut String, date: &Date) -> Result<(), AllocError>
    ensures { OnOk result (string_bytes out.new ≡ string_bytes out.old ++ date_lines date.now) }
{
    write_side(alloc, out, "", date.value.first_side())?;
    let Some(end) = date.value.second_side() else {
        return Ok(());
    };
    write_side(alloc, out, "end", end)
}

// Appends the field `date`: in separate fields if it can be parsed, and unchanged otherwise.
fn write_date_field(
    alloc: Global,
    out: &mut String,
    chunks: ChunksRef<'_>,
) -> Result<(), AllocError>
    ensures { OnOk result (string_bytes out.new ≡ string_bytes out.old ++
        date_or (written_line (codes "date") (value_bytes (codes "date") chunks.now)) (date_read chunks.now)) }
{
    match Date::from_chunks(alloc, chunks) {
        Ok(date) => write_date(alloc, out, &date),
        Err(error) => {
            let _unread = error.unless_out_of_memory()?;
            write_line(out, "date", "date", chunks)
        }
    }
}

// Appends a field of an entry of type `kind` with BibTeX's names.
fn write_bibtex_field(
    alloc: Global,
    out: &mut String,
    kind: &EntryType,
    name: &str,
    chunks: ChunksRef<'_>,
) -> Result<(), AllocError>
    ensures { OnOk result (string_bytes out.new ≡ string_bytes out.old ++
        bibtex_field kind.now (name.now, chunks.now)) }
{
    if name == "date" {
        return write_date_field(alloc, out, chunks);
    }
    write_line(out, bibtex_name(kind, name), name, chunks)
}

// Appends a field of an entry of type `kind`.
fn write_field(
    alloc: Global,
    out: &mut String,
    kind: &EntryType,
    name: &str,
    chunks: ChunksRef<'_>,
    dialect: Dialect,
) -> Result<(), AllocError>
    ensures { OnOk result (string_bytes out.new ≡ string_bytes out.old ++
        written_field dialect kind.now (name.now, chunks.now)) }
{
    match dialect {
        Dialect::Biblatex => write_line(out, biblatex_name(name), name, chunks),
        Dialect::Bibtex => write_bibtex_field(alloc, out, kind, name, chunks),
    }
}

// Appends the text before the fields of an entry.
fn write_head(out: &mut String, kind: &str, key: &str) -> Result<(), AllocError>
    ensures { OnOk result (string_bytes out.new ≡ string_bytes out.old ++
        (codes "@" ++ (kind.now ++ (codes "{" ++ (key.now ++ codes ",\n"))))) }
{
    out.push('@')?;
    out.push_str(kind)?;
    out.push('{')?;
    out.push_str(key)?;
    out.push_str(",\n")?;
    Ok(())
}

// Appends the fields of an entry.
fn write_fields(
    alloc: Global,
    out: &mut String,
    entry: &Entry,
    dialect: Dialect,
) -> Result<(), AllocError>
    ensures { OnOk result (string_bytes out.new ≡ string_bytes out.old ++
        flat_map (written_field dialect entry.now.entry_type) (entries entry.now.fields)) }
{
    'fields: for (name, chunks) in &entry.fields {
        write_field(
            alloc,
            out,
            &entry.entry_type,
            name.as_str(),
            chunks.as_slice(),
            dialect,
        )?;
    }
    Ok(())
}

/// Appends an entry to `out`, in the types and fields of `dialect`. The only error is out of memory. A part of the entry may
/// then be appended.
pub fn write_entry(
    alloc: Global,
    out: &mut String,
    entry: &Entry,
    dialect: Dialect,
) -> Result<(), AllocError>
    ensures { OnOk result (string_bytes out.new ≡ string_bytes out.old ++
        entry_in dialect entry.now) }
{
    let kind = dialect.kind(&entry.entry_type);
    write_head(out, kind.name(), entry.key.as_str())?;
    write_fields(alloc, out, entry, dialect)?;
    out.push('}')?;
    Ok(())
}

impl Entry {
    /// Returns the entry as a text with escapes, in BibLaTeX's types and fields. An unknown command was parsed as plain
    /// text, so it is escaped: `\emph{x}` is written `\\emph\{x\}`. Outside verbatim fields and math, `~` is written
    /// `\textasciitilde{}`. The edits of `bibkit` and its `convert --to biblatex` keep such commands.
    ///
    /// `journal`, `address` and `school` become `journaltitle`, `location` and `institution`. The fields are in the order of
    /// the bytes of their names in the entry. The only error is out of memory.
    pub fn to_biblatex_string(&self, alloc: Global) -> Result<String, AllocError>
        ensures { IfOk result (λ text. string_bytes text ≡ biblatex_entry self.now) }
    {
        let mut out = String::new(alloc);
        write_entry(alloc, &mut out, self, Dialect::Biblatex)?;
        Ok(out)
    }

    /// Returns the entry as a text with escapes, in BibTeX's types and fields. An unknown command was parsed as plain text,
    /// so it is escaped: `\emph{x}` is written `\\emph\{x\}`. Outside verbatim fields and math, `~` is written
    /// `\textasciitilde{}`. The edits of `bibkit` and its `convert --to bibtex` keep such commands.
    ///
    /// `journaltitle` and `location` become `journal` and `address`, and the `institution` of a thesis becomes `school`. A
    /// `date` that can be parsed becomes `year`, and also `month` and `day` if it has them. For a range with two sides, these are
    /// of the first side, and the second becomes `endyear`, `endmonth` and `endday` in the same way. Times, marks and open sides
    /// are dropped. Any other `date` stays a field `date`. The fields are in the order of the bytes of their names in the entry.
    /// The only error is out of memory.
    pub fn to_bibtex_string(&self, alloc: Global) -> Result<String, AllocError>
        ensures { IfOk result (λ text. string_bytes text ≡ bibtex_entry self.now) }
    {
        let mut out = String::new(alloc);
        write_entry(alloc, &mut out, self, Dialect::Bibtex)?;
        Ok(out)
    }
}
