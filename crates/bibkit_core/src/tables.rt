//! Counts names, and prints the counts as tables.

ghost use Rattle.std.specs.Prelude.{◌≡◌, ◌++◌, ◌∷◌, [], ℕ, List, length, unwrap_or, IfOk, OnOk};
ghost use Rattle.std.specs.BTreeMap.{get_by_text};
ghost use Rattle.std.specs.List.{flat_map};
ghost use Rattle.std.specs.Str.{chars};
ghost use Rattle.std.specs.String.{string_bytes};
ghost use Rattle.bibkit_core.specs.Totals.{AddsNames, AreCounted};
ghost use Rattle.bibkit_core.specs.Tables.{AreByCount, AreByName, padding, row_line, table_text, widest};

use std::alloc::{AllocError, Global};
use std::collections::BTreeMap;

/// The count of each name. A count that would overflow stays at its maximum.
#[derive(Drop)]
pub struct Counts {
    counts: BTreeMap<String, u64>,
}

// A row of a table.
#[derive(Drop)]
struct Row<'c> {
    name: &'c str,
    count: u64,
}

impl Counts {
    /// Returns counts without any name.
    pub fn new(alloc: Global) -> Self
        ensures { AreCounted [] result }
    {
        Counts {
            counts: BTreeMap::new(alloc),
        }
    }

    // Returns the count of a name, or 0 if the name isn't counted yet.
    fn count(&self, name: &str) -> u64
        ensures { result ≡ unwrap_or (get_by_text self.now.counts name.now) 0 }
    {
        self.counts.get(name).copied().unwrap_or(0)
    }

    /// Adds one to the count of a name.
    pub fn add(&mut self, name: String) -> Result<(), AllocError>
        ensures { OnOk result (AddsNames (string_bytes name ∷ []) self.old self.new) }
    {
        let count = self.count(name.as_str());
        self.counts.insert(name, count.saturating_add(1))?;
        Ok(())
    }

    // Returns a row for each name, in the order of the names.
    fn rows(&self, alloc: Global) -> Result<Vec<Row<'_>>, AllocError>
        ensures { IfOk result (λ rows. (names : List (List ℕ)) → AreCounted names self.now → AreByName names rows.items) }
    {
        let mut rows = Vec::new(alloc);
        'counts: for (name, count) in self.counts.iter() {
            rows.push(Row {
                name: name.as_str(),
                count: *count,
            })?;
        }
        Ok(rows)
    }

    /// Appends a table with this title to `text`. Its rows are in the order of the names.
    pub fn push_by_name(
        &self,
        alloc: Global,
        text: &mut String,
        title: &str,
    ) -> Result<(), AllocError>
        ensures { OnOk result ((names : List (List ℕ)) → AreCounted names self.now → (rows : List Row) × AreByName names rows ×
            (string_bytes text.new ≡ string_bytes text.old ++ table_text title.now rows)) }
    {
        let rows = self.rows(alloc)?;
        push_table(alloc, text, title, &rows)?;
        Ok(())
    }

    /// Appends a table with this title to `text`. Its rows are in the order of their counts, the greatest first. Rows with equal
    /// counts are in the order of their names.
    pub fn push_by_count(
        &self,
        alloc: Global,
        text: &mut String,
        title: &str,
    ) -> Result<(), AllocError>
        ensures { OnOk result ((names : List (List ℕ)) → AreCounted names self.now → (rows : List Row) × AreByCount names rows ×
            (string_bytes text.new ≡ string_bytes text.old ++ table_text title.now rows)) }
    {
        let rows = by_count(self.rows(alloc)?)?;
        push_table(alloc, text, title, &rows)?;
        Ok(())
    }
}

// Sorts rows by count, the greatest first. The sort is stable.
fn by_count(rows: Vec<Row<'_>>) -> Result<Vec<Row<'_>>, AllocError>
    ensures { IfOk result (λ sorted. (names : List (List ℕ)) → AreByName names rows.entry.items → AreByCount names sorted.items) }
{
    let mut rows = rows;
    rows.sort_by_key(|row| u64::MAX - row.count)?;
    Ok(rows)
}

// Returns the number of characters of a text.
fn characters(text: &str) -> usize
    ensures { result ≡ length (chars text.now) }
{
    text.chars().count()
}

// Returns the number of characters of the longest name, or 0 without rows.
fn width(rows: &[Row<'_>]) -> usize
    ensures { result ≡ widest rows.now }
{
    let mut width = 0;
    'rows: for row in rows {
        width = characters(row.name).max(width);
    }
    width
}

// Appends spaces after `written` characters, up to `width`.
fn push_spaces(text: &mut String, written: usize, width: usize) -> Result<(), AllocError>
    ensures { OnOk result (string_bytes text.new ≡ string_bytes text.old ++ padding written width) }
{
    'spaces: for _column in written..width {
        text.push(' ')?;
    }
    Ok(())
}

// Appends the line of a row: two spaces, its name, padded to `width` characters, a space, and its count. The count is aligned to the
// right in eight characters.
fn push_row(alloc: Global, text: &mut String, row: &Row<'_>, width: usize) -> Result<(), AllocError>
    ensures { OnOk result (string_bytes text.new ≡ string_bytes text.old ++ row_line width row.now) }
{
    let count = format!(in alloc; "{}", row.count)?;
    text.push_str("  ")?;
    text.push_str(row.name)?;
    push_spaces(text, characters(row.name), width)?;
    text.push(' ')?;
    push_spaces(text, count.len(), 8)?;
    text.push_str(&count)?;
    text.push('\n')?;
    Ok(())
}

// Appends a line for each row. All names are padded to the width of the longest.
fn push_rows(alloc: Global, text: &mut String, rows: &[Row<'_>]) -> Result<(), AllocError>
    ensures { OnOk result (string_bytes text.new ≡ string_bytes text.old ++ flat_map (row_line (widest rows.now)) rows.now) }
{
    let width = width(rows);
    'rows: for row in rows {
        push_row(alloc, text, row, width)?;
    }
    Ok(())
}

// Appends an empty line, a line with the title, and a line for each row.
fn push_table(
    alloc: Global,
    text: &mut String,
    title: &str,
    rows: &[Row<'_>],
) -> Result<(), AllocError>
    ensures { OnOk result (string_bytes text.new ≡ string_bytes text.old ++ table_text title.now rows.now) }
{
    text.push('\n')?;
    text.push_str(title)?;
    text.push('\n')?;
    push_rows(alloc, text, rows)?;
    Ok(())
}
