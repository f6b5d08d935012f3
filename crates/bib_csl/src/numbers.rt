//! The numbers of an item.

ghost use Rattle.std.specs.Prelude.{◌≡◌, ◌++◌, false, OnOk, IfOk};
ghost use Rattle.std.specs.Option.{option_copied};
ghost use Rattle.std.specs.Str.{chars};
ghost use Rattle.bib_values.specs.Ranges.{is_dash};
ghost use Rattle.bib_csl.specs.Numbers as spec;

use crate::adding::add_rich;
use crate::fields::add_text;
use crate::item::Field;
use crate::item_types::ItemType;
use crate::markup::marked_chunks;
use crate::standing::shown;
use crate::texts::{either, joined, rich_text};
use crate::types::{counts_issues, counts_series};
use crate::variables::Variable;
use bib_chunks::chunk::ChunksRef;
use bib_entry::entry::Entry;
use bib_text::items::Items;
use bib_text::scanner::Scanner;
use bib_text::text::Text;
use bib_values::ranges::read_ranges;
use std::alloc::{AllocError, Global};

// Returns the issue: the fields `number` and `issue` if `number` counts issues, otherwise `issue`.
#[tactic(auto, unfolding(crate::specs::Numbers::issue_of))]
fn issue_of(kind: ItemType, number: &Text, issue: Text) -> Result<Text, AllocError>
    ensures { IfOk result (λ text. text ≡ spec.issue_of kind number.now issue) }
{
    if counts_issues(kind) {
        return joined(", ", number.clone()?, issue);
    }
    Ok(issue)
}

// Returns the number of the item itself: `number`, or else `eid`, the number of an article in place of its pages. It is `eid` if `number`
// counts the issues or the works of a series.
#[tactic(auto, unfolding(crate::specs::Numbers::own_number))]
fn own_number(kind: ItemType, number: &Text, eid: Text) -> Result<Text, AllocError>
    ensures { IfOk result (λ text. text ≡ spec.own_number kind number.now eid) }
{
    if counts_issues(kind) || counts_series(kind) {
        return Ok(eid);
    }
    Ok(either(number.clone()?, eid))
}

// Returns the number in the series, or an empty text if `number` doesn't count the works of a series.
#[tactic(auto, unfolding(crate::specs::Numbers::collection_number))]
fn collection_number(alloc: Global, kind: ItemType, number: &Text) -> Result<Text, AllocError>
    ensures { IfOk result (λ text. text ≡ spec.collection_number kind number.now) }
{
    if counts_series(kind) {
        return number.clone();
    }
    Ok(Text::new(alloc))
}

// Returns whether a character is a dash between two pages.
fn is_dash(c: char) -> bool
    ensures { result ≡ is_dash c }
{
    matches!(c, '-' | '–' | '—')
}

// Appends the text for a character of ranges of pages: nothing for white space, and nothing for a dash after a dash. Any other dash becomes
// an en dash, and a comma becomes a comma and a space. Any other character is unchanged.
#[tactic(auto, unfolding(crate::specs::Numbers::page_sign))]
fn push_page_sign(out: &mut Text, follows_dash: bool, c: char) -> Result<(), AllocError>
    ensures { OnOk result (out.new ≡ out.old ++ spec.page_sign follows_dash c) }
{
    if c.is_whitespace() {
        return Ok(());
    }
    if is_dash(c) {
        if follows_dash {
            return Ok(());
        }
        return out.push('–');
    }
    if c == ',' {
        return out.push_str(", ");
    }
    out.push(c)
}

// Returns whether the last character so far that isn't white space is a dash.
#[tactic(auto, unfolding(crate::specs::Numbers::follows_dash_after))]
fn follows_dash_after(follows_dash: bool, c: char) -> bool
    ensures { result ≡ spec.follows_dash_after follows_dash c }
{
    if c.is_whitespace() {
        return follows_dash;
    }
    is_dash(c)
}

// Returns ranges of pages with en dashes and with a space after each comma.
fn with_en_dashes(alloc: Global, text: &str) -> Result<Text, AllocError>
    ensures { IfOk result (λ pages. pages ≡ spec.pages_from false (chars text.now)) }
{
    let mut out = Text::new(alloc);
    let mut follows_dash = false;
    let mut scanner = Scanner::new(text);
    'text: while let Some(c) = scanner.eat() {
        push_page_sign(&mut out, follows_dash, c)?;
        follows_dash = follows_dash_after(follows_dash, c);
    }
    Ok(out)
}

// Returns the pages of a field: with en dashes if it can be parsed as ranges of pages, otherwise its text with HTML tags.
#[tactic(auto, unfolding(crate::specs::Numbers::pages))]
fn pages(alloc: Global, field: Option<ChunksRef<'_>>) -> Result<Text, AllocError>
    ensures { IfOk result (λ text. text ≡ spec.pages (option_copied field.entry)) }
{
    let Some(chunks) = field else {
        return Ok(Text::new(alloc));
    };
    match read_ranges(alloc, chunks)? {
        Some(_) => with_en_dashes(alloc, shown(alloc, chunks)?.as_str()),
        None => marked_chunks(alloc, false, chunks),
    }
}

// Appends the volume, the number of volumes, the part, the issue, the number, and the number in the series.
#[tactic(auto, unfolding(crate::specs::Numbers::volume_fields))]
pub(crate) fn add_volume(
    alloc: Global,
    kind: ItemType,
    entry: &Entry,
    fields: &mut Items<Field>,
) -> Result<(), AllocError>
    ensures { OnOk result (fields.new ≡ fields.old ++ spec.volume_fields kind entry.now) }
{
    add_rich(alloc, Variable::Volume, entry, fields)?;
    add_rich(alloc, Variable::NumberOfVolumes, entry, fields)?;
    add_rich(alloc, Variable::PartNumber, entry, fields)?;
    let number = rich_text(alloc, entry, "number")?;
    let issue = rich_text(alloc, entry, "issue")?;
    add_text(fields, Variable::Issue, issue_of(kind, &number, issue)?)?;
    let eid = rich_text(alloc, entry, "eid")?;
    add_text(fields, Variable::Number, own_number(kind, &number, eid)?)?;
    let in_series = collection_number(alloc, kind, &number)?;
    add_text(fields, Variable::CollectionNumber, in_series)
}

// Appends the edition, the chapter, the pages, the number of pages, and the version.
#[tactic(auto, unfolding(crate::specs::Numbers::page_fields))]
pub(crate) fn add_pages(
    alloc: Global,
    entry: &Entry,
    fields: &mut Items<Field>,
) -> Result<(), AllocError>
    ensures { OnOk result (fields.new ≡ fields.old ++ spec.page_fields entry.now) }
{
    add_rich(alloc, Variable::Edition, entry, fields)?;
    add_rich(alloc, Variable::ChapterNumber, entry, fields)?;
    add_text(
        fields,
        Variable::Page,
        pages(alloc, entry.get(Variable::Page.field()))?,
    )?;
    add_rich(alloc, Variable::NumberOfPages, entry, fields)?;
    add_rich(alloc, Variable::Version, entry, fields)
}
