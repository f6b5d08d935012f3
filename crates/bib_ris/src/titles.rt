//! Lines of titles.

ghost use Rattle.std.specs.Prelude.{◌≡◌, ◌++◌, codes, IfOk, OnOk};
ghost use Rattle.std.specs.String.{string_bytes};
ghost use Rattle.bib_csl.specs.Texts.{series_named};
ghost use Rattle.bib_ris.specs.Bare.{bare_named};
ghost use Rattle.bib_ris.specs.Lines.{given_line};
ghost use Rattle.bib_ris.specs.Records as spec;

use crate::fields::{bare_named, bare_named_or, push_field};
use crate::lines::push_given;
use bib_csl::texts::{either, joined_by_mark, series_named};
use bib_entry::entry::Entry;
use bib_text::text::Text;
use std::alloc::{AllocError, Global};

// Returns a title with its subtitle and its addition, which are in the fields `subtitle` and `addon`.
#[tactic(auto, unfolding(crate::specs::Records::whole_title))]
fn whole_title(
    alloc: Global,
    entry: &Entry,
    title: Text,
    subtitle: &str,
    addon: &str,
) -> Result<Text, AllocError>
    ensures { IfOk result (λ text. text ≡ spec.whole_title entry.now title subtitle.now addon.now) }
{
    let both = joined_by_mark(alloc, ":", title, bare_named(alloc, entry, subtitle)?)?;
    joined_by_mark(alloc, ".", both, bare_named(alloc, entry, addon)?)
}

// Returns the title of the work itself.
#[tactic(auto, unfolding(crate::specs::Records::work_title))]
fn work_title(alloc: Global, entry: &Entry) -> Result<Text, AllocError>
    ensures { IfOk result (λ text. text ≡ spec.work_title entry.now) }
{
    let title = bare_named(alloc, entry, "title")?;
    whole_title(alloc, entry, title, "subtitle", "titleaddon")
}

// Returns the title of the journal.
#[tactic(auto, unfolding(crate::specs::Records::periodical_title))]
fn periodical_title(alloc: Global, entry: &Entry) -> Result<Text, AllocError>
    ensures { IfOk result (λ text. text ≡ spec.periodical_title entry.now) }
{
    let title = bare_named_or(alloc, entry, "journaltitle", "journal")?;
    whole_title(alloc, entry, title, "journalsubtitle", "journaltitleaddon")
}

// Returns the title of the book that contains the work.
#[tactic(auto, unfolding(crate::specs::Records::book_around))]
fn book_around(alloc: Global, entry: &Entry) -> Result<Text, AllocError>
    ensures { IfOk result (λ text. text ≡ spec.book_around entry.now) }
{
    let title = bare_named(alloc, entry, "booktitle")?;
    whole_title(alloc, entry, title, "booksubtitle", "booktitleaddon")
}

// Returns the title of the work of several volumes.
#[tactic(auto, unfolding(crate::specs::Records::volumes_around))]
fn volumes_around(alloc: Global, entry: &Entry) -> Result<Text, AllocError>
    ensures { IfOk result (λ text. text ≡ spec.volumes_around entry.now) }
{
    let title = bare_named(alloc, entry, "maintitle")?;
    whole_title(alloc, entry, title, "mainsubtitle", "maintitleaddon")
}

// Returns the title of the event, such as a conference.
#[tactic(auto, unfolding(crate::specs::Records::meeting_title))]
fn meeting_title(alloc: Global, entry: &Entry) -> Result<Text, AllocError>
    ensures { IfOk result (λ text. text ≡ spec.meeting_title entry.now) }
{
    let title = bare_named(alloc, entry, "eventtitle")?;
    joined_by_mark(
        alloc,
        ".",
        title,
        bare_named(alloc, entry, "eventtitleaddon")?,
    )
}

// Returns the title of the container of the work: the journal, or else the book, the work of several volumes, or the event.
#[tactic(auto, unfolding(crate::specs::Records::host_title))]
fn host_title(alloc: Global, entry: &Entry) -> Result<Text, AllocError>
    ensures { IfOk result (λ text. text ≡ spec.host_title entry.now) }
{
    let whole = either(volumes_around(alloc, entry)?, meeting_title(alloc, entry)?);
    let book = either(book_around(alloc, entry)?, whole);
    Ok(either(periodical_title(alloc, entry)?, book))
}

// Appends the line of the title of the work.
fn push_work_title(out: &mut String, alloc: Global, entry: &Entry) -> Result<(), AllocError>
    ensures { OnOk result (string_bytes out.new ≡ string_bytes out.old ++ given_line (codes "TI") (spec.work_title entry.now)) }
{
    push_given(out, "TI", work_title(alloc, entry)?.as_str())
}

// Appends the line of the title of the container of the work.
fn push_host_title(out: &mut String, alloc: Global, entry: &Entry) -> Result<(), AllocError>
    ensures { OnOk result (string_bytes out.new ≡ string_bytes out.old ++ given_line (codes "T2") (spec.host_title entry.now)) }
{
    push_given(out, "T2", host_title(alloc, entry)?.as_str())
}

// Appends the line of the title of the journal.
fn push_periodical_title(out: &mut String, alloc: Global, entry: &Entry) -> Result<(), AllocError>
    ensures { OnOk result (string_bytes out.new ≡ string_bytes out.old ++ given_line (codes "JF") (spec.periodical_title entry.now)) }
{
    push_given(out, "JF", periodical_title(alloc, entry)?.as_str())
}

// Appends the line of the title of the book that contains the work.
fn push_book_title(out: &mut String, alloc: Global, entry: &Entry) -> Result<(), AllocError>
    ensures { OnOk result (string_bytes out.new ≡ string_bytes out.old ++ given_line (codes "BT") (spec.book_around entry.now)) }
{
    push_given(out, "BT", book_around(alloc, entry)?.as_str())
}

// Appends the lines of the titles of the journal and of the book.
#[tactic(auto, unfolding(crate::specs::Records::whole_host_part))]
fn push_whole_hosts(out: &mut String, alloc: Global, entry: &Entry) -> Result<(), AllocError>
    ensures { OnOk result (string_bytes out.new ≡ string_bytes out.old ++ spec.whole_host_part entry.now) }
{
    push_periodical_title(out, alloc, entry)?;
    push_book_title(out, alloc, entry)
}

// Appends the lines of the container's title, of the titles of the journal and of the book once more, and of the journal's short title.
#[tactic(auto, unfolding(crate::specs::Records::host_part))]
fn push_host(out: &mut String, alloc: Global, entry: &Entry) -> Result<(), AllocError>
    ensures { OnOk result (string_bytes out.new ≡ string_bytes out.old ++ spec.host_part entry.now) }
{
    push_host_title(out, alloc, entry)?;
    push_whole_hosts(out, alloc, entry)?;
    push_field(out, alloc, entry, "JA", "shortjournal")
}

// Appends the line of the title of the series.
fn push_series(out: &mut String, alloc: Global, entry: &Entry) -> Result<(), AllocError>
    ensures { OnOk result (string_bytes out.new ≡ string_bytes out.old
        ++ given_line (codes "T3") (series_named (bare_named entry.now (codes "series")))) }
{
    let series = series_named(alloc, bare_named(alloc, entry, "series")?)?;
    push_given(out, "T3", series.as_str())
}

/// Appends the lines of the title, its short form, the titles of the container of the work, and the title of the series.
#[tactic(auto, unfolding(crate::specs::Records::titles_part))]
pub(crate) fn push_titles(out: &mut String, alloc: Global, entry: &Entry) -> Result<(), AllocError>
    ensures { OnOk result (string_bytes out.new ≡ string_bytes out.old ++ spec.titles_part entry.now) }
{
    push_work_title(out, alloc, entry)?;
    push_field(out, alloc, entry, "ST", "shorttitle")?;
    push_host(out, alloc, entry)?;
    push_series(out, alloc, entry)
}
