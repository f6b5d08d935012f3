//! The JSON of items, written token by token.

ghost use Rattle.std.specs.Prelude.{◌≡◌, ◌++◌, [], map, OnOk, string_bytes};
ghost use Rattle.std.specs.List.{flat_map};
ghost use Rattle.json.specs.Print.{print};
ghost use Rattle.serde_json.specs.Data.{array, object};
ghost use Rattle.serde_json.specs.View.{items_of};
ghost use Rattle.bib_csl.specs.Json as json;
ghost use Rattle.bib_csl.specs.Tokens as spec;
ghost use Rattle.bib_csl.specs.Tokens.{tokens_of};

use crate::item::{Content, DateParts, Item, ItemDate, Name, NameParts, Season};
use crate::members::{Held, Members, item_members};
use bib_text::text::Text;
use json::Writer;
use std::alloc::{AllocError, Global};

// Writes a member with a text, unless the text is empty.
#[tactic(auto, unfolding(crate::specs::Tokens::text_tokens))]
fn write_text(out: &mut Writer, name: &str, text: &Text) -> Result<(), AllocError>
    ensures written { OnOk result (out.new.tokens ≡ out.old.tokens ++ spec.text_tokens name.now text.now) }
    ensures before { out.new.before ≡ out.old.before }
{
    if text.is_empty() {
        return Ok(());
    }
    out.key(name)?;
    out.string(text.as_str())
}

// Writes the parts of a person's name.
#[tactic(auto, unfolding(crate::specs::Tokens::parts_tokens))]
fn write_parts(out: &mut Writer, parts: &NameParts) -> Result<(), AllocError>
    ensures written { OnOk result (out.new.tokens ≡ out.old.tokens ++ spec.parts_tokens parts.now) }
    ensures before { out.new.before ≡ out.old.before }
{
    write_text(out, "dropping-particle", &parts.dropping_particle)?;
    write_text(out, "family", &parts.family)?;
    write_text(out, "given", &parts.given)?;
    write_text(out, "non-dropping-particle", &parts.non_dropping_particle)?;
    write_text(out, "suffix", &parts.suffix)
}

// Writes the members of a name.
#[tactic(auto, unfolding(crate::specs::Tokens::name_tokens))]
fn write_name_members(out: &mut Writer, name: &Name) -> Result<(), AllocError>
    ensures written { OnOk result (out.new.tokens ≡ out.old.tokens ++ spec.name_tokens name.now) }
    ensures before { out.new.before ≡ out.old.before }
{
    match name {
        Name::Literal(text) => {
            out.key("literal")?;
            out.string(text.as_str())
        }
        Name::Parts(parts) => write_parts(out, parts),
    }
}

// Writes a name.
fn write_name(out: &mut Writer, name: &Name) -> Result<(), AllocError>
    ensures written { OnOk result (out.new.tokens ≡ out.old.tokens ++ tokens_of (json.name_json name.now)) }
    ensures before { out.new.before ≡ out.old.before }
{
    out.begin_object()?;
    write_name_members(out, name)?;
    out.end_object()
}

// Writes names one after another.
fn write_each_name(out: &mut Writer, names: &[Name]) -> Result<(), AllocError>
    ensures written { OnOk result (out.new.tokens ≡
        out.old.tokens ++ flat_map (λ name. tokens_of (json.name_json name)) names.now) }
    ensures before { out.new.before ≡ out.old.before }
{
    'names: for name in names {
        write_name(out, name)?;
    }
    Ok(())
}

// Writes an array of names.
fn write_names(out: &mut Writer, names: &[Name]) -> Result<(), AllocError>
    ensures written { OnOk result (out.new.tokens ≡
        out.old.tokens ++ tokens_of (array (items_of (map json.name_json names.now)))) }
    ensures before { out.new.before ≡ out.old.before }
{
    out.begin_array()?;
    write_each_name(out, names)?;
    out.end_array()
}

// Writes the day of a month, if there is one.
fn write_day(out: &mut Writer, day: Option<u16>) -> Result<(), AllocError>
    ensures written { OnOk result (out.new.tokens ≡ out.old.tokens ++ spec.day_tokens day) }
    ensures before { out.new.before ≡ out.old.before }
{
    match day {
        Some(day) => out.u64(u64::from(day)),
        None => Ok(()),
    }
}

// Writes a month, and its day if there is one. Writes nothing without a month.
fn write_month(out: &mut Writer, month: Option<u16>, day: Option<u16>) -> Result<(), AllocError>
    ensures written { OnOk result (out.new.tokens ≡ out.old.tokens ++ spec.month_tokens month day) }
    ensures before { out.new.before ≡ out.old.before }
{
    let Some(month) = month else {
        return Ok(());
    };
    out.u64(u64::from(month))?;
    write_day(out, day)
}

// Writes an array with the year, the month if there is one, and its day if there is one.
fn write_date_parts(out: &mut Writer, parts: &DateParts) -> Result<(), AllocError>
    ensures written { OnOk result (out.new.tokens ≡ out.old.tokens ++ tokens_of (json.date_parts_json parts.now)) }
    ensures before { out.new.before ≡ out.old.before }
{
    out.begin_array()?;
    out.i64(parts.year)?;
    write_month(out, parts.month, parts.day)?;
    out.end_array()
}

// Writes dates one after another.
fn write_each_date(out: &mut Writer, dates: &[DateParts]) -> Result<(), AllocError>
    ensures written { OnOk result (out.new.tokens ≡
        out.old.tokens ++ flat_map (λ date. tokens_of (json.date_parts_json date)) dates.now) }
    ensures before { out.new.before ≡ out.old.before }
{
    'dates: for date in dates {
        write_date_parts(out, date)?;
    }
    Ok(())
}

// Writes an array of dates.
fn write_dates(out: &mut Writer, dates: &[DateParts]) -> Result<(), AllocError>
    ensures written { OnOk result (out.new.tokens ≡
        out.old.tokens ++ tokens_of (array (items_of (map json.date_parts_json dates.now)))) }
    ensures before { out.new.before ≡ out.old.before }
{
    out.begin_array()?;
    write_each_date(out, dates)?;
    out.end_array()
}

// Writes the member `circa`, if the date is uncertain or approximate.
fn write_circa(out: &mut Writer, circa: bool) -> Result<(), AllocError>
    ensures written { OnOk result (out.new.tokens ≡ out.old.tokens ++ spec.circa_tokens circa) }
    ensures before { out.new.before ≡ out.old.before }
{
    if circa {
        out.key("circa")?;
        return out.boolean(true);
    }
    Ok(())
}

// Writes the member `date-parts`, unless there are no dates.
#[tactic(auto, unfolding(crate::specs::Tokens::dates_tokens))]
fn write_all_parts(out: &mut Writer, dates: &[DateParts]) -> Result<(), AllocError>
    ensures written { OnOk result (out.new.tokens ≡ out.old.tokens ++ spec.dates_tokens dates.now) }
    ensures before { out.new.before ≡ out.old.before }
{
    if dates.is_empty() {
        return Ok(());
    }
    out.key("date-parts")?;
    write_dates(out, dates)
}

// Writes the member `literal` with the text of a date, if there is one.
fn write_literal(out: &mut Writer, literal: &Option<Text>) -> Result<(), AllocError>
    ensures written { OnOk result (out.new.tokens ≡ out.old.tokens ++ spec.literal_tokens literal.now) }
    ensures before { out.new.before ≡ out.old.before }
{
    let Some(text) = literal else {
        return Ok(());
    };
    out.key("literal")?;
    out.string(text.as_str())
}

// Writes the member `season`, if there is one.
fn write_season(out: &mut Writer, season: Option<Season>) -> Result<(), AllocError>
    ensures written { OnOk result (out.new.tokens ≡ out.old.tokens ++ spec.season_tokens season) }
    ensures before { out.new.before ≡ out.old.before }
{
    let Some(season) = season else {
        return Ok(());
    };
    out.key("season")?;
    out.u64(season_number(season))
}

// Returns the number of a season.
fn season_number(season: Season) -> u64
    ensures { result ≡ json.season_number season }
{
    match season {
        Season::Spring => 1,
        Season::Summer => 2,
        Season::Autumn => 3,
        Season::Winter => 4,
    }
}

// Writes the members of a date.
#[tactic(auto, unfolding(crate::specs::Tokens::date_tokens))]
fn write_date_members(out: &mut Writer, date: &ItemDate) -> Result<(), AllocError>
    ensures written { OnOk result (out.new.tokens ≡ out.old.tokens ++ spec.date_tokens date.now) }
    ensures before { out.new.before ≡ out.old.before }
{
    write_circa(out, date.circa)?;
    write_all_parts(out, date.parts.as_slice())?;
    write_literal(out, &date.literal)?;
    write_season(out, date.season)
}

// Writes a date.
fn write_date(out: &mut Writer, date: &ItemDate) -> Result<(), AllocError>
    ensures written { OnOk result (out.new.tokens ≡ out.old.tokens ++ tokens_of (object (json.date_members date.now))) }
    ensures before { out.new.before ≡ out.old.before }
{
    out.begin_object()?;
    write_date_members(out, date)?;
    out.end_object()
}

/// Writes the content of a variable.
#[tactic(auto, unfolding(crate::specs::Json::content_json))]
pub(crate) fn write_content(out: &mut Writer, content: &Content) -> Result<(), AllocError>
    ensures written { OnOk result (out.new.tokens ≡ out.old.tokens ++ tokens_of (json.content_json content.now)) }
    ensures before { out.new.before ≡ out.old.before }
{
    match content {
        Content::Text(text) => out.string(text.as_str()),
        Content::Names(names) => write_names(out, names.as_slice()),
        Content::Date(date) => write_date(out, date),
    }
}

// Writes the value of a member.
fn write_held(out: &mut Writer, held: Held<'_>) -> Result<(), AllocError>
    ensures written { OnOk result (out.new.tokens ≡ out.old.tokens ++ tokens_of (spec.held_json held.entry)) }
    ensures before { out.new.before ≡ out.old.before }
{
    match held {
        Held::Word(word) => out.string(word),
        Held::Whole(content) => write_content(out, content),
    }
}

// Writes a member.
fn write_member(out: &mut Writer, name: &str, held: Held<'_>) -> Result<(), AllocError>
    ensures written { OnOk result (out.new.tokens ≡ out.old.tokens ++ spec.member_tokens name.now held.entry) }
    ensures before { out.new.before ≡ out.old.before }
{
    out.key(name)?;
    write_held(out, held)
}

// Writes members one after another.
fn write_each_member(out: &mut Writer, members: Members<'_>) -> Result<(), AllocError>
    ensures written { OnOk result (out.new.tokens ≡
        out.old.tokens ++ flat_map (λ m. spec.member_tokens m.0.now m.1) members.entry.entries) }
    ensures before { out.new.before ≡ out.old.before }
{
    'members: for (name, held) in members {
        write_member(out, name, held)?;
    }
    Ok(())
}

// Writes an object of these members.
fn write_members(out: &mut Writer, members: Members<'_>) -> Result<(), AllocError>
    ensures written { OnOk result (out.new.tokens ≡ out.old.tokens ++ tokens_of (object (spec.members_held members.entry.entries))) }
    ensures before { out.new.before ≡ out.old.before }
{
    out.begin_object()?;
    write_each_member(out, members)?;
    out.end_object()
}

/// Writes an item.
#[tactic(auto, unfolding(crate::specs::Json::json_of))]
pub(crate) fn write_item(alloc: Global, out: &mut Writer, item: &Item) -> Result<(), AllocError>
    ensures written { OnOk result (out.new.tokens ≡ out.old.tokens ++ tokens_of (json.json_of item.now)) }
    ensures before { out.new.before ≡ out.old.before }
{
    write_members(out, item_members(alloc, item)?)
}

/// Returns the text of a writer.
pub(crate) fn text_written(out: Writer) -> String
    requires { out.before ≡ [] }
    ensures { string_bytes result ≡ print out.tokens }
{
    String::from_utf8(out.into_inner()).unwrap()
}
