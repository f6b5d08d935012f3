//! Getters and setters for the dates of an entry, which are in one field or in three.

ghost use Rattle.std.specs.Prelude.{◌≡◌, ◌++◌, codes};
ghost use Rattle.bib_entry.specs.DateFields.{IsDateRead, GetsDate, SetsDate, three_parts, three_parts_place};
ghost use Rattle.bib_entry.specs.Prefixes.{date_prefix};

use crate::entry::Entry;
use bib_chunks::chunk::ChunksRef;
use bib_dates::date::Date;
use bib_text::text::Text;
use bib_typed::retrieval::RetrievalError;
use bib_typed::typed::{PermissiveType, Type};
use std::alloc::{AllocError, Global};

// The prefix of the names of a date's fields, before `date`, `year`, `month` and `day`.
#[derive(Clone, Copy)]
enum Prefix {
    Plain,
    Event,
    Orig,
    Url,
}

impl Prefix {
    // Returns the name of the field of the date.
    fn date(self) -> &'static str
        ensures { result.now ≡ date_prefix self ++ codes "date" }
    {
        match self {
            Prefix::Plain => "date",
            Prefix::Event => "eventdate",
            Prefix::Orig => "origdate",
            Prefix::Url => "urldate",
        }
    }

    // Returns the name of the field of the year.
    fn year(self) -> &'static str
        ensures { result.now ≡ date_prefix self ++ codes "year" }
    {
        match self {
            Prefix::Plain => "year",
            Prefix::Event => "eventyear",
            Prefix::Orig => "origyear",
            Prefix::Url => "urlyear",
        }
    }

    // Returns the name of the field of the month.
    fn month(self) -> &'static str
        ensures { result.now ≡ date_prefix self ++ codes "month" }
    {
        match self {
            Prefix::Plain => "month",
            Prefix::Event => "eventmonth",
            Prefix::Orig => "origmonth",
            Prefix::Url => "urlmonth",
        }
    }

    // Returns the name of the field of the day.
    fn day(self) -> &'static str
        ensures { result.now ≡ date_prefix self ++ codes "day" }
    {
        match self {
            Prefix::Plain => "day",
            Prefix::Event => "eventday",
            Prefix::Orig => "origday",
            Prefix::Url => "urlday",
        }
    }
}

impl Entry {
    // Parses the date of `year` and of the fields of the month and the day with this prefix.
    fn three_parts(
        &self,
        alloc: Global,
        prefix: Prefix,
        year: ChunksRef<'_>,
    ) -> Result<PermissiveType<Date>, RetrievalError>
        ensures { IsDateRead (three_parts (date_prefix prefix) self.now year.now)
            (three_parts_place (date_prefix prefix) self.now year.now) result }
    {
        let month = self.get(prefix.month());
        let day = self.get(prefix.day());
        match Date::parse_three_fields(alloc, year, month, day) {
            Ok(date) => Ok(PermissiveType::Typed(date)),
            Err(e) => Err(RetrievalError::from(e)),
        }
    }

    // Returns the date with this prefix.
    fn date_with_prefix(
        &self,
        alloc: Global,
        prefix: Prefix,
    ) -> Result<PermissiveType<Date>, RetrievalError>
        ensures { GetsDate ⟦<PermissiveType<Date> as Type>⟧ (date_prefix prefix) self.now result }
    {
        if self.get(prefix.date()).is_some() {
            return self.get_as(alloc, prefix.date());
        }
        match self.get(prefix.year()) {
            Some(year) => self.three_parts(alloc, prefix, year),
            None => Err(RetrievalError::Missing(Text::from_str(alloc, "year")?)),
        }
    }

    // Sets the date with this prefix.
    fn set_date_with_prefix(
        &mut self,
        prefix: Prefix,
        value: &PermissiveType<Date>,
    ) -> Result<(), AllocError>
        ensures { SetsDate ⟦<PermissiveType<Date> as Type>⟧
            (⟦<PermissiveType<Date> as Type>⟧.meaning value.now) (date_prefix prefix)
            self.old self.new result }
    {
        self.set_as(prefix.date(), value)?;
        let _year = self.remove(prefix.year());
        let _month = self.remove(prefix.month());
        let _day = self.remove(prefix.day());
        Ok(())
    }

    /// Returns the date of publication: the field `date`, or else the date in `year`, `month` and `day`. If the field `date`
    /// can't be parsed, its chunks are returned. If the three fields can't be parsed, the error is a `TypeError`. If `date`
    /// and `year` are missing, the error is `Missing` with the name `year`. Any result may be out of memory instead.
    pub fn date(&self, alloc: Global) -> Result<PermissiveType<Date>, RetrievalError>
        ensures { GetsDate ⟦<PermissiveType<Date> as Type>⟧ (codes "") self.now result }
    {
        self.date_with_prefix(alloc, Prefix::Plain)
    }

    /// Sets the field `date`, and removes `year`, `month` and `day`. If memory runs out, the entry stays unchanged.
    pub fn set_date(&mut self, value: &PermissiveType<Date>) -> Result<(), AllocError>
        ensures { SetsDate ⟦<PermissiveType<Date> as Type>⟧
            (⟦<PermissiveType<Date> as Type>⟧.meaning value.now) (codes "")
            self.old self.new result }
    {
        self.set_date_with_prefix(Prefix::Plain, value)
    }

    /// Returns the date of the conference: the field `eventdate`, or else the date in `eventyear`, `eventmonth` and
    /// `eventday`. If the field `eventdate` can't be parsed, its chunks are returned. If the three fields can't be parsed,
    /// the error is a `TypeError`. If `eventdate` and `eventyear` are missing, the error is `Missing` with the name `year`.
    /// Any result may be out of memory instead.
    pub fn event_date(&self, alloc: Global) -> Result<PermissiveType<Date>, RetrievalError>
        ensures { GetsDate ⟦<PermissiveType<Date> as Type>⟧ (codes "event") self.now result }
    {
        self.date_with_prefix(alloc, Prefix::Event)
    }

    /// Sets the field `eventdate`, and removes `eventyear`, `eventmonth` and `eventday`. If memory runs out, the entry stays
    /// unchanged.
    pub fn set_event_date(&mut self, value: &PermissiveType<Date>) -> Result<(), AllocError>
        ensures { SetsDate ⟦<PermissiveType<Date> as Type>⟧
            (⟦<PermissiveType<Date> as Type>⟧.meaning value.now) (codes "event")
            self.old self.new result }
    {
        self.set_date_with_prefix(Prefix::Event, value)
    }

    /// Returns the date of the original: the field `origdate`, or else the date in `origyear`, `origmonth` and `origday`. If
    /// the field `origdate` can't be parsed, its chunks are returned. If the three fields can't be parsed, the error is a
    /// `TypeError`. If `origdate` and `origyear` are missing, the error is `Missing` with the name `year`. Any result may be
    /// out of memory instead.
    pub fn orig_date(&self, alloc: Global) -> Result<PermissiveType<Date>, RetrievalError>
        ensures { GetsDate ⟦<PermissiveType<Date> as Type>⟧ (codes "orig") self.now result }
    {
        self.date_with_prefix(alloc, Prefix::Orig)
    }

    /// Sets the field `origdate`, and removes `origyear`, `origmonth` and `origday`. If memory runs out, the entry stays
    /// unchanged.
    pub fn set_orig_date(&mut self, value: &PermissiveType<Date>) -> Result<(), AllocError>
        ensures { SetsDate ⟦<PermissiveType<Date> as Type>⟧
            (⟦<PermissiveType<Date> as Type>⟧.meaning value.now) (codes "orig")
            self.old self.new result }
    {
        self.set_date_with_prefix(Prefix::Orig, value)
    }

    /// Returns the date when the address was visited: the field `urldate`, or else the date in `urlyear`, `urlmonth` and
    /// `urlday`. If the field `urldate` can't be parsed, its chunks are returned. If the three fields can't be parsed, the
    /// error is a `TypeError`. If `urldate` and `urlyear` are missing, the error is `Missing` with the name `year`. Any result
    /// may be out of memory instead.
    pub fn url_date(&self, alloc: Global) -> Result<PermissiveType<Date>, RetrievalError>
        ensures { GetsDate ⟦<PermissiveType<Date> as Type>⟧ (codes "url") self.now result }
    {
        self.date_with_prefix(alloc, Prefix::Url)
    }

    /// Sets the field `urldate`, and removes `urlyear`, `urlmonth` and `urlday`. If memory runs out, the entry stays
    /// unchanged.
    pub fn set_url_date(&mut self, value: &PermissiveType<Date>) -> Result<(), AllocError>
        ensures { SetsDate ⟦<PermissiveType<Date> as Type>⟧
            (⟦<PermissiveType<Date> as Type>⟧.meaning value.now) (codes "url")
            self.old self.new result }
    {
        self.set_date_with_prefix(Prefix::Url, value)
    }
}
