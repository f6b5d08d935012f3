// The fields of an entry that can't be parsed.

ghost use Rattle.std.specs.Prelude.{◌≡◌, [], ◌∷◌, IfOk, OnOk};
ghost use Rattle.std.specs.FinMap as by_name;
ghost use Rattle.bib_entry.specs.Reports.{AreMalformed, field_verdicts, date_verdicts, fields_verdict};
ghost use Rattle.bib_entry.specs.Verdicts.{AppendsErrors, AppendsError, AppendsFieldError};

use crate::entry::Entry;
use bib_dates::date::Date;
use bib_tables::type_error::TypeError;
use bib_tables::types::{Gender, Pagination};
use bib_text::text::Text;
use bib_typed::typed::Type;
use std::alloc::{AllocError, Global};
use std::ops::Range;

// Appends the error of `read`, if there is one, with the name of the field.
fn push_error<T: Drop>(
    alloc: Global,
    name: &str,
    read: Result<T, TypeError>,
    reported: &mut Vec<(Text, TypeError)>,
) -> Result<(), AllocError>
    ensures { OnOk result (AppendsError read name.now reported.old.items reported.new.items) }
{
    let Err(e) = read else {
        return Ok(());
    };
    let e = e.unless_out_of_memory()?;
    let name = Text::from_str(alloc, name)?;
    reported.push((name, e))?;
    Ok(())
}

impl Entry {
    // Appends an error if the entry has the field `name` and it can't be parsed as a `T`.
    fn check_as<T: Type + Drop>(
        &self,
        alloc: Global,
        name: &str,
        reported: &mut Vec<(Text, TypeError)>,
    ) -> Result<(), AllocError>
        ensures { OnOk result (AppendsFieldError T.Type (by_name.get self.now.fields name.now) name.now
            reported.old.items reported.new.items) }
    {
        let Some(chunks) = self.get(name) else {
            return Ok(());
        };
        push_error(alloc, name, T::from_chunks(alloc, chunks), reported)
    }

    // Appends the errors of the fields that must have a certain type.
    fn check_fields(
        &self,
        alloc: Global,
        reported: &mut Vec<(Text, TypeError)>,
    ) -> Result<(), AllocError>
        ensures { OnOk result (AppendsErrors (field_verdicts self.now) reported.old.items reported.new.items) }
    {
        self.check_as::<Pagination>(alloc, "bookpagination", reported)?;
        self.check_as::<Gender>(alloc, "gender", reported)?;
        self.check_as::<Vec<Range<u32>>>(alloc, "pages", reported)?;
        self.check_as::<Pagination>(alloc, "pagination", reported)?;
        self.check_as::<i64>(alloc, "volume", reported)?;
        self.check_as::<i64>(alloc, "volumes", reported)?;
        Ok(())
    }

    // Appends an error, with the name `name`, if the year, the month and the day in three fields can't be parsed as a date.
    // Does nothing if the entry has the field `name`, or has no year.
    fn check_date(
        &self,
        alloc: Global,
        name: &str,
        parts: (&str, &str, &str),
        reported: &mut Vec<(Text, TypeError)>,
    ) -> Result<(), AllocError>
        ensures { OnOk result (AppendsErrors ((
          name.now,
          fields_verdict (by_name.get self.now.fields name.now)
              (by_name.get self.now.fields parts.entry.0.now) (by_name.get self.now.fields parts.entry.1.now)
              (by_name.get self.now.fields parts.entry.2.now),
        ) ∷ []) reported.old.items reported.new.items) }
    {
        if self.get(name).is_some() {
            return Ok(());
        }
        let (year, month, day) = parts;
        let Some(year) = self.get(year) else {
            return Ok(());
        };
        let read = Date::parse_three_fields(alloc, year, self.get(month), self.get(day));
        push_error(alloc, name, read, reported)
    }

    // Appends the errors of the dates that are in three fields.
    fn check_dates(
        &self,
        alloc: Global,
        reported: &mut Vec<(Text, TypeError)>,
    ) -> Result<(), AllocError>
        ensures { OnOk result (AppendsErrors (date_verdicts self.now) reported.old.items reported.new.items) }
    {
        self.check_date(alloc, "date", ("year", "month", "day"), reported)?;
        self.check_date(
            alloc,
            "urldate",
            ("urlyear", "urlmonth", "urlday"),
            reported,
        )?;
        self.check_date(
            alloc,
            "origdate",
            ("origyear", "origmonth", "origday"),
            reported,
        )?;
        let event = ("eventyear", "eventmonth", "eventday");
        self.check_date(alloc, "eventdate", event, reported)?;
        Ok(())
    }

    // Returns the checked fields and dates that can't be parsed, each with its error.
    pub(crate) fn malformed_fields(
        &self,
        alloc: Global,
    ) -> Result<Vec<(Text, TypeError)>, AllocError>
        ensures { IfOk result (λ reported. AreMalformed self.now reported.items) }
    {
        let mut reported = Vec::new(alloc);
        self.check_fields(alloc, &mut reported)?;
        self.check_dates(alloc, &mut reported)?;
        Ok(reported)
    }
}
