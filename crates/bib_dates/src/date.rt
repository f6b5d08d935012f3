//! Dates, times, and their orders.

ghost use Rattle.std.specs.Prelude.{◌≡◌, Some, None, pos, neg_ℤ, ◌≤ℤ◌};
ghost use Rattle.std.specs.Ordering.{partial_ordering_then};
ghost use Rattle.bib_dates.specs.Orders.{is_clock, clock, same_offset, offset_seconds, hours_ahead, shift, utc_seconds, part_cmp, number_cmp, time_cmp, datetime_cmp};
ghost use Rattle.bib_dates.specs.declared.date.TimeOffset.TheVariants.{Offset};
ghost use Rattle.bib_dates.specs.OrderLaws.{same_offset_laws, same_offset_partial, time_laws, datetime_laws};

use std::cmp::Ordering;

/// A date or a range of dates, and whether it is uncertain or approximate, in the extended format of ISO 8601-2
/// (BibLaTeX manual, 2.3.8).
#[derive(Debug, Clone, Copy, PartialEq, Eq)]
pub struct Date {
    /// The date or the range.
    pub value: DateValue,
    /// Whether the date is uncertain (mark `?`, or `%` for both).
    pub uncertain: bool,
    /// Whether the date is approximate (mark `~`, or `%` for both).
    pub approximate: bool,
}

/// A date or a range of dates.
#[derive(Debug, Clone, Copy, PartialEq, Eq)]
pub enum DateValue {
    /// One date.
    At(Datetime),
    /// From this date on.
    After(Datetime),
    /// Up to this date.
    Before(Datetime),
    /// From one date to the other.
    Between(Datetime, Datetime),
}

/// A year with an optional month, day and time. Months and days count from 0.
#[derive(Debug, Clone, Copy, PartialEq, Eq)]
pub struct Datetime {
    /// The year; the one before year 1 is 0.
    pub year: i32,
    /// The month, from 0.
    pub month: Option<u8>,
    /// The day, from 0.
    pub day: Option<u8>,
    /// The time of day.
    pub time: Option<Time>,
}

/// A time of day.
#[derive(Debug, Clone, Copy, PartialEq, Eq)]
pub struct Time {
    /// 0 to 23.
    pub hour: u8,
    /// 0 to 59.
    pub minute: u8,
    /// 0 to 59.
    pub second: u8,
    /// The offset from UTC, if it is known.
    pub offset: Option<TimeOffset>,
}

/// An offset from UTC.
#[derive(Debug, Clone, Copy)]
pub enum TimeOffset {
    /// UTC.
    Utc,
    /// Ahead of UTC or behind it.
    Offset {
        /// Whether it is ahead of UTC.
        positive: bool,
        /// Hours.
        hours: u8,
        /// Minutes.
        minutes: u8,
    },
}

impl PartialEq for TimeOffset {
    ghost eq = { same_offset };

    ghost laws = { same_offset_partial };

    fn eq(&self, other: &TimeOffset) -> bool {
        match (*self, *other) {
            (TimeOffset::Utc, TimeOffset::Utc) => true,
            (
                TimeOffset::Offset {
                    positive,
                    hours,
                    minutes,
                },
                TimeOffset::Offset {
                    positive: other_positive,
                    hours: other_hours,
                    minutes: other_minutes,
                },
            ) => positive == other_positive && hours == other_hours && minutes == other_minutes,
            _ => false,
        }
    }
}

impl Eq for TimeOffset {
    ghost laws = { same_offset_laws };
}

impl TimeOffset {
    /// Returns the offset of `hours` and `minutes`: ahead of UTC if `positive`, otherwise behind UTC.
    pub fn offset(positive: bool, hours: u8, minutes: u8) -> TimeOffset
        ensures { result ≡ Offset positive hours minutes }
    {
        Self::Offset {
            positive,
            hours,
            minutes,
        }
    }

    /// Returns the offset of `hour` hours ahead of UTC. A negative `hour` is behind UTC.
    pub fn offset_hour(hour: i32) -> TimeOffset
        requires low { neg_ℤ (pos 255) ≤ℤ hour }
        requires high { hour ≤ℤ pos 255 }
        ensures { result ≡ hours_ahead hour }
    {
        TimeOffset::Offset {
            positive: hour >= 0,
            hours: hour.unsigned_abs() as u8,
            minutes: 0,
        }
    }

    // Returns the seconds ahead of UTC.
    fn seconds(&self) -> isize
        ensures { result ≡ offset_seconds self.now }
    {
        match *self {
            TimeOffset::Utc => 0,
            TimeOffset::Offset {
                positive,
                hours,
                minutes,
            } => {
                let seconds = 3600 * hours as isize + 60 * minutes as isize;
                if positive { seconds } else { 0 - seconds }
            }
        }
    }
}

// Returns the seconds of an offset, or 0 if there is none.
fn shift_of(offset: Option<TimeOffset>) -> isize
    ensures value { result ≡ shift offset }
    ensures low { neg_ℤ (pos 1000000) ≤ℤ result }
    ensures high { result ≤ℤ pos 1000000 }
{
    let Some(offset) = offset else {
        return 0;
    };
    offset.seconds()
}

// Returns whether a day has such a time.
fn is_clock(hour: u8, minute: u8, second: u8) -> bool
    ensures { result ≡ is_clock hour minute second }
{
    hour <= 23 && minute <= 59 && second <= 59
}

impl Time {
    /// Returns the time without an offset, or `None` if `hour` is above 23, or `minute` or `second` above 59.
    pub fn from_hms(hour: u8, minute: u8, second: u8) -> Option<Time>
        ensures { result ≡ clock hour minute second None }
    {
        if !is_clock(hour, minute, second) {
            return None;
        }
        Some(Time {
            hour,
            minute,
            second,
            offset: None,
        })
    }

    /// Returns the time with an offset, or `None` if `hour` is above 23, or `minute` or `second` above 59.
    pub fn from_hms_offset(hour: u8, minute: u8, second: u8, offset: TimeOffset) -> Option<Time>
        ensures { result ≡ clock hour minute second (Some offset) }
    {
        if !is_clock(hour, minute, second) {
            return None;
        }
        Some(Time {
            hour,
            minute,
            second,
            offset: Some(offset),
        })
    }

    /// Returns the seconds since midnight minus the offset, if there is one.
    pub fn to_utc_seconds(&self) -> isize
        ensures { result ≡ utc_seconds self.now }
    {
        let seconds = 3600 * self.hour as isize + 60 * self.minute as isize + self.second as isize;
        seconds - shift_of(self.offset)
    }
}

impl PartialOrd for Time {
    ghost partial_cmp = { time_cmp };

    ghost laws = { time_laws };

    fn partial_cmp(&self, other: &Time) -> Option<Ordering> {
        if self.offset.is_some() != other.offset.is_some() {
            return None;
        }
        let (ours, theirs) = (self.to_utc_seconds(), other.to_utc_seconds());
        if ours < theirs {
            return Some(Ordering::Less);
        }
        if theirs < ours {
            return Some(Ordering::Greater);
        }
        if *self == *other {
            Some(Ordering::Equal)
        } else {
            None
        }
    }
}

// Returns the first order, or the next one if the first is `Equal`.
fn then(first: Option<Ordering>, next: Option<Ordering>) -> Option<Ordering>
    ensures { result ≡ partial_ordering_then first next }
{
    match first {
        Some(Ordering::Equal) => next,
        decided => decided,
    }
}

// Compares two months or days. Returns `None` if only one side has it.
fn number_part(ours: Option<u8>, theirs: Option<u8>) -> Option<Ordering>
    ensures { result ≡ part_cmp number_cmp ours theirs }
{
    match (ours, theirs) {
        (None, None) => Some(Ordering::Equal),
        (Some(a), Some(b)) => Some(a.cmp(&b)),
        _ => None,
    }
}

// Compares two times. Returns `None` if only one side has one, or if the times aren't comparable.
fn time_part(ours: Option<Time>, theirs: Option<Time>) -> Option<Ordering>
    ensures { result ≡ part_cmp time_cmp ours theirs }
{
    match (ours, theirs) {
        (None, None) => Some(Ordering::Equal),
        (Some(a), Some(b)) => a.partial_cmp(&b),
        _ => None,
    }
}

impl PartialOrd for Datetime {
    ghost partial_cmp = { datetime_cmp };

    ghost laws = { datetime_laws };

    fn partial_cmp(&self, other: &Datetime) -> Option<Ordering> {
        let days = then(
            number_part(self.day, other.day),
            time_part(self.time, other.time),
        );
        let months = then(number_part(self.month, other.month), days);
        then(Some(self.year.cmp(&other.year)), months)
    }
}
