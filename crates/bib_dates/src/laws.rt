//! Laws of dates and times. The functions have empty bodies: each clause is a theorem about the definitions that it
//! names.

ghost use Rattle.std.specs.Prelude.{◌≡◌, ◌↔◌, ◌≢◌, ◌⊎◌, ◌<ℤ◌, ℕ, List, Option, Some, None, is_some};
ghost use Rattle.std.specs.declared.cmp.Ordering.TheVariants.{Less, Equal};
ghost use Rattle.bib_tables.specs.declared.type_error.TypeErrorKind.{TypeErrorKind as AKind};
ghost use Rattle.bib_dates.specs.Readings.{Reading, IsDateKind, IsUnreadKind, MayRefuse};
ghost use Rattle.bib_dates.specs.Readings.Reading.{says, error, unread};
ghost use Rattle.bib_dates.specs.Dates.{date_of};
ghost use Rattle.bib_dates.specs.ThreeFields.{three_fields_of};
ghost use Rattle.bib_dates.specs.Written.{date_text};
ghost use Rattle.bib_dates.specs.Rewritten.{rewritten_date};
ghost use Rattle.bib_dates.specs.Kept.{IsKeptDate};
ghost use Rattle.bib_dates.specs.Orders.{utc_seconds, time_cmp, datetime_cmp};
ghost use Rattle.bib_dates.specs.declared.date.Date.{Date as ADate};
ghost use Rattle.bib_dates.specs.declared.date.Datetime.{Datetime as ADatetime};
ghost use Rattle.bib_dates.specs.declared.date.Time.{Time as ATime};

/// States that each kept date parses from its text, and that rewriting this text leaves it unchanged. A date is kept if
/// it has no time, its years are from -9999 to 9999, its months and days exist, and no day lacks a month.
pub fn dates_survive()
    ensures read { (d : ADate) → IsKeptDate d → date_of (date_text d) ≡ says d }
    ensures written { (d : ADate) → IsKeptDate d → rewritten_date (date_text d) ≡ Some (date_text d) }
{}

/// States which kinds of errors dates have. Each error except out of memory has one of the kinds of `IsDateKind`. If the
/// definitions specify the kind of an error, it has this kind, otherwise one of the four of `IsUnreadKind`. Each specified
/// kind is one of `IsDateKind`, too.
pub fn dates_have_few_kinds()
    ensures error { (reading : Reading ADate) (kind : AKind) → MayRefuse reading kind → IsDateKind kind }
    ensures promised { (reading : Reading ADate) (kind : AKind) → MayRefuse reading kind →
        (reading ≡ error kind) ⊎ ((reading ≡ unread) × IsUnreadKind kind) }
    ensures date { (text : List ℕ) (kind : AKind) → date_of text ≡ error kind → IsDateKind kind }
    ensures three_fields { (year : List ℕ) (month day : Option (List ℕ)) (kind : AKind) →
        three_fields_of year month day ≡ error kind → IsDateKind kind }
{}

/// States how times are ordered. If both have an offset or both have none, the one with fewer seconds is earlier. If
/// only one has an offset, they are not comparable.
pub fn times_go_by_their_seconds()
    ensures less { (a b : ATime) → is_some a.offset ≡ is_some b.offset →
        (time_cmp a b ≡ Some Less) ↔ (utc_seconds a <ℤ utc_seconds b) }
    ensures alone { (a b : ATime) → is_some a.offset ≢ is_some b.offset → time_cmp a b ≡ None }
{}

/// States that the order of times is a strict partial order. No time is earlier than itself. If `a` is earlier than `b`
/// and `b` is earlier than `c`, then `a` is earlier than `c`. Times compare as `Equal` exactly if they are equal.
pub fn times_are_ordered()
    ensures itself { (a : ATime) → time_cmp a a ≢ Some Less }
    ensures through { (a b c : ATime) → time_cmp a b ≡ Some Less → time_cmp b c ≡ Some Less →
        time_cmp a c ≡ Some Less }
    ensures equal { (a b : ATime) → (time_cmp a b ≡ Some Equal) ↔ (a ≡ b) }
{}

/// States for dates the same as `times_are_ordered` for times.
pub fn dates_are_ordered()
    ensures itself { (a : ADatetime) → datetime_cmp a a ≢ Some Less }
    ensures through { (a b c : ADatetime) → datetime_cmp a b ≡ Some Less →
        datetime_cmp b c ≡ Some Less → datetime_cmp a c ≡ Some Less }
    ensures equal { (a b : ADatetime) → (datetime_cmp a b ≡ Some Equal) ↔ (a ≡ b) }
{}
