// Parses the time after a day.

ghost use Rattle.std.specs.Prelude.{◌≡◌};
ghost use Rattle.bib_dates.specs.Code.{reading};
ghost use Rattle.bib_dates.specs.Times as Spec;

use crate::date::{Time, TimeOffset};
use crate::errors::{ReadError, SpecifiedKind, UnspecifiedKind};
use crate::parts::{after, after_byte, after_colon, small_number};

// Parses the minutes of an offset, after its hours. Returns 0 if there are none.
#[tactic(auto, unfolding(crate::specs::Times::offset_minute))]
fn offset_minute(text: &str) -> Result<u8, ReadError>
    ensures { reading result ≡ Spec.offset_minute text.now }
{
    if text.is_empty() {
        return Ok(0);
    }
    let following = after_colon(text)?;
    let (minute, _) = small_number(0, 59, SpecifiedKind::InvalidNumber, following)?;
    Ok(minute)
}

// Parses an offset after its sign.
#[tactic(auto, unfolding(crate::specs::Times::signed_offset))]
fn signed_offset(positive: bool, text: &str) -> Result<Option<TimeOffset>, ReadError>
    ensures { reading result ≡ Spec.signed_offset positive text.now }
{
    let (hours, following) = small_number(0, 23, SpecifiedKind::InvalidNumber, text)?;
    let minutes = offset_minute(following.trim_start())?;
    Ok(Some(TimeOffset::Offset {
        positive,
        hours,
        minutes,
    }))
}

// Parses the offset after a second, if there is one.
#[tactic(auto, unfolding(crate::specs::Times::offset))]
fn offset(text: &str) -> Result<Option<TimeOffset>, ReadError>
    ensures { reading result ≡ Spec.offset text.now }
{
    if text.is_empty() {
        return Ok(None);
    }
    if after(text, b'Z').is_some() {
        return Ok(Some(TimeOffset::Utc));
    }
    if let Some(following) = after(text, b'+') {
        return signed_offset(true, following);
    }
    if let Some(following) = after(text, b'-') {
        return signed_offset(false, following);
    }
    Err(ReadError::Unspecified(UnspecifiedKind::InvalidFormat))
}

// Returns the time of this hour and minute, and of the second and the offset that may come after them.
#[tactic(auto, unfolding(crate::specs::Times::after_minute))]
fn after_minute(hour: u8, minute: u8, text: &str) -> Result<Option<Time>, ReadError>
    ensures { reading result ≡ Spec.after_minute hour minute text.now }
{
    if text.is_empty() {
        return Ok(Some(Time {
            hour,
            minute,
            second: 0,
            offset: None,
        }));
    }
    let following = after_colon(text)?;
    let (second, following) = small_number(0, 59, SpecifiedKind::InvalidNumber, following)?;
    let offset = offset(following.trim_start())?;
    Ok(Some(Time {
        hour,
        minute,
        second,
        offset,
    }))
}

// Parses `text` after an hour: an optional minute, after it an optional second, and after that an optional offset.
// Never returns `Ok(None)`.
#[tactic(auto, unfolding(crate::specs::Times::after_hour))]
fn after_hour(hour: u8, text: &str) -> Result<Option<Time>, ReadError>
    ensures { reading result ≡ Spec.after_hour hour text.now }
{
    if text.is_empty() {
        return Ok(Some(Time {
            hour,
            minute: 0,
            second: 0,
            offset: None,
        }));
    }
    let following = after_colon(text)?;
    let (minute, following) = small_number(0, 59, SpecifiedKind::InvalidNumber, following)?;
    after_minute(hour, minute, following.trim_start())
}

// Parses the time after a day, if there is one.
#[tactic(auto, unfolding(crate::specs::Times::after_day))]
pub(crate) fn after_day(text: &str) -> Result<Option<Time>, ReadError>
    ensures { reading result ≡ Spec.after_day text.now }
{
    if text.is_empty() {
        return Ok(None);
    }
    let following = after_byte(text, b'T', UnspecifiedKind::InvalidFormat)?;
    let (hour, following) = small_number(0, 23, SpecifiedKind::InvalidNumber, following)?;
    after_hour(hour, following.trim_start())
}
