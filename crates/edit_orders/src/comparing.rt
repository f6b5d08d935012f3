//! Compares the sort values of two entries.

ghost use Rattle.std.specs.Prelude.{◌≡◌, drop};
ghost use Rattle.std.specs.Cmp.Lexicographic.{slice_cmp};
ghost use Rattle.std.specs.Ordering.{nat_cmp};
ghost use Rattle.edit_orders.specs.Values as spec;

use crate::order::{Direction, SortBy};
use crate::values::SortValue;
use bib_text::text::Text;
use std::cmp::Ordering;

// Compares two lists of texts: the first text in which they differ decides, by its bytes. A list that is the start of another is
// less.
fn texts_compared(first: &[Text], second: &[Text]) -> Ordering
    ensures { result ≡ slice_cmp (slice_cmp nat_cmp) first.now second.now }
{
    first.cmp(second)
}

// Compares two sort values: numbers by size, and texts by their bytes. A number is less than texts.
fn compared(first: &SortValue, second: &SortValue) -> Ordering
    ensures { result ≡ spec.value_cmp first.now second.now }
{
    match (first, second) {
        (SortValue::Number(n), SortValue::Number(m)) => n.cmp(m),
        (SortValue::Number(_), SortValue::Texts(_)) => Ordering::Less,
        (SortValue::Texts(_), SortValue::Number(_)) => Ordering::Greater,
        (SortValue::Texts(ts), SortValue::Texts(us)) => texts_compared(
            ts.as_slice(),
            us.as_slice(),
        ),
    }
}

// Compares two sort values in a direction.
fn directed(direction: Direction, first: &SortValue, second: &SortValue) -> Ordering
    ensures { result ≡ spec.directed_cmp direction first.now second.now }
{
    match direction {
        Direction::Ascending => compared(first, second),
        Direction::Descending => compared(second, first),
    }
}

// Compares two sort values in a direction, and a missing one as the last in both directions.
fn missing_last(
    direction: Direction,
    first: &Option<SortValue>,
    second: &Option<SortValue>,
) -> Ordering
    ensures { result ≡ spec.last_cmp direction first.now second.now }
{
    match (first, second) {
        (Some(first), Some(second)) => directed(direction, first, second),
        (Some(_), None) => Ordering::Less,
        (None, Some(_)) => Ordering::Greater,
        (None, None) => Ordering::Equal,
    }
}

// Compares the sort values at an index. After the end of a list, its value is missing.
fn compared_at(
    direction: Direction,
    index: usize,
    first: &[Option<SortValue>],
    second: &[Option<SortValue>],
) -> Ordering
    ensures { result ≡ spec.last_cmp direction (spec.head_value (drop index first.now)) (spec.head_value (drop index second.now)) }
{
    match (first.get(index), second.get(index)) {
        (Some(first), Some(second)) => missing_last(direction, first, second),
        (Some(first), None) => missing_last(direction, first, &None),
        (None, Some(second)) => missing_last(direction, &None, second),
        (None, None) => Ordering::Equal,
    }
}

// Compares the sort values of two entries: the first property by which they differ decides.
pub(crate) fn entries_compared(
    order: &[SortBy],
    first: &[Option<SortValue>],
    second: &[Option<SortValue>],
) -> Ordering
    ensures { result ≡ spec.values_cmp order.now first.now second.now }
{
    'order: for (index, by) in order.iter().enumerate() {
        let found = compared_at(by.direction, index, first, second);
        if found.is_ne() {
            return found;
        }
    }
    Ordering::Equal
}
