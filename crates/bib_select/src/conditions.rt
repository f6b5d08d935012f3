//! Parses a condition: alternatives joined by `or`, each of them terms joined by `and`.

ghost use Rattle.std.specs.Prelude.{◌≡◌, Ok, map, IfOk, IfErr};
ghost use Rattle.bib_select.specs.Conditions as conditions;
ghost use Rattle.bib_select.specs.Scanning.{IsReadError};
ghost use Rattle.bib_select.specs.Views.{terms_reading_of, segment_of};

use crate::errors::SelectionError;
use crate::segments::Segment;
use crate::terms::{RawTerm, term};
use std::alloc::Global;

// Returns the terms of an alternative.
fn terms<'s>(alloc: Global, segment: Segment<'_, 's>) -> Result<Vec<RawTerm<'s>>, SelectionError>
    ensures found { IfOk result (λ terms.
        conditions.terms_reading (segment_of segment.entry) ≡ Ok (terms_reading_of terms)) }
    ensures refused { IfErr result (IsReadError (conditions.terms_reading (segment_of segment.entry))) }
{
    let mut terms = Vec::new(alloc);
    let mut left = Some(segment);
    'segments: while let Some(here) = left {
        let (first, rest) = here.cut("and");
        terms.push(term(first)?)?;
        left = rest;
    }
    Ok(terms)
}

/// Returns the terms of each alternative of a condition.
pub(crate) fn alternatives<'s>(
    alloc: Global,
    segment: Segment<'_, 's>,
) -> Result<Vec<Vec<RawTerm<'s>>>, SelectionError>
    ensures found { IfOk result (λ alternatives.
        conditions.alternatives_reading (segment_of segment.entry) ≡ Ok (map terms_reading_of alternatives.items)) }
    ensures refused { IfErr result (IsReadError (conditions.alternatives_reading (segment_of segment.entry))) }
{
    let mut alternatives = Vec::new(alloc);
    let mut left = Some(segment);
    'segments: while let Some(here) = left {
        let (first, rest) = here.cut("or");
        alternatives.push(terms(alloc, first)?)?;
        left = rest;
    }
    Ok(alternatives)
}
