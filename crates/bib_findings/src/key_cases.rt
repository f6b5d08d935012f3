//! Findings of keys that equal an earlier key except for ASCII case.

ghost use Rattle.std.specs.Prelude.{◌≡◌, ◌<◌, ◌++◌, ◌∷◌, [], List, All, length, map, IfOk, OnOk};
ghost use Rattle.std.specs.BTreeMap.{get_by_text};
ghost use Rattle.bib_syntax.specs.Reading.{EntryReading};
ghost use Rattle.bib_syntax.specs.Views.{entry_reading_of};
ghost use Rattle.bib_findings.specs.Duplicates.{entries_at};
ghost use Rattle.bib_findings.specs.FirstKeys.{AreFirstKeys};
ghost use Rattle.bib_findings.specs.KeyCases.{case_after, case_finding, case_findings};

use crate::codes::Code;
use crate::fields::named_message;
use crate::finding::Finding;
use bib_syntax::raw::RawEntry;
use bib_text::spanned::Spanned;
use bib_text::text::Text;
use std::alloc::{AllocError, Global};
use std::collections::BTreeMap;

// Returns the finding of an entry whose key differs from `first` only in ASCII case.
fn case_finding(
    alloc: Global,
    said: &Spanned<RawEntry<'_>>,
    first: &str,
) -> Result<Finding, AllocError>
    ensures { IfOk result (λ finding. finding ≡ case_finding (entry_reading_of said.now) first.now) }
{
    let key = &said.v.key;
    let message = named_message(alloc, key.v, "key differs from ", first, " only in case")?;
    Ok(Finding {
        code: Code::KeyCase,
        span: key.span.start..key.span.end,
        message: Text::from_string(message),
    })
}

// Appends a finding if the key of an entry equals an earlier one except for ASCII case, and otherwise stores the key. `firsts` has the
// first key for each key in ASCII lowercase.
fn add_case<'s>(
    alloc: Global,
    found: &mut Vec<Finding>,
    firsts: &mut BTreeMap<String, &'s str>,
    said: &Spanned<RawEntry<'s>>,
) -> Result<(), AllocError>
    ensures firsts { OnOk result ((earlier : List EntryReading) → AreFirstKeys (get_by_text firsts.old) earlier
        → AreFirstKeys (get_by_text firsts.new) (earlier ++ entry_reading_of said.now ∷ [])) }
    ensures added { OnOk result ((earlier : List EntryReading) → AreFirstKeys (get_by_text firsts.old) earlier
        → found.new.items ≡ found.old.items ++ case_after earlier (entry_reading_of said.now)) }
{
    let lowercase = said.v.key.v.to_ascii_lowercase(alloc)?;
    if let Some(first) = firsts.get(lowercase.as_str()).copied() {
        found.push(case_finding(alloc, said, first)?)?;
        return Ok(());
    }
    firsts.insert(lowercase, said.v.key.v)?;
    Ok(())
}

/// Appends a finding for each of these entries whose key equals that of an earlier one except for ASCII case. `origins` contains the
/// index of each in `said`.
pub(crate) fn add_cases(
    alloc: Global,
    found: &mut Vec<Finding>,
    said: &[Spanned<RawEntry<'_>>],
    origins: &[usize],
) -> Result<(), AllocError>
    requires { All (λ index. index < length said.now) origins.now }
    ensures { OnOk result (found.new.items ≡ found.old.items ++
        case_findings (entries_at (map entry_reading_of said.now) origins.now)) }
{
    let mut firsts = BTreeMap::new(alloc);
    'origins: for index in origins {
        add_case(alloc, found, &mut firsts, &said[*index])?;
    }
    Ok(())
}
