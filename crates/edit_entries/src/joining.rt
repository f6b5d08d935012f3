//! Joins the texts of two documents, and checks whether their entries share a name.

ghost use Rattle.std.specs.Prelude.{◌≡◌, ◌||◌, ◌++◌, ℕ, List, IfOk, MatchBool, OnOk, map};
ghost use Rattle.std.specs.BTreeSet.{contains_text};
ghost use Rattle.std.specs.List.{list_any};
ghost use Rattle.std.specs.String.{string_bytes};
ghost use Rattle.bib_syntax.specs.Views.{entry_reading_of};
ghost use Rattle.edit_entries.specs.LineEnds.{line_end_of};
ghost use Rattle.edit_entries.specs.NameSets.{AreNamesOf, NoneSharesName, holds_name};
ghost use Rattle.edit_entries.specs.NewNames.{has_word};

use crate::line_ends::line_end;
use bib_queries::names::entry_names;
use bib_syntax::raw::RawEntry;
use bib_text::spanned::Spanned;
use std::alloc::{AllocError, Global};
use std::collections::BTreeSet;

// Inserts names into a set, in ASCII lowercase.
pub(crate) fn insert_names(
    alloc: Global,
    set: &mut BTreeSet<String>,
    names: &[&str],
) -> Result<(), AllocError>
    ensures { OnOk result ((name : List ℕ) → holds_name (contains_text set.new) name ≡
        (has_word (map (λ n. n.now) names.now) name || holds_name (contains_text set.old) name)) }
{
    'names: for name in names {
        set.insert(name.to_ascii_lowercase(alloc)?)?;
    }
    Ok(())
}

// Returns whether a set contains one of these names, in ASCII lowercase.
fn has_one(alloc: Global, set: &BTreeSet<String>, names: &[&str]) -> Result<bool, AllocError>
    ensures { IfOk result (λ has. has ≡ list_any (holds_name (contains_text set.now)) (map (λ n. n.now) names.now)) }
{
    'names: for name in names {
        let name = name.to_ascii_lowercase(alloc)?;
        if set.contains(name.as_str()) {
            return Ok(true);
        }
    }
    Ok(false)
}

// Returns the set of the names of entries, in ASCII lowercase.
fn name_set(
    alloc: Global,
    entries: &[Spanned<RawEntry<'_>>],
) -> Result<BTreeSet<String>, AllocError>
    ensures { IfOk result (λ set. AreNamesOf (map entry_reading_of entries.now) (contains_text set)) }
{
    let mut set = BTreeSet::new(alloc);
    'entries: for entry in entries {
        let names = entry_names(alloc, entry)?;
        insert_names(alloc, &mut set, &names)?;
    }
    Ok(set)
}

// Returns whether one of `others` has a name, in any ASCII case, of one of `entries` or of an earlier one of `others`.
pub(crate) fn shares_name(
    alloc: Global,
    entries: &[Spanned<RawEntry<'_>>],
    others: &[Spanned<RawEntry<'_>>],
) -> Result<bool, AllocError>
    ensures { IfOk result (λ shares. MatchBool shares
        (NoneSharesName (map entry_reading_of entries.now) (map entry_reading_of others.now) → ⊥)
        (NoneSharesName (map entry_reading_of entries.now) (map entry_reading_of others.now))) }
{
    let mut set = name_set(alloc, entries)?;
    'others: for entry in others {
        let names = entry_names(alloc, entry)?;
        if has_one(alloc, &set, &names)? {
            return Ok(true);
        }
        insert_names(alloc, &mut set, &names)?;
    }
    Ok(false)
}

// Returns a text, its line end and another text.
pub(crate) fn joined(alloc: Global, first: &str, second: &str) -> Result<String, AllocError>
    ensures { IfOk result (λ text. string_bytes text ≡ first.now ++ (line_end_of first.now ++ second.now)) }
{
    let mut text = String::new(alloc);
    text.push_str(first)?;
    text.push_str(line_end(first))?;
    text.push_str(second)?;
    Ok(text)
}
