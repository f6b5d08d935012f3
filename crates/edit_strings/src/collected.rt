//! Selection of the texts to collect.

ghost use Rattle.std.specs.Prelude.{◌≡◌, ◌||◌, ℕ, List, IfOk, MatchBool, is_some};
ghost use Rattle.edit_strings.specs.Collected as spec;
ghost use Rattle.edit_strings.specs.Collected.{AreThoseThat, CanBeCollected, distinct, times_of};
ghost use Rattle.edit_strings.specs.Collecting.{count_in, known_in};
ghost use Rattle.edit_strings.specs.Views.{lent_texts};

use crate::naming::is_longer_than_name;
use crate::texts::count_of;
use bib_queries::balance::is_balanced;
use bib_text::braces::has_balanced_braces;
use std::alloc::{AllocError, Global};
use std::collections::{BTreeMap, BTreeSet};

// Returns whether `text` has a name in `known` or is longer than its new name without a number.
fn is_shortened(alloc: Global, known: &BTreeMap<&str, &str>, text: &str) -> Result<bool, AllocError>
    ensures { IfOk result (λ is. is ≡ (is_some (known_in known.now text.now) || spec.is_longer_than_name text.now)) }
{
    if known.contains_key(text) {
        return Ok(true);
    }
    is_longer_than_name(alloc, text)
}

// Returns whether `text` was counted at least `least` times, and can be written between braces, also for BibTeX. It must also have a name
// in `known` or be longer than its new name without a number.
fn is_collected(
    alloc: Global,
    known: &BTreeMap<&str, &str>,
    counts: &BTreeMap<&str, usize>,
    least: usize,
    text: &str,
) -> Result<bool, AllocError>
    ensures { IfOk result (λ is. (texts : List (List ℕ)) → count_in counts.now text.now ≡ times_of text.now texts →
        MatchBool is (CanBeCollected (known_in known.now) least texts text.now)
        (CanBeCollected (known_in known.now) least texts text.now → ⊥)) }
{
    if count_of(counts, text) < least {
        return Ok(false);
    }
    if !is_shortened(alloc, known, text)? {
        return Ok(false);
    }
    if !is_balanced(text) {
        return Ok(false);
    }
    Ok(has_balanced_braces(text))
}

// Returns the texts to collect, each once, in the order of their first occurrence.
pub(crate) fn collected_texts<'s>(
    alloc: Global,
    known: &BTreeMap<&str, &str>,
    counts: &BTreeMap<&str, usize>,
    least: usize,
    texts: &[&'s str],
) -> Result<Vec<&'s str>, AllocError>
    requires { (text : List ℕ) → count_in counts.now text ≡ times_of text (lent_texts texts.now) }
    ensures { IfOk result (λ found.
        AreThoseThat (CanBeCollected (known_in known.now) least (lent_texts texts.now)) (distinct (lent_texts texts.now))
        (lent_texts found.items)) }
{
    let mut met = BTreeSet::new(alloc);
    let mut found = Vec::new(alloc);
    'texts: for text in texts {
        if met.insert(*text)? {
            if is_collected(alloc, known, counts, least, *text)? {
                found.push(*text)?;
            }
        }
    }
    Ok(found)
}
