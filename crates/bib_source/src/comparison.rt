//! Merges the lines of two texts into one list.

ghost use Rattle.std.specs.Prelude.{◌≡◌, ◌≤◌, ◌<◌, ◌+◌, ◌++◌, ◌∷◌, [], IfOk, IfSome, OnOk, length, map, take};
ghost use Rattle.bib_source.specs.Comparison.{AreRuns, new_side, old_side, line_texts};
ghost use Rattle.bib_source.specs.Hunks.{AreBetweenEnds};
ghost use Rattle.bib_source.specs.Merging.{Extends, IsOpen};
ghost use Rattle.bib_source.specs.declared.comparison.Line.TheVariants.{Context, Removed, Added};

use crate::ends::find_ends;
use crate::partners::find_partners;
use std::alloc::{AllocError, Global};

/// A line of two compared texts.
#[derive(Debug, Clone, Copy, PartialEq, Eq)]
pub enum Line<'t> {
    /// A line of the old text, and the equal line of the new text that it is paired with.
    Context(&'t str),
    /// A line of the old text that isn't paired with one of the new text.
    Removed(&'t str),
    /// A line of the new text that isn't paired with one of the old text.
    Added(&'t str),
}

// Appends `lines` as lines of both texts.
fn push_context<'t>(compared: &mut Vec<Line<'t>>, lines: &[&'t str]) -> Result<(), AllocError>
    ensures { OnOk result (compared.new.items ≡ compared.old.items ++ map Context lines.now) }
{
    'lines: for line in lines {
        compared.push(Line::Context(*line))?;
    }
    Ok(())
}

// Appends `lines` as removed lines.
fn push_removed<'t>(compared: &mut Vec<Line<'t>>, lines: &[&'t str]) -> Result<(), AllocError>
    ensures { OnOk result (compared.new.items ≡ compared.old.items ++ map Removed lines.now) }
{
    'lines: for line in lines {
        compared.push(Line::Removed(*line))?;
    }
    Ok(())
}

// Appends `lines` as added lines.
fn push_added<'t>(compared: &mut Vec<Line<'t>>, lines: &[&'t str]) -> Result<(), AllocError>
    ensures { OnOk result (compared.new.items ≡ compared.old.items ++ map Added lines.now) }
{
    'lines: for line in lines {
        compared.push(Line::Added(*line))?;
    }
    Ok(())
}

// Appends the common start of `old` and `new` as lines of both texts. Then appends the rest of `old` as removed, the rest of
// `new` as added, and their common end as lines of both texts.
fn push_run<'t>(
    compared: &mut Vec<Line<'t>>,
    old: &[&'t str],
    new: &[&'t str],
) -> Result<(), AllocError>
    ensures merged { OnOk result (Extends compared.old.items compared.new.items (line_texts old.now) (line_texts new.now)) }
    ensures runs { OnOk result (IsOpen compared.old.items → AreRuns compared.new.items) }
{
    let ends = find_ends(old, new);
    push_context(compared, ends.start)?;
    push_removed(compared, ends.removed)?;
    push_added(compared, ends.added)?;
    push_context(compared, ends.end)?;
    Ok(())
}

// Appends `old` and `new` as `push_run` does, and then `line` as a line of both texts.
fn push_run_before<'t>(
    compared: &mut Vec<Line<'t>>,
    old: &[&'t str],
    new: &[&'t str],
    line: &'t str,
) -> Result<(), AllocError>
    ensures merged { OnOk result (Extends compared.old.items compared.new.items
        (line_texts old.now ++ line.now ∷ []) (line_texts new.now ++ line.now ∷ [])) }
    ensures runs { OnOk result (IsOpen compared.old.items → IsOpen compared.new.items) }
{
    push_run(compared, old, new)?;
    compared.push(Line::Context(line))?;
    Ok(())
}

// Returns the partner of the old line at `index` if it is at least `next`, and if the new line there equals `line`.
fn partner(
    partners: &[Option<usize>],
    index: usize,
    line: &str,
    new: &[&str],
    next: usize,
) -> Option<usize>
    ensures after { IfSome result (λ partner. next ≤ partner) }
    ensures within { IfSome result (λ partner. partner < length new.now) }
    ensures same { IfSome result (λ partner. line_texts (take (partner + 1) new.now) ≡ line_texts (take partner new.now) ++ line.now ∷ []) }
{
    match partners.get(index) {
        Some(Some(partner)) if next <= *partner && *partner < new.len() && new[*partner] == line =>
            { Some(*partner) }
        _ => None,
    }
}

// Merges the lines of two texts after the lines in `compared`. `partners` has for each old line the index of an equal new line,
// if it is to be paired. The contract holds for any `partners`.
fn push_merged<'t>(
    compared: &mut Vec<Line<'t>>,
    old: &[&'t str],
    new: &[&'t str],
    partners: &[Option<usize>],
) -> Result<(), AllocError>
    ensures merged { OnOk result (Extends compared.old.items compared.new.items (line_texts old.now) (line_texts new.now)) }
    ensures runs { OnOk result (IsOpen compared.old.items → AreRuns compared.new.items) }
{
    let mut at = 0usize;
    let mut next = 0usize;
    'lines: for (index, line) in old.iter().enumerate() {
        if let Some(partner) = partner(partners, index, line, new, next) {
            push_run_before(compared, &old[at..index], &new[next..partner], line)?;
            at = index + 1;
            next = partner + 1;
        }
    }
    push_run(compared, &old[at..], &new[next..])?;
    Ok(())
}

// Merges the lines of two texts into one list.
pub(crate) fn merge_lines<'t>(
    alloc: Global,
    old: &[&'t str],
    new: &[&'t str],
) -> Result<Vec<Line<'t>>, AllocError>
    ensures old { IfOk result (λ compared. old_side compared.items ≡ line_texts old.now) }
    ensures new { IfOk result (λ compared. new_side compared.items ≡ line_texts new.now) }
    ensures between { IfOk result (λ compared. AreBetweenEnds (line_texts old.now) (line_texts new.now)
        ((record { old = 1; new = 1; lines = compared.items }) ∷ [])) }
    ensures runs { IfOk result (λ compared. AreRuns compared.items) }
{
    let ends = find_ends(old, new);
    let partners = find_partners(alloc, ends.removed, ends.added)?;
    let mut compared = Vec::new(alloc);
    push_context(&mut compared, ends.start)?;
    push_merged(&mut compared, ends.removed, ends.added, &partners)?;
    push_context(&mut compared, ends.end)?;
    Ok(compared)
}
