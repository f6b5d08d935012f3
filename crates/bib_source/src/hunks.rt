//! Hunks: changed lines with the lines around them.

ghost use Rattle.std.specs.Prelude.{◌≡◌, ℕ, ◌≤◌, ◌<◌, ◌-◌, ◌∷◌, [], false, IfOk, drop, length, map, take};
ghost use Rattle.std.specs.List.{AllByRecursion};
ghost use Rattle.bib_source.specs.Comparison as comparison;
ghost use Rattle.bib_source.specs.Comparison.{new_side, old_side};
ghost use Rattle.bib_source.specs.Visible.{AreContext, IsCutOut, hunk_of};
ghost use Rattle.bib_source.specs.Visible as visible;
ghost use Rattle.bib_source.specs.Hunks.{IsNarrow, Make};

use crate::comparison::Line;
use std::alloc::{AllocError, Global};

// Lines, and the line numbers at which they begin in the old and in the new text.
#[derive(Clone, Copy)]
pub(crate) struct Hunk<'c, 't> {
    pub(crate) old: usize,
    pub(crate) new: usize,
    pub(crate) lines: &'c [Line<'t>],
}

// Returns whether a line is removed or added.
fn is_changed(line: &Line<'_>) -> bool
    ensures { result ≡ comparison.is_changed line.now }
{
    match line {
        Line::Context(_) => false,
        _ => true,
    }
}

// Returns whether the line at `index` is shown: whether a line at most three lines from it has changed.
fn is_visible(lines: &[Line<'_>], index: usize) -> bool
    requires { index < length lines.now }
    ensures { result ≡ visible.is_visible lines.now index }
{
    let start = index.saturating_sub(3);
    let end = lines.len().min(index + 4);
    'lines: for line in &lines[start..end] {
        if is_changed(line) {
            return true;
        }
    }
    false
}

// Returns the end of the run of lines from `start` that are all shown (all hidden if `are_visible` is false).
fn run_end(lines: &[Line<'_>], start: usize, are_visible: bool) -> usize
    requires { start ≤ length lines.now }
    ensures after { start ≤ result }
    ensures within { result ≤ length lines.now }
    ensures same { (index : ℕ) → start ≤ index → index < result → visible.is_visible lines.now index ≡ are_visible }
    ensures hidden { are_visible ≡ false → AreContext (take (result - start) (drop start lines.now)) }
    ensures moved { start < length lines.now → visible.is_visible lines.now start ≡ are_visible → start < result }
    ensures ended { result < length lines.now → visible.is_visible lines.now result ≡ are_visible → ⊥ }
{
    'lines: for index in start..lines.len() {
        if is_visible(lines, index) != are_visible {
            return index;
        }
    }
    lines.len()
}

// Returns 1 if the old text has the line, and 0 otherwise.
fn in_old(line: &Line<'_>) -> usize
    ensures is { result ≡ length (old_side (line.now ∷ [])) }
    ensures within { result ≤ 1 }
{
    match line {
        Line::Added(_) => 0,
        _ => 1,
    }
}

// Returns 1 if the new text has the line, and 0 otherwise.
fn in_new(line: &Line<'_>) -> usize
    ensures is { result ≡ length (new_side (line.now ∷ [])) }
    ensures within { result ≤ 1 }
{
    match line {
        Line::Removed(_) => 0,
        _ => 1,
    }
}

// Returns how many of `lines` are in the old text.
#[tactic(auto, using(crate::proofs::ComparisonFacts::old_append))]
pub(crate) fn old_count(lines: &[Line<'_>]) -> usize
    ensures is { result ≡ length (old_side lines.now) }
    ensures within { result ≤ length lines.now }
{
    let mut count = 0usize;
    'lines: for line in lines {
        count += in_old(line);
    }
    count
}

// Returns how many of `lines` are in the new text.
#[tactic(auto, using(crate::proofs::ComparisonFacts::new_append))]
pub(crate) fn new_count(lines: &[Line<'_>]) -> usize
    ensures is { result ≡ length (new_side lines.now) }
    ensures within { result ≤ length lines.now }
{
    let mut count = 0usize;
    'lines: for line in lines {
        count += in_new(line);
    }
    count
}

// Returns the hunks of two compared texts.
pub(crate) fn hunks<'c, 't>(
    alloc: Global,
    lines: &'c [Line<'t>],
) -> Result<Vec<Hunk<'c, 't>>, AllocError>
    ensures make { IfOk result (λ hunks. Make 1 1 (map hunk_of hunks.items) (old_side lines.now) (new_side lines.now)) }
    ensures narrow { IfOk result (λ hunks. AllByRecursion IsNarrow (map hunk_of hunks.items)) }
    ensures cut { IfOk result (λ hunks. AllByRecursion (IsCutOut lines.now) (map hunk_of hunks.items)) }
{
    let mut hunks = Vec::new(alloc);
    let mut at = 0usize;
    let mut old = 1usize;
    let mut new = 1usize;
    'hunks: while at < lines.len() {
        let start = run_end(lines, at, false);
        let end = run_end(lines, start, true);
        let hunk = Hunk {
            old: old + (start - at),
            new: new + (start - at),
            lines: &lines[start..end],
        };
        old = hunk.old + old_count(hunk.lines);
        new = hunk.new + new_count(hunk.lines);
        at = end;
        if start < end {
            hunks.push(hunk)?;
        }
    }
    Ok(hunks)
}
