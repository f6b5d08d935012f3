//! Pairs lines of an old text with equal lines of a new text.
//!
//! The lines that occur once in each text are candidates for anchors. The anchors are a longest chain of candidates that have
//! the same order in both texts. Any other line is paired with the first equal line, if any, in a range of the new text. This
//! range begins after the last paired line. It ends before the next anchor, and has at most 64 lines.

use std::alloc::{AllocError, Global};
use std::collections::BTreeMap;

// The greatest number of lines of the new text that are searched for a line that isn't an anchor.
const NEAR: usize = 64;

// How often a line occurs in a text.
#[derive(Clone, Copy)]
enum Seen {
    // Not at all.
    Never,
    // Once, at this index.
    Once(usize),
    // More than once.
    Often,
}

impl Seen {
    // Returns the count of a line after one more occurrence of it, at `index`.
    fn again(self, index: usize) -> Self {
        match self {
            Seen::Never => Seen::Once(index),
            _ => Seen::Often,
        }
    }
}

// How often a line occurs in each text.
#[derive(Clone, Copy)]
struct InBoth {
    old: Seen,
    new: Seen,
}

// The indices of a line of the old text and of an equal line of the new text.
#[derive(Clone, Copy)]
struct Pair {
    old: usize,
    new: usize,
}

// Counts the occurrences of each line in the new text.
fn see_new<'t>(alloc: Global, new: &[&'t str]) -> Result<BTreeMap<&'t str, InBoth>, AllocError> {
    let mut seen: BTreeMap<&'t str, InBoth> = BTreeMap::new(alloc);
    'lines: for (index, line) in new.iter().enumerate() {
        let before = match seen.get(line) {
            Some(both) => both.new,
            None => Seen::Never,
        };
        seen.insert(
            *line,
            InBoth {
                old: Seen::Never,
                new: before.again(index),
            },
        )?;
    }
    Ok(seen)
}

// Counts the occurrences in the old text of each line that the new text has too.
fn see_old<'t>(seen: &mut BTreeMap<&'t str, InBoth>, old: &[&'t str]) {
    'lines: for (index, line) in old.iter().enumerate() {
        if let Some(both) = seen.get_mut(line) {
            both.old = both.old.again(index);
        }
    }
}

// Returns the lines that occur once in each text, in the order of the old text.
fn unique_pairs<'t>(
    alloc: Global,
    old: &[&'t str],
    new: &[&'t str],
) -> Result<Vec<Pair>, AllocError> {
    let mut seen = see_new(alloc, new)?;
    see_old(&mut seen, old);
    let mut pairs = Vec::new(alloc);
    'lines: for line in old {
        if let Some(
            InBoth {
                old: Seen::Once(old),
                new: Seen::Once(new),
            },
        ) = seen.get(line)
        {
            pairs.push(Pair {
                old: *old,
                new: *new,
            })?;
        }
    }
    Ok(pairs)
}

// Returns the index in the new text of the pair at `index`; 0 if there is no such pair.
fn new_index(pairs: &[Pair], index: usize) -> usize {
    match pairs.get(index) {
        Some(pair) => pair.new,
        None => 0,
    }
}

// For each pair, the pair before it in a longest chain that ends with it; and the last pair of a longest chain of all.
#[derive(Drop)]
struct Chains {
    before: Vec<Option<usize>>,
    last: Option<usize>,
}

// Returns the element before `index`, or `None` if there is none.
fn element_before(elements: &[usize], index: usize) -> Option<usize> {
    match index.checked_sub(1) {
        Some(before) => elements.get(before).copied(),
        None => None,
    }
}

// Replaces the element at `index` by `element`, or appends `element` if there is none.
fn put(elements: &mut Vec<usize>, index: usize, element: usize) -> Result<(), AllocError> {
    match elements.get_mut(index) {
        Some(place) => *place = element,
        None => elements.push(element)?,
    }
    Ok(())
}

// Finds the longest chains of pairs that have the same order in both texts.
fn chain_pairs(alloc: Global, pairs: &[Pair]) -> Result<Chains, AllocError> {
    let mut ends: Vec<usize> = Vec::new(alloc);
    let mut before = Vec::new(alloc);
    'pairs: for (index, pair) in pairs.iter().enumerate() {
        let length = ends.partition_point(|end| new_index(pairs, *end) < pair.new);
        before.push(element_before(&ends, length))?;
        put(&mut ends, length, index)?;
    }
    let last = ends.last().copied();
    Ok(Chains { before, last })
}

// Returns the pairs of a longest chain, in order.
fn longest_chain(alloc: Global, pairs: &[Pair]) -> Result<Vec<Pair>, AllocError> {
    let chains = chain_pairs(alloc, pairs)?;
    let mut chain = Vec::new(alloc);
    let mut next = chains.last;
    'pairs: for _pair in pairs {
        let Some(index) = next else {
            break;
        };
        if let Some(pair) = pairs.get(index) {
            chain.push(*pair)?;
        }
        next = match chains.before.get(index) {
            Some(before) => *before,
            None => None,
        };
    }
    chain.reverse();
    Ok(chain)
}

// Returns the first index of `line` in `new`, among at most `NEAR` lines from `start` that are before `limit`.
fn near(new: &[&str], line: &str, start: usize, limit: usize) -> Option<usize> {
    let end = start.saturating_add(NEAR).min(limit);
    'lines: for index in start..end {
        if let Some(other) = new.get(index) {
            if *other == line {
                return Some(index);
            }
        }
    }
    None
}

// Returns for each line of the old text the index of its partner. This is the one in `chain`, or else an equal line soon after
// the last partner. A line without either has `None`.
fn pair_lines(
    alloc: Global,
    old: &[&str],
    new: &[&str],
    chain: &[Pair],
) -> Result<Vec<Option<usize>>, AllocError> {
    let mut partners = Vec::new(alloc);
    let mut anchor = 0usize;
    let mut start = 0usize;
    'lines: for (index, line) in old.iter().enumerate() {
        let (partner, passed) = match chain.get(anchor) {
            Some(pair) if pair.old == index => (Some(pair.new), 1),
            Some(pair) => (near(new, line, start, pair.new), 0),
            None => (near(new, line, start, new.len()), 0),
        };
        anchor = anchor.saturating_add(passed);
        start = match partner {
            Some(partner) => partner.saturating_add(1),
            None => start,
        };
        partners.push(partner)?;
    }
    Ok(partners)
}

// Returns for each line of the old text the index of its partner in the new text, if it has one.
pub(crate) fn find_partners<'t>(
    alloc: Global,
    old: &[&'t str],
    new: &[&'t str],
) -> Result<Vec<Option<usize>>, AllocError> {
    let pairs = unique_pairs(alloc, old, new)?;
    let chain = longest_chain(alloc, &pairs)?;
    pair_lines(alloc, old, new, &chain)
}
