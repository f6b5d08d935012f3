//! Several files as one database for `convert`: their errors, and the spans of their entries in the files themselves.

use crate::readable::push_error_lines;
use bib_findings::finding::Finding;
use bib_findings::findings::findings_of;
use bib_syntax::raw::{JoinedFiles, RawRecovery};
use biblatex::{Bibliography, Chunk, Chunks, SkippedBlock, Spanned, TextMap};
use std::alloc::{AllocError, Global};
use std::collections::{BTreeMap, BTreeSet};

/// A file that was read.
#[derive(Drop)]
pub struct TextFile<'a> {
    /// The name of the file.
    pub name: &'a str,
    /// The decoded text of the file.
    pub text: String,
}

/// Returns the texts of these files in one text.
pub fn joined_texts(alloc: Global, files: &[TextFile<'_>]) -> Result<JoinedFiles, AllocError> {
    let mut texts = JoinedFiles::new(alloc);
    'files: for file in files {
        texts.push(&file.text)?;
    }
    Ok(texts)
}

// Returns the number of findings before the first one that begins after the offset `end`.
fn count_to(found: &[Finding], end: usize) -> usize {
    found.partition_point(|finding| finding.span.start <= end)
}

/// Returns the lines of the errors for which parsing these files as one bibliography fails, as `lint` prints them. `texts` has the texts of
/// the files, and `recovery` their content.
pub fn lines_of_all(
    alloc: Global,
    files: &[TextFile<'_>],
    texts: &JoinedFiles,
    recovery: &RawRecovery<'_>,
) -> Result<String, AllocError> {
    let found = findings_of(alloc, texts.text(), texts.ends(), recovery)?;
    let mut lines = String::new(alloc);
    let mut left = found.as_slice();
    let mut start = 0usize;
    'ends: for (file, end) in files.iter().zip(texts.ends()) {
        let count = count_to(left, *end);
        let of_file = left.get(..count).unwrap_or(left);
        push_error_lines(&mut lines, alloc, file.name, &file.text, start, of_file)?;
        left = left.get(count..).unwrap_or(&[]);
        start = end.saturating_add(2);
    }
    Ok(lines)
}

// The range of a file in the text of all files.
#[derive(Clone, Copy)]
struct Region {
    start: usize,
    end: usize,
}

impl Region {
    // Returns whether an offset is in the file, or at its end.
    fn has(self, offset: usize) -> bool {
        self.start <= offset && offset <= self.end
    }
}

// Returns the range of the file that contains the offset `at`. The files end at the offsets `ends`.
fn region_at(ends: &[usize], at: usize) -> Region {
    let index = ends.partition_point(|end| *end < at);
    let start = match index.checked_sub(1) {
        Some(before) => ends[before].saturating_add(2),
        None => 0,
    };
    Region {
        start,
        end: ends.get(index).copied().unwrap_or(usize::MAX),
    }
}

// Returns the starts of blocks.
fn starts_of(alloc: Global, blocks: &[SkippedBlock]) -> Result<BTreeSet<usize>, AllocError> {
    let mut starts = BTreeSet::new(alloc);
    'blocks: for block in blocks {
        starts.insert(block.span.start)?;
    }
    Ok(starts)
}

// Returns the range of the file of each entry by the key of the entry. For several entries with one key, this is the file of the first.
// The complete parts of skipped blocks are no entries.
fn regions(
    alloc: Global,
    ends: &[usize],
    recovery: &RawRecovery<'_>,
) -> Result<BTreeMap<String, Region>, AllocError> {
    let skipped = starts_of(alloc, &recovery.skipped)?;
    let mut regions = BTreeMap::new(alloc);
    'entries: for entry in &recovery.raw.entries {
        let key = entry.v.key.v;
        if !skipped.contains(&entry.span.start) && !regions.contains_key(key) {
            let region = region_at(ends, entry.span.start);
            regions.insert(String::from_str(alloc, key)?, region)?;
        }
    }
    Ok(regions)
}

// Returns a chunk with its span in a file. A chunk that isn't in the file has no span.
fn moved_chunk(region: Region, chunk: &Spanned<Chunk>) -> Result<Spanned<Chunk>, AllocError> {
    let (start, end) = (chunk.span.start, chunk.span.end);
    let value = chunk.v.clone()?;
    Ok(if region.has(start) && region.has(end) {
        Spanned::new(
            value,
            start.saturating_sub(region.start)..end.saturating_sub(region.start),
        )
    } else {
        Spanned::detached(value)
    })
}

// Returns chunks with their spans in a file.
fn moved_chunks(
    alloc: Global,
    region: Region,
    chunks: &[Spanned<Chunk>],
) -> Result<Chunks, AllocError> {
    let mut moved = Chunks::new(alloc);
    'chunks: for chunk in chunks {
        moved.push(moved_chunk(region, chunk)?)?;
    }
    Ok(moved)
}

// Returns fields with the spans of their chunks in a file.
fn moved_fields(
    alloc: Global,
    region: Region,
    fields: &TextMap<Chunks>,
) -> Result<TextMap<Chunks>, AllocError> {
    let mut moved = Vec::new(alloc);
    'fields: for (name, chunks) in fields.iter() {
        moved.push((
            name.clone()?,
            moved_chunks(alloc, region, chunks.as_slice())?,
        ))?;
    }
    TextMap::from_pairs(moved)
}

/// Changes the spans of a bibliography in the text of all files to spans in the file of each entry. A chunk from another file, for example
/// an inherited one, then has no span. The files end at the offsets `ends`, and `recovery` is their content.
pub fn move_spans(
    alloc: Global,
    ends: &[usize],
    recovery: &RawRecovery<'_>,
    bibliography: &mut Bibliography,
) -> Result<(), AllocError> {
    let regions = regions(alloc, ends, recovery)?;
    'entries: for entry in bibliography.iter_mut() {
        if let Some(region) = regions.get(entry.key.as_str()) {
            entry.fields = moved_fields(alloc, *region, &entry.fields)?;
        }
    }
    Ok(())
}
