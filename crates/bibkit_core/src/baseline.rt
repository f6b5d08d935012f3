//! The findings of an earlier run, which are accepted.

ghost use Rattle.std.specs.Prelude.{◌≡◌, ◌||◌, List, ℕ, IfOk, OnOk};
ghost use Rattle.std.specs.BTreeSet.{contains_text};
ghost use Rattle.bib_queries.specs.Needed.{is_listed};
ghost use Rattle.bibkit_core.specs.Baselines as spec;

use crate::conditions::text_after;
use std::alloc::{AllocError, Global};
use std::collections::BTreeSet;

// Inserts the text of the finding of a line: that after the first colon with a space after it. Inserts nothing for a line without one.
fn insert_text(alloc: Global, texts: &mut BTreeSet<String>, line: &str) -> Result<(), AllocError>
    ensures { OnOk result ((text : List ℕ) → contains_text texts.new text ≡
        (is_listed (spec.texts_of_line line.now) text || contains_text texts.old text)) }
{
    if let Some(text) = text_after(line, ": ") {
        texts.insert(String::from_str(alloc, text)?)?;
    }
    Ok(())
}

/// Returns for each line of `output`, an earlier output of `lint` such as `FILE:LINE:COLUMN: TEXT`, the text after the first `: `, if there
/// is one. The only error is out of memory.
pub fn accepted_texts(alloc: Global, output: &str) -> Result<BTreeSet<String>, AllocError>
    ensures { IfOk result (λ texts. (text : List ℕ) → contains_text texts text ≡ is_listed (spec.accepted_texts output.now) text) }
{
    let mut texts = BTreeSet::new(alloc);
    'lines: for line in output.lines() {
        insert_text(alloc, &mut texts, line)?;
    }
    Ok(texts)
}
