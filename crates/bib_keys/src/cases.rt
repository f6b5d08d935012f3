//! Words in lower or upper case.

ghost use Rattle.std.specs.Prelude.{◌≡◌, ◌++◌, map, OnOk, string_bytes};
ghost use Rattle.std.specs.List.{flat_map};
ghost use Rattle.bib_keys.specs.Words.{in_case};
ghost use Rattle.bib_keys.specs.declared.pattern.Case.TheVariants.{Capital};

use crate::pattern::Case;
use bib_text::text::Text;
use std::alloc::{AllocError, Global};

// Appends a word with its first character in ASCII upper case.
fn push_capital(out: &mut String, word: &str) -> Result<(), AllocError>
    ensures { OnOk result (string_bytes out.new ≡ string_bytes out.old ++ in_case Capital word.now) }
{
    let mut rest = word.chars();
    let Some(first) = rest.next() else {
        return Ok(());
    };
    out.push(first.to_ascii_uppercase())?;
    out.push_str(rest.as_str())?;
    Ok(())
}

// Appends a word in the letter case `case`.
fn push_in_case(alloc: Global, out: &mut String, case: Case, word: &str) -> Result<(), AllocError>
    ensures { OnOk result (string_bytes out.new ≡ string_bytes out.old ++ in_case case word.now) }
{
    match case {
        Case::Lower => out.push_str(word.to_ascii_lowercase(alloc)?.as_str()),
        Case::Capital => push_capital(out, word),
        Case::Upper => out.push_str(word.to_ascii_uppercase(alloc)?.as_str()),
    }
}

// Appends words in a case, one after another.
pub(crate) fn push_words(
    alloc: Global,
    out: &mut String,
    case: Case,
    words: &[Text],
) -> Result<(), AllocError>
    ensures { OnOk result (string_bytes out.new ≡ string_bytes out.old ++ flat_map (in_case case) words.now) }
{
    'words: for word in words {
        push_in_case(alloc, out, case, word.as_str())?;
    }
    Ok(())
}
