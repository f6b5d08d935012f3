//! Texts in braces.

ghost use Rattle.std.specs.Prelude.{◌≡◌, ◌⊎◌, IfOk, IfErr, OnOk};
ghost use Rattle.std.specs.String.{string_bytes};
ghost use Rattle.bib_text.specs.Braces.{IsParts};
ghost use Rattle.edit_entries.specs.Documents as documents;
ghost use Rattle.edit_entries.specs.declared.errors.EditError.TheVariants.{NotInBraces, OutOfMemory};

use crate::errors::EditError;
use bib_text::braces::has_balanced_braces;
use std::alloc::{AllocError, Global};

// Returns a text between two braces.
fn between_braces(alloc: Global, text: &str) -> Result<String, AllocError>
    ensures { IfOk result (λ braced. string_bytes braced ≡ documents.in_braces text.now) }
{
    let mut braced = String::new(alloc);
    braced.push('{')?;
    braced.push_str(text)?;
    braced.push('}')?;
    Ok(braced)
}

// Returns a text between two braces, if it has balanced braces.
pub(crate) fn in_braces(alloc: Global, text: &str) -> Result<String, EditError>
    ensures found { IfOk result (λ braced. string_bytes braced ≡ documents.in_braces text.now) }
    ensures can { OnOk result (IsParts text.now) }
    ensures refused { IfErr result (λ e. (e ≡ OutOfMemory) ⊎ ((e ≡ NotInBraces) × (IsParts text.now → ⊥))) }
{
    if !has_balanced_braces(text) {
        return Err(EditError::NotInBraces);
    }
    Ok(between_braces(alloc, text)?)
}
