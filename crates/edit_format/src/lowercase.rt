//! Texts in ASCII lowercase.

ghost use Rattle.std.specs.Prelude.{◌≡◌, ◌++◌, OnOk};
ghost use Rattle.std.specs.Char.{is_ascii_uppercase};
ghost use Rattle.std.specs.List.{list_any};
ghost use Rattle.std.specs.Str.{str_to_ascii_lowercase};
ghost use Rattle.std.specs.String.{string_bytes};

use std::alloc::{AllocError, Global};

// Returns whether a text contains an ASCII capital.
fn has_capital(text: &str) -> bool
    ensures { result ≡ list_any is_ascii_uppercase text.now }
{
    'bytes: for byte in text.as_bytes() {
        if byte.is_ascii_uppercase() {
            return true;
        }
    }
    false
}

// Appends a text in ASCII lowercase. A text without a capital, as most are, is copied.
pub(crate) fn push_lowercase(alloc: Global, new: &mut String, text: &str) -> Result<(), AllocError>
    ensures { OnOk result (string_bytes new.new ≡ string_bytes new.old ++ str_to_ascii_lowercase text.now) }
{
    if !has_capital(text) {
        return new.push_str(text);
    }
    let lower = text.to_ascii_lowercase(alloc)?;
    new.push_str(lower.as_str())
}
