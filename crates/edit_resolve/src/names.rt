//! The names under which Biber reads fields, and sets of them.

ghost use Rattle.std.specs.Prelude.{◌≡◌, IfOk, IsTrue};
ghost use Rattle.std.specs.BTreeSet.{contains_text};
ghost use Rattle.std.specs.String.{string_bytes};
ghost use Rattle.edit_resolve.specs.Inheritance as inheritance;
ghost use Rattle.edit_resolve.specs.Working.{is_ruled_out_in};

use crate::inheritance::biber_name;
use std::alloc::{AllocError, Global};
use std::collections::BTreeSet;

// Returns the name under which Biber reads a field.
pub(crate) fn read_name(alloc: Global, name: &str) -> Result<String, AllocError>
    ensures { IfOk result (λ read. string_bytes read ≡ inheritance.read_name name.now) }
{
    let lower = name.to_ascii_lowercase(alloc)?;
    String::from_str(alloc, biber_name(&lower))
}

// Returns whether a set has a name, or a name that excludes it.
pub(crate) fn is_ruled_out(names: &BTreeSet<String>, name: &str) -> bool
    ensures { result ≡ is_ruled_out_in (contains_text names.now) name.now }
{
    if names.contains(name) {
        return true;
    }
    match name {
        "date" => names.contains("year"),
        "year" | "month" | "day" => names.contains("date"),
        _ => false,
    }
}
