//! The names of verbatim fields and of reference fields.

ghost use Rattle.std.specs.Prelude.{◌≡◌};
ghost use Rattle.bib_tables.specs.ReferenceFields as references;
ghost use Rattle.bib_tables.specs.VerbatimFields as names;

/// Returns whether `key` is exactly the name of a verbatim field, in whose value commands and math have no meaning.
pub fn is_verbatim_field(key: &str) -> bool
    ensures { result ≡ names.is_verbatim_field key.now }
{
    matches!(
        key,
        "file" | "doi" | "uri" | "eprint" | "verba" | "verbb" | "verbc" | "pdf" | "url" | "urlraw"
    )
}

/// Returns whether the value of the field `name`, in any ASCII case, lists keys of entries that its entry refers to.
pub fn is_reference_field(name: &str) -> bool
    ensures { result ≡ references.is_reference_field name.now }
{
    name.eq_ignore_ascii_case("crossref")
        || name.eq_ignore_ascii_case("xdata")
        || name.eq_ignore_ascii_case("xref")
        || name.eq_ignore_ascii_case("related")
        || name.eq_ignore_ascii_case("entryset")
        || name.eq_ignore_ascii_case("set")
}
