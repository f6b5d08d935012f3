//! The name of an entry in messages.

ghost use Rattle.std.specs.Prelude.{◌≡◌};
ghost use Rattle.bib_findings.specs.EntryNames as spec;

// Returns the name of an entry in messages: its key, or words for an empty key.
pub(crate) fn entry_name(key: &str) -> &str
    ensures { result.now ≡ spec.entry_name key.now }
{
    if key.is_empty() {
        "an entry without a key"
    } else {
        key
    }
}
