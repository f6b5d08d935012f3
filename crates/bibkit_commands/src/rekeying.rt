//! Runs `rekey`, which gives entries the keys that a pattern makes, or prints or checks these keys.

ghost use Rattle.std.specs.Prelude.{◌≡◌, IfOk, string_bytes};
ghost use Rattle.bib_source.specs.Positions.{position_at};
ghost use Rattle.bibkit_commands.specs.Messages as spec;
ghost use Rattle.bibkit_commands.specs.Messages.{key_message};

use crate::edits::{Editing, Mode, after_mark, apply, new_text};
use crate::stops::{Stop, bytes_of, error_line, print_output};
use bib_entry::entry::Entry;
use bib_keys::{KeyPattern, PatternError};
use bib_queries::names::entry_names;
use bib_source::positions::{Position, Positions};
use bib_syntax::raw::{Pair, RawBibliography, RawChunk, RawEntry};
use bib_tables::fields::is_reference_field;
use bib_text::spanned::Spanned;
use bib_text::text::Text;
use bibkit_edits::edit::Edit;
use bibkit_edits::left_notes::left_notes;
use biblatex::Bibliography;
use std::alloc::{AllocError, Global};
use std::collections::BTreeSet;
use std::str::from_utf8;

/// The pattern of keys, and the use of the keys that it makes.
#[derive(Clone, Copy)]
pub struct Rekeying<'a> {
    /// The pattern.
    pub pattern: &'a str,
    /// Whether a line OLD,NEW for each key that changes is printed instead of the new text.
    pub has_map: bool,
    /// Whether the keys that would change are reported, and nothing is edited.
    pub is_check: bool,
}

// Returns the error of a pattern, or fails if out of memory.
fn unless_out_of_memory(error: PatternError) -> Result<PatternError, AllocError> {
    match error {
        PatternError::OutOfMemory => Err(AllocError),
        error => Ok(error),
    }
}

// Parses a pattern. Fails with a message and status 2 for a text that isn't a pattern.
fn parse_pattern(alloc: Global, pattern: &str) -> Result<KeyPattern, Stop> {
    match KeyPattern::parse(alloc, pattern) {
        Ok(pattern) => Ok(pattern),
        Err(error) => {
            let error = unless_out_of_memory(error)?;
            let said = format!(in alloc; "bibkit: --pattern `{pattern}`: {error}\n")?;
            Err(Stop::Said(said, 2))
        }
    }
}

// Returns whether an entry can get a new key: it is neither an `xdata`, which only other entries refer to, nor a `set`, which groups
// other entries.
fn gets_key(entry: &RawEntry<'_>) -> bool {
    let kind = entry.kind.v;
    !kind.eq_ignore_ascii_case("xdata") && !kind.eq_ignore_ascii_case("set")
}

// Returns the new key of each entry, by its index. `made` has the keys for the entries at the indices `origins`. Every other entry gets no
// new key. Neither does an entry that has its key already or an empty key, or is an `xdata` or a `set`.
fn new_keys<'k>(
    alloc: Global,
    entries: &[Spanned<RawEntry<'_>>],
    made: &'k [Text],
    origins: &[usize],
) -> Result<Vec<Option<&'k str>>, AllocError> {
    let mut keys = Vec::new(alloc);
    'entries: for _ in entries {
        keys.push(None)?;
    }
    'made: for (key, origin) in made.iter().zip(origins) {
        if let Some(entry) = entries.get(*origin) {
            let old = entry.v.key.v;
            if !old.is_empty() && old != key.as_str() && gets_key(&entry.v) {
                if let Some(place) = keys.get_mut(*origin) {
                    *place = Some(key.as_str());
                }
            }
        }
    }
    Ok(keys)
}

// Returns a line OLD,NEW for each key that changes.
fn map_text(
    alloc: Global,
    entries: &[Spanned<RawEntry<'_>>],
    keys: &[Option<&str>],
) -> Result<String, AllocError> {
    let mut map = String::new(alloc);
    'entries: for (entry, key) in entries.iter().zip(keys) {
        if let Some(key) = key {
            map.push_str(format!(in alloc; "{},{}\n", entry.v.key.v, key)?.as_str())?;
        }
    }
    Ok(map)
}

// Returns the message for a key that changes, with its position.
fn key_line(
    alloc: Global,
    name: &str,
    text: &str,
    old: &Spanned<&str>,
    new: &str,
) -> Result<String, AllocError>
    ensures { IfOk result (λ line. string_bytes line
        ≡ spec.line_of_error name.now (position_at text.now old.now.span.start) (key_message old.now.v.now new.now)) }
{
    let said = format!(in alloc; "the key of `{}` isn't `{new}`", old.v)?;
    error_line(alloc, name, text.as_bytes(), old.span.start, &said)
}

// Returns a message for each key that changes, with the position of the key.
fn check_text(
    alloc: Global,
    name: &str,
    text: &str,
    entries: &[Spanned<RawEntry<'_>>],
    keys: &[Option<&str>],
) -> Result<String, AllocError> {
    let mut lines = String::new(alloc);
    'entries: for (entry, key) in entries.iter().zip(keys) {
        if let Some(key) = key {
            let old = &entry.v.key;
            let line = key_line(alloc, name, text, old, key)?;
            lines.push_str(&line)?;
        }
    }
    Ok(lines)
}

// The names that entries of a file have before they get new keys, and the new keys, all in ASCII lowercase.
#[derive(Drop)]
struct Names {
    old: BTreeSet<String>,
    new: BTreeSet<String>,
}

// Returns the names of entries, and these new keys.
fn names_of(
    alloc: Global,
    entries: &[Spanned<RawEntry<'_>>],
    keys: &[Option<&str>],
) -> Result<Names, AllocError> {
    let mut names = Names {
        old: BTreeSet::new(alloc),
        new: BTreeSet::new(alloc),
    };
    'entries: for (entry, key) in entries.iter().zip(keys) {
        insert_lowercase(alloc, &mut names.old, &entry_names(alloc, entry)?)?;
        if let Some(key) = key {
            names.new.insert(key.to_ascii_lowercase(alloc)?)?;
        }
    }
    Ok(names)
}

// Inserts names into a set, in ASCII lowercase.
fn insert_lowercase(
    alloc: Global,
    set: &mut BTreeSet<String>,
    names: &[&str],
) -> Result<(), AllocError> {
    'names: for name in names {
        set.insert(name.to_ascii_lowercase(alloc)?)?;
    }
    Ok(())
}

// Appends the names in a list that no entry has and that an entry gets as its new key, both in any ASCII case.
fn push_caught<'s>(
    caught: &mut Vec<&'s str>,
    alloc: Global,
    names: &Names,
    list: &'s str,
) -> Result<(), AllocError> {
    'parts: for part in list.split(',') {
        let name = part.trim().to_ascii_lowercase(alloc)?;
        if names.new.contains(name.as_str()) && !names.old.contains(name.as_str()) {
            caught.push(part.trim())?;
        }
    }
    Ok(())
}

// Appends names in the literals of a field that refers to entries, as `push_caught` does for a list.
fn push_caught_in_field<'s>(
    caught: &mut Vec<&'s str>,
    alloc: Global,
    names: &Names,
    field: &Pair<'s>,
) -> Result<(), AllocError> {
    if !is_reference_field(field.key.v) {
        return Ok(());
    }
    'pieces: for piece in &field.value.v {
        if let RawChunk::Normal(text) = piece.v {
            push_caught(caught, alloc, names, text)?;
        }
    }
    Ok(())
}

// Returns the names to which an entry refers, which no entry had and which are new keys.
fn caught_names<'s>(
    alloc: Global,
    names: &Names,
    entry: &RawEntry<'s>,
) -> Result<Vec<&'s str>, AllocError> {
    let mut caught = Vec::new(alloc);
    'fields: for field in &entry.fields {
        push_caught_in_field(&mut caught, alloc, names, field)?;
    }
    Ok(caught)
}

// Returns the note on an entry that refers to a name which no entry had.
fn caught_line(
    alloc: Global,
    name: &str,
    position: Position,
    first: &str,
) -> Result<String, AllocError>
    ensures { IfOk result (λ line. string_bytes line ≡ spec.caught_line name.now position first.now) }
{
    format!(in alloc;
        "{name}:{}:{}: note: the reference to `{first}` led to no entry, and now leads to one with this new key\n",
        position.line, position.column
    )
}

// Returns a note for each entry that refers to names which no entry had, but which are new keys.
fn caught_text(
    alloc: Global,
    name: &str,
    text: &str,
    entries: &[Spanned<RawEntry<'_>>],
    keys: &[Option<&str>],
) -> Result<String, AllocError> {
    let names = names_of(alloc, entries, keys)?;
    let mut positions = Positions::new(text);
    let mut notes = String::new(alloc);
    'entries: for entry in entries {
        let caught = caught_names(alloc, &names, &entry.v)?;
        if let Some(first) = caught.first() {
            let position = positions.position(entry.v.key.span.start);
            notes.push_str(&caught_line(alloc, name, position, first)?)?;
        }
    }
    Ok(notes)
}

// Gives the entries of a file new keys as `rekeying` requests, and prints notes on references. For a check, only reports the keys that
// would change, with status 1 if there are any.
fn use_keys(
    rt: &HostRuntime,
    editing: &Editing<'_>,
    rekeying: &Rekeying<'_>,
    bytes: &[u8],
    text: &str,
    entries: &[Spanned<RawEntry<'_>>],
    keys: &[Option<&str>],
) -> Result<(), Stop> {
    if rekeying.is_check {
        let lines = check_text(rt.alloc(), editing.name, text, entries, keys)?;
        return if lines.is_empty() {
            Ok(())
        } else {
            Err(Stop::Said(lines, 1))
        };
    }
    let left = left_notes(rt.alloc(), editing.name, text, &Edit::RenameAll { keys })?;
    let caught = caught_text(rt.alloc(), editing.name, text, entries, keys)?;
    edit_keys(rt, editing, rekeying, bytes, entries, keys)?;
    let _ = eprint!(rt; "{left}{caught}");
    Ok(())
}

// Gives the entries of a file new keys. Prints the map of the keys if `rekeying` requests it, and otherwise uses the new text as `editing`
// requests. With a map, the new text is still written into the file if `editing` requests that.
fn edit_keys(
    rt: &HostRuntime,
    editing: &Editing<'_>,
    rekeying: &Rekeying<'_>,
    bytes: &[u8],
    entries: &[Spanned<RawEntry<'_>>],
    keys: &[Option<&str>],
) -> Result<(), Stop> {
    let edits = [Edit::RenameAll { keys }];
    if !rekeying.has_map {
        return apply(rt, editing, bytes, &edits);
    }
    if editing.mode == Mode::Write {
        apply(rt, editing, bytes, &edits)?;
    } else {
        let _new = new_text(rt.alloc(), editing.name, bytes, &edits, editing.is_last)?;
    }
    print_output(rt, &map_text(rt.alloc(), entries, keys)?)
}

// Returns the keys that a pattern makes for entries.
fn made_keys(
    alloc: Global,
    pattern: &KeyPattern,
    bibliography: Bibliography,
) -> Result<Vec<Text>, AllocError> {
    let entries: Vec<Entry> = bibliography.into_vec();
    pattern.keys(alloc, &entries)
}

// Gives the entries of a file's text the keys that a pattern makes. A text with a syntax error is refused.
fn rekey_text(
    rt: &HostRuntime,
    editing: &Editing<'_>,
    rekeying: &Rekeying<'_>,
    pattern: &KeyPattern,
    bytes: &[u8],
    text: &str,
) -> Result<(), Stop> {
    let Ok(raw) = RawBibliography::parse(rt.alloc(), text) else {
        return apply(rt, editing, bytes, &[Edit::RenameAll { keys: &[] }]);
    };
    let found = Bibliography::recover(rt.alloc(), text)?;
    let made = made_keys(rt.alloc(), pattern, found.bibliography)?;
    let keys = new_keys(rt.alloc(), &raw.entries, &made, &found.origins)?;
    use_keys(rt, editing, rekeying, bytes, text, &raw.entries, &keys)
}

/// Gives the entries of a file the keys that a pattern makes, or uses these keys as `rekeying` requests.
pub fn rekey(rt: &HostRuntime, editing: &Editing<'_>, rekeying: &Rekeying<'_>) -> Result<(), Stop> {
    let pattern = parse_pattern(rt.alloc(), rekeying.pattern)?;
    let bytes = bytes_of(rt, editing.name)?;
    match from_utf8(after_mark(&bytes)) {
        Ok(text) => rekey_text(rt, editing, rekeying, &pattern, &bytes, text),
        Err(_) => apply(rt, editing, &bytes, &[Edit::RenameAll { keys: &[] }]),
    }
}
