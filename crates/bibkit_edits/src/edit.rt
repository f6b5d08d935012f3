//! Edits of a file, and the reasons for refusing them.

ghost use Rattle.std.specs.Prelude.{◌≡◌};
ghost use Rattle.bibkit_edits.specs.declared.edit.Refusal.TheVariants.{OutOfMemory};

use bib_syntax::raw::ParseError;
use edit_entries::errors::EditError;
use edit_entries::field_edits::FieldEdit;
use edit_entries::field_value::FieldValue;
use edit_format::style::Style;
use edit_orders::order::Order;
use std::alloc::AllocError;

/// One edit of a bibliography file.
#[derive(Debug, Clone, Copy)]
pub enum Edit<'a> {
    /// Sets a field of an entry.
    Set {
        /// The key of the entry.
        key: &'a str,
        /// The name of the field.
        name: &'a str,
        /// The value.
        value: FieldValue<'a>,
    },
    /// Removes a field from an entry.
    Unset {
        /// The key of the entry.
        key: &'a str,
        /// The name of the field.
        name: &'a str,
    },
    /// Changes the key of an entry, and the references to it.
    Rename {
        /// The old key.
        old: &'a str,
        /// The new key.
        new: &'a str,
    },
    /// Gives entries new keys, all at once, and changes the references to them.
    RenameAll {
        /// The new key of each entry, by the index of the entry. `None` keeps the key.
        keys: &'a [Option<&'a str>],
    },
    /// Edits a field of several entries at once.
    Fields {
        /// The keys of the entries.
        keys: &'a [&'a str],
        /// The edit of each of these entries.
        edit: FieldEdit<'a>,
    },
    /// Removes a field from several entries at once.
    UnsetAll {
        /// The keys of the entries.
        keys: &'a [&'a str],
        /// The name of the field.
        name: &'a str,
    },
    /// Removes an entry.
    Remove {
        /// The key of the entry.
        key: &'a str,
    },
    /// Removes the first entry with each of some keys, all at once. A key that is given twice counts once.
    RemoveEach {
        /// The keys of the entries.
        keys: &'a [&'a str],
    },
    /// Removes several entries at once.
    RemoveAll {
        /// The keys of the entries.
        keys: &'a [&'a str],
    },
    /// Appends a line end and another text with its entries. If the first line of the file ends with `\r\n`, each line end of this text
    /// becomes `\r\n`.
    Add {
        /// The text to append.
        text: &'a str,
    },
    /// Sorts the entries.
    Sort {
        /// The order of the entries.
        order: Order,
    },
    /// Replaces abbreviations in the fields of entries by their definitions. The definitions are kept, and so is an abbreviation without
    /// one before the entry.
    Expand,
    /// Defines abbreviations for texts that occur in several fields, and replaces the texts by them.
    Collect {
        /// The names of the fields whose texts are collected.
        fields: &'a [&'a str],
        /// The minimum number of fields with the same text. A number below 2 counts as 2.
        at_least: usize,
    },
    /// Converts entries to the types and fields of BibLaTeX.
    ToBiblatex,
    /// Converts entries to the types and fields of BibTeX.
    ToBibtex,
    /// Replaces the references `crossref` and `xdata` of each entry by the fields that it inherits, by the rules of BibLaTeX. A reference
    /// to an unknown key is kept.
    Resolve,
    /// Formats the text in a style.
    Format {
        /// The style.
        style: Style<'a>,
    },
}

/// The reason for refusing edits. Refused edits change nothing.
#[derive(Debug, Drop)]
pub enum Refusal {
    /// The file isn't UTF-8.
    NotUtf8 {
        /// The offset of the first byte that isn't UTF-8, in bytes of the file.
        at: usize,
    },
    /// The text of the file has an error that makes parsing fail.
    File(ParseError),
    /// The text to be added, with line ends by `with_line_ends_of`, has an error that makes parsing fail.
    Added(ParseError),
    /// An edit is refused.
    Edit {
        /// The index of the edit, from 0.
        index: usize,
        /// The error of the edit.
        why: EditError,
    },
    /// The edit [`Edit::Expand`] is refused: the definition of an abbreviation uses its own name, or a name before the name's first
    /// definition.
    EarlyUse {
        /// The index of the edit, from 0.
        index: usize,
        /// The index of the first such definition among those of the text, from 0.
        definition: usize,
    },
    /// The edit [`Edit::Resolve`] is refused: an entry inherits from itself, directly or through others.
    ReferenceCycle {
        /// The index of the edit, from 0.
        index: usize,
        /// The index of the first such entry among those of the text, from 0.
        entry: usize,
    },
    /// Any edit except [`Edit::Format`] is refused: a field or a definition contains a text in quotes whose braces aren't balanced, such as
    /// `"The {"}Big{"} one"`. BibTeX and Biber may end such a text elsewhere, and then parse it and the text after it differently.
    UnbalancedQuotes {
        /// The index of the edit, from 0.
        index: usize,
    },
    /// Out of memory.
    OutOfMemory,
}

impl From<AllocError> for Refusal {
    ghost from_gives = { λ _ refusal. refusal ≡ OutOfMemory };

    fn from(_error: AllocError) -> Self {
        Refusal::OutOfMemory
    }
}
