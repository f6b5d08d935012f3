//! Finds errors and likely mistakes in a bibliography file, each with a code, a place and a message.
//!
//! `findings::findings` recovers a file in the steps of `Bibliography::recover`. It reports the skipped blocks and the errors of
//! entries and references. For each entry it reports a misspelled type, missing, superfluous and malformed fields, misspelled
//! field names, and the findings of its key and of single fields. `findings::between` reports unknown references, likely
//! duplicates, text after an entry that reads as a field, keys that differ only in ASCII case, early parents, names that are
//! reported once in a file, abbreviations that are defined again, comments in entries, and texts in quotes with unbalanced braces.
//! `findings::findings_in` sorts all findings by their starts. `findings::findings` also reports the abbreviations that nothing uses.
//!
//! `codes` contains the codes and their explanations. `places` finds fields in an entry, and `cuts` finds the entries of skipped
//! blocks. `lacking` finds the entries of which fields may be lost: those of skipped blocks, and those that refer to one by
//! `crossref` or `xdata`, directly or through others. `demands` has the fields that BibLaTeX requires. `nearest` finds the known name
//! that may be meant, `marks` selects the entries that may be the same work as another, `check_digits` tests ISBNs and ISSNs,
//! `other_digits` tests texts for the digits of other scripts, `lowercase` returns texts in lowercase, `foreign` has the fields of other
//! programs, `outside` finds the text outside braces, `volume_labels` tests texts for usual labels of volumes, `date_parts` finds the field
//! of a date that can't be parsed, and `definition_cases` makes the notes on abbreviations that are defined in another case.
//! `errors`, `types`, `entries`, `names`, `fields`, `standard_numbers`, `urls`, `malformed_dates`, `people`,
//! `special_characters`, `html`, `years`, `stray`, `comments`, `quotes`, `references`, `duplicates`, `key_cases`, `parent_order`, `once`,
//! `definitions` and `unused_definitions` make the findings; `duplicates` uses `identities`.
#![tactic(auto)]

mod check_digits;
pub mod codes;
mod comments;
mod cuts;
mod date_parts;
mod definition_cases;
mod definitions;
mod demands;
mod duplicates;
mod entries;
mod entry_names;
mod errors;
mod fields;
pub mod finding;
pub mod findings;
mod foreign;
mod html;
pub mod identities;
mod key_cases;
pub mod lacking;
mod lowercase;
mod malformed_dates;
mod marks;
mod names;
mod nearest;
mod once;
mod other_digits;
mod outside;
mod parent_order;
mod people;
pub mod places;
mod quotes;
mod references;
mod special_characters;
mod standard_numbers;
mod stray;
mod types;
mod unused_definitions;
mod urls;
mod volume_labels;
mod years;
