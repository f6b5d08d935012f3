//! Patterns of keys.

ghost use Rattle.std.specs.Prelude.{◌≡◌, IfErr, IfOk};
ghost use Rattle.std.specs.List.{All, AllPairs};
ghost use Rattle.bib_keys.specs.Characters.{CanServeAsKey};
ghost use Rattle.bib_keys.specs.Keys.{AreDistinct, AreKeys};
ghost use Rattle.bib_keys.specs.Patterns.{IsPattern, IsPatternError};

use crate::errors::PatternError;
use crate::keys::new_keys;
use crate::parsing::parts;
use bib_entry::entry::Entry;
use bib_text::items::Items;
use bib_text::text::Text;
use std::alloc::{AllocError, Global};
use std::marker::Model;

/// The case of the words of a placeholder.
#[derive(Debug, Clone, Copy, PartialEq, Eq)]
pub enum Case {
    /// In lower case, such as `{author}`.
    Lower,
    /// With the first character of each family name or word of the title in upper case, such as `{Author}`. Other characters keep their
    /// case.
    Capital,
    /// In upper case, such as `{AUTHOR}`.
    Upper,
}

/// A part of a pattern.
#[derive(Debug, Clone, Copy, PartialEq, Eq)]
pub enum Part {
    /// A character. It is copied to the text of the pattern, except for a hyphen after a hyphen.
    Literal(char),
    /// The family name of the first author. With a number, the family names of up to this many authors, and `EtAl` in the same case
    /// if there are more. The field is `editor` if there is no `author`.
    Author(Case, Option<u8>),
    /// The first significant word of the title. With a number, up to this many significant words.
    Title(Case, Option<u8>),
    /// The four digits of the year.
    Year,
    /// The last two digits of the year.
    ShortYear,
}

/// A pattern of keys, such as `{author}{year}{title:1}`. Contracts see it as the list of its parts.
#[derive(Debug, Drop)]
pub struct KeyPattern {
    parts: Items<Part>,
}

impl Model for KeyPattern {
    ghost use Rattle.std.specs.Prelude.{List};
    ghost use Rattle.bib_keys.specs.declared.pattern.Part.{Part as APart};

    ghost Value = { List APart };

    ghost view = { λ p. p.parts };
}

impl KeyPattern {
    /// Parses a pattern. A placeholder is `{author}`, `{title}` or `{year}`. The first two also have the forms `{Author}` and
    /// `{AUTHOR}`, and may have a number from 1 to 9, such as `{author:3}`. The year may have the number 2: `{year:2}`. All other
    /// characters are copied to the text of the pattern, except for a hyphen after a hyphen. The error is the first character that isn't
    /// allowed in a key, or the first opening brace that doesn't begin a placeholder, or out of memory.
    pub fn parse(alloc: Global, text: &str) -> Result<KeyPattern, PatternError>
        ensures found { IfOk result (λ pattern. IsPattern pattern text.now) }
        ensures refused { IfErr result (IsPatternError text.now) }
    {
        let parts = parts(alloc, text)?;
        Ok(KeyPattern { parts })
    }

    /// Returns one key for each entry, in the order of `entries`. A key depends on the fields of entries, not on their old keys. It is
    /// the text that the pattern gives, or `nokey` if that text has no letter and no digit. If an earlier entry gets this key, in any
    /// ASCII case, a suffix is appended: the first of `a`, `b`, .., `z`, `aa`, .. that gives a new key. The only error is out of memory.
    pub fn keys(&self, alloc: Global, entries: &[Entry]) -> Result<Vec<Text>, AllocError>
        ensures keys { IfOk result (λ keys. AreKeys self.now entries.now keys.items) }
        ensures distinct { IfOk result (λ keys. AreDistinct keys.items) }
        ensures allowed { IfOk result (λ keys. All CanServeAsKey keys.items) }
    {
        new_keys(alloc, self.parts.as_slice(), entries)
    }
}
