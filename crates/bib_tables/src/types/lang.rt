//! Languages of BibLaTeX: those that the Rust crate `biblatex` lists.

ghost use Rattle.std.specs.Prelude.{◌≡◌, Some, Option};
ghost use Rattle.std.specs.Option.{ok_or};
ghost use Rattle.bib_tables.specs.Language.{language_row, language_named};
ghost use Rattle.bib_tables.specs.LanguageRows.{row_meaning, is_read_by, row_named};

use crate::types::NameError;
use std::fmt;
use std::str::FromStr;

/// A language of BibLaTeX, from the identifiers of the field `langid` (BibLaTeX manual, 2.2.3).
#[derive(Debug, Clone, Copy, PartialEq, Eq)]
pub enum Language {
    /// Basque.
    Basque,
    /// Bulgarian.
    Bulgarian,
    /// Catalan.
    Catalan,
    /// Croatian.
    Croatian,
    /// Czech.
    Czech,
    /// Danish.
    Danish,
    /// Dutch.
    Dutch,
    /// American English.
    EnglishUS,
    /// British English.
    EnglishUK,
    /// Canadian English.
    EnglishCA,
    /// Australian English.
    EnglishAUS,
    /// New Zealand English.
    EnglishNZ,
    /// Estonian.
    Estonian,
    /// Finnish.
    Finnish,
    /// French.
    French,
    /// German.
    German,
    /// Austrian German.
    GermanAT,
    /// Swiss German.
    GermanCH,
    /// German in the new spelling.
    GermanNew,
    /// Austrian German in the new spelling.
    GermanATNew,
    /// Swiss German in the new spelling.
    GermanCHNew,
    /// Greek.
    Greek,
    /// Hungarian.
    Hungarian,
    /// Icelandic.
    Icelandic,
    /// Italian.
    Italian,
    /// Latvian.
    Latvian,
    /// Lithuanian.
    Lithuanian,
    /// Marathi.
    Marathi,
    /// Norwegian (Bokmål).
    NorwegianBokmal,
    /// Norwegian (Nynorsk).
    NorwegainNynorsk,
    /// Polish.
    Polish,
    /// Brazilian Portuguese.
    PortugueseBR,
    /// Portuguese.
    Portuguese,
    /// Romanian.
    Romanian,
    /// Russian.
    Russian,
    /// Serbian (Latin).
    SerbianLatin,
    /// Serbian (Cyrillic).
    SerbianCyrillic,
    /// Slovak.
    Slovak,
    /// Slovene.
    Slovene,
    /// Spanish.
    Spanish,
    /// Swedish.
    Swedish,
    /// Turkish.
    Turkish,
    /// Ukrainian.
    Ukrainian,
}

/// A language, its name, its tag, and its other names.
type Row = (
    Language,
    &'static str,
    &'static str,
    &'static [&'static str],
);

/// The languages, in the order of the variants.
static LANGUAGES: [Row; 43] = [
    (Language::Basque, "Basque", "eu", &["basque"]),
    (Language::Bulgarian, "Bulgarian", "bg", &["bulgarian"]),
    (Language::Catalan, "Catalan", "ca", &["catalan"]),
    (Language::Croatian, "Croatian", "hr", &["croatian"]),
    (Language::Czech, "Czech", "cs", &["czech"]),
    (Language::Danish, "Danish", "da", &["danish"]),
    (Language::Dutch, "Dutch", "nl", &["dutch"]),
    (
        Language::EnglishUS,
        "American English",
        "en-US",
        &["american", "USenglish", "english"],
    ),
    (
        Language::EnglishUK,
        "British English",
        "en-UK",
        &["british", "UKenglish"],
    ),
    (
        Language::EnglishCA,
        "Canadian English",
        "en-CA",
        &["canadian"],
    ),
    (
        Language::EnglishAUS,
        "Australian English",
        "en-AU",
        &["australian"],
    ),
    (
        Language::EnglishNZ,
        "New Zealand English",
        "en-NZ",
        &["newzealand"],
    ),
    (Language::Estonian, "Estonian", "et", &["estonian"]),
    (Language::Finnish, "Finnish", "fi", &["finnish"]),
    (Language::French, "French", "fr", &["french"]),
    (Language::German, "German", "de", &["german"]),
    (Language::GermanAT, "Austrian", "de-AT", &["austrian"]),
    (
        Language::GermanCH,
        "Swiss German",
        "de-CH",
        &["swissgerman"],
    ),
    (Language::GermanNew, "New German", "de", &["ngerman"]),
    (
        Language::GermanATNew,
        "New Austrian",
        "de-AT",
        &["naustrian"],
    ),
    (
        Language::GermanCHNew,
        "New Swiss German",
        "de-CH",
        &["nswissgerman"],
    ),
    (Language::Greek, "Greek", "el", &["greek"]),
    (
        Language::Hungarian,
        "Hungarian",
        "hu",
        &["hungarian", "magyar"],
    ),
    (Language::Icelandic, "Icelandic", "is", &["icelandic"]),
    (Language::Italian, "Italian", "it", &["italian"]),
    (Language::Latvian, "Latvian", "lv", &["latvian"]),
    (Language::Lithuanian, "Lithuanian", "lt", &["lithuanian"]),
    (Language::Marathi, "Marathi", "mr", &["marathi"]),
    (
        Language::NorwegianBokmal,
        "Norwegian (Bokmål)",
        "nb",
        &["norsk"],
    ),
    (
        Language::NorwegainNynorsk,
        "Norwegian (Nynorsk)",
        "nn",
        &["nynorsk"],
    ),
    (Language::Polish, "Polish", "pl", &["polish"]),
    (
        Language::PortugueseBR,
        "Brazilian Portuguese",
        "pt-BR",
        &["brazil"],
    ),
    (
        Language::Portuguese,
        "Portuguese",
        "pt-PT",
        &["portuguese", "portuges"],
    ),
    (Language::Romanian, "Romanian", "ro", &["romanian"]),
    (Language::Russian, "Russian", "ru", &["russian"]),
    (
        Language::SerbianLatin,
        "Serbian (Latin)",
        "sr-Latn",
        &["serbian"],
    ),
    (
        Language::SerbianCyrillic,
        "Serbian (Cyrillic)",
        "sr-Cyrl",
        &["serbianc"],
    ),
    (Language::Slovak, "Slovak", "sk", &["slovak"]),
    (
        Language::Slovene,
        "Slovene",
        "sl",
        &["slovene", "slovenian"],
    ),
    (Language::Spanish, "Spanish", "es", &["spanish"]),
    (Language::Swedish, "Swedish", "sv", &["swedish"]),
    (Language::Turkish, "Turkish", "tr", &["turkish"]),
    (Language::Ukrainian, "Ukrainian", "uk", &["ukrainian"]),
];

impl Language {
    /// Returns the language tag.
    pub fn tag(self) -> &'static str
        ensures { result.now ≡ (language_row self).tag }
    {
        let (_, _, tag, _) = self.row();
        tag
    }

    fn name(self) -> &'static str
        ensures { result.now ≡ (language_row self).name }
    {
        let (_, name, _, _) = self.row();
        name
    }

    fn row(self) -> &'static Row
        ensures { row_meaning result.now ≡ language_row self }
    {
        &LANGUAGES[self as usize]
    }

    fn from_name(text: &str) -> Option<Self>
        ensures { result ≡ language_named text.now }
    {
        find_named(&LANGUAGES, text)
    }
}

/// Returns the language of the first row with the name `text`, or `None`.
fn find_named(rows: &[Row], text: &str) -> Option<Language>
    ensures { result ≡ row_named rows.entry.now text.now }
{
    for row in rows {
        if is_read_by(row, text) {
            return Some(row.0);
        }
    }
    None
}

/// Returns whether the language of `row` has the name `text`.
fn is_read_by(row: &Row, text: &str) -> bool
    ensures { result ≡ is_read_by row.entry.now text.now }
{
    let (_, name, _, others) = row;
    *name == text || others.contains(&text)
}

/// Writes the name of the language.
impl fmt::Display for Language {
    ghost output = { λ language. Some (language_row language).name };

    fn fmt<W: fmt::Write>(&self, f: &mut fmt::Formatter<W>) -> fmt::Result {
        f.write_str(self.name())
    }
}

/// Parses a name of a language: the name that `Display` writes, or an identifier of BibLaTeX. It must match exactly.
impl FromStr for Language {
    ghost use Rattle.bib_tables.specs.declared.types.NameError.{NameError};

    type Err = NameError;

    ghost from_str_gives = { λ text result. result ≡ ok_or (language_named text) NameError.Unknown };

    fn from_str(text: &str) -> Result<Self, NameError> {
        Self::from_name(text).ok_or(NameError::Unknown)
    }
}
