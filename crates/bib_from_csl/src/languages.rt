//! BibLaTeX's names of languages, by their tags (BCP 47).

ghost use Rattle.std.specs.Prelude.{◌≡◌};
ghost use Rattle.bib_csl.specs.Named.{text_named};
ghost use Rattle.bib_from_csl.specs.LanguageNames as spec;

use crate::reading::sides;
use bib_csl::named::text_named;

// Languages: the tag and BibLaTeX's name.
static LANGUAGES: [(&str, &str); 45] = [
    ("en-US", "american"),
    ("en-GB", "british"),
    ("en-CA", "canadian"),
    ("en-AU", "australian"),
    ("en-NZ", "newzealand"),
    ("de-AT", "naustrian"),
    ("de-CH", "nswissgerman"),
    ("pt-BR", "brazil"),
    ("pt-PT", "portuguese"),
    ("es-MX", "mexican"),
    ("fr-CA", "canadien"),
    ("sr-Latn", "serbian"),
    ("sr-Cyrl", "serbianc"),
    ("ca", "catalan"),
    ("da", "danish"),
    ("de", "ngerman"),
    ("es", "spanish"),
    ("eu", "basque"),
    ("fi", "finnish"),
    ("fr", "french"),
    ("is", "icelandic"),
    ("it", "italian"),
    ("nb", "norsk"),
    ("nl", "dutch"),
    ("nn", "nynorsk"),
    ("sv", "swedish"),
    ("bg", "bulgarian"),
    ("cs", "czech"),
    ("el", "greek"),
    ("et", "estonian"),
    ("hr", "croatian"),
    ("hu", "hungarian"),
    ("lt", "lithuanian"),
    ("lv", "latvian"),
    ("mr", "marathi"),
    ("pl", "polish"),
    ("ro", "romanian"),
    ("ru", "russian"),
    ("sk", "slovak"),
    ("sl", "slovene"),
    ("tr", "turkish"),
    ("uk", "ukrainian"),
    ("gl", "galician"),
    ("la", "latin"),
    ("no", "norwegian"),
];

// Returns the name of the language with exactly this tag, or an empty text.
fn named(tag: &str) -> &'static str
    ensures { result.now ≡ text_named spec.language_names tag.now }
{
    text_named(&LANGUAGES, tag)
}

// Returns the first name, or the other one if the first is empty.
pub(crate) fn first_name(first: &'static str, other: &'static str) -> &'static str
    ensures { result.now ≡ spec.first_name first.now other.now }
{
    if first.is_empty() { other } else { first }
}

// Returns the tag of a language without its country or script.
#[tactic(auto, unfolding(crate::specs::LanguageNames::without_country))]
fn without_country(tag: &str) -> &str
    ensures { result.now ≡ spec.without_country tag.now }
{
    match sides(tag) {
        Some((language, _)) => language,
        None => tag,
    }
}

// Returns BibLaTeX's name of the language of a tag, or an empty text. A tag with a country or a script that has no name of its own has the
// name of its language.
#[tactic(auto, unfolding(crate::specs::LanguageNames::language_name))]
pub(crate) fn language_name(tag: &str) -> &'static str
    ensures { result.now ≡ spec.language_name tag.now }
{
    first_name(named(tag), named(without_country(tag)))
}
