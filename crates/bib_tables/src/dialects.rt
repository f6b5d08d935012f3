//! The two dialects of BibTeX files: their entry types and names of fields.

ghost use Rattle.std.specs.Prelude.{◌≡◌, unwrap_or};
ghost use Rattle.bib_text.specs.Enums.{value_named};
ghost use Rattle.bib_tables.specs.Dialects.{biblatex_name, bibtex_name, bibtex_names, kind_in, thesis_names};

use crate::mechanics::EntryType;

/// The dialect whose types and fields an entry is written with.
#[derive(Clone, Copy)]
pub enum Dialect {
    /// BibLaTeX.
    Biblatex,
    /// BibTeX.
    Bibtex,
}

impl Dialect {
    /// Returns the entry type of this dialect that `kind` is mapped to.
    pub fn kind(self, kind: &EntryType) -> EntryType
        ensures { result ≡ kind_in self kind.now }
    {
        match self {
            Dialect::Biblatex => kind.to_biblatex(),
            Dialect::Bibtex => kind.to_bibtex(),
        }
    }
}

/// Returns BibLaTeX's name of a field: `journaltitle` for `journal`, `location` for `address`, and `institution` for `school`.
/// Any other name is returned unchanged. The case of letters matters.
pub fn biblatex_name(name: &str) -> &str
    ensures { result.now ≡ biblatex_name name.now }
{
    match name {
        "journal" => "journaltitle",
        "address" => "location",
        "school" => "institution",
        _ => name,
    }
}

// Returns BibTeX's name of a field of an entry that isn't a thesis.
fn plain_name(name: &str) -> &str
    ensures { result.now ≡ unwrap_or (value_named bibtex_names name.now) name.now }
{
    match name {
        "journaltitle" => "journal",
        "location" => "address",
        _ => name,
    }
}

// Returns BibTeX's name of a field of a thesis.
fn thesis_name(name: &str) -> &str
    ensures { result.now ≡ unwrap_or (value_named thesis_names name.now) name.now }
{
    match name {
        "institution" => "school",
        _ => plain_name(name),
    }
}

/// Returns BibTeX's name of a field of an entry of type `kind`: `journal` for `journaltitle`, `address` for `location`, and for
/// a thesis `school` for `institution`. Any other name is returned unchanged. The case of letters matters.
pub fn bibtex_name<'n>(kind: &EntryType, name: &'n str) -> &'n str
    ensures { result.now ≡ bibtex_name kind.now name.now }
{
    match kind {
        EntryType::Thesis | EntryType::MastersThesis | EntryType::PhdThesis => thesis_name(name),
        _ => plain_name(name),
    }
}
