//! The item types of records.

ghost use Rattle.std.specs.Prelude.{◌≡◌};
ghost use Rattle.bib_from_ris.specs.RisTypes as spec;

// Returns whether a record is a periodical or a part of it.
pub(crate) fn is_periodical(kind: &str) -> bool
    ensures { result ≡ spec.has_issues kind.now }
{
    matches!(
        kind,
        "JOUR" | "EJOUR" | "INPR" | "ABST" | "MGZN" | "NEWS" | "JFULL"
    )
}

// Returns whether a record is a book or a report, which can belong to a series by itself.
pub(crate) fn is_whole_book(kind: &str) -> bool
    ensures { result ≡ spec.is_book_itself kind.now }
{
    matches!(kind, "BOOK" | "EBOOK" | "EDBOOK" | "RPRT")
}

// Returns whether the number of a record counts the works of a series.
pub(crate) fn is_in_series(kind: &str) -> bool
    ensures { result ≡ spec.is_in_series kind.now }
{
    matches!(
        kind,
        "BOOK"
            | "EBOOK"
            | "EDBOOK"
            | "CHAP"
            | "ECHAP"
            | "CONF"
            | "CPAPER"
            | "ENCYC"
            | "DICT"
            | "PAMP"
    )
}

// Returns the item type of a picture, a map, a film, a sound, a talk, or a work of no special type (GEN), or an empty text for another
// type.
#[tactic(auto, unfolding(crate::specs::RisTypes::media_type))]
fn media_type(kind: &str) -> &'static str
    ensures { result.now ≡ spec.media_type kind.now }
{
    match kind {
        "ART" | "FIGURE" => "graphic",
        "MAP" => "map",
        "MPCT" | "VIDEO" | "ADVS" => "motion_picture",
        "SOUND" | "MUSIC" => "song",
        "SLIDE" => "speech",
        "GEN" => "document",
        _ => "",
    }
}

// Returns the item type of a work of law, or else `media_type`.
#[tactic(auto, unfolding(crate::specs::RisTypes::law_type))]
fn law_type(kind: &str) -> &'static str
    ensures { result.now ≡ spec.law_type kind.now }
{
    match kind {
        "PAT" => "patent",
        "STAND" => "standard",
        "STAT" => "legislation",
        "BILL" | "UNBILL" => "bill",
        "LEGAL" => "treaty",
        "CASE" => "legal_case",
        "HEAR" => "hearing",
        _ => media_type(kind),
    }
}

// Returns the item type of a website, software, data, a letter, or a work that has no publisher, or else `law_type`.
#[tactic(auto, unfolding(crate::specs::RisTypes::grey_type))]
fn grey_type(kind: &str) -> &'static str
    ensures { result.now ≡ spec.grey_type kind.now }
{
    match kind {
        "ELEC" | "WEB" => "webpage",
        "BLOG" => "post-weblog",
        "COMP" => "software",
        "DATA" | "DBASE" | "AGGR" => "dataset",
        "PCOMM" | "ICOMM" => "personal_communication",
        "THES" => "thesis",
        "RPRT" | "GOVDOC" => "report",
        "UNPB" | "MANSCPT" => "manuscript",
        _ => law_type(kind),
    }
}

/// Returns the item type of a record of this type, or an empty text if the type is unknown.
#[tactic(auto, unfolding(crate::specs::RisTypes::known_item_type))]
pub(crate) fn known_type(kind: &str) -> &'static str
    ensures { result.now ≡ spec.known_item_type kind.now }
{
    match kind {
        "JOUR" | "EJOUR" | "INPR" | "ABST" => "article-journal",
        "MGZN" => "article-magazine",
        "NEWS" => "article-newspaper",
        "JFULL" => "periodical",
        "BOOK" | "EBOOK" | "EDBOOK" => "book",
        "CHAP" | "ECHAP" => "chapter",
        "CONF" | "CPAPER" => "paper-conference",
        "ENCYC" => "entry-encyclopedia",
        "DICT" => "entry-dictionary",
        "PAMP" => "pamphlet",
        _ => grey_type(kind),
    }
}

/// Returns the item type of a record of this type; `document` if the type is unknown.
#[tactic(auto, unfolding(crate::specs::RisTypes::type_of_record))]
pub(crate) fn type_of_record(kind: &str) -> &'static str
    ensures { result.now ≡ spec.type_of_record kind.now }
{
    let known = known_type(kind);
    if known.is_empty() { "document" } else { known }
}
