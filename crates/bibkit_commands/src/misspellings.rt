//! Names of fields that are misspellings of exactly one known name.

// The names that BibLaTeX knows, except those of custom fields, and from which another such name differs by at most two typing errors. Only
// these can be meant by a name that differs from another known name by one typing error.
static SIMILAR: [&str; 40] = [
    "annotation",
    "annotator",
    "annote",
    "date",
    "day",
    "doi",
    "edition",
    "editor",
    "editora",
    "editoratype",
    "editorb",
    "editorbtype",
    "editorc",
    "editorctype",
    "editortype",
    "eid",
    "eventdate",
    "eventday",
    "file",
    "ids",
    "isan",
    "isbn",
    "ismn",
    "isrn",
    "issn",
    "issue",
    "iswc",
    "key",
    "note",
    "origdate",
    "origday",
    "pdf",
    "shorttitle",
    "sorttitle",
    "title",
    "urldate",
    "urlday",
    "volume",
    "volumes",
    "xdata",
];

// Returns two texts without their common first bytes.
fn without_common<'t>(text: &'t [u8], other: &'t [u8]) -> (&'t [u8], &'t [u8]) {
    let mut rest = (text, other);
    'bytes: for _ in 0..text.len() {
        match rest {
            ([a, x @ ..], [b, y @ ..]) if a == b => rest = (x, y),
            _ => return rest,
        }
    }
    rest
}

// Returns whether two texts are the same after their first two bytes, which are swapped.
fn are_swapped(text: &[u8], other: &[u8]) -> bool {
    match (text, other) {
        ([a, b, x @ ..], [c, d, y @ ..]) => a == d && b == c && x == y,
        _ => false,
    }
}

// Returns whether two texts differ by one typing error: a byte that is added, missing, wrong or swapped with the next one.
fn differ_by_one(text: &str, other: &str) -> bool {
    let (text, other) = without_common(text.as_bytes(), other.as_bytes());
    match (text, other) {
        ([_, x @ ..], [_, y @ ..]) => {
            x == y || x == other || text == y || are_swapped(text, other)
        }
        ([_], []) | ([], [_]) => true,
        _ => false,
    }
}

// Returns whether a name differs from a known name other than `known` by one typing error.
fn is_like_other(name: &str, known: &str) -> bool {
    SIMILAR
        .iter()
        .any(|other| *other != known && differ_by_one(name, other))
}

/// Returns whether an unknown name in ASCII lowercase can only mean the known name that `lint` suggests for it. It is the plural of the
/// known name, or differs by one typing error from it and from no other known name.
pub fn is_meant(name: &str, known: &str) -> bool {
    name.strip_suffix("s") == Some(known)
        || (differ_by_one(name, known) && !is_like_other(name, known))
}
