//! The table of requirements: rows of rules, some of which several entry types share.

use super::{AuthorMode, PagesChapterMode, Row};

/// Fields that are optional for most types.
const BASE: [&str; 13] = [
    "note",
    "location",
    "titleaddon",
    "subtitle",
    "url",
    "urldate",
    "doi",
    "eprint",
    "eprintclass",
    "eprinttype",
    "pubstate",
    "language",
    "addendum",
];

/// `BASE` without `note` and `location`.
const CORE: [&str; 11] = [
    "titleaddon",
    "subtitle",
    "url",
    "urldate",
    "doi",
    "eprint",
    "eprintclass",
    "eprinttype",
    "pubstate",
    "language",
    "addendum",
];

/// The people who annotated or translated a work, or wrote an afterword, a foreword or an introduction to it, and its original language.
const ANNOTATORS: [&str; 7] = [
    "annotator",
    "commentator",
    "translator",
    "origlanguage",
    "afterword",
    "foreword",
    "introduction",
];

/// The title of a work in several volumes.
const MAIN_TITLE: [&str; 3] = ["maintitle", "mainsubtitle", "maintitleaddon"];

/// The subtitle and the title addon of the book that contains a work.
const BOOK_TITLE: [&str; 2] = ["booksubtitle", "booktitleaddon"];

pub(super) static ARTICLE: Row = Row {
    required: &["title", "journaltitle"],
    optional: &[
        &["note"],
        &CORE,
        &[
            "number",
            "series",
            "version",
            "volume",
            "annotator",
            "commentator",
            "translator",
            "origlanguage",
            "journalsubtitle",
            "issue",
            "issuetitle",
            "issuesubtitle",
            "eid",
            "issn",
        ],
    ],
    author: AuthorMode::AuthorRequiredEditorOptional,
    pages: PagesChapterMode::PagesOptional,
    needs_date: true,
};

pub(super) static BOOK: Row = Row {
    required: &["title", "publisher"],
    optional: &[
        &BASE,
        &ANNOTATORS,
        &MAIN_TITLE,
        &[
            "edition",
            "number",
            "series",
            "part",
            "volume",
            "volumes",
            "isbn",
            "pagetotal",
        ],
    ],
    author: AuthorMode::OneRequired,
    pages: PagesChapterMode::BothOptional,
    needs_date: true,
};

pub(super) static BOOKLET: Row = Row {
    required: &["title"],
    optional: &[&BASE, &["howpublished", "type", "pagetotal"]],
    author: AuthorMode::OneRequired,
    pages: PagesChapterMode::BothOptional,
    needs_date: false,
};

pub(super) static IN_BOOK: Row = Row {
    required: &["title", "publisher", "booktitle"],
    optional: &[
        &BASE,
        &ANNOTATORS,
        &MAIN_TITLE,
        &BOOK_TITLE,
        &[
            "bookauthor",
            "volume",
            "volumes",
            "part",
            "type",
            "series",
            "number",
            "edition",
            "isbn",
        ],
    ],
    author: AuthorMode::OneRequired,
    pages: PagesChapterMode::OneRequired,
    needs_date: true,
};

pub(super) static IN_COLLECTION: Row = Row {
    required: &["title", "publisher", "booktitle"],
    optional: &[
        &BASE,
        &ANNOTATORS,
        &MAIN_TITLE,
        &BOOK_TITLE,
        &[
            "volume", "volumes", "part", "type", "series", "number", "edition", "isbn",
        ],
    ],
    author: AuthorMode::BothRequired,
    pages: PagesChapterMode::BothOptional,
    needs_date: true,
};

pub(super) static IN_PROCEEDINGS: Row = Row {
    required: &["title", "booktitle"],
    optional: &[
        &BASE,
        &MAIN_TITLE,
        &BOOK_TITLE,
        &[
            "number",
            "organization",
            "series",
            "volume",
            "volumes",
            "part",
            "publisher",
            "eventtitle",
            "eventsubtitle",
            "eventtitleaddon",
            "venue",
            "isbn",
        ],
    ],
    author: AuthorMode::AuthorRequiredEditorOptional,
    pages: PagesChapterMode::BothOptional,
    needs_date: true,
};

pub(super) static MANUAL: Row = Row {
    required: &["title"],
    optional: &[
        &BASE,
        &[
            "edition",
            "organization",
            "series",
            "version",
            "isbn",
            "publisher",
            "type",
            "pagetotal",
        ],
    ],
    author: AuthorMode::OneRequired,
    pages: PagesChapterMode::BothOptional,
    needs_date: false,
};

pub(super) static MASTERS_THESIS: Row = Row {
    required: &["title", "school"],
    optional: &[&BASE, &["type"]],
    author: AuthorMode::AuthorRequired,
    pages: PagesChapterMode::None,
    needs_date: true,
};

pub(super) static MISC: Row = Row {
    required: &["title"],
    optional: &[&["note"], &CORE, &["howpublished", "organization", "type"]],
    author: AuthorMode::OneRequired,
    pages: PagesChapterMode::None,
    needs_date: false,
};

pub(super) static PROCEEDINGS: Row = Row {
    required: &["title"],
    optional: &[
        &BASE,
        &MAIN_TITLE,
        &[
            "number",
            "organization",
            "series",
            "volume",
            "volumes",
            "part",
            "publisher",
            "isbn",
            "pagetotal",
        ],
    ],
    author: AuthorMode::EditorRequiredAuthorForbidden,
    pages: PagesChapterMode::BothOptional,
    needs_date: true,
};

pub(super) static TECH_REPORT: Row = Row {
    required: &["title", "institution"],
    optional: &[&BASE, &["number", "type"]],
    author: AuthorMode::AuthorRequired,
    pages: PagesChapterMode::None,
    needs_date: true,
};

pub(super) static UNPUBLISHED: Row = Row {
    required: &["title", "note"],
    optional: &[&CORE, &["isbn", "howpublished"]],
    author: AuthorMode::AuthorRequired,
    pages: PagesChapterMode::None,
    needs_date: false,
};

pub(super) static MV_BOOK: Row = Row {
    required: &["title"],
    optional: &[
        &BASE,
        &ANNOTATORS,
        &[
            "edition",
            "number",
            "series",
            "volumes",
            "isbn",
            "publisher",
            "pagetotal",
        ],
    ],
    author: AuthorMode::AuthorRequiredEditorOptional,
    pages: PagesChapterMode::BothOptional,
    needs_date: true,
};

pub(super) static PERIODICAL: Row = Row {
    required: &["title"],
    optional: &[
        &BASE,
        &[
            "issue",
            "issuetitle",
            "issuesubtitle",
            "number",
            "series",
            "volume",
            "issn",
        ],
    ],
    author: AuthorMode::EditorRequiredAuthorForbidden,
    pages: PagesChapterMode::None,
    needs_date: true,
};

pub(super) static COLLECTION: Row = Row {
    required: &["title"],
    optional: &[
        &BASE,
        &ANNOTATORS,
        &MAIN_TITLE,
        &[
            "edition",
            "number",
            "series",
            "part",
            "volume",
            "volumes",
            "isbn",
            "publisher",
            "pagetotal",
        ],
    ],
    author: AuthorMode::EditorRequiredAuthorForbidden,
    pages: PagesChapterMode::BothOptional,
    needs_date: true,
};

pub(super) static MV_COLLECTION: Row = Row {
    required: &["title"],
    optional: &[
        &BASE,
        &ANNOTATORS,
        &[
            "edition",
            "number",
            "series",
            "volumes",
            "isbn",
            "publisher",
            "pagetotal",
        ],
    ],
    author: AuthorMode::EditorRequiredAuthorForbidden,
    pages: PagesChapterMode::BothForbidden,
    needs_date: true,
};

pub(super) static MV_PROCEEDINGS: Row = Row {
    required: &["title"],
    optional: &[
        &BASE,
        &[
            "number",
            "series",
            "volumes",
            "publisher",
            "organization",
            "pagetotal",
        ],
    ],
    author: AuthorMode::EditorRequiredAuthorForbidden,
    pages: PagesChapterMode::BothForbidden,
    needs_date: true,
};

pub(super) static REPORT: Row = Row {
    required: &["title", "institution", "type"],
    optional: &[&BASE, &["number", "version", "isrn", "pagetotal"]],
    author: AuthorMode::AuthorRequired,
    pages: PagesChapterMode::BothOptional,
    needs_date: true,
};

pub(super) static PATENT: Row = Row {
    required: &["title", "number"],
    optional: &[&BASE, &["holder", "type"]],
    author: AuthorMode::AuthorRequired,
    pages: PagesChapterMode::None,
    needs_date: true,
};

pub(super) static THESIS: Row = Row {
    required: &["title", "institution", "type"],
    optional: &[&BASE, &["isbn", "pagetotal"]],
    author: AuthorMode::AuthorRequired,
    pages: PagesChapterMode::BothOptional,
    needs_date: true,
};

pub(super) static ONLINE: Row = Row {
    required: &["title", "url"],
    optional: &[&[
        "note",
        "titleaddon",
        "subtitle",
        "urldate",
        "pubstate",
        "language",
        "addendum",
        "organization",
    ]],
    author: AuthorMode::OneRequired,
    pages: PagesChapterMode::None,
    needs_date: true,
};

pub(super) static DATASET: Row = Row {
    required: &["title"],
    optional: &[
        &BASE,
        &[
            "edition",
            "type",
            "series",
            "number",
            "version",
            "organization",
            "publisher",
        ],
    ],
    author: AuthorMode::OneRequired,
    pages: PagesChapterMode::None,
    needs_date: true,
};

pub(super) static SET: Row = Row {
    required: &["entryset"],
    optional: &[],
    author: AuthorMode::NoneRequired,
    pages: PagesChapterMode::None,
    needs_date: false,
};

pub(super) static XDATA: Row = Row {
    required: &[],
    optional: &[],
    author: AuthorMode::NoneRequired,
    pages: PagesChapterMode::None,
    needs_date: false,
};
