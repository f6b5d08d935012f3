//! Fields that other programs write for themselves.

ghost use Rattle.std.specs.Prelude.{◌≡◌};
ghost use Rattle.std.specs.List.{list_any};
ghost use Rattle.bib_tables.specs.Requirements.{texts};
ghost use Rattle.bib_findings.specs.Foreign as spec;

use crate::nearest::is_among;

// Names of such fields, by program: BibNet and TUG's files; MathSciNet and zbMATH; DBLP; JabRef; BibDesk; CiteULike; ACM; ADS and INSPIRE;
// PubMed; other reference managers; Compendex; Web of Science.
static FOREIGN_FIELDS: [&str; 99] = [
    "acknowledgement",
    "bibdate",
    "bibsource",
    "ajournal",
    "coden",
    "fjournal",
    "issn-l",
    "isbn-13",
    "journal-url",
    "lccn",
    "remark",
    "subject",
    "tableofcontents",
    "author-dates",
    "subject-dates",
    "confnote",
    "bookpages",
    "shorttableofcontents",
    "mrclass",
    "mrkey",
    "mrnumber",
    "mrreviewer",
    "msc",
    "zblnumber",
    "biburl",
    "timestamp",
    "citationkey",
    "comment",
    "creationdate",
    "groups",
    "modificationdate",
    "owner",
    "printed",
    "priority",
    "qualityassured",
    "ranking",
    "readstatus",
    "relevance",
    "review",
    "username",
    "date-added",
    "date-modified",
    "local-url",
    "rating",
    "read",
    "posted-at",
    "acmid",
    "issue_date",
    "adsnote",
    "adsurl",
    "reportnumber",
    "slaccitation",
    "pmcid",
    "pmid",
    "chemicals",
    "completed",
    "issn-linking",
    "nlm-id",
    "pubmodel",
    "revised",
    "abstractnote",
    "accessdate",
    "contents",
    "copyright",
    "internal-note",
    "keyword-list",
    "price",
    "rights",
    "source",
    "url-date",
    "classification",
    "classcodes",
    "journalabr",
    "affiliation",
    "affiliationaddress",
    "conference",
    "conferenceyear",
    "editoraddress",
    "editoraffiliation",
    "meetingaddress",
    "meetingdate",
    "meetingdate2",
    "sponsor",
    "publisherinfo",
    "thesaurus",
    "pubcountry",
    "author-email",
    "doc-delivery-number",
    "funding-acknowledgement",
    "funding-text",
    "journal-iso",
    "keywords-plus",
    "number-of-cited-references",
    "orcid-numbers",
    "research-areas",
    "researcherid-numbers",
    "times-cited",
    "unique-id",
    "web-of-science-categories",
];

// The beginnings of other names that such programs use.
static FOREIGN_PREFIXES: [&str; 6] = [
    "bdsk-",
    "citeulike-",
    "jabref-",
    "jstor_",
    "mendeley-",
    "zotero-",
];

// Returns whether a name begins with a text, in any ASCII case.
pub(crate) fn begins_with(prefix: &str, name: &str) -> bool
    ensures { result ≡ spec.begins_in_any_case prefix.now name.now }
{
    match name.as_bytes().get(..prefix.len()) {
        Some(start) => start.eq_ignore_ascii_case(prefix.as_bytes()),
        None => false,
    }
}

// Returns whether a name begins with one of these texts, in any ASCII case.
pub(crate) fn begins_with_any(prefixes: &[&'static str], name: &str) -> bool
    ensures { result ≡ list_any (λ prefix. spec.begins_in_any_case prefix name.now) (texts prefixes.now) }
{
    prefixes.iter().any(|prefix| begins_with(prefix, name))
}

// Returns whether other programs write a field of this name for themselves, in any ASCII case.
pub(crate) fn is_foreign(name: &str) -> bool
    ensures { result ≡ spec.is_foreign name.now }
{
    is_among(&FOREIGN_FIELDS, name) || begins_with_any(&FOREIGN_PREFIXES, name)
}
