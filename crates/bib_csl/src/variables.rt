//! The table of variables of items.
//!
//! It has one row for each variable. `bib_csl` reads it to write items, and `bib_from_csl` reads it to write entries.

ghost use Rattle.std.specs.Prelude.{◌≡◌};
ghost use Rattle.bib_csl.specs.TableRows.{first_variable, variable_row_meaning};
ghost use Rattle.bib_csl.specs.Tables as spec;

/// The form of the value of a variable.
#[derive(Debug, Clone, Copy, PartialEq, Eq)]
pub enum Form {
    /// A text with HTML tags.
    Tagged,
    /// A text with HTML tags. Its field is a list with `and` between the elements.
    Listed,
    /// A number, an identifier or another text. Import parses no HTML tags in it.
    Plain,
    /// Names of people.
    Names,
    /// A date.
    Date,
}

/// The variables of items (CSL 1.0.2, appendix IV).
#[derive(Debug, Clone, Copy, PartialEq, Eq)]
pub enum Variable {
    /// The title.
    Title,
    /// The abbreviated title.
    TitleShort,
    /// The title of the volume, in a work of several volumes.
    VolumeTitle,
    /// The title of the container: the journal or book that contains the work.
    ContainerTitle,
    /// The abbreviated title of the container.
    ContainerTitleShort,
    /// The title of the series.
    CollectionTitle,
    /// The title of the original.
    OriginalTitle,
    /// The name of the event, such as a conference. Most styles have this older name of `EventTitle`.
    Event,
    /// The name of the event, such as a conference.
    EventTitle,
    /// The publisher.
    Publisher,
    /// The place of the publisher.
    PublisherPlace,
    /// The publisher of the original.
    OriginalPublisher,
    /// The place of the publisher of the original.
    OriginalPublisherPlace,
    /// The place of the event.
    EventPlace,
    /// The genre, such as the kind of a thesis or a report.
    Genre,
    /// The volume.
    Volume,
    /// The number of volumes.
    NumberOfVolumes,
    /// The part of a volume.
    PartNumber,
    /// The issue of a journal.
    Issue,
    /// The number of the work itself, such as a report.
    Number,
    /// The number in the series.
    CollectionNumber,
    /// The edition.
    Edition,
    /// The chapter.
    ChapterNumber,
    /// The pages in the container.
    Page,
    /// The number of pages.
    NumberOfPages,
    /// The version.
    Version,
    /// The digital object identifier.
    Doi,
    /// The address (URL).
    Url,
    /// The PubMed number.
    Pmid,
    /// The ISBN.
    Isbn,
    /// The ISSN.
    Issn,
    /// The archive that contains the work.
    Archive,
    /// The place in the archive.
    ArchiveLocation,
    /// The call number in a library.
    CallNumber,
    /// The abstract.
    Abstract,
    /// An annotation of the work.
    Annote,
    /// A note.
    Note,
    /// The publication status.
    Status,
    /// The keywords.
    Keyword,
    /// The language: its tag, if it is known.
    Language,
    /// The authors.
    Author,
    /// The editors.
    Editor,
    /// The compilers.
    Compiler,
    /// The directors.
    Director,
    /// The organizers.
    Organizer,
    /// The translators.
    Translator,
    /// The authors of the container.
    ContainerAuthor,
    /// The chairs of an event or a session.
    Chair,
    /// The editors of the series.
    CollectionEditor,
    /// The composers.
    Composer,
    /// Other contributors.
    Contributor,
    /// The curators of an exhibition.
    Curator,
    /// The managing editors.
    EditorialDirector,
    /// The executive producers.
    ExecutiveProducer,
    /// The guests of a broadcast.
    Guest,
    /// The hosts of a broadcast.
    Host,
    /// The illustrators.
    Illustrator,
    /// The interviewers.
    Interviewer,
    /// The narrators.
    Narrator,
    /// The authors of the original.
    OriginalAuthor,
    /// The performers.
    Performer,
    /// The producers.
    Producer,
    /// The recipients of a letter or another message.
    Recipient,
    /// The authors of the reviewed work.
    ReviewedAuthor,
    /// The writers of the script.
    ScriptWriter,
    /// The creators of a series of broadcasts.
    SeriesCreator,
    /// The date of publication.
    Issued,
    /// The date on which the address was visited.
    Accessed,
    /// The date of the event, for example of a conference.
    EventDate,
    /// The date of publication of the original.
    OriginalDate,
    /// The date on which the work became available online before its publication.
    AvailableDate,
    /// The date on which the work was submitted.
    Submitted,
}

/// A variable: CSL's name, the form of its value, and its field. The field is empty if it depends on the item, or if the variable has none.
type VariableRow = (Variable, &'static str, Form, &'static str);

/// The variables, in the order of the variants.
static VARIABLES: [VariableRow; 72] = [
    (Variable::Title, "title", Form::Tagged, ""),
    (
        Variable::TitleShort,
        "title-short",
        Form::Tagged,
        "shorttitle",
    ),
    (Variable::VolumeTitle, "volume-title", Form::Tagged, ""),
    (
        Variable::ContainerTitle,
        "container-title",
        Form::Tagged,
        "",
    ),
    (
        Variable::ContainerTitleShort,
        "container-title-short",
        Form::Tagged,
        "shortjournal",
    ),
    (
        Variable::CollectionTitle,
        "collection-title",
        Form::Tagged,
        "series",
    ),
    (
        Variable::OriginalTitle,
        "original-title",
        Form::Tagged,
        "origtitle",
    ),
    (Variable::Event, "event", Form::Tagged, "eventtitle"),
    (
        Variable::EventTitle,
        "event-title",
        Form::Tagged,
        "eventtitle",
    ),
    (Variable::Publisher, "publisher", Form::Listed, ""),
    (
        Variable::PublisherPlace,
        "publisher-place",
        Form::Listed,
        "location",
    ),
    (
        Variable::OriginalPublisher,
        "original-publisher",
        Form::Listed,
        "origpublisher",
    ),
    (
        Variable::OriginalPublisherPlace,
        "original-publisher-place",
        Form::Listed,
        "origlocation",
    ),
    (Variable::EventPlace, "event-place", Form::Tagged, "venue"),
    (Variable::Genre, "genre", Form::Tagged, "type"),
    (Variable::Volume, "volume", Form::Plain, "volume"),
    (
        Variable::NumberOfVolumes,
        "number-of-volumes",
        Form::Plain,
        "volumes",
    ),
    (Variable::PartNumber, "part-number", Form::Plain, "part"),
    (Variable::Issue, "issue", Form::Plain, ""),
    (Variable::Number, "number", Form::Plain, ""),
    (
        Variable::CollectionNumber,
        "collection-number",
        Form::Plain,
        "",
    ),
    (Variable::Edition, "edition", Form::Plain, "edition"),
    (
        Variable::ChapterNumber,
        "chapter-number",
        Form::Plain,
        "chapter",
    ),
    (Variable::Page, "page", Form::Plain, "pages"),
    (
        Variable::NumberOfPages,
        "number-of-pages",
        Form::Plain,
        "pagetotal",
    ),
    (Variable::Version, "version", Form::Plain, "version"),
    (Variable::Doi, "DOI", Form::Plain, "doi"),
    (Variable::Url, "URL", Form::Plain, "url"),
    (Variable::Pmid, "PMID", Form::Plain, "eprint"),
    (Variable::Isbn, "ISBN", Form::Plain, "isbn"),
    (Variable::Issn, "ISSN", Form::Plain, "issn"),
    (Variable::Archive, "archive", Form::Plain, "eprinttype"),
    (
        Variable::ArchiveLocation,
        "archive_location",
        Form::Plain,
        "eprint",
    ),
    (Variable::CallNumber, "call-number", Form::Plain, "library"),
    (Variable::Abstract, "abstract", Form::Tagged, "abstract"),
    (Variable::Annote, "annote", Form::Tagged, "annotation"),
    (Variable::Note, "note", Form::Tagged, "note"),
    (Variable::Status, "status", Form::Plain, "pubstate"),
    (Variable::Keyword, "keyword", Form::Plain, "keywords"),
    (Variable::Language, "language", Form::Plain, ""),
    (Variable::Author, "author", Form::Names, "author"),
    (Variable::Editor, "editor", Form::Names, "editor"),
    (Variable::Compiler, "compiler", Form::Names, "editora"),
    (Variable::Director, "director", Form::Names, "editorb"),
    (Variable::Organizer, "organizer", Form::Names, "editorc"),
    (
        Variable::Translator,
        "translator",
        Form::Names,
        "translator",
    ),
    (
        Variable::ContainerAuthor,
        "container-author",
        Form::Names,
        "bookauthor",
    ),
    (Variable::Chair, "chair", Form::Names, ""),
    (
        Variable::CollectionEditor,
        "collection-editor",
        Form::Names,
        "",
    ),
    (Variable::Composer, "composer", Form::Names, ""),
    (Variable::Contributor, "contributor", Form::Names, ""),
    (Variable::Curator, "curator", Form::Names, ""),
    (
        Variable::EditorialDirector,
        "editorial-director",
        Form::Names,
        "",
    ),
    (
        Variable::ExecutiveProducer,
        "executive-producer",
        Form::Names,
        "",
    ),
    (Variable::Guest, "guest", Form::Names, ""),
    (Variable::Host, "host", Form::Names, ""),
    (Variable::Illustrator, "illustrator", Form::Names, ""),
    (Variable::Interviewer, "interviewer", Form::Names, ""),
    (Variable::Narrator, "narrator", Form::Names, ""),
    (Variable::OriginalAuthor, "original-author", Form::Names, ""),
    (Variable::Performer, "performer", Form::Names, ""),
    (Variable::Producer, "producer", Form::Names, ""),
    (Variable::Recipient, "recipient", Form::Names, ""),
    (Variable::ReviewedAuthor, "reviewed-author", Form::Names, ""),
    (Variable::ScriptWriter, "script-writer", Form::Names, ""),
    (Variable::SeriesCreator, "series-creator", Form::Names, ""),
    (Variable::Issued, "issued", Form::Date, "date"),
    (Variable::Accessed, "accessed", Form::Date, "urldate"),
    (Variable::EventDate, "event-date", Form::Date, "eventdate"),
    (
        Variable::OriginalDate,
        "original-date",
        Form::Date,
        "origdate",
    ),
    (Variable::AvailableDate, "available-date", Form::Date, ""),
    (Variable::Submitted, "submitted", Form::Date, ""),
];

impl Variable {
    /// Returns CSL's name of the variable.
    pub fn name(self) -> &'static str
        ensures { result.now ≡ spec.variable_name self }
    {
        let (_, name, _, _) = self.row();
        name
    }

    /// Returns the form of the value.
    pub fn form(self) -> Form
        ensures { result ≡ spec.variable_form self }
    {
        let (_, _, form, _) = self.row();
        *form
    }

    /// Returns the name of the field, or an empty text if the field depends on the item or the variable has none.
    pub fn field(self) -> &'static str
        ensures { result.now ≡ spec.field_in_table self }
    {
        let (_, _, _, field) = self.row();
        field
    }

    // Returns the row of the variable.
    fn row(self) -> &'static VariableRow
        ensures { variable_row_meaning result.now ≡ spec.variable_row self }
    {
        &VARIABLES[self as usize]
    }

    /// Returns the variable with exactly this name, or `None`.
    pub fn from_name(name: &str) -> Option<Self>
        ensures { result ≡ spec.variable_named name.now }
    {
        find_variable(&VARIABLES, name)
    }
}

// Returns the variable of the first row with this name, or `None`.
fn find_variable(rows: &[VariableRow], name: &str) -> Option<Variable>
    ensures { result ≡ first_variable name.now rows.entry.now }
{
    for row in rows {
        if row.1 == name {
            return Some(row.0);
        }
    }
    None
}
