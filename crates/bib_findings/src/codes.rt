//! Codes of findings, each with a severity and an explanation.

ghost use Rattle.std.specs.Prelude.{◌≡◌, bytes_eq, find};
ghost use Rattle.bib_findings.specs.Codes.{all_codes, code_name, code_named, severity_of, severity_name};

/// The severity of a finding.
#[derive(Debug, Clone, Copy, PartialEq, Eq)]
pub enum Severity {
    /// The file isn't UTF-8, a block is skipped, an entry or a field is removed, or a cited entry is missing.
    Error,
    /// Something may be wrong.
    Warning,
    /// Nothing is wrong for BibLaTeX, and BibTeX skips no field.
    Info,
}

impl Severity {
    /// Returns the word that is printed for it.
    pub fn name(self) -> &'static str
        ensures { result.now ≡ severity_name self }
    {
        match self {
            Self::Error => "error",
            Self::Warning => "warning",
            Self::Info => "info",
        }
    }
}

/// The code of a finding: the problem that it reports.
#[derive(Debug, Clone, Copy, PartialEq, Eq)]
pub enum Code {
    /// The first byte that isn't UTF-8; the whole file was decoded as Windows-1252.
    UnreadBytes,
    /// An escape sequence by which ISO 2022 selects characters of several bytes. The characters after it aren't decoded.
    EscapeSequence,
    /// A block that can't be parsed. It is skipped; only its complete parts are kept.
    Syntax,
    /// A field whose value can't be parsed. It is removed.
    UnreadField,
    /// A name that is neither defined nor a month (`jan` to `dec`). It is parsed as text.
    UnknownAbbreviation,
    /// An abbreviation whose definition uses itself, directly or through others. Fields that use it are removed.
    CircularAbbreviation,
    /// An entry whose key belongs to an earlier kept entry, as its key or in its field `ids`. The later entry is removed.
    DuplicateKey,
    /// An entry that refers to itself by `crossref` or `xdata`, directly or through others. It loses both fields.
    CircularReference,
    /// A year, month and day that an entry would inherit, but that can't be parsed as a date.
    UnreadDate,
    /// An entry type that BibLaTeX doesn't know.
    UnknownType,
    /// A field that the entry's type requires, and that the entry lacks or has without a value.
    MissingField,
    /// A field that an entry of this type must not have.
    SuperfluousField,
    /// A field that can't be parsed as a value of its type.
    MalformedField,
    /// Pages or a volume that aren't numbers. BibLaTeX prints them as they are.
    NotANumber,
    /// A field that should be a date and can't be parsed as one.
    MalformedDate,
    /// A field whose name is neither one of BibLaTeX's nor known as one of another program.
    UnknownField,
    /// A field that another program writes for itself.
    ForeignField,
    /// A field whose name an earlier field of the entry has, in any ASCII case.
    RepeatedField,
    /// A field whose value is empty or only white space, and that isn't reported as missing.
    EmptyField,
    /// A field with a wrong ISBN.
    WrongIsbn,
    /// A field with a wrong ISSN.
    WrongIssn,
    /// A DOI that begins with an address or a scheme.
    DoiAddress,
    /// A URL without a scheme.
    UrlScheme,
    /// A field with a name of a person that Biber or BibTeX can't read as it is meant.
    MalformedName,
    /// A printed field with a character that is special to LaTeX, outside braces and math, that no backslash escapes.
    SpecialCharacter,
    /// A printed field with a known HTML or XML tag or character reference outside math, such as `<i>` or `&amp;`.
    Html,
    /// A date with another year than the field `year` has.
    TwoYears,
    /// An entry with an empty key.
    EmptyKey,
    /// Text after an entry that reads as a field.
    StrayField,
    /// A comment in an entry. BibTeX skips the rest of the entry.
    CommentInEntry,
    /// A text in quotes whose braces aren't balanced. BibTeX and Biber may end it elsewhere.
    UnbalancedQuote,
    /// A key that an entry refers to and no kept entry has, as its key or in its field `ids`.
    UnknownReference,
    /// An entry that is likely the same work as an earlier one.
    LikelyDuplicate,
    /// An entry whose key equals that of an earlier one except for ASCII case.
    KeyCase,
    /// An entry whose `crossref` names an earlier entry.
    EarlyParent,
    /// An abbreviation that `@string` defines again with another value.
    RepeatedDefinition,
    /// An abbreviation that `@string` defines, and that no field of an entry and no definition of another abbreviation uses.
    UnusedDefinition,
    /// A key that a document cites and no entry of the files has, as its key or in its field `ids`.
    MissingEntry,
    /// An entry that isn't cited by the document with which the files are compared.
    UnusedEntry,
}

// The codes in the order of their listing. First come findings of a file's bytes, of parsing and of inheriting, then those about an entry's
// type, fields and key. Then come those about text after entries, text that BibTeX or Biber reads otherwise, references, duplicates, the
// case of keys, the order of entries and abbreviations, and last those about documents.
static CODES: [Code; 39] = [
    Code::UnreadBytes,
    Code::EscapeSequence,
    Code::Syntax,
    Code::UnreadField,
    Code::UnknownAbbreviation,
    Code::CircularAbbreviation,
    Code::DuplicateKey,
    Code::CircularReference,
    Code::UnreadDate,
    Code::UnknownType,
    Code::MissingField,
    Code::SuperfluousField,
    Code::MalformedField,
    Code::NotANumber,
    Code::MalformedDate,
    Code::UnknownField,
    Code::ForeignField,
    Code::RepeatedField,
    Code::EmptyField,
    Code::WrongIsbn,
    Code::WrongIssn,
    Code::DoiAddress,
    Code::UrlScheme,
    Code::MalformedName,
    Code::SpecialCharacter,
    Code::Html,
    Code::TwoYears,
    Code::EmptyKey,
    Code::StrayField,
    Code::CommentInEntry,
    Code::UnbalancedQuote,
    Code::UnknownReference,
    Code::LikelyDuplicate,
    Code::KeyCase,
    Code::EarlyParent,
    Code::RepeatedDefinition,
    Code::UnusedDefinition,
    Code::MissingEntry,
    Code::UnusedEntry,
];

impl Code {
    /// Returns all codes, each once, in the order in which they are listed.
    pub fn all() -> &'static [Self]
        ensures { result.now ≡ all_codes }
    {
        &CODES
    }

    /// Returns its name in output and in options: lowercase words, separated by hyphens.
    pub fn name(self) -> &'static str
        ensures { result.now ≡ code_name self }
    {
        match self {
            Self::UnreadBytes => "unread-bytes",
            Self::EscapeSequence => "escape-sequence",
            Self::Syntax => "syntax",
            Self::UnreadField => "unread-field",
            Self::UnknownAbbreviation => "unknown-abbreviation",
            Self::CircularAbbreviation => "circular-abbreviation",
            Self::DuplicateKey => "duplicate-key",
            Self::CircularReference => "circular-reference",
            Self::UnreadDate => "unread-date",
            Self::UnknownType => "unknown-type",
            Self::MissingField => "missing-field",
            Self::SuperfluousField => "superfluous-field",
            Self::MalformedField => "malformed-field",
            Self::NotANumber => "not-a-number",
            Self::MalformedDate => "malformed-date",
            Self::UnknownField => "unknown-field",
            Self::ForeignField => "foreign-field",
            Self::RepeatedField => "repeated-field",
            Self::EmptyField => "empty-field",
            Self::WrongIsbn => "wrong-isbn",
            Self::WrongIssn => "wrong-issn",
            Self::DoiAddress => "doi-address",
            Self::UrlScheme => "url-scheme",
            Self::MalformedName => "malformed-name",
            Self::SpecialCharacter => "special-character",
            Self::Html => "html",
            Self::TwoYears => "two-years",
            Self::EmptyKey => "empty-key",
            Self::StrayField => "stray-field",
            Self::CommentInEntry => "comment-in-entry",
            Self::UnbalancedQuote => "unbalanced-quote",
            Self::UnknownReference => "unknown-reference",
            Self::LikelyDuplicate => "likely-duplicate",
            Self::KeyCase => "key-case",
            Self::EarlyParent => "early-parent",
            Self::RepeatedDefinition => "repeated-definition",
            Self::UnusedDefinition => "unused-definition",
            Self::MissingEntry => "missing-entry",
            Self::UnusedEntry => "unused-entry",
        }
    }

    /// Returns the code with this name, if there is one.
    pub fn from_name(name: &str) -> Option<Self>
        ensures { result ≡ code_named name.now }
    {
        first_named(&CODES, name)
    }

    /// Returns its severity: an error if the file isn't UTF-8, a block is skipped, an entry or a field is removed, or a cited entry is
    /// missing; information if nothing is wrong for BibLaTeX and BibTeX skips no field; a warning otherwise.
    pub fn severity(self) -> Severity
        ensures { result ≡ severity_of self }
    {
        match self {
            Self::UnreadBytes
            | Self::Syntax
            | Self::UnreadField
            | Self::CircularAbbreviation
            | Self::DuplicateKey
            | Self::CircularReference
            | Self::MissingEntry => Severity::Error,
            Self::NotANumber
            | Self::ForeignField
            | Self::EmptyField
            | Self::EarlyParent
            | Self::UnusedDefinition => Severity::Info,
            Self::EscapeSequence
            | Self::UnknownAbbreviation
            | Self::UnreadDate
            | Self::UnknownType
            | Self::MissingField
            | Self::SuperfluousField
            | Self::MalformedField
            | Self::MalformedDate
            | Self::UnknownField
            | Self::RepeatedField
            | Self::WrongIsbn
            | Self::WrongIssn
            | Self::DoiAddress
            | Self::UrlScheme
            | Self::MalformedName
            | Self::SpecialCharacter
            | Self::Html
            | Self::TwoYears
            | Self::EmptyKey
            | Self::StrayField
            | Self::CommentInEntry
            | Self::UnbalancedQuote
            | Self::UnknownReference
            | Self::LikelyDuplicate
            | Self::KeyCase
            | Self::RepeatedDefinition
            | Self::UnusedEntry => Severity::Warning,
        }
    }

    /// Returns an explanation: the meaning of the code, and advice.
    pub fn explanation(self) -> &'static str {
        match self {
            Self::UnreadBytes =>
                "From this byte on the file isn't UTF-8, so all of it was decoded as Windows-1252. The message says so if the file is unlikely to be in that encoding. Save the file as UTF-8.",
            Self::EscapeSequence =>
                "The file contains ESC and a dollar sign, which begin an escape sequence of ISO 2022, as in ISO-2022-JP, ISO-2022-KR and ISO-2022-CN. The bytes after it stand for other characters than those that this program reads, so other findings may follow from them. Convert the file to UTF-8, for example with `iconv -f ISO-2022-JP -t UTF-8`. Only the first sequence of a file is reported.",
            Self::Syntax =>
                "A block can't be parsed as an entry, a preamble, abbreviations or a comment. It is skipped, up to the next at sign that begins a line; only its complete parts are kept. Most often a comma, a brace or a quote is missing at the reported position, or before it. The message names some forms that BibTeX or Biber reads.",
            Self::UnreadField =>
                "The text of a field can't be parsed: a closing brace has no opening one, math has one dollar sign, or a command's argument has no closing brace. The field is removed. Add what is missing, or write \\$ for a dollar sign.",
            Self::UnknownAbbreviation =>
                "A name has no braces or quotes around it, and is neither defined by @string nor a month (jan to dec). It is parsed as text. BibTeX and Biber put nothing in its place, or the text of a definition before it whose name differs only in case. The message names this definition if it is the last one. Write it in braces or in the case of its definition, or define it. If a style defines it, list it in the table `own` of bibkit.toml.",
            Self::CircularAbbreviation =>
                "The definition of an abbreviation refers to the abbreviation itself, directly or through others. Fields that use it are removed. Write the text itself in one of the definitions.",
            Self::DuplicateKey =>
                "An earlier entry has this key, or has it in its field `ids`; an entry that is itself left out doesn't count. This entry is left out. Give it another key, remove the key from `ids`, or remove one of the two entries.",
            Self::CircularReference =>
                "The entry refers to itself by `crossref` or `xdata`, directly or through other entries. It loses these fields, so it inherits nothing. Remove one of the references on this cycle.",
            Self::UnreadDate =>
                "An entry would inherit a year, month and day that can't be parsed, so it doesn't inherit them. Write the date as YYYY-MM-DD, YYYY-MM or YYYY in the entry that it refers to.",
            Self::UnknownType =>
                "BibLaTeX doesn't know this entry type. It treats the entry as `misc`. Correct the type. If a known one is nearly the same, the message names it. A type of a style of your own is also unknown; list it in the table `own` of bibkit.toml. Without a suggestion, there is one finding for each type in a file.",
            Self::MissingField =>
                "BibLaTeX's data model requires this field of an entry of this type. The entry neither has nor inherits it, or has it without a value.",
            Self::SuperfluousField =>
                "An entry of this type must not have this field. Remove it, or change the type of the entry.",
            Self::MalformedField =>
                "The field isn't the number, range, date or word that it should be. The text after the colon says what is wrong.",
            Self::NotANumber =>
                "The pages aren't ranges of numbers, or the volume isn't a number. BibLaTeX prints the text as it is, and pages without `p.` or `pp.` before them. With --validate-datamodel, Biber leaves out the volume. Pages that are one text aren't reported if they begin with an ASCII letter, or with a digit of any script. A volume with a usual label such as `B` or `75/76` isn't reported.",
            Self::MalformedDate =>
                "The field isn't a date, so Biber ignores it. Write it as YYYY-MM-DD, YYYY-MM or YYYY, or as two of these with a slash between them.",
            Self::UnknownField =>
                "BibLaTeX's data model has no field of this name, so BibLaTeX ignores it. If a known name is nearly the same, the message names it. If a style or a program of your own uses the field, list it in the table `own` of bibkit.toml. Without a suggestion, there is one finding for each name in a file, and none in entries of unknown types.",
            Self::ForeignField =>
                "Another program writes this field for itself, for example a reference manager or a database. BibLaTeX ignores it. One finding for each name in a file counts the fields with it.",
            Self::RepeatedField =>
                "An earlier field of the entry has the same name. BibTeX keeps the value of the first field, Biber and this program that of the last one. Remove one of the two.",
            Self::EmptyField =>
                "The value of the field is empty or only white space. If the entry has `crossref` or `xdata`, Biber inherits a value for the field, but BibTeX and this program don't. If the field is a date, Biber takes the field `year` instead, but this program doesn't. Other empty fields aren't reported. Remove the field, or add its value.",
            Self::WrongIsbn =>
                "A number in the field isn't an ISBN: its length or its last digit, which checks the others, is wrong. Copy the number again from the book.",
            Self::WrongIssn =>
                "A number in the field isn't an ISSN: its length or its last digit, which checks the others, is wrong. Copy the number again from the journal.",
            Self::DoiAddress =>
                "The DOI begins with an address or with `doi:`. BibLaTeX puts `https://doi.org/` before the field, so the link is wrong. Keep only the DOI itself, which begins with `10.`.",
            Self::UrlScheme =>
                "The field `url` doesn't begin with a scheme such as `https:`, so BibLaTeX makes a link that viewers take for the name of a file. Write the whole address. A text with white space in it, a backslash or a brace isn't tested.",
            Self::MalformedName =>
                "A name in this list of people is empty, has more than two commas, begins or ends with a comma, or contains a semicolon or `et al.`. Biber skips an entry with nothing between two of the words `and` or with more than two commas in a name. Separate names by ` and `, write `and others` at the end, and put the name of an organization in braces.",
            Self::SpecialCharacter =>
                "LaTeX reads the character `&`, `%`, `#`, `_` or `^` as a command, and stops or leaves out the rest of the line. Write a backslash before it, `\\textasciicircum{}` for `^`, or put math between dollar signs. Characters in braces, in math and in verbatim fields such as `url` aren't reported.",
            Self::Html =>
                "The field contains an HTML or XML tag such as `<i>`, or a character reference such as `&amp;`, as exports of publishers and of Crossref do. LaTeX prints a tag as text, and stops at the `&` of a reference. Write a command such as `\\emph` or `\\textsubscript` for the tag, and the character itself for the reference. Only the first tag or reference of a field is reported. Math isn't tested.",
            Self::TwoYears =>
                "The field `date` begins with another year than the field `year` has. Biber takes the year of `date`, and BibTeX that of `year`. Remove one of the two.",
            Self::EmptyKey =>
                "The entry has no key, so no document can cite it. Biber skips it. Write a key and a comma after the opening brace.",
            Self::StrayField =>
                "The text after the closing brace of an entry reads as a field. BibTeX and Biber ignore it, so the field is lost. Most often a value before this brace has a closing brace too many.",
            Self::CommentInEntry =>
                "A percent sign after a comma or after a value begins a comment. Biber and this program read on after its line. BibTeX has no comments in entries: it reports an error at the percent sign, and skips the rest of the entry, with its later fields. Move the comment before the entry, where BibTeX ignores it unless it contains an at sign. To leave out a field, remove it, or change its name to one that no style prints. Only the first comment of an entry is reported.",
            Self::UnbalancedQuote =>
                "A text in quotes has an opening brace that isn't closed, or a closing brace that has no opening one. This program ends the text at the first quote without a backslash before it. BibTeX and Biber end it at the first quote outside of braces, so they may read other fields than this program. At a closing brace without an opening one they report an error, and BibTeX skips the rest of the entry. A brace after a backslash counts, too. Write the whole text in braces instead of quotes, with as many closing braces as opening ones. Only the first such text of a field is reported.",
            Self::UnknownReference =>
                "The field `crossref`, `xdata`, `xref`, `related` or `entryset` names a key that no entry has as its key or in `ids`. An entry with the code `duplicate-key` doesn't count, because it is left out. Nothing is inherited through this reference. Correct the key, or add the entry.",
            Self::LikelyDuplicate =>
                "An earlier entry has the same DOI, the same ISBN of a whole book, or the same title, people and year, and no volume, number, pages, chapter, part, edition or subtitle differs. A DOI counts if it begins with `10.`, and an ISBN if its check digit is right. After `and others`, only the first person counts. A whole book and a part of a book aren't compared, and parts with different titles are different works. Keep one of the two, and name the key of the other in its field `ids`.",
            Self::KeyCase =>
                "The key equals the key of an earlier entry except for case. BibTeX reports a repeated entry and skips this one. Biber keeps both and warns of a typing error. Give one of them another key.",
            Self::EarlyParent =>
                "The field `crossref` names an earlier entry, and both types are types of BibTeX's standard styles. If the document doesn't cite this parent itself, BibTeX reports a bad cross reference, and the entry inherits nothing. Biber inherits as usual. `fmt --sort` puts children before their parents.",
            Self::RepeatedDefinition =>
                "An earlier `@string` defines the same abbreviation, in any case, with another value. BibTeX and Biber use the last definition before an entry, so the entries between the two have the earlier value. For all entries, this program uses the last definition whose name is written as in the entry. Remove one of the two definitions, or rename one of them.",
            Self::UnusedDefinition =>
                "No field of an entry and no definition of another abbreviation uses this one, in any case. Remove the definition if it isn't needed. A file without entries and a file with a skipped block aren't tested. If several files are read as one database, no definition is tested.",
            Self::MissingEntry =>
                "A document cites a key that no entry of the files has as its key or in its field `ids`. Correct the key, or add the entry.",
            Self::UnusedEntry =>
                "No document cites this entry. Remove it if it isn't needed, or cite it.",
        }
    }
}

// Returns the first of these codes that has this name.
fn first_named(codes: &[Code], name: &str) -> Option<Code>
    ensures { result ≡ find (λ code. bytes_eq (code_name code) name.now) codes.now }
{
    codes.iter().copied().find(|code| code.name() == name)
}
