//! The low-level representation of a bibliography file, before abbreviations are resolved, and the errors of parsing.

ghost use Rattle.std.specs.Prelude.{◌≡◌, ◌≢◌, ◌⊎◌, [], ◌∷◌, ◌++◌, codes, Some, IfOk, IfErr, OnOk, OnErr};
ghost use Rattle.bib_syntax.specs.Characters as characters;
ghost use Rattle.bib_syntax.specs.Errors.{token_text, kind_text, error_text, out_of_memory, Refuses};
ghost use Rattle.bib_syntax.specs.Grammar.{IsFile, IsRawReading};
ghost use Rattle.bib_syntax.specs.Recovery.{IsFullRecovery, IsRecovery};
ghost use Rattle.bib_syntax.specs.SyntaxErrors.{IsReported};
ghost use Rattle.bib_syntax.specs.Views.{file_of};
ghost use Rattle.bib_syntax.specs.declared.raw.ParseErrorKind.TheVariants.{OutOfMemory};

mod closings;
mod entry_reader;
mod failing;
mod failures;
mod fields;
mod file;
mod files;
mod kept;
mod lines;
mod memo;
mod reader;
mod recovery;
mod stretches;
mod words;

use bib_tables::type_error::TypeErrorKind;
use bib_text::scanner::Scanner;
use bib_text::spanned::{Span, Spanned};
use bib_text::text::Text;
pub use entry_reader::EntryReader;
use file::blocks;
pub use file::is_word;
pub use files::JoinedFiles;
pub use lines::RawLine;
use reader::Reader;
use recovery::recover;
pub use recovery::{RawRecovery, SkippedBlock};
use std::alloc::{AllocError, AllocFailed, Global};
use std::error::Error;
use std::fmt;
use std::marker::Model;

/// The pieces of the value of a field or of a definition, joined in the file by `#`.
pub type Field<'s> = Vec<Spanned<RawChunk<'s>>>;

/// The content of a bibliography file before abbreviations are resolved. All texts except the preamble borrow from the file.
#[derive(Debug, Clone, Drop)]
pub struct RawBibliography<'s> {
    /// The preambles with their quotes, joined by ` # `.
    pub preamble: String,
    /// The entries, in the order of the file.
    pub entries: Vec<Spanned<RawEntry<'s>>>,
    /// The definitions of abbreviations, in the order of the file.
    pub abbreviations: Vec<Pair<'s>>,
}

impl<'s> RawBibliography<'s> {
    /// Parses a bibliography file.
    ///
    /// Returns an error if the file grammar rejects `src`, or `OutOfMemory`. An error of the grammar has the kind
    /// `UnexpectedEof`, `Unexpected` or `Expected`, and an empty span in bytes of `src`. It is the one error that `IsReported`
    /// allows for the text.
    pub fn parse(alloc: Global, src: &'s str) -> Result<Self, ParseError>
        ensures read { IfOk result (λ raw. IsRawReading src.now (file_of raw)) }
        ensures accepted { OnOk result (IsFile src.now) }
        ensures refused { IfErr result (λ e. Refuses src.now e (IsFile src.now → ⊥)) }
        ensures reported { IfErr result (λ e. (e ≡ out_of_memory) ⊎ IsReported src.now e) }
    {
        BiblatexParser::new(src).parse(alloc)
    }

    /// Parses the blocks of a bibliography file, and skips those that can't be parsed. Keeps the error of a skipped block, and
    /// continues at the next at sign with only white space before it on its line, if any. Skips no block if and only if the file
    /// grammar accepts `src`. Returns an error only if out of memory.
    pub fn recover(alloc: Global, src: &'s str) -> Result<RawRecovery<'s>, AllocError>
        ensures { IfOk result (λ found. IsRecovery src.now (file_of found.raw) found.skipped.items) }
    {
        recover(alloc, src, 0, false)
    }

    /// Parses a file as `recover` does, and also keeps the complete parts of the skipped blocks. These are the key and the fields
    /// of an entry, and the definitions of abbreviations. Keeps each field before the first one that isn't complete, or before a
    /// missing comma. The span of a kept entry begins with its skipped block. Returns an error only if out of memory.
    pub fn recover_parts(alloc: Global, src: &'s str) -> Result<RawRecovery<'s>, AllocError>
        ensures { IfOk result (λ found. IsFullRecovery src.now (file_of found.raw) found.skipped.items) }
    {
        recover(alloc, src, 0, true)
    }
}

/// A parser for a bibliography file, at the start of its text.
#[derive(Drop)]
pub struct BiblatexParser<'s> {
    scanner: Scanner<'s>,
}

impl<'s> Model for BiblatexParser<'s> {
    ghost use Rattle.std.specs.Prelude.{◌≡◌, List, ℕ};

    ghost Value = { List ℕ };

    ghost view = { λ p. p.scanner.text };

    ghost invariant = { λ p. p.scanner.at ≡ 0 };
}

impl<'s> BiblatexParser<'s> {
    /// Returns a parser for `src`.
    pub fn new(src: &'s str) -> Self
        ensures { result ≡ src.now }
    {
        BiblatexParser {
            scanner: Scanner::new(src),
        }
    }

    /// Parses the text like `RawBibliography::parse`, with the same errors.
    pub fn parse(self, alloc: Global) -> Result<RawBibliography<'s>, ParseError>
        ensures read { IfOk result (λ raw. IsRawReading self.entry (file_of raw)) }
        ensures accepted { OnOk result (IsFile self.entry) }
        ensures refused { IfErr result (λ e. Refuses self.entry e (IsFile self.entry → ⊥)) }
        ensures reported { IfErr result (λ e. (e ≡ out_of_memory) ⊎ IsReported self.entry e) }
    {
        Ok(blocks(&mut Reader::new(self.scanner), alloc)?)
    }
}

/// An entry before abbreviations are resolved.
#[derive(Debug, Clone, Drop)]
pub struct RawEntry<'s> {
    /// The citation key, possibly empty.
    pub key: Spanned<&'s str>,
    /// The entry type as it is spelled in the file, such as `article`.
    pub kind: Spanned<&'s str>,
    /// The fields with their values, in the order of the file.
    pub fields: Vec<Pair<'s>>,
}

/// A piece of a value.
#[derive(Debug, Clone, PartialEq, Eq, Drop)]
pub enum RawChunk<'s> {
    /// A number, or the text between braces or quotes.
    Normal(&'s str),
    /// The name of an abbreviation.
    Abbreviation(&'s str),
}

/// A name and its value: a field, or the definition of an abbreviation.
#[derive(Debug, Clone, Drop)]
pub struct Pair<'s> {
    /// The name.
    pub key: Spanned<&'s str>,
    /// The value. Its span includes the white space after it.
    pub value: Spanned<Field<'s>>,
}

impl<'s> Pair<'s> {
    /// Returns the pair of a name and its value.
    pub fn new(key: Spanned<&'s str>, value: Spanned<Field<'s>>) -> Self
        ensures { result ≡ record { key = key.entry; value = value.entry } }
    {
        Pair { key, value }
    }
}

/// Why parsing failed, and where.
#[derive(Debug, Clone, PartialEq, Eq, Drop)]
pub struct ParseError {
    /// The span of the text that is in error, in bytes; `0..0` for the kind `OutOfMemory`.
    pub span: Span,
    /// The reason.
    pub kind: ParseErrorKind,
}

/// Why parsing failed.
#[derive(Debug, PartialEq, Eq, Drop)]
#[non_exhaustive]
pub enum ParseErrorKind {
    /// The text ended too soon, or a value has no piece where one must occur.
    UnexpectedEof,
    /// A token occurs where it isn't allowed.
    Unexpected(Token),
    /// An expected token is missing.
    Expected(Token),
    /// An abbreviation isn't defined, and isn't the first three letters of an English month in any ASCII case. The text is its name.
    UnknownAbbreviation(Text),
    /// A command is malformed. Never returned; kept so that all names of the Rust crate `biblatex` exist.
    MalformedCommand,
    /// The key of an entry is the key of an earlier loaded entry, or one of the names in the field `ids` of one. The text is
    /// the key.
    DuplicateKey(Text),
    /// A date that an entry could inherit can't be parsed, for this reason.
    ResolutionError(TypeErrorKind),
    /// An abbreviation occurs in its own expansion. The text is its name.
    AbbreviationCycle(Text),
    /// An entry refers to itself by `crossref` or `xdata`, directly or through other entries. The text is its key.
    ReferenceCycle(Text),
    /// Out of memory.
    OutOfMemory,
}

impl Clone for ParseErrorKind {
    ghost is_clone = { λ kind copy. copy ≡ kind };

    fn clone(&self) -> Result<Self, AllocError> {
        Ok(match self {
            ParseErrorKind::UnexpectedEof => ParseErrorKind::UnexpectedEof,
            ParseErrorKind::Unexpected(token) => ParseErrorKind::Unexpected(*token),
            ParseErrorKind::Expected(token) => ParseErrorKind::Expected(*token),
            ParseErrorKind::UnknownAbbreviation(name) => {
                ParseErrorKind::UnknownAbbreviation(name.clone()?)
            }
            ParseErrorKind::MalformedCommand => ParseErrorKind::MalformedCommand,
            ParseErrorKind::DuplicateKey(key) => ParseErrorKind::DuplicateKey(key.clone()?),
            ParseErrorKind::ResolutionError(kind) => ParseErrorKind::ResolutionError(*kind),
            ParseErrorKind::AbbreviationCycle(name) => {
                ParseErrorKind::AbbreviationCycle(name.clone()?)
            }
            ParseErrorKind::ReferenceCycle(key) => ParseErrorKind::ReferenceCycle(key.clone()?),
            ParseErrorKind::OutOfMemory => ParseErrorKind::OutOfMemory,
        })
    }
}

/// A token of a bibliography file.
#[derive(Debug, Clone, Copy, PartialEq, Eq)]
pub enum Token {
    /// The name of a field or an abbreviation, or the name of a block, such as an entry type.
    Identifier,
    /// `{`
    OpeningBrace,
    /// `}`
    ClosingBrace,
    /// `,`
    Comma,
    /// `"`
    QuotationMark,
    /// `=`
    Equals,
    /// `.`
    DecimalPoint,
}

impl fmt::Display for Token {
    ghost output = { λ token. Some (token_text token) };

    fn fmt<W: fmt::Write>(&self, f: &mut fmt::Formatter<W>) -> fmt::Result {
        f.write_str(match self {
            Token::Identifier => "identifier",
            Token::OpeningBrace => "opening brace",
            Token::ClosingBrace => "closing brace",
            Token::Comma => "comma",
            Token::QuotationMark => "double quote",
            Token::Equals => "equals",
            Token::DecimalPoint => "decimal point",
        })
    }
}

impl fmt::Display for ParseErrorKind {
    ghost output = { λ kind. kind_text kind };

    fn fmt<W: fmt::Write>(&self, f: &mut fmt::Formatter<W>) -> fmt::Result {
        match self {
            ParseErrorKind::UnexpectedEof => f.write_str("unexpected end of file"),
            ParseErrorKind::Unexpected(token) => write!(f, "unexpected {token}"),
            ParseErrorKind::Expected(token) => write!(f, "expected {token}"),
            ParseErrorKind::UnknownAbbreviation(name) => {
                write!(f, "unknown abbreviation {:?}", name.as_str())
            }
            ParseErrorKind::MalformedCommand => f.write_str("malformed command"),
            ParseErrorKind::DuplicateKey(key) => write!(f, "duplicate key {:?}", key.as_str()),
            ParseErrorKind::ResolutionError(kind) => {
                write!(f, "type error occurred during crossref resolution: {kind}")
            }
            ParseErrorKind::AbbreviationCycle(name) => {
                write!(f, "circular abbreviation {:?}", name.as_str())
            }
            ParseErrorKind::ReferenceCycle(key) => {
                write!(f, "circular reference {:?}", key.as_str())
            }
            ParseErrorKind::OutOfMemory => f.write_str("out of memory"),
        }
    }
}

impl fmt::Display for ParseError {
    ghost output = { λ error. error_text error };

    fn fmt<W: fmt::Write>(&self, f: &mut fmt::Formatter<W>) -> fmt::Result {
        write!(f, "{}: {}-{}", self.kind, self.span.start, self.span.end)
    }
}

impl Error for ParseError {}

impl ParseError {
    /// Returns an `AllocError` if this error is `OutOfMemory`, and `Ok` if it is an error of the text.
    pub fn unless_out_of_memory(&self) -> Result<(), AllocError>
        ensures ok { OnOk result (self.now.kind ≢ OutOfMemory) }
        ensures err { OnErr result (self.now.kind ≡ OutOfMemory) }
    {
        match self.kind {
            ParseErrorKind::OutOfMemory => Err(AllocError),
            _ => Ok(()),
        }
    }
}

impl From<AllocError> for ParseError {
    ghost from_gives = { λ _ error. error ≡ out_of_memory };

    fn from(_error: AllocError) -> ParseError {
        ParseError {
            span: 0..0,
            kind: ParseErrorKind::OutOfMemory,
        }
    }
}

impl<T: Drop> From<AllocFailed<T>> for ParseError {
    ghost from_gives = { λ _ error. error ≡ out_of_memory };

    fn from(failed: AllocFailed<T>) -> ParseError {
        ParseError::from(AllocError::from(failed))
    }
}

/// Returns whether `c` is allowed in the key of an entry.
pub fn is_key(c: char) -> bool
    ensures { result ≡ characters.is_key c }
{
    if c.is_ascii_alphanumeric() {
        return true;
    }
    !matches!(c, ',' | '}') && !c.is_control() && !c.is_whitespace()
}

/// Returns whether `c` is allowed as the first character of an identifier.
pub fn is_id_start(c: char) -> bool
    ensures { result ≡ characters.is_id_start c }
{
    if c.is_ascii_lowercase() {
        return true;
    }
    !matches!(c, ':' | '<' | '-' | '>') && is_id_continue(c)
}

/// Returns whether `c` is allowed in an identifier after the first character.
pub fn is_id_continue(c: char) -> bool
    ensures { result ≡ characters.is_id_continue c }
{
    if c.is_ascii_lowercase() {
        return true;
    }
    !matches!(
        c,
        '@' | '{' | '}' | '"' | '#' | '\'' | '(' | ')' | ',' | '=' | '%' | '\\' | '~'
    ) && !c.is_control()
        && !c.is_whitespace()
}
