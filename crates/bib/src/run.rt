//! Running a command on an input.

ghost use Rattle.std.specs.Prelude.{◌≡◌, ◌≢◌, ◌==◌, ℕ, ◌-◌, ◌^◌, ◌<◌, if◌then◌else◌, List, [], ◌∷◌, ◌++◌, length, map, codes, IfOk, MatchOption};
ghost use Rattle.std.specs.Io.KnownBytes.{Appends};
ghost use Rattle.std.specs.Str.{IsUtf8};
ghost use Rattle.std.specs.String.{string_bytes};
ghost use Rattle.biblatex.specs.Syntax.{file_of};
ghost use Rattle.biblatex.specs.Syntax.{OutOfMemory};
ghost use Rattle.bib.specs.Answering.{IsParseAnswer};
ghost use Rattle.bib.specs.Output.{IsAnswer, IsAnswered, IsCommand, IsCommandAnswer, IsHandedOver, IsKeysAnswer, IsBibliographyAnswer, IsQuotingLine, Name, ShowsBiblatex, ShowsBibtex, ShowsReports, ShowsSettled, ShowsError, command_name, key_lines};

use crate::reports::reports;
use biblatex::{Bibliography, ParseError, ParseErrorKind, RawBibliography, Sink, Span};
use std::alloc::{AllocError, Global};
use std::mem;

/// The error of reading an input.
#[derive(Debug, Clone, Copy, PartialEq, Eq)]
pub enum SourceError {
    /// Reading the input failed.
    Failed,
    /// Out of memory.
    OutOfMemory,
}

/// An input of bytes.
pub trait InputSource {
    // Whether these may be the remaining bytes.
    ghost gives: { Self → List ℕ → Type 0 };

    // A number that grows with each read that returns `Failed`. It may stop at 2^64 - 1.
    ghost failures: { Self → ℕ };

    /// Reads all remaining bytes.
    fn read_all(&mut self, alloc: Global) -> Result<Vec<u8>, SourceError>
        ensures given { IfOk result (λ bytes. gives self.old bytes.items) }
        ensures failed { result ≡ Err SourceError.Failed → failures self.old < 2 ^ 64 - 1 →
            failures self.old < failures self.new }
        ensures same { result ≢ Err SourceError.Failed → failures self.new ≡ failures self.old };
}

// The output of a command, and the exit status.
#[derive(Drop)]
struct Answer {
    text: String,
    status: u8,
}

/// The commands of the program.
#[derive(Clone, Copy)]
pub enum Command {
    /// Prints the keys of the entries.
    Keys,
    /// Prints the bibliography in BibLaTeX's types and fields.
    Biblatex,
    /// Prints the bibliography in BibTeX's types and fields.
    Bibtex,
    /// Prints the problems of the entries.
    Check,
    /// Prints whether the bibliography is settled.
    Settled,
}

// Returns the command that the only argument names, if there is one.
fn command_of(words: &[String]) -> Option<Command>
    ensures { MatchOption result (IsCommand (map string_bytes words.now) → ⊥)
        (Name (map string_bytes words.now)) }
{
    match words {
        [word] => command_by_name(word.as_str()),
        _ => None,
    }
}

// Returns the command with this name, if there is one.
fn command_by_name(word: &str) -> Option<Command>
    ensures { MatchOption result ((command : Command) → word.now ≡ command_name command → ⊥)
        (λ command. word.now ≡ command_name command) }
{
    match word {
        "keys" => Some(Command::Keys),
        "biblatex" => Some(Command::Biblatex),
        "bibtex" => Some(Command::Bibtex),
        "check" => Some(Command::Check),
        "settled" => Some(Command::Settled),
        _ => None,
    }
}

// Returns the keys of the entries, each on a line of its own.
fn key_lines(alloc: Global, raw: &RawBibliography<'_>) -> Result<String, AllocError>
    ensures { IfOk result (λ text. string_bytes text ≡ key_lines (file_of raw.now)) }
{
    let mut text = String::new(alloc);
    'entries: for entry in &raw.entries {
        text.push_str(entry.v.key.v)?;
        text.push('\n')?;
    }
    Ok(text)
}

// Runs the command `keys` on a text. If this and the commands below succeed, they don't free the parsed data, because the
// program ends after printing.
fn keys(alloc: Global, text: &str) -> Result<Answer, AllocError>
    ensures { IfOk result (λ answer. IsKeysAnswer text.now
        (string_bytes answer.text) answer.status) }
{
    let raw = match RawBibliography::parse(alloc, text) {
        Ok(raw) => raw,
        Err(error) => return error_answer(alloc, &error),
    };
    let text = key_lines(alloc, &raw)?;
    mem::forget(raw);
    Ok(Answer { text, status: 0 })
}

// Parses a text as a bibliography, and returns the output for the error if it can't be parsed.
fn parse_bibliography(alloc: Global, text: &str) -> Result<Result<Bibliography, Answer>, AllocError>
    ensures { IfOk result (IsParseAnswer text.now) }
{
    match Bibliography::parse(alloc, text) {
        Ok(bibliography) => Ok(Ok(bibliography)),
        Err(error) => Ok(Err(error_answer(alloc, &error)?)),
    }
}

// Parses a text as a bibliography, and returns the output for the error if it can't be parsed. Frees the text.
fn bibliography(alloc: Global, text: String) -> Result<Result<Bibliography, Answer>, AllocError>
    ensures text { IsUtf8 (string_bytes text) }
    ensures bibliography { IfOk result (IsParseAnswer (string_bytes text)) }
{
    parse_bibliography(alloc, text.as_str())
}

// Runs the command `biblatex` on a text.
fn biblatex(alloc: Global, text: String) -> Result<Answer, AllocError>
    ensures { IfOk result (λ answer. IsBibliographyAnswer ShowsBiblatex (string_bytes text)
        (string_bytes answer.text) answer.status) }
{
    let bibliography = match bibliography(alloc, text)? {
        Ok(bibliography) => bibliography,
        Err(answer) => return Ok(answer),
    };
    let text = bibliography.to_biblatex_string(alloc)?;
    mem::forget(bibliography);
    Ok(Answer { text, status: 0 })
}

// Runs the command `bibtex` on a text.
fn bibtex(alloc: Global, text: String) -> Result<Answer, AllocError>
    ensures { IfOk result (λ answer. IsBibliographyAnswer ShowsBibtex (string_bytes text)
        (string_bytes answer.text) answer.status) }
{
    let bibliography = match bibliography(alloc, text)? {
        Ok(bibliography) => bibliography,
        Err(answer) => return Ok(answer),
    };
    let text = bibliography.to_bibtex_string(alloc)?;
    mem::forget(bibliography);
    Ok(Answer { text, status: 0 })
}

// Returns the exit status for reports: 4 if there is at least one line, and 0 otherwise.
fn status_of(lines: &str) -> u8
    ensures { result ≡ (if length lines.now == 0 then 0 else 4) }
{
    if lines.is_empty() { 0 } else { 4 }
}

// Runs the command `check` on a text.
fn check(alloc: Global, text: String) -> Result<Answer, AllocError>
    ensures { IfOk result (λ answer. IsBibliographyAnswer ShowsReports (string_bytes text)
        (string_bytes answer.text) answer.status) }
{
    let bibliography = match bibliography(alloc, text)? {
        Ok(bibliography) => bibliography,
        Err(answer) => return Ok(answer),
    };
    let text = reports(alloc, &bibliography)?;
    mem::forget(bibliography);
    Ok(Answer {
        status: status_of(&text),
        text,
    })
}

// Runs the command `settled` on a text.
fn settled_answer(alloc: Global, text: String) -> Result<Answer, AllocError>
    ensures { IfOk result (λ answer. IsBibliographyAnswer ShowsSettled (string_bytes text)
        (string_bytes answer.text) answer.status) }
{
    let bibliography = match bibliography(alloc, text)? {
        Ok(bibliography) => bibliography,
        Err(answer) => return Ok(answer),
    };
    let is_settled = bibliography.is_settled();
    mem::forget(bibliography);
    if is_settled {
        return Ok(Answer {
            text: String::from_str(alloc, "settled\n")?,
            status: 0,
        });
    }
    Ok(Answer {
        text: String::from_str(alloc, "not settled\n")?,
        status: 4,
    })
}

// Runs a command on a text.
fn answer_text(alloc: Global, command: Command, text: String) -> Result<Answer, AllocError>
    ensures { IfOk result (λ answer. IsCommandAnswer command (string_bytes text)
        (string_bytes answer.text) answer.status) }
{
    match command {
        Command::Keys => keys(alloc, text.as_str()),
        Command::Biblatex => biblatex(alloc, text),
        Command::Bibtex => bibtex(alloc, text),
        Command::Check => check(alloc, text),
        Command::Settled => settled_answer(alloc, text),
    }
}

// Runs a command on the bytes of an input.
fn answer_to(alloc: Global, command: Command, bytes: Vec<u8>) -> Result<Answer, AllocError>
    ensures { IfOk result (λ answer. IsCommandAnswer command bytes.items
        (string_bytes answer.text) answer.status) }
{
    match String::from_utf8(bytes) {
        Ok(text) => answer_text(alloc, command, text),
        Err(_) => Ok(Answer {
            text: String::from_str(alloc, "error: input is not UTF-8\n")?,
            status: 1,
        }),
    }
}

// Returns the output for an input with an error.
fn error_answer(alloc: Global, error: &ParseError) -> Result<Answer, AllocError>
    ensures { IfOk result (λ answer. (error.now.kind ≢ OutOfMemory) ×
        ShowsError error.now (string_bytes answer.text) × (answer.status ≡ 1)) }
{
    error.unless_out_of_memory()?;
    let text = match &error.kind {
        ParseErrorKind::UnknownAbbreviation(name) => {
            quoting_line(alloc, "unknown abbreviation ", name.as_str(), &error.span)?
        }
        ParseErrorKind::DuplicateKey(key) => {
            quoting_line(alloc, "duplicate key ", key.as_str(), &error.span)?
        }
        ParseErrorKind::AbbreviationCycle(name) => {
            quoting_line(alloc, "circular abbreviation ", name.as_str(), &error.span)?
        }
        ParseErrorKind::ReferenceCycle(key) => {
            quoting_line(alloc, "circular reference ", key.as_str(), &error.span)?
        }
        _ => format!(in alloc; "error: {error}\n")?,
    };
    Ok(Answer { text, status: 1 })
}

// Returns the line of an error that quotes a name.
fn quoting_line(alloc: Global, words: &str, name: &str, span: &Span) -> Result<String, AllocError>
    ensures { IfOk result (λ text.
        IsQuotingLine (words.now, name.now) span.now (string_bytes text)) }
{
    let quoted = format!(in alloc; "{name:?}")?;
    format!(in alloc;
        "error: {words}{}: {}-{}\n",
        quoted.as_str(),
        span.start,
        span.end
    )
}

// Writes a text to a sink. Returns `status`, or 1 if the sink refused the text.
pub(crate) fn print<K: Sink>(output: &mut K, text: &str, status: u8) -> u8
    ensures printed { K.refusals output.old < 2 ^ 64 - 1 →
        K.refusals output.new ≡ K.refusals output.old →
        Appends (K.taken output.old) (K.taken output.new) text.now × (result ≡ status) }
    ensures refused { K.refusals output.new ≢ K.refusals output.old → result ≡ 1 }
    ensures handed { IsHandedOver K.hands_over text.now status output.old output.new result }
{
    if output.write_str(text) { status } else { 1 }
}

/// Runs the program with the arguments `words`, and returns its exit status.
///
/// The arguments are checked first: `input` is read only if they name a command. The whole output is built before any of it
/// is written, and it is written in one call. If the sink refuses the text, the status is 1, and nothing more is written.
pub fn run<S: InputSource, K: Sink>(
    alloc: Global,
    words: &[String],
    input: &mut S,
    output: &mut K,
) -> u8
    ensures unread { (IsCommand (map string_bytes words.now) → ⊥) → input.new ≡ input.old }
    ensures printed { K.refusals output.old < 2 ^ 64 - 1 →
        K.refusals output.new ≡ K.refusals output.old →
        (text : List ℕ) × Appends (K.taken output.old) (K.taken output.new) text ×
        IsAnswer (map string_bytes words.now) (S.gives input.old)
        (S.failures input.old < 2 ^ 64 - 1 → S.failures input.old < S.failures input.new)
        (S.failures input.new ≡ S.failures input.old) text result }
    ensures refused { K.refusals output.new ≢ K.refusals output.old → result ≡ 1 }
    ensures handed { IsAnswered K.hands_over (IsAnswer (map string_bytes words.now) (S.gives input.old)
        (S.failures input.old < 2 ^ 64 - 1 → S.failures input.old < S.failures input.new)
        (S.failures input.new ≡ S.failures input.old)) output.old output.new result }
{
    let Some(command) = command_of(words) else {
        return print(output, "usage: bib keys|biblatex|bibtex|check|settled\n", 2);
    };
    let bytes = match input.read_all(alloc) {
        Ok(bytes) => bytes,
        Err(SourceError::Failed) => return print(output, "error: input failed\n", 1),
        Err(SourceError::OutOfMemory) => return print(output, "error: out of memory\n", 3),
    };
    match answer_to(alloc, command, bytes) {
        Ok(answer) => print(output, &answer.text, answer.status),
        Err(AllocError) => print(output, "error: out of memory\n", 3),
    }
}
