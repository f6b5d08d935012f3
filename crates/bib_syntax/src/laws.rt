//! Laws of the file grammar. These functions do nothing. Their clauses are proved from the definitions only.

ghost use Rattle.std.specs.Prelude.{◌≡◌, ◌↔◌, ◌⊎◌, ℕ, List, []};
ghost use Rattle.std.specs.List.{AllByRecursion, Contains};
ghost use Rattle.std.specs.Str.{IsUtf8};
ghost use Rattle.bib_text.specs.Places.{place};
ghost use Rattle.bib_syntax.specs.Errors.{IsSyntaxError};
ghost use Rattle.bib_syntax.specs.Grammar.{IsFile, IsRawReading};
ghost use Rattle.bib_syntax.specs.Reading.{EntryReading, FileReading};
ghost use Rattle.bib_syntax.specs.Recovery.{IsBlockOf, IsKeptPart, IsFullRecovery, IsPassedOver, IsRecovery, LiesInside};
ghost use Rattle.bib_syntax.specs.Slices.{ReadingStandsIn};
ghost use Rattle.bib_syntax.specs.SyntaxErrors.{IsReported};
ghost use Rattle.bib_syntax.specs.declared.raw.ParseError.{ParseError};
ghost use Rattle.bib_syntax.specs.declared.raw.recovery.SkippedBlock.{SkippedBlock};

/// States that a text has at most one raw reading.
pub fn one_reading()
    ensures { (text : List ℕ) (says tells : FileReading) → IsRawReading text says →
        IsRawReading text tells → says ≡ tells }
{}

/// States that the file grammar accepts exactly the texts that have a raw reading. In the file grammar, a run of white space
/// or of characters of a name may end anywhere. In a raw reading, each run is as long as possible.
pub fn same_texts()
    ensures { (text : List ℕ) → IsFile text ↔ ((says : FileReading) × IsRawReading text says) }
{}

/// States that at most one error is reported for a text.
pub fn one_error()
    ensures { (text : List ℕ) (e f : ParseError) → IsReported text e → IsReported text f → e ≡ f }
{}

/// States that the file grammar rejects each text for which an error is reported.
pub fn error_or_reading()
    ensures { (text : List ℕ) (e : ParseError) → IsReported text e → IsFile text → ⊥ }
{}

/// States that the error that is reported for a text is an error of the grammar, and that its span is in the text.
pub fn errors_stand()
    ensures { (text : List ℕ) (e : ParseError) → IsReported text e → IsSyntaxError text e }
{}

/// States that each key, entry type, field name and piece of a raw reading is the text in its span.
pub fn parts_stand()
    ensures { (text : List ℕ) (says : FileReading) → IsRawReading text says →
        ReadingStandsIn text says }
{}

/// States that each UTF-8 text has a raw reading, or an error is reported for it. By `one_reading`, `one_error` and
/// `error_or_reading`, it has exactly one of them.
pub fn has_reading_or_error()
    ensures { (text : List ℕ) → IsUtf8 text →
        ((says : FileReading) × IsRawReading text says) ⊎ ((e : ParseError) × IsReported text e) }
{}

/// States that each UTF-8 text has a recovery, and a full recovery. By `one_recovery`, it has exactly one of each.
pub fn has_recovery()
    ensures recovery { (text : List ℕ) → IsUtf8 text →
        (says : FileReading) × (errors : List SkippedBlock) × IsRecovery text says errors }
    ensures full { (text : List ℕ) → IsUtf8 text →
        (says : FileReading) × (errors : List SkippedBlock) × IsFullRecovery text says errors }
{}

/// States that a recovery or a full recovery skips no block if and only if the text has a raw reading, and that it then has
/// this reading.
pub fn recovered_is_read()
    ensures recovery { (text : List ℕ) (says : FileReading) → IsRawReading text says ↔
        IsRecovery text says [] }
    ensures full { (text : List ℕ) (says : FileReading) → IsRawReading text says ↔
        IsFullRecovery text says [] }
{}

/// States that a text has at most one recovery and one full recovery: one reading and one list of skipped blocks with their
/// errors. Both have the same skipped blocks.
pub fn one_recovery()
    ensures recovery { (text : List ℕ) (says tells : FileReading) (errors others : List SkippedBlock) →
        IsRecovery text says errors → IsRecovery text tells others →
        (says ≡ tells) × (errors ≡ others) }
    ensures full { (text : List ℕ) (says tells : FileReading) (errors others : List SkippedBlock) →
        IsFullRecovery text says errors → IsFullRecovery text tells others →
        (says ≡ tells) × (errors ≡ others) }
    ensures both { (text : List ℕ) (says tells : FileReading) (errors others : List SkippedBlock) →
        IsRecovery text says errors → IsFullRecovery text tells others → errors ≡ others }
{}

/// States that each recovered entry is the raw reading of a block at its start. In a full recovery, it may instead be the kept
/// part of a skipped block.
pub fn recovered_entries_stand()
    ensures recovery { (text : List ℕ) (says : FileReading) (errors : List SkippedBlock) →
        IsRecovery text says errors → AllByRecursion (IsBlockOf text) says.entries }
    ensures full { (text : List ℕ) (says : FileReading) (errors : List SkippedBlock) →
        IsFullRecovery text says errors → AllByRecursion (λ e. IsBlockOf text e ⊎ IsKeptPart text errors e) says.entries }
{}

/// States that a recovery and a full recovery have each entry that is the raw reading of a block at some place, with two
/// exceptions. The place is inside a block or a line comment that recovery parses, or it is inside a skipped block.
pub fn nothing_is_lost()
    ensures recovery { (text : List ℕ) (says : FileReading) (errors : List SkippedBlock) (e : EntryReading) →
        IsRecovery text says errors → IsBlockOf text e → Contains says.entries e ⊎
        LiesInside (place text e.start) ⊎ IsPassedOver errors (place text e.start) }
    ensures full { (text : List ℕ) (says : FileReading) (errors : List SkippedBlock) (e : EntryReading) →
        IsFullRecovery text says errors → IsBlockOf text e → Contains says.entries e ⊎
        LiesInside (place text e.start) ⊎ IsPassedOver errors (place text e.start) }
{}
