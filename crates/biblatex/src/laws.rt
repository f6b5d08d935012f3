//! Laws of parsing, inheriting and writing. The functions do nothing: each states theorems about the definitions, which are proved as the
//! clauses of its contract.

ghost use Rattle.std.specs.Prelude.{◌≡◌, ℕ, Bool, false, List, [], map};
ghost use Rattle.std.specs.Str.{IsUtf8};
ghost use Rattle.bib_chunks.specs.Settled.{IsSettled};
ghost use Rattle.bib_chunks.specs.Styled.{styled};
ghost use Rattle.bib_chunks.specs.Written.{written_chunks};
ghost use Rattle.bib_chunks.specs.declared.chunk.Chunk.{Chunk};
ghost use Rattle.bib_contents.specs.Contents.{IsContent};
ghost use Rattle.bib_entry.specs.declared.entry.Entry.{Entry};
ghost use Rattle.bib_collections.specs.Graph.{Graph, HasNoCycle, HasOneSolution, IsInRange};
ghost use Rattle.bib_inheritance.specs.EntryTexts.{EntryTexts, no_entry};
ghost use Rattle.bib_syntax.specs.Reading.{FileReading};
ghost use Rattle.bib_syntax.specs.declared.raw.ParseError.{ParseError};
ghost use Rattle.bib_syntax.specs.declared.raw.ParseErrorKind.TheVariants.{MalformedCommand};
ghost use Rattle.bib_file_entries.specs.Bibliography.{Bibliography};
ghost use Rattle.bib_syntax.specs.declared.raw.recovery.SkippedBlock.{SkippedBlock};
ghost use Rattle.bib_text.specs.declared.spanned.Spanned.{Spanned};
ghost use Rattle.biblatex.specs.BibliographyRecovery.{IsRecoveredBibliography, IsSameRecovery};
ghost use Rattle.biblatex.specs.Headline.{IsAcceptedText, IsBibliographyOf, IsErrorOf, IsReadAgain, IsSettledBibliography, biblatex_text};
ghost use Rattle.biblatex.specs.Places.{HasFreshKeys, PointsToLastClaims};
ghost use Rattle.bib_inheritance.specs.Resolving.{rule_by, texts_of_entries};
ghost use Rattle.biblatex.specs.Resolved.{AreOneErrorOf, AreOwn, IsAccepted, IsFirstErrorOf, IsLoaded, graph_of};

/// States that the output for a settled bibliography, in BibLaTeX's types and fields, is accepted if it is UTF-8. Its
/// bibliography has the same entries in order, with types and field names mapped to BibLaTeX's and with equal styled texts.
/// If two fields of an entry have the same mapped name, only the last one in the order of their own names remains.
pub fn settled_is_read_again()
    ensures { (bibliography : Bibliography) → IsSettledBibliography bibliography → IsUtf8 (biblatex_text bibliography) →
        IsReadAgain bibliography.entries (biblatex_text bibliography) }
{}

/// States that the inheritance equation has exactly one solution if no entry refers to itself in the graph, directly or through
/// others. This holds for every graph that is in range. The graph of a file's entries is always in range.
pub fn inherits_in_one_way()
    ensures in_range { (own : List Entry) → IsInRange (graph_of own) }
    ensures one { (own : List EntryTexts) (graph : Graph) → IsInRange graph → HasNoCycle graph →
        HasOneSolution no_entry (rule_by own) graph }
{}

/// States that each accepted text has a bibliography, and that each text that has a bibliography is accepted.
pub fn accepted_texts_have_bibliographies()
    ensures has { (text : List ℕ) → IsAcceptedText text →
        (bibliography : Bibliography) × IsBibliographyOf text bibliography }
    ensures accepted { (text : List ℕ) (bibliography : Bibliography) → IsBibliographyOf text bibliography →
        IsAcceptedText text }
{}

/// States that all lists of own entries for one file have the same graph of references.
pub fn one_graph()
    ensures { (says : FileReading) (one other : List Entry) → AreOwn says one → AreOwn says other →
        graph_of one ≡ graph_of other }
{}

/// States that a file that has a bibliography is accepted. Two bibliographies of one file have the same names and keys in
/// order. Their entries have the same types and fields, except for the borders and the spans of chunks.
pub fn one_bibliography()
    ensures accepted { (says : FileReading) (bibliography : Bibliography) → IsLoaded says bibliography → IsAccepted says }
    ensures keys { (says : FileReading) (one other : Bibliography) → IsLoaded says one → IsLoaded says other →
        map (λ e. e.key) one.entries ≡ map (λ e. e.key) other.entries }
    ensures fields { (says : FileReading) (one other : Bibliography) → IsLoaded says one → IsLoaded says other →
        texts_of_entries one.entries ≡ texts_of_entries other.entries }
    ensures names { (says : FileReading) (one other : Bibliography) → IsLoaded says one → IsLoaded says other →
        one.names ≡ other.names }
{}

/// States that in a bibliography loaded from a file, each name points to the last entry that claims it by its key or by its
/// own field `ids`. A name that no entry claims points to no index.
pub fn last_claims()
    ensures { (says : FileReading) (own : List Entry) (bibliography : Bibliography) → AreOwn says own →
        IsLoaded says bibliography → PointsToLastClaims (record { entries = own; names = bibliography.names }) }
{}

/// States that in a list of a file's own entries, no key is a name that an earlier entry claims.
pub fn fresh_keys()
    ensures { (says : FileReading) (own : List Entry) → AreOwn says own → HasFreshKeys own }
{}

/// States that an accepted file has no error. Any other file has at most one first error, with one kind and one span, with two
/// exceptions. For a literal that can't be parsed, only the span is left open. For a date that can't be parsed, the span and
/// the kind of date error are left open.
pub fn one_error()
    ensures none { (says : FileReading) (e : ParseError) → IsAccepted says → IsFirstErrorOf says e → ⊥ }
    ensures one { (says : FileReading) (first second : ParseError) → IsFirstErrorOf says first →
        IsFirstErrorOf says second → AreOneErrorOf first second }
{}

/// States that no text has an error of the kind `MalformedCommand`.
pub fn no_command_is_malformed()
    ensures { (text : List ℕ) (e : ParseError) → IsErrorOf text e → e.kind ≡ MalformedCommand → ⊥ }
{}

/// States that a recovery of a text has no skipped blocks and no errors exactly if the text is accepted. Its bibliography is
/// then a bibliography of the text.
pub fn recovered_is_loaded()
    ensures accepted { (text : List ℕ) (bibliography : Bibliography) (origins : List ℕ) →
        IsRecoveredBibliography text bibliography origins [] [] → IsAcceptedText text }
    ensures loaded { (text : List ℕ) (bibliography : Bibliography) (origins : List ℕ) →
        IsRecoveredBibliography text bibliography origins [] [] → IsBibliographyOf text bibliography }
    ensures none { (text : List ℕ) (bibliography : Bibliography) (origins : List ℕ) (skipped : List SkippedBlock)
        (errors : List ParseError) → IsAcceptedText text →
        IsRecoveredBibliography text bibliography origins skipped errors → (skipped ≡ []) × (errors ≡ []) }
{}

/// States that two recoveries of a text have the same keys, names and origins and, except for the borders and the spans of
/// chunks, the same types and fields. They skip the same blocks and report errors that agree as in `one_error`.
pub fn one_recovered_bibliography()
    ensures same { (text : List ℕ) (one other : Bibliography) (origins indices : List ℕ)
        (skipped passed : List SkippedBlock) (errors others : List ParseError) →
        IsRecoveredBibliography text one origins skipped errors →
        IsRecoveredBibliography text other indices passed others →
        IsSameRecovery one other skipped passed errors others }
    ensures origins { (text : List ℕ) (one other : Bibliography) (origins indices : List ℕ)
        (skipped passed : List SkippedBlock) (errors others : List ParseError) →
        IsRecoveredBibliography text one origins skipped errors →
        IsRecoveredBibliography text other indices passed others → origins ≡ indices }
{}

/// States that settled chunks parse back to the same styled text when they are written between the braces of a value.
pub fn value_reread()
    ensures { (is_verbatim : Bool) (chunks : List (Spanned Chunk)) →
        IsSettled (styled chunks) is_verbatim →
        IsContent is_verbatim (written_chunks is_verbatim false chunks) (styled chunks) }
{}
