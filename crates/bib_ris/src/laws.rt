//! A law of records. The function has no code: its clause is a theorem about definitions.

ghost use Rattle.std.specs.Prelude.{◌≡◌, ℕ, List, false, encode_utf8_all};
ghost use Rattle.std.specs.List.{list_any};
ghost use Rattle.bib_chunks.specs.Formatted.{is_break};
ghost use Rattle.bib_ris.specs.Lines.{one_line};

/// States that the text of a line contains neither a line feed nor a carriage return.
pub fn values_stand_on_one_line()
    ensures { (text : List ℕ) →
        (characters : List ℕ) × (one_line text ≡ encode_utf8_all characters) × (list_any is_break characters ≡ false) }
{}
