//! Tables of texts, in which each row has a name and a text, and lists of names.

ghost use Rattle.std.specs.Prelude.{◌≡◌, bytes_eq};
ghost use Rattle.std.specs.List.{list_any};
ghost use Rattle.std.specs.Option.{option_map};
ghost use Rattle.bib_text.specs.Enums.{value_named};
ghost use Rattle.bib_tables.specs.Requirements.{texts};
ghost use Rattle.bib_csl.specs.Named.{text_rows, text_named};

/// Returns the text in the first row with exactly this name, or `None`.
pub fn find_text(rows: &[(&str, &'static str)], name: &str) -> Option<&'static str>
    ensures { option_map (λ text. text.now) result ≡ value_named (text_rows rows.entry.now) name.now }
{
    'rows: for (row_name, text) in rows {
        if *row_name == name {
            return Some(*text);
        }
    }
    None
}

/// Returns the text in the first row with exactly this name, or an empty text.
pub fn text_named(rows: &[(&str, &'static str)], name: &str) -> &'static str
    ensures { result.now ≡ text_named (text_rows rows.entry.now) name.now }
{
    match find_text(rows, name) {
        Some(text) => text,
        None => "",
    }
}

/// Returns whether a list has exactly this name.
pub fn is_among(names: &[&'static str], name: &str) -> bool
    ensures { result ≡ list_any (bytes_eq name.now) (texts names.now) }
{
    names.iter().any(|known| name == *known)
}
