//! The options of a layout.

ghost use Rattle.edit_format.specs.Usual.{IsUsual};

/// The delimiters of the literals of values. The text between them is unchanged. Numbers and abbreviations have no delimiters. An entry
/// that is copied (see `format`) keeps its delimiters.
#[derive(Debug, Clone, Copy, PartialEq, Eq)]
pub enum Delimiters {
    /// Each literal keeps its delimiters.
    Keep,
    /// Literals are in braces. A literal in quotes with unbalanced unescaped braces keeps its quotes, since in braces it would
    /// end elsewhere.
    Braces,
    /// Literals are in quotes. A literal in braces that contains a quote keeps its braces, since this library or BibTeX could
    /// end a quoted literal there.
    Quotes,
}

/// The layout of entries.
#[derive(Debug, Clone, Copy, PartialEq, Eq)]
pub struct Style<'a> {
    /// Number of spaces before a field.
    pub indent: usize,
    /// Whether the equals signs of an entry are in one column: names are padded to its longest name, in characters.
    pub aligned: bool,
    /// Whether a comma follows the last field of an entry.
    pub trailing_comma: bool,
    /// Number of blank lines between two entries that have at most ASCII white space between them. With `None`, this white
    /// space is unchanged.
    pub blank_lines: Option<usize>,
    /// The delimiters of the literals of values.
    pub delimiters: Delimiters,
    /// Names of fields, in any ASCII case. The fields of an entry with one of these names come first, in the order of the
    /// names. Fields with the same name, and the other fields, keep their relative order, so the last field of a name is still
    /// the last. An entry that is copied (see `format`) keeps its order.
    pub order: &'a [&'a str],
    /// Maximum number of characters of a line, for a field whose value has several pieces. A comma after the field counts, even
    /// if none is written, and so do line ends in the value. In a longer line, each piece except the first begins a new line, with
    /// its `#` in the column of the first piece. A value of one piece is never broken, since its text is unchanged. With `None`,
    /// no line is broken.
    pub width: Option<usize>,
}

impl<'a> Default for Style<'a> {
    ghost is_default = { IsUsual };

    fn default() -> Self {
        Style {
            indent: 2,
            aligned: false,
            trailing_comma: true,
            blank_lines: None,
            delimiters: Delimiters::Keep,
            order: &[],
            width: None,
        }
    }
}
