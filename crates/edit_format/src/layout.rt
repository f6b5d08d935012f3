//! The parameters of the functions that write an entry.

use crate::style::Style;

// The text of the file, its line end, and the style.
#[derive(Clone, Copy)]
pub(crate) struct Layout<'a, 'style> {
    pub(crate) text: &'a str,
    pub(crate) line_end: &'a str,
    pub(crate) style: Style<'style>,
}
