//! A finding.

use crate::codes::Code;
use bib_text::spanned::Span;
use bib_text::text::Text;

/// An error, a likely mistake, or information about a file.
#[derive(Debug, Clone, PartialEq, Eq, Drop)]
pub struct Finding {
    /// The code of the problem.
    pub code: Code,
    /// Its place, in bytes of the text with the finding. For `UnreadBytes` and `EscapeSequence`, in bytes of the file.
    pub span: Span,
    /// The message. It is one line, unless it quotes a citation or a key of a reference field that contains a line break.
    pub message: Text,
}
