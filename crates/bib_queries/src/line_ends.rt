//! The line end of a text.

ghost use Rattle.std.specs.Prelude.{◌≡◌};
ghost use Rattle.bib_queries.specs.LineEnds.{line_end_of};

/// Returns the line end of a text: `\r\n` if its first line ends so, otherwise `\n`.
pub fn line_end(text: &str) -> &'static str
    ensures { result.now ≡ line_end_of text.now }
{
    match text.split_once('\n') {
        Some((line, _)) => if line.ends_with("\r") { "\r\n" } else { "\n" },
        None => "\n",
    }
}
