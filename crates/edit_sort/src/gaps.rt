//! The gap between two entries, and the part of it that moves.

ghost use Rattle.std.specs.Prelude.{◌≡◌, ◌^◌, ◌-◌, ◌<◌};
ghost use Rattle.std.specs.Char.{is_ascii_whitespace};
ghost use Rattle.std.specs.List.{list_all};
ghost use Rattle.bib_text.specs.Characters as char;
ghost use Rattle.bib_syntax.specs.Recovery.{has_byte};
ghost use Rattle.edit_sort.specs.Sorted as sorted;
ghost use Rattle.edit_sort.specs.Steps as steps;

// Returns whether a text contains an at sign.
fn has_at_sign(gap: &str) -> bool
    ensures { result ≡ has_byte char.at gap.now }
{
    gap.contains('@')
}

// Returns whether a text is empty or ASCII white space.
fn is_blank(text: &str) -> bool
    ensures { result ≡ list_all is_ascii_whitespace text.now }
{
    text.trim_ascii_start().is_empty()
}

// Returns the text after a line if the line is empty or ASCII white space, otherwise the text that was kept before.
fn kept_after<'s>(line: &str, after: &'s str, kept: &'s str) -> &'s str
    ensures { result.now ≡ steps.kept_after (list_all is_ascii_whitespace line.now) after.now kept.now }
{
    if is_blank(line) { after } else { kept }
}

// Returns the text after the last blank line, or the whole text if it has none.
fn after_blank_line(gap: &str) -> &str
    ensures { result.now ≡ sorted.after_blank_line gap.now }
{
    let mut kept = gap;
    let mut rest = gap;
    'lines: while let Some((line, after)) = rest.split_once('\n') {
        kept = kept_after(line, after, kept);
        rest = after;
    }
    kept
}

// Returns whether a text contains a closing brace.
fn has_close_brace(text: &str) -> bool
    ensures { result ≡ has_byte char.close_brace text.now }
{
    text.contains('}')
}

// Returns whether a text contains a quote.
fn has_quote(text: &str) -> bool
    ensures { result ≡ has_byte char.quote text.now }
{
    text.contains('"')
}

// Returns whether a text contains an at sign, a closing brace or a quote.
fn has_block_sign(text: &str) -> bool
    ensures { result ≡ sorted.has_block_sign text.now }
{
    has_at_sign(text) || has_close_brace(text) || has_quote(text)
}

// Returns the comment in `near`, the `after_blank_line` of a gap at the start of a run. It is all of that text except ASCII white space
// at its start, or empty if a block may begin or end in the text.
fn near_comment(near: &str) -> &str
    ensures { result.now ≡ sorted.near_comment near.now }
{
    if has_block_sign(near) {
        ""
    } else {
        near.trim_ascii_start()
    }
}

// Returns whether an entry begins a run: it is the first of the file, or its gap contains an at sign.
fn begins_run(is_first: bool, gap: &str) -> bool
    ensures { result ≡ sorted.begins_run is_first gap.now }
{
    is_first || has_at_sign(gap)
}

// Returns the comment of an entry: the last part of the gap before it, which moves with the entry.
pub(crate) fn comment_in(is_first: bool, gap: &str) -> &str
    ensures { result.now ≡ sorted.comment_in is_first gap.now }
{
    if begins_run(is_first, gap) {
        near_comment(after_blank_line(gap))
    } else {
        gap.trim_ascii_start()
    }
}

// Returns the run after a gap: the next run if the gap contains an at sign, otherwise the same.
pub(crate) fn run_after(run: usize, gap: &str) -> usize
    requires { run < 2 ^ 64 - 1 }
    ensures { result ≡ steps.run_after run gap.now }
{
    if has_at_sign(gap) { run + 1 } else { run }
}
