//! The lines that two texts have in common at their starts and at their ends.

ghost use Rattle.std.specs.Prelude.{◌≡◌, ◌≤◌, ◌-◌, drop, length, take};
ghost use Rattle.bib_source.specs.Comparison.{BeginDifferently, EndDifferently, HaveCommonEnds, line_texts};

// Two lists of lines, cut into their common start, their common end, and the lines of each list between these.
#[derive(Clone, Copy)]
pub(crate) struct Ends<'s, 't> {
    pub(crate) start: &'s [&'t str],
    pub(crate) removed: &'s [&'t str],
    pub(crate) added: &'s [&'t str],
    pub(crate) end: &'s [&'t str],
}

// Returns the number of equal lines at the start of both lists.
fn common_start(old: &[&str], new: &[&str]) -> usize
    ensures in_old { result ≤ length old.now }
    ensures in_new { result ≤ length new.now }
    ensures same { line_texts (take result old.now) ≡ line_texts (take result new.now) }
    ensures longest { BeginDifferently (line_texts (drop result old.now)) (line_texts (drop result new.now)) }
{
    let limit = old.len().min(new.len());
    'lines: for index in 0..limit {
        if old[index] != new[index] {
            return index;
        }
    }
    limit
}

// Returns the number of equal lines at the end of both lists.
fn common_end(old: &[&str], new: &[&str]) -> usize
    ensures in_old { result ≤ length old.now }
    ensures in_new { result ≤ length new.now }
    ensures same { line_texts (drop (length old.now - result) old.now) ≡ line_texts (drop (length new.now - result) new.now) }
    ensures longest { EndDifferently (line_texts (take (length old.now - result) old.now))
        (line_texts (take (length new.now - result) new.now)) }
{
    let limit = old.len().min(new.len());
    'lines: for index in 0..limit {
        if old[old.len() - 1 - index] != new[new.len() - 1 - index] {
            return index;
        }
    }
    limit
}

// Cuts two lists of lines after their common start and before their common end.
pub(crate) fn find_ends<'s, 't>(old: &'s [&'t str], new: &'s [&'t str]) -> Ends<'s, 't>
    ensures { HaveCommonEnds (line_texts old.now) (line_texts new.now)
        (line_texts result.start.now) (line_texts result.removed.now) (line_texts result.added.now) (line_texts result.end.now) }
{
    let start = common_start(old, new);
    let old_rest = &old[start..];
    let new_rest = &new[start..];
    let end = common_end(old_rest, new_rest);
    let old_end = old_rest.len() - end;
    Ends {
        start: &old[..start],
        removed: &old_rest[..old_end],
        added: &new_rest[..new_rest.len() - end],
        end: &old_rest[old_end..],
    }
}
