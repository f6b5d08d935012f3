//! Removes entries and fields.

ghost use Rattle.std.specs.Prelude.{◌≡◌, ◌+◌, ◌-◌, ◌^◌, ◌++◌, ◌≤◌, ◌<◌, ℕ, [], ◌∷◌, IfOk, OnOk, length, map, option_map};
ghost use Rattle.std.specs.Char.{is_ascii_whitespace, is_whitespace};
ghost use Rattle.std.specs.List.{AllByRecursion, list_all, prefix_len};
ghost use Rattle.std.specs.Str.{IsCharBoundary};
ghost use Rattle.std.specs.String.{string_bytes};
ghost use Rattle.bib_text.specs.Places.{Longest};
ghost use Rattle.bib_text.specs.Places as places;
ghost use Rattle.bib_syntax.specs.Views.{entry_reading_of, field_of};
ghost use Rattle.edit_entries.specs.Documents as documents;
ghost use Rattle.edit_entries.specs.Edits as edits;
ghost use Rattle.edit_entries.specs.Placed.{IsEntryPlaced};
ghost use Rattle.edit_entries.specs.EditList.{edit_of};
ghost use Rattle.edit_entries.specs.Placed.{IsPlaced};
ghost use Rattle.edit_entries.specs.Selected.{AreRemovals};
ghost use Rattle.edit_entries.specs.Unset as unset;

use crate::editing::{Edit, edited};
use crate::setting::has_field;
use crate::values::value_end;
use bib_queries::bytes::{has_byte, has_percent, stretch};
use bib_syntax::raw::{Pair, RawEntry, is_word};
use bib_text::scanner::Scanner;
use bib_text::spanned::Spanned;
use std::alloc::{AllocError, Global};

// Returns the byte offset after the white space at a byte offset of a text.
fn after_white(text: &str, place: usize) -> usize
    requires { IsCharBoundary text.now place }
    ensures white { Longest is_whitespace (places.place text.now place) (places.place text.now result) }
    ensures boundary { IsCharBoundary text.now result }
    ensures forward { place ≤ result }
{
    let mut s = Scanner::new(text);
    s.jump(place);
    s.eat_whitespace();
    s.cursor()
}

// Returns the byte offset after an entry and the white space after it.
fn after_entry(text: &str, entry: &Spanned<RawEntry<'_>>) -> usize
    requires { IsEntryPlaced text.now (entry_reading_of entry.now) }
    ensures white { Longest is_whitespace (places.place text.now ((entry_reading_of entry.now).end + 1)) (places.place text.now result) }
    ensures boundary { IsCharBoundary text.now result }
    ensures forward { (entry_reading_of entry.now).end + 1 ≤ result }
{
    after_white(text, entry.span.end + 1)
}

// Returns the text without an entry and the white space after it.
pub(crate) fn without_entry(
    alloc: Global,
    text: &str,
    entry: &Spanned<RawEntry<'_>>,
) -> Result<String, AllocError>
    requires { IsEntryPlaced text.now (entry_reading_of entry.now) }
    ensures { IfOk result (λ new. (at : ℕ) ×
        Longest is_whitespace (places.place text.now ((entry_reading_of entry.now).end + 1)) (places.place text.now at) ×
        (string_bytes new ≡ edits.edited (record { start = (entry_reading_of entry.now).start; end = at; bytes = [] }) text.now)) }
{
    let end = after_entry(text, entry);
    edited(alloc, text, entry.span.start, end, "")
}

// Returns the edit that removes an entry and the white space after it.
pub(crate) fn entry_removal(alloc: Global, text: &str, entry: &Spanned<RawEntry<'_>>) -> Edit
    requires { IsEntryPlaced text.now (entry_reading_of entry.now) }
    ensures { AreRemovals text.now (entry_reading_of entry.now ∷ []) (edit_of result ∷ []) }
{
    Edit {
        start: entry.span.start,
        end: after_entry(text, entry),
        text: String::new(alloc),
    }
}

// Returns the byte offset of the next field, or of the closing brace if there is none.
fn field_limit(entry: &Spanned<RawEntry<'_>>, index: usize) -> usize
    requires { index < length (entry_reading_of entry.now).fields }
    ensures { result ≡ documents.field_limit (entry_reading_of entry.now) index }
{
    match entry.v.fields.get(index + 1) {
        Some(next) => next.key.span.start,
        None => entry.span.end,
    }
}

// Adds the edit that removes a field up to the next one or the closing brace, if the field has `name`. `index` is that of the field.
fn push_removal(
    edits: &mut Vec<Edit>,
    alloc: Global,
    entry: &Spanned<RawEntry<'_>>,
    index: usize,
    field: &Pair<'_>,
    name: &str,
) -> Result<(), AllocError>
    requires { index < length (entry_reading_of entry.now).fields }
    ensures { OnOk result (map edit_of edits.new.items ≡ map edit_of edits.old.items
        ++ unset.removal name.now (entry_reading_of entry.now) index (field_of field.now)) }
{
    if !is_word(field.key.v, name) {
        return Ok(());
    }
    let end = field_limit(entry, index);
    edits.push(Edit {
        start: field.key.span.start,
        end,
        text: String::new(alloc),
    })?;
    Ok(())
}

// Returns the edits that remove each field with `name` from an entry, up to the next field or the closing brace.
pub(crate) fn removals(
    alloc: Global,
    entry: &Spanned<RawEntry<'_>>,
    name: &str,
) -> Result<Vec<Edit>, AllocError>
    ensures { IfOk result (λ edits. map edit_of edits.items ≡
        unset.removals name.now (entry_reading_of entry.now) 0 (entry_reading_of entry.now).fields) }
{
    let mut edits = Vec::new(alloc);
    'fields: for (index, field) in entry.v.fields.iter().enumerate() {
        push_removal(&mut edits, alloc, entry, index, field, name)?;
    }
    Ok(edits)
}

// Returns whether each of these fields has a name, in any ASCII case.
fn are_named(fields: &[Pair<'_>], name: &str) -> bool
    ensures { result ≡ list_all (documents.has_name name.now) (map field_of fields.now) }
{
    'fields: for field in fields {
        let is_named = is_word(field.key.v, name);
        if !is_named {
            return false;
        }
    }
    true
}

// Returns whether there are fields, and each of them has a name, in any ASCII case.
pub(crate) fn have_only(fields: &[Pair<'_>], name: &str) -> bool
    ensures { result ≡ documents.have_only name.now (map field_of fields.now) }
{
    has_field(fields, name) && are_named(fields, name)
}

// Returns the byte offset at which the value before the field with an index ends, or the key before the first field.
fn end_before(entry: &Spanned<RawEntry<'_>>, index: usize) -> usize
    requires { index < length (entry_reading_of entry.now).fields }
    ensures { result ≡ unset.end_before (entry_reading_of entry.now) index }
{
    if index == 0 {
        return entry.v.key.span.end;
    }
    entry.v.fields[index - 1].value.span.end
}

// Returns the number of bytes of ASCII white space at the start.
fn white_len(bytes: &[u8]) -> usize
    ensures { result ≡ prefix_len is_ascii_whitespace bytes.now }
{
    bytes.iter().take_while(|b| b.is_ascii_whitespace()).count()
}

// Returns the number of bytes before the first line feed, or of all bytes if there is none.
fn line_len(bytes: &[u8]) -> usize
    ensures { result ≡ prefix_len unset.is_no_line_feed bytes.now }
{
    bytes.iter().take_while(|b| **b != b'\n').count()
}

// Returns the number of bytes of ASCII white space at the start, before the first line feed.
fn blank_len(bytes: &[u8]) -> usize
    ensures { result ≡ prefix_len unset.is_line_space bytes.now }
{
    bytes
        .iter()
        .take_while(|b| b.is_ascii_whitespace() && **b != b'\n')
        .count()
}

// Returns the byte offset after the ASCII white space at the start of the text between two byte offsets.
fn white_end(text: &str, start: usize, end: usize) -> usize
    ensures { result ≡ unset.after_bytes is_ascii_whitespace text.now start end }
{
    start + white_len(stretch(text, start, end))
}

// Returns the byte offset of the first line feed in the stretch from `start` to `end`, or else `start` plus the length of the stretch.
fn line_feed(text: &str, start: usize, end: usize) -> usize
    ensures { result ≡ unset.after_bytes unset.is_no_line_feed text.now start end }
{
    start + line_len(stretch(text, start, end))
}

// Returns the byte offset after the ASCII white space at the start of the text between two byte offsets, before its first line
// feed.
fn blank_end(text: &str, start: usize, end: usize) -> usize
    ensures { result ≡ unset.after_bytes unset.is_line_space text.now start end }
{
    start + blank_len(stretch(text, start, end))
}

// Returns the byte offset of the line end at a line feed: LF or CR LF.
fn line_end_at(text: &str, feed: usize) -> usize
    ensures { result ≡ unset.line_end_at text.now feed }
{
    let before = feed.saturating_sub(1);
    if has_byte(text, before, b'\r') {
        before
    } else {
        feed
    }
}

// Returns the byte offset after the ASCII white space at `start`, in which one line comment may occur. `end` bounds both.
fn gap_end(text: &str, start: usize, end: usize) -> usize
    ensures { result ≡ unset.gap_end text.now start end }
{
    let sign = white_end(text, start, end);
    if !has_byte(text, sign, b'%') {
        return sign;
    }
    white_end(text, line_feed(text, sign, end), end)
}

// Returns the byte offset at which the comma before the field with an index is expected.
pub(crate) fn comma_before(
    text: &str,
    entry: &Spanned<RawEntry<'_>>,
    index: usize,
    field: &Pair<'_>,
) -> usize
    requires { index < length (entry_reading_of entry.now).fields }
    ensures { result ≡ unset.comma_before text.now (entry_reading_of entry.now) index (field_of field.now) }
{
    gap_end(text, end_before(entry, index), field.key.span.start)
}

// Returns the byte offset at which the comma of a field, or else the closing brace, is expected. `index` is that of the field.
pub(crate) fn comma_after(
    text: &str,
    entry: &Spanned<RawEntry<'_>>,
    index: usize,
    field: &Pair<'_>,
) -> usize
    requires { index < length (entry_reading_of entry.now).fields }
    ensures { result ≡ unset.comma_after text.now (entry_reading_of entry.now) index (field_of field.now) }
{
    gap_end(text, field.value.span.end, field_limit(entry, index))
}

// Returns whether a comma or a closing brace is at the place where the comma of a field is expected.
fn is_closed(text: &str, entry: &Spanned<RawEntry<'_>>, index: usize, field: &Pair<'_>) -> bool
    requires { index < length (entry_reading_of entry.now).fields }
    ensures { result ≡ unset.is_closed text.now (entry_reading_of entry.now) index (field_of field.now) }
{
    let at = comma_after(text, entry, index, field);
    has_byte(text, at, b',') || has_byte(text, at, b'}')
}

// Returns whether a line comment follows a field's value on the line on which the value ends.
fn has_comment_beside(text: &str, field: &Pair<'_>) -> bool
    requires { IsPlaced text.now (field_of field.now) }
    ensures { result ≡ unset.has_comment_beside text.now (field_of field.now) }
{
    let end = field.value.span.end;
    has_byte(text, end, b'%') && line_feed(text, value_end(text, field), end) == end
}

// Returns the byte offset at which a field without a comma ends: after the comment on the line of its value's end, or else after its value.
fn own_end(text: &str, entry: &Spanned<RawEntry<'_>>, index: usize, field: &Pair<'_>) -> usize
    requires index { index < length (entry_reading_of entry.now).fields }
    requires placed { IsPlaced text.now (field_of field.now) }
    ensures { result ≡ unset.own_end text.now (entry_reading_of entry.now) index (field_of field.now) }
{
    if has_comment_beside(text, field) {
        let end = field.value.span.end;
        return line_end_at(text, line_feed(text, end, field_limit(entry, index)));
    }
    value_end(text, field)
}

// Returns the byte offset after the comma of a field, or at which it ends if it has no comma.
fn comma_end(text: &str, entry: &Spanned<RawEntry<'_>>, index: usize, field: &Pair<'_>) -> usize
    requires index { index < length (entry_reading_of entry.now).fields }
    requires placed { IsPlaced text.now (field_of field.now) }
    ensures { result ≡ unset.comma_end text.now (entry_reading_of entry.now) index (field_of field.now) }
{
    let comma = comma_after(text, entry, index, field);
    if has_byte(text, comma, b',') {
        return comma + 1;
    }
    own_end(text, entry, index, field)
}

// Returns the edit that removes a field after a comment, if there is one. It joins the comment and the next one, or removes the lines of
// the field. `feed` is the byte offset of the comment's line feed.
fn following_edit(
    alloc: Global,
    text: &str,
    entry: &Spanned<RawEntry<'_>>,
    index: usize,
    field: &Pair<'_>,
    feed: usize,
) -> Result<Option<Edit>, AllocError>
    requires index { index < length (entry_reading_of entry.now).fields }
    requires placed { IsPlaced text.now (field_of field.now) }
    requires feed { feed ≡ unset.feed_before text.now (entry_reading_of entry.now) index (field_of field.now) }
    requires bound { feed < 2 ^ 64 - 1 }
    ensures { IfOk result (λ found. option_map edit_of found ≡
        unset.following_edit text.now (entry_reading_of entry.now) index (field_of field.now)) }
{
    let comma = comma_end(text, entry, index, field);
    let limit = field_limit(entry, index);
    let sign = white_end(text, comma, limit);
    if has_byte(text, sign, b'%') {
        return Ok(Some(Edit {
            start: line_end_at(text, feed),
            end: sign,
            text: String::from_str(alloc, " ")?,
        }));
    }
    let end = blank_end(text, comma, limit);
    if sign != limit || !has_byte(text, end, b'\n') {
        return Ok(None);
    }
    Ok(Some(Edit {
        start: feed + 1,
        end: end + 1,
        text: String::new(alloc),
    }))
}

// Returns the edit that removes a field after a comment, if there is one.
fn commented_edit(
    alloc: Global,
    text: &str,
    entry: &Spanned<RawEntry<'_>>,
    index: usize,
    field: &Pair<'_>,
) -> Result<Option<Edit>, AllocError>
    requires index { index < length (entry_reading_of entry.now).fields }
    requires placed { IsPlaced text.now (field_of field.now) }
    requires bound { unset.comma_before text.now (entry_reading_of entry.now) index (field_of field.now) < 2 ^ 64 - 1 }
    ensures { IfOk result (λ found. option_map edit_of found ≡
        unset.commented_edit text.now (entry_reading_of entry.now) index (field_of field.now)) }
{
    let name = field.key.span.start;
    let sign = white_end(text, comma_before(text, entry, index, field) + 1, name);
    let feed = line_feed(text, sign, name);
    if !has_byte(text, sign, b'%') || !has_byte(text, feed, b'\n') {
        return Ok(None);
    }
    following_edit(alloc, text, entry, index, field, feed)
}

// Returns the edit that removes a field and no comment of another one, if there is one.
pub(crate) fn own_edit(
    alloc: Global,
    text: &str,
    entry: &Spanned<RawEntry<'_>>,
    index: usize,
    field: &Pair<'_>,
) -> Result<Option<Edit>, AllocError>
    requires index { index < length (entry_reading_of entry.now).fields }
    requires placed { IsPlaced text.now (field_of field.now) }
    ensures { IfOk result (λ found. option_map edit_of found ≡
        unset.own_edit text.now (entry_reading_of entry.now) index (field_of field.now)) }
{
    let start = comma_before(text, entry, index, field);
    if !has_byte(text, start, b',') || !is_closed(text, entry, index, field) {
        return Ok(None);
    }
    if has_percent(text, start, field.key.span.start) {
        return commented_edit(alloc, text, entry, index, field);
    }
    Ok(Some(Edit {
        start: start + 1,
        end: comma_end(text, entry, index, field),
        text: String::new(alloc),
    }))
}
