//! Bytes of a text at byte offsets.

ghost use Rattle.std.specs.Prelude.{◌≡◌, ◌+◌, ◌-◌, ◌^◌, ◌<◌, length};
ghost use Rattle.std.specs.Bool.{OnTrue};
ghost use Rattle.bib_text.specs.Places as places;
ghost use Rattle.bib_queries.specs.Bytes as spec;

/// Returns the bytes of `text` from the byte offset `start` to `end`, as far as the text has them. Returns none if `end` isn't after
/// `start`.
pub fn stretch(text: &str, start: usize, end: usize) -> &[u8]
    ensures is { result.now ≡ places.between (places.place text.now start) (places.place text.now end) }
    ensures bound { start + length result.now < 2 ^ 64 }
{
    let bytes = text.as_bytes();
    let end = end.min(bytes.len());
    &bytes[start.min(end)..end]
}

/// Returns whether a percent sign occurs in `text` between the byte offsets `start` and `end`.
pub fn has_percent(text: &str, start: usize, end: usize) -> bool
    ensures { result ≡ spec.has_percent text.now start end }
{
    stretch(text, start, end).contains(&b'%')
}

/// Returns whether `text` has this byte at the byte offset `at`.
pub fn has_byte(text: &str, at: usize, byte: u8) -> bool
    ensures is { result ≡ spec.has_byte_at text.now at byte }
    ensures bound { OnTrue result (at < 2 ^ 64 - 1) }
{
    match text.as_bytes().get(at) {
        Some(found) => *found == byte,
        None => false,
    }
}
