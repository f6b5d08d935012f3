//! Encodings, their names, and the encoding of a file.

ghost use Rattle.std.specs.Prelude.{◌≡◌, ◌≢◌, ◌≤◌, None, Some, length};
ghost use Rattle.std.specs.Str.{IsUtf8};
ghost use Rattle.bib_recode.specs.Encodings.{encoding_mark, encoding_named, length_of_mark, marked_as};

use std::str::from_utf8;

/// How the bytes of a file encode a text.
#[derive(Debug, Clone, Copy, PartialEq, Eq)]
pub enum Encoding {
    /// UTF-8.
    Utf8,
    /// UTF-16 with the low byte of each unit first.
    Utf16LittleEndian,
    /// UTF-16 with the high byte of each unit first.
    Utf16BigEndian,
    /// Windows-1252, as the WHATWG Encoding Standard defines it.
    Windows1252,
    /// ISO 8859-1: the code point of each character is its byte.
    Latin1,
}

impl Encoding {
    /// Returns the encoding with this name, in any ASCII case: `utf-8`, `utf8`, `utf-16`, `utf-16le`, `utf-16be`, `windows-1252`, `cp1252`,
    /// `latin1` or `iso-8859-1`. Returns `None` for any other word. As in the WHATWG Encoding Standard, `utf-16` is little-endian.
    pub fn from_name(name: &str) -> Option<Encoding>
        ensures { result ≡ encoding_named name.now }
    {
        if name.eq_ignore_ascii_case("utf-8") || name.eq_ignore_ascii_case("utf8") {
            return Some(Encoding::Utf8);
        }
        if name.eq_ignore_ascii_case("utf-16") || name.eq_ignore_ascii_case("utf-16le") {
            return Some(Encoding::Utf16LittleEndian);
        }
        if name.eq_ignore_ascii_case("utf-16be") {
            return Some(Encoding::Utf16BigEndian);
        }
        if name.eq_ignore_ascii_case("windows-1252") || name.eq_ignore_ascii_case("cp1252") {
            return Some(Encoding::Windows1252);
        }
        if name.eq_ignore_ascii_case("latin1") || name.eq_ignore_ascii_case("iso-8859-1") {
            return Some(Encoding::Latin1);
        }
        None
    }

    // Returns the byte order mark in this encoding, or no bytes if it has none.
    fn mark(self) -> &'static [u8]
        ensures { result.now ≡ encoding_mark self }
    {
        match self {
            Encoding::Utf8 => b"\xEF\xBB\xBF",
            Encoding::Utf16LittleEndian => b"\xFF\xFE",
            Encoding::Utf16BigEndian => b"\xFE\xFF",
            Encoding::Windows1252 | Encoding::Latin1 => b"",
        }
    }

    // Returns the length in bytes of this encoding's mark at the start of a file, or 0 if the file doesn't begin with it.
    pub(crate) fn mark_length(self, bytes: &[u8]) -> usize
        ensures is { result ≡ length_of_mark self bytes.now }
        ensures within { result ≤ length bytes.now }
    {
        let mark = self.mark();
        if bytes.starts_with(mark) {
            mark.len()
        } else {
            0
        }
    }
}

/// Returns the encoding whose byte order mark is at the start of a file, or `None` if it has none.
pub fn marked_as(bytes: &[u8]) -> Option<Encoding>
    ensures { result ≡ marked_as bytes.now }
{
    if bytes.starts_with(b"\xEF\xBB\xBF") {
        return Some(Encoding::Utf8);
    }
    if bytes.starts_with(b"\xFF\xFE") {
        return Some(Encoding::Utf16LittleEndian);
    }
    if bytes.starts_with(b"\xFE\xFF") {
        return Some(Encoding::Utf16BigEndian);
    }
    None
}

// Returns UTF-8 if bytes are valid UTF-8, and `None` otherwise.
fn if_utf8(bytes: &[u8]) -> Option<Encoding>
    ensures valid { IsUtf8 bytes.now → result ≡ Some Encoding.Utf8 }
    ensures invalid { ¬ (IsUtf8 bytes.now) → result ≡ None }
{
    match from_utf8(bytes) {
        Ok(_) => Some(Encoding::Utf8),
        Err(_) => None,
    }
}

/// Returns the encoding of a file. This is the one of the byte order mark at its start, or UTF-8 if it has no mark and is valid UTF-8.
/// Returns `None` for any other bytes.
pub fn detect(bytes: &[u8]) -> Option<Encoding>
    ensures marked { marked_as bytes.now ≢ None → result ≡ marked_as bytes.now }
    ensures valid { marked_as bytes.now ≡ None → IsUtf8 bytes.now → result ≡ Some Encoding.Utf8 }
    ensures unknown { marked_as bytes.now ≡ None → ¬ (IsUtf8 bytes.now) → result ≡ None }
{
    match marked_as(bytes) {
        Some(encoding) => Some(encoding),
        None => if_utf8(bytes),
    }
}
