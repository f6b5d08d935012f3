//! Writes the name of a file as a URI.

ghost use Rattle.std.specs.Prelude.{◌≡◌, ◌++◌, OnOk, IfOk};
ghost use Rattle.std.specs.String.{string_bytes};
ghost use Rattle.bibkit_core.specs.Uris as spec;

use std::alloc::{AllocError, Global};

// Returns whether a byte is kept in the path of a URI: an unreserved character of RFC 3986, or a slash.
fn is_path_byte(byte: u8) -> bool
    ensures { result ≡ spec.is_path_byte byte }
{
    byte.is_ascii_alphanumeric() || matches!(byte, b'-' | b'.' | b'_' | b'~' | b'/')
}

// Appends a byte of a path, or its percent-encoding.
fn push_byte(uri: &mut String, byte: u8) -> Result<(), AllocError>
    ensures { OnOk result (string_bytes uri.new ≡ string_bytes uri.old ++ spec.path_byte byte) }
{
    if is_path_byte(byte) {
        return uri.push(char::from(byte));
    }
    write!(uri, "%{byte:02X}")
}

/// Returns the name of a file as a relative URI.
pub fn uri(alloc: Global, name: &str) -> Result<String, AllocError>
    ensures { IfOk result (λ uri. string_bytes uri ≡ spec.uri name.now) }
{
    let mut uri = String::new(alloc);
    'bytes: for byte in name.as_bytes() {
        push_byte(&mut uri, *byte)?;
    }
    Ok(uri)
}
